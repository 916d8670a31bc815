// The library for C and Rust: numbers and byte slices.
#![tactic(auto)]

ghost use Rattle.std.specs.Prelude.{List, ℕ, length};
ghost use Rattle.definitions.specs.Claims.{Bears, Breaks};
ghost use Rattle.definitions.specs.Limits.{document01};
ghost use Rattle.definitions.specs.Text as Text;
ghost use Rattle.definitions.specs.Tools.{plan_answer, verdict, replay_answer};
ghost use Rattle.jobs.specs.Answers.{Answered, job_answer};
ghost use Rattle.exports.specs.Exported.{Exported, ExportedVerdict};

use mirguneth::{Fault, Refusal};

// A tool's answer in numbers: 0 with the count written, or the number of the refusal.
// Kept: numbers, and a value through a reference, are the C interface.
fn in_numbers(answer: Result<usize, Refusal>, written: &mut u64) -> u64
    ensures { (x : Text.Result (List ℕ)) (d e : List ℕ) → Answered x d e answer → Exported x d e written.old written.new result }
{
    match answer {
        Ok(n) => {
            *written = n as u64;
            0
        }
        Err(refusal) => u64::from(refusal),
    }
}

// A job's text in cells: 0 with the number of cells written, or the number of the refusal.
#[unsafe(no_mangle)]
pub extern "C" fn mirguneth_read_job(text: &[u8], cells: &mut [u64], written: &mut u64) -> u64
    ensures { Exported (job_answer document01 text.now (length cells.old)) cells.old cells.new written.old written.new result }
{
    in_numbers(mirguneth::read_job(text, cells), written)
}

// The plan for a job: 0 with the number of bytes written, or the number of the refusal.
#[unsafe(no_mangle)]
pub extern "C" fn mirguneth_plan(job: &[u8], out: &mut [u8], written: &mut u64) -> u64
    ensures { Exported (plan_answer document01 job.now (length out.old)) out.old out.new written.old written.new result }
{
    in_numbers(mirguneth::plan(job, out), written)
}

// A plan held against its job: 0, or 12 with a task that has two replicas on one processor, or another number.
#[unsafe(no_mangle)]
pub extern "C" fn mirguneth_check(job: &[u8], plan: &[u8], task: &mut u64) -> u64
    ensures exported_verdict { ExportedVerdict (verdict document01 job.now plan.now) task.old task.new result }
    ensures breaks { Breaks job.now plan.now }
{
    match mirguneth::check(job, plan) {
        Ok(()) => 0,
        Err(Fault::Doubled(t)) => {
            *task = u64::from(t);
            12
        }
        Err(Fault::Refused(x)) => u64::from(x),
    }
}

// The replay of a plan under stops: 0 with the number of bytes written, or the number of the refusal.
#[unsafe(no_mangle)]
pub extern "C" fn mirguneth_replay(
    job: &[u8],
    plan: &[u8],
    stops: &[u8],
    out: &mut [u8],
    written: &mut u64,
) -> u64
    ensures answered { Exported (replay_answer document01 job.now plan.now stops.now (length out.old)) out.old
        out.new written.old written.new result }
    ensures bears { Bears job.now plan.now stops.now }
{
    in_numbers(mirguneth::replay(job, plan, stops, out), written)
}
