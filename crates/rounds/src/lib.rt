// The planner, the checker and the replay, from texts to text, each in a working memory that is lent.
#![tactic(auto)]

ghost use Rattle.std.specs.Prelude.{◌≡◌, length};
ghost use Rattle.definitions.specs.Limits.{document01};
ghost use Rattle.jobs.specs.Answers.{Answered};
ghost use Rattle.heads.specs.Heads.{head_of};
ghost use Rattle.jobs.specs.Loading.{job_from};
ghost use Rattle.plans.specs.Loading.{both_from};
ghost use Rattle.rounds.specs.Tools.{plan_of, verdict_both, replay_both};
ghost use Rattle.rounds.specs.Verdicts.{Judged};

use heads::Opened;
use jobs::House;
use text::refusal::Refusal;

mod checker;
mod clocks;
mod free;
mod levels;
mod makespans;
mod numbers;
mod plan_text;
mod planner;
mod priority;
mod replaying;
mod results;
mod row;
mod times;
mod tools;
mod walk;

// Why a plan is not accepted: 12 with a task that has two replicas on one processor, or another number.
#[derive(Clone, Copy, Debug, PartialEq, Eq, Hash)]
pub enum Fault {
    Doubled(u8),
    Refused(Refusal),
}

impl From<Refusal> for Fault {
    ghost use Rattle.rounds.specs.declared.Fault.TheVariants.{Refused};

    ghost from_gives = { λ refusal fault. fault ≡ Refused refusal };

    fn from(refusal: Refusal) -> Fault {
        Fault::Refused(refusal)
    }
}

// The plan for a job's text, whose head was read, written into `out`, if it fits: how many bytes were written. `mem` is a working memory
// of this capacity, `links` one for the links between the job's edges.
pub fn plan_in(
    job: Opened,
    mem: &mut [u64],
    links: &mut [u64],
    capacity: usize,
    out: &mut [u8],
) -> Result<usize, Refusal>
    ensures { Answered (plan_of document01 (job_from document01 capacity (length mem.old) (length links.old) (head_of job.entry.head) job.entry.rest.now) (length out.old))
        out.old out.new result }
{
    jobs::load_job(job, mem, links, capacity)?;
    tools::put_plan(mem, &links[..], capacity, out)
}

// The checker's answer to two texts, the head of the job's being read.
pub fn check_in(
    job: Opened,
    plan: &[u8],
    mem: &mut [u64],
    links: &mut [u64],
    capacity: usize,
) -> Result<(), Fault>
    ensures { Judged (verdict_both document01
        (both_from document01 capacity (length mem.old) (length links.old) (head_of job.entry.head) job.entry.rest.now plan.now)) result }
{
    plans::load_both(job, plan, mem, links, capacity)?;
    checker::judge(House {
        mem: &mem[..],
        links: &links[..],
        capacity,
    })
}

// The replay of three texts, the head of the job's being read, written into `out`, if it fits: how many bytes were written.
pub fn replay_in(
    job: Opened,
    plan: &[u8],
    stops: &[u8],
    mem: &mut [u64],
    links: &mut [u64],
    capacity: usize,
    out: &mut [u8],
) -> Result<usize, Refusal>
    ensures { Answered (replay_both document01 (both_from document01 capacity (length mem.old) (length links.old) (head_of job.entry.head) job.entry.rest.now plan.now)
        stops.now (length out.old)) out.old out.new result }
{
    plans::load_both(job, plan, mem, links, capacity)?;
    tools::put_replay(stops, mem, &links[..], capacity, out)
}
