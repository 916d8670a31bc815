// Checks the plan in plan.txt against the job in job.txt: prints `OK`, or `N,` and the number, for 12 also the task.
#![tactic(auto)]

ghost use Rattle.std.specs.Prelude.{length, List, ◌≡◌, ℕ};
ghost use Rattle.definitions.specs.Limits.{document01};
ghost use Rattle.definitions.specs.Tools.{Says, check_printed, verdict};
ghost use Rattle.io.specs.Counts.{IsPrefixLen};
ghost use Rattle.lists.specs.Over.{over};

use mirguneth::Fault;
use std::io::Write;

// What is printed for the two texts, at the front of `out`, which has room for `N,` and two numbers. The answer is its length.
fn answer(job: &[u8], plan: &[u8], out: &mut [u8]) -> usize
    requires { length out.old ≡ 24 }
    ensures by_index { (ns : List ℕ) × Says (verdict document01 job.now plan.now)
        ns × (result ≡ length (check_printed document01 ns)) × (out.new ≡ over out.old 0 (check_printed document01 ns)) }
    ensures counted { IsPrefixLen result out.new }
{
    match mirguneth::check(job, plan) {
        Ok(()) => text::write_fixed(out, 0, b"OK\n"),
        Err(Fault::Doubled(t)) => console::write_doubled(out, u64::from(t)),
        Err(Fault::Refused(x)) => console::write_refusal(out, u64::from(x)),
    }
}

fn main(rt: HostRuntime) -> std::io::Result<()> {
    let mut job = [0u8; 65537];
    let mut plan = [0u8; 65537];
    let mut out = [0u8; 24];
    let n = console::load(&rt, b"job.txt", &mut job);
    let k = console::load(&rt, b"plan.txt", &mut plan);
    let r = answer(&job[..n], &plan[..k], &mut out);
    rt.stdout().write_all(&out[..r])
}
