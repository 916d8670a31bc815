// Prints the plan for the job in job.txt, or `N,` and the number.
#![tactic(auto)]

ghost use Rattle.std.specs.Prelude.{length, ◌≡◌};
ghost use Rattle.definitions.specs.Tools.{plan_printed};
ghost use Rattle.io.specs.Counts.{IsPrefixLen};
ghost use Rattle.lists.specs.Over.{over};

use std::io::Write;

// What is printed for the job's text, at the front of `out`, which has room for the longest plan. The answer is its length.
// Kept: the same `match` is in another program: a function for both would be a new one of `console`, longer than it.
fn answer(job: &[u8], out: &mut [u8]) -> usize
    requires { length out.old ≡ 65536 }
    ensures value { result ≡ length (plan_printed job.now) }
    ensures holds { out.new ≡ over out.old 0 (plan_printed job.now) }
    ensures counted { IsPrefixLen result out.new }
{
    match mirguneth::plan(job, out) {
        Ok(k) => k,
        Err(x) => console::write_refusal(out, u64::from(x)),
    }
}

fn main(rt: HostRuntime) -> std::io::Result<()> {
    let mut job = [0u8; 65537];
    let mut out = [0u8; 65536];
    let n = console::load(&rt, b"job.txt", &mut job);
    let k = answer(&job[..n], &mut out);
    rt.stdout().write_all(&out[..k])
}
