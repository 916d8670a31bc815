// Replays the plan in plan.txt for the job in job.txt under the stops in stops.txt: prints the R and L lines, or `N,` and
// the number.
#![tactic(auto)]

ghost use Rattle.std.specs.Prelude.{length, ◌≡◌};
ghost use Rattle.definitions.specs.Tools.{replay_printed};
ghost use Rattle.io.specs.Counts.{IsPrefixLen};
ghost use Rattle.lists.specs.Over.{over};

use std::io::Write;

// What is printed for the three texts, at the front of `out`, which has room for it in any case: 255 R lines have at most 20
// bytes each, the L line 13. The answer is its length.
// Kept: the same `match` is in another program: a function for both would be a new one of `console`, longer than it.
fn answer(job: &[u8], plan: &[u8], stops: &[u8], out: &mut [u8]) -> usize
    requires { length out.old ≡ 5113 }
    ensures value { result ≡ length (replay_printed job.now plan.now stops.now) }
    ensures holds { out.new ≡ over out.old 0 (replay_printed job.now plan.now stops.now) }
    ensures counted { IsPrefixLen result out.new }
{
    match mirguneth::replay(job, plan, stops, out) {
        Ok(n) => n,
        Err(x) => console::write_refusal(out, u64::from(x)),
    }
}

fn main(rt: HostRuntime) -> std::io::Result<()> {
    let mut job = [0u8; 65537];
    let mut plan = [0u8; 65537];
    let mut stops = [0u8; 65537];
    let mut out = [0u8; 5113];
    let j = console::load(&rt, b"job.txt", &mut job);
    let p = console::load(&rt, b"plan.txt", &mut plan);
    let s = console::load(&rt, b"stops.txt", &mut stops);
    let n = answer(&job[..j], &plan[..p], &stops[..s], &mut out);
    rt.stdout().write_all(&out[..n])
}
