// The replay's answer, counted or written: an R line for each task, then the L line.
ghost use Rattle.std.specs.Prelude.{◌≡◌, ◌+◌, ◌*◌, ◌<◌, ◌≤◌, length};
ghost use Rattle.definitions.specs.Lists.{nth};
ghost use Rattle.definitions.specs.Limits.{document01};
ghost use Rattle.definitions.specs.Replay.{replay_text};
ghost use Rattle.text.specs.Meaning.{written};
ghost use Rattle.printing.specs.Rendered.{Rendered};
ghost use Rattle.jobs.specs.Held.{job_in, LinksHeld};
ghost use Rattle.plans.specs.Lines.{LinesHeld};
ghost use Rattle.rounds.specs.Replaying.{outcomes_in, RisingIn};
ghost use Rattle.rounds.specs.Texts.{task_line};

use crate::{makespans, replaying};
use jobs::House;

// The R line of task t, written from `at` on, if it fits. The answer is the place after it in either case.
fn task_line(out: &mut [u8], at: usize, house: House, t: usize) -> usize
    requires { LinesHeld document01 house.capacity (nth house.mem.now 0) house.mem.now × RisingIn house.capacity house.mem.now × (t < nth house.mem.now 0) × (at ≤ 35 * t) }
    ensures value { (result ≡ at + length (task_line document01 house.entry.capacity t house.entry.mem.now)) × (result ≤ at + 35) }
    ensures holds { out.new ≡ written out.old at (task_line document01 house.entry.capacity t house.entry.mem.now) }
{
    let first = replaying::first_finish(house, t);
    let p = printing::place_in(out.len(), at);
    at + replicas::result_line(&mut out[p..], t as u64, first)
}

// The answer, written at the front of `out`, if it fits. What comes back is its length in either case.
pub fn render(out: &mut [u8], house: House) -> usize
    requires { LinesHeld document01 house.capacity (nth house.mem.now 0) house.mem.now × RisingIn house.capacity house.mem.now × LinksHeld house.mem.now house.links.now }
    ensures { Rendered (replay_text document01 (job_in house.entry.mem.now) (outcomes_in house.entry.capacity house.entry.mem.now)) out.old out.new result }
{
    let mut at = 0;
    for t in 0..house.mem[0] as usize {
        at = task_line(out, at, house, t);
    }
    let end = makespans::makespans_of(house).lower;
    let p = printing::place_in(out.len(), at);
    at + replicas::end_line(&mut out[p..], end)
}
