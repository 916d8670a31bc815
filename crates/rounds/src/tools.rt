// The planner and the replay over a job in memory: what was found is rendered into an output, if it fits.
ghost use Rattle.std.specs.Prelude.{◌≡◌, List, ℕ, ◌≤◌, length};
ghost use Rattle.definitions.specs.Lists.{nth};
ghost use Rattle.definitions.specs.Limits.{document01};
ghost use Rattle.definitions.specs.Plan.{plan_text};
ghost use Rattle.definitions.specs.Replay.{replay_text};
ghost use Rattle.definitions.specs.Tools.{fitting, planned};
ghost use Rattle.printing.specs.Rendered.{Rendered};
ghost use Rattle.jobs.specs.Held.{job_in, JobHeld, LinksHeld};
ghost use Rattle.jobs.specs.Answers.{Answered};
ghost use Rattle.plans.specs.Lines.{LinesHeld};
ghost use Rattle.plans.specs.Loading.{plan_in, PlanHeld};
ghost use Rattle.rounds.specs.Replaying.{outcomes_in, RisingIn};
ghost use Rattle.rounds.specs.Tools.{replay_of};

use crate::{makespans, plan_text, planner, replaying, results};
use heads::layout::{LOWER, UPPER};
use jobs::House;
use text::limits::TEXT_LENGTH;
use text::refusal::Refusal;

// The replay's longest answer, in bytes.
const LONGEST_ANSWER: usize = 5113;

// Writes a text into `out`, if it fits. `render` writes it, if it fits, and counts it. It has at most `most` bytes: with room for them it
// is not counted before.
fn put_text<F: Fn(&mut [u8]) -> usize>(
    render: F,
    most: usize,
    out: &mut [u8],
) -> Result<usize, Refusal>
    requires { F.IsAlwaysCallable render }
    ensures { (s : List ℕ) → ((d e : _) (at : ℕ) → F.post render d at e → Rendered s d.now e.now at) → length s ≤ most
        → Answered (fitting (length out.old) s) out.old out.new result }
{
    if out.len() < most && render(&mut []) > out.len() {
        return Err(Refusal::NoRoom);
    }
    Ok(render(out))
}

// Draws up the plan of the job in memory, and writes it into `out`, if it fits.
pub fn put_plan(
    mem: &mut [u64],
    links: &[u64],
    capacity: usize,
    out: &mut [u8],
) -> Result<usize, Refusal>
    requires { JobHeld document01 capacity mem.old × LinksHeld mem.old links.now }
    ensures { Answered (fitting (length out.old) (planned document01 (job_in mem.old))) out.old out.new result }
{
    planner::draw_plan(mem, links, capacity);
    let house = House {
        mem: &mem[..],
        links,
        capacity,
    };
    let ends = makespans::makespans_of(house);
    let lower_at = LOWER * capacity;
    let upper_at = UPPER * capacity;
    mem[lower_at] = ends.lower;
    mem[upper_at] = ends.upper;
    put_text(
        |text| plan_text::render(text, &mem[..], capacity),
        TEXT_LENGTH,
        out,
    )
}

// Replays the plan in memory under the stops of a text, and writes the lines into `out`, if they fit.
pub fn put_replay(
    stops: &[u8],
    mem: &mut [u64],
    links: &[u64],
    capacity: usize,
    out: &mut [u8],
) -> Result<usize, Refusal>
    requires { PlanHeld document01 capacity mem.old × LinksHeld mem.old links.now }
    ensures { Answered (replay_of document01 stops.now (length out.old) (job_in mem.old, plan_in capacity mem.old))
        out.old out.new result }
{
    let mut cells = [0u64; 16];
    stops::load_stops(stops, mem[1], &mut cells)?;
    replaying::run_round(mem, links, capacity, &cells);
    let house = House {
        mem: &mem[..],
        links,
        capacity,
    };
    put_text(|text| results::render(text, house), LONGEST_ANSWER, out)
}
