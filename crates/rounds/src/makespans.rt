// The ends of a plan: over exit tasks, the largest of the first early finish, and of the last late finish, of their replicas.
ghost use Rattle.std.specs.Prelude.{◌≡◌, true, false, ◌+◌, ◌<◌, if◌then◌else◌};
ghost use Rattle.definitions.specs.Lists.{nth, empty};
ghost use Rattle.definitions.specs.Limits.{document01};
ghost use Rattle.definitions.specs.Job.{outgoing};
ghost use Rattle.definitions.specs.Times.{tick, times, of_task, makespan};
ghost use Rattle.jobs.specs.Held.{job_in, LinksHeld};
ghost use Rattle.ticks.specs.Cells.{time_in};
ghost use Rattle.plans.specs.Lines.{placed_in, LinesHeld};
ghost use Rattle.rounds.specs.Schedule.{choice_of};

use crate::times::Ends;
use crate::{row, times};
use jobs::House;

// The lower and the upper end of a plan, M* and M.
#[derive(Clone, Copy)]
pub struct Makespans {
    pub lower: u64,
    pub upper: u64,
}

// The ends of t, if no edge leaves it, else 0 for both.
fn exit_ends(house: House, t: usize) -> Ends
    requires { LinesHeld document01 house.capacity (nth house.mem.now 0) house.mem.now × LinksHeld house.mem.now house.links.now × (t < nth house.mem.now 0) }
    ensures { (time_in result.first ≡ (if empty (outgoing (job_in house.entry.mem.now) t) then choice_of false
        (times (of_task t (placed_in house.entry.capacity false (nth house.entry.mem.now 3 + 1) (nth house.entry.mem.now 0) house.entry.mem.now))) else tick 0))
        × (time_in result.last ≡ (if empty (outgoing (job_in house.entry.mem.now) t) then choice_of true
        (times (of_task t (placed_in house.entry.capacity true (nth house.entry.mem.now 3 + 1) (nth house.entry.mem.now 0) house.entry.mem.now))) else tick 0)) }
{
    let run = orders::leaving(house.links, house.mem[0] as usize, t);
    if run.start < run.end {
        return Ends { first: 0, last: 0 };
    }
    times::ends_in(house.mem, row::row_of(house, t))
}

// The ends of all tasks, each of which is placed.
pub fn makespans_of(house: House) -> Makespans
    requires { LinesHeld document01 house.capacity (nth house.mem.now 0) house.mem.now × LinksHeld house.mem.now house.links.now }
    ensures { (time_in result.lower ≡ makespan (job_in house.entry.mem.now) (choice_of false)
        (placed_in house.entry.capacity false (nth house.entry.mem.now 3 + 1) (nth house.entry.mem.now 0) house.entry.mem.now))
        × (time_in result.upper ≡ makespan (job_in house.entry.mem.now) (choice_of true)
        (placed_in house.entry.capacity true (nth house.entry.mem.now 3 + 1) (nth house.entry.mem.now 0) house.entry.mem.now)) }
{
    let mut lower = 0;
    let mut upper = 0;
    for t in 0..house.mem[0] as usize {
        let e = exit_ends(house, t);
        lower = lower.max(e.first);
        upper = upper.max(e.last);
    }
    Makespans { lower, upper }
}
