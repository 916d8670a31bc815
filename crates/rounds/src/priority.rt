// Priorities: the top levels of tasks that become free.
ghost use Rattle.std.specs.Prelude.{◌≡◌, ℕ, ◌+◌, ◌*◌, ◌≤◌, ◌<◌};
ghost use Rattle.definitions.specs.Lists.{nth};
ghost use Rattle.definitions.specs.Limits.{document01};
ghost use Rattle.definitions.specs.Times.{tick};
ghost use Rattle.definitions.specs.Planner.{tick_of, scale, largest_delay};
ghost use Rattle.heads.specs.Layout.{memory_size, largest_delay_at, row_at, early_at};
ghost use Rattle.jobs.specs.Held.{job_in, JobHeld, SomeJobHeld, LinksHeld};
ghost use Rattle.rounds.specs.Schedule.{top_in, LargestDelaysFilled, PredecessorsPlaced};
ghost use Rattle.lists.specs.Kept.{KeptOutside};
ghost use Rattle.plans.specs.Lines.{LinesHeld};
ghost use Rattle.rounds.specs.Planning.{Sends, spread_in, spread_most, top_most};

use crate::walk::Inward;
use crate::{numbers, row, walk};
use heads::layout::LARGEST_DELAY;
use jobs::House;
use ticks::lanes::NEVER;

// The largest of the delays from processor p.
fn largest_delay(mem: &[u64], p: usize) -> u64
    requires { SomeJobHeld document01 mem.now × (p < nth mem.now 1) }
    ensures { result ≡ largest_delay (job_in mem.now) p }
{
    let mut x: u64 = 0;
    for q in 0..mem[1] as usize {
        x = x.max(numbers::delay(mem, p, q));
    }
    x
}

// Fills the table of largest delays.
pub fn fill_largest_delays(mem: &mut [u64], capacity: usize)
    requires { JobHeld document01 capacity mem.old }
    ensures { KeptOutside (largest_delay_at capacity) (memory_size capacity) mem.old mem.new × LargestDelaysFilled capacity mem.new }
{
    let far = LARGEST_DELAY * capacity;
    for p in 0..mem[1] as usize {
        mem[far + p] = largest_delay(&mem[..], p);
    }
}

// The first tick at which the data of an edge is everywhere.
fn spread(house: House, edge: Inward) -> u64
    requires { JobHeld document01 house.capacity house.mem.now × Sends document01 house.capacity edge.row edge.volume house.mem.now }
    ensures { (tick result ≡ spread_in house.entry.capacity edge.volume edge.row (nth house.entry.mem.now 3 + 1) house.entry.mem.now)
        × (result ≤ spread_most document01) }
{
    let mem = house.mem;
    let far = LARGEST_DELAY * house.capacity;
    let volume = u64::from(edge.volume);
    let mut x = NEVER;
    for c in 0..mem[3] as usize + 1 {
        let r = row::replica_at(mem, edge.row, c);
        x = x.min(r.early + volume * mem[far + r.processor]);
    }
    x
}

// The scaled top level of t, whose predecessors all have a line.
pub fn top_level(house: House, t: usize) -> u64
    requires { ((k : ℕ) × LinesHeld document01 house.capacity k house.mem.now
        × ((i c : ℕ) → i < k → c < nth house.mem.now 3 + 1 → nth house.mem.now (early_at (row_at house.capacity i) c) ≤ document01.tick))
        × LinksHeld house.mem.now house.links.now × (t < nth house.mem.now 0) × PredecessorsPlaced house.capacity t house.mem.now
        × LargestDelaysFilled house.capacity house.mem.now }
    ensures { (result ≡ tick_of (top_in house.entry.capacity t house.entry.mem.now) * scale (job_in house.entry.mem.now))
        × (result ≤ top_most document01) }
{
    let run = orders::entering(house.links, house.mem[0] as usize, t);
    let mut x: u64 = 0;
    for cell in &house.links[run.start..run.end] {
        let edge = walk::entering(house, *cell);
        x = x.max(spread(house, edge));
    }
    let m = house.mem[1];
    if m == 1 {
        return x;
    }
    x * (m * (m - 1))
}
