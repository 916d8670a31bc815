// Scaled bottom levels.
ghost use Rattle.std.specs.Prelude.{◌≡◌, map, ◌+◌, ◌<◌, ◌≤◌};
ghost use Rattle.definitions.specs.Lists.{nth, In, greatest};
ghost use Rattle.definitions.specs.Limits.{document01};
ghost use Rattle.definitions.specs.Job.{Edge, outgoing};
ghost use Rattle.definitions.specs.Planner.{scaled_run, total_delay};
ghost use Rattle.heads.specs.Layout.{level_at, line_at};
ghost use Rattle.jobs.specs.Held.{job_in, JobHeld, SomeJobHeld, LinksHeld};
ghost use Rattle.rounds.specs.Schedule.{LevelsFilled};
ghost use Rattle.lists.specs.Kept.{KeptOutside};
ghost use Rattle.rounds.specs.Levels.{level_most, sent, sent_most};

use crate::{numbers, walk};
use heads::layout::LEVEL;
use jobs::House;

// The scaled average run time of t.
fn scaled_run(mem: &[u64], t: usize) -> u64
    requires { SomeJobHeld document01 mem.now × (t < nth mem.now 0) }
    ensures { result ≡ scaled_run (job_in mem.now) t }
{
    let m = mem[1];
    let x = numbers::row_total(mem, t);
    if m == 1 {
        return x;
    }
    (m - 1) * x
}

// The sum of all delays between different processors.
fn total_delay(mem: &[u64]) -> u64
    requires { SomeJobHeld document01 mem.now }
    ensures { result ≡ total_delay (job_in mem.now) }
{
    let v = mem[0] as usize;
    let mut x = 0;
    for p in 0..mem[1] as usize {
        x += numbers::row_total(mem, v + p);
    }
    x
}

// The largest of message and level over the edges that leave t; 0 if none does.
fn longest_after(house: House, t: usize, total: u64) -> u64
    requires { JobHeld document01 house.capacity house.mem.now × LinksHeld house.mem.now house.links.now × (t < nth house.mem.now 0)
        × (total ≡ total_delay (job_in house.mem.now))
        × ((e : Edge) → In e (outgoing (job_in house.mem.now) t) → nth house.mem.now (level_at house.capacity + e.to) ≤ level_most document01) }
    ensures { (result ≡ greatest (map (sent house.entry.capacity house.entry.mem.now) (outgoing (job_in house.entry.mem.now) t)))
        × (result ≤ sent_most document01 + level_most document01) }
{
    let mem = house.mem;
    let level = LEVEL * house.capacity;
    let g = walk::edges_at(mem);
    let mut x: u64 = 0;
    let run = orders::leaving(house.links, mem[0] as usize, t);
    for k in run.start..run.end {
        let e = mem[g + k];
        let to = orders::edge_to(e);
        x = x.max(orders::edge_volume(e) * total + mem[level + to]);
    }
    x
}

// Fills the table of bottom levels, from the last task of the order to the first, so that those of a task's successors are there.
pub fn fill_levels(mem: &mut [u64], links: &[u64], capacity: usize)
    requires { JobHeld document01 capacity mem.old × LinksHeld mem.old links.now }
    ensures { KeptOutside (level_at capacity) (line_at capacity) mem.old mem.new × LevelsFilled capacity mem.new }
{
    let level = LEVEL * capacity;
    let v = mem[0] as usize;
    let total = total_delay(&mem[..]);
    for i in (0..v).rev() {
        let t = orders::task_at(links, v, i);
        let x = scaled_run(&mem[..], t);
        let house = House {
            mem: &mem[..],
            links,
            capacity,
        };
        mem[level + t] = x + longest_after(house, t, total);
    }
}
