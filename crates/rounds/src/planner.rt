// The planner: tasks placed one by one on the processors of least early finish.
ghost use Rattle.std.specs.Prelude.{[], reverse, ℕ, ◌+◌, ◌-◌, ◌*◌, ◌<◌, ◌≤◌, length};
ghost use Rattle.definitions.specs.Lists.{nth};
ghost use Rattle.definitions.specs.Limits.{document01};
ghost use Rattle.definitions.specs.Job.{outgoing};
ghost use Rattle.heads.specs.Layout.{memory_size, line_at, blocked_at, row_at, largest_delay_at, level_at};
ghost use Rattle.jobs.specs.Held.{job_in, JobHeld, LinksHeld};
ghost use Rattle.lists.specs.Kept.{KeptOutside};
ghost use Rattle.rounds.specs.Arrivals.{DelaysHeld, Ended};
ghost use Rattle.rounds.specs.Planning.{FreeList, Taken, processors_for, Drawn, Ranked, Critical, Tried, Begun, Cleared, Blocked, Unblocked};
ghost use Rattle.rounds.specs.Clocks.{earlies_in, lates_in, ClocksHeld};

use crate::free::Free;
use crate::row::Replica;
use crate::times::Delays;
use crate::{clocks, levels, priority, row, times, walk};
use heads::layout::{BLOCKED, LEVEL, LINE, PRIORITY};
use jobs::House;
use ticks::clocks::Clocks;

// No task is placed; each has its bottom level for a priority, and each edge blocks the task that it enters.
fn clear_tasks(mem: &mut [u64], links: &[u64], capacity: usize)
    requires { JobHeld document01 capacity mem.old × LinksHeld mem.old links.now }
    ensures { KeptOutside (line_at capacity) (row_at capacity 0) mem.old mem.new × Cleared capacity (nth mem.new 0) (job_in mem.old) mem.new }
{
    let level = LEVEL * capacity;
    let line = LINE * capacity;
    let blocked = BLOCKED * capacity;
    let priorities = PRIORITY * capacity;
    let v = mem[0] as usize;
    for t in 0..v {
        let x = mem[level + t];
        mem[line + t] = 0;
        let run = orders::entering(links, v, t);
        mem[blocked + t] = (run.end - run.start) as u64;
        mem[priorities + t] = x;
    }
}

// The replicas of line k: t on the processors of least early finish.
fn fill_line(mem: &mut [u64], capacity: usize, k: usize, t: usize, finishes: &Clocks)
    requires { Tried document01 capacity k t finishes.now.early finishes.now.late mem.old }
    ensures { Begun capacity k t (processors_for capacity k t mem.old) mem.old mem.new }
{
    let m = mem[1] as usize;
    let w = mem[3] as usize + 1;
    let a = row::row_at(capacity, k);
    let list = choices::chosen(&finishes.early, m, w);
    for (c, &p) in list[..w].iter().enumerate() {
        let r = Replica {
            processor: p,
            early: u64::from(finishes.early[p]),
            late: u64::from(finishes.late[p]),
        };
        row::put_replica(mem, a, c, r);
    }
}

// Line k: t on the processors of least early finish. The answer is the clocks after it.
fn place_task(
    mem: &mut [u64],
    links: &[u64],
    capacity: usize,
    delays: &Delays,
    ends: &mut [f64],
    k: usize,
    t: usize,
    clocks: Clocks,
) -> Clocks
    requires { DelaysHeld document01 delays.now mem.old
        × Ended document01 capacity k mem.old ends.old × Critical document01 capacity k t mem.old
        × ClocksHeld clocks (job_in mem.old) (earlies_in capacity k mem.old) (lates_in capacity k mem.old) × LinksHeld mem.old links.now }
    ensures { KeptOutside (line_at capacity) (largest_delay_at capacity) mem.old mem.new × Drawn document01 capacity (k + 1) mem.new
        × Ranked capacity (reverse (outgoing (job_in mem.new) t)) mem.new
        × ClocksHeld result (job_in mem.new) (earlies_in capacity (k + 1) mem.new) (lates_in capacity (k + 1) mem.new)
        × Taken capacity t mem.old mem.new × Ended document01 capacity (k + 1) mem.new ends.new }
{
    let house = House {
        mem: &mem[..],
        links,
        capacity,
    };
    let finishes = times::finishes(house, delays, &ends[..], t, &clocks);
    fill_line(mem, capacity, k, t, &finishes);
    let a = row::row_at(capacity, k);
    mem[a] = t as u64;
    row::put_line(mem, capacity, t, k);
    times::put_ends(&mem[..], a, t, ends);
    clocks::advance_line(&mem[..], a, clocks)
}

// One edge no longer blocks u; if u becomes free it gets its priority and joins the list.
fn unblock(mem: &mut [u64], links: &[u64], capacity: usize, u: usize, free: &mut Free)
    requires { ((k : ℕ) × Drawn document01 capacity k mem.old) × Blocked capacity u mem.old
        × FreeList capacity free.old mem.old × LinksHeld mem.old links.now }
    ensures { Unblocked capacity u mem.old mem.new × FreeList capacity free.new mem.new }
{
    let blocked = BLOCKED * capacity;
    let b = mem[blocked + u];
    if b > 1 {
        mem[blocked + u] = b - 1;
        return;
    }
    let house = House {
        mem: &mem[..],
        links,
        capacity,
    };
    let x = priority::top_level(house, u);
    mem[PRIORITY * capacity + u] = x + mem[LEVEL * capacity + u];
    mem[blocked + u] = 0;
    free.put_in(&mem[..], capacity, u as u8);
}

// The edges that leave t no longer block; a task that becomes free gets its priority and joins the list.
fn release(mem: &mut [u64], links: &[u64], capacity: usize, t: usize, free: &mut Free)
    requires { ((k : ℕ) × Drawn document01 capacity k mem.old) × Ranked capacity (reverse (outgoing (job_in mem.old) t)) mem.old
        × FreeList capacity free.old mem.old × (t < nth mem.old 0)
        × LinksHeld mem.old links.now }
    ensures { KeptOutside (blocked_at capacity) (row_at capacity 0) mem.old mem.new
        × Ranked capacity [] mem.new × FreeList capacity free.new mem.new }
{
    let g = walk::edges_at(&mem[..]);
    let run = orders::leaving(links, mem[0] as usize, t);
    for k in (run.start..run.end).rev() {
        let u = orders::edge_to(mem[g + k]);
        unblock(mem, links, capacity, u, free);
    }
}

// Levels and the tables of tasks, before the first line.
fn prepare(mem: &mut [u64], links: &[u64], capacity: usize)
    requires { JobHeld document01 capacity mem.old × LinksHeld mem.old links.now }
    ensures { KeptOutside (level_at capacity) (memory_size capacity) mem.old mem.new
        × Drawn document01 capacity 0 mem.new × Ranked capacity [] mem.new }
{
    levels::fill_levels(mem, links, capacity);
    priority::fill_largest_delays(mem, capacity);
    clear_tasks(mem, links, capacity);
}

// Draws up all lines of the plan, with a table for their ends.
fn draw_lines(mem: &mut [u64], links: &[u64], capacity: usize, ends: &mut [f64])
    requires { Drawn document01 capacity 0 mem.old × Ranked capacity [] mem.old × LinksHeld mem.old links.now × (2 * nth mem.old 0 ≤ length ends.old) }
    ensures { KeptOutside (level_at capacity) (memory_size capacity) mem.old mem.new × Drawn document01 capacity (nth mem.old 0) mem.new }
{
    let v = mem[0] as usize;
    let mut delays = Delays::new();
    delays.fill(&mem[..]);
    let mut clocks = Clocks::new();
    let mut free = Free::new();
    free.list(&mem[..], capacity);
    for k in 0..v {
        let t = free.pop() as usize;
        clocks = place_task(mem, links, capacity, &delays, ends, k, t, clocks);
        release(mem, links, capacity, t, &mut free);
    }
}

// Draws up the plan of the job in memory. The table of ends is made for the job, as the memory is.
pub fn draw_plan(mem: &mut [u64], links: &[u64], capacity: usize)
    requires { JobHeld document01 capacity mem.old × LinksHeld mem.old links.now }
    ensures { KeptOutside (level_at capacity) (memory_size capacity) mem.old mem.new × Drawn document01 capacity (nth mem.old 0) mem.new }
{
    prepare(mem, links, capacity);
    times::with_ends(mem[0], &mut |ends| draw_lines(mem, links, capacity, ends));
}
