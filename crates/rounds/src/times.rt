// The equations: when data arrives, and when a replica finishes. A cell of all ones is never.
// Kept: a cell of all ones, and no Option, is never, since times stand in the cells of the lent memory (no heap, fixed memory).
ghost use Rattle.std.specs.Prelude.{◌≡◌, true, false, ℕ, ◌+◌, ◌*◌, ◌≤◌, ◌<◌, length, replicate};
ghost use Rattle.definitions.specs.Lists.{nth};
ghost use Rattle.definitions.specs.Limits.{document01};
ghost use Rattle.definitions.specs.Job.{run_time};
ghost use Rattle.definitions.specs.Times.{tick, later, after, least, largest, arrival, times};
ghost use Rattle.definitions.specs.Shelf.{NoLater};
ghost use Rattle.heads.specs.Layout.{lanes_most};
ghost use Rattle.orders.specs.Edges.{edge_in};
ghost use Rattle.ticks.specs.Cells.{time_in, Small};
ghost use Rattle.ticks.specs.Floats.{time_of, Held, lane, lane_time};
ghost use Rattle.plans.specs.Lines.{row_end, row_outcomes, RowHeld, LinesHeld};
ghost use Rattle.rounds.specs.Schedule.{edge_from, choice_of, data_in};
ghost use Rattle.jobs.specs.Held.{job_in, JobHeld, SomeJobHeld, LinksHeld};
ghost use Rattle.rounds.specs.Walks.{Feeds};
ghost use Rattle.rounds.specs.Arrivals.{lane_most, last_arrival, delay_cells, DelayTable, DelaysTo, DelaysHeld, TimeTable, HalfTable, LanesHeld, Raised, RaisedBy, RaisedIn};
ghost use Rattle.rounds.specs.Arrivals.{end_at, EdgeEnds, EndsPut, Supplied, lane_times, tick_times, ready_times, BothSupplied, ShortTicks, TicksHeld, BothFinish};

use crate::walk::Inward;
use crate::{numbers, row, walk};
use jobs::House;
use ticks::clocks::Clocks;
use ticks::lanes;
use ticks::lanes::{Both, NEVER};

// The delays between processors: 16 from each, and the greatest of all.
#[derive(Drop)]
pub struct Delays {
    pub table: [u16; 256],
    pub most: u16,
}

impl Delays {
    // None is there.
    pub fn new() -> Delays
        ensures { (result.table ≡ replicate delay_cells 0) × (result.most ≡ 0) }
    {
        Delays {
            table: [0; 256],
            most: 0,
        }
    }

    // Puts those of the job in memory into it, row by row. It is lent, not handed back: a copy would stand across the lines of the cache.
    pub fn fill(&mut self, mem: &[u64])
        requires { SomeJobHeld document01 mem.now × (self.old.table ≡ replicate delay_cells 0) × (self.old.most ≡ 0) }
        ensures { DelaysHeld document01 self.new mem.now }
    {
        for q in 0..mem[1] as usize {
            self.fill_row(mem, q);
        }
    }

    // Puts the delays from processor q into their row.
    fn fill_row(&mut self, mem: &[u64], q: usize)
        requires { SomeJobHeld document01 mem.now × (q < nth mem.now 1) × DelaysTo document01 mem.now (16 * q) self.old }
        ensures { DelaysTo document01 mem.now (16 * (q + 1)) self.new }
    {
        for p in 0..mem[1] as usize {
            let x = numbers::delay(mem, q, p) as u16;
            self.table[16 * q + p] = x;
            self.most = self.most.max(x);
        }
    }
}

// A cell's time in a lane.
fn lane_of(x: u64) -> f64
    requires { Small document01.tick x }
    ensures { Held document01.tick result × (time_of result ≡ time_in x) }
{
    if x == NEVER {
        return lanes::no_time();
    }
    x as i64 as f64
}

// A lane's time in a cell.
pub fn cell_of(x: f64) -> u64
    requires { Held (lane_most document01) x }
    ensures { (time_in result ≡ time_of x) × Small (lane_most document01) result }
{
    if x == lanes::no_time() {
        return NEVER;
    }
    x as i64 as u64
}

// Least and largest: when the data of an edge is on each processor of half h, by the replicas that feed it, early by the first of them and
// late by the last. One pass; each replica is looked at once, the first on a processor after the others there.
fn arrivals(mem: &[u64], delays: &Delays, edge: Inward, h: usize) -> Both
    requires { SomeJobHeld document01 mem.now × DelayTable document01 delays.now.table mem.now × RowHeld document01 edge.row mem.now
        × (row_end edge.row ≤ length mem.now) × (edge.volume ≤ document01.volume) × (h < 2) }
    ensures { HalfTable document01 h (λ p. arrival (job_in mem.now) least (row_outcomes false edge.row (nth mem.now 3 + 1) mem.now) p
        (edge_from edge.volume edge.row mem.now)) mem.now result.early
        × HalfTable document01 h (λ p. arrival (job_in mem.now) largest (row_outcomes true edge.row (nth mem.now 3 + 1) mem.now) p
        (edge_from edge.volume edge.row mem.now)) mem.now result.late }
{
    let mut low = [lanes::no_time(); 8];
    let mut high = [0.0f64; 8];
    let mut first = [0.0f64; 9];
    let mut last = [lanes::no_time(); 9];
    for c in (0..mem[3] as usize + 1).rev() {
        let x = row::replica_at(mem, edge.row, c);
        let q = x.processor;
        let early = lane_of(x.early);
        let late = lane_of(x.late);
        lanes::offer(
            &mut low,
            &mut high,
            &delays.table,
            q,
            h,
            edge.volume,
            early,
            late,
        );
        let i = lanes::lane_in(q, h);
        first[i] = early;
        last[i] = late;
    }
    lanes::raise(&mut low, &first);
    lanes::lower(&mut high, &last);
    Both {
        early: low,
        late: high,
    }
}

// Whether some processor may wait for the data of the edge in a cell: all are ready at x early and at y late, no delay is over `most`.
fn may_wait(ends: &[f64], cell: u64, most: u16, x: f64, y: f64) -> bool
    requires { EdgeEnds document01 (edge_in cell) ends.now × Held (lane_most document01) x × Held (lane_most document01) y × (most ≤ document01.delay) }
    ensures { result ≡ false → NoLater (after ((edge_in cell).volume * most) (time_of (lane ends.now (end_at false (edge_in cell).from)))) (time_of x)
        × NoLater (after ((edge_in cell).volume * most) (time_of (lane ends.now (end_at true (edge_in cell).from)))) (time_of y) }
{
    let t = orders::edge_from(cell);
    let n = f64::from(orders::edge_volume(cell) as u32 * u32::from(most));
    x < ends[2 * t] + n || y < ends[2 * t + 1] + n
}

// The times at which a task can start on each processor, early and late.
#[derive(Drop)]
struct Starts {
    early: [f64; 16],
    late: [f64; 16],
}

// The times of each processor of half h, raised to those at which the data of an edge is there.
fn raise_arrivals(mem: &[u64], delays: &Delays, edge: Inward, h: usize, starts: &mut Starts)
    requires { SomeJobHeld document01 mem.now × DelayTable document01 delays.now.table mem.now × RowHeld document01 edge.row mem.now
        × (row_end edge.row ≤ length mem.now) × (edge.volume ≤ document01.volume) × (h < 2)
        × LanesHeld document01 mem.now starts.old.early × LanesHeld document01 mem.now starts.old.late }
    ensures { RaisedIn document01 h false edge.volume edge.row mem.now starts.old.early starts.new.early
        × RaisedIn document01 h true edge.volume edge.row mem.now starts.old.late starts.new.late }
{
    let r = arrivals(mem, delays, edge, h);
    lanes::raise_half(&mut starts.early, &r.early, h);
    lanes::raise_half(&mut starts.late, &r.late, h);
}

// The times of each processor, raised to those at which the data of the edge in a cell is there.
fn raise_edge(house: House, delays: &Delays, cell: u64, starts: &mut Starts)
    requires { JobHeld document01 house.capacity house.mem.now × DelayTable document01 delays.now.table house.mem.now
        × Feeds document01 house.capacity (edge_in cell) house.mem.now
        × LanesHeld document01 house.mem.now starts.old.early × LanesHeld document01 house.mem.now starts.old.late }
    ensures { RaisedBy document01 house.entry.capacity false (edge_in cell) house.entry.mem.now starts.old.early starts.new.early
        × RaisedBy document01 house.entry.capacity true (edge_in cell) house.entry.mem.now starts.old.late starts.new.late }
{
    let edge = walk::entering(house, cell);
    for h in 0..(house.mem[1] as usize).div_ceil(8) {
        raise_arrivals(house.mem, delays, edge, h, starts);
    }
}

// The times of each processor, raised to those at which all data of t is there.
// Kept: `ends` beside the house and the delays: it is written between the calls that read it.
fn raise_data(house: House, delays: &Delays, ends: &[f64], t: usize, starts: &mut Starts)
    requires { ((k : ℕ) × LinesHeld document01 house.capacity k house.mem.now) × LinksHeld house.mem.now house.links.now
        × DelaysHeld document01 delays.now house.mem.now × (t < nth house.mem.now 0)
        × Supplied document01 house.capacity t (lane_times starts.old.early starts.old.late) house.mem.now ends.now
        × LanesHeld document01 house.mem.now starts.old.early × LanesHeld document01 house.mem.now starts.old.late }
    ensures { Raised document01 house.entry.capacity false t house.entry.mem.now starts.old.early starts.new.early
        × Raised document01 house.entry.capacity true t house.entry.mem.now starts.old.late starts.new.late }
{
    let run = orders::entering(house.links, house.mem[0] as usize, t);
    let m = house.mem[1] as usize;
    let x = lanes::least(&starts.early, m);
    let y = lanes::least(&starts.late, m);
    for cell in &house.links[run.start..run.end] {
        if may_wait(ends, *cell, delays.most, x, y) {
            raise_edge(house, delays, *cell, starts);
        }
    }
}

// The finish of what starts at x and runs for n ticks.
fn finish_tick(x: f64, n: u64) -> u32
    requires { Held (lane_most document01) x × ((y : ℕ) × (time_of x ≡ tick y) × (y ≤ last_arrival document01)) × (n ≤ document01.run_time) }
    ensures { tick result ≡ after n (time_of x) }
{
    x as u32 + n as u32
}

// Writes the finishes of t on each processor of the job, if it starts there at these times.
fn run_lanes(mem: &[u64], t: usize, starts: &[f64; 16], finishes: &mut [u32; 16])
    requires { SomeJobHeld document01 mem.now × (t < nth mem.now 0) × TicksHeld document01 mem.now starts.now × (length finishes.old ≡ lanes_most) }
    ensures { (length finishes.new ≡ lanes_most) × ((p : ℕ) → p < nth mem.now 1
        → tick (nth finishes.new p) ≡ after (run_time (job_in mem.now) t p) (lane_time starts.now p)) }
{
    for p in 0..mem[1] as usize {
        finishes[p] = finish_tick(starts[p], numbers::run_time(mem, t, p));
    }
}

// The early and the late finish of t on each processor, if the processors are ready at these ticks.
pub fn finishes(house: House, delays: &Delays, ends: &[f64], t: usize, ready: &Clocks) -> Clocks
    requires { ((k : ℕ) × LinesHeld document01 house.capacity k house.mem.now) × DelaysHeld document01 delays.now house.mem.now
        × (t < nth house.mem.now 0) × BothSupplied house.capacity t house.mem.now
        × ShortTicks house.mem.now ready.now.early × ShortTicks house.mem.now ready.now.late
        × Supplied document01 house.capacity t (tick_times ready.now.early ready.now.late) house.mem.now ends.now × LinksHeld house.mem.now house.links.now }
    ensures { BothFinish house.entry.capacity t ready.now.early ready.now.late house.entry.mem.now result.early result.late }
{
    let mut starts = Starts {
        early: lanes::floats(&ready.early),
        late: lanes::floats(&ready.late),
    };
    raise_data(house, delays, ends, t, &mut starts);
    let mut finishes = Clocks::new();
    run_lanes(house.mem, t, &starts.early, &mut finishes.early);
    run_lanes(house.mem, t, &starts.late, &mut finishes.late);
    finishes
}

// The times of cells in lanes, one for each processor of the job.
fn lanes_of(mem: &[u64], cells: &[u64; 16]) -> [f64; 16]
    requires { SomeJobHeld document01 mem.now × ((p : ℕ) → p < nth mem.now 1 → Small document01.tick (nth cells.now p)) }
    ensures { TimeTable document01 (λ p. time_in (nth cells.now p)) mem.now result }
{
    let mut times = [0.0f64; 16];
    for p in 0..mem[1] as usize {
        times[p] = lane_of(cells[p]);
    }
    times
}

// When t can start on each processor, by the first data, if it is ready at the times in the cells.
pub fn first_starts(
    house: House,
    delays: &Delays,
    ends: &[f64],
    t: usize,
    ready: &[u64; 16],
) -> [f64; 16]
    requires { ((k : ℕ) × LinesHeld document01 house.capacity k house.mem.now) × LinksHeld house.mem.now house.links.now
        × DelaysHeld document01 delays.now house.mem.now × (t < nth house.mem.now 0)
        × ((p : ℕ) → p < nth house.mem.now 1 → Small document01.tick (nth ready.now p))
        × Supplied document01 house.capacity t (ready_times ready.now) house.mem.now ends.now }
    ensures { TimeTable document01 (λ p. later (time_in (nth ready.now p)) (data_in house.entry.capacity false t p house.entry.mem.now)) house.entry.mem.now result }
{
    let mut starts = Starts {
        early: lanes_of(house.mem, ready),
        late: [lanes::no_time(); 16],
    };
    raise_data(house, delays, ends, t, &mut starts);
    starts.early
}

// The first early and the last late time of a line.
#[derive(Clone, Copy)]
pub struct Ends {
    pub first: u64,
    pub last: u64,
}

// Those of the line at `a`.
pub fn ends_in(mem: &[u64], a: usize) -> Ends
    requires { SomeJobHeld document01 mem.now × (row_end a ≤ length mem.now) }
    ensures { (time_in result.first ≡ choice_of false (times (row_outcomes false a (nth mem.now 3 + 1) mem.now)))
        × (time_in result.last ≡ choice_of true (times (row_outcomes true a (nth mem.now 3 + 1) mem.now))) }
{
    let mut first = NEVER;
    let mut last = 0u64;
    for c in 0..mem[3] as usize + 1 {
        let r = row::replica_at(mem, a, c);
        first = first.min(r.early);
        last = last.max(r.late);
    }
    Ends { first, last }
}

// Notes the ends of the line at `a`, which is of task t: its first early finish, and its last late one.
pub fn put_ends(mem: &[u64], a: usize, t: usize, ends: &mut [f64])
    requires { SomeJobHeld document01 mem.now × RowHeld document01 a mem.now × (row_end a ≤ length mem.now) × (t < 256) × (2 * t + 1 < length ends.old) }
    ensures { EndsPut document01 a t mem.now ends.old ends.new }
{
    let e = ends_in(mem, a);
    ends[2 * t] = lane_of(e.first);
    ends[2 * t + 1] = lane_of(e.last);
}

// What f gives with a table of ends that has room for so many tasks: it is made for them, as the memory is.
pub fn with_ends<R, F: FnMut(&mut [f64]) -> R>(tasks: u64, f: &mut F) -> R
    requires { (tasks ≤ document01.tasks) × ((ends : _) → 2 * tasks ≤ length ends.now → F.pre f.old ends) }
    ensures { (d e : _) × (2 * tasks ≤ length d.now) × F.step f.old d result e f.new }
{
    if tasks <= 16 {
        return f(&mut [0.0; 32]);
    }
    f(&mut [0.0; 512])
}

// The finish of what is ready, and has its data, at these times, and then runs for n ticks.
pub fn finish_of(ready: u64, supplied: u64, n: u64) -> u64
    requires { Small (lane_most document01) ready × Small (lane_most document01) supplied × (n ≤ document01.run_time) }
    ensures { (time_in result ≡ after n (later (time_in ready) (time_in supplied))) × Small (lane_most document01 + document01.run_time) result }
{
    let start = ready.max(supplied);
    if start == NEVER {
        return NEVER;
    }
    start + n
}
