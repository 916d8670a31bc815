// The replay: what each replica does under stops. Its outcome takes the place of its early tick.
ghost use Rattle.std.specs.Prelude.{◌≡◌, [], ℕ, suc, ◌*◌, ◌<◌, ◌≤◌, length};
ghost use Rattle.definitions.specs.Lists.{nth};
ghost use Rattle.definitions.specs.Limits.{document01};
ghost use Rattle.definitions.specs.Times.{unless_stopped};
ghost use Rattle.definitions.specs.Facts.{Ordered};
ghost use Rattle.heads.specs.Layout.{lanes_most};
ghost use Rattle.jobs.specs.Held.{job_in, LinksHeld};
ghost use Rattle.ticks.specs.Cells.{time_in, Small};
ghost use Rattle.plans.specs.Lines.{LinesHeld};
ghost use Rattle.rounds.specs.Arrivals.{DelaysHeld, Ended};
ghost use Rattle.plans.specs.Loading.{plan_in};
ghost use Rattle.rounds.specs.Replaying.{Running, PredecessorsBefore, LineRun, RisingIn, RoundRun, FirstIn};

use crate::times::Delays;
use crate::{numbers, row, times};
use jobs::House;
use replicas::First;
use ticks::lanes::NEVER;

// A finish that does not come by the stop never comes.
fn unless_stopped(stop: u64, x: u64) -> u64
    ensures { (time_in result ≡ unless_stopped (time_in stop) (time_in x)) × ((b : ℕ) → Small b x → Small b result) }
{
    if x > stop {
        return NEVER;
    }
    x
}

// For each processor the time at which its newest replica finishes, at first 0.
#[derive(Clone, Copy, Default)]
struct Ready {
    at: [u64; 16],
}

impl Ready {
    // Runs line k; the times advance replica by replica. The answer is those after it.
    fn run_line(
        mut self,
        mem: &mut [u64],
        links: &[u64],
        capacity: usize,
        delays: &Delays,
        ends: &mut [f64],
        k: usize,
        stops: &[u64],
    ) -> Ready
        requires { DelaysHeld document01 delays.now mem.old
            × Ended document01 capacity k mem.old ends.old × Running document01 capacity k 0 self.at mem.old × (k < nth mem.old 0) × PredecessorsBefore capacity k mem.old
            × (length stops.now ≡ lanes_most)
            × LinksHeld mem.old links.now }
        ensures { Running document01 capacity (suc k) 0 result.at mem.new × LineRun capacity k stops.now mem.old mem.new
            × Ended document01 capacity (suc k) mem.new ends.new }
    {
        let a = row::row_at(capacity, k);
        let t = mem[a] as usize;
        let house = House {
            mem: &mem[..],
            links,
            capacity,
        };
        let starts = times::first_starts(house, delays, &ends[..], t, &self.at);
        for c in 0..mem[3] as usize + 1 {
            let r = row::replica_at(&mem[..], a, c);
            let p = r.processor;
            let n = numbers::run_time(&mem[..], t, p);
            let x = times::finish_of(self.at[p], times::cell_of(starts[p]), n);
            let y = unless_stopped(stops[p], x);
            row::put_early(mem, a, c, y);
            self.at[p] = y;
        }
        times::put_ends(&mem[..], a, t, ends);
        self
    }
}

// All lines of the plan in memory, with a table for their ends.
fn run_lines(mem: &mut [u64], links: &[u64], capacity: usize, stops: &[u64], ends: &mut [f64])
    requires { LinesHeld document01 capacity (nth mem.old 0) mem.old × Ordered (job_in mem.old) [] (plan_in capacity mem.old).lines
        × (length stops.now ≡ lanes_most) × LinksHeld mem.old links.now × (2 * nth mem.old 0 ≤ length ends.old) }
    ensures { RoundRun document01 capacity stops.now mem.old mem.new }
{
    let mut delays = Delays::new();
    delays.fill(&mem[..]);
    let mut ready = Ready::default();
    for k in 0..mem[0] as usize {
        ready = ready.run_line(mem, links, capacity, &delays, ends, k, stops);
    }
}

// All lines of the plan in memory. The table of ends is made for the job, as the memory is.
pub fn run_round(mem: &mut [u64], links: &[u64], capacity: usize, stops: &[u64])
    requires { LinesHeld document01 capacity (nth mem.old 0) mem.old × Ordered (job_in mem.old) [] (plan_in capacity mem.old).lines
        × (length stops.now ≡ lanes_most) × LinksHeld mem.old links.now }
    ensures { RoundRun document01 capacity stops.now mem.old mem.new }
{
    times::with_ends(
        mem[0],
        &mut |ends| run_lines(mem, links, capacity, stops, ends),
    );
}

// The first finish of t, on the lowest processor that has it.
pub fn first_finish(house: House, t: usize) -> First
    requires { LinesHeld document01 house.capacity (nth house.mem.now 0) house.mem.now × RisingIn house.capacity house.mem.now × (t < nth house.mem.now 0) }
    ensures { FirstIn house.entry.capacity t result.time result.processor house.entry.mem.now }
{
    let a = row::row_of(house, t);
    let first = row::place(a, 0);
    let end = row::place(a, house.mem[3] as usize + 1);
    replicas::first_finish(&house.mem[first..end])
}
