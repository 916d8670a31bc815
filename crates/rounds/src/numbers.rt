// The numbers of the job in memory: run times and delays, in rows.
ghost use Rattle.std.specs.Prelude.{◌≡◌, ◌+◌, ◌≤◌, ◌<◌, length};
ghost use Rattle.definitions.specs.Lists.{nth};
ghost use Rattle.definitions.specs.Limits.{document01};
ghost use Rattle.definitions.specs.Job as Job;
ghost use Rattle.jobs.specs.Held.{number_at, job_in, SomeJobHeld};
ghost use Rattle.rounds.specs.Levels.{row_sum, row_most};

use heads::layout;
use ticks::lanes;

// The cell of number p of row r, counted over the C lines and then the D lines.
fn number_at(mem: &[u64], r: usize, p: usize) -> usize
    requires { SomeJobHeld document01 mem.now × (r < nth mem.now 0 + nth mem.now 1) × (p < nth mem.now 1) }
    ensures { (result ≡ number_at mem.now r p) × (result < length mem.now) }
{
    layout::numbers_at(mem[1] as u32, r as u32) + (p + 1)
}

// The run time of task t on processor p.
pub fn run_time(mem: &[u64], t: usize, p: usize) -> u64
    requires { SomeJobHeld document01 mem.now × (t < nth mem.now 0) × (p < nth mem.now 1) }
    ensures { (result ≡ Job.run_time (job_in mem.now) t p) × (result ≤ document01.run_time) }
{
    mem[number_at(mem, t, p)]
}

// The delay from processor p to processor q.
pub fn delay(mem: &[u64], p: usize, q: usize) -> u64
    requires { SomeJobHeld document01 mem.now × (p < nth mem.now 1) × (q < nth mem.now 1) }
    ensures { (result ≡ Job.delay (job_in mem.now) p q) × (result ≤ document01.delay) }
{
    mem[number_at(mem, mem[0] as usize + p, q)]
}

// The sum of the numbers of row r.
pub fn row_total(mem: &[u64], r: usize) -> u64
    requires { SomeJobHeld document01 mem.now × (r < nth mem.now 0 + nth mem.now 1) }
    ensures { (result ≡ row_sum mem.now r) × (result ≤ row_most document01) }
{
    let a = number_at(mem, r, 0);
    let end = a + mem[1] as usize;
    lanes::total(&mem[a..end])
}
