// A plan's text, counted or written.
ghost use Rattle.std.specs.Prelude.{◌≡◌, ◌+◌, ◌*◌, ◌<◌, ◌≤◌, length};
ghost use Rattle.definitions.specs.Lists.{nth};
ghost use Rattle.definitions.specs.Limits.{document01};
ghost use Rattle.definitions.specs.Plan.{plan_text};
ghost use Rattle.text.specs.Meaning.{written};
ghost use Rattle.printing.specs.Rendered.{Rendered};
ghost use Rattle.jobs.specs.Held.{job_in, JobHeld};
ghost use Rattle.plans.specs.Loading.{plan_in};
ghost use Rattle.rounds.specs.Texts.{head_bytes, head_in, row_bytes, row_line};

use crate::row;
use heads::layout::{LOWER, UPPER};

// The numbers of the head of the plan in memory.
fn plan_head(mem: &[u64], capacity: usize) -> [u64; 5]
    requires { JobHeld document01 capacity mem.now }
    ensures { result ≡ head_in capacity mem.now }
{
    let lower_at = LOWER * capacity;
    let upper_at = UPPER * capacity;
    [mem[0], mem[1], mem[3], mem[lower_at], mem[upper_at]]
}

// The T line of row k, written from `at` on, if it fits. The answer is the place after it in either case.
fn row_line(out: &mut [u8], at: usize, mem: &[u64], capacity: usize, k: usize) -> usize
    requires { JobHeld document01 capacity mem.now × (k < nth mem.now 0) × (at ≤ head_bytes document01 + row_bytes document01 * k) }
    ensures value { (result ≡ at + length (row_line document01 capacity k mem.now)) × (result ≤ at + row_bytes document01) }
    ensures holds { out.new ≡ written out.old at (row_line document01 capacity k mem.now) }
{
    let a = row::row_at(capacity, k);
    let b = row::place(a, mem[3] as usize + 1);
    let p = printing::place_in(out.len(), at);
    at + printing::line(&mut out[p..], b"T,", &mem[a..b])
}

// The plan in memory, written at the front of `out`, if it fits. The answer is the text's length in either case.
pub fn render(out: &mut [u8], mem: &[u64], capacity: usize) -> usize
    requires { JobHeld document01 capacity mem.now }
    ensures { Rendered (plan_text document01 (job_in mem.now) (plan_in capacity mem.now)) out.old out.new result }
{
    let mut at = printing::line(out, b"PLAN,", &plan_head(mem, capacity));
    for k in 0..mem[0] as usize {
        at = row_line(out, at, mem, capacity, k);
    }
    at
}
