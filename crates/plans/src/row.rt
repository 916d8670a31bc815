// A plan's lines in memory: a line's task, then a processor and two ticks for each of its replicas.
ghost use Rattle.std.specs.Prelude.{◌≡◌, not, ◌+◌, ◌≤◌, ◌<◌, eqb, length, set};
ghost use Rattle.definitions.specs.Lists.{nth};
ghost use Rattle.definitions.specs.Limits.{document01};
ghost use Rattle.heads.specs.Layout.{line_at, row_at, processor_at, early_at, late_at, replica_end};
ghost use Rattle.plans.specs.Lines.{line_cells};

use heads::layout::{LINE, ROW, ROWS};
use jobs::House;

// A replica of a line.
// Kept: `row`, with this type, stands in `plans` and in `rounds`: its functions ask that the cells are there, and such functions stay in their
// crate (a rule of the project).
#[derive(Clone, Copy)]
pub struct Replica {
    pub processor: u64,
    pub early: u64,
    pub late: u64,
}

// Task t has a line.
pub fn has_line(house: House, t: usize) -> bool
    requires { line_at house.capacity + t < length house.mem.now }
    ensures { result ≡ not (eqb (nth house.entry.mem.now (line_at house.entry.capacity + t)) 0) }
{
    house.mem[LINE * house.capacity + t] != 0
}

// Task t has line k.
pub fn put_line(mem: &mut [u64], capacity: usize, t: usize, k: usize)
    requires { (line_at capacity + t < length mem.old) × (k < length mem.old) }
    ensures { mem.new ≡ set mem.old (line_at capacity + t) (k + 1) }
{
    mem[LINE * capacity + t] = (k + 1) as u64;
}

// Where line k stands.
pub fn row_at(capacity: usize, k: usize) -> usize
    requires { row_at capacity k < 18446744073709551616 }
    ensures { result ≡ row_at capacity k }
{
    ROWS * capacity + k * ROW
}

// The cells that a line of the job in memory takes.
pub fn line_cells(mem: &[u64]) -> usize
    requires { (4 ≤ length mem.now) × (nth mem.now 3 ≤ document01.losses) }
    ensures { result ≡ line_cells mem.now }
{
    4 + 3 * mem[3] as usize
}

// Replica c of the line at `a`.
pub fn replica_at(mem: &[u64], a: usize, c: usize) -> Replica
    requires { replica_end a c ≤ length mem.now }
    ensures { (result.processor ≡ nth mem.now (processor_at a c)) × (result.early ≡ nth mem.now (early_at a c)) × (result.late ≡ nth mem.now (late_at a c)) }
{
    Replica {
        processor: mem[a + (1 + 3 * c)],
        early: mem[a + (2 + 3 * c)],
        late: mem[a + (3 + 3 * c)],
    }
}
