// A plan's lines in memory: a line's task, then a processor and two ticks for each of its replicas.
ghost use Rattle.std.specs.Prelude.{◌≡◌, ◌+◌, ◌≤◌, ◌<◌, length, set};
ghost use Rattle.definitions.specs.Lists.{nth};
ghost use Rattle.heads.specs.Layout.{line_at, row_at, processor_at, early_at, late_at, replica_end};
ghost use Rattle.plans.specs.Lines.{row_of};
ghost use Rattle.rounds.specs.Planning.{Wrote};

use heads::layout::{LINE, ROW, ROWS};
use jobs::House;

// A replica of a line.
// Kept: `row`, with this type, stands in `plans` and in `rounds`: its functions ask that the cells are there, and such functions stay in their
// crate (a rule of the project).
#[derive(Clone, Copy)]
pub struct Replica {
    pub processor: usize,
    pub early: u64,
    pub late: u64,
}

// Task t has line k.
pub fn put_line(mem: &mut [u64], capacity: usize, t: usize, k: usize)
    requires { (line_at capacity + t < length mem.old) × (k < length mem.old) }
    ensures { mem.new ≡ set mem.old (line_at capacity + t) (k + 1) }
{
    mem[LINE * capacity + t] = (k + 1) as u64;
}

// Where line k stands.
pub fn row_at(capacity: usize, k: usize) -> usize
    requires { row_at capacity k < 18446744073709551616 }
    ensures { result ≡ row_at capacity k }
{
    ROWS * capacity + k * ROW
}

// Where the line of task t stands, which has one.
pub fn row_of(house: House, t: usize) -> usize
    requires { (line_at house.capacity + t < length house.mem.now) × (0 < nth house.mem.now (line_at house.capacity + t))
        × (row_of house.capacity t house.mem.now ≤ length house.mem.now) }
    ensures { result ≡ row_of house.entry.capacity t house.entry.mem.now }
{
    row_at(
        house.capacity,
        house.mem[LINE * house.capacity + t] as usize - 1,
    )
}

// Where replica c of the line at `a` begins.
pub fn place(a: usize, c: usize) -> usize
    requires { processor_at a c < 18446744073709551616 }
    ensures { result ≡ processor_at a c }
{
    a + (1 + 3 * c)
}

// Replica c of the line at `a`.
pub fn replica_at(mem: &[u64], a: usize, c: usize) -> Replica
    requires { replica_end a c ≤ length mem.now }
    ensures { (result.processor ≡ nth mem.now (processor_at a c)) × (result.early ≡ nth mem.now (early_at a c)) × (result.late ≡ nth mem.now (late_at a c)) }
{
    Replica {
        processor: mem[a + (1 + 3 * c)] as usize,
        early: mem[a + (2 + 3 * c)],
        late: mem[a + (3 + 3 * c)],
    }
}

// Replica c of the line at `a` is r.
pub fn put_replica(mem: &mut [u64], a: usize, c: usize, r: Replica)
    requires { replica_end a c ≤ length mem.old }
    ensures { Wrote a c r.processor r.early r.late mem.old mem.new }
{
    mem[a + (1 + 3 * c)] = r.processor as u64;
    mem[a + (2 + 3 * c)] = r.early;
    mem[a + (3 + 3 * c)] = r.late;
}

// The early time of replica c of the line at `a` is x.
pub fn put_early(mem: &mut [u64], a: usize, c: usize, x: u64)
    requires { replica_end a c ≤ length mem.old }
    ensures { mem.new ≡ set mem.old (early_at a c) x }
{
    mem[a + (2 + 3 * c)] = x;
}
