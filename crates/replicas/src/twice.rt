// Lines with two replicas on one processor.
ghost use Rattle.std.specs.Prelude.{◌≡◌, ◌≤◌, length};
ghost use Rattle.replicas.specs.Cells.{lines_of, twice, doubled_in, first_twice};

use crate::{REPLICA, ROW};

// Two neighbouring replicas, three cells each, are on one processor.
fn has_twins(cells: &[u64]) -> bool
    ensures { result ≡ twice cells.now }
{
    let (replicas, _) = cells.as_chunks::<REPLICA>();
    replicas.array_windows::<2>().any(|[a, b]| a[0] == b[0])
}

// The first of the lines, 25 cells each, that has neighbouring replicas on one processor among its first w.
pub fn first_twice(lines: &[u64], w: usize) -> Option<u64>
    requires { w ≤ 8 }
    ensures { doubled_in result ≡ first_twice w (lines_of (length lines.now)) lines.now }
{
    let (rows, _) = lines.as_chunks::<ROW>();
    for row in rows {
        if has_twins(&row[1..1 + REPLICA * w]) {
            return Some(row[0]);
        }
    }
    None
}
