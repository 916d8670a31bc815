// E lines: each edge in one cell.
#![tactic(auto)]

ghost use Rattle.std.specs.Prelude.{◌≡◌, ℕ, map, length, take, drop, OnErr};
ghost use Rattle.definitions.specs.Limits.{document01};
ghost use Rattle.text.specs.Meaning.{reading};
ghost use Rattle.orders.specs.Edges.{edge_in};
ghost use Rattle.edges.specs.EdgeLines.{edges_into};

use lines::reader::Reader;
use text::limits::TASKS;
use text::refusal::Refusal;

mod edge;

// n edge lines, kept from the front of `mem` on, one cell each. 8 if there are more than the most tasks, or fewer cells than edges.
// Kept: `n` beside `mem`: the promise (edges_into) is for a memory with more or fewer cells.
#[tactic(auto, unfolding(crate::specs::EdgeLines::edges_into))]
pub fn read_edges(reader: &mut Reader, v: u64, n: usize, mem: &mut [u64]) -> Result<(), Refusal>
    ensures read { reading reader.new (map edge_in (take n mem.new)) result ≡ edges_into document01 (length mem.old) v n reader.old }
    ensures kept { OnErr result (reader.new ≡ reader.old) }
    ensures part { (n : ℕ) × (reader.new ≡ drop n reader.old) }
{
    if v > TASKS || n > mem.len() {
        return Err(Refusal::NoRoom);
    }
    let mut rest = Reader::new(reader.rest());
    edge::fill_edges(&mut rest, v, n, mem)?;
    *reader = rest;
    Ok(())
}
