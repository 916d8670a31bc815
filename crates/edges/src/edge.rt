// E lines, one after another: each is held against the one before it, and only where it is smaller against all before it.
ghost use Rattle.std.specs.Prelude.{◌≡◌, [], map, eqb, ◌≤◌, ◌<◌, length, take};
ghost use Rattle.std.specs.List.{list_any};
ghost use Rattle.definitions.specs.Lists.{nth};
ghost use Rattle.definitions.specs.Limits.{document01};
ghost use Rattle.definitions.specs.Text.{first_of};
ghost use Rattle.definitions.specs.Job.{Ascends, edge_order, edge_line, edge_rule};
ghost use Rattle.text.specs.Meaning.{reading, due_of, ruled};
ghost use Rattle.orders.specs.Edges.{edge_cell, edge_in, pair_in};
ghost use Rattle.edges.specs.EdgeLines.{edge_for, edge_lines};

use lines::reader::Reader;
use orders::{edge_from, edge_pair, edge_to};
use text::limits::VOLUME;
use text::refusal::Refusal;

// Some cell's edge has the pair of the edge in a cell.
fn is_repeated(before: &[u64], cell: u64) -> bool
    ensures { result ≡ list_any (λ other. eqb (pair_in other) (pair_in cell)) before.now }
{
    let pair = edge_pair(cell);
    before.iter().any(|other| edge_pair(*other) == pair)
}

// Whether the edge in a cell is refused by the order of edges, after some that ascend. Where it is greater than the last no earlier one
// has its pair.
fn check_order(before: &[u64], cell: u64) -> Result<(), Refusal>
    requires { Ascends (map edge_in before.now) }
    ensures { due_of result ≡ first_of (edge_order (map edge_in before.now) (edge_in cell)) }
{
    if edge_from(cell) == edge_to(cell) {
        return Err(Refusal::RepeatedEdge);
    }
    let Some(last) = before.last() else {
        return Ok(());
    };
    if edge_pair(*last) < edge_pair(cell) {
        return Ok(());
    }
    if is_repeated(before, cell) {
        return Err(Refusal::RepeatedEdge);
    }
    Err(Refusal::EdgesDescend)
}

// The numbers of an edge line.
#[derive(Clone, Copy)]
struct Edge {
    from: u64,
    to: u64,
    volume: u64,
}

// An edge in one cell.
// Kept: it asks that the numbers fit the cell; a `From` asks nothing.
fn cell_of(edge: Edge) -> u64
    requires { (edge.from < document01.tasks) × (edge.to < document01.tasks) × (edge.volume ≤ document01.volume) }
    ensures { result ≡ edge_cell (edge_for edge) }
{
    edge.from + 256 * edge.to + 65536 * edge.volume
}

// Whether an edge is refused, after some that ascend.
#[tactic(auto, unfolding(definitions::specs::Job::edge_rule, definitions::specs::Text::first_of))]
fn check_edge(v: u64, edge: Edge, before: &[u64]) -> Result<(), Refusal>
    requires { (v ≤ document01.tasks) × Ascends (map edge_in before.now) }
    ensures { (due_of result ≡ edge_rule document01 v (map edge_in before.now) (edge_for edge))
        × (due_of result ≡ 0 → (edge.from < v) × (edge.to < v) × (edge.volume ≤ document01.volume)) }
{
    if edge.from >= v || edge.to >= v || text::outside(0, VOLUME, edge.volume) {
        return Err(Refusal::OutOfRange);
    }
    check_order(before, cell_of(edge))
}

// The next edge line, after the i edges in front of `mem`: its cell then stands behind them.
fn read_edge(reader: &mut Reader, v: u64, mem: &mut [u64], i: usize) -> Result<(), Refusal>
    requires { (v ≤ document01.tasks) × (i < length mem.old) × Ascends (map edge_in (take i mem.old)) }
    ensures { (take i mem.new ≡ take i mem.old)
        × (reading reader.new (edge_in (nth mem.new i)) result ≡ ruled (edge_line document01) (edge_rule document01 v)
        (map edge_in (take i mem.old)) reader.old) }
{
    let mut line = [0u64; 3];
    reader.line(b"E,", 3, &mut line)?;
    let [from, to, volume] = line;
    let edge = Edge { from, to, volume };
    check_edge(v, edge, &mem[..i])?;
    mem[i] = cell_of(edge);
    Ok(())
}

// n edge lines, kept from the front of `mem` on, one cell each.
pub fn fill_edges(reader: &mut Reader, v: u64, n: usize, mem: &mut [u64]) -> Result<(), Refusal>
    requires { (v ≤ document01.tasks) × (n ≤ length mem.old) }
    ensures { reading reader.new (map edge_in (take n mem.new)) result ≡ edge_lines document01 v n [] reader.old }
{
    for i in 0..n {
        read_edge(reader, v, mem, i)?;
    }
    Ok(())
}
