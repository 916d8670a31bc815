// Edges, one in a cell, and their links: the runs of the edges that leave and enter each task, and an order of the tasks.
#![tactic(auto)]

ghost use Rattle.std.specs.Prelude.{◌≡◌, ◌+◌, ◌*◌, ◌<◌};
ghost use Rattle.orders.specs.Edges.{edge_in, pair_in};
ghost use Rattle.orders.specs.Links.{out_start_at, in_start_at, order_at, link_in, LinkedFrom};

use tables::{IN_STARTS, ORDER, OUT_STARTS, at};

mod runs;
mod sorting;
mod tables;

// Why edges are not linked: they form a circle; or they do not ascend or are not between the tasks, or the links have no room.
#[derive(Clone, Copy, Debug, PartialEq, Eq)]
pub enum Unlinked {
    Circle,
    Misfit,
}

// Links the edges between v tasks: the runs of the edges that leave and enter each task, and an order of the tasks.
pub fn link(edges: &[u64], v: usize, links: &mut [u64]) -> Result<(), Unlinked>
    ensures { LinkedFrom v edges.now links.old links.new result }
{
    if v >= links.len() / 4 {
        return Err(Unlinked::Misfit);
    }
    if edges.len() > links.len() - 4 * (v + 1) {
        return Err(Unlinked::Misfit);
    }
    if !runs::ascending(edges, v) {
        return Err(Unlinked::Misfit);
    }
    if runs::make_runs(edges, v, links) {
        sorting::number(edges, v, links);
        return Ok(());
    }
    sorting::arrange(edges, v, links)
}

// The task that the edge in a cell leaves.
pub fn edge_from(cell: u64) -> usize
    ensures { (result ≡ (edge_in cell).from) × (result < 256) }
{
    (cell % 256) as usize
}

// The task that it enters.
pub fn edge_to(cell: u64) -> usize
    ensures { (result ≡ (edge_in cell).to) × (result < 256) }
{
    (cell / 256 % 256) as usize
}

// The pair of both as one number, by from, then by to.
pub fn edge_pair(cell: u64) -> u64
    ensures { result ≡ pair_in cell }
{
    cell % 256 * 256 + cell / 256 % 256
}

// Its volume.
pub fn edge_volume(cell: u64) -> u64
    ensures { result ≡ (edge_in cell).volume }
{
    cell / 65536
}

// The cells of a run: from `start` to below `end`.
// Kept: no Range of the library, which is not Copy.
#[derive(Clone, Copy, Debug, PartialEq, Eq)]
pub struct Span {
    pub start: usize,
    pub end: usize,
}

// The cells of the run that table 0 or 1 of the links has for task t of v; none, if the links have no such task.
fn run_of<const TABLE: usize>(links: &[u64], v: usize, t: usize) -> Span
    requires { TABLE < 2 }
    ensures { (result.start ≡ link_in v t (TABLE * (v + 1) + t) links.now) × (result.end ≡ link_in v t (TABLE * (v + 1) + (t + 1)) links.now) }
{
    if t < v && v < links.len() / 4 {
        return Span {
            start: links[at(TABLE, v, t)] as usize,
            end: links[at(TABLE, v, t + 1)] as usize,
        };
    }
    Span { start: 0, end: 0 }
}

// The run of the edges that leave task t of v, among the edges; an empty one, if the links have no such task.
pub fn leaving(links: &[u64], v: usize, t: usize) -> Span
    ensures { (result.start ≡ link_in v t (out_start_at v t) links.now) × (result.end ≡ link_in v t (out_start_at v (t + 1)) links.now) }
{
    run_of::<OUT_STARTS>(links, v, t)
}

// The run of the edges that enter task t of v, among the links.
pub fn entering(links: &[u64], v: usize, t: usize) -> Span
    ensures { (result.start ≡ link_in v t (in_start_at v t) links.now) × (result.end ≡ link_in v t (in_start_at v (t + 1)) links.now) }
{
    run_of::<IN_STARTS>(links, v, t)
}

// Task i of the order of v tasks; 0, if the links have no such task.
// Kept: no Option: docs/CONTRACTS.md promises the 0 of `task_at`, by the clause `link_in`.
pub fn task_at(links: &[u64], v: usize, i: usize) -> usize
    ensures { result ≡ link_in v i (order_at v i) links.now }
{
    if i < v && v < links.len() / 4 {
        return links[at(ORDER, v, i)] as usize;
    }
    0
}
