// Where a task's edges are read.
ghost use Rattle.std.specs.Prelude.{◌≡◌};
ghost use Rattle.definitions.specs.Limits.{document01};
ghost use Rattle.orders.specs.Edges.{edge_in};
ghost use Rattle.jobs.specs.Held.{edge_at, JobHeld, SomeJobHeld};
ghost use Rattle.rounds.specs.Walks.{Feeds, Entered};

use crate::row;
use heads::layout;
use jobs::House;

// Where the edges stand among the job's cells.
pub fn edges_at(mem: &[u64]) -> usize
    requires { SomeJobHeld document01 mem.now }
    ensures { result ≡ edge_at mem.now 0 }
{
    layout::edges_at(mem[0] as u16, mem[1] as u16)
}

// What an edge needs that enters a task: the line of the task that it leaves, and its volume.
#[derive(Clone, Copy)]
pub struct Inward {
    pub row: usize,
    pub volume: u16,
}

// The edge in a cell, which leaves a task that has a line.
pub fn entering(house: House, cell: u64) -> Inward
    requires { JobHeld document01 house.capacity house.mem.now × Feeds document01 house.capacity (edge_in cell) house.mem.now }
    ensures { Entered document01 house.entry.capacity (edge_in cell) house.entry.mem.now result.row result.volume }
{
    Inward {
        row: row::row_of(house, orders::edge_from(cell)),
        volume: orders::edge_volume(cell) as u16,
    }
}
