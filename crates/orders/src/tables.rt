// Where the tables stand among the links of v tasks, v + 1 cells each; the last begins behind them and has a cell for each edge.
ghost use Rattle.std.specs.Prelude.{◌≡◌, ◌+◌, ◌*◌, ◌<◌, ◌^◌};

// Where the run of the edges that leave each task begins.
pub const OUT_STARTS: usize = 0;

// Where the run of the edges that enter each task begins.
pub const IN_STARTS: usize = 1;

// The order of the tasks; while the runs are made, where the next edge that enters each task goes.
pub const ORDER: usize = 2;

// How many edges enter each task; while the order is made, how many of them still block it.
pub const PENDING: usize = 3;

// The edges by the task that they enter.
pub const IN_EDGES: usize = 4;

// Where cell i of a table stands.
pub fn at(table: usize, v: usize, i: usize) -> usize
    requires { (v + 1 < 2 ^ 64) × (table * (v + 1) + i < 2 ^ 64) }
    ensures { result ≡ table * (v + 1) + i }
{
    table * (v + 1) + i
}
