// Where each table stands in a working memory of capacity 1: specs/Layout.antt, in the code. In one of capacity n it stands n times
// as far from the front.
// Kept: tables at fixed places of one lent memory, and no Vec: a rule of the project (no heap, fixed memory).
ghost use Rattle.std.specs.Prelude.{◌≡◌, ◌+◌};
ghost use Rattle.heads.specs.Layout.{numbers_at};

// Where row r of a job's numbers begins if there are m processors, counted over the C lines and then the D lines.
pub fn numbers_at(m: u32, r: u32) -> usize
    ensures { result ≡ numbers_at m r }
{
    // Kept: `usize` has no From<u32>, and `try_from`, no plainer, would add a case that never comes.
    4 + r as usize * (1 + m as usize)
}

// Where the edges of a job with v tasks begin if there are m processors.
pub fn edges_at(v: u16, m: u16) -> usize
    ensures { result ≡ numbers_at m (v + m) }
{
    numbers_at(u32::from(m), u32::from(v) + u32::from(m))
}

// How many cells there are.
pub const MEMORY: usize = 425;

// How many cells are lent beside it for the links between the job's edges.
pub const LINKS: usize = 68;

// How many cells the job may take.
pub const JOB: usize = 177;

// Bottom levels.
pub const LEVEL: usize = 177;

// For each task its line in the plan, counted from 1; 0 for none.
pub const LINE: usize = 185;

// While a plan is drawn up: how many edges still block each task.
pub const BLOCKED: usize = 193;

// M*, while no plan is drawn up.
pub const LOWER: usize = 193;

// M, while no plan is drawn up.
pub const UPPER: usize = 194;

// While a plan is drawn up: the priority of each free task.
pub const PRIORITY: usize = 201;

// The lines of the plan.
pub const ROWS: usize = 209;

// The cells of a line: the task, then a processor and two ticks for each replica.
pub const ROW: usize = 25;

// For each processor its largest delay.
pub const LARGEST_DELAY: usize = 409;
