// The working memory for a job, chosen in one place for the three tools.
ghost use Rattle.std.specs.Prelude.{◌≡◌, ◌≤◌, List, ℕ, length};
ghost use Rattle.definitions.specs.Limits.{document01};
ghost use Rattle.definitions.specs.Text as Text;
ghost use Rattle.definitions.specs.Job.{Job, job_head_rule};
ghost use Rattle.heads.specs.Heads.{head_of};
ghost use Rattle.heads.specs.Layout.{memory_size, links_room, FitsIn};
ghost use Rattle.heads.specs.Reading.{from_runs, closed};
ghost use Rattle.jobs.specs.Answers.{Answered};
ghost use Rattle.jobs.specs.Loading.{job_from};
ghost use Rattle.plans.specs.Loading.{with_plan};
ghost use Rattle.rounds.specs.Tools.{plan_of, verdict_both, replay_both};
ghost use Rattle.rounds.specs.Verdicts.{Judged};

use heads::Opened;
use heads::layout::{LINKS, MEMORY};
use rounds::Fault;
use text::refusal::Refusal;

// The planner, the checker or the replay, with the texts that it takes beside the job's.
pub trait Tool {
    type Answer;

    // What its answer to a job, read or refused, says, and what the output holds before it and after.
    ghost says: { Self → Text.Result Job → List ℕ → List ℕ → Self.Answer → Type 0 };

    // Its answer to a job whose head was read, in a working memory of this capacity.
    // Kept: memory, links and capacity side by side where the memory is written, as House of `jobs` says.
    fn run(
        self,
        job: Opened,
        mem: &mut [u64],
        links: &mut [u64],
        capacity: usize,
        out: &mut [u8],
    ) -> Self::Answer
        ensures { says self (job_from document01 capacity (length mem.old) (length links.old) (head_of job.entry.head) job.entry.rest.now) out.old out.new result };
}

#[derive(Clone, Copy)]
pub struct Planner;

#[derive(Clone, Copy)]
pub struct Checker<'a> {
    pub plan: &'a [u8],
}

#[derive(Clone, Copy)]
pub struct Replay<'a> {
    pub plan: &'a [u8],
    pub stops: &'a [u8],
}

impl Tool for Planner {
    type Answer = Result<usize, Refusal>;

    ghost says = { λ tool x d e r. Answered (plan_of document01 x (length d)) d e r };

    fn run(
        self,
        job: Opened,
        mem: &mut [u64],
        links: &mut [u64],
        capacity: usize,
        out: &mut [u8],
    ) -> Result<usize, Refusal> {
        rounds::plan_in(job, mem, links, capacity, out)
    }
}

impl<'a> Tool for Checker<'a> {
    type Answer = Result<(), Fault>;

    ghost says = { λ tool x d e r. Judged (verdict_both document01 (with_plan document01 x tool.plan.now)) r };

    fn run(
        self,
        job: Opened,
        mem: &mut [u64],
        links: &mut [u64],
        capacity: usize,
        _out: &mut [u8],
    ) -> Result<(), Fault> {
        rounds::check_in(job, self.plan, mem, links, capacity)
    }
}

impl<'a> Tool for Replay<'a> {
    type Answer = Result<usize, Refusal>;

    ghost says = { λ tool x d e r. Answered (replay_both document01 (with_plan document01 x tool.plan.now) tool.stops.now (length d)) d e r };

    fn run(
        self,
        job: Opened,
        mem: &mut [u64],
        links: &mut [u64],
        capacity: usize,
        out: &mut [u8],
    ) -> Result<usize, Refusal> {
        rounds::replay_in(job, self.plan, self.stops, mem, links, capacity, out)
    }
}

// The cells of the four memories, and of those for the links beside them.
const CELLS_1: usize = MEMORY;

const LINKS_1: usize = LINKS;

const CELLS_2: usize = 2 * MEMORY;

const LINKS_2: usize = 2 * LINKS;

const CELLS_8: usize = 8 * MEMORY;

const LINKS_8: usize = 8 * LINKS;

const CELLS_32: usize = 32 * MEMORY;

const LINKS_32: usize = 32 * LINKS;

// A tool's answer in a working memory of so many cells and links, in a frame of its own.
#[inline(never)]
fn in_frame<T: Tool, const CELLS: usize, const LINK_CELLS: usize>(
    tool: T,
    job: Opened,
    capacity: usize,
    out: &mut [u8],
) -> T::Answer
    requires { (job_head_rule document01 (head_of job.head) ≡ 0) × (capacity ≤ 32) × FitsIn capacity (head_of job.head)
        × (CELLS ≡ memory_size capacity) × (LINK_CELLS ≡ links_room capacity) }
    ensures { T.says tool (closed (from_runs document01 (head_of job.entry.head) job.entry.rest.now)) out.old out.new result }
{
    let mut mem = [0u64; CELLS];
    let mut links = [0u64; LINK_CELLS];
    tool.run(job, &mut mem, &mut links, capacity, out)
}

// A tool's answer in the smallest working memory that the job fits: of capacity 1, 2, 8 or 32, with 425 cells and 68 for links times that.
// Each stands in a frame of its own, so that a call takes the stack of the memory that it uses.
pub fn answer<T: Tool>(tool: T, job: Opened, out: &mut [u8]) -> T::Answer
    requires { job_head_rule document01 (head_of job.head) ≡ 0 }
    ensures { T.says tool (closed (from_runs document01 (head_of job.entry.head) job.entry.rest.now)) out.old out.new result }
{
    match heads::capacity_for(job.head) {
        1 => in_frame::<T, CELLS_1, LINKS_1>(tool, job, 1, out),
        2 => in_frame::<T, CELLS_2, LINKS_2>(tool, job, 2, out),
        8 => in_frame::<T, CELLS_8, LINKS_8>(tool, job, 8, out),
        _ => in_frame::<T, CELLS_32, LINKS_32>(tool, job, 32, out),
    }
}
