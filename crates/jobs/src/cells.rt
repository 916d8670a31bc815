// A job's text, read into lent cells by way of a memory on the stack.
ghost use Rattle.std.specs.Prelude.{◌≡◌, ◌≤◌, length};
ghost use Rattle.definitions.specs.Limits.{document01};
ghost use Rattle.definitions.specs.Job.{job_head_rule};
ghost use Rattle.heads.specs.Heads.{head_of};
ghost use Rattle.heads.specs.Layout.{job_size, links_room};
ghost use Rattle.jobs.specs.Answers.{Answered, cells_answer};
ghost use Rattle.jobs.specs.Stages.{Admitted, rest_of};

use crate::job;
use heads::{Opened, layout};
use text::refusal::Refusal;

// The cells of a job, and of its links, in a memory of capacity 8 and in one of capacity 32.
const SMALL_JOB: usize = 8 * layout::JOB;

const SMALL_LINKS: usize = 8 * layout::LINKS;

const LARGE_JOB: usize = 32 * layout::JOB;

const LARGE_LINKS: usize = 32 * layout::LINKS;

// A job whose head was read, by way of a memory with room for it.
fn read_through(
    job: Opened,
    mem: &mut [u64],
    links: &mut [u64],
    cells: &mut [u64],
) -> Result<usize, Refusal>
    requires { Admitted job.head (length mem.old) (length links.old) }
    ensures { Answered (cells_answer (rest_of job.entry) (length cells.old)) cells.old cells.new result }
{
    let n = job::load_rest(job, mem, links)?;
    if cells.len() < n {
        return Err(Refusal::NoRoom);
    }
    cells[..n].copy_from_slice(&mem[..n]);
    Ok(n)
}

// The same by way of a memory of so many cells and links, in a frame of its own.
#[inline(never)]
fn in_frame<const CELLS: usize, const LINKS: usize>(
    job: Opened,
    cells: &mut [u64],
) -> Result<usize, Refusal>
    requires admitted { Admitted job.head CELLS LINKS }
    requires small { (CELLS ≤ job_size 32) × (LINKS ≤ links_room 32) }
    ensures { Answered (cells_answer (rest_of job.entry) (length cells.old)) cells.old cells.new result }
{
    let mut mem = [0u64; CELLS];
    let mut links = [0u64; LINKS];
    read_through(job, &mut mem, &mut links, cells)
}

// The same by way of a memory of capacity 8, if the job fits it, else of one of capacity 32, which every job fits. Each memory stands in a
// frame of its own, so that a call takes the stack of the memory that it uses.
pub fn in_memory(job: Opened, cells: &mut [u64]) -> Result<usize, Refusal>
    requires { job_head_rule document01 (head_of job.head) ≡ 0 }
    ensures { Answered (cells_answer (rest_of job.entry) (length cells.old)) cells.old cells.new result }
{
    if heads::capacity_for(job.head) <= 8 {
        in_frame::<SMALL_JOB, SMALL_LINKS>(job, cells)
    } else {
        in_frame::<LARGE_JOB, LARGE_LINKS>(job, cells)
    }
}
