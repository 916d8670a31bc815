// A job's text, read into a memory, and the links between its edges, into another.
#![tactic(auto)]

ghost use Rattle.std.specs.Prelude.{length};
ghost use Rattle.definitions.specs.Limits.{document01};
ghost use Rattle.heads.specs.Heads.{head_of};
ghost use Rattle.jobs.specs.Answers.{Answered, job_answer};
ghost use Rattle.jobs.specs.Loading.{job_from, JobLoaded};

use heads::Opened;
use text::refusal::Refusal;

mod cells;
mod house;
mod job;

pub use house::House;

// The rest of a job's text, after its head, into a memory of this capacity, and the links between its edges.
// Kept: memory, links and capacity side by side where the memory is written: a struct with the `&mut` memory in a field was tried, and no goal says what the lent slice holds afterwards.
pub fn load_job(
    job: Opened,
    mem: &mut [u64],
    links: &mut [u64],
    capacity: usize,
) -> Result<(), Refusal>
    ensures { JobLoaded document01 capacity (job_from document01 capacity (length mem.old) (length links.old) (head_of job.entry.head) job.entry.rest.now)
        mem.new links.new result }
{
    heads::head_rule(job.head)?;
    if !heads::roomy(job.head, mem.len(), links.len(), capacity) {
        return Err(Refusal::NoRoom);
    }
    job::load_rest(job, mem, links)?;
    Ok(())
}

// Reads a job's text into the lent cells. The answer is how many were written.
pub fn read_job(text: &[u8], cells: &mut [u64]) -> Result<usize, Refusal>
    ensures { Answered (job_answer document01 text.now (length cells.old)) cells.old cells.new result }
{
    let job = heads::read_head(text)?;
    cells::in_memory(job, cells)
}
