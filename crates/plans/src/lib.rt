// The texts of a job and of a plan for it, read into a memory.
#![tactic(auto)]

ghost use Rattle.std.specs.Prelude.{length};
ghost use Rattle.definitions.specs.Limits.{document01};
ghost use Rattle.heads.specs.Heads.{head_of};
ghost use Rattle.plans.specs.Loading.{both_from, BothLoaded};

use heads::Opened;
use text::refusal::Refusal;

mod plans;
mod row;

// The rest of a job's text, after its head, and a plan's text, into a memory of this capacity, and the links between the job's edges.
// Kept: memory, links and capacity side by side where the memory is written: a struct with the `&mut` memory in a field was tried, and no goal says what the lent slice holds afterwards.
pub fn load_both(
    job: Opened,
    plan: &[u8],
    mem: &mut [u64],
    links: &mut [u64],
    capacity: usize,
) -> Result<(), Refusal>
    ensures { BothLoaded document01 capacity
        (both_from document01 capacity (length mem.old) (length links.old) (head_of job.entry.head) job.entry.rest.now plan.now)
        mem.new links.new result }
{
    jobs::load_job(job, mem, links, capacity)?;
    plans::load_plan(plan, mem, links, capacity)
}
