// Plans for watering rounds: a reader of jobs, a planner, a checker of plans and a replay of stops.
#![tactic(auto)]

ghost use Rattle.std.specs.Prelude.{length};
ghost use Rattle.definitions.specs.Claims.{Bears, Breaks};
ghost use Rattle.definitions.specs.Limits.{document01};
ghost use Rattle.definitions.specs.Tools.{plan_answer, verdict, replay_answer};
ghost use Rattle.jobs.specs.Answers.{Answered, job_answer};
ghost use Rattle.rounds.specs.Verdicts.{Judged};

use crate::choice::{Checker, Planner, Replay};
pub use rounds::Fault;
pub use text::refusal::Refusal;

mod choice;

// Reads a job's text into the lent cells: how many were written.
pub fn read_job(text: &[u8], cells: &mut [u64]) -> Result<usize, Refusal>
    ensures { Answered (job_answer document01 text.now (length cells.old)) cells.old cells.new result }
{
    jobs::read_job(text, cells)
}

// Draws up a plan for a job's text, and writes it into `out`: how many bytes were written.
pub fn plan(job: &[u8], out: &mut [u8]) -> Result<usize, Refusal>
    ensures { Answered (plan_answer document01 job.now (length out.old)) out.old out.new result }
{
    choice::answer(Planner, heads::read_head(job)?, out)
}

// Checks a plan's text against its job's. Where a task has two replicas on one processor, stopping its processors at tick 0 leaves
// it undone.
pub fn check(job: &[u8], plan: &[u8]) -> Result<(), Fault>
    ensures judged { Judged (verdict document01 job.now plan.now) result }
    ensures breaks { Breaks job.now plan.now }
{
    choice::answer(Checker { plan }, heads::read_head(job)?, &mut [])
}

// Replays a plan for a job under a list of stops: writes the R lines and the L line into `out`: how many bytes were written. If the plan is
// accepted and the stops are at most ε, every R line has a tick, and the L line has one between M* and M.
pub fn replay(job: &[u8], plan: &[u8], stops: &[u8], out: &mut [u8]) -> Result<usize, Refusal>
    ensures answered { Answered (replay_answer document01 job.now plan.now stops.now (length out.old)) out.old out.new result }
    ensures bears { Bears job.now plan.now stops.now }
{
    choice::answer(Replay { plan, stops }, heads::read_head(job)?, out)
}
