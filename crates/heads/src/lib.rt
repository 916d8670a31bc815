// A job's head, and the memory that the job needs.
#![tactic(auto)]

ghost use Rattle.std.specs.Prelude.{◌≡◌};
ghost use Rattle.definitions.specs.Limits.{document01};
ghost use Rattle.definitions.specs.Job.{job_head_rule};
ghost use Rattle.heads.specs.Layout.{capacity_for};
ghost use Rattle.text.specs.Meaning.{due_of};
ghost use Rattle.heads.specs.Heads.{head_of, HeadRead, roomy};

use crate::layout::{LINKS, MEMORY};
use lines::reader::Reader;
use text::limits::{EDGES, LOSSES, PROCESSORS, TASKS, TEXT_LENGTH};
use text::refusal::Refusal;

pub mod layout;
mod room;

// The numbers of a job's head.
#[derive(Clone, Copy, Debug, PartialEq, Eq)]
pub struct Head {
    pub tasks: u64,
    pub processors: u64,
    pub edges: u64,
    pub losses: u64,
}

// A job's text whose head was read: the head, and what is left of the text.
// Kept: what is left, and no Reader, which is not Copy.
#[derive(Clone, Copy)]
pub struct Opened<'a> {
    pub head: Head,
    pub rest: &'a [u8],
}

// Whether a job's head is refused.
#[tactic(auto, unfolding(definitions::specs::Job::job_head_rule, definitions::specs::Text::first_of))]
pub fn head_rule(head: Head) -> Result<(), Refusal>
    ensures { due_of result ≡ job_head_rule document01 (head_of head) }
{
    if text::outside(1, TASKS, head.tasks)
        || text::outside(1, PROCESSORS, head.processors)
        || text::outside(0, EDGES, head.edges)
        || text::outside(0, LOSSES, head.losses)
    {
        return Err(Refusal::OutOfRange);
    }
    if head.processors < head.losses + 1 {
        return Err(Refusal::TooFewProcessors);
    }
    Ok(())
}

// A job's text, opened.
pub fn read_head(s: &[u8]) -> Result<Opened<'_>, Refusal>
    ensures { HeadRead document01 s.now result }
{
    if s.len() > TEXT_LENGTH {
        return Err(Refusal::TooLong);
    }
    let mut reader = Reader::new(s);
    let mut line = [0u64; 4];
    reader.line(b"JOB,", 4, &mut line)?;
    let [tasks, processors, edges, losses] = line;
    let head = Head {
        tasks,
        processors,
        edges,
        losses,
    };
    head_rule(head)?;
    Ok(Opened {
        head,
        rest: reader.rest(),
    })
}

// The capacity of a memory for a job with this head: 1, 2, 8 or 32.
#[tactic(auto, unfolding(crate::specs::Layout::capacity_for))]
pub fn capacity_for(head: Head) -> usize
    ensures { result ≡ capacity_for (head_of head) }
{
    [1, 2, 8]
        .into_iter()
        .find(|capacity| room::fits(head, *capacity))
        .unwrap_or(32)
}

// A memory of so many cells has this capacity, the one for the links beside it too, and a job with this head fits it.
#[tactic(auto, unfolding(crate::specs::Heads::roomy))]
pub fn roomy(head: Head, size: usize, links: usize, capacity: usize) -> bool
    ensures { result ≡ roomy capacity size links (head_of head) }
{
    if capacity > 32 || size != MEMORY * capacity || links < LINKS * capacity {
        return false;
    }
    room::fits(head, capacity)
}
