// Whether a job fits a memory, by its head.
ghost use Rattle.std.specs.Prelude.{◌≡◌, ◌≤◌};
ghost use Rattle.heads.specs.Layout.{has_room};
ghost use Rattle.heads.specs.Heads.{head_of};

use crate::layout::JOB;
use crate::{Head, layout};

// A job with this head fits a memory of this capacity.
#[tactic(auto, unfolding(crate::specs::Layout::has_room))]
pub fn fits(head: Head, capacity: usize) -> bool
    requires { capacity ≤ 32 }
    ensures { result ≡ has_room capacity (head_of head) }
{
    let Ok(tasks) = u16::try_from(head.tasks) else {
        return false;
    };
    let Ok(processors) = u16::try_from(head.processors) else {
        return false;
    };
    // Kept: every u64 is a usize here; `try_from`, no plainer, would add a case that never comes.
    let edges = head.edges as usize;
    if usize::from(tasks) > 8 * capacity || edges > 32 * capacity {
        return false;
    }
    layout::edges_at(tasks, processors) + edges <= JOB * capacity
}
