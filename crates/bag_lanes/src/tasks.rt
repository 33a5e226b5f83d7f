//! The messages that lanes are at.
ghost use Rattle.std.specs.Prelude.{◌≡◌, ◌+◌, ◌<◌, ◌^◌, length};
ghost use Rattle.std.specs.Option.{ForSome, option_map};
ghost use Rattle.bag_lanes.specs.Standard.{block, block_count, padded};
ghost use Rattle.bag_lanes.specs.Tasks.{message_at, task_after};

use crate::octets::ByteOrder;
use crate::padding::padded_block;

/// What a lane is at: the place of a message in the list, how many of its blocks the lane has taken, and
/// how many are left. The blocks are those of the message with its padding.
#[derive(Clone, Copy)]
pub(crate) struct Task {
    pub(crate) message: usize,
    pub(crate) taken: usize,
    pub(crate) left: usize,
}

/// The next block of the task's message. A lane with no task has zeros.
#[inline(always)]
pub(crate) fn next_block(task: Option<Task>, messages: &[&[u8]], order: ByteOrder) -> [u8; 64]
    requires place { ForSome task (λ t. t.message < length messages.now) }
    requires left { ForSome task (λ t.
        t.taken < block_count (padded order (message_at messages.now t.message))) }
    ensures { ForSome task (λ t.
        result ≡ block (padded order (message_at messages.now t.message)) t.taken) }
{
    match task {
        Some(task) => padded_block(messages[task.message], task.taken, order),
        None => [0; 64],
    }
}

/// The task once its next block is taken.
#[inline(always)]
pub(crate) fn moved(task: Option<Task>) -> Option<Task>
    requires left { ForSome task (λ t. 0 < t.left) }
    requires fits { ForSome task (λ t. t.taken + t.left < 2 ^ 64) }
    ensures { result ≡ option_map (task_after 1) task }
{
    match task {
        Some(task) => Some(Task {
            message: task.message,
            taken: task.taken + 1,
            left: task.left - 1,
        }),
        None => None,
    }
}
