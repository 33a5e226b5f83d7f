//! Four lanes that take the messages of a list.
ghost use Rattle.std.specs.Prelude.{◌≡◌, ◌≢◌, ◌+◌, ◌*◌, ◌<◌, ◌≤◌, ◌⊎◌, ℕ, [], None, Some, IfNone, IfSome, length, min, slice_index_or, slice_set};
ghost use Rattle.std.specs.List.{flat_map};
ghost use Rattle.std.specs.Option.{ForSome};
ghost use Rattle.std.specs.Int.{w32};
ghost use Rattle.bag_lanes.specs.Lanes.{lane};
ghost use Rattle.bag_lanes.specs.Standard.{octets_of};
ghost use Rattle.bag_lanes.specs.Tasks.{AreAt, HaveLeft, TakesBlocks, first_task};

use crate::algorithm::Algorithm;
use crate::octets::{ByteOrder, put};
use crate::padding::padded_count;
use crate::tasks::{Task, moved, next_block};
use crate::words::with_lane;
use std::simd::prelude::*;

/// What each of four lanes is at, and the place in the list of the first message that no lane has begun.
#[derive(Clone, Copy)]
pub(crate) struct Queue {
    pub(crate) tasks: [Option<Task>; 4],
    pub(crate) next: usize,
}

/// A lane, and what it is at.
#[derive(Clone, Copy)]
pub(crate) struct Busy {
    pub(crate) lane: usize,
    pub(crate) task: Task,
}

impl Queue {
    /// Lanes that have no task yet.
    pub(crate) fn new() -> Queue
        ensures tasks { (i : ℕ) → slice_index_or result.tasks i None ≡ None }
        ensures count { length result.tasks ≡ 4 }
        ensures next { result.next ≡ 0 }
    {
        Queue {
            tasks: [None; 4],
            next: 0,
        }
    }

    /// The lane that has the fewest blocks left, if any has a task.
    pub(crate) fn first_to_end(&self) -> Option<Busy>
        ensures none { IfNone result
            ((i : ℕ) → i < 4 → slice_index_or self.now.tasks i None ≡ None) }
        ensures lane { IfSome result (λ first. first.lane < 4) }
        ensures task { IfSome result (λ first.
            slice_index_or self.now.tasks first.lane None ≡ Some first.task) }
        ensures fewest { IfSome result (λ first. HaveLeft first.task.left self.now.tasks) }
    {
        let mut first = None;
        'lanes: for i in 0..4 {
            if let Some(task) = self.tasks[i] {
                first = Some(sooner(first, Busy { lane: i, task }));
            }
        }
        first
    }
}

/// Begins the next message in lane `i`, which is idle from now on if there is none.
pub(crate) fn refill<const WORDS: usize, A: Algorithm<WORDS>>(
    state: &mut [u32x4; WORDS],
    queue: &mut Queue,
    i: usize,
    messages: &[&[u8]],
)
    requires lane { i < 4 }
    requires next { queue.old.next ≤ length messages.now }
    ensures at { AreAt A.function messages.now state.old queue.old.tasks
        → AreAt A.function messages.now state.new queue.new.tasks }
    ensures tasks { queue.new.tasks
        ≡ slice_set queue.old.tasks i (first_task A.function messages.now queue.old.next) }
    ensures next { queue.new.next ≡ min (queue.old.next + 1) (length messages.now) }
{
    if queue.next >= messages.len() {
        queue.tasks[i] = None;
        return;
    }
    set_lane(state, &A::initial(), i);
    queue.tasks[i] = Some(Task {
        message: queue.next,
        taken: 0,
        left: padded_count(messages[queue.next]),
    });
    queue.next += 1;
}

/// Takes this many blocks of each lane's message.
pub(crate) fn run<const WORDS: usize, A: Algorithm<WORDS>>(
    state: &mut [u32x4; WORDS],
    queue: &mut Queue,
    messages: &[&[u8]],
    blocks: usize,
)
    // The size of the state has to fit.
    requires words { WORDS ≤ 8 }
    requires at { AreAt A.function messages.now state.old queue.old.tasks }
    requires left { HaveLeft blocks queue.old.tasks }
    ensures { TakesBlocks A.function messages.now blocks state.new queue.old queue.new }
{
    'steps: for _ in 0..blocks {
        step::<WORDS, A>(state, queue, messages);
    }
}

// Takes the next block of each lane's message.
#[inline(always)]
fn step<const WORDS: usize, A: Algorithm<WORDS>>(
    state: &mut [u32x4; WORDS],
    queue: &mut Queue,
    messages: &[&[u8]],
)
    requires at { AreAt A.function messages.now state.old queue.old.tasks }
    requires left { HaveLeft 1 queue.old.tasks }
    ensures { TakesBlocks A.function messages.now 1 state.new queue.old queue.new }
{
    let order = A::order();
    let blocks = [
        next_block(queue.tasks[0], messages, order),
        next_block(queue.tasks[1], messages, order),
        next_block(queue.tasks[2], messages, order),
        next_block(queue.tasks[3], messages, order),
    ];
    A::compress(state, &blocks);
    queue.tasks = [
        moved(queue.tasks[0]),
        moved(queue.tasks[1]),
        moved(queue.tasks[2]),
        moved(queue.tasks[3]),
    ];
}

/// The hash value of lane `i` in octets.
pub(crate) fn lane_octets<const WORDS: usize, const OCTETS: usize>(
    state: &[u32x4; WORDS],
    i: usize,
    order: ByteOrder,
) -> [u8; OCTETS]
    requires lane { i < 4 }
    requires size { OCTETS ≡ 4 * WORDS }
    ensures { result ≡ flat_map (octets_of order w32) (lane i state.now) }
{
    let mut octets = [0; OCTETS];
    'words: for k in 0..WORDS {
        let word = state[k].to_array()[i];
        put(&mut octets, 4 * k, &order.octets_of_word(word));
    }
    octets
}

// The lane that has fewer blocks left.
fn sooner(first: Option<Busy>, other: Busy) -> Busy
    ensures which { (result ≡ other) ⊎ (first ≡ Some result) }
    ensures other { result.task.left ≤ other.task.left }
    ensures first { ForSome first (λ busy. result.task.left ≤ busy.task.left) }
{
    match first {
        Some(busy) if busy.task.left <= other.task.left => busy,
        _ => other,
    }
}

/// Sets lane `i` to this hash value.
pub(crate) fn set_lane<const WORDS: usize>(
    state: &mut [u32x4; WORDS],
    value: &[u32; WORDS],
    i: usize,
)
    requires { i < 4 }
    ensures own { lane i state.new ≡ value.now }
    ensures others { (j : ℕ) → j ≢ i → lane j state.new ≡ lane j state.old }
{
    'words: for k in 0..WORDS {
        state[k] = with_lane(state[k], i, value[k]);
    }
}
