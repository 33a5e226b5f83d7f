//! The digests of the messages of a list, four messages at a time.
ghost use Rattle.std.specs.Prelude.{◌≡◌, ◌*◌, ◌<◌, ◌≤◌, ℕ, IfOk, length, map};
ghost use Rattle.md5.specs.Md5.{md5};
ghost use Rattle.sha1.specs.Sha1.{sha1};
ghost use Rattle.sha2.specs.Sha256.{sha256};
ghost use Rattle.bag_lanes.specs.Standard.{digest};
ghost use Rattle.bag_lanes.specs.Tasks.{AreFilled, HasLane};

use crate::algorithm::Algorithm;
use crate::lanes::{Queue, lane_octets, refill, run};
use crate::md5_rounds::Md5;
use crate::sha1_rounds::Sha1;
use crate::sha256_rounds::Sha256;
use std::alloc::{AllocError, Global};
use std::simd::prelude::*;

/// The MD5 digest of each message (RFC 1321), in the order of the messages. There may be any number of
/// messages, each of any number of octets.
///
/// # Errors
///
/// `AllocError` where memory for the digests runs out.
pub fn md5_digests(alloc: Global, messages: &[&[u8]]) -> Result<Vec<[u8; 16]>, AllocError>
    ensures { IfOk result (λ digests. digests.items ≡ map (λ m. md5 m.now) messages.now) }
{
    digests_of::<4, 16, Md5>(alloc, messages)
}

/// The SHA-1 digest of each message (FIPS 180-4), in the order of the messages. There may be any number of
/// messages, each of any number of octets.
///
/// # Errors
///
/// `AllocError` where memory for the digests runs out.
pub fn sha1_digests(alloc: Global, messages: &[&[u8]]) -> Result<Vec<[u8; 20]>, AllocError>
    ensures { IfOk result (λ digests. digests.items ≡ map (λ m. sha1 m.now) messages.now) }
{
    digests_of::<5, 20, Sha1>(alloc, messages)
}

/// The SHA-256 digest of each message (FIPS 180-4), in the order of the messages. There may be any number of
/// messages, each of any number of octets.
///
/// # Errors
///
/// `AllocError` where memory for the digests runs out.
pub fn sha256_digests(alloc: Global, messages: &[&[u8]]) -> Result<Vec<[u8; 32]>, AllocError>
    ensures { IfOk result (λ digests. digests.items ≡ map (λ m. sha256 m.now) messages.now) }
{
    digests_of::<8, 32, Sha256>(alloc, messages)
}

// The digest of each message.
fn digests_of<const WORDS: usize, const OCTETS: usize, A: Algorithm<WORDS>>(
    alloc: Global,
    messages: &[&[u8]],
) -> Result<Vec<[u8; OCTETS]>, AllocError>
    requires words { WORDS ≤ 8 }
    requires octets { OCTETS ≡ 4 * WORDS }
    ensures { IfOk result (λ digests.
        digests.items ≡ map (λ m. digest A.function m.now) messages.now) }
{
    let mut digests = vec![in alloc; [0u8; OCTETS]; messages.len()]?;
    hash_all::<WORDS, OCTETS, A>(messages, &mut digests);
    Ok(digests)
}

// Writes the digest of each message to its place. The next message takes the lane of the one that ends
// first.
fn hash_all<const WORDS: usize, const OCTETS: usize, A: Algorithm<WORDS>>(
    messages: &[&[u8]],
    digests: &mut [[u8; OCTETS]],
)
    requires words { WORDS ≤ 8 }
    requires octets { OCTETS ≡ 4 * WORDS }
    requires places { length digests.old ≡ length messages.now }
    ensures { digests.new ≡ map (λ m. digest A.function m.now) messages.now }
{
    let order = A::order();
    let (mut state, mut queue) = filled::<WORDS, A>(messages);
    'turns: while let Some(first) = queue.first_to_end() {
        run::<WORDS, A>(&mut state, &mut queue, messages, first.task.left);
        digests[first.task.message] = lane_octets(&state, first.lane, order);
        refill::<WORDS, A>(&mut state, &mut queue, first.lane, messages);
    }
}

// Lanes that have begun the first messages.
fn filled<const WORDS: usize, A: Algorithm<WORDS>>(messages: &[&[u8]]) -> ([u32x4; WORDS], Queue)
    requires { WORDS ≤ 8 }
    ensures filled { AreFilled A.function messages.now result.0 result.1.tasks result.1.next 4 }
    ensures begun { (k : ℕ) → k < result.1.next → HasLane result.1.tasks k }
{
    let mut state = [u32x4::splat(0); WORDS];
    let mut queue = Queue::new();
    'lanes: for i in 0..4 {
        refill::<WORDS, A>(&mut state, &mut queue, i, messages);
    }
    (state, queue)
}
