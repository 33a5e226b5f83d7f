//! Four lanes that take pieces of streams.
ghost use Rattle.std.specs.Prelude.{◌≡◌, ◌≢◌, ◌+◌, ◌*◌, ◌%◌, ◌^◌, ◌<◌, ◌≤◌, ◌++◌, ℕ, List, length, slice_index};
ghost use Rattle.bag_lanes.specs.Lanes.{lane};
ghost use Rattle.bag_lanes.specs.Standard.{digest, final_value};
ghost use Rattle.bag_lanes.specs.Streams.{AreBlocks, IsValueOf, piece_at};

use crate::algorithm::Algorithm;
use crate::lanes::{lane_octets, set_lane};
use crate::padding::{block_at, marked, with_length};
use std::simd::prelude::*;

/// Lanes that have taken nothing yet.
pub(crate) fn begun<const WORDS: usize, A: Algorithm<WORDS>>() -> [u32x4; WORDS]
    // The size of the state has to fit, here and below.
    requires { WORDS ≤ 8 }
    ensures { (i : ℕ) → i < 4 → lane i result ≡ A.function.initial }
{
    let initial = A::initial();
    let mut state = [u32x4::splat(0); WORDS];
    set_lane(&mut state, &initial, 0);
    set_lane(&mut state, &initial, 1);
    set_lane(&mut state, &initial, 2);
    set_lane(&mut state, &initial, 3);
    state
}

/// Takes the blocks of a piece into each lane, as many as all of the pieces have.
pub(crate) fn take_pieces<const WORDS: usize, A: Algorithm<WORDS>>(
    state: &mut [u32x4; WORDS],
    pieces: &[&[u8]; 4],
)
    requires words { WORDS ≤ 8 }
    requires pieces { AreBlocks pieces.now }
    ensures { (i : ℕ) → i < 4 → (octets : List ℕ) → IsValueOf A.function octets (lane i state.old)
        → IsValueOf A.function (octets ++ piece_at pieces.now i) (lane i state.new) }
{
    'steps: for j in 0..pieces[0].len() / 64 {
        let blocks = [
            block_at(pieces[0], j),
            block_at(pieces[1], j),
            block_at(pieces[2], j),
            block_at(pieces[3], j),
        ];
        A::compress(state, &blocks);
    }
}

/// Takes the blocks of a piece into lane `i` alone.
pub(crate) fn take_alone<const WORDS: usize, A: Algorithm<WORDS>>(
    state: &mut [u32x4; WORDS],
    i: usize,
    piece: &[u8],
)
    requires words { WORDS ≤ 8 }
    requires lane { i < 4 }
    requires piece { length piece.now % 64 ≡ 0 }
    ensures own { (octets : List ℕ) → IsValueOf A.function octets (lane i state.old)
        → IsValueOf A.function (octets ++ piece.now) (lane i state.new) }
    ensures others { (j : ℕ) → j ≢ i → lane j state.new ≡ lane j state.old }
{
    let mut value = value_in(state, i);
    'steps: for j in 0..piece.len() / 64 {
        A::compress_alone(&mut value, &block_at(piece, j));
    }
    set_lane(state, &value, i);
}

// The hash value of lane `i`.
fn value_in<const WORDS: usize>(state: &[u32x4; WORDS], i: usize) -> [u32; WORDS]
    requires { i < 4 }
    ensures { result ≡ lane i state.now }
{
    let mut value = [0; WORDS];
    'words: for k in 0..WORDS {
        value[k] = state[k].to_array()[i];
    }
    value
}

/// The counts of lanes that have each taken this many octets more, modulo 2^64.
pub(crate) fn counted(counts: [u64; 4], octets: usize) -> [u64; 4]
    ensures { (i : ℕ) → i < 4 → slice_index result i ≡ (slice_index counts i + octets) % 2 ^ 64 }
{
    let octets = octets as u64;
    [
        counts[0].wrapping_add(octets),
        counts[1].wrapping_add(octets),
        counts[2].wrapping_add(octets),
        counts[3].wrapping_add(octets),
    ]
}

/// The digest of the stream in lane `i`, which has taken this many octets modulo 2^64 and ends with `rest`.
pub(crate) fn digest_at<const WORDS: usize, const OCTETS: usize, A: Algorithm<WORDS>>(
    state: &[u32x4; WORDS],
    count: u64,
    i: usize,
    rest: &[u8],
) -> [u8; OCTETS]
    requires words { WORDS ≤ 8 }
    requires octets { OCTETS ≡ 4 * WORDS }
    requires lane { i < 4 }
    requires rest { length rest.now < 64 }
    ensures { (octets : List ℕ) → IsValueOf A.function octets (lane i state.now)
        → count ≡ length octets % 2 ^ 64 → result ≡ digest A.function (octets ++ rest.now) }
{
    let mut ended = *state;
    take_end::<WORDS, A>(&mut ended, count.wrapping_add(rest.len() as u64), rest);
    lane_octets(&ended, i, A::order())
}

// Takes the last octets of a stream and its padding into each lane, where the stream has this many octets modulo
// 2^64 in all.
fn take_end<const WORDS: usize, A: Algorithm<WORDS>>(
    state: &mut [u32x4; WORDS],
    count: u64,
    rest: &[u8],
)
    requires words { WORDS ≤ 8 }
    requires rest { length rest.now < 64 }
    ensures { (i : ℕ) → i < 4 → (octets : List ℕ) → IsValueOf A.function octets (lane i state.old)
        → count ≡ (length octets + length rest.now) % 2 ^ 64
        → lane i state.new ≡ final_value A.function (octets ++ rest.now) }
{
    let order = A::order();
    let last = marked(rest);
    if rest.len() < 56 {
        A::compress(state, &[with_length(last, count, order); 4]);
        return;
    }
    A::compress(state, &[last; 4]);
    A::compress(state, &[with_length([0; 64], count, order); 4]);
}
