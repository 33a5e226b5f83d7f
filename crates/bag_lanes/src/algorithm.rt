//! What the hash functions have of their own.
ghost use Rattle.std.specs.Prelude.{◌≡◌, ◌<◌, ℕ, [], slice_index_or};
ghost use Rattle.bag_lanes.specs.Lanes.{lane};
ghost use Rattle.bag_lanes.specs.Standard.{HashFunction};

use crate::octets::ByteOrder;
use std::simd::prelude::*;

/// A hash function whose hash value has this many words of 32 bits.
pub(crate) trait Algorithm<const WORDS: usize> {
    ghost function: { HashFunction };

    /// The order of the octets in a word, and in the length at the end of the padding.
    fn order() -> ByteOrder
        ensures { result ≡ function.order };

    /// The initial hash value.
    fn initial() -> [u32; WORDS]
        ensures { result ≡ function.initial };

    /// Takes one block into each lane of the hash value.
    fn compress(state: &mut [u32x4; WORDS], blocks: &[[u8; 64]; 4])
        ensures { (i : ℕ) → i < 4 → lane i state.new
            ≡ function.compress (lane i state.old) (slice_index_or blocks.now i []) };

    /// Takes one block into a hash value.
    fn compress_alone(value: &mut [u32; WORDS], block: &[u8; 64])
        ensures { value.new ≡ function.compress value.old block.now };
}
