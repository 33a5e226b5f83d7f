//! Words of 32 bits, four side by side in the lanes of a vector, and the operations on them that the
//! hash functions share (RFC 1321, 2; FIPS 180-4, 3.2 and 4.1).
ghost use Rattle.std.specs.Prelude.{◌≡◌, ◌≢◌, ◌+◌, ◌*◌, ◌/◌, ◌%◌, ◌^◌, ◌<◌, ◌≤◌, ℕ, [], bit_and, bit_or, bit_xor, length, slice_index, slice_index_or};
ghost use Rattle.std.specs.Int.{w32, bit_not, rotate_left, rotate_right};
ghost use Rattle.sha2.specs.Sha256.{add32, ch, maj};
ghost use Rattle.sha1.specs.Sha1.{parity};
ghost use Rattle.bag_lanes.specs.Lanes.{lane};
ghost use Rattle.bag_lanes.specs.Standard.{word_at};

use crate::octets::ByteOrder;
use std::simd::prelude::*;

/// The sums, each modulo 2^32.
#[inline(always)]
pub(crate) fn plus(x: u32x4, y: u32x4) -> u32x4
    ensures { (i : ℕ) → i < 4 → slice_index result i ≡ add32 (slice_index x i) (slice_index y i) }
{
    x + y
}

/// The bits that are set in both.
#[inline(always)]
pub(crate) fn and(x: u32x4, y: u32x4) -> u32x4
    ensures { (i : ℕ) → i < 4 → slice_index result i ≡ bit_and (slice_index x i) (slice_index y i) }
{
    x & y
}

/// The bits that are set in either.
#[inline(always)]
pub(crate) fn or(x: u32x4, y: u32x4) -> u32x4
    ensures { (i : ℕ) → i < 4 → slice_index result i ≡ bit_or (slice_index x i) (slice_index y i) }
{
    x | y
}

/// The bits that are set in just one.
#[inline(always)]
pub(crate) fn xor(x: u32x4, y: u32x4) -> u32x4
    ensures { (i : ℕ) → i < 4 → slice_index result i ≡ bit_xor (slice_index x i) (slice_index y i) }
{
    x ^ y
}

/// The bits that aren't set.
#[inline(always)]
pub(crate) fn not(x: u32x4) -> u32x4
    ensures { (i : ℕ) → i < 4 → slice_index result i ≡ bit_not w32 (slice_index x i) }
{
    !x
}

/// The words with their lowest `by` bits shifted out.
#[inline(always)]
pub(crate) fn shifted_right(x: u32x4, by: u32) -> u32x4
    requires { by < 32 }
    ensures { (i : ℕ) → i < 4 → slice_index result i ≡ slice_index x i / 2 ^ by }
{
    x >> u32x4::splat(by)
}

/// The words with their highest `by` bits shifted out.
#[inline(always)]
pub(crate) fn shifted_left(x: u32x4, by: u32) -> u32x4
    requires { by < 32 }
    ensures { (i : ℕ) → i < 4 → slice_index result i ≡ slice_index x i * 2 ^ by % 2 ^ 32 }
{
    x << u32x4::splat(by)
}

/// The words rotated towards their highest bits, by `by` bits modulo 32.
#[inline(always)]
pub(crate) fn rotated_left(x: u32x4, by: u32) -> u32x4
    ensures { (i : ℕ) → i < 4 → slice_index result i ≡ rotate_left w32 (slice_index x i) by }
{
    or(
        shifted_left(x, by % 32),
        shifted_right(x, (32 - by % 32) % 32),
    )
}

/// The words rotated towards their lowest bits, by `by` bits modulo 32.
#[inline(always)]
pub(crate) fn rotated_right(x: u32x4, by: u32) -> u32x4
    ensures { (i : ℕ) → i < 4 → slice_index result i ≡ rotate_right w32 (slice_index x i) by }
{
    or(
        shifted_right(x, by % 32),
        shifted_left(x, (32 - by % 32) % 32),
    )
}

/// `Ch` of FIPS 180-4, 4.1.
#[inline(always)]
pub(crate) fn choose(x: u32x4, y: u32x4, z: u32x4) -> u32x4
    ensures { (i : ℕ) → i < 4
        → slice_index result i ≡ ch (slice_index x i) (slice_index y i) (slice_index z i) }
{
    xor(and(x, y), and(not(x), z))
}

/// `Maj` of FIPS 180-4, 4.1.
#[inline(always)]
pub(crate) fn majority(x: u32x4, y: u32x4, z: u32x4) -> u32x4
    ensures { (i : ℕ) → i < 4
        → slice_index result i ≡ maj (slice_index x i) (slice_index y i) (slice_index z i) }
{
    xor(xor(and(x, y), and(x, z)), and(y, z))
}

/// `Parity` of FIPS 180-4, 4.1.1, and `H` of RFC 1321, 3.4.
#[inline(always)]
pub(crate) fn parity(x: u32x4, y: u32x4, z: u32x4) -> u32x4
    ensures { (i : ℕ) → i < 4
        → slice_index result i ≡ parity (slice_index x i) (slice_index y i) (slice_index z i) }
{
    xor(xor(x, y), z)
}

/// The vector with this word in lane `i`.
pub(crate) fn with_lane(x: u32x4, i: usize, word: u32) -> u32x4
    requires { i < 4 }
    ensures own { slice_index result i ≡ word }
    ensures others { (j : ℕ) → j ≢ i → slice_index result j ≡ slice_index x j }
{
    let mut words = x.to_array();
    words[i] = word;
    u32x4::from_array(words)
}

/// The word at octet `at` of a block.
#[inline(always)]
fn word_at(block: &[u8; 64], at: usize, order: ByteOrder) -> u32
    requires { at + 4 ≤ 64 }
    ensures { result ≡ word_at order block.now at }
{
    order.word_of([block[at], block[at + 1], block[at + 2], block[at + 3]])
}

/// The 16 words of each block: word `k` of block `i` in lane `i` of vector `k`.
#[inline(always)]
pub(crate) fn words_of(blocks: &[[u8; 64]; 4], order: ByteOrder) -> [u32x4; 16]
    ensures count { length result ≡ 16 }
    ensures words { (i : ℕ) → i < 4 → (k : ℕ) → k < 16 → slice_index (lane i result) k
        ≡ word_at order (slice_index_or blocks.now i []) (4 * k) }
{
    let mut words = [u32x4::splat(0); 16];
    'words: for k in 0..16 {
        words[k] = u32x4::from_array([
            word_at(&blocks[0], 4 * k, order),
            word_at(&blocks[1], 4 * k, order),
            word_at(&blocks[2], 4 * k, order),
            word_at(&blocks[3], 4 * k, order),
        ]);
    }
    words
}

/// The 16 words of a block.
#[inline(always)]
pub(crate) fn block_words(block: &[u8; 64], order: ByteOrder) -> [u32; 16]
    ensures count { length result ≡ 16 }
    ensures words { (k : ℕ) → k < 16 → slice_index result k ≡ word_at order block.now (4 * k) }
{
    let mut words = [0; 16];
    'words: for k in 0..16 {
        words[k] = word_at(block, 4 * k, order);
    }
    words
}
