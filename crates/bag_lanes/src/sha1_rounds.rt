//! SHA-1: one block in each lane (FIPS 180-4, 6.1.2).
ghost use Rattle.std.specs.Prelude.{◌≡◌, ◌+◌, ◌%◌, ◌<◌, ◌≤◌, ℕ, List, slice_index, slice_set};
ghost use Rattle.sha1.specs.Sha1.{round, round_constant, round_fn, window_word};
ghost use Rattle.bag_lanes.specs.Lanes.{lane};
ghost use Rattle.bag_lanes.specs.Rounds.{IsSha1At};
ghost use Rattle.bag_lanes.specs.Standard.{sha1_function};

use crate::algorithm::Algorithm;
use crate::octets::ByteOrder;
use crate::sha1_alone::compress_alone;
use crate::words::{choose, majority, parity, plus, rotated_left, words_of, xor};
use std::simd::prelude::*;

// `f` of round `t` (4.1.1).
#[inline(always)]
fn mixed(t: usize, x: u32x4, y: u32x4, z: u32x4) -> u32x4
    ensures { (i : ℕ) → i < 4
        → slice_index result i ≡ round_fn t (slice_index x i) (slice_index y i) (slice_index z i) }
{
    if t < 20 {
        choose(x, y, z)
    } else if t < 40 {
        parity(x, y, z)
    } else if t < 60 {
        majority(x, y, z)
    } else {
        parity(x, y, z)
    }
}

/// `K` of round `t` (4.2.1).
#[inline(always)]
pub(crate) fn constant(t: usize) -> u32
    ensures { result ≡ round_constant t }
{
    if t < 20 {
        0x5a82_7999
    } else if t < 40 {
        0x6ed9_eba1
    } else if t < 60 {
        0x8f1b_bcdc
    } else {
        0xca62_c1d6
    }
}

// Word `t` of the schedule, from 16 on. It takes the place of word `t - 16`.
#[inline(always)]
fn next_word(w: &mut [u32x4; 16], t: usize) -> u32x4
    requires { t < 80 }
    ensures value { (i : ℕ) → i < 4 → slice_index result i ≡ window_word (lane i w.old) t }
    ensures kept { (i : ℕ) → lane i w.new
        ≡ slice_set (lane i w.old) (t % 16) (slice_index result i) }
{
    let word = rotated_left(
        xor(
            xor(xor(w[(t + 13) % 16], w[(t + 8) % 16]), w[(t + 2) % 16]),
            w[t % 16],
        ),
        1,
    );
    w[t % 16] = word;
    word
}

#[inline(always)]
fn round(v: [u32x4; 5], f: u32x4, k: u32, word: u32x4) -> [u32x4; 5]
    ensures { (i : ℕ) → i < 4
        → lane i result ≡ round (lane i v) (slice_index f i) k (slice_index word i) }
{
    let [a, b, c, d, e] = v;
    // What doesn't depend on the round before is added first.
    let early = plus(plus(e, u32x4::splat(k)), word);
    let sum = plus(plus(rotated_left(a, 5), f), early);
    [sum, a, rotated_left(b, 30), c, d]
}

#[inline(always)]
fn step(w: &mut [u32x4; 16], v: [u32x4; 5], t: usize) -> [u32x4; 5]
    requires { t < 80 }
    ensures { (i : ℕ) → i < 4 → (b h : List ℕ) → IsSha1At b h (lane i w.old) (lane i v) t
        → IsSha1At b h (lane i w.new) (lane i result) (t + 1) }
{
    let f = mixed(t, v[1], v[2], v[3]);
    let k = constant(t);
    if t < 16 {
        return round(v, f, k, w[t]);
    }
    let word = next_word(w, t);
    round(v, f, k, word)
}

// Four at a time, since a function that grows much larger isn't inlined.
#[inline(always)]
fn four_steps(w: &mut [u32x4; 16], v: [u32x4; 5], t: usize) -> [u32x4; 5]
    requires { t + 4 ≤ 80 }
    ensures { (i : ℕ) → i < 4 → (b h : List ℕ) → IsSha1At b h (lane i w.old) (lane i v) t
        → IsSha1At b h (lane i w.new) (lane i result) (t + 4) }
{
    let v = step(w, v, t);
    let v = step(w, v, t + 1);
    let v = step(w, v, t + 2);
    step(w, v, t + 3)
}

/// The hash function SHA-1.
pub(crate) struct Sha1;

impl Algorithm<5> for Sha1 {
    ghost function = { sha1_function };

    fn order() -> ByteOrder {
        ByteOrder::HighFirst
    }

    fn initial() -> [u32; 5] {
        [
            0x6745_2301,
            0xefcd_ab89,
            0x98ba_dcfe,
            0x1032_5476,
            0xc3d2_e1f0,
        ]
    }

    fn compress(state: &mut [u32x4; 5], blocks: &[[u8; 64]; 4]) {
        let mut w = words_of(blocks, ByteOrder::HighFirst);
        let mut v = *state;
        v = four_steps(&mut w, v, 0);
        v = four_steps(&mut w, v, 4);
        v = four_steps(&mut w, v, 8);
        v = four_steps(&mut w, v, 12);
        v = four_steps(&mut w, v, 16);
        v = four_steps(&mut w, v, 20);
        v = four_steps(&mut w, v, 24);
        v = four_steps(&mut w, v, 28);
        v = four_steps(&mut w, v, 32);
        v = four_steps(&mut w, v, 36);
        v = four_steps(&mut w, v, 40);
        v = four_steps(&mut w, v, 44);
        v = four_steps(&mut w, v, 48);
        v = four_steps(&mut w, v, 52);
        v = four_steps(&mut w, v, 56);
        v = four_steps(&mut w, v, 60);
        v = four_steps(&mut w, v, 64);
        v = four_steps(&mut w, v, 68);
        v = four_steps(&mut w, v, 72);
        v = four_steps(&mut w, v, 76);
        *state = [
            plus(state[0], v[0]),
            plus(state[1], v[1]),
            plus(state[2], v[2]),
            plus(state[3], v[3]),
            plus(state[4], v[4]),
        ];
    }

    fn compress_alone(value: &mut [u32; 5], block: &[u8; 64]) {
        compress_alone(value, block);
    }
}
