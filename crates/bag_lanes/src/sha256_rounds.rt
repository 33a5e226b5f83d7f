//! SHA-256: one block in each lane (FIPS 180-4, 6.2.2).
ghost use Rattle.std.specs.Prelude.{◌≡◌, ◌+◌, ◌*◌, ◌%◌, ◌<◌, ◌≤◌, ℕ, List, slice_index, slice_set};
ghost use Rattle.sha2.specs.Sha256.{big_sigma0, big_sigma1, round, small_sigma0, small_sigma1, window_word};
ghost use Rattle.bag_lanes.specs.Lanes.{lane};
ghost use Rattle.bag_lanes.specs.Rounds.{IsSha256At};
ghost use Rattle.bag_lanes.specs.Standard.{sha256_function};

use crate::algorithm::Algorithm;
use crate::octets::ByteOrder;
use crate::sha256_alone::compress_alone;
use crate::words::{choose, majority, plus, rotated_right, shifted_right, words_of, xor};
use std::simd::prelude::*;

/// The constants of the rounds (4.2.2).
pub(crate) const K: [u32; 64] = [
    0x428a_2f98,
    0x7137_4491,
    0xb5c0_fbcf,
    0xe9b5_dba5,
    0x3956_c25b,
    0x59f1_11f1,
    0x923f_82a4,
    0xab1c_5ed5,
    0xd807_aa98,
    0x1283_5b01,
    0x2431_85be,
    0x550c_7dc3,
    0x72be_5d74,
    0x80de_b1fe,
    0x9bdc_06a7,
    0xc19b_f174,
    0xe49b_69c1,
    0xefbe_4786,
    0x0fc1_9dc6,
    0x240c_a1cc,
    0x2de9_2c6f,
    0x4a74_84aa,
    0x5cb0_a9dc,
    0x76f9_88da,
    0x983e_5152,
    0xa831_c66d,
    0xb003_27c8,
    0xbf59_7fc7,
    0xc6e0_0bf3,
    0xd5a7_9147,
    0x06ca_6351,
    0x1429_2967,
    0x27b7_0a85,
    0x2e1b_2138,
    0x4d2c_6dfc,
    0x5338_0d13,
    0x650a_7354,
    0x766a_0abb,
    0x81c2_c92e,
    0x9272_2c85,
    0xa2bf_e8a1,
    0xa81a_664b,
    0xc24b_8b70,
    0xc76c_51a3,
    0xd192_e819,
    0xd699_0624,
    0xf40e_3585,
    0x106a_a070,
    0x19a4_c116,
    0x1e37_6c08,
    0x2748_774c,
    0x34b0_bcb5,
    0x391c_0cb3,
    0x4ed8_aa4a,
    0x5b9c_ca4f,
    0x682e_6ff3,
    0x748f_82ee,
    0x78a5_636f,
    0x84c8_7814,
    0x8cc7_0208,
    0x90be_fffa,
    0xa450_6ceb,
    0xbef9_a3f7,
    0xc671_78f2,
];

// The four functions of one word (4.1.2). Each rotation is of all that come after it, which needs fewer
// copies of the word.
#[inline(always)]
fn big_sigma0(x: u32x4) -> u32x4
    ensures { (i : ℕ) → i < 4 → slice_index result i ≡ big_sigma0 (slice_index x i) }
{
    rotated_right(xor(x, rotated_right(xor(x, rotated_right(x, 9)), 11)), 2)
}

#[inline(always)]
fn big_sigma1(x: u32x4) -> u32x4
    ensures { (i : ℕ) → i < 4 → slice_index result i ≡ big_sigma1 (slice_index x i) }
{
    rotated_right(xor(x, rotated_right(xor(x, rotated_right(x, 14)), 5)), 6)
}

#[inline(always)]
fn small_sigma0(x: u32x4) -> u32x4
    ensures { (i : ℕ) → i < 4 → slice_index result i ≡ small_sigma0 (slice_index x i) }
{
    xor(
        rotated_right(xor(x, rotated_right(x, 11)), 7),
        shifted_right(x, 3),
    )
}

#[inline(always)]
fn small_sigma1(x: u32x4) -> u32x4
    ensures { (i : ℕ) → i < 4 → slice_index result i ≡ small_sigma1 (slice_index x i) }
{
    xor(
        rotated_right(xor(x, rotated_right(x, 2)), 17),
        shifted_right(x, 10),
    )
}

// Word `t` of the schedule, from 16 on. It takes the place of word `t - 16`.
#[inline(always)]
fn next_word(w: &mut [u32x4; 16], t: usize) -> u32x4
    requires { t < 64 }
    ensures value { (i : ℕ) → i < 4 → slice_index result i ≡ window_word (lane i w.old) t }
    ensures kept { (i : ℕ) → lane i w.new
        ≡ slice_set (lane i w.old) (t % 16) (slice_index result i) }
{
    let word = plus(
        plus(
            plus(small_sigma1(w[(t + 14) % 16]), w[(t + 9) % 16]),
            small_sigma0(w[(t + 1) % 16]),
        ),
        w[t % 16],
    );
    w[t % 16] = word;
    word
}

#[inline(always)]
fn round(v: [u32x4; 8], k: u32, word: u32x4) -> [u32x4; 8]
    ensures { (i : ℕ) → i < 4 → lane i result ≡ round (lane i v) k (slice_index word i) }
{
    let [a, b, c, d, e, f, g, h] = v;
    let first = plus(
        plus(
            plus(plus(h, big_sigma1(e)), choose(e, f, g)),
            u32x4::splat(k),
        ),
        word,
    );
    let second = plus(big_sigma0(a), majority(a, b, c));
    [plus(first, second), a, b, c, plus(d, first), e, f, g]
}

#[inline(always)]
fn step(w: &mut [u32x4; 16], v: [u32x4; 8], t: usize) -> [u32x4; 8]
    requires { t < 64 }
    ensures { (i : ℕ) → i < 4 → (b h : List ℕ) → IsSha256At b h (lane i w.old) (lane i v) t
        → IsSha256At b h (lane i w.new) (lane i result) (t + 1) }
{
    if t < 16 {
        return round(v, K[t], w[t]);
    }
    let word = next_word(w, t);
    round(v, K[t], word)
}

// Four at a time, since a function that grows much larger isn't inlined.
#[inline(always)]
fn four_steps(w: &mut [u32x4; 16], v: [u32x4; 8], t: usize) -> [u32x4; 8]
    requires { t + 4 ≤ 64 }
    ensures { (i : ℕ) → i < 4 → (b h : List ℕ) → IsSha256At b h (lane i w.old) (lane i v) t
        → IsSha256At b h (lane i w.new) (lane i result) (t + 4) }
{
    let v = step(w, v, t);
    let v = step(w, v, t + 1);
    let v = step(w, v, t + 2);
    step(w, v, t + 3)
}

/// The hash function SHA-256.
pub(crate) struct Sha256;

impl Algorithm<8> for Sha256 {
    ghost function = { sha256_function };

    fn order() -> ByteOrder {
        ByteOrder::HighFirst
    }

    fn initial() -> [u32; 8] {
        [
            0x6a09_e667,
            0xbb67_ae85,
            0x3c6e_f372,
            0xa54f_f53a,
            0x510e_527f,
            0x9b05_688c,
            0x1f83_d9ab,
            0x5be0_cd19,
        ]
    }

    fn compress(state: &mut [u32x4; 8], blocks: &[[u8; 64]; 4]) {
        let mut w = words_of(blocks, ByteOrder::HighFirst);
        let mut v = *state;
        v = four_steps(&mut w, v, 0);
        v = four_steps(&mut w, v, 4);
        v = four_steps(&mut w, v, 8);
        v = four_steps(&mut w, v, 12);
        // Sixteen rounds a turn, so that the places of the words are constants.
        'turns: for turn in 1..4 {
            v = four_steps(&mut w, v, 16 * turn);
            v = four_steps(&mut w, v, 16 * turn + 4);
            v = four_steps(&mut w, v, 16 * turn + 8);
            v = four_steps(&mut w, v, 16 * turn + 12);
        }
        *state = [
            plus(state[0], v[0]),
            plus(state[1], v[1]),
            plus(state[2], v[2]),
            plus(state[3], v[3]),
            plus(state[4], v[4]),
            plus(state[5], v[5]),
            plus(state[6], v[6]),
            plus(state[7], v[7]),
        ];
    }

    fn compress_alone(value: &mut [u32; 8], block: &[u8; 64]) {
        compress_alone(value, block);
    }
}
