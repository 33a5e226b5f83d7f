//! Hashers of four streams, which are taken side by side.
ghost use Rattle.std.specs.Prelude.{◌≡◌, ◌≢◌, ◌%◌, ◌<◌, ◌++◌, ℕ, List, [], length};
ghost use Rattle.md5.specs.Md5.{md5};
ghost use Rattle.sha1.specs.Sha1.{sha1};
ghost use Rattle.sha2.specs.Sha256.{sha256};
ghost use Rattle.bag_lanes.specs.Streams.{AreBlocks, piece_at};

use crate::md5_rounds::Md5;
use crate::pieces::{begun, counted, digest_at, take_alone, take_pieces};
use crate::sha1_rounds::Sha1;
use crate::sha256_rounds::Sha256;
use std::simd::prelude::*;

// The three differ in the hash function, in the number of its words, and in the length of its digests.

/// MD5 (RFC 1321) in four lanes, each with a stream of its own.
#[derive(Drop)]
pub struct Md5Lanes {
    a: u32x4,
    b: u32x4,
    c: u32x4,
    d: u32x4,
    counts: [u64; 4],
}

impl Md5Lanes {
    ghost use Rattle.bag_lanes.specs.Streams.{HoldsMd5, md5_state};

    /// Lanes whose streams have no octets yet.
    pub fn new() -> Md5Lanes
        ensures { (i : ℕ) → i < 4 → HoldsMd5 result i [] }
    {
        let zeros = u32x4::splat(0);
        let mut lanes = Md5Lanes {
            a: zeros,
            b: zeros,
            c: zeros,
            d: zeros,
            counts: [0; 4],
        };
        lanes.set_state(begun::<4, Md5>());
        lanes
    }

    /// Takes the next piece of each lane's stream. The pieces are whole blocks of 64 octets, and as many for each
    /// lane. What is given to a lane whose stream has ended doesn't matter.
    pub fn take(&mut self, pieces: &[&[u8]; 4])
        requires { AreBlocks pieces.now }
        ensures { (i : ℕ) → i < 4 → (octets : List ℕ) → HoldsMd5 self.old i octets
            → HoldsMd5 self.new i (octets ++ piece_at pieces.now i) }
    {
        let mut state = self.state();
        take_pieces::<4, Md5>(&mut state, pieces);
        self.set_state(state);
        self.counts = counted(self.counts, pieces[0].len());
    }

    /// Takes the next piece of lane `i`'s stream alone, whole blocks of 64 octets. If no other lane has a stream, this
    /// takes less time than [`take`](Self::take).
    pub fn take_alone(&mut self, i: usize, piece: &[u8])
        requires lane { i < 4 }
        requires piece { length piece.now % 64 ≡ 0 }
        ensures taken { (octets : List ℕ) → HoldsMd5 self.old i octets
            → HoldsMd5 self.new i (octets ++ piece.now) }
        ensures others { (j : ℕ) → j ≢ i → (octets : List ℕ) → HoldsMd5 self.old j octets
            → HoldsMd5 self.new j octets }
    {
        let mut state = self.state();
        take_alone::<4, Md5>(&mut state, i, piece);
        self.set_state(state);
        self.counts[i] = self.counts[i].wrapping_add(piece.len() as u64);
    }

    /// The digest of lane `i`'s stream, which ends with these octets, less than a block. The lane stays as it is.
    pub fn digest(&self, i: usize, rest: &[u8]) -> [u8; 16]
        requires lane { i < 4 }
        requires rest { length rest.now < 64 }
        ensures { (octets : List ℕ) → HoldsMd5 self.now i octets
            → result ≡ md5 (octets ++ rest.now) }
    {
        digest_at::<4, 16, Md5>(&self.state(), self.counts[i], i, rest)
    }

    fn state(&self) -> [u32x4; 4]
        ensures { result ≡ md5_state self.now }
    {
        [self.a, self.b, self.c, self.d]
    }

    fn set_state(&mut self, state: [u32x4; 4])
        ensures state { md5_state self.new ≡ state }
        ensures counts { self.new.counts ≡ self.old.counts }
    {
        let [a, b, c, d] = state;
        self.a = a;
        self.b = b;
        self.c = c;
        self.d = d;
    }
}

/// SHA-1 (FIPS 180-4) in four lanes, each with a stream of its own.
#[derive(Drop)]
pub struct Sha1Lanes {
    a: u32x4,
    b: u32x4,
    c: u32x4,
    d: u32x4,
    e: u32x4,
    counts: [u64; 4],
}

impl Sha1Lanes {
    ghost use Rattle.bag_lanes.specs.Streams.{HoldsSha1, sha1_state};

    /// Lanes whose streams have no octets yet.
    pub fn new() -> Sha1Lanes
        ensures { (i : ℕ) → i < 4 → HoldsSha1 result i [] }
    {
        let zeros = u32x4::splat(0);
        let mut lanes = Sha1Lanes {
            a: zeros,
            b: zeros,
            c: zeros,
            d: zeros,
            e: zeros,
            counts: [0; 4],
        };
        lanes.set_state(begun::<5, Sha1>());
        lanes
    }

    /// Takes the next piece of each lane's stream. The pieces are whole blocks of 64 octets, and as many for each
    /// lane. What is given to a lane whose stream has ended doesn't matter.
    pub fn take(&mut self, pieces: &[&[u8]; 4])
        requires { AreBlocks pieces.now }
        ensures { (i : ℕ) → i < 4 → (octets : List ℕ) → HoldsSha1 self.old i octets
            → HoldsSha1 self.new i (octets ++ piece_at pieces.now i) }
    {
        let mut state = self.state();
        take_pieces::<5, Sha1>(&mut state, pieces);
        self.set_state(state);
        self.counts = counted(self.counts, pieces[0].len());
    }

    /// Takes the next piece of lane `i`'s stream alone, whole blocks of 64 octets. If no other lane has a stream, this
    /// takes less time than [`take`](Self::take).
    pub fn take_alone(&mut self, i: usize, piece: &[u8])
        requires lane { i < 4 }
        requires piece { length piece.now % 64 ≡ 0 }
        ensures taken { (octets : List ℕ) → HoldsSha1 self.old i octets
            → HoldsSha1 self.new i (octets ++ piece.now) }
        ensures others { (j : ℕ) → j ≢ i → (octets : List ℕ) → HoldsSha1 self.old j octets
            → HoldsSha1 self.new j octets }
    {
        let mut state = self.state();
        take_alone::<5, Sha1>(&mut state, i, piece);
        self.set_state(state);
        self.counts[i] = self.counts[i].wrapping_add(piece.len() as u64);
    }

    /// The digest of lane `i`'s stream, which ends with these octets, less than a block. The lane stays as it is.
    pub fn digest(&self, i: usize, rest: &[u8]) -> [u8; 20]
        requires lane { i < 4 }
        requires rest { length rest.now < 64 }
        ensures { (octets : List ℕ) → HoldsSha1 self.now i octets
            → result ≡ sha1 (octets ++ rest.now) }
    {
        digest_at::<5, 20, Sha1>(&self.state(), self.counts[i], i, rest)
    }

    fn state(&self) -> [u32x4; 5]
        ensures { result ≡ sha1_state self.now }
    {
        [self.a, self.b, self.c, self.d, self.e]
    }

    fn set_state(&mut self, state: [u32x4; 5])
        ensures state { sha1_state self.new ≡ state }
        ensures counts { self.new.counts ≡ self.old.counts }
    {
        let [a, b, c, d, e] = state;
        self.a = a;
        self.b = b;
        self.c = c;
        self.d = d;
        self.e = e;
    }
}

/// SHA-256 (FIPS 180-4) in four lanes, each with a stream of its own.
#[derive(Drop)]
pub struct Sha256Lanes {
    a: u32x4,
    b: u32x4,
    c: u32x4,
    d: u32x4,
    e: u32x4,
    f: u32x4,
    g: u32x4,
    h: u32x4,
    counts: [u64; 4],
}

impl Sha256Lanes {
    ghost use Rattle.bag_lanes.specs.Streams.{HoldsSha256, sha256_state};

    /// Lanes whose streams have no octets yet.
    pub fn new() -> Sha256Lanes
        ensures { (i : ℕ) → i < 4 → HoldsSha256 result i [] }
    {
        let zeros = u32x4::splat(0);
        let mut lanes = Sha256Lanes {
            a: zeros,
            b: zeros,
            c: zeros,
            d: zeros,
            e: zeros,
            f: zeros,
            g: zeros,
            h: zeros,
            counts: [0; 4],
        };
        lanes.set_state(begun::<8, Sha256>());
        lanes
    }

    /// Takes the next piece of each lane's stream. The pieces are whole blocks of 64 octets, and as many for each
    /// lane. What is given to a lane whose stream has ended doesn't matter.
    pub fn take(&mut self, pieces: &[&[u8]; 4])
        requires { AreBlocks pieces.now }
        ensures { (i : ℕ) → i < 4 → (octets : List ℕ) → HoldsSha256 self.old i octets
            → HoldsSha256 self.new i (octets ++ piece_at pieces.now i) }
    {
        let mut state = self.state();
        take_pieces::<8, Sha256>(&mut state, pieces);
        self.set_state(state);
        self.counts = counted(self.counts, pieces[0].len());
    }

    /// Takes the next piece of lane `i`'s stream alone, whole blocks of 64 octets. If no other lane has a stream, this
    /// takes less time than [`take`](Self::take).
    pub fn take_alone(&mut self, i: usize, piece: &[u8])
        requires lane { i < 4 }
        requires piece { length piece.now % 64 ≡ 0 }
        ensures taken { (octets : List ℕ) → HoldsSha256 self.old i octets
            → HoldsSha256 self.new i (octets ++ piece.now) }
        ensures others { (j : ℕ) → j ≢ i → (octets : List ℕ) → HoldsSha256 self.old j octets
            → HoldsSha256 self.new j octets }
    {
        let mut state = self.state();
        take_alone::<8, Sha256>(&mut state, i, piece);
        self.set_state(state);
        self.counts[i] = self.counts[i].wrapping_add(piece.len() as u64);
    }

    /// The digest of lane `i`'s stream, which ends with these octets, less than a block. The lane stays as it is.
    pub fn digest(&self, i: usize, rest: &[u8]) -> [u8; 32]
        requires lane { i < 4 }
        requires rest { length rest.now < 64 }
        ensures { (octets : List ℕ) → HoldsSha256 self.now i octets
            → result ≡ sha256 (octets ++ rest.now) }
    {
        digest_at::<8, 32, Sha256>(&self.state(), self.counts[i], i, rest)
    }

    fn state(&self) -> [u32x4; 8]
        ensures { result ≡ sha256_state self.now }
    {
        [
            self.a, self.b, self.c, self.d, self.e, self.f, self.g, self.h,
        ]
    }

    fn set_state(&mut self, state: [u32x4; 8])
        ensures state { sha256_state self.new ≡ state }
        ensures counts { self.new.counts ≡ self.old.counts }
    {
        let [a, b, c, d, e, f, g, h] = state;
        self.a = a;
        self.b = b;
        self.c = c;
        self.d = d;
        self.e = e;
        self.f = f;
        self.g = g;
        self.h = h;
    }
}
