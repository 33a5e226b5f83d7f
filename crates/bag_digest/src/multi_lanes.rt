//! Several digests of four streams, which are hashed side by side.
ghost use Rattle.std.specs.Prelude.{◌≡◌, ◌≢◌, ◌%◌, ◌<◌, ◌++◌, ℕ, List, [], None, Bool, length, slice_index_or};
ghost use Rattle.md5.specs.Md5.{md5};
ghost use Rattle.sha1.specs.Sha1.{sha1};
ghost use Rattle.sha2.specs.Hashers.{Holds512};
ghost use Rattle.sha2.specs.Sha256.{sha256};
ghost use Rattle.sha2.specs.Sha512.{sha512};
ghost use Rattle.bag_lanes.specs.Streams.{AreBlocks, HoldsMd5, HoldsSha1, HoldsSha256, piece_at};
ghost use Rattle.bag_digest.specs.Algorithm.{has};
ghost use Rattle.bag_digest.specs.Each.{digest_if};
ghost use Rattle.bag_digest.specs.Hash.{AreDigests, HoldsIf};
ghost use Rattle.bag_digest.specs.Lanes.{HoldsAt, OtherLanesStay};
ghost use Rattle.bag_digest.specs.declared.algorithm.Alg.TheVariants as alg;
ghost use Rattle.bag_digest.specs.declared.algorithm.AlgSet.{AlgSet};

use crate::algorithm::{Alg, AlgSet};
use crate::multi::Digests;
use bag_lanes::{Md5Lanes, Sha1Lanes, Sha256Lanes};
use sha2::{Digest as _, Sha512};

/// Hashers of four streams by several algorithms: what [`Multi`](crate::Multi) is for one stream. By MD5, SHA-1 and
/// SHA-256 the streams are hashed side by side, in the lanes of the processor's vectors, which takes less time than one
/// after another if there are several; by SHA-512 each by itself.
///
/// A stream comes in pieces of whole blocks of 64 octets, and ends with what is left of it. Each lane ends its stream
/// by itself.
#[derive(Drop)]
pub struct MultiLanes {
    md5: Option<Md5Lanes>,
    sha1: Option<Sha1Lanes>,
    sha256: Option<Sha256Lanes>,
    /// A hasher for each lane with a stream, if it is wanted.
    sha512: [Option<Sha512>; 4],
}

impl MultiLanes {
    /// Hashers for the algorithms of the set. Each lane begins a stream, which has no octets yet.
    pub fn new(set: AlgSet) -> MultiLanes
        ensures { (i : ℕ) → i < 4 → HoldsAt result set i [] }
    {
        MultiLanes {
            md5: set.has(Alg::Md5).then_some(Md5Lanes::new()),
            sha1: set.has(Alg::Sha1).then_some(Sha1Lanes::new()),
            sha256: set.has(Alg::Sha256).then_some(Sha256Lanes::new()),
            sha512: [
                begun_sha512(set),
                begun_sha512(set),
                begun_sha512(set),
                begun_sha512(set),
            ],
        }
    }

    /// Takes the next piece of each lane's stream. The pieces are whole blocks of 64 octets, and as many for each lane.
    /// What is given to a lane whose stream has ended doesn't matter.
    pub fn take(&mut self, pieces: &[&[u8]; 4])
        requires { AreBlocks pieces.now }
        ensures taken { (i : ℕ) → i < 4 → (set : AlgSet) (octets : List ℕ)
            → HoldsAt self.old set i octets
            → HoldsAt self.new set i (octets ++ piece_at pieces.now i) }
    {
        if let Some(lanes) = &mut self.md5 {
            lanes.take(pieces);
        }
        if let Some(lanes) = &mut self.sha1 {
            lanes.take(pieces);
        }
        if let Some(lanes) = &mut self.sha256 {
            lanes.take(pieces);
        }
        update_each(&mut self.sha512, pieces);
    }

    /// Takes the next piece of lane `i`'s stream alone, whole blocks of 64 octets. If no other lane has a stream, this
    /// takes less time than [`take`](Self::take).
    pub fn take_alone(&mut self, i: usize, piece: &[u8])
        requires lane { i < 4 }
        requires piece { length piece.now % 64 ≡ 0 }
        ensures taken { (set : AlgSet) (octets : List ℕ) → HoldsAt self.old set i octets
            → HoldsAt self.new set i (octets ++ piece.now) }
        ensures others { OtherLanesStay i self.old self.new }
    {
        if let Some(lanes) = &mut self.md5 {
            lanes.take_alone(i, piece);
        }
        if let Some(lanes) = &mut self.sha1 {
            lanes.take_alone(i, piece);
        }
        if let Some(lanes) = &mut self.sha256 {
            lanes.take_alone(i, piece);
        }
        update_at(&mut self.sha512, i, piece);
    }

    /// The digests of lane `i`'s stream, which ends with these octets, however many: by each algorithm of the set and
    /// by no other. The lane has no stream from then on.
    pub fn finish(&mut self, i: usize, rest: &[u8]) -> Digests
        requires { i < 4 }
        ensures digests { (set : AlgSet) (octets : List ℕ) → HoldsAt self.old set i octets
            → AreDigests result set (octets ++ rest.now) }
        ensures others { OtherLanesStay i self.old self.new }
    {
        let whole = rest.len() - rest.len() % 64;
        self.take_alone(i, &rest[..whole]);
        self.finish_block(i, &rest[whole..])
    }

    /// The same, where less than a block is left.
    fn finish_block(&mut self, i: usize, rest: &[u8]) -> Digests
        requires lane { i < 4 }
        requires rest { length rest.now < 64 }
        ensures digests { (set : AlgSet) (octets : List ℕ) → HoldsAt self.old set i octets
            → AreDigests result set (octets ++ rest.now) }
        ensures others { OtherLanesStay i self.old self.new }
    {
        Digests {
            md5: md5_at(&self.md5, i, rest),
            sha1: sha1_at(&self.sha1, i, rest),
            sha256: sha256_at(&self.sha256, i, rest),
            sha512: finish_sha512(&mut self.sha512[i], rest),
        }
    }
}

// The digest of lane `i`'s stream by each algorithm, if it is wanted.

fn md5_at(lanes: &Option<Md5Lanes>, i: usize, rest: &[u8]) -> Option<[u8; 16]>
    requires lane { i < 4 }
    requires rest { length rest.now < 64 }
    ensures { (wanted : Bool) (octets : List ℕ)
        → HoldsIf (λ lanes. HoldsMd5 lanes i) wanted lanes.now octets
        → result ≡ digest_if md5 wanted (octets ++ rest.now) }
{
    match lanes {
        Some(lanes) => Some(lanes.digest(i, rest)),
        None => None,
    }
}

fn sha1_at(lanes: &Option<Sha1Lanes>, i: usize, rest: &[u8]) -> Option<[u8; 20]>
    requires lane { i < 4 }
    requires rest { length rest.now < 64 }
    ensures { (wanted : Bool) (octets : List ℕ)
        → HoldsIf (λ lanes. HoldsSha1 lanes i) wanted lanes.now octets
        → result ≡ digest_if sha1 wanted (octets ++ rest.now) }
{
    match lanes {
        Some(lanes) => Some(lanes.digest(i, rest)),
        None => None,
    }
}

fn sha256_at(lanes: &Option<Sha256Lanes>, i: usize, rest: &[u8]) -> Option<[u8; 32]>
    requires lane { i < 4 }
    requires rest { length rest.now < 64 }
    ensures { (wanted : Bool) (octets : List ℕ)
        → HoldsIf (λ lanes. HoldsSha256 lanes i) wanted lanes.now octets
        → result ≡ digest_if sha256 wanted (octets ++ rest.now) }
{
    match lanes {
        Some(lanes) => Some(lanes.digest(i, rest)),
        None => None,
    }
}

/// A hasher that has taken nothing yet, if it is wanted.
fn begun_sha512(set: AlgSet) -> Option<Sha512>
    ensures { HoldsIf Holds512 (has set alg.Sha512) result [] }
{
    set.has(Alg::Sha512).then_some(Sha512::new())
}

/// Takes a piece for each lane.
fn update_each(hashers: &mut [Option<Sha512>; 4], pieces: &[&[u8]; 4])
    ensures { (i : ℕ) → i < 4 → (wanted : Bool) (octets : List ℕ)
        → HoldsIf Holds512 wanted (slice_index_or hashers.old i None) octets
        → HoldsIf Holds512 wanted (slice_index_or hashers.new i None)
        (octets ++ piece_at pieces.now i) }
{
    update_at(hashers, 0, pieces[0]);
    update_at(hashers, 1, pieces[1]);
    update_at(hashers, 2, pieces[2]);
    update_at(hashers, 3, pieces[3]);
}

/// Takes a piece for lane `i`.
fn update_at(hashers: &mut [Option<Sha512>; 4], i: usize, piece: &[u8])
    requires { i < 4 }
    ensures own { (wanted : Bool) (octets : List ℕ)
        → HoldsIf Holds512 wanted (slice_index_or hashers.old i None) octets
        → HoldsIf Holds512 wanted (slice_index_or hashers.new i None) (octets ++ piece.now) }
    ensures others { (j : ℕ) → j ≢ i
        → slice_index_or hashers.new j None ≡ slice_index_or hashers.old j None }
{
    update_sha512(&mut hashers[i], piece);
}

fn update_sha512(hasher: &mut Option<Sha512>, piece: &[u8])
    ensures { (wanted : Bool) (octets : List ℕ) → HoldsIf Holds512 wanted hasher.old octets
        → HoldsIf Holds512 wanted hasher.new (octets ++ piece.now) }
{
    if let Some(hasher) = hasher {
        hasher.update(piece);
    }
}

fn finish_sha512(hasher: &mut Option<Sha512>, rest: &[u8]) -> Option<[u8; 64]>
    ensures { (wanted : Bool) (octets : List ℕ) → HoldsIf Holds512 wanted hasher.old octets
        → result ≡ digest_if sha512 wanted (octets ++ rest.now) }
{
    match hasher.take() {
        Some(mut hasher) => {
            hasher.update(rest);
            Some(hasher.finalize())
        }
        None => None,
    }
}
