//! Several digests of the same octets, which come in pieces.
ghost use Rattle.std.specs.Prelude.{◌≡◌, ℕ, List, [], ◌++◌, if◌then◌else◌, Bool, ◌↔◌, IsTrue, Some};
ghost use Rattle.md5.specs.Md5 as MD5;
ghost use Rattle.md5.specs.Md5.{md5};
ghost use Rattle.sha1.specs.Sha1 as SHA1;
ghost use Rattle.sha1.specs.Sha1.{sha1};
ghost use Rattle.sha2.specs.Hashers.{Holds256, Holds512};
ghost use Rattle.sha2.specs.Sha256.{sha256};
ghost use Rattle.sha2.specs.Sha512.{sha512};
ghost use Rattle.bag_digest.specs.Hash.{HoldsIf};

use crate::algorithm::{Alg, AlgSet};
use crate::digest::Digest;
use md5::{Digest as _, Md5};
use sha1::Sha1;
use sha2::{Digest as _, Sha256, Sha512};

/// The digests of some octets by each algorithm of a set.
#[derive(Clone, Copy, Debug, PartialEq, Eq)]
pub struct Digests {
    pub(crate) md5: Option<[u8; 16]>,
    pub(crate) sha1: Option<[u8; 20]>,
    pub(crate) sha256: Option<[u8; 32]>,
    pub(crate) sha512: Option<[u8; 64]>,
}

impl Digests {
    ghost use Rattle.bag_digest.specs.Hash.{digest_in, alg_of};

    /// The digest by this algorithm, if the algorithm is in the set.
    pub fn get(&self, alg: Alg) -> Option<Digest>
        ensures { result ≡ digest_in self.now alg }
    {
        match alg {
            Alg::Md5 => self.md5.map(Digest::Md5),
            Alg::Sha1 => self.sha1.map(Digest::Sha1),
            Alg::Sha256 => self.sha256.map(Digest::Sha256),
            Alg::Sha512 => self.sha512.map(Digest::Sha512),
        }
    }

    /// Whether this digest is among them: its algorithm is in the set, and its octets are the same.
    pub fn contains(&self, digest: Digest) -> bool
        ensures { IsTrue result ↔ (digest_in self.now (alg_of digest) ≡ Some digest) }
    {
        match digest {
            Digest::Md5(octets) => is_octets(self.md5, octets),
            Digest::Sha1(octets) => is_octets(self.sha1, octets),
            Digest::Sha256(octets) => is_octets(self.sha256, octets),
            Digest::Sha512(octets) => is_octets(self.sha512, octets),
        }
    }
}

fn is_octets<const N: usize>(own: Option<[u8; N]>, octets: [u8; N]) -> bool
    ensures { IsTrue result ↔ (own.entry ≡ Some octets.entry) }
{
    match own {
        Some(own) => own.as_slice() == octets.as_slice(),
        None => false,
    }
}

/// Hashers of the same octets by several algorithms: MD5 (RFC 1321), SHA-1, SHA-256 and SHA-512
/// (FIPS 180-4). The octets come in pieces, which may be cut anywhere.
#[derive(Drop)]
pub struct Multi {
    md5: Option<Md5>,
    sha1: Option<Sha1>,
    sha256: Option<Sha256>,
    sha512: Option<Sha512>,
}

impl Multi {
    ghost use Rattle.bag_digest.specs.declared.algorithm.AlgSet.{AlgSet};
    ghost use Rattle.bag_digest.specs.Hash.{Holds, AreDigests};

    /// Hashers for the algorithms of the set, which haven't taken any octets yet.
    pub fn new(set: AlgSet) -> Multi
        ensures { Holds result set [] }
    {
        Multi {
            md5: set.has(Alg::Md5).then_some(Md5::new()),
            sha1: set.has(Alg::Sha1).then_some(Sha1::new()),
            sha256: set.has(Alg::Sha256).then_some(Sha256::new()),
            sha512: set.has(Alg::Sha512).then_some(Sha512::new()),
        }
    }

    /// Takes the next piece, which follows the earlier ones.
    pub fn update(&mut self, piece: &[u8])
        ensures { (set : AlgSet) (octets : List ℕ) → Holds self.old set octets
            → Holds self.new set (octets ++ piece.now) }
    {
        if let Some(hasher) = &mut self.md5 {
            hasher.update(piece);
        }
        if let Some(hasher) = &mut self.sha1 {
            hasher.update(piece);
        }
        if let Some(hasher) = &mut self.sha256 {
            hasher.update(piece);
        }
        if let Some(hasher) = &mut self.sha512 {
            hasher.update(piece);
        }
    }

    /// The digests of the joined pieces, by each algorithm of the set and by no other.
    pub fn finish(self) -> Digests
        ensures { (set : AlgSet) (octets : List ℕ) → Holds self set octets
            → AreDigests result set octets }
    {
        let Multi {
            md5,
            sha1,
            sha256,
            sha512,
        } = self;
        Digests {
            md5: finish_md5(md5),
            sha1: finish_sha1(sha1),
            sha256: finish_sha256(sha256),
            sha512: finish_sha512(sha512),
        }
    }
}

// The four functions differ in the type of the hasher, whose trait and specification are those of its algorithm.

fn finish_md5(hasher: Option<Md5>) -> Option<[u8; 16]>
    ensures { (wanted : Bool) (octets : List ℕ) → HoldsIf MD5.Holds wanted hasher octets
        → result ≡ (if wanted then Some (md5 octets) else None) }
{
    match hasher {
        Some(hasher) => Some(hasher.finalize()),
        None => None,
    }
}

fn finish_sha1(hasher: Option<Sha1>) -> Option<[u8; 20]>
    ensures { (wanted : Bool) (octets : List ℕ) → HoldsIf SHA1.Holds wanted hasher octets
        → result ≡ (if wanted then Some (sha1 octets) else None) }
{
    match hasher {
        Some(hasher) => Some(hasher.finalize()),
        None => None,
    }
}

fn finish_sha256(hasher: Option<Sha256>) -> Option<[u8; 32]>
    ensures { (wanted : Bool) (octets : List ℕ) → HoldsIf Holds256 wanted hasher octets
        → result ≡ (if wanted then Some (sha256 octets) else None) }
{
    match hasher {
        Some(hasher) => Some(hasher.finalize()),
        None => None,
    }
}

fn finish_sha512(hasher: Option<Sha512>) -> Option<[u8; 64]>
    ensures { (wanted : Bool) (octets : List ℕ) → HoldsIf Holds512 wanted hasher octets
        → result ≡ (if wanted then Some (sha512 octets) else None) }
{
    match hasher {
        Some(hasher) => Some(hasher.finalize()),
        None => None,
    }
}
