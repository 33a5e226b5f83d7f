//! Digests, each with its algorithm.
ghost use Rattle.std.specs.Prelude.{◌≡◌, ◌↔◌, ◌*◌, List, ℕ, length, string_bytes, IfOk, IfSome, IfNone, IsSome, Some};
ghost use Rattle.std.specs.List.{AllPass};
ghost use Rattle.hex.specs.Hex.{decode_sized, is_hex_digit, IsBytes};
ghost use Rattle.bag_digest.specs.Algorithm.{size_of};

use crate::algorithm::Alg;
use hex::FromHex;
use std::alloc::{AllocError, Global};

/// The digest of some octets, with its algorithm.
#[derive(Clone, Copy, Debug, PartialEq, Eq)]
pub enum Digest {
    /// By MD5 (RFC 1321).
    Md5([u8; 16]),
    /// By SHA-1 (FIPS 180-4).
    Sha1([u8; 20]),
    /// By SHA-256 (FIPS 180-4).
    Sha256([u8; 32]),
    /// By SHA-512 (FIPS 180-4).
    Sha512([u8; 64]),
}

impl Digest {
    ghost use Rattle.bag_digest.specs.declared.digest.Digest.{Digest};
    ghost use Rattle.bag_digest.specs.Hash.{alg_of};
    ghost use Rattle.bag_digest.specs.Spelling.{octets_of, lower_case_of, SpellsDigest, IsWhole};

    /// The digest by this algorithm that a text spells: 32, 40, 64 or 128 hex digits for MD5, SHA-1, SHA-256 or
    /// SHA-512, with letters in either case (RFC 8493 section 2.1.3). No other text spells a digest.
    pub fn from_hex(alg: Alg, text: &[u8]) -> Option<Digest>
        ensures spelled { IfSome result (SpellsDigest alg text.now) }
        ensures each { (digest : Digest) → SpellsDigest alg text.now digest → result ≡ Some digest }
        ensures none { IfNone result ((digest : Digest) → ¬ SpellsDigest alg text.now digest) }

        // In other words, the text has the right number of digits and nothing else.
        ensures digits { IsSome result
            ↔ ((length text.now ≡ 2 * size_of alg) × AllPass is_hex_digit text.now) }
    {
        match alg {
            Alg::Md5 => read_hex(text).map(Digest::Md5),
            Alg::Sha1 => read_hex(text).map(Digest::Sha1),
            Alg::Sha256 => read_hex(text).map(Digest::Sha256),
            Alg::Sha512 => read_hex(text).map(Digest::Sha512),
        }
    }

    /// The spelling in hex, with lower case letters.
    ///
    /// # Errors
    ///
    /// `AllocError` if memory runs out.
    pub fn to_hex(&self, alloc: Global) -> Result<String, AllocError>
        ensures lower_case { IfOk result (λ text. string_bytes text ≡ lower_case_of self.now) }
        ensures spells { IfOk result (λ text.
            SpellsDigest (alg_of self.now) (string_bytes text) self.now) }
    {
        hex::encode(alloc, self.octets())
    }

    /// The algorithm of the digest.
    pub fn alg(&self) -> Alg
        ensures { result ≡ alg_of self.now }
    {
        match self {
            Digest::Md5(_) => Alg::Md5,
            Digest::Sha1(_) => Alg::Sha1,
            Digest::Sha256(_) => Alg::Sha256,
            Digest::Sha512(_) => Alg::Sha512,
        }
    }

    /// The octets of the digest, as many as the algorithm gives.
    pub fn octets(&self) -> &[u8]
        ensures octets { result.now ≡ octets_of self.now }
        ensures whole { IsWhole self.now }
    {
        match self {
            Digest::Md5(octets) => slice_of(octets),
            Digest::Sha1(octets) => slice_of(octets),
            Digest::Sha256(octets) => slice_of(octets),
            Digest::Sha512(octets) => slice_of(octets),
        }
    }
}

fn read_hex<const N: usize>(text: &[u8]) -> Option<[u8; N]>
    ensures read { IfSome result (λ octets. decode_sized text.now N ≡ Ok octets) }
    ensures none { IfNone result ((octets : List ℕ) → ¬ (decode_sized text.now N ≡ Ok octets)) }
    ensures digits { IsSome result
        ↔ ((length text.now ≡ 2 * N) × AllPass is_hex_digit text.now) }
{
    <[u8; N] as FromHex>::from_hex(text).ok()
}

// The octets of an array. In a proof, an argument is known to have this many elements, each of them an octet. This is
// not known of the field of a variant, so `Digest::octets` passes its fields through these two functions.
fn slice_of<const N: usize>(octets: &[u8; N]) -> &[u8]
    ensures octets { result.now ≡ octets.now }
    ensures size { length octets.now ≡ N }
    ensures bytes { IsBytes octets.now }
{
    known_octets(octets.as_slice())
}

fn known_octets(octets: &[u8]) -> &[u8]
    ensures same { result.now ≡ octets.now }
    ensures bytes { IsBytes octets.now }
{
    octets
}
