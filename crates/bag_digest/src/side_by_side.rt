//! The digests of several messages, which are hashed side by side.
ghost use Rattle.std.specs.Prelude.{◌≡◌, ℕ, Bool, IfOk, List, Some, slice_get};
ghost use Rattle.std.specs.Borrow.{Bor};
ghost use Rattle.md5.specs.Md5.{md5};
ghost use Rattle.sha1.specs.Sha1.{sha1};
ghost use Rattle.sha2.specs.Sha256.{sha256};
ghost use Rattle.sha2.specs.Sha512.{sha512};
ghost use Rattle.bag_digest.specs.Algorithm.{has};
ghost use Rattle.bag_digest.specs.Each.{AreDigestsBy, AreSlicesOf, digest_if};
ghost use Rattle.bag_digest.specs.ShortContents.{AreSumsOfEach};
ghost use Rattle.bag_digest.specs.declared.algorithm.Alg.TheVariants as alg;

use crate::algorithm::{Alg, AlgSet};
use crate::multi::Digests;
use crate::sums::Sums;
use bag_lanes::{md5_digests, sha1_digests, sha256_digests};
use sha2::{Digest as _, Sha512};
use std::alloc::{AllocError, Global};

/// The length of each message, and its digests by each algorithm of the set, in the order of the messages.
///
/// By MD5, SHA-1 and SHA-256 four messages at a time are hashed, in the lanes of the processor's vectors: several
/// messages, of whatever lengths, take less time so than one after another.
///
/// # Errors
///
/// `AllocError` if memory for the digests runs out.
pub(crate) fn sums_of_each(
    alloc: Global,
    set: AlgSet,
    messages: &[Vec<u8>],
) -> Result<Vec<Sums>, AllocError>
    ensures { IfOk result (λ each. AreSumsOfEach set messages.now each.items) }
{
    let slices = slices_of(alloc, messages)?;
    let md5 = &md5_of_each(alloc, set, slices.as_slice())?;
    let sha1 = &sha1_of_each(alloc, set, slices.as_slice())?;
    let sha256 = &sha256_of_each(alloc, set, slices.as_slice())?;
    let mut each = Vec::new(alloc);
    for i in 0..messages.len() {
        let sha512 = sha512_of(set, messages[i].as_slice());
        let digests = Digests {
            md5: digest_at(md5, i),
            sha1: digest_at(sha1, i),
            sha256: digest_at(sha256, i),
            sha512,
        };
        each.push(Sums {
            length: messages[i].len() as u64,
            digests,
        })?;
    }
    Ok(each)
}

/// The octets of each message.
fn slices_of<'a>(alloc: Global, messages: &'a [Vec<u8>]) -> Result<Vec<&'a [u8]>, AllocError>
    ensures { IfOk result (λ slices. AreSlicesOf messages.now slices.items) }
{
    let mut slices = Vec::new(alloc);
    for message in messages {
        slices.push(message.as_slice())?;
    }
    Ok(slices)
}

// The three differ in the hash function, and in the length of its digests.

fn md5_of_each(
    alloc: Global,
    set: AlgSet,
    slices: &[&[u8]],
) -> Result<Option<Vec<[u8; 16]>>, AllocError>
    ensures { IfOk result (AreDigestsBy md5 (has set alg.Md5) slices.now) }
{
    if !set.has(Alg::Md5) {
        return Ok(None);
    }
    let digests = md5_digests(alloc, slices)?;
    Ok(Some(digests))
}

fn sha1_of_each(
    alloc: Global,
    set: AlgSet,
    slices: &[&[u8]],
) -> Result<Option<Vec<[u8; 20]>>, AllocError>
    ensures { IfOk result (AreDigestsBy sha1 (has set alg.Sha1) slices.now) }
{
    if !set.has(Alg::Sha1) {
        return Ok(None);
    }
    let digests = sha1_digests(alloc, slices)?;
    Ok(Some(digests))
}

fn sha256_of_each(
    alloc: Global,
    set: AlgSet,
    slices: &[&[u8]],
) -> Result<Option<Vec<[u8; 32]>>, AllocError>
    ensures { IfOk result (AreDigestsBy sha256 (has set alg.Sha256) slices.now) }
{
    if !set.has(Alg::Sha256) {
        return Ok(None);
    }
    let digests = sha256_digests(alloc, slices)?;
    Ok(Some(digests))
}

/// The SHA-512 digest of one message, if it is wanted: two lanes of 64-bit words are no faster than one.
fn sha512_of(set: AlgSet, message: &[u8]) -> Option<[u8; 64]>
    ensures { result ≡ digest_if sha512 (has set alg.Sha512) message.now }
{
    if !set.has(Alg::Sha512) {
        return None;
    }
    let mut hasher = Sha512::new();
    hasher.update(message);
    Some(hasher.finalize())
}

/// The digest of the message at this place.
fn digest_at<const N: usize>(digests: &Option<Vec<[u8; N]>>, i: usize) -> Option<[u8; N]>
    ensures { (digest : List ℕ → List ℕ) (wanted : Bool) (slices : List (Bor (List ℕ)))
        → AreDigestsBy digest wanted slices digests.now
        → (slice : Bor (List ℕ)) → slice_get slices i ≡ Some slice
        → result ≡ digest_if digest wanted slice.now }
{
    match digests {
        Some(digests) => digests.get(i).copied(),
        None => None,
    }
}
