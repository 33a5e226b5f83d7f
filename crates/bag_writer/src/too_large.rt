//! Finds out before anything is written what would be too large in a new bag.
ghost use Rattle.std.specs.Prelude.{◌≡◌, ◌≤◌, ◌*◌, ◌↔◌, List, ℕ, IfOk, IsTrue, MatchOption, false, length, true};
ghost use Rattle.bag_digest.specs.Algorithm.{has, size_of};
ghost use Rattle.bag_digest.specs.declared.algorithm.Alg.{Alg};
ghost use Rattle.bag_path.specs.declared.path.TheConstants.{LONGEST_PATH};
ghost use Rattle.bag_path.specs.Spellings.{written_part, written_spelling};
ghost use Rattle.bag_rules.specs.declared.limits.TheConstants.{LARGEST_TAG_FILE};
ghost use Rattle.bag_writer.specs.TagWriting.{IsManifestLong};
ghost use Rattle.bag_writer.specs.WrittenBags.{fetch_files};
ghost use Rattle.bag_writer.specs.Writing.{HasLongFile, IsLarge, IsTooLarge, empty_files, payload_paths};

use crate::spec::{Hole, Spec};
use crate::tag_files::tag_file::{manifest_path, tag_path};
use crate::tag_files::texts::info_text;
use bag_digest::{Alg, AlgSet};
use bag_path::BagPath;
use bag_rules::Paths;
use bag_rules::limits::{LARGEST_TAG_FILE, MOST_LINES};
use bag_tags::{Kind, Oxum};
use std::alloc::{AllocError, Global};

/// What is too large to be written.
#[derive(Debug, Drop)]
pub enum Large {
    /// There are more than 100,000 payload files.
    Payload,
    /// The payload file with this path has more than 2^40 octets.
    File(BagPath),
    /// The tag file with this path would have more than 16,777,216 octets.
    TagFile(BagPath),
}

/// What would be too large in a bag with this many payload files even if each of them were empty, if anything. What the
/// files contain doesn't change the lengths of manifests, and can only make `bag-info.txt` and `fetch.txt` longer. Tag
/// manifests are never too long, since they list seven files at most.
pub(crate) fn large_if_empty<P: Paths>(
    alloc: Global,
    tree: &P,
    spec: &Spec,
    count: usize,
) -> Result<Option<Large>, AllocError>
    requires { count ≡ length (payload_paths (P.shown tree.now)) }
    ensures { IfOk result (λ found. MatchOption found
        (¬ IsTooLarge spec.now (empty_files (payload_paths (P.shown tree.now))))
        (IsLarge spec.now (empty_files (payload_paths (P.shown tree.now))))) }
{
    if count > MOST_LINES {
        return Ok(Some(Large::Payload));
    }
    if let Some(alg) = long_manifest(tree, spec.algs) {
        let path = manifest_path(alloc, Kind::Payload, alg)?;
        return Ok(Some(Large::TagFile(path)));
    }
    if is_long_fetch(spec.holes.as_slice()) {
        return Ok(Some(Large::TagFile(tag_path(alloc, "fetch.txt")?)));
    }
    let oxum = Oxum {
        octets: 0,
        streams: count as u64,
    };
    let info = info_text(alloc, &spec.info, oxum)?;
    if info.len() as u64 > LARGEST_TAG_FILE {
        return Ok(Some(Large::TagFile(tag_path(alloc, "bag-info.txt")?)));
    }
    Ok(None)
}

/// An algorithm of this set by which the payload manifest would be too long, if there is one.
fn long_manifest<P: Paths>(tree: &P, set: AlgSet) -> Option<Alg>
    ensures { MatchOption result
        ((alg : Alg) → has set alg ≡ true → ¬ IsManifestLong (payload_paths (P.shown tree.now)) alg)
        (λ alg. (has set alg ≡ true) × IsManifestLong (payload_paths (P.shown tree.now)) alg) }
{
    let alg = longest(set)?;
    if is_long_manifest(tree, alg) {
        Some(alg)
    } else {
        None
    }
}

/// The algorithm of the set that has the longest digests.
fn longest(set: AlgSet) -> Option<Alg>
    ensures { MatchOption result ((alg : Alg) → has set alg ≡ false)
        (λ found. (has set found ≡ true)
        × ((alg : Alg) → has set alg ≡ true → size_of alg ≤ size_of found)) }
{
    if set.has(Alg::Sha512) {
        Some(Alg::Sha512)
    } else if set.has(Alg::Sha256) {
        Some(Alg::Sha256)
    } else if set.has(Alg::Sha1) {
        Some(Alg::Sha1)
    } else if set.has(Alg::Md5) {
        Some(Alg::Md5)
    } else {
        None
    }
}

/// Whether the payload manifest by this algorithm would be too long.
fn is_long_manifest<P: Paths>(tree: &P, alg: Alg) -> bool
    ensures { IsTrue result ↔ IsManifestLong (payload_paths (P.shown tree.now)) alg }
{
    // Each line is a digest in hex, two spaces, the path and LF.
    let around = 2 * alg.len() as u64 + 3;
    let mut left = LARGEST_TAG_FILE;
    for i in 0..tree.count() {
        let path = tree.path(i);
        if !path.is_payload() {
            continue;
        }
        let line = around + spelled_length(path);
        if line > left {
            return true;
        }
        left -= line;
    }
    false
}

/// Whether `fetch.txt` would be too long if each of these holes were empty.
fn is_long_fetch(holes: &[Hole]) -> bool
    ensures { (paths : List (List ℕ)) → (IsTrue result
        ↔ HasLongFile (fetch_files (empty_files paths) holes.now) LARGEST_TAG_FILE) }
{
    let mut left = LARGEST_TAG_FILE;
    for hole in holes {
        // The URL, ` 0 `, the path and LF.
        let line = (hole.url.len() as u64).saturating_add(4 + spelled_length(&hole.path));
        if line > left {
            return true;
        }
        left -= line;
    }
    false
}

/// The length of the written spelling of a path.
fn spelled_length(path: &BagPath) -> u64
    ensures exact { result ≡ length (written_spelling path.now) }
    ensures small { result ≤ 3 * LONGEST_PATH }
{
    let mut length = 0;
    for octet in path.as_str().as_bytes() {
        length += part_length(*octet);
    }
    length
}

/// The length of what is written for an octet of a path.
fn part_length(octet: u8) -> u64
    ensures { result ≡ length (written_part octet) }
{
    match octet {
        b'%' | b'\n' | b'\r' => 3,
        _ => 1,
    }
}
