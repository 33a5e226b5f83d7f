//! Paths of files in a bag (RFC 8493 section 2.1.3).
ghost use Rattle.std.specs.Prelude.{◌≡◌, ◌==◌, Some};
ghost use Rattle.std.specs.List.{list_any};
ghost use Rattle.bag_path.specs.Octets.{nul};
ghost use Rattle.bag_path.specs.Paths.{path_fault, has_segment, is_empty_segment, is_dot_segment};

use std::alloc::{AllocError, Global};
use std::cmp::Ordering;
use std::fmt::{Debug, Formatter, Write};
use std::marker::Model;
use std::rc::RcStr;
use thiserror::Error;

/// The greatest length of a path in octets. It is this project's own: the RFC sets none.
pub const LONGEST_PATH: usize = 4096;

/// Why a text is no path, or spells none. If several of the first six apply, the first in this order is returned.
/// `BadEscape` comes before all of them, and `Memory` may be returned in place of any other.
#[derive(Clone, Copy, Debug, PartialEq, Eq, PartialOrd, Ord, Error)]
pub enum PathFault {
    /// The path is empty.
    #[error("the path is empty")]
    Empty,
    /// The path has more than [`LONGEST_PATH`] octets.
    #[error("the path has more than 4,096 octets")]
    TooLong,
    /// There is nothing between two slashes, before the first slash or after the last.
    #[error("the path has an empty segment")]
    EmptySegment,
    /// A segment is `.` or `..`.
    #[error("the path has a segment `.` or `..`")]
    DotSegment,
    /// The path contains a NUL (octet 0).
    #[error("the path has a NUL")]
    Nul,
    /// The path is `data`, which names the payload directory.
    #[error("the path is that of the payload directory")]
    PayloadRoot,
    /// Memory ran out.
    #[error("memory ran out")]
    Memory,
    /// In version 1.0 a `%` doesn't begin an escape (RFC 8493 section 2.1.3). Only `unescape` returns it.
    #[error("a `%` begins no escape")]
    BadEscape,
}

impl From<AllocError> for PathFault {
    ghost use Rattle.std.specs.Prelude.{◌≡◌};
    ghost use Rattle.bag_path.specs.declared.path.PathFault.TheVariants.{Memory};

    ghost from_gives = { λ error fault. fault ≡ Memory };

    fn from(_: AllocError) -> PathFault {
        PathFault::Memory
    }
}

/// The path of a file below a bag's base directory: UTF-8, with slashes between its segments and without escapes.
///
/// A clone shares the text. Paths are ordered by their octets.
#[derive(Drop)]
pub struct BagPath {
    text: RcStr,
}

impl Model for BagPath {
    ghost use Rattle.std.specs.Prelude.{◌≡◌, ℕ, List, None};
    ghost use Rattle.std.specs.Rc.{rc_str_bytes};
    ghost use Rattle.bag_path.specs.Paths.{path_fault};

    ghost Value = { List ℕ };

    ghost view = { λ path. rc_str_bytes path.text };

    ghost invariant = { λ path. path_fault (rc_str_bytes path.text) ≡ None };
}

impl BagPath {
    ghost use Rattle.std.specs.Prelude.{◌≡◌, ◌⊎◌, IfOk, IfErr, Ok, Err, string_bytes};
    ghost use Rattle.bag_path.specs.Paths.{IsPath, is_payload, RefusesPath};

    /// The path with these octets.
    ///
    /// # Errors
    ///
    /// The first fault of the text in the order of [`PathFault`], or `Memory` if memory runs out.
    pub fn parse(alloc: Global, text: &str) -> Result<BagPath, PathFault>
        ensures text { IfOk result (λ path. path ≡ text.now) }
        ensures path { IfOk result IsPath }
        ensures accepted { IsPath text.now
            → (result ≡ Ok text.now) ⊎ (result ≡ Err PathFault.Memory) }
        ensures fault { IfErr result (λ fault. RefusesPath fault text.now) }
    {
        if let Some(fault) = fault_of(text) {
            return Err(fault);
        }
        let text = RcStr::from_str(alloc, text)?;
        Ok(BagPath { text })
    }

    /// Does the same as `parse` for a string that it takes over.
    pub(crate) fn from_string(text: String) -> Result<BagPath, PathFault>
        ensures text { IfOk result (λ path. path ≡ string_bytes text) }
        ensures path { IfOk result IsPath }
        ensures fault { IfErr result (λ fault. RefusesPath fault (string_bytes text)) }
    {
        if let Some(fault) = fault_of(text.as_str()) {
            return Err(fault);
        }
        let text = RcStr::from_string(text)?;
        Ok(BagPath { text })
    }

    /// The octets of the path.
    pub fn as_str(&self) -> &str
        ensures text { result.now ≡ self.now }
        ensures path { IsPath self.now }
    {
        self.text.as_str()
    }

    /// Whether this is the path of a payload file, below `data/` (RFC 8493 section 2.1.2). Every other path is that of
    /// a tag file.
    pub fn is_payload(&self) -> bool
        ensures { result ≡ is_payload self.now }
    {
        self.as_str().as_bytes().starts_with(b"data/")
    }
}

impl Clone for BagPath {
    ghost is_clone = { λ path copy. copy ≡ path };

    fn clone(&self) -> Result<BagPath, AllocError> {
        let text = self.text.clone()?;
        Ok(BagPath { text })
    }
}

impl PartialEq for BagPath {
    ghost use Rattle.std.specs.Prelude.{nat_eq};
    ghost use Rattle.std.specs.Cmp.Lexicographic.{pointwise, nat_list_eq_equiv};
    ghost use Rattle.std.specs.Cmp as Cmp;

    ghost eq = { λ x y. pointwise nat_eq x y };

    ghost laws = { Cmp.partial_equiv_from_equiv nat_list_eq_equiv };

    fn eq(&self, other: &Self) -> bool {
        self.as_str() == other.as_str()
    }
}

impl Eq for BagPath {
    ghost use Rattle.std.specs.Cmp.Lexicographic.{nat_list_eq_equiv};

    ghost laws = { nat_list_eq_equiv };
}

impl PartialOrd for BagPath {
    ghost use Rattle.std.specs.Prelude.{Some};
    ghost use Rattle.std.specs.Ordering.{nat_cmp};
    ghost use Rattle.std.specs.Cmp.Lexicographic.{slice_cmp, texts_po};

    ghost partial_cmp = { λ x y. Some (slice_cmp nat_cmp x y) };

    ghost laws = { texts_po };

    fn partial_cmp(&self, other: &Self) -> Option<Ordering> {
        Some(self.cmp(other))
    }
}

impl Ord for BagPath {
    ghost use Rattle.std.specs.Prelude.{refl};
    ghost use Rattle.std.specs.Ordering.{nat_cmp};
    ghost use Rattle.std.specs.Cmp.Lexicographic.{slice_cmp, nat_list_cmp_total, texts_ties};

    ghost cmp = { λ x y. slice_cmp nat_cmp x y };

    ghost total = { nat_list_cmp_total };

    ghost matches_partial_cmp = { λ x y. refl };

    ghost matches_eq = { λ x y. texts_ties x y };

    fn cmp(&self, other: &Self) -> Ordering {
        self.as_str().cmp(other.as_str())
    }
}

impl Debug for BagPath {
    fn fmt<W: Write>(&self, f: &mut Formatter<W>) -> std::fmt::Result {
        Debug::fmt(self.as_str(), f)
    }
}

/// The first fault of a text that is no path.
#[tactic(auto, unfolding(crate::specs::Paths::path_fault))]
fn fault_of(text: &str) -> Option<PathFault>
    ensures { result ≡ path_fault text.now }
{
    if text.is_empty() {
        return Some(PathFault::Empty);
    }
    if text.len() > LONGEST_PATH {
        return Some(PathFault::TooLong);
    }
    if has_empty_segment(text) {
        return Some(PathFault::EmptySegment);
    }
    if has_dot_segment(text) {
        return Some(PathFault::DotSegment);
    }
    if has_nul(text) {
        return Some(PathFault::Nul);
    }
    if text == "data" {
        return Some(PathFault::PayloadRoot);
    }
    None
}

fn has_empty_segment(text: &str) -> bool
    ensures { result ≡ has_segment is_empty_segment text.now }
{
    text.as_bytes()
        .split(|b| *b == b'/')
        .any(|segment| segment.is_empty())
}

fn has_dot_segment(text: &str) -> bool
    ensures { result ≡ has_segment is_dot_segment text.now }
{
    text.as_bytes().split(|b| *b == b'/').any(|segment| segment == b".".as_slice()
        || segment == b"..".as_slice())
}

fn has_nul(text: &str) -> bool
    ensures { result ≡ list_any (λ octet. octet == nul) text.now }
{
    text.as_bytes().iter().any(|b| *b == 0)
}
