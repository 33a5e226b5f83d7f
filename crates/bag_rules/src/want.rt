//! What a file has to be, by what the tag files say about its path (RFC 8493 sections 2.1.3, 2.2.1 and 2.2.3).
use bag_digest::{Alg, AlgSet, Digests, Sums};
use bag_path::BagPath;
use bag_tags::Manifest;
use thiserror::Error;

/// A length in octets that `fetch.txt` gives for a file, and the number of the line that gives it.
#[derive(Clone, Copy, Debug, Drop)]
pub struct GivenLength {
    /// The number of the line, counted from 1.
    pub line: u64,
    /// The length of the file in octets.
    pub length: u64,
}

/// What the file at a path has to be. Its length is the one that each line of `fetch.txt` gives, if it gives one. Its
/// digests are those that the manifests list.
#[derive(Clone, Copy, Drop)]
pub struct Want<'a> {
    pub(crate) path: &'a BagPath,
    pub(crate) manifests: &'a [Manifest],
    pub(crate) lengths: &'a [GivenLength],
}

/// Why a file isn't the one that is wanted. If several causes apply, the first in this order is returned.
#[derive(Clone, Copy, Debug, PartialEq, Eq, Error)]
pub enum WantFault {
    /// A line of `fetch.txt` gives another length.
    #[error("length")]
    Length,
    /// The digest by this algorithm differs from the listed one. This is the first such algorithm in the order of
    /// [`Alg`].
    #[error("digest")]
    Digest(Alg),
}

impl Want<'_> {
    ghost use Rattle.std.specs.Prelude.{◌≡◌, ◌↔◌, true, ℕ, List, IsTrue, MatchResult};
    ghost use Rattle.bag_digest.specs.Algorithm.{has};
    ghost use Rattle.bag_digest.specs.declared.algorithm.Alg.{Alg};
    ghost use Rattle.bag_rules.specs.Wants.{AreSumsFor, Fits, FitsLength, IsFirstMisfit, IsFirstMisfitOf, IsWanted, IsWrongBy, lists_by};

    /// The path of the file.
    pub fn path(&self) -> &BagPath
        ensures { result.now ≡ self.now.path.now }
    {
        self.path
    }

    /// The algorithms by which the path is listed.
    pub fn algs(&self) -> AlgSet
        ensures { (alg : Alg)
            → has result alg ≡ lists_by self.now.manifests.now self.now.path.now alg }
    {
        let mut set = AlgSet::empty();
        for manifest in self.manifests {
            if manifest.get(self.path).is_some() {
                set = set.with(manifest.alg());
            }
        }
        set
    }

    /// Tests whether a file of this length and with these digests is the one that is wanted.
    ///
    /// # Errors
    ///
    /// The first of `Length` and `Digest` that applies.
    pub fn test(&self, sums: &Sums) -> Result<(), WantFault>
        ensures fits { MatchResult result (λ done. Fits self.now sums.now)
            (IsFirstMisfit self.now sums.now) }
        // The same for octets that have this length and these digests.
        ensures octets { (octets : List ℕ) → AreSumsFor self.now octets sums.now
            → MatchResult result (λ done. IsWanted self.now octets)
            (IsFirstMisfitOf self.now octets) }
    {
        if !self.fits_length(sums.length) {
            return Err(WantFault::Length);
        }
        match self.wrong(&sums.digests).first() {
            Some(alg) => Err(WantFault::Digest(alg)),
            None => Ok(()),
        }
    }

    /// Whether every length that is given is this one.
    fn fits_length(&self, length: u64) -> bool
        ensures { IsTrue result ↔ FitsLength self.now length }
    {
        for given in self.lengths {
            if given.length != length {
                return false;
            }
        }
        true
    }

    /// The algorithms by which the listed digest isn't among these.
    fn wrong(&self, digests: &Digests) -> AlgSet
        ensures { (alg : Alg)
            → (has result alg ≡ true) ↔ IsWrongBy self.now digests.now alg }
    {
        let mut set = AlgSet::empty();
        for manifest in self.manifests {
            if let Some(digest) = manifest.get(self.path) {
                if !digests.contains(digest) {
                    set = set.with(manifest.alg());
                }
            }
        }
        set
    }
}
