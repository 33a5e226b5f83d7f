//! Keeps the lengths and digests of the tag files that were read as text.
ghost use Rattle.std.specs.Prelude.{◌≡◌, [], ℕ, List, true, IfErr, IfNone, IfSome, OnOk};
ghost use Rattle.bag_digest.specs.Algorithm.{has};
ghost use Rattle.bag_digest.specs.Reading.{AreSums};
ghost use Rattle.bag_digest.specs.declared.algorithm.Alg.{Alg};
ghost use Rattle.bag_digest.specs.declared.sums.Sums.{Sums};
ghost use Rattle.bag_rules.specs.KeptInside.{AreKept, HasSumsWithin, IsKeptOf, IsTextAt, kept_file};
ghost use Rattle.bag_rules.specs.OctetsRead.{AddsKept, IsKeptAt};
ghost use Rattle.bag_rules.specs.Trees.{HasFileAt, Shown};

use bag_digest::{AlgSet, Sums};
use std::alloc::{AllocError, Global};

/// The lengths and digests of the tag files that were read as text, by their places. There are at most eleven such
/// files. They aren't read again, so what is verified is what was read as text.
#[derive(Drop)]
pub(crate) struct TagSums {
    set: AlgSet,
    files: Vec<KeptFile>,
}

/// What is kept of one file.
#[derive(Drop)]
struct KeptFile {
    place: usize,
    sums: Sums,
}

impl TagSums {
    /// Keeps nothing yet. The digests will be by the algorithms of this set.
    pub(crate) fn new(alloc: Global, set: AlgSet) -> TagSums
        ensures kept { (shown : Shown) → AreKept shown result }
        ensures empty { (result.files.items ≡ []) × (result.set ≡ set) }
    {
        TagSums {
            set,
            files: Vec::new(alloc),
        }
    }

    /// Keeps the length and the digests of the text at this place.
    pub(crate) fn keep(&mut self, place: usize, text: &[u8]) -> Result<(), AllocError>
        ensures kept { (shown : Shown) → AreKept shown self.old → IsTextAt shown place text.now
            → OnOk result (AreKept shown self.new) }
        ensures added { OnOk result ((sums : Sums) × AreSums sums self.old.set text.now
            × AddsKept self.old self.new (kept_file place sums)) }
    {
        self.add(place, Sums::of(text, self.set))
    }

    /// Keeps the length and the digests of the file at this place.
    pub(crate) fn add(&mut self, place: usize, sums: Sums) -> Result<(), AllocError>
        ensures kept { (shown : Shown) → AreKept shown self.old
            → IsKeptOf shown self.old.set (kept_file place sums)
            → OnOk result (AreKept shown self.new) }
        ensures added { OnOk result (AddsKept self.old self.new (kept_file place sums)) }
    {
        self.files.push(KeptFile { place, sums })?;
        Ok(())
    }

    /// The algorithms by which digests are kept.
    pub(crate) fn set(&self) -> AlgSet
        ensures { result ≡ self.now.set }
    {
        self.set
    }

    /// The length of the file at this place and its digests by the algorithms of the set, if they were kept.
    pub(crate) fn find(&self, place: usize, set: AlgSet) -> Option<Sums>
        ensures found { (shown : Shown) (path octets : List ℕ) → AreKept shown self.now
            → HasFileAt shown place path octets
            → IfSome result (λ found. HasSumsWithin found set octets) }
        ensures unkept { ((alg : Alg) → has set alg ≡ true → has self.now.set alg ≡ true)
            → IfNone result (¬ IsKeptAt self.now place) }
    {
        if !self.set.covers(set) {
            return None;
        }
        for file in &self.files {
            if file.place == place {
                return Some(file.sums);
            }
        }
        None
    }
}
