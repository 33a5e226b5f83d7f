//! Trees of files: a bag's base directory as the check sees it.
ghost use Rattle.std.specs.Prelude.{◌≡◌, ◌<◌, ℕ, List, Some, Contains, IfNone, IfSome, IsErr, IsTrue, OnOk, is_ok, length, slice_get, true};
ghost use Rattle.bag_path.specs.Paths.{is_payload};
ghost use Rattle.bag_rules.specs.Trees.{AreRising, KeepsTree, Shown, UsesTree, octets_in, paths_in};

use bag_digest::{Failed, Source};
use bag_path::BagPath;
use std::cmp::Ordering;

/// The paths of the files below one base directory, in order.
pub trait Paths {
    /// The files in the order of their paths' octets, each with its octets if they are known, and whether the payload
    /// directory `data/` is there.
    ghost shown: { Self → Shown };

    /// The number of files.
    fn count(&self) -> usize
        ensures files { result ≡ length (paths_in (shown self.now)) }
        ensures rising { AreRising (paths_in (shown self.now)) };

    /// The path of a file, by its place in the order.
    fn path(&self, i: usize) -> &BagPath
        requires { i < length (paths_in (shown self.now)) }
        ensures { slice_get (paths_in (shown self.now)) i ≡ Some result.now };

    /// Whether the payload directory `data/` is there. It always is if some path is a payload path.
    fn has_payload_dir(&self) -> bool
        ensures dir { result ≡ (shown self.now).has_payload_dir }
        ensures payload { (path : List ℕ) → Contains (paths_in (shown self.now)) path
            → is_payload path ≡ true → IsTrue result };
}

/// The files below one base directory, by path. Reads are from the file that was started last.
///
/// What is proved about results is proved for a tree whose octets are known. For a folder on a disk nothing is claimed
/// about its octets: its result is proved to be the verdict on one bag with its files, and not on which one.
pub trait Tree: Paths + Source {
    /// That the tree never fails: a file that was started can be read.
    ghost sure: { Self → Type 0 };

    /// Starts reading a file from its beginning; `read` then gives its octets. After a start that failed, reads fail.
    ///
    /// # Errors
    ///
    /// `Failed` if the tree failed; it has counted the failure.
    fn start(&mut self, i: usize) -> Result<(), Failed>
        requires { i < length (paths_in (Self.shown self.old)) }
        ensures started { OnOk result
            (Self.remaining self.new ≡ octets_in (Self.shown self.old) i) }
        ensures uses { UsesTree Self.shown Self.failures sure self.old self.new (IsErr result) }
        ensures ready { sure self.old → Self.ready self.new }
        ensures open { Self.is_open self.new ≡ is_ok result };

    ghost reads_keep: { (a b : Self) → Self.keeps a b → KeepsTree Self.shown sure a b };
}

/// The place of the file with this path. This is a binary search, so it looks at no more than about as many paths
/// as the number of files has binary digits.
///
/// `path` need not be a valid path. If it isn't, no file has it.
pub fn find<P: Paths>(paths: &P, path: &str) -> Option<usize>
    ensures found { IfSome result
        (λ i. slice_get (paths_in (P.shown paths.now)) i ≡ Some path.now) }
    ensures absent { IfNone result (¬ Contains (paths_in (P.shown paths.now)) path.now) }
    ensures only { IfSome result (λ i. (k : ℕ)
        → slice_get (paths_in (P.shown paths.now)) k ≡ Some path.now → k ≡ i) }
{
    let mut low = 0;
    let mut high = paths.count();
    while low < high {
        let middle = low + (high - low) / 2;
        match paths.path(middle).as_str().cmp(path) {
            Ordering::Less => low = middle + 1,
            Ordering::Equal => return Some(middle),
            Ordering::Greater => high = middle,
        }
    }
    None
}

/// The place of this path among paths that are in order, each once.
pub fn place_in(paths: &[BagPath], path: &BagPath) -> Option<usize>
    ensures found { IfSome result (λ place. slice_get paths.now place ≡ Some path.now) }
    ensures absent { AreRising paths.now → IfNone result (¬ Contains paths.now path.now) }
{
    match paths.binary_search_by(|own| own.cmp(path)) {
        Ok(place) => Some(place),
        Err(_) => None,
    }
}
