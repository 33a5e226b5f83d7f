//! Trees of which several files can be open at a time.
ghost use Rattle.std.specs.Prelude.{◌≡◌, ◌-◌, ◌<◌, ℕ, IfOk, MatchResult, length};
ghost use Rattle.bag_digest.specs.Failures.{IsRaised};
ghost use Rattle.bag_rules.specs.OpenTrees.{IsBehind, IsOpened, LeavesRest};
ghost use Rattle.bag_rules.specs.Trees.{paths_in};

use crate::tree::Tree;
use bag_digest::Source;
use std::alloc::{AllocError, Global};

/// An open file of a tree, as a value of its own: a source of its octets from its beginning on, with a count of its own
/// failures.
///
/// A file that couldn't be opened is such a value too: it isn't open, so each read of it fails. As with a tree, the
/// octets that it will give are those that the tree shows, if they are known, and nothing is claimed of them otherwise.
pub trait OpenFile: Source {
    /// Its place in the tree when it was opened.
    ghost place: { Self → ℕ };

    /// Its place in the tree when it was opened.
    fn place(&self) -> usize
        ensures { result ≡ place self.now };

    ghost reads_keep_place: { (a b : Self) → Self.keeps a b → place b ≡ place a };
}

/// A tree that gives out open files as values: any number at a time, of any places, and also several of one place.
///
/// **A file that is out counts as a failure of the tree until it is taken back**: `open_file` raises the count of
/// failures by one, and the count is lowered again by `close`, for a file that hasn't failed, and by `give_up`, for a
/// file behind one that has failed or is too large. `fail` takes back a file that has failed and leaves the count: this
/// is the failure of the tree. So a file that is dropped is a failure, and of files that failed side by side one is
/// told, the first by its place.
///
/// Files that are out and the file that was started don't disturb each other: `start` and `read` do nothing to a file
/// that is out, and leave the count as high as the files that are out have raised it; and the methods of this trait
/// leave the paths, the octets and the file that was started as they were, so that `read` goes on in it.
pub trait OpenTree: Tree {
    /// An open file.
    type File: OpenFile + Drop;

    /// Opens a file at its beginning and gives it out. If it can't be opened, that is told by its first read, and not
    /// here.
    ///
    /// # Errors
    ///
    /// `AllocError` if memory runs out, or if the count of failures is at its maximum, 2^64 - 1, from which it couldn't
    /// be lowered again. No file is then given out.
    fn open_file(&mut self, alloc: Global, i: usize) -> Result<Self::File, AllocError>
        requires { i < length (paths_in (Self.shown self.old)) }
        ensures opened { IfOk result (IsOpened Self.File.place Self.File.remaining
            Self.File.failures Self.File.ready (Self.shown self.old) (Self.sure self.old) i) }
        ensures counted { MatchResult result
            (λ file. IsRaised (Self.failures self.old) (Self.failures self.new))
            (λ error. Self.failures self.new ≡ Self.failures self.old) }
        ensures rest { LeavesRest Self.keeps Self.remaining Self.is_open Self.ready
            self.old self.new };

    /// Takes back a file that hasn't failed, however far it was read.
    fn close(&mut self, file: Self::File)
        requires { Self.File.failures file ≡ 0 }
        ensures counted { Self.failures self.new ≡ Self.failures self.old - 1 }
        ensures rest { LeavesRest Self.keeps Self.remaining Self.is_open Self.ready
            self.old self.new };

    /// Takes back a file that has failed, as the failure of the tree. However often it has failed, this is one failure.
    /// Nothing is known of the count for one that hasn't.
    fn fail(&mut self, file: Self::File)
        ensures counted { 0 < Self.File.failures file
            → Self.failures self.new ≡ Self.failures self.old }
        ensures rest { LeavesRest Self.keeps Self.remaining Self.is_open Self.ready
            self.old self.new };

    /// Takes back a file, whether or not it has failed, behind the file `first`, whose place is before it, and which
    /// has failed or is too large.
    fn give_up(&mut self, file: Self::File, first: &Self::File)
        requires { IsBehind Self.File.place Self.File.failures (Self.shown self.old)
            first.now file }
        ensures counted { Self.failures self.new ≡ Self.failures self.old - 1 }
        ensures rest { LeavesRest Self.keeps Self.remaining Self.is_open Self.ready
            self.old self.new };
}
