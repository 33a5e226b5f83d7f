//! Sinks to which several files can be written at a time, and trees of which such copies are made.
ghost use Rattle.std.specs.Prelude.{◌≡◌, ◌-◌, ◌<◌, ◌++◌, ◌∷◌, [], ℕ, List, IfOk, IsErr, MatchResult, OnErr, OnOk};
ghost use Rattle.bag_digest.specs.Failures.{CountsIf, IsRaised};
ghost use Rattle.bag_rules.specs.OpenTrees.{LeavesRest};
ghost use Rattle.bag_writer.specs.OpenSinks.{EndsIfSure, IsAfter, IsBegun, IsStoppedBefore, LeavesSink};
ghost use Rattle.bag_writer.specs.Steps.{AreWhole};

use crate::sink::Sink;
use bag_digest::Failed;
use bag_path::BagPath;
use bag_rules::OpenTree;
use std::alloc::{AllocError, Global};

/// A file that was begun, as a value of its own, with a count of its own failures. It is no part of the bag before it
/// is ended.
///
/// A file that couldn't be begun is such a value too: it has failed already. Of a file in memory it is known what it
/// holds. Nothing is claimed of one on a disk: it `holds` whatever it is asked for.
pub trait SinkFile {
    /// Its place among the files that are written, which was given when it was begun.
    ghost place: { Self → ℕ };

    /// That the file has this path, and that these octets were written to it.
    ghost holds: { Self → List ℕ → List ℕ → Type 0 };

    /// How often it has failed.
    ghost failures: { Self → ℕ };

    /// That it doesn't fail.
    ghost sure: { Self → Type 0 };

    /// Appends all of these octets.
    ///
    /// # Errors
    ///
    /// `Failed` if the file failed; it has counted the failure. Some of the first octets may have been written, and the
    /// file can't be ended any more.
    fn write(&mut self, octets: &[u8]) -> Result<(), Failed>
        ensures written { OnOk result ((path before : List ℕ) → holds self.old path before
            → holds self.new path (before ++ octets.now)) }
        ensures place { place self.new ≡ place self.old }
        ensures counted { CountsIf (IsErr result) (failures self.old) (failures self.new) }
        ensures sure { sure self.old → sure self.new × ¬ IsErr result };

    /// How often the file has failed. The count stops at its maximum, 2^64 - 1.
    fn failures(&self) -> u64
        ensures { result ≡ failures self.now };
}

/// A sink that gives out files that were begun as values: any number at a time, each of its own path.
///
/// **A file that is out counts as a failure of the sink until it is taken back**, as with the open files of an
/// [`OpenTree`]: `begin_file` raises the count of failures by one, and the count is lowered again by `close`, for a
/// file that hasn't failed, and by the two ways of giving a file up, for one behind another that has failed or is too
/// large. `fail` takes back a file that has failed and leaves the count: this is the failure of the sink. So a file
/// that is dropped is a failure, and of files that failed side by side one is told, the first by its place.
///
/// What the sink holds changes only where a file is ended. A file that is taken back before it was ended is lost, as
/// far as is known: a folder may still have a front of it.
pub trait OpenSink: Sink {
    /// A file that was begun.
    type File: SinkFile + Drop;

    /// Begins a file, which is empty at first, and gives it out with this place. If it can't be begun, since a file is
    /// begun by `file`, one with this path was ended, or the sink fails, then it has failed once, and that is told here
    /// only by its count.
    ///
    /// # Errors
    ///
    /// `AllocError` if memory runs out, or if the count of failures is at its maximum, 2^64 - 1, from which it couldn't
    /// be lowered again. No file is then given out.
    fn begin_file(
        &mut self,
        alloc: Global,
        place: usize,
        path: &BagPath,
    ) -> Result<Self::File, AllocError>
        ensures begun { IfOk result (IsBegun Self.File.place Self.File.holds Self.File.failures
            Self.File.sure (Self.sure self.old) (Self.is_open self.old) (Self.stored self.old)
            place path.now) }
        ensures counted { MatchResult result
            (λ file. IsRaised (Self.failures self.old) (Self.failures self.new))
            (λ error. Self.failures self.new ≡ Self.failures self.old) }
        ensures rest { LeavesSink Self.stored Self.is_open Self.sure self.old self.new };

    /// Ends a file that hasn't failed, which then belongs to the bag. The file stays out.
    ///
    /// # Errors
    ///
    /// `Failed` if it can't be ended; the file has counted the failure. What the sink holds is unchanged.
    fn end_file(&mut self, file: &mut Self::File) -> Result<(), Failed>
        requires { Self.File.failures file.old ≡ 0 }
        ensures ended { MatchResult result
            (λ done. (path octets : List ℕ) → Self.File.holds file.old path octets
            → AreWhole ((path, octets) ∷ []) (Self.stored self.old) (Self.stored self.new))
            (λ failed. Self.stored self.new ≡ Self.stored self.old) }
        ensures counted { CountsIf (IsErr result) (Self.File.failures file.old)
            (Self.File.failures file.new) }
        ensures place { Self.File.place file.new ≡ Self.File.place file.old }
        ensures sink { (Self.failures self.new ≡ Self.failures self.old)
            × (Self.is_open self.new ≡ Self.is_open self.old) }
        ensures sure { EndsIfSure Self.File.holds Self.sure Self.stored Self.is_open
            (Self.File.sure file.old) file.old self.old self.new (IsErr result) };

    /// Takes back a file that hasn't failed, whether or not it was ended.
    fn close(&mut self, file: Self::File)
        requires { Self.File.failures file ≡ 0 }
        ensures counted { Self.failures self.new ≡ Self.failures self.old - 1 }
        ensures rest { LeavesSink Self.stored Self.is_open Self.sure self.old self.new };

    /// Takes back a file that has failed, as the failure of the sink. However often it has failed, this is one failure.
    /// Nothing is known of the count for one that hasn't.
    fn fail(&mut self, file: Self::File)
        ensures counted { 0 < Self.File.failures file
            → Self.failures self.new ≡ Self.failures self.old }
        ensures rest { LeavesSink Self.stored Self.is_open Self.sure self.old self.new };

    /// Takes back a file, whether or not it has failed, behind another one that has failed.
    fn give_up(&mut self, file: Self::File, first: &Self::File)
        requires { IsAfter Self.File.place Self.File.failures first.now
            (Self.File.place file) }
        ensures counted { Self.failures self.new ≡ Self.failures self.old - 1 }
        ensures rest { LeavesSink Self.stored Self.is_open Self.sure self.old self.new };

    /// Takes back a file, whether or not it has failed, at the place of an open file of this tree that has failed or is
    /// too large, or behind it.
    fn give_up_unread<T: OpenTree>(&mut self, file: Self::File, tree: &T, first: &T::File)
        requires { IsStoppedBefore T.File.place T.File.failures (T.shown tree.now) first.now
            (Self.File.place file) }
        ensures counted { Self.failures self.new ≡ Self.failures self.old - 1 }
        ensures rest { LeavesSink Self.stored Self.is_open Self.sure self.old self.new };
}

/// A tree whose open files are copied to files of a sink.
pub trait CopiedTree: OpenTree {
    /// Takes back an open file, whether or not it has failed, behind the place of a file of a sink that has failed.
    fn give_up_unwritten<C: SinkFile>(&mut self, file: Self::File, first: &C)
        requires { IsAfter C.place C.failures first.now (Self.File.place file) }
        ensures counted { Self.failures self.new ≡ Self.failures self.old - 1 }
        ensures rest { LeavesRest Self.keeps Self.remaining Self.is_open Self.ready
            self.old self.new };
}
