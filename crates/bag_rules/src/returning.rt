//! Takes open files back that were read.
ghost use Rattle.std.specs.Prelude.{◌≡◌, ◌+◌, ◌<◌, ℕ, Some, length, slice_get, take};
ghost use Rattle.bag_digest.specs.declared.streams.Stream.{Stream};
ghost use Rattle.bag_rules.specs.Returning.{AreUnfailed, HasStoppedFirst, IsStopped, IsToldOf, LeavesOut, TakesAllBack};
ghost use Rattle.bag_rules.specs.declared.outcome.CheckFault.{CheckFault};

use crate::open_tree::{OpenFile, OpenTree};
use crate::outcome::CheckFault;
use crate::tree::Paths;
use bag_digest::{SourceFault, Stream, StreamFault};
use bag_path::BagPath;
use std::alloc::AllocError;

/// Takes back files of which none has failed.
pub(crate) fn close_all<T: OpenTree>(tree: &mut T, streams: Vec<Stream<T::File>>)
    requires { AreUnfailed T.File.failures streams.items }
    ensures { (n : ℕ) → LeavesOut T.shown T.failures T.sure (n + length streams.items) n
        tree.old tree.new }
{
    let mut streams = streams;
    'files: while let Some(stream) = streams.pop() {
        tree.close(stream.source);
    }
}

/// Takes back all files, of which this is the first that has stopped, and returns how that is told: those behind it are
/// given up.
pub(crate) fn stopped_at<T: OpenTree>(
    tree: &mut T,
    streams: Vec<Stream<T::File>>,
    stopped: StreamFault,
) -> CheckFault
    requires { HasStoppedFirst T.File.place T.File.failures (T.shown tree.old) streams.items
        stopped }
    ensures told { (stream : Stream T.File) → slice_get streams.items stopped.place ≡ Some stream
        → IsToldOf (T.shown tree.old) (T.File.place stream.source) stopped.fault result }
    ensures tree { TakesAllBack T.shown T.failures T.sure (length streams.items)
        (result ≡ CheckFault.Tree) tree.old tree.new }
{
    let mut streams = streams;
    give_up_behind(tree, &mut streams, stopped);
    let Some(stream) = streams.pop() else {
        unreachable!()
    };
    close_all(tree, streams);
    told(tree, stopped.fault, stream.source)
}

/// Takes back the files behind the first that has stopped.
fn give_up_behind<T: OpenTree>(
    tree: &mut T,
    streams: &mut Vec<Stream<T::File>>,
    stopped: StreamFault,
)
    requires { HasStoppedFirst T.File.place T.File.failures (T.shown tree.old) streams.old.items
        stopped }
    ensures left { streams.new.items ≡ take (stopped.place + 1) streams.old.items }
    ensures tree { LeavesOut T.shown T.failures T.sure (length streams.old.items)
        (stopped.place + 1) tree.old tree.new }
{
    'files: while streams.len() - 1 > stopped.place {
        if let Some(stream) = streams.pop() {
            tree.give_up(stream.source, &streams[stopped.place].source);
        }
    }
}

/// Takes back a file that has stopped, and returns how that is told: `TooLarge` with its path, `Tree`, or `Memory` if
/// there is none for the path.
pub(crate) fn told<T: OpenTree>(tree: &mut T, fault: SourceFault, file: T::File) -> CheckFault
    requires { IsStopped T.File.place T.File.failures (T.shown tree.old) fault file }
    ensures told { IsToldOf (T.shown tree.old) (T.File.place file) fault result }
    ensures tree { TakesAllBack T.shown T.failures T.sure 1 (result ≡ CheckFault.Tree)
        tree.old tree.new }
{
    match fault {
        SourceFault::Read => {
            tree.fail(file);
            CheckFault::Tree
        }
        SourceFault::TooLarge => {
            let path: Result<BagPath, AllocError> = tree.path(file.place()).clone();
            tree.close(file);
            match path {
                Ok(path) => CheckFault::TooLarge(path),
                Err(_) => CheckFault::Memory,
            }
        }
    }
}
