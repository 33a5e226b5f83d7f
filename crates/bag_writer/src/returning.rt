//! Takes files back that were copied, and their copies.
ghost use Rattle.std.specs.Prelude.{◌≡◌, ◌+◌, ◌<◌, ℕ, Some, length, slice_get, take};
ghost use Rattle.bag_rules.specs.Returning.{LeavesOut, TakesAllBack};
ghost use Rattle.bag_writer.specs.Copying.{Work, sides};
ghost use Rattle.bag_writer.specs.Returned.{AreUnfailed, HasStoppedFirst, IsStoppedAt, IsToldOf, LeavesCopies, TakesCopiesBack};
ghost use Rattle.bag_writer.specs.declared.copying.Copying.{Copying};
ghost use Rattle.bag_writer.specs.declared.payload.CopyFault.{CopyFault};
ghost use Rattle.bag_writer.specs.declared.write_fault.WriteFault.{WriteFault};

use crate::copying::{CopyStop, Copying};
use crate::open_sink::{CopiedTree, OpenSink, SinkFile};
use crate::payload::CopyFault;
use crate::too_large::Large;
use crate::write_fault::WriteFault;
use bag_path::BagPath;
use bag_rules::{OpenFile, OpenTree, Paths};
use std::alloc::AllocError;

/// Takes back files and copies of which none has failed.
pub(crate) fn close_all<T: CopiedTree, S: OpenSink>(
    tree: &mut T,
    sink: &mut S,
    copies: Vec<Copying<T::File, S::File>>,
)
    requires { AreUnfailed T.File.failures S.File.failures copies.items }
    ensures tree { (n : ℕ) → LeavesOut T.shown T.failures T.sure (n + length copies.items) n
        tree.old tree.new }
    ensures sink { (n : ℕ) → LeavesCopies S.stored S.is_open S.failures S.sure
        (n + length copies.items) n sink.old sink.new }
{
    let mut copies = copies;
    'files: while let Some(copy) = copies.pop() {
        tree.close(copy.source);
        sink.close(copy.target);
    }
}

/// Takes back all files and copies, of which this is the first that stopped, and returns how that is told: those behind
/// it are given up.
pub(crate) fn stopped_at<T: CopiedTree, S: OpenSink>(
    tree: &mut T,
    sink: &mut S,
    copies: Vec<Copying<T::File, S::File>>,
    stop: CopyStop,
) -> WriteFault
    requires { HasStoppedFirst T.File.place T.File.failures S.File.place S.File.failures
        (T.shown tree.old) copies.items stop }
    ensures told { (copy : Copying T.File S.File) → slice_get copies.items stop.place ≡ Some copy
        → IsToldOf (T.shown tree.old) (T.File.place copy.source) stop.fault result }
    ensures tree { TakesAllBack T.shown T.failures T.sure (length copies.items)
        (result ≡ WriteFault.Tree) tree.old tree.new }
    ensures sink { TakesCopiesBack S.stored S.is_open S.failures S.sure (length copies.items)
        (result ≡ WriteFault.Sink) sink.old sink.new }
{
    let mut copies = copies;
    give_up_behind(tree, sink, &mut copies, stop);
    let Some(copy) = copies.pop() else {
        unreachable!()
    };
    close_all(tree, sink, copies);
    told(tree, sink, stop.fault, copy)
}

/// Takes back the files and copies behind the first that stopped.
fn give_up_behind<T: CopiedTree, S: OpenSink>(
    tree: &mut T,
    sink: &mut S,
    copies: &mut Vec<Copying<T::File, S::File>>,
    stop: CopyStop,
)
    requires { HasStoppedFirst T.File.place T.File.failures S.File.place S.File.failures
        (T.shown tree.old) copies.old.items stop }
    ensures left { copies.new.items ≡ take (stop.place + 1) copies.old.items }
    ensures tree { LeavesOut T.shown T.failures T.sure (length copies.old.items)
        (stop.place + 1) tree.old tree.new }
    ensures sink { LeavesCopies S.stored S.is_open S.failures S.sure (length copies.old.items)
        (stop.place + 1) sink.old sink.new }
{
    'files: while copies.len() - 1 > stop.place {
        if let Some(copy) = copies.pop() {
            give_up(tree, sink, copy, &copies[stop.place], stop.fault);
        }
    }
}

/// Takes back a file and its copy behind the first that stopped, with this fault.
pub(crate) fn give_up<T: CopiedTree, S: OpenSink>(
    tree: &mut T,
    sink: &mut S,
    copy: Copying<T::File, S::File>,
    first: &Copying<T::File, S::File>,
    fault: CopyFault,
)
    requires stopped { IsStoppedAt T.File.place T.File.failures S.File.place S.File.failures
        (T.shown tree.old) fault first.now }
    requires later { (S.File.place copy.target ≡ T.File.place copy.source)
        × (T.File.place first.now.source < T.File.place copy.source) }
    ensures tree { (n : ℕ) → LeavesOut T.shown T.failures T.sure (n + 1) n tree.old tree.new }
    ensures sink { (n : ℕ) → LeavesCopies S.stored S.is_open S.failures S.sure (n + 1) n
        sink.old sink.new }
{
    match fault {
        CopyFault::Sink => sink.give_up(copy.target, &first.target),
        CopyFault::Tree | CopyFault::TooLarge => {
            sink.give_up_unread(copy.target, tree, &first.source);
        }
    }
    give_up_file(tree, copy.source, first, fault);
}

/// Takes back a file, of which there is no copy, behind the first that stopped, with this fault.
pub(crate) fn give_up_file<T: CopiedTree, G: SinkFile>(
    tree: &mut T,
    file: T::File,
    first: &Copying<T::File, G>,
    fault: CopyFault,
)
    requires stopped { IsStoppedAt T.File.place T.File.failures G.place G.failures
        (T.shown tree.old) fault first.now }
    requires later { T.File.place first.now.source < T.File.place file }
    ensures { (n : ℕ) → LeavesOut T.shown T.failures T.sure (n + 1) n tree.old tree.new }
{
    match fault {
        CopyFault::Sink => tree.give_up_unwritten(file, &first.target),
        CopyFault::Tree | CopyFault::TooLarge => tree.give_up(file, &first.source),
    }
}

/// Takes back a file that has stopped, and its copy, and returns how that is told: `Tree`, `Sink`, `TooLarge` with its
/// path, or `Memory` if there is none for the path.
pub(crate) fn told<T: CopiedTree, S: OpenSink>(
    tree: &mut T,
    sink: &mut S,
    fault: CopyFault,
    copy: Copying<T::File, S::File>,
) -> WriteFault
    requires { IsStoppedAt T.File.place T.File.failures S.File.place S.File.failures
        (T.shown tree.old) fault copy }
    ensures told { IsToldOf (T.shown tree.old) (T.File.place copy.source) fault result }
    ensures tree { TakesAllBack T.shown T.failures T.sure 1 (result ≡ WriteFault.Tree)
        tree.old tree.new }
    ensures sink { TakesCopiesBack S.stored S.is_open S.failures S.sure 1
        (result ≡ WriteFault.Sink) sink.old sink.new }
{
    match fault {
        CopyFault::Tree => {
            sink.give_up_unread(copy.target, tree, &copy.source);
            tree.fail(copy.source);
            WriteFault::Tree
        }
        CopyFault::Sink => {
            tree.close(copy.source);
            sink.fail(copy.target);
            WriteFault::Sink
        }
        CopyFault::TooLarge => {
            let path: Result<BagPath, AllocError> = tree.path(copy.source.place()).clone();
            sink.give_up_unread(copy.target, tree, &copy.source);
            tree.close(copy.source);
            match path {
                Ok(path) => WriteFault::TooLarge(Large::File(path)),
                Err(_) => WriteFault::Memory,
            }
        }
    }
}
