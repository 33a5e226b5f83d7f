//! Writes the payload, several files side by side.
ghost use Rattle.std.specs.Prelude.{◌≡◌, ◌≢◌, ◌+◌, ◌<◌, ◌≤◌, ◌++◌, ◌∷◌, [], ℕ, List, None, IfErr, IfOk, IsErr, MatchResult, Some, false, length, slice_get, take, true};
ghost use Rattle.bag_rules.specs.Files.{Files};
ghost use Rattle.bag_digest.specs.declared.algorithm.AlgSet.{AlgSet};
ghost use Rattle.bag_digest.specs.declared.reading.SourceRead.{SourceRead};
ghost use Rattle.bag_rules.specs.Returning.{LeavesOut};
ghost use Rattle.bag_rules.specs.Trees.{paths_in};
ghost use Rattle.bag_writer.specs.Copying.{AreFresh, AreFull, CopiesPiece, IsStopped, Work, sides};
ghost use Rattle.bag_writer.specs.Finishing.{AddsFiles, AreBefore, AreTakenOf, AreUnderWay, CanEndEach, IsTakenOf, places_of};
ghost use Rattle.bag_writer.specs.HeldFiles.{AddsFile};
ghost use Rattle.bag_writer.specs.OpenSinks.{IsBegun};
ghost use Rattle.bag_writer.specs.Pending.{AreUnfailedTo, CanCopy, EndsEach, HoldEach, IsBeginFault, IsHeld, IsOpenFault, IsReadable, files_with, work_of};
ghost use Rattle.bag_writer.specs.Returned.{LeavesCopies};
ghost use Rattle.bag_writer.specs.SideBySide.{BeginsNext, Completes, Finishes, Stops, StopsBegun, devices};
ghost use Rattle.bag_writer.specs.PayloadSteps.{WritesPayload};
ghost use Rattle.bag_writer.specs.Steps.{AreWhole};
ghost use Rattle.bag_digest.specs.declared.buffers.TheConstants.{FRONT};
ghost use Rattle.bag_writer.specs.declared.payload.CopyFault.{CopyFault};
ghost use Rattle.bag_writer.specs.declared.write_fault.WriteFault.{WriteFault};

use crate::copying::{CopyStop, Copying, copy_each, copy_piece};
use crate::item::Item;
use crate::items::Items;
use crate::open_sink::{CopiedTree, OpenSink, SinkFile};
use crate::payload::CopyFault;
use crate::returning::{close_all, give_up, give_up_file, stopped_at, told};
use crate::spec::Spec;
use crate::write_fault::WriteFault;
use bag_digest::{AlgSet, FRONT, Failed, Source, SourceRead};
use bag_rules::{OpenFile, OpenTree, Paths};
use std::alloc::{AllocError, Global};

/// How many files are out at most. Of each no more than a piece is held, so that is 4 MiB at most.
const MOST_COPIED: usize = 32;

/// Why a file wasn't begun.
#[derive(Drop)]
pub(crate) enum NotBegun<F, G> {
    /// Memory ran out. The file isn't out.
    Memory,
    /// The file, which is out, can't be opened. No copy was begun.
    Unopened(F),
    /// The file and its copy, which are out, and why they have stopped.
    Stopped(CopyFault, Copying<F, G>),
}

impl<F, G> From<AllocError> for NotBegun<F, G> {
    ghost use Rattle.std.specs.Prelude.{◌≡◌};
    ghost use Rattle.bag_writer.specs.declared.payload_beside.NotBegun.TheVariants.{Memory};

    ghost from_gives = { λ _ fault. fault ≡ Memory };

    fn from(_: AllocError) -> NotBegun<F, G> {
        NotBegun::Memory
    }
}

/// Reads the payload files by path, writes each, and returns what manifests need to know about each. None of them is a
/// hole.
///
/// # Errors
///
/// Those of [`write_payload`](crate::payload::write_payload).
pub(crate) fn write_beside<T: CopiedTree, S: OpenSink>(
    alloc: Global,
    buffer: &mut [u8],
    tree: &mut T,
    spec: &Spec,
    sink: &mut S,
) -> Result<Vec<Item>, WriteFault>
    requires { (length buffer.old ≡ FRONT) × (spec.now.holes.items ≡ []) }
    ensures { WritesPayload T.shown T.failures T.sure S.Sink spec.now tree.old tree.new
        sink.old sink.new result }
{
    let set = spec.algs;
    let mut items = Items::none(alloc, set);
    let mut copies = Vec::new(alloc);
    for i in 0..tree.count() {
        if !tree.path(i).is_payload() {
            continue;
        }
        match begin_next(alloc, buffer, tree, sink, i, &mut copies) {
            Ok(()) => {}
            Err(fault) => return Err(stop_begun(tree, sink, set, copies, fault)),
        }
        if copies.len() < MOST_COPIED {
            continue;
        }
        items = finish(alloc, tree, sink, set, items, copies)?;
        copies = Vec::new(alloc);
    }
    if copies.is_empty() {
        return items.finish(alloc);
    }
    let items = finish(alloc, tree, sink, set, items, copies)?;
    items.finish(alloc)
}

/// Begins to copy the file at this place: opens it, begins its copy, and copies its front.
fn begin_next<T: CopiedTree, S: OpenSink>(
    alloc: Global,
    buffer: &mut [u8],
    tree: &mut T,
    sink: &mut S,
    i: usize,
    copies: &mut Vec<Copying<T::File, S::File>>,
) -> Result<(), NotBegun<T::File, S::File>>
    requires { (length buffer.old ≡ FRONT) × (i < length (paths_in (T.shown tree.old))) }
    ensures { BeginsNext (devices T.shown T.failures T.sure S.Sink
        (sides T.File.place T.File.Source S.File.SinkFile))
        i copies.old.items copies.new.items tree.old tree.new sink.old sink.new result }
{
    let source = open_next(alloc, buffer, tree, i)?;
    let mut copy = begin_copy(alloc, tree, sink, i, source)?;
    match copy_front(buffer, &mut copy) {
        Ok(n) => match hold(alloc, copies, copy, &buffer[..n]) {
            Ok(()) => Ok(()),
            Err(copy) => {
                tree.close(copy.source);
                sink.close(copy.target);
                Err(NotBegun::Memory)
            }
        },
        Err(fault) => Err(NotBegun::Stopped(fault, copy)),
    }
}

/// Opens the file at this place. That it can't be opened is seen by a read of no octets, before its copy is begun.
fn open_next<T: OpenTree, G>(
    alloc: Global,
    buffer: &mut [u8],
    tree: &mut T,
    i: usize,
) -> Result<T::File, NotBegun<T::File, G>>
    requires { i < length (paths_in (T.shown tree.old)) }
    ensures opened { MatchResult result
        (IsReadable T.File.place T.File.remaining T.File.failures T.File.ready (T.shown tree.old)
        (T.sure tree.old) i)
        (IsOpenFault T.File.place T.File.failures (T.sure tree.old) i) }
    ensures tree { (n : ℕ) → MatchResult result
        (λ file. LeavesOut T.shown T.failures T.sure n (n + 1) tree.old tree.new)
        (λ fault. LeavesOut T.shown T.failures T.sure n (n + files_with fault)
        tree.old tree.new) }
    ensures room { length buffer.new ≡ length buffer.old }
{
    let mut source = tree.open_file(alloc, i)?;
    match source.read(&mut buffer[..0]) {
        Ok(_) => Ok(source),
        Err(Failed) => Err(NotBegun::Unopened(source)),
    }
}

/// Begins the copy of the file at this place, which was opened. Nothing was copied yet.
fn begin_copy<T: CopiedTree, S: OpenSink>(
    alloc: Global,
    tree: &mut T,
    sink: &mut S,
    i: usize,
    source: T::File,
) -> Result<Copying<T::File, S::File>, AllocError>
    requires inside { i < length (paths_in (T.shown tree.old)) }
    requires opened { (T.File.place source ≡ i) × (T.File.failures source ≡ 0) }
    ensures begun { IfOk result (λ copy. (copy.source ≡ source) × (copy.found ≡ None)
        × ((path : List ℕ) → slice_get (paths_in (T.shown tree.old)) i ≡ Some path
        → IsBegun S.File.place S.File.holds S.File.failures S.File.sure (S.sure sink.old)
        (S.is_open sink.old) (S.stored sink.old) i path copy.target)) }
    ensures tree { (n : ℕ) → MatchResult result
        (λ copy. tree.new ≡ tree.old)
        (λ error. LeavesOut T.shown T.failures T.sure (n + 1) n tree.old tree.new) }
    ensures sink { (n : ℕ) → MatchResult result
        (λ copy. LeavesCopies S.stored S.is_open S.failures S.sure n (n + 1) sink.old sink.new)
        (λ error. LeavesCopies S.stored S.is_open S.failures S.sure n n sink.old sink.new) }
{
    match sink.begin_file(alloc, i, tree.path(i)) {
        Ok(target) => Ok(Copying {
            source,
            target,
            piece: Vec::new(alloc),
            found: None,
        }),
        Err(error) => {
            tree.close(source);
            Err(error)
        }
    }
}

/// Copies the first octets of a file, and returns how many: less than the buffer has room for if the file ends with
/// them. That its copy couldn't be begun is told before anything is read.
fn copy_front<F: OpenFile, G: SinkFile>(
    buffer: &mut [u8],
    copy: &mut Copying<F, G>,
) -> Result<usize, CopyFault>
    requires { 0 < length buffer.old }
    ensures copied { (work : Work) (i : ℕ)
        → CanCopy (sides F.place F.Source G.SinkFile) work i copy.old
        → MatchResult result
        (CopiesPiece (sides F.place F.Source G.SinkFile) work []
        buffer.new copy.new.source copy.new.target)
        (IsStopped (sides F.place F.Source G.SinkFile) work copy.new.source copy.new.target) }
    ensures bound { IfOk result (λ n. n ≤ length buffer.new) }
    ensures rest { (length buffer.new ≡ length buffer.old)
        × (F.place copy.new.source ≡ F.place copy.old.source)
        × (copy.new.found ≡ copy.old.found) }
{
    if copy.target.failures() > 0 {
        return Err(CopyFault::Sink);
    }
    copy_piece(buffer, &mut copy.source, &mut copy.target, 0)
}

/// Adds a file of which this front was copied, to those that are copied.
///
/// # Errors
///
/// The file, if memory runs out.
fn hold<F, G>(
    alloc: Global,
    copies: &mut Vec<Copying<F, G>>,
    copy: Copying<F, G>,
    front: &[u8],
) -> Result<(), Copying<F, G>>
    ensures { MatchResult result
        (λ done. IsHeld copies.old.items copies.new.items copy front.now)
        (λ back. (copies.new.items ≡ copies.old.items) × (back.source ≡ copy.source)
        × (back.target ≡ copy.target)) }
{
    let mut copy = copy;
    let mut piece = Vec::new(alloc);
    let Ok(()) = piece.extend_from_slice(front) else {
        return Err(copy);
    };
    copy.piece = piece;
    copy.found = found_in(front);
    match copies.push(copy) {
        Ok(()) => Ok(()),
        Err(refused) => Err(refused.value),
    }
}

/// What is found of a file by this front of it: all of it, if that is shorter than the buffer.
fn found_in(front: &[u8]) -> Option<SourceRead>
    ensures whole { length front.now < FRONT
        → result ≡ Some (SourceRead.Whole (length front.now)) }
    ensures more { FRONT ≤ length front.now → result ≡ None }
{
    if front.len() < FRONT {
        return Some(SourceRead::Whole(front.len()));
    }
    None
}

/// Copies files to their ends, side by side, ends their copies, and takes all back. Returns the items of these files
/// too, after those of the files before them.
///
/// # Errors
///
/// What stops the first of them, by path, that is stopped; and `Memory`.
fn finish<T: CopiedTree, S: OpenSink>(
    alloc: Global,
    tree: &mut T,
    sink: &mut S,
    set: AlgSet,
    items: Items,
    copies: Vec<Copying<T::File, S::File>>,
) -> Result<Items, WriteFault>
    requires { AreUnderWay (sides T.File.place T.File.Source S.File.SinkFile)
        (T.shown tree.old) set copies.items }
    ensures { Finishes (devices T.shown T.failures T.sure S.Sink
        (sides T.File.place T.File.Source S.File.SinkFile))
        set copies.items items tree.old tree.new sink.old sink.new result }
{
    let mut copies = copies;
    match complete(set, sink, copies.as_mut_slice()) {
        Ok(()) => {
            let items = add_items(alloc, tree, items, copies.as_slice());
            close_all(tree, sink, copies);
            items
        }
        Err(stop) => Err(stopped_at(tree, sink, copies, stop)),
    }
}

/// Takes all back where the next file wasn't begun, and returns what is told.
fn stop_begun<T: CopiedTree, S: OpenSink>(
    tree: &mut T,
    sink: &mut S,
    set: AlgSet,
    copies: Vec<Copying<T::File, S::File>>,
    fault: NotBegun<T::File, S::File>,
) -> WriteFault
    requires { AreUnderWay (sides T.File.place T.File.Source S.File.SinkFile)
        (T.shown tree.old) set copies.items
        × (i : ℕ) × AreBefore T.File.place copies.items i
        × IsBeginFault (sides T.File.place T.File.Source S.File.SinkFile)
        (work_of (T.shown tree.old) false false) i fault }
    ensures { StopsBegun (devices T.shown T.failures T.sure S.Sink
        (sides T.File.place T.File.Source S.File.SinkFile))
        set copies.items fault tree.old tree.new sink.old sink.new result }
{
    match fault {
        NotBegun::Memory => {
            close_all(tree, sink, copies);
            WriteFault::Memory
        }
        NotBegun::Unopened(file) => stop_unopened(tree, sink, set, copies, file),
        NotBegun::Stopped(fault, copy) => stop(tree, sink, set, copies, fault, copy),
    }
}

/// Copies files to their ends and ends their copies, since what stops one of them comes before what stops the next
/// file, and takes all back. Returns what is told.
fn stop<T: CopiedTree, S: OpenSink>(
    tree: &mut T,
    sink: &mut S,
    set: AlgSet,
    copies: Vec<Copying<T::File, S::File>>,
    fault: CopyFault,
    copy: Copying<T::File, S::File>,
) -> WriteFault
    requires { AreUnderWay (sides T.File.place T.File.Source S.File.SinkFile)
        (T.shown tree.old) set copies.items
        × AreBefore T.File.place copies.items (T.File.place copy.source)
        × IsStopped (sides T.File.place T.File.Source S.File.SinkFile)
        (work_of (T.shown tree.old) false false) copy.source copy.target fault }
    ensures { Stops (devices T.shown T.failures T.sure S.Sink
        (sides T.File.place T.File.Source S.File.SinkFile))
        set copies.items
        (λ work. IsStopped (sides T.File.place T.File.Source S.File.SinkFile) work
        copy.source copy.target fault)
        (places_of T.File.place copies.items ++ T.File.place copy.source ∷ []) 1 1
        tree.old tree.new sink.old sink.new result }
{
    let mut copies = copies;
    match complete(set, sink, copies.as_mut_slice()) {
        Ok(()) => {
            close_all(tree, sink, copies);
            told(tree, sink, fault, copy)
        }
        Err(stop) => {
            give_up(tree, sink, copy, &copies[stop.place], stop.fault);
            stopped_at(tree, sink, copies, stop)
        }
    }
}

/// Does this where the next file can't be opened.
fn stop_unopened<T: CopiedTree, S: OpenSink>(
    tree: &mut T,
    sink: &mut S,
    set: AlgSet,
    copies: Vec<Copying<T::File, S::File>>,
    file: T::File,
) -> WriteFault
    requires { AreUnderWay (sides T.File.place T.File.Source S.File.SinkFile)
        (T.shown tree.old) set copies.items
        × AreBefore T.File.place copies.items (T.File.place file) × (0 < T.File.failures file) }
    ensures { Stops (devices T.shown T.failures T.sure S.Sink
        (sides T.File.place T.File.Source S.File.SinkFile))
        set copies.items (λ work. work.tree_sure ≢ true) (places_of T.File.place copies.items) 1 0
        tree.old tree.new sink.old sink.new result }
{
    let mut copies = copies;
    match complete(set, sink, copies.as_mut_slice()) {
        Ok(()) => {
            close_all(tree, sink, copies);
            tree.fail(file);
            WriteFault::Tree
        }
        Err(stop) => {
            give_up_file(tree, file, &copies[stop.place], stop.fault);
            stopped_at(tree, sink, copies, stop)
        }
    }
}

/// Copies files to their ends, side by side, and ends the copy of each, in their order.
///
/// # Errors
///
/// The first file that stopped, or whose copy can't be ended. The copies of those before it were ended, and no others.
fn complete<F: OpenFile, S: OpenSink>(
    set: AlgSet,
    sink: &mut S,
    copies: &mut [Copying<F, S::File>],
) -> Result<(), CopyStop>
    requires { AreFull 0 (length copies.old) copies.old
        × (work : Work) × AreFresh (sides F.place F.Source S.File.SinkFile)
        work set 0 (length copies.old) copies.old }
    ensures { Completes (sides F.place F.Source S.File.SinkFile) S.Sink set
        copies.old copies.new sink.old sink.new result }
{
    match copy_each(set, copies) {
        Ok(()) => {
            let count = copies.len();
            end_each(sink, copies, count)
        }
        Err(stop) => {
            end_each(sink, copies, stop.place)?;
            Err(stop)
        }
    }
}

/// Ends the copies of the files before the place `end`, in their order.
///
/// # Errors
///
/// The first that can't be ended. Those behind it aren't ended.
fn end_each<F, S: OpenSink>(
    sink: &mut S,
    copies: &mut [Copying<F, S::File>],
    end: usize,
) -> Result<(), CopyStop>
    requires { (end ≤ length copies.old) × AreUnfailedTo S.File.failures end copies.old }
    ensures ended { (files : Files) → HoldEach S.File.holds end copies.old files
        → MatchResult result
        (λ done. AreWhole files (S.stored sink.old) (S.stored sink.new))
        (λ stop. AreWhole (take stop.place files) (S.stored sink.old) (S.stored sink.new)) }
    ensures calm { (files : Files) → HoldEach S.File.holds end copies.old files
        → CanEndEach S.File.sure end copies.old files (S.sure sink.old) (S.is_open sink.old)
        (S.stored sink.old) → ¬ IsErr result }
    ensures copies { EndsEach S.File.place S.File.failures end copies.old copies.new result }
    ensures sink { (S.failures sink.new ≡ S.failures sink.old)
        × (S.is_open sink.new ≡ S.is_open sink.old) × (S.sure sink.old → S.sure sink.new) }
{
    for k in 0..end {
        let Ok(()) = sink.end_file(&mut copies[k].target) else {
            return Err(CopyStop {
                place: k,
                fault: CopyFault::Sink,
            });
        };
    }
    Ok(())
}

/// Adds the items of these files, which were copied to their ends.
fn add_items<T: Paths, F: OpenFile, G>(
    alloc: Global,
    tree: &T,
    items: Items,
    copies: &[Copying<F, G>],
) -> Result<Items, WriteFault>
    requires { (set : AlgSet) × (files : Files)
        × AreTakenOf F.place (T.shown tree.now) set copies.now files }
    ensures added { (set : AlgSet) (files : Files)
        → AreTakenOf F.place (T.shown tree.now) set copies.now files
        → IfOk result (AddsFiles set files items) }
    ensures err { IfErr result (λ fault. fault ≡ WriteFault.Memory) }
{
    let mut items = items;
    for copy in copies {
        items = add_item(alloc, tree, items, copy)?;
    }
    Ok(items)
}

/// Adds the item of this file, which was copied to its end.
fn add_item<T: Paths, F: OpenFile, G>(
    alloc: Global,
    tree: &T,
    items: Items,
    copy: &Copying<F, G>,
) -> Result<Items, WriteFault>
    requires { (set : AlgSet) × (file : List ℕ × List ℕ)
        × IsTakenOf F.place (T.shown tree.now) set copy.now file }
    ensures added { (set : AlgSet) (file : List ℕ × List ℕ)
        → IsTakenOf F.place (T.shown tree.now) set copy.now file
        → IfOk result (AddsFile set file items) }
    ensures err { IfErr result (λ fault. fault ≡ WriteFault.Memory) }
{
    let Some(found) = copy.found else {
        unreachable!();
    };
    let path = tree.path(copy.source.place()).clone()?;
    items.add(alloc, path, found, copy.piece.as_slice())
}
