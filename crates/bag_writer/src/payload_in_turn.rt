//! Writes the payload, one file after another. Each is read once, for the sink and for its digests.
ghost use Rattle.std.specs.Prelude.{◌≡◌, ◌⊎◌, ◌++◌, ◌∷◌, ◌<◌, [], ℕ, List, Option, Some, IfErr, IsErrOf, MatchResult, false, length, slice_get};
ghost use Rattle.bag_digest.specs.Failures.{UsesSource};
ghost use Rattle.bag_rules.specs.Trees.{UsesTree, paths_in};
ghost use Rattle.bag_rules.specs.declared.limits.TheConstants.{LARGEST_FILE};
ghost use Rattle.bag_writer.specs.Sinks.{ClosesSink, IsFree, UsesClosedSink, UsesOpenSink};
ghost use Rattle.bag_writer.specs.PayloadSteps.{HasFrontFrom, IsCutShort, IsReadAs, IsReadUntil, IsReadWhole, IsTaken, Writes, WritesFront, WritesPayload, unless_hole};
ghost use Rattle.bag_writer.specs.Steps.{AreHoleMarks, ArePart, AreWhole};
ghost use Rattle.bag_writer.specs.Writing.{IsMetLater};
ghost use Rattle.bag_writer.specs.declared.too_large.Large.{Large};
ghost use Rattle.bag_writer.specs.declared.write_fault.WriteFault.{WriteFault};
ghost use Rattle.bag_digest.specs.declared.buffers.TheConstants.{FRONT};
ghost use Rattle.bag_writer.specs.declared.payload.CopyFault.{CopyFault};

use crate::item::Item;
use crate::items::Items;
use crate::payload::CopyFault;
use crate::sink::Sink;
use crate::spec::Spec;
use crate::too_large::Large;
use crate::write_fault::WriteFault;
use bag_digest::{AlgSet, Multi, Source, SourceRead, Sums, fill, read_or_digest};
use bag_path::BagPath;
use bag_rules::Tree;
use bag_rules::limits::LARGEST_FILE;
use std::alloc::Global;

/// Reads the payload files by path, one after another, writes each that isn't a hole, and returns what manifests need
/// to know about each.
///
/// # Errors
///
/// `Tree`, `Sink` or `Memory` if the tree or the sink failed or memory ran out; `TooLarge` if a file has more than 2^40
/// octets.
pub(crate) fn write_in_turn<T: Tree, S: Sink>(
    alloc: Global,
    buffer: &mut [u8],
    tree: &mut T,
    spec: &Spec,
    marks: &[bool],
    sink: &mut S,
) -> Result<Vec<Item>, WriteFault>
    requires { (length buffer.old ≡ FRONT)
        × AreHoleMarks (paths_in (T.shown tree.old)) spec.now marks.now }
    ensures { WritesPayload T.shown T.failures T.sure S.Sink spec.now tree.old tree.new
        sink.old sink.new result }
{
    let mut items = Items::none(alloc, spec.algs);
    for i in 0..tree.count() {
        if !tree.path(i).is_payload() {
            continue;
        }
        let (path, found) = write_file(buffer, tree, i, marks[i], spec.algs, sink)?;
        items = items.add(alloc, path, found, buffer)?;
    }
    items.finish(alloc)
}

/// Reads the file at this place and writes it unless it is a hole. Returns its path and what was found of it.
///
/// # Errors
///
/// Those of [`write_in_turn`]. If memory runs out, neither the tree nor the sink was used.
fn write_file<T: Tree, S: Sink>(
    buffer: &mut [u8],
    tree: &mut T,
    i: usize,
    is_hole: bool,
    set: AlgSet,
    sink: &mut S,
) -> Result<(BagPath, SourceRead), WriteFault>
    requires ready { (0 < length buffer.old) × (i < length (paths_in (T.shown tree.old))) }
    ensures taken { (shown : List ℕ × Option (List ℕ))
        → slice_get (T.shown tree.old).files i ≡ Some shown
        → (file : List ℕ × List ℕ) × IsReadAs shown file × MatchResult result
        (IsTaken set is_hole file (S.stored sink.old) (S.stored sink.new) buffer.new)
        (IsCutShort is_hole file (S.stored sink.old) (S.stored sink.new)) }
    ensures err { IfErr result (λ fault. IsMetLater fault × (fault ≡ WriteFault.Memory
        → (tree.new ≡ tree.old) × (sink.new ≡ sink.old))) }
    ensures tree { UsesTree T.shown T.failures T.sure tree.old tree.new
        (IsErrOf result WriteFault.Tree) }
    ensures sink { UsesClosedSink S.is_open S.failures S.sure sink.old sink.new
        ((S.is_open sink.old ≡ false)
        × ((path : List ℕ) → slice_get (paths_in (T.shown tree.old)) i ≡ Some path
        → IsFree (S.stored sink.old) path))
        result (IsErrOf result WriteFault.Sink) }
{
    let path = tree.path(i).clone()?;
    let Ok(()) = tree.start(i) else {
        return Err(WriteFault::Tree);
    };
    match copy_unless_hole(buffer, tree, &path, is_hole, set, sink) {
        Ok(found) => Ok((path, found)),
        Err(CopyFault::Tree) => Err(WriteFault::Tree),
        Err(CopyFault::Sink) => Err(WriteFault::Sink),
        Err(CopyFault::TooLarge) => Err(WriteFault::TooLarge(Large::File(path))),
    }
}

/// Reads a source to its end, and writes what it gives as a file unless that is a hole. Returns what was found.
fn copy_unless_hole<R: Source, S: Sink>(
    buffer: &mut [u8],
    source: &mut R,
    path: &BagPath,
    is_hole: bool,
    set: AlgSet,
    sink: &mut S,
) -> Result<SourceRead, CopyFault>
    requires { 0 < length buffer.old }
    ensures taken { (octets : List ℕ) × MatchResult result
        (λ found. IsReadWhole set (R.remaining source.old) (R.remaining source.new)
        buffer.new found octets
        × AreWhole (unless_hole is_hole (path.now, octets))
        (S.stored sink.old) (S.stored sink.new))
        (λ fault. IsReadUntil (R.remaining source.old) (R.remaining source.new) fault octets
        × ((rest : List ℕ) → ArePart (unless_hole is_hole (path.now, octets ++ rest))
        (S.stored sink.old) (S.stored sink.new))) }
    ensures source { UsesSource R.failures R.ready R.keeps source.old source.new
        (IsErrOf result CopyFault.Tree) }
    ensures sink { UsesClosedSink S.is_open S.failures S.sure sink.old sink.new
        ((S.is_open sink.old ≡ false) × IsFree (S.stored sink.old) path.now)
        result (IsErrOf result CopyFault.Sink) }
{
    if is_hole {
        read_hole(buffer, source, set)
    } else {
        copy_file(buffer, source, path, set, sink)
    }
}

/// Reads a source to its end. Returns what was found.
fn read_hole<R: Source>(
    buffer: &mut [u8],
    source: &mut R,
    set: AlgSet,
) -> Result<SourceRead, CopyFault>
    requires { 0 < length buffer.old }
    ensures read { (octets : List ℕ) × MatchResult result
        (λ found. IsReadWhole set (R.remaining source.old) (R.remaining source.new)
        buffer.new found octets)
        (λ fault. IsReadUntil (R.remaining source.old) (R.remaining source.new) fault octets) }
    ensures err { IfErr result (λ fault.
        (fault ≡ CopyFault.Tree) ⊎ (fault ≡ CopyFault.TooLarge)) }
    ensures source { UsesSource R.failures R.ready R.keeps source.old source.new
        (IsErrOf result CopyFault.Tree) }
{
    Ok(read_or_digest(buffer, source, set, LARGEST_FILE)?)
}

/// Writes what a source gives up to its end as a file. Returns what was found.
fn copy_file<R: Source, S: Sink>(
    buffer: &mut [u8],
    source: &mut R,
    path: &BagPath,
    set: AlgSet,
    sink: &mut S,
) -> Result<SourceRead, CopyFault>
    requires { 0 < length buffer.old }
    ensures copied { (octets : List ℕ) × MatchResult result
        (λ found. IsReadWhole set (R.remaining source.old) (R.remaining source.new)
        buffer.new found octets
        × AreWhole ((path.now, octets) ∷ []) (S.stored sink.old) (S.stored sink.new))
        (λ fault. IsReadUntil (R.remaining source.old) (R.remaining source.new) fault octets
        × HasFrontFrom path.now octets (S.stored sink.old) (S.stored sink.new)) }
    ensures source { UsesSource R.failures R.ready R.keeps source.old source.new
        (IsErrOf result CopyFault.Tree) }
    ensures sink { ClosesSink S.is_open S.failures S.sure sink.old sink.new
        ((S.is_open sink.old ≡ false) × IsFree (S.stored sink.old) path.now)
        result (IsErrOf result CopyFault.Sink) }
{
    sink.file(path)?;
    let found = copy_octets(buffer, source, set, sink)?;
    sink.end()?;
    Ok(found)
}

/// Reads a source to its end, and writes what it gives to the file that was begun. Returns what was found: the octets
/// themselves, if the source ended before the buffer was full.
///
/// # Errors
///
/// `Tree` if a read failed; `Sink` if a write failed; `TooLarge` if the source gave more than 2^40 octets.
fn copy_octets<R: Source, S: Sink>(
    buffer: &mut [u8],
    source: &mut R,
    set: AlgSet,
    sink: &mut S,
) -> Result<SourceRead, CopyFault>
    requires { 0 < length buffer.old }
    ensures copied { (octets : List ℕ) × MatchResult result
        (λ found. IsReadWhole set (R.remaining source.old) (R.remaining source.new)
        buffer.new found octets
        × Writes octets (S.stored sink.old) (S.stored sink.new))
        (λ fault. IsReadUntil (R.remaining source.old) (R.remaining source.new) fault octets
        × WritesFront octets (S.stored sink.old) (S.stored sink.new)) }
    ensures source { UsesSource R.failures R.ready R.keeps source.old source.new
        (IsErrOf result CopyFault.Tree) }
    ensures sink { UsesOpenSink S.is_open S.failures S.sure sink.old sink.new
        (IsErrOf result CopyFault.Sink) }
{
    let mut multi = Multi::new(set);
    let mut total = 0u64;
    'pieces: loop {
        let n = fill(buffer, source, LARGEST_FILE - total)?;
        write_piece(&buffer[..n], sink)?;
        let is_last = n < buffer.len();
        if is_last && total == 0 {
            return Ok(SourceRead::Whole(n));
        }
        multi.update(&buffer[..n]);
        total += n as u64;
        if is_last {
            return Ok(SourceRead::Hashed(Sums {
                length: total,
                digests: multi.finish(),
            }));
        }
    }
}

/// Writes these octets to the file that was begun, if there are any.
fn write_piece<S: Sink>(octets: &[u8], sink: &mut S) -> Result<(), CopyFault>
    ensures written { MatchResult result
        (λ done. Writes octets.now (S.stored sink.old) (S.stored sink.new))
        (λ fault. WritesFront octets.now (S.stored sink.old) (S.stored sink.new)) }
    ensures err { IfErr result (λ fault. fault ≡ CopyFault.Sink) }
    ensures sink { UsesOpenSink S.is_open S.failures S.sure sink.old sink.new
        (IsErrOf result CopyFault.Sink) }
{
    if !octets.is_empty() {
        sink.write(octets)?;
    }
    Ok(())
}
