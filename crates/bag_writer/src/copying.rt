//! Reads several files, writes each to its copy and takes their digests, side by side.
ghost use Rattle.std.specs.Prelude.{◌≡◌, ◌+◌, ◌<◌, ◌≤◌, ℕ, List, [], Err, IfErr, IfOk, IsOk, None, MatchOption, MatchResult, Some, length, slice_get};
ghost use Rattle.bag_digest.specs.Lanes.{OtherLanesStay};
ghost use Rattle.bag_digest.specs.declared.algorithm.AlgSet.{AlgSet};
ghost use Rattle.bag_digest.specs.declared.buffers.TheConstants.{FRONT};
ghost use Rattle.bag_rules.specs.declared.limits.TheConstants.{LARGEST_FILE};
ghost use Rattle.bag_writer.specs.Copying.{AreDone, AreEnded, AreFew, AreFresh, AreFull, AreHashed, AreUnder, CopiesPiece, CopiesThem, HasEnded, HaveStoppedAt, HaveTaken, IsCopiedTo, IsFirstOpen, IsFirstStopped, IsStopped, IsUnder, KeepPlaces, KeepsRest, Work, sides};
ghost use Rattle.bag_writer.specs.declared.copying.Copying.{Copying};

use crate::open_sink::SinkFile;
use crate::payload::CopyFault;
use bag_digest::{AlgSet, FRONT, Multi, MultiLanes, SourceRead, Sums, fill};
use bag_rules::OpenFile;
use bag_rules::limits::LARGEST_FILE;

/// An open file that is read, and the begun file that it is copied to.
#[derive(Drop)]
pub(crate) struct Copying<F, G> {
    /// What gives the rest.
    pub(crate) source: F,
    /// What is written.
    pub(crate) target: G,
    /// The piece that was copied last. Those octets are all of the file if it ended before it gave [`FRONT`] octets.
    pub(crate) piece: Vec<u8>,
    /// What was found of the file, once it was copied to its end.
    pub(crate) found: Option<SourceRead>,
}

/// Why files weren't all copied: the first of them that wasn't, by its place among them, and why.
#[derive(Clone, Copy, Debug)]
pub(crate) struct CopyStop {
    /// The place of the file among those that are copied.
    pub(crate) place: usize,
    /// Why it stopped.
    pub(crate) fault: CopyFault,
}

/// Copies each file to its end, four at a time, and takes their digests by each algorithm of the set, side by side. One
/// that is left alone is copied alone. Allocates no memory.
///
/// # Errors
///
/// The first file, in their order, that stopped. Those before it were copied to their ends. Those behind it are given
/// up: they may have failed too, and that isn't told.
pub(crate) fn copy_each<F: OpenFile, G: SinkFile>(
    set: AlgSet,
    copies: &mut [Copying<F, G>],
) -> Result<(), CopyStop>
    requires full { AreFull 0 (length copies.old) copies.old }
    ensures copied { (work : Work) → AreFresh (sides F.place F.Source G.SinkFile) work set
        0 (length copies.old) copies.old
        → MatchResult result
        (λ done. AreEnded (sides F.place F.Source G.SinkFile) work set
        0 (length copies.new) copies.new)
        (IsFirstStopped (sides F.place F.Source G.SinkFile) work set
        0 (length copies.new) copies.new) }
    ensures places { KeepPlaces F.place G.place copies.old copies.new }
{
    let mut first = 0;
    'fours: loop {
        let Some(next) = next_open(copies, first, copies.len()) else {
            return Ok(());
        };
        let end = (next + 4).min(copies.len());
        copy_few(set, copies, next, end)?;
        first = end;
    }
}

/// The first file that hasn't ended, from the place `first` to before the place `end`.
fn next_open<F, G>(copies: &[Copying<F, G>], first: usize, end: usize) -> Option<usize>
    requires { end ≤ length copies.now }
    ensures { MatchOption result (AreDone copies.now first end)
        (IsFirstOpen copies.now first end) }
{
    for k in first..end {
        if copies[k].found.is_none() {
            return Some(k);
        }
    }
    None
}

/// Does this for at most four files: those from the place `first` to before the place `end`. One alone has no lanes.
fn copy_few<F: OpenFile, G: SinkFile>(
    set: AlgSet,
    copies: &mut [Copying<F, G>],
    first: usize,
    end: usize,
) -> Result<(), CopyStop>
    requires { AreFew first end copies.old }
    ensures copied { CopiesThem (sides F.place F.Source G.SinkFile) set first end
        copies.old copies.new result }
    ensures rest { KeepsRest F.place G.place first end copies.old copies.new }
{
    let Some(next) = next_open(copies, first, end) else {
        return Ok(());
    };
    if next_open(copies, next + 1, end).is_some() {
        return copy_beside(set, copies, first, end);
    }
    match copy_alone(set, &mut copies[next]) {
        Ok(()) => Ok(()),
        Err(fault) => Err(CopyStop { place: next, fault }),
    }
}

/// Copies a file to its end, with no other beside it, and takes its digests.
fn copy_alone<F: OpenFile, G: SinkFile>(
    set: AlgSet,
    copy: &mut Copying<F, G>,
) -> Result<(), CopyFault>
    requires full { (length copy.old.piece.items ≡ FRONT) × (copy.old.found ≡ None) }
    ensures copied { (work : Work) → IsCopiedTo (sides F.place F.Source G.SinkFile) work
        copy.old.piece.items copy.old.source copy.old.target
        → MatchResult result
        (λ done. HasEnded (sides F.place F.Source G.SinkFile) work set copy.new)
        (IsStopped (sides F.place F.Source G.SinkFile) work copy.new.source copy.new.target) }
    ensures places { (F.place copy.new.source ≡ F.place copy.old.source)
        × (G.place copy.new.target ≡ G.place copy.old.target) }
{
    let mut multi = Multi::new(set);
    multi.update(copy.piece.as_slice());
    let mut total = FRONT as u64;
    'pieces: loop {
        let n = copy_piece(
            copy.piece.as_mut_slice(),
            &mut copy.source,
            &mut copy.target,
            total,
        )?;
        multi.update(&copy.piece[..n]);
        total += n as u64;
        if n < copy.piece.len() {
            copy.found = Some(SourceRead::Hashed(Sums {
                length: total,
                digests: multi.finish(),
            }));
            return Ok(());
        }
    }
}

/// Does this for several, in lanes, side by side.
fn copy_beside<F: OpenFile, G: SinkFile>(
    set: AlgSet,
    copies: &mut [Copying<F, G>],
    first: usize,
    end: usize,
) -> Result<(), CopyStop>
    requires { AreFew first end copies.old }
    ensures copied { CopiesThem (sides F.place F.Source G.SinkFile) set first end
        copies.old copies.new result }
    ensures rest { KeepsRest F.place G.place first end copies.old copies.new }
{
    let mut multi = MultiLanes::new(set);
    let mut hashed = 0u64;
    let mut end = end;
    let mut told = None;
    'pieces: while hashed <= LARGEST_FILE - FRONT as u64 {
        let Some(next) = next_open(copies, first, end) else {
            return told_at(told, end);
        };
        take_pieces(&mut multi, copies, first, end, next);
        hashed += FRONT as u64;
        if let Err(stop) = advance_each(&mut multi, copies, first, end, hashed) {
            told = Some(stop.fault);
            end = stop.place;
        }
    }
    told_at(told, end)
}

/// What is told, if anything is, of the file at this place.
fn told_at(told: Option<CopyFault>, place: usize) -> Result<(), CopyStop>
    ensures { MatchOption told (IsOk result)
        (λ fault. result ≡ Err (record { place = place; fault = fault })) }
{
    match told {
        None => Ok(()),
        Some(fault) => Err(CopyStop { place, fault }),
    }
}

/// Takes the piece of each file that hasn't ended. The first of them is that at the place `next`.
fn take_pieces<F, G>(
    multi: &mut MultiLanes,
    copies: &[Copying<F, G>],
    first: usize,
    end: usize,
    next: usize,
)
    requires few { AreFew first end copies.now }
    requires first { IsFirstOpen copies.now first end next }
    ensures { HaveTaken copies.now first end multi.old multi.new }
{
    if next_open(copies, next + 1, end).is_some() {
        multi.take(&[
            piece_of(copies, first, end, next),
            piece_of(copies, first + 1, end, next),
            piece_of(copies, first + 2, end, next),
            piece_of(copies, first + 3, end, next),
        ]);
    } else {
        multi.take_alone(next - first, copies[next].piece.as_slice());
    }
}

/// The piece of the file at the place `k` if it hasn't ended, or else that of the file at the place `next`.
fn piece_of<F, G>(copies: &[Copying<F, G>], k: usize, end: usize, next: usize) -> &[u8]
    requires inside { (next < end) × (end ≤ length copies.now) }
    ensures own { k < end → (copy : Copying F G) → slice_get copies.now k ≡ Some copy
        → copy.found ≡ None → result.now ≡ copy.piece.items }
    ensures full { (first : ℕ) → first ≤ k → IsFirstOpen copies.now first end next
        → AreFull first end copies.now → length result.now ≡ FRONT }
{
    if k < end && copies[k].found.is_none() {
        copies[k].piece.as_slice()
    } else {
        copies[next].piece.as_slice()
    }
}

/// Copies the next piece of each file that hasn't ended, in their order.
///
/// # Errors
///
/// The first that stopped. Those behind it haven't been read on.
fn advance_each<F: OpenFile, G: SinkFile>(
    multi: &mut MultiLanes,
    copies: &mut [Copying<F, G>],
    first: usize,
    end: usize,
    hashed: u64,
) -> Result<(), CopyStop>
    requires few { AreFew first end copies.old }
    requires within { hashed ≤ LARGEST_FILE }
    ensures advanced { (work : Work) (set : AlgSet)
        → AreHashed (sides F.place F.Source G.SinkFile) work
        multi.old set hashed first first end copies.old
        → MatchResult result
        (λ done. AreUnder (sides F.place F.Source G.SinkFile) work
        multi.new set hashed first first end copies.new)
        (HaveStoppedAt (sides F.place F.Source G.SinkFile) work
        multi.new set hashed first end copies.new) }
    ensures inside { AreFull first end copies.new
        × IfErr result (λ stop. (first ≤ stop.place) × (stop.place < end)) }
    ensures rest { KeepsRest F.place G.place first end copies.old copies.new }
{
    for k in first..end {
        if copies[k].found.is_none() {
            match advance(multi, k - first, &mut copies[k], hashed) {
                Ok(()) => {}
                Err(fault) => return Err(CopyStop { place: k, fault }),
            }
        }
    }
    Ok(())
}

/// Copies the next piece of the file whose stream is in lane `i`, after as many octets as were hashed. If the file ends
/// within it, the digests are taken.
fn advance<F: OpenFile, G: SinkFile>(
    multi: &mut MultiLanes,
    i: usize,
    copy: &mut Copying<F, G>,
    hashed: u64,
) -> Result<(), CopyFault>
    requires { (i < 4) × (hashed ≤ LARGEST_FILE)
        × (length copy.old.piece.items ≡ FRONT) × (copy.old.found ≡ None) }
    ensures advanced { (work : Work) (set : AlgSet)
        → IsUnder (sides F.place F.Source G.SinkFile) work multi.old set i hashed [] copy.old
        → MatchResult result
        (λ done. IsUnder (sides F.place F.Source G.SinkFile) work
        multi.new set i hashed copy.new.piece.items copy.new)
        (IsStopped (sides F.place F.Source G.SinkFile) work copy.new.source copy.new.target) }
    ensures full { length copy.new.piece.items ≡ FRONT }
    ensures others { OtherLanesStay i multi.old multi.new }
    ensures places { (F.place copy.new.source ≡ F.place copy.old.source)
        × (G.place copy.new.target ≡ G.place copy.old.target) }
{
    let n = copy_piece(
        copy.piece.as_mut_slice(),
        &mut copy.source,
        &mut copy.target,
        hashed,
    )?;
    if n < copy.piece.len() {
        let digests = multi.finish(i, &copy.piece[..n]);
        copy.found = Some(SourceRead::Hashed(Sums {
            length: hashed + n as u64,
            digests,
        }));
    }
    Ok(())
}

/// Reads the next piece of a file into the buffer, after as many octets as were copied, and writes it to the copy.
/// Returns how many octets it has: less than the buffer if the file ends with them.
pub(crate) fn copy_piece<F: OpenFile, G: SinkFile>(
    buffer: &mut [u8],
    source: &mut F,
    target: &mut G,
    copied: u64,
) -> Result<usize, CopyFault>
    requires room { (0 < length buffer.old) × (copied ≤ LARGEST_FILE) }
    ensures copied { (work : Work) (octets : List ℕ)
        → IsCopiedTo (sides F.place F.Source G.SinkFile) work octets source.old target.old
        → copied ≡ length octets
        → MatchResult result
        (CopiesPiece (sides F.place F.Source G.SinkFile) work octets
        buffer.new source.new target.new)
        (IsStopped (sides F.place F.Source G.SinkFile) work source.new target.new) }
    ensures bound { IfOk result (λ n. (n ≤ length buffer.new) × (copied + n ≤ LARGEST_FILE)) }
    ensures room { length buffer.new ≡ length buffer.old }
    ensures places { (F.place source.new ≡ F.place source.old)
        × (G.place target.new ≡ G.place target.old) }
{
    let n = fill(buffer, source, LARGEST_FILE - copied)?;
    if n > 0 {
        target.write(&buffer[..n])?;
    }
    Ok(n)
}
