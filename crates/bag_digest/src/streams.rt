//! The digests of several sources, which are read and hashed side by side.
ghost use Rattle.std.specs.Prelude.{◌≡◌, ◌+◌, ◌-◌, ◌<◌, ◌≤◌, ◌++◌, ℕ, List, [], None, IfErr, MatchOption, MatchResult, OnOk, Some, length, min, slice_get};
ghost use Rattle.bag_digest.specs.Failures.{UsesSource};
ghost use Rattle.bag_digest.specs.Lanes.{OtherLanesStay};
ghost use Rattle.bag_digest.specs.Streams.{AreDone, AreFresh, AreFreshFew, AreFull, AreHashed, AreUnder, HasEnded, HasStopped, HaveEnded, HaveEndedIn, HaveStoppedAt, HaveTaken, IsAt, IsFirstOpen, IsFirstStopped, IsFresh, IsUnder, OthersStay};
ghost use Rattle.bag_digest.specs.declared.algorithm.AlgSet.{AlgSet};
ghost use Rattle.bag_digest.specs.declared.streams.Stream.{Stream};

use crate::algorithm::{Alg, AlgSet};
use crate::buffers::FRONT;
use crate::multi::Multi;
use crate::multi_lanes::MultiLanes;
use crate::reading::{SourceFault, digest_on, fill};
use crate::source::Source;
use crate::sums::Sums;

/// A source of which a first piece was read, to be hashed beside others.
#[derive(Drop)]
pub struct Stream<S> {
    /// What gives the rest.
    pub source: S,
    /// The piece that was read last.
    pub piece: Vec<u8>,
    /// The length of all of it, and its digests, once it was read to its end.
    pub sums: Option<Sums>,
}

/// Why streams weren't all read to their ends: the first of them that wasn't, by its place, and its fault.
#[derive(Clone, Copy, Debug, PartialEq, Eq)]
pub struct StreamFault {
    /// The place of the stream.
    pub place: usize,
    /// Its fault.
    pub fault: SourceFault,
}

/// Reads each stream to its end, four at a time, and takes their digests by each algorithm of the set, side by side.
/// One that is left alone, or was so from the start, is read alone, and so is each if there is a digest by SHA-512. The
/// limit counts all octets of a stream, those of its first piece too. Allocates no memory. Each source stays in its
/// stream.
///
/// # Errors
///
/// The fault of the first stream, in their order, that has one: it failed once, or is too large and hasn't failed.
/// Those before it were read to their ends, and haven't failed. Those behind it are given up: they may have been read
/// too, and may have failed, and what they did isn't told.
pub fn digest_streams<S: Source>(
    set: AlgSet,
    limit: u64,
    streams: &mut [Stream<S>],
) -> Result<(), StreamFault>
    requires limit { FRONT ≤ limit }
    requires fresh { AreFresh streams.old }
    ensures ended { OnOk result (HaveEnded S.remaining S.failures S.ready S.keeps set limit
        streams.old streams.new) }
    ensures stopped { IfErr result (IsFirstStopped S.remaining S.failures S.ready S.keeps set limit
        0 streams.old streams.new) }
{
    let mut first = 0;
    'fours: loop {
        if first == streams.len() {
            return Ok(());
        }
        let end = next_end(set, first, streams.len());
        digest_four(set, limit, streams, first, end)?;
        first = end;
    }
}

/// Where the streams end that are hashed next: after four of them, or after one if there is a digest by SHA-512, which
/// isn't taken side by side.
fn next_end(set: AlgSet, first: usize, count: usize) -> usize
    requires { first < count }
    ensures { (first < result) × (result ≤ first + 4) × (result ≤ count) }
{
    if set.has(Alg::Sha512) {
        first + 1
    } else if count - first > 4 {
        first + 4
    } else {
        count
    }
}

/// Does this for at most four streams: those from the place `first` to before the place `end`. One alone has no lanes.
fn digest_four<S: Source>(
    set: AlgSet,
    limit: u64,
    streams: &mut [Stream<S>],
    first: usize,
    end: usize,
) -> Result<(), StreamFault>
    requires limit { FRONT ≤ limit }
    requires fresh { AreFreshFew first end streams.old }
    ensures ended { OnOk result (HaveEndedIn S.remaining S.failures S.ready S.keeps set limit
        first end streams.old streams.new) }
    ensures stopped { IfErr result (IsFirstStopped S.remaining S.failures S.ready S.keeps set limit
        first streams.old streams.new) }
    ensures others { OthersStay first end streams.old streams.new }
{
    if end - first > 1 {
        return digest_beside(set, limit, streams, first, end);
    }
    match digest_alone(set, limit, &mut streams[first]) {
        Ok(()) => Ok(()),
        Err(fault) => Err(StreamFault {
            place: first,
            fault,
        }),
    }
}

/// Reads a stream to its end, with no other beside it, and takes its digests.
fn digest_alone<S: Source>(
    set: AlgSet,
    limit: u64,
    stream: &mut Stream<S>,
) -> Result<(), SourceFault>
    requires limit { FRONT ≤ limit }
    requires fresh { IsFresh stream.old }
    ensures ended { OnOk result (HasEnded S.remaining set limit stream.old stream.new
        × UsesSource S.failures S.ready S.keeps stream.old.source stream.new.source ⊥) }
    ensures stopped { IfErr result (λ fault. HasStopped S.remaining S.failures S.ready S.keeps
        limit fault stream.old stream.new) }
{
    let mut multi = Multi::new(set);
    multi.update(stream.piece.as_slice());
    let rest = digest_on(
        stream.piece.as_mut_slice(),
        &mut stream.source,
        multi,
        limit - FRONT as u64,
    )?;
    stream.sums = Some(Sums {
        length: FRONT as u64 + rest.length,
        digests: rest.digests,
    });
    Ok(())
}

/// Does this in lanes, side by side.
fn digest_beside<S: Source>(
    set: AlgSet,
    limit: u64,
    streams: &mut [Stream<S>],
    first: usize,
    end: usize,
) -> Result<(), StreamFault>
    requires limit { FRONT ≤ limit }
    requires fresh { AreFreshFew first end streams.old }
    ensures ended { OnOk result (HaveEndedIn S.remaining S.failures S.ready S.keeps set limit
        first end streams.old streams.new) }
    ensures stopped { IfErr result (IsFirstStopped S.remaining S.failures S.ready S.keeps set limit
        first streams.old streams.new) }
    ensures others { OthersStay first end streams.old streams.new }
{
    let mut multi = MultiLanes::new(set);
    let mut hashed = 0u64;
    let mut end = end;
    let mut told = None;
    'pieces: loop {
        let Some(next) = unended(streams, first, end) else {
            return match told {
                None => Ok(()),
                Some(fault) => Err(StreamFault { place: end, fault }),
            };
        };
        take_pieces(&mut multi, streams, first, end, next);
        hashed += FRONT as u64;
        if let Err(stopped) = advance_each(&mut multi, streams, first, end, hashed, limit) {
            told = Some(stopped.fault);
            end = stopped.place;
        }
    }
}

/// The first stream that hasn't ended, from the place `first` to before the place `end`.
fn unended<S>(streams: &[Stream<S>], first: usize, end: usize) -> Option<usize>
    requires { end ≤ length streams.now }
    ensures { MatchOption result (AreDone streams.now first end)
        (IsFirstOpen streams.now first end) }
{
    for k in first..end {
        if streams[k].sums.is_none() {
            return Some(k);
        }
    }
    None
}

/// Takes the piece of each stream that hasn't ended. The first of them is that at the place `next`.
fn take_pieces<S>(
    multi: &mut MultiLanes,
    streams: &[Stream<S>],
    first: usize,
    end: usize,
    next: usize,
)
    requires four { (end ≤ first + 4) × (end ≤ length streams.now) }
    requires full { AreFull streams.now first end }
    requires first { IsFirstOpen streams.now first end next }
    ensures { HaveTaken streams.now first end multi.old multi.new }
{
    if unended(streams, next + 1, end).is_none() {
        multi.take_alone(next - first, streams[next].piece.as_slice());
    } else {
        multi.take(&[
            piece_of(streams, first, end),
            piece_of(streams, first + 1, end),
            piece_of(streams, first + 2, end),
            piece_of(streams, first + 3, end),
        ]);
    }
}

/// The piece of the stream at the place `k`, or that of the last one if there aren't so many.
fn piece_of<S>(streams: &[Stream<S>], k: usize, end: usize) -> &[u8]
    requires { (0 < end) × (end ≤ length streams.now) }
    ensures { (stream : Stream S) → slice_get streams.now (min k (end - 1)) ≡ Some stream
        → result.now ≡ stream.piece.items }
{
    streams[k.min(end - 1)].piece.as_slice()
}

/// Reads the next piece of each stream that hasn't ended, in their order.
///
/// # Errors
///
/// The first fault. The streams behind it haven't been read on.
fn advance_each<S: Source>(
    multi: &mut MultiLanes,
    streams: &mut [Stream<S>],
    first: usize,
    end: usize,
    hashed: u64,
    limit: u64,
) -> Result<(), StreamFault>
    requires four { (first ≤ end) × (end ≤ first + 4) × (end ≤ length streams.old) }
    requires full { AreFull streams.old first end }
    requires within { hashed ≤ limit }
    ensures advanced { (set : AlgSet) (start : List (Stream S))
        → AreHashed S.remaining S.failures S.ready S.keeps multi.old set limit hashed first first
        end start streams.old
        → MatchResult result
        (λ done. AreUnder S.remaining S.failures S.ready S.keeps multi.new set limit hashed first
        first end start streams.new)
        (HaveStoppedAt S.remaining S.failures S.ready S.keeps multi.new set limit hashed first end
        start streams.new) }
    ensures others { OthersStay first end streams.old streams.new }
{
    for k in first..end {
        if streams[k].sums.is_none() {
            match advance(multi, k - first, &mut streams[k], hashed, limit) {
                Ok(()) => {}
                Err(fault) => return Err(StreamFault { place: k, fault }),
            }
        }
    }
    Ok(())
}

/// Reads the next piece of the stream in lane `i`, after as many octets as were hashed. If the source ends within it,
/// the digests are taken.
fn advance<S: Source>(
    multi: &mut MultiLanes,
    i: usize,
    stream: &mut Stream<S>,
    hashed: u64,
    limit: u64,
) -> Result<(), SourceFault>
    requires lane { (i < 4) × (hashed ≤ limit) }
    requires stream { (length stream.old.piece.items ≡ FRONT) × (stream.old.sums ≡ None) }
    ensures full { length stream.new.piece.items ≡ FRONT }
    ensures advanced { (set : AlgSet) (start : Stream S)
        → IsUnder S.remaining S.failures S.ready S.keeps multi.old set i limit hashed [] start
        stream.old
        → MatchResult result
        (λ done. IsUnder S.remaining S.failures S.ready S.keeps multi.new set i limit hashed
        stream.new.piece.items start stream.new)
        (λ fault. HasStopped S.remaining S.failures S.ready S.keeps limit fault start stream.new) }
    ensures others { OtherLanesStay i multi.old multi.new }
{
    let n = fill(
        stream.piece.as_mut_slice(),
        &mut stream.source,
        limit - hashed,
    )?;
    if n < stream.piece.len() {
        let digests = multi.finish(i, &stream.piece[..n]);
        stream.sums = Some(Sums {
            length: hashed + n as u64,
            digests,
        });
    }
    Ok(())
}
