//! Gathers what is read of the files of a batch. Those that are long are out until the batch is complete.
ghost use Rattle.std.specs.Prelude.{◌≡◌, ◌≢◌, ◌+◌, ◌<◌, ℕ, List, [], IfErr, IfOk, IsErrOf, MatchResult, OnOk, Some, length, slice_get};
ghost use Rattle.bag_digest.specs.declared.reading.SourceFault.{SourceFault};
ghost use Rattle.bag_digest.specs.Streams.{AreFresh, HaveEnded, IsFirstStopped};
ghost use Rattle.bag_rules.specs.Bags.{Bag, IsBagOf, shown_of};
ghost use Rattle.bag_rules.specs.FileBatchInside.{AreRead, CanRead, IsReadFor, next_of};
ghost use Rattle.bag_rules.specs.FilesInside.{IsLongRead};
ghost use Rattle.bag_rules.specs.BatchReading.{AddsFile, AddsNone, AreGathered, AreOpen, AreReady, AreSumsIn, HasFront, HaveSums, HoldsFront, IfStopped, IsFrontFault, IsReadAt, files_with};
ghost use Rattle.bag_rules.specs.Limits.{FirstStops, NoneStopsBefore, Stopped};
ghost use Rattle.bag_rules.specs.OctetsRead.{AreKnown, Extends, IsBagBy, IsKeptAt, KeepsListed, KnownOctets, KnowsFrom};
ghost use Rattle.bag_rules.specs.Returning.{IsStopped, LeavesOut, TakesAllBack};
ghost use Rattle.bag_rules.specs.Trees.{HasFileAt, paths_in};
ghost use Rattle.bag_digest.specs.declared.buffers.TheConstants.{FRONT};
ghost use Rattle.bag_rules.specs.declared.limits.TheConstants.{LARGEST_FILE};
ghost use Rattle.bag_rules.specs.declared.outcome.CheckFault.{CheckFault};
ghost use Rattle.bag_rules.specs.declared.requirements.Requirements.{Requirements};
ghost use Rattle.bag_rules.specs.declared.tag_sums.TagSums.{TagSums};

use crate::file_batch::{FileBatch, FileSums, LookedUp, look_up};
use crate::limits::LARGEST_FILE;
use crate::open_tree::OpenTree;
use crate::outcome::CheckFault;
use crate::requirements::Requirements;
use crate::returning::{close_all, stopped_at, told};
use crate::tag_sums::TagSums;
use bag_digest::{AlgSet, Source, SourceFault, Stream, StreamFault, Sums, digest_streams, fill};
use std::alloc::{AllocError, Global};

/// What was read so far of the files of a batch, and the files that didn't end within the buffer: each is out, and is a
/// stream.
#[derive(Drop)]
pub(crate) struct BatchReading<F> {
    batch: FileBatch,
    streams: Vec<Stream<F>>,
    // the algorithms by which digests of the streams are wanted
    set: AlgSet,
}

/// Why the front of a file wasn't read.
#[derive(Drop)]
pub(crate) enum FrontFault<F> {
    /// Memory ran out. The file isn't out.
    Memory,
    /// The file, which is out, has failed or is too large.
    Stopped(SourceFault, F),
}

impl<F> From<AllocError> for FrontFault<F> {
    ghost use Rattle.std.specs.Prelude.{◌≡◌};
    ghost use Rattle.bag_rules.specs.declared.batch_reading.FrontFault.TheVariants.{Memory};

    ghost from_gives = { λ _ fault. fault ≡ Memory };

    fn from(_: AllocError) -> FrontFault<F> {
        FrontFault::Memory
    }
}

impl<F: Drop> BatchReading<F> {
    /// No file yet. The first one will be that at this place.
    pub(crate) fn new(alloc: Global, first: usize) -> BatchReading<F>
        ensures streams { result.streams.items ≡ [] }
        ensures batch { (result.batch.first ≡ first) × (result.batch.read.items ≡ []) }
    {
        BatchReading {
            batch: FileBatch::new(alloc, first),
            streams: Vec::new(alloc),
            set: AlgSet::empty(),
        }
    }

    /// How many files it has.
    pub(crate) fn count(&self) -> usize
        ensures { result ≡ length self.now.batch.read.items }
    {
        self.batch.count()
    }

    /// The streams.
    pub(crate) fn into_streams(self) -> Vec<Stream<F>>
        ensures { result ≡ self.streams }
    {
        self.streams
    }

    /// Adds the next file, which is out, of which these are the first octets, and whose digests are wanted by the
    /// algorithms of the set.
    ///
    /// # Errors
    ///
    /// The file, if memory runs out.
    fn hold(&mut self, alloc: Global, set: AlgSet, front: &[u8], file: F) -> Result<(), F>
        ensures held { OnOk result (HoldsFront self.old self.new set front.now file) }
        ensures back { IfErr result (λ back. (back ≡ file)
            × (self.new.streams.items ≡ self.old.streams.items)) }
    {
        let mut piece = Vec::new(alloc);
        let Ok(()) = piece.extend_from_slice(front) else {
            return Err(file);
        };
        let Ok(()) = self.batch.add(FileSums::Streamed(self.streams.len())) else {
            return Err(file);
        };
        let stream = Stream {
            source: file,
            piece,
            sums: None,
        };
        match self.streams.push(stream) {
            Ok(()) => {
                self.set = self.set.union(set);
                Ok(())
            }
            Err(refused) => Err(refused.value.source),
        }
    }
}

impl<F: Source + Drop> BatchReading<F> {
    /// Reads the files that are out to their ends, side by side, and takes their digests.
    ///
    /// # Errors
    ///
    /// The first of them that has stopped, and why.
    fn read_on(&mut self) -> Result<(), StreamFault>
        requires { AreFresh self.old.streams.items }
        ensures ended { OnOk result (HaveEnded F.remaining F.failures F.ready F.keeps self.old.set
            LARGEST_FILE self.old.streams.items self.new.streams.items) }
        ensures stopped { IfErr result (IsFirstStopped F.remaining F.failures F.ready F.keeps
            self.old.set LARGEST_FILE 0 self.old.streams.items self.new.streams.items) }
        ensures rest { (length self.new.streams.items ≡ length self.old.streams.items)
            × (self.new.batch ≡ self.old.batch) }
    {
        digest_streams(self.set, LARGEST_FILE, self.streams.as_mut_slice())
    }
}

/// Reads the file at this place, if it is a payload file or is listed: all of it, or its front. Adds what was read of
/// it.
pub(crate) fn read_next<T: OpenTree>(
    alloc: Global,
    buffer: &mut [u8],
    tree: &mut T,
    place: usize,
    wants: &Requirements<'_>,
    kept: &TagSums,
    gathered: &mut BatchReading<T::File>,
) -> Result<(), FrontFault<T::File>>
    requires can_read { CanRead (T.shown tree.old) place buffer.old kept.now }
    requires streams { AreOpen T.File.place T.File.remaining T.File.failures (T.shown tree.old)
        gathered.old × (place ≡ next_of gathered.old.batch) }
    ensures added { OnOk result (AddsFile T.File.place T.File.remaining T.File.failures
        T.File.ready (T.shown tree.old) (T.sure tree.old) wants.now gathered.old gathered.new) }
    ensures stopped { IfErr result (λ fault. AddsNone gathered.old gathered.new fault
        × IsFrontFault T.File.place T.File.failures (T.shown tree.old) (T.sure tree.old) place fault
        × IfStopped fault (IsReadAt (T.shown tree.old) wants.now place)) }
    ensures some { (known : KnownOctets) → AreKnown T.File.place (T.shown tree.old) kept.now
        wants.now known gathered.old
        → KeepsListed (T.shown tree.old) wants.now.manifests.now kept.now
        → OnOk result ((found : KnownOctets) × Extends known found
        × AreKnown T.File.place (T.shown tree.old) kept.now wants.now found gathered.new) }
    ensures tree { MatchResult result
        (λ done. LeavesOut T.shown T.failures T.sure (length gathered.old.streams.items)
        (length gathered.new.streams.items) tree.old tree.new)
        (λ fault. LeavesOut T.shown T.failures T.sure (length gathered.old.streams.items)
        (length gathered.old.streams.items + files_with fault) tree.old tree.new) }
{
    match look_up(tree, place, wants, kept)? {
        LookedUp::Known(sums) => Ok(gathered.batch.add(sums)?),
        LookedUp::ToRead(set) => hold_next(alloc, buffer, tree, place, set, gathered),
    }
}

/// Opens the file at this place, which is to be read, and reads its front. If that is all of it, it is held, and the
/// file taken back. Otherwise the file stays out.
fn hold_next<T: OpenTree>(
    alloc: Global,
    buffer: &mut [u8],
    tree: &mut T,
    place: usize,
    set: AlgSet,
    gathered: &mut BatchReading<T::File>,
) -> Result<(), FrontFault<T::File>>
    requires room { (length buffer.old ≡ FRONT)
        × (place < length (paths_in (T.shown tree.old))) }
    requires streams { AreOpen T.File.place T.File.remaining T.File.failures (T.shown tree.old)
        gathered.old × (place ≡ next_of gathered.old.batch) }
    ensures added { (wants : Requirements) → ((path octets : List ℕ)
        → HasFileAt (T.shown tree.old) place path octets → IsReadFor wants path set)
        → OnOk result (AddsFile T.File.place T.File.remaining T.File.failures
        T.File.ready (T.shown tree.old) (T.sure tree.old) wants gathered.old gathered.new) }
    ensures stopped { IfErr result (λ fault. AddsNone gathered.old gathered.new fault
        × IsFrontFault T.File.place T.File.failures (T.shown tree.old) (T.sure tree.old) place
        fault) }
    ensures some { (kept : TagSums) (wants : Requirements) (known : KnownOctets)
        → AreKnown T.File.place (T.shown tree.old) kept wants known gathered.old
        → ¬ IsKeptAt kept place → ((path : List ℕ)
        → slice_get (paths_in (T.shown tree.old)) place ≡ Some path → IsReadFor wants path set)
        → OnOk result ((found : KnownOctets) × Extends known found
        × AreKnown T.File.place (T.shown tree.old) kept wants found gathered.new) }
    ensures tree { MatchResult result
        (λ done. LeavesOut T.shown T.failures T.sure (length gathered.old.streams.items)
        (length gathered.new.streams.items) tree.old tree.new)
        (λ fault. LeavesOut T.shown T.failures T.sure (length gathered.old.streams.items)
        (length gathered.old.streams.items + files_with fault) tree.old tree.new) }
{
    let (n, file) = read_front(alloc, buffer, tree, place)?;
    if n < buffer.len() {
        tree.close(file);
        return Ok(gathered.batch.hold(alloc, set, &buffer[..n])?);
    }
    match gathered.hold(alloc, set, buffer, file) {
        Ok(()) => Ok(()),
        Err(file) => {
            tree.close(file);
            Err(FrontFault::Memory)
        }
    }
}

/// Opens the file at this place, and reads its first octets into the buffer. Returns how many there are: less than fit
/// if the file ends with them.
fn read_front<T: OpenTree>(
    alloc: Global,
    buffer: &mut [u8],
    tree: &mut T,
    place: usize,
) -> Result<(usize, T::File), FrontFault<T::File>>
    requires room { (0 < length buffer.old) × (place < length (paths_in (T.shown tree.old))) }
    ensures front { IfOk result (HasFront T.File.place T.File.remaining T.File.failures
        T.File.ready (T.shown tree.old) (T.sure tree.old) place buffer.new) }
    ensures stopped { IfErr result (IsFrontFault T.File.place T.File.failures (T.shown tree.old)
        (T.sure tree.old) place) }
    ensures tree { (n : ℕ) → MatchResult result
        (λ found. LeavesOut T.shown T.failures T.sure n (n + 1) tree.old tree.new)
        (λ fault. LeavesOut T.shown T.failures T.sure n (n + files_with fault)
        tree.old tree.new) }
{
    let mut file = tree.open_file(alloc, place)?;
    match fill(buffer, &mut file, LARGEST_FILE) {
        Ok(n) => Ok((n, file)),
        Err(fault) => Err(FrontFault::Stopped(fault, file)),
    }
}

/// Reads the files that are out to their ends, side by side, and takes them back. Returns the batch with their sums and
/// with the digests of the files that are held.
///
/// # Errors
///
/// What stops the first of them, by path, that is stopped: `TooLarge` or `Tree`; and `Memory`.
pub(crate) fn finish<T: OpenTree>(
    alloc: Global,
    tree: &mut T,
    gathered: BatchReading<T::File>,
) -> Result<FileBatch, CheckFault>
    requires { AreOpen T.File.place T.File.remaining T.File.failures (T.shown tree.old) gathered }
    ensures read { (wants : Requirements)
        → AreGathered T.File.place T.File.remaining (T.shown tree.old) wants gathered
        → IfOk result (λ batch. AreRead (T.shown tree.old) wants batch
        × (batch.first ≡ gathered.batch.first) × (batch.read ≡ gathered.batch.read)) }
    ensures some { (kept : TagSums) (wants : Requirements) (known : KnownOctets)
        → AreKnown T.File.place (T.shown tree.old) kept wants known gathered
        → IfOk result (λ batch. (found : KnownOctets) × Extends known found
        × KnowsFrom (next_of batch) (T.shown tree.old) kept found
        × ((bag : Bag) → IsBagBy (T.shown tree.old) found bag
        → AreRead (shown_of bag) wants batch)) }
    ensures limits { (wants : Requirements)
        → AreGathered T.File.place T.File.remaining (T.shown tree.old) wants gathered
        → (bag : Bag) → IsBagOf (T.shown tree.old) bag
        → NoneStopsBefore gathered.batch.first bag (IsLongRead wants.manifests.now)
        → IfErr result (Stopped (FirstStops bag (IsLongRead wants.manifests.now))) }
    ensures ready { AreReady T.File.ready gathered.streams.items
        → ¬ IsErrOf result CheckFault.Tree }
    ensures tree { TakesAllBack T.shown T.failures T.sure (length gathered.streams.items)
        (IsErrOf result CheckFault.Tree) tree.old tree.new }
{
    let mut gathered = gathered;
    match gathered.read_on() {
        Ok(()) => {
            let sums = sums_of(alloc, gathered.streams.as_slice());
            close_all(tree, gathered.streams);
            Ok(gathered.batch.complete(alloc, sums?)?)
        }
        Err(stopped) => Err(stopped_at(tree, gathered.streams, stopped)),
    }
}

/// Reads the files that are out to their ends, since what stops one of them comes before what stops the next file, and
/// takes all back. Returns what is told.
pub(crate) fn stop<T: OpenTree>(
    tree: &mut T,
    gathered: BatchReading<T::File>,
    fault: SourceFault,
    file: T::File,
) -> CheckFault
    requires streams { AreOpen T.File.place T.File.remaining T.File.failures (T.shown tree.old)
        gathered × (T.File.place file ≡ next_of gathered.batch) }
    requires stopped { IsStopped T.File.place T.File.failures (T.shown tree.old) fault file }
    ensures limits { (wants : Requirements)
        → AreGathered T.File.place T.File.remaining (T.shown tree.old) wants gathered
        → IsReadAt (T.shown tree.old) wants (T.File.place file)
        → (bag : Bag) → IsBagOf (T.shown tree.old) bag
        → NoneStopsBefore gathered.batch.first bag (IsLongRead wants.manifests.now)
        → Stopped (FirstStops bag (IsLongRead wants.manifests.now)) result }
    ensures ready { AreReady T.File.ready gathered.streams.items → fault ≢ SourceFault.Read
        → ¬ (result ≡ CheckFault.Tree) }
    ensures tree { TakesAllBack T.shown T.failures T.sure (length gathered.streams.items + 1)
        (result ≡ CheckFault.Tree) tree.old tree.new }
{
    let mut gathered = gathered;
    match gathered.read_on() {
        Ok(()) => {
            close_all(tree, gathered.streams);
            told(tree, fault, file)
        }
        Err(stopped) => {
            tree.give_up(file, &gathered.streams[stopped.place].source);
            stopped_at(tree, gathered.streams, stopped)
        }
    }
}

/// The lengths and the digests of streams that have ended.
fn sums_of<F>(alloc: Global, streams: &[Stream<F>]) -> Result<Vec<Sums>, AllocError>
    ensures { HaveSums streams.now → IfOk result (λ sums. AreSumsIn streams.now sums.items) }
{
    let mut sums = Vec::new(alloc);
    for stream in streams {
        if let Some(found) = stream.sums {
            sums.push(found)?;
        }
    }
    Ok(sums)
}
