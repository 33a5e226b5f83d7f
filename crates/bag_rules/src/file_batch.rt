//! Files that are read one after another, so that their digests can be taken side by side.
ghost use Rattle.std.specs.Prelude.{◌≡◌, ◌<◌, ◌≤◌, ◌↔◌, ℕ, List, [], IfErr, IfOk, IsErrOf, IsTrue, MatchOption, OnOk, Some, length, slice_get};
ghost use Rattle.bag_rules.specs.Bags.{Bag, IsBagOf, shown_of};
ghost use Rattle.bag_rules.specs.FileBatchInside.{AddsSums, AreAlgsOf, AreListedAlgs, AreRead, CanRead, Covers, AddsHeld, CompletesBatch, IsFindingOf, IsSumsOf, next_of};
ghost use Rattle.bag_rules.specs.FilesInside.{IsLongRead};
ghost use Rattle.bag_rules.specs.KeptInside.{AreKept};
ghost use Rattle.bag_rules.specs.Limits.{FirstStops, NoneStopsBefore, Stopped};
ghost use Rattle.bag_rules.specs.OctetsRead.{Extends, IsBagBy, IsUnkept, KeepsListed, KnownOctets, KnowsFrom};
ghost use Rattle.bag_rules.specs.Trees.{HasFileAt, Shown, UsesTree, paths_in};
ghost use Rattle.bag_rules.specs.declared.outcome.CheckFault.{CheckFault};
ghost use Rattle.bag_rules.specs.declared.requirements.Requirements.{Requirements};

use crate::batch_reading::{BatchReading, FrontFault, finish, read_next, stop};
use crate::open_tree::OpenTree;
use crate::outcome::CheckFault;
use crate::requirements::Requirements;
use crate::returning::close_all;
use crate::tag_sums::TagSums;
use crate::tree::Paths;
use bag_digest::{AlgSet, FRONT, ShortContents, Sums};
use std::alloc::{AllocError, Global};

/// How many files a batch has at most. A file that ends within a front ([`FRONT`] octets) is held until the digests of
/// its batch are taken, and so is the front of a longer one, which stays open. So no more than 4 MiB are held, and no
/// more files are open.
const MOST_READ: usize = 32;

/// What was read of files that follow one another by path.
#[derive(Drop)]
pub(crate) struct FileBatch {
    first: usize,
    read: Vec<FileSums>,
    held: ShortContents<()>,
    waiting: Vec<Sums>,
    streamed: Vec<Sums>,
}

/// What was read of one file.
#[derive(Drop)]
pub(crate) enum FileSums {
    /// Nothing, since it is neither a payload file nor listed.
    Unread,
    /// Its length in octets and its digests.
    Taken(Sums),
    /// All its octets, which are held at this place. Their digests are taken with those of the others that are held.
    Waiting(usize),
    /// Its front. The rest is read, and its digests taken, with those of the other streams: it is the stream at this
    /// place.
    Streamed(usize),
}

/// What is found of a file before it is opened.
#[derive(Drop)]
pub(crate) enum LookedUp {
    /// All that is needed.
    Known(FileSums),
    /// That its digests by these algorithms are needed.
    ToRead(AlgSet),
}

impl FileBatch {
    /// No file yet. The first one will be that at this place.
    pub(crate) fn new(alloc: Global, first: usize) -> FileBatch
        ensures first { (result.first ≡ first) × (result.read.items ≡ []) }
        ensures read { (shown : Shown) (wants : Requirements) → AreRead shown wants result }
    {
        FileBatch {
            first,
            read: Vec::new(alloc),
            held: ShortContents::new(alloc, AlgSet::empty()),
            waiting: Vec::new(alloc),
            streamed: Vec::new(alloc),
        }
    }

    /// How many files it has.
    pub(crate) fn count(&self) -> usize
        ensures { result ≡ length self.now.read.items }
    {
        self.read.len()
    }

    /// Whether the file at this place is among those of the batch.
    pub(crate) fn covers(&self, place: usize) -> bool
        ensures { IsTrue result ↔ Covers self.now place }
    {
        place >= self.first && place - self.first < self.read.len()
    }

    /// The length in octets and the digests of the file at this place, or nothing if it is neither a payload file nor
    /// listed.
    pub(crate) fn sums(&self, place: usize) -> Option<Sums>
        requires { Covers self.now place }
        ensures { (shown : Shown) (wants : Requirements) (path octets : List ℕ)
            → AreRead shown wants self.now → HasFileAt shown place path octets
            → IsSumsOf wants path octets result }
    {
        match &self.read[place - self.first] {
            FileSums::Unread => None,
            FileSums::Taken(sums) => Some(*sums),
            FileSums::Waiting(place) => sums_at(&self.waiting, *place),
            FileSums::Streamed(place) => sums_at(&self.streamed, *place),
        }
    }

    /// Adds the next file.
    pub(crate) fn add(&mut self, sums: FileSums) -> Result<(), AllocError>
        ensures added { OnOk result (AddsSums self.old self.new sums) }
    {
        self.read.push(sums)?;
        Ok(())
    }

    /// Adds the next file, of which these are all octets. Its digests are wanted by the algorithms of the set.
    pub(crate) fn hold(
        &mut self,
        alloc: Global,
        set: AlgSet,
        octets: &[u8],
    ) -> Result<(), AllocError>
        ensures held { OnOk result (AddsHeld self.old self.new set octets.now) }
    {
        let mut content = Vec::new(alloc);
        content.extend_from_slice(octets)?;
        let place = self.held.count();
        self.held.want(set);
        self.held.add((), content)?;
        self.add(FileSums::Waiting(place))
    }

    /// The same files, with the sums of those that are held and with these of the streams.
    pub(crate) fn complete(
        self,
        alloc: Global,
        streamed: Vec<Sums>,
    ) -> Result<FileBatch, AllocError>
        ensures { IfOk result (λ batch. CompletesBatch self batch streamed.items) }
    {
        let mut batch = self;
        batch.waiting = batch.held.sums(alloc)?;
        batch.streamed = streamed;
        Ok(batch)
    }
}

/// The length and the digests at this place.
fn sums_at(each: &[Sums], place: usize) -> Option<Sums>
    ensures { MatchOption result (length each.now ≤ place)
        (λ sums. slice_get each.now place ≡ Some sums) }
{
    each.get(place).copied()
}

/// The batch with the file at this place: the last one, or else a new one that begins with this file.
///
/// # Errors
///
/// Those of [`read_batch`].
pub(crate) fn batch_at<T: OpenTree>(
    alloc: Global,
    buffer: &mut [u8],
    tree: &mut T,
    place: usize,
    wants: &Requirements<'_>,
    kept: &TagSums,
    last: FileBatch,
) -> Result<FileBatch, CheckFault>
    requires can_read { CanRead (T.shown tree.old) place buffer.old kept.now }
    requires ready { AreRead (T.shown tree.old) wants.now last }
    ensures read { IfOk result (λ batch. AreRead (T.shown tree.old) wants.now batch
        × Covers batch place) }
    ensures limits { (bag : Bag) → IsBagOf (T.shown tree.old) bag
        → NoneStopsBefore place bag (IsLongRead wants.now.manifests.now)
        → IfErr result (Stopped (FirstStops bag (IsLongRead wants.now.manifests.now))) }
    ensures some { (known : KnownOctets) → last.first ≤ place
        → KnowsFrom (next_of last) (T.shown tree.old) kept.now known
        → KeepsListed (T.shown tree.old) wants.now.manifests.now kept.now
        → ((bag : Bag) → IsBagBy (T.shown tree.old) known bag
        → AreRead (shown_of bag) wants.now last)
        → IfOk result (λ batch. (found : KnownOctets) × Extends known found
        × KnowsFrom (next_of batch) (T.shown tree.old) kept.now found
        × ((bag : Bag) → IsBagBy (T.shown tree.old) found bag
        → AreRead (shown_of bag) wants.now batch)) }
    ensures tree { UsesTree T.shown T.failures T.sure tree.old tree.new
        (IsErrOf result CheckFault.Tree) }
{
    if last.covers(place) {
        return Ok(last);
    }
    read_batch(alloc, buffer, tree, place, wants, kept)
}

/// Reads files from this place on, by path, each that is a payload file or is listed once: first the front of each, and
/// then the rest of the long ones, side by side.
///
/// # Errors
///
/// `TooLarge` for the first file that is longer than 2^40 octets; `Tree` if the tree failed; `Memory`. What comes first
/// by path is told.
fn read_batch<T: OpenTree>(
    alloc: Global,
    buffer: &mut [u8],
    tree: &mut T,
    first: usize,
    wants: &Requirements<'_>,
    kept: &TagSums,
) -> Result<FileBatch, CheckFault>
    requires { CanRead (T.shown tree.old) first buffer.old kept.now }
    ensures read { IfOk result (λ batch. AreRead (T.shown tree.old) wants.now batch
        × Covers batch first) }
    ensures limits { (bag : Bag) → IsBagOf (T.shown tree.old) bag
        → NoneStopsBefore first bag (IsLongRead wants.now.manifests.now)
        → IfErr result (Stopped (FirstStops bag (IsLongRead wants.now.manifests.now))) }
    ensures some { (known : KnownOctets) → KnowsFrom first (T.shown tree.old) kept.now known
        → KeepsListed (T.shown tree.old) wants.now.manifests.now kept.now
        → IfOk result (λ batch. (found : KnownOctets) × Extends known found
        × KnowsFrom (next_of batch) (T.shown tree.old) kept.now found
        × ((bag : Bag) → IsBagBy (T.shown tree.old) found bag
        → AreRead (shown_of bag) wants.now batch)) }
    ensures tree { UsesTree T.shown T.failures T.sure tree.old tree.new
        (IsErrOf result CheckFault.Tree) }
{
    let mut gathered = BatchReading::new(alloc, first);
    let count = tree.count();
    let mut place = first;
    'files: loop {
        match read_next(alloc, buffer, tree, place, wants, kept, &mut gathered) {
            Ok(()) => {}
            Err(FrontFault::Memory) => {
                close_all(tree, gathered.into_streams());
                return Err(CheckFault::Memory);
            }
            Err(FrontFault::Stopped(fault, file)) => {
                return Err(stop(tree, gathered, fault, file));
            }
        }
        place += 1;
        if place == count || gathered.count() == MOST_READ {
            return finish(alloc, tree, gathered);
        }
    }
}

/// What is found of the file at this place before it is opened: whether it is read, and its sums if they were kept.
pub(crate) fn look_up<T: Paths>(
    tree: &T,
    place: usize,
    wants: &Requirements<'_>,
    kept: &TagSums,
) -> Result<LookedUp, AllocError>
    requires { place < length (paths_in (T.shown tree.now)) }
    ensures found { (shown : Shown) → paths_in shown ≡ paths_in (T.shown tree.now)
        → AreKept shown kept.now → (path octets : List ℕ) → HasFileAt shown place path octets
        → IfOk result (IsFindingOf wants.now path octets) }
    ensures unkept { KeepsListed (T.shown tree.now) wants.now.manifests.now kept.now
        → IfOk result (IsUnkept kept.now place) }
{
    let Some(set) = algs_at(tree, place, wants)? else {
        return Ok(LookedUp::Known(FileSums::Unread));
    };
    match kept.find(place, set) {
        Some(sums) => Ok(LookedUp::Known(FileSums::Taken(sums))),
        None => Ok(LookedUp::ToRead(set)),
    }
}

/// The algorithms by which the file at this place is listed, or nothing if it is neither a payload file nor listed.
fn algs_at<T: Paths>(
    tree: &T,
    place: usize,
    wants: &Requirements<'_>,
) -> Result<Option<AlgSet>, AllocError>
    requires { place < length (paths_in (T.shown tree.now)) }
    ensures known { (path : List ℕ) → slice_get (paths_in (T.shown tree.now)) place ≡ Some path
        → IfOk result (AreAlgsOf wants.now path) }
    ensures only { (path : List ℕ) → slice_get (paths_in (T.shown tree.now)) place ≡ Some path
        → IfOk result (AreListedAlgs wants.now path) }
{
    let path = tree.path(place).clone()?;
    let set = wants.of(&path).algs();
    if set.is_empty() && !path.is_payload() {
        return Ok(None);
    }
    Ok(Some(set))
}
