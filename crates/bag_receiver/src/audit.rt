//! Audits: reports on the bag of a transfer after everything that is held of it was read again.
ghost use Rattle.std.specs.Prelude.{◌≡◌, IfOk, IsErrOf, ◌<◌, ℕ, List, IfSome, IsSomeAnd, length, ◌≤◌, ◌++◌, ◌∷◌, [], All, IsTrue, OnOk};
ghost use Rattle.bag_digest.specs.ShortContents.{IsHeld, Took};
ghost use Rattle.bag_digest.specs.declared.buffers.TheConstants.{PIECE};
ghost use Rattle.bag_rules.specs.Files.{Files};
ghost use Rattle.bag_rules.specs.Plans.{IsPlanOf, sizes_of, item_paths};
ghost use Rattle.bag_rules.specs.Transfers.{Passes};
ghost use Rattle.bag_rules.specs.Trees.{AreRising};
ghost use Rattle.bag_rules.specs.Wants.{IsWanted};
ghost use Rattle.bag_rules.specs.declared.plan.ItemSize.{ItemSize};
ghost use Rattle.bag_ledger.specs.Ledgers.{Ledger, items_of};
ghost use Rattle.bag_ledger.specs.declared.keeper_faults.KeepFault.TheVariants.{Store};
ghost use Rattle.bag_ledger.specs.Findings.{HoldsLittle};
ghost use Rattle.bag_receiver.specs.Audits.{IsAuditing};
ghost use Rattle.bag_receiver.specs.Holdings.{AreValidSizes, IsPlanFor, ReadsKeeper, HasItem, SomePass};
ghost use Rattle.bag_receiver.specs.AuditsInside.{IsKnownOf, PassesTest, TellsSome};
ghost use Rattle.bag_receiver.specs.declared.audit.TheConstants.{MOST_HELD};

use crate::held::next_piece;
use crate::receiver::Receiver;
use crate::report::{Basis, ViewFault};
use bag_digest::{AlgSet, Content, ShortContents, piece_buffer};
use bag_ledger::{Finding, KeepFault, Keeper};
use bag_path::BagPath;
use bag_rules::limits::LARGEST_ITEM;
use bag_rules::{ItemSize, Plan, Report, Want};
use std::alloc::{AllocError, Global};

/// How many files are held at most. None is longer than a piece, so no more than 4 MiB are held.
const MOST_HELD: usize = 64;

impl<K: Keeper> Receiver<K> {
    /// What is wrong with the bag of the transfer, as in [`report`](Receiver::report), but all payload files that are
    /// held are read and hashed again. A file that isn't the listed one any more is reported as missing.
    ///
    /// # Errors
    ///
    /// Those of [`report`](Receiver::report).
    pub fn audit(&mut self, alloc: Global, name: &str) -> Result<Report, ViewFault>
        ensures { IsAuditing K.holds K.may_leave K.clean K.failures name.now
            self.old self.new result }
    {
        self.view(alloc, name, Basis::Octets)
    }
}

/// The payload files that the transfer holds and that are valid when they are read again, by path.
pub(crate) fn passing_sizes<K: Keeper>(
    keeper: &mut K,
    alloc: Global,
    name: &str,
    plan: &Plan,
) -> Result<Vec<ItemSize>, KeepFault>
    ensures found { K.clean keeper.new → (ledger : Ledger) → K.holds keeper.old ledger
        → IsPlanFor ledger name.now plan.now
        → IfOk result (λ sizes. sizes.items ≡ sizes_of (items_of ledger name.now)) }
    ensures valid { (tags : Files) → IsPlanOf tags plan.now
        → IfOk result (λ sizes. AreValidSizes tags sizes.items) }
    ensures keeper { ReadsKeeper K.holds K.may_leave K.clean K.failures keeper.old keeper.new
        (λ fault. IsErrOf result (Store fault)) }
{
    let sizes = keeper.sizes(alloc, name)?;
    let mut buffer = piece_buffer(alloc)?;
    let mut audited = Audited::none(alloc);
    for size in sizes {
        let finding = read_again(keeper, alloc, name, plan, &size, buffer.as_mut_slice())?;
        audited = audited.add(alloc, size, finding)?;
    }
    Ok(audited.settle(alloc)?)
}

/// Reads the payload file held at this path again. One of at most a piece isn't tested.
fn read_again<'a, K: Keeper>(
    keeper: &mut K,
    alloc: Global,
    name: &str,
    plan: &'a Plan,
    item: &ItemSize,
    buffer: &mut [u8],
) -> Result<Finding<'a>, KeepFault>
    requires { 0 < length buffer.old }
    ensures judged { K.clean keeper.new → (tags : Files) (content : List ℕ) → IsPlanOf tags plan.now
        → HasItem K.holds keeper.old name.now item.now.path content
        → item.now.octets ≡ length content → Passes tags item.now.path content
        → IfOk result PassesTest }
    ensures some { (tags : Files) → IsPlanOf tags plan.now
        → IfOk result (TellsSome tags item.now) }
    ensures little { IfOk result HoldsLittle }
    ensures room { length buffer.new ≡ length buffer.old }
    ensures keeper { ReadsKeeper K.holds K.may_leave K.clean K.failures keeper.old keeper.new
        (λ fault. IsErrOf result (Store fault)) }
{
    match plan.want(&item.path) {
        Some(want) if item.octets <= LARGEST_ITEM => {
            let path = want.path();
            match read_whole(keeper, alloc, name, path, item.octets, want.algs(), buffer)? {
                Some(content) => Ok(Finding::of(want, item.octets, content)),
                None => Ok(Finding::Damaged),
            }
        }
        _ => Ok(Finding::Damaged),
    }
}

/// Reads the content of the payload file held at this path, which has so many octets, to its end: nothing if the store
/// has fewer.
fn read_whole<K: Keeper>(
    keeper: &mut K,
    alloc: Global,
    name: &str,
    path: &BagPath,
    octets: u64,
    set: AlgSet,
    buffer: &mut [u8],
) -> Result<Option<Content>, KeepFault>
    requires { 0 < length buffer.old }
    ensures took { K.clean keeper.new → (content : List ℕ)
        → HasItem K.holds keeper.old name.now path.now content → octets ≡ length content
        → IfOk result (λ found. IsSomeAnd found (λ whole. Took whole set content)) }
    ensures some { IfOk result (λ found. IfSome found (λ whole. (taken : List ℕ)
        × (octets ≡ length taken) × Took whole set taken)) }
    ensures held { IfOk result (λ found. IfSome found (λ whole. IsHeld whole octets octets)) }
    ensures room { length buffer.new ≡ length buffer.old }
    ensures keeper { ReadsKeeper K.holds K.may_leave K.clean K.failures keeper.old keeper.new
        (λ fault. IsErrOf result (Store fault)) }
{
    let mut content = Content::none(alloc, octets, set);
    let mut read = 0u64;
    while read < octets {
        let n = next_piece(keeper, alloc, name, path, read, octets - read, buffer)?;
        if n == 0 {
            return Ok(None);
        }
        content.take(&buffer[..n])?;
        read += n as u64;
    }
    Ok(Some(content))
}

/// What is known of a file that is held.
#[derive(Drop)]
struct Untested<'a> {
    size: ItemSize,
    want: Want<'a>,
}

/// Payload files that were read again, by path. Short ones are held, and their digests are taken side by side.
#[derive(Drop)]
struct Audited<'a> {
    /// Those that are valid. All of them come before those that are held.
    valid: Vec<ItemSize>,
    /// Those that haven't been tested yet.
    held: ShortContents<Untested<'a>>,
    ghost few: { length held.contents.items ≤ MOST_HELD },
    ghost small: { All (λ content. length content.items ≤ PIECE) held.contents.items },
}

impl<'a> Audited<'a> {
    ghost use Rattle.bag_receiver.specs.Auditeds.{AreSound, AreWhole};

    /// No file yet.
    fn none(alloc: Global) -> Audited<'a>
        ensures sound { (tags : Files) → AreSound tags result }
        ensures whole { AreWhole [] result }
    {
        Audited::of(alloc, Vec::new(alloc))
    }

    /// These files, which are valid.
    fn of(alloc: Global, valid: Vec<ItemSize>) -> Audited<'a>
        ensures sound { (tags : Files) → AreValidSizes tags valid.items → AreSound tags result }
        ensures whole { AreWhole valid.items result }
        ensures valid { result.valid.items ≡ valid.items }
        ensures empty { result.held.contents.items ≡ [] }
    {
        Audited {
            valid,
            held: ShortContents::new(alloc, AlgSet::empty()),
        }
    }

    /// Adds a file of which this was found.
    ///
    /// # Errors
    ///
    /// Here and below, the only error is that memory ran out.
    fn add(
        self,
        alloc: Global,
        size: ItemSize,
        finding: Finding<'a>,
    ) -> Result<Audited<'a>, AllocError>
        requires little { HoldsLittle finding }
        ensures sound { (tags : Files) → AreSound tags self.entry
            → TellsSome tags size finding.entry → IfOk result (AreSound tags) }
        ensures whole { (tags : Files) (sizes : List ItemSize) → AreSound tags self.entry
            → AreWhole sizes self.entry → AreRising (item_paths (sizes ++ size ∷ []))
            → PassesTest finding.entry → IfOk result (AreWhole (sizes ++ size ∷ [])) }
    {
        match finding {
            Finding::Damaged => Ok(self),
            Finding::Valid => {
                let mut valid = self.settle(alloc)?;
                push_next(&mut valid, size)?;
                Ok(Audited::of(alloc, valid))
            }
            Finding::Untested(want, content) => {
                let audited = self.with_room(alloc)?;
                audited.hold(Untested { size, want }, content)
            }
        }
    }

    /// The same files. If as many were held as may be, none is any more.
    fn with_room(self, alloc: Global) -> Result<Audited<'a>, AllocError>
        ensures sound { (tags : Files) → AreSound tags self.entry → IfOk result (AreSound tags) }
        ensures whole { (tags : Files) (sizes : List ItemSize) → AreSound tags self.entry
            → AreWhole sizes self.entry → AreRising (item_paths sizes)
            → IfOk result (AreWhole sizes) }
        ensures room { IfOk result (λ audited. length audited.held.contents.items < MOST_HELD) }
    {
        if self.held.count() < MOST_HELD {
            return Ok(self);
        }
        Ok(Audited::of(alloc, self.settle(alloc)?))
    }

    /// Holds one more file, which has this content.
    fn hold(self, known: Untested<'a>, content: Vec<u8>) -> Result<Audited<'a>, AllocError>
        requires room { length self.held.contents.items < MOST_HELD }
        requires small { length content.items ≤ PIECE }
        ensures sound { (tags : Files) → AreSound tags self.entry
            → IsKnownOf tags known.entry content.items → IfOk result (AreSound tags) }
        ensures whole { (sizes : List ItemSize) → AreWhole sizes self.entry
            → IsWanted known.entry.want content.items
            → IfOk result (AreWhole (sizes ++ known.entry.size ∷ [])) }
    {
        let Audited { valid, mut held } = self;
        held.want(known.want.algs());
        held.add(known, content)?;
        Ok(Audited { valid, held })
    }

    /// The sizes of the files that are valid, by path. Those that are held are tested first.
    fn settle(self, alloc: Global) -> Result<Vec<ItemSize>, AllocError>
        ensures sound { (tags : Files) → AreSound tags self.entry
            → IfOk result (λ sizes. AreValidSizes tags sizes.items) }
        ensures whole { (tags : Files) (sizes : List ItemSize) → AreSound tags self.entry
            → AreWhole sizes self.entry → AreRising (item_paths sizes)
            → IfOk result (λ all. all.items ≡ sizes) }
    {
        let Audited { mut valid, held } = self;
        let each = held.sums(alloc)?;
        let mut place = 0;
        for known in held.into_known() {
            let sums = each[place];
            place += 1;
            if known.want.test(&sums).is_ok() {
                push_next(&mut valid, known.size)?;
            }
        }
        Ok(valid)
    }
}

/// Adds the size of a valid file, unless its path doesn't come after those before it. A store that fails unseen may
/// give a path twice, or out of order.
fn push_next(valid: &mut Vec<ItemSize>, size: ItemSize) -> Result<(), AllocError>
    ensures sound { (tags : Files) → AreValidSizes tags valid.old.items
        → SomePass tags size.path size.octets → OnOk result (AreValidSizes tags valid.new.items) }
    ensures whole { AreRising (item_paths (valid.old.items ++ size ∷ []))
        → OnOk result (valid.new.items ≡ valid.old.items ++ size ∷ []) }
{
    if !comes_after(valid.as_slice(), &size) {
        return Ok(());
    }
    valid.push(size)?;
    Ok(())
}

/// Whether the path of the file comes after those of these files.
fn comes_after(files: &[ItemSize], file: &ItemSize) -> bool
    ensures rising { IsTrue result → AreRising (item_paths files.now)
        → AreRising (item_paths (files.now ++ file.now ∷ [])) }
    ensures next { AreRising (item_paths (files.now ++ file.now ∷ [])) → IsTrue result }
{
    match files.last() {
        Some(last) => last.path < file.path,
        None => true,
    }
}
