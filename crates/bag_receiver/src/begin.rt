//! Opening a transfer.
ghost use Rattle.std.specs.Prelude.{◌≡◌, ◌≢◌, ◌⊎◌, ◌↔◌, ◌<◌, List, ℕ, IfErr, IfOk, IsErrOf, IsTrue, MatchOption, MatchResult, OnOk, length, string_bytes};
ghost use Rattle.bag_digest.specs.Failures.{CountsIf};
ghost use Rattle.bag_rules.specs.declared.limits.TheConstants.{LARGEST_TAG_FILE};
ghost use Rattle.bag_rules.specs.Files.{Files};
ghost use Rattle.bag_rules.specs.Opening.{IsFirstPath, RefusesTags};
ghost use Rattle.bag_rules.specs.Plans.{IsPlanOf};
ghost use Rattle.bag_ledger.specs.declared.keeper_faults.StoreFault.{StoreFault};
ghost use Rattle.bag_receiver.specs.Beginning.{AreTaken, BeginStep, IsAnswerTo, IsHeavyAt, NoneMisplaced, given_in};
ghost use Rattle.bag_receiver.specs.BeginningFrom.{IsBeginning};
ghost use Rattle.bag_receiver.specs.BeginningInside.{IsPlaced, IsRefusal, emptied, light_tags};
ghost use Rattle.bag_receiver.specs.TransferNames.{IsTransferName};
ghost use Rattle.bag_receiver.specs.Receivers.{Does};
ghost use Rattle.bag_receiver.specs.Stops.{with_file};

use crate::receiver::{Receiver, keep_plan};
use crate::transfer_name::is_name;
use bag_ledger::{KeepFault, Keeper};
use bag_path::BagPath;
use bag_rules::limits::LARGEST_TAG_FILE;
use bag_rules::{Fault, OutsideCause, Plan, PlanFault, TagSet, TagSetFault};
use std::alloc::{AllocError, Global};
use thiserror::Error;

/// How a transfer was begun.
#[derive(Clone, Copy, Debug, PartialEq, Eq)]
pub enum Begun {
    /// The transfer is open from now on, and holds no payload files.
    New,
    /// It was opened before with the same tag files. It is unchanged.
    Again,
}

/// Why no transfer was opened. If several reasons apply, the first in this order is reported. `Keeper` may be reported
/// in place of any that needs the store or memory, and `Tree` only if the tag files are read from a tree.
#[derive(Debug, Drop, Error)]
pub enum BeginFault {
    /// The text isn't a valid name: 1 to 64 octets, each a lowercase ASCII letter, a digit or `-`.
    #[error("name")]
    BadName,
    /// The path of the file at this place, counted from 0, is invalid, is a payload path, or is the path of an earlier
    /// file. This is the first such file.
    #[error("tag path")]
    TagPath(usize),
    /// The file at this path has more than 16,777,216 octets, or it is a manifest or `fetch.txt` and has more than
    /// 100,000 lines. This is the first such file by path.
    #[error("tag too large")]
    TagTooLarge(BagPath),
    /// The bag can't be judged here, for this reason. This doesn't mean that it is invalid.
    #[error("outside")]
    Outside(OutsideCause),
    /// The tag files have a fault that no payload file can remedy. This is the first such fault in the order of a
    /// report.
    #[error("a fault of the tag files")]
    Rules(Fault),
    /// The path of a tag file or of a listed payload file is also the folder of another one. This is the first such
    /// path.
    #[error("clash")]
    Clash(BagPath),
    /// The transfer was opened before with other tag files. It is unchanged.
    #[error("differs")]
    Differs,
    /// The tree with the tag files failed, and counted the failure.
    #[error("tree")]
    Tree,
    /// The store of the transfers has no answer, or memory ran out.
    #[error("keeper")]
    Keeper(KeepFault),
}

impl From<AllocError> for BeginFault {
    ghost use Rattle.std.specs.Prelude.{◌≡◌};
    ghost use Rattle.bag_ledger.specs.declared.keeper_faults.KeepFault.TheVariants.{Memory};
    ghost use Rattle.bag_receiver.specs.declared.begin.BeginFault.TheVariants.{Keeper};

    ghost from_gives = { λ error fault. fault ≡ Keeper Memory };

    fn from(_: AllocError) -> BeginFault {
        BeginFault::Keeper(KeepFault::Memory)
    }
}

impl From<KeepFault> for BeginFault {
    ghost use Rattle.std.specs.Prelude.{◌≡◌};
    ghost use Rattle.bag_receiver.specs.declared.begin.BeginFault.TheVariants.{Keeper};

    ghost from_gives = { λ keep fault. fault ≡ Keeper keep };

    fn from(fault: KeepFault) -> BeginFault {
        BeginFault::Keeper(fault)
    }
}

impl From<PlanFault> for BeginFault {
    ghost use Rattle.std.specs.Prelude.{◌≡◌};
    ghost use Rattle.bag_receiver.specs.BeginningInside.{begin_fault};

    ghost from_gives = { λ plan fault. fault ≡ begin_fault plan };

    fn from(fault: PlanFault) -> BeginFault {
        match fault {
            PlanFault::TagTooLarge(path) => BeginFault::TagTooLarge(path),
            PlanFault::Outside(cause) => BeginFault::Outside(cause),
            PlanFault::Rules(fault) => BeginFault::Rules(fault),
            PlanFault::Clash(path) => BeginFault::Clash(path),
            PlanFault::Memory => BeginFault::Keeper(KeepFault::Memory),
        }
    }
}

/// The files as tag files, and their plan.
pub(crate) fn open(alloc: Global, files: &[(String, Vec<u8>)]) -> Result<(TagSet, Plan), BeginFault>
    ensures taken { IfOk result (λ opened. AreTaken (given_in files.now) opened.0
        × IsPlanOf opened.0 opened.1) }
    ensures refused { IfErr result (IsRefusal (given_in files.now)) }
{
    let tags = placed(alloc, files)?;
    let heavy = first_heavy(files);
    match Plan::from_tags(alloc, &tags) {
        Ok(plan) => match heavy {
            Some(heavy) => Err(too_large(alloc, heavy)),
            None => Ok((tags, plan)),
        },
        Err(fault) => match heavy {
            Some(heavy) => Err(first_refusal(alloc, heavy, fault)),
            None => Err(BeginFault::from(fault)),
        },
    }
}

/// The fault to report, given the first path of a file with too many octets and the fault of the tag files with such
/// files emptied.
fn first_refusal(alloc: Global, heavy: &str, fault: PlanFault) -> BeginFault
    ensures { (given : Files) → NoneMisplaced given → IsFirstPath (IsHeavyAt given) heavy.now
        → RefusesTags (light_tags given) fault → IsRefusal given result }
{
    match fault {
        PlanFault::Memory => BeginFault::Keeper(KeepFault::Memory),
        PlanFault::TagTooLarge(path) => {
            if path.as_str() < heavy {
                BeginFault::TagTooLarge(path)
            } else {
                too_large(alloc, heavy)
            }
        }
        _ => too_large(alloc, heavy),
    }
}

/// The fault that the file with this path is too large, unless memory runs out.
fn too_large(alloc: Global, path: &str) -> BeginFault
    ensures { (result ≡ BeginFault.Keeper KeepFault.Memory)
        ⊎ (result ≡ BeginFault.TagTooLarge path.now) }
{
    match BagPath::parse(alloc, path) {
        Ok(path) => BeginFault::TagTooLarge(path),
        Err(_) => BeginFault::Keeper(KeepFault::Memory),
    }
}

/// The first path of a file with too many octets.
fn first_heavy(files: &[(String, Vec<u8>)]) -> Option<&str>
    ensures { MatchOption result ((path : List ℕ) → ¬ IsHeavyAt (given_in files.now) path)
        (λ path. IsFirstPath (IsHeavyAt (given_in files.now)) path.now) }
{
    let mut least: Option<&str> = None;
    for file in files {
        if is_heavy(file.1.as_slice()) {
            let path = file.0.as_str();
            least = match least {
                Some(old) => Some(lesser(old, path)),
                None => Some(path),
            };
        }
    }
    least
}

/// Whether a file has too many octets.
fn is_heavy(octets: &[u8]) -> bool
    ensures { IsTrue result ↔ (LARGEST_TAG_FILE < length octets.now) }
{
    octets.len() as u64 > LARGEST_TAG_FILE
}

/// The lesser of two paths.
fn lesser<'a>(old: &'a str, path: &'a str) -> &'a str
    ensures { IsFirstPath (λ one. (one ≡ old.now) ⊎ (one ≡ path.now)) result.now }
{
    if old <= path { old } else { path }
}

/// The files as tag files. Those with too many octets are empty, so that a repeated path is found whatever the content
/// is.
fn placed(alloc: Global, files: &[(String, Vec<u8>)]) -> Result<TagSet, BeginFault>
    ensures placed { IfOk result (λ tags. NoneMisplaced (given_in files.now)
        × (tags ≡ light_tags (given_in files.now))) }
    ensures refused { IfErr result (IsRefusal (given_in files.now)) }
{
    let mut tags = TagSet::new(alloc);
    for (i, file) in files.iter().enumerate() {
        if let Err(fault) = add_lightened(alloc, &mut tags, file) {
            return Err(fault_at(i, fault));
        }
    }
    Ok(tags)
}

/// Why the file at this place isn't a tag file.
fn fault_at(i: usize, fault: TagSetFault) -> BeginFault
    ensures { ((fault ≡ TagSetFault.Memory) × (result ≡ BeginFault.Keeper KeepFault.Memory))
        ⊎ ((fault ≢ TagSetFault.Memory) × (result ≡ BeginFault.TagPath i)) }
{
    match fault {
        TagSetFault::Memory => BeginFault::Keeper(KeepFault::Memory),
        _ => BeginFault::TagPath(i),
    }
}

/// Adds the file to the tag files. A file with too many octets is added empty.
fn add_lightened(
    alloc: Global,
    tags: &mut TagSet,
    file: &(String, Vec<u8>),
) -> Result<(), TagSetFault>
    ensures placed { OnOk result (IsPlaced tags.old (string_bytes file.now.0)
        × (tags.new ≡ with_file tags.old (string_bytes file.now.0) (emptied file.now.1.items))) }
    ensures refused { IfErr result (λ fault. fault ≢ TagSetFault.Memory
        → ¬ IsPlaced tags.old (string_bytes file.now.0)) }
{
    let path = file.0.as_str();
    let body = lightened(alloc, file.1.as_slice())?;
    tags.add(path, body)
}

/// A copy of the octets, or nothing if there are too many.
fn lightened(alloc: Global, octets: &[u8]) -> Result<Vec<u8>, TagSetFault>
    ensures body { IfOk result (λ body. body.items ≡ emptied octets.now) }
    ensures refused { IfErr result (λ fault. fault ≡ TagSetFault.Memory) }
{
    if is_heavy(octets) {
        return Ok(Vec::new(alloc));
    }
    match octets.to_vec(alloc) {
        Ok(body) => Ok(body),
        Err(_) => Err(TagSetFault::Memory),
    }
}

impl<K: Keeper> Receiver<K> {
    /// Opens a transfer with these tag files, given in any order as paths in plain text with their octets.
    ///
    /// They are all files of the bag except its payload (RFC 8493 section 2), and are judged as far as that is possible
    /// without the payload.
    ///
    /// # Errors
    ///
    /// A [`BeginFault`]. Nothing changes then. If the keeper has no answer, however, a crash may leave the transfer
    /// open, with all these tag files and no payload files.
    pub fn begin(
        &mut self,
        alloc: Global,
        name: &str,
        files: &[(String, Vec<u8>)],
    ) -> Result<Begun, BeginFault>
        ensures { IsBeginning K.holds K.may_leave K.clean K.failures name.now self.old self.new
            (given_in files.now) result }
    {
        if !is_name(name) {
            return Err(BeginFault::BadName);
        }
        let (tags, plan) = open(alloc, files)?;
        self.open_as(alloc, name, &tags, plan)
    }

    /// Opens a transfer with tag files that have this plan, unless its name is used.
    pub(crate) fn open_as(
        &mut self,
        alloc: Global,
        name: &str,
        tags: &TagSet,
        plan: Plan,
    ) -> Result<Begun, BeginFault>
        requires { IsPlanOf tags.now plan }
        ensures judged { (given : Files) → IsTransferName name.now → AreTaken given tags.now
            → IsAnswerTo result name.now given }
        ensures begun { (given : Files) → IsTransferName name.now → AreTaken given tags.now
            → Does K.holds K.may_leave K.clean self.old self.new (BeginStep result name.now given) }
        ensures store { CountsIf ((fault : StoreFault)
            × IsErrOf result (BeginFault.Keeper (KeepFault.Store fault)))
            (K.failures self.old.keeper) (K.failures self.new.keeper) }
    {
        match self.keeper.tags(alloc, name)? {
            Some(held) => {
                if held.is_same(tags) {
                    Ok(Begun::Again)
                } else {
                    Err(BeginFault::Differs)
                }
            }
            None => {
                self.keeper.begin(alloc, name, tags)?;
                // If there is no memory for the plan, it is made again when it is needed.
                let _ = keep_plan(alloc, &mut self.plans, name, plan);
                Ok(Begun::New)
            }
        }
    }
}
