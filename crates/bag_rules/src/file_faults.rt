//! Compares the files of a bag with what its tag files list (RFC 8493 section 3).
ghost use Rattle.std.specs.Prelude.{true, false, ◌≡◌, ◌<◌, ℕ, List, IfOk, IfErr, IsErrOf, MatchResult, OnOk, length};
ghost use Rattle.bag_digest.specs.Algorithm.{has};
ghost use Rattle.bag_digest.specs.declared.algorithm.Alg.{Alg};
ghost use Rattle.bag_digest.specs.declared.algorithm.AlgSet.{AlgSet};
ghost use Rattle.bag_digest.specs.declared.buffers.TheConstants.{FRONT};
ghost use Rattle.bag_rules.specs.Bags.{Bag, IsBagOf, version_of};
ghost use Rattle.bag_rules.specs.FileBatchInside.{AreRead, Covers};
ghost use Rattle.bag_rules.specs.Faults.{kinds_of_files};
ghost use Rattle.bag_rules.specs.HasFault.{HasFaultOf};
ghost use Rattle.bag_rules.specs.FilesInside.{IsFaultBy, IsFaultIn, IsFileFault, IsFileUnlisted, IsLongRead, IsOtherDigest, IsOtherLength, IsSizeOf, OfSome, payload_length};
ghost use Rattle.bag_rules.specs.KeptInside.{AreKept, HasSums};
ghost use Rattle.bag_rules.specs.Limits.{FileStops, FirstStops, NoneStops, Stopped};
ghost use Rattle.bag_path.specs.Paths.{is_payload};
ghost use Rattle.bag_rules.specs.OctetsRead.{Extends, IsBagBy, KeepsListed, KeepsOnly, KeepsTagAlgs, KnownOctets, KnowsFrom};
ghost use Rattle.bag_rules.specs.ReadingInside.{Adds, AreTextsOf};
ghost use Rattle.bag_rules.specs.Trees.{HasFileAt, Shown, UsesTree, paths_in};
ghost use Rattle.bag_rules.specs.Wants.{CoversWant};
ghost use Rattle.bag_rules.specs.WantsInside.{GivesPayload};
ghost use Rattle.bag_rules.specs.declared.outcome.CheckFault.{CheckFault};

use crate::fault::Fault;
use crate::file_batch::{FileBatch, batch_at};
use crate::listing_faults::{add_fetch_unlisted, add_missing};
use crate::open_tree::OpenTree;
use crate::outcome::CheckFault;
use crate::oxum_faults::{PayloadSize, add_wrong_oxum};
use crate::requirements::Requirements;
use crate::tag_sums::TagSums;
use crate::tag_texts::TagTexts;
use crate::tree::Tree;
use crate::unlisted::unlisted_in;
use crate::want::Want;
use bag_digest::{Alg, Digests, Sums};
use bag_path::{BagPath, Version};
use bag_tags::Manifest;
use std::alloc::{AllocError, Global};

/// Adds what is wrong with the files of a bag whose form is right. Each file is read once.
pub(crate) fn add_file_faults<T: OpenTree>(
    alloc: Global,
    buffer: &mut [u8],
    tree: &mut T,
    version: Version,
    texts: &TagTexts,
    kept: &TagSums,
    faults: &mut Vec<Fault>,
) -> Result<(), CheckFault>
    requires room { length buffer.old ≡ FRONT }
    requires kept { AreKept (T.shown tree.old) kept.now }
    ensures added { (bag : Bag) → IsBagOf (T.shown tree.old) bag → version_of bag ≡ version
        → AreTextsOf (length bag.files) bag texts.now
        → OnOk result (Adds faults.old.items faults.new.items (HasFaultOf bag kinds_of_files)) }
    ensures limits { (bag : Bag) → IsBagOf (T.shown tree.old) bag
        → AreTextsOf (length bag.files) bag texts.now
        → MatchResult result (λ done. NoneStops bag (FileStops bag))
        (Stopped (FirstStops bag (FileStops bag))) }
    ensures some { (known : KnownOctets) → KnowsFrom 0 (T.shown tree.old) kept.now known
        → KeepsOnly (T.shown tree.old) kept.now (λ path. is_payload path ≡ false)
        → KeepsTagAlgs (T.shown tree.old) kept.now
        → ((bag : Bag) → IsBagBy (T.shown tree.old) known bag
        → (version_of bag ≡ version) × AreTextsOf (length bag.files) bag texts.now)
        → OnOk result ((found : KnownOctets) × Extends known found
        × ((bag : Bag) → IsBagBy (T.shown tree.old) found bag
        → Adds faults.old.items faults.new.items (HasFaultOf bag kinds_of_files))) }
    ensures tree { UsesTree T.shown T.failures T.sure tree.old tree.new
        (IsErrOf result CheckFault.Tree) }
{
    add_missing(tree, &texts.manifests, faults)?;
    add_fetch_unlisted(version, texts, faults)?;
    let wants = Requirements::new(alloc, version, &texts.manifests, texts.fetch_lines())?;
    let size = read_files(alloc, buffer, tree, &wants, kept, faults)?;
    add_wrong_oxum(texts, size, faults)?;
    Ok(())
}

/// Reads the payload files and the listed files by path, and adds what is wrong with each. Returns the size of the
/// payload.
fn read_files<T: OpenTree>(
    alloc: Global,
    buffer: &mut [u8],
    tree: &mut T,
    wants: &Requirements<'_>,
    kept: &TagSums,
    faults: &mut Vec<Fault>,
) -> Result<PayloadSize, CheckFault>
    requires room { length buffer.old ≡ FRONT }
    requires ready { AreKept (T.shown tree.old) kept.now × GivesPayload wants.now }
    ensures read { (bag : Bag) → IsBagOf (T.shown tree.old) bag
        → IfOk result (λ size. IsSizeOf bag.files size
        × Adds faults.old.items faults.new.items (IsFileFault bag wants.now)) }
    ensures limits { (bag : Bag) → IsBagOf (T.shown tree.old) bag
        → MatchResult result (λ done. NoneStops bag (IsLongRead wants.now.manifests.now))
        (Stopped (FirstStops bag (IsLongRead wants.now.manifests.now))) }
    ensures some { (known : KnownOctets) → KnowsFrom 0 (T.shown tree.old) kept.now known
        → KeepsListed (T.shown tree.old) wants.now.manifests.now kept.now
        → IfOk result (λ size. (found : KnownOctets) × Extends known found
        × ((bag : Bag) → IsBagBy (T.shown tree.old) found bag → IsSizeOf bag.files size
        × Adds faults.old.items faults.new.items (IsFileFault bag wants.now))) }
    ensures tree { UsesTree T.shown T.failures T.sure tree.old tree.new
        (IsErrOf result CheckFault.Tree) }
{
    let mut size = PayloadSize {
        octets: 0,
        streams: 0,
    };
    let mut batch = FileBatch::new(alloc, 0);
    for i in 0..tree.count() {
        batch = batch_at(alloc, buffer, tree, i, wants, kept, batch)?;
        if let Some(length) = add_faults_at(tree, i, wants, &batch, faults)? {
            size.octets += u128::from(length);
            size.streams += 1;
        }
    }
    Ok(size)
}

/// Adds what is wrong with one file of the batch, if it is a payload file or is listed. Returns the length of a payload
/// file in octets.
fn add_faults_at<T: Tree>(
    tree: &T,
    i: usize,
    wants: &Requirements<'_>,
    batch: &FileBatch,
    faults: &mut Vec<Fault>,
) -> Result<Option<u64>, AllocError>
    requires inside { i < length (paths_in (T.shown tree.now)) }
    requires ready { Covers batch.now i × GivesPayload wants.now }
    ensures { (shown : Shown) → paths_in shown ≡ paths_in (T.shown tree.now)
        → AreRead shown wants.now batch.now → (path octets : List ℕ)
        → HasFileAt shown i path octets → IfOk result (λ n. (n ≡ payload_length path octets)
        × Adds faults.old.items faults.new.items (IsFaultIn wants.now path octets)) }
{
    let path = tree.path(i).clone()?;
    match batch.sums(i) {
        None => Ok(None),
        Some(sums) => {
            add_faults_of(wants.version, &wants.of(&path), &sums, faults)?;
            Ok(path.is_payload().then_some(sums.length))
        }
    }
}

/// Adds what is wrong with a file of this length and with these digests.
fn add_faults_of(
    version: Version,
    want: &Want<'_>,
    sums: &Sums,
    faults: &mut Vec<Fault>,
) -> Result<(), AllocError>
    ensures { (set : AlgSet) (octets : List ℕ) → HasSums sums.now set octets
        → CoversWant set want.now → OnOk result (Adds faults.old.items faults.new.items
        (IsFaultBy version want.now.manifests.now want.now.lengths.now
        want.now.path.now octets)) }
{
    add_unlisted(version, want.manifests, want.path, faults)?;
    if want.test(sums).is_ok() {
        return Ok(());
    }
    add_other_lengths(want, sums.length, faults)?;
    add_other_digests(want, &sums.digests, faults)
}

/// Adds a fault for each payload manifest that is reported because it doesn't list this file, if it is a payload file.
pub(crate) fn add_unlisted(
    version: Version,
    manifests: &[Manifest],
    path: &BagPath,
    faults: &mut Vec<Fault>,
) -> Result<(), AllocError>
    ensures { OnOk result (Adds faults.old.items faults.new.items
        (IsFileUnlisted version manifests.now path.now)) }
{
    if !path.is_payload() {
        return Ok(());
    }
    let unlisted = unlisted_in(version, manifests, path);
    for manifest in Alg::ALL {
        if unlisted.has(manifest) {
            let path = path.clone()?;
            faults.push(Fault::Unlisted { manifest, path })?;
        }
    }
    Ok(())
}

/// Adds a fault for each line of `fetch.txt` that gives the file another length.
fn add_other_lengths(want: &Want<'_>, found: u64, faults: &mut Vec<Fault>) -> Result<(), AllocError>
    ensures { OnOk result (Adds faults.old.items faults.new.items
        (OfSome want.now.lengths.now (IsOtherLength want.now.path.now found))) }
{
    for given in want.lengths {
        if given.length != found {
            let path = want.path.clone()?;
            let line = given.line;
            faults.push(Fault::FetchLength { line, path })?;
        }
    }
    Ok(())
}

/// Adds a fault for each manifest that lists another digest for the file.
pub(crate) fn add_other_digests(
    want: &Want<'_>,
    digests: &Digests,
    faults: &mut Vec<Fault>,
) -> Result<(), AllocError>
    ensures { OnOk result (Adds faults.old.items faults.new.items
        (OfSome want.now.manifests.now (IsOtherDigest want.now.path.now digests.now))) }
{
    for manifest in want.manifests {
        if let Some(digest) = manifest.get(want.path) {
            if !digests.contains(digest) {
                let path = want.path.clone()?;
                let manifest = manifest.name();
                faults.push(Fault::WrongDigest { manifest, path })?;
            }
        }
    }
    Ok(())
}
