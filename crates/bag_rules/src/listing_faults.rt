//! Compares what the tag files list with the files that are there, and the tag files with each other (RFC 8493 sections
//! 2.2.3 and 3).
ghost use Rattle.std.specs.Prelude.{◌≡◌, ◌∷◌, [], IfErr, OnOk, length};
ghost use Rattle.bag_rules.specs.Bags.{Bag, version_of};
ghost use Rattle.bag_rules.specs.Faults.{kind_of_unlisted_entries};
ghost use Rattle.bag_rules.specs.HasFault.{HasFaultOf};
ghost use Rattle.bag_rules.specs.FilesInside.{IsEntryUnlisted, IsMissing, IsMissingBy, IsPairMissing};
ghost use Rattle.bag_rules.specs.ReadingInside.{Adds, AreTextsOf};
ghost use Rattle.bag_rules.specs.Trees.{paths_in};

use crate::fault::Fault;
use crate::tag_texts::TagTexts;
use crate::tree::{Paths, find};
use crate::unlisted::unlisted_in;
use bag_digest::Alg;
use bag_path::{BagPath, Version};
use bag_tags::{Manifest, ManifestName, Pair};
use std::alloc::AllocError;

/// Adds a fault for each file that a manifest lists and that isn't there.
pub(crate) fn add_missing<T: Paths>(
    tree: &T,
    manifests: &[Manifest],
    faults: &mut Vec<Fault>,
) -> Result<(), AllocError>
    ensures { OnOk result (Adds faults.old.items faults.new.items
        (IsMissing (paths_in (T.shown tree.now)) manifests.now)) }
{
    for manifest in manifests {
        add_missing_by(tree, manifest, faults)?;
    }
    Ok(())
}

/// Adds a fault for each file that this manifest lists and that isn't there.
pub(crate) fn add_missing_by<T: Paths>(
    tree: &T,
    manifest: &Manifest,
    faults: &mut Vec<Fault>,
) -> Result<(), AllocError>
    ensures { OnOk result (Adds faults.old.items faults.new.items
        (IsMissingBy (paths_in (T.shown tree.now)) manifest.now)) }
{
    let name = manifest.name();
    for pair in manifest.pairs() {
        add_missing_pair(tree, name, pair, faults)?;
    }
    Ok(())
}

/// Adds a fault for the file of one pair if it isn't there.
fn add_missing_pair<T: Paths>(
    tree: &T,
    manifest: ManifestName,
    pair: &Pair,
    faults: &mut Vec<Fault>,
) -> Result<(), AllocError>
    ensures { OnOk result (Adds faults.old.items faults.new.items
        (IsPairMissing (paths_in (T.shown tree.now)) manifest pair.now.path)) }
{
    match find(tree, pair.path.as_str()) {
        Some(_) => Ok(()),
        None => {
            let path = pair.path.clone()?;
            faults.push(Fault::Missing { manifest, path })?;
            Ok(())
        }
    }
}

/// Adds a fault for each entry of `fetch.txt` that isn't listed as required.
pub(crate) fn add_fetch_unlisted(
    version: Version,
    texts: &TagTexts,
    faults: &mut Vec<Fault>,
) -> Result<(), AllocError>
    ensures { (bag : Bag) → version_of bag ≡ version
        → AreTextsOf (length bag.files) bag texts.now
        → OnOk result (Adds faults.old.items faults.new.items
        (HasFaultOf bag kind_of_unlisted_entries)) }
{
    for line in texts.fetch_lines() {
        add_entry_unlisted(version, &texts.manifests, line.entry.path(), faults)?;
    }
    Ok(())
}

/// Adds a fault for each payload manifest that is reported because it doesn't list the path of this entry.
fn add_entry_unlisted(
    version: Version,
    manifests: &[Manifest],
    path: &BagPath,
    faults: &mut Vec<Fault>,
) -> Result<(), AllocError>
    ensures { OnOk result (Adds faults.old.items faults.new.items
        (IsEntryUnlisted version manifests.now path.now)) }
{
    let unlisted = unlisted_in(version, manifests, path);
    for manifest in Alg::ALL {
        if unlisted.has(manifest) {
            let path = path.clone()?;
            faults.push(Fault::FetchNotListed { manifest, path })?;
        }
    }
    Ok(())
}
