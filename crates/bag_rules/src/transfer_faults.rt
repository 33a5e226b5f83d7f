//! Finds what is wrong with the bag of a transfer because of the payload files that it holds.
ghost use Rattle.std.specs.Prelude.{◌≡◌, ◌↔◌, Contains, IsTrue, OnOk, length};
ghost use Rattle.std.specs.List.{sum_by};
ghost use Rattle.bag_rules.specs.Faults.{kinds_of_files};
ghost use Rattle.bag_rules.specs.Files.{AreTagFiles, Files};
ghost use Rattle.bag_rules.specs.FilesInside.{IsMissingBy, IsPairMissing, IsPayloadMissing, OfSome};
ghost use Rattle.bag_rules.specs.HasFault.{HasFaultOf};
ghost use Rattle.bag_rules.specs.Opening.{Opens};
ghost use Rattle.bag_rules.specs.Plans.{item_paths, sizes_of};
ghost use Rattle.bag_rules.specs.ReadingInside.{Adds, AreTextsOf};
ghost use Rattle.bag_rules.specs.Transfers.{AreHeldFor, held_bag, tag_bag};
ghost use Rattle.bag_rules.specs.Trees.{AreRising};
ghost use Rattle.bag_rules.specs.declared.plan.ItemSize.{ItemSize};

use crate::fault::Fault;
use crate::oxum_faults::{PayloadSize, add_wrong_oxum};
use crate::plan::ItemSize;
use crate::tag_texts::TagTexts;
use bag_path::BagPath;
use bag_tags::{Kind, Manifest, ManifestName, Pair};
use std::alloc::AllocError;

/// Adds the faults of the bag of a transfer that could be opened and holds payload files of these sizes, by path. These
/// can only be files that are missing and a wrong size of the payload.
pub(crate) fn add_item_faults(
    texts: &TagTexts,
    sizes: &[ItemSize],
    faults: &mut Vec<Fault>,
) -> Result<(), AllocError>
    ensures { (tags items : Files) → AreTagFiles tags → Opens tags
        → AreTextsOf (length tags) (tag_bag tags) texts.now → AreHeldFor tags items
        → sizes.now ≡ sizes_of items → OnOk result (Adds faults.old.items faults.new.items
        (HasFaultOf (held_bag tags items) kinds_of_files)) }
{
    add_missing_items(&texts.manifests, sizes, faults)?;
    add_wrong_oxum(texts, payload_size(sizes), faults)
}

/// Adds a fault for each file that a payload manifest lists and that isn't there.
fn add_missing_items(
    manifests: &[Manifest],
    sizes: &[ItemSize],
    faults: &mut Vec<Fault>,
) -> Result<(), AllocError>
    ensures { AreRising (item_paths sizes.now) → OnOk result (Adds faults.old.items faults.new.items
        (OfSome manifests.now (IsPayloadMissing (item_paths sizes.now)))) }
{
    for manifest in manifests {
        if manifest.kind() == Kind::Payload {
            add_missing_by(manifest, sizes, faults)?;
        }
    }
    Ok(())
}

/// Adds a fault for each file that this manifest lists and that isn't there.
fn add_missing_by(
    manifest: &Manifest,
    sizes: &[ItemSize],
    faults: &mut Vec<Fault>,
) -> Result<(), AllocError>
    ensures { AreRising (item_paths sizes.now) → OnOk result (Adds faults.old.items faults.new.items
        (IsMissingBy (item_paths sizes.now) manifest.now)) }
{
    let name = manifest.name();
    for pair in manifest.pairs() {
        add_missing_pair(name, pair, sizes, faults)?;
    }
    Ok(())
}

/// Adds a fault for the file of one pair if it isn't there.
fn add_missing_pair(
    manifest: ManifestName,
    pair: &Pair,
    sizes: &[ItemSize],
    faults: &mut Vec<Fault>,
) -> Result<(), AllocError>
    ensures { AreRising (item_paths sizes.now) → OnOk result (Adds faults.old.items faults.new.items
        (IsPairMissing (item_paths sizes.now) manifest pair.now.path)) }
{
    if !is_held(sizes, &pair.path) {
        let path = pair.path.clone()?;
        faults.push(Fault::Missing { manifest, path })?;
    }
    Ok(())
}

/// Whether one of these files, which are in the order of their paths, has this path.
fn is_held(sizes: &[ItemSize], path: &BagPath) -> bool
    ensures { AreRising (item_paths sizes.now)
        → IsTrue result ↔ Contains (item_paths sizes.now) path.now }
{
    sizes.binary_search_by(|size| size.path.cmp(path)).is_ok()
}

/// How many octets these files have in total, and how many files there are.
fn payload_size(sizes: &[ItemSize]) -> PayloadSize
    ensures octets { result.octets ≡ sum_by (λ (size : ItemSize). size.octets) sizes.now }
    ensures streams { result.streams ≡ length sizes.now }
{
    let mut octets = 0;
    for size in sizes {
        octets += u128::from(size.octets);
    }
    PayloadSize {
        octets,
        streams: sizes.len() as u64,
    }
}
