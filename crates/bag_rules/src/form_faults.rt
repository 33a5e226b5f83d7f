//! Checks the form of a bag, except for the lines of its tag files (RFC 8493 section 2).
ghost use Rattle.std.specs.Prelude.{◌≡◌, ◌<◌, ◌↔◌, ◌∷◌, [], IfErr, IsTrue, OnOk, Contains, length};
ghost use Rattle.bag_digest.specs.declared.algorithm.Alg.{Alg};
ghost use Rattle.bag_tags.specs.declared.listing.Kind.TheVariants.{Payload};
ghost use Rattle.bag_rules.specs.Bags.{Bag, HasFilesOf};
ghost use Rattle.bag_tags.specs.Names.{manifest_file};
ghost use Rattle.bag_rules.specs.Faults.{kinds_beside_lines, kinds_of_oxum_form};
ghost use Rattle.bag_rules.specs.HasFault.{HasFaultOf};
ghost use Rattle.bag_rules.specs.FormInside.{IsBadOxum, IsOxumFault, IsUnlistedBy, IsUnlistedManifest};
ghost use Rattle.bag_rules.specs.ReadingInside.{Adds, AreTextsOf};
ghost use Rattle.bag_rules.specs.Trees.{paths_in};

use crate::fault::Fault;
use crate::tag_texts::TagTexts;
use crate::tree::Paths;
use bag_path::BagPath;
use bag_tags::{Element, Kind, Manifest, Oxum, TagName};
use std::alloc::AllocError;

/// Adds what is wrong with the form of a bag whose tag files were read, except for their lines.
pub(crate) fn add_form_faults<T: Paths>(
    tree: &T,
    texts: &TagTexts,
    faults: &mut Vec<Fault>,
) -> Result<(), AllocError>
    ensures { (bag : Bag) → HasFilesOf (T.shown tree.now) bag
        → AreTextsOf (length bag.files) bag texts.now
        → OnOk result (Adds faults.old.items faults.new.items (HasFaultOf bag kinds_beside_lines)) }
{
    if !tree.has_payload_dir() {
        faults.push(Fault::NoPayloadDir)?;
    }
    if !has_payload_manifest(tree) {
        faults.push(Fault::NoManifest)?;
    }
    add_unlisted_manifests(tree, &texts.manifests, faults)?;
    add_oxum_faults(texts, faults)
}

/// Whether there is a payload manifest.
fn has_payload_manifest<T: Paths>(tree: &T) -> bool
    ensures { IsTrue result ↔ ((alg : Alg)
        × Contains (paths_in (T.shown tree.now)) (manifest_file Payload alg)) }
{
    for i in 0..tree.count() {
        if let TagName::PayloadManifest(_) = TagName::of(tree.path(i)) {
            return true;
        }
    }
    false
}

/// Adds a fault for each payload manifest that a tag manifest doesn't list.
fn add_unlisted_manifests<T: Paths>(
    tree: &T,
    manifests: &[Manifest],
    faults: &mut Vec<Fault>,
) -> Result<(), AllocError>
    ensures { OnOk result (Adds faults.old.items faults.new.items
        (IsUnlistedManifest (paths_in (T.shown tree.now)) manifests.now)) }
{
    for i in 0..tree.count() {
        add_unlisted_by(tree.path(i), manifests, faults)?;
    }
    Ok(())
}

/// Adds a fault for each tag manifest that doesn't list this file, if it is a payload manifest.
fn add_unlisted_by(
    path: &BagPath,
    manifests: &[Manifest],
    faults: &mut Vec<Fault>,
) -> Result<(), AllocError>
    ensures { OnOk result (Adds faults.old.items faults.new.items
        (IsUnlistedBy manifests.now path.now)) }
{
    let TagName::PayloadManifest(alg) = TagName::of(path) else {
        return Ok(());
    };
    for manifest in manifests {
        if manifest.kind() == Kind::Tag && manifest.get(path).is_none() {
            let fault = Fault::ManifestNotListed {
                tag_manifest: manifest.alg(),
                manifest: alg,
            };
            faults.push(fault)?;
        }
    }
    Ok(())
}

/// Adds what is wrong with the form of `Payload-Oxum`.
fn add_oxum_faults(texts: &TagTexts, faults: &mut Vec<Fault>) -> Result<(), AllocError>
    ensures { (bag : Bag) → AreTextsOf (length bag.files) bag texts.now
        → OnOk result (Adds faults.old.items faults.new.items (HasFaultOf bag kinds_of_oxum_form)) }
{
    match &texts.info {
        Some(info) => add_element_faults(info.elements(), faults),
        None => Ok(()),
    }
}

/// Adds what is wrong with the form of `Payload-Oxum` among these elements.
fn add_element_faults(elements: &[Element], faults: &mut Vec<Fault>) -> Result<(), AllocError>
    ensures { OnOk result (Adds faults.old.items faults.new.items
        (IsOxumFault elements.now)) }
{
    if elements.iter().any(is_bad_oxum) {
        faults.push(Fault::OxumForm)?;
    }
    if elements.iter().filter(|element| element.is_oxum()).count() > 1 {
        faults.push(Fault::OxumTwice)?;
    }
    Ok(())
}

/// Whether the element is a `Payload-Oxum` that can't be read.
fn is_bad_oxum(element: &Element) -> bool
    ensures { IsTrue result ↔ IsBadOxum element.now }
{
    element.is_oxum() && Oxum::parse(element.value()).is_none()
}
