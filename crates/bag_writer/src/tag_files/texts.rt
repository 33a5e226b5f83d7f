//! Makes the texts of the tag files from the files that they list (RFC 8493 sections 2.1.3, 2.2.1, 2.2.2 and 2.2.3).
ghost use Rattle.std.specs.Prelude.{◌≡◌, ◌<◌, ◌^◌, ◌++◌, ◌∷◌, [], IfOk, OnOk, Some, codes, true};
ghost use Rattle.std.specs.List.{flat_map, sum_by};
ghost use Rattle.bag_digest.specs.Algorithm.{has};
ghost use Rattle.bag_digest.specs.Hash.{digest_in};
ghost use Rattle.bag_digest.specs.declared.algorithm.AlgSet.{AlgSet};
ghost use Rattle.bag_digest.specs.declared.digest.Digest.{Digest};
ghost use Rattle.bag_tags.specs.FetchEntries.{written_entry};
ghost use Rattle.bag_tags.specs.Infos.{element, written_info};
ghost use Rattle.bag_tags.specs.Listings.{pair, with_pair, Admits};
ghost use Rattle.bag_tags.specs.ManifestWriting.{written_manifest};
ghost use Rattle.bag_tags.specs.Oxums.{written_oxum};
ghost use Rattle.bag_rules.specs.Files.{Files};
ghost use Rattle.bag_writer.specs.Steps.{AreItemsOf};
ghost use Rattle.bag_writer.specs.TagWriting.{CanBeFetched, CanBeListed};
ghost use Rattle.bag_writer.specs.WrittenBags.{entry_of, pairs_by};
ghost use Rattle.bag_writer.specs.declared.item.Item.{Item};

use crate::item::Item;
use crate::spec::Hole;
use bag_digest::Alg;
use bag_tags::{
    Element, ElementFault, Fetch, FetchEntry, FetchEntryFault, Info, Kind, Manifest, OXUM_LABEL,
    Oxum, PushFault, write_fetch, write_info, write_manifest,
};
use std::alloc::{AllocError, Global};

/// How many octets these files have in total.
pub(crate) fn total_octets(items: &[Item]) -> u64
    requires { sum_by (λ (item : Item). item.sums.length) items.now < 2 ^ 64 }
    ensures { result ≡ sum_by (λ (item : Item). item.sums.length) items.now }
{
    items.iter().map(|item| item.sums.length).sum()
}

/// The text of `bag-info.txt`: the elements that were given, and then the `Payload-Oxum`.
pub(crate) fn info_text(alloc: Global, info: &Info, oxum: Oxum) -> Result<Vec<u8>, AllocError>
    ensures { IfOk result (λ octets. octets.items ≡ written_info (info.now
        ++ element (codes "Payload-Oxum") (written_oxum oxum.octets oxum.streams) ∷ [])) }
{
    let mut octets = write_info(alloc, info)?;
    let mut last = Info::new(alloc);
    last.push(oxum_element(alloc, oxum)?)?;
    octets.extend_from_slice(write_info(alloc, &last)?.as_slice())?;
    Ok(octets)
}

/// The element that gives an Oxum.
fn oxum_element(alloc: Global, oxum: Oxum) -> Result<Element, AllocError>
    ensures { IfOk result (λ made. made
        ≡ element (codes "Payload-Oxum") (written_oxum oxum.octets oxum.streams)) }
{
    let value = oxum.to_text(alloc)?;
    match Element::new(alloc, OXUM_LABEL, value.as_str()) {
        Ok(element) => Ok(element),
        Err(ElementFault::BadLabel) => unreachable!(),
        Err(ElementFault::BadValue) => unreachable!(),
        Err(ElementFault::Memory) => Err(AllocError),
    }
}

/// The text of `fetch.txt`: an entry for each hole, with the length of the file at its path.
pub(crate) fn fetch_text(
    alloc: Global,
    holes: &[Hole],
    items: &[Item],
) -> Result<Vec<u8>, AllocError>
    requires { (set : AlgSet) × (payload : Files) × AreItemsOf set items.now payload
        × CanBeFetched payload holes.now }
    ensures { (set : AlgSet) (payload : Files) → AreItemsOf set items.now payload
        → CanBeFetched payload holes.now
        → IfOk result (λ octets. octets.items
        ≡ flat_map (λ hole. written_entry (entry_of payload hole)) holes.now) }
{
    let mut fetch = Fetch::new(alloc);
    for hole in holes {
        fetch.push(fetch_entry(alloc, hole, items)?)?;
    }
    write_fetch(alloc, &fetch)
}

/// The entry of a hole, with the length of the file at its path.
fn fetch_entry(alloc: Global, hole: &Hole, items: &[Item]) -> Result<FetchEntry, AllocError>
    requires { (set : AlgSet) × (payload : Files) × AreItemsOf set items.now payload
        × CanBeFetched payload (hole.now ∷ []) }
    ensures { (set : AlgSet) (payload : Files) → AreItemsOf set items.now payload
        → CanBeFetched payload (hole.now ∷ [])
        → IfOk result (λ entry. entry ≡ entry_of payload hole.now) }
{
    let Ok(place) = items.binary_search_by(|item| item.path.cmp(&hole.path)) else {
        unreachable!();
    };
    let path = hole.path.clone()?;
    let length = Some(items[place].sums.length);
    match FetchEntry::new(alloc, hole.url.as_str(), length, path) {
        Ok(entry) => Ok(entry),
        Err(FetchEntryFault::BadUrl) => unreachable!(),
        Err(FetchEntryFault::NotPayload) => unreachable!(),
        Err(FetchEntryFault::Memory) => Err(AllocError),
    }
}

/// The text of a manifest that lists these files, each with its digest by the algorithm.
pub(crate) fn manifest_text(
    alloc: Global,
    kind: Kind,
    alg: Alg,
    items: &[Item],
) -> Result<Vec<u8>, AllocError>
    requires { (set : AlgSet) × (files : Files) × AreItemsOf set items.now files
        × (has set alg ≡ true) × CanBeListed kind files }
    ensures { (set : AlgSet) (files : Files) → AreItemsOf set items.now files → has set alg ≡ true
        → CanBeListed kind files
        → IfOk result (λ octets. octets.items ≡ written_manifest (pairs_by alg files)) }
{
    let mut manifest = Manifest::new(alloc, alg, kind);
    for item in items {
        list_item(&mut manifest, item)?;
    }
    write_manifest(alloc, &manifest)
}

/// Adds one more file to the list of a manifest.
fn list_item(manifest: &mut Manifest, item: &Item) -> Result<(), AllocError>
    requires { (digest : Digest) × (digest_in item.now.sums.digests manifest.old.alg ≡ Some digest)
        × Admits manifest.old item.now.path digest }
    ensures { OnOk result ((digest : Digest)
        → digest_in item.now.sums.digests manifest.old.alg ≡ Some digest
        → manifest.new ≡ with_pair manifest.old (pair item.now.path digest)) }
{
    let Some(digest) = item.sums.digests.get(manifest.alg()) else {
        unreachable!();
    };
    let path = item.path.clone()?;
    match manifest.push(path, digest) {
        Ok(()) => Ok(()),
        Err(PushFault::Memory) => Err(AllocError),
        Err(_) => unreachable!(),
    }
}
