//! Writes the tag files, after the payload.
ghost use Rattle.std.specs.Prelude.{◌≡◌, ◌≢◌, ◌∷◌, [], IfErr, IfOk, IsErrOf, MatchResult, OnOk, false, map, true};
ghost use Rattle.std.specs.Result.{result_err};
ghost use Rattle.bag_digest.specs.Algorithm.{has};
ghost use Rattle.bag_digest.specs.declared.algorithm.AlgSet.{AlgSet};
ghost use Rattle.bag_tags.specs.declared.listing.Kind.TheVariants.{Payload, Tag};
ghost use Rattle.bag_rules.specs.Files.{Files};
ghost use Rattle.bag_rules.specs.declared.limits.TheConstants.{LARGEST_TAG_FILE};
ghost use Rattle.bag_writer.specs.Sinks.{UsesClosedSink};
ghost use Rattle.bag_writer.specs.Steps.{AreItemsOf, ArePart, AreWhole, HasPayloadAlone, IsWritable, NamesLong};
ghost use Rattle.bag_writer.specs.TagWriting.{AddsItems, CanBeFetched, CanBeListed, WritesFiles};
ghost use Rattle.bag_writer.specs.WrittenBags.{algs_in, bagit_file, fetch_files, info_file, listed_tags, manifest_of, tag_files};
ghost use Rattle.bag_writer.specs.Writing.{HasLongFile, IsMetLater, oxum_of};
ghost use Rattle.bag_writer.specs.declared.too_large.Large.{Large};
ghost use Rattle.bag_writer.specs.declared.write_fault.WriteFault.{WriteFault};

use crate::item::Item;
use crate::sink::Sink;
use crate::spec::Spec;
use crate::write_fault::WriteFault;
use bag_digest::{Alg, AlgSet};
use bag_tags::{Kind, Oxum, write_declaration};
use std::alloc::Global;
use tag_file::{manifest_path, tag_path, write_listed, write_whole};
use texts::{fetch_text, info_text, manifest_text, total_octets};

pub(crate) mod tag_file;
pub(crate) mod texts;

/// Writes the tag files of a payload that was written, and returns its Oxum.
///
/// # Errors
///
/// `Sink` or `Memory` if the sink failed or memory ran out; `TooLarge` if a tag file has more than 16,777,216 octets.
pub(crate) fn write_tag_files<S: Sink>(
    alloc: Global,
    spec: &Spec,
    items: &[Item],
    sink: &mut S,
) -> Result<Oxum, WriteFault>
    requires payload { (payload : Files) × AreItemsOf spec.now.algs items.now payload
        × IsWritable spec.now payload }
    ensures written { (payload : Files) → AreItemsOf spec.now.algs items.now payload
        → IsWritable spec.now payload → MatchResult result (λ oxum. (oxum ≡ oxum_of payload)
        × (¬ HasLongFile (tag_files spec.now payload) LARGEST_TAG_FILE)
        × AreWhole (tag_files spec.now payload) (S.stored sink.old) (S.stored sink.new))
        (λ fault. NamesLong Large.TagFile (tag_files spec.now payload) LARGEST_TAG_FILE fault
        × ArePart (tag_files spec.now payload) (S.stored sink.old) (S.stored sink.new)) }
    ensures err { IfErr result (λ fault. IsMetLater fault × (fault ≢ WriteFault.Tree)) }
    ensures sink { UsesClosedSink S.is_open S.failures S.sure sink.old sink.new
        ((S.is_open sink.old ≡ false) × HasPayloadAlone (S.stored sink.old))
        result (IsErrOf result WriteFault.Sink) }
{
    let oxum = Oxum {
        octets: total_octets(items),
        streams: items.len() as u64,
    };
    let listed = write_listed_files(alloc, spec, items, oxum, sink)?;
    write_tag_manifests(alloc, spec.algs, listed.as_slice(), sink)?;
    Ok(oxum)
}

/// Writes the tag files that tag manifests list: all but tag manifests.
fn write_listed_files<S: Sink>(
    alloc: Global,
    spec: &Spec,
    items: &[Item],
    oxum: Oxum,
    sink: &mut S,
) -> Result<Vec<Item>, WriteFault>
    requires { (payload : Files) × AreItemsOf spec.now.algs items.now payload
        × CanBeFetched payload spec.now.holes.items × CanBeListed Payload payload }
    ensures written { (payload : Files) → AreItemsOf spec.now.algs items.now payload
        → CanBeFetched payload spec.now.holes.items → CanBeListed Payload payload
        → oxum ≡ oxum_of payload
        → WritesFiles S.stored S.is_open S.failures S.sure
        (listed_tags spec.now payload) sink.old sink.new (result_err result) }
    ensures listed { (payload : Files) → AreItemsOf spec.now.algs items.now payload
        → CanBeFetched payload spec.now.holes.items → CanBeListed Payload payload
        → oxum ≡ oxum_of payload
        → IfOk result (λ listed.
        AreItemsOf spec.now.algs listed.items (listed_tags spec.now payload)) }
{
    let mut listed = Vec::new(alloc);
    write_info_file(alloc, spec, oxum, &mut listed, sink)?;
    write_bagit_file(alloc, spec.algs, &mut listed, sink)?;
    write_fetch_file(alloc, spec, items, &mut listed, sink)?;
    write_payload_manifests(alloc, spec.algs, items, &mut listed, sink)?;
    Ok(listed)
}

/// Writes `bag-info.txt`.
fn write_info_file<S: Sink>(
    alloc: Global,
    spec: &Spec,
    oxum: Oxum,
    listed: &mut Vec<Item>,
    sink: &mut S,
) -> Result<(), WriteFault>
    ensures written { (payload : Files) → oxum ≡ oxum_of payload
        → WritesFiles S.stored S.is_open S.failures S.sure
        (info_file spec.now payload ∷ []) sink.old sink.new (result_err result) }
    ensures listed { (payload : Files) → oxum ≡ oxum_of payload
        → OnOk result (AddsItems spec.now.algs (info_file spec.now payload ∷ [])
        listed.old.items listed.new.items) }
{
    let text = info_text(alloc, &spec.info, oxum)?;
    let path = tag_path(alloc, "bag-info.txt")?;
    write_listed(path, text.as_slice(), spec.algs, listed, sink)
}

/// Writes `bagit.txt`.
fn write_bagit_file<S: Sink>(
    alloc: Global,
    set: AlgSet,
    listed: &mut Vec<Item>,
    sink: &mut S,
) -> Result<(), WriteFault>
    ensures written { WritesFiles S.stored S.is_open S.failures S.sure
        (bagit_file ∷ []) sink.old sink.new (result_err result) }
    ensures listed { OnOk result (AddsItems set (bagit_file ∷ [])
        listed.old.items listed.new.items) }
{
    let text = write_declaration(alloc)?;
    let path = tag_path(alloc, "bagit.txt")?;
    write_listed(path, text.as_slice(), set, listed, sink)
}

/// Writes `fetch.txt` if there are holes.
fn write_fetch_file<S: Sink>(
    alloc: Global,
    spec: &Spec,
    items: &[Item],
    listed: &mut Vec<Item>,
    sink: &mut S,
) -> Result<(), WriteFault>
    requires { (payload : Files) × AreItemsOf spec.now.algs items.now payload
        × CanBeFetched payload spec.now.holes.items }
    ensures written { (payload : Files) → AreItemsOf spec.now.algs items.now payload
        → CanBeFetched payload spec.now.holes.items
        → WritesFiles S.stored S.is_open S.failures S.sure
        (fetch_files payload spec.now.holes.items) sink.old sink.new (result_err result) }
    ensures listed { (payload : Files) → AreItemsOf spec.now.algs items.now payload
        → CanBeFetched payload spec.now.holes.items
        → OnOk result (AddsItems spec.now.algs (fetch_files payload spec.now.holes.items)
        listed.old.items listed.new.items) }
{
    if spec.holes.is_empty() {
        return Ok(());
    }
    let text = fetch_text(alloc, spec.holes.as_slice(), items)?;
    let path = tag_path(alloc, "fetch.txt")?;
    write_listed(path, text.as_slice(), spec.algs, listed, sink)
}

/// Writes the payload manifests.
fn write_payload_manifests<S: Sink>(
    alloc: Global,
    set: AlgSet,
    items: &[Item],
    listed: &mut Vec<Item>,
    sink: &mut S,
) -> Result<(), WriteFault>
    requires { (payload : Files) × AreItemsOf set items.now payload × CanBeListed Payload payload }
    ensures written { (payload : Files) → AreItemsOf set items.now payload
        → CanBeListed Payload payload
        → WritesFiles S.stored S.is_open S.failures S.sure
        (map (manifest_of Payload payload) (algs_in set)) sink.old sink.new (result_err result) }
    ensures listed { (payload : Files) → AreItemsOf set items.now payload
        → CanBeListed Payload payload
        → OnOk result (AddsItems set (map (manifest_of Payload payload) (algs_in set))
        listed.old.items listed.new.items) }
{
    for alg in Alg::ALL {
        if set.has(alg) {
            write_payload_manifest(alloc, alg, set, items, listed, sink)?;
        }
    }
    Ok(())
}

/// Writes the payload manifest by this algorithm.
fn write_payload_manifest<S: Sink>(
    alloc: Global,
    alg: Alg,
    set: AlgSet,
    items: &[Item],
    listed: &mut Vec<Item>,
    sink: &mut S,
) -> Result<(), WriteFault>
    requires { (payload : Files) × AreItemsOf set items.now payload × (has set alg ≡ true)
        × CanBeListed Payload payload }
    ensures written { (payload : Files) → AreItemsOf set items.now payload → has set alg ≡ true
        → CanBeListed Payload payload
        → WritesFiles S.stored S.is_open S.failures S.sure
        (manifest_of Payload payload alg ∷ []) sink.old sink.new (result_err result) }
    ensures listed { (payload : Files) → AreItemsOf set items.now payload → has set alg ≡ true
        → CanBeListed Payload payload
        → OnOk result (AddsItems set (manifest_of Payload payload alg ∷ [])
        listed.old.items listed.new.items) }
{
    let text = manifest_text(alloc, Kind::Payload, alg, items)?;
    let path = manifest_path(alloc, Kind::Payload, alg)?;
    write_listed(path, text.as_slice(), set, listed, sink)
}

/// Writes the tag manifests, which list these tag files.
fn write_tag_manifests<S: Sink>(
    alloc: Global,
    set: AlgSet,
    listed: &[Item],
    sink: &mut S,
) -> Result<(), WriteFault>
    requires { (files : Files) × AreItemsOf set listed.now files × CanBeListed Tag files }
    ensures { (files : Files) → AreItemsOf set listed.now files → CanBeListed Tag files
        → WritesFiles S.stored S.is_open S.failures S.sure
        (map (manifest_of Tag files) (algs_in set)) sink.old sink.new (result_err result) }
{
    for alg in Alg::ALL {
        if set.has(alg) {
            write_tag_manifest(alloc, alg, listed, sink)?;
        }
    }
    Ok(())
}

/// Writes the tag manifest by this algorithm.
fn write_tag_manifest<S: Sink>(
    alloc: Global,
    alg: Alg,
    listed: &[Item],
    sink: &mut S,
) -> Result<(), WriteFault>
    requires { (set : AlgSet) × (files : Files) × AreItemsOf set listed.now files
        × (has set alg ≡ true) × CanBeListed Tag files }
    ensures { (set : AlgSet) (files : Files) → AreItemsOf set listed.now files → has set alg ≡ true
        → CanBeListed Tag files
        → WritesFiles S.stored S.is_open S.failures S.sure
        (manifest_of Tag files alg ∷ []) sink.old sink.new (result_err result) }
{
    let text = manifest_text(alloc, Kind::Tag, alg, listed)?;
    let path = manifest_path(alloc, Kind::Tag, alg)?;
    write_whole(&path, text.as_slice(), sink)
}
