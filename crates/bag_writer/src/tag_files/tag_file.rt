//! Writes one tag file: checks its size, writes it whole and lists it.
ghost use Rattle.std.specs.Prelude.{◌≡◌, ◌∷◌, [], IfOk, OnOk};
ghost use Rattle.std.specs.Result.{result_err};
ghost use Rattle.bag_path.specs.Paths.{IsPath};
ghost use Rattle.bag_digest.specs.declared.algorithm.AlgSet.{AlgSet};
ghost use Rattle.bag_tags.specs.Names.{manifest_file};
ghost use Rattle.bag_writer.specs.Steps.{IsItemOf};
ghost use Rattle.bag_writer.specs.TagWriting.{AddsItems, WritesFiles};

use crate::item::Item;
use crate::sink::{Sink, add_file};
use crate::too_large::Large;
use crate::write_fault::WriteFault;
use bag_digest::{Alg, AlgSet, Sums};
use bag_path::{BagPath, PathFault};
use bag_rules::limits::LARGEST_TAG_FILE;
use bag_tags::{Kind, ManifestName};
use std::alloc::{AllocError, Global};

/// Writes a tag file, and lists it after the others.
///
/// # Errors
///
/// `Sink` or `Memory` if the sink failed or memory ran out; `TooLarge` if the file has more than 16,777,216 octets. It
/// is then not begun.
pub(crate) fn write_listed<S: Sink>(
    path: BagPath,
    octets: &[u8],
    set: AlgSet,
    listed: &mut Vec<Item>,
    sink: &mut S,
) -> Result<(), WriteFault>
    ensures written { WritesFiles S.stored S.is_open S.failures S.sure
        ((path, octets.now) ∷ []) sink.old sink.new (result_err result) }
    ensures listed { OnOk result (AddsItems set ((path, octets.now) ∷ [])
        listed.old.items listed.new.items) }
{
    write_whole(&path, octets, sink)?;
    match listed.push(item_of(path, octets, set)) {
        Ok(()) => Ok(()),
        Err(_) => Err(WriteFault::Memory),
    }
}

/// Writes a tag file.
///
/// # Errors
///
/// `Sink` if the sink failed; `TooLarge` if the file has more than 16,777,216 octets, or `Memory` if memory runs out
/// for its path then. It isn't begun in these cases.
pub(crate) fn write_whole<S: Sink>(
    path: &BagPath,
    octets: &[u8],
    sink: &mut S,
) -> Result<(), WriteFault>
    ensures { WritesFiles S.stored S.is_open S.failures S.sure
        ((path.now, octets.now) ∷ []) sink.old sink.new (result_err result) }
{
    if octets.len() as u64 > LARGEST_TAG_FILE {
        return Err(WriteFault::TooLarge(Large::TagFile(path.clone()?)));
    }
    match add_file(path, octets, sink) {
        Ok(()) => Ok(()),
        Err(_) => Err(WriteFault::Sink),
    }
}

/// A file of these octets, as manifests list it.
fn item_of(path: BagPath, octets: &[u8], set: AlgSet) -> Item
    ensures { IsItemOf set result path octets.now }
{
    let sums = Sums::of(octets, set);
    Item { path, sums }
}

/// The path of a manifest.
pub(crate) fn manifest_path(alloc: Global, kind: Kind, alg: Alg) -> Result<BagPath, AllocError>
    ensures { IfOk result (λ path. path ≡ manifest_file kind alg) }
{
    let name = ManifestName { kind, alg };
    tag_path(alloc, format!(in alloc; "{name}")?.as_str())
}

/// The path of a tag file.
pub(crate) fn tag_path(alloc: Global, name: &str) -> Result<BagPath, AllocError>
    requires { IsPath name.now }
    ensures { IfOk result (λ path. path ≡ name.now) }
{
    match BagPath::parse(alloc, name) {
        Ok(path) => Ok(path),
        Err(PathFault::Memory) => Err(AllocError),
        Err(_) => unreachable!(),
    }
}
