//! Reads the tag files of a bag that are read line by line (RFC 8493 sections 2.1.3 and 2.2).
ghost use Rattle.std.specs.Prelude.{◌≡◌, ◌≢◌, ◌<◌, ◌≤◌, ◌∷◌, [], ℕ, List, IfOk, IfErr, IsErrOf, MatchResult, None, OnOk, Option, Some, false, length, slice_get};
ghost use Rattle.bag_path.specs.Paths.{is_payload};
ghost use Rattle.bag_path.specs.declared.version.Version.{Version};
ghost use Rattle.bag_rules.specs.Bags.{Bag, IsBagOf, declaration_file, version_of};
ghost use Rattle.bag_rules.specs.Faults.{kind_of_lines};
ghost use Rattle.bag_rules.specs.HasFault.{HasFaultOf};
ghost use Rattle.bag_rules.specs.Limits.{IsLongTag, FirstStops, NoneStops, Stopped, TextStops};
ghost use Rattle.bag_rules.specs.KeptInside.{ReadsAndKeeps};
ghost use Rattle.bag_rules.specs.OctetsRead.{IsBagBy, IsText, KeepsGiven, KeepsOnly, KnownOctets, KnowsFrom, MayBe, ReadsAndKnows};
ghost use Rattle.bag_rules.specs.ReadingInside.{
  Adds,
  AreTextsOf,
  IsBadLineOf,
  IsFirstBadLine,
  IsReadOf,
  PutsValue,
  ReadsOn,
  ReadsText,
  ValueOf,
  fetch_in,
  info_in,
  manifest_in,
};
ghost use Rattle.bag_rules.specs.Trees.{HasFileAt, UsesTree, octets_in, paths_in};
ghost use Rattle.bag_rules.specs.declared.outcome.CheckFault.{CheckFault};

use crate::fault::Fault;
use crate::limits::LARGEST_TAG_FILE;
use crate::outcome::CheckFault;
use crate::tag_file_reader::{TagFileReader, read_whole, take_file};
use crate::tag_sums::TagSums;
use crate::tree::Tree;
use bag_digest::{ReadFault, read_to_end_within};
use bag_path::Version;
use bag_tags::{Fetch, FetchLine, Info, LineFile, Manifest, TagFault, TagValue};
use std::alloc::{AllocError, Global};

/// What the tag files that are read line by line say. It includes those that are there and have no faulty line.
#[derive(Drop)]
pub(crate) struct TagTexts {
    /// What `bag-info.txt` says.
    pub info: Option<Info>,
    /// What `fetch.txt` lists.
    pub fetch: Option<Fetch>,
    /// The payload manifests and tag manifests, by file name.
    pub manifests: Vec<Manifest>,
}

impl TagTexts {
    ghost use Rattle.std.specs.Prelude.{◌≡◌, [], None};
    ghost use Rattle.bag_rules.specs.ReadingInside.{AreLinesOf};

    /// What is said if there are no tag files.
    pub(crate) fn none(alloc: Global) -> TagTexts
        ensures optional { (result.info ≡ None) × (result.fetch ≡ None) }
        ensures manifests { result.manifests.items ≡ [] }
    {
        TagTexts {
            info: None,
            fetch: None,
            manifests: Vec::new(alloc),
        }
    }

    /// The entries of `fetch.txt`. There are none if the file isn't there.
    pub(crate) fn fetch_lines(&self) -> &[FetchLine]
        ensures { AreLinesOf self.now result.now }
    {
        match &self.fetch {
            Some(fetch) => fetch.entries(),
            None => &[],
        }
    }
}

/// Reads the tag files by name, and adds a fault for the first faulty line of each that has one.
pub(crate) fn read_texts<T: Tree>(
    alloc: Global,
    buffer: &mut [u8],
    tree: &mut T,
    version: Version,
    kept: &mut TagSums,
    faults: &mut Vec<Fault>,
) -> Result<TagTexts, CheckFault>
    requires { 0 < length buffer.old }
    ensures read { (bag : Bag) → IsBagOf (T.shown tree.old) bag → version_of bag ≡ version
        → IfOk result (AreTextsOf (length bag.files) bag) }
    ensures faulty { (bag : Bag) → IsBagOf (T.shown tree.old) bag → version_of bag ≡ version
        → OnOk result (Adds faults.old.items faults.new.items (HasFaultOf bag kind_of_lines)) }
    ensures limits { (bag : Bag) → IsBagOf (T.shown tree.old) bag
        → MatchResult result (λ texts. NoneStops bag TextStops)
        (Stopped (FirstStops bag TextStops)) }
    ensures some { (known : KnownOctets) → KnowsFrom 0 (T.shown tree.old) kept.old known
        → KeepsOnly (T.shown tree.old) kept.old (λ path. path ≡ declaration_file)
        → IfOk result (λ texts. (found : KnownOctets) × ReadsAndKnows
        (λ path. is_payload path ≡ false) (T.shown tree.old) kept.old kept.new known found
        × ((bag : Bag) → IsBagBy (T.shown tree.old) found bag → version_of bag ≡ version
        → AreTextsOf (length bag.files) bag texts
        × Adds faults.old.items faults.new.items (HasFaultOf bag kind_of_lines))) }
    ensures reads { ReadsAndKeeps T.shown T.failures T.sure tree.old tree.new kept.old kept.new
        result }
{
    let mut texts = TagTexts::none(alloc);
    for i in 0..tree.count() {
        read_text(alloc, buffer, tree, i, version, &mut texts, kept, faults)?;
    }
    Ok(texts)
}

/// Reads the file at this place if it is one that is read line by line.
fn read_text<T: Tree>(
    alloc: Global,
    buffer: &mut [u8],
    tree: &mut T,
    i: usize,
    version: Version,
    texts: &mut TagTexts,
    kept: &mut TagSums,
    faults: &mut Vec<Fault>,
) -> Result<(), CheckFault>
    requires room { 0 < length buffer.old }
    requires inside { i < length (paths_in (T.shown tree.old)) }
    ensures read { (path octets : List ℕ) → HasFileAt (T.shown tree.old) i path octets
        → OnOk result (ReadsOn version path octets texts.old texts.new
        × Adds faults.old.items faults.new.items (IsBadLineOf version path octets)) }
    ensures limits { (path octets : List ℕ) → HasFileAt (T.shown tree.old) i path octets
        → MatchResult result (λ done. (fault : CheckFault) → ¬ TextStops path octets fault)
        (Stopped (TextStops path octets)) }
    ensures some { (path : List ℕ) → slice_get (paths_in (T.shown tree.old)) i ≡ Some path
        → OnOk result ((given : Option (List ℕ))
        × KeepsGiven (T.shown tree.old) i kept.old kept.new given
        × (given ≢ None → IsText path) × ((octets : List ℕ) → MayBe given octets
        → ReadsOn version path octets texts.old texts.new
        × Adds faults.old.items faults.new.items (IsBadLineOf version path octets))) }
    ensures reads { ReadsAndKeeps T.shown T.failures T.sure tree.old tree.new kept.old kept.new
        result }
{
    let Some(file) = LineFile::of(tree.path(i)) else {
        return Ok(());
    };
    let mut reader = TagFileReader::new(alloc, file, version, kept.set());
    let total = take_file(buffer, tree, i, &mut reader)?;
    let found = reader.finish(total);
    kept.add(i, found.sums)?;
    if found.has_too_many_lines {
        return Err(CheckFault::TooMany);
    }
    add_text(found.read, file, texts, faults)?;
    Ok(())
}

/// Reads a whole tag file.
pub(crate) fn read_tag_file<T: Tree>(
    alloc: Global,
    buffer: &mut [u8],
    tree: &mut T,
    i: usize,
) -> Result<Vec<u8>, CheckFault>
    requires room { 0 < length buffer.old }
    requires inside { i < length (paths_in (T.shown tree.old)) }
    ensures known { (path octets : List ℕ) → HasFileAt (T.shown tree.old) i path octets
        → MatchResult result (λ text. (text.items ≡ octets) × (length octets ≤ LARGEST_TAG_FILE))
        (Stopped (IsLongTag path octets)) }
    ensures some { IfOk result (λ text. MayBe (octets_in (T.shown tree.old) i) text.items
        × (length text.items ≤ LARGEST_TAG_FILE)) }
    ensures tree { UsesTree T.shown T.failures T.sure tree.old tree.new
        (IsErrOf result CheckFault.Tree) }
{
    tree.start(i)?;
    match read_to_end_within(alloc, buffer, tree, LARGEST_TAG_FILE) {
        Ok(octets) => Ok(octets),
        Err(ReadFault::Read) => Err(CheckFault::Tree),
        Err(ReadFault::Memory) => Err(CheckFault::Memory),
        Err(ReadFault::TooLarge) => Err(CheckFault::TagTooLarge(tree.path(i).clone()?)),
    }
}

/// Reads the text of a tag file. Adds what it says, or a fault for its first faulty line.
pub(crate) fn read_lines(
    alloc: Global,
    text: &[u8],
    file: LineFile,
    version: Version,
    texts: &mut TagTexts,
    faults: &mut Vec<Fault>,
) -> Result<(), AllocError>
    ensures read { OnOk result (ReadsText version file text.now texts.old texts.new) }
    ensures faulty { OnOk result (Adds faults.old.items faults.new.items
        (IsFirstBadLine version file text.now)) }
{
    add_text(read_whole(alloc, text, file, version), file, texts, faults)
}

/// Adds what was read of a tag file, or a fault for its first faulty line.
fn add_text(
    read: Result<TagValue, TagFault>,
    file: LineFile,
    texts: &mut TagTexts,
    faults: &mut Vec<Fault>,
) -> Result<(), AllocError>
    ensures read { (version : Version) (octets : List ℕ) → IsReadOf version file octets read
        → OnOk result (ReadsText version file octets texts.old texts.new) }
    ensures faulty { (version : Version) (octets : List ℕ) → IsReadOf version file octets read
        → OnOk result
        (Adds faults.old.items faults.new.items (IsFirstBadLine version file octets)) }
{
    let value = value_of(read, file, faults)?;
    put_value(file, value, texts)
}

/// The value of a text. If it has none, a fault for its first faulty line is added.
fn value_of(
    read: Result<TagValue, TagFault>,
    file: LineFile,
    faults: &mut Vec<Fault>,
) -> Result<Option<TagValue>, AllocError>
    ensures { IfOk result (λ value.
        ValueOf read file faults.old.items faults.new.items value) }
{
    match read {
        Ok(value) => Ok(Some(value)),
        Err(TagFault::Line(fault)) => {
            let bad_line = Fault::BadLine {
                file,
                line: fault.line,
                cause: fault.cause,
            };
            faults.push(bad_line)?;
            Ok(None)
        }
        Err(TagFault::Memory) => Err(AllocError),
    }
}

/// Puts the value of a text in the place of what the file said before, or adds it to the manifests.
fn put_value(
    file: LineFile,
    value: Option<TagValue>,
    texts: &mut TagTexts,
) -> Result<(), AllocError>
    ensures { OnOk result (PutsValue file value texts.old texts.new) }
{
    match file {
        LineFile::Info => texts.info = info_in(value),
        LineFile::FetchList => texts.fetch = fetch_in(value),
        LineFile::Manifest(_) => {
            if let Some(manifest) = manifest_in(value) {
                texts.manifests.push(manifest)?;
            }
        }
    }
    Ok(())
}

fn info_in(value: Option<TagValue>) -> Option<Info>
    ensures { result ≡ info_in value }
{
    match value {
        Some(TagValue::Info(info)) => Some(info),
        _ => None,
    }
}

fn fetch_in(value: Option<TagValue>) -> Option<Fetch>
    ensures { result ≡ fetch_in value }
{
    match value {
        Some(TagValue::Fetch(fetch)) => Some(fetch),
        _ => None,
    }
}

fn manifest_in(value: Option<TagValue>) -> Option<Manifest>
    ensures { result ≡ manifest_in value }
{
    match value {
        Some(TagValue::Manifest(manifest)) => Some(manifest),
        _ => None,
    }
}
