//! Reads the tag files of a transfer, and finds the first reason why it can't be opened with them.
ghost use Rattle.std.specs.Prelude.{◌≡◌, ◌↔◌, ◌++◌, [], ℕ, List, Contains, IfErr, IfOk, IsTrue, MatchOption, OnOk, length, map};
ghost use Rattle.bag_tags.specs.declared.listing.Pair.{Pair};
ghost use Rattle.bag_rules.specs.declared.fault.Fault.{Fault};
ghost use Rattle.bag_rules.specs.contracts.fault.FaultOrd.TheImpl as order;
ghost use Rattle.bag_rules.specs.Bags.{version_of};
ghost use Rattle.bag_rules.specs.Faults.{Has, kind_of_lines, kinds_of_files};
ghost use Rattle.bag_rules.specs.FilesInside.{IsFileUnlisted, IsWrongIn, OfSome};
ghost use Rattle.bag_rules.specs.Files.{AreTagFiles};
ghost use Rattle.bag_rules.specs.HasFault.{HasFaultOf};
ghost use Rattle.bag_rules.specs.Opening.{FewLines, HasManyLinesAt, HasOpeningFault, IsFirst, IsFirstPath, NoOpeningFault, Opens, RefusesTags};
ghost use Rattle.bag_rules.specs.OpeningInside.{AreReadBy, HasTooManyLines, HasOpeningFaultOf, IsListedIn, IsTagMissing, IsWrongFile};
ghost use Rattle.bag_rules.specs.Scopes.{HasScope};
ghost use Rattle.bag_rules.specs.ReadingInside.{Adds, AreTextsOf, IsBadLineOf, ReadsOn};
ghost use Rattle.bag_rules.specs.Transfers.{AreExpected, tag_bag};
ghost use Rattle.bag_rules.specs.Trees.{AreRising, paths_in};

use crate::clash::first_clash;
use crate::fault::Fault;
use crate::file::File;
use crate::file_faults::{add_other_digests, add_unlisted};
use crate::form_faults::add_form_faults;
use crate::listing_faults::{add_fetch_unlisted, add_missing_by};
use crate::scope::{OutsideCause, Scope, scope_of};
use crate::tag_file_reader::has_too_many_lines;
use crate::tag_set::TagSet;
use crate::tag_texts::{TagTexts, read_lines};
use crate::tree::{Paths, find};
use crate::want::Want;
use bag_digest::Sums;
use bag_path::{BagPath, Version};
use bag_tags::{Kind, LineFile, Manifest, Pair};
use std::alloc::{AllocError, Global};
use thiserror::Error;

/// Why no transfer can be opened with these tag files. If several causes apply, the first in this order is returned,
/// but `Memory` may be returned in place of any other.
#[derive(Debug, Drop, Error)]
pub enum PlanFault {
    /// A manifest or `fetch.txt` has more than 100,000 lines. This is the first such file by path.
    #[error("a tag file is too large")]
    TagTooLarge(BagPath),
    /// The bag can't be judged here. This doesn't mean that it is invalid.
    #[error("out of scope")]
    Outside(OutsideCause),
    /// The tag files have a fault that payload files can't mend. This is the first such fault in the order of a report.
    #[error("a fault of the tag files")]
    Rules(Fault),
    /// The path of a tag file or of a listed payload file is that of a folder in which another of them is. This is the
    /// first such path.
    #[error("a file in the place of a folder")]
    Clash(BagPath),
    /// Memory ran out.
    #[error("out of memory")]
    Memory,
}

impl From<AllocError> for PlanFault {
    ghost use Rattle.std.specs.Prelude.{◌≡◌};
    ghost use Rattle.bag_rules.specs.declared.plan_fault.PlanFault.TheVariants.{Memory};

    ghost from_gives = { λ _ fault. fault ≡ Memory };

    fn from(_: AllocError) -> PlanFault {
        PlanFault::Memory
    }
}

/// What the tag files of a transfer say, and the paths of the expected payload files, in order.
///
/// # Errors
///
/// The first cause, in the order of [`PlanFault`], for which no transfer can be opened with them.
pub(crate) fn open_tags(alloc: Global, tags: &TagSet) -> Result<(TagTexts, Vec<BagPath>), PlanFault>
    ensures opened { IfOk result (λ opened. AreTagFiles tags.now × Opens tags.now
        × AreTextsOf (length tags.now) (tag_bag tags.now) opened.0
        × AreExpected tags.now opened.1.items) }
    ensures refused { IfErr result (RefusesTags tags.now) }
{
    if let Some(file) = first_large(tags) {
        return Err(PlanFault::TagTooLarge(file.path().clone()?));
    }
    let version = open_version(alloc, tags)?;
    let (texts, paths) = open_texts(alloc, tags, version)?;
    match first_clash(alloc, tags, &paths)? {
        Some(path) => Err(PlanFault::Clash(path)),
        None => Ok((texts, paths)),
    }
}

/// The first manifest or `fetch.txt` by path that has more lines than the limit.
fn first_large(tags: &TagSet) -> Option<&File>
    ensures { MatchOption result (FewLines tags.now)
        (λ file. IsFirstPath (HasManyLinesAt tags.now) file.now.path) }
{
    for file in tags.files() {
        if is_large(file) {
            return Some(file);
        }
    }
    None
}

/// Whether this is a manifest or `fetch.txt` with more lines than the limit.
fn is_large(file: &File) -> bool
    ensures { IsTrue result ↔ HasTooManyLines file.now.path file.now.body.items }
{
    match LineFile::of(file.path()) {
        Some(name) => has_too_many_lines(name, file.body()),
        None => false,
    }
}

/// The version by whose rules the tag files are read.
fn open_version(alloc: Global, tags: &TagSet) -> Result<Version, PlanFault>
    ensures known { IfOk result (λ version. AreReadBy version tags.now) }
    ensures refused { FewLines tags.now → IfErr result (RefusesTags tags.now) }
{
    match scope_of_tags(alloc, tags)? {
        Scope::Known(version) => Ok(version),
        Scope::Unknown(cause) => Err(PlanFault::Outside(cause)),
        Scope::Broken(fault) => Err(PlanFault::Rules(fault)),
    }
}

/// What the declaration and the names of the manifests say.
fn scope_of_tags(alloc: Global, tags: &TagSet) -> Result<Scope, AllocError>
    ensures scope { IfOk result (HasScope (tag_bag tags.now)) }
    ensures tags { AreTagFiles tags.now }
{
    let files = tags.files();
    match find(tags, "bagit.txt") {
        Some(i) => scope_of(alloc, tags, files[i].body()),
        None => Ok(Scope::Broken(Fault::NoDeclaration)),
    }
}

/// What the tag files say, and the paths of the expected payload files, in order.
fn open_texts(
    alloc: Global,
    tags: &TagSet,
    version: Version,
) -> Result<(TagTexts, Vec<BagPath>), PlanFault>
    requires { AreReadBy version tags.now }
    ensures read { IfOk result (λ opened.
        AreTextsOf (length tags.now) (tag_bag tags.now) opened.0
        × AreExpected tags.now opened.1.items × NoOpeningFault tags.now) }
    ensures refused { FewLines tags.now → IfErr result (RefusesTags tags.now) }
{
    let mut faults = Vec::new(alloc);
    let opened = find_faults(alloc, tags, version, &mut faults)?;
    match first_of(faults) {
        Some(fault) => Err(PlanFault::Rules(fault)),
        None => Ok(opened),
    }
}

/// The same, together with any faults that payload files can't mend.
fn find_faults(
    alloc: Global,
    tags: &TagSet,
    version: Version,
    faults: &mut Vec<Fault>,
) -> Result<(TagTexts, Vec<BagPath>), AllocError>
    requires known { AreReadBy version tags.now }
    requires none { faults.old.items ≡ [] }
    ensures read { IfOk result (λ opened. AreTextsOf (length tags.now) (tag_bag tags.now) opened.0
        × AreExpected tags.now opened.1.items) }
    ensures found { OnOk result ((fault : Fault)
        → Has faults.new.items fault ↔ HasOpeningFault tags.now fault) }
{
    let texts = read_tags(alloc, tags, version, faults)?;
    let expected = expected_paths(alloc, &texts.manifests)?;
    add_form_faults(tags, &texts, faults)?;
    add_opening_faults(tags, version, &texts, &expected, faults)?;
    Ok((texts, expected))
}

/// The first of the faults.
fn first_of(faults: Vec<Fault>) -> Option<Fault>
    ensures { MatchOption result (faults.items ≡ []) (IsFirst order.ghosts.cmp (Has faults.items)) }
{
    faults.into_iter().min()
}

/// Reads the tag files by path, and adds a fault for the first faulty line of each that has one.
fn read_tags(
    alloc: Global,
    tags: &TagSet,
    version: Version,
    faults: &mut Vec<Fault>,
) -> Result<TagTexts, AllocError>
    ensures read { version_of (tag_bag tags.now) ≡ version
        → IfOk result (AreTextsOf (length tags.now) (tag_bag tags.now)) }
    ensures faulty { version_of (tag_bag tags.now) ≡ version → OnOk result
        (Adds faults.old.items faults.new.items (HasFaultOf (tag_bag tags.now) kind_of_lines)) }
{
    let mut texts = TagTexts::none(alloc);
    for file in tags.files() {
        read_tag(alloc, file, version, &mut texts, faults)?;
    }
    Ok(texts)
}

/// Reads a tag file if it is one that is read line by line.
fn read_tag(
    alloc: Global,
    file: &File,
    version: Version,
    texts: &mut TagTexts,
    faults: &mut Vec<Fault>,
) -> Result<(), AllocError>
    ensures { OnOk result (ReadsOn version file.now.path file.now.body.items texts.old texts.new
        × Adds faults.old.items faults.new.items
        (IsBadLineOf version file.now.path file.now.body.items)) }
{
    match LineFile::of(file.path()) {
        Some(name) => read_lines(alloc, file.body(), name, version, texts, faults),
        None => Ok(()),
    }
}

/// The paths that the payload manifests list, in order and each once.
fn expected_paths(alloc: Global, manifests: &[Manifest]) -> Result<Vec<BagPath>, AllocError>
    ensures rising { IfOk result (λ paths. AreRising paths.items) }
    ensures exact { IfOk result (λ paths. (path : List ℕ)
        → Contains paths.items path ↔ IsListedIn manifests.now path) }
{
    let mut paths = listed_paths(alloc, manifests)?;
    paths.sort_unstable();
    paths.dedup();
    Ok(paths)
}

/// The paths that the payload manifests list, one manifest after the other.
fn listed_paths(alloc: Global, manifests: &[Manifest]) -> Result<Vec<BagPath>, AllocError>
    ensures { IfOk result (λ paths. (path : List ℕ)
        → Has paths.items path ↔ IsListedIn manifests.now path) }
{
    let mut paths = Vec::new(alloc);
    for manifest in manifests {
        if manifest.kind() == Kind::Payload {
            add_paths(manifest.pairs(), &mut paths)?;
        }
    }
    Ok(paths)
}

/// Adds the paths of these pairs.
fn add_paths(pairs: &[Pair], paths: &mut Vec<BagPath>) -> Result<(), AllocError>
    ensures { OnOk result
        (paths.new.items ≡ paths.old.items ++ map (λ (pair : Pair). pair.path) pairs.now) }
{
    for pair in pairs {
        paths.push(pair.path.clone()?)?;
    }
    Ok(())
}

/// Adds the faults of files and of listings that payload files can't mend.
fn add_opening_faults(
    tags: &TagSet,
    version: Version,
    texts: &TagTexts,
    expected: &[BagPath],
    faults: &mut Vec<Fault>,
) -> Result<(), AllocError>
    requires known { AreReadBy version tags.now }
    requires texts { AreTextsOf (length tags.now) (tag_bag tags.now) texts.now }
    requires expected { AreExpected tags.now expected.now }
    ensures { OnOk result (Adds faults.old.items faults.new.items
        (HasOpeningFaultOf tags.now kinds_of_files)) }
{
    add_missing_tags(tags, &texts.manifests, faults)?;
    add_fetch_unlisted(version, texts, faults)?;
    add_unlisted_paths(version, &texts.manifests, expected, faults)?;
    add_wrong_tags(tags, &texts.manifests, faults)
}

/// Adds a fault for each file that a tag manifest lists and that isn't there.
fn add_missing_tags<T: Paths>(
    tags: &T,
    manifests: &[Manifest],
    faults: &mut Vec<Fault>,
) -> Result<(), AllocError>
    ensures { OnOk result (Adds faults.old.items faults.new.items
        (OfSome manifests.now (IsTagMissing (paths_in (T.shown tags.now))))) }
{
    for manifest in manifests {
        if manifest.kind() == Kind::Tag {
            add_missing_by(tags, manifest, faults)?;
        }
    }
    Ok(())
}

/// Adds a fault for each payload manifest that is reported because it doesn't list one of these paths.
fn add_unlisted_paths(
    version: Version,
    manifests: &[Manifest],
    paths: &[BagPath],
    faults: &mut Vec<Fault>,
) -> Result<(), AllocError>
    ensures { OnOk result (Adds faults.old.items faults.new.items
        (OfSome paths.now (IsFileUnlisted version manifests.now))) }
{
    for path in paths {
        add_unlisted(version, manifests, path, faults)?;
    }
    Ok(())
}

/// Adds a fault for each manifest that lists another digest for a tag file than the file has.
fn add_wrong_tags(
    tags: &TagSet,
    manifests: &[Manifest],
    faults: &mut Vec<Fault>,
) -> Result<(), AllocError>
    ensures { OnOk result (Adds faults.old.items faults.new.items
        (OfSome tags.now (IsWrongFile manifests.now))) }
{
    for file in tags.files() {
        add_wrong_file(file, manifests, faults)?;
    }
    Ok(())
}

/// Adds a fault for each manifest that lists another digest for this file than it has.
fn add_wrong_file(
    file: &File,
    manifests: &[Manifest],
    faults: &mut Vec<Fault>,
) -> Result<(), AllocError>
    ensures { OnOk result (Adds faults.old.items faults.new.items
        (OfSome manifests.now (IsWrongIn file.now.path file.now.body.items))) }
{
    let want = Want {
        path: file.path(),
        manifests,
        lengths: &[],
    };
    let sums = Sums::of(file.body(), want.algs());
    add_other_digests(&want, &sums.digests, faults)
}
