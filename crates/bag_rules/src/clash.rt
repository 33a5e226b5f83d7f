//! Clashes of paths: one path is that of a folder in which another one is, so both files can't exist.
ghost use Rattle.std.specs.Prelude.{◌≡◌, ◌++◌, ◌↔◌, IfOk, IsTrue, MatchOption, ℕ, List};
ghost use Rattle.std.specs.Cmp.Lexicographic.{slice_cmp};
ghost use Rattle.std.specs.List.Sorted.{IsSorted};
ghost use Rattle.std.specs.Ordering.{nat_cmp};
ghost use Rattle.bag_rules.specs.ClashInside.{beside_folder};
ghost use Rattle.bag_rules.specs.Opening.{HasInside, IsClash, IsFirstPath, IsFolderAmong};
ghost use Rattle.bag_rules.specs.Files.{paths_of};
ghost use Rattle.bag_rules.specs.Transfers.{AreExpected};

use crate::file::File;
use crate::tag_set::TagSet;
use bag_path::BagPath;
use std::alloc::{AllocError, Global};
use std::cmp::Ordering;

/// The first clash among the paths of the tag files and of the expected payload files: a path that is that of a folder
/// in which another of them is.
pub(crate) fn first_clash(
    alloc: Global,
    tags: &TagSet,
    expected: &[BagPath],
) -> Result<Option<BagPath>, AllocError>
    requires { AreExpected tags.now expected.now }
    ensures { IfOk result (λ found. MatchOption found
        ((path : List ℕ) → ¬ IsClash tags.now path) (IsFirstPath (IsClash tags.now))) }
{
    first_folder(paths_with(alloc, tags.files(), expected)?)
}

/// The paths of the files, followed by these.
fn paths_with(alloc: Global, files: &[File], others: &[BagPath]) -> Result<Vec<BagPath>, AllocError>
    ensures { IfOk result (λ paths. paths.items ≡ paths_of files.now ++ others.now) }
{
    let mut paths = Vec::new(alloc);
    for file in files {
        paths.push(file.path.clone()?)?;
    }
    paths.extend_with_clones(others)?;
    Ok(paths)
}

/// The first of these paths that is that of a folder in which another of them is. Both files can't exist.
///
/// # Errors
///
/// `AllocError` if memory runs out.
pub fn first_folder(mut paths: Vec<BagPath>) -> Result<Option<BagPath>, AllocError>
    ensures { IfOk result (λ found. MatchOption found
        ((path : List ℕ) → ¬ IsFolderAmong paths.items path)
        (IsFirstPath (IsFolderAmong paths.items))) }
{
    paths.sort_unstable();
    for path in &paths {
        if has_inside(&paths, path) {
            return Ok(Some(path.clone()?));
        }
    }
    Ok(None)
}

/// Whether one of the paths, which are in order, is in the folder with this path. This is a binary search.
fn has_inside(paths: &[BagPath], folder: &BagPath) -> bool
    requires { IsSorted (slice_cmp nat_cmp) paths.now }
    ensures { IsTrue result ↔ HasInside paths.now folder.now }
{
    let folder = folder.as_str().as_bytes();
    paths
        .binary_search_by(|path| beside_folder(folder, path.as_str().as_bytes()))
        .is_ok()
}

/// The place of a path relative to those in the folder: before them, among them, or after them.
///
/// The paths in a folder don't follow its own path directly: `k.txt` is between `k` and `k/x`.
fn beside_folder(folder: &[u8], path: &[u8]) -> Ordering
    ensures { result ≡ beside_folder folder.now path.now }
{
    match path.strip_prefix(folder) {
        Some(rest) => match rest.first() {
            Some(octet) => octet.cmp(&b'/'),
            None => Ordering::Less,
        },
        None => path.cmp(folder),
    }
}
