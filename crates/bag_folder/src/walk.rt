//! A walk through the directories below a folder.
ghost use Rattle.std.specs.Prelude.{◌≡◌, ◌↔◌, ◌++◌, ◌∷◌, [], Contains, ℕ, List, Some, IfErr, MatchOption, MatchResult, OnOk, string_bytes};
ghost use Rattle.bag_rules.specs.Trees.{AreRising};
ghost use Rattle.bag_folder.specs.Directories.{IsBelow, IsUnfit, Listing};
ghost use Rattle.bag_folder.specs.Faults.{IfUnfit};
ghost use Rattle.bag_folder.specs.Walks.{LooksInto, RefusesFront, Walked};

use crate::entries::Directories;
use crate::entry_kind::EntryKind;
use crate::fault::{Cause, OpenFault, Unfit};
use crate::name_on_disk::spell;
use bag_path::BagPath;
use std::alloc::Global;
use std::marker::Model;

/// What is below a folder.
#[derive(Drop)]
pub struct Below {
    /// The paths of the files.
    pub paths: Vec<BagPath>,
    /// Whether there is a payload directory.
    pub has_dir: bool,
}

/// What a walk has found, and the directories that it still has to read.
#[derive(Drop)]
struct Gathered {
    paths: Vec<BagPath>,
    has_dir: bool,
    // their paths from the folder, each followed by a slash; empty for the folder itself
    left: Vec<String>,
}

impl Model for Gathered {
    ghost use Rattle.std.specs.Prelude.{map, string_bytes};
    ghost use Rattle.bag_folder.specs.Walks.{Walked};

    ghost Value = { Walked };

    ghost view = { λ found. record {
      paths = found.paths.items;
      has_dir = found.has_dir;
      left = map string_bytes found.left.items;
    } };
}

impl Gathered {
    ghost use Rattle.bag_folder.specs.Directories.{Forbids};
    ghost use Rattle.bag_folder.specs.Walks.{FitsBag, with_path};

    /// Adds what was found at this path.
    fn take(&mut self, alloc: Global, path: String, kind: EntryKind) -> Result<(), OpenFault>
        ensures taken { OnOk result (self.new ≡ with_path self.old (string_bytes path) kind) }
        ensures fits { OnOk result (FitsBag (string_bytes path) kind) }
        ensures refused { IfErr result (λ fault. IfUnfit fault (λ unfit.
            (unfit.path ≡ string_bytes path) × Forbids unfit.path kind unfit.cause)) }
    {
        match kind {
            EntryKind::File => match BagPath::parse(alloc, path.as_str()) {
                Ok(path) => self.paths.push(path)?,
                Err(fault) => return Err(OpenFault::no_path(path, fault)),
            },
            EntryKind::Directory => {
                let mut path = path;
                self.has_dir |= path.as_str() == "data";
                path.push('/')?;
                self.left.push(path)?;
            }
            EntryKind::Link => return Err(refusal(path, Cause::Link)),
            EntryKind::Special => return Err(refusal(path, Cause::Special)),
        }
        Ok(())
    }

    /// The directory to read next.
    fn next(&mut self) -> Option<String>
        ensures { MatchOption result ((self.old.left ≡ []) × (self.new ≡ self.old))
            (λ front. self.old
            ≡ record self.new { left = self.new.left ++ string_bytes front ∷ [] }) }
    {
        self.left.pop()
    }
}

/// The fault that this can't be used.
fn refusal(path: String, cause: Cause) -> OpenFault
    ensures { result ≡ OpenFault.Files (record { path = string_bytes path; cause = cause }) }
{
    OpenFault::Files(Unfit { path, cause })
}

/// Everything below a folder.
///
/// # Errors
///
/// `Files` if a directory can't be read, or something isn't allowed in a bag; its path is told as it is below the
/// folder, and is empty for the folder itself. `Memory` if memory runs out.
pub fn walk<D: Directories>(disk: &D, alloc: Global, folder: &str) -> Result<Below, OpenFault>
    ensures { (listing : Listing) → D.listing disk.now ≡ Some listing → MatchResult result
        (λ below. IsBelow listing folder.now below.paths.items below.has_dir)
        (λ fault. IfUnfit fault (λ unfit.
        IsUnfit listing folder.now unfit.path unfit.cause)) }
{
    let mut found = Gathered {
        paths: Vec::new(alloc),
        has_dir: false,
        left: Vec::new(alloc),
    };
    found.left.push(String::new(alloc))?;
    // The walk ends when no directory is left. The proof that it ends needs a bound, and this one exceeds any memory.
    for _ in 0..u64::MAX {
        let Some(front) = found.next() else {
            return Ok(Below {
                paths: found.paths,
                has_dir: found.has_dir,
            });
        };
        look_into(disk, alloc, folder, front.as_str(), &mut found)?;
    }
    Err(OpenFault::Memory)
}

/// Adds what is in the directory `front`.
fn look_into<D: Directories>(
    disk: &D,
    alloc: Global,
    folder: &str,
    front: &str,
    found: &mut Gathered,
) -> Result<(), OpenFault>
    ensures { (listing : Listing) → D.listing disk.now ≡ Some listing → MatchResult result
        (λ _. LooksInto listing folder.now front.now found.old found.new)
        (λ fault. IfUnfit fault (λ unfit.
        RefusesFront listing folder.now front.now unfit.path unfit.cause)) }
{
    let mut directory = String::new(alloc);
    // The name ends in a slash. So a symbolic link in place of the folder itself is followed.
    spell(&mut directory, folder, front)?;
    let entries = match disk.entries(alloc, directory.as_str()) {
        Ok(entries) => entries,
        Err(error) => {
            let path = String::from_str(alloc, front)?;
            return Err(OpenFault::system(path, error));
        }
    };
    for entry in &entries {
        let mut path = String::from_str(alloc, front)?;
        path.push_str(entry.name.as_str())?;
        found.take(alloc, path, entry.kind)?;
    }
    Ok(())
}

/// The paths in the order of their octets, each once.
pub(crate) fn in_order(mut paths: Vec<BagPath>) -> Vec<BagPath>
    ensures rising { AreRising result.items }
    ensures kept { (path : List ℕ) → Contains result.items path ↔ Contains paths.items path }
{
    paths.sort_unstable();
    paths.dedup();
    paths
}
