//! A folder as the payload directory of a bag.
ghost use Rattle.std.specs.Prelude.{◌≡◌, ◌∷◌, [], IfErr, IfOk, codes, string_bytes};
ghost use Rattle.std.specs.IoError.{error_kind};
ghost use Rattle.bag_tags.specs.Words.{without};
ghost use Rattle.bag_folder.specs.Directories.{data_entry, in_payload, name_below};

use crate::entries::{Directories, Entry};
use crate::entry_kind::EntryKind;
use crate::name_on_disk::spell;
use std::alloc::{AllocError, Global};
use std::io::{self, ErrorKind};

/// The directories as seen from a bag whose payload directory is the given folder.
#[derive(Drop)]
pub struct InPayload<'a, D> {
    /// Where directories are looked up.
    pub disk: &'a D,
    /// The folder.
    pub folder: &'a str,
}

impl<D: Directories> Directories for InPayload<'_, D> {
    ghost listing = { λ inside. in_payload (D.listing inside.disk.now) inside.folder.now };

    fn entries(&self, alloc: Global, directory: &str) -> io::Result<Vec<Entry>> {
        let mut base = String::new(alloc);
        spell(&mut base, self.folder, "")?;
        if directory == base.as_str() {
            return payload_alone(alloc);
        }
        let name = name_outside(alloc, self.folder, directory)?;
        self.disk.entries(alloc, name.as_str())
    }
}

/// The name outside the bag of a directory inside the payload directory.
fn name_outside(alloc: Global, folder: &str, directory: &str) -> Result<String, AllocError>
    ensures { IfOk result (λ name. string_bytes name
        ≡ name_below folder.now (without (name_below folder.now (codes "data/")) directory.now)) }
{
    let mut payload = String::new(alloc);
    spell(&mut payload, folder, "data/")?;
    let below = without(payload.as_str(), directory);
    let mut name = String::new(alloc);
    spell(&mut name, folder, below)?;
    Ok(name)
}

/// The text without this prefix, if it has it.
fn without<'a>(front: &str, text: &'a str) -> &'a str
    ensures { result.now ≡ without front.now text.now }
{
    match text.strip_prefix(front) {
        Some(rest) => rest,
        None => text,
    }
}

/// The payload directory as the only entry.
fn payload_alone(alloc: Global) -> io::Result<Vec<Entry>>
    ensures alone { IfOk result (λ entries. entries.items
        ≡ data_entry ∷ []) }
    ensures memory { IfErr result (λ error. error_kind error ≡ ErrorKind.OutOfMemory) }
{
    let mut entries = Vec::new(alloc);
    let name = String::from_str(alloc, "data")?;
    entries.push(Entry {
        name,
        kind: EntryKind::Directory,
    })?;
    Ok(entries)
}
