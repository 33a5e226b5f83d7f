//! Names in memory.
ghost use Rattle.std.specs.Prelude.{◌≡◌, MatchOption, None, Some};
ghost use Rattle.bag_folder.specs.MemNames.{first_in, standing_of};
ghost use Rattle.bag_folder.specs.DiskNames.{MakesOne};

use crate::entry_kind::EntryKind;
use crate::file_system::Names;
use std::alloc::Global;
use std::io::{self, ErrorKind};
use std::marker::Model;

/// What stands under a name in memory.
#[derive(Drop)]
pub struct MemEntry<'a> {
    /// The whole name.
    pub name: String,
    /// The kind.
    pub kind: EntryKind,
    /// What a file holds.
    pub octets: &'a [u8],
}

impl<'a> Model for MemEntry<'a> {
    ghost use Rattle.std.specs.Prelude.{string_bytes};
    ghost use Rattle.bag_folder.specs.MemNames.{MemEntryShown};

    ghost Value = { MemEntryShown };

    ghost view = { λ entry. record {
      name = string_bytes entry.name;
      kind = entry.kind;
      octets = entry.octets.now;
    } };
}

/// Names in memory. A link leads nowhere, and what is made needs no folder to be in.
#[derive(Drop)]
pub struct MemNames<'a> {
    /// Where the names of what is made are kept.
    pub alloc: Global,
    /// What stands there; of two with one name the first.
    pub entries: Vec<MemEntry<'a>>,
    /// What is answered where nothing stands, and of what can't be opened.
    pub absent: io::Error,
}

impl<'a> MemNames<'a> {
    /// What has this name.
    fn find(&self, name: &str) -> Option<&MemEntry<'a>>
        ensures { MatchOption result (first_in self.now.entries.items name.now ≡ None)
            (λ entry. first_in self.now.entries.items name.now ≡ Some entry.now) }
    {
        for entry in &self.entries {
            if entry.name.as_str() == name {
                return Some(entry);
            }
        }
        None
    }

    /// Adds something of this kind. Nothing may have its name yet.
    fn add(&mut self, name: &str, kind: EntryKind) -> io::Result<()>
        ensures { MakesOne kind name.now result
            (standing_of self.old.entries.items self.old.absent)
            (standing_of self.new.entries.items self.new.absent) }
    {
        if self.kind(name).is_ok() {
            return Err(io::Error::from(ErrorKind::AlreadyExists));
        }
        let added = String::from_str(self.alloc, name)?;
        self.entries.push(MemEntry {
            name: added,
            kind,
            octets: &[],
        })?;
        Ok(())
    }
}

impl<'a> Names for MemNames<'a> {
    type Reader = &'a [u8];

    type Writer = Vec<u8>;

    ghost standing = { λ names. Some (standing_of names.entries.items names.absent) };

    fn kind(&self, name: &str) -> io::Result<EntryKind> {
        match self.find(name) {
            Some(entry) => Ok(entry.kind),
            None => Err(self.absent),
        }
    }

    fn kind_behind(&self, name: &str) -> io::Result<EntryKind> {
        match self.kind(name)? {
            EntryKind::Link => Err(self.absent),
            kind => Ok(kind),
        }
    }

    fn open(&self, name: &str) -> io::Result<&'a [u8]> {
        match self.find(name) {
            Some(entry) => match entry.kind {
                EntryKind::File => Ok(entry.octets),
                _ => Err(self.absent),
            },
            None => Err(self.absent),
        }
    }

    fn make_folder(&mut self, name: &str) -> io::Result<()> {
        self.add(name, EntryKind::Directory)
    }

    fn make_directories(&mut self, name: &str) -> io::Result<()> {
        match self.kind(name) {
            Ok(EntryKind::Directory) => Ok(()),
            _ => self.add(name, EntryKind::Directory),
        }
    }

    fn make_file(&mut self, name: &str) -> io::Result<Vec<u8>> {
        self.add(name, EntryKind::File)?;
        Ok(Vec::new(self.alloc))
    }
}
