//! Looks up the entries of directories.
ghost use Rattle.std.specs.Prelude.{◌≡◌, IfOk, List};
ghost use Rattle.std.specs.Iterator.{Drains, IsFinite};
ghost use Rattle.bag_folder.specs.Directories.{AreGiven};

use crate::entry_kind::EntryKind;
use std::alloc::Global;
use std::fs::{self, DirEntry};
use std::io;
use std::marker::Model;
use std::rt::Files;

/// An entry of a directory.
#[derive(Drop)]
pub struct Entry {
    /// The file name.
    pub name: String,
    /// The kind.
    pub kind: EntryKind,
}

impl Model for Entry {
    ghost use Rattle.std.specs.Prelude.{string_bytes};
    ghost use Rattle.bag_folder.specs.Directories.{EntryShown};

    ghost Value = { EntryShown };

    ghost view = { λ entry. record { name = string_bytes entry.name; kind = entry.kind } };
}

/// A source of directory entries.
pub trait Directories {
    ghost use Rattle.std.specs.Prelude.{◌≡◌, Option, Some};
    ghost use Rattle.bag_folder.specs.Directories.{AnswersEntries, Listing};

    /// The entries of all directories, if they are known.
    ghost listing: { Self → Option Listing };

    /// The entries of the directory with this name, without `.` and `..`.
    ///
    /// # Errors
    ///
    /// The error of the operating system if the directory doesn't exist or can't be read. `InvalidFilename` of the
    /// library's own if one of its names isn't UTF-8, as [`fs::read_dir`] has it. `OutOfMemory` if memory runs out.
    fn entries(&self, alloc: Global, directory: &str) -> io::Result<Vec<Entry>>
        ensures { (known : Listing) → listing self.now ≡ Some known
            → AnswersEntries (λ entries. entries.items) known directory.now result };
}

/// The directories of the file system. Nothing is known of their entries.
#[derive(Drop)]
pub struct Disk<'a, R>(pub &'a R);

impl<R: Files> Directories for Disk<'_, R> {
    ghost use Rattle.std.specs.Prelude.{None};

    ghost listing = { λ _. None };

    fn entries(&self, alloc: Global, directory: &str) -> io::Result<Vec<Entry>> {
        gathered(alloc, fs::read_dir(&(self.0, alloc), directory)?)
    }
}

/// All the entries that the operating system gives for a directory. Nothing is known of them.
///
/// # Errors
///
/// The error if reading an entry fails, or its type can't be determined. `OutOfMemory` if memory runs out.
fn gathered<R: Files + Drop, I: Iterator<Item = io::Result<DirEntry<R>>>>(
    alloc: Global,
    directory: I,
) -> io::Result<Vec<Entry>>
    requires can_next { I.can_next directory }
    requires finite { IsFinite (I.remaining directory) }
    ensures { IfOk result (λ entries. (given : List _)
        × Drains I.next_gives directory given × AreGiven given entries.items) }
{
    let mut entries = Vec::new(alloc);
    for given in directory {
        let given = given?;
        let name = String::from_str(alloc, given.file_name())?;
        let kind = EntryKind::of(given.file_type()?);
        entries.push(Entry { name, kind })?;
    }
    Ok(entries)
}
