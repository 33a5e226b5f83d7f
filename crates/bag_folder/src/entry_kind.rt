//! What an entry of a directory is: a file, a directory, a link or something else.
ghost use Rattle.std.specs.Prelude.{◌≡◌};

use std::fs::FileType;

/// The kind of a directory entry.
#[derive(Clone, Copy, Debug, PartialEq, Eq)]
pub enum EntryKind {
    /// A regular file.
    File,
    /// A directory.
    Directory,
    /// A symbolic link, wherever it leads.
    Link,
    /// A named pipe, a socket or a device.
    Special,
}

impl EntryKind {
    ghost use Rattle.std.specs.Fs.{IsDir, IsFile, IsSymlink};
    ghost use Rattle.std.specs.Prelude.{◌↔◌};

    /// The kind for a file type of the operating system.
    pub fn of(kind: FileType) -> EntryKind
        ensures file { (result ≡ EntryKind.File) ↔ IsFile kind }
        ensures directory { (result ≡ EntryKind.Directory) ↔ IsDir kind }
        ensures link { (result ≡ EntryKind.Link) ↔ IsSymlink kind }
    {
        if kind.is_file() {
            EntryKind::File
        } else if kind.is_dir() {
            EntryKind::Directory
        } else if kind.is_symlink() {
            EntryKind::Link
        } else {
            EntryKind::Special
        }
    }
}
