//! The file of a ledger, open a second time.
ghost use Rattle.std.specs.Prelude.{◌≡◌};

use crate::ledgers::found_ledger::{Found, Seen};
use std::fs::{self, File, OpenOptions};
use std::io;
use std::os::fd::AsRawFd;
use std::os::unix::fs::{MetadataExt, OpenOptionsExt};

/// The file of a ledger, open apart from a connection. All that can be done through it is to ask for its size and
/// whether it still has its name, and to empty it again: so nothing is written to a ledger that is open.
#[derive(Drop)]
pub struct Handle {
    file: File,
}

impl Handle {
    /// Opens the file that was seen for reading and writing, or makes it if nothing was.
    ///
    /// # Errors
    ///
    /// The file can't be opened for writing or made; or something was made there since.
    pub fn open(rt: &HostRuntime, seen: &Seen) -> io::Result<Handle> {
        let mut options = OpenOptions::new();
        options
            .read(true)
            .write(true)
            .create_new(seen.found() == Found::Nothing)
            .mode(0o644);
        let file = options.open(rt, seen.name())?;
        // What is written to a standard stream that was closed must not end up in the file.
        if file.as_raw_fd() <= 2 {
            let file = file.try_clone()?;
            return Ok(Handle { file });
        }
        Ok(Handle { file })
    }

    /// Whether the file is still the one with this name.
    ///
    /// # Errors
    ///
    /// The operating system doesn't give the information.
    pub fn is_named(&self, rt: &HostRuntime, name: &str) -> io::Result<bool> {
        let (opened, named) = (self.file.metadata()?, fs::metadata(rt, name)?);
        Ok(opened.dev() == named.dev() && opened.ino() == named.ino())
    }

    /// How many octets the file has.
    ///
    /// # Errors
    ///
    /// The operating system doesn't give the information.
    pub fn size(&self) -> io::Result<u64> {
        Ok(self.file.metadata()?.len())
    }

    /// Empties the file, which was empty when it was locked, and brings that to the disk.
    ///
    /// # Errors
    ///
    /// The operating system can't.
    pub fn empty(&self, _seen: &Seen) -> io::Result<()>
        requires { _seen.now.found ≡ Found.Empty }
    {
        self.file.set_len(0)?;
        self.file.sync_data()
    }
}
