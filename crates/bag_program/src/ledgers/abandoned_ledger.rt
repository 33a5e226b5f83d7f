//! The file of a ledger in which none is opened: what is emptied and removed.
ghost use Rattle.std.specs.Prelude.{◌≡◌, is_some, true};
ghost use Rattle.bag_program.specs.LedgerFiles.{IsNewFile};

use crate::ledgers::found_ledger::{Found, NEW_LOG, Seen, size_of_log};
use crate::ledgers::ledger_handle::Handle;
use std::fs::{self, File};
use std::io;

/// The file of a ledger and its log, which are locked, and in which no ledger is opened anymore.
#[derive(Drop)]
pub struct AbandonedLedger<'a> {
    rt: &'a HostRuntime,
    // what was seen since both are locked
    seen: Seen,
    // the file apart from a connection
    handle: Handle,
    ghost locked: { is_some seen.before ≡ true },
}

impl<'a> AbandonedLedger<'a> {
    /// No ledger is opened in this file.
    pub fn new(rt: &'a HostRuntime, seen: Seen, handle: Handle) -> AbandonedLedger<'a>
        requires { is_some seen.before ≡ true }
        ensures { result.seen ≡ seen }
    {
        AbandonedLedger { rt, seen, handle }
    }

    /// Removes the log, unless anything was found in it. Returns what was seen.
    pub fn leave_log(self) -> Seen
        ensures { result ≡ self.entry.seen }
    {
        if !self.seen.had_log() {
            let _ = self.remove_new_log();
        }
        self.seen
    }

    /// Removes the log, and the file if this run made it; empties the file again if it was empty. All of it stays if
    /// anything was found in the log, which may hold a ledger. What can't be removed or brought to the disk stays too.
    pub fn remove_made(self) {
        if self.seen.had_log() {
            return;
        }
        let _ = self.take_back();
    }

    /// Does so in an order in which a stop at any moment leaves what the next run makes a ledger in. A log that is
    /// longer than that of a new ledger would be alone without its file, which has a whole first page then: so it is
    /// removed first. A shorter one is removed last, since part of a first page is no database without it.
    ///
    /// # Errors
    ///
    /// Something can't be looked up, removed or brought to the disk.
    fn take_back(&self) -> io::Result<()>
        requires { self.now.seen.log_size ≡ 0 }
    {
        if self.seen.found() != Found::Empty {
            return self.remove_new_log();
        }
        let folder = self.open_folder()?;
        if size_of_log(self.rt, self.seen.log())? > NEW_LOG {
            self.remove_new_log()?;
            folder.sync_all()?;
            self.restore_file()
        } else {
            self.restore_file()?;
            folder.sync_all()?;
            self.remove_new_log()
        }
    }

    /// Opens the folder of the file.
    fn open_folder(&self) -> io::Result<File> {
        let mut path = fs::canonicalize(self.rt, self.seen.name())?;
        path.pop();
        File::open(self.rt, path.as_str())
    }

    /// Removes the file if this run made it, and empties it otherwise.
    fn restore_file(&self) -> io::Result<()>
        requires { self.now.seen.found ≡ Found.Empty }
    {
        if self.seen.is_new() {
            self.remove_new_file()
        } else {
            self.handle.empty(&self.seen)
        }
    }

    /// Removes a log in which nothing was found when the file was locked.
    fn remove_new_log(&self) -> io::Result<()>
        requires { self.now.seen.log_size ≡ 0 }
    {
        fs::remove_file(self.rt, self.seen.log())
    }

    /// Removes the file that this run made, and to which no other one has written.
    fn remove_new_file(&self) -> io::Result<()>
        requires { IsNewFile self.now.seen }
    {
        fs::remove_file(self.rt, self.seen.name())
    }
}
