//! The file of an open ledger, and what a run leaves of it.
ghost use Rattle.std.specs.Prelude.{◌≡◌, [], IfOk, MatchResult};
ghost use Rattle.bag_program.specs.LedgerFiles.{HasCopiedLog, IsClosed, IsLeftBy, IsUncopied};
ghost use Rattle.bag_sqlite.specs.SqlKeepers.{HoldsLedger};
ghost use Rattle.sqlite.specs.Files.{file_state};
ghost use Rattle.sqlite.specs.State.{HasCleanDisk};

use crate::ledgers::locked_file::LockedFile;
use bag_sqlite::SqlKeeper;
use sqlite::{Connection, Error, FileFrom, FileStore, Files, Start};
use sqlite_disk::Disk;

/// A keeper in a file. `S` says what the file held when it was opened.
pub type FileKeeper<S> = SqlKeeper<FileStore<FileFrom<S>>>;

/// What a run leaves of the files of a ledger. They are locked until this is dropped.
#[derive(Drop)]
pub enum Closed<D: Disk> {
    /// The log was copied into the file and removed.
    Copied(Files<D>),
    /// The log wasn't copied, and both stay as they are.
    Uncopied(Uncopied<D>),
    /// They were removed, since a ledger without transfers was made in them.
    Removed(Connection<FileStore<D>>),
}

/// The files of a ledger whose log couldn't be copied.
#[derive(Drop)]
pub struct Uncopied<D: Disk> {
    /// Why.
    pub error: Error,
    /// The store that has both.
    pub store: FileStore<D>,
}

/// The file of an open ledger. `S` says what it held when it was opened.
#[derive(Drop)]
pub struct OpenLedger<'a, S> {
    locked: LockedFile<'a, S>,
}

impl<'a, S: Start> OpenLedger<'a, S> {
    /// A ledger was opened in this file.
    pub fn new(locked: LockedFile<'a, S>) -> OpenLedger<'a, S>
        ensures { result.locked ≡ locked.entry }
    {
        OpenLedger { locked }
    }

    /// Closes the ledger. The content of the log is copied into the file, and the log is removed. If that fails, both
    /// remain and nothing is lost.
    pub fn close(&self, keeper: FileKeeper<S>) -> Closed<FileFrom<S>>
        ensures { IsLeftBy keeper.connection result }
    {
        match copy_log(keeper) {
            Ok(files) => {
                self.locked.remove_copied_log(&files);
                Closed::Copied(files)
            }
            Err(left) => Closed::Uncopied(left),
        }
    }

    /// Closes a ledger without transfers. If it was made in files that didn't exist, removes them.
    pub fn give_up(self, keeper: FileKeeper<S>) -> Closed<FileFrom<S>>
        requires { HasCleanDisk (file_state keeper.connection)
            → HoldsLedger (file_state keeper.connection) [] }
        ensures { IsLeftBy keeper.connection result }
    {
        if self.locked.seen().is_new() {
            self.locked.remove_new();
            Closed::Removed(keeper.release())
        } else {
            self.close(keeper)
        }
    }
}

/// Copies the log into the file, and gives both back. Then the file alone holds what the keeper held.
///
/// # Errors
///
/// If that fails: why, and the store that has both. A crash leaves of it what it could leave of the keeper's, so
/// nothing is lost.
fn copy_log<S: Start>(keeper: FileKeeper<S>) -> Result<Files<FileFrom<S>>, Uncopied<FileFrom<S>>>
    ensures closed { MatchResult result
        (IsClosed keeper.connection) (IsUncopied keeper.connection) }
    ensures copied { IfOk result (HasCopiedLog ⟦<FileFrom<S> as Disk>⟧) }
{
    match keeper.release().close_files() {
        Ok(files) => Ok(files),
        Err((error, store)) => Err(Uncopied { error, store }),
    }
}
