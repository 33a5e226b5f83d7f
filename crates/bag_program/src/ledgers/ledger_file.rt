//! Finds and opens ledgers in files on disk.
ghost use Rattle.std.specs.Prelude.{◌≡◌, ◌≢◌, MatchResult, false, ⊤};
ghost use Rattle.bag_program.specs.LedgerFiles.{HasTables, IsAdoptedFrom, IsMadeIn, IsUnopened, OpensOrMakes};
ghost use Rattle.bag_program.specs.FoundFiles.{BarsMaking};
ghost use Rattle.bag_program.specs.Unopened.{fault_seen};
ghost use Rattle.sqlite_wal.specs.Files.{image_at};

use crate::ledgers::Opened;
use crate::ledgers::found_ledger::{Found, Seen, is_absence};
use crate::ledgers::locked_file::LockedFile;
use crate::ledgers::locking::Barred;
use crate::ledgers::open_ledger::{FileKeeper, OpenLedger};
use crate::ledgers::unopened_ledger::{Left, Unopened};
use crate::progress_line::Progress;
use crate::progress_meter::{Activity, Meter};
use bag_sqlite::has_nothing;
use sqlite::{FileFrom, Start};
use sqlite_disk::Disk;
use std::fs;

/// The ledger in a file. `S` says what the file held when it was opened.
pub type OpenedFile<'a, S> = Opened<FileKeeper<S>, OpenLedger<'a, S>>;

/// Why the ledger in a file wasn't opened.
pub type UnopenedFile<S> = Unopened<Left<S, FileFrom<S>>>;

/// The file of a ledger, which hasn't been opened.
#[derive(Drop)]
pub struct LedgerFile<'a> {
    rt: &'a HostRuntime,
    // what was seen at its name, which is without symbolic links if the file exists
    seen: Seen,
    // counts what is read of it
    meter: Meter<'a, HostRuntime>,
}

impl<'a> LedgerFile<'a> {
    /// Looks up what exists at this name, without opening it.
    ///
    /// # Errors
    ///
    /// Memory ran out, or the operating system doesn't give the information.
    pub fn find(
        rt: &'a HostRuntime,
        progress: &'a Progress<'a, HostRuntime>,
        name: &str,
    ) -> Result<LedgerFile<'a>, Barred> {
        let alloc = rt.alloc();
        let name = match fs::canonicalize(rt, name) {
            Ok(real) => String::from_str(alloc, real.as_str())?,
            Err(error) if is_absence(&error) => String::from_str(alloc, name)?,
            Err(error) => return Err(Barred::from(error)),
        };
        let seen = Seen::look(rt, name)?;
        let meter = Meter::new(progress, Activity::ReadingLedger);
        meter.expect_file(rt, seen.name());
        meter.expect_file(rt, seen.log());
        Ok(LedgerFile { rt, seen, meter })
    }

    /// Opens the ledger in the file, as [`SqlKeeper::adopt`](bag_sqlite::SqlKeeper::adopt) does.
    ///
    /// # Errors
    ///
    /// Those of `adopt`. Also `NotALedger` if there is no file or it is empty, and `Store` if what is left of a ledger
    /// is in its log then, or if the file can't be opened for writing or another program has it open. The file stays as
    /// it was, and so does its log, unless this made it.
    pub fn open<S: Start>(self, start: S) -> Result<OpenedFile<'a, S>, UnopenedFile<S>>
        ensures opened { MatchResult result (λ it. (it.is_made ≡ false)
            × IsAdoptedFrom (image_at S.Start) it.kept.connection)
            (λ it. IsUnopened ⟦<FileFrom<S> as Disk>⟧ (image_at S.Start) it
            (λ seen. (seen.name ≡ self.entry.seen.name) × (seen.found ≢ Found.File)) (λ _. ⊤)) }
        ensures none { self.entry.seen.found ≢ Found.File → MatchResult result (λ _. ⊥)
            (λ it. (it.fault ≡ fault_seen self.entry.seen.found) × (it.left ≡ Left.Unused start)) }
    {
        if !self.seen.has_file() {
            return Err(Unopened::saw(self.seen, Left::Unused(start)));
        }
        let (file, files) = LockedFile::lock(self.rt, self.seen, start)?;
        // It may have been emptied before it was locked.
        if !file.seen().has_file() {
            return Err(file.refuse(files));
        }
        let (file, connection) = file.connect(files)?;
        file.adopt(connection, &self.meter)
    }

    /// Opens the ledger in the file. If there is no file, or no table in it, makes a ledger without transfers.
    ///
    /// # Errors
    ///
    /// Those of [`LedgerFile::open`], except that the file may be missing or empty, if its log isn't what is left of a
    /// ledger. Whatever was created until the error is removed, unless another run may use it.
    pub fn open_or_make<S: Start>(self, start: S) -> Result<OpenedFile<'a, S>, UnopenedFile<S>>
        ensures opened { MatchResult result (λ it. OpensOrMakes it.is_made
            (IsAdoptedFrom (image_at S.Start) it.kept.connection)
            (IsMadeIn (image_at S.Start) it.kept.connection))
            (λ it. IsUnopened ⟦<FileFrom<S> as Disk>⟧ (image_at S.Start) it
            (λ seen. (seen.name ≡ self.entry.seen.name) × BarsMaking seen.found) HasTables) }
        ensures none { BarsMaking self.entry.seen.found → MatchResult result (λ _. ⊥)
            (λ it. (it.fault ≡ fault_seen self.entry.seen.found) × (it.left ≡ Left.Unused start)) }
    {
        if self.seen.bars_making() {
            return Err(Unopened::saw(self.seen, Left::Unused(start)));
        }
        let (file, files) = LockedFile::lock(self.rt, self.seen, start)?;
        // Its file may have been emptied or removed before it was locked, and a log be alone.
        if file.seen().bars_making() {
            return Err(file.refuse(files));
        }
        let (file, connection) = file.connect(files)?;
        if has_nothing(&connection) {
            file.make(connection)
        } else {
            file.adopt(connection, &self.meter)
        }
    }
}
