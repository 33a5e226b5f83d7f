//! The file of a ledger while it is locked and no ledger is open in it: what is made, emptied and removed.
ghost use Rattle.std.specs.Prelude.{◌≡◌, ◌≢◌, IfOk, MatchResult, false, is_some, true};
ghost use Rattle.bag_program.specs.LedgerFiles.{AreOpenOn, HasCopiedLog, IsAdoptedFrom, IsConnectedTo, IsMadeIn, IsNewFile, IsUnopened, IsUnused, WasSeenBefore};
ghost use Rattle.bag_program.specs.FoundFiles.{BarsMaking};
ghost use Rattle.bag_program.specs.Unopened.{fault_seen};
ghost use Rattle.bag_sqlite.specs.Tables.{no_schema};
ghost use Rattle.sqlite.specs.Files.{file_state};
ghost use Rattle.sqlite_wal.specs.Files.{image_at};

use crate::ledgers::Opened;
use crate::ledgers::abandoned_ledger::AbandonedLedger;
use crate::ledgers::found_ledger::{Found, Seen};
use crate::ledgers::ledger_cause::LedgerCause;
use crate::ledgers::ledger_file::{OpenedFile, UnopenedFile};
use crate::ledgers::ledger_handle::Handle;
use crate::ledgers::locking::{Barred, open_locked};
use crate::ledgers::open_ledger::OpenLedger;
use crate::ledgers::unopened_ledger::{Left, Unopened};
use crate::progress_meter::Meter;
use bag_sqlite::{NotAdopted, NotCreated, SqlKeeper};
use sqlite::{Connection, FileFrom, FileStore, Files, Leftover, Options, Start};
use sqlite_disk::Disk;
use std::fs;
use std::hash::{BuildHasher, RandomState};
use std::marker::PhantomData;

/// The file of a ledger and its log, which are locked. `S` says what they held when they were opened.
///
/// Both are locked from before it is decided what they are until they are closed. What is found in them then, made and
/// removed is changed by no other run, and no other program can open them. What has to be removed is removed while they
/// are still open.
///
/// What removes or empties anything is an [`AbandonedLedger`], for which this is given up: so nothing is removed once a
/// ledger was opened, but for a log that was copied, and files that this run made for a ledger without transfers.
#[derive(Drop)]
pub struct LockedFile<'a, S> {
    rt: &'a HostRuntime,
    // from which a new log draws its salts
    seed: u64,
    // what was seen since both are locked
    seen: Seen,
    // the file apart from the connection
    handle: Handle,
    start: PhantomData<S>,
    ghost locked: { is_some seen.before ≡ true },
}

impl<'a, S: Start> LockedFile<'a, S> {
    /// Opens and locks the file and its log, and looks again what exists. A file that doesn't exist is made, with zero
    /// octets, and so is the log.
    ///
    /// # Errors
    ///
    /// Memory ran out; the file or the log can't be opened for writing or made; another program has locked one of them;
    /// or the file was removed, or made, after it was looked for. A file that was made stays then, since another run
    /// may use it.
    pub fn lock(
        rt: &'a HostRuntime,
        seen: Seen,
        start: S,
    ) -> Result<(LockedFile<'a, S>, Files<FileFrom<S>>), UnopenedFile<S>>
        ensures locked { MatchResult result
            (λ it. AreOpenOn ⟦<FileFrom<S> as Disk>⟧ (image_at S.Start) it.1)
            (λ it. IsUnused ⟦<FileFrom<S> as Disk>⟧ (image_at S.Start) it) }
        ensures seen { IfOk result (λ it. WasSeenBefore seen it.0.seen) }
    {
        let handle = match Handle::open(rt, &seen) {
            Ok(handle) => handle,
            Err(error) => {
                return Err(Unopened::barred(Barred::from(error), Left::Unused(start)));
            }
        };
        let files = match open_locked(rt, &seen, start) {
            Ok(files) => files,
            Err(it) => return Err(Unopened::barred(it.why(), Left::NotLocked(it))),
        };
        match LockedFile::settle(rt, seen, handle, &files) {
            Ok(it) => Ok((it, files)),
            Err(why) => Err(Unopened::barred(why, Left::Files(Leftover::Files(files)))),
        }
    }

    /// Looks again what exists, now that both are locked.
    ///
    /// # Errors
    ///
    /// Memory ran out; the operating system doesn't give the information; or the file was removed before it was locked.
    fn settle(
        rt: &'a HostRuntime,
        seen: Seen,
        handle: Handle,
        locked: &Files<FileFrom<S>>,
    ) -> Result<LockedFile<'a, S>, Barred>
        ensures { IfOk result (λ it. WasSeenBefore seen it.seen) }
    {
        if !handle.is_named(rt, seen.name())? {
            return Err(Barred::For(LedgerCause::Busy));
        }
        let seed = RandomState::new(rt)?.hash_one(&0u8);
        let seen = seen.again(rt, locked)?;
        Ok(LockedFile {
            rt,
            seed,
            seen,
            handle,
            start: PhantomData,
        })
    }

    /// What was seen since both are locked.
    pub fn seen(&self) -> &Seen
        ensures { result.now ≡ self.now.seen }
    {
        &self.seen
    }

    /// Opens no ledger, since none is in what was seen. Removes the log, unless anything was found in it.
    pub fn refuse(self, files: Files<FileFrom<S>>) -> UnopenedFile<S>
        requires open { AreOpenOn ⟦<FileFrom<S> as Disk>⟧ (image_at S.Start) files }
        requires none { self.seen.found ≢ Found.File }
        ensures unopened { IsUnopened ⟦<FileFrom<S> as Disk>⟧ (image_at S.Start) result
            (λ seen. seen ≡ self.entry.seen) (λ _. ⊥) }
        ensures fault { result.fault ≡ fault_seen self.entry.seen.found }
    {
        let seen = self.abandon().leave_log();
        Unopened::saw(seen, Left::Files(Leftover::Files(files)))
    }

    /// Opens the database in the files. If nothing else is there than a log, that is left alone.
    pub fn connect(
        self,
        files: Files<FileFrom<S>>,
    ) -> Result<(LockedFile<'a, S>, Connection<FileStore<FileFrom<S>>>), UnopenedFile<S>>
        requires open { AreOpenOn ⟦<FileFrom<S> as Disk>⟧ (image_at S.Start) files }
        requires may { ¬ BarsMaking self.seen.found }
        ensures connected { MatchResult result (λ it. IsConnectedTo (image_at S.Start) it.1)
            (λ it. IsUnused ⟦<FileFrom<S> as Disk>⟧ (image_at S.Start) it) }
        ensures file { IfOk result (λ it. it.0 ≡ self.entry) }
    {
        let options = Options::new(self.seed);
        match Connection::open_files_with(self.rt.alloc(), files, options, false) {
            Ok(connection) => Ok((self, connection)),
            Err((error, left)) => {
                let size = self.size();
                self.abandon().remove_made();
                Err(Unopened::unconnected(error, size, left))
            }
        }
    }

    /// Opens the database as the ledger that it holds, and counts what is read of it.
    pub fn adopt(
        self,
        connection: Connection<FileStore<FileFrom<S>>>,
        meter: &Meter<'_, HostRuntime>,
    ) -> Result<OpenedFile<'a, S>, UnopenedFile<S>>
        requires { IsConnectedTo (image_at S.Start) connection }
        ensures opened { MatchResult result (λ it. (it.is_made ≡ false)
            × IsAdoptedFrom (image_at S.Start) it.kept.connection)
            (λ it. IsUnopened ⟦<FileFrom<S> as Disk>⟧ (image_at S.Start) it (λ _. ⊥)
            (λ refused. refused ≡ connection)) }
        ensures file { IfOk result (λ it. it.file.locked ≡ self.entry) }
    {
        match SqlKeeper::adopt_watched(connection, meter) {
            Ok(keeper) => Ok(Opened::found(keeper, OpenLedger::new(self))),
            Err(NotAdopted { fault, connection }) => {
                let size = self.size();
                let _ = self.abandon().leave_log();
                Err(Unopened::unadopted(fault, size, connection))
            }
        }
    }

    /// Makes a ledger without transfers in a database without tables.
    pub fn make(
        self,
        connection: Connection<FileStore<FileFrom<S>>>,
    ) -> Result<OpenedFile<'a, S>, UnopenedFile<S>>
        requires connected { IsConnectedTo (image_at S.Start) connection }
        requires none { (file_state connection).now.schema ≡ no_schema }
        ensures made { MatchResult result (λ it. (it.is_made ≡ true)
            × IsMadeIn (image_at S.Start) it.kept.connection)
            (λ it. IsUnused ⟦<FileFrom<S> as Disk>⟧ (image_at S.Start) it) }
        ensures file { IfOk result (λ it. it.file.locked ≡ self.entry) }
    {
        match SqlKeeper::create(connection) {
            Ok(keeper) => Ok(Opened::made(keeper, OpenLedger::new(self))),
            Err(
                NotCreated {
                    fault,
                    trouble,
                    connection,
                },
            ) => {
                self.abandon().remove_made();
                Err(Unopened::unmade(fault, trouble, connection))
            }
        }
    }

    /// How many octets the file and its log had, if a file was found that may be a database.
    fn size(&self) -> Option<u64> {
        if !self.seen.has_file() {
            return None;
        }
        let octets = self.handle.size().ok()?;
        Some(octets.saturating_add(self.seen.log_size()))
    }

    /// No ledger is opened in the file.
    fn abandon(self) -> AbandonedLedger<'a>
        ensures { result.seen ≡ self.entry.seen }
    {
        AbandonedLedger::new(self.rt, self.seen, self.handle)
    }

    /// Removes the file and its log, which this run made.
    pub fn remove_new(self)
        requires { IsNewFile self.seen }
    {
        self.abandon().remove_made();
    }

    /// Removes the log, whose content the file holds, while both are locked.
    pub fn remove_copied_log(&self, _files: &Files<FileFrom<S>>)
        requires { HasCopiedLog ⟦<FileFrom<S> as Disk>⟧ _files.now }
    {
        let _ = fs::remove_file(self.rt, self.seen.log());
    }
}
