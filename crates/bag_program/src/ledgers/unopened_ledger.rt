//! Why a ledger wasn't opened.
ghost use Rattle.std.specs.Prelude.{◌≡◌, ◌≢◌, Some};
ghost use Rattle.bag_program.specs.Unopened.{cause_barred, cause_of_error, cause_of_fault, cause_seen, cause_unmade, fault_barred, fault_seen, fault_unmade};
ghost use Rattle.bag_sqlite.specs.Refusing.{adopt_fault};

use crate::ledgers::found_ledger::{Found, Seen};
use crate::ledgers::ledger_cause::LedgerCause;
use crate::ledgers::locking::{Barred, NotLocked};
use bag_ledger::KeepFault;
use bag_sqlite::AdoptFault;
use sqlite::{Connection, Error, ErrorCode, FileStore, Leftover};
use sqlite_disk::Disk;

/// The error of a store that told none: no database was opened.
const UNTOLD: Error = Error::SqliteFailure(ErrorCode::CannotOpen);

/// Why a ledger wasn't opened, and what is left of it.
#[derive(Drop)]
pub struct Unopened<L> {
    /// The fault that is printed.
    pub fault: AdoptFault,
    /// The cause, if it is known and the fault doesn't say it.
    pub cause: Option<LedgerCause>,
    /// What was seen in place of a database, if it is the cause.
    pub seen: Option<Seen>,
    /// What was opened of it.
    pub left: L,
}

/// What was opened of a ledger in a file that can't be used. The file is closed, and no longer locked, when this is
/// dropped. `S` says what the file holds.
#[derive(Drop)]
pub enum Left<S, D: Disk> {
    /// Nothing.
    Unused(S),
    /// Nothing, since the file couldn't be opened and locked.
    NotLocked(NotLocked<S>),
    /// The file and its log, on which no connection was opened.
    Files(Leftover<D>),
    /// A connection. Its database can't be used, or no ledger could be made in it.
    Database(Connection<FileStore<D>>),
}

impl<S, D: Disk> Unopened<Left<S, D>> {
    /// This was seen, and no ledger can be opened in it.
    pub fn saw(seen: Seen, left: Left<S, D>) -> Unopened<Left<S, D>>
        requires { seen.found ≢ Found.File }
        ensures left { (result.left ≡ left) × (result.seen ≡ Some seen) }
        ensures fault { (result.fault ≡ fault_seen seen.found)
            × (result.cause ≡ Some (cause_seen seen.found)) }
    {
        let (fault, cause) = match seen.found() {
            Found::Nothing => (AdoptFault::NotALedger, LedgerCause::Missing),
            Found::Empty => (AdoptFault::NotALedger, LedgerCause::Empty),
            Found::LogAlone => (AdoptFault::Store(UNTOLD), LedgerCause::LogAlone),
            Found::File | Found::Other => (AdoptFault::NotALedger, LedgerCause::NotFile),
        };
        Unopened {
            fault,
            cause: Some(cause),
            seen: Some(seen),
            left,
        }
    }

    /// The file couldn't be opened and locked, or it isn't known what it is.
    pub fn barred(why: Barred, left: Left<S, D>) -> Unopened<Left<S, D>>
        ensures left { result.left ≡ left }
        ensures fault { (result.fault ≡ fault_barred why) × (result.cause ≡ cause_barred why) }
    {
        let (fault, cause) = match why {
            Barred::Memory => (AdoptFault::Memory, None),
            Barred::For(cause) => (AdoptFault::Store(UNTOLD), Some(cause)),
        };
        Unopened {
            fault,
            cause,
            seen: None,
            left,
        }
    }

    /// No connection was opened on the files, because of this error. They have this many octets, if that is known.
    pub fn unconnected(error: Error, size: Option<u64>, files: Leftover<D>) -> Unopened<Left<S, D>>
        ensures left { result.left ≡ Left.Files files }
        ensures fault { (result.fault ≡ adopt_fault error)
            × (result.cause ≡ cause_of_error size error) }
    {
        let cause = match error {
            Error::SqliteFailure(ErrorCode::OutOfMemory) => LedgerCause::of_size(size),
            Error::SqliteFailure(ErrorCode::NotADatabase) => Some(LedgerCause::NoDatabase),
            _ => Some(LedgerCause::Database(error)),
        };
        Unopened {
            fault: AdoptFault::from(error),
            cause,
            seen: None,
            left: Left::Files(files),
        }
    }

    /// The database isn't opened as a ledger, because of this fault. It has this many octets, if that is known.
    pub fn unadopted(
        fault: AdoptFault,
        size: Option<u64>,
        connection: Connection<FileStore<D>>,
    ) -> Unopened<Left<S, D>>
        ensures left { result.left ≡ Left.Database connection }
        ensures fault { (result.fault ≡ fault) × (result.cause ≡ cause_of_fault size fault) }
    {
        let cause = match &fault {
            AdoptFault::NotALedger => Some(LedgerCause::NoLedger),
            AdoptFault::Store(error) => Some(LedgerCause::Database(*error)),
            AdoptFault::Memory => LedgerCause::of_size(size),
            AdoptFault::Damaged { .. } => None,
        };
        Unopened {
            fault,
            cause,
            seen: None,
            left: Left::Database(connection),
        }
    }

    /// No ledger was made in the database, because of this fault, with this error of the store.
    pub fn unmade(
        fault: KeepFault,
        trouble: Option<Error>,
        connection: Connection<FileStore<D>>,
    ) -> Unopened<Left<S, D>>
        ensures left { result.left ≡ Left.Database connection }
        ensures fault { (result.fault ≡ fault_unmade fault trouble)
            × (result.cause ≡ cause_unmade fault trouble) }
    {
        let (fault, cause) = match fault {
            KeepFault::Memory => (AdoptFault::Memory, None),
            KeepFault::Store(_) => {
                let cause = LedgerCause::of_store(trouble);
                (AdoptFault::Store(trouble.unwrap_or(UNTOLD)), Some(cause))
            }
        };
        Unopened {
            fault,
            cause,
            seen: None,
            left: Left::Database(connection),
        }
    }
}
