//! Why the file of a ledger can't be used.
ghost use Rattle.std.specs.Prelude.{◌≡◌};
ghost use Rattle.std.specs.Option.{option_map};
ghost use Rattle.bag_program.specs.Unopened.{cause_of_store};

use sqlite::{Error, ErrorCode};
use std::fmt::{self, Display, Formatter};
use std::io;

/// The error of a store that gave what no sound database gives, and told none.
const DAMAGED: Error = Error::SqliteFailure(ErrorCode::DatabaseCorrupt);

const LOG_ALONE: &str = "it is missing or empty, and its log is what is left of a ledger";

/// Why the file of a ledger can't be used.
#[derive(Clone, Copy, Debug)]
pub enum LedgerCause {
    /// The operating system refused a call.
    System(io::Error),
    /// It is a link or no plain file, or has several names.
    NotPlain,
    /// It is open, or was removed or made while it was opened.
    Busy,
    /// There is a rollback journal beside it.
    Journal,
    /// Nothing has its name.
    Missing,
    /// It has no octets.
    Empty,
    /// It doesn't exist or has no octets, and its log is what is left of a ledger.
    LogAlone,
    /// It is no file that can be a database.
    NotFile,
    /// It isn't a database.
    NoDatabase,
    /// It is the database of something else.
    NoLedger,
    /// Memory ran out while it was opened. It and its log have this many octets.
    NeedsMemory(u64),
    /// The database has failed with this error.
    Database(Error),
    /// Its log couldn't be copied into it, because of this error.
    LogStays(Error),
}

impl LedgerCause {
    /// The store of an open ledger has failed, with this error if it told one. Otherwise it gave what no sound database
    /// gives.
    pub fn of_store(trouble: Option<Error>) -> LedgerCause
        ensures { result ≡ cause_of_store trouble }
    {
        LedgerCause::Database(trouble.unwrap_or(DAMAGED))
    }

    /// Memory ran out while a ledger of this size was opened. `None` if its size isn't known.
    pub fn of_size(size: Option<u64>) -> Option<LedgerCause>
        ensures { result ≡ option_map LedgerCause.NeedsMemory size }
    {
        match size {
            Some(octets) => Some(LedgerCause::NeedsMemory(octets)),
            None => None,
        }
    }
}

impl Display for LedgerCause {
    fn fmt<W: fmt::Write>(&self, f: &mut Formatter<W>) -> fmt::Result {
        match self {
            LedgerCause::System(error) => write!(f, "{error}"),
            LedgerCause::NotPlain => f.write_str("it has several names, or is not a plain file"),
            LedgerCause::Busy => f.write_str("it is in use"),
            LedgerCause::Journal => f.write_str("there is a rollback journal beside it"),
            LedgerCause::Missing => f.write_str("it does not exist"),
            LedgerCause::Empty => f.write_str("it is empty"),
            LedgerCause::LogAlone => f.write_str(LOG_ALONE),
            LedgerCause::NotFile => f.write_str("it is not a file that can be a database"),
            LedgerCause::NoDatabase => f.write_str("it is not a database"),
            LedgerCause::NoLedger => f.write_str("it is a database, but not a ledger"),
            LedgerCause::NeedsMemory(octets) => write!(
                f,
                "it has {octets} octets, and opening it takes as much memory and a little more"
            ),
            LedgerCause::Database(error) => write!(f, "{error}"),
            LedgerCause::LogStays(error) => write!(
                f,
                "its log stays beside it, and both have to be kept together: {error}"
            ),
        }
    }
}
