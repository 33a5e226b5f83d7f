//! How a command has ended, and why it wasn't done or had nothing to do.
ghost use Rattle.std.specs.Prelude.{◌≡◌, string_bytes};
ghost use Rattle.std.specs.Option.{option_map};
ghost use Rattle.bag_program.specs.Endings.{IsToldOf, IsWhyOf, or_why, plain, why_exceeds, why_failed};

use crate::ledgers::ledger_cause::LedgerCause;
use crate::named::Named;
use crate::told_limit::Limit;
use crate::told_name::{FolderName, ToldName};
use crate::told_refusal::Refusal;
use bag_folder::Unfit;
use std::alloc::Global;
use std::fmt::{self, Display, Formatter};

/// How a command has ended.
#[derive(Debug, Drop)]
pub struct Ended {
    /// The exit status.
    pub status: u8,
    /// Why the command wasn't done, if it printed `bag: ..` and more is known than that line says, or why it had
    /// nothing to do.
    pub why: Option<Why>,
}

impl Ended {
    /// Nothing has to be explained.
    pub fn plain(status: u8) -> Ended
        ensures { result ≡ plain status }
    {
        Ended { status, why: None }
    }

    /// The same, with this reason if it has none, or only that of a refusal or of a folder without payload files.
    pub fn or(self, why: Option<Why>) -> Ended
        ensures { result ≡ or_why self why }
    {
        Ended {
            status: self.status,
            why: match self.why {
                None => why,
                Some(Why::Empty(folder)) => why.or(Some(Why::Empty(folder))),
                Some(Why::Refused(refusal)) => why.or(Some(Why::Refused(refusal))),
                told => told,
            },
        }
    }
}

/// Why a command wasn't done, or had nothing to do.
#[derive(Debug, Drop)]
pub enum Why {
    /// Something on disk can't be used.
    Unfit(Unfit),
    /// Something on disk exceeds a limit.
    Exceeds(Named<Limit>),
    /// There are no payload files in this folder.
    Empty(FolderName),
    /// No transfer was opened.
    Refused(Named<Refusal>),
    /// A ledger can't be used.
    Ledger(Named<LedgerCause>),
    /// A word is no name of an algorithm.
    UnknownAlgorithm,
}

impl Why {
    /// The folder has no payload files, if there is one.
    pub fn of_empty(folder: Option<FolderName>) -> Option<Why>
        ensures { result ≡ option_map Why.Empty folder }
    {
        match folder {
            Some(folder) => Some(Why::Empty(folder)),
            None => None,
        }
    }

    /// What couldn't be used, if that is known.
    pub fn of_trouble(trouble: Option<Unfit>) -> Option<Why>
        ensures { result ≡ option_map Why.Unfit trouble }
    {
        match trouble {
            Some(unfit) => Some(Why::Unfit(unfit)),
            None => None,
        }
    }

    /// The same for a folder that has failed this many times. Nothing is told of one that hasn't failed.
    pub fn of_failures(failures: u64, trouble: Option<Unfit>) -> Option<Why>
        ensures { result ≡ why_failed failures trouble }
    {
        match failures {
            0 => None,
            _ => Why::of_trouble(trouble),
        }
    }

    /// What has this name exceeds a limit.
    pub fn of_excess(name: String, limit: Limit) -> Option<Why>
        ensures { result ≡ why_exceeds (string_bytes name) limit }
    {
        Some(Why::Exceeds(Named { name, what: limit }))
    }

    /// No transfer was opened, for what the transfer with this name has to do with it, if memory suffices.
    pub fn of_refusal(alloc: Global, name: &str, refusal: Refusal) -> Option<Why>
        ensures { IsToldOf name.now refusal result }
    {
        let name = String::from_str(alloc, name).ok()?;
        Some(Why::Refused(Named {
            name,
            what: refusal,
        }))
    }

    /// The ledger with this name can't be used for this cause, if that is known and memory suffices.
    pub fn of_ledger(alloc: Global, name: &str, cause: Option<LedgerCause>) -> Option<Why>
        ensures { IsWhyOf name.now cause result }
    {
        let cause = cause?;
        let name = String::from_str(alloc, name).ok()?;
        Some(Why::Ledger(Named { name, what: cause }))
    }
}

impl Display for Why {
    fn fmt<W: fmt::Write>(&self, f: &mut Formatter<W>) -> fmt::Result {
        match self {
            Why::Unfit(unfit) => write!(
                f,
                "{}: {}",
                ToldName::of(unfit.path.as_str()),
                unfit.cause
            ),
            Why::Exceeds(Named { name, what }) => write!(
                f,
                "{}{what}",
                ToldName::of(name.as_str())
            ),
            Why::Empty(folder) => {
                let folder = ToldName::of(folder.text.as_str());
                write!(f, "{folder}: it has no payload file below data/")
            }
            Why::Refused(Named { name, what }) => write!(
                f,
                "{}{what}",
                ToldName::of(name.as_str())
            ),
            Why::Ledger(Named { name, what }) => write!(
                f,
                "{}: {what}",
                ToldName::of(name.as_str())
            ),
            Why::UnknownAlgorithm => f.write_str("the algorithms are md5, sha1, sha256 and sha512"),
        }
    }
}
