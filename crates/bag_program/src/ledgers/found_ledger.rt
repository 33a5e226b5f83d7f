//! What is found at the name of a ledger.
ghost use Rattle.std.specs.Prelude.{◌≡◌, ◌≢◌, ◌≤◌, ◌<◌, ◌↔◌, ◌⊎◌, ◌++◌, IfOk, Some, codes, string_bytes, true};
ghost use Rattle.bag_program.specs.FoundFiles.{BarsMaking, IsBesideLog};
ghost use Rattle.bag_program.specs.declared.ledgers.found_ledger.TheConstants.{NEW_LOG};

use crate::ledgers::locking::Barred;
use sqlite::{FileFrom, Files, Start};
use std::fs;
use std::io::{self, ErrorKind};

/// How many octets the log of a new ledger has at most, until the first page of the file is on the disk: a header, and
/// the beginning of a first frame.
pub const NEW_LOG: u64 = 41;

/// What is found at a file name.
#[derive(Clone, Copy, Debug, PartialEq, Eq)]
pub enum Found {
    /// Nothing. Its log has no more than that of a new ledger.
    Nothing,
    /// A file of zero octets. Its log has no more than that of a new ledger.
    Empty,
    /// Nothing, or a file of zero octets, and a log that has more: what is left of a ledger.
    LogAlone,
    /// A file that may be a database.
    File,
    /// Anything else, such as a directory.
    Other,
}

/// What was seen at the names of a file and its log, which has the file's name followed by `-wal`.
#[derive(Drop)]
pub struct Seen {
    name: String,
    log: String,
    // what was found before both were locked, once they are
    before: Option<Found>,
    found: Found,
    // how many octets the log had
    log_size: u64,
    ghost pair: { string_bytes log ≡ string_bytes name ++ codes "-wal" },
    ghost beside: { IsBesideLog found log_size },
}

impl Seen {
    /// Looks up what exists at the name of a file and at its log's, without opening it.
    ///
    /// # Errors
    ///
    /// Memory ran out, or the operating system doesn't give the information.
    pub fn look(rt: &HostRuntime, name: String) -> Result<Seen, Barred>
        ensures { IfOk result (λ seen. seen.name ≡ name) }
    {
        let log = format!(in rt.alloc(); "{}-wal", name.as_str())?;
        let log_size = size_of_log(rt, log.as_str())?;
        let found = found_at(rt, name.as_str(), log_size)?;
        Ok(Seen {
            name,
            log,
            before: None,
            found,
            log_size,
        })
    }

    /// Looks again at the same names, now that the file and its log are locked.
    ///
    /// # Errors
    ///
    /// The operating system doesn't give the information.
    pub fn again<S: Start>(self, rt: &HostRuntime, _locked: &Files<FileFrom<S>>) -> io::Result<Seen>
        ensures { IfOk result (λ seen. (seen.name ≡ self.name) × (seen.log ≡ self.log)
            × (seen.before ≡ Some self.found)) }
    {
        let Seen {
            name,
            log,
            found: before,
            ..
        } = self;
        let log_size = size_of_log(rt, log.as_str())?;
        let found = found_at(rt, name.as_str(), log_size)?;
        Ok(Seen {
            name,
            log,
            before: Some(before),
            found,
            log_size,
        })
    }

    /// The name of the file.
    pub fn name(&self) -> &str
        ensures { result.now ≡ string_bytes self.now.name }
    {
        self.name.as_str()
    }

    /// The name of its log.
    pub fn log(&self) -> &str
        ensures { result.now ≡ string_bytes self.now.log }
    {
        self.log.as_str()
    }

    /// What was found at the name of the file.
    pub fn found(&self) -> Found
        ensures { result ≡ self.now.found }
    {
        self.found
    }

    /// Whether a file was found that may be a database.
    pub fn has_file(&self) -> bool
        ensures { (result ≡ true) ↔ (self.now.found ≡ Found.File) }
    {
        matches!(self.found, Found::File)
    }

    /// Whether something was found in which no database can be made, or over which none may be made.
    pub fn bars_making(&self) -> bool
        ensures { (result ≡ true) ↔ BarsMaking self.now.found }
    {
        matches!(self.found, Found::Other | Found::LogAlone)
    }

    /// Whether there was anything in the log.
    pub fn had_log(&self) -> bool
        ensures { (result ≡ true) ↔ (self.now.log_size ≢ 0) }
    {
        self.log_size > 0
    }

    /// How many octets were in the log.
    pub fn log_size(&self) -> u64
        ensures { result ≡ self.now.log_size }
    {
        self.log_size
    }

    /// Whether this run made both: nothing was there before they were locked, and then a file of zero octets without a
    /// log. No other run has written to it.
    pub fn is_new(&self) -> bool
        ensures { (result ≡ true) ↔ ((self.now.before ≡ Some Found.Nothing)
            × (self.now.found ≡ Found.Empty) × (self.now.log_size ≡ 0)) }
    {
        matches!(self.before, Some(Found::Nothing))
            && self.found == Found::Empty
            && self.log_size == 0
    }
}

/// What exists at this name, beside a log of this size.
///
/// A file of one octet without a log is `Other`, because the store would take it for a database that it was about to
/// create. Where there is no file, or one of zero octets, it would make a database and write over the log. So that is
/// `LogAlone` if all of a ledger may be in the log.
fn found_at(rt: &HostRuntime, name: &str, log_size: u64) -> io::Result<Found>
    ensures { IfOk result (λ found. IsBesideLog found log_size) }
{
    let about = match fs::metadata(rt, name) {
        Ok(about) => about,
        Err(error) if is_absence(&error) => return Ok(found_empty(Found::Nothing, log_size)),
        Err(error) => return Err(error),
    };
    Ok(match about.len() {
        _ if !about.is_file() => Found::Other,
        0 => found_empty(Found::Empty, log_size),
        1 if log_size == 0 => Found::Other,
        _ => Found::File,
    })
}

/// Nothing or a file of zero octets was found, beside a log of this size.
fn found_empty(found: Found, log_size: u64) -> Found
    requires { (found ≡ Found.Nothing) ⊎ (found ≡ Found.Empty) }
    ensures new { log_size ≤ NEW_LOG → result ≡ found }
    ensures alone { NEW_LOG < log_size → result ≡ Found.LogAlone }
{
    if log_size > NEW_LOG {
        Found::LogAlone
    } else {
        found
    }
}

/// How many octets the log with this name has: none if no file has the name.
pub fn size_of_log(rt: &HostRuntime, name: &str) -> io::Result<u64> {
    match fs::metadata(rt, name) {
        Ok(about) if about.is_file() => Ok(about.len()),
        Ok(_) => Ok(0),
        Err(error) if is_absence(&error) => Ok(0),
        Err(error) => Err(error),
    }
}

/// Whether the error means that nothing exists at the name.
pub fn is_absence(error: &io::Error) -> bool {
    matches!(error.kind(), ErrorKind::NotFound | ErrorKind::NotADirectory)
}
