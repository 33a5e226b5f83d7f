//! Work on a ledger that stops at a call of one of its two files, for `tests/ledger.py`.
use crate::breaker::{Breaker, Device};
use crate::breaking_file::BreakingFile;
use crate::file_keeper::{FileKeeper, LedgerFiles};
use crate::lines::answer_lines;
use bag_ledger::Keeper;
use bag_receiver::Receiver;
use sqlite::{Files, Options};
use std::fs;
use std::io::{self, ErrorKind, Write};

/// Opens the ledger in a database or makes one, answers the events on standard input, and closes the ledger. All of
/// that is done with copies of the files in memory. What a stop at their last call would leave is then written back.
/// The words say which call that is.
pub fn stop<W: Write + Drop>(rt: &HostRuntime, words: &[String], out: &mut W) -> io::Result<u8> {
    let [_, file, calls, how, seed, database] = words else {
        return Ok(64);
    };
    let (Ok(calls), Ok(seed)) = (calls.parse::<u64>(), seed.parse::<u64>()) else {
        return Ok(64);
    };
    let breaker = Breaker::after(Device::of(file.as_str()), calls);
    let is_cut = how.as_str() == "cut";
    stop_in(rt, database.as_str(), &breaker, is_cut, seed, out)?;
    Ok(0)
}

/// The same, in this database. If `is_cut`, what no sync had reached is lost.
fn stop_in<W: Write + Drop>(
    rt: &HostRuntime,
    database: &str,
    breaker: &Breaker,
    is_cut: bool,
    seed: u64,
    out: &mut W,
) -> io::Result<()> {
    let log = format!(in rt.alloc(); "{database}-wal")?;
    let files = Files {
        log: copied(rt, log.as_str(), breaker, Device::Log)?,
        db: copied(rt, database, breaker, Device::Database)?,
    };
    let (left, printed) = work(rt, files, breaker, Options::new(seed), out);
    printed?;
    let Files { log: left_log, db } = left;
    fs::write(rt, log.as_str(), left_log.restarted(is_cut).octets())?;
    fs::write(rt, database, db.restarted(is_cut).octets())
}

/// A copy of the file in memory. If there is no file, the copy is empty.
fn copied<'a>(
    rt: &HostRuntime,
    name: &str,
    breaker: &'a Breaker,
    file: Device,
) -> io::Result<BreakingFile<'a>> {
    match fs::read(rt, name) {
        Ok(octets) => BreakingFile::holding(rt.alloc(), breaker, file, octets.as_slice()),
        Err(error) if error.kind() == ErrorKind::NotFound => {
            Ok(BreakingFile::empty(rt.alloc(), breaker, file))
        }
        Err(error) => Err(error),
    }
}

/// Writes a line for the opening, one for each event, and one for the closing. Returns the files, and whether all was
/// printed.
fn work<'a, W: Write + Drop>(
    rt: &HostRuntime,
    files: LedgerFiles<'a>,
    breaker: &'a Breaker,
    options: Options,
    out: &mut W,
) -> (LedgerFiles<'a>, io::Result<()>) {
    match FileKeeper::open(rt.alloc(), files, breaker, options) {
        Ok(keeper) => {
            let (keeper, answered) = answer_in(rt, keeper, out);
            let (left, is_closed) = keeper.close();
            let printed = match answered {
                Ok(()) => write_end(is_closed, out),
                Err(error) => Err(error),
            };
            (left, printed)
        }
        Err((fault, left)) => (left, writeln!(out, "{fault}")),
    }
}

fn write_end<W: Write + Drop>(is_closed: bool, out: &mut W) -> io::Result<()> {
    writeln!(out, "{}", if is_closed { "closed" } else { "not closed" })
}

/// Says that the ledger was opened, and answers the events. Returns the keeper, and whether all was printed.
fn answer_in<K: Keeper + Drop, W: Write + Drop>(
    rt: &HostRuntime,
    keeper: K,
    out: &mut W,
) -> (K, io::Result<()>) {
    let mut receiver = Receiver::new(rt.alloc(), keeper);
    let answered = answer_opened(rt, &mut receiver, out);
    (receiver.into_keeper(), answered)
}

fn answer_opened<K: Keeper + Drop, W: Write + Drop>(
    rt: &HostRuntime,
    receiver: &mut Receiver<K>,
    out: &mut W,
) -> io::Result<()> {
    writeln!(out, "opened")?;
    answer_lines(rt, receiver, out)
}
