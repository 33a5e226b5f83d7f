//! The keepers of ledgers in memory, which can be closed and opened again.
use crate::breaker::{Breaker, Device};
use crate::breaking_file::BreakingFile;
use crate::breaking_keeper::BreakingKeeper;
use crate::file_keeper::{FileKeeper, LedgerFiles};
use crate::ledger_opening::opened;
use crate::lines::bad_line;
use crate::shown::write_sparse;
use bag_ledger::{Keeper, MapKeeper};
use bag_sqlite::{AdoptFault, SqlKeeper};
use sqlite::{Connection, Files, MemStore, Options};
use std::alloc::Global;
use std::io::{self, Write};

/// How many pages of its files a ledger keeps at hand. Each is a request for memory, so there are few.
const CACHE_PAGES: usize = 16;

/// A keeper of a ledger in memory, which can be closed and opened again.
pub trait Reopened<'a>: Keeper + Drop {
    /// What is left of a ledger that isn't open.
    type Closed: Drop;

    /// Nothing, of which the first opening makes a ledger without transfers.
    fn nothing(alloc: Global, breaker: &'a Breaker) -> Self::Closed;

    /// The ledger in this file of a database.
    ///
    /// # Errors
    ///
    /// `InvalidData` if a ledger of this kind is in no file; or memory ran out.
    fn in_file(alloc: Global, breaker: &'a Breaker, database: &[u8]) -> io::Result<Self::Closed>;

    /// Opens the ledger. `seed` is another one each time.
    ///
    /// # Errors
    ///
    /// The fault, with the ledger.
    fn opened_from(
        alloc: Global,
        closed: Self::Closed,
        breaker: &'a Breaker,
        seed: u64,
    ) -> Result<Self, (AdoptFault, Self::Closed)>;

    /// Closes the ledger.
    fn into_closed(self) -> Self::Closed;

    /// Leaves the ledger as a program does that stops.
    fn into_left(self, breaker: &'a Breaker) -> Self::Closed;

    /// Writes what the files of a ledger hold, if it is in files.
    fn write_left<W: Write + Drop>(closed: &Self::Closed, out: &mut W) -> io::Result<()>;
}

impl<'a> Reopened<'a> for BreakingKeeper<'a> {
    type Closed = MapKeeper;

    fn nothing(alloc: Global, _breaker: &'a Breaker) -> MapKeeper {
        MapKeeper::new(alloc)
    }

    fn in_file(_alloc: Global, _breaker: &'a Breaker, _database: &[u8]) -> io::Result<MapKeeper> {
        Err(bad_line())
    }

    fn opened_from(
        _alloc: Global,
        closed: MapKeeper,
        breaker: &'a Breaker,
        _seed: u64,
    ) -> Result<Self, (AdoptFault, MapKeeper)> {
        Ok(BreakingKeeper::new(closed, breaker))
    }

    fn into_closed(self) -> MapKeeper {
        self.into_inside()
    }

    fn into_left(self, _breaker: &'a Breaker) -> MapKeeper {
        self.into_inside()
    }

    fn write_left<W: Write + Drop>(_closed: &MapKeeper, _out: &mut W) -> io::Result<()> {
        Ok(())
    }
}

impl<'a> Reopened<'a> for SqlKeeper<MemStore> {
    /// None before there is a database.
    type Closed = Option<Connection<MemStore>>;

    fn nothing(_alloc: Global, _breaker: &'a Breaker) -> Option<Connection<MemStore>> {
        None
    }

    fn in_file(
        _alloc: Global,
        _breaker: &'a Breaker,
        _database: &[u8],
    ) -> io::Result<Option<Connection<MemStore>>> {
        Err(bad_line())
    }

    fn opened_from(
        alloc: Global,
        closed: Option<Connection<MemStore>>,
        _breaker: &'a Breaker,
        _seed: u64,
    ) -> Result<Self, (AdoptFault, Option<Connection<MemStore>>)> {
        let connection = match closed {
            Some(connection) => connection,
            None => match Connection::open_in_memory(alloc) {
                Ok(connection) => connection,
                Err(error) => return Err((AdoptFault::from(error), None)),
            },
        };
        match opened(connection) {
            Ok(keeper) => Ok(keeper),
            Err((fault, connection)) => Err((fault, Some(connection))),
        }
    }

    fn into_closed(self) -> Option<Connection<MemStore>> {
        Some(self.release())
    }

    fn into_left(self, _breaker: &'a Breaker) -> Option<Connection<MemStore>> {
        Some(self.release())
    }

    fn write_left<W: Write + Drop>(
        _closed: &Option<Connection<MemStore>>,
        _out: &mut W,
    ) -> io::Result<()> {
        Ok(())
    }
}

impl<'a> Reopened<'a> for FileKeeper<'a> {
    type Closed = LedgerFiles<'a>;

    fn nothing(alloc: Global, breaker: &'a Breaker) -> LedgerFiles<'a> {
        Files {
            log: BreakingFile::empty(alloc, breaker, Device::Log),
            db: BreakingFile::empty(alloc, breaker, Device::Database),
        }
    }

    fn in_file(
        alloc: Global,
        breaker: &'a Breaker,
        database: &[u8],
    ) -> io::Result<LedgerFiles<'a>> {
        Ok(Files {
            log: BreakingFile::empty(alloc, breaker, Device::Log),
            db: BreakingFile::holding(alloc, breaker, Device::Database, database)?,
        })
    }

    fn opened_from(
        alloc: Global,
        closed: LedgerFiles<'a>,
        breaker: &'a Breaker,
        seed: u64,
    ) -> Result<Self, (AdoptFault, LedgerFiles<'a>)> {
        let mut options = Options::new(seed);
        options.cache_pages = CACHE_PAGES;
        FileKeeper::open(alloc, restarted(closed, breaker), breaker, options)
    }

    /// If the log can't be copied into the database, it stays.
    fn into_closed(self) -> LedgerFiles<'a> {
        let (files, _) = self.close();
        files
    }

    fn into_left(self, breaker: &'a Breaker) -> LedgerFiles<'a> {
        restarted(self.abandon(), breaker)
    }

    fn write_left<W: Write + Drop>(closed: &LedgerFiles<'a>, out: &mut W) -> io::Result<()> {
        write!(out, " ")?;
        write_sparse(closed.log.octets(), out)?;
        write!(out, " ")?;
        write_sparse(closed.db.octets(), out)
    }
}

/// The files after a stop.
fn restarted<'a>(files: LedgerFiles<'a>, breaker: &'a Breaker) -> LedgerFiles<'a> {
    let is_cut = breaker.restart();
    let Files { log, db } = files;
    Files {
        log: log.restarted(is_cut),
        db: db.restarted(is_cut),
    }
}
