//! Opens databases as ledgers.
use bag_sqlite::{AdoptFault, NotAdopted, NotCreated, SqlKeeper};
use sqlite::{Alter, Connection, FileStore, Files, Options};
use sqlite_disk::Disk;
use std::alloc::Global;

/// Opens the ledger in this database. If it has no tables, makes a ledger without transfers.
///
/// # Errors
///
/// The fault, with the connection.
pub fn opened<S: Alter + Drop>(
    connection: Connection<S>,
) -> Result<SqlKeeper<S>, (AdoptFault, Connection<S>)> {
    if connection.schema().tables.is_empty() {
        made(connection)
    } else {
        adopted(connection)
    }
}

/// Makes a ledger in this database.
fn made<S: Alter + Drop>(
    connection: Connection<S>,
) -> Result<SqlKeeper<S>, (AdoptFault, Connection<S>)> {
    match SqlKeeper::create(connection) {
        Ok(keeper) => Ok(keeper),
        Err(
            NotCreated {
                fault: _,
                trouble,
                connection,
            },
        ) => {
            let fault = match trouble {
                Some(error) => AdoptFault::Store(error),
                None => AdoptFault::Memory,
            };
            Err((fault, connection))
        }
    }
}

/// Opens the ledger in this database.
pub fn adopted<S: Alter + Drop>(
    connection: Connection<S>,
) -> Result<SqlKeeper<S>, (AdoptFault, Connection<S>)> {
    match SqlKeeper::adopt(connection) {
        Ok(keeper) => Ok(keeper),
        Err(NotAdopted { fault, connection }) => Err((fault, connection)),
    }
}

/// Opens the ledger in these files. If they have no tables, makes a ledger without transfers. Each opening of the same
/// files needs options with another seed.
///
/// # Errors
///
/// The fault, with the files.
pub fn opened_in<D: Disk + Drop>(
    alloc: Global,
    files: Files<D>,
    options: Options,
) -> Result<SqlKeeper<FileStore<D>>, (AdoptFault, Files<D>)> {
    if !files.may_be_used() {
        return Err((AdoptFault::NotALedger, files));
    }
    match Connection::open_files(alloc, files, options) {
        Ok(connection) => match opened(connection) {
            Ok(keeper) => Ok(keeper),
            Err((fault, connection)) => Err((fault, connection.into_store().close())),
        },
        Err((error, left)) => Err((AdoptFault::from(error), left.into_files())),
    }
}

/// Closes the ledger, which copies its log into the database. Returns the files, and whether that succeeded.
pub fn closed_in<D: Disk + Drop>(keeper: SqlKeeper<FileStore<D>>) -> (Files<D>, bool) {
    match keeper.release().close_files() {
        Ok(files) => (files, true),
        Err((_, store)) => (store.close(), false),
    }
}

/// Gives the ledger up, and copies nothing. Returns the files.
pub fn abandoned_in<D: Disk + Drop>(keeper: SqlKeeper<FileStore<D>>) -> Files<D> {
    keeper.release().into_store().close()
}

/// Why a database wasn't opened as a ledger.
pub fn adopt_text(fault: &AdoptFault) -> &'static str {
    match fault {
        AdoptFault::NotALedger => "not a ledger",
        AdoptFault::Damaged { .. } => "damaged",
        AdoptFault::Memory => "memory",
        AdoptFault::Store(_) => "store",
    }
}
