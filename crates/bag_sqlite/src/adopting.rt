//! Opens a database as the ledger that it holds.
ghost use Rattle.std.specs.Prelude.{◌≡◌, ◌≢◌, ◌↔◌, [], IfErr, IfOk, IsTrue, MatchResult, OnOk, false};
ghost use Rattle.std.specs.List.{AllByRecursion};
ghost use Rattle.bag_sqlite.specs.Adopted.{IsAdopted, IsNotAdopted};
ghost use Rattle.bag_sqlite.specs.Adopting.{AreTexts, HasFormat, HasLedgerRows, IsText, IsVerifiedAs, OnlyReads, SaysOf, ShowsTexts, Tells, names_and_paths, stray_item_texts, stray_texts};
ghost use Rattle.bag_sqlite.specs.NewTables.{IsLeft};
ghost use Rattle.bag_sqlite.specs.Refusing.{AreNoneFor, DoesNotShow, HasNoFormat, IsNoAnswer, IsNoLedger, IsNoQuery, IsNoneFor, RefusesToAdopt, SayNoFormat, SaysFormat};
ghost use Rattle.bag_sqlite.specs.Tables.{number_of};
ghost use Rattle.sqlite.specs.Held.{state};
ghost use Rattle.sqlite.specs.Order.{column};
ghost use Rattle.sqlite.specs.State.{HasCleanDisk, Survives};
ghost use Rattle.sqlite.specs.Values.{bound};

use crate::format::{Format, format_of};
use crate::health::Health;
use crate::keeper::SqlKeeper;
use crate::migrating::migrate;
use crate::queries::query;
use crate::verifying::verify_transfers;
use crate::watch::{Unwatched, Watch};
use sqlite::types::ValueRef;
use sqlite::{Alter, Connection, Error, ErrorCode, Row};
use std::alloc::AllocError;
use std::str;
use thiserror::Error as ErrorText;

/// Why a database isn't opened as a ledger. If several reasons apply, the first in this order is reported; `Memory` and
/// `Store` may be reported in place of any of them.
#[derive(Debug, Drop, ErrorText)]
pub enum AdoptFault {
    /// It doesn't name the format of a ledger; or it doesn't have the tables of the format that it names, or has rows
    /// that no ledger has: with values of another type, without an owner, or with a name or path that isn't UTF-8.
    #[error("not a ledger")]
    NotALedger,
    /// The tag files of a transfer can't open a transfer; or a payload file isn't listed, is incomplete or isn't valid.
    /// The first such transfer by the octets of its name is reported, and its first such payload file by those of its
    /// path.
    #[error("damaged")]
    Damaged {
        /// The transfer's name.
        name: String,
        /// The path of the payload file; empty if the tag files are at fault.
        path: String,
    },
    /// Memory ran out.
    #[error("out of memory")]
    Memory,
    /// The store failed with this error.
    #[error("the store failed")]
    Store(Error),
}

impl From<Error> for AdoptFault {
    ghost use Rattle.std.specs.Prelude.{◌≡◌};
    ghost use Rattle.bag_sqlite.specs.Refusing.{adopt_fault};

    ghost from_gives = { λ error fault. fault ≡ adopt_fault error };

    fn from(error: Error) -> AdoptFault {
        match error {
            Error::SqliteFailure(ErrorCode::OutOfMemory) => AdoptFault::Memory,
            Error::SqliteFailure(ErrorCode::NotADatabase)
            | Error::SqlInputError(_)
            | Error::InvalidColumnIndex(_)
            | Error::InvalidColumnType(_, _)
            | Error::IntegralValueOutOfRange(_)
            | Error::Utf8Error(_) => AdoptFault::NotALedger,
            _ => AdoptFault::Store(error),
        }
    }
}

impl From<AllocError> for AdoptFault {
    ghost use Rattle.std.specs.Prelude.{◌≡◌};
    ghost use Rattle.bag_sqlite.specs.declared.adopting.AdoptFault.TheVariants.{Memory};

    ghost from_gives = { λ _ fault. fault ≡ Memory };

    fn from(_: AllocError) -> AdoptFault {
        AdoptFault::Memory
    }
}

/// Why the ledger wasn't opened, and the connection. Its database is unchanged, whatever its format.
#[derive(Drop)]
pub struct NotAdopted<S: Alter> {
    /// The reason.
    pub fault: AdoptFault,
    /// The connection that was passed in.
    pub connection: Connection<S>,
}

impl<S: Alter> SqlKeeper<S> {
    /// Opens a database as the ledger that it holds, after reading and verifying all of its transfers and payload
    /// files.
    ///
    /// All octets of all payload files are read, piece by piece, and hashed: those of at most one piece together, and
    /// those of more one after another. In a ledger of format 1 a payload file is one blob, and is read whole; once all
    /// are verified, they are moved to format 2 in one transaction, so that the ledger is moved completely or not at
    /// all, even if a crash ends the call.
    ///
    /// # Errors
    ///
    /// The first fault in the order of [`AdoptFault`]: for a database that holds a ledger, as a keeper wrote it, only
    /// `Memory` or `Store`. If a transaction is open, `Store`.
    pub fn adopt(connection: Connection<S>) -> Result<SqlKeeper<S>, NotAdopted<S>>
        ensures adopted { MatchResult result
            (λ keeper. IsAdopted S.Store connection keeper.connection)
            (λ refused. IsNotAdopted S.Store connection refused.fault refused.connection) }
        ensures unfailed { IfOk result (λ keeper. (keeper.health.is_spent ≡ false)
            × (keeper.health.failures ≡ 0)) }
    {
        SqlKeeper::adopt_watched(connection, &Unwatched)
    }

    /// The same, with a watcher that is told what is read.
    ///
    /// # Errors
    ///
    /// Those of [`SqlKeeper::adopt`].
    pub fn adopt_watched<W: Watch>(
        connection: Connection<S>,
        watch: &W,
    ) -> Result<SqlKeeper<S>, NotAdopted<S>>
        ensures adopted { MatchResult result
            (λ keeper. IsAdopted S.Store connection keeper.connection)
            (λ refused. IsNotAdopted S.Store connection refused.fault refused.connection) }
        ensures unfailed { IfOk result (λ keeper. (keeper.health.is_spent ≡ false)
            × (keeper.health.failures ≡ 0)) }
    {
        let mut connection = connection;
        match take_over(&mut connection, watch) {
            Ok(()) => Ok(SqlKeeper {
                connection,
                health: Health::new(),
            }),
            Err(fault) => Err(NotAdopted { fault, connection }),
        }
    }
}

/// Reads a database and verifies what it holds. The payload files of a ledger of format 1 are moved to the tables of
/// format 2 then.
fn take_over<S: Alter, W: Watch>(
    connection: &mut Connection<S>,
    watch: &W,
) -> Result<(), AdoptFault>
    ensures adopted { MatchResult result
        (λ done. IsAdopted S.Store connection.old connection.new)
        (λ fault. IsNotAdopted S.Store connection.old fault connection.new) }
    ensures idle { OnOk result (connection.new.in_transaction ≡ false) }
{
    match verify_ledger(connection, watch)? {
        Format::First => match migrate(connection) {
            Ok(()) => Ok(()),
            Err(error) => Err(moving_fault(error)),
        },
        Format::Second => Ok(()),
    }
}

/// The fault to report if the payload files can't be moved.
fn moving_fault(error: Error) -> AdoptFault
    ensures told { IsNoAnswer result }
    ensures memory { (result ≡ AdoptFault.Memory)
        ↔ (error ≡ Error.SqliteFailure ErrorCode.OutOfMemory) }
    ensures store { result ≢ AdoptFault.Memory → result ≡ AdoptFault.Store error }
{
    match error {
        Error::SqliteFailure(ErrorCode::OutOfMemory) => AdoptFault::Memory,
        other => AdoptFault::Store(other),
    }
}

/// Reads a database and verifies what it holds. Returns its format.
fn verify_ledger<S: Alter, W: Watch>(
    connection: &mut Connection<S>,
    watch: &W,
) -> Result<Format, AdoptFault>
    ensures verified { HasCleanDisk (state S.Store connection.new) → MatchResult result
        (IsVerifiedAs S.Store (state S.Store connection.old).committed)
        (RefusesToAdopt S.Store (state S.Store connection.old).committed) }
    ensures left { HasCleanDisk (state S.Store connection.new)
        → IsLeft (state S.Store connection.old) (state S.Store connection.new) }
    ensures opened { HasCleanDisk (state S.Store connection.new)
        → OnOk result (IsTrue (state S.Store connection.old).is_open) }
    ensures idle { OnOk result ((connection.old.in_transaction ≡ false)
        × (connection.new.in_transaction ≡ false)) }
    ensures survives { Survives (state S.Store connection.old) (state S.Store connection.new)
        (λ _. ⊥) }
{
    if !connection.is_autocommit() {
        let error = Error::SqliteFailure(ErrorCode::TransactionState);
        return Err(AdoptFault::Store(error));
    }
    let format = format_of(connection)?;
    test_rows(connection, format)?;
    verify_transfers(connection, watch, format)?;
    Ok(format)
}

/// Checks that the rows of all tables are as a ledger has them, except for the contents.
fn test_rows<S: Alter>(connection: &mut Connection<S>, format: Format) -> Result<(), AdoptFault>
    requires idle { connection.old.in_transaction ≡ false }
    ensures rows { SaysOf S.Store connection.old connection.new (λ db.
        OnOk result (HasLedgerRows S.Store db format)) }
    ensures refused { SaysOf S.Store connection.old connection.new (λ db.
        IfErr result (IsNoneFor (IsNoLedger S.Store db format))) }
    ensures reads { OnlyReads S.Store connection.old connection.new }
{
    test_strays(connection, format)?;
    test_texts(connection, format)
}

/// Checks that the values have the types of a ledger's, and that each row has an owner: tag files and payload files a
/// transfer, and pieces a payload file.
fn test_strays<S: Alter>(connection: &mut Connection<S>, format: Format) -> Result<(), AdoptFault>
    requires idle { connection.old.in_transaction ≡ false }
    ensures none { SaysOf S.Store connection.old connection.new (λ db.
        OnOk result (AllByRecursion (λ text. Tells S.Store db text [] [])
        (stray_texts format))) }
    ensures refused { SaysOf S.Store connection.old connection.new (λ db.
        IfErr result (IsNoneFor (IsNoLedger S.Store db format))) }
    ensures reads { OnlyReads S.Store connection.old connection.new }
{
    test_none(
        connection,
        "SELECT 1 FROM transfer WHERE typeof(id) <> 'integer' OR typeof(name) <> 'text'",
    )?;
    test_none(
        connection,
        "SELECT 1 FROM tag WHERE typeof(transfer) <> 'integer' OR typeof(path) <> 'text' OR typeof(body) <> 'blob' OR NOT EXISTS (SELECT 1 FROM transfer WHERE id = tag.transfer)",
    )?;
    test_items(connection, format)
}

/// The same for the rows of payload files.
fn test_items<S: Alter>(connection: &mut Connection<S>, format: Format) -> Result<(), AdoptFault>
    requires idle { connection.old.in_transaction ≡ false }
    ensures none { SaysOf S.Store connection.old connection.new (λ db.
        OnOk result (AllByRecursion (λ text. Tells S.Store db text [] [])
        (stray_item_texts format))) }
    ensures refused { SaysOf S.Store connection.old connection.new (λ db.
        IfErr result (IsNoneFor (IsNoLedger S.Store db format))) }
    ensures reads { OnlyReads S.Store connection.old connection.new }
{
    match format {
        Format::First => test_none(
            connection,
            "SELECT rowid, body FROM item WHERE typeof(transfer) <> 'integer' OR typeof(path) <> 'text' OR typeof(size) <> 'integer' OR NOT EXISTS (SELECT 1 FROM transfer WHERE id = item.transfer)",
        ),
        Format::Second => test_pieces(connection),
    }
}

/// The same in format 2.
fn test_pieces<S: Alter>(connection: &mut Connection<S>) -> Result<(), AdoptFault>
    requires idle { connection.old.in_transaction ≡ false }
    ensures none { SaysOf S.Store connection.old connection.new (λ db.
        OnOk result (AllByRecursion (λ text. Tells S.Store db text [] [])
        (stray_item_texts Format.Second))) }
    ensures refused { SaysOf S.Store connection.old connection.new (λ db.
        IfErr result (IsNoneFor (IsNoLedger S.Store db Format.Second))) }
    ensures reads { OnlyReads S.Store connection.old connection.new }
{
    test_none(
        connection,
        "SELECT 1 FROM held WHERE typeof(id) <> 'integer' OR typeof(transfer) <> 'integer' OR typeof(path) <> 'text' OR typeof(size) <> 'integer' OR NOT EXISTS (SELECT 1 FROM transfer WHERE id = held.transfer)",
    )?;
    test_none(
        connection,
        "SELECT body FROM piece WHERE typeof(item) <> 'integer' OR typeof(n) <> 'integer' OR NOT EXISTS (SELECT 1 FROM held WHERE id = piece.item)",
    )
}

/// Checks that a query shows no rows.
fn test_none<S: Alter>(connection: &mut Connection<S>, sql: &str) -> Result<(), AdoptFault>
    requires idle { connection.old.in_transaction ≡ false }
    ensures none { SaysOf S.Store connection.old connection.new (λ db.
        OnOk result (Tells S.Store db sql.now [] [])) }
    ensures refused { SaysOf S.Store connection.old connection.new (λ db.
        IfErr result (IsNoneFor (DoesNotShow S.Store db sql.now [] (λ rows. rows ≡ [])))) }
    ensures reads { OnlyReads S.Store connection.old connection.new }
{
    if rows_of(connection, sql, &[])?.is_empty() {
        Ok(())
    } else {
        Err(AdoptFault::NotALedger)
    }
}

/// Checks that the names of all transfers, and the paths of all of their files, are UTF-8.
fn test_texts<S: Alter>(connection: &mut Connection<S>, format: Format) -> Result<(), AdoptFault>
    requires idle { connection.old.in_transaction ≡ false }
    ensures texts { SaysOf S.Store connection.old connection.new (λ db.
        OnOk result (AllByRecursion (ShowsTexts S.Store db) (names_and_paths format))) }
    ensures refused { SaysOf S.Store connection.old connection.new (λ db.
        IfErr result (IsNoneFor (IsNoLedger S.Store db format))) }
    ensures reads { OnlyReads S.Store connection.old connection.new }
{
    test_column(connection, "SELECT name FROM transfer")?;
    test_column(connection, "SELECT path FROM tag")?;
    test_column(connection, format.paths_text())
}

/// Checks that a query shows texts that are UTF-8.
fn test_column<S: Alter>(connection: &mut Connection<S>, sql: &str) -> Result<(), AdoptFault>
    requires idle { connection.old.in_transaction ≡ false }
    ensures texts { SaysOf S.Store connection.old connection.new (λ db.
        OnOk result (ShowsTexts S.Store db sql.now)) }
    ensures refused { SaysOf S.Store connection.old connection.new (λ db.
        IfErr result (IsNoneFor (DoesNotShow S.Store db sql.now [] AreTexts))) }
    ensures reads { OnlyReads S.Store connection.old connection.new }
{
    if are_texts(rows_of(connection, sql, &[])?.as_slice()) {
        Ok(())
    } else {
        Err(AdoptFault::NotALedger)
    }
}

/// Whether each of these rows begins with a text that is UTF-8.
fn are_texts(rows: &[Row]) -> bool
    ensures { IsTrue result ↔ AreTexts rows.now }
{
    for row in rows {
        if !is_text(row) {
            return false;
        }
    }
    true
}

/// Whether the row begins with a text that is UTF-8.
fn is_text(row: &Row) -> bool
    ensures { IsTrue result ↔ IsText (column row.now 0) }
{
    match row.get_ref(0) {
        Ok(ValueRef::Text(octets)) => str::from_utf8(octets).is_ok(),
        _ => false,
    }
}

/// All rows that a query shows.
pub(crate) fn rows_of<S: Alter>(
    connection: &mut Connection<S>,
    sql: &str,
    params: &[ValueRef<'_>],
) -> Result<Vec<Row>, AdoptFault>
    requires idle { connection.old.in_transaction ≡ false }
    ensures rows { SaysOf S.Store connection.old connection.new (λ db.
        IfOk result (λ rows. Tells S.Store db sql.now (bound params.now) rows.items)) }
    ensures refused { SaysOf S.Store connection.old connection.new (λ db.
        IfErr result (IsNoneFor (IsNoQuery db.schema sql.now))) }
    ensures opened { HasCleanDisk (state S.Store connection.new)
        → OnOk result (IsTrue (state S.Store connection.old).is_open) }
    ensures reads { OnlyReads S.Store connection.old connection.new }
{
    Ok(query(connection, sql, params)?)
}
