//! The formats of a ledger in a database, and the row that names the format.
ghost use Rattle.std.specs.Prelude.{◌≡◌, ℤ, IfErr, IfOk, IsTrue, MatchResult, OnOk, false};
ghost use Rattle.bag_sqlite.specs.Adopting.{HasFormat, OnlyReads, SaysOf, all_item_paths_text, items_text as texts};
ghost use Rattle.bag_sqlite.specs.LedgersInTables.{NamesFormat};
ghost use Rattle.bag_sqlite.specs.Migrating.{SetsFormat};
ghost use Rattle.bag_sqlite.specs.NewTables.{IsMade, IsMaking, no_rows};
ghost use Rattle.bag_sqlite.specs.Putting.{IsUnderWay};
ghost use Rattle.bag_sqlite.specs.Refusing.{AreNoneFor, HasNoFormat, IsNoneFor, SayNoFormat, SaysFormat};
ghost use Rattle.bag_sqlite.specs.Tables.{Migrated, New, number_of, second_schema};
ghost use Rattle.bag_sqlite.specs.Transactions.{CommitsNothing, StaysInside};
ghost use Rattle.sqlite.specs.Held.{state};
ghost use Rattle.sqlite.specs.State.{HasCleanDisk};

use crate::adopting::{AdoptFault, rows_of};
use sqlite::{Alter, Connection, Error, Row, Transaction};

/// The number of octets in each piece of a payload file, but for the last one, which may have fewer. A ledger has them,
/// so another number would be another format.
pub(crate) use bag_digest::PIECE;

/// The query for the content of a payload file in the first format, by its number.
pub(crate) const ITEM_BODY: &str = "SELECT body FROM item WHERE rowid = ?1";

/// The format of a ledger in a database.
#[derive(Clone, Copy)]
pub(crate) enum Format {
    /// Each payload file is one row, with its content.
    First,
    /// The content of a payload file is in pieces.
    Second,
}

impl Format {
    /// The query for the payload files of a transfer: the number, path and size of each, ordered by the octets of the
    /// path.
    pub(crate) fn items_text(self) -> &'static str
        ensures { result.now ≡ texts self }
    {
        match self {
            Format::First => {
                "SELECT rowid, path, size FROM item WHERE transfer = ?1 ORDER BY path COLLATE BINARY"
            }
            Format::Second => {
                "SELECT id, path, size FROM held WHERE transfer = ?1 ORDER BY path COLLATE BINARY"
            }
        }
    }

    /// The query for the paths of all payload files.
    pub(crate) fn paths_text(self) -> &'static str
        ensures { result.now ≡ all_item_paths_text self }
    {
        match self {
            Format::First => "SELECT path FROM item",
            Format::Second => "SELECT path FROM held",
        }
    }
}

/// The format that the database names.
pub(crate) fn format_of<S: Alter>(connection: &mut Connection<S>) -> Result<Format, AdoptFault>
    requires idle { connection.old.in_transaction ≡ false }
    ensures format { SaysOf S.Store connection.old connection.new (λ db.
        IfOk result (λ format. HasFormat S.Store db (number_of format))) }
    ensures refused { SaysOf S.Store connection.old connection.new (λ db.
        IfErr result (IsNoneFor (HasNoFormat S.Store db))) }
    ensures opened { HasCleanDisk (state S.Store connection.new)
        → OnOk result (IsTrue (state S.Store connection.old).is_open) }
    ensures reads { OnlyReads S.Store connection.old connection.new }
{
    let rows = rows_of(connection, "SELECT k, v FROM meta", &[])?;
    match format_in(rows.as_slice())? {
        1 => Ok(Format::First),
        2 => Ok(Format::Second),
        _ => Err(AdoptFault::NotALedger),
    }
}

/// The number of the format, from the only row.
fn format_in(rows: &[Row]) -> Result<i64, AdoptFault>
    ensures { MatchResult result (SaysFormat rows.now) (AreNoneFor (SayNoFormat rows.now)) }
{
    if rows.len() != 1 {
        return Err(AdoptFault::NotALedger);
    }
    let name: String = rows[0].get(0)?;
    if name.as_str() != "bag-ledger" {
        return Err(AdoptFault::NotALedger);
    }
    Ok(rows[0].get(1)?)
}

/// Names format 2 in a new ledger.
pub(crate) fn write_format<S: Alter>(tx: &mut Transaction<'_, S>) -> Result<(), Error>
    ensures made { HasCleanDisk (state S.Store tx.new.conn.now)
        → OnOk result (IsMaking (second_schema New) no_rows (state S.Store tx.old.conn.now)
        → IsMade (state S.Store tx.new.conn.now)) }
    ensures inside { StaysInside S.Store tx.old.conn tx.new.conn result }
    ensures kept { CommitsNothing S.Store tx.old.conn tx.new.conn }
{
    tx.execute("INSERT INTO meta (k, v) VALUES ('bag-ledger', 2)", &[])?;
    Ok(())
}

/// Names format 2 in a ledger of format 1.
pub(crate) fn set_format<S: Alter>(tx: &mut Transaction<'_, S>) -> Result<(), Error>
    ensures set { HasCleanDisk (state S.Store tx.new.conn.now)
        → OnOk result ((number : ℤ) → IsUnderWay Migrated (state S.Store tx.old.conn.now)
        → NamesFormat (state S.Store tx.old.conn.now).now.trees number
        → IsUnderWay Migrated (state S.Store tx.new.conn.now)
        × SetsFormat (state S.Store tx.old.conn.now).now.trees
        (state S.Store tx.new.conn.now).now.trees) }
    ensures inside { HasCleanDisk (state S.Store tx.new.conn.now)
        → OnOk result (IsTrue (state S.Store tx.old.conn.now).in_transaction
        → IsTrue (state S.Store tx.new.conn.now).in_transaction
        × IsTrue (state S.Store tx.new.conn.now).is_open) }
    ensures kept { CommitsNothing S.Store tx.old.conn tx.new.conn }
{
    tx.execute("UPDATE meta SET v = 2", &[])?;
    Ok(())
}
