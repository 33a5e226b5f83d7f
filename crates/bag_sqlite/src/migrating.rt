//! Moves the payload files of a ledger of format 1 to the tables of format 2.
ghost use Rattle.std.specs.Prelude.{◌≡◌, ℕ, ℤ, List, IfOk, IsTrue, MatchOption, OnErr, OnOk, [], ◌∷◌, false, slice_index_or};
ghost use Rattle.std.specs.List.{AllByRecursion, concat};
ghost use Rattle.bag_ledger.specs.Ledgers.{Ledger};
ghost use Rattle.bag_sqlite.specs.Contents.{HasContentMore, in_pieces};
ghost use Rattle.bag_sqlite.specs.LedgersInTables.{AreCut, NamesFormat};
ghost use Rattle.bag_sqlite.specs.NewTables.{IsLeft};
ghost use Rattle.bag_sqlite.specs.Migrating.{Empties, HasBody, IsInBoth, IsMigrated, IsToMove, MovesLedger, SetsFormat, ShowsMoved};
ghost use Rattle.bag_sqlite.specs.Putting.{AddsPieces, IsUnderWay};
ghost use Rattle.bag_sqlite.specs.Refusing.{IsBlob};
ghost use Rattle.bag_sqlite.specs.Tables.{Migrated, Origin, item_tree};
ghost use Rattle.bag_sqlite.specs.Transactions.{ChangesRows, CommitsNothing, CommitsNothingWithin, StaysInside};
ghost use Rattle.sqlite.specs.Held.{state};
ghost use Rattle.sqlite.specs.Order.{column};
ghost use Rattle.sqlite.specs.State.{HasCleanDisk, Survives};
ghost use Rattle.sqlite.specs.Values.{IsInt};
ghost use Rattle.sqlite.specs.declared.types.Value.TheVariants.{Blob};

use crate::format::{ITEM_BODY, PIECE, set_format};
use crate::item_statements::{insert_item, insert_piece, set_size};
use crate::new_tables::make_item_tables;
use sqlite::types::ValueRef;
use sqlite::{Alter, Connection, Error, ErrorCode, Row, Transaction, params};

/// Moves the payload files of a ledger of format 1 to the tables of format 2, in one transaction. The table of format 1
/// stays, and is empty.
pub(crate) fn migrate<S: Alter>(connection: &mut Connection<S>) -> Result<(), Error>
    requires idle { connection.old.in_transaction ≡ false }
    ensures moved { HasCleanDisk (state S.Store connection.new)
        → OnOk result (ShowsMoved (state S.Store connection.old) (state S.Store connection.new)) }
    ensures idle { connection.new.in_transaction ≡ false }
    ensures unchanged { HasCleanDisk (state S.Store connection.new)
        → OnErr result (IsLeft (state S.Store connection.old) (state S.Store connection.new)) }
    ensures survives { Survives (state S.Store connection.old) (state S.Store connection.new)
        (MovesLedger (state S.Store connection.old)) }
{
    let mut transaction = connection.transaction();
    make_item_tables(&mut transaction)?;
    move_items(&mut transaction)?;
    leave_format_1(&mut transaction)?;
    transaction.commit()
}

/// Moves all payload files, in any order.
fn move_items<S: Alter>(tx: &mut Transaction<'_, S>) -> Result<(), Error>
    ensures moved { HasCleanDisk (state S.Store tx.new.conn.now) → OnOk result ((ledger : Ledger)
        → IsToMove ledger (state S.Store tx.old.conn.now)
        → IsInBoth ledger (state S.Store tx.new.conn.now)) }
    ensures inside { StaysInside S.Store tx.old.conn tx.new.conn result }
    ensures kept { CommitsNothingWithin S.Store tx.old.conn tx.new.conn }
{
    let rows = tx.query_all("SELECT rowid, transfer, path FROM item", &[])?;
    for row in rows.as_slice() {
        let path: String = row.get(2)?;
        move_item(tx, row.get(0)?, row.get(1)?, path.as_str())?;
    }
    Ok(())
}

/// Moves the payload file with this number, transfer and path.
fn move_item<S: Alter>(
    tx: &mut Transaction<'_, S>,
    item: i64,
    transfer: i64,
    path: &str,
) -> Result<(), Error>
    ensures moved { HasCleanDisk (state S.Store tx.new.conn.now) → OnOk result ((content : List ℕ)
        → IsUnderWay Migrated (state S.Store tx.old.conn.now)
        → HasBody (state S.Store tx.old.conn.now).now.trees item transfer path.now content
        → IsUnderWay Migrated (state S.Store tx.new.conn.now)
        × HasContentMore Migrated (state S.Store tx.old.conn.now).now.trees
        (state S.Store tx.new.conn.now).now.trees transfer path.now content) }
    ensures inside { StaysInside S.Store tx.old.conn tx.new.conn result }
    ensures kept { CommitsNothingWithin S.Store tx.old.conn tx.new.conn }
{
    let rows = tx.query_all(ITEM_BODY, params![item])?;
    match first_body(rows.as_slice()) {
        Some(body) => store_content(tx, transfer, path, body),
        None => Err(Error::SqliteFailure(ErrorCode::DatabaseCorrupt)),
    }
}

/// The octets in the first column of the first row, if there are any.
fn first_body(rows: &[Row]) -> Option<&[u8]>
    ensures { MatchOption result (¬ IsBlob (column (slice_index_or rows.now 0 []) 0))
        (λ body. column (slice_index_or rows.now 0 []) 0 ≡ Blob body.now) }
{
    let row = rows.first()?;
    match row.get_ref(0) {
        Ok(ValueRef::Blob(body)) => Some(body),
        _ => None,
    }
}

/// Inserts the rows of a payload file with this content.
fn store_content<S: Alter>(
    tx: &mut Transaction<'_, S>,
    transfer: i64,
    path: &str,
    content: &[u8],
) -> Result<(), Error>
    ensures stored { HasCleanDisk (state S.Store tx.new.conn.now)
        → OnOk result (ChangesRows S.Store tx.old.conn tx.new.conn
        (λ origin before after. HasContentMore origin before after transfer path.now content.now)) }
    ensures inside { StaysInside S.Store tx.old.conn tx.new.conn result }
    ensures kept { CommitsNothing S.Store tx.old.conn tx.new.conn }
{
    let item = insert_item(tx, transfer, path)?;
    insert_pieces(tx, item, content)?;
    set_size(tx, item, content.len() as u64)
}

/// Inserts the rows of the pieces of a content.
fn insert_pieces<S: Alter>(
    tx: &mut Transaction<'_, S>,
    item: i64,
    content: &[u8],
) -> Result<(), Error>
    ensures stored { OnOk result ((pieces : List (List ℕ)) × AreCut pieces
        × (concat pieces ≡ content.now) × (HasCleanDisk (state S.Store tx.new.conn.now)
        → ChangesRows S.Store tx.old.conn tx.new.conn
        (λ origin before after. AddsPieces origin before after (in_pieces item [] pieces)))) }
    ensures inside { StaysInside S.Store tx.old.conn tx.new.conn result }
    ensures kept { CommitsNothing S.Store tx.old.conn tx.new.conn }
{
    let mut offset = 0;
    while offset < content.len() {
        let end = content.len().min(offset + PIECE);
        insert_piece(tx, item, offset as u64, &content[offset..end])?;
        offset = end;
    }
    Ok(())
}

/// Empties the table of format 1, and sets the number of the format.
fn leave_format_1<S: Alter>(tx: &mut Transaction<'_, S>) -> Result<(), Error>
    ensures left { HasCleanDisk (state S.Store tx.new.conn.now) → OnOk result ((ledger : Ledger)
        → IsInBoth ledger (state S.Store tx.old.conn.now)
        → IsMigrated ledger (state S.Store tx.new.conn.now)) }
    ensures inside { HasCleanDisk (state S.Store tx.new.conn.now)
        → OnOk result (IsTrue (state S.Store tx.old.conn.now).in_transaction
        → IsTrue (state S.Store tx.new.conn.now).in_transaction
        × IsTrue (state S.Store tx.new.conn.now).is_open) }
    ensures kept { CommitsNothing S.Store tx.old.conn tx.new.conn }
{
    empty_items(tx)?;
    set_format(tx)
}

/// Deletes the rows of the table of format 1.
fn empty_items<S: Alter>(tx: &mut Transaction<'_, S>) -> Result<(), Error>
    ensures emptied { HasCleanDisk (state S.Store tx.new.conn.now)
        → OnOk result (IsUnderWay Migrated (state S.Store tx.old.conn.now)
        → AllByRecursion (λ row. IsInt (column row 0))
        ((state S.Store tx.old.conn.now).now.trees item_tree)
        → IsUnderWay Migrated (state S.Store tx.new.conn.now)
        × Empties (state S.Store tx.old.conn.now).now.trees
        (state S.Store tx.new.conn.now).now.trees) }
    ensures inside { StaysInside S.Store tx.old.conn tx.new.conn result }
    ensures kept { CommitsNothing S.Store tx.old.conn tx.new.conn }
{
    tx.execute("DELETE FROM item", &[])?;
    Ok(())
}
