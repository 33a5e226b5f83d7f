//! Queries for one payload file.
ghost use Rattle.std.specs.Prelude.{◌≡◌, ◌≤◌, ◌/◌, ℕ, ℤ, false, IfOk, IsTrue, List, MatchOption, None, OnOk, [], length, pos, slice_index_or};
ghost use Rattle.std.specs.Option.{option_map, unwrap_or};
ghost use Rattle.bag_ledger.specs.Keeping.{IsPieceAt};
ghost use Rattle.bag_ledger.specs.Ledgers.{Ledger, content_of};
ghost use Rattle.bag_sqlite.specs.Items.{HasItem, HasItemRow, HasPieceRow};
ghost use Rattle.bag_sqlite.specs.Reading.{OnlyQueries};
ghost use Rattle.bag_sqlite.specs.SqlKeepers.{HoldsLedger, ShowsLedger};
ghost use Rattle.bag_sqlite.specs.Tables.{Origin, Second};
ghost use Rattle.sqlite.specs.Held.{state};
ghost use Rattle.sqlite.specs.Order.{column};
ghost use Rattle.sqlite.specs.State.{HasCleanDisk};
ghost use Rattle.sqlite.specs.declared.types.Value.TheVariants.{Blob, Int};

use crate::format::PIECE;
use crate::queries::query;
use crate::transfer_queries::transfer_number;
use bag_ledger::copy_piece;
use sqlite::{Alter, Connection, Error, Row, params};

/// The query for the octets of a piece of a payload file, by their numbers.
pub(crate) const PIECE_BODY: &str = "SELECT body FROM piece WHERE item = ?1 AND n = ?2";

/// A payload file in a database: its number and its size in octets.
#[derive(Clone, Copy)]
pub(crate) struct HeldFile {
    pub(crate) number: i64,
    pub(crate) size: u64,
}

/// The size in octets of the payload file at this path, if the transfer holds it.
pub(crate) fn size_of<S: Alter>(
    connection: &mut Connection<S>,
    name: &str,
    path: &str,
) -> Result<Option<u64>, Error>
    requires { connection.old.in_transaction ≡ false }
    ensures size { HasCleanDisk (state S.Store connection.new) → (ledger : Ledger)
        → HoldsLedger (state S.Store connection.old) ledger
        → IfOk result (λ size. size ≡ option_map length (content_of ledger name.now path.now)) }
    ensures queries { OnlyQueries S.Store connection.old connection.new }
{
    match item_of(connection, name, path)? {
        Some(item) => Ok(Some(item.size)),
        None => Ok(None),
    }
}

/// Reads octets of a held payload file, starting at `offset` and at most to the end of that piece, into the front of
/// the buffer. Returns how many it read. If the payload file isn't held, it reads none.
pub(crate) fn read_piece<S: Alter>(
    connection: &mut Connection<S>,
    name: &str,
    path: &str,
    offset: u64,
    buf: &mut [u8],
) -> Result<usize, Error>
    requires { connection.old.in_transaction ≡ false }
    ensures piece { HasCleanDisk (state S.Store connection.new) → (ledger : Ledger)
        → HoldsLedger (state S.Store connection.old) ledger
        → IfOk result (λ n. IsPieceAt (unwrap_or (content_of ledger name.now path.now) [])
        offset n buf.new) }
    ensures bound { IfOk result (λ n. n ≤ length buf.new) }
    ensures queries { OnlyQueries S.Store connection.old connection.new }
{
    let Some(item) = item_of(connection, name, path)? else {
        return Ok(0);
    };
    let Some(piece) = piece_at(connection, item.number, offset)? else {
        return Ok(0);
    };
    Ok(copy_piece(piece.as_slice(), offset % PIECE as u64, buf))
}

/// The payload file that a transfer holds at this path, if there is one.
fn item_of<S: Alter>(
    connection: &mut Connection<S>,
    name: &str,
    path: &str,
) -> Result<Option<HeldFile>, Error>
    requires { connection.old.in_transaction ≡ false }
    ensures item { HasCleanDisk (state S.Store connection.new) → (ledger : Ledger)
        → HoldsLedger (state S.Store connection.old) ledger → (origin : Origin)
        → ShowsLedger (Second origin) (state S.Store connection.old) ledger
        → IfOk result (λ item. MatchOption item (content_of ledger name.now path.now ≡ None)
        (λ item. HasItem origin (state S.Store connection.old).now.trees name.now path.now
        item.number item.size)) }
    ensures opened { HasCleanDisk (state S.Store connection.new)
        → OnOk result (IsTrue (state S.Store connection.old).is_open) }
    ensures queries { OnlyQueries S.Store connection.old connection.new }
{
    let Some(transfer) = transfer_number(connection, name)? else {
        return Ok(None);
    };
    item_in(connection, transfer, path)
}

/// The payload file with this path that the transfer with this number holds, if there is one.
fn item_in<S: Alter>(
    connection: &mut Connection<S>,
    transfer: i64,
    path: &str,
) -> Result<Option<HeldFile>, Error>
    requires { connection.old.in_transaction ≡ false }
    ensures item { HasCleanDisk (state S.Store connection.new) → (ledger : Ledger)
        → (origin : Origin) → ShowsLedger (Second origin) (state S.Store connection.old) ledger
        → IfOk result (λ item. MatchOption item
        ((number : ℤ) (size : ℕ) → ¬ HasItemRow origin
        (state S.Store connection.old).now.trees number transfer path.now size)
        (λ item. HasItemRow origin (state S.Store connection.old).now.trees item.number transfer
        path.now item.size)) }
    ensures opened { HasCleanDisk (state S.Store connection.new)
        → OnOk result (IsTrue (state S.Store connection.old).is_open) }
    ensures queries { OnlyQueries S.Store connection.old connection.new }
{
    let rows = query(
        connection,
        "SELECT id, size FROM held WHERE transfer = ?1 AND path = ?2",
        params![transfer, path],
    )?;
    first_item(rows.as_slice())
}

/// The payload file whose number and size are in the first two columns of the first row, if there is a row.
fn first_item(rows: &[Row]) -> Result<Option<HeldFile>, Error>
    ensures { IfOk result (λ item. MatchOption item (rows.now ≡ [])
        (λ item. (column (slice_index_or rows.now 0 []) 0 ≡ Int item.number)
        × (column (slice_index_or rows.now 0 []) 1 ≡ Int (pos item.size)))) }
{
    let Some(row) = rows.first() else {
        return Ok(None);
    };
    let number = row.get(0)?;
    let size = row.get(1)?;
    Ok(Some(HeldFile { number, size }))
}

/// The piece of the payload file with this number that contains this offset, if there is one.
fn piece_at<S: Alter>(
    connection: &mut Connection<S>,
    item: i64,
    offset: u64,
) -> Result<Option<Vec<u8>>, Error>
    requires { connection.old.in_transaction ≡ false }
    ensures piece { HasCleanDisk (state S.Store connection.new) → (ledger : Ledger)
        → (origin : Origin) → ShowsLedger (Second origin) (state S.Store connection.old) ledger
        → IfOk result (λ piece. MatchOption piece
        ((body : List ℕ) → ¬ HasPieceRow origin (state S.Store connection.old).now.trees item
        (offset / PIECE) body)
        (λ piece. HasPieceRow origin (state S.Store connection.old).now.trees item
        (offset / PIECE) piece.items)) }
    ensures opened { HasCleanDisk (state S.Store connection.new)
        → OnOk result (IsTrue (state S.Store connection.old).is_open) }
    ensures queries { OnlyQueries S.Store connection.old connection.new }
{
    let rows = query(
        connection,
        PIECE_BODY,
        params![item, (offset / PIECE as u64) as i64],
    )?;
    first_octets(rows.as_slice())
}

/// The octets in the first column of the first row, if there is a row.
fn first_octets(rows: &[Row]) -> Result<Option<Vec<u8>>, Error>
    ensures { IfOk result (λ octets. MatchOption octets (rows.now ≡ [])
        (λ octets. column (slice_index_or rows.now 0 []) 0 ≡ Blob octets.items)) }
{
    match rows.first() {
        Some(row) => Ok(Some(row.get(0)?)),
        None => Ok(None),
    }
}
