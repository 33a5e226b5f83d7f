//! The statements that write a payload file to a database.
ghost use Rattle.std.specs.Prelude.{◌<◌, ◌/◌, ◌^◌, IfOk, IsTrue, OnOk};
ghost use Rattle.bag_sqlite.specs.Putting.{AddsItem, AddsPiece, IsUnderWay, SetsSize};
ghost use Rattle.bag_sqlite.specs.Tables.{Origin};
ghost use Rattle.bag_sqlite.specs.Transactions.{ChangesRows, CommitsNothing, StaysInside, WasOpen};
ghost use Rattle.sqlite.specs.Held.{state};
ghost use Rattle.sqlite.specs.State.{HasCleanDisk};

use crate::format::PIECE;
use sqlite::{Alter, Error, Transaction, params};

/// Inserts the row of a payload file with size 0, and returns its number.
pub(crate) fn insert_item<S: Alter>(
    tx: &mut Transaction<'_, S>,
    transfer: i64,
    path: &str,
) -> Result<i64, Error>
    ensures added { HasCleanDisk (state S.Store tx.new.conn.now)
        → IfOk result (λ item. ChangesRows S.Store tx.old.conn tx.new.conn
        (λ origin before after. AddsItem origin before after item transfer path.now 0)) }
    ensures opened { WasOpen S.Store tx.old.conn tx.new.conn result }
    ensures inside { StaysInside S.Store tx.old.conn tx.new.conn result }
    ensures kept { CommitsNothing S.Store tx.old.conn tx.new.conn }
{
    tx.execute(
        "INSERT INTO held (transfer, path, size) VALUES (?1, ?2, 0)",
        params![transfer, path],
    )?;
    Ok(tx.last_insert_rowid())
}

/// Inserts the row of the piece of a payload file that begins at this offset in octets.
pub(crate) fn insert_piece<S: Alter>(
    tx: &mut Transaction<'_, S>,
    item: i64,
    offset: u64,
    body: &[u8],
) -> Result<(), Error>
    ensures added { HasCleanDisk (state S.Store tx.new.conn.now)
        → OnOk result (ChangesRows S.Store tx.old.conn tx.new.conn
        (λ origin before after. AddsPiece origin before after item (offset / PIECE) body.now)) }
    ensures inside { StaysInside S.Store tx.old.conn tx.new.conn result }
    ensures kept { CommitsNothing S.Store tx.old.conn tx.new.conn }
{
    tx.execute(
        "INSERT INTO piece (item, n, body) VALUES (?1, ?2, ?3)",
        params![item, (offset / PIECE as u64) as i64, body],
    )?;
    Ok(())
}

/// Sets the size in octets of the payload file with this number.
pub(crate) fn set_size<S: Alter>(
    tx: &mut Transaction<'_, S>,
    item: i64,
    size: u64,
) -> Result<(), Error>
    requires { size < 2 ^ 63 }
    ensures set { HasCleanDisk (state S.Store tx.new.conn.now)
        → OnOk result (ChangesRows S.Store tx.old.conn tx.new.conn
        (λ origin before after. SetsSize origin before after item size)) }
    ensures inside { StaysInside S.Store tx.old.conn tx.new.conn result }
    ensures kept { CommitsNothing S.Store tx.old.conn tx.new.conn }
{
    tx.execute(
        "UPDATE held SET size = ?2 WHERE id = ?1",
        params![item, size as i64],
    )?;
    Ok(())
}
