//! Opens a transfer in a database.
ghost use Rattle.std.specs.Prelude.{◌≡◌, ℤ, [], ◌∷◌, IfOk, IsTrue, MatchResult, OnOk, false};
ghost use Rattle.bag_ledger.specs.Keeping.{IsUnused, Leaves, Writes};
ghost use Rattle.bag_ledger.specs.Ledgers.{with_transfer};
ghost use Rattle.bag_rules.specs.Files.{files_of};
ghost use Rattle.bag_rules.specs.Opening.{Opens};
ghost use Rattle.bag_sqlite.specs.Beginning.{AddsTags, AddsTransfer, HasOneTransferMore, opened_under};
ghost use Rattle.bag_sqlite.specs.Putting.{IsUnderWay};
ghost use Rattle.bag_sqlite.specs.SqlKeepers.{HoldsLedger, MayLeaveLedger};
ghost use Rattle.bag_sqlite.specs.Tables.{Origin};
ghost use Rattle.bag_sqlite.specs.Transactions.{ChangesRows, CommitsNothing, WasOpen};
ghost use Rattle.sqlite.specs.Held.{Held, state};
ghost use Rattle.sqlite.specs.State.{HasCleanDisk};

use bag_rules::{File, TagSet};
use sqlite::{Alter, Connection, Error, Transaction, params};

/// Opens a transfer with an unused name, with these tag files, in one transaction.
pub(crate) fn begin_transfer<S: Alter>(
    connection: &mut Connection<S>,
    name: &str,
    tags: &TagSet,
) -> Result<(), Error>
    requires idle { connection.old.in_transaction ≡ false }
    requires opens { Opens tags.now }
    ensures begun { MatchResult result
        (λ done. Writes (λ (connection : Held S). HoldsLedger (state S.Store connection))
        (λ connection. MayLeaveLedger (state S.Store connection))
        (λ connection. HasCleanDisk (state S.Store connection))
        (IsUnused name.now) connection.old connection.new
        (λ ledger. with_transfer ledger name.now tags.now))
        (λ error. Leaves (λ (connection : Held S). HoldsLedger (state S.Store connection))
        (λ connection. MayLeaveLedger (state S.Store connection))
        (λ connection. HasCleanDisk (state S.Store connection))
        (IsUnused name.now) connection.old connection.new
        (λ ledger. with_transfer ledger name.now tags.now)) }
    ensures idle { connection.new.in_transaction ≡ false }
{
    let mut transaction = connection.transaction();
    write_transfer(&mut transaction, name, tags.files())?;
    transaction.commit()
}

/// Inserts the row of a transfer and those of its tag files.
fn write_transfer<S: Alter>(
    tx: &mut Transaction<'_, S>,
    name: &str,
    files: &[File],
) -> Result<(), Error>
    ensures written { HasCleanDisk (state S.Store tx.new.conn.now)
        → OnOk result (ChangesRows S.Store tx.old.conn tx.new.conn
        (λ origin before after. (number : ℤ) × HasOneTransferMore origin before after
        (opened_under number name.now (files_of files.now)))) }
    ensures opened { WasOpen S.Store tx.old.conn tx.new.conn result }
    ensures kept { CommitsNothing S.Store tx.old.conn tx.new.conn }
{
    let transfer = insert_transfer(tx, name)?;
    insert_tags(tx, transfer, files)
}

/// Inserts the row of a transfer, and returns its number.
fn insert_transfer<S: Alter>(tx: &mut Transaction<'_, S>, name: &str) -> Result<i64, Error>
    ensures added { HasCleanDisk (state S.Store tx.new.conn.now)
        → IfOk result (λ transfer. ChangesRows S.Store tx.old.conn tx.new.conn
        (λ origin before after. AddsTransfer origin before after transfer name.now)) }
    ensures opened { WasOpen S.Store tx.old.conn tx.new.conn result }
    ensures kept { CommitsNothing S.Store tx.old.conn tx.new.conn }
{
    tx.execute("INSERT INTO transfer (name) VALUES (?1)", params![name])?;
    Ok(tx.last_insert_rowid())
}

/// Inserts the rows of a transfer's tag files.
fn insert_tags<S: Alter>(
    tx: &mut Transaction<'_, S>,
    transfer: i64,
    files: &[File],
) -> Result<(), Error>
    ensures added { HasCleanDisk (state S.Store tx.new.conn.now)
        → OnOk result (ChangesRows S.Store tx.old.conn tx.new.conn
        (λ origin before after. AddsTags origin before after transfer (files_of files.now))) }
    ensures kept { CommitsNothing S.Store tx.old.conn tx.new.conn }
{
    for file in files {
        insert_tag(tx, transfer, file.path().as_str(), file.body())?;
    }
    Ok(())
}

/// Inserts the row of a tag file.
fn insert_tag<S: Alter>(
    tx: &mut Transaction<'_, S>,
    transfer: i64,
    path: &str,
    body: &[u8],
) -> Result<(), Error>
    ensures added { HasCleanDisk (state S.Store tx.new.conn.now)
        → OnOk result (ChangesRows S.Store tx.old.conn tx.new.conn (λ origin before after.
        AddsTags origin before after transfer ((path.now, body.now) ∷ []))) }
    ensures kept { CommitsNothing S.Store tx.old.conn tx.new.conn }
{
    tx.execute(
        "INSERT INTO tag (transfer, path, body) VALUES (?1, ?2, ?3)",
        params![transfer, path, body],
    )?;
    Ok(())
}
