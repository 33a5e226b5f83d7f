//! Creates the tables of a new ledger.
ghost use Rattle.std.specs.Prelude.{◌≡◌, ◌↔◌, [], IsErrOf, IsTrue, OnErr, OnOk, false, true};
ghost use Rattle.bag_sqlite.specs.NewTables.{IsCreated, IsLeft, IsMade, IsMaking, Makes, MakesLedger, RefusesToMake, no_rows};
ghost use Rattle.bag_sqlite.specs.Tables.{New, Origin, held_tree, no_schema, piece_tree, schema_before, schema_to_tag, second_schema};
ghost use Rattle.bag_sqlite.specs.Transactions.{CommitsNothing, StaysInside};
ghost use Rattle.sqlite.specs.Change.{created, next_tree};
ghost use Rattle.sqlite.specs.Effect.{IsDatabase};
ghost use Rattle.sqlite.specs.Held.{state};
ghost use Rattle.sqlite.specs.Schema.{Schema};
ghost use Rattle.sqlite.specs.State.{HasCleanDisk, Survives};
ghost use Rattle.sqlite.specs.Table.{Table};
ghost use Rattle.sqlite.specs.Tree.{Trees};

use crate::format::write_format;
use sqlite::{Alter, Connection, Error, ErrorCode, Transaction};

/// Creates the tables of a ledger without transfers in a database without tables, in one transaction.
pub(crate) fn make_ledger<S: Alter>(connection: &mut Connection<S>) -> Result<(), Error>
    ensures made { HasCleanDisk (state S.Store connection.new)
        → OnOk result (((state S.Store connection.old).now.schema ≡ no_schema)
        × IsCreated (state S.Store connection.new)) }
    ensures idle { OnOk result ((state S.Store connection.new).in_transaction ≡ false) }
    ensures refused { RefusesToMake (state S.Store connection.old) (IsErrOf result) }
    ensures unchanged { HasCleanDisk (state S.Store connection.new)
        → OnErr result (IsLeft (state S.Store connection.old) (state S.Store connection.new)) }
    ensures survives { Survives (state S.Store connection.old) (state S.Store connection.new)
        (MakesLedger (state S.Store connection.old)) }
{
    if !connection.is_autocommit() {
        return Err(Error::SqliteFailure(ErrorCode::TransactionState));
    }
    if !has_nothing(connection) {
        return Err(Error::SqliteFailure(ErrorCode::NameTaken));
    }
    let mut transaction = connection.transaction();
    make_transfer_tables(&mut transaction)?;
    make_item_tables(&mut transaction)?;
    write_format(&mut transaction)?;
    transaction.commit()
}

/// Whether a database has no tables, indexes or views.
pub fn has_nothing<S: Alter>(connection: &Connection<S>) -> bool
    ensures { (result ≡ true) ↔ ((state S.Store connection.now).now.schema ≡ no_schema) }
{
    let schema = connection.schema();
    schema.tables.is_empty() && schema.indexes.is_empty() && schema.views.is_empty()
}

/// Creates the tables of formats, transfers and tag files.
fn make_transfer_tables<S: Alter>(tx: &mut Transaction<'_, S>) -> Result<(), Error>
    ensures made { HasCleanDisk (state S.Store tx.new.conn.now)
        → OnOk result (IsMaking no_schema no_rows (state S.Store tx.old.conn.now)
        → IsMaking schema_to_tag no_rows (state S.Store tx.new.conn.now)) }
    ensures inside { StaysInside S.Store tx.old.conn tx.new.conn result }
    ensures kept { CommitsNothing S.Store tx.old.conn tx.new.conn }
{
    make_table(
        tx,
        "CREATE TABLE meta (k TEXT NOT NULL PRIMARY KEY, v INTEGER NOT NULL) STRICT",
    )?;
    make_table(
        tx,
        "CREATE TABLE transfer (id INTEGER PRIMARY KEY, name TEXT NOT NULL UNIQUE) STRICT",
    )?;
    make_table(
        tx,
        "CREATE TABLE tag (transfer INTEGER NOT NULL REFERENCES transfer(id), path TEXT NOT NULL, body BLOB NOT NULL, PRIMARY KEY (transfer, path)) STRICT",
    )
}

/// Creates the tables of payload files and their pieces, in a new database or in a ledger of format 1.
pub(crate) fn make_item_tables<S: Alter>(tx: &mut Transaction<'_, S>) -> Result<(), Error>
    ensures made { HasCleanDisk (state S.Store tx.new.conn.now)
        → OnOk result ((origin : Origin) (rows : Trees) → rows (held_tree origin) ≡ []
        → rows (piece_tree origin) ≡ []
        → IsMaking (schema_before origin) rows (state S.Store tx.old.conn.now)
        → IsMaking (second_schema origin) rows (state S.Store tx.new.conn.now)
        × IsDatabase (state S.Store tx.new.conn.now).now) }
    ensures inside { StaysInside S.Store tx.old.conn tx.new.conn result }
    ensures kept { CommitsNothing S.Store tx.old.conn tx.new.conn }
{
    make_table(
        tx,
        "CREATE TABLE held (id INTEGER PRIMARY KEY, transfer INTEGER NOT NULL REFERENCES transfer(id), path TEXT NOT NULL, size INTEGER NOT NULL, UNIQUE (transfer, path)) STRICT",
    )?;
    make_table(
        tx,
        "CREATE TABLE piece (item INTEGER NOT NULL REFERENCES held(id), n INTEGER NOT NULL, body BLOB NOT NULL, PRIMARY KEY (item, n)) STRICT",
    )
}

/// Creates a table.
fn make_table<S: Alter>(tx: &mut Transaction<'_, S>, sql: &str) -> Result<(), Error>
    ensures made { HasCleanDisk (state S.Store tx.new.conn.now)
        → OnOk result ((before : Schema) (table : Table) (rows : Trees)
        → Makes before sql.now table → rows (next_tree before) ≡ []
        → IsMaking before rows (state S.Store tx.old.conn.now)
        → IsMaking (created before table) rows (state S.Store tx.new.conn.now)
        × IsDatabase (state S.Store tx.new.conn.now).now) }
    ensures inside { StaysInside S.Store tx.old.conn tx.new.conn result }
    ensures kept { CommitsNothing S.Store tx.old.conn tx.new.conn }
{
    tx.execute(sql, &[])?;
    Ok(())
}
