//! Ledgers in connections that no command has: over another ledger, and in a transaction.
use bag_ledger::{KeepFault, StoreFault};
use bag_sqlite::{AdoptFault, NotAdopted, NotCreated, SqlKeeper};
use sqlite::{Connection, Error, ErrorCode, MemStore};
use std::alloc::Global;
use std::test::Fail;

fn in_memory(alloc: Global) -> Result<Connection<MemStore>, KeepFault> {
    Ok(Connection::open_in_memory(alloc)?)
}

/// The connection of a new ledger, or why none was made.
fn made(connection: Connection<MemStore>) -> Result<Connection<MemStore>, KeepFault> {
    match SqlKeeper::create(connection) {
        Ok(keeper) => Ok(keeper.release()),
        Err(
            NotCreated {
                fault,
                trouble: _,
                connection: _,
            },
        ) => Err(fault),
    }
}

/// Why no ledger is made in this connection, and the connection, if none is.
fn not_made(connection: Connection<MemStore>) -> Option<NotCreated<MemStore>> {
    SqlKeeper::create(connection).err()
}

/// Why the ledger in this connection isn't adopted, if it isn't.
fn not_adopted(connection: Connection<MemStore>) -> Option<AdoptFault> {
    match SqlKeeper::adopt(connection) {
        Ok(_) => None,
        Err(
            NotAdopted {
                fault,
                connection: _,
            },
        ) => Some(fault),
    }
}

#[test]
fn no_ledger_is_made_over_another(rt: HostRuntime) -> Result<(), Fail> {
    let ledger = made(in_memory(rt.alloc())?)?;
    let refused = made(ledger).err().ok_or("a second ledger was made")?;
    assert_eq!(rt; refused, KeepFault::Store(StoreFault::Refused));
    Ok(())
}

/// A database in which another program has this table.
fn with_table(alloc: Global, name: &str) -> Result<Connection<MemStore>, Fail> {
    let mut connection = in_memory(alloc)?;
    connection.execute(
        format!(in alloc; "CREATE TABLE {name} (page)")?.as_str(),
        &[],
    )?;
    connection.execute(
        format!(in alloc; "INSERT INTO {name} VALUES ('first')")?.as_str(),
        &[],
    )?;
    Ok(connection)
}

/// The rows of that table.
fn rows_in(
    alloc: Global,
    connection: &mut Connection<MemStore>,
    name: &str,
) -> Result<usize, Fail> {
    let text = format!(in alloc; "SELECT page FROM {name}")?;
    Ok(connection.query_all(text.as_str(), &[])?.len())
}

#[test]
fn no_ledger_is_made_beside_a_table_of_another_program(rt: HostRuntime) -> Result<(), Fail> {
    let alloc = rt.alloc();
    for name in ["meta", "transfer", "tag", "held", "piece", "visits"] {
        let NotCreated {
            fault,
            trouble,
            mut connection,
        } = not_made(with_table(alloc, name)?).ok_or("a ledger was made")?;
        assert_eq!(rt; fault, KeepFault::Store(StoreFault::Refused));
        assert!(rt; matches!(trouble, Some(Error::SqliteFailure(ErrorCode::NameTaken))));
        assert_eq!(rt; connection.schema().tables.len(), 1);
        assert_eq!(rt; rows_in(alloc, &mut connection, name)?, 1);
    }
    Ok(())
}

#[test]
fn in_a_transaction_the_store_is_blamed(rt: HostRuntime) -> Result<(), Fail> {
    let mut ledger = made(in_memory(rt.alloc())?)?;
    ledger.execute_batch("BEGIN")?;
    let fault = not_adopted(ledger);
    assert!(rt;
        matches!(
            fault,
            Some(AdoptFault::Store(Error::SqliteFailure(ErrorCode::TransactionState)))
        )
    );
    let mut nothing = in_memory(rt.alloc())?;
    nothing.execute_batch("BEGIN")?;
    let NotCreated { fault, trouble, .. } = not_made(nothing).ok_or("a ledger was made")?;
    assert_eq!(rt; fault, KeepFault::Store(StoreFault::Refused));
    assert!(rt;
        matches!(
            trouble,
            Some(Error::SqliteFailure(ErrorCode::TransactionState))
        )
    );
    Ok(())
}
