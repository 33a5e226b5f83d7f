//! Queries on a database.
ghost use Rattle.std.specs.Prelude.{◌≡◌, IfErr, IfOk, IsTrue, false};
ghost use Rattle.bag_sqlite.specs.Reading.{OnlyQueries, ShowsRows};
ghost use Rattle.bag_sqlite.specs.Refusing.{IsNoQuery, IsNoneFor, adopt_fault};
ghost use Rattle.sqlite.specs.Held.{state};
ghost use Rattle.sqlite.specs.State.{HasCleanDisk};
ghost use Rattle.sqlite.specs.Values.{bound};

use sqlite::types::ValueRef;
use sqlite::{Alter, Connection, Error, Row};

/// All rows that a query shows. It runs in a transaction that is rolled back and writes nothing.
pub(crate) fn query<S: Alter>(
    connection: &mut Connection<S>,
    sql: &str,
    params: &[ValueRef<'_>],
) -> Result<Vec<Row>, Error>
    requires { connection.old.in_transaction ≡ false }
    ensures shown { HasCleanDisk (state S.Store connection.new)
        → IfOk result (λ rows. ShowsRows S.Store sql.now (bound params.now) connection.old
        rows.items) }
    ensures refused { HasCleanDisk (state S.Store connection.new)
        → IfErr result (λ error. IsNoneFor (IsTrue (state S.Store connection.old).is_open
        × IsNoQuery (state S.Store connection.old).now.schema sql.now) (adopt_fault error)) }
    ensures queries { OnlyQueries S.Store connection.old connection.new }
{
    let mut transaction = connection.transaction();
    let rows = transaction.query_all(sql, params)?;
    transaction.rollback();
    Ok(rows)
}
