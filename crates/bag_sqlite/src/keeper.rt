//! A keeper in a database.
ghost use Rattle.std.specs.Prelude.{◌≡◌, ◌≢◌, ◌↔◌, [], IfErr, IfOk, IsErrAnd, IsErrOf, IsTrue, MatchResult, None, Some, false, map, string_bytes};
ghost use Rattle.std.specs.Map.{keys_of};
ghost use Rattle.bag_ledger.specs.Keeping.{Reads, UsesStore};
ghost use Rattle.bag_ledger.specs.Ledgers.{Ledger};
ghost use Rattle.bag_sqlite.specs.NewTables.{IsLeft, MakesLedger, RefusesToMake};
ghost use Rattle.bag_sqlite.specs.SqlKeepers.{HoldsLedger, KeepsAlone, MayLeaveLedger};
ghost use Rattle.bag_sqlite.specs.Tables.{no_schema};
ghost use Rattle.bag_ledger.specs.declared.keeper_faults.KeepFault.TheVariants.{Memory, Store};
ghost use Rattle.bag_ledger.specs.declared.keeper_faults.StoreFault.TheVariants.{Refused, Spent};
ghost use Rattle.bag_sqlite.specs.declared.health.Health.{Health};
ghost use Rattle.sqlite.specs.Held.{Held, state};
ghost use Rattle.sqlite.specs.State.{HasCleanDisk, Survives};

use crate::beginning::begin_transfer;
use crate::health::Health;
use crate::new_tables::make_ledger;
use crate::octets::Octets;
use crate::putting::put_content;
use crate::{item_queries, transfer_queries};
use bag_digest::{Source, piece_buffer};
use bag_ledger::{KeepFault, Keeper, PutFault};
use bag_path::BagPath;
use bag_rules::{ItemSize, TagSet, Want};
use sqlite::{Alter, Connection, Error};
use std::alloc::Global;

/// Transfers in a database, in ledger format 2.
///
/// The contracts of its calls apply to a ledger that [`SqlKeeper::create`] made and that no other program writes to.
#[derive(Drop)]
pub struct SqlKeeper<S: Alter> {
    pub(crate) connection: Connection<S>,
    pub(crate) health: Health,
    ghost idle: { connection.in_transaction ≡ false },
}

/// Why no ledger was made, and the connection. Its database is unchanged.
#[derive(Drop)]
pub struct NotCreated<S: Alter> {
    /// `Memory`, or `Store(Refused)`: a transaction was open, the database has tables, indexes or views, or the store
    /// failed.
    pub fault: KeepFault,
    /// The error of the store, unless memory ran out: `TransactionState` if a transaction was open, `NameTaken` if the
    /// database has tables, indexes or views.
    pub trouble: Option<Error>,
    /// The connection that was passed in.
    pub connection: Connection<S>,
}

impl<S: Alter> SqlKeeper<S> {
    /// Makes a ledger without transfers in a database without tables, indexes and views. The ledger is made completely
    /// or not at all, even if a crash ends the call.
    ///
    /// # Errors
    ///
    /// Those of [`NotCreated::fault`]. A database that has anything stays as it is.
    pub fn create(connection: Connection<S>) -> Result<SqlKeeper<S>, NotCreated<S>>
        ensures kept { IfOk result (λ keeper. HasCleanDisk (state S.Store keeper.connection)
            → ((state S.Store connection).now.schema ≡ no_schema)
            × IsTrue (state S.Store keeper.connection).is_open
            × KeepsAlone (state S.Store keeper.connection) []) }
        ensures unfailed { MatchResult result (λ keeper. (keeper.health.is_spent ≡ false)
            × (keeper.health.failures ≡ 0)) (λ refused. refused.fault ≢ Store Spent) }
        ensures told { IfErr result (λ refused. (refused.fault ≡ Memory)
            ↔ (refused.trouble ≡ None)) }
        ensures refused { RefusesToMake (state S.Store connection)
            (λ error. IsErrAnd result (λ refused. (refused.fault ≡ Store Refused)
            × (refused.trouble ≡ Some error))) }
        ensures handed_back { IfErr result (λ refused.
            HasCleanDisk (state S.Store refused.connection)
            → IsLeft (state S.Store connection) (state S.Store refused.connection)) }
        ensures survives { MatchResult result
            (λ keeper. Survives (state S.Store connection) (state S.Store keeper.connection)
            (MakesLedger (state S.Store connection)))
            (λ refused. Survives (state S.Store connection) (state S.Store refused.connection)
            (MakesLedger (state S.Store connection))) }
    {
        let mut connection = connection;
        let mut health = Health::new();
        match health.answer(make_ledger(&mut connection)) {
            Ok(()) => Ok(SqlKeeper { connection, health }),
            Err(fault) => Err(NotCreated {
                fault,
                trouble: health.trouble(),
                connection,
            }),
        }
    }

    /// The error with which the store has failed. `None` if it hasn't failed, or only gave what no clean store gives.
    pub fn trouble(&self) -> Option<Error>
        ensures { result ≡ self.now.health.trouble }
    {
        self.health.trouble()
    }

    /// Returns the connection. Its database is unchanged.
    pub fn release(self) -> Connection<S>
        ensures { result ≡ self.connection }
    {
        let SqlKeeper {
            connection,
            health: _,
        } = self;
        connection
    }
}

/// What is promised of a call that writes, and of what a crash leaves after it, assumes a store that returns what was
/// written to it. A payload file is written as it is read, through a buffer that holds one piece.
///
/// If the transfer doesn't exist or already holds the payload file, the call fails as if the store had failed.
impl<S: Alter> Keeper for SqlKeeper<S> {
    ghost holds = { λ keeper. HoldsLedger (state S.Store keeper.connection) };

    ghost may_leave = { λ keeper. MayLeaveLedger (state S.Store keeper.connection) };

    ghost clean = { λ keeper. HasCleanDisk (state S.Store keeper.connection) };

    ghost spent = { λ keeper. IsTrue keeper.health.is_spent };

    ghost failures = { λ keeper. keeper.health.failures };

    fn begin(&mut self, _alloc: Global, name: &str, tags: &TagSet) -> Result<(), KeepFault> {
        self.health.test()?;
        self.health
            .answer(begin_transfer(&mut self.connection, name, tags))
    }

    fn tags(&mut self, alloc: Global, name: &str) -> Result<Option<TagSet>, KeepFault> {
        self.health.test()?;
        self.health
            .answer(transfer_queries::tags(alloc, &mut self.connection, name))
    }

    fn size_of(
        &mut self,
        _alloc: Global,
        name: &str,
        path: &BagPath,
    ) -> Result<Option<u64>, KeepFault> {
        self.health.test()?;
        self.health.answer(item_queries::size_of(&mut self.connection, name, path.as_str()))
    }

    fn sizes(&mut self, alloc: Global, name: &str) -> Result<Vec<ItemSize>, KeepFault> {
        self.health.test()?;
        self.health
            .answer(transfer_queries::sizes(alloc, &mut self.connection, name))
    }

    fn put(
        &mut self,
        alloc: Global,
        name: &str,
        want: &Want<'_>,
        content: &[u8],
    ) -> Result<(), PutFault> {
        let mut octets = Octets::new(content);
        self.put_from(alloc, name, want, &mut octets)
    }

    fn put_from<R: Source>(
        &mut self,
        alloc: Global,
        name: &str,
        want: &Want<'_>,
        reader: &mut R,
    ) -> Result<(), PutFault> {
        self.health.test()?;
        let mut buffer = piece_buffer(alloc)?;
        self.health.put_answer(put_content(
            &mut self.connection,
            name,
            want,
            buffer.as_mut_slice(),
            reader,
        ))
    }

    fn read_piece(
        &mut self,
        _alloc: Global,
        name: &str,
        path: &BagPath,
        offset: u64,
        buf: &mut [u8],
    ) -> Result<usize, KeepFault> {
        self.health.test()?;
        self.health.answer(item_queries::read_piece(
            &mut self.connection,
            name,
            path.as_str(),
            offset,
            buf,
        ))
    }

    fn names(&mut self, alloc: Global) -> Result<Vec<String>, KeepFault> {
        self.health.test()?;
        self.health
            .answer(transfer_queries::names(alloc, &mut self.connection))
    }

    /// Counts as any other failure of the store.
    fn blame(&mut self) -> KeepFault {
        KeepFault::Store(self.health.fail())
    }

    fn failures(&self) -> u64 {
        self.health.failures()
    }

    ghost sound = { λ keeper ledger clean holds. holds.sound };
}
