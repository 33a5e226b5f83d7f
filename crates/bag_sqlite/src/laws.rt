//! Laws on the definitions that the contracts of this crate cite. Each function's contract is one law, and its body is
//! empty.
ghost use Rattle.std.specs.Prelude.{◌≡◌, ◌≤◌, ◌*◌, ◌↔◌, IsTrue};
ghost use Rattle.bag_digest.specs.declared.buffers.TheConstants.{PIECE};
ghost use Rattle.bag_ledger.specs.Ledgers.{Ledger};
ghost use Rattle.bag_sqlite.specs.declared.short_items.TheConstants.{MOST_SHORT};
ghost use Rattle.bag_sqlite.specs.LedgersInTables.{AreTablesOf, IsLedgerDatabase};
ghost use Rattle.bag_sqlite.specs.Migrating.{MigratesLedger};
ghost use Rattle.bag_sqlite.specs.SqlKeepers.{HoldsLedger, MayLeaveLedger, Offers};
ghost use Rattle.bag_sqlite.specs.Tables.{Layout};
ghost use Rattle.sqlite.specs.Held.{state};
ghost use Rattle.sqlite.specs.State.{HasCleanDisk, Survives};
ghost use Rattle.sqlite.specs.Tree.{Trees};

use crate::keeper::SqlKeeper;
use bag_ledger::Keeper;
use sqlite::{Alter, Connection};

/// A piece of a payload file in a ledger has at most 65,536 octets, and all but the last have as many. A ledger that
/// was written with pieces of another length is none, so what is read at a time can change only together with the
/// format.
pub fn pieces_have_65536_octets()
    ensures { PIECE ≡ 65536 }
{}

/// The payload files that were read and not tested yet, while a ledger is opened, have at most 4 MiB, however many
/// there are.
pub fn a_batch_has_at_most_4_mebibytes()
    ensures { MOST_SHORT * PIECE ≤ 4 * 1048576 }
{}

/// The tables of a database hold at most one ledger, and so does a database, whichever of them it has.
pub fn tables_hold_one_ledger()
    ensures tables { (layout : Layout) (trees : Trees) (ledger other : Ledger)
        → AreTablesOf layout trees ledger → AreTablesOf layout trees other → ledger ≡ other }
    ensures databases { (trees : Trees) (ledger other : Ledger) → IsLedgerDatabase trees ledger
        → IsLedgerDatabase trees other → ledger ≡ other }
{}

/// Whatever a stop leaves while a ledger is opened, moved to format 2 or handed back, is the database of the same
/// ledger, in the one format or in the other.
pub fn a_stopped_opening_leaves_the_ledger<S: Alter>(
    offered: &Connection<S>,
    stopped: &Connection<S>,
)
    ensures { (ledger : Ledger) → Offers (state S.Store offered.now) ledger
        → Survives (state S.Store offered.now) (state S.Store stopped.now)
        (MigratesLedger S.Store (state S.Store offered.now))
        → HasCleanDisk (state S.Store stopped.now)
        → (trees : Trees) → (state S.Store stopped.now).may_leave trees
        → IsLedgerDatabase trees ledger }
{}

/// A keeper in a database holds the ledger that its connection holds, and a crash leaves what it leaves of that
/// connection. It is clean as long as its store has given back what was written to it. That its store failed, and how
/// often, is what its calls counted.
pub fn a_keeper_in_a_database_answers_for_its_connection<S: Alter>(keeper: &SqlKeeper<S>)
    ensures holds { (ledger : Ledger) → ⟦<SqlKeeper<S> as Keeper>⟧.holds keeper.now ledger
        ↔ HoldsLedger (state S.Store keeper.now.connection) ledger }
    ensures leaves { (ledger : Ledger) → ⟦<SqlKeeper<S> as Keeper>⟧.may_leave keeper.now ledger
        ↔ MayLeaveLedger (state S.Store keeper.now.connection) ledger }
    ensures clean { ⟦<SqlKeeper<S> as Keeper>⟧.clean keeper.now
        ↔ HasCleanDisk (state S.Store keeper.now.connection) }
    ensures spent { ⟦<SqlKeeper<S> as Keeper>⟧.spent keeper.now
        ↔ IsTrue keeper.now.health.is_spent }
    ensures failures { ⟦<SqlKeeper<S> as Keeper>⟧.failures keeper.now ≡ keeper.now.health.failures }
{}
