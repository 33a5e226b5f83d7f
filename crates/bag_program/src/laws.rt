//! Laws on ledgers in files: what one run of the program leaves is what the next one holds. Each function's contract is
//! one law, and its body is empty, or another law.
ghost use Rattle.std.specs.Prelude.{◌↔◌, ◌≡◌, ◌⊎◌, ◌∷◌, ◌++◌, [], ℕ, IsTrue, List};
ghost use Rattle.bag_program.specs.LedgerFiles.{HoldsLedgerAs, HoldsLedgerIn, HoldsNoTables, IsAdoptedFrom, IsApart, IsConnectedTo, IsMadeIn, IsLeftBy, IsMovedTo, IsStopOf, IsUnmadeFile, IsUnopenedFile, MayBeLeft, Migrates};
ghost use Rattle.bag_ledger.specs.Ledgers.{Ledger};
ghost use Rattle.bag_receiver.specs.Receivers.{IsKept};
ghost use Rattle.bag_receiver.specs.LedgerStates.{Happened, LedgerState, settled};
ghost use Rattle.bag_receiver.specs.Stops.{Event, Stop};
ghost use Rattle.bag_rules.specs.Faults.{Has};
ghost use Rattle.bag_rules.specs.Files.{Files as OctetsByPath};
ghost use Rattle.bag_sqlite.specs.NewTables.{MakesLedger};
ghost use Rattle.bag_sqlite.specs.Tables.{Layout, no_schema};
ghost use Rattle.sqlite.specs.Files.{file_state};
ghost use Rattle.sqlite.specs.Held.{state};
ghost use Rattle.sqlite.specs.State.{HasCleanDisk, Survives};
ghost use Rattle.sqlite.specs.Tree.{Trees};
ghost use Rattle.sqlite_store.specs.FileStore.{view};
ghost use Rattle.sqlite_trees.specs.View.{IsClean};
ghost use Rattle.sqlite_wal.specs.Files.{image_at};
ghost use Rattle.sqlite_wal.specs.Recovery.{Image};

use crate::ledgers::open_ledger::FileKeeper;
use crate::ledgers::{LedgerFiles, Ledgers};
use bag_ledger::Keeper;
use sqlite::{Alter, Connection, FileFrom, FileStore, Start};
use sqlite_disk::Disk;

/// After a stop the files hold what was held, or a ledger that was doubtful. A run that opens the ledger on them holds
/// that, a crash leaves it alone, and the stop is one more event of each transfer.
pub fn a_ledger_goes_on_after_a_stop<S: Start, T: Start>(
    stopped: &FileKeeper<S>,
    opened: &FileKeeper<T>,
)
    ensures { (now : LedgerState)
        → IsKept ⟦<FileKeeper<S> as Keeper>⟧.holds ⟦<FileKeeper<S> as Keeper>⟧.may_leave
        stopped.now now
        → IsStopOf stopped.now.connection (image_at T.Start)
        → IsAdoptedFrom (image_at T.Start) opened.now.connection
        → ⟦<FileKeeper<T> as Keeper>⟧.clean opened.now
        → (left : Ledger) × Has (now.held ∷ now.doubtful) left
        × IsKept ⟦<FileKeeper<T> as Keeper>⟧.holds ⟦<FileKeeper<T> as Keeper>⟧.may_leave
        opened.now (settled left)
        × ((name : List ℕ) (tags : OctetsByPath) (events : List Event)
        → Happened now name tags events
        → Happened (settled left) name tags (events ++ Stop ∷ [])) }
{}

/// A run that opens a ledger on files that hold it, as a close leaves them, holds that ledger, and a crash leaves it
/// alone. So what happened to each transfer goes on.
pub fn a_ledger_goes_on_after_a_close<T: Start>(opened: &FileKeeper<T>)
    ensures { (ledger : Ledger) → HoldsLedgerIn (image_at T.Start) ledger
        → IsAdoptedFrom (image_at T.Start) opened.now.connection
        → ⟦<FileKeeper<T> as Keeper>⟧.clean opened.now
        → IsKept ⟦<FileKeeper<T> as Keeper>⟧.holds ⟦<FileKeeper<T> as Keeper>⟧.may_leave
        opened.now (settled ledger) }
{}

/// A crash leaves the database of an open connection as it was committed last.
fn a_crash_leaves_the_last_commit<S: Alter>(connection: &Connection<S>)
    ensures { (trees : Trees) → IsTrue (state S.Store connection.now).is_open
        → (state S.Store connection.now).may_leave trees
        → trees ≡ (state S.Store connection.now).committed.trees }
{}

/// A run that stops while it opens a ledger, or that hands it back, leaves files that hold the same ledger: in the
/// tables that it had, or moved from format 1 to format 2.
pub fn a_ledger_stays_after_a_stopped_opening<S: Start>(
    opened: &Connection<FileStore<FileFrom<S>>>,
    stopped: &Connection<FileStore<FileFrom<S>>>,
)
    ensures { (layout : Layout) (ledger : Ledger) (image : Image)
        → HoldsLedgerAs (image_at S.Start) layout ledger
        → IsConnectedTo (image_at S.Start) opened.now
        → Survives (file_state opened.now) (file_state stopped.now) (Migrates opened.now)
        → HasCleanDisk (file_state stopped.now) → IsStopOf stopped.now image
        → (left : Layout) × IsMovedTo layout left × HoldsLedgerAs image left ledger }
{
    a_crash_leaves_the_last_commit(opened);
}

/// A run that stops while it makes a ledger, or that hands back what it couldn't make, leaves files that hold a
/// database without tables, or the whole of a ledger without transfers.
pub fn a_stopped_making_leaves_a_whole_ledger_or_none<S: Start>(
    opened: &Connection<FileStore<FileFrom<S>>>,
    stopped: &Connection<FileStore<FileFrom<S>>>,
)
    ensures { (image : Image) → IsConnectedTo (image_at S.Start) opened.now
        → (file_state opened.now).now.schema ≡ no_schema
        → Survives (file_state opened.now) (file_state stopped.now)
        (MakesLedger (file_state opened.now))
        → HasCleanDisk (file_state stopped.now) → IsStopOf stopped.now image
        → HoldsNoTables image ⊎ HoldsLedgerIn image [] }
{
    a_crash_leaves_the_last_commit(opened);
}

/// Whatever the disk may leave of the files is what a stop may leave of them. The law uses the connection up: only the
/// store that is left tells that its tables are numbered as the kit numbers them, now and before.
pub fn the_disk_leaves_what_a_stop_may_leave<S: Start>(
    stopped: FileKeeper<S>,
) -> FileStore<FileFrom<S>>
    ensures { IsClean (view result) → (ledger : Ledger) (image : Image)
        → ⟦<FileKeeper<S> as Keeper>⟧.holds stopped ledger
        → MayBeLeft stopped.connection image → ∥ IsStopOf stopped.connection image ∥₁ }
{
    stopped.release().into_store()
}

/// What is stored under a name before a ledger is opened is what the files hold. A ledger that is opened or made under
/// a name is so from these files.
pub fn ledgers_in_files_are_what_the_files_hold<S: Start>(kept: &FileKeeper<S>)
    ensures holds { (name : List ℕ) (ledger : Ledger)
        → ⟦<LedgerFiles<'static, S> as Ledgers>⟧.holds name ledger
        ↔ HoldsLedgerIn (image_at S.Start) ledger }
    ensures opened { (name : List ℕ) → ⟦<LedgerFiles<'static, S> as Ledgers>⟧.opened name kept.now
        ↔ IsAdoptedFrom (image_at S.Start) kept.now.connection }
    ensures made { (name : List ℕ) → ⟦<LedgerFiles<'static, S> as Ledgers>⟧.made name kept.now
        ↔ IsMadeIn (image_at S.Start) kept.now.connection }
{}

/// If none is opened or made under a name, this is so from the files, and what is left of a ledger that was closed is
/// what its keeper leaves of them.
pub fn what_is_left_of_ledgers_in_files<S: Start>(kept: &FileKeeper<S>)
    ensures unopened { (name : List ℕ) (it : _)
        → ⟦<LedgerFiles<'static, S> as Ledgers>⟧.unopened name it
        ↔ IsUnopenedFile ⟦<FileFrom<S> as Disk>⟧ (image_at S.Start) it }
    ensures unmade { (name : List ℕ) (it : _)
        → ⟦<LedgerFiles<'static, S> as Ledgers>⟧.unmade name it
        ↔ IsUnmadeFile ⟦<FileFrom<S> as Disk>⟧ (image_at S.Start) it }
    ensures closed { (closed : _) → ⟦<LedgerFiles<'static, S> as Ledgers>⟧.closed kept.now closed
        ↔ IsLeftBy kept.now.connection closed }
    ensures apart { (closed : _) → ⟦<LedgerFiles<'static, S> as Ledgers>⟧.apart closed
        ↔ IsApart closed }
{}

/// No ledger is made where the files hold one.
pub fn no_ledger_is_made_over_another<S: Start>(kept: &FileKeeper<S>)
    ensures { (ledger : Ledger) → HoldsLedgerIn (image_at S.Start) ledger
        → IsMadeIn (image_at S.Start) kept.now.connection
        → ¬ ⟦<FileKeeper<S> as Keeper>⟧.clean kept.now }
{}
