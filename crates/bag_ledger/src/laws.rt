//! Laws on the definitions that the contracts of this crate cite. Each function's contract is one law, and its body is
//! empty.
ghost use Rattle.std.specs.Prelude.{◌≡◌, ◌≢◌, ◌↔◌, ℕ, List, Some};
ghost use Rattle.std.specs.Map.{keys_of};
ghost use Rattle.bag_ledger.specs.Ledgers.{IsSound, Ledger, Transfer, begun, content_of, holding, transfer_of, with_item, with_transfer};
ghost use Rattle.bag_rules.specs.Files.{Files};
ghost use Rattle.bag_rules.specs.Trees.{AreRising};

use crate::keeper::Keeper;
use crate::map_keeper::MapKeeper;

/// A keeper in memory holds the ledger that it is, if that ledger is sound, and a crash leaves that ledger. It is
/// clean, its store doesn't fail, and its count of failures is zero.
pub fn a_keeper_in_memory_never_fails()
    ensures holds { (keeper ledger : Ledger)
        → ⟦<MapKeeper as Keeper>⟧.holds keeper ledger ↔ ((ledger ≡ keeper) × IsSound ledger) }
    ensures leaves { (keeper ledger : Ledger)
        → ⟦<MapKeeper as Keeper>⟧.may_leave keeper ledger ↔ (ledger ≡ keeper) }
    ensures clean { (keeper : Ledger) → ⟦<MapKeeper as Keeper>⟧.clean keeper }
    ensures unspent { (keeper : Ledger) → ¬ ⟦<MapKeeper as Keeper>⟧.spent keeper }
    ensures unfailed { (keeper : Ledger) → ⟦<MapKeeper as Keeper>⟧.failures keeper ≡ 0 }
{}

/// After a transfer is added, its name has these tag files and no payload files, and other names have what they had.
pub fn one_transfer_more_changes_no_other()
    ensures here { (ledger : Ledger) (name : List ℕ) (tags : Files)
        → transfer_of (with_transfer ledger name tags) name ≡ Some (begun tags) }
    ensures others { (ledger : Ledger) (name other : List ℕ) (tags : Files) → other ≢ name
        → transfer_of (with_transfer ledger name tags) other ≡ transfer_of ledger other }
    ensures rising { (ledger : Ledger) (name : List ℕ) (tags : Files)
        → AreRising (keys_of ledger) → AreRising (keys_of (with_transfer ledger name tags)) }
{}

/// After a payload file is added, its transfer holds it. Other transfers are unchanged, and no name is added or
/// removed.
pub fn one_payload_file_more_changes_no_other_transfer()
    ensures here { (ledger : Ledger) (name path content : List ℕ) (transfer : Transfer)
        → transfer_of ledger name ≡ Some transfer
        → transfer_of (with_item ledger name path content) name
        ≡ Some (holding transfer path content) }
    ensures others { (ledger : Ledger) (name path content other : List ℕ) → other ≢ name
        → transfer_of (with_item ledger name path content) other ≡ transfer_of ledger other }
    ensures names { (ledger : Ledger) (name path content : List ℕ)
        → keys_of (with_item ledger name path content) ≡ keys_of ledger }
{}

/// After a payload file is added, its path has this content, and other paths of the transfer have what they had.
pub fn one_payload_file_more_changes_no_other_path()
    ensures here { (ledger : Ledger) (name path content : List ℕ) (transfer : Transfer)
        → transfer_of ledger name ≡ Some transfer
        → content_of (with_item ledger name path content) name path ≡ Some content }
    ensures others { (ledger : Ledger) (name path content other : List ℕ) → other ≢ path
        → content_of (with_item ledger name path content) name other
        ≡ content_of ledger name other }
{}
