//! The receiver: a keeper of transfers, and the plan of each transfer that was used.
ghost use Rattle.std.specs.Prelude.{◌≡◌, IfOk, IsErrOf, IsTrue, MatchResult, OnErr, OnOk};
ghost use Rattle.std.specs.BTreeMap.{insert_entry};
ghost use Rattle.std.specs.Cmp.Lexicographic.{slice_cmp};
ghost use Rattle.std.specs.Ordering.{nat_cmp};
ghost use Rattle.bag_digest.specs.Failures.{CountsIf};
ghost use Rattle.bag_ledger.specs.declared.keeper_faults.StoreFault.{StoreFault};
ghost use Rattle.bag_ledger.specs.declared.keeper_faults.KeepFault.TheVariants.{Store};
ghost use Rattle.bag_receiver.specs.Listing.{IsListing};
ghost use Rattle.bag_receiver.specs.TransferNames.{IsTransferName};
ghost use Rattle.bag_receiver.specs.LedgerStates.{LedgerState};
ghost use Rattle.bag_receiver.specs.Receivers.{Does, IsInState, IsKept, SaysOfState, plans_in};
ghost use Rattle.bag_receiver.specs.ReceiversInside.{IsPlanned, Same};

use crate::transfer_name::is_name;
use bag_ledger::{KeepFault, Keeper};
use bag_rules::{Plan, PlanFault};
use std::alloc::{AllocError, Global};
use std::collections::BTreeMap;

/// Plans by the names of their transfers.
pub(crate) type Plans = BTreeMap<String, Plan>;

/// Opens transfers with the tag files of their bags, takes in their payload files, each if it is the one that the tag
/// files list, and reports what is wrong with the bag that is held (RFC 8493 section 3).
///
/// The keeper holds all of this. In addition, the receiver keeps the plans of the transfers that were used, and makes
/// them again if they are missing.
#[derive(Drop)]
pub struct Receiver<K> {
    pub(crate) keeper: K,
    pub(crate) plans: Plans,
}

impl<K: Keeper> Receiver<K> {
    /// A receiver with this keeper. The transfers that the keeper holds can be used at once.
    pub fn new(alloc: Global, keeper: K) -> Receiver<K>
        ensures keeper { result.keeper ≡ keeper }
        ensures in_state { (now : LedgerState) → IsKept K.holds K.may_leave keeper now
            → IsInState K.holds K.may_leave result now }
    {
        Receiver {
            keeper,
            plans: BTreeMap::new(alloc),
        }
    }

    /// Returns the keeper, with everything that it holds.
    pub fn into_keeper(self) -> K
        ensures { result ≡ self.keeper }
    {
        self.keeper
    }

    /// The names of the transfers, ordered by their octets.
    ///
    /// # Errors
    ///
    /// The store failed, or memory ran out.
    pub fn names(&mut self, alloc: Global) -> Result<Vec<String>, KeepFault>
        ensures { IsListing K.holds K.may_leave K.clean K.failures self.old self.new result }
    {
        self.keeper.names(alloc)
    }

    /// Makes the plan of a transfer if it isn't there yet. Returns whether it is there now.
    pub(crate) fn has_plan(&mut self, alloc: Global, name: &str) -> Result<bool, KeepFault>
        ensures looks { Does K.holds K.may_leave K.clean self.old self.new Same }
        ensures found { SaysOfState K.holds K.may_leave K.clean self.old self.new (λ now.
            IfOk result (IsPlanned name.now now.held (plans_in self.new.plans))) }
        ensures named { MatchResult result (λ is_there. IsTrue is_there → IsTransferName name.now)
            (λ fault. IsTransferName name.now) }
        ensures store { CountsIf ((fault : StoreFault) × IsErrOf result (Store fault))
            (K.failures self.old.keeper) (K.failures self.new.keeper) }
    {
        if !is_name(name) {
            return Ok(false);
        }
        if self.plans.contains_key(name) {
            return Ok(true);
        }
        let Some(tags) = self.keeper.tags(alloc, name)? else {
            return Ok(false);
        };
        match Plan::from_tags(alloc, &tags) {
            Ok(plan) => {
                keep_plan(alloc, &mut self.plans, name, plan)?;
                Ok(true)
            }
            Err(PlanFault::Memory) => Err(KeepFault::Memory),
            // The tag files that a keeper holds always have a plan.
            Err(_) => Err(self.keeper.blame()),
        }
    }
}

/// Keeps the plan of a transfer.
pub(crate) fn keep_plan(
    alloc: Global,
    plans: &mut Plans,
    name: &str,
    plan: Plan,
) -> Result<(), AllocError>
    ensures kept { OnOk result (plans_in plans.new
        ≡ insert_entry (slice_cmp nat_cmp) (plans_in plans.old) name.now plan) }
    ensures unchanged { OnErr result (plans_in plans.new ≡ plans_in plans.old) }
{
    let name = String::from_str(alloc, name)?;
    match plans.insert(name, plan) {
        Ok(_) => Ok(()),
        Err(_) => Err(AllocError),
    }
}
