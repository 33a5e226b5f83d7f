//! Reports: what is wrong with the bag of a transfer as it is held now.
ghost use Rattle.std.specs.Prelude.{◌≡◌, None, IfOk, IsErrOf, MatchResult};
ghost use Rattle.bag_digest.specs.Failures.{CountsIf};
ghost use Rattle.bag_rules.specs.Files.{Files};
ghost use Rattle.bag_rules.specs.Plans.{IsPlanOf, sizes_of};
ghost use Rattle.bag_ledger.specs.Ledgers.{Ledger, items_of};
ghost use Rattle.bag_ledger.specs.declared.keeper_faults.StoreFault.{StoreFault};
ghost use Rattle.bag_ledger.specs.declared.keeper_faults.KeepFault.TheVariants.{Store};
ghost use Rattle.bag_receiver.specs.Audits.{Audits};
ghost use Rattle.bag_receiver.specs.Holdings.{AreValidSizes, IsPlanFor, ReadsKeeper};
ghost use Rattle.bag_receiver.specs.TransferNames.{IsNamed, IsTransferName};
ghost use Rattle.bag_receiver.specs.Receivers.{Does, SaysOfState};
ghost use Rattle.bag_receiver.specs.ReceiversInside.{Same};
ghost use Rattle.bag_receiver.specs.Reports.{Reports};
ghost use Rattle.bag_receiver.specs.ViewAnswers.{IsReporting};

use crate::audit::passing_sizes;
use crate::receiver::Receiver;
use bag_ledger::{KeepFault, Keeper};
use bag_rules::{ItemSize, Plan, Report};
use std::alloc::{AllocError, Global};
use thiserror::Error;

/// Why there is no report.
#[derive(Clone, Copy, Debug, PartialEq, Eq, Error)]
pub enum ViewFault {
    /// No transfer has this name, or the name is invalid.
    #[error("no transfer")]
    NoTransfer,
    /// The store of the transfers has no answer, or memory ran out.
    #[error("keeper")]
    Keeper(KeepFault),
}

impl From<KeepFault> for ViewFault {
    ghost use Rattle.std.specs.Prelude.{◌≡◌};
    ghost use Rattle.bag_receiver.specs.declared.report.ViewFault.TheVariants.{Keeper};

    ghost from_gives = { λ keep fault. fault ≡ Keeper keep };

    fn from(fault: KeepFault) -> ViewFault {
        ViewFault::Keeper(fault)
    }
}

impl From<AllocError> for ViewFault {
    ghost use Rattle.std.specs.Prelude.{◌≡◌};
    ghost use Rattle.bag_ledger.specs.declared.keeper_faults.KeepFault.TheVariants.{Memory};
    ghost use Rattle.bag_receiver.specs.declared.report.ViewFault.TheVariants.{Keeper};

    ghost from_gives = { λ error fault. fault ≡ Keeper Memory };

    fn from(_: AllocError) -> ViewFault {
        ViewFault::Keeper(KeepFault::Memory)
    }
}

/// What a report rests on.
#[derive(Clone, Copy)]
pub(crate) enum Basis {
    /// The sizes of the payload files that are held.
    Sizes,
    /// Their octets, which are read again: a file counts as held only if it is valid.
    Octets,
}

impl<K: Keeper> Receiver<K> {
    /// What is wrong with the bag of the transfer as it is held now: missing payload files and a wrong `Payload-Oxum`
    /// (RFC 8493 sections 3 and 2.2.2). What is held was checked when it was delivered, and isn't read again.
    ///
    /// # Errors
    ///
    /// [`ViewFault::NoTransfer`] if no transfer has this name or the name is invalid; [`ViewFault::Keeper`] if the
    /// store failed or memory ran out.
    pub fn report(&mut self, alloc: Global, name: &str) -> Result<Report, ViewFault>
        ensures { IsReporting K.holds K.may_leave K.clean K.failures name.now
            self.old self.new result }
    {
        self.view(alloc, name, Basis::Sizes)
    }

    /// What is wrong with the bag of the transfer, on this basis.
    pub(crate) fn view(
        &mut self,
        alloc: Global,
        name: &str,
        basis: Basis,
    ) -> Result<Report, ViewFault>
        ensures looks { Does K.holds K.may_leave K.clean self.old self.new Same }
        ensures reported { SaysOfState K.holds K.may_leave K.clean self.old self.new (λ now.
            MatchResult result (Reports now.held name.now)
            (λ fault. fault ≡ ViewFault.NoTransfer → IsNamed now.held name.now None)) }
        ensures judged { ¬ IsTransferName name.now → IsErrOf result ViewFault.NoTransfer }
        ensures store { CountsIf ((fault : StoreFault)
            × IsErrOf result (ViewFault.Keeper (KeepFault.Store fault)))
            (K.failures self.old.keeper) (K.failures self.new.keeper) }
        ensures read { basis ≡ Basis.Octets → IfOk result (Audits self.new name.now) }
    {
        if !self.has_plan(alloc, name)? {
            return Err(ViewFault::NoTransfer);
        }
        let Some(plan) = self.plans.get(name) else {
            return Err(ViewFault::NoTransfer);
        };
        let sizes = sizes_by(&mut self.keeper, alloc, name, plan, basis)?;
        let report = plan.report(alloc, sizes.as_slice())?;
        Ok(report)
    }
}

/// The payload files that count as held, by path.
fn sizes_by<K: Keeper>(
    keeper: &mut K,
    alloc: Global,
    name: &str,
    plan: &Plan,
    basis: Basis,
) -> Result<Vec<ItemSize>, KeepFault>
    ensures found { K.clean keeper.new → (ledger : Ledger) → K.holds keeper.old ledger
        → IsPlanFor ledger name.now plan.now
        → IfOk result (λ sizes. sizes.items ≡ sizes_of (items_of ledger name.now)) }
    ensures valid { basis ≡ Basis.Octets → (tags : Files) → IsPlanOf tags plan.now
        → IfOk result (λ sizes. AreValidSizes tags sizes.items) }
    ensures keeper { ReadsKeeper K.holds K.may_leave K.clean K.failures keeper.old keeper.new
        (λ fault. IsErrOf result (Store fault)) }
{
    match basis {
        Basis::Sizes => keeper.sizes(alloc, name),
        Basis::Octets => passing_sizes(keeper, alloc, name, plan),
    }
}
