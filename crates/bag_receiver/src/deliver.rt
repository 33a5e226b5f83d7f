//! Deliveries of payload files.
ghost use Rattle.std.specs.Prelude.{◌≡◌, ◌⊎◌, ◌∷◌, [], List, ℕ, true, IfErr, IfOk, IsErrOf, MatchResult};
ghost use Rattle.bag_digest.specs.Failures.{CountsIf, UsesSource};
ghost use Rattle.bag_path.specs.Paths.{IsPath};
ghost use Rattle.bag_ledger.specs.Ledgers.{Ledger};
ghost use Rattle.bag_ledger.specs.declared.keeper_faults.StoreFault.{StoreFault};
ghost use Rattle.bag_ledger.specs.declared.keeper_faults.KeepFault.TheVariants.{Store};
ghost use Rattle.bag_receiver.specs.declared.answer.Answer.TheVariants.{Refused};
ghost use Rattle.bag_receiver.specs.declared.answer.DeliverFault.TheVariants.{Keeper as NotKept, NoTransfer, Reader};
ghost use Rattle.bag_receiver.specs.Deliveries.{Content, IsAcceptance, Whole, delivery_of};
ghost use Rattle.bag_receiver.specs.TransferNames.{IsTransferName};
ghost use Rattle.bag_receiver.specs.LedgerStates.{Brought, DeliveryStep, IsAnswer, IsListedIn, Judges, Receives};
ghost use Rattle.bag_receiver.specs.Receivers.{Does, SaysOfState, plans_in};
ghost use Rattle.bag_receiver.specs.ReceiversInside.{Finds, IsNoPlan, IsOfLists, IsPlaceIn, IsPlanned, RefusesText, Same, answer_of};

use crate::answer::{Answer, DeliverFault};
use crate::given_path::GivenPath;
use crate::receiver::{Plans, Receiver};
use bag_digest::Source;
use bag_ledger::{KeepFault, Keeper, test_content, test_reader};
use bag_path::{BagPath, PathFault};
use bag_rules::Want;
use std::alloc::Global;

impl<K: Keeper> Receiver<K> {
    /// Takes in a payload file of the transfer with this name: this content for this path.
    ///
    /// The path is plain text, not spelled as in a manifest: `%25` in it is three characters (RFC 8493 section 2.1.3).
    /// The content is valid if it has at most 1,073,741,824 octets, each digest that a payload manifest lists for the
    /// path, and each length that `fetch.txt` gives for it (section 2.2.3). Only `Taken` changes what is held. If the
    /// keeper has no answer, however, a crash may leave the file.
    pub fn deliver(&mut self, alloc: Global, name: &str, path: &str, content: &[u8]) -> Answer
        ensures received { Does K.holds K.may_leave K.clean self.old self.new (Receives name.now
            (delivery_of path.now (Whole content.now) result ∷ [])) }
        ensures judged { IsAnswer name.now (delivery_of path.now (Whole content.now) result) }
        ensures store { CountsIf ((fault : StoreFault)
            × (result ≡ Refused (NotKept (Store fault))))
            (K.failures self.old.keeper) (K.failures self.new.keeper) }
    {
        match self.take(alloc, name, path, content) {
            Ok(answer) => answer,
            Err(fault) => Answer::Refused(fault),
        }
    }

    fn take(
        &mut self,
        alloc: Global,
        name: &str,
        path: &str,
        content: &[u8],
    ) -> Result<Answer, DeliverFault>
        ensures taken { Does K.holds K.may_leave K.clean self.old self.new (DeliveryStep name.now
            (delivery_of path.now (Whole content.now) (answer_of result))) }
        ensures judged { IsAnswer name.now
            (delivery_of path.now (Whole content.now) (answer_of result)) }
        ensures accepted { IfOk result IsAcceptance }
        ensures store { CountsIf ((fault : StoreFault) × IsErrOf result (NotKept (Store fault)))
            (K.failures self.old.keeper) (K.failures self.new.keeper) }
    {
        self.find_plan(alloc, name)?;
        let slot = slot_of(&mut self.keeper, &self.plans, alloc, name, path)?;
        if slot.is_held {
            test_content(&slot.want, content)?;
            return Ok(Answer::Repeated);
        }
        self.keeper.put(alloc, name, &slot.want, content)?;
        Ok(Answer::Taken)
    }

    /// Takes in a payload file as `deliver` does, with the content read from a reader. The path may also be given as a
    /// [`BagPath`].
    ///
    /// The reader is used only if the transfer lists the path. It is read to its end, to the first octet beyond the
    /// limit, or until a read fails or the keeper has no answer. No read is retried.
    pub fn deliver_from<P: GivenPath, S: Source>(
        &mut self,
        alloc: Global,
        name: &str,
        path: P,
        reader: &mut S,
    ) -> Answer
        ensures received { (content : Content)
            × Brought (S.remaining reader.old) (S.remaining reader.new) content
            × IsAnswer name.now (delivery_of (P.text path) content result)
            × Does K.holds K.may_leave K.clean self.old self.new
            (Receives name.now (delivery_of (P.text path) content result ∷ [])) }
        ensures unread { SaysOfState K.holds K.may_leave K.clean self.old self.new (λ now.
            (reader.new ≡ reader.old) ⊎ IsListedIn now.held name.now (P.text path)) }
        ensures reader { UsesSource S.failures S.ready S.keeps reader.old reader.new
            (result ≡ Refused Reader) }
        ensures store { CountsIf ((fault : StoreFault)
            × (result ≡ Refused (NotKept (Store fault))))
            (K.failures self.old.keeper) (K.failures self.new.keeper) }
    {
        match self.take_from(alloc, name, path, reader) {
            Ok(answer) => answer,
            Err(fault) => Answer::Refused(fault),
        }
    }

    pub(crate) fn take_from<P: GivenPath, S: Source>(
        &mut self,
        alloc: Global,
        name: &str,
        path: P,
        reader: &mut S,
    ) -> Result<Answer, DeliverFault>
        ensures taken { (content : Content)
            × Brought (S.remaining reader.old) (S.remaining reader.new) content
            × IsAnswer name.now (delivery_of (P.text path) content (answer_of result))
            × Does K.holds K.may_leave K.clean self.old self.new
            (DeliveryStep name.now (delivery_of (P.text path) content (answer_of result))) }
        ensures unread { SaysOfState K.holds K.may_leave K.clean self.old self.new (λ now.
            (reader.new ≡ reader.old) ⊎ IsListedIn now.held name.now (P.text path)) }
        ensures accepted { IfOk result IsAcceptance }
        ensures reader { UsesSource S.failures S.ready S.keeps reader.old reader.new
            (IsErrOf result Reader) }
        ensures store { CountsIf ((fault : StoreFault) × IsErrOf result (NotKept (Store fault)))
            (K.failures self.old.keeper) (K.failures self.new.keeper) }
    {
        self.find_plan(alloc, name)?;
        let slot = slot_of(&mut self.keeper, &self.plans, alloc, name, path)?;
        if slot.is_held {
            test_reader(alloc, &slot.want, reader)?;
            return Ok(Answer::Repeated);
        }
        self.keeper.put_from(alloc, name, &slot.want, reader)?;
        Ok(Answer::Taken)
    }

    fn find_plan(&mut self, alloc: Global, name: &str) -> Result<(), DeliverFault>
        ensures looks { Does K.holds K.may_leave K.clean self.old self.new Same }
        ensures finds { (text : List ℕ) → Finds K.holds K.may_leave K.clean self.old self.new
            name.now text
            (λ now done. IsPlanned name.now now.held (plans_in self.new.plans) true) result }
        ensures named { MatchResult result (λ done. IsTransferName name.now)
            (λ fault. IsNoPlan fault × (¬ IsTransferName name.now → fault ≡ NoTransfer)) }
        ensures store { CountsIf ((fault : StoreFault) × IsErrOf result (NotKept (Store fault)))
            (K.failures self.old.keeper) (K.failures self.new.keeper) }
    {
        match self.has_plan(alloc, name)? {
            true => Ok(()),
            false => Err(DeliverFault::NoTransfer),
        }
    }
}

/// What is known of a path before its content is read.
#[derive(Drop)]
struct Slot<'a> {
    want: Want<'a>,
    is_held: bool,
}

/// What the transfer wants at this path, and whether it holds it.
fn slot_of<'a, K: Keeper, P: GivenPath>(
    keeper: &mut K,
    plans: &'a Plans,
    alloc: Global,
    name: &str,
    path: P,
) -> Result<Slot<'a>, DeliverFault>
    ensures looks { Does K.holds K.may_leave K.clean
        (record { keeper = keeper.old; plans = plans.now })
        (record { keeper = keeper.new; plans = plans.now }) Same }
    ensures finds { ((ledger : Ledger) → IsPlanned name.now ledger (plans_in plans.now) true)
        → Finds K.holds K.may_leave K.clean (record { keeper = keeper.old; plans = plans.now })
        (record { keeper = keeper.new; plans = plans.now }) name.now (P.text path)
        (λ now. IsPlaceIn now.held name.now (P.text path)) result }
    ensures judged { MatchResult result (λ slot. IsPath (P.text path))
        (λ fault. (content : Content) → Judges (Refused fault) (P.text path) content) }
    ensures unasked { IfErr result (λ fault. IsOfLists fault → keeper.new ≡ keeper.old) }
    ensures store { CountsIf ((fault : StoreFault) × IsErrOf result (NotKept (Store fault)))
        (K.failures keeper.old) (K.failures keeper.new) }
{
    let path = parsed(alloc, path)?;
    let Some(plan) = plans.get(name) else {
        return Err(DeliverFault::NoTransfer);
    };
    let Some(want) = plan.want(&path) else {
        return Err(DeliverFault::NotListed);
    };
    let is_held = keeper.size_of(alloc, name, &path)?.is_some();
    Ok(Slot { want, is_held })
}

/// The path that is given.
fn parsed<P: GivenPath>(alloc: Global, path: P) -> Result<BagPath, DeliverFault>
    ensures { MatchResult result (λ parsed. (parsed ≡ P.text path) × IsPath (P.text path))
        (RefusesText (P.text path)) }
{
    match path.into_path(alloc) {
        Ok(path) => Ok(path),
        Err(PathFault::Memory) => Err(DeliverFault::Keeper(KeepFault::Memory)),
        Err(fault) => Err(DeliverFault::BadPath(fault)),
    }
}
