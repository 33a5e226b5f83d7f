//! Runs of deliveries from a courier.
ghost use Rattle.std.specs.Prelude.{◌≡◌, ◌≢◌, ◌≤◌, ◌++◌, ◌∷◌, [], Err, IfErr, List, OnErr, OnOk, is_some, length, true};
ghost use Rattle.bag_digest.specs.Failures.{CountsIf, one_more};
ghost use Rattle.bag_receiver.specs.declared.answer.Answer.TheVariants.{Repeated};
ghost use Rattle.bag_receiver.specs.Couriers.{AreBrought, AreTold, CallsNext, ComesNext, IsEndWith, courier_failures};
ghost use Rattle.bag_receiver.specs.Deliveries.{Delivery};
ghost use Rattle.bag_receiver.specs.Runs.{CountsEach, Runs};

use crate::answer::Answer;
use crate::courier::Courier;
use crate::receiver::Receiver;
use crate::run::{End, MOST_DELIVERIES, Run};
use bag_ledger::Keeper;
use bag_path::BagPath;
use std::alloc::{AllocError, Global};

impl<K: Keeper> Receiver<K> {
    /// Takes in what the courier delivers, one item after another. Returns the run and the path of each delivery.
    pub fn run_from<C: Courier>(
        &mut self,
        alloc: Global,
        name: &str,
        courier: &mut C,
    ) -> (Run, Vec<BagPath>)
        ensures runs { (deliveries : List Delivery)
            × AreTold deliveries result.1.items result.0.answers.items
            × AreBrought (C.coming courier.old) deliveries result.0.ended
            × Runs K.holds K.may_leave K.clean K.failures self.old self.new name.now deliveries }
        ensures within { length result.0.answers.items ≤ MOST_DELIVERIES }
        ensures failures { CountsEach
            (courier_failures result.0.answers.items result.0.ended)
            (C.failures courier.old) (C.failures courier.new) }
        ensures nexts { CallsNext (length result.0.answers.items)
            (C.nexts courier.old) (C.nexts courier.new) }
        // A failed read is the answer to its item. `End::Courier` comes only from a failed `next`.
        ensures steady { C.steady courier.old → result.0.ended ≢ End.Courier }
    {
        let mut answers = Vec::new(alloc);
        let mut paths = Vec::new(alloc);
        'items: loop {
            let n = answers.len();
            if let Err(ended) = next_item(courier, n) {
                return (Run { answers, ended }, paths);
            }
            let Ok(()) = add_place(&mut paths, &mut answers, courier.path()) else {
                let ended = End::Memory;
                return (Run { answers, ended }, paths);
            };
            answers[n] = self.deliver_from(alloc, name, &paths[n], courier);
        }
    }
}

/// Goes on to the next item after `n` deliveries, or returns how the run ends.
fn next_item<C: Courier>(courier: &mut C, n: usize) -> Result<(), End>
    ensures came { OnOk result ((n ≢ MOST_DELIVERIES) × (is_some (C.path courier.new) ≡ true)
        × ComesNext (C.coming courier.old) true (C.path courier.new)
        (C.remaining courier.new) (C.coming courier.new)) }
    ensures ended { IfErr result (λ ended. IsEndWith ended n (C.coming courier.old)) }
    ensures failures { CountsIf (result ≡ Err End.Courier)
        (C.failures courier.old) (C.failures courier.new) }
    ensures nexts { C.nexts courier.new ≡ one_more (C.nexts courier.old) }
    ensures steady { C.steady courier.old → (result ≢ Err End.Courier) × C.steady courier.new }
{
    match courier.next() {
        Ok(true) if n == MOST_DELIVERIES => Err(End::TooMany),
        Ok(true) => Ok(()),
        Ok(false) => Err(End::Done),
        Err(_) => Err(End::Courier),
    }
}

/// Makes room for this path and for its answer.
fn add_place(
    paths: &mut Vec<BagPath>,
    answers: &mut Vec<Answer>,
    path: &BagPath,
) -> Result<(), AllocError>
    ensures placed { OnOk result ((paths.new.items ≡ paths.old.items ++ path.now ∷ [])
        × (answers.new.items ≡ answers.old.items ++ Repeated ∷ [])) }
    ensures unchanged { OnErr result ((paths.new.items ≡ paths.old.items)
        × (answers.new.items ≡ answers.old.items)) }
{
    let path = path.clone()?;
    if answers.push(Answer::Repeated).is_err() {
        return Err(AllocError);
    }
    if paths.push(path).is_err() {
        answers.pop();
        return Err(AllocError);
    }
    Ok(())
}
