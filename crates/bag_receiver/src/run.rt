//! Runs of deliveries.
ghost use Rattle.std.specs.Prelude.{◌≤◌, length};
ghost use Rattle.bag_receiver.specs.Beginning.{given_in};
ghost use Rattle.bag_receiver.specs.Runs.{IsEndOf, Runs, with_answers};

use crate::answer::Answer;
use crate::receiver::Receiver;
use bag_ledger::Keeper;
use std::alloc::Global;

/// The maximum number of deliveries in one run.
pub const MOST_DELIVERIES: usize = 1_000_000;

/// How a run ended.
#[derive(Clone, Copy, Debug, PartialEq, Eq)]
pub enum End {
    /// All items were delivered.
    Done,
    /// 1,000,000 items were delivered, and there are more.
    TooMany,
    /// The courier failed to deliver the next item.
    Courier,
    /// There was no memory for the answer to the next item or for its path. The item wasn't delivered.
    Memory,
}

/// The result of a run of deliveries: the answers in the order of the deliveries, one for each that began, and how the
/// run ended.
#[derive(Debug, Drop)]
pub struct Run {
    /// The answers to the first items.
    pub answers: Vec<Answer>,
    /// Why there are no more answers.
    pub ended: End,
}

impl<K: Keeper> Receiver<K> {
    /// Takes in these payload files one after another as `deliver` does, each given as its path in plain text and its
    /// content.
    ///
    /// A refusal doesn't end the run. Room for an answer is reserved before its delivery begins, so each delivery that
    /// began has an answer.
    pub fn run(&mut self, alloc: Global, name: &str, items: &[(String, Vec<u8>)]) -> Run
        ensures runs { Runs K.holds K.may_leave K.clean K.failures self.old self.new name.now
            (with_answers (given_in items.now) result.answers.items) }
        ensures within { length result.answers.items ≤ MOST_DELIVERIES }
        ensures ended { IsEndOf result.ended (length result.answers.items) (length items.now) }
    {
        let mut answers = Vec::new(alloc);
        for (path, content) in items {
            let n = answers.len();
            if n == MOST_DELIVERIES {
                return Run {
                    answers,
                    ended: End::TooMany,
                };
            }
            if answers.push(Answer::Repeated).is_err() {
                return Run {
                    answers,
                    ended: End::Memory,
                };
            }
            answers[n] = self.deliver(alloc, name, path.as_str(), content.as_slice());
        }
        Run {
            answers,
            ended: End::Done,
        }
    }
}
