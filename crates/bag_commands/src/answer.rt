//! Answers to deliveries, and outcomes of what was asked for, as lines.

use bag_ledger::KeepFault;
use bag_path::{BagPath, Spelling};
use bag_receiver::{Answer, DeliverFault, FetchAnswer, FetchOutcome};
use std::fmt::{Display, Formatter, Result, Write};

/// The answer to a delivery, as a line.
#[derive(Clone, Copy)]
pub struct AnswerLine<'a> {
    /// The path that it was delivered for.
    pub path: &'a BagPath,
    /// The answer.
    pub answer: Answer,
}

impl Display for AnswerLine<'_> {
    ghost use Rattle.std.specs.Prelude.{Some};
    ghost use Rattle.bag_commands.specs.AnswerTexts.{answer_text};

    ghost output = { λ line. Some (answer_text line.path.now line.answer) };

    fn fmt<W: Write>(&self, f: &mut Formatter<W>) -> Result {
        let path = Spelling(self.path);
        match self.answer {
            Answer::Taken => write!(f, "taken {path}"),
            Answer::Repeated => write!(f, "repeated {path}"),
            Answer::Refused(fault) => write!(f, "refused {path}: {}", RefusalText(fault)),
        }
    }
}

/// The outcome of an entry of `fetch.txt` that was asked for, as a line.
#[derive(Clone, Copy)]
pub(crate) struct OutcomeLine<'a>(pub &'a FetchOutcome);

impl Display for OutcomeLine<'_> {
    ghost use Rattle.std.specs.Prelude.{Some};
    ghost use Rattle.bag_commands.specs.FetchTexts.{outcome_text};

    ghost output = { λ line. Some (outcome_text line.0.now) };

    fn fmt<W: Write>(&self, f: &mut Formatter<W>) -> Result {
        let path = Spelling(&self.0.path);
        match self.0.answer {
            FetchAnswer::Taken => write!(f, "taken {path}"),
            FetchAnswer::NotSupplied => write!(f, "refused {path}: not supplied"),
            FetchAnswer::SupplierFailed => write!(f, "refused {path}: supplier"),
            FetchAnswer::Refused(fault) => write!(f, "refused {path}: {}", RefusalText(fault)),
        }
    }
}

/// Why a delivery was refused.
#[derive(Clone, Copy)]
pub struct RefusalText(pub DeliverFault);

impl Display for RefusalText {
    ghost use Rattle.std.specs.Prelude.{Some};
    ghost use Rattle.bag_commands.specs.AnswerTexts.{refusal_text};

    ghost output = { λ refusal. Some (refusal_text refusal.0) };

    fn fmt<W: Write>(&self, f: &mut Formatter<W>) -> Result {
        match self.0 {
            DeliverFault::NoTransfer => f.write_str("no transfer"),
            DeliverFault::BadPath(_) => f.write_str("path"),
            DeliverFault::NotListed => f.write_str("not listed"),
            DeliverFault::Reader => f.write_str("reader"),
            DeliverFault::TooLarge => f.write_str("too large"),
            DeliverFault::Length => f.write_str("length"),
            DeliverFault::Digest(alg) => write!(f, "digest {}", alg.name()),
            DeliverFault::Keeper(KeepFault::Memory) => f.write_str("memory"),
            DeliverFault::Keeper(KeepFault::Store(_)) => f.write_str("store"),
        }
    }
}
