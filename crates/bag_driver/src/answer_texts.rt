//! Answers and reports, in the words of `docs/FORMAT.md`: those that the program prints, but for what it leaves out.
use bag_commands::{FaultLine, OutsideLine, RefusalText};
use bag_ledger::KeepFault;
use bag_path::Spelling;
use bag_receiver::{Answer, BeginFault, End, ExportFault, FetchAnswer, ViewFault};
use std::fmt::{Display, Formatter, Result, Write};

/// How a run ended.
pub fn end_text(ended: End) -> &'static str {
    match ended {
        End::Done => "done",
        End::TooMany => "too many",
        End::Courier => "courier",
        End::Memory => "memory",
    }
}

/// Why a keeper has no answer.
pub fn keep_text(fault: KeepFault) -> &'static str {
    match fault {
        KeepFault::Memory => "memory",
        KeepFault::Store(_) => "store",
    }
}

/// Why there is no report.
pub fn view_text(fault: ViewFault) -> &'static str {
    match fault {
        ViewFault::NoTransfer => "no transfer",
        ViewFault::Keeper(fault) => keep_text(fault),
    }
}

/// The answer to a delivery.
#[derive(Clone, Copy)]
pub struct AnswerText(pub Answer);

impl Display for AnswerText {
    fn fmt<W: Write>(&self, f: &mut Formatter<W>) -> Result {
        match self.0 {
            Answer::Taken => f.write_str("taken"),
            Answer::Repeated => f.write_str("repeated"),
            Answer::Refused(fault) => write!(f, "refused: {}", RefusalText(fault)),
        }
    }
}

/// Why no transfer was opened.
#[derive(Clone, Copy)]
pub struct UnbegunText<'a>(pub &'a BeginFault);

impl Display for UnbegunText<'_> {
    fn fmt<W: Write>(&self, f: &mut Formatter<W>) -> Result {
        match self.0 {
            BeginFault::TagPath(place) => write!(f, "tag path {place}"),
            BeginFault::TagTooLarge(path) => write!(f, "tag too large {}", Spelling(path)),
            BeginFault::Outside(cause) => write!(f, "{}", OutsideLine(cause)),
            BeginFault::Rules(fault) => write!(f, "{}", FaultLine(fault)),
            BeginFault::Clash(path) => write!(f, "clash {}", Spelling(path)),
            BeginFault::Keeper(fault) => f.write_str(keep_text(*fault)),
            other => write!(f, "{other}"),
        }
    }
}

/// The outcome of asking for an entry of `fetch.txt`.
#[derive(Clone, Copy)]
pub struct FetchedText(pub FetchAnswer);

impl Display for FetchedText {
    fn fmt<W: Write>(&self, f: &mut Formatter<W>) -> Result {
        match self.0 {
            FetchAnswer::Taken => f.write_str("taken"),
            FetchAnswer::NotSupplied => f.write_str("not supplied"),
            FetchAnswer::SupplierFailed => f.write_str("supplier"),
            FetchAnswer::Refused(fault) => write!(f, "refused: {}", RefusalText(fault)),
        }
    }
}

/// Why no bag, or only part of one, was exported.
pub fn export_text(fault: ExportFault) -> &'static str {
    match fault {
        ExportFault::NoTransfer => "no transfer",
        ExportFault::Sink => "sink",
        ExportFault::Keeper(fault) => keep_text(fault),
    }
}
