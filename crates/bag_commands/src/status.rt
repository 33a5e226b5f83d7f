//! The exit statuses of the program, and which result has which. Two names for one number say what it means where it
//! stands.
ghost use Rattle.std.specs.Prelude.{◌≡◌, map};
ghost use Rattle.bag_commands.specs.AnswerTexts.{answer_status};
ghost use Rattle.bag_commands.specs.BeginTexts.{begin_status};
ghost use Rattle.bag_commands.specs.CheckTexts.{check_status};
ghost use Rattle.bag_commands.specs.ExportTexts.{export_status};
ghost use Rattle.bag_commands.specs.FetchTexts.{fetch_status, fetched_status, outcome_status};
ghost use Rattle.bag_commands.specs.IntakesInside.{told_of};
ghost use Rattle.bag_commands.specs.IntakeTexts.{end_status, greatest, run_status};
ghost use Rattle.bag_commands.specs.ListTexts.{list_status};
ghost use Rattle.bag_commands.specs.MakeTexts.{make_status};
ghost use Rattle.bag_commands.specs.VerdictTexts.{report_status};
ghost use Rattle.bag_commands.specs.ViewTexts.{view_fault_status, view_status};

use bag_ledger::KeepFault;
use bag_receiver::{
    Answer, BeginFault, Begun, DeliverFault, End, ExportFault, FetchAnswer, FetchOutcome, Run,
    ViewFault,
};
use bag_rules::{CheckFault, Outcome, Report};
use bag_tags::Oxum;
use bag_writer::WriteFault;

/// The bag is valid.
pub const VALID: u8 = 0;

/// The command did its work.
pub const DONE: u8 = 0;

/// The bag isn't valid.
pub const NOT_VALID: u8 = 1;

/// Something was refused.
pub const REFUSED: u8 = 1;

/// The bag can't be judged here.
pub const OUTSIDE: u8 = 2;

/// Files or the ledger can't be used, a limit was exceeded, memory ran out, or the output is full or closed.
pub const FAILED: u8 = 3;

/// Unknown command line (`EX_USAGE` of `sysexits.h`).
pub const USAGE: u8 = 64;

/// The status for the result of a check.
pub(crate) fn check_status(outcome: &Result<Outcome, CheckFault>) -> u8
    ensures { result ≡ check_status outcome.now }
{
    match outcome {
        Ok(Outcome::Judged(report)) => report_status(report),
        Ok(Outcome::Outside(_)) => OUTSIDE,
        Err(_) => FAILED,
    }
}

/// The status for a report.
pub(crate) fn report_status(report: &Report) -> u8
    ensures { result ≡ report_status report.now }
{
    if report.is_valid() { VALID } else { NOT_VALID }
}

/// The status for the result of `make`.
pub(crate) fn make_status(answer: &Result<Oxum, WriteFault>) -> u8
    ensures { result ≡ make_status answer.now }
{
    match answer {
        Ok(_) => DONE,
        Err(WriteFault::Tree | WriteFault::Sink | WriteFault::Memory) => FAILED,
        Err(_) => REFUSED,
    }
}

/// The status for the result of `begin`.
pub(crate) fn begin_status(answer: &Result<Begun, BeginFault>) -> u8
    ensures { result ≡ begin_status answer.now }
{
    match answer {
        Ok(_) => DONE,
        Err(BeginFault::Outside(_)) => OUTSIDE,
        Err(BeginFault::Tree | BeginFault::Keeper(_)) => FAILED,
        Err(_) => REFUSED,
    }
}

/// The status for a run: the maximum of those of its answers and its end.
pub(crate) fn run_status(run: &Run) -> u8
    ensures { (paths : _) → result ≡ run_status (told_of run.now paths) }
{
    let mut status = DONE;
    for answer in &run.answers {
        status = status.max(answer_status(*answer));
    }
    status.max(end_status(run.ended))
}

/// The status for the end of a run.
pub(crate) fn end_status(ended: End) -> u8
    ensures { result ≡ end_status ended }
{
    match ended {
        End::Done => DONE,
        End::TooMany | End::Courier | End::Memory => FAILED,
    }
}

/// The status for an answer: 0 if the content is held, 3 if a read, the store or memory failed, 1 for any other
/// refusal.
pub(crate) fn answer_status(answer: Answer) -> u8
    ensures { result ≡ answer_status answer }
{
    match answer {
        Answer::Taken | Answer::Repeated => DONE,
        Answer::Refused(DeliverFault::Reader | DeliverFault::Keeper(_)) => FAILED,
        Answer::Refused(_) => REFUSED,
    }
}

/// The status for the result of `fetch`.
pub(crate) fn fetch_status(answer: &Result<Vec<FetchOutcome>, ViewFault>) -> u8
    ensures { result ≡ fetch_status answer.now }
{
    match answer {
        Ok(outcomes) => outcomes_status(outcomes.as_slice()),
        Err(fault) => view_fault_status(*fault),
    }
}

/// The maximum of the statuses of the outcomes.
pub(crate) fn outcomes_status(outcomes: &[FetchOutcome]) -> u8
    ensures { result ≡ greatest (map outcome_status outcomes.now) }
{
    let mut status = DONE;
    for outcome in outcomes {
        status = status.max(fetched_status(outcome.answer));
    }
    status
}

/// The status for the outcome of an entry.
pub(crate) fn fetched_status(answer: FetchAnswer) -> u8
    ensures { result ≡ fetched_status answer }
{
    match answer {
        FetchAnswer::Taken => DONE,
        FetchAnswer::NotSupplied => REFUSED,
        FetchAnswer::SupplierFailed => FAILED,
        FetchAnswer::Refused(fault) => answer_status(Answer::Refused(fault)),
    }
}

/// The status where there is no report.
pub(crate) fn view_fault_status(fault: ViewFault) -> u8
    ensures { result ≡ view_fault_status fault }
{
    match fault {
        ViewFault::NoTransfer => REFUSED,
        ViewFault::Keeper(_) => FAILED,
    }
}

/// The status for the result of `report` or `audit`.
pub(crate) fn view_status(answer: &Result<Report, ViewFault>) -> u8
    ensures { result ≡ view_status answer.now }
{
    match answer {
        Ok(report) => report_status(report),
        Err(fault) => view_fault_status(*fault),
    }
}

/// The status for the result of `export`.
pub(crate) fn export_status(answer: Result<u64, ExportFault>) -> u8
    ensures { result ≡ export_status answer }
{
    match answer {
        Ok(_) => DONE,
        Err(ExportFault::NoTransfer) => REFUSED,
        Err(ExportFault::Sink | ExportFault::Keeper(_)) => FAILED,
    }
}

/// The status for the names that `list` prints.
pub(crate) fn list_status(names: &Result<Vec<String>, KeepFault>) -> u8
    ensures { result ≡ list_status names.now }
{
    match names {
        Ok(_) => DONE,
        Err(_) => FAILED,
    }
}
