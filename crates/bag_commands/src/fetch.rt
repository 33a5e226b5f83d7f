//! `fetch`: asks a supplier for what the `fetch.txt` of a transfer lists and isn't held.
ghost use Rattle.std.specs.Prelude.{◌≡◌, [], OnErr, OnOk, map};
ghost use Rattle.std.specs.Io.Buffered.{writer_buffer};
ghost use Rattle.bag_digest.specs.Failures.{Rises};
ghost use Rattle.bag_receiver.specs.Fetching.{IsFetching};
ghost use Rattle.bag_commands.specs.FetchTexts.{fetch_lines, fetch_status, outcome_text};
ghost use Rattle.bag_commands.specs.Outputs.{Printed, PrintedBy, WroteLines};

use crate::answer::OutcomeLine;
use crate::output::Output;
use crate::report::fault_line;
use crate::status::{FAILED, fetch_status};
use bag_digest::Failed;
use bag_ledger::Keeper;
use bag_receiver::{FetchOutcome, Receiver, Supplier, ViewFault};
use std::alloc::Global;
use std::io::Write;

/// Asks a supplier for what the `fetch.txt` of a transfer lists and isn't held, and takes in what it gives. Then prints
/// a line for each entry that was asked for, or why none was, and returns the status: 0 if everything is held; 1 if
/// something was refused or isn't supplied, or there is no such transfer; and 3 if a read, the supplier, the store or
/// memory failed or a line couldn't be written.
///
/// A refusal ends nothing. What was taken in is kept even if the output fails.
pub fn fetch_to<K: Keeper, S: Supplier, W: Write + Drop>(
    alloc: Global,
    receiver: &mut Receiver<K>,
    name: &str,
    supplier: &mut S,
    out: &mut Output<W>,
) -> u8
    ensures { PrintedBy W.contents fetch_lines fetch_status out.old out.new result
        (IsFetching K.holds K.may_leave K.clean K.failures S.supply S.failures S.asks
        name.now receiver.old receiver.new supplier.old supplier.new) }
{
    let answer = receiver.fetch(alloc, name, supplier);
    print_fetch(&answer, out)
}

/// Prints the outcome of each entry that was asked for, or why none was, and returns the status.
fn print_fetch<W: Write + Drop>(
    answer: &Result<Vec<FetchOutcome>, ViewFault>,
    out: &mut Output<W>,
) -> u8
    ensures { Printed W.contents out.old out.new result
        (fetch_lines answer.now) (fetch_status answer.now) }
{
    match write_fetch(answer, out) {
        Ok(()) => fetch_status(answer),
        Err(Failed) => FAILED,
    }
}

/// Writes the lines of an answer, and flushes them.
fn write_fetch<W: Write + Drop>(
    answer: &Result<Vec<FetchOutcome>, ViewFault>,
    out: &mut Output<W>,
) -> Result<(), Failed>
    ensures ok { OnOk result (WroteLines W.contents out.old out.new (fetch_lines answer.now)) }
    ensures handed_on { OnOk result (writer_buffer out.new.writer ≡ []) }
    ensures failed { OnErr result (Rises out.old.failures out.new.failures) }
{
    match answer {
        Ok(outcomes) => write_outcomes(outcomes.as_slice(), out)?,
        Err(fault) => out.line(fault_line(*fault))?,
    }
    out.flush()
}

/// Writes a line for each outcome.
fn write_outcomes<W: Write + Drop>(
    outcomes: &[FetchOutcome],
    out: &mut Output<W>,
) -> Result<(), Failed>
    ensures ok { OnOk result (WroteLines W.contents out.old out.new
        (map outcome_text outcomes.now)) }
    ensures failed { OnErr result (Rises out.old.failures out.new.failures) }
{
    for outcome in outcomes {
        out.line(OutcomeLine(outcome))?;
    }
    Ok(())
}
