//! `report`: reports what is wrong with the bag of a transfer as it is held.
ghost use Rattle.std.specs.Prelude.{◌≡◌, [], OnErr, OnOk};
ghost use Rattle.std.specs.Io.Buffered.{writer_buffer};
ghost use Rattle.bag_digest.specs.Failures.{Rises};
ghost use Rattle.bag_receiver.specs.ViewAnswers.{IsReporting};
ghost use Rattle.bag_commands.specs.Outputs.{Printed, PrintedBy, WroteLines};
ghost use Rattle.bag_commands.specs.Viewing.{IsValidIfZero};
ghost use Rattle.bag_commands.specs.ViewTexts.{view_fault_line, view_fault_status, view_lines, view_status};

use crate::no_result::{NO_TRANSFER, NoResult};
use crate::output::Output;
use crate::status::{FAILED, view_status};
use crate::verdict::write_report;
use bag_digest::Failed;
use bag_ledger::Keeper;
use bag_receiver::{Receiver, ViewFault};
use bag_rules::Report;
use std::alloc::Global;
use std::io::Write;

/// Prints the report on the bag of a transfer as it is held: what is wrong with it, and the verdict; or why there is
/// none. Returns the status: 0 for a valid bag; 1 for one that isn't, or if there is no such transfer; 3 if the store
/// or memory failed or a line couldn't be written.
pub fn report_to<K: Keeper, W: Write + Drop>(
    alloc: Global,
    receiver: &mut Receiver<K>,
    name: &str,
    out: &mut Output<W>,
) -> u8
    // The status is 0 only if the transfer holds a valid bag.
    ensures valid { IsValidIfZero K.holds K.may_leave K.clean name.now
        receiver.old receiver.new result }
    ensures printed { PrintedBy W.contents view_lines view_status out.old out.new result
        (IsReporting K.holds K.may_leave K.clean K.failures name.now receiver.old receiver.new) }
{
    let answer = receiver.report(alloc, name);
    print_view(&answer, out)
}

/// Prints a report, or why there is none, and returns the status.
pub(crate) fn print_view<W: Write + Drop>(
    answer: &Result<Report, ViewFault>,
    out: &mut Output<W>,
) -> u8
    ensures { Printed W.contents out.old out.new result
        (view_lines answer.now) (view_status answer.now) }
{
    match write_view(answer, out) {
        Ok(()) => view_status(answer),
        Err(Failed) => FAILED,
    }
}

/// Writes the lines of an answer, and flushes them.
fn write_view<W: Write + Drop>(
    answer: &Result<Report, ViewFault>,
    out: &mut Output<W>,
) -> Result<(), Failed>
    ensures ok { OnOk result (WroteLines W.contents out.old out.new (view_lines answer.now)) }
    ensures handed_on { OnOk result (writer_buffer out.new.writer ≡ []) }
    ensures failed { OnErr result (Rises out.old.failures out.new.failures) }
{
    match answer {
        Ok(report) => write_report(report, out)?,
        Err(fault) => out.line(fault_line(*fault))?,
    }
    out.flush()
}

/// The line that says why there is no report.
pub fn fault_line(fault: ViewFault) -> &'static str
    ensures { result.now ≡ view_fault_line fault }
{
    match fault {
        ViewFault::NoTransfer => NO_TRANSFER,
        ViewFault::Keeper(why) => NoResult::from(why).text(),
    }
}
