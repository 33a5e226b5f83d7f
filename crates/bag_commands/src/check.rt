//! `check`: judges the bag in a tree.
ghost use Rattle.std.specs.Prelude.{◌≡◌, [], OnErr, OnOk};
ghost use Rattle.std.specs.Io.Buffered.{writer_buffer};
ghost use Rattle.bag_digest.specs.Failures.{Rises};
ghost use Rattle.bag_rules.specs.Bags.{Bag, IsBagOf, IsSomeBagOf};
ghost use Rattle.bag_rules.specs.Checking.{ChecksTree};
ghost use Rattle.bag_rules.specs.Validity.{IsValid};
ghost use Rattle.bag_commands.specs.Outputs.{Printed, WroteLines};
ghost use Rattle.bag_commands.specs.Checking.{PrintedChecking};
ghost use Rattle.bag_commands.specs.CheckTexts.{check_lines, check_status};

use crate::fault_line::OutsideLine;
use crate::no_result::NoResult;
use crate::output::Output;
use crate::status::{FAILED, VALID, check_status};
use crate::verdict::write_report;
use bag_digest::Failed;
use bag_rules::{CheckFault, OpenTree, Outcome, check};
use std::alloc::Global;
use std::io::Write;

/// How a check ended.
#[derive(Debug, Drop)]
pub struct CheckEnd {
    /// The exit status.
    pub status: u8,
    /// Why the check couldn't be completed, if the printed line says that it couldn't.
    pub fault: Option<CheckFault>,
}

/// Checks the bag in a tree and prints the result. The status is 0 for a valid bag, 1 for one that isn't, 2 if the bag
/// can't be judged here, and 3 if the check couldn't be completed or a line couldn't be written.
pub fn check_to<T: OpenTree, W: Write + Drop>(
    alloc: Global,
    tree: &mut T,
    out: &mut Output<W>,
) -> CheckEnd
    // The status is 0 only for a valid bag.
    ensures valid { result.status ≡ VALID
        → (bag : Bag) → IsBagOf (T.shown tree.old) bag → IsValid bag }
    // So it is where octets are not known: the bag then has the files of the tree.
    ensures some { result.status ≡ VALID
        → (bag : Bag) × IsSomeBagOf (T.shown tree.old) bag × IsValid bag }
    ensures printed { PrintedChecking W.contents out.old out.new result
        (ChecksTree T.shown T.failures T.sure tree.old tree.new) }
{
    let answer = check(alloc, tree);
    CheckEnd {
        status: print_outcome(&answer, out),
        fault: answer.err(),
    }
}

/// Prints the result of a check, and returns its status.
fn print_outcome<W: Write + Drop>(outcome: &Result<Outcome, CheckFault>, out: &mut Output<W>) -> u8
    ensures { Printed W.contents out.old out.new result
        (check_lines outcome.now) (check_status outcome.now) }
{
    match write_outcome(outcome, out) {
        Ok(()) => check_status(outcome),
        Err(Failed) => FAILED,
    }
}

/// Writes the lines of a result, and flushes them.
fn write_outcome<W: Write + Drop>(
    outcome: &Result<Outcome, CheckFault>,
    out: &mut Output<W>,
) -> Result<(), Failed>
    ensures ok { OnOk result (WroteLines W.contents out.old out.new (check_lines outcome.now)) }
    ensures handed_on { OnOk result (writer_buffer out.new.writer ≡ []) }
    ensures failed { OnErr result (Rises out.old.failures out.new.failures) }
{
    match outcome {
        Ok(Outcome::Judged(report)) => write_report(report, out)?,
        Ok(Outcome::Outside(cause)) => out.line(OutsideLine(cause))?,
        Err(fault) => out.line(NoResult::from(fault).text())?,
    }
    out.flush()
}
