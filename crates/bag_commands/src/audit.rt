//! `audit`: reports what is wrong with the bag of a transfer after reading again everything that is held of it.
ghost use Rattle.bag_receiver.specs.Audits.{IsAuditing};
ghost use Rattle.bag_commands.specs.Outputs.{PrintedBy};
ghost use Rattle.bag_commands.specs.Viewing.{IsValidIfZero};
ghost use Rattle.bag_commands.specs.ViewTexts.{view_lines, view_status};

use crate::output::Output;
use crate::report::print_view;
use bag_ledger::Keeper;
use bag_receiver::Receiver;
use std::alloc::Global;
use std::io::Write;

/// Reads and hashes again all payload files of a transfer, prints what is wrong with its bag and returns the status, as
/// [`report_to`](crate::report_to) does.
pub fn audit_to<K: Keeper, W: Write + Drop>(
    alloc: Global,
    receiver: &mut Receiver<K>,
    name: &str,
    out: &mut Output<W>,
) -> u8
    // The status is 0 only if the transfer holds a valid bag.
    ensures valid { IsValidIfZero K.holds K.may_leave K.clean name.now
        receiver.old receiver.new result }
    ensures printed { PrintedBy W.contents view_lines view_status out.old out.new result
        (IsAuditing K.holds K.may_leave K.clean K.failures name.now receiver.old receiver.new) }
{
    let answer = receiver.audit(alloc, name);
    print_view(&answer, out)
}
