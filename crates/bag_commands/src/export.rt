//! `export`: writes the bag of a transfer, as it is held, to a sink.
ghost use Rattle.std.specs.Prelude.{◌≡◌, ◌∷◌, []};
ghost use Rattle.bag_receiver.specs.Exporting.{IsExporting};
ghost use Rattle.bag_commands.specs.ExportTexts.{export_fault_line, export_status, export_text};
ghost use Rattle.bag_commands.specs.Outputs.{Printed, PrintedOne};

use crate::no_result::{NO_TRANSFER, NoResult};
use crate::output::Output;
use crate::status::export_status;
use bag_ledger::Keeper;
use bag_receiver::{ExportFault, Receiver};
use bag_writer::Sink;
use std::alloc::Global;
use std::fmt::{self, Display, Formatter};
use std::io::Write;

/// Writes the bag of a transfer, as it is held, to a new sink, prints how many files it has, and returns the status: 0
/// if the bag was exported, 1 if there is no such transfer, and 3 if the sink, the store or memory failed or the result
/// couldn't be written.
///
/// After a fault of the sink, the store or memory, the sink holds part of the bag.
pub fn export_to<K: Keeper, S: Sink, W: Write + Drop>(
    alloc: Global,
    receiver: &mut Receiver<K>,
    name: &str,
    sink: &mut S,
    out: &mut Output<W>,
) -> u8
    ensures { PrintedOne W.contents export_text export_status out.old out.new result
        (IsExporting K.holds K.may_leave K.clean K.failures S.stored S.is_open S.failures S.sure
        name.now receiver.old receiver.new sink.old sink.new) }
{
    let answer = receiver.export(alloc, name, sink);
    print_export(answer, out)
}

/// Prints the result of an export and returns the status.
fn print_export<W: Write + Drop>(answer: Result<u64, ExportFault>, out: &mut Output<W>) -> u8
    ensures { Printed W.contents out.old out.new result
        (export_text answer ∷ []) (export_status answer) }
{
    out.print(ExportLine(answer), export_status(answer))
}

/// The line that says why no bag, or only part of one, was exported.
fn fault_line(fault: ExportFault) -> &'static str
    ensures { result.now ≡ export_fault_line fault }
{
    match fault {
        ExportFault::NoTransfer => NO_TRANSFER,
        ExportFault::Sink => NoResult::Files.text(),
        ExportFault::Keeper(why) => NoResult::from(why).text(),
    }
}

/// A result of `export` as a line.
#[derive(Clone, Copy)]
struct ExportLine(Result<u64, ExportFault>);

impl Display for ExportLine {
    ghost use Rattle.std.specs.Prelude.{Some};
    ghost use Rattle.bag_commands.specs.ExportTexts.{export_text};

    ghost output = { λ line. Some (export_text line.0) };

    fn fmt<W: fmt::Write>(&self, f: &mut Formatter<W>) -> fmt::Result {
        match self.0 {
            Ok(count) => write!(f, "exported {count} files"),
            Err(fault) => f.write_str(fault_line(fault)),
        }
    }
}
