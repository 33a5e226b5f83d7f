//! `list`: prints the names of the transfers in the ledger.
ghost use Rattle.std.specs.Prelude.{◌≡◌, [], OnErr, OnOk, map};
ghost use Rattle.std.specs.Io.Buffered.{writer_buffer};
ghost use Rattle.bag_digest.specs.Failures.{Rises};
ghost use Rattle.bag_receiver.specs.Listing.{IsListing};
ghost use Rattle.bag_commands.specs.ListTexts.{list_lines, list_status, name_text};
ghost use Rattle.bag_commands.specs.Outputs.{PrintedBy, WroteLines};

use crate::no_result::NoResult;
use crate::output::Output;
use crate::status::{FAILED, list_status};
use bag_digest::Failed;
use bag_ledger::{KeepFault, Keeper};
use bag_path::TextSpelling;
use bag_receiver::Receiver;
use std::alloc::Global;
use std::io::Write;

/// Prints the name of each transfer on its own line, in order, or why the names can't be read, and returns the status.
///
/// A name that isn't valid, in a ledger that another program wrote, is printed with the escapes of a path.
pub fn list_to<K: Keeper, W: Write + Drop>(
    alloc: Global,
    receiver: &mut Receiver<K>,
    out: &mut Output<W>,
) -> u8
    ensures { PrintedBy W.contents list_lines list_status out.old out.new result
        (IsListing K.holds K.may_leave K.clean K.failures receiver.old receiver.new) }
{
    let names = receiver.names(alloc);
    match write_names(&names, out) {
        Ok(()) => list_status(&names),
        Err(Failed) => FAILED,
    }
}

/// Writes the lines, and flushes them.
fn write_names<W: Write + Drop>(
    names: &Result<Vec<String>, KeepFault>,
    out: &mut Output<W>,
) -> Result<(), Failed>
    ensures ok { OnOk result (WroteLines W.contents out.old out.new (list_lines names.now)) }
    ensures handed_on { OnOk result (writer_buffer out.new.writer ≡ []) }
    ensures failed { OnErr result (Rises out.old.failures out.new.failures) }
{
    match names {
        Ok(names) => write_each(names.as_slice(), out)?,
        Err(fault) => out.line(NoResult::from(*fault).text())?,
    }
    out.flush()
}

/// Writes each name on its own line.
fn write_each<W: Write + Drop>(names: &[String], out: &mut Output<W>) -> Result<(), Failed>
    ensures ok { OnOk result (WroteLines W.contents out.old out.new (map name_text names.now)) }
    ensures failed { OnErr result (Rises out.old.failures out.new.failures) }
{
    for name in names {
        out.line(TextSpelling(name.as_str()))?;
    }
    Ok(())
}
