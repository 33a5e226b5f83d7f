//! `bag export LEDGER NAME DIR`: writes the bag that is held to a new folder.
ghost use Rattle.bag_program.specs.Working.{ExportsInto};

use super::no_result_for_folder;
use crate::explanation::{Ended, Why};
use crate::progress_meter::{Activity, Meter};
use crate::system::System;
use crate::watched::Watched;
use bag_commands::status::DONE;
use bag_commands::{Output, export_to};
use bag_folder::NewFolders;
use bag_ledger::Keeper;
use bag_receiver::Receiver;
use bag_writer::Sink;
use std::io::Write;

/// Writes the bag of a transfer, as it is held, to a new folder and prints the result, as [`export_to`] does. If the
/// folder can't be made, prints that.
///
/// If the status isn't 0, the folder is given up, that is, removed if it is empty.
pub fn export_into_folder<K: Keeper, R: Eprint, N, D, F: NewFolders, W: Write + Drop>(
    system: &System<'_, R, N, D>,
    folders: &mut F,
    receiver: &mut Receiver<K>,
    name: &str,
    folder: &str,
    out: &mut Output<W>,
) -> Ended
    ensures { ExportsInto K.Keeper F.Folder.Sink F.NewFolders W.contents name.now folder.now
        folders.old folders.new receiver.old receiver.new out.old out.new result }
{
    let alloc = system.alloc;
    match folders.create(alloc, folder) {
        Ok(sink) => {
            let meter = Meter::new(system.progress, Activity::Exporting);
            let mut sink = Watched::new(sink, &meter);
            let status = export_to(alloc, receiver, name, &mut sink, out);
            let sink = sink.into_inside();
            if status != DONE {
                folders.give_up();
            }
            Ended {
                status,
                why: Why::of_failures(sink.failures(), F::into_trouble(sink)),
            }
        }
        Err(fault) => no_result_for_folder(fault, out),
    }
}
