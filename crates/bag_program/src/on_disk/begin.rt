//! `bag begin LEDGER NAME DIR`: opens a transfer with the tag files in a folder.
ghost use Rattle.bag_program.specs.Disks.{disk_known};
ghost use Rattle.bag_program.specs.Endings.{IsWhyUnbegun};
ghost use Rattle.bag_program.specs.Working.{BeginsWith};

use super::no_result_for_folder;
use crate::explanation::{Ended, Why};
use crate::named::Named;
use crate::system::System;
use crate::told_refusal::{Refusal, first_odd};
use bag_commands::{BeginEnd, Output, begin_to};
use bag_folder::{Directories, FolderTree, Names};
use bag_ledger::Keeper;
use bag_receiver::{BeginFault, Receiver};
use std::alloc::Global;
use std::io::Write;

/// Opens a transfer with the tag files in a folder and prints the result, as [`begin_to`] does. If the folder can't be
/// opened, prints that.
pub fn begin_with_folder<K: Keeper, R, N: Names + Copy, D: Directories, W: Write + Drop>(
    system: &System<'_, R, N, D>,
    receiver: &mut Receiver<K>,
    name: &str,
    folder: &str,
    out: &mut Output<W>,
) -> Ended
    ensures { BeginsWith K.Keeper (disk_known D.listing N.standing system.now) W.contents name.now
        folder.now receiver.old receiver.new out.old out.new result }
{
    let alloc = system.alloc;
    match FolderTree::open(system.names, system.disk, alloc, folder) {
        Ok(mut tree) => {
            let BeginEnd { status, fault } = begin_to(alloc, receiver, name, &mut tree, out);
            Ended {
                status,
                why: why_unbegun(alloc, fault, name, tree),
            }
        }
        Err(fault) => no_result_for_folder(fault, out),
    }
}

/// Why no transfer with this name was opened with the tag files in this folder, if none was and more is told of it than
/// the printed line says.
fn why_unbegun<N: Names + Drop>(
    alloc: Global,
    fault: Option<BeginFault>,
    name: &str,
    tree: FolderTree<N>,
) -> Option<Why>
    ensures { IsWhyUnbegun tree name.now fault result }
{
    match fault? {
        BeginFault::Tree => Why::of_trouble(tree.into_trouble()),
        BeginFault::TagTooLarge(path) => Some(Why::Refused(Named {
            name: tree.into_folder(),
            what: Refusal::TagFile(path),
        })),
        BeginFault::BadName => Why::of_refusal(alloc, name, Refusal::Name(first_odd(name))),
        BeginFault::Differs => Why::of_refusal(alloc, name, Refusal::Differs),
        BeginFault::TagPath(_)
        | BeginFault::Outside(_)
        | BeginFault::Rules(_)
        | BeginFault::Clash(_)
        | BeginFault::Keeper(_) => None,
    }
}
