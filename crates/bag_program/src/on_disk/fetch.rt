//! `bag fetch LEDGER NAME DIR`: looks in a folder for the files that `fetch.txt` lists and that aren't held.
ghost use Rattle.bag_program.specs.Disks.{disk_known};
ghost use Rattle.bag_program.specs.Working.{FetchesFrom};

use super::no_result_for_folder;
use crate::explanation::Ended;
use crate::progress_meter::{Activity, Meter};
use crate::system::System;
use crate::watched::Watched;
use bag_commands::{Output, fetch_to};
use bag_folder::{Directories, FolderSupplier, Names};
use bag_ledger::Keeper;
use bag_receiver::Receiver;
use std::io::Write;

/// Looks in a folder for each payload file that the transfer's `fetch.txt` lists and that isn't held, by its path and
/// whatever its url. Takes in the files found and prints the results, as [`fetch_to`] does. If the folder can't be
/// opened, prints that.
pub fn fetch_from_folder<K: Keeper, R: Eprint, N: Names + Copy, D: Directories, W: Write + Drop>(
    system: &System<'_, R, N, D>,
    receiver: &mut Receiver<K>,
    name: &str,
    folder: &str,
    out: &mut Output<W>,
) -> Ended
    ensures { FetchesFrom K.Keeper (disk_known D.listing N.standing system.now) W.contents name.now
        folder.now receiver.old receiver.new out.old out.new result }
{
    let alloc = system.alloc;
    match FolderSupplier::open(system.names, alloc, folder) {
        Ok(supplier) => {
            let meter = Meter::new(system.progress, Activity::Fetching);
            let mut supplier = Watched::new(supplier, &meter);
            Ended::plain(fetch_to(alloc, receiver, name, &mut supplier, out))
        }
        Err(fault) => no_result_for_folder(fault, out),
    }
}
