//! `bag intake LEDGER NAME DIR..`: takes in the payload files of folders.
ghost use Rattle.std.specs.Prelude.{◌≡◌, IfErr, IfOk, List, map, string_bytes};
ghost use Rattle.bag_folder.specs.Faults.{IfUnfit};
ghost use Rattle.bag_folder.specs.Folders.{FolderShown, disk_of};
ghost use Rattle.bag_folder.specs.Bringing.{courier_of};
ghost use Rattle.std.specs.Option.{option_or};
ghost use Rattle.bag_program.specs.Disks.{disk_known};
ghost use Rattle.bag_program.specs.Endings.{first_name, name_if, name_if_crowded, name_if_empty, why_undelivered};
ghost use Rattle.bag_program.specs.Working.{AreOpened, FirstIsRefused, TakesInFrom};

use super::no_result_for_folder;
use crate::explanation::{Ended, Why};
use crate::progress_meter::{Activity, Meter};
use crate::system::System;
use crate::told_limit::Limit;
use crate::told_name::FolderName;
use crate::watched::Watched;
use bag_commands::{Output, intake_to};
use bag_folder::{Directories, FolderTree, Names, OpenFault, TreeCourier};
use bag_ledger::Keeper;
use bag_receiver::{MOST_DELIVERIES, Receiver};
use bag_writer::payload_count;
use std::alloc::{AllocError, Global};
use std::io::Write;

/// Takes in the payload files of these folders for a transfer and prints the results, as [`intake_to`] does. If one of
/// the folders can't be opened, takes in nothing and prints that. The first of them that has more payload files than a
/// run delivers is told, or if there is none the first without any.
pub fn intake_folders<K: Keeper, R: Eprint, N: Names + Copy, D: Directories, W: Write + Drop>(
    system: &System<'_, R, N, D>,
    receiver: &mut Receiver<K>,
    name: &str,
    folders: &[String],
    out: &mut Output<W>,
) -> Ended
    ensures { TakesInFrom K.Keeper (disk_known D.listing N.standing system.now) W.contents
        name.now (map string_bytes folders.now) receiver.old receiver.new out.old out.new result }
{
    let alloc = system.alloc;
    let meter = Meter::new(system.progress, Activity::TakingIn);
    match open_all(system.names, &meter, system.disk, alloc, folders) {
        Ok(opened) => Ended {
            status: intake_to(alloc, receiver, name, opened.couriers, out),
            why: why_undelivered(opened.crowded, opened.empty),
        },
        Err(fault) => no_result_for_folder(fault, out),
    }
}

/// Folders that were opened.
#[derive(Drop)]
struct AllOpened<'a, R, N: Names> {
    couriers: Vec<Watched<'a, TreeCourier<FolderTree<N>>, R>>,
    // the first folder with more payload files than a run delivers
    crowded: Option<FolderName>,
    // the first folder without payload files
    empty: Option<FolderName>,
}

/// What is told of folders: the one with too many payload files, or otherwise the one without any.
fn why_undelivered(crowded: Option<FolderName>, empty: Option<FolderName>) -> Option<Why>
    ensures { result ≡ why_undelivered crowded empty }
{
    match crowded {
        Some(folder) => Why::of_excess(folder.text, Limit::Deliveries),
        None => Why::of_empty(empty),
    }
}

/// Opens each folder as a courier of its payload files.
fn open_all<'a, R: Eprint, N: Names + Copy, D: Directories>(
    names: N,
    meter: &'a Meter<'a, R>,
    disk: &D,
    alloc: Global,
    folders: &[String],
) -> Result<AllOpened<'a, R, N>, OpenFault>
    ensures opened { IfOk result (λ opened. (trees : List FolderShown)
        × AreOpened (disk_of (D.listing disk.now) (N.standing names))
        (map string_bytes folders.now) trees
        × (opened.couriers.items ≡ map courier_of trees)
        × (opened.crowded ≡ first_name name_if_crowded trees)
        × (opened.empty ≡ first_name name_if_empty trees)) }
    ensures refused { IfErr result (λ fault. IfUnfit fault
        (FirstIsRefused (disk_of (D.listing disk.now) (N.standing names))
        (map string_bytes folders.now))) }
{
    let mut couriers = Vec::new(alloc);
    let mut crowded = None;
    let mut empty = None;
    for folder in folders {
        let tree = FolderTree::open(names, disk, alloc, folder.as_str())?;
        let count = payload_count(&tree);
        crowded = first_told(alloc, crowded, count > MOST_DELIVERIES, folder.as_str())?;
        empty = first_told(alloc, empty, !tree.has_payload(), folder.as_str())?;
        meter.expect_files(count);
        couriers.push(Watched::new(TreeCourier::new(tree), meter))?;
    }
    Ok(AllOpened {
        couriers,
        crowded,
        empty,
    })
}

/// The name that is told already, if there is one; otherwise the name of this folder, if it is to be told.
fn first_told(
    alloc: Global,
    first: Option<FolderName>,
    is_told: bool,
    folder: &str,
) -> Result<Option<FolderName>, AllocError>
    ensures { IfOk result (λ name. name ≡ option_or first (name_if is_told folder.now)) }
{
    if first.is_some() || !is_told {
        return Ok(first);
    }
    let text = String::from_str(alloc, folder)?;
    Ok(Some(FolderName { text }))
}
