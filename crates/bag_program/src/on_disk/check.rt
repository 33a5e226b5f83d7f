//! `bag check DIR`: judges the bag in a folder.
ghost use Rattle.std.specs.Prelude.{◌≡◌};
ghost use Rattle.bag_rules.specs.Bags.{Bag, IsBagOf};
ghost use Rattle.bag_rules.specs.Checking.{ChecksTree};
ghost use Rattle.bag_rules.specs.Validity.{IsValid};
ghost use Rattle.bag_commands.specs.Checking.{PrintedChecking};
ghost use Rattle.bag_commands.specs.declared.status.TheConstants.{VALID};
ghost use Rattle.bag_folder.specs.Folders.{IsBagIn};
ghost use Rattle.bag_program.specs.Answers.{PrintsCheck};
ghost use Rattle.bag_program.specs.Disks.{disk_known};
ghost use Rattle.bag_program.specs.Endings.{why_too_many, why_unchecked};

use super::no_result_for_folder;
use crate::explanation::{Ended, Why};
use crate::progress_meter::{Activity, Meter};
use crate::system::System;
use crate::told_limit::Limit;
use crate::watched::Watched;
use bag_commands::{CheckEnd, Output, check_to};
use bag_folder::{Directories, FolderTree, Names, Root};
use bag_rules::limits::MOST_FILES;
use bag_rules::{CheckFault, OpenTree, Paths};
use std::alloc::Global;
use std::io::Write;

/// Checks the bag in a folder and prints the result, as [`check_to`] does. If the folder can't be opened, prints that.
pub fn check_folder<R: Eprint, N: Names + Copy, D: Directories, W: Write + Drop>(
    system: &System<'_, R, N, D>,
    folder: &str,
    out: &mut Output<W>,
) -> Ended
    // The status is 0 only if the bag in the folder is valid.
    ensures valid { result.status ≡ VALID
        → (bag : Bag)
        → IsBagIn (disk_known D.listing N.standing system.now) folder.now Root.Base bag
        → IsValid bag }
    ensures printed { PrintsCheck W.contents (disk_known D.listing N.standing system.now)
        folder.now out.old out.new result }
{
    match FolderTree::open(system.names, system.disk, system.alloc, folder) {
        Ok(tree) => {
            let meter = Meter::new(system.progress, Activity::Checking);
            meter.expect_files(tree.count());
            let (end, tree) = check_watched(system.alloc, tree, &meter, out);
            Ended {
                status: end.status,
                why: why_unchecked(end.fault, tree),
            }
        }
        Err(fault) => no_result_for_folder(fault, out),
    }
}

/// Checks the bag in a tree, of which the meter counts what is read, and prints the result. Returns the tree, too.
fn check_watched<T: OpenTree, R: Eprint, W: Write + Drop>(
    alloc: Global,
    tree: T,
    meter: &Meter<'_, R>,
    out: &mut Output<W>,
) -> (CheckEnd, T)
    // The status is 0 only for a valid bag.
    ensures valid { result.0.status ≡ VALID
        → (bag : Bag) → IsBagOf (T.shown tree) bag → IsValid bag }
    ensures printed { PrintedChecking W.contents out.old out.new result.0
        (ChecksTree T.shown T.failures T.sure tree result.1) }
{
    let mut watched = Watched::new(tree, meter);
    let end = check_to(alloc, &mut watched, out);
    (end, watched.into_inside())
}

/// Why the bag in this folder couldn't be checked, if it couldn't.
fn why_unchecked<N: Names + Drop>(fault: Option<CheckFault>, tree: FolderTree<N>) -> Option<Why>
    ensures { result ≡ why_unchecked tree fault }
{
    match fault? {
        CheckFault::Tree => Why::of_trouble(tree.into_trouble()),
        CheckFault::TagTooLarge(path) => Why::of_excess(tree.into_folder(), Limit::TagFile(path)),
        CheckFault::TooLarge(path) => Why::of_excess(tree.into_folder(), Limit::File(path)),
        CheckFault::TooMany => why_too_many(tree),
        CheckFault::Memory => None,
    }
}

/// What there is too much of: files in the folder, or lines in the file that was looked up last.
fn why_too_many<N: Names + Drop>(tree: FolderTree<N>) -> Option<Why>
    ensures { result ≡ why_too_many tree }
{
    if tree.count() > MOST_FILES {
        Why::of_excess(tree.into_folder(), Limit::Files)
    } else {
        Why::of_excess(tree.into_name(), Limit::Lines)
    }
}
