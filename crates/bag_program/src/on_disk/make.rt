//! `bag make SRC DST ALG..`: writes a bag of the files in a folder.
ghost use Rattle.std.specs.Prelude.{◌≡◌, None};
ghost use Rattle.bag_program.specs.Disks.{disk_known};
ghost use Rattle.bag_program.specs.Endings.{limit_of, why_unmade};
ghost use Rattle.bag_program.specs.Making.{MakesFolder, MakesInto, PrintsMake, make_end, words_given};

use super::no_result_for_folder;
use crate::explanation::{Ended, Why};
use crate::progress_meter::{Activity, Meter};
use crate::system::System;
use crate::told_limit::Limit;
use crate::watched::Watched;
use bag_commands::status::{DONE, USAGE};
use bag_commands::{MakeEnd, Output, make_to};
use bag_digest::Source;
use bag_folder::{Directories, FolderTree, Names, NewFolders};
use bag_rules::Paths;
use bag_writer::{CopiedTree, Large, Sink};
use std::alloc::Global;
use std::io::Write;

/// The operands of `make`.
#[derive(Clone, Copy)]
pub struct Making<'a> {
    /// The name of the folder that contains the payload.
    pub source: &'a str,
    /// The name of the folder to make for the bag. It must not exist yet.
    pub destination: &'a str,
    /// The names of algorithms.
    pub names: &'a [String],
}

/// Writes a bag of the files in a folder to a new folder and prints the result, as [`make_to`] does. If the source
/// can't be opened or the destination can't be made, prints that.
///
/// The source is opened first, then the destination is made, and then the names of the algorithms are checked. If the
/// status isn't 0, the destination is given up, that is, removed if it is empty.
pub fn make_folder<R: Eprint, N: Names + Copy, D: Directories, F: NewFolders, W: Write + Drop>(
    system: &System<'_, R, N, D>,
    folders: &mut F,
    making: &Making<'_>,
    out: &mut Output<W>,
) -> Ended
    ensures { PrintsMake W.contents F.Folder.Sink F.NewFolders
        (disk_known D.listing N.standing system.now) (words_given making.now)
        folders.old folders.new out.old out.new result }
{
    let alloc = system.alloc;
    match FolderTree::open_payload(system.names, system.disk, alloc, making.source) {
        Ok(tree) => {
            let meter = Meter::new(system.progress, Activity::Copying);
            meter.expect_files(tree.count());
            let (answer, tree) = make_watched(alloc, making, tree, &meter, folders, out);
            let why = why_unmade(tree, answer.ended.status, answer.large);
            answer.ended.or(why)
        }
        Err(fault) => no_result_for_folder(fault, out),
    }
}

/// How `make` ended, given what is told of the folder for the bag.
#[derive(Debug, Drop)]
struct Made {
    ended: Ended,
    // what is too large, if something is
    large: Option<Large>,
}

/// Makes the folder for the bag, and in it the bag of a tree's files, of which the meter counts what is read. Returns
/// the tree, too.
fn make_watched<T: CopiedTree, R: Eprint, F: NewFolders, W: Write + Drop>(
    alloc: Global,
    making: &Making<'_>,
    tree: T,
    meter: &Meter<'_, R>,
    folders: &mut F,
    out: &mut Output<W>,
) -> (Made, T)
    ensures { MakesInto W.contents F.Folder.Sink F.NewFolders (MakesFolder W.contents F.Folder.Sink
        T.shown T.failures T.sure tree result.1 (words_given making.now).names
        out.old out.new (make_end result.0))
        ((result.1 ≡ tree) × (result.0.large ≡ None)) making.now.destination.now
        folders.old folders.new out.old out.new result.0.ended }
{
    let mut watched = Watched::new(tree, meter);
    let answer = make_into(alloc, making, &mut watched, folders, out);
    (answer, watched.into_inside())
}

/// Makes the folder for the bag, and in it the bag of a tree's files.
fn make_into<T: CopiedTree, F: NewFolders, W: Write + Drop>(
    alloc: Global,
    making: &Making<'_>,
    tree: &mut T,
    folders: &mut F,
    out: &mut Output<W>,
) -> Made
    ensures { MakesInto W.contents F.Folder.Sink F.NewFolders (MakesFolder W.contents F.Folder.Sink
        T.shown T.failures T.sure tree.old tree.new (words_given making.now).names
        out.old out.new (make_end result))
        ((tree.new ≡ tree.old) × (result.large ≡ None)) making.now.destination.now
        folders.old folders.new out.old out.new result.ended }
{
    match folders.create(alloc, making.destination) {
        Ok(mut sink) => {
            let MakeEnd { status, large } = make_to(alloc, making.names, tree, &mut sink, out);
            if status != DONE {
                folders.give_up();
            }
            let why = Why::of_failures(sink.failures(), F::into_trouble(sink));
            Made {
                ended: Ended { status, why },
                large,
            }
        }
        Err(fault) => Made {
            ended: no_result_for_folder(fault, out),
            large: None,
        },
    }
}

/// What is told where `make` ended with this status: what is too large, which algorithms are known, or what of the
/// payload couldn't be used.
fn why_unmade<N: Names + Drop>(tree: FolderTree<N>, status: u8, large: Option<Large>) -> Option<Why>
    ensures { result ≡ why_unmade tree status large }
{
    match large {
        Some(large) => Why::of_excess(tree.into_folder(), limit_of(large)),
        None if status == USAGE => Some(Why::UnknownAlgorithm),
        None => Why::of_failures(tree.failures(), tree.into_trouble()),
    }
}

/// The limit that is exceeded.
fn limit_of(large: Large) -> Limit
    ensures { result ≡ limit_of large }
{
    match large {
        Large::Payload => Limit::NewPayload,
        Large::File(path) => Limit::NewFile(path),
        Large::TagFile(path) => Limit::NewTagFile(path),
    }
}
