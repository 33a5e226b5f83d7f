//! Runs the command on the command line.
ghost use Rattle.std.specs.Prelude.{map, string_bytes};
ghost use Rattle.bag_program.specs.Answers.{RefusesWords, Runs, RunsCommand};
ghost use Rattle.bag_program.specs.Disks.{disk_known};

use crate::command_line::{Request, operands};
use crate::explanation::Ended;
use crate::ledgers::Ledgers;
use crate::on_disk::check::check_folder;
use crate::on_disk::ledger_work::work_on_ledger;
use crate::on_disk::make::{Making, make_folder};
use crate::system::System;
use crate::usage::Usage;
use bag_commands::status::{DONE, USAGE};
use bag_commands::{NoResult, Output, print_no_result};
use bag_folder::{Directories, Names, NewFolders};
use std::alloc::AllocError;
use std::io::Write;

/// Runs the command that these arguments ask for.
pub fn command<
    R: Eprint,
    N: Names + Copy,
    D: Directories,
    L: Ledgers,
    F: NewFolders,
    W: Write + Drop,
>(
    system: &System<'_, R, N, D>,
    ledgers: L,
    folders: &mut F,
    mut words: Vec<String>,
    out: &mut Output<W>,
) -> Ended
    ensures { RunsCommand L.Kept.Keeper L.Ledgers F.Folder.Sink F.NewFolders W.contents
        (disk_known D.listing N.standing system.now) (map string_bytes words.items)
        folders.old folders.new out.old out.new result }
{
    if words.is_empty() {
        return Ended::plain(out.print_line(
            "bag: check, make, begin, intake, report, audit, fetch, export, list",
            USAGE,
        ));
    }
    let Ok(given) = words.clone() else {
        return Ended::plain(print_no_result(NoResult::Memory, out));
    };
    let name = words.remove(0);
    let Some(operands) = operands(words) else {
        return Ended::plain(refuse(system, &given, out));
    };
    match Request::of(name.as_str(), operands.as_slice()) {
        Some(request) => run_request(system, ledgers, folders, &request, out),
        None => Ended::plain(refuse(system, &given, out)),
    }
}

/// Runs a command.
fn run_request<
    R: Eprint,
    N: Names + Copy,
    D: Directories,
    L: Ledgers,
    F: NewFolders,
    W: Write + Drop,
>(
    system: &System<'_, R, N, D>,
    ledgers: L,
    folders: &mut F,
    request: &Request<'_>,
    out: &mut Output<W>,
) -> Ended
    ensures { Runs L.Kept.Keeper L.Ledgers F.Folder.Sink F.NewFolders W.contents
        (disk_known D.listing N.standing system.now) request.now folders.old folders.new
        out.old out.new result }
{
    match request {
        Request::Check { folder } => check_folder(system, folder, out),
        Request::Make {
            source,
            destination,
            algorithms,
        } => {
            let making = Making {
                source,
                destination,
                names: algorithms,
            };
            make_folder(system, folders, &making, out)
        }
        Request::Ledger { ledger, work } => {
            work_on_ledger(system, ledgers, folders, ledger, work, out)
        }
    }
}

/// Prints help if the arguments ask for it; otherwise says on standard error why they are no known command.
fn refuse<R: Eprint, N, D, W: Write + Drop>(
    system: &System<'_, R, N, D>,
    words: &[String],
    out: &mut Output<W>,
) -> u8
    ensures { RefusesWords W.contents (map string_bytes words.now) out.old out.new result }
{
    match Usage::of(system.alloc, words) {
        Ok(Usage::Help(text)) => out.print_line(text.as_str().trim_end(), DONE),
        Ok(Usage::Refused(text)) => {
            let _ = eprintln!(system.rt; "{}", text.as_str().trim_end());
            USAGE
        }
        Err(AllocError) => print_no_result(NoResult::Memory, out),
    }
}
