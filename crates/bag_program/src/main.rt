//! The program `bag`: works with bags of the BagIt File Packaging Format, versions 1.0 (RFC 8493) and 0.97.
//!
//! `bag check DIR` judges the bag in a folder, and `bag make SRC DST ALG..` writes a bag of the files in a folder. The
//! other commands receive a bag file by file, using a ledger in a file: `begin`, `intake`, `report`, `audit`, `fetch`,
//! `export` and `list`.
//!
//! Results are printed on standard output, and the exit status says the same: 0 if the bag is valid or the command
//! succeeded; 1 if the bag isn't valid or something was refused; 2 if the bag can't be judged here; 3 if files or the
//! ledger can't be used, a limit was exceeded, memory ran out, or the output is full or closed; 64 for an unknown
//! command line.
#![tactic(auto)]

ghost use Rattle.std.specs.Prelude.{◌≡◌, ◌≢◌, None, map, string_bytes};
ghost use Rattle.bag_folder.specs.Folders.{disk_of};
ghost use Rattle.bag_program.specs.Answers.{Ran, RanWords};
ghost use Rattle.bag_program.specs.Disks.{disk_known};

use bag_commands::status::{FAILED, USAGE};
use bag_commands::{NoResult, Output, print_no_result};
use bag_folder::{Destination, Directories, Disk, Names, NewFolders};
use bag_ledger::Keeper;
use clearing_output::Clearing;
use dispatch::command;
use explanation::Ended;
use ledgers::open_ledger::FileKeeper;
use ledgers::{LedgerFiles, Ledgers};
use progress_line::Progress;
use sqlite::{Start, Unknown};
use std::alloc::{AllocError, Global};
use std::env::Env;
use std::io::{BufWriter, ErrorKind, IsTerminal, Printer, Write};
use std::process::ExitCode;
use std::{env, io};
use system::System;
use terminal::Screen;

mod clearing_output;
mod command_line;
mod dispatch;
mod explanation;
mod laws;
mod ledgers;
mod named;
mod on_disk;
mod progress_line;
mod progress_meter;
mod system;
mod terminal;
mod told_limit;
mod told_name;
mod told_refusal;
mod usage;
mod watched;

fn main(rt: HostRuntime) -> ExitCode {
    let folders = Destination::new(&rt);
    ExitCode::from(run_on_disk(&rt, Unknown, folders))
}

/// Runs the command on the command line on the disk, of which nothing is known, with ledgers in files. `S` says what the
/// opened ledger's file holds.
fn run_on_disk<S: Start, F: NewFolders + Drop>(rt: &HostRuntime, start: S, folders: F) -> u8
    ensures { result ≢ FAILED → (old : _) × (new : _)
        × Ran ⟦<FileKeeper<S> as Keeper>⟧ ⟦<LedgerFiles<'static, S> as Ledgers>⟧
        F.Folder.Sink F.NewFolders ⟦<Screen<Printer<'static, HostRuntime>> as Write>⟧.contents
        (disk_of None None) folders old new result }
{
    let progress = Progress::new(rt, rt.stderr().is_terminal());
    let is_terminal = rt.stdout().is_terminal();
    let system = System {
        rt,
        names: rt,
        disk: &Disk(rt),
        progress: &progress,
        alloc: rt.alloc(),
    };
    let ledgers = LedgerFiles::new(rt, &progress, start);
    run(&system, is_terminal, ledgers, folders)
}

/// Runs the command on the command line, and returns the exit status. The output is buffered until the command has
/// ended or the buffer is full. `is_terminal` says whether standard output is a terminal, which is to be found out
/// before a file is opened, as for [`Progress::new`].
fn run<
    R: Env + Print + Eprint + AllocGlobal,
    N: Names + Copy,
    D: Directories,
    L: Ledgers,
    F: NewFolders + Drop,
>(system: &System<'_, R, N, D>, is_terminal: bool, ledgers: L, folders: F) -> u8
    // Every status except that of a failure comes from a command.
    ensures { result ≢ FAILED
        → (old : _) × (new : _) × Ran L.Kept.Keeper L.Ledgers F.Folder.Sink F.NewFolders
        ⟦<Screen<Printer<'static, R>> as Write>⟧.contents
        (disk_known D.listing N.standing system.now) folders old new result }
{
    let writer = Clearing::new(io::writer(system.rt), system.progress);
    match buffered(system.alloc, writer, is_terminal) {
        Ok(mut out) => run_words(system, ledgers, folders, &mut out),
        Err(_) => {
            let mut out = Output::unbuffered(system.alloc, io::writer(system.rt));
            print_no_result(NoResult::Memory, &mut out)
        }
    }
}

/// A buffered output to what this writer leads to.
///
/// # Errors
///
/// Memory ran out.
fn buffered<W: Write + Drop>(
    alloc: Global,
    writer: W,
    is_terminal: bool,
) -> io::Result<Output<Screen<W>>> {
    let screen = Screen::new(alloc, writer, is_terminal)?;
    Ok(Output::new(BufWriter::new(alloc, screen)?))
}

/// The same, with the output written to `out`.
fn run_words<
    R: Env + Eprint + AllocGlobal,
    N: Names + Copy,
    D: Directories,
    L: Ledgers,
    F: NewFolders + Drop,
    W: Write + Drop,
>(system: &System<'_, R, N, D>, ledgers: L, folders: F, out: &mut Output<W>) -> u8
    ensures { result ≢ FAILED → Ran L.Kept.Keeper L.Ledgers F.Folder.Sink F.NewFolders W.contents
        (disk_known D.listing N.standing system.now) folders out.old out.new result }
{
    match env::args(system.rt) {
        Ok(words) => match words.skip(1).collect(system.alloc) {
            Ok(words) => run_command(system, ledgers, folders, words, out),
            Err(AllocError) => print_no_result(NoResult::Memory, out),
        },
        Err(error) if error.kind() == ErrorKind::OutOfMemory => print_no_result(
            NoResult::Memory,
            out,
        ),
        Err(_) => {
            let _ = eprintln!(system.rt; "error: an argument is not UTF-8");
            USAGE
        }
    }
}

/// Runs the command that these arguments ask for. What else there is to say of a command that wasn't done is told on
/// standard error.
fn run_command<
    R: Eprint,
    N: Names + Copy,
    D: Directories,
    L: Ledgers,
    F: NewFolders + Drop,
    W: Write + Drop,
>(
    system: &System<'_, R, N, D>,
    ledgers: L,
    mut folders: F,
    words: Vec<String>,
    out: &mut Output<W>,
) -> u8
    ensures { RanWords L.Kept.Keeper L.Ledgers F.Folder.Sink F.NewFolders W.contents
        (disk_known D.listing N.standing system.now) (map string_bytes words.items) folders
        out.old out.new result }
{
    let ended = command(system, ledgers, &mut folders, words, out);
    system.progress.clear();
    explain(system.rt, ended)
}

/// Says on standard error why a command wasn't done, if it wasn't, and returns the status.
fn explain<R: Eprint>(rt: &R, ended: Ended) -> u8
    ensures { result ≡ ended.status }
{
    if let Some(why) = &ended.why {
        let _ = eprintln!(rt; "bag: {why}");
    }
    ended.status
}
