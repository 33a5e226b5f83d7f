//! The commands on a ledger: opens it, does the work and closes it.
ghost use Rattle.std.specs.Prelude.{◌≡◌, [], ℕ, IfErr, IfOk, List, MatchResult, Some, true};
ghost use Rattle.bag_program.specs.Disks.{disk_known};
ghost use Rattle.bag_program.specs.Working.{DoesWork, IsOpenFor, IsUnopenedFor, Works, WorksOn, viewed};
ghost use Rattle.bag_commands.specs.declared.status.TheConstants.{VALID};
ghost use Rattle.bag_commands.specs.Viewing.{HoldsValidBag};
ghost use Rattle.bag_ledger.specs.Ledgers.{Ledger};
ghost use Rattle.bag_receiver.specs.Receivers.{Does, IsInState};
ghost use Rattle.bag_receiver.specs.ReceiversInside.{Same};
ghost use Rattle.bag_receiver.specs.LedgerStates.{LedgerState};

use super::begin::begin_with_folder;
use super::export::export_into_folder;
use super::fetch::fetch_from_folder;
use super::intake::intake_folders;
use crate::command_line::Work;
use crate::explanation::{Ended, Why};
use crate::ledgers::unopened_ledger::Unopened;
use crate::ledgers::unopened_line::UnopenedLine;
use crate::ledgers::{Ledgers, Opened};
use crate::progress_meter::{Activity, Meter};
use crate::system::System;
use crate::watched::Watched;
use bag_commands::status::FAILED;
use bag_commands::{Output, audit_to, list_to, report_to};
use bag_folder::{Directories, Names, NewFolders};
use bag_ledger::Keeper;
use bag_receiver::Receiver;
use std::alloc::Global;
use std::io::Write;

/// Opens a ledger, does the work and prints the result. If the ledger can't be opened, prints why.
///
/// `begin` makes the ledger if there is none. A ledger that it made is removed if no transfer was opened.
pub fn work_on_ledger<
    R: Eprint,
    N: Names + Copy,
    D: Directories,
    L: Ledgers,
    F: NewFolders,
    W: Write + Drop,
>(
    system: &System<'_, R, N, D>,
    ledgers: L,
    folders: &mut F,
    ledger: &str,
    work: &Work<'_>,
    out: &mut Output<W>,
) -> Ended
    ensures { WorksOn L.Kept.Keeper L.Ledgers F.Folder.Sink F.NewFolders
        (disk_known D.listing N.standing system.now) W.contents ledger.now work.now
        folders.old folders.new out.old out.new result }
{
    let meter = Meter::new(system.progress, Activity::Auditing);
    if !matches!(work, Work::Audit { .. }) {
        meter.stop();
    }
    match open_and_work(system, &meter, ledgers, folders, ledger, work, out) {
        Ok(
            Worked {
                mut receiver,
                file,
                is_made,
                ended,
            },
        ) => {
            let is_vain = is_vain(system.alloc, is_made, &mut receiver);
            let keeper = receiver.into_keeper().into_inside();
            let trouble = L::trouble(&keeper);
            let closed = close::<L>(file, keeper, is_vain);
            let cause = trouble.or(L::why_apart(&closed));
            drop(closed);
            ended.or(Why::of_ledger(system.alloc, ledger, cause))
        }
        Err(
            Unopened {
                fault,
                cause,
                seen: _,
                left,
            },
        ) => {
            drop(left);
            Ended {
                status: out.print(UnopenedLine(&fault), FAILED),
                why: Why::of_ledger(system.alloc, ledger, cause),
            }
        }
    }
}

/// What was done on an open ledger.
struct Worked<K, F> {
    receiver: Receiver<K>,
    // what the ledger is closed with
    file: F,
    // whether the ledger was made for the work
    is_made: bool,
    ended: Ended,
}

/// Opens a ledger and does the work. The receiver is returned too, so that the ledger can be closed. The meter counts
/// what is read of the ledger.
fn open_and_work<
    'a,
    R: Eprint,
    N: Names + Copy,
    D: Directories,
    L: Ledgers,
    F: NewFolders,
    W: Write + Drop,
>(
    system: &System<'_, R, N, D>,
    meter: &'a Meter<'a, R>,
    ledgers: L,
    folders: &mut F,
    ledger: &str,
    work: &Work<'_>,
    out: &mut Output<W>,
) -> Result<Worked<Watched<'a, L::Kept, R>, L::File>, Unopened<L::Left>>
    ensures works { IfOk result (λ done. Works L.Kept.Keeper L.Ledgers F.Folder.Sink F.NewFolders
        (disk_known D.listing N.standing system.now) W.contents ledger.now work.now folders.old
        folders.new done.receiver out.old out.new done.ended) }
    // If a report or an audit answers that a transfer is valid, the ledger that is stored holds a valid bag under this
    // name.
    ensures valid { IfOk result (λ done. done.ended.status ≡ VALID
        → L.Kept.Keeper.clean done.receiver.keeper
        → (name : List ℕ) → viewed work.now ≡ Some name
        → (stored : Ledger) → L.holds ledger.now stored → HoldsValidBag stored name) }
    // It is known what a ledger holds that was made.
    ensures made { IfOk result (λ done. done.is_made ≡ true
        → L.Kept.Keeper.clean done.receiver.keeper → (now : LedgerState)
        × IsInState L.Kept.Keeper.holds L.Kept.Keeper.may_leave done.receiver now) }
    ensures unopened { IfErr result (λ it. IsUnopenedFor L.Ledgers ledger.now work.now it
        × (folders.new ≡ folders.old) × (out.new ≡ out.old)) }
{
    let opened = open(ledgers, ledger, work)?;
    let mut receiver = Receiver::new(system.alloc, Watched::new(opened.kept, meter));
    let ended = do_work(system, folders, &mut receiver, work, out);
    Ok(Worked {
        receiver,
        file: opened.file,
        is_made: opened.is_made,
        ended,
    })
}

/// Opens a ledger for this work.
fn open<L: Ledgers>(
    ledgers: L,
    ledger: &str,
    work: &Work<'_>,
) -> Result<Opened<L::Kept, L::File>, Unopened<L::Left>>
    ensures { MatchResult result
        (λ it. IsOpenFor L.Ledgers ledger.now work.now it.is_made it.kept)
        (IsUnopenedFor L.Ledgers ledger.now work.now) }
{
    match work {
        Work::Begin { .. } => ledgers.open_or_make(ledger),
        _ => ledgers.open(ledger),
    }
}

/// Whether the ledger was made for the work, and it can be read that it has no transfers.
fn is_vain<K: Keeper>(alloc: Global, is_made: bool, receiver: &mut Receiver<K>) -> bool
    ensures none { result ≡ true → (is_made ≡ true)
        × (K.clean receiver.new.keeper → K.clean receiver.old.keeper
        × ((now : LedgerState) → IsInState K.holds K.may_leave receiver.old now
        → K.holds receiver.new.keeper [])) }
    ensures reads { Does K.holds K.may_leave K.clean receiver.old receiver.new Same }
{
    if !is_made {
        return false;
    }
    match receiver.names(alloc) {
        Ok(names) => names.is_empty(),
        Err(_) => false,
    }
}

/// Closes a ledger after the work on it. `is_vain` says whether it is given up.
fn close<L: Ledgers>(file: L::File, keeper: L::Kept, is_vain: bool) -> L::Closed
    requires { is_vain ≡ true → L.Kept.Keeper.clean keeper → L.Kept.Keeper.holds keeper [] }
    ensures { L.closed keeper result }
{
    if is_vain {
        L::give_up(file, keeper)
    } else {
        L::close(file, keeper)
    }
}

/// Does the work on an open ledger.
fn do_work<K: Keeper, R: Eprint, N: Names + Copy, D: Directories, F: NewFolders, W: Write + Drop>(
    system: &System<'_, R, N, D>,
    folders: &mut F,
    receiver: &mut Receiver<K>,
    work: &Work<'_>,
    out: &mut Output<W>,
) -> Ended
    ensures { DoesWork K.Keeper (disk_known D.listing N.standing system.now) W.contents
        F.Folder.Sink F.NewFolders work.now folders.old folders.new receiver.old receiver.new
        out.old out.new result }
{
    let alloc = system.alloc;
    match work {
        Work::Begin { name, folder } => begin_with_folder(system, receiver, name, folder, out),
        Work::Intake { name, folders } => intake_folders(system, receiver, name, folders, out),
        Work::Report { name } => Ended::plain(report_to(alloc, receiver, name, out)),
        Work::Audit { name } => Ended::plain(audit_to(alloc, receiver, name, out)),
        Work::Fetch { name, folder } => fetch_from_folder(system, receiver, name, folder, out),
        Work::Export { name, folder } => {
            export_into_folder(system, folders, receiver, name, folder, out)
        }
        Work::List => Ended::plain(list_to(alloc, receiver, out)),
    }
}
