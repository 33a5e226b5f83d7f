//! The commands on a ledger, each with what it prints and its status.
use crate::breaker::Breaker;
use crate::breaking_courier::{BreakingCourier, Breaks};
use crate::breaking_sink::BreakingSink;
use crate::breaking_supplier::BreakingSupplier;
use crate::breaking_writer::BreakingWriter;
use crate::drafting::Draft;
use crate::event::Event;
use crate::lines::bad_line;
use crate::shown::{write_files, write_hex};
use bag_commands::{
    BeginEnd, NoResult, Output, audit_to, begin_to, export_to, fetch_to, intake_to, list_to,
    print_no_result, report_to,
};
use bag_ledger::Keeper;
use bag_path::BagPath;
use bag_receiver::Receiver;
use bag_writer::MemSink;
use std::alloc::{AllocError, Global};
use std::io::{self, Write};

/// What a command prints, on paper with this much room.
pub fn output_on<'a>(
    alloc: Global,
    room: Vec<u8>,
    breaker: &'a Breaker,
) -> Output<BreakingWriter<'a>> {
    Output::unbuffered(alloc, BreakingWriter::new(room, breaker))
}

/// Writes the status, and what was printed in hex.
pub fn write_told<W: Write + Drop>(
    status: u8,
    told: &Output<BreakingWriter<'_>>,
    out: &mut W,
) -> io::Result<()> {
    write!(out, "{status} ")?;
    write_hex(told.writer.get_ref().written(), out)
}

/// Does the work of a command on a ledger. `begin` takes the tree of the draft.
pub fn command_on<K: Keeper + Drop, W: Write + Drop>(
    alloc: Global,
    receiver: &mut Receiver<K>,
    draft: &mut Draft,
    event: &mut Event<'_>,
    breaker: &Breaker,
    out: &mut W,
) -> io::Result<()> {
    let mut told = output_on(alloc, event.take_room(alloc), breaker);
    let name = event.name.as_str();
    let status = match event.word {
        "begin-to" => {
            let mut tree = draft.tree_out(alloc, breaker);
            let BeginEnd { status, fault: _ } = begin_to(
                alloc, receiver, name, &mut tree, &mut told,
            );
            draft.put_back(tree);
            status
        }
        "export-to" => return export_shown(alloc, receiver, name, breaker, &mut told, out),
        _ => status_of(alloc, receiver, event, breaker, &mut told)?,
    };
    write_told(status, &told, out)
}

/// The status of a command that needs no tree and no sink.
fn status_of<K: Keeper + Drop>(
    alloc: Global,
    receiver: &mut Receiver<K>,
    event: &mut Event<'_>,
    breaker: &Breaker,
    told: &mut Output<BreakingWriter<'_>>,
) -> io::Result<u8> {
    let name = event.name.as_str();
    match event.word {
        "report-to" => Ok(report_to(alloc, receiver, name, told)),
        "audit-to" => Ok(audit_to(alloc, receiver, name, told)),
        "fetch-to" => {
            let mut stock = BreakingSupplier::new(event.files.as_slice(), breaker);
            Ok(fetch_to(alloc, receiver, name, &mut stock, told))
        }
        "list-to" => Ok(list_to(alloc, receiver, told)),
        "intake-to" => Ok(take_in(alloc, receiver, event, breaker, told)),
        _ => Err(bad_line()),
    }
}

/// Takes in what two couriers bring.
fn take_in<K: Keeper + Drop>(
    alloc: Global,
    receiver: &mut Receiver<K>,
    event: &mut Event<'_>,
    breaker: &Breaker,
    told: &mut Output<BreakingWriter<'_>>,
) -> u8 {
    match couriers_of(alloc, event.take_load(alloc), breaker) {
        Ok(couriers) => intake_to(alloc, receiver, event.name.as_str(), couriers, told),
        Err(_) => print_no_result(NoResult::Memory, told),
    }
}

/// Exports, and shows what the sink holds then.
fn export_shown<K: Keeper + Drop, W: Write + Drop>(
    alloc: Global,
    receiver: &mut Receiver<K>,
    name: &str,
    breaker: &Breaker,
    told: &mut Output<BreakingWriter<'_>>,
    out: &mut W,
) -> io::Result<()> {
    let mut sink = BreakingSink::new(MemSink::new(alloc), breaker);
    let status = export_to(alloc, receiver, name, &mut sink, told);
    write_told(status, told, out)?;
    write_files(&sink.into_inside().into_tree(), out)
}

/// Two couriers of these items, of which the last one comes first: one of the first half, and one of the others.
fn couriers_of<'a>(
    alloc: Global,
    load: Vec<(BagPath, Vec<u8>)>,
    breaker: &'a Breaker,
) -> Result<Vec<BreakingCourier<'a>>, AllocError> {
    let mut others = load;
    let first = others.split_off(others.len() / 2)?;
    let mut couriers = Vec::new(alloc);
    couriers.push(BreakingCourier::new(first, Breaks::Counted(breaker)))?;
    couriers.push(BreakingCourier::new(others, Breaks::Counted(breaker)))?;
    Ok(couriers)
}
