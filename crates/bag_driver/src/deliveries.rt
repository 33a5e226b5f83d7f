//! The calls of a receiver, for `tests/deliveries.py` and `tests/refusals.py`, which describe the input and the output.
use crate::answer_texts::{
    AnswerText, FetchedText, UnbegunText, end_text, export_text, keep_text, view_text,
};
use crate::breaker::Breaker;
use crate::breaking_courier::{BreakingCourier, Breaks, Reader};
use crate::breaking_sink::BreakingSink;
use crate::breaking_supplier::BreakingSupplier;
use crate::event::{Event, File};
use crate::lines::{Answers, bad_line};
use crate::shown::write_files;
use bag_commands::{FaultLine, verdict_text};
use bag_digest::ReaderSource;
use bag_ledger::Keeper;
use bag_path::{BagPath, Spelling};
use bag_receiver::{Answer, Begun, Receiver, ViewFault};
use bag_rules::Report;
use bag_writer::MemSink;
use std::alloc::Global;
use std::io::{self, Write};

/// Answers calls in a ledger that isn't opened again.
impl<K: Keeper + Drop> Answers for Receiver<K> {
    fn answer<W: Write + Drop>(
        &mut self,
        alloc: Global,
        words: &[&str],
        out: &mut W,
    ) -> io::Result<()> {
        let breaker = Breaker::none();
        let mut event = Event::parse(alloc, words)?;
        answer(alloc, self, &mut event, &breaker, out)?;
        writeln!(out)
    }
}

/// Makes the call, and writes its answer.
pub fn answer<K: Keeper + Drop, W: Write + Drop>(
    alloc: Global,
    receiver: &mut Receiver<K>,
    event: &mut Event<'_>,
    breaker: &Breaker,
    out: &mut W,
) -> io::Result<()> {
    match event.word {
        "begin" => begin(alloc, receiver, event, out),
        "deliver" => deliver(alloc, receiver, event, out),
        "read" => read(alloc, receiver, event, Breaks::Counted(breaker), out),
        "break" => read(alloc, receiver, event, Breaks::First, out),
        "run" => {
            let run = receiver.run(alloc, event.name.as_str(), event.files.as_slice());
            write_run(run.answers.as_slice(), end_text(run.ended), out)
        }
        "bring" => bring(alloc, receiver, event, Breaks::Counted(breaker), out),
        "bring-first" => bring(alloc, receiver, event, Breaks::First, out),
        "bring-end" => bring(alloc, receiver, event, Breaks::End, out),
        "report" => write_report(receiver.report(alloc, event.name.as_str()), out),
        "audit" => write_report(receiver.audit(alloc, event.name.as_str()), out),
        "names" => names(alloc, receiver, out),
        "fetch" => fetch(alloc, receiver, event, breaker, out),
        "export" => export(alloc, receiver, event.name.as_str(), breaker, out),
        _ => Err(bad_line()),
    }
}

fn begin<K: Keeper + Drop, W: Write + Drop>(
    alloc: Global,
    receiver: &mut Receiver<K>,
    event: &Event<'_>,
    out: &mut W,
) -> io::Result<()> {
    match receiver.begin(alloc, event.name.as_str(), event.files.as_slice()) {
        Ok(Begun::New) => write!(out, "new"),
        Ok(Begun::Again) => write!(out, "again"),
        Err(fault) => write!(out, "refused: {}", UnbegunText(&fault)),
    }
}

fn deliver<K: Keeper + Drop, W: Write + Drop>(
    alloc: Global,
    receiver: &mut Receiver<K>,
    event: &Event<'_>,
    out: &mut W,
) -> io::Result<()> {
    let (path, content) = event.file()?;
    let given = receiver.deliver(alloc, event.name.as_str(), path, content);
    write!(out, "{}", AnswerText(given))
}

/// A delivery by a reader.
fn read<K: Keeper + Drop, W: Write + Drop>(
    alloc: Global,
    receiver: &mut Receiver<K>,
    event: &Event<'_>,
    breaks: Breaks<'_>,
    out: &mut W,
) -> io::Result<()> {
    let (path, content) = event.file()?;
    let mut reader = ReaderSource::new(Reader::new(content, breaks));
    let given = receiver.deliver_from(alloc, event.name.as_str(), path, &mut reader);
    write!(out, "{}", AnswerText(given))
}

/// A run from a courier, which brings paths alone: another text is refused as a malformed line.
fn bring<K: Keeper + Drop, W: Write + Drop>(
    alloc: Global,
    receiver: &mut Receiver<K>,
    event: &mut Event<'_>,
    breaks: Breaks<'_>,
    out: &mut W,
) -> io::Result<()> {
    let mut courier = BreakingCourier::new(event.take_load(alloc), breaks);
    let (run, paths) = receiver.run_from(alloc, event.name.as_str(), &mut courier);
    write_run(run.answers.as_slice(), end_text(run.ended), out)?;
    if !are_first(paths.as_slice(), event.files.as_slice()) {
        write!(out, " | other paths")?;
    }
    Ok(())
}

/// Whether these are the paths of the first files.
fn are_first(paths: &[BagPath], files: &[File]) -> bool {
    paths.len() <= files.len()
        && paths
            .iter()
            .zip(files)
            .all(|(path, file)| path.as_str() == file.0.as_str())
}

/// Writes the answers of a run, and how it ended.
fn write_run<W: Write + Drop>(answers: &[Answer], ended: &str, out: &mut W) -> io::Result<()> {
    for given in answers.iter().copied() {
        write!(out, "{} | ", AnswerText(given))?;
    }
    write!(out, "{ended}")
}

/// Writes a report, or why there is none.
fn write_report<W: Write + Drop>(view: Result<Report, ViewFault>, out: &mut W) -> io::Result<()> {
    match view {
        Ok(report) => write_faults(&report, out),
        Err(fault) => write!(out, "refused: {}", view_text(fault)),
    }
}

/// Writes the faults of a report, and its verdict.
pub fn write_faults<W: Write + Drop>(report: &Report, out: &mut W) -> io::Result<()> {
    for fault in report.faults() {
        write!(out, "{} | ", FaultLine(fault))?;
    }
    write!(out, "{}", verdict_text(report))
}

fn names<K: Keeper + Drop, W: Write + Drop>(
    alloc: Global,
    receiver: &mut Receiver<K>,
    out: &mut W,
) -> io::Result<()> {
    let names = match receiver.names(alloc) {
        Ok(names) => names,
        Err(fault) => return write!(out, "refused: {}", keep_text(fault)),
    };
    for (i, name) in names.iter().enumerate() {
        if i > 0 {
            write!(out, " ")?;
        }
        write!(out, "{name}")?;
    }
    Ok(())
}

/// A fetch from a supplier of these files.
fn fetch<K: Keeper + Drop, W: Write + Drop>(
    alloc: Global,
    receiver: &mut Receiver<K>,
    event: &Event<'_>,
    breaker: &Breaker,
    out: &mut W,
) -> io::Result<()> {
    let mut stock = BreakingSupplier::new(event.files.as_slice(), breaker);
    match receiver.fetch(alloc, event.name.as_str(), &mut stock) {
        Ok(outcomes) => {
            for outcome in outcomes.iter() {
                let path = Spelling(&outcome.path);
                let answer = FetchedText(outcome.answer);
                write!(out, "{} {path} {answer} | ", outcome.line)?;
            }
            write!(out, "done")
        }
        Err(fault) => write!(out, "refused: {}", view_text(fault)),
    }
}

/// An export to a sink in memory, and what that holds then.
fn export<K: Keeper + Drop, W: Write + Drop>(
    alloc: Global,
    receiver: &mut Receiver<K>,
    name: &str,
    breaker: &Breaker,
    out: &mut W,
) -> io::Result<()> {
    let mut sink = BreakingSink::new(MemSink::new(alloc), breaker);
    match receiver.export(alloc, name, &mut sink) {
        Ok(number) => write!(out, "exported {number}")?,
        Err(fault) => write!(out, "refused: {}", export_text(fault))?,
    }
    write_files(&sink.into_inside().into_tree(), out)
}
