//! `intake`: takes in the payload files that couriers deliver.
ghost use Rattle.std.specs.Prelude.{◌≡◌, [], IfOk, List, OnErr, OnOk, length};
ghost use Rattle.std.specs.Io.Buffered.{writer_buffer};
ghost use Rattle.bag_digest.specs.Failures.{Rises};
ghost use Rattle.bag_commands.specs.Intakes.{IsRun, TakesIn};
ghost use Rattle.bag_commands.specs.IntakesInside.{told_of};
ghost use Rattle.bag_commands.specs.IntakeTexts.{Told, answer_lines, end_status, intake_lines, intake_status, run_lines, run_status, no_result_of_end};
ghost use Rattle.bag_commands.specs.Outputs.{Printed, WroteLines};

use crate::answer::AnswerLine;
use crate::no_result::NoResult;
use crate::output::Output;
use crate::status::{DONE, FAILED, run_status};
use bag_digest::Failed;
use bag_ledger::Keeper;
use bag_path::BagPath;
use bag_receiver::{Answer, Courier, End, Receiver, Run};
use std::alloc::Global;
use std::io::Write;

/// Takes in what the couriers deliver for a transfer, one courier after another. Prints a line for each delivery once
/// its courier's run has ended, and returns the status: 0 if everything is held, 1 if something was refused, and 3 if a
/// read, a courier, the store or memory failed or a line couldn't be written.
///
/// A refusal ends nothing. A run that ends before everything was delivered is the last one, and a line gives the
/// reason. What is taken in doesn't depend on the output: after a failed write nothing more is written, but the runs
/// continue.
///
/// Each courier is dropped when its run has ended, so that what it keeps open is closed before the next run begins.
pub fn intake_to<K: Keeper, C: Courier + Drop, W: Write + Drop>(
    alloc: Global,
    receiver: &mut Receiver<K>,
    name: &str,
    couriers: Vec<C>,
    out: &mut Output<W>,
) -> u8
    ensures { (told : List Told) × (laters : List C)
        × TakesIn (IsRun K.holds K.may_leave K.clean K.failures C.coming C.failures C.nexts
        C.steady name.now) couriers.items laters told receiver.old receiver.new
        × Printed W.contents out.old out.new result (intake_lines told) (intake_status told) }
{
    match run_all(alloc, receiver, name, couriers, out) {
        Ok(status) if out.flush().is_ok() => status,
        _ => FAILED,
    }
}

/// Takes in what the couriers deliver, and writes the lines of each run. Returns the status.
fn run_all<K: Keeper, C: Courier + Drop, W: Write + Drop>(
    alloc: Global,
    receiver: &mut Receiver<K>,
    name: &str,
    couriers: Vec<C>,
    out: &mut Output<W>,
) -> Result<u8, Failed>
    ensures { (told : List Told) × (laters : List C)
        × TakesIn (IsRun K.holds K.may_leave K.clean K.failures C.coming C.failures C.nexts
        C.steady name.now) couriers.items laters told receiver.old receiver.new
        × IfOk result (λ status. status ≡ intake_status told)
        × OnOk result (WroteLines W.contents out.old out.new (intake_lines told))
        × OnErr result (Rises out.old.failures out.new.failures) }
{
    let mut status = DONE;
    let mut written = Ok(());
    for mut courier in couriers {
        let (run, paths) = receiver.run_from(alloc, name, &mut courier);
        status = status.max(run_status(&run));
        if written.is_ok() {
            written = write_run(&run, &paths, out);
        }
        if run.ended != End::Done {
            break;
        }
    }
    written.and(Ok(status))
}

/// Writes the lines of a run, given its paths, and flushes them.
fn write_run<W: Write + Drop>(
    run: &Run,
    paths: &[BagPath],
    out: &mut Output<W>,
) -> Result<(), Failed>
    requires { length paths.now ≡ length run.now.answers.items }
    ensures ok { OnOk result (WroteLines W.contents out.old out.new
        (run_lines (told_of run.now paths.now))) }
    ensures handed_on { OnOk result (writer_buffer out.new.writer ≡ []) }
    ensures failed { OnErr result (Rises out.old.failures out.new.failures) }
{
    write_answers(paths, run.answers.as_slice(), out)?;
    if let Some(no_result) = no_result_of_end(run.ended) {
        out.line(no_result.text())?;
    }
    out.flush()
}

/// Writes a line for each delivery.
fn write_answers<W: Write + Drop>(
    paths: &[BagPath],
    answers: &[Answer],
    out: &mut Output<W>,
) -> Result<(), Failed>
    requires { length paths.now ≡ length answers.now }
    ensures ok { OnOk result (WroteLines W.contents out.old out.new
        (answer_lines paths.now answers.now)) }
    ensures failed { OnErr result (Rises out.old.failures out.new.failures) }
{
    for (n, path) in paths.iter().enumerate() {
        let answer = answers[n];
        out.line(AnswerLine { path, answer })?;
    }
    Ok(())
}

/// The reason why a run ended before everything was delivered, if it did.
fn no_result_of_end(ended: End) -> Option<NoResult>
    ensures { result ≡ no_result_of_end ended }
{
    match ended {
        End::Done => None,
        End::TooMany => Some(NoResult::TooMany),
        End::Courier => Some(NoResult::Files),
        End::Memory => Some(NoResult::Memory),
    }
}
