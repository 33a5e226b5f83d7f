//! The printed form of a report: a line for each fault, and the verdict.
ghost use Rattle.std.specs.Prelude.{◌≡◌, OnErr, OnOk};
ghost use Rattle.bag_digest.specs.Failures.{Rises};
ghost use Rattle.bag_commands.specs.Outputs.{WroteLines};
ghost use Rattle.bag_commands.specs.VerdictTexts.{report_lines, verdict_text};

use crate::fault_line::FaultLine;
use crate::output::Output;
use bag_digest::Failed;
use bag_rules::Report;
use std::io::Write;

/// Writes a line for each fault, and the verdict.
///
/// # Errors
///
/// The writer failed.
pub fn write_report<W: Write + Drop>(report: &Report, out: &mut Output<W>) -> Result<(), Failed>
    ensures ok { OnOk result (WroteLines W.contents out.old out.new (report_lines report.now)) }
    ensures failed { OnErr result (Rises out.old.failures out.new.failures) }
{
    for fault in report.faults() {
        out.line(FaultLine(fault))?;
    }
    out.line(verdict_text(report))
}

/// The verdict: `valid`, `complete, not valid` or `not complete` (RFC 8493 section 3).
pub fn verdict_text(report: &Report) -> &'static str
    ensures { result.now ≡ verdict_text report.now }
{
    if report.is_valid() {
        "valid"
    } else if report.is_complete() {
        "complete, not valid"
    } else {
        "not complete"
    }
}
