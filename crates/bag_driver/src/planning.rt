//! Plans of transfers.
use crate::deliveries::write_faults;
use crate::event::File;
use crate::listing::NO_MEMORY;
use bag_commands::{FaultLine, OutsideLine};
use bag_path::Spelling;
use bag_rules::{Plan, PlanFault, TagSet, TagSetFault};
use std::alloc::{AllocError, Global};
use std::io::{self, Write};

/// Adds the tag files, and writes the answers; then the paths of their plan, and its report if nothing is held.
pub fn plan<W: Write + Drop>(alloc: Global, files: &[File], out: &mut W) -> io::Result<()> {
    let mut tags = TagSet::new(alloc);
    for file in files {
        let answer = add(alloc, &mut tags, file);
        write!(out, "{answer} | ")?;
    }
    match Plan::from_tags(alloc, &tags) {
        Ok(plan) => write_plan(alloc, &plan, out),
        Err(fault) => {
            write!(out, "refused: ")?;
            write_refusal(&fault, out)
        }
    }
}

/// Adds a tag file. Returns the answer.
fn add(alloc: Global, tags: &mut TagSet, file: &File) -> &'static str {
    let Ok(octets) = Vec::from_slice(alloc, file.1.as_slice()) else {
        return NO_MEMORY;
    };
    match tags.add(file.0.as_str(), octets) {
        Ok(()) => "added",
        Err(TagSetFault::BadPath(_)) => "refused: path",
        Err(TagSetFault::Payload) => "refused: payload",
        Err(TagSetFault::Twice) => "refused: twice",
        Err(TagSetFault::TooLarge) => "refused: too large",
        Err(TagSetFault::Memory) => NO_MEMORY,
    }
}

/// Writes the paths that are wanted, and the report on a transfer that holds nothing.
fn write_plan<W: Write + Drop>(alloc: Global, plan: &Plan, out: &mut W) -> io::Result<()> {
    write!(out, "plan")?;
    for path in plan.paths() {
        let is_wanted = plan.want(path).is_some();
        write!(
            out,
            " {}{}",
            Spelling(path),
            if is_wanted { "" } else { "?" }
        )?;
    }
    write!(out, " | ")?;
    match plan.report(alloc, &[]) {
        Ok(report) => write_faults(&report, out),
        Err(AllocError) => write!(out, "{NO_MEMORY}"),
    }
}

/// Writes why there is no plan.
fn write_refusal<W: Write + Drop>(fault: &PlanFault, out: &mut W) -> io::Result<()> {
    match fault {
        PlanFault::TagTooLarge(path) => write!(out, "tag too large {}", Spelling(path)),
        PlanFault::Outside(cause) => write!(out, "{}", OutsideLine(cause)),
        PlanFault::Rules(fault) => write!(out, "{}", FaultLine(fault)),
        PlanFault::Clash(path) => write!(out, "clash {}", Spelling(path)),
        PlanFault::Memory => write!(out, "memory"),
    }
}
