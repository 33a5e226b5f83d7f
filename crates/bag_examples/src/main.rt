//! Three short programs for those who build on the crates, each on values in memory: a check of a tree, a receiver
//! over a keeper, and a new bag with elements and a hole. None touches the disk.
#![tactic(auto)]

use bag_commands::Output;
use bag_digest::Failed;
use bag_ledger::KeepFault;
use bag_path::{BagPath, PathFault};
use bag_receiver::{BeginFault, ViewFault};
use bag_rules::{AddFault, CheckFault, MemTree};
use bag_tags::ElementFault;
use bag_writer::WriteFault;
use std::alloc::{AllocError, Global};
use std::io::{self, Write};
use thiserror::Error;

mod judge_a_tree;
mod receive;
mod write_a_bag;

/// The text of `bagit.txt` in each bag here (RFC 8493 section 2.1.1).
const DECLARATION: &[u8] = b"BagIt-Version: 1.0\nTag-File-Character-Encoding: UTF-8\n";

/// Why a program ended early. Each crate has enums of its own faults, of which `?` makes these.
#[derive(Debug, Drop, Error)]
pub enum Unfinished {
    #[error("a path: {0}")]
    Path(#[from] PathFault),
    #[error("a tree: {0}")]
    Tree(#[from] AddFault),
    #[error("no verdict: {0}")]
    Check(CheckFault),
    #[error("no transfer: {0}")]
    Begin(#[from] BeginFault),
    #[error("no answer: {0}")]
    Keeper(KeepFault),
    #[error("no report: {0}")]
    View(#[from] ViewFault),
    #[error("an element: {0}")]
    Element(#[from] ElementFault),
    #[error("no bag: {0}")]
    Write(#[from] WriteFault),
    #[error("out of memory")]
    Memory(#[from(alloc)] AllocError),
    #[error("the output: {0}")]
    Output(#[from] Failed),
}

/// An error is told on standard error, and the status is then 1.
fn main(rt: HostRuntime) -> Result<(), Unfinished> {
    let mut out = Output::unbuffered(rt.alloc(), io::writer(&rt));
    show_all(rt.alloc(), &mut out)
}

fn show_all<W: Write + Drop>(alloc: Global, out: &mut Output<W>) -> Result<(), Unfinished> {
    out.line("== judge_a_tree")?;
    judge_a_tree::show(alloc, out)?;
    out.line("== receive")?;
    receive::show(alloc, out)?;
    out.line("== write_a_bag")?;
    write_a_bag::show(alloc, out)
}

/// Adds a file to a tree. The path is plain text, not spelled as in a manifest.
fn add_file(
    alloc: Global,
    tree: &mut MemTree,
    path: &str,
    octets: &[u8],
) -> Result<(), Unfinished> {
    let path = BagPath::parse(alloc, path)?;
    let octets = Vec::from_slice(alloc, octets)?;
    tree.add(path, octets)?;
    Ok(())
}
