//! Judges two trees in memory as bags, and prints what `bag check` would. Another tree is any type with `OpenTree` of
//! `bag_rules`, such as `FolderTree` of `bag_folder`.
use crate::{DECLARATION, Unfinished, add_file};
use bag_commands::status::FAILED;
use bag_commands::{CheckEnd, Output, check_to};
use bag_digest::Failed;
use bag_rules::MemTree;
use std::alloc::Global;
use std::io::Write;

/// The SHA-256 of the three letters `abc`.
const MANIFEST: &[u8] =
    b"ba7816bf8f01cfea414140de5dae2223b00361a396177a9cb410ff61f20015ad  data/a.txt\n";

/// A valid bag, and one whose file has another letter.
pub fn show<W: Write + Drop>(alloc: Global, out: &mut Output<W>) -> Result<(), Unfinished> {
    judge(alloc, b"abc", out)?;
    judge(alloc, b"abd", out)
}

/// Prints the faults of the bag with this payload file, and the verdict. A bag that isn't valid is no error: only that
/// there is no verdict is one.
fn judge<W: Write + Drop>(
    alloc: Global,
    octets: &[u8],
    out: &mut Output<W>,
) -> Result<(), Unfinished> {
    let mut tree = bag(alloc, octets)?;
    let CheckEnd { status, fault } = check_to(alloc, &mut tree, out);
    match fault {
        Some(fault) => Err(Unfinished::Check(fault)),
        None if status == FAILED => Err(Unfinished::Output(Failed)),
        None => Ok(()),
    }
}

/// The bag with this payload file.
fn bag(alloc: Global, octets: &[u8]) -> Result<MemTree, Unfinished> {
    let mut tree = MemTree::new(alloc);
    add_file(alloc, &mut tree, "bagit.txt", DECLARATION)?;
    add_file(alloc, &mut tree, "manifest-sha256.txt", MANIFEST)?;
    add_file(alloc, &mut tree, "data/a.txt", octets)?;
    Ok(tree)
}
