//! Writes a new bag with elements of `bag-info.txt` and a hole, and prints its tag files. Another sink is any type with
//! `OpenSink` of `bag_writer`, such as `FolderSink` of `bag_folder`.
use crate::{Unfinished, add_file};
use bag_commands::Output;
use bag_digest::{Alg, AlgSet, Failed};
use bag_path::BagPath;
use bag_rules::{MemTree, Paths};
use bag_tags::{Element, Info};
use bag_writer::{Hole, MemSink, Spec, write_bag};
use std::alloc::Global;
use std::io::Write;

pub fn show<W: Write + Drop>(alloc: Global, out: &mut Output<W>) -> Result<(), Unfinished> {
    let mut payload = payload(alloc)?;
    let spec = spec(alloc)?;
    let mut sink = MemSink::new(alloc);
    write_bag(alloc, &mut payload, &spec, &mut sink)?;
    print_tag_files(&sink.into_tree(), out)
}

/// All payload files. A hole is one of them: it is read, since manifests list it, and not written.
fn payload(alloc: Global) -> Result<MemTree, Unfinished> {
    let mut tree = MemTree::new(alloc);
    add_file(alloc, &mut tree, "data/ada.txt", b"Dear Ada\n")?;
    add_file(alloc, &mut tree, "data/map.txt", b"a map\n")?;
    Ok(tree)
}

/// Manifests by SHA-256, two elements, and the map as a hole.
fn spec(alloc: Global) -> Result<Spec, Unfinished> {
    let algs = AlgSet::empty().with(Alg::Sha256);
    let mut info = Info::new(alloc);
    for (label, value) in [
        ("Source-Organization", "Archive"),
        ("External-Description", "A letter\nand a map"),
    ] {
        info.push(Element::new(alloc, label, value)?)?;
    }
    let mut holes = Vec::new(alloc);
    holes.push(Hole {
        path: BagPath::parse(alloc, "data/map.txt")?,
        url: String::from_str(alloc, "https://example.org/map.txt")?,
    })?;
    Ok(Spec { algs, info, holes })
}

fn print_tag_files<W: Write + Drop>(tree: &MemTree, out: &mut Output<W>) -> Result<(), Unfinished> {
    for i in 0..tree.count() {
        let path = tree.path(i);
        if path.is_payload() {
            continue;
        }
        if let Some(octets) = tree.get(path) {
            out.line(path.as_str())?;
            out.writer.write_all(octets).or(Err(Failed))?;
        }
    }
    Ok(())
}
