//! Calls on texts and values, for `tests/refusals.py`, which describes the input and the output.
use crate::breaker::Breaker;
use crate::breaking_courier::{Breaks, Reader};
use crate::event::Event;
use crate::lines::{bad_line, parsed};
use crate::listing::{NO_MEMORY, entries, manifest, metadata, write_text};
use crate::planning::plan;
use crate::reading::{feed, manifest_name, version_of, whole};
use crate::shown::write_hex;
use bag_digest::{Alg, AlgSet, Digest, Digests, ReadFault, ReaderSource, digest_reader};
use bag_path::{BagPath, PathFault, escape, unescape};
use bag_tags::write_declaration;
use std::alloc::{AllocError, Global};
use std::io::{self, Write};

/// Makes the call, and writes what it answers.
pub fn answer_value<W: Write + Drop>(
    alloc: Global,
    event: &Event<'_>,
    breaker: &Breaker,
    out: &mut W,
) -> io::Result<()> {
    let name = event.name.as_str();
    let files = event.files.as_slice();
    match event.word {
        "parse" => write_path(BagPath::parse(alloc, name), out),
        "unescape" => {
            let (version, _) = event.file()?;
            write_path(unescape(alloc, name, version_of(version)?), out)
        }
        "escape" => spell(alloc, name, out),
        "hex" => spell_digest(alloc, event, out),
        "digest" => digest(alloc, event, breaker, out),
        "declaration" => write_text(write_declaration(alloc), out),
        "manifest" => manifest(alloc, manifest_name(name)?, files, out),
        "metadata" => metadata(alloc, files, out),
        "entries" => entries(alloc, files, out),
        "whole" => whole(alloc, event, out),
        "feed" => feed(alloc, event, out),
        "plan" => plan(alloc, files, out),
        _ => Err(bad_line()),
    }
}

/// Writes a path and what kind it is, or the number of its fault.
fn write_path<W: Write + Drop>(read: Result<BagPath, PathFault>, out: &mut W) -> io::Result<()> {
    match read {
        Ok(path) => {
            let kind = if path.is_payload() { "payload" } else { "tag" };
            write!(out, "{kind} ")?;
            write_hex(path.as_str().as_bytes(), out)
        }
        Err(fault) => write!(out, "refused: {}", fault_text(fault)),
    }
}

/// The number of a fault of a path, 0 for a faulty escape; or that memory ran out.
fn fault_text(fault: PathFault) -> &'static str {
    match fault {
        PathFault::BadEscape => "0",
        PathFault::Empty => "1",
        PathFault::TooLong => "2",
        PathFault::EmptySegment => "3",
        PathFault::DotSegment => "4",
        PathFault::Nul => "5",
        PathFault::PayloadRoot => "6",
        PathFault::Memory => "memory",
    }
}

/// Writes the spelling of a path.
fn spell<W: Write + Drop>(alloc: Global, text: &str, out: &mut W) -> io::Result<()> {
    match parsed(alloc, text)? {
        Some(path) => write_spelled(escape(alloc, &path), out),
        None => write!(out, "{NO_MEMORY}"),
    }
}

/// Writes the hex of a digest.
fn spell_digest<W: Write + Drop>(alloc: Global, event: &Event<'_>, out: &mut W) -> io::Result<()> {
    let (text, _) = event.file()?;
    let Some(alg) = Alg::from_name(event.name.as_str()) else {
        return Err(bad_line());
    };
    match Digest::from_hex(alg, text.as_bytes()) {
        Some(digest) => write_spelled(digest.to_hex(alloc), out),
        None => write!(out, "none"),
    }
}

fn write_spelled<W: Write + Drop>(
    spelled: Result<String, AllocError>,
    out: &mut W,
) -> io::Result<()> {
    match spelled {
        Ok(text) => write!(out, "text {text}"),
        Err(AllocError) => write!(out, "{NO_MEMORY}"),
    }
}

/// Writes the length and the digests of what a reader gives, by the algorithms that are the paths of the call. It gives
/// the octets of the last one.
fn digest<W: Write + Drop>(
    alloc: Global,
    event: &Event<'_>,
    breaker: &Breaker,
    out: &mut W,
) -> io::Result<()> {
    let Ok(limit) = event.name.parse::<u64>() else {
        return Err(bad_line());
    };
    let mut set = AlgSet::empty();
    let mut content: &[u8] = &[];
    for file in event.files.iter() {
        let Some(alg) = Alg::from_name(file.0.as_str()) else {
            return Err(bad_line());
        };
        set = set.with(alg);
        content = file.1.as_slice();
    }
    let mut reader = ReaderSource::new(Reader::new(content, Breaks::Counted(breaker)));
    match digest_reader(alloc, &mut reader, set, limit) {
        Ok(sums) => {
            write!(out, "{}", sums.length)?;
            write_digests(&sums.digests, out)
        }
        Err(ReadFault::Read) => write!(out, "refused: read"),
        Err(ReadFault::TooLarge) => write!(out, "refused: too large"),
        Err(ReadFault::Memory) => write!(out, "{NO_MEMORY}"),
    }
}

fn write_digests<W: Write + Drop>(digests: &Digests, out: &mut W) -> io::Result<()> {
    for alg in Alg::ALL {
        if let Some(digest) = digests.get(alg) {
            write!(out, " {} ", alg.name())?;
            write_hex(digest.octets(), out)?;
        }
    }
    Ok(())
}
