//! Reads tag files that come in pieces, for `tests/feeds.py`, which describes the input and the output.
use crate::event::Event;
use crate::lines::{Answers, bad_line, octets_of};
use crate::reading::{TagFile, feed};
use bag_path::{LineCount, Lines};
use bag_tags::{TagFault, TagValue};
use std::alloc::Global;
use std::io::{self, Write};

/// Answers each line for itself.
#[derive(Clone, Copy)]
pub struct Feeds;

impl Answers for Feeds {
    fn answer<W: Write + Drop>(
        &mut self,
        alloc: Global,
        words: &[&str],
        out: &mut W,
    ) -> io::Result<()> {
        let Some((word, fields)) = words.split_first() else {
            return Err(bad_line());
        };
        match *word {
            "lines" => count(alloc, fields, out),
            "feed" => {
                feed(alloc, &Event::parse(alloc, words)?, out)?;
                writeln!(out)
            }
            "cut" => cut(alloc, fields, out),
            _ => Err(bad_line()),
        }
    }
}

/// Prints the number of lines of the joined pieces.
fn count<W: Write + Drop>(alloc: Global, fields: &[&str], out: &mut W) -> io::Result<()> {
    let mut lines = LineCount::new();
    for field in fields {
        lines.update(octets_of(alloc, field)?.as_slice());
    }
    writeln!(out, "{}", lines.finish())
}

/// Prints what the whole reader reads from octets, and the number of their lines; and then each cutting by which a feed
/// reads something else, or other lines are counted.
fn cut<W: Write + Drop>(alloc: Global, fields: &[&str], out: &mut W) -> io::Result<()> {
    if fields.len() < 3 {
        return Err(bad_line());
    }
    let (head, cuttings) = fields.split_at(3);
    let tag_file = TagFile::of(head[0], head[1])?;
    let octets = octets_of(alloc, head[2])?;
    let lines = count_lines(&octets);
    let whole = text_of(alloc, tag_file, &tag_file.whole(alloc, &octets))?;
    writeln!(out, "{lines} {whole}")?;
    for cutting in cuttings {
        let pieces = pieces_of(alloc, octets.as_slice(), cutting)?;
        compare(
            alloc,
            tag_file,
            pieces.as_slice(),
            (whole.as_str(), lines),
            cutting,
            out,
        )?;
    }
    Ok(())
}

/// Prints the cutting if a feed reads something else from its pieces than the whole, or other lines are counted.
fn compare<W: Write + Drop>(
    alloc: Global,
    tag_file: TagFile,
    pieces: &[&[u8]],
    (whole, lines): (&str, u64),
    cutting: &str,
    out: &mut W,
) -> io::Result<()> {
    let fed = fed(alloc, tag_file, pieces)?;
    if fed.as_str() != whole {
        writeln!(out, "cut at {cutting}: {fed}")?;
    }
    let counted = lines_of(pieces);
    if counted != lines {
        writeln!(out, "cut at {cutting}: {counted} lines")?;
    }
    Ok(())
}

/// How many lines octets have, as they are read one after another.
fn count_lines(octets: &[u8]) -> u64 {
    let mut count = 0u64;
    for _ in Lines::new(octets) {
        count = count.saturating_add(1);
    }
    count
}

/// The octets cut at these places, which are joined by commas and rise.
fn pieces_of<'a>(alloc: Global, octets: &'a [u8], places: &str) -> io::Result<Vec<&'a [u8]>> {
    let mut pieces = Vec::new(alloc);
    let mut last = 0;
    for place in places.split(',') {
        let Ok(place) = place.parse::<usize>() else {
            return Err(bad_line());
        };
        let Some(piece) = octets.get(last..place) else {
            return Err(bad_line());
        };
        pieces.push(piece)?;
        last = place;
    }
    let Some(piece) = octets.get(last..) else {
        return Err(bad_line());
    };
    pieces.push(piece)?;
    Ok(pieces)
}

/// What a feed reads from these pieces. After a fault it is fed on, and has to answer the same fault each time.
fn fed(alloc: Global, tag_file: TagFile, pieces: &[&[u8]]) -> io::Result<String> {
    let mut feed = tag_file.feed(alloc);
    let mut met = None;
    for piece in pieces {
        let fault = feed.feed(piece).err();
        if met.is_some() && fault != met {
            return Ok(String::from_str(alloc, "a fault was forgotten")?);
        }
        met = fault;
    }
    let found = feed.finish();
    if met.is_some() && fault_in(&found) != met {
        return Ok(String::from_str(alloc, "a fault was forgotten at the end")?);
    }
    text_of(alloc, tag_file, &found)
}

/// What was read, or the fault, as text.
fn text_of(
    alloc: Global,
    tag_file: TagFile,
    read: &Result<TagValue, TagFault>,
) -> io::Result<String> {
    let mut text = Vec::new(alloc);
    tag_file.write_read(read, &mut text)?;
    match String::from_utf8(text) {
        Ok(text) => Ok(text),
        Err(_) => Err(bad_line()),
    }
}

fn fault_in(found: &Result<TagValue, TagFault>) -> Option<TagFault> {
    match found {
        Ok(_) => None,
        Err(fault) => Some(*fault),
    }
}

/// The number of lines of the joined pieces.
fn lines_of(pieces: &[&[u8]]) -> u64 {
    let mut lines = LineCount::new();
    for piece in pieces {
        lines.update(piece);
    }
    lines.finish()
}
