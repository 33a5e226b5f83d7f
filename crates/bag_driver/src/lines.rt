//! The lines of standard input: their words, and the fields that are in hex.
use bag_path::{BagPath, PathFault};
use std::alloc::Global;
use std::io::{self, BufRead, BufReader, ErrorKind, Write};

/// What answers the lines of standard input.
pub trait Answers {
    /// Does what a line asks for, which has these words, and writes the answer.
    ///
    /// # Errors
    ///
    /// The line is malformed, memory ran out, or a write failed.
    fn answer<W: Write + Drop>(
        &mut self,
        alloc: Global,
        words: &[&str],
        out: &mut W,
    ) -> io::Result<()>;
}

/// Has each line of standard input answered, in order, up to the first that can't be.
///
/// # Errors
///
/// Those of [`Answers::answer`], or a read failed.
pub fn answer_lines<A: Answers, R: Input + AllocGlobal, W: Write + Drop>(
    rt: &R,
    answers: &mut A,
    out: &mut W,
) -> io::Result<()> {
    let alloc = rt.alloc();
    for line in BufReader::new(alloc, rt.reader())?.lines(alloc) {
        let line = line?;
        let words: Vec<&str> = line.split(' ').collect(alloc)?;
        answers.answer(alloc, words.as_slice(), out)?;
    }
    Ok(())
}

/// The lines of standard input.
///
/// # Errors
///
/// A read failed, or memory ran out.
pub fn read_lines<R: Input + AllocGlobal>(rt: &R) -> io::Result<Vec<String>> {
    let alloc = rt.alloc();
    let mut lines = Vec::new(alloc);
    for line in BufReader::new(alloc, rt.reader())?.lines(alloc) {
        lines.push(line?)?;
    }
    Ok(lines)
}

/// The error for a malformed line.
pub fn bad_line() -> io::Error {
    io::Error::from(ErrorKind::InvalidData)
}

/// The text that a field gives in hex, or as `-` if it is empty.
pub fn text_of(alloc: Global, field: &str) -> io::Result<String> {
    match String::from_utf8(octets_of(alloc, field)?) {
        Ok(text) => Ok(text),
        Err(_) => Err(bad_line()),
    }
}

/// The octets that a field gives in hex, or as `-` if there are none.
pub fn octets_of(alloc: Global, field: &str) -> io::Result<Vec<u8>> {
    if field == "-" {
        return Ok(Vec::new(alloc));
    }
    match hex::decode(alloc, field) {
        Ok(octets) => Ok(octets),
        Err(_) => Err(bad_line()),
    }
}

/// The path with this text, or none if memory ran out.
///
/// # Errors
///
/// `InvalidData` if it is no path.
pub fn parsed(alloc: Global, text: &str) -> io::Result<Option<BagPath>> {
    match BagPath::parse(alloc, text) {
        Ok(path) => Ok(Some(path)),
        Err(PathFault::Memory) => Ok(None),
        Err(_) => Err(bad_line()),
    }
}

/// The path with this text.
///
/// # Errors
///
/// `InvalidData` if it is no path; or memory ran out.
pub fn path_of(alloc: Global, text: &str) -> io::Result<BagPath> {
    match parsed(alloc, text)? {
        Some(path) => Ok(path),
        None => Err(io::Error::from(ErrorKind::OutOfMemory)),
    }
}
