//! The calls of a list. Each is a line: a word, then a name and the path and octets of each file, all in hex.
use crate::lines::{bad_line, octets_of, path_of, text_of};
use bag_path::BagPath;
use std::alloc::Global;
use std::{io, mem};

/// How many octets a command of a list prints at most.
const ROOM: usize = 4_096;

/// A file: its path, which may be invalid, and its octets.
pub type File = (String, Vec<u8>);

/// A call with this name, which may be invalid, and these files.
#[derive(Drop)]
pub struct Event<'a> {
    pub word: &'a str,
    pub name: String,
    pub files: Vec<File>,
    // the files again if a courier brings them, the last one first
    load: Vec<(BagPath, Vec<u8>)>,
    // room for what a command prints
    room: Vec<u8>,
}

impl<'a> Event<'a> {
    /// The call of a line with these words. It has all the memory that a device needs in it.
    ///
    /// # Errors
    ///
    /// `InvalidData` if the fields are malformed; or memory ran out.
    pub fn parse(alloc: Global, words: &[&'a str]) -> io::Result<Event<'a>> {
        let Some((word, fields)) = words.split_first() else {
            return Err(bad_line());
        };
        let Some((name, fields)) = fields.split_first() else {
            return Event::of(alloc, word, String::new(alloc), Vec::new(alloc));
        };
        let mut files = Vec::new(alloc);
        for pair in fields.chunks(2) {
            if pair.len() < 2 {
                return Err(bad_line());
            }
            files.push((text_of(alloc, pair[0])?, octets_of(alloc, pair[1])?))?;
        }
        Event::of(alloc, word, text_of(alloc, name)?, files)
    }

    fn of(alloc: Global, word: &'a str, name: String, files: Vec<File>) -> io::Result<Event<'a>> {
        let load = if word == "intake-to" || word.starts_with("bring") {
            load_of(alloc, files.as_slice())?
        } else {
            Vec::new(alloc)
        };
        let room = if word == "check" || word == "make" || word.ends_with("-to") {
            Vec::with_capacity(alloc, ROOM)?
        } else {
            Vec::new(alloc)
        };
        Ok(Event {
            word,
            name,
            files,
            load,
            room,
        })
    }

    /// Takes out the files that a courier brings.
    pub fn take_load(&mut self, alloc: Global) -> Vec<(BagPath, Vec<u8>)> {
        mem::replace(&mut self.load, Vec::new(alloc))
    }

    /// Takes out the room for what a command prints.
    pub fn take_room(&mut self, alloc: Global) -> Vec<u8> {
        mem::replace(&mut self.room, Vec::new(alloc))
    }

    /// The path and the octets of its one file.
    ///
    /// # Errors
    ///
    /// `InvalidData` if it has no file, or several.
    pub fn file(&self) -> io::Result<(&str, &[u8])> {
        match self.files.as_slice() {
            [(path, octets)] => Ok((path.as_str(), octets.as_slice())),
            _ => Err(bad_line()),
        }
    }

    /// The path of its one file and the octets, which are a text.
    ///
    /// # Errors
    ///
    /// `InvalidData` if it has no such file, or several.
    pub fn texts(&self) -> io::Result<(&str, &str)> {
        let (path, octets) = self.file()?;
        match str::from_utf8(octets) {
            Ok(text) => Ok((path, text)),
            Err(_) => Err(bad_line()),
        }
    }
}

/// These files, the last one first.
fn load_of(alloc: Global, files: &[File]) -> io::Result<Vec<(BagPath, Vec<u8>)>> {
    let mut load = Vec::new(alloc);
    for (text, content) in files.iter().rev() {
        let path = path_of(alloc, text.as_str())?;
        load.push((path, Vec::from_slice(alloc, content.as_slice())?))?;
    }
    Ok(load)
}
