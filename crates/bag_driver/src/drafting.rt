//! A tree in memory, which is judged and written as a bag; for `tests/new_bags.py` and `tests/refusals.py`, which
//! describe the input and the output.
use crate::breaker::Breaker;
use crate::breaking_sink::BreakingSink;
use crate::breaking_tree::BreakingTree;
use crate::commanding::{output_on, write_told};
use crate::event::{Event, File};
use crate::lines::{bad_line, parsed};
use crate::listing::{NO_MEMORY, add_element};
use crate::shown::write_files;
use bag_commands::{CheckEnd, MakeEnd, check_to, make_to};
use bag_digest::{Alg, AlgSet};
use bag_path::Spelling;
use bag_rules::{AddFault, MemTree};
use bag_tags::{Info, Oxum};
use bag_writer::{Hole, MemSink, Spec, WriteFault, write_bag};
use std::alloc::{AllocError, Global};
use std::io::{self, Write};
use std::mem;

/// A tree, and what a bag is written of it with.
#[derive(Drop)]
pub struct Draft {
    tree: MemTree,
    spec: Spec,
}

impl Draft {
    pub fn new(alloc: Global) -> Draft {
        Draft {
            tree: MemTree::new(alloc),
            spec: Spec {
                algs: AlgSet::empty(),
                info: Info::new(alloc),
                holes: Vec::new(alloc),
            },
        }
    }

    /// Whether calls with this word are answered here.
    pub fn has_word(word: &str) -> bool {
        [
            "clear", "file", "by", "element", "hole", "write", "check", "make",
        ]
        .contains(&word)
    }

    /// Makes the call, and writes its answer.
    pub fn answer<W: Write + Drop>(
        &mut self,
        alloc: Global,
        event: &mut Event<'_>,
        breaker: &Breaker,
        out: &mut W,
    ) -> io::Result<()> {
        let answer = match event.word {
            "check" => return self.check(alloc, event, breaker, out),
            "make" => return self.make(alloc, event, breaker, out),
            "write" => return self.write(alloc, breaker, out),
            "clear" => {
                *self = Draft::new(alloc);
                "cleared"
            }
            "by" => self.by(event.name.as_str())?,
            "file" => self.file(alloc, event)?,
            "element" => {
                let (label, value) = event.texts()?;
                add_element(alloc, &mut self.spec.info, label, value)
            }
            "hole" => self.hole(alloc, event)?,
            _ => return Err(bad_line()),
        };
        write!(out, "{answer}")
    }

    /// Takes the tree out, with one call that fails. An empty one stays.
    pub fn tree_out<'a>(
        &mut self,
        alloc: Global,
        breaker: &'a Breaker,
    ) -> BreakingTree<'a, MemTree> {
        BreakingTree::new(mem::replace(&mut self.tree, MemTree::new(alloc)), breaker)
    }

    /// Puts the tree back.
    pub fn put_back(&mut self, tree: BreakingTree<'_, MemTree>) {
        self.tree = tree.into_inside();
    }

    fn by(&mut self, name: &str) -> io::Result<&'static str> {
        let Some(alg) = Alg::from_name(name) else {
            return Err(bad_line());
        };
        self.spec.algs = self.spec.algs.with(alg);
        Ok("added")
    }

    fn file(&mut self, alloc: Global, event: &Event<'_>) -> io::Result<&'static str> {
        let (path, octets) = event.file()?;
        let Some(path) = parsed(alloc, path)? else {
            return Ok(NO_MEMORY);
        };
        let Ok(octets) = Vec::from_slice(alloc, octets) else {
            return Ok(NO_MEMORY);
        };
        Ok(match self.tree.add(path, octets) {
            Ok(()) => "added",
            Err(AddFault::Twice) => "refused: twice",
            Err(AddFault::Memory) => NO_MEMORY,
        })
    }

    fn hole(&mut self, alloc: Global, event: &Event<'_>) -> io::Result<&'static str> {
        let (path, url) = event.texts()?;
        let Some(path) = parsed(alloc, path)? else {
            return Ok(NO_MEMORY);
        };
        let Ok(url) = String::from_str(alloc, url) else {
            return Ok(NO_MEMORY);
        };
        Ok(match self.spec.holes.push(Hole { path, url }) {
            Ok(()) => "added",
            Err(_) => NO_MEMORY,
        })
    }

    /// Writes the bag to a sink in memory, and what that holds then.
    fn write<W: Write + Drop>(
        &mut self,
        alloc: Global,
        breaker: &Breaker,
        out: &mut W,
    ) -> io::Result<()> {
        let mut tree = self.tree_out(alloc, breaker);
        let mut sink = BreakingSink::new(MemSink::new(alloc), breaker);
        let written = write_bag(alloc, &mut tree, &self.spec, &mut sink);
        self.put_back(tree);
        write_written(&written, out)?;
        write_files(&sink.into_inside().into_tree(), out)
    }

    /// The command `check`.
    fn check<W: Write + Drop>(
        &mut self,
        alloc: Global,
        event: &mut Event<'_>,
        breaker: &Breaker,
        out: &mut W,
    ) -> io::Result<()> {
        let mut told = output_on(alloc, event.take_room(alloc), breaker);
        let mut tree = self.tree_out(alloc, breaker);
        let CheckEnd { status, fault: _ } = check_to(alloc, &mut tree, &mut told);
        self.put_back(tree);
        write_told(status, &told, out)
    }

    /// The command `make`, with the names of algorithms that are the paths of the call, and what the sink holds then.
    fn make<W: Write + Drop>(
        &mut self,
        alloc: Global,
        event: &mut Event<'_>,
        breaker: &Breaker,
        out: &mut W,
    ) -> io::Result<()> {
        let Ok(names) = paths_of(alloc, event.files.as_slice()) else {
            return write!(out, "{NO_MEMORY}");
        };
        let room = event.take_room(alloc);
        let mut sink = BreakingSink::new(MemSink::new(alloc), breaker);
        self.make_told(alloc, names.as_slice(), room, breaker, &mut sink, out)?;
        write_files(&sink.into_inside().into_tree(), out)
    }

    /// The same, with the room for what is printed, and without the files.
    fn make_told<W: Write + Drop>(
        &mut self,
        alloc: Global,
        names: &[String],
        room: Vec<u8>,
        breaker: &Breaker,
        sink: &mut BreakingSink<'_, MemSink>,
        out: &mut W,
    ) -> io::Result<()> {
        let mut told = output_on(alloc, room, breaker);
        let mut tree = self.tree_out(alloc, breaker);
        let MakeEnd { status, large: _ } = make_to(alloc, names, &mut tree, sink, &mut told);
        self.put_back(tree);
        write_told(status, &told, out)
    }
}

/// The paths of these files.
fn paths_of(alloc: Global, files: &[File]) -> Result<Vec<String>, AllocError> {
    let mut paths = Vec::new(alloc);
    for file in files {
        paths.push(file.0.clone()?)?;
    }
    Ok(paths)
}

/// Writes the Oxum of a bag, or why none, or only part of one, was written.
fn write_written<W: Write + Drop>(
    written: &Result<Oxum, WriteFault>,
    out: &mut W,
) -> io::Result<()> {
    match written {
        Ok(Oxum { octets, streams }) => write!(out, "written {octets}.{streams}"),
        Err(WriteFault::NoAlgorithm) => write!(out, "refused: no algorithm"),
        Err(WriteFault::OxumGiven) => write!(out, "refused: Oxum given"),
        Err(WriteFault::BadHole(place)) => write!(out, "refused: bad hole {place}"),
        Err(WriteFault::Clash(path)) => write!(out, "refused: clash {}", Spelling(path)),
        Err(WriteFault::Tree) => write!(out, "refused: tree"),
        Err(WriteFault::Sink) => write!(out, "refused: sink"),
        Err(WriteFault::TooLarge(_)) => write!(out, "refused: too large"),
        Err(WriteFault::Memory) => write!(out, "{NO_MEMORY}"),
    }
}
