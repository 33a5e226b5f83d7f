//! Trees of files in memory.
ghost use Rattle.std.specs.Prelude.{◌≡◌, ◌+◌, ◌-◌, ◌^◌, ◌<◌, ◌≤◌, ◌++◌, ◌↔◌, [], Contains, IfErr, IfOk, IsErr, IsOk, OnErr, OnOk, drop, is_some, length, max, slice_get, take, true};
ghost use Rattle.std.specs.Io.KnownBytes.{ReadConsumes};
ghost use Rattle.std.specs.Option.{ForSome, option_copied, option_map};
ghost use Rattle.bag_digest.specs.Failures.{UsesSource, greatest_count};
ghost use Rattle.bag_rules.specs.Memory.{MemFiles};
ghost use Rattle.bag_rules.specs.Trees.{AreRising, UsesTree, octets_in, paths_in};
ghost use Rattle.bag_rules.specs.MemoryInside.{moved_up};

use crate::file::{File, body_of, search};
use crate::mem_file::MemFile;
use crate::open_tree::OpenTree;
use crate::tree::{Paths, Tree};
use bag_digest::{Failed, Failures, Source};
use bag_path::BagPath;
use std::alloc::{AllocError, Global};
use std::marker::Model;
use thiserror::Error;

/// Why a file wasn't added.
#[derive(Clone, Copy, Debug, PartialEq, Eq, Error)]
pub enum AddFault {
    /// A file with this path already exists.
    #[error("a file with this path is there already")]
    Twice,
    /// Memory ran out.
    #[error("out of memory")]
    Memory,
}

/// The place of the file that is being read, and how many of its octets were read.
#[derive(Clone, Copy)]
struct Reading {
    place: usize,
    at: usize,
}

/// Files in memory, by path. All octets of this tree are known, and it never fails once a file was started.
///
/// It is empty at first and is built by `add` and `set_payload_dir`. Files can't be removed.
#[derive(Drop)]
pub struct MemTree {
    files: Vec<File>,
    has_payload_dir: bool,
    reading: Option<Reading>,
    failures: Failures,
}

impl Model for MemTree {
    ghost use Rattle.bag_rules.specs.Memory.{MemFiles};

    ghost Value = { MemFiles };

    ghost use Rattle.bag_rules.specs.MemoryInside.{view_of, IsSoundTree};

    ghost view = { view_of };

    ghost invariant = { IsSoundTree };
}

impl MemTree {
    ghost use Rattle.std.specs.Prelude.{Some};
    ghost use Rattle.bag_rules.specs.Memory.{FindsAlso, mem_paths, no_files, octets_at, with_file};

    /// A tree without files and without a payload directory.
    pub fn new(alloc: Global) -> MemTree
        ensures { result ≡ no_files }
    {
        MemTree {
            files: Vec::new(alloc),
            has_payload_dir: false,
            reading: None,
            failures: Failures::none(),
        }
    }

    /// Inserts a file at its place in the order of the paths. Adding a payload file creates the payload directory.
    ///
    /// A file that is being read stays the same file, read as far as before. If the paths are added in ascending order,
    /// each costs a binary search. Otherwise all files that come after the new one are moved as well.
    ///
    /// # Errors
    ///
    /// `Twice` if a file with this path already exists, or `Memory` if memory runs out. The tree is then unchanged.
    pub fn add(&mut self, path: BagPath, body: Vec<u8>) -> Result<(), AddFault>
        ensures added { OnOk result (self.new ≡ with_file self.old path body.items) }
        ensures twice { (result ≡ Err AddFault.Twice) ↔ Contains (mem_paths self.old) path }
        ensures refused { OnErr result (self.new ≡ self.old) }

        // What a look-up finds afterwards, and that the paths stay in order.
        ensures found { OnOk result (FindsAlso self.old self.new path body.items) }
        ensures rising { AreRising (mem_paths self.new) }
    {
        let place = match search(&self.files, path.as_str()) {
            Ok(_) => return Err(AddFault::Twice),
            Err(place) => place,
        };
        let is_payload = path.is_payload();
        let Ok(()) = self.files.insert(place, File { path, body }) else {
            return Err(AddFault::Memory);
        };
        self.has_payload_dir |= is_payload;
        self.reading = moved_up(self.reading, place);
        Ok(())
    }

    /// Creates the payload directory, which may stay empty.
    pub fn set_payload_dir(&mut self)
        ensures { self.new ≡ record self.old { has_payload_dir = true } }
    {
        self.has_payload_dir = true;
    }

    /// The octets of the file with this path, if there is one.
    pub fn get(&self, path: &BagPath) -> Option<&[u8]>
        ensures { option_copied result ≡ octets_at self.now path.now }
    {
        body_of(&self.files, path.as_str())
    }
}

impl Source for MemTree {
    ghost use Rattle.std.specs.Prelude.{None};
    ghost use Rattle.bag_rules.specs.Memory.{IsStarted, KeepsOpen, MatchRead, SameMemFiles, same_itself, same_on};

    ghost remaining = { λ tree. tree.started };

    ghost failures = { λ tree. tree.failures };

    ghost ready = { IsStarted };

    ghost is_open = { λ tree. is_some tree.started };

    ghost keeps = { SameMemFiles };

    /// Reads on in the file that was started last. If no file was started, it fails and counts the failure. It doesn't
    /// fail otherwise.
    fn read(&mut self, buf: &mut [u8]) -> Result<usize, Failed>
        ensures bound { IfOk result (λ n. n ≤ length buf.new) }
        ensures octets { ReadConsumes self.old.started self.new.started result buf.new }
        ensures uses { UsesSource (λ (tree : MemFiles). tree.failures) IsStarted SameMemFiles
            self.old self.new (IsErr result) }
        ensures open { KeepsOpen (is_some self.old.started) (is_some self.new.started)
            (IsErr result) }
        // It fails exactly if no file was started. It then counts one failure, up to the maximum.
        ensures exactly { MatchRead self.old self.new result }
    {
        let Some(reading) = self.reading else {
            return self.failures.counted(Err(Failed));
        };
        let n = copy_from(&self.files[reading.place].body, reading.at, buf);
        self.reading = Some(Reading {
            place: reading.place,
            at: reading.at + n,
        });
        Ok(n)
    }

    fn failures(&self) -> u64 {
        self.failures.count()
    }

    ghost keeps_itself = { same_itself };

    ghost keeps_on = { same_on };
}

impl Paths for MemTree {
    ghost use Rattle.bag_rules.specs.Memory.{mem_shown};

    ghost shown = { mem_shown };

    fn count(&self) -> usize {
        self.files.len()
    }

    fn path(&self, i: usize) -> &BagPath {
        &self.files[i].path
    }

    fn has_payload_dir(&self) -> bool {
        self.has_payload_dir
    }
}

impl Tree for MemTree {
    ghost use Rattle.bag_rules.specs.Memory.{IsStarted, IsSure, keeps_tree, mem_octets, mem_shown};

    ghost sure = { IsSure };

    /// Starts reading a file from its beginning. This doesn't fail.
    fn start(&mut self, i: usize) -> Result<(), Failed>
        requires { i < length (paths_in (mem_shown self.old)) }
        ensures started { OnOk result (self.new.started ≡ octets_in (mem_shown self.old) i) }
        ensures uses { UsesTree mem_shown (λ (tree : MemFiles). tree.failures) IsSure
            self.old self.new (IsErr result) }
        ensures open { IsOk result × IsStarted self.new }
        ensures exactly { self.new ≡ record self.old { started = mem_octets self.old i } }
    {
        self.reading = Some(Reading { place: i, at: 0 });
        Ok(())
    }

    ghost reads_keep = { keeps_tree };
}

impl OpenTree for MemTree {
    type File = MemFile;

    /// Copies a file. What is added to the tree later isn't in the copy, and doesn't change its place.
    fn open_file(&mut self, alloc: Global, i: usize) -> Result<MemFile, AllocError> {
        let mut body = Vec::new(alloc);
        body.extend_from_slice(self.files[i].body.as_slice())?;
        self.failures.raise()?;
        Ok(MemFile::new(i, body))
    }

    fn close(&mut self, _file: MemFile) {
        self.failures.lower();
    }

    /// Does nothing, since no file fails.
    fn fail(&mut self, _file: MemFile) {}

    fn give_up(&mut self, _file: MemFile, _first: &MemFile) {
        self.failures.lower();
    }
}

/// Copies octets from `at` on to the front of the buffer, as many as there are and as fit. Returns their number.
pub(crate) fn copy_from(body: &[u8], at: usize, buf: &mut [u8]) -> usize
    ensures copied { drop at body.now ≡ take result buf.new ++ drop (at + result) body.now }
    ensures fits { result ≤ length buf.new }
    ensures inside { at + result ≤ max at (length body.now) }
    ensures end { result ≡ 0 → 0 < length buf.new → drop at body.now ≡ [] }
{
    if at >= body.len() {
        return 0;
    }
    let n = buf.len().min(body.len() - at);
    buf[..n].copy_from_slice(&body[at..at + n]);
    n
}

/// The same place in the same file after another file was inserted at `place`.
fn moved_up(reading: Option<Reading>, place: usize) -> Option<Reading>
    requires { ForSome reading (λ r. r.place < 2 ^ 64 - 1) }
    ensures { result ≡ option_map (moved_up place) reading }
{
    match reading {
        Some(r) if place <= r.place => Some(Reading {
            place: r.place + 1,
            at: r.at,
        }),
        _ => reading,
    }
}
