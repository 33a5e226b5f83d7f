//! Counts what is read of a tree, an open file, a courier, a supplier or a keeper, or written to a sink.
ghost use Rattle.std.specs.Prelude.{◌≡◌, ◌<◌, length};
ghost use Rattle.bag_rules.specs.Trees.{paths_in};

use crate::progress_meter::Meter;
use bag_digest::{Failed, Source};
use bag_ledger::{KeepFault, Keeper, PutFault};
use bag_path::BagPath;
use bag_receiver::{Courier, Supplier};
use bag_rules::{ItemSize, OpenFile, OpenTree, Paths, TagSet, Tree, Want};
use bag_sqlite::Watch;
use bag_writer::{CopiedTree, Sink, SinkFile};
use std::alloc::{AllocError, Global};
use std::marker::Model;

/// A tree, an open file, a courier, a supplier, a keeper or a sink, whose files and octets a meter counts.
#[derive(Drop)]
pub struct Watched<'a, T, R> {
    inside: T,
    meter: &'a Meter<'a, R>,
}

impl<'a, T, R> Model for Watched<'a, T, R> {
    ghost Value = { T };

    ghost view = { λ watched. watched.inside };
}

impl<'a, T, R> Watched<'a, T, R> {
    /// The same, with its files and octets counted from now on.
    pub fn new(inside: T, meter: &'a Meter<'a, R>) -> Self
        ensures { result ≡ inside }
    {
        Watched { inside, meter }
    }

    /// What was counted.
    pub fn into_inside(self) -> T
        ensures { result ≡ self.entry }
    {
        self.inside
    }
}

impl<S: Source, R: Eprint> Source for Watched<'_, S, R> {
    ghost remaining = { S.remaining };

    ghost failures = { S.failures };

    ghost ready = { S.ready };

    ghost is_open = { S.is_open };

    ghost keeps = { S.keeps };

    fn read(&mut self, buf: &mut [u8]) -> Result<usize, Failed> {
        let answer = self.inside.read(buf);
        if let Ok(n) = answer {
            self.meter.add_octets(n as u64);
        }
        answer
    }

    fn failures(&self) -> u64 {
        self.inside.failures()
    }

    ghost keeps_itself = { S.keeps_itself };

    ghost keeps_on = { S.keeps_on };
}

impl<P: Paths, R: Eprint> Paths for Watched<'_, P, R> {
    ghost shown = { P.shown };

    fn count(&self) -> usize {
        self.inside.count()
    }

    fn path(&self, i: usize) -> &BagPath {
        self.inside.path(i)
    }

    fn has_payload_dir(&self) -> bool {
        self.inside.has_payload_dir()
    }
}

impl<T: Tree, R: Eprint> Tree for Watched<'_, T, R> {
    ghost sure = { T.sure };

    fn start(&mut self, i: usize) -> Result<(), Failed> {
        self.meter.add_file();
        self.inside.start(i)
    }

    ghost reads_keep = { T.reads_keep };
}

impl<F: OpenFile, R: Eprint> OpenFile for Watched<'_, F, R> {
    ghost place = { F.place };

    fn place(&self) -> usize {
        self.inside.place()
    }

    ghost reads_keep_place = { F.reads_keep_place };
}

/// Counts each file that is given out, and the octets that are read of it.
impl<'a, T: OpenTree, R: Eprint> OpenTree for Watched<'a, T, R> {
    type File = Watched<'a, T::File, R>;

    fn open_file(&mut self, alloc: Global, i: usize) -> Result<Self::File, AllocError> {
        let file = self.inside.open_file(alloc, i)?;
        self.meter.add_file();
        Ok(Watched::new(file, self.meter))
    }

    fn close(&mut self, file: Self::File) {
        self.inside.close(file.into_inside());
    }

    fn fail(&mut self, file: Self::File) {
        self.inside.fail(file.into_inside());
    }

    fn give_up(&mut self, file: Self::File, first: &Self::File) {
        self.inside.give_up(file.into_inside(), &first.inside);
    }
}

impl<T: CopiedTree, R: Eprint> CopiedTree for Watched<'_, T, R> {
    fn give_up_unwritten<C: SinkFile>(&mut self, file: Self::File, first: &C) {
        self.inside.give_up_unwritten(file.into_inside(), first);
    }
}

impl<C: Courier, R: Eprint> Courier for Watched<'_, C, R> {
    ghost coming = { C.coming };

    ghost path = { C.path };

    ghost nexts = { C.nexts };

    ghost steady = { C.steady };

    fn next(&mut self) -> Result<bool, Failed> {
        let answer = self.inside.next();
        if let Ok(true) = answer {
            self.meter.add_file();
        }
        answer
    }

    fn path(&self) -> &BagPath {
        self.inside.path()
    }

    fn nexts(&self) -> u64 {
        self.inside.nexts()
    }

    ghost keeps_item = { C.keeps_item };
}

impl<S: Supplier, R: Eprint> Supplier for Watched<'_, S, R> {
    ghost supply = { S.supply };

    ghost asks = { S.asks };

    fn ask(&mut self, url: &str, path: &str) -> Result<bool, Failed> {
        let answer = self.inside.ask(url, path);
        if let Ok(true) = answer {
            self.meter.add_file();
        }
        answer
    }

    fn asks(&self) -> u64 {
        self.inside.asks()
    }

    ghost keeps_supply = { S.keeps_supply };
}

/// Counts the payload files that are read again and have octets. Their octets are expected once their sizes are known.
impl<K: Keeper, R: Eprint> Keeper for Watched<'_, K, R> {
    ghost holds = { K.holds };

    ghost may_leave = { K.may_leave };

    ghost clean = { K.clean };

    ghost spent = { K.spent };

    ghost failures = { K.failures };

    fn begin(&mut self, alloc: Global, name: &str, tags: &TagSet) -> Result<(), KeepFault> {
        self.inside.begin(alloc, name, tags)
    }

    fn tags(&mut self, alloc: Global, name: &str) -> Result<Option<TagSet>, KeepFault> {
        self.inside.tags(alloc, name)
    }

    fn size_of(
        &mut self,
        alloc: Global,
        name: &str,
        path: &BagPath,
    ) -> Result<Option<u64>, KeepFault> {
        self.inside.size_of(alloc, name, path)
    }

    fn sizes(&mut self, alloc: Global, name: &str) -> Result<Vec<ItemSize>, KeepFault> {
        let answer = self.inside.sizes(alloc, name);
        if let Ok(sizes) = &answer {
            self.meter.expect_octets(total(sizes.as_slice()));
        }
        answer
    }

    fn put(
        &mut self,
        alloc: Global,
        name: &str,
        want: &Want<'_>,
        content: &[u8],
    ) -> Result<(), PutFault> {
        self.inside.put(alloc, name, want, content)
    }

    fn put_from<S: Source>(
        &mut self,
        alloc: Global,
        name: &str,
        want: &Want<'_>,
        reader: &mut S,
    ) -> Result<(), PutFault> {
        self.inside.put_from(alloc, name, want, reader)
    }

    fn read_piece(
        &mut self,
        alloc: Global,
        name: &str,
        path: &BagPath,
        offset: u64,
        buf: &mut [u8],
    ) -> Result<usize, KeepFault> {
        if offset == 0 {
            self.meter.add_file();
        }
        let answer = self.inside.read_piece(alloc, name, path, offset, buf);
        if let Ok(n) = answer {
            self.meter.add_octets(n as u64);
        }
        answer
    }

    fn names(&mut self, alloc: Global) -> Result<Vec<String>, KeepFault> {
        self.inside.names(alloc)
    }

    fn blame(&mut self) -> KeepFault {
        self.inside.blame()
    }

    fn failures(&self) -> u64 {
        self.inside.failures()
    }

    ghost sound = { K.sound };
}

/// How many octets these payload files have together. Saturates at 2^64 - 1.
fn total(sizes: &[ItemSize]) -> u64 {
    let mut octets = 0u64;
    for size in sizes {
        octets = octets.saturating_add(size.octets);
    }
    octets
}

impl<S: Sink, R: Eprint> Sink for Watched<'_, S, R> {
    ghost stored = { S.stored };

    ghost is_open = { S.is_open };

    ghost sure = { S.sure };

    ghost failures = { S.failures };

    fn payload_dir(&mut self) -> Result<(), Failed> {
        self.inside.payload_dir()
    }

    fn file(&mut self, path: &BagPath) -> Result<(), Failed> {
        self.meter.add_file();
        self.inside.file(path)
    }

    fn write(&mut self, octets: &[u8]) -> Result<(), Failed> {
        self.meter.add_octets(octets.len() as u64);
        self.inside.write(octets)
    }

    fn end(&mut self) -> Result<(), Failed> {
        self.inside.end()
    }

    fn failures(&self) -> u64 {
        self.inside.failures()
    }
}
