//! Trees and open files of which one call fails.
ghost use Rattle.bag_rules.specs.OpenTrees.{LeavesRest};

use crate::breaker::{Breaker, Device};
use bag_digest::{Failed, Failures, Source};
use bag_path::BagPath;
use bag_rules::{OpenFile, OpenTree, Paths, Tree};
use bag_writer::{CopiedTree, SinkFile};
use std::alloc::{AllocError, Global};

/// A tree or an open file of which one call fails.
#[derive(Drop)]
pub struct BreakingTree<'a, T> {
    inside: T,
    breaker: &'a Breaker,
    is_open: bool,
    failures: Failures,
}

impl<'a, T> BreakingTree<'a, T> {
    pub fn new(inside: T, breaker: &'a Breaker) -> Self {
        BreakingTree {
            inside,
            breaker,
            is_open: false,
            failures: Failures::none(),
        }
    }

    pub fn into_inside(self) -> T {
        self.inside
    }
}

impl<T: Source> Source for BreakingTree<'_, T> {
    ghost remaining = { λ tree. T.remaining tree.inside };

    ghost failures = { λ tree. tree.failures };

    ghost ready = { λ _. ⊥ };

    ghost is_open = { λ tree. tree.is_open };

    ghost keeps = { λ a b. T.keeps a.inside b.inside };

    fn read(&mut self, buf: &mut [u8]) -> Result<usize, Failed> {
        if !self.is_open || self.breaker.breaks(Device::Tree) {
            return self.failures.counted(Err(Failed));
        }
        self.failures.counted(self.inside.read(buf))
    }

    fn failures(&self) -> u64 {
        self.failures.count()
    }

    ghost keeps_itself = { λ a. T.keeps_itself a.inside };

    ghost keeps_on = { λ a b c p q. T.keeps_on a.inside b.inside c.inside p q };
}

impl<P: Paths> Paths for BreakingTree<'_, P> {
    ghost shown = { λ tree. P.shown tree.inside };

    fn count(&self) -> usize {
        self.inside.count()
    }

    fn path(&self, i: usize) -> &BagPath {
        self.inside.path(i)
    }

    fn has_payload_dir(&self) -> bool {
        self.inside.has_payload_dir()
    }
}

impl<T: Tree> Tree for BreakingTree<'_, T> {
    ghost sure = { λ _. ⊥ };

    fn start(&mut self, i: usize) -> Result<(), Failed> {
        self.is_open = false;
        if self.breaker.breaks(Device::Tree) {
            return self.failures.counted(Err(Failed));
        }
        let started = self.inside.start(i);
        self.is_open = started.is_ok();
        self.failures.counted(started)
    }

    ghost reads_keep = { λ a b kept. record {
      same = (T.reads_keep a.inside b.inside kept).same;
      stays_sure = λ never. never;
    } };
}

impl<F: OpenFile> OpenFile for BreakingTree<'_, F> {
    ghost place = { λ file. F.place file.inside };

    fn place(&self) -> usize {
        self.inside.place()
    }

    ghost reads_keep_place = { λ a b kept. F.reads_keep_place a.inside b.inside kept };
}

/// A file whose opening fails is one that isn't open. It has failed only once it was read.
impl<'a, T: OpenTree> OpenTree for BreakingTree<'a, T> {
    type File = BreakingTree<'a, T::File>;

    fn open_file(&mut self, alloc: Global, i: usize) -> Result<Self::File, AllocError> {
        self.failures.raise()?;
        match self.inside.open_file(alloc, i) {
            Ok(inside) => Ok(BreakingTree {
                inside,
                breaker: self.breaker,
                is_open: !self.breaker.breaks(Device::Tree),
                failures: Failures::none(),
            }),
            Err(error) => {
                self.failures.lower();
                Err(error)
            }
        }
    }

    fn close(&mut self, file: Self::File) {
        take_back(&mut self.inside, file.inside);
        self.failures.lower();
    }

    fn fail(&mut self, file: Self::File) {
        take_back(&mut self.inside, file.inside);
    }

    fn give_up(&mut self, file: Self::File, _first: &Self::File) {
        take_back(&mut self.inside, file.inside);
        self.failures.lower();
    }
}

impl<T: OpenTree> CopiedTree for BreakingTree<'_, T> {
    fn give_up_unwritten<C: SinkFile>(&mut self, file: Self::File, _first: &C) {
        take_back(&mut self.inside, file.inside);
        self.failures.lower();
    }
}

/// Has the tree take back a file, by whether it has failed.
fn take_back<T: OpenTree>(tree: &mut T, file: T::File)
    ensures { LeavesRest T.keeps T.remaining T.is_open T.ready tree.old tree.new }
{
    if file.failures() == 0 {
        tree.close(file);
    } else {
        tree.fail(file);
    }
}
