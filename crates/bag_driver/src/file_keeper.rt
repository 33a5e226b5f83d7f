//! A keeper of a ledger in two files in memory, of which calls fail.
use crate::breaker::Breaker;
use crate::breaking_file::BreakingFile;
use crate::breaking_keeper::Failing;
use crate::ledger_opening::{abandoned_in, closed_in, opened_in};
use bag_digest::Source;
use bag_ledger::{KeepFault, Keeper, PutFault};
use bag_path::BagPath;
use bag_rules::{ItemSize, TagSet, Want};
use bag_sqlite::{AdoptFault, SqlKeeper};
use sqlite::{FileStore, Files, Options};
use std::alloc::Global;

/// The two files of a ledger.
pub type LedgerFiles<'a> = Files<BreakingFile<'a>>;

/// A keeper of a ledger in them.
type Inside<'a> = SqlKeeper<FileStore<BreakingFile<'a>>>;

/// A keeper of a ledger in two files in memory. It is a type without a parameter, and nothing is claimed about what it
/// holds, so that a call over it is proved without a look at what a file is.
#[derive(Drop)]
pub struct FileKeeper<'a> {
    inside: Inside<'a>,
    store: Failing<'a>,
}

impl<'a> FileKeeper<'a> {
    /// Opens the ledger in these files, or makes one if they have no tables.
    ///
    /// # Errors
    ///
    /// The fault, with the files.
    pub fn open(
        alloc: Global,
        files: LedgerFiles<'a>,
        breaker: &'a Breaker,
        options: Options,
    ) -> Result<FileKeeper<'a>, (AdoptFault, LedgerFiles<'a>)> {
        let inside = opened_in(alloc, files, options)?;
        Ok(FileKeeper {
            inside,
            store: Failing::new(breaker),
        })
    }

    /// Closes the ledger, which copies its log into the database. Returns the files, and whether that succeeded.
    pub fn close(self) -> (LedgerFiles<'a>, bool) {
        closed_in(self.inside)
    }

    /// Gives the ledger up, and copies nothing. Returns the files.
    pub fn abandon(self) -> LedgerFiles<'a> {
        abandoned_in(self.inside)
    }
}

impl Keeper for FileKeeper<'_> {
    ghost use Rattle.std.specs.Prelude.{IsTrue};

    ghost holds = { λ _ _. ⊥ };

    ghost may_leave = { λ _ _. ⊥ };

    ghost clean = { λ _. ⊥ };

    ghost spent = { λ keeper. IsTrue keeper.store.is_spent };

    ghost failures = { λ keeper. keeper.store.failures };

    fn begin(&mut self, alloc: Global, name: &str, tags: &TagSet) -> Result<(), KeepFault> {
        if self.store.is_spent {
            return Err(KeepFault::Store(self.store.refuse()));
        }
        match self.inside.begin(alloc, name, tags) {
            Ok(done) => Ok(done),
            Err(KeepFault::Memory) => Err(KeepFault::Memory),
            Err(KeepFault::Store(_)) => Err(self.blame()),
        }
    }

    fn tags(&mut self, alloc: Global, name: &str) -> Result<Option<TagSet>, KeepFault> {
        if self.store.is_spent {
            return Err(KeepFault::Store(self.store.refuse()));
        }
        match self.inside.tags(alloc, name) {
            Ok(done) => Ok(done),
            Err(KeepFault::Memory) => Err(KeepFault::Memory),
            Err(KeepFault::Store(_)) => Err(self.blame()),
        }
    }

    fn size_of(
        &mut self,
        alloc: Global,
        name: &str,
        path: &BagPath,
    ) -> Result<Option<u64>, KeepFault> {
        if self.store.is_spent {
            return Err(KeepFault::Store(self.store.refuse()));
        }
        match self.inside.size_of(alloc, name, path) {
            Ok(done) => Ok(done),
            Err(KeepFault::Memory) => Err(KeepFault::Memory),
            Err(KeepFault::Store(_)) => Err(self.blame()),
        }
    }

    fn sizes(&mut self, alloc: Global, name: &str) -> Result<Vec<ItemSize>, KeepFault> {
        if self.store.is_spent {
            return Err(KeepFault::Store(self.store.refuse()));
        }
        match self.inside.sizes(alloc, name) {
            Ok(done) => Ok(done),
            Err(KeepFault::Memory) => Err(KeepFault::Memory),
            Err(KeepFault::Store(_)) => Err(self.blame()),
        }
    }

    fn put(
        &mut self,
        alloc: Global,
        name: &str,
        want: &Want<'_>,
        content: &[u8],
    ) -> Result<(), PutFault> {
        if self.store.is_spent {
            return Err(PutFault::Keep(KeepFault::Store(self.store.refuse())));
        }
        match self.inside.put(alloc, name, want, content) {
            Ok(()) => Ok(()),
            Err(PutFault::Keep(KeepFault::Store(_))) => { Err(PutFault::Keep(self.blame())) }
            Err(PutFault::Keep(KeepFault::Memory)) => Err(PutFault::Keep(KeepFault::Memory)),
            Err(PutFault::Reader) => Err(PutFault::Reader),
            Err(PutFault::TooLarge) => Err(PutFault::TooLarge),
            Err(PutFault::Length) => Err(PutFault::Length),
            Err(PutFault::Digest(alg)) => Err(PutFault::Digest(alg)),
        }
    }

    fn put_from<S: Source>(
        &mut self,
        alloc: Global,
        name: &str,
        want: &Want<'_>,
        reader: &mut S,
    ) -> Result<(), PutFault> {
        if self.store.is_spent {
            return Err(PutFault::Keep(KeepFault::Store(self.store.refuse())));
        }
        match self.inside.put_from(alloc, name, want, reader) {
            Ok(()) => Ok(()),
            Err(PutFault::Keep(KeepFault::Store(_))) => { Err(PutFault::Keep(self.blame())) }
            Err(PutFault::Keep(KeepFault::Memory)) => Err(PutFault::Keep(KeepFault::Memory)),
            Err(PutFault::Reader) => Err(PutFault::Reader),
            Err(PutFault::TooLarge) => Err(PutFault::TooLarge),
            Err(PutFault::Length) => Err(PutFault::Length),
            Err(PutFault::Digest(alg)) => Err(PutFault::Digest(alg)),
        }
    }

    fn read_piece(
        &mut self,
        alloc: Global,
        name: &str,
        path: &BagPath,
        offset: u64,
        buf: &mut [u8],
    ) -> Result<usize, KeepFault> {
        if self.store.is_spent {
            return Err(KeepFault::Store(self.store.refuse()));
        }
        match self.inside.read_piece(alloc, name, path, offset, buf) {
            Ok(done) => Ok(done),
            Err(KeepFault::Memory) => Err(KeepFault::Memory),
            Err(KeepFault::Store(_)) => Err(self.blame()),
        }
    }

    fn names(&mut self, alloc: Global) -> Result<Vec<String>, KeepFault> {
        if self.store.is_spent {
            return Err(KeepFault::Store(self.store.refuse()));
        }
        match self.inside.names(alloc) {
            Ok(done) => Ok(done),
            Err(KeepFault::Memory) => Err(KeepFault::Memory),
            Err(KeepFault::Store(_)) => Err(self.blame()),
        }
    }

    fn blame(&mut self) -> KeepFault {
        KeepFault::Store(self.store.refuse())
    }

    fn failures(&self) -> u64 {
        self.store.failures.count()
    }

    ghost sound = { λ _ _ never _. absurd never };
}
