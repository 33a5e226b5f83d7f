//! Files that were begun in a sink in memory.
ghost use Rattle.std.specs.Prelude.{◌≡◌, IsErr, MatchResult, None, Some, is_ok};
ghost use Rattle.bag_digest.specs.Failures.{CountsIf};
ghost use Rattle.bag_writer.specs.MemoryInside.{IsInFile};

use crate::open_sink::{CopiedTree, SinkFile};
use bag_digest::{Failed, Failures};
use bag_path::BagPath;
use bag_rules::{AddFault, MemFile, MemTree, OpenTree};

/// A file that was begun: its path, and the octets that it has so far.
#[derive(Drop)]
pub(crate) struct BegunFile {
    pub(crate) path: BagPath,
    pub(crate) octets: Vec<u8>,
}

/// A file that was begun in a sink in memory, with its octets, which are known. It fails only if it couldn't be begun,
/// or if memory runs out.
#[derive(Drop)]
pub struct MemSinkFile {
    place: usize,
    begun: Option<BegunFile>,
    failures: Failures,
}

impl MemSinkFile {
    /// The file at this place, or one that has failed.
    pub(crate) fn new(place: usize, begun: Result<BegunFile, Failed>) -> MemSinkFile
        ensures { MatchResult begun
            (λ begun. result ≡ record { place = place; begun = Some begun; failures = 0 })
            (λ _. result ≡ record { place = place; begun = None; failures = 1 }) }
    {
        let mut failures = Failures::none();
        let begun = match failures.counted(begun) {
            Ok(begun) => Some(begun),
            Err(Failed) => None,
        };
        MemSinkFile {
            place,
            begun,
            failures,
        }
    }

    /// What it holds. It holds nothing from then on.
    pub(crate) fn take(&mut self) -> Option<BegunFile>
        ensures { (result ≡ self.old.begun) × (self.new ≡ record self.old { begun = None }) }
    {
        self.begun.take()
    }

    /// Counts the result of a call on it if it is an error.
    pub(crate) fn counted(&mut self, answer: Result<(), AddFault>) -> Result<(), Failed>
        ensures answer { is_ok result ≡ is_ok answer }
        ensures counted { CountsIf (IsErr result) self.old.failures self.new.failures }
        ensures rest { self.new ≡ record self.old { failures = self.new.failures } }
    {
        self.failures.counted(answer)
    }
}

impl SinkFile for MemSinkFile {
    ghost place = { λ file. file.place };

    ghost holds = { IsInFile };

    ghost failures = { λ file. file.failures };

    ghost sure = { λ _. ⊥ };

    /// Writes either all of the octets or none.
    fn write(&mut self, octets: &[u8]) -> Result<(), Failed> {
        let Some(mut begun) = self.begun.take() else {
            return self.failures.counted(Err(Failed));
        };
        let grown = begun.octets.extend_from_slice(octets);
        self.begun = Some(begun);
        self.failures.counted(grown)
    }

    fn failures(&self) -> u64 {
        self.failures.count()
    }
}

impl CopiedTree for MemTree {
    /// Closes the file, since none fails.
    fn give_up_unwritten<C: SinkFile>(&mut self, file: MemFile, _first: &C) {
        self.close(file);
    }
}
