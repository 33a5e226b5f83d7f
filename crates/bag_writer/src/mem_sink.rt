//! Sinks in memory.
ghost use Rattle.std.specs.Prelude.{◌≡◌, ◌||◌, IsErr, IsOk, MatchResult, OnErr, OnOk, Some, false, is_ok, take, true, ℕ};
ghost use Rattle.std.specs.Option.{option_map};
ghost use Rattle.bag_rules.specs.Memory.{MemFiles};
ghost use Rattle.bag_writer.specs.Memory.{IsNeverSure, MemStored, has_begun, known, nothing_held, tree_of, with_failure};
ghost use Rattle.bag_writer.specs.Sinks.{IsFree, StaysOrIsLost, UsesSink, with_begun, with_ended, with_octets, with_payload_dir, without_begun};

use crate::mem_sink_file::{BegunFile, MemSinkFile};
use crate::open_sink::OpenSink;
use crate::sink::Sink;
use bag_digest::{Failed, Failures};
use bag_path::BagPath;
use bag_rules::{AddFault, MemTree, OpenTree};
use std::alloc::{AllocError, Global};
use std::marker::Model;

/// A sink that holds the files of a bag in memory. It fails if a call is out of order or memory runs out.
#[derive(Drop)]
pub struct MemSink {
    alloc: Global,
    ended: MemTree,
    begun: Option<BegunFile>,
    failures: Failures,
}

impl Model for MemSink {
    ghost use Rattle.bag_writer.specs.Memory.{MemStored};

    ghost Value = { MemStored };

    ghost use Rattle.bag_writer.specs.MemoryInside.{IsSoundSink, view_of};

    ghost view = { view_of };

    ghost invariant = { IsSoundSink };
}

impl MemSink {
    /// A sink without files and without a payload directory, in which no file was begun.
    pub fn new(alloc: Global) -> MemSink
        ensures { result ≡ nothing_held }
    {
        MemSink {
            alloc,
            ended: MemTree::new(alloc),
            begun: None,
            failures: Failures::none(),
        }
    }

    /// The tree of the files that were ended. A file that was only begun is lost.
    pub fn into_tree(self) -> MemTree
        ensures { result ≡ tree_of self.stored.bag }
    {
        let MemSink { ended, .. } = self;
        ended
    }
}

impl Sink for MemSink {
    ghost stored = { known };

    ghost is_open = { has_begun };

    ghost sure = { IsNeverSure };

    ghost failures = { λ sink. sink.failures };

    fn payload_dir(&mut self) -> Result<(), Failed>
        ensures made { OnOk result (known self.new ≡ option_map with_payload_dir (known self.old)) }
        ensures kept { OnErr result (known self.new ≡ known self.old) }
        ensures open { has_begun self.new ≡ has_begun self.old }
        ensures uses { UsesSink (λ (sink : MemStored). sink.failures) IsNeverSure
            self.old self.new Unit (IsErr result) }
        ensures exactly { IsOk result
            × (self.new ≡ record self.old { stored = with_payload_dir self.old.stored }) }
    {
        self.ended.set_payload_dir();
        Ok(())
    }

    /// Begins a file. If no file is begun and none with this path exists, it fails only if memory runs out.
    fn file(&mut self, path: &BagPath) -> Result<(), Failed>
        ensures begun { OnOk result
            (known self.new ≡ option_map (with_begun path.now) (known self.old)) }
        ensures free { OnOk result ((has_begun self.old ≡ false)
            × IsFree (known self.old) path.now) }
        ensures kept { OnErr result (known self.new ≡ known self.old) }
        ensures open { has_begun self.new ≡ (is_ok result || has_begun self.old) }
        ensures uses { UsesSink (λ (sink : MemStored). sink.failures) IsNeverSure self.old self.new
            ((has_begun self.old ≡ false) × IsFree (known self.old) path.now) (IsErr result) }
        ensures exactly { MatchResult result
            (λ _. self.new ≡ record self.old { stored = with_begun path.now self.old.stored })
            (λ _. self.new ≡ with_failure self.old) }
    {
        if self.begun.is_some() || self.ended.get(path).is_some() {
            return self.failures.counted(Err(Failed));
        }
        match path.clone() {
            Ok(path) => {
                self.begun = Some(BegunFile {
                    path,
                    octets: Vec::new(self.alloc),
                });
                Ok(())
            }
            Err(refused) => self.failures.counted(Err(refused)),
        }
    }

    /// Writes either all of the octets or none. If a file is begun, it fails only if memory runs out.
    fn write(&mut self, octets: &[u8]) -> Result<(), Failed>
        ensures written { OnOk result
            (known self.new ≡ option_map (with_octets octets.now) (known self.old)) }
        ensures part { OnErr result ((n : ℕ)
            × (known self.new ≡ option_map (with_octets (take n octets.now)) (known self.old))) }
        ensures closed { has_begun self.old ≡ false → IsErr result }
        ensures open { has_begun self.new ≡ has_begun self.old }
        ensures uses { UsesSink (λ (sink : MemStored). sink.failures) IsNeverSure self.old self.new
            (has_begun self.old ≡ true) (IsErr result) }
        ensures exactly { MatchResult result
            (λ _. self.new ≡ record self.old { stored = with_octets octets.now self.old.stored })
            (λ _. self.new ≡ with_failure self.old) }
    {
        let Some(mut file) = self.begun.take() else {
            return self.failures.counted(Err(Failed));
        };
        let grown = file.octets.extend_from_slice(octets);
        self.begun = Some(file);
        self.failures.counted(grown)
    }

    /// Ends the file that was begun. It fails if there is none. Otherwise it fails only if memory runs out, and the
    /// file is then lost.
    fn end(&mut self) -> Result<(), Failed>
        ensures ended { OnOk result (known self.new ≡ option_map with_ended (known self.old)) }
        ensures lost { OnErr result (StaysOrIsLost (known self.old) (known self.new)) }
        ensures closed { has_begun self.old ≡ false → IsErr result }
        ensures open { OnOk result (has_begun self.new ≡ false) }
        ensures uses { UsesSink (λ (sink : MemStored). sink.failures) IsNeverSure self.old self.new
            (has_begun self.old ≡ true) (IsErr result) }
        ensures exactly { MatchResult result
            (λ _. self.new ≡ record self.old { stored = with_ended self.old.stored })
            (λ _. self.new
            ≡ with_failure (record self.old { stored = without_begun self.old.stored })) }
    {
        let Some(file) = self.begun.take() else {
            return self.failures.counted(Err(Failed));
        };
        let added = self.ended.add(file.path, file.octets);
        self.failures.counted(added)
    }

    fn failures(&self) -> u64 {
        self.failures.count()
    }
}

impl OpenSink for MemSink {
    type File = MemSinkFile;

    /// Begins a file. It fails if a file is begun by [`Sink::file`], one with this path was ended, or memory runs out
    /// for the path.
    fn begin_file(
        &mut self,
        _alloc: Global,
        place: usize,
        path: &BagPath,
    ) -> Result<MemSinkFile, AllocError> {
        self.failures.raise()?;
        if self.ended.get(path).is_some() || self.begun.is_some() {
            return Ok(MemSinkFile::new(place, Err(Failed)));
        }
        let Ok(path) = path.clone() else {
            return Ok(MemSinkFile::new(place, Err(Failed)));
        };
        let begun = BegunFile {
            path,
            octets: Vec::new(self.alloc),
        };
        Ok(MemSinkFile::new(place, Ok(begun)))
    }

    /// Ends a file. It fails if a file is begun by [`Sink::file`], if one with the same path was ended since this one
    /// was begun, or if memory runs out. The file is then lost.
    fn end_file(&mut self, file: &mut MemSinkFile) -> Result<(), Failed> {
        let added = match file.take() {
            Some(begun) if self.begun.is_none() => self.ended.add(begun.path, begun.octets),
            _ => Err(AddFault::Twice),
        };
        file.counted(added)
    }

    fn close(&mut self, _file: MemSinkFile) {
        self.failures.lower();
    }

    /// Does nothing, since what failed isn't kept.
    fn fail(&mut self, _file: MemSinkFile) {}

    fn give_up(&mut self, _file: MemSinkFile, _first: &MemSinkFile) {
        self.failures.lower();
    }

    fn give_up_unread<T: OpenTree>(&mut self, _file: MemSinkFile, _tree: &T, _first: &T::File) {
        self.failures.lower();
    }
}
