//! Sets of tag files, with which transfers are opened.

use crate::file::{File, body_of, search};
use crate::limits::LARGEST_TAG_FILE;
use crate::tree::Paths;
use bag_path::{BagPath, PathFault};
use std::alloc::{AllocError, Global};
use std::marker::Model;
use thiserror::Error;

/// Why a tag file wasn't added. If several causes apply, the first in this order is returned, but `Memory` may be
/// returned in place of any other.
#[derive(Clone, Copy, Debug, PartialEq, Eq, Error)]
pub enum TagSetFault {
    /// The text isn't a path. If memory ran out, `Memory` below is returned and not this variant.
    #[error(transparent)]
    BadPath(PathFault),
    /// The path is that of a payload file.
    #[error("the path is that of a payload file")]
    Payload,
    /// A file with this path already exists.
    #[error("a file with this path is there already")]
    Twice,
    /// The file has more than [`LARGEST_TAG_FILE`] octets.
    #[error("the file has more than 16,777,216 octets")]
    TooLarge,
    /// Memory ran out.
    #[error("out of memory")]
    Memory,
}

/// The tag files that a transfer is opened with, by path. None has a payload path, and none has more than 16,777,216
/// octets.
#[derive(Drop)]
pub struct TagSet {
    files: Vec<File>,
}

impl Model for TagSet {
    ghost use Rattle.bag_rules.specs.Files.{AreTagFiles, Files, files_of};

    ghost Value = { Files };

    ghost view = { λ set. files_of set.files.items };

    ghost invariant = { λ set. AreTagFiles (files_of set.files.items) };
}

impl TagSet {
    ghost use Rattle.std.specs.Prelude.{◌≡◌, ◌≢◌, ◌↔◌, [], IsTrue, MatchResult, OnErr, OnOk};
    ghost use Rattle.std.specs.BTreeMap.{insert_entry};
    ghost use Rattle.std.specs.Cmp.Lexicographic.{slice_cmp};
    ghost use Rattle.std.specs.Map.{lookup};
    ghost use Rattle.std.specs.Option.{option_copied};
    ghost use Rattle.std.specs.Ordering.{nat_cmp};
    ghost use Rattle.std.specs.Str.{bytes_eq};
    ghost use Rattle.bag_rules.specs.declared.tag_set.TagSetFault.{TagSetFault};
    ghost use Rattle.bag_rules.specs.Files.{AreTagFiles, files_of};
    ghost use Rattle.bag_rules.specs.TagSets.{RefusesFile};

    /// A set without tag files.
    pub fn new(alloc: Global) -> TagSet
        ensures { result ≡ [] }
    {
        TagSet {
            files: Vec::new(alloc),
        }
    }

    /// Parses the path, and inserts a tag file with it.
    ///
    /// # Errors
    ///
    /// The first fault in the order of [`TagSetFault`], or `Memory` if memory runs out. The set is then unchanged.
    pub fn add(&mut self, path: &str, body: Vec<u8>) -> Result<(), TagSetFault>
        ensures added { OnOk result
            (self.new ≡ insert_entry (slice_cmp nat_cmp) self.old path.now body.items) }
        ensures unchanged { OnErr result (self.new ≡ self.old) }
        ensures fault { MatchResult result
            (λ _. (fault : TagSetFault) → fault ≢ TagSetFault.Memory
            → ¬ RefusesFile self.old path.now body.items fault)
            (RefusesFile self.old path.now body.items) }
    {
        match BagPath::parse(*self.files.allocator(), path) {
            Ok(path) => self.insert(path, body),
            Err(PathFault::Memory) => Err(TagSetFault::Memory),
            Err(fault) => Err(TagSetFault::BadPath(fault)),
        }
    }

    /// Inserts a tag file at its place in the order of the paths.
    ///
    /// # Errors
    ///
    /// Those of [`TagSet::add`], but for `BadPath`. The set is then unchanged.
    pub fn insert(&mut self, path: BagPath, body: Vec<u8>) -> Result<(), TagSetFault>
        ensures added { OnOk result
            (self.new ≡ insert_entry (slice_cmp nat_cmp) self.old path body.items) }
        ensures unchanged { OnErr result (self.new ≡ self.old) }
        ensures fault { MatchResult result
            (λ _. (fault : TagSetFault) → fault ≢ TagSetFault.Memory
            → ¬ RefusesFile self.old path body.items fault)
            (RefusesFile self.old path body.items) }
    {
        let text = path.as_str();
        if path.is_payload() {
            return Err(TagSetFault::Payload);
        }
        let Err(place) = search(&self.files, text) else {
            return Err(TagSetFault::Twice);
        };
        if body.len() as u64 > LARGEST_TAG_FILE {
            return Err(TagSetFault::TooLarge);
        }
        let Ok(()) = self.files.insert(place, File { path, body }) else {
            return Err(TagSetFault::Memory);
        };
        Ok(())
    }

    /// The octets of the tag file with this path, if there is one.
    pub fn get(&self, path: &str) -> Option<&[u8]>
        ensures { option_copied result ≡ lookup (bytes_eq path.now) self.now }
    {
        body_of(&self.files, path)
    }

    /// The tag files by path.
    pub fn files(&self) -> &[File]
        ensures files { files_of result.now ≡ self.now }
        ensures tags { AreTagFiles self.now }
    {
        self.files.as_slice()
    }

    /// Whether both sets have the same paths and octets.
    pub fn is_same(&self, other: &TagSet) -> bool
        ensures { IsTrue result ↔ (self.now ≡ other.now) }
    {
        self.files == other.files
    }
}

impl Clone for TagSet {
    ghost use Rattle.std.specs.Prelude.{◌≡◌};

    ghost is_clone = { λ set copy. copy ≡ set };

    fn clone(&self) -> Result<TagSet, AllocError> {
        let files = self.files.clone()?;
        Ok(TagSet { files })
    }
}

/// The paths of the tag files. The payload directory counts as there, since a transfer has one from its start.
impl Paths for TagSet {
    ghost use Rattle.bag_rules.specs.Bags.{shown_of};
    ghost use Rattle.bag_rules.specs.Transfers.{tag_bag};

    ghost shown = { λ set. shown_of (tag_bag set) };

    fn count(&self) -> usize {
        self.files.len()
    }

    fn path(&self, i: usize) -> &BagPath {
        &self.files[i].path
    }

    fn has_payload_dir(&self) -> bool {
        true
    }
}
