//! Payload files that are read one after another, so that their digests can be taken side by side.
ghost use Rattle.std.specs.Prelude.{◌≡◌, ◌<◌, ◌≤◌, ◌++◌, ◌∷◌, [], All, IfOk, MatchOption, OnOk, false, length, string_bytes};
ghost use Rattle.bag_digest.specs.declared.buffers.TheConstants.{PIECE};
ghost use Rattle.bag_sqlite.specs.declared.short_items.TheConstants.{MOST_SHORT};

use bag_digest::{AlgSet, ShortContents};
use bag_rules::Want;
use std::alloc::{AllocError, Global};

/// How many files a batch has at most. Each has at most one piece, so no more than 4 MiB are held.
const MOST_SHORT: usize = 64;

/// Payload files that were read, in order, and haven't been tested yet.
#[derive(Drop)]
pub(crate) struct ShortItems<'a> {
    /// The content of each file, and what it has to be. The algorithms are those by which the paths are listed.
    held: ShortContents<Want<'a>>,
    ghost few: { length held.contents.items ≤ MOST_SHORT },
    ghost small: { All (λ content. length content.items ≤ PIECE) held.contents.items },
}

impl<'a> ShortItems<'a> {
    ghost use Rattle.bag_sqlite.specs.ShortItems.{AreCovered, AreWanted, HasMisfit, HasOneMore, IsEmpty};

    /// No file.
    pub(crate) fn none(alloc: Global) -> ShortItems<'a>
        ensures { IsEmpty result }
    {
        ShortItems {
            held: ShortContents::new(alloc, AlgSet::empty()),
        }
    }

    /// Whether it has as many files as it may have.
    pub(crate) fn is_full(&self) -> bool
        ensures { result ≡ false → length self.now.held.contents.items < MOST_SHORT }
    {
        self.held.count() >= MOST_SHORT
    }

    /// The same files and one more.
    pub(crate) fn add(self, want: Want<'a>, content: Vec<u8>) -> Result<ShortItems<'a>, AllocError>
        requires room { length self.held.contents.items < MOST_SHORT }
        requires small { length content.items ≤ PIECE }
        ensures { IfOk result (HasOneMore want.entry content self.entry) }
    {
        let ShortItems { mut held } = self;
        held.want(want.algs());
        held.add(want, content)?;
        Ok(ShortItems { held })
    }

    /// The path of the first file whose content isn't the one that is wanted, if there is one.
    pub(crate) fn first_damaged(&self, alloc: Global) -> Result<Option<String>, AllocError>
        ensures { AreCovered self.now → IfOk result (λ path. MatchOption path
            (AreWanted self.now.held.known.items self.now.held.contents.items) (λ path.
            HasMisfit self.now.held.known.items self.now.held.contents.items (string_bytes path))) }
    {
        let each = self.held.sums(alloc)?;
        let wants = self.held.known();
        for i in 0..wants.len() {
            let want = wants[i];
            let sums = each[i];
            match want.test(&sums) {
                Ok(()) => {}
                Err(_) => return Ok(Some(String::from_str(alloc, want.path().as_str())?)),
            }
        }
        Ok(None)
    }
}
