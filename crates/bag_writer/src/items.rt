//! The items of files that are read one after another. Short files are held, and their digests are taken side by side.
ghost use Rattle.std.specs.Prelude.{◌≡◌, ◌<◌, ◌≤◌, ◌++◌, ◌∷◌, [], ℕ, All, List, IfErr, IfOk, length};
ghost use Rattle.bag_digest.specs.declared.algorithm.AlgSet.{AlgSet};
ghost use Rattle.bag_rules.specs.Files.{Files};
ghost use Rattle.bag_writer.specs.declared.write_fault.WriteFault.{WriteFault};
ghost use Rattle.bag_digest.specs.declared.buffers.TheConstants.{FRONT};
ghost use Rattle.bag_writer.specs.declared.items.TheConstants.{MOST_HELD};

use crate::item::Item;
use crate::write_fault::WriteFault;
use bag_digest::{AlgSet, FRONT, ShortContents, SourceRead};
use bag_path::BagPath;
use std::alloc::Global;

/// How many files are held at most. None is longer than a front ([`FRONT`] octets), so no more than 4 MiB are held.
const MOST_HELD: usize = 32;

/// The items of files, in order. The last files may be held: their digests haven't been taken yet.
#[derive(Drop)]
pub(crate) struct Items {
    /// The algorithms of the digests.
    set: AlgSet,
    /// The items of the first files.
    ready: Vec<Item>,
    /// The octets of the files that are held, and their paths.
    held: ShortContents<BagPath>,
    ghost few: { length held.contents.items ≤ MOST_HELD },
    ghost small: { All (λ content. length content.items ≤ FRONT) held.contents.items },
}

impl Items {
    ghost use Rattle.bag_writer.specs.HeldFiles.{AddsFile, AreItemsSoFar};
    ghost use Rattle.bag_writer.specs.PayloadSteps.{IsFoundOf, IsInBuffer};
    ghost use Rattle.bag_writer.specs.Steps.{AreItemsOf, IsItemOf};

    /// No file yet. Digests are taken by the algorithms of the set.
    pub(crate) fn none(alloc: Global, set: AlgSet) -> Items
        ensures { AreItemsSoFar set result [] }
    {
        Items::of(alloc, set, Vec::new(alloc))
    }

    /// These items, with no file held.
    fn of(alloc: Global, set: AlgSet, ready: Vec<Item>) -> Items
        ensures all { (files : Files) → AreItemsOf set ready.items files
            → AreItemsSoFar set result files }
        ensures empty { result.held.contents.items ≡ [] }
    {
        Items {
            set,
            ready,
            held: ShortContents::new(alloc, set),
        }
    }

    /// Adds a file of which this was found. If that is all of it, its octets are at the front of the buffer.
    ///
    /// # Errors
    ///
    /// Here and below, the only error is that memory ran out.
    pub(crate) fn add(
        self,
        alloc: Global,
        path: BagPath,
        found: SourceRead,
        buffer: &[u8],
    ) -> Result<Items, WriteFault>
        requires room { length buffer.now ≤ FRONT }
        requires within { IsInBuffer buffer.now found }
        ensures added { (set : AlgSet) (octets : List ℕ) → IsFoundOf set buffer.now found octets
            → IfOk result (AddsFile set (path, octets) self) }
        ensures err { IfErr result (λ fault. fault ≡ WriteFault.Memory) }
    {
        match found {
            SourceRead::Whole(n) => self.hold(alloc, path, &buffer[..n]),
            SourceRead::Hashed(sums) => self.add_hashed(alloc, Item { path, sums }),
        }
    }

    /// Adds a file whose digests were taken. Those of the files before it are taken first.
    fn add_hashed(self, alloc: Global, item: Item) -> Result<Items, WriteFault>
        ensures added { (set : AlgSet) (octets : List ℕ) → IsItemOf set item item.path octets
            → IfOk result (AddsFile set (item.path, octets) self) }
        ensures err { IfErr result (λ fault. fault ≡ WriteFault.Memory) }
    {
        let set = self.set;
        let mut ready = self.finish(alloc)?;
        ready.push(item)?;
        Ok(Items::of(alloc, set, ready))
    }

    /// Adds a file with these octets, which is held.
    fn hold(self, alloc: Global, path: BagPath, octets: &[u8]) -> Result<Items, WriteFault>
        requires { length octets.now ≤ FRONT }
        ensures held { (set : AlgSet) → IfOk result (AddsFile set (path, octets.now) self) }
        ensures err { IfErr result (λ fault. fault ≡ WriteFault.Memory) }
    {
        let items = self.with_room(alloc)?;
        items.with_held(alloc, path, octets)
    }

    /// The same files. If as many were held as may be, none is any more: their digests are taken.
    fn with_room(self, alloc: Global) -> Result<Items, WriteFault>
        ensures same { (set : AlgSet) (files : Files) → AreItemsSoFar set self files
            → IfOk result (λ items. AreItemsSoFar set items files) }
        ensures room { IfOk result (λ items. length items.held.contents.items < MOST_HELD) }
        ensures err { IfErr result (λ fault. fault ≡ WriteFault.Memory) }
    {
        if self.held.count() < MOST_HELD {
            return Ok(self);
        }
        let set = self.set;
        Ok(Items::of(alloc, set, self.finish(alloc)?))
    }

    /// Holds one more file, with these octets.
    fn with_held(self, alloc: Global, path: BagPath, octets: &[u8]) -> Result<Items, WriteFault>
        requires room { length self.held.contents.items < MOST_HELD }
        requires small { length octets.now ≤ FRONT }
        ensures held { (set : AlgSet) → IfOk result (AddsFile set (path, octets.now) self) }
        ensures err { IfErr result (λ fault. fault ≡ WriteFault.Memory) }
    {
        let Items {
            set,
            ready,
            mut held,
        } = self;
        let mut content = Vec::new(alloc);
        content.extend_from_slice(octets)?;
        held.add(path, content)?;
        Ok(Items { set, ready, held })
    }

    /// The items of all files. The digests of those that are held are taken first, side by side.
    pub(crate) fn finish(self, alloc: Global) -> Result<Vec<Item>, WriteFault>
        ensures all { (set : AlgSet) (files : Files) → AreItemsSoFar set self files
            → IfOk result (λ items. AreItemsOf set items.items files) }
        ensures err { IfErr result (λ fault. fault ≡ WriteFault.Memory) }
    {
        let Items {
            set: _,
            ready,
            held,
        } = self;
        let sums = held.sums(alloc)?;
        let mut items = ready;
        let mut place = 0;
        for path in held.into_known() {
            items.push(Item {
                path,
                sums: sums[place],
            })?;
            place += 1;
        }
        Ok(items)
    }
}
