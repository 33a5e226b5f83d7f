//! Short contents, whose digests are taken together.
ghost use Rattle.std.specs.Prelude.{◌≡◌, [], IfOk, IsErr, OnOk, length, vec_len};

use crate::algorithm::AlgSet;
use crate::side_by_side::sums_of_each;
use crate::sums::Sums;
use std::alloc::{AllocError, Global};

/// Short contents that were read one after another, with what is known of each, such as its path. They are held until
/// their digests are taken, side by side.
///
/// Whoever adds them sees to it that they are few and short.
#[derive(Drop)]
pub struct ShortContents<K> {
    known: Vec<K>,
    contents: Vec<Vec<u8>>,
    set: AlgSet,
    ghost paired: { vec_len known ≡ vec_len contents },
}

impl<K: Drop> ShortContents<K> {
    ghost use Rattle.bag_digest.specs.ShortContents.{AddsContent, AreSumsOfEach, HoldsSame, IsEmpty, WantsAlso};

    /// No content. Digests will be taken by the algorithms of the set.
    pub fn new(alloc: Global, set: AlgSet) -> ShortContents<K>
        ensures { IsEmpty set result }
    {
        ShortContents {
            known: Vec::new(alloc),
            contents: Vec::new(alloc),
            set,
        }
    }

    /// How many contents are held.
    pub fn count(&self) -> usize
        ensures { result ≡ length self.now.contents.items }
    {
        self.contents.len()
    }

    /// What is known of each content, in their order.
    pub fn known(&self) -> &[K]
        ensures { result.now ≡ self.now.known.items }
    {
        self.known.as_slice()
    }

    /// What is known of each content, in their order.
    pub fn into_known(self) -> Vec<K>
        ensures { result ≡ self.known }
    {
        let ShortContents {
            known,
            contents: _,
            set: _,
        } = self;
        known
    }

    /// Digests of all contents will be taken by the algorithms of this set, too.
    pub fn want(&mut self, set: AlgSet)
        ensures { WantsAlso set self.old self.new }
    {
        self.set = self.set.union(set);
    }

    /// Adds a content, of which this is known.
    ///
    /// # Errors
    ///
    /// `AllocError` if memory runs out.
    pub fn add(&mut self, known: K, content: Vec<u8>) -> Result<(), AllocError>
        ensures added { OnOk result (AddsContent known content self.old self.new) }
        ensures kept { IsErr result → HoldsSame self.old self.new }
    {
        self.contents.push(content)?;
        match self.known.push(known) {
            Ok(()) => Ok(()),
            Err(_) => {
                self.contents.pop();
                Err(AllocError)
            }
        }
    }

    /// The length of each content and its digests, in their order.
    ///
    /// # Errors
    ///
    /// `AllocError` if memory runs out.
    pub fn sums(&self, alloc: Global) -> Result<Vec<Sums>, AllocError>
        ensures { IfOk result (λ each.
            AreSumsOfEach self.now.set self.now.contents.items each.items) }
    {
        sums_of_each(alloc, self.set, self.contents.as_slice())
    }
}
