//! A content while it is read.
ghost use Rattle.std.specs.Prelude.{◌≡◌, ◌+◌, ℕ, [], OnErr, OnOk, length};

use crate::algorithm::AlgSet;
use crate::buffers::PIECE;
use crate::multi::Multi;
use std::alloc::{AllocError, Global};

/// What was read of a content so far.
#[derive(Drop)]
pub enum Content {
    /// Its octets, if it has at most one piece.
    Whole(Vec<u8>),
    /// Otherwise the hashers that took them.
    Hashed(Multi),
}

impl Content {
    ghost use Rattle.bag_digest.specs.ShortContents.{IsHeld, TakesNothing, Took, TakesAlso};

    /// Nothing yet of a content of this size in octets, which is to be hashed by the algorithms of the set.
    pub fn none(alloc: Global, size: u64, set: AlgSet) -> Content
        ensures taken { Took result set [] }
        ensures held { IsHeld result size 0 }
    {
        if size <= PIECE as u64 {
            return Content::Whole(Vec::new(alloc));
        }
        Content::Hashed(Multi::new(set))
    }

    /// Takes the next piece, which follows the earlier ones.
    ///
    /// # Errors
    ///
    /// `AllocError` if memory for a short content runs out. Nothing of the piece is taken then.
    pub fn take(&mut self, piece: &[u8]) -> Result<(), AllocError>
        ensures taken { OnOk result (TakesAlso self.old self.new piece.now) }
        ensures held { OnOk result ((size taken : ℕ) → IsHeld self.old size taken
            → IsHeld self.new size (taken + length piece.now)) }
        ensures unchanged { OnErr result (TakesNothing self.old self.new) }
    {
        match self {
            Content::Whole(octets) => octets.extend_from_slice(piece)?,
            Content::Hashed(multi) => multi.update(piece),
        }
        Ok(())
    }
}
