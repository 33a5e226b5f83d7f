//! Open files of a tree in memory.
ghost use Rattle.std.specs.Prelude.{◌≡◌, Some, drop, refl, true};
ghost use Rattle.std.proofs.Common.{◌∙◌};

use crate::mem_tree::copy_from;
use crate::open_tree::OpenFile;
use bag_digest::{Failed, Source};

/// An open file of a tree in memory: a copy of its octets, which are known. Its reads don't fail.
#[derive(Drop)]
pub struct MemFile {
    place: usize,
    body: Vec<u8>,
    at: usize,
}

impl MemFile {
    /// The file at this place, with these octets. Nothing of it was read.
    pub(crate) fn new(place: usize, body: Vec<u8>) -> MemFile
        ensures { result ≡ record { place = place; body = body; at = 0 } }
    {
        MemFile { place, body, at: 0 }
    }
}

impl Source for MemFile {
    ghost remaining = { λ file. Some (drop file.at file.body.items) };

    ghost failures = { λ _. 0 };

    ghost ready = { λ _. Unit {0} };

    ghost is_open = { λ _. true };

    ghost keeps = { λ old new. new.place ≡ old.place };

    /// Reads on.
    fn read(&mut self, buf: &mut [u8]) -> Result<usize, Failed> {
        let n = copy_from(&self.body, self.at, buf);
        self.at += n;
        Ok(n)
    }

    fn failures(&self) -> u64 {
        0
    }

    ghost keeps_itself = { λ _. refl };

    ghost keeps_on = { λ _ _ _ p q. q ∙ p };
}

impl OpenFile for MemFile {
    ghost place = { λ file. file.place };

    fn place(&self) -> usize {
        self.place
    }

    ghost reads_keep_place = { λ _ _ same. same };
}
