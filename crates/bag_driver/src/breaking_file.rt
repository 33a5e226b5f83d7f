//! Files in memory of which calls fail.
ghost use Rattle.std.specs.Prelude.{◌≡◌, ◌+◌, ◌&&◌, not, false, refl};
ghost use Rattle.std.proofs.Common.{inl};
ghost use Rattle.sqlite_disk.specs.Disk.{CountsFault};
ghost use Rattle.sqlite_disk.specs.Refusal.{finds_no_room};

use crate::breaker::{Breaker, Device};
use sqlite_disk::{Crash, Disk, Memory, Tally};
use std::alloc::Global;
use std::io;

/// A file in memory of which a call fails. It is a type without a parameter: what a call over its type has to meet is
/// proved sooner so.
#[derive(Drop)]
pub struct BreakingFile<'a> {
    inside: Memory,
    breaker: &'a Breaker,
    file: Device,
    refused: u64,
    sync_refused: bool,
}

impl<'a> BreakingFile<'a> {
    /// `file` says which one it is.
    fn new(inside: Memory, breaker: &'a Breaker, file: Device) -> Self {
        BreakingFile {
            inside,
            breaker,
            file,
            refused: 0,
            sync_refused: false,
        }
    }
}

/// Counts a call, which succeeds or fails.
fn spend(breaker: &Breaker, file: Device, refused: &mut u64) -> io::Result<()>
    ensures faults { CountsFault result refused.old refused.new }
    ensures kind { finds_no_room result ≡ false }
{
    if breaker.breaks_file(file) {
        *refused = refused.saturating_add(1);
        return Err(io::Error::other("a call fails"));
    }
    Ok(())
}

impl Disk for BreakingFile<'_> {
    ghost seen = { λ f. ⟦<Memory as Disk>⟧.seen f.inside };

    ghost may_leave = { λ f. ⟦<Memory as Disk>⟧.may_leave f.inside };

    ghost is_usable = { λ f. ⟦<Memory as Disk>⟧.is_usable f.inside && not f.sync_refused };

    ghost faults = { λ f. ⟦<Memory as Disk>⟧.faults f.inside + f.refused };

    ghost tally_of = { λ f. ⟦<Memory as Disk>⟧.tally_of f.inside };

    ghost is_rotten = { λ f. ⟦<Memory as Disk>⟧.is_rotten f.inside };

    ghost key_of = { λ f. ⟦<Memory as Disk>⟧.key_of f.inside };

    ghost is_clean = { λ f. ⟦<Memory as Disk>⟧.is_clean f.inside };

    ghost is_fair = { λ f. ⟦<Memory as Disk>⟧.is_fair f.inside };

    ghost fair_if_clean = { λ _ _ _. refl };

    ghost seen_may_stay = { λ _. inl refl };

    ghost is_mixing = { λ f. ⟦<Memory as Disk>⟧.is_mixing f.inside };

    fn mixes(&self) -> bool {
        self.inside.mixes()
    }

    fn key(&self) -> u64 {
        self.inside.key()
    }

    fn tally(&self) -> Tally {
        self.inside.tally()
    }

    fn may_be_used(&self) -> bool {
        self.inside.may_be_used() && !self.sync_refused
    }

    fn len(&mut self) -> io::Result<usize> {
        spend(self.breaker, self.file, &mut self.refused)?;
        self.inside.len()
    }

    fn read_at(&mut self, at: usize, buf: &mut [u8]) -> io::Result<()> {
        spend(self.breaker, self.file, &mut self.refused)?;
        self.inside.read_at(at, buf)
    }

    fn read_checked(&mut self, key: u64, want: u64, at: usize, buf: &mut [u8]) -> io::Result<()> {
        spend(self.breaker, self.file, &mut self.refused)?;
        self.inside.read_checked(key, want, at, buf)
    }

    fn write_at(&mut self, at: usize, bytes: &[u8]) -> io::Result<()> {
        spend(self.breaker, self.file, &mut self.refused)?;
        self.inside.write_at(at, bytes)
    }

    fn set_len(&mut self, len: usize) -> io::Result<()> {
        spend(self.breaker, self.file, &mut self.refused)?;
        self.inside.set_len(len)
    }

    fn sync(&mut self) -> io::Result<()> {
        if let Err(error) = spend(self.breaker, self.file, &mut self.refused) {
            self.sync_refused = true;
            return Err(error);
        }
        self.inside.sync()
    }
}

impl<'a> BreakingFile<'a> {
    /// A file that holds nothing.
    pub fn empty(alloc: Global, breaker: &'a Breaker, file: Device) -> BreakingFile<'a> {
        BreakingFile::new(Memory::new(alloc), breaker, file)
    }

    /// A file that holds these octets.
    ///
    /// # Errors
    ///
    /// Memory ran out.
    pub fn holding(
        alloc: Global,
        breaker: &'a Breaker,
        file: Device,
        octets: &[u8],
    ) -> io::Result<BreakingFile<'a>> {
        let mut inside = Memory::new(alloc);
        if !octets.is_empty() {
            inside.write_at(0, octets)?;
            inside.sync()?;
        }
        Ok(BreakingFile::new(inside, breaker, file))
    }

    /// The file after a stop. If it is cut, or can't be used, what no sync had reached is lost.
    pub fn restarted(self, is_cut: bool) -> BreakingFile<'a> {
        let BreakingFile {
            mut inside,
            breaker,
            file,
            refused: _,
            sync_refused: _,
        } = self;
        if is_cut || !inside.may_be_used() {
            inside.crash();
        }
        BreakingFile::new(inside, breaker, file)
    }

    /// What the file holds.
    pub fn octets(&self) -> &[u8] {
        self.inside.bytes()
    }
}
