//! A keeper in memory of which one call fails, or gives something else than it holds.
use crate::breaker::{Breaker, Device};
use bag_digest::{Failures, Source};
use bag_ledger::{KeepFault, Keeper, MapKeeper, PutFault, StoreFault};
use bag_path::BagPath;
use bag_rules::{ItemSize, TagSet, Want};
use std::alloc::Global;

/// A store that fails at one of the calls that a breaker counts, and from then on.
#[derive(Drop)]
pub struct Failing<'a> {
    breaker: &'a Breaker,
    pub is_spent: bool,
    pub failures: Failures,
}

impl<'a> Failing<'a> {
    ghost use Rattle.std.specs.Prelude.{◌≡◌, ◌↔◌, IsTrue, MatchResult, false};
    ghost use Rattle.bag_digest.specs.Failures.{Rises};
    ghost use Rattle.bag_ledger.specs.declared.keeper_faults.StoreFault.TheVariants.{Spent};

    /// A store that hasn't failed.
    pub fn new(breaker: &'a Breaker) -> Failing<'a> {
        Failing {
            breaker,
            is_spent: false,
            failures: Failures::none(),
        }
    }

    /// Counts a call, which succeeds or fails.
    pub fn take(&mut self) -> Result<(), StoreFault>
        ensures { MatchResult result
            (λ done. (self.old.is_spent ≡ false) × (self.new.is_spent ≡ false)
            × (self.new.failures ≡ self.old.failures))
            (λ fault. IsTrue self.new.is_spent × Rises self.old.failures self.new.failures
            × ((fault ≡ Spent) ↔ IsTrue self.old.is_spent)) }
    {
        if !self.is_spent && !self.breaker.breaks(Device::Keeper) {
            return Ok(());
        }
        Err(self.refuse())
    }

    /// Counts a read of a piece, which succeeds or fails.
    fn take_piece(&mut self) -> Result<(), StoreFault>
        ensures { MatchResult result
            (λ done. (self.old.is_spent ≡ false) × (self.new.is_spent ≡ false)
            × (self.new.failures ≡ self.old.failures))
            (λ fault. IsTrue self.new.is_spent × Rises self.old.failures self.new.failures
            × ((fault ≡ Spent) ↔ IsTrue self.old.is_spent)) }
    {
        if self.breaker.breaks(Device::Reading) {
            return Err(self.refuse());
        }
        self.take()
    }

    /// The answer to a call that fails.
    pub fn refuse(&mut self) -> StoreFault
        ensures { IsTrue self.new.is_spent × Rises self.old.failures self.new.failures
            × ((result ≡ Spent) ↔ IsTrue self.old.is_spent) }
    {
        let fault = if self.is_spent {
            StoreFault::Spent
        } else {
            StoreFault::Refused
        };
        self.is_spent = true;
        self.failures.add();
        fault
    }
}

/// A keeper in memory whose store fails, or once gives something else than it holds: no tag files of which a plan can
/// be made, or no octets of a payload file. Nothing is claimed about what it holds.
#[derive(Drop)]
pub struct BreakingKeeper<'a> {
    inside: MapKeeper,
    store: Failing<'a>,
}

impl<'a> BreakingKeeper<'a> {
    pub fn new(inside: MapKeeper, breaker: &'a Breaker) -> BreakingKeeper<'a> {
        BreakingKeeper {
            inside,
            store: Failing::new(breaker),
        }
    }

    pub fn into_inside(self) -> MapKeeper {
        self.inside
    }
}

impl Keeper for BreakingKeeper<'_> {
    ghost use Rattle.std.specs.Prelude.{IsTrue};

    ghost holds = { λ _ _. ⊥ };

    ghost may_leave = { λ _ _. ⊥ };

    ghost clean = { λ _. ⊥ };

    ghost spent = { λ keeper. IsTrue keeper.store.is_spent };

    ghost failures = { λ keeper. keeper.store.failures };

    fn begin(&mut self, alloc: Global, name: &str, tags: &TagSet) -> Result<(), KeepFault> {
        match self.store.take() {
            Ok(()) => self.inside.begin(alloc, name, tags),
            Err(fault) => Err(KeepFault::Store(fault)),
        }
    }

    fn tags(&mut self, alloc: Global, name: &str) -> Result<Option<TagSet>, KeepFault> {
        match self.store.take() {
            Ok(()) if self.store.breaker.breaks(Device::Tags) => Ok(Some(TagSet::new(alloc))),
            Ok(()) => self.inside.tags(alloc, name),
            Err(fault) => Err(KeepFault::Store(fault)),
        }
    }

    fn size_of(
        &mut self,
        alloc: Global,
        name: &str,
        path: &BagPath,
    ) -> Result<Option<u64>, KeepFault> {
        match self.store.take() {
            Ok(()) => self.inside.size_of(alloc, name, path),
            Err(fault) => Err(KeepFault::Store(fault)),
        }
    }

    fn sizes(&mut self, alloc: Global, name: &str) -> Result<Vec<ItemSize>, KeepFault> {
        match self.store.take() {
            Ok(()) => self.inside.sizes(alloc, name),
            Err(fault) => Err(KeepFault::Store(fault)),
        }
    }

    fn put(
        &mut self,
        alloc: Global,
        name: &str,
        want: &Want<'_>,
        content: &[u8],
    ) -> Result<(), PutFault> {
        match self.store.take() {
            Ok(()) => self.inside.put(alloc, name, want, content),
            Err(fault) => Err(PutFault::Keep(KeepFault::Store(fault))),
        }
    }

    fn put_from<S: Source>(
        &mut self,
        alloc: Global,
        name: &str,
        want: &Want<'_>,
        reader: &mut S,
    ) -> Result<(), PutFault> {
        match self.store.take() {
            Ok(()) => self.inside.put_from(alloc, name, want, reader),
            Err(fault) => Err(PutFault::Keep(KeepFault::Store(fault))),
        }
    }

    fn read_piece(
        &mut self,
        alloc: Global,
        name: &str,
        path: &BagPath,
        offset: u64,
        buf: &mut [u8],
    ) -> Result<usize, KeepFault> {
        match self.store.take_piece() {
            Ok(()) if self.store.breaker.breaks(Device::Piece) => Ok(0),
            Ok(()) => self.inside.read_piece(alloc, name, path, offset, buf),
            Err(fault) => Err(KeepFault::Store(fault)),
        }
    }

    fn names(&mut self, alloc: Global) -> Result<Vec<String>, KeepFault> {
        match self.store.take() {
            Ok(()) => self.inside.names(alloc),
            Err(fault) => Err(KeepFault::Store(fault)),
        }
    }

    fn blame(&mut self) -> KeepFault {
        KeepFault::Store(self.store.refuse())
    }

    fn failures(&self) -> u64 {
        self.store.failures.count()
    }

    ghost sound = { λ _ _ never _. absurd never };
}
