//! Whether a store has failed, why, and how many failures were reported.
ghost use Rattle.std.specs.Prelude.{◌≡◌, ◌≢◌, ◌↔◌, Err, IfErr, IsErr, IsErrOf, IsTrue, MatchResult, None, Ok, OnOk, Some, false};
ghost use Rattle.bag_digest.specs.Failures.{Rises};
ghost use Rattle.bag_ledger.specs.Keeping.{UsesStore};
ghost use Rattle.bag_ledger.specs.declared.keeper_faults.KeepFault.{KeepFault};
ghost use Rattle.bag_ledger.specs.declared.keeper_faults.KeepFault.TheVariants.{Memory, Store};
ghost use Rattle.bag_ledger.specs.declared.keeper_faults.PutFault.TheVariants.{Keep};
ghost use Rattle.bag_ledger.specs.declared.keeper_faults.StoreFault.TheVariants.{Spent};
ghost use Rattle.bag_sqlite.specs.Contents.{IsRemembered, answer_of, put_fault_of};
ghost use Rattle.bag_sqlite.specs.declared.health.Health.{Health};
ghost use Rattle.sqlite.specs.declared.error.Error.{Error as SqlError};

use crate::putting::NotPut;
use bag_digest::{Failures, ReadFault};
use bag_ledger::{KeepFault, PutFault, StoreFault};
use sqlite::{Error, ErrorCode};

/// Whether the store has failed, why, and how many failures were reported.
#[derive(Drop)]
pub(crate) struct Health {
    is_spent: bool,
    failures: Failures,
    // the error of the store, if it has failed with one
    trouble: Option<Error>,
}

impl Health {
    /// The health of a store that hasn't failed.
    pub(crate) fn new() -> Health
        ensures unspent { result.is_spent ≡ false }
        ensures unfailed { result.failures ≡ 0 }
        ensures untroubled { result.trouble ≡ None }
    {
        Health {
            is_spent: false,
            failures: Failures::none(),
            trouble: None,
        }
    }

    /// Refuses the call if the store has failed before.
    pub(crate) fn test(&mut self) -> Result<(), KeepFault>
        ensures well { OnOk result ((self.old.is_spent ≡ false) × (self.new ≡ self.old)) }
        ensures store { UsesStore (λ (health : Health). health.failures)
            (λ (health : Health). IsTrue health.is_spent) self.old self.new
            (λ fault. IsErrOf result (Store fault)) }
        ensures spent { IsErr result → IsErrOf result (Store Spent) }
        ensures trouble { self.new.trouble ≡ self.old.trouble }
    {
        if !self.is_spent {
            return Ok(());
        }
        Err(KeepFault::Store(self.fail()))
    }

    /// The keeper's answer where its store gave this result.
    pub(crate) fn answer<T: Drop>(&mut self, stored: Result<T, Error>) -> Result<T, KeepFault>
        requires { self.old.is_spent ≡ false }
        ensures told { MatchResult result (λ value. stored ≡ Ok value)
            (λ fault. (error : SqlError) × (stored ≡ Err error)
            × ((fault ≡ Memory) ↔ (error ≡ Error.SqliteFailure ErrorCode.OutOfMemory))) }
        ensures trouble { IfErr result (λ fault. fault ≢ Memory
            → (error : SqlError) × (stored ≡ Err error) × (self.new.trouble ≡ Some error)) }
        ensures memory { IsErrOf result Memory → self.new ≡ self.old }
        ensures store { UsesStore (λ (health : Health). health.failures)
            (λ (health : Health). IsTrue health.is_spent) self.old self.new
            (λ fault. IsErrOf result (Store fault)) }
    {
        match stored {
            Ok(value) => Ok(value),
            Err(error) => Err(self.told(&error)),
        }
    }

    /// The keeper's answer where this came of a payload file.
    pub(crate) fn put_answer(&mut self, put: Result<(), NotPut>) -> Result<(), PutFault>
        requires { self.old.is_spent ≡ false }
        ensures told { (fault : KeepFault) × (result ≡ answer_of fault put) }
        ensures memory { IsErrOf result (Keep Memory)
            ↔ IsErrOf put (NotPut.Store (Error.SqliteFailure ErrorCode.OutOfMemory)) }
        ensures trouble { MatchResult put (λ done. self.new.trouble ≡ self.old.trouble)
            (IsRemembered self.old.trouble self.new.trouble) }
        ensures store { UsesStore (λ (health : Health). health.failures)
            (λ (health : Health). IsTrue health.is_spent) self.old self.new
            (λ fault. IsErrOf result (Keep (Store fault))) }
    {
        match put {
            Ok(()) => Ok(()),
            Err(refusal) => Err(self.told_of(&refusal)),
        }
    }

    /// The fault to report for an error of the store. Every error except out of memory counts as a failure of the
    /// store.
    fn told(&mut self, error: &Error) -> KeepFault
        requires { self.old.is_spent ≡ false }
        ensures memory { (result ≡ Memory)
            ↔ (error.now ≡ Error.SqliteFailure ErrorCode.OutOfMemory) }
        ensures store { UsesStore (λ (health : Health). health.failures)
            (λ (health : Health). IsTrue health.is_spent) self.old self.new
            (λ fault. result ≡ Store fault) }
        ensures trouble { result ≢ Memory → self.new.trouble ≡ Some error.now }
        ensures kept { result ≡ Memory → self.new ≡ self.old }
    {
        if matches!(error, Error::SqliteFailure(ErrorCode::OutOfMemory)) {
            return KeepFault::Memory;
        }
        let fault = self.fail();
        self.trouble = Some(*error);
        KeepFault::Store(fault)
    }

    /// Counts a failure of the store, and returns it.
    pub(crate) fn fail(&mut self) -> StoreFault
        ensures failed { IsTrue self.new.is_spent × Rises self.old.failures self.new.failures
            × ((result ≡ Spent) ↔ IsTrue self.old.is_spent) }
        ensures trouble { self.new.trouble ≡ self.old.trouble }
    {
        let fault = if self.is_spent {
            StoreFault::Spent
        } else {
            StoreFault::Refused
        };
        self.is_spent = true;
        self.failures.add();
        fault
    }

    /// The fault to report for a payload file that isn't stored.
    fn told_of(&mut self, refusal: &NotPut) -> PutFault
        requires { self.old.is_spent ≡ false }
        ensures told { (fault : KeepFault) × (result ≡ put_fault_of fault refusal.now) }
        ensures memory { (result ≡ Keep Memory)
            ↔ (refusal.now ≡ NotPut.Store (Error.SqliteFailure ErrorCode.OutOfMemory)) }
        ensures trouble { IsRemembered self.old.trouble self.new.trouble refusal.now }
        ensures store { UsesStore (λ (health : Health). health.failures)
            (λ (health : Health). IsTrue health.is_spent) self.old self.new
            (λ fault. result ≡ Keep (Store fault)) }
    {
        match refusal {
            NotPut::Source(fault) => PutFault::from(ReadFault::from(*fault)),
            NotPut::Misfit(fault) => PutFault::from(*fault),
            NotPut::Store(error) => PutFault::Keep(self.told(error)),
        }
    }

    /// The error of the store, if it has failed with one.
    pub(crate) fn trouble(&self) -> Option<Error>
        ensures { result ≡ self.now.trouble }
    {
        self.trouble
    }

    /// How many failures were reported.
    pub(crate) fn failures(&self) -> u64
        ensures { result ≡ self.now.failures }
    {
        self.failures.count()
    }
}
