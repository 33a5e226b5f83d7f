//! Counts the failures of a folder, and keeps what couldn't be used the last time.
ghost use Rattle.std.specs.Prelude.{◌≡◌, ◌-◌, IfOk, IsErr, IsTrue, MatchOption, MatchResult, None, Some};
ghost use Rattle.bag_digest.specs.Failures.{IsRaised};
ghost use Rattle.bag_folder.specs.Unfits.{CountsTrouble};

use crate::fault::{Cause, Unfit};
use bag_digest::{Failed, Failures};
use std::alloc::{AllocError, Global};
use std::marker::Model;

/// How many times a folder has failed, and what couldn't be used the last time.
#[derive(Drop)]
pub struct Troubles {
    failures: Failures,
    // what couldn't be used the last time, if it is told; the capacity of its path is enough for all names
    last: Unfit,
    is_told: bool,
}

impl Model for Troubles {
    ghost use Rattle.std.specs.Prelude.{None, Some, if◌then◌else◌};
    ghost use Rattle.bag_folder.specs.Unfits.{TroublesShown};

    ghost Value = { TroublesShown };

    ghost view = { λ troubles. record {
      failures = troubles.failures;
      last = if troubles.is_told then Some troubles.last else None;
    } };
}

impl Troubles {
    /// Those of a folder that hasn't failed yet. No name in it is longer than `longest`.
    pub fn none(alloc: Global, longest: usize) -> Result<Troubles, AllocError>
        ensures { IfOk result (λ troubles. troubles ≡ record { failures = 0; last = None }) }
    {
        let path = String::with_capacity(alloc, longest)?;
        Ok(Troubles {
            failures: Failures::none(),
            last: Unfit {
                path,
                cause: Cause::NoName,
            },
            is_told: false,
        })
    }

    /// Counts the result of one call if it is an error, and returns it without the error's cause. If there is a cause,
    /// keeps it with this name. Allocates no memory.
    ///
    /// # Errors
    ///
    /// `Failed` if the call returned an error.
    pub fn counted<A>(&mut self, name: &str, answer: Result<A, Option<Cause>>) -> Result<A, Failed>
        ensures answer { MatchResult answer (λ value. result ≡ Ok value) (λ _. IsErr result) }
        ensures counted { CountsTrouble answer name.now self.old self.new }
    {
        match answer {
            Ok(value) => Ok(value),
            Err(cause) => {
                self.is_told = match cause {
                    Some(cause) => overwritten(&mut self.last, name, cause),
                    None => false,
                };
                self.failures.counted(Err(Failed))
            }
        }
    }

    /// Counts one failure more, which [`Troubles::lower`] can take back.
    ///
    /// # Errors
    ///
    /// `AllocError`, as if memory had run out, if the count is at its maximum. It is then unchanged.
    pub fn raise(&mut self) -> Result<(), AllocError>
        ensures counted { MatchResult result
            (λ _. IsRaised self.old.failures self.new.failures)
            (λ _. self.new.failures ≡ self.old.failures) }
        ensures told { self.new.last ≡ self.old.last }
    {
        self.failures.raise()
    }

    /// Counts one failure less. A count of 0 stays.
    pub fn lower(&mut self)
        ensures { self.new ≡ record self.old { failures = self.old.failures - 1 } }
    {
        self.failures.lower();
    }

    /// Keeps what couldn't be used at a failure that is counted already. Allocates no memory.
    pub fn tell(&mut self, last: Option<Unfit>)
        ensures { self.new ≡ record self.old { last = last } }
    {
        match last {
            Some(last) => {
                self.last = last;
                self.is_told = true;
            }
            None => self.is_told = false,
        }
    }

    /// The number of failures.
    pub fn failures(&self) -> u64
        ensures { result ≡ self.now.failures }
    {
        self.failures.count()
    }

    /// What couldn't be used at the last failure, unless that had another cause than the folder: that memory ran out,
    /// or that a call wasn't allowed then.
    pub fn last(&self) -> Option<&Unfit>
        ensures { MatchOption result (self.now.last ≡ None)
            (λ unfit. self.now.last ≡ Some unfit.now) }
    {
        if self.is_told { Some(&self.last) } else { None }
    }

    /// The same, for good.
    pub fn into_last(self) -> Option<Unfit>
        ensures { result ≡ self.last }
    {
        if self.is_told { Some(self.last) } else { None }
    }
}

/// Whether what can't be used has now this path and this cause.
fn overwritten(unfit: &mut Unfit, path: &str, cause: Cause) -> bool
    ensures { IsTrue result → unfit.new ≡ record { path = path.now; cause = cause } }
{
    unfit.cause = cause;
    unfit.path.clear();
    unfit.path.push_str(path).is_ok()
}
