//! Counts of failures.
ghost use Rattle.std.specs.Prelude.{◌≡◌, ◌-◌, IsErr, MatchResult, Ok};
ghost use Rattle.bag_digest.specs.Failures.{CountsFailure, IsRaised, Rises, greatest_count};

use crate::source::Failed;
use std::alloc::AllocError;
use std::marker::Model;

/// How often a device has failed. The count stops at its maximum, 2^64 - 1.
#[derive(Debug, Drop)]
pub struct Failures {
    count: u64,
}

impl Model for Failures {
    ghost use Rattle.std.specs.Prelude.{ℕ};

    ghost Value = { ℕ };

    ghost view = { λ failures. failures.count };
}

impl Failures {
    /// The count of a device that hasn't failed yet.
    pub fn none() -> Failures
        ensures { result ≡ 0 }
    {
        Failures { count: 0 }
    }

    /// The number of failures.
    pub fn count(&self) -> u64
        ensures { result ≡ self.now }
    {
        self.count
    }

    /// Counts the result of one call of the device if it is an error, and returns it without the error's reason.
    ///
    /// # Errors
    ///
    /// `Failed` if the call returned an error.
    pub fn counted<A, E: Drop>(&mut self, answer: Result<A, E>) -> Result<A, Failed>
        ensures answer { MatchResult answer (λ value. result ≡ Ok value) (λ _. IsErr result) }
        ensures counted { CountsFailure answer self.old self.new }
    {
        match answer {
            Ok(value) => Ok(value),
            Err(_) => {
                self.add();
                Err(Failed)
            }
        }
    }

    /// Counts one more.
    pub fn add(&mut self)
        ensures { Rises self.old self.new }
    {
        self.count = self.count.saturating_add(1);
    }

    /// Counts one more, which [`Failures::lower`] can take back.
    ///
    /// # Errors
    ///
    /// `AllocError`, as if memory had run out, if the count is at its maximum. It is then unchanged.
    pub fn raise(&mut self) -> Result<(), AllocError>
        ensures counted { MatchResult result (λ done. IsRaised self.old self.new)
            (λ error. self.new ≡ self.old) }
        ensures full { IsErr result → self.old ≡ greatest_count }
    {
        if self.count == u64::MAX {
            return Err(AllocError);
        }
        self.count += 1;
        Ok(())
    }

    /// Counts one less. A count of 0 stays.
    pub fn lower(&mut self)
        ensures { self.new ≡ self.old - 1 }
    {
        self.count = self.count.saturating_sub(1);
    }
}
