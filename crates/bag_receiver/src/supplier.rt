//! Suppliers of the payload files to be fetched.
ghost use Rattle.std.specs.Prelude.{◌≡◌, ◌+◌, ℕ, Option, true, Ok, IfOk};
ghost use Rattle.bag_digest.specs.Failures.{CountsFailure, one_more};
ghost use Rattle.bag_receiver.specs.Suppliers.{IsSupplied, Supply};

use bag_digest::{Failed, Source};

/// Supplies payload files on request, one after another. Reads give the content of the last one asked for, if the
/// supplier said that it has it; otherwise they fail.
///
/// What a folder or a connection has can't be known, so nothing is claimed about it: its `supply` is `None`.
pub trait Supplier: Source + Drop {
    /// What it has, if that is known.
    ghost supply: { Self → Option Supply };

    /// How many times it was asked.
    ghost asks: { Self → ℕ };

    /// Asks for the payload file with this url and this path. Returns `false` if the supplier doesn't have it.
    ///
    /// # Errors
    ///
    /// The supplier failed, and counted the failure.
    fn ask(&mut self, url: &str, path: &str) -> Result<bool, Failed>
        ensures supplied { IfOk result (λ has. IsSupplied (supply self.old) url.now path.now has
            (Self.remaining self.new)) }
        ensures same { supply self.new ≡ supply self.old }
        ensures open { Self.is_open self.new ≡ true → result ≡ Ok true }
        ensures counted { CountsFailure result (Self.failures self.old) (Self.failures self.new) }
        ensures asked { asks self.new ≡ one_more (asks self.old) };

    /// How many times it was asked. The count saturates at 2^64 - 1.
    fn asks(&self) -> u64
        ensures { result ≡ asks self.now };

    ghost keeps_supply: { (old new : Self) → Self.keeps old new → (supply new ≡ supply old)
        × (asks new ≡ asks old) };
}
