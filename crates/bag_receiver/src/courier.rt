//! Couriers, which deliver the payload files of a transfer.
ghost use Rattle.std.specs.Prelude.{◌≡◌, ℕ, List, Option, Some, true, IfOk, IsOk, is_some};
ghost use Rattle.bag_digest.specs.Failures.{CountsFailure, one_more};
ghost use Rattle.bag_rules.specs.Files.{Files};
ghost use Rattle.bag_receiver.specs.Couriers.{ComesNext, HasPath};

use bag_digest::{Failed, Source};
use bag_path::BagPath;

/// Delivers payload files one after another. Reads give the content of the current one.
///
/// What a folder or a connection will deliver can't be known, so nothing is claimed about it: its `coming` is `None`.
pub trait Courier: Source {
    /// The items still to come, if they are known: each path with its content.
    ghost coming: { Self → Option Files };

    /// The path of the current item, if there is one.
    ghost path: { Self → Option (List ℕ) };

    /// How many times `next` was called.
    ghost nexts: { Self → ℕ };

    /// `next` doesn't fail, even if reads do.
    ghost steady: { Self → Type 0 };

    /// Goes on to the next item, and skips what wasn't read of the current one. Returns `false` if none is left.
    ///
    /// # Errors
    ///
    /// The courier failed, and counted the failure.
    fn next(&mut self) -> Result<bool, Failed>
        ensures came { IfOk result (λ more. ComesNext (coming self.old) more (path self.new)
            (Self.remaining self.new) (coming self.new)) }
        ensures path { HasPath result (path self.new) (Self.is_open self.new) }
        ensures counted { CountsFailure result (Self.failures self.old) (Self.failures self.new) }
        ensures steady { steady self.old → IsOk result × steady self.new }
        ensures called { nexts self.new ≡ one_more (nexts self.old) };

    /// The path of the current item.
    fn path(&self) -> &BagPath
        requires { is_some (path self.now) ≡ true }
        ensures { path self.now ≡ Some result.now };

    /// How many times `next` was called. The count saturates at 2^64 - 1.
    fn nexts(&self) -> u64
        ensures { result ≡ nexts self.now };

    ghost keeps_item: { (old new : Self) → Self.keeps old new → (coming new ≡ coming old)
        × (path new ≡ path old) × (nexts new ≡ nexts old) × (steady old → steady new) };
}
