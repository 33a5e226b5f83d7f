//! Sources of octets, which are read piece by piece.
ghost use Rattle.std.specs.Prelude.{◌≡◌, ◌≤◌, ℕ, Bool, false, List, Option, length, IfOk, IsErr};
ghost use Rattle.std.specs.Io.KnownBytes.{ReadConsumes};
ghost use Rattle.bag_digest.specs.Failures.{UsesSource};

use thiserror::Error;

/// A device failed to do what it was asked to do. The reason isn't kept. The device has counted the failure.
#[derive(Clone, Copy, Debug, PartialEq, Eq, Error)]
#[error("the device failed")]
pub struct Failed;

/// Something that gives octets piece by piece and counts its failures.
///
/// Files and octets in memory are sources. What a file will give isn't known, so nothing is claimed of it: its
/// `remaining` is `None`, and it is never `ready`. What a source in memory holds is known, and its reads give exactly
/// that.
pub trait Source {
    /// The octets that reads will still give, if they are known.
    ghost remaining: { Self → Option (List ℕ) };

    /// How often the source has failed.
    ghost failures: { Self → ℕ };

    /// That reads don't fail.
    ghost ready: { Self → Type 0 };

    /// Whether the source is open. If it isn't, every read fails. An open source may have been read to its end.
    ghost is_open: { Self → Bool };

    /// What a read leaves unchanged, as a relation between the source before it and after it.
    ghost keeps: { Self → Self → Type 0 };

    /// Reads octets into the front of the buffer and returns how many it read. The number 0 means the end, unless the
    /// buffer is empty.
    ///
    /// # Errors
    ///
    /// `Failed` if the source failed; it has counted the failure. The contents of the buffer are then unspecified.
    fn read(&mut self, buf: &mut [u8]) -> Result<usize, Failed>
        ensures bound { IfOk result (λ n. n ≤ length buf.new) }
        ensures octets { ReadConsumes (remaining self.old) (remaining self.new) result buf.new }
        ensures uses { UsesSource failures ready keeps self.old self.new (IsErr result) }
        ensures closed { is_open self.old ≡ false → IsErr result }
        ensures open { is_open self.new ≡ is_open self.old };

    /// How often the source has failed. The count stops at its maximum, 2^64 - 1.
    fn failures(&self) -> u64
        ensures { result ≡ failures self.now };

    ghost keeps_itself: { (a : Self) → keeps a a };

    ghost keeps_on: { (a b c : Self) → keeps a b → keeps b c → keeps a c };
}
