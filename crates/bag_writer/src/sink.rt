//! Sinks, to which bags are written.
ghost use Rattle.std.specs.Prelude.{◌≡◌, ◌||◌, ◌∷◌, [], ℕ, Bool, List, Option, IsErr, MatchResult, OnErr, OnOk, false, is_ok, take, true};
ghost use Rattle.std.specs.Option.{option_map};
ghost use Rattle.bag_writer.specs.Sinks.{ClosesSink, IsFree, StaysOrIsLost, Stored, UsesSink, with_begun, with_ended, with_octets, with_payload_dir};
ghost use Rattle.bag_writer.specs.Steps.{ArePart, AreWhole};

use bag_digest::Failed;
use bag_path::BagPath;

/// Something that a bag is written to. Files are written one after the other: each is begun, written in pieces and
/// ended.
///
/// What a sink in memory holds is known. For a folder on a disk nothing is claimed about that: its `stored` is `None`.
pub trait Sink {
    /// What the sink holds, if that is known.
    ghost stored: { Self → Option Stored };

    /// Whether a file is begun.
    ghost is_open: { Self → Bool };

    /// That calls in the right order don't fail.
    ghost sure: { Self → Type 0 };

    /// How often the sink has failed.
    ghost failures: { Self → ℕ };

    /// Creates the payload directory `data/`, which may stay empty. It may exist already.
    ///
    /// # Errors
    ///
    /// `Failed` if the sink failed; it has counted the failure. What it holds is unchanged.
    fn payload_dir(&mut self) -> Result<(), Failed>
        ensures made { OnOk result
            (stored self.new ≡ option_map with_payload_dir (stored self.old)) }
        ensures kept { OnErr result (stored self.new ≡ stored self.old) }
        ensures open { is_open self.new ≡ is_open self.old }
        ensures uses { UsesSink failures sure self.old self.new Unit (IsErr result) };

    /// Begins a file, which is empty at first.
    ///
    /// # Errors
    ///
    /// `Failed` if the sink failed; it has counted the failure. It fails if a file is already begun or one with this
    /// path exists. What it holds is unchanged.
    fn file(&mut self, path: &BagPath) -> Result<(), Failed>
        ensures begun { OnOk result
            (stored self.new ≡ option_map (with_begun path.now) (stored self.old)) }
        ensures free { OnOk result ((is_open self.old ≡ false)
            × IsFree (stored self.old) path.now) }
        ensures kept { OnErr result (stored self.new ≡ stored self.old) }
        ensures open { is_open self.new ≡ (is_ok result || is_open self.old) }
        ensures uses { UsesSink failures sure self.old self.new
            ((is_open self.old ≡ false) × IsFree (stored self.old) path.now) (IsErr result) };

    /// Appends all of these octets to the file that was begun.
    ///
    /// # Errors
    ///
    /// `Failed` if the sink failed; it has counted the failure. It fails if no file is begun. Some of the first octets
    /// may have been written.
    fn write(&mut self, octets: &[u8]) -> Result<(), Failed>
        ensures written { OnOk result
            (stored self.new ≡ option_map (with_octets octets.now) (stored self.old)) }
        ensures part { OnErr result ((n : ℕ)
            × (stored self.new ≡ option_map (with_octets (take n octets.now)) (stored self.old))) }
        ensures closed { is_open self.old ≡ false → IsErr result }
        ensures open { is_open self.new ≡ is_open self.old }
        ensures uses { UsesSink failures sure self.old self.new
            (is_open self.old ≡ true) (IsErr result) };

    /// Ends the file that was begun, which then belongs to the bag.
    ///
    /// # Errors
    ///
    /// `Failed` if the sink failed; it has counted the failure. It fails if no file is begun. The file that was begun
    /// either still is or is lost.
    fn end(&mut self) -> Result<(), Failed>
        ensures ended { OnOk result
            (stored self.new ≡ option_map with_ended (stored self.old)) }
        ensures lost { OnErr result (StaysOrIsLost (stored self.old) (stored self.new)) }
        ensures closed { is_open self.old ≡ false → IsErr result }
        ensures open { OnOk result (is_open self.new ≡ false) }
        ensures uses { UsesSink failures sure self.old self.new
            (is_open self.old ≡ true) (IsErr result) };

    /// How often the sink has failed. The count stops at its maximum, 2^64 - 1.
    fn failures(&self) -> u64
        ensures { result ≡ failures self.now };
}

/// Adds a whole file to a sink: begins it, writes these octets and ends it.
///
/// # Errors
///
/// The sink failed. It may hold the front of the file then.
pub fn add_file<S: Sink>(path: &BagPath, octets: &[u8], sink: &mut S) -> Result<(), Failed>
    ensures added { MatchResult result
        (λ _. AreWhole ((path.now, octets.now) ∷ []) (S.stored sink.old) (S.stored sink.new))
        (λ _. ArePart ((path.now, octets.now) ∷ []) (S.stored sink.old) (S.stored sink.new)) }
    ensures sink { ClosesSink S.is_open S.failures S.sure sink.old sink.new
        ((S.is_open sink.old ≡ false) × IsFree (S.stored sink.old) path.now)
        result (IsErr result) }
{
    sink.file(path)?;
    sink.write(octets)?;
    sink.end()
}
