//! Reads held payload files again, piece by piece.
ghost use Rattle.std.specs.Prelude.{◌≡◌, ◌<◌, ◌≤◌, ◌+◌, ℕ, List, IfOk, IsErrOf, drop, length, min, take};
ghost use Rattle.bag_ledger.specs.declared.keeper_faults.KeepFault.TheVariants.{Store};
ghost use Rattle.bag_receiver.specs.Holdings.{HasItem, ReadsKeeper};

use bag_ledger::{KeepFault, Keeper};
use bag_path::BagPath;
use std::alloc::Global;

/// Reads the next octets of a held payload file, of which `left` remain, into the front of the buffer, and returns how
/// many it read. Zero only if the file has fewer octets.
pub(crate) fn next_piece<K: Keeper>(
    keeper: &mut K,
    alloc: Global,
    name: &str,
    path: &BagPath,
    offset: u64,
    left: u64,
    buffer: &mut [u8],
) -> Result<usize, KeepFault>
    requires { (0 < left) × (0 < length buffer.old) }
    ensures piece { K.clean keeper.new → (content : List ℕ)
        → HasItem K.holds keeper.old name.now path.now content → offset + left ≡ length content
        → IfOk result (λ n. (0 < n) × (take n buffer.new ≡ take n (drop offset content))) }
    ensures bound { IfOk result (λ n. (n ≤ left) × (n ≤ length buffer.new)) }
    ensures room { length buffer.new ≡ length buffer.old }
    ensures keeper { ReadsKeeper K.holds K.may_leave K.clean K.failures keeper.old keeper.new
        (λ fault. IsErrOf result (Store fault)) }
{
    let room = left.min(buffer.len() as u64) as usize;
    keeper.read_piece(alloc, name, path, offset, &mut buffer[..room])
}
