//! The interface of a store of transfers, such as a map in memory or a database.
ghost use Rattle.std.specs.Prelude.{◌≡◌, ◌⊎◌, ◌≤◌, ℕ, List, [], IfOk, IsErrOf, MatchResult, length, map, string_bytes};
ghost use Rattle.std.specs.Map.{keys_of};
ghost use Rattle.std.specs.Option.{option_map, unwrap_or};
ghost use Rattle.bag_digest.specs.Failures.{UsesSource};
ghost use Rattle.bag_ledger.specs.Keeping.{IsPieceAt, IsUnused, Leaves, Puts, Reads, UsesStore, Writes, given_by, known};
ghost use Rattle.bag_ledger.specs.Ledgers.{IsSound, Ledger, content_of, items_of, tags_of, with_transfer};
ghost use Rattle.bag_ledger.specs.declared.keeper_faults.KeepFault.TheVariants.{Store};
ghost use Rattle.bag_ledger.specs.declared.keeper_faults.PutFault.TheVariants.{Keep, Reader};
ghost use Rattle.bag_ledger.specs.declared.keeper_faults.StoreFault.{StoreFault};
ghost use Rattle.bag_rules.specs.Opening.{Opens};
ghost use Rattle.bag_rules.specs.Plans.{sizes_of};

use crate::keeper_faults::{KeepFault, PutFault};
use bag_digest::Source;
use bag_path::BagPath;
use bag_rules::{ItemSize, TagSet, Want};
use std::alloc::Global;

/// A store of transfers by name, each with its tag files and the payload files received so far.
///
/// As long as the store is clean, every call answers for one ledger. A call that writes makes its whole change if it
/// returns `Ok`, and none of it if it returns a fault. After `Store`, every further call returns `Store(Spent)`; after
/// `Memory` the keeper can still be used.
///
/// The caller checks before it writes: `begin` promises nothing if the name is already used, and `put` promises nothing
/// if the payload file is already held or isn't wanted.
pub trait Keeper {
    /// The calls answer for this ledger.
    ghost holds: { Self → Ledger → Type 0 };

    /// Opening the store after a crash at this moment gives one of these ledgers.
    ghost may_leave: { Self → Ledger → Type 0 };

    /// The store has returned what was written to it.
    ghost clean: { Self → Type 0 };

    /// The store has failed.
    ghost spent: { Self → Type 0 };

    /// How many times the keeper has answered `Store`.
    ghost failures: { Self → ℕ };

    /// Opens a transfer with an unused name, with these tag files and no payload files yet.
    fn begin(&mut self, alloc: Global, name: &str, tags: &TagSet) -> Result<(), KeepFault>
        requires { Opens tags.now }
        ensures begun { MatchResult result
            (λ done. Writes holds may_leave clean (IsUnused name.now) self.old self.new
            (λ ledger. with_transfer ledger name.now tags.now))
            (λ fault. Leaves holds may_leave clean (IsUnused name.now) self.old self.new
            (λ ledger. with_transfer ledger name.now tags.now)) }
        ensures store { UsesStore failures spent self.old self.new
            (λ fault. IsErrOf result (Store fault)) };

    /// The tag files of the transfer with this name, if there is one.
    fn tags(&mut self, alloc: Global, name: &str) -> Result<Option<TagSet>, KeepFault>
        ensures tags { clean self.new → (ledger : Ledger) → holds self.old ledger
            → IfOk result (λ tags. tags ≡ tags_of ledger name.now) }
        ensures reads { Reads holds may_leave clean self.old self.new }
        ensures store { UsesStore failures spent self.old self.new
            (λ fault. IsErrOf result (Store fault)) };

    /// The length in octets of the payload file at this path, if the transfer holds it.
    fn size_of(
        &mut self,
        alloc: Global,
        name: &str,
        path: &BagPath,
    ) -> Result<Option<u64>, KeepFault>
        ensures size { clean self.new → (ledger : Ledger) → holds self.old ledger
            → IfOk result (λ size. size ≡ option_map length (content_of ledger name.now path.now)) }
        ensures reads { Reads holds may_leave clean self.old self.new }
        ensures store { UsesStore failures spent self.old self.new
            (λ fault. IsErrOf result (Store fault)) };

    /// The paths and lengths of the payload files that a transfer holds, by path; empty if no transfer has this name.
    fn sizes(&mut self, alloc: Global, name: &str) -> Result<Vec<ItemSize>, KeepFault>
        ensures sizes { clean self.new → (ledger : Ledger) → holds self.old ledger
            → IfOk result (λ sizes. sizes.items ≡ sizes_of (items_of ledger name.now)) }
        ensures reads { Reads holds may_leave clean self.old self.new }
        ensures store { UsesStore failures spent self.old self.new
            (λ fault. IsErrOf result (Store fault)) };

    /// Stores a payload file that a transfer wants and doesn't hold yet, if its content is the wanted one.
    fn put(
        &mut self,
        alloc: Global,
        name: &str,
        want: &Want<'_>,
        content: &[u8],
    ) -> Result<(), PutFault>
        ensures put { Puts holds may_leave clean self.old self.new (known content.now)
            name.now want.now result }
        ensures store { UsesStore failures spent self.old self.new
            (λ fault. IsErrOf result (Keep (Store fault))) };

    /// Stores a payload file as `put` does, but reads its content from a source. It reads piece by piece, to the end or
    /// to the first octet beyond the limit, and doesn't hold the whole content in memory unless the store itself does.
    fn put_from<S: Source>(
        &mut self,
        alloc: Global,
        name: &str,
        want: &Want<'_>,
        reader: &mut S,
    ) -> Result<(), PutFault>
        ensures put { Puts holds may_leave clean self.old self.new
            (given_by (S.remaining reader.old) (S.remaining reader.new)) name.now want.now result }
        ensures reader { UsesSource S.failures S.ready S.keeps reader.old reader.new
            (IsErrOf result Reader) }
        ensures store { UsesStore failures spent self.old self.new
            (λ fault. IsErrOf result (Keep (Store fault))) };

    /// Reads octets of a held payload file, starting at `offset`, into the front of the buffer, and returns how many it
    /// read. Zero means the end, unless the buffer is empty. If the payload file isn't held, it reads none.
    fn read_piece(
        &mut self,
        alloc: Global,
        name: &str,
        path: &BagPath,
        offset: u64,
        buf: &mut [u8],
    ) -> Result<usize, KeepFault>
        ensures piece { clean self.new → (ledger : Ledger) → holds self.old ledger
            → IfOk result (λ n. IsPieceAt (unwrap_or (content_of ledger name.now path.now) [])
            offset n buf.new) }
        ensures bound { IfOk result (λ n. n ≤ length buf.new) }
        ensures reads { Reads holds may_leave clean self.old self.new }
        ensures store { UsesStore failures spent self.old self.new
            (λ fault. IsErrOf result (Store fault)) };

    /// The names of the transfers, in order.
    fn names(&mut self, alloc: Global) -> Result<Vec<String>, KeepFault>
        ensures names { clean self.new → (ledger : Ledger) → holds self.old ledger
            → IfOk result (λ names. map string_bytes names.items ≡ keys_of ledger) }
        ensures reads { Reads holds may_leave clean self.old self.new }
        ensures store { UsesStore failures spent self.old self.new
            (λ fault. IsErrOf result (Store fault)) };

    /// What to answer if the store gave what no clean store gives, such as fewer octets of a payload file than it said
    /// it has. This counts as a failure of the store. Only a keeper whose store never fails may answer `Memory`.
    fn blame(&mut self) -> KeepFault
        ensures reads { Reads holds may_leave clean self.old self.new }
        ensures store { UsesStore failures spent self.old self.new
            (λ fault. result ≡ Store fault) }
        ensures blamed { ((fault : StoreFault) × (result ≡ Store fault))
            ⊎ ((keeper : Self) → ¬ spent keeper) };

    /// How many times the keeper has answered `Store`. The count saturates at 2^64 - 1.
    fn failures(&self) -> u64
        ensures { result ≡ failures self.now };

    ghost sound: { (keeper : Self) (ledger : Ledger) → clean keeper → holds keeper ledger
        → IsSound ledger };
}

/// For a keeper that has the content, or a piece of it: copies its octets from `offset` on to the front of the buffer,
/// as many as there are and as fit, and returns the number.
pub fn copy_piece(content: &[u8], offset: u64, buf: &mut [u8]) -> usize
    ensures { IsPieceAt content.now offset result buf.new }
{
    if offset >= content.len() as u64 {
        return 0;
    }
    let start = offset as usize;
    let n = buf.len().min(content.len() - start);
    buf[..n].copy_from_slice(&content[start..start + n]);
    n
}
