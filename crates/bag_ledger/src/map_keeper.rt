//! A keeper in memory.
ghost use Rattle.std.specs.Prelude.{◌≡◌, ◌≤◌, [], IfOk, IsErrOf, IsOk, None, length};
ghost use Rattle.std.specs.Option.{option_map, unwrap_or};
ghost use Rattle.bag_ledger.specs.Keeping.{IsGiven, IsPieceAt, Puts, Reads, UsesStore, known};
ghost use Rattle.bag_ledger.specs.Ledgers.{Ledger, content_of, items_of, transfer_of};
ghost use Rattle.bag_ledger.specs.Stored.{HoldsItself, IsClean, IsLeft};
ghost use Rattle.bag_ledger.specs.declared.keeper_faults.KeepFault.TheVariants.{Memory, Store};
ghost use Rattle.bag_ledger.specs.declared.keeper_faults.PutFault.TheVariants.{Keep};
ghost use Rattle.bag_rules.specs.Plans.{sizes_of};

use crate::keeper::{Keeper, copy_piece};
use crate::keeper_faults::{KeepFault, PutFault};
use crate::stored::{Transfers, add_item, add_transfer, body_of, names_in, sizes_in};
use crate::wanted_content::{test_content, test_octets};
use bag_digest::{Source, piece_buffer, read_to_end_within};
use bag_path::BagPath;
use bag_rules::limits::LARGEST_ITEM;
use bag_rules::{ItemSize, TagSet, Want};
use std::alloc::Global;
use std::collections::BTreeMap;
use std::marker::Model;

/// A keeper that holds its transfers in memory. It is always clean, it never answers `Store`, and a crash leaves what
/// it holds.
#[derive(Drop)]
pub struct MapKeeper {
    transfers: Transfers,
}

impl Model for MapKeeper {
    ghost use Rattle.bag_ledger.specs.Ledgers.{Ledger};

    ghost Value = { Ledger };

    ghost use Rattle.bag_ledger.specs.Stored.{ledger_in};

    ghost view = { λ keeper. ledger_in keeper.transfers };
}

impl MapKeeper {
    /// A keeper that holds no transfers.
    pub fn new(alloc: Global) -> MapKeeper
        ensures nothing { result ≡ [] }
        ensures holds { HoldsItself result [] }
    {
        MapKeeper {
            transfers: BTreeMap::new(alloc),
        }
    }
}

impl Keeper for MapKeeper {
    ghost holds = { HoldsItself };

    ghost may_leave = { IsLeft };

    ghost clean = { IsClean };

    ghost spent = { λ keeper. ⊥ };

    ghost failures = { λ keeper. 0 };

    fn begin(&mut self, alloc: Global, name: &str, tags: &TagSet) -> Result<(), KeepFault> {
        // Called for its contract, which says that these are tag files.
        let _files = tags.files();
        add_transfer(alloc, &mut self.transfers, name, tags)?;
        Ok(())
    }

    fn tags(&mut self, _alloc: Global, name: &str) -> Result<Option<TagSet>, KeepFault> {
        let Some(stored) = self.transfers.get(name) else {
            return Ok(None);
        };
        let tags = stored.tags.clone()?;
        Ok(Some(tags))
    }

    /// Always has an answer.
    fn size_of(
        &mut self,
        _alloc: Global,
        name: &str,
        path: &BagPath,
    ) -> Result<Option<u64>, KeepFault>
        ensures size { IsClean self.new → (ledger : Ledger) → HoldsItself self.old ledger
            → IfOk result (λ size. size ≡ option_map length (content_of ledger name.now path.now)) }
        ensures reads { Reads HoldsItself IsLeft IsClean self.old self.new }
        ensures store { UsesStore (λ _. 0) (λ _. ⊥) self.old self.new
            (λ fault. IsErrOf result (Store fault)) }
        ensures always { IsOk result }
    {
        match body_of(&self.transfers, name, path) {
            Some(body) => Ok(Some(body.len() as u64)),
            None => Ok(None),
        }
    }

    /// Asks for no memory if no transfer has this name.
    fn sizes(&mut self, alloc: Global, name: &str) -> Result<Vec<ItemSize>, KeepFault>
        ensures sizes { IsClean self.new → (ledger : Ledger) → HoldsItself self.old ledger
            → IfOk result (λ sizes. sizes.items ≡ sizes_of (items_of ledger name.now)) }
        ensures reads { Reads HoldsItself IsLeft IsClean self.old self.new }
        ensures store { UsesStore (λ _. 0) (λ _. ⊥) self.old self.new
            (λ fault. IsErrOf result (Store fault)) }
        ensures none { transfer_of self.old name.now ≡ None → IsOk result }
    {
        let Some(stored) = self.transfers.get(name) else {
            return Ok(Vec::new(alloc));
        };
        let sizes = sizes_in(alloc, &stored.items)?;
        Ok(sizes)
    }

    /// Asks for memory only if the content is to be stored.
    fn put(
        &mut self,
        alloc: Global,
        name: &str,
        want: &Want<'_>,
        content: &[u8],
    ) -> Result<(), PutFault>
        ensures put { Puts HoldsItself IsLeft IsClean self.old self.new (known content.now)
            name.now want.now result }
        ensures store { UsesStore (λ _. 0) (λ _. ⊥) self.old self.new
            (λ fault. IsErrOf result (Keep (Store fault))) }
        ensures memory { IsErrOf result (Keep Memory)
            → IsGiven (known content.now) want.now content.now }
    {
        test_content(want, content)?;
        let path = want.path().clone()?;
        let copy = Vec::from_slice(alloc, content)?;
        add_item(&mut self.transfers, name, path, copy)?;
        Ok(())
    }

    fn put_from<S: Source>(
        &mut self,
        alloc: Global,
        name: &str,
        want: &Want<'_>,
        reader: &mut S,
    ) -> Result<(), PutFault> {
        let mut buffer = piece_buffer(alloc)?;
        let body = read_to_end_within(alloc, buffer.as_mut_slice(), reader, LARGEST_ITEM)?;
        test_octets(want, body.as_slice())?;
        let path = want.path().clone()?;
        add_item(&mut self.transfers, name, path, body)?;
        Ok(())
    }

    /// Always has an answer.
    fn read_piece(
        &mut self,
        _alloc: Global,
        name: &str,
        path: &BagPath,
        offset: u64,
        buf: &mut [u8],
    ) -> Result<usize, KeepFault>
        ensures piece { IsClean self.new → (ledger : Ledger) → HoldsItself self.old ledger
            → IfOk result (λ n. IsPieceAt (unwrap_or (content_of ledger name.now path.now) [])
            offset n buf.new) }
        ensures bound { IfOk result (λ n. n ≤ length buf.new) }
        ensures reads { Reads HoldsItself IsLeft IsClean self.old self.new }
        ensures store { UsesStore (λ _. 0) (λ _. ⊥) self.old self.new
            (λ fault. IsErrOf result (Store fault)) }
        ensures always { IsOk result }
    {
        match body_of(&self.transfers, name, path) {
            Some(body) => Ok(copy_piece(body, offset, buf)),
            None => Ok(0),
        }
    }

    fn names(&mut self, alloc: Global) -> Result<Vec<String>, KeepFault> {
        Ok(names_in(alloc, &self.transfers)?)
    }

    fn blame(&mut self) -> KeepFault {
        KeepFault::Memory
    }

    fn failures(&self) -> u64 {
        0
    }

    ghost sound = { λ keeper ledger clean holds. holds.1 };
}
