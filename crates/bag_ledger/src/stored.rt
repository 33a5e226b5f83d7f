//! Transfers in a map in memory.
ghost use Rattle.std.specs.Prelude.{◌≡◌, IfOk, IsOk, IsUtf8, None, OnErr, OnOk, map, string_bytes};
ghost use Rattle.std.specs.Map.{keys_of, lookup};
ghost use Rattle.std.specs.Option.{option_copied};
ghost use Rattle.std.specs.Str.{bytes_eq};
ghost use Rattle.bag_rules.specs.Plans.{sizes_of};
ghost use Rattle.bag_ledger.specs.Ledgers.{content_of, transfer_of, with_item, with_transfer};
ghost use Rattle.bag_ledger.specs.Stored.{files_in, ledger_in};

use bag_path::BagPath;
use bag_rules::{ItemSize, TagSet};
use std::alloc::{AllocError, Global};
use std::collections::BTreeMap;

/// The octets of payload files, by path.
pub(crate) type Contents = BTreeMap<BagPath, Vec<u8>>;

/// Transfers by name.
pub(crate) type Transfers = BTreeMap<String, Stored>;

/// A transfer: its tag files and the payload files received so far.
#[derive(Drop)]
pub(crate) struct Stored {
    pub(crate) tags: TagSet,
    pub(crate) items: Contents,
}

/// Adds a transfer with these tag files and no payload files.
pub(crate) fn add_transfer(
    alloc: Global,
    transfers: &mut Transfers,
    name: &str,
    tags: &TagSet,
) -> Result<(), AllocError>
    ensures added { OnOk result (ledger_in transfers.new
        ≡ with_transfer (ledger_in transfers.old) name.now tags.now) }
    ensures unchanged { OnErr result (ledger_in transfers.new ≡ ledger_in transfers.old) }
    ensures utf8 { IsUtf8 name.now }
{
    let key = String::from_str(alloc, name)?;
    let tags = tags.clone()?;
    let items = BTreeMap::new(alloc);
    match transfers.insert(key, Stored { tags, items }) {
        Ok(_) => Ok(()),
        Err(_) => Err(AllocError),
    }
}

/// Adds a payload file to the transfer with this name. Changes nothing if there is no such transfer.
pub(crate) fn add_item(
    transfers: &mut Transfers,
    name: &str,
    path: BagPath,
    body: Vec<u8>,
) -> Result<(), AllocError>
    ensures added { OnOk result (ledger_in transfers.new
        ≡ with_item (ledger_in transfers.old) name.now path body.items) }
    ensures unchanged { OnErr result (ledger_in transfers.new ≡ ledger_in transfers.old) }
    ensures none { transfer_of (ledger_in transfers.old) name.now ≡ None → IsOk result }
{
    let Some(stored) = transfers.get_mut(name) else {
        return Ok(());
    };
    match stored.items.insert(path, body) {
        Ok(_) => Ok(()),
        Err(_) => Err(AllocError),
    }
}

/// The octets of the payload file that the transfer with this name holds at the path.
pub(crate) fn body_of<'a>(transfers: &'a Transfers, name: &str, path: &BagPath) -> Option<&'a [u8]>
    ensures { option_copied result ≡ content_of (ledger_in transfers.now) name.now path.now }
{
    match transfers.get(name) {
        Some(stored) => body_in(&stored.items, path),
        None => None,
    }
}

fn body_in<'a>(items: &'a Contents, path: &BagPath) -> Option<&'a [u8]>
    ensures { option_copied result ≡ lookup (bytes_eq path.now) (files_in items.now) }
{
    match items.get(path) {
        Some(body) => Some(body.as_slice()),
        None => None,
    }
}

/// The paths and lengths of payload files, by path.
pub(crate) fn sizes_in(alloc: Global, items: &Contents) -> Result<Vec<ItemSize>, AllocError>
    ensures { IfOk result (λ sizes. sizes.items ≡ sizes_of (files_in items.now)) }
{
    let mut sizes = Vec::new(alloc);
    for (path, body) in items {
        let path = path.clone()?;
        let octets = body.len() as u64;
        sizes.push(ItemSize { path, octets })?;
    }
    Ok(sizes)
}

/// The names of the transfers, in order.
pub(crate) fn names_in(alloc: Global, transfers: &Transfers) -> Result<Vec<String>, AllocError>
    ensures { IfOk result (λ names. map string_bytes names.items
        ≡ keys_of (ledger_in transfers.now)) }
{
    let mut names = Vec::new(alloc);
    for name in transfers.keys() {
        names.push(name.clone()?)?;
    }
    Ok(names)
}
