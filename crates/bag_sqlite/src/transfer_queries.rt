//! Queries for transfers.
ghost use Rattle.std.specs.Prelude.{◌≡◌, ◌⊎◌, ◌↔◌, ◌∷◌, ℕ, List, [], false, IfErr, IfOk, IsTrue, MatchOption, None, OnOk, Some, map, slice_index_or, string_bytes};
ghost use Rattle.std.specs.Map.{keys_of};
ghost use Rattle.bag_ledger.specs.Ledgers.{Ledger, items_of, tags_of, transfer_of};
ghost use Rattle.bag_path.specs.Paths.{IsPath};
ghost use Rattle.bag_rules.specs.Files.{Files};
ghost use Rattle.bag_rules.specs.Plans.{sizes_of};
ghost use Rattle.bag_rules.specs.Trees.{AreRising};
ghost use Rattle.bag_sqlite.specs.Adopting.{files_in};
ghost use Rattle.bag_sqlite.specs.Reading.{HasTransferRow, OnlyQueries, size_shown, tag_shown};
ghost use Rattle.bag_sqlite.specs.Refusing.{AreTags, HasBadTag, IsNoneFor, adopt_fault};
ghost use Rattle.bag_sqlite.specs.SqlKeepers.{HoldsLedger};
ghost use Rattle.sqlite.specs.Held.{state};
ghost use Rattle.sqlite.specs.Order.{column};
ghost use Rattle.sqlite.specs.State.{HasCleanDisk};
ghost use Rattle.sqlite.specs.declared.types.Value.TheVariants.{Int, Text};

use crate::queries::query;
use bag_path::{BagPath, PathFault};
use bag_rules::{ItemSize, TagSet, TagSetFault};
use sqlite::{Alter, Connection, Error, ErrorCode, Row, params};
use std::alloc::Global;

/// The query for the tag files of a transfer: the path and the octets of each, by path.
pub(crate) const TAG_FILES: &str = "SELECT path, body FROM tag WHERE transfer = ?1 ORDER BY path";

/// The names of the transfers, in order.
pub(crate) fn names<S: Alter>(
    alloc: Global,
    connection: &mut Connection<S>,
) -> Result<Vec<String>, Error>
    requires { connection.old.in_transaction ≡ false }
    ensures names { HasCleanDisk (state S.Store connection.new) → (ledger : Ledger)
        → HoldsLedger (state S.Store connection.old) ledger
        → IfOk result (λ names. map string_bytes names.items ≡ keys_of ledger) }
    ensures queries { OnlyQueries S.Store connection.old connection.new }
{
    let rows = query(connection, "SELECT name FROM transfer ORDER BY name", &[])?;
    texts_in(alloc, rows.as_slice())
}

/// The texts in the first column of the rows.
fn texts_in(alloc: Global, rows: &[Row]) -> Result<Vec<String>, Error>
    ensures { IfOk result (λ texts. map (λ text. Text (string_bytes text)) texts.items
        ≡ map (λ row. column row 0) rows.now) }
{
    let mut texts = Vec::new(alloc);
    for row in rows {
        let text: String = row.get(0)?;
        texts.push(text)?;
    }
    Ok(texts)
}

/// The tag files of the transfer with this name, if there is one.
pub(crate) fn tags<S: Alter>(
    alloc: Global,
    connection: &mut Connection<S>,
    name: &str,
) -> Result<Option<TagSet>, Error>
    requires { connection.old.in_transaction ≡ false }
    ensures tags { HasCleanDisk (state S.Store connection.new) → (ledger : Ledger)
        → HoldsLedger (state S.Store connection.old) ledger
        → IfOk result (λ tags. tags ≡ tags_of ledger name.now) }
    ensures queries { OnlyQueries S.Store connection.old connection.new }
{
    match transfer_number(connection, name)? {
        Some(transfer) => Ok(Some(tags_under(alloc, connection, transfer)?)),
        None => Ok(None),
    }
}

/// The payload files that the transfer with this name holds, by path; empty if there is no such transfer.
pub(crate) fn sizes<S: Alter>(
    alloc: Global,
    connection: &mut Connection<S>,
    name: &str,
) -> Result<Vec<ItemSize>, Error>
    requires { connection.old.in_transaction ≡ false }
    ensures sizes { HasCleanDisk (state S.Store connection.new) → (ledger : Ledger)
        → HoldsLedger (state S.Store connection.old) ledger
        → IfOk result (λ sizes. sizes.items ≡ sizes_of (items_of ledger name.now)) }
    ensures queries { OnlyQueries S.Store connection.old connection.new }
{
    match transfer_number(connection, name)? {
        Some(transfer) => sizes_under(alloc, connection, transfer),
        None => Ok(Vec::new(alloc)),
    }
}

/// The number of the transfer with this name, if there is one.
pub(crate) fn transfer_number<S: Alter>(
    connection: &mut Connection<S>,
    name: &str,
) -> Result<Option<i64>, Error>
    requires { connection.old.in_transaction ≡ false }
    ensures number { HasCleanDisk (state S.Store connection.new) → (ledger : Ledger)
        → HoldsLedger (state S.Store connection.old) ledger
        → IfOk result (λ number. MatchOption number (transfer_of ledger name.now ≡ None)
        (HasTransferRow (state S.Store connection.old).now.trees name.now)) }
    ensures opened { HasCleanDisk (state S.Store connection.new)
        → OnOk result (IsTrue (state S.Store connection.old).is_open) }
    ensures queries { OnlyQueries S.Store connection.old connection.new }
{
    let rows = query(
        connection,
        "SELECT id FROM transfer WHERE name = ?1",
        params![name],
    )?;
    first_number(rows.as_slice())
}

/// The number in the first column of the first row, if there is a row.
fn first_number(rows: &[Row]) -> Result<Option<i64>, Error>
    ensures { IfOk result (λ number. MatchOption number (rows.now ≡ [])
        (λ n. column (slice_index_or rows.now 0 []) 0 ≡ Int n)) }
{
    match rows.first() {
        Some(row) => Ok(Some(row.get(0)?)),
        None => Ok(None),
    }
}

/// The tag files of the transfer with this number.
fn tags_under<S: Alter>(
    alloc: Global,
    connection: &mut Connection<S>,
    transfer: i64,
) -> Result<TagSet, Error>
    requires { connection.old.in_transaction ≡ false }
    ensures tags { HasCleanDisk (state S.Store connection.new) → (ledger : Ledger)
        → HoldsLedger (state S.Store connection.old) ledger → (name : List ℕ)
        → HasTransferRow (state S.Store connection.old).now.trees name transfer
        → IfOk result (λ tags. tags_of ledger name ≡ Some tags) }
    ensures opened { HasCleanDisk (state S.Store connection.new)
        → OnOk result (IsTrue (state S.Store connection.old).is_open) }
    ensures queries { OnlyQueries S.Store connection.old connection.new }
{
    let rows = query(connection, TAG_FILES, params![transfer])?;
    tag_set_in(alloc, rows.as_slice())
}

/// The tag files whose paths and octets are in these rows. Rows that can't be tag files are a damaged database.
pub(crate) fn tag_set_in(alloc: Global, rows: &[Row]) -> Result<TagSet, Error>
    ensures shown { IfOk result (λ tags. tags ≡ files_in rows.now) }
    ensures files { (files : Files) → AreRising (keys_of files) → rows.now ≡ map tag_shown files
        → IfOk result (λ tags. tags ≡ files) }
    ensures refused { IfErr result (λ error.
        (error ≡ Error.SqliteFailure ErrorCode.DatabaseCorrupt → HasBadTag rows.now)
        × IsNoneFor (¬ AreTags rows.now) (adopt_fault error)) }
{
    let mut tags = TagSet::new(alloc);
    for row in rows {
        let path: String = row.get(0)?;
        match tags.add(path.as_str(), row.get(1)?) {
            Ok(()) => {}
            Err(TagSetFault::Memory) => {
                return Err(Error::SqliteFailure(ErrorCode::OutOfMemory));
            }
            Err(_) => return Err(Error::SqliteFailure(ErrorCode::DatabaseCorrupt)),
        }
    }
    Ok(tags)
}

/// The payload files that the transfer with this number holds, by path.
fn sizes_under<S: Alter>(
    alloc: Global,
    connection: &mut Connection<S>,
    transfer: i64,
) -> Result<Vec<ItemSize>, Error>
    requires { connection.old.in_transaction ≡ false }
    ensures sizes { HasCleanDisk (state S.Store connection.new) → (ledger : Ledger)
        → HoldsLedger (state S.Store connection.old) ledger → (name : List ℕ)
        → HasTransferRow (state S.Store connection.old).now.trees name transfer
        → IfOk result (λ sizes. sizes.items ≡ sizes_of (items_of ledger name)) }
    ensures opened { HasCleanDisk (state S.Store connection.new)
        → OnOk result (IsTrue (state S.Store connection.old).is_open) }
    ensures queries { OnlyQueries S.Store connection.old connection.new }
{
    let rows = query(
        connection,
        "SELECT path, size FROM held WHERE transfer = ?1 ORDER BY path",
        params![transfer],
    )?;
    sizes_in(alloc, rows.as_slice())
}

/// The payload files whose paths and sizes are in these rows.
fn sizes_in(alloc: Global, rows: &[Row]) -> Result<Vec<ItemSize>, Error>
    ensures { IfOk result (λ sizes. map size_shown sizes.items
        ≡ map (λ row. column row 0 ∷ column row 1 ∷ []) rows.now) }
{
    let mut sizes = Vec::new(alloc);
    for row in rows {
        let path: String = row.get(0)?;
        let path = path_in(alloc, path.as_str())?;
        let octets = row.get(1)?;
        sizes.push(ItemSize { path, octets })?;
    }
    Ok(sizes)
}

/// The path that this text spells. A text that is no valid path is a damaged database.
pub(crate) fn path_in(alloc: Global, text: &str) -> Result<BagPath, Error>
    ensures path { IfOk result (λ path. path ≡ text.now) }
    ensures refused { IfErr result (λ error.
        ((error ≡ Error.SqliteFailure ErrorCode.DatabaseCorrupt) × ¬ IsPath text.now)
        ⊎ (error ≡ Error.SqliteFailure ErrorCode.OutOfMemory)) }
{
    match BagPath::parse(alloc, text) {
        Ok(path) => Ok(path),
        Err(PathFault::Memory) => Err(Error::SqliteFailure(ErrorCode::OutOfMemory)),
        Err(_) => Err(Error::SqliteFailure(ErrorCode::DatabaseCorrupt)),
    }
}
