//! Reads and verifies the transfers of a database, each payload file piece by piece.
ghost use Rattle.std.specs.Prelude.{◌≡◌, ◌≤◌, ◌+◌, ◌⊎◌, ◌↔◌, ℕ, ℤ, pos, List, [], ◌∷◌, Err, IfErr, IfNone, IfOk, IfSome, IsTrue, MatchOption, MatchResult, OnOk, Ok, false, length, string_bytes};
ghost use Rattle.std.specs.List.{AllByRecursion, concat};
ghost use Rattle.bag_rules.specs.Files.{Files};
ghost use Rattle.bag_rules.specs.Plans.{IsPlanOf};
ghost use Rattle.bag_rules.specs.declared.limits.TheConstants.{LARGEST_ITEM as LARGEST};
ghost use Rattle.bag_sqlite.specs.Adopting.{HasContent, HasPieces, OnlyReads, RowPasses, SaysOf, Tells, TellsOne, TransferPasses, TransfersPass, body_text, count_text, files_in, items_text, piece_text, tag_files_text, transfers_text};
ghost use Rattle.bag_digest.specs.ShortContents.{IsHeld, TakesAlso, Took};
ghost use Rattle.bag_ledger.specs.Findings.{HoldsLittle};
ghost use Rattle.bag_sqlite.specs.ShortItems.{FindsItem};
ghost use Rattle.bag_sqlite.specs.declared.format.Format.{Format};
ghost use Rattle.bag_sqlite.specs.Refusing.{AreTags, DoNotOpen, HasDamagedItem, HasMorePieces, IsBlob, IsNoLedger, IsNoneFor, IsSize, LacksBody, LacksContent, LacksPiece, OpensNone, RefusesTransfer, RefusesTransfers, ShowsOctets, adopt_fault};
ghost use Rattle.sqlite.specs.Order.{column, Row};
ghost use Rattle.sqlite.specs.declared.error.Error.{Error as SqlError};
ghost use Rattle.sqlite.specs.declared.types.Value.TheVariants.{Blob, Int};

use crate::adopting::{AdoptFault, rows_of};
use crate::format::{Format, ITEM_BODY, PIECE};
use crate::item_queries::PIECE_BODY;
use crate::short_items::ShortItems;
use crate::transfer_queries::{TAG_FILES, path_in, tag_set_in};
use crate::watch::Watch;
use bag_digest::{AlgSet, Content};
use bag_ledger::Finding;
use bag_rules::limits::LARGEST_ITEM;
use bag_rules::{Plan, PlanFault};
use sqlite::types::ValueRef;
use sqlite::{Alter, Connection, Error, ErrorCode, Row, params};
use std::alloc::Global;

/// Verifies all transfers, in the order of the octets of their names.
pub(crate) fn verify_transfers<S: Alter, W: Watch>(
    connection: &mut Connection<S>,
    watch: &W,
    format: Format,
) -> Result<(), AdoptFault>
    requires idle { connection.old.in_transaction ≡ false }
    ensures verified { SaysOf S.Store connection.old connection.new (λ db.
        OnOk result (TransfersPass S.Store db format)) }
    ensures refused { SaysOf S.Store connection.old connection.new (λ db.
        IfErr result (RefusesTransfers S.Store db format)) }
    ensures reads { OnlyReads S.Store connection.old connection.new }
{
    let rows = rows_of(
        connection,
        "SELECT id, name FROM transfer ORDER BY name COLLATE BINARY",
        &[],
    )?;
    verify_rows(
        *rows.allocator(),
        connection,
        watch,
        format,
        rows.as_slice(),
    )
}

/// Verifies the transfers with these numbers and names.
fn verify_rows<S: Alter, W: Watch>(
    alloc: Global,
    connection: &mut Connection<S>,
    watch: &W,
    format: Format,
    rows: &[Row],
) -> Result<(), AdoptFault>
    requires idle { connection.old.in_transaction ≡ false }
    ensures verified { SaysOf S.Store connection.old connection.new (λ db.
        OnOk result (AllByRecursion (λ row. (transfer : ℤ)
        × (column row 0 ≡ Int transfer) × TransferPasses S.Store db format transfer) rows.now)) }
    ensures refused { SaysOf S.Store connection.old connection.new (λ db.
        Tells S.Store db transfers_text [] rows.now
        → IfErr result (RefusesTransfers S.Store db format)) }
    ensures reads { OnlyReads S.Store connection.old connection.new }
{
    for row in rows {
        verify_transfer(alloc, connection, watch, format, row.get(0)?, row.get(1)?)?;
    }
    Ok(())
}

/// Verifies the tag files of a transfer, and then its payload files by path.
fn verify_transfer<S: Alter, W: Watch>(
    alloc: Global,
    connection: &mut Connection<S>,
    watch: &W,
    format: Format,
    transfer: i64,
    name: String,
) -> Result<(), AdoptFault>
    requires idle { connection.old.in_transaction ≡ false }
    ensures verified { SaysOf S.Store connection.old connection.new (λ db.
        OnOk result (TransferPasses S.Store db format transfer)) }
    ensures refused { SaysOf S.Store connection.old connection.new (λ db.
        IfErr result (RefusesTransfer S.Store db format transfer (string_bytes name))) }
    ensures reads { OnlyReads S.Store connection.old connection.new }
{
    let Some(plan) = plan_of(alloc, connection, transfer)? else {
        let path = String::new(alloc);
        return Err(AdoptFault::Damaged { name, path });
    };
    match first_damaged(alloc, connection, watch, format, transfer, &plan)? {
        Some(path) => Err(AdoptFault::Damaged { name, path }),
        None => Ok(()),
    }
}

/// The plan of the transfer with this number, if its tag files can open a transfer.
fn plan_of<S: Alter>(
    alloc: Global,
    connection: &mut Connection<S>,
    transfer: i64,
) -> Result<Option<Plan>, AdoptFault>
    requires idle { connection.old.in_transaction ≡ false }
    ensures plan { SaysOf S.Store connection.old connection.new (λ db.
        IfOk result (λ plan. IfSome plan (λ plan. (rows : List Row)
        × Tells S.Store db tag_files_text (Int transfer ∷ []) rows
        × IsPlanOf (files_in rows) plan))) }
    ensures refused { SaysOf S.Store connection.old connection.new (λ db.
        MatchResult result (λ plan. IfNone plan (OpensNone S.Store db transfer))
        (IsNoneFor ((format : Format) → IsNoLedger S.Store db format))) }
    ensures reads { OnlyReads S.Store connection.old connection.new }
{
    let rows = rows_of(connection, TAG_FILES, params![transfer])?;
    plan_in(alloc, rows.as_slice())
}

/// The plan of the transfer with the tag files in these rows, if they can open a transfer.
fn plan_in(alloc: Global, rows: &[Row]) -> Result<Option<Plan>, AdoptFault>
    ensures plan { IfOk result (λ plan. IfSome plan (IsPlanOf (files_in rows.now))) }
    ensures refused { MatchResult result (λ plan. IfNone plan (DoNotOpen rows.now))
        (IsNoneFor (¬ AreTags rows.now)) }
{
    let Some(tags) = unless_corrupt(tag_set_in(alloc, rows))? else {
        return Ok(None);
    };
    match Plan::from_tags(alloc, &tags) {
        Ok(plan) => Ok(Some(plan)),
        Err(PlanFault::Memory) => Err(AdoptFault::Memory),
        Err(_) => Ok(None),
    }
}

/// The value that was read, or `None` if the database is corrupt there.
fn unless_corrupt<T: Drop>(read: Result<T, Error>) -> Result<Option<T>, AdoptFault>
    ensures { MatchResult result (λ value. MatchOption value
        (read ≡ Err (Error.SqliteFailure ErrorCode.DatabaseCorrupt)) (λ value. read ≡ Ok value))
        (λ fault. (error : SqlError) × (read ≡ Err error) × (fault ≡ adopt_fault error)) }
{
    match read {
        Ok(value) => Ok(Some(value)),
        Err(Error::SqliteFailure(ErrorCode::DatabaseCorrupt)) => Ok(None),
        Err(error) => Err(error)?,
    }
}

/// The first path of a payload file of the transfer that isn't valid, if there is one.
fn first_damaged<S: Alter, W: Watch>(
    alloc: Global,
    connection: &mut Connection<S>,
    watch: &W,
    format: Format,
    transfer: i64,
    plan: &Plan,
) -> Result<Option<String>, AdoptFault>
    requires idle { connection.old.in_transaction ≡ false }
    ensures passing { SaysOf S.Store connection.old connection.new (λ db.
        (tags : Files) → IsPlanOf tags plan.now
        → IfOk result (λ path. IfNone path ((rows : List Row)
        × Tells S.Store db (items_text format) (Int transfer ∷ []) rows
        × AllByRecursion (RowPasses S.Store db format tags) rows))) }
    ensures refused { SaysOf S.Store connection.old connection.new (λ db.
        (tags : Files) → IsPlanOf tags plan.now
        → MatchResult result (λ path. IfSome path (λ path.
        HasDamagedItem S.Store db format tags transfer (string_bytes path)))
        (IsNoneFor (IsNoLedger S.Store db format))) }
    ensures reads { OnlyReads S.Store connection.old connection.new }
{
    let rows = rows_of(connection, format.items_text(), params![transfer])?;
    damaged_in(alloc, connection, watch, format, plan, rows.as_slice())
}

/// The path of the first payload file in these rows that isn't valid, if there is one. Short ones are tested in
/// batches: one ends where it is full, or where a long file follows.
fn damaged_in<S: Alter, W: Watch>(
    alloc: Global,
    connection: &mut Connection<S>,
    watch: &W,
    format: Format,
    plan: &Plan,
    rows: &[Row],
) -> Result<Option<String>, AdoptFault>
    requires idle { connection.old.in_transaction ≡ false }
    ensures passing { SaysOf S.Store connection.old connection.new (λ db.
        (tags : Files) → IsPlanOf tags plan.now → IfOk result (λ path. IfNone path
        (AllByRecursion (RowPasses S.Store db format tags) rows.now))) }
    ensures refused { SaysOf S.Store connection.old connection.new (λ db.
        (tags : Files) → IsPlanOf tags plan.now
        → (transfer : ℤ) → Tells S.Store db (items_text format) (Int transfer ∷ []) rows.now
        → MatchResult result (λ path. IfSome path (λ path.
        HasDamagedItem S.Store db format tags transfer (string_bytes path)))
        (IsNoneFor (IsNoLedger S.Store db format))) }
    ensures reads { OnlyReads S.Store connection.old connection.new }
{
    let mut batch = ShortItems::none(alloc);
    for row in rows {
        let item = row.get(0)?;
        let path: String = row.get(1)?;
        let size = row.get(2)?;
        if batch.is_full() || size > PIECE as i64 {
            if let Some(first) = batch.first_damaged(alloc)? {
                return Ok(Some(first));
            }
            batch = ShortItems::none(alloc);
        }
        let finding = read_item(
            alloc,
            connection,
            watch,
            format,
            plan,
            item,
            path.as_str(),
            size,
        )?;
        match finding {
            Finding::Valid => {}
            Finding::Damaged => return Ok(Some(batch.first_damaged(alloc)?.unwrap_or(path))),
            Finding::Untested(want, content) => batch = batch.add(want, content)?,
        }
    }
    Ok(batch.first_damaged(alloc)?)
}

/// Reads a payload file. A content of at most one piece isn't tested.
fn read_item<'a, S: Alter, W: Watch>(
    alloc: Global,
    connection: &mut Connection<S>,
    watch: &W,
    format: Format,
    plan: &'a Plan,
    item: i64,
    path: &str,
    size: i64,
) -> Result<Finding<'a>, AdoptFault>
    requires idle { connection.old.in_transaction ≡ false }
    ensures found { SaysOf S.Store connection.old connection.new (λ db.
        (tags : Files) → IsPlanOf tags plan.now
        → MatchResult result (FindsItem S.Store db format tags item path.now size)
        (IsNoneFor (IsNoLedger S.Store db format))) }
    ensures little { IfOk result HoldsLittle }
    ensures reads { OnlyReads S.Store connection.old connection.new }
{
    let Some(path) = unless_corrupt(path_in(alloc, path))? else {
        return Ok(Finding::Damaged);
    };
    let Some(want) = plan.want(&path) else {
        return Ok(Finding::Damaged);
    };
    let Some(size) = size_in(size) else {
        return Ok(Finding::Damaged);
    };
    match content_of(alloc, connection, watch, format, item, size, want.algs())? {
        Some(content) => Ok(Finding::of(want, size, content)),
        None => Ok(Finding::Damaged),
    }
}

/// The size of a payload file, if it is within the limits.
fn size_in(size: i64) -> Option<u64>
    ensures { MatchOption result (¬ IsSize size)
        (λ octets. (size ≡ pos octets) × (octets ≤ LARGEST)) }
{
    if size < 0 || size as u64 > LARGEST_ITEM {
        return None;
    }
    Some(size as u64)
}

/// The content of a payload file, if it is complete and has this size.
fn content_of<S: Alter, W: Watch>(
    alloc: Global,
    connection: &mut Connection<S>,
    watch: &W,
    format: Format,
    item: i64,
    size: u64,
    set: AlgSet,
) -> Result<Option<Content>, AdoptFault>
    requires { (connection.old.in_transaction ≡ false) × (size ≤ LARGEST) }
    ensures content { SaysOf S.Store connection.old connection.new (λ db.
        IfOk result (λ content. IfSome content (λ content. (octets : List ℕ)
        × HasContent S.Store db format item octets × (size ≡ length octets)
        × Took content set octets))) }
    ensures held { IfOk result (λ content. IfSome content (λ content. IsHeld content size size)) }
    ensures refused { SaysOf S.Store connection.old connection.new (λ db.
        MatchResult result (λ content. IfNone content (LacksContent S.Store db format item size))
        (IsNoneFor (IsNoLedger S.Store db format))) }
    ensures reads { OnlyReads S.Store connection.old connection.new }
{
    match format {
        Format::First => whole_content(alloc, connection, watch, item, size, set),
        Format::Second => content_in_pieces(alloc, connection, watch, item, size, set),
    }
}

/// The content of a payload file that is one blob, if it has this size.
fn whole_content<S: Alter, W: Watch>(
    alloc: Global,
    connection: &mut Connection<S>,
    watch: &W,
    item: i64,
    size: u64,
    set: AlgSet,
) -> Result<Option<Content>, AdoptFault>
    requires { connection.old.in_transaction ≡ false }
    ensures content { SaysOf S.Store connection.old connection.new (λ db.
        IfOk result (λ content. IfSome content (λ content. (octets : List ℕ)
        × TellsOne S.Store db body_text (Int item ∷ []) (Blob octets) × (size ≡ length octets)
        × Took content set octets))) }
    ensures held { IfOk result (λ content. IfSome content (λ content. IsHeld content size size)) }
    ensures refused { SaysOf S.Store connection.old connection.new (λ db.
        MatchResult result (λ content. IfNone content (LacksBody S.Store db item size))
        (IsNoneFor (IsNoLedger S.Store db Format.First))) }
    ensures reads { OnlyReads S.Store connection.old connection.new }
{
    let rows = rows_of(connection, ITEM_BODY, params![item])?;
    if rows.len() != 1 {
        return Ok(None);
    }
    let Some(body) = blob_in(&rows[0]) else {
        return Ok(None);
    };
    if body.len() as u64 != size {
        return Ok(None);
    }
    watch.add_file();
    watch.add_octets(size);
    let mut content = Content::none(alloc, size, set);
    content.take(body)?;
    Ok(Some(content))
}

/// The content of a payload file in pieces, if they are complete and have this size in all.
fn content_in_pieces<S: Alter, W: Watch>(
    alloc: Global,
    connection: &mut Connection<S>,
    watch: &W,
    item: i64,
    size: u64,
    set: AlgSet,
) -> Result<Option<Content>, AdoptFault>
    requires { (connection.old.in_transaction ≡ false) × (size ≤ LARGEST) }
    ensures content { SaysOf S.Store connection.old connection.new (λ db.
        IfOk result (λ content. IfSome content (λ content. (pieces : List (List ℕ))
        × HasPieces S.Store db item pieces × (size ≡ length (concat pieces))
        × Took content set (concat pieces)))) }
    ensures held { IfOk result (λ content. IfSome content (λ content. IsHeld content size size)) }
    ensures refused { SaysOf S.Store connection.old connection.new (λ db.
        MatchResult result (λ content. IfNone content (LacksPiece S.Store db item size
        ⊎ HasMorePieces S.Store db item size))
        (IsNoneFor (IsNoLedger S.Store db Format.Second))) }
    ensures reads { OnlyReads S.Store connection.old connection.new }
{
    let mut content = Content::none(alloc, size, set);
    let mut taken = 0;
    let mut n: u64 = 0;
    watch.add_file();
    while taken < size {
        let octets = (size - taken).min(PIECE as u64);
        if !take_piece(connection, item, n as i64, octets, &mut content)? {
            return Ok(None);
        }
        taken += octets;
        n += 1;
        watch.add_octets(octets);
    }
    if count_of(connection, item)? != n as i64 {
        return Ok(None);
    }
    Ok(Some(content))
}

/// Takes the piece of a payload file with this number, if it exists and has this many octets. Returns whether it does.
fn take_piece<S: Alter>(
    connection: &mut Connection<S>,
    item: i64,
    n: i64,
    octets: u64,
    content: &mut Content,
) -> Result<bool, AdoptFault>
    requires idle { connection.old.in_transaction ≡ false }
    ensures taken { SaysOf S.Store connection.old connection.new (λ db.
        IfOk result (λ taken. IsTrue taken → (piece : List ℕ)
        × TellsOne S.Store db piece_text (Int item ∷ Int n ∷ []) (Blob piece)
        × (length piece ≡ octets) × TakesAlso content.old content.new piece)) }
    ensures refused { SaysOf S.Store connection.old connection.new (λ db.
        MatchResult result (λ taken. taken ≡ false → (rows : List Row)
        × Tells S.Store db piece_text (Int item ∷ Int n ∷ []) rows × ¬ ShowsOctets rows octets)
        (IsNoneFor (IsNoLedger S.Store db Format.Second))) }
    ensures held { IfOk result (λ taken. IsTrue taken → (size before : ℕ)
        → IsHeld content.old size before → IsHeld content.new size (before + octets)) }
    ensures reads { OnlyReads S.Store connection.old connection.new }
{
    let rows = rows_of(connection, PIECE_BODY, params![item, n])?;
    if rows.len() != 1 {
        return Ok(false);
    }
    let Some(piece) = blob_in(&rows[0]) else {
        return Ok(false);
    };
    if piece.len() as u64 != octets {
        return Ok(false);
    }
    content.take(piece)?;
    Ok(true)
}

/// The octets in the first column, if it is a blob.
fn blob_in(row: &Row) -> Option<&[u8]>
    ensures { MatchOption result (¬ IsBlob (column row.now 0))
        (λ octets. column row.now 0 ≡ Blob octets.now) }
{
    match row.get_ref(0) {
        Ok(ValueRef::Blob(octets)) => Some(octets),
        _ => None,
    }
}

/// The number of pieces of a payload file.
fn count_of<S: Alter>(connection: &mut Connection<S>, item: i64) -> Result<i64, AdoptFault>
    requires idle { connection.old.in_transaction ≡ false }
    ensures count { SaysOf S.Store connection.old connection.new (λ db.
        MatchResult result
        (λ count. TellsOne S.Store db count_text (Int item ∷ []) (Int count))
        (IsNoneFor (IsNoLedger S.Store db Format.Second))) }
    ensures reads { OnlyReads S.Store connection.old connection.new }
{
    let rows = rows_of(
        connection,
        "SELECT count(*) FROM piece WHERE item = ?1",
        params![item],
    )?;
    if rows.len() != 1 {
        return Err(AdoptFault::NotALedger);
    }
    Ok(rows[0].get(0)?)
}
