//! Stores a payload file: its content is read, hashed and written piece by piece.
ghost use Rattle.std.specs.Prelude.{◌≡◌, List, [], ℕ, false, length, IsErrOf, IsTrue, MatchResult, OnOk};
ghost use Rattle.bag_digest.specs.Failures.{UsesSource};
ghost use Rattle.bag_digest.specs.declared.buffers.TheConstants.{PIECE};
ghost use Rattle.bag_ledger.specs.Keeping.{IsGiven, Puts, RefusesGiven, given_by};
ghost use Rattle.bag_ledger.specs.declared.keeper_faults.KeepFault.{KeepFault};
ghost use Rattle.bag_sqlite.specs.Contents.{HasContentMore, HasRead, answer_of, in_pieces, put_fault_of};
ghost use Rattle.bag_sqlite.specs.Putting.{AddsPieces, IsUnderWay};
ghost use Rattle.bag_sqlite.specs.SqlKeepers.{HoldsLedger, MayLeaveLedger};
ghost use Rattle.bag_sqlite.specs.Tables.{Origin};
ghost use Rattle.bag_sqlite.specs.Transactions.{ChangesRows, CommitsNothing, WasOpen};
ghost use Rattle.sqlite.specs.Held.{Held, state};
ghost use Rattle.sqlite.specs.State.{HasCleanDisk};

use crate::item_statements::{insert_item, insert_piece, set_size};
use crate::transfer_queries::transfer_number;
use bag_digest::{Multi, Source, SourceFault, Sums, fill};
use bag_rules::limits::LARGEST_ITEM;
use bag_rules::{Want, WantFault};
use sqlite::{Alter, Connection, Error, Transaction};

/// Why a payload file isn't stored.
#[derive(Drop)]
pub(crate) enum NotPut {
    /// Its content can't be read to the end, or it is too large.
    Source(SourceFault),
    /// Its content isn't the wanted one.
    Misfit(WantFault),
    /// The store refused a statement.
    Store(Error),
}

impl From<SourceFault> for NotPut {
    ghost use Rattle.std.specs.Prelude.{◌≡◌};
    ghost use Rattle.bag_sqlite.specs.declared.putting.NotPut.TheVariants.{Source};

    ghost from_gives = { λ fault refusal. refusal ≡ Source fault };

    fn from(fault: SourceFault) -> NotPut {
        NotPut::Source(fault)
    }
}

impl From<WantFault> for NotPut {
    ghost use Rattle.std.specs.Prelude.{◌≡◌};
    ghost use Rattle.bag_sqlite.specs.declared.putting.NotPut.TheVariants.{Misfit};

    ghost from_gives = { λ fault refusal. refusal ≡ Misfit fault };

    fn from(fault: WantFault) -> NotPut {
        NotPut::Misfit(fault)
    }
}

impl From<Error> for NotPut {
    ghost use Rattle.std.specs.Prelude.{◌≡◌};
    ghost use Rattle.bag_sqlite.specs.declared.putting.NotPut.TheVariants.{Store};

    ghost from_gives = { λ error refusal. refusal ≡ Store error };

    fn from(error: Error) -> NotPut {
        NotPut::Store(error)
    }
}

/// Stores a payload file, read from the source, in the transfer with this name, in one transaction, if its content is
/// the wanted one.
///
/// # Errors
///
/// The first reason why it isn't stored. Also `Store` if there is no such transfer or it already holds the path;
/// nothing is read then.
pub(crate) fn put_content<S: Alter, R: Source>(
    connection: &mut Connection<S>,
    name: &str,
    want: &Want<'_>,
    buffer: &mut [u8],
    reader: &mut R,
) -> Result<(), NotPut>
    requires idle { connection.old.in_transaction ≡ false }
    requires room { length buffer.old ≡ PIECE }
    ensures put { (told : KeepFault)
        → Puts (λ (connection : Held S). HoldsLedger (state S.Store connection))
        (λ connection. MayLeaveLedger (state S.Store connection))
        (λ connection. HasCleanDisk (state S.Store connection)) connection.old connection.new
        (given_by (R.remaining reader.old) (R.remaining reader.new)) name.now want.now
        (answer_of told result) }
    ensures uses { UsesSource R.failures R.ready R.keeps reader.old reader.new
        (IsErrOf result (NotPut.Source SourceFault.Read)) }
    ensures idle { connection.new.in_transaction ≡ false }
{
    let Some(transfer) = transfer_number(connection, name)? else {
        return Err(NotPut::Store(Error::QueryReturnedNoRows));
    };
    let mut transaction = connection.transaction();
    put_item(&mut transaction, transfer, want, buffer, reader)?;
    transaction.commit()?;
    Ok(())
}

/// Inserts the rows of a payload file read from the source, if its content is the wanted one.
fn put_item<S: Alter, R: Source>(
    tx: &mut Transaction<'_, S>,
    transfer: i64,
    want: &Want<'_>,
    buffer: &mut [u8],
    reader: &mut R,
) -> Result<(), NotPut>
    requires room { length buffer.old ≡ PIECE }
    ensures put { MatchResult result (λ done. (content : List ℕ)
        × IsGiven (given_by (R.remaining reader.old) (R.remaining reader.new)) want.now content
        × (HasCleanDisk (state S.Store tx.new.conn.now)
        → ChangesRows S.Store tx.old.conn tx.new.conn (λ origin before after.
        HasContentMore origin before after transfer want.now.path.now content)))
        (λ refusal. (told : KeepFault)
        → RefusesGiven (given_by (R.remaining reader.old) (R.remaining reader.new)) want.now
        (put_fault_of told refusal)) }
    ensures uses { UsesSource R.failures R.ready R.keeps reader.old reader.new
        (IsErrOf result (NotPut.Source SourceFault.Read)) }
    ensures opened { WasOpen S.Store tx.old.conn tx.new.conn result }
    ensures kept { CommitsNothing S.Store tx.old.conn tx.new.conn }
{
    let item = insert_item(tx, transfer, want.path().as_str())?;
    let sums = put_pieces(tx, item, want, buffer, reader)?;
    want.test(&sums)?;
    set_size(tx, item, sums.length)?;
    Ok(())
}

/// Reads to the end and inserts each piece. Returns the length of all and its digests.
fn put_pieces<S: Alter, R: Source>(
    tx: &mut Transaction<'_, S>,
    item: i64,
    want: &Want<'_>,
    buffer: &mut [u8],
    reader: &mut R,
) -> Result<Sums, NotPut>
    requires room { length buffer.old ≡ PIECE }
    ensures read { MatchResult result (λ found. (pieces : List (List ℕ))
        × HasRead (R.remaining reader.old) (R.remaining reader.new) want.now found pieces
        × (HasCleanDisk (state S.Store tx.new.conn.now)
        → ChangesRows S.Store tx.old.conn tx.new.conn
        (λ origin before after. AddsPieces origin before after (in_pieces item [] pieces))))
        (λ refusal. (told : KeepFault)
        → RefusesGiven (given_by (R.remaining reader.old) (R.remaining reader.new)) want.now
        (put_fault_of told refusal)) }
    ensures uses { UsesSource R.failures R.ready R.keeps reader.old reader.new
        (IsErrOf result (NotPut.Source SourceFault.Read)) }
    ensures kept { CommitsNothing S.Store tx.old.conn tx.new.conn }
{
    let mut multi = Multi::new(want.algs());
    let mut total = 0u64;
    'pieces: loop {
        let n = fill(buffer, reader, LARGEST_ITEM - total)?;
        if n == 0 {
            return Ok(Sums {
                length: total,
                digests: multi.finish(),
            });
        }
        multi.update(&buffer[..n]);
        insert_piece(tx, item, total, &buffer[..n])?;
        total += n as u64;
        if n < buffer.len() {
            return Ok(Sums {
                length: total,
                digests: multi.finish(),
            });
        }
    }
}
