//! Reads sources to their end, for the digests of what they give or for all of it.
ghost use Rattle.std.specs.Prelude.{◌≡◌, ◌+◌, ◌<◌, ℕ, List, length, min, vec_len, IfErr, IfOk, IsErrOf};
ghost use Rattle.std.specs.Io.KnownBytes.{IsAtEnd};
ghost use Rattle.bag_digest.specs.Failures.{UsesSource};
ghost use Rattle.bag_digest.specs.Reading.{GaveAll, GaveBefore, GaveDigests, GaveFound, GavePiece, HashesOn, read_fault};
ghost use Rattle.bag_digest.specs.declared.reading.ReadFault.TheVariants.{Memory};

use crate::algorithm::AlgSet;
use crate::buffers::piece_buffer;
use crate::multi::Multi;
use crate::source::{Failed, Source};
use crate::sums::Sums;
use std::alloc::{AllocError, Global};
use thiserror::Error;

/// Why a source wasn't read to its end.
#[derive(Clone, Copy, Debug, PartialEq, Eq, Error)]
pub enum SourceFault {
    /// A read failed, and the source counted it.
    #[error("a read failed")]
    Read,
    /// The source gave more octets than the limit.
    #[error("more octets than the limit")]
    TooLarge,
}

/// Why a source wasn't read to its end by a function that allocates memory.
#[derive(Clone, Copy, Debug, PartialEq, Eq, Error)]
pub enum ReadFault {
    /// A read failed, and the source counted it.
    #[error("a read failed")]
    Read,
    /// The source gave more octets than the limit.
    #[error("more octets than the limit")]
    TooLarge,
    /// Memory ran out for the buffer or for what was read.
    #[error("out of memory")]
    Memory,
}

impl From<SourceFault> for ReadFault {
    ghost from_gives = { λ fault r. r ≡ read_fault fault };

    fn from(fault: SourceFault) -> ReadFault {
        match fault {
            SourceFault::Read => ReadFault::Read,
            SourceFault::TooLarge => ReadFault::TooLarge,
        }
    }
}

impl From<AllocError> for ReadFault {
    ghost from_gives = { λ _ r. r ≡ Memory };

    fn from(_fault: AllocError) -> ReadFault {
        ReadFault::Memory
    }
}

/// Reads a source to its end through the caller's buffer. Returns how many octets it gave, and their digests by each
/// algorithm of the set. Allocates no memory.
///
/// If the source has more than `limit` octets, reading stops right after the first octet past the limit. So if a read
/// fails and the source is too large as well, the error is the one that comes first in the stream.
///
/// # Errors
///
/// `Read` if a read failed; `TooLarge` if the source gave more than `limit` octets.
pub fn digest_through<S: Source>(
    buffer: &mut [u8],
    reader: &mut S,
    set: AlgSet,
    limit: u64,
) -> Result<Sums, SourceFault>
    requires { 0 < length buffer.old }
    ensures digests { IfOk result
        (GaveDigests (S.remaining reader.old) (S.remaining reader.new) limit set) }
    ensures stopped { IfErr result (λ fault.
        GaveBefore (S.remaining reader.old) (S.remaining reader.new) limit (read_fault fault)) }
    ensures uses { UsesSource S.failures S.ready S.keeps reader.old reader.new
        (IsErrOf result SourceFault.Read) }
{
    digest_on(buffer, reader, Multi::new(set), limit)
}

/// Reads a source to its end, and returns how many octets it gave. Its digests are those of what the hashers had taken
/// before, followed by these octets.
pub(crate) fn digest_on<S: Source>(
    buffer: &mut [u8],
    reader: &mut S,
    multi: Multi,
    limit: u64,
) -> Result<Sums, SourceFault>
    requires { 0 < length buffer.old }
    ensures digests { IfOk result (λ found. (octets : List ℕ)
        × GaveAll (S.remaining reader.old) (S.remaining reader.new) limit octets
        × (found.length ≡ length octets) × HashesOn multi octets found.digests) }
    ensures stopped { IfErr result (λ fault.
        GaveBefore (S.remaining reader.old) (S.remaining reader.new) limit (read_fault fault)) }
    ensures uses { UsesSource S.failures S.ready S.keeps reader.old reader.new
        (IsErrOf result SourceFault.Read) }
{
    let mut multi = multi;
    let mut total = 0u64;
    'pieces: loop {
        let n = read_piece(buffer, reader, limit - total)?;
        if n == 0 {
            let digests = multi.finish();
            return Ok(Sums {
                length: total,
                digests,
            });
        }
        multi.update(&buffer[..n]);
        total += n as u64;
    }
}

/// What was read of a source.
#[derive(Clone, Copy, Debug, PartialEq, Eq)]
pub enum SourceRead {
    /// All of it: this many octets, which are at the front of the buffer. Their digests weren't taken yet.
    Whole(usize),
    /// The source didn't end within the buffer: its length and its digests.
    Hashed(Sums),
}

/// Reads a source to its end. If it ends before the caller's buffer is full, its octets are at the front of the buffer;
/// otherwise they are counted, and their digests taken by each algorithm of the set. It takes no memory.
///
/// A source that has more than `limit` octets is left right after the first one past it.
///
/// # Errors
///
/// `Read` where a read failed; `TooLarge` where the source gave more than `limit` octets.
pub fn read_or_digest<S: Source>(
    buffer: &mut [u8],
    reader: &mut S,
    set: AlgSet,
    limit: u64,
) -> Result<SourceRead, SourceFault>
    requires { 0 < length buffer.old }
    ensures found { IfOk result
        (GaveFound (S.remaining reader.old) (S.remaining reader.new) limit set buffer.new) }
    ensures room { length buffer.new ≡ length buffer.old }
    ensures stopped { IfErr result (λ fault.
        GaveBefore (S.remaining reader.old) (S.remaining reader.new) limit (read_fault fault)) }
    ensures uses { UsesSource S.failures S.ready S.keeps reader.old reader.new
        (IsErrOf result SourceFault.Read) }
{
    let n = fill(buffer, reader, limit)?;
    if n < buffer.len() {
        return Ok(SourceRead::Whole(n));
    }
    let mut multi = Multi::new(set);
    multi.update(buffer);
    let rest = digest_on(buffer, reader, multi, limit - n as u64)?;
    Ok(SourceRead::Hashed(Sums {
        length: n as u64 + rest.length,
        digests: rest.digests,
    }))
}

/// Reads a source to its end as [`digest_through`] does, through a buffer of one piece that it allocates.
///
/// # Errors
///
/// Those of [`digest_through`], and `Memory` if memory for the buffer ran out. The source was then not read.
pub fn digest_reader<S: Source>(
    alloc: Global,
    reader: &mut S,
    set: AlgSet,
    limit: u64,
) -> Result<Sums, ReadFault>
    ensures digests { IfOk result
        (GaveDigests (S.remaining reader.old) (S.remaining reader.new) limit set) }
    ensures stopped { IfErr result
        (GaveBefore (S.remaining reader.old) (S.remaining reader.new) limit) }
    ensures unread { IsErrOf result ReadFault.Memory → reader.new ≡ reader.old }
    ensures uses { UsesSource S.failures S.ready S.keeps reader.old reader.new
        (IsErrOf result ReadFault.Read) }
{
    let mut buffer = piece_buffer(alloc)?;
    let found = digest_through(buffer.as_mut_slice(), reader, set, limit)?;
    Ok(found)
}

/// Reads a source to its end through the caller's buffer and returns all that it gave.
///
/// If the source has more than `limit` octets, reading stops right after the first octet past the limit.
///
/// # Errors
///
/// `Read` if a read failed; `TooLarge` if the source gave more than `limit` octets; `Memory` if memory ran out for what
/// was read. What was read is then lost, and it was within the limit.
pub fn read_to_end_within<S: Source>(
    alloc: Global,
    buffer: &mut [u8],
    reader: &mut S,
    limit: u64,
) -> Result<Vec<u8>, ReadFault>
    requires { 0 < length buffer.old }
    ensures octets { IfOk result (λ body.
        GaveAll (S.remaining reader.old) (S.remaining reader.new) limit body.items) }
    ensures stopped { IfErr result
        (GaveBefore (S.remaining reader.old) (S.remaining reader.new) limit) }
    ensures uses { UsesSource S.failures S.ready S.keeps reader.old reader.new
        (IsErrOf result ReadFault.Read) }
{
    let mut body = Vec::new(alloc);
    let mut total = 0u64;
    'pieces: loop {
        let n = read_piece(buffer, reader, limit - total)?;
        if n == 0 {
            return Ok(body);
        }
        body.extend_from_slice(&buffer[..n])?;
        total += n as u64;
    }
}

/// Reads one piece into the front of the buffer and returns how many octets it read. The number 0 means the end.
///
/// # Errors
///
/// `Read` if the read failed; `TooLarge` if the source gave more octets than `left`, which is what remains of a limit.
/// It then gave one octet more and no other.
pub fn read_piece<S: Source>(
    buffer: &mut [u8],
    reader: &mut S,
    left: u64,
) -> Result<usize, SourceFault>
    requires { 0 < length buffer.old }
    ensures piece { IfOk result (λ n.
        GavePiece (S.remaining reader.old) (S.remaining reader.new) left n buffer.new) }
    ensures stopped { IfErr result (λ fault.
        GaveBefore (S.remaining reader.old) (S.remaining reader.new) left (read_fault fault)) }
    ensures uses { UsesSource S.failures S.ready S.keeps reader.old reader.new
        (IsErrOf result SourceFault.Read) }
{
    let room = room_for(buffer.len(), left);
    match reader.read(&mut buffer[..room]) {
        Err(Failed) => Err(SourceFault::Read),
        Ok(n) if n as u64 > left => Err(SourceFault::TooLarge),
        Ok(n) => Ok(n),
    }
}

/// Reads until the buffer is full or the source is at its end, and returns how many octets it read.
///
/// # Errors
///
/// Those of [`read_piece`].
pub fn fill<S: Source>(buffer: &mut [u8], reader: &mut S, left: u64) -> Result<usize, SourceFault>
    requires { 0 < length buffer.old }
    ensures piece { IfOk result (λ n.
        GavePiece (S.remaining reader.old) (S.remaining reader.new) left n buffer.new) }
    ensures short { IfOk result (λ n. n < length buffer.new → IsAtEnd (S.remaining reader.new)) }
    ensures stopped { IfErr result (λ fault.
        GaveBefore (S.remaining reader.old) (S.remaining reader.new) left (read_fault fault)) }
    ensures uses { UsesSource S.failures S.ready S.keeps reader.old reader.new
        (IsErrOf result SourceFault.Read) }
{
    let mut filled = 0;
    while filled < buffer.len() {
        let n = read_piece(&mut buffer[filled..], reader, left - filled as u64)?;
        if n == 0 {
            return Ok(filled);
        }
        filled += n;
    }
    Ok(filled)
}

/// How many octets to read at a time if `left` octets remain of a limit: one more than these, or the whole buffer.
fn room_for(len: usize, left: u64) -> usize
    ensures { result ≡ min len (left + 1) }
{
    if left < len as u64 {
        left as usize + 1
    } else {
        len
    }
}
