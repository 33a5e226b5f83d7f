//! How many octets are read at a time, and buffers for them.
ghost use Rattle.std.specs.Prelude.{◌≡◌, IfOk, vec_len};

use std::alloc::{AllocError, Global};

/// The number of octets in a piece, which is the most that is read at a time where files are read one by one. A ledger
/// in a database keeps payload files in pieces of this length, so another number would be another format of a ledger.
pub const PIECE: usize = 65_536;

/// The number of octets in a piece of a stream, which is the most that is read at a time where files are read side by
/// side.
pub const FRONT: usize = 2 * PIECE;

/// A buffer for one piece. It can be used for any number of sources, one after the other.
///
/// # Errors
///
/// `AllocError` if memory runs out.
pub fn piece_buffer(alloc: Global) -> Result<Vec<u8>, AllocError>
    ensures { IfOk result (λ buffer. vec_len buffer ≡ PIECE) }
{
    buffer_of(alloc, PIECE)
}

/// A buffer of this many octets, which are zero.
///
/// # Errors
///
/// The only error is that memory ran out.
// The length is a parameter, so that no proof writes the zeros out.
pub fn buffer_of(alloc: Global, len: usize) -> Result<Vec<u8>, AllocError>
    ensures { IfOk result (λ buffer. vec_len buffer ≡ len) }
{
    vec![in alloc; 0u8; len]
}
