//! A message padded to whole blocks (RFC 1321, 3.1 and 3.2; FIPS 180-4, 5.1.1), one block at a time.
ghost use Rattle.std.specs.Prelude.{◌≡◌, ◌+◌, ◌-◌, ◌*◌, ◌%◌, ◌^◌, ◌<◌, ◌≤◌, ◌++◌, ◌∷◌, length, replicate, take, drop};
ghost use Rattle.std.specs.Int.{w64};
ghost use Rattle.bag_lanes.specs.declared.octets.ByteOrder.{ByteOrder};
ghost use Rattle.bag_lanes.specs.Standard.{block, block_count, octets_of, padded};

use crate::octets::{ByteOrder, put};

/// How many blocks the message has with its padding.
pub(crate) fn padded_count(message: &[u8]) -> usize
    ensures { (order : ByteOrder) → result ≡ block_count (padded order message.now) }
{
    (message.len() + 8) / 64 + 1
}

/// Block `j` of the message with its padding.
#[inline(always)]
pub(crate) fn padded_block(message: &[u8], j: usize, order: ByteOrder) -> [u8; 64]
    requires { j < block_count (padded order message.now) }
    ensures { result ≡ block (padded order message.now) j }
{
    let start = j * 64;
    if start + 64 <= message.len() {
        return block_at(message, j);
    }
    end_block(message, start, order)
}

/// Block `j` of some octets.
#[inline(always)]
pub(crate) fn block_at(message: &[u8], j: usize) -> [u8; 64]
    requires { j * 64 + 64 ≤ length message.now }
    ensures { result ≡ block message.now j }
{
    let start = j * 64;
    let mut octets = [0; 64];
    octets.copy_from_slice(&message[start..start + 64]);
    octets
}

// The block from `start` on that has some of the padding.
fn end_block(message: &[u8], start: usize, order: ByteOrder) -> [u8; 64]
    requires edge { start % 64 ≡ 0 }
    requires late { length message.now < start + 64 }
    requires within { start < length (padded order message.now) }
    ensures { result ≡ take 64 (drop start (padded order message.now)) }
{
    if message.len() < start {
        return with_length([0; 64], message.len() as u64, order);
    }
    let octets = marked(&message[start..]);
    if message.len() < start + 56 {
        return with_length(octets, message.len() as u64, order);
    }
    octets
}

/// The last octets of a message, less than a block, and after them an octet 1000 0000 and zeros.
pub(crate) fn marked(rest: &[u8]) -> [u8; 64]
    requires { length rest.now < 64 }
    ensures { result ≡ rest.now ++ 0x80 ∷ replicate (63 - length rest.now) 0 }
{
    let mut octets = [0; 64];
    put(&mut octets, 0, rest);
    octets[rest.len()] = 0x80;
    octets
}

/// The block with the length of a message, in bits, in its last 8 octets. The length is given in octets, modulo 2^64.
pub(crate) fn with_length(octets: [u8; 64], length: u64, order: ByteOrder) -> [u8; 64]
    ensures { result ≡ take 56 octets ++ octets_of order w64 (length * 8 % 2 ^ 64) }
{
    let mut octets = octets;
    let bits = length.wrapping_mul(8);
    put(&mut octets, 56, &order.octets_of_length(bits));
    octets
}
