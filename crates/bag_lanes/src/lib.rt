//! The digests of many messages by MD5 (RFC 1321), SHA-1 or SHA-256 (FIPS 180-4), four at a time: each message
//! is hashed in a lane of its own of vectors of 32-bit words, and a lane takes the next message of the list as
//! soon as its own has ended.
//!
//! Four lanes take the time of one and a half messages hashed alone by MD5, and of about two by SHA-1 or
//! SHA-256, however many of them are idle. So a list pays off where several messages are in it, of any lengths,
//! and is done soonest if its longest ones come first. A single message, or one that is longer than all others
//! together, takes less time by the crates `md5`, `sha1` and `sha2`.
//!
//! Messages that come in pieces are streams. [`Md5Lanes`], [`Sha1Lanes`] and [`Sha256Lanes`] hash four of them side by
//! side, each in a lane of its own, which ends and begins a stream whatever the others are at.
#![tactic(auto)]

pub use digests::{md5_digests, sha1_digests, sha256_digests};
pub use hashers::{Md5Lanes, Sha1Lanes, Sha256Lanes};

mod algorithm;
mod digests;
mod hashers;
mod lanes;
mod md5_alone;
mod md5_rounds;
mod octets;
mod padding;
mod pieces;
mod sha1_alone;
mod sha1_rounds;
mod sha256_alone;
mod sha256_rounds;
mod tasks;
mod words;
