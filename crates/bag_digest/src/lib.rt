//! The checksums of bags (RFC 8493 section 2.4): digests by MD5, SHA-1, SHA-256 and SHA-512, computed
//! from octets in pieces and spelled in hex, and the sources that octets come from.
#![tactic(auto)]

pub use algorithm::{Alg, AlgSet};
pub use buffers::{FRONT, PIECE, buffer_of, piece_buffer};
pub use content::Content;
pub use digest::Digest;
pub use failures::Failures;
pub use multi::{Digests, Multi};
pub use multi_lanes::MultiLanes;
pub use reader_source::ReaderSource;
pub use reading::{
    ReadFault, SourceFault, SourceRead, digest_reader, digest_through, fill, read_or_digest,
    read_piece, read_to_end_within,
};
pub use short_contents::ShortContents;
pub use source::{Failed, Source};
pub use streams::{Stream, StreamFault, digest_streams};
pub use sums::Sums;

mod algorithm;
mod buffers;
mod content;
mod digest;
pub mod examples;
mod failures;
pub mod laws;
mod multi;
mod multi_lanes;
mod reader_source;
mod reading;
mod short_contents;
mod side_by_side;
mod source;
mod streams;
mod sums;
