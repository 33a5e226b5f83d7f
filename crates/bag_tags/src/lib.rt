//! The tag files of a bag: their values, read from octets and written back (RFC 8493 section 2).
#![tactic(auto)]

pub use declaration::{DeclFault, Declaration, read_declaration, write_declaration};
pub use fetch::{Fetch, FetchEntry, FetchEntryFault, FetchLine, is_url, read_fetch, write_fetch};
pub use info::{Element, ElementFault, Info, read_info, write_info};
pub use listing::{Kind, Pair, PushFault};
pub use manifest::{Manifest, read_manifest, write_manifest};
pub use name::{LineFile, ManifestName, TagName, unknown_algorithm};
pub use oxum::{OXUM_LABEL, Oxum};
pub use tag_fault::{LineCause, LineFault, TagFault};
pub use tag_feed::{TagFeed, TagValue};

mod declaration;
pub mod examples;
mod fetch;
mod info;
mod last_line;
pub mod laws;
mod listing;
mod manifest;
mod name;
mod number;
mod oxum;
mod pieces;
mod splitting;
mod tag_fault;
mod tag_feed;
mod tag_lines;
