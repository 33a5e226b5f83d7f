//! The limits of a check and of a transfer.

/// The greatest number of files in a tree.
pub const MOST_FILES: usize = 200_000;

/// The greatest number of lines in a manifest or in `fetch.txt`.
pub const MOST_LINES: usize = 100_000;

/// The greatest number of octets in a tag file that is read as text.
pub const LARGEST_TAG_FILE: u64 = 1 << 24;

/// The greatest number of octets in a file that is checked.
pub const LARGEST_FILE: u64 = 1 << 40;

/// The greatest number of octets in a payload file that a transfer holds.
pub const LARGEST_ITEM: u64 = 1 << 30;
