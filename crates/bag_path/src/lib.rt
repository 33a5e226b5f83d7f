//! Paths of a bag, their spellings in tag files, and the lines of a text (RFC 8493 section 2).
#![tactic(auto)]

pub use line_count::LineCount;
pub use lines::{Ending, Line, Lines};
pub use path::{BagPath, LONGEST_PATH, PathFault};
pub use spelling::{Spelling, TextSpelling, escape, unescape};
pub use version::Version;

pub mod examples;
pub mod laws;
mod line_count;
mod lines;
mod path;
mod spelling;
mod version;
