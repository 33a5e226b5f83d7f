//! Why a text tag file can't be read.
use bag_path::PathFault;
use std::alloc::AllocError;
use thiserror::Error;

/// Why a line can't be read. If several causes apply to a line, one of them is returned: `read_manifest`, `read_info`
/// and `read_fetch` say in which order they look for them.
#[derive(Clone, Copy, Debug, PartialEq, Eq, PartialOrd, Ord, Error)]
pub enum LineCause {
    /// The line isn't UTF-8, which is the encoding of the tag files (RFC 8493 section 2.1.1).
    #[error("not UTF-8")]
    NotUtf8,
    /// The line lacks a blank that it needs or, in `bag-info.txt`, a colon.
    #[error("separator")]
    NoSeparator,
    /// The checksum isn't in the form of a digest by the manifest's algorithm: it has another length, or an octet that
    /// isn't a hex digit.
    #[error("digest form")]
    BadDigest,
    /// The text after the blanks spells no path.
    #[error("path")]
    BadPath(PathFault),
    /// The path is one that this file may not list.
    #[error("wrong place")]
    WrongPlace,
    /// An earlier line of the manifest lists the same path.
    #[error("twice")]
    Twice,
    /// The label is empty, begins or ends with a blank, or begins with U+FEFF.
    #[error("label")]
    BadLabel,
    /// The line is a continuation, and no element comes before it.
    #[error("nothing to continue")]
    NothingToContinue,
    /// The URL isn't a scheme, a colon and something more without blanks and controls (RFC 3986 section 3).
    #[error("url")]
    BadUrl,
    /// The length is neither `-` nor a number of octets below 2^64.
    #[error("length")]
    BadLength,
}

/// The first faulty line of a file, and what is wrong with it.
#[derive(Clone, Copy, Debug, PartialEq, Eq, Error)]
#[error("line {line}: {cause}")]
pub struct LineFault {
    /// The number of the line, counted from 1.
    pub line: u64,
    /// The first cause that applies to the line.
    pub cause: LineCause,
}

/// Why a file wasn't read.
#[derive(Clone, Copy, Debug, PartialEq, Eq, Error)]
pub enum TagFault {
    /// The first faulty line.
    #[error(transparent)]
    Line(LineFault),
    /// Memory ran out.
    #[error("out of memory")]
    Memory,
}

/// Why a line wasn't read.
#[derive(Clone, Copy, Debug, PartialEq, Eq)]
pub(crate) enum TagCause {
    Line(LineCause),
    Memory,
}

impl From<AllocError> for TagCause {
    ghost use Rattle.std.specs.Prelude.{◌≡◌};
    ghost use Rattle.bag_tags.specs.declared.tag_fault.TagCause.TheVariants.{Memory};

    ghost from_gives = { λ error cause. cause ≡ Memory };

    fn from(_: AllocError) -> TagCause {
        TagCause::Memory
    }
}

impl From<PathFault> for TagCause {
    ghost use Rattle.std.specs.Prelude.{◌≡◌};
    ghost use Rattle.bag_tags.specs.TagLines.{cause_of};

    ghost from_gives = { λ fault cause. cause ≡ cause_of fault };

    fn from(fault: PathFault) -> TagCause {
        match fault {
            PathFault::Memory => TagCause::Memory,
            _ => TagCause::Line(LineCause::BadPath(fault)),
        }
    }
}
