//! What exceeds a limit.
use crate::told_name::ToldName;
use bag_folder::Root;
use bag_path::BagPath;
use std::fmt::{self, Display, Formatter};

/// A limit that a folder or a file exceeds. The name that is told with it is that of this, or for a limit with a path
/// that of the folder which the path begins in.
#[derive(Debug, Drop)]
pub enum Limit {
    /// The size of the tag file with this path.
    TagFile(BagPath),
    /// The size of the file with this path.
    File(BagPath),
    /// The number of files in a folder.
    Files,
    /// The number of lines in a tag file.
    Lines,
    /// The number of files in a folder of which a bag is made.
    NewPayload,
    /// The size of the payload file with this path, in such a folder.
    NewFile(BagPath),
    /// The size that the tag file with this path would have in the bag of such a folder.
    NewTagFile(BagPath),
    /// The number of payload files that are delivered from a folder.
    Deliveries,
}

impl Limit {
    ghost use Rattle.std.specs.Prelude.{◌≡◌};
    ghost use Rattle.bag_program.specs.Endings.{limit_text, told_path, unmade_path};

    /// The path of the file that exceeds it, below the folder that is named.
    fn path(&self) -> Option<ToldName<'_>>
        ensures { result ≡ told_path self.now }
    {
        match self {
            Limit::TagFile(path) | Limit::File(path) => Some(ToldName::of(path.as_str())),
            Limit::NewFile(path) => Some(ToldName::of(Root::Payload.path_below(path.as_str()))),
            Limit::Files
            | Limit::Lines
            | Limit::NewPayload
            | Limit::NewTagFile(_)
            | Limit::Deliveries => None,
        }
    }

    /// The path of the tag file that would exceed it, in the bag that isn't made.
    fn unmade_path(&self) -> Option<ToldName<'_>>
        ensures { result ≡ unmade_path self.now }
    {
        match self {
            Limit::NewTagFile(path) => Some(ToldName::of(path.as_str())),
            Limit::TagFile(_)
            | Limit::File(_)
            | Limit::Files
            | Limit::Lines
            | Limit::NewPayload
            | Limit::NewFile(_)
            | Limit::Deliveries => None,
        }
    }

    /// What is said of the thing that exceeds it.
    fn text(&self) -> &'static str
        ensures { result.now ≡ limit_text self.now }
    {
        match self {
            Limit::TagFile(_) => "it has more than 16,777,216 octets",
            Limit::File(_) | Limit::NewFile(_) => "it has more than 1,099,511,627,776 octets",
            Limit::Files => "it has more than 200,000 files",
            Limit::Lines => "it has more than 100,000 lines",
            Limit::NewPayload => "it has more than 100,000 files",
            Limit::NewTagFile(_) => "would have more than 16,777,216 octets",
            Limit::Deliveries => "it has more than 1,000,000 payload files below data/",
        }
    }
}

impl Display for Limit {
    fn fmt<W: fmt::Write>(&self, f: &mut Formatter<W>) -> fmt::Result {
        if let Some(path) = self.path() {
            write!(f, "/{path}")?;
        }
        f.write_str(": ")?;
        if let Some(path) = self.unmade_path() {
            write!(f, "{path} ")?;
        }
        f.write_str(self.text())
    }
}
