//! The directory of a bag to which the files of a folder belong.
ghost use Rattle.std.specs.Prelude.{◌≡◌};
ghost use Rattle.bag_folder.specs.Folders.{path_below};

/// The directory of a bag to which the files of a folder belong (RFC 8493 section 2).
#[derive(Clone, Copy, Debug, PartialEq, Eq)]
pub enum Root {
    /// The base directory: a file's path in the bag is its path in the folder.
    Base,
    /// The payload directory: a file's path in the bag is `data/` followed by its path in the folder.
    Payload,
}

impl Root {
    /// The path in the folder of the file with this path in the bag.
    pub fn path_below(self, path: &str) -> &str
        ensures { result.now ≡ path_below self path.now }
    {
        match self {
            Root::Base => path,
            Root::Payload => path.strip_prefix("data/").unwrap_or(path),
        }
    }
}
