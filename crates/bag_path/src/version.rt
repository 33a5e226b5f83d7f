//! Versions of the format.

/// A version of the format. It determines how paths are spelled and everything else that differs between versions.
#[derive(Clone, Copy, Debug, PartialEq, Eq)]
pub enum Version {
    /// BagIt 1.0 (RFC 8493): `%0A` is LF, `%0D` is CR and `%25` is `%`, with hex letters in either case. No other `%`
    /// is allowed.
    V1,
    /// BagIt 0.97, as this project reads it: `%0A` is LF and `%0D` is CR, with hex letters in either case. Every other
    /// `%` stands for itself.
    V097,
}

impl Version {
    ghost use Rattle.std.specs.Prelude.{◌≡◌};
    ghost use Rattle.bag_path.specs.Versions.{version_numbered};

    /// The version with these numbers, of which the first is before the dot and the second after it. `None` if it isn't
    /// known here.
    pub fn numbered(major: u32, minor: u32) -> Option<Version>
        ensures { result ≡ version_numbered major minor }
    {
        match (major, minor) {
            (1, 0) => Some(Version::V1),
            (0, 97) => Some(Version::V097),
            _ => None,
        }
    }
}
