//! What is wrong with a bag.
use bag_digest::Alg;
use bag_path::BagPath;
use bag_tags::{DeclFault, LineCause, LineFile, ManifestName};

/// What is wrong with a bag. A report gives faults in this order: by kind of fault, then by file, line and path.
#[derive(Debug, PartialEq, Eq, PartialOrd, Ord, Drop)]
pub enum Fault {
    /// There is no `bagit.txt` (RFC 8493 section 2.1.1).
    NoDeclaration,
    /// `bagit.txt` can't be read.
    BadDeclaration(DeclFault),
    /// There is no payload directory `data/` (section 2.1.2).
    NoPayloadDir,
    /// There is no payload manifest (section 2.1.3).
    NoManifest,
    /// A line of a manifest, of `bag-info.txt` or of `fetch.txt` can't be read. This is the first such line of the
    /// file, counted from 1.
    BadLine {
        file: LineFile,
        line: u64,
        cause: LineCause,
    },
    /// A tag manifest doesn't list a payload manifest (section 2.2.1).
    ManifestNotListed {
        tag_manifest: Alg,
        manifest: Alg,
    },
    /// A `Payload-Oxum` isn't two numbers joined by a dot (section 2.2.2).
    OxumForm,
    /// There is more than one `Payload-Oxum`.
    OxumTwice,
    /// A file that a manifest lists isn't there (section 3).
    Missing {
        manifest: ManifestName,
        path: BagPath,
    },
    /// A payload file isn't listed in this payload manifest (section 3). In version 0.97 it is listed in none, and
    /// this is the first one by file name.
    Unlisted {
        manifest: Alg,
        path: BagPath,
    },
    /// A path of `fetch.txt` isn't listed in this payload manifest (section 2.2.3). In version 0.97 it is listed in
    /// none, and this is the first one by file name.
    FetchNotListed {
        manifest: Alg,
        path: BagPath,
    },
    /// The length of a file differs from the one that this line of `fetch.txt`, counted from 1, gives (section 2.2.3).
    FetchLength {
        line: u64,
        path: BagPath,
    },
    /// The number of octets or of files in the payload differs from `Payload-Oxum` (section 2.2.2).
    OxumWrong,
    /// The digest of a file differs from the one that this manifest lists (section 3).
    WrongDigest {
        manifest: ManifestName,
        path: BagPath,
    },
}

impl Fault {
    ghost use Rattle.std.specs.Prelude.{◌≡◌};
    ghost use Rattle.bag_rules.specs.Faults.{number_of};

    /// The number of the kind of fault, from 1 to 14. Kinds 1 and 2 are faults of the declaration, 3 to 8 of the form
    /// and 9 to 14 of the files. A bag with a fault of kind 1 to 13 isn't complete. Kind 14 is a wrong digest.
    pub fn number(&self) -> u8
        ensures { result ≡ number_of self.now }
    {
        match self {
            Fault::NoDeclaration => 1,
            Fault::BadDeclaration(_) => 2,
            Fault::NoPayloadDir => 3,
            Fault::NoManifest => 4,
            Fault::BadLine { .. } => 5,
            Fault::ManifestNotListed { .. } => 6,
            Fault::OxumForm => 7,
            Fault::OxumTwice => 8,
            Fault::Missing { .. } => 9,
            Fault::Unlisted { .. } => 10,
            Fault::FetchNotListed { .. } => 11,
            Fault::FetchLength { .. } => 12,
            Fault::OxumWrong => 13,
            Fault::WrongDigest { .. } => 14,
        }
    }
}
