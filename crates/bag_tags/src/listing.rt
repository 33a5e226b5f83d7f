//! What a manifest lists.
use crate::name::names_tag_manifest;
use bag_digest::Digest;
use bag_path::BagPath;
use std::alloc::AllocError;
use thiserror::Error;

/// Whether a manifest lists payload files (RFC 8493 section 2.1.3) or tag files (section 2.2.1).
#[derive(Clone, Copy, Debug, PartialEq, Eq, PartialOrd, Ord)]
pub enum Kind {
    /// Payload files, in `manifest-ALG.txt`.
    Payload,
    /// Tag files, in `tagmanifest-ALG.txt`.
    Tag,
}

impl Kind {
    ghost use Rattle.std.specs.Prelude.{◌↔◌, IsTrue};
    ghost use Rattle.bag_tags.specs.Listings.{IsInPlace};

    /// Whether a manifest of this kind may list the path.
    pub fn takes(self, path: &BagPath) -> bool
        ensures { IsTrue result ↔ IsInPlace self path.now }
    {
        match self {
            Kind::Payload => path.is_payload(),
            Kind::Tag => !path.is_payload() && !names_tag_manifest(path),
        }
    }
}

/// A listed file.
#[derive(Debug, Drop)]
pub struct Pair {
    /// The path of the file from the base directory.
    pub path: BagPath,
    /// The digest of its octets.
    pub digest: Digest,
}

/// Why a pair isn't added to a manifest. If several causes apply, the first in this order is returned, but `Memory` may
/// be returned in place of any other.
#[derive(Clone, Copy, Debug, PartialEq, Eq, Error)]
pub enum PushFault {
    /// The algorithm of the digest isn't that of the manifest.
    #[error("a digest by another algorithm")]
    WrongAlg,
    /// A manifest of this kind may not list the path.
    #[error("a path of the wrong place")]
    WrongPlace,
    /// The path is listed already.
    #[error("a path that is listed already")]
    Twice,
    /// Memory ran out.
    #[error("out of memory")]
    Memory,
}

impl From<AllocError> for PushFault {
    ghost use Rattle.std.specs.Prelude.{◌≡◌};
    ghost use Rattle.bag_tags.specs.declared.listing.PushFault.TheVariants.{Memory};

    ghost from_gives = { λ error fault. fault ≡ Memory };

    fn from(_: AllocError) -> PushFault {
        PushFault::Memory
    }
}
