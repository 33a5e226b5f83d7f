//! Which payload manifests have to list a path (RFC 8493 sections 2.2.3 and 3).
ghost use Rattle.std.specs.Prelude.{◌≡◌, ◌↔◌, true};
ghost use Rattle.bag_digest.specs.Algorithm.{has};
ghost use Rattle.bag_digest.specs.declared.algorithm.Alg.{Alg};
ghost use Rattle.bag_rules.specs.FilesInside.{HasPayloadListing, IsUnlistedIn};
ghost use Rattle.bag_digest.specs.Algorithm.{IsFirstAmong};

use bag_digest::{Alg, AlgSet};
use bag_path::{BagPath, Version};
use bag_tags::{Kind, Manifest};

/// The algorithms of the payload manifests that are reported because a path isn't listed as required. In version 1.0
/// these are all manifests that don't list it. In version 0.97 it is the first one by file name, if none lists it.
pub(crate) fn unlisted_in(version: Version, manifests: &[Manifest], path: &BagPath) -> AlgSet
    ensures { (alg : Alg)
        → (has result alg ≡ true) ↔ IsUnlistedIn version manifests.now alg path.now }
{
    let others = payload_algs(manifests, path, false);
    match version {
        Version::V1 => others,
        Version::V097 if payload_algs(manifests, path, true).is_empty() => only_first(others),
        Version::V097 => AlgSet::empty(),
    }
}

/// The algorithms of the payload manifests that list the path, or of those that don't.
fn payload_algs(manifests: &[Manifest], path: &BagPath, lists: bool) -> AlgSet
    ensures { (alg : Alg)
        → (has result alg ≡ true) ↔ HasPayloadListing manifests.now path.now lists alg }
{
    let mut set = AlgSet::empty();
    for manifest in manifests {
        if manifest.kind() == Kind::Payload && manifest.get(path).is_some() == lists {
            set = set.with(manifest.alg());
        }
    }
    set
}

/// The first algorithm of a set as a set of its own, or the empty set.
fn only_first(set: AlgSet) -> AlgSet
    ensures { (alg : Alg)
        → (has result alg ≡ true) ↔ IsFirstAmong (λ other. has set other ≡ true) alg }
{
    match set.first() {
        Some(alg) => AlgSet::empty().with(alg),
        None => AlgSet::empty(),
    }
}
