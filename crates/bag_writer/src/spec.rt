//! Specifications: how a bag is to be written.
use bag_digest::AlgSet;
use bag_path::BagPath;
use bag_tags::Info;

/// A payload file that isn't written, and its URL: an entry of `fetch.txt` (RFC 8493 section 2.2.3).
#[derive(Debug, Drop)]
pub struct Hole {
    /// The path of the file, which has to be a payload file.
    pub path: BagPath,
    /// The URL of the file: a scheme, a colon and something more without blanks and controls (RFC 3986 section 3).
    pub url: String,
}

/// How a bag is to be written, apart from its payload.
#[derive(Drop)]
pub struct Spec {
    /// The algorithms of its manifests and tag manifests: at least one.
    pub algs: AlgSet,
    /// The elements of `bag-info.txt` that come before `Payload-Oxum`. `Payload-Oxum` itself can't be among them.
    pub info: Info,
    /// The payload files that aren't written, in the order of `fetch.txt`. None may be there twice.
    pub holes: Vec<Hole>,
}
