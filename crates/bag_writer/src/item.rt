//! Files that were written or are holes, as manifests list them.
use bag_digest::Sums;
use bag_path::BagPath;

/// A file, as manifests and `fetch.txt` need it.
#[derive(Drop)]
pub(crate) struct Item {
    /// The path of the file from the base directory.
    pub(crate) path: BagPath,
    /// Its length, and its digests by the algorithms of the bag.
    pub(crate) sums: Sums,
}
