//! What is kept of a content when its octets aren't.

use crate::algorithm::AlgSet;
use crate::multi::{Digests, Multi};

/// The length of a content, and its digests.
#[derive(Clone, Copy, Debug, PartialEq, Eq)]
pub struct Sums {
    /// The number of its octets.
    pub length: u64,
    /// Its digests.
    pub digests: Digests,
}

impl Sums {
    ghost use Rattle.bag_digest.specs.Reading.{AreSums};

    /// The length of these octets, and their digests by the algorithms of the set.
    pub fn of(octets: &[u8], set: AlgSet) -> Sums
        ensures { AreSums result set octets.now }
    {
        let mut multi = Multi::new(set);
        multi.update(octets);
        Sums {
            length: octets.len() as u64,
            digests: multi.finish(),
        }
    }
}
