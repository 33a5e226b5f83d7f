//! Paths as they are given with a delivery.
ghost use Rattle.std.specs.Prelude.{◌≡◌, ℕ, List, MatchResult};
ghost use Rattle.bag_path.specs.Paths.{IsPath, RefusesPath};

use bag_path::{BagPath, PathFault};
use std::alloc::Global;

/// What is given as the path of a delivery: a path, or a text that may be invalid as one.
pub trait GivenPath: Drop {
    /// Its octets.
    ghost text: { Self → List ℕ };

    /// The path with these octets.
    ///
    /// # Errors
    ///
    /// The first fault of a text that is no path, or `Memory` if memory runs out.
    fn into_path(self, alloc: Global) -> Result<BagPath, PathFault>
        ensures { MatchResult result (λ path. (path ≡ text self) × IsPath (text self))
            (λ fault. RefusesPath fault (text self)) };
}

impl GivenPath for &str {
    ghost text = { λ text. text.now };

    fn into_path(self, alloc: Global) -> Result<BagPath, PathFault> {
        BagPath::parse(alloc, self)
    }
}

impl GivenPath for &BagPath {
    ghost text = { λ path. path.now };

    fn into_path(self, _alloc: Global) -> Result<BagPath, PathFault> {
        // That it is a path is what `as_str` promises.
        let _text = self.as_str();
        Ok(self.clone()?)
    }
}
