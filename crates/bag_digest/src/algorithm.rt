//! The digest algorithms, and sets of them.
ghost use Rattle.std.specs.Prelude.{◌≡◌, ◌||◌, ◌↔◌, IsTrue, IfSome, MatchOption, Some, false, true};

/// A digest algorithm of manifests: MD5 (RFC 1321), or SHA-1, SHA-256 or SHA-512 (FIPS 180-4).
///
/// The order of the variants is the order in which the algorithms of a bag are processed.
#[derive(Clone, Copy, Debug, PartialEq, Eq, PartialOrd, Ord)]
pub enum Alg {
    Md5,
    Sha1,
    Sha256,
    Sha512,
}

impl Alg {
    ghost use Rattle.bag_digest.specs.declared.algorithm.Alg.{Alg};
    ghost use Rattle.bag_digest.specs.Algorithm.{size_of, name_of};

    /// All four algorithms, in order.
    pub const ALL: [Alg; 4] = [Alg::Md5, Alg::Sha1, Alg::Sha256, Alg::Sha512];

    /// The algorithm with this name, as it appears in the name of a manifest (RFC 8493 section 2.4): `md5`, `sha1`,
    /// `sha256` or `sha512`. Any other text gives `None`, including a name in upper case.
    pub fn from_name(text: &str) -> Option<Alg>
        ensures found { IfSome result (λ alg. text.now ≡ name_of alg) }
        ensures each { (alg : Alg) → text.now ≡ name_of alg → result ≡ Some alg }
    {
        match text {
            "md5" => Some(Alg::Md5),
            "sha1" => Some(Alg::Sha1),
            "sha256" => Some(Alg::Sha256),
            "sha512" => Some(Alg::Sha512),
            _ => None,
        }
    }

    /// The name, as it appears in the name of a manifest.
    pub fn name(self) -> &'static str
        ensures { result.now ≡ name_of self }
    {
        match self {
            Alg::Md5 => "md5",
            Alg::Sha1 => "sha1",
            Alg::Sha256 => "sha256",
            Alg::Sha512 => "sha512",
        }
    }

    /// The length of a digest in octets, which is half the number of its hex digits.
    pub fn len(self) -> usize
        ensures { result ≡ size_of self }
    {
        match self {
            Alg::Md5 => 16,
            Alg::Sha1 => 20,
            Alg::Sha256 => 32,
            Alg::Sha512 => 64,
        }
    }
}

/// A set of algorithms.
#[derive(Clone, Copy, Debug, PartialEq, Eq)]
pub struct AlgSet {
    md5: bool,
    sha1: bool,
    sha256: bool,
    sha512: bool,
}

impl AlgSet {
    ghost use Rattle.bag_digest.specs.Algorithm.{IsFirstAmong, has, is_alg};

    /// The empty set.
    pub fn empty() -> AlgSet
        ensures { (alg : Alg) → has result alg ≡ false }
    {
        AlgSet {
            md5: false,
            sha1: false,
            sha256: false,
            sha512: false,
        }
    }

    /// This set with the algorithm added. If the algorithm is in it already, this is the same set.
    pub fn with(self, alg: Alg) -> AlgSet
        ensures { (other : Alg) → has result other ≡ (is_alg alg other || has self other) }
    {
        let mut set = self;
        match alg {
            Alg::Md5 => set.md5 = true,
            Alg::Sha1 => set.sha1 = true,
            Alg::Sha256 => set.sha256 = true,
            Alg::Sha512 => set.sha512 = true,
        }
        set
    }

    /// The algorithms that are in one of the two sets.
    pub fn union(self, other: AlgSet) -> AlgSet
        ensures { (alg : Alg) → has result alg ≡ (has self alg || has other alg) }
    {
        AlgSet {
            md5: self.md5 || other.md5,
            sha1: self.sha1 || other.sha1,
            sha256: self.sha256 || other.sha256,
            sha512: self.sha512 || other.sha512,
        }
    }

    /// Whether the algorithm is in the set.
    pub fn has(self, alg: Alg) -> bool
        ensures { result ≡ has self alg }
    {
        match alg {
            Alg::Md5 => self.md5,
            Alg::Sha1 => self.sha1,
            Alg::Sha256 => self.sha256,
            Alg::Sha512 => self.sha512,
        }
    }

    /// Whether the set has each algorithm of the other.
    pub fn covers(self, other: AlgSet) -> bool
        ensures { IsTrue result ↔ ((alg : Alg) → has other alg ≡ true → has self alg ≡ true) }
    {
        self.union(other) == self
    }

    /// The first algorithm of the set, if it has any. The order of [`Alg::ALL`] is also that of the file names of the
    /// manifests.
    pub fn first(self) -> Option<Alg>
        ensures { MatchOption result ((alg : Alg) → has self alg ≡ false)
            (IsFirstAmong (λ alg. has self alg ≡ true)) }
    {
        for alg in Alg::ALL {
            if self.has(alg) {
                return Some(alg);
            }
        }
        None
    }

    /// Whether no algorithm is in the set.
    pub fn is_empty(self) -> bool
        ensures { IsTrue result ↔ ((alg : Alg) → has self alg ≡ false) }
    {
        !(self.md5 || self.sha1 || self.sha256 || self.sha512)
    }
}
