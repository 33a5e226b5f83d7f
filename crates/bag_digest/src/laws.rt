//! Laws about the algorithms and the spelling of digests. The contract of each function states one law, and its body is
//! empty.
ghost use Rattle.std.specs.Prelude.{◌≡◌, ℕ, List, [], ◌∷◌};
ghost use Rattle.bag_digest.specs.declared.algorithm.Alg.{Alg};
ghost use Rattle.bag_digest.specs.declared.algorithm.Alg.TheVariants.{Md5, Sha1, Sha256, Sha512};
ghost use Rattle.bag_digest.specs.declared.algorithm.TheConstants.Alg.{ALL};
ghost use Rattle.std.specs.Ordering.{nat_cmp};
ghost use Rattle.bag_digest.specs.contracts.algorithm.AlgOrd.TheImpl as order;
ghost use Rattle.bag_digest.specs.Algorithm.{place_of};
ghost use Rattle.bag_digest.specs.declared.digest.Digest.{Digest};
ghost use Rattle.bag_digest.specs.Hash.{alg_of};
ghost use Rattle.bag_digest.specs.Spelling.{lower_case_of, SpellsDigest, IsWhole};

/// `Alg::ALL` has each of the four algorithms once, in their order.
pub fn all_are_four_in_order()
    ensures { ALL ≡ Md5 ∷ Sha1 ∷ Sha256 ∷ Sha512 ∷ [] }
{}

/// Algorithms are ordered by their places among the four.
pub fn the_order_of_algorithms_is_that_of_their_places()
    ensures { (a b : Alg) → order.ghosts.cmp a b ≡ nat_cmp (place_of a) (place_of b) }
{}

/// A text spells at most one digest by an algorithm.
pub fn one_digest_is_spelled()
    ensures { (alg : Alg) (text : List ℕ) (a b : Digest)
        → SpellsDigest alg text a → SpellsDigest alg text b → a ≡ b }
{}

/// The lower case spelling of a digest spells it, by its own algorithm.
pub fn lower_case_spells_it()
    ensures { (digest : Digest)
        → IsWhole digest → SpellsDigest (alg_of digest) (lower_case_of digest) digest }
{}
