//! What is found of a payload file that was read again.
ghost use Rattle.std.specs.Prelude.{◌≡◌, ℕ, List, length};
ghost use Rattle.bag_digest.specs.ShortContents.{IsHeld, Took};
ghost use Rattle.bag_digest.specs.declared.algorithm.AlgSet.{AlgSet};
ghost use Rattle.bag_rules.specs.Wants.{CoversWant};

use bag_digest::{Content, Sums};
use bag_rules::Want;

/// What is found of a payload file that was read again.
#[derive(Drop)]
pub enum Finding<'a> {
    /// It is valid.
    Valid,
    /// It isn't.
    Damaged,
    /// It is valid exactly if this is the content that is wanted, which isn't known yet.
    Untested(Want<'a>, Vec<u8>),
}

impl<'a> Finding<'a> {
    ghost use Rattle.bag_ledger.specs.Findings.{FindsContent, HoldsLittle};

    /// What is found of a payload file that has so many octets, once its content was read. One that is held whole isn't
    /// tested, since several such contents are hashed side by side.
    pub fn of(want: Want<'a>, octets: u64, content: Content) -> Finding<'a>
        ensures told { (set : AlgSet) (taken : List ℕ) → CoversWant set want.entry
            → octets ≡ length taken → Took content set taken
            → FindsContent want.entry taken result }
        ensures little { IsHeld content octets octets → HoldsLittle result }
    {
        match content {
            Content::Whole(whole) => Finding::Untested(want, whole),
            Content::Hashed(multi) => {
                let sums = Sums {
                    length: octets,
                    digests: multi.finish(),
                };
                match want.test(&sums) {
                    Ok(()) => Finding::Valid,
                    Err(_) => Finding::Damaged,
                }
            }
        }
    }
}
