//! Checks the bag that a tree holds (RFC 8493 section 3).
ghost use Rattle.std.specs.Prelude.{◌≡◌, ◌<◌, ◌∷◌, [], Contains, IfErr, IfOk, IsErrOf, MatchResult, length, true};
ghost use Rattle.bag_digest.specs.Algorithm.{has};
ghost use Rattle.bag_digest.specs.declared.algorithm.Alg.{Alg};
ghost use Rattle.bag_tags.specs.declared.listing.Kind.TheVariants.{Tag};
ghost use Rattle.bag_tags.specs.Names.{manifest_file};
ghost use Rattle.bag_rules.specs.Bags.{Bag, IsBagOf, declaration_file};
ghost use Rattle.bag_rules.specs.Checking.{ChecksTree};
ghost use Rattle.bag_rules.specs.KeptInside.{AreKept};
ghost use Rattle.bag_rules.specs.Limits.{ScopeStops, Stopped, Stops};
ghost use Rattle.bag_rules.specs.OctetsRead.{Extends, IsBagBy, KeepsOnly, KeepsTagAlgs, KnownOctets, KnowsFrom};
ghost use Rattle.bag_rules.specs.Scopes.{HasScope};
ghost use Rattle.bag_rules.specs.Trees.{AreRising, UsesTree, paths_in};
ghost use Rattle.bag_rules.specs.Validity.{Means};
ghost use Rattle.bag_rules.specs.Verdicts.{AnswersPaths, IsVerdict};
ghost use Rattle.bag_rules.specs.declared.outcome.CheckFault.{CheckFault};
ghost use Rattle.bag_rules.specs.declared.outcome.Outcome.TheVariants.{Judged};
ghost use Rattle.bag_rules.specs.declared.scope.Scope.TheVariants.{Known};

use crate::fault::Fault;
use crate::file_faults::add_file_faults;
use crate::form_faults::add_form_faults;
use crate::limits::MOST_FILES;
use crate::open_tree::OpenTree;
use crate::outcome::{CheckFault, Outcome};
use crate::report::Report;
use crate::scope::{Scope, read_scope};
use crate::tag_sums::TagSums;
use crate::tag_texts::read_texts;
use crate::tree::Paths;
use bag_digest::{AlgSet, FRONT, buffer_of};
use bag_path::Version;
use bag_tags::TagName;
use std::alloc::Global;

/// Judges a tree as a bag (RFC 8493 section 3). Returns the faults of the bag in order, or why it can't be judged.
///
/// The order of work is: the number of files; `bagit.txt`; the manifests, `bag-info.txt` and `fetch.txt` by file name;
/// then the payload files and the listed files by path, each read once. The first limit that is exceeded and the first
/// failure of the tree end the work. So do faults of the declaration, a bag that can't be judged, and faults of the
/// form.
///
/// # Errors
///
/// `TooMany`: there are more than 200,000 files, or more than 100,000 lines in a manifest or in `fetch.txt`.
/// `TagTooLarge`: `bagit.txt`, or a tag file that is read line by line, has more than 16,777,216 octets. `TooLarge`: a
/// payload file or a listed file has more than 2^40 octets. `Tree`: a call of the tree failed, and the tree has counted
/// it. `Memory`: memory ran out.
pub fn check<T: OpenTree>(alloc: Global, tree: &mut T) -> Result<Outcome, CheckFault>
    ensures { ChecksTree T.shown T.failures T.sure tree.old tree.new result }
{
    if tree.count() > MOST_FILES {
        return Err(CheckFault::TooMany);
    }
    let mut buffer = buffer_of(alloc, FRONT)?;
    let mut kept = TagSums::new(alloc, tag_algorithms(tree));
    match read_scope(alloc, buffer.as_mut_slice(), tree, &mut kept)? {
        Scope::Known(version) => {
            check_in_scope(alloc, buffer.as_mut_slice(), tree, version, &mut kept)
        }
        Scope::Unknown(cause) => Ok(Outcome::Outside(cause)),
        Scope::Broken(fault) => judged_by_one(alloc, fault),
    }
}

/// The report of one fault.
fn judged_by_one(alloc: Global, fault: Fault) -> Result<Outcome, CheckFault>
    ensures ok { IfOk result (λ outcome. outcome ≡ Judged (fault ∷ [])) }
    ensures err { IfErr result (λ fault. fault ≡ CheckFault.Memory) }
{
    let mut faults = Vec::new(alloc);
    faults.push(fault)?;
    Ok(Outcome::Judged(Report::new(faults)))
}

/// Checks the form of a bag in scope and then, if the form is right, its files.
fn check_in_scope<T: OpenTree>(
    alloc: Global,
    buffer: &mut [u8],
    tree: &mut T,
    version: Version,
    kept: &mut TagSums,
) -> Result<Outcome, CheckFault>
    requires ready { (length buffer.old ≡ FRONT) × AreRising (paths_in (T.shown tree.old)) }
    requires kept { AreKept (T.shown tree.old) kept.old }
    ensures verdict { (bag : Bag) → IsBagOf (T.shown tree.old) bag → HasScope bag (Known version)
        → IfOk result (IsVerdict bag) }
    ensures limits { (bag : Bag) → IsBagOf (T.shown tree.old) bag → HasScope bag (Known version)
        → MatchResult result (λ outcome. (fault : CheckFault) → ¬ ScopeStops bag fault)
        (Stopped (ScopeStops bag)) }
    ensures some { (known : KnownOctets) → KnowsFrom 0 (T.shown tree.old) kept.old known
        → KeepsOnly (T.shown tree.old) kept.old (λ path. path ≡ declaration_file)
        → KeepsTagAlgs (T.shown tree.old) kept.old
        → ((bag : Bag) → IsBagBy (T.shown tree.old) known bag → HasScope bag (Known version))
        → IfOk result (λ outcome. (found : KnownOctets) × Extends known found
        × ((bag : Bag) → IsBagBy (T.shown tree.old) found bag → IsVerdict bag outcome)) }
    ensures tree { UsesTree T.shown T.failures T.sure tree.old tree.new
        (IsErrOf result CheckFault.Tree) }
{
    let mut faults = Vec::new(alloc);
    let texts = read_texts(alloc, buffer, tree, version, kept, &mut faults)?;
    add_form_faults(tree, &texts, &mut faults)?;
    if faults.is_empty() {
        add_file_faults(alloc, buffer, tree, version, &texts, kept, &mut faults)?;
    }
    Ok(Outcome::Judged(Report::new(faults)))
}

/// The algorithms of the tag manifests that are there. Any of them may list a tag file.
fn tag_algorithms<T: Paths>(tree: &T) -> AlgSet
    ensures { (alg : Alg) → Contains (paths_in (T.shown tree.now)) (manifest_file Tag alg)
        → has result alg ≡ true }
{
    let mut set = AlgSet::empty();
    for i in 0..tree.count() {
        if let TagName::TagManifest(alg) = TagName::of(tree.path(i)) {
            set = set.with(alg);
        }
    }
    set
}
