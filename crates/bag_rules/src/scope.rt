//! Finds out whether a bag can be judged by more than its declaration (RFC 8493 section 2.1.1).
ghost use Rattle.std.specs.Prelude.{◌≡◌, ◌<◌, [], Contains, IfErr, IfOk, MatchOption, MatchResult, Ok, Some, length, slice_get, string_bytes, true};
ghost use Rattle.bag_tags.specs.Declarations.{version_of};
ghost use Rattle.bag_rules.specs.Bags.{Bag, HasFilesOf, HoldsFile, IsBagOf, declaration_file};
ghost use Rattle.bag_rules.specs.JudgingInside.{IsFirstUnknownOf, MatchOutside, NoneUnknown};
ghost use Rattle.bag_rules.specs.KeptInside.{ReadsAndKeeps};
ghost use Rattle.bag_rules.specs.Limits.{DeclarationStops, FirstStops, NoneStops, Stopped};
ghost use Rattle.bag_rules.specs.OctetsRead.{IsBagBy, KnownOctets, ReadsAndKnows};
ghost use Rattle.bag_rules.specs.Scopes.{HasScope};
ghost use Rattle.bag_rules.specs.Trees.{AreRising, octets_in, paths_in};
ghost use Rattle.bag_rules.specs.declared.fault.Fault.TheVariants.{NoDeclaration};
ghost use Rattle.bag_rules.specs.declared.scope.Scope.TheVariants.{Broken};

use crate::fault::Fault;
use crate::outcome::CheckFault;
use crate::tag_sums::TagSums;
use crate::tag_texts::read_tag_file;
use crate::tree::{Paths, Tree, find};
use bag_path::Version;
use bag_tags::{Declaration, read_declaration, unknown_algorithm};
use std::alloc::{AllocError, Global};

/// Why a bag can't be judged here.
#[derive(Debug, Drop)]
pub enum OutsideCause {
    /// `bagit.txt` declares a version that is neither 1.0 nor 0.97.
    Version,
    /// `bagit.txt` declares an encoding of the tag files other than UTF-8.
    Encoding,
    /// The algorithm of a manifest isn't md5, sha1, sha256 or sha512. This is its name in the first such manifest by
    /// file name.
    Algorithm(String),
}

/// What the declaration and the names of the manifests say about a bag.
#[derive(Debug, Drop)]
pub(crate) enum Scope {
    /// The bag declares this version and UTF-8, and the algorithms of all its manifests are known.
    Known(Version),
    /// The bag can't be judged, for this cause.
    Unknown(OutsideCause),
    /// The declaration is missing or can't be read. This is the only fault that is reported.
    Broken(Fault),
}

/// Reads the declaration of the bag that a tree holds, and looks at the names of its manifests.
pub(crate) fn read_scope<T: Tree>(
    alloc: Global,
    buffer: &mut [u8],
    tree: &mut T,
    kept: &mut TagSums,
) -> Result<Scope, CheckFault>
    requires ready { (0 < length buffer.old) × AreRising (paths_in (T.shown tree.old)) }
    ensures scope { (bag : Bag) → IsBagOf (T.shown tree.old) bag → IfOk result (HasScope bag) }
    ensures limits { (bag : Bag) → IsBagOf (T.shown tree.old) bag
        → MatchResult result (λ scope. NoneStops bag DeclarationStops)
        (Stopped (FirstStops bag DeclarationStops)) }
    // A case in which the octets need not be known: there is no declaration.
    ensures undeclared { ¬ Contains (paths_in (T.shown tree.old)) declaration_file
        → result ≡ Ok (Broken NoDeclaration) }
    ensures some { kept.old.files.items ≡ [] → IfOk result (λ scope. (found : KnownOctets)
        × ReadsAndKnows (λ path. path ≡ declaration_file) (T.shown tree.old) kept.old kept.new
        (octets_in (T.shown tree.old)) found
        × ((bag : Bag) → IsBagBy (T.shown tree.old) found bag → HasScope bag scope)) }
    ensures reads { ReadsAndKeeps T.shown T.failures T.sure tree.old tree.new kept.old kept.new
        result }
{
    match find(tree, "bagit.txt") {
        Some(i) => read_declared(alloc, buffer, tree, i, kept),
        None => Ok(Scope::Broken(Fault::NoDeclaration)),
    }
}

/// Reads the declaration at this place.
fn read_declared<T: Tree>(
    alloc: Global,
    buffer: &mut [u8],
    tree: &mut T,
    i: usize,
    kept: &mut TagSums,
) -> Result<Scope, CheckFault>
    requires ready { (0 < length buffer.old) × AreRising (paths_in (T.shown tree.old)) }
    requires there { slice_get (paths_in (T.shown tree.old)) i ≡ Some declaration_file }
    ensures scope { (bag : Bag) → IsBagOf (T.shown tree.old) bag → IfOk result (HasScope bag) }
    ensures limits { (bag : Bag) → IsBagOf (T.shown tree.old) bag
        → MatchResult result (λ scope. NoneStops bag DeclarationStops)
        (Stopped (FirstStops bag DeclarationStops)) }
    ensures some { kept.old.files.items ≡ [] → IfOk result (λ scope. (found : KnownOctets)
        × ReadsAndKnows (λ path. path ≡ declaration_file) (T.shown tree.old) kept.old kept.new
        (octets_in (T.shown tree.old)) found
        × ((bag : Bag) → IsBagBy (T.shown tree.old) found bag → HasScope bag scope)) }
    ensures reads { ReadsAndKeeps T.shown T.failures T.sure tree.old tree.new kept.old kept.new
        result }
{
    let text = read_tag_file(alloc, buffer, tree, i)?;
    kept.keep(i, &text)?;
    Ok(scope_of(alloc, tree, &text)?)
}

/// What the declaration with this text and the names of the manifests say.
pub(crate) fn scope_of<T: Paths>(alloc: Global, tree: &T, text: &[u8]) -> Result<Scope, AllocError>
    requires { AreRising (paths_in (T.shown tree.now)) }
    ensures { (bag : Bag) → HasFilesOf (T.shown tree.now) bag
        → HoldsFile bag declaration_file text.now → IfOk result (HasScope bag) }
{
    let declaration = match read_declaration(text) {
        Ok(declaration) => declaration,
        Err(cause) => return Ok(Scope::Broken(Fault::BadDeclaration(cause))),
    };
    let version = match known_version(declaration) {
        Ok(version) => version,
        Err(cause) => return Ok(Scope::Unknown(cause)),
    };
    match first_unknown(alloc, tree)? {
        Some(name) => Ok(Scope::Unknown(OutsideCause::Algorithm(name))),
        None => Ok(Scope::Known(version)),
    }
}

/// The version that is declared, or why a bag with this declaration can't be judged.
fn known_version(declaration: Declaration) -> Result<Version, OutsideCause>
    ensures { MatchResult result
        (λ version. (version_of declaration ≡ Some version) × (declaration.utf8 ≡ true))
        (λ cause. MatchOutside cause declaration) }
{
    let Some(version) = declaration.version() else {
        return Err(OutsideCause::Version);
    };
    if !declaration.utf8 {
        return Err(OutsideCause::Encoding);
    }
    Ok(version)
}

/// The algorithm of the first manifest by file name whose algorithm isn't known.
fn first_unknown<T: Paths>(alloc: Global, tree: &T) -> Result<Option<String>, AllocError>
    ensures { IfOk result (λ found. MatchOption found
        (NoneUnknown (paths_in (T.shown tree.now)) (length (paths_in (T.shown tree.now))))
        (λ name. IsFirstUnknownOf (paths_in (T.shown tree.now)) (string_bytes name))) }
{
    for i in 0..tree.count() {
        if let Some(name) = unknown_algorithm(tree.path(i)) {
            return Ok(Some(String::from_str(alloc, name)?));
        }
    }
    Ok(None)
}
