//! What the files of a bag are, by their paths (RFC 8493 section 2).
ghost use Rattle.std.specs.Prelude.{◌≡◌, ◌↔◌, ◌++◌, ℕ, List, IsTrue, MatchOption, codes};
ghost use Rattle.bag_tags.specs.declared.name.TagName.{TagName};
ghost use Rattle.bag_tags.specs.Names.{IsWord, IsWordOctet, IsUnknownManifest, Names, NamesTagManifest};

use crate::listing::Kind;
use bag_digest::Alg;
use bag_path::BagPath;
use std::fmt::{self, Display, Formatter, Write};

/// What a file of a bag is, by its path. All but `Other` are in the base directory itself, and their names are matched
/// exactly.
#[derive(Clone, Copy, Debug, PartialEq, Eq)]
pub enum TagName {
    /// `bagit.txt` (RFC 8493 section 2.1.1).
    Declaration,
    /// `manifest-ALG.txt`, with one of the four known algorithms (RFC 8493 section 2.1.3).
    PayloadManifest(Alg),
    /// `tagmanifest-ALG.txt`, with one of the four known algorithms (RFC 8493 section 2.2.1).
    TagManifest(Alg),
    /// `manifest-X.txt` or `tagmanifest-X.txt`, where X is one or more ASCII letters, digits or `_` and not the name of
    /// a known algorithm. `unknown_algorithm` returns X.
    UnknownManifest,
    /// `bag-info.txt` (RFC 8493 section 2.2.2).
    Info,
    /// `fetch.txt` (RFC 8493 section 2.2.3).
    FetchList,
    /// Any other file: a payload file, or a tag file whose text has no meaning here.
    Other,
}

impl TagName {
    ghost use Rattle.std.specs.Prelude.{◌≡◌};
    ghost use Rattle.bag_tags.specs.declared.name.TagName.{TagName};
    ghost use Rattle.bag_tags.specs.Names.{Names, known_manifest};

    /// What the file at this path is.
    pub fn of(path: &BagPath) -> TagName
        ensures named { Names path.now result }
        ensures only { (name : TagName) → Names path.now name → result ≡ name }
    {
        let text = path.as_str();
        if text == "bagit.txt" {
            return TagName::Declaration;
        }
        if text == "bag-info.txt" {
            return TagName::Info;
        }
        if text == "fetch.txt" {
            return TagName::FetchList;
        }
        if let Some(word) = manifest_word(text, "manifest-") {
            return match Alg::from_name(word) {
                Some(alg) => TagName::PayloadManifest(alg),
                None => TagName::UnknownManifest,
            };
        }
        if let Some(word) = manifest_word(text, "tagmanifest-") {
            return match Alg::from_name(word) {
                Some(alg) => TagName::TagManifest(alg),
                None => TagName::UnknownManifest,
            };
        }
        TagName::Other
    }

    /// The manifest with this name, if its algorithm is known.
    pub fn manifest(self) -> Option<ManifestName>
        ensures { result ≡ known_manifest self }
    {
        let (kind, alg) = match self {
            TagName::PayloadManifest(alg) => (Kind::Payload, alg),
            TagName::TagManifest(alg) => (Kind::Tag, alg),
            _ => return None,
        };
        Some(ManifestName { kind, alg })
    }
}

/// The name of a manifest: what it lists and its algorithm. Names are ordered as the file names are.
#[derive(Clone, Copy, Debug, PartialEq, Eq, PartialOrd, Ord)]
pub struct ManifestName {
    /// Whether this is a payload manifest, `manifest-ALG.txt`, or a tag manifest, `tagmanifest-ALG.txt`.
    pub kind: Kind,
    /// The algorithm of its digests.
    pub alg: Alg,
}

impl Display for ManifestName {
    ghost use Rattle.std.specs.Prelude.{Some};
    ghost use Rattle.bag_tags.specs.Names.{file_of};

    ghost output = { λ name. Some (file_of name) };

    fn fmt<W: Write>(&self, f: &mut Formatter<W>) -> fmt::Result {
        let alg = self.alg.name();
        match self.kind {
            Kind::Payload => write!(f, "manifest-{alg}.txt"),
            Kind::Tag => write!(f, "tagmanifest-{alg}.txt"),
        }
    }
}

/// A tag file that is read line by line. The order is that of the file names.
#[derive(Clone, Copy, Debug, PartialEq, Eq, PartialOrd, Ord)]
pub enum LineFile {
    /// `bag-info.txt`, which `read_info` reads.
    Info,
    /// `fetch.txt`, which `read_fetch` reads.
    FetchList,
    /// `manifest-ALG.txt` or `tagmanifest-ALG.txt`, which `read_manifest` reads.
    Manifest(ManifestName),
}

impl LineFile {
    ghost use Rattle.std.specs.Prelude.{◌≡◌, ◌≢◌, MatchOption};
    ghost use Rattle.bag_tags.specs.Names.{text_file};
    ghost use Rattle.bag_tags.specs.declared.name.LineFile.{LineFile};

    /// The tag file with this path, if it is one that is read line by line.
    pub fn of(path: &BagPath) -> Option<LineFile>
        ensures { MatchOption result ((file : LineFile) → path.now ≢ text_file file)
            (λ file. path.now ≡ text_file file) }
    {
        let name = TagName::of(path);
        match name {
            TagName::Info => Some(LineFile::Info),
            TagName::FetchList => Some(LineFile::FetchList),
            _ => Some(LineFile::Manifest(name.manifest()?)),
        }
    }
}

impl Display for LineFile {
    ghost use Rattle.std.specs.Prelude.{Some};
    ghost use Rattle.bag_tags.specs.Names.{text_file};

    ghost output = { λ file. Some (text_file file) };

    fn fmt<W: Write>(&self, f: &mut Formatter<W>) -> fmt::Result {
        match self {
            LineFile::Info => f.write_str("bag-info.txt"),
            LineFile::FetchList => f.write_str("fetch.txt"),
            LineFile::Manifest(name) => write!(f, "{name}"),
        }
    }
}

/// The X of `manifest-X.txt` or `tagmanifest-X.txt`, if it is one or more ASCII letters, digits or `_` and not the name
/// of a known algorithm.
pub fn unknown_algorithm(path: &BagPath) -> Option<&str>
    ensures { MatchOption result ((word : List ℕ) → IsUnknownManifest path.now word → ⊥)
        (λ word. IsUnknownManifest path.now word.now) }
{
    let text = path.as_str();
    let word = match manifest_word(text, "manifest-") {
        Some(word) => word,
        None => manifest_word(text, "tagmanifest-")?,
    };
    match Alg::from_name(word) {
        Some(_) => None,
        None => Some(word),
    }
}

/// Whether the path is `tagmanifest-X.txt`, where X is one or more ASCII letters, digits or `_`.
pub(crate) fn names_tag_manifest(path: &BagPath) -> bool
    ensures { IsTrue result ↔ NamesTagManifest path.now }
{
    manifest_word(path.as_str(), "tagmanifest-").is_some()
}

/// A path names at most one thing.
pub fn a_path_names_one_thing_at_most()
    ensures { (path : List ℕ) (a b : TagName) → Names path a → Names path b → a ≡ b }
{}

/// A path has at most one name of an unknown algorithm.
pub fn a_path_has_one_unknown_algorithm_at_most()
    ensures { (path a b : List ℕ) → IsUnknownManifest path a → IsUnknownManifest path b → a ≡ b }
{}

/// What is between this front and `.txt`, if the text has both and it is a word.
fn manifest_word<'a>(text: &'a str, front: &str) -> Option<&'a str>
    ensures word { MatchOption result
        ((word : List ℕ) → IsWord word → text.now ≡ front.now ++ word ++ codes ".txt" → ⊥)
        (λ word. IsWord word.now × (text.now ≡ front.now ++ word.now ++ codes ".txt")) }
{
    let word = text.strip_prefix(front)?.strip_suffix(".txt")?;
    if is_word(word) { Some(word) } else { None }
}

fn is_word(text: &str) -> bool
    ensures { IsTrue result ↔ IsWord text.now }
{
    !text.is_empty() && text.as_bytes().iter().all(|octet| is_word_octet(*octet))
}

fn is_word_octet(octet: u8) -> bool
    ensures { IsTrue result ↔ IsWordOctet octet }
{
    octet.is_ascii_alphanumeric() || octet == b'_'
}
