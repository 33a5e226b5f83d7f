//! The bag declaration, `bagit.txt` (RFC 8493 section 2.1.1).
ghost use Rattle.std.specs.Prelude.{◌≡◌, ◌≢◌, ◌↔◌, ℕ, IfOk, IfErr, IsTrue, Ok, MatchOption, Some, List, [], ◌∷◌, ◌++◌, length, map};
ghost use Rattle.bag_path.specs.Lines.{Text, lines_of};
ghost use Rattle.bag_path.specs.declared.version.Version.{Version};
ghost use Rattle.bag_tags.specs.declared.declaration.Declaration.{Declaration};
ghost use Rattle.bag_tags.specs.Declarations.{IsDeclaration, IsDeclarationFault, IsVersion, IsVersionPart, IsEncodingName, HaveNoLabels, version_label, encoding_label, version_of, declared_version, current, written_declaration};
ghost use Rattle.bag_tags.specs.declared.declaration.DeclFault.{DeclFault};

use crate::number::read_number;
use crate::splitting::{Cut, MARK, split_at_first};
use bag_path::{Lines, Version};
use std::alloc::{AllocError, Global};
use thiserror::Error;

const VERSION_LABEL: &[u8] = b"BagIt-Version: ";

const ENCODING_LABEL: &[u8] = b"Tag-File-Character-Encoding: ";

const CURRENT: &[u8] = b"BagIt-Version: 1.0\nTag-File-Character-Encoding: UTF-8\n";

/// What `bagit.txt` declares: the version of the format and the encoding of the tag files.
#[derive(Clone, Copy, Debug, PartialEq, Eq)]
pub struct Declaration {
    /// The number before the dot of the version.
    pub major: u32,
    /// The number after the dot.
    pub minor: u32,
    /// Whether the tag files' encoding is UTF-8.
    pub utf8: bool,
}

impl Declaration {
    ghost use Rattle.std.specs.Prelude.{◌≡◌};
    ghost use Rattle.bag_tags.specs.Declarations.{version_of};

    /// The version of the format, if it is known here.
    pub fn version(self) -> Option<Version>
        ensures { result ≡ version_of self }
    {
        Version::numbered(self.major, self.minor)
    }
}

/// Why `bagit.txt` can't be read. If several causes apply, the first in this order is returned.
#[derive(Clone, Copy, Debug, PartialEq, Eq, PartialOrd, Ord, Error)]
pub enum DeclFault {
    /// The file isn't UTF-8.
    #[error("not UTF-8")]
    NotUtf8,
    /// The file begins with a byte order mark.
    #[error("byte order mark")]
    Mark,
    /// The file doesn't have exactly two lines.
    #[error("line count")]
    LineCount,
    /// The two lines don't begin with `BagIt-Version: ` and `Tag-File-Character-Encoding: `, in this order.
    #[error("label")]
    Label,
    /// The version isn't two numbers of one to nine digits, joined by a dot, without leading zeros.
    #[error("version")]
    Version,
    /// The name of the encoding isn't one or more visible ASCII characters.
    #[error("encoding name")]
    EncodingName,
}

/// Reads `bagit.txt`, with any version and any encoding. The caller decides whether a bag that declares them can be
/// judged.
///
/// # Errors
///
/// The first fault, in the order of `DeclFault`.
pub fn read_declaration(octets: &[u8]) -> Result<Declaration, DeclFault>
    ensures read { IfOk result (λ declaration. IsDeclaration octets.now declaration) }
    ensures only { (declaration : Declaration) → IsDeclaration octets.now declaration → result
        ≡ Ok declaration }
    ensures fault { IfErr result (λ fault. IsDeclarationFault octets.now fault) }
{
    if str::from_utf8(octets).is_err() {
        return Err(DeclFault::NotUtf8);
    }
    if octets.starts_with(MARK) {
        return Err(DeclFault::Mark);
    }
    let Some((first, second)) = two_lines(octets) else {
        return Err(DeclFault::LineCount);
    };
    let Some((version, encoding)) = after_labels(first, second) else {
        return Err(DeclFault::Label);
    };
    let Some((major, minor)) = read_version(version) else {
        return Err(DeclFault::Version);
    };
    if !is_encoding_name(encoding) {
        return Err(DeclFault::EncodingName);
    }
    Ok(Declaration {
        major,
        minor,
        utf8: encoding.eq_ignore_ascii_case(b"UTF-8"),
    })
}

/// Writes the `bagit.txt` of a bag of version 1.0 whose tag files are in UTF-8: 54 octets, with LF after each line.
///
/// # Errors
///
/// `AllocError` if memory runs out.
pub fn write_declaration(alloc: Global) -> Result<Vec<u8>, AllocError>
    ensures octets { IfOk result (λ octets. octets.items ≡ written_declaration) }
    ensures declares { IfOk result (λ octets. IsDeclaration octets.items current) }
{
    CURRENT.to_vec(alloc)
}

/// Octets make at most one declaration.
pub fn octets_declare_one_thing_at_most()
    ensures { (octets : List ℕ) (a b : Declaration) → IsDeclaration octets a
        → IsDeclaration octets b → a ≡ b }
{}

/// Octets have at most one first fault.
pub fn octets_have_one_declaration_fault_at_most()
    ensures { (octets : List ℕ) (a b : DeclFault) → IsDeclarationFault octets a
        → IsDeclarationFault octets b → a ≡ b }
{}

/// Octets that make a declaration have no fault.
pub fn a_declaration_has_no_fault()
    ensures { (octets : List ℕ) (declaration : Declaration) (fault : DeclFault)
        → IsDeclaration octets declaration → IsDeclarationFault octets fault → ⊥ }
{}

/// If octets declare a known version, tag files are read by its rules.
pub fn a_declaration_begins_with_its_version()
    ensures { (octets : List ℕ) (declaration : Declaration) (version : Version)
        → IsDeclaration octets declaration → version_of declaration ≡ Some version
        → version ≡ declared_version octets }
{}

/// The texts of the lines, if there are exactly two.
fn two_lines(octets: &[u8]) -> Option<(&[u8], &[u8])>
    ensures { MatchOption result (length (lines_of octets.now) ≢ 2)
        (λ pair. map (λ (line : Text). line.text) (lines_of octets.now) ≡ pair.0.now ∷ pair.1.now
        ∷ []) }
{
    let mut lines = Lines::new(octets);
    let first = lines.next()?;
    let second = lines.next()?;
    match lines.next() {
        None => Some((first.text, second.text)),
        Some(_) => None,
    }
}

/// What follows the labels of the two lines, if both have theirs.
fn after_labels<'a>(first: &'a [u8], second: &'a [u8]) -> Option<(&'a [u8], &'a [u8])>
    ensures { MatchOption result (HaveNoLabels first.now second.now)
        (λ pair. (first.now ≡ version_label ++ pair.0.now)
        × (second.now ≡ encoding_label ++ pair.1.now)) }
{
    Some((
        first.strip_prefix(VERSION_LABEL)?,
        second.strip_prefix(ENCODING_LABEL)?,
    ))
}

/// The major and the minor number of a version.
fn read_version(text: &[u8]) -> Option<(u32, u32)>
    ensures { MatchOption result ((major minor : ℕ) → IsVersion text.now major minor → ⊥)
        (λ pair. IsVersion text.now pair.0 pair.1) }
{
    let (major, rest) = split_at_first(text, Cut::Dot);
    let minor = rest.strip_prefix(b".")?;
    Some((read_part(major)?, read_part(minor)?))
}

fn read_part(text: &[u8]) -> Option<u32>
    ensures { MatchOption result ((value : ℕ) → IsVersionPart text.now value → ⊥)
        (λ value. IsVersionPart text.now value) }
{
    if text.len() > 9 {
        return None;
    }
    if text.len() > 1 && text[0] == b'0' {
        return None;
    }
    let value = read_number(text)?;
    Some(value as u32)
}

fn is_encoding_name(text: &[u8]) -> bool
    ensures { IsTrue result ↔ IsEncodingName text.now }
{
    !text.is_empty() && text.iter().all(|octet| b'!' <= *octet && *octet <= b'~')
}
