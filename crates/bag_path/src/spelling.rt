//! Spellings of paths in manifests and in `fetch.txt` (RFC 8493 section 2.1.3).
ghost use Rattle.std.specs.Prelude.{◌≡◌, ◌⊎◌, ◌<◌, ◌∷◌, ℕ, List, [], Some, None, Ok, Err, IfOk, IfErr, MatchOption, take, drop, encode_utf8, string_bytes};
ghost use Rattle.std.specs.Fmt.{WritesOnOk};
ghost use Rattle.bag_path.specs.Paths.{IsPath};
ghost use Rattle.bag_path.specs.SpellingReading.{octet_of_escape, octet_of_percent, octets_spelled, taken_by};
ghost use Rattle.bag_path.specs.Spellings.{Spells, SpellsNothing, RefusesSpelling, written_spelling};

use crate::path::{BagPath, PathFault};
use crate::version::Version;
use std::alloc::{AllocError, Global};
use std::fmt::{self, Display, Formatter, Write};

/// The path that a text spells.
///
/// # Errors
///
/// `BadEscape` if a `%` begins no escape, which is a fault in version 1.0 alone; otherwise the first fault of the
/// octets that the text spells, as in [`BagPath::parse`]; or `Memory` if memory runs out.
pub fn unescape(alloc: Global, text: &str, version: Version) -> Result<BagPath, PathFault>
    ensures path { IfOk result (λ path. Spells version path text.now × IsPath path) }
    ensures accepted { (path : List ℕ) → Spells version path text.now → IsPath path
        → (result ≡ Ok path) ⊎ (result ≡ Err PathFault.Memory) }
    ensures fault { IfErr result (λ fault. RefusesSpelling fault version text.now) }
    ensures bad_escape { SpellsNothing version text.now
        → (result ≡ Err PathFault.BadEscape) ⊎ (result ≡ Err PathFault.Memory) }
{
    BagPath::from_string(octets_spelled(alloc, text, version)?)
}

/// A path that is displayed in its written spelling: LF is `%0A`, CR is `%0D`, `%` is `%25`, and nothing else changes
/// (RFC 8493 section 2.1.3). This is the spelling of version 1.0, in which [`unescape`] returns the same path.
#[derive(Clone, Copy)]
pub struct Spelling<'a>(pub &'a BagPath);

impl Display for Spelling<'_> {
    ghost use Rattle.std.specs.Prelude.{Some};
    ghost use Rattle.bag_path.specs.Spellings.{written_spelling};

    ghost output = { λ spelling. Some (written_spelling spelling.0.now) };

    fn fmt<W: Write>(&self, f: &mut Formatter<W>) -> fmt::Result {
        TextSpelling(self.0.as_str()).fmt(f)
    }
}

/// A text that is displayed with the escapes of [`Spelling`], so that it stays on one line. It may be no path.
#[derive(Clone, Copy)]
pub struct TextSpelling<'a>(pub &'a str);

impl Display for TextSpelling<'_> {
    ghost use Rattle.std.specs.Prelude.{Some};
    ghost use Rattle.bag_path.specs.Spellings.{written_spelling};

    ghost output = { λ spelling. Some (written_spelling spelling.0.now) };

    fn fmt<W: Write>(&self, f: &mut Formatter<W>) -> fmt::Result {
        for c in self.0.chars() {
            write_part(f, c)?;
        }
        Ok(())
    }
}

/// Writes the spelling of one character.
fn write_part<W: Write>(f: &mut Formatter<W>, c: char) -> fmt::Result
    ensures { WritesOnOk W.write_str_gives f.old result (written_spelling (encode_utf8 c)) f.new }
{
    match c {
        '%' => f.write_str("%25"),
        '\n' => f.write_str("%0A"),
        '\r' => f.write_str("%0D"),
        _ => f.write_char(c),
    }
}

/// The written spelling of a path, as [`Spelling`] displays it.
///
/// # Errors
///
/// `AllocError` if memory runs out.
pub fn escape(alloc: Global, path: &BagPath) -> Result<String, AllocError>
    ensures { IfOk result (λ text. string_bytes text ≡ written_spelling path.now) }
{
    Spelling(path).to_string(alloc)
}

/// The octets that a text spells.
fn octets_spelled(alloc: Global, text: &str, version: Version) -> Result<String, PathFault>
    ensures octets { IfOk result (λ octets.
        octets_spelled version text.now ≡ Some (string_bytes octets)) }
    ensures fault { IfErr result (λ fault. (fault ≡ PathFault.Memory)
        ⊎ ((fault ≡ PathFault.BadEscape) × (octets_spelled version text.now ≡ None))) }
{
    let mut octets = String::with_capacity(alloc, text.len())?;
    let mut rest = text;
    while let Some((before, after)) = rest.split_once('%') {
        octets.push_str(before)?;
        let Some((octet, after)) = split_percent(after, version) else {
            return Err(PathFault::BadEscape);
        };
        octets.push(octet)?;
        rest = after;
    }
    octets.push_str(rest)?;
    Ok(octets)
}

/// The octet that a `%` before this text stands for, and the text after the `%` and its escape.
fn split_percent(text: &str, version: Version) -> Option<(char, &str)>
    ensures { let escape = octet_of_escape version (take 2 text.now) in
        MatchOption result (octet_of_percent version escape ≡ None)
        (λ split. (octet_of_percent version escape ≡ Some split.0)
        × (split.1.now ≡ drop (taken_by escape) text.now) × (split.0 < 128)) }
{
    match (escape_before(text, version), version) {
        (Some(octet), _) => Some((octet, &text[2..])),
        (None, Version::V1) => None,
        (None, Version::V097) => Some(('%', text)),
    }
}

/// The octet of the escape that a `%` before this text begins, if it begins one.
fn escape_before(text: &str, version: Version) -> Option<char>
    ensures { result ≡ octet_of_escape version (take 2 text.now) }
{
    let octets = text.as_bytes();
    if octets.len() < 2 {
        return None;
    }
    octet_of_escape(octets[0], octets[1], version)
}

/// The octet that `%` and these two octets stand for, if they are an escape.
fn octet_of_escape(first: u8, second: u8, version: Version) -> Option<char>
    ensures { result ≡ octet_of_escape version (first ∷ second ∷ []) }
{
    match (version, first, second) {
        (Version::V1, b'2', b'5') => Some('%'),
        (Version::V1 | Version::V097, b'0', b'A' | b'a') => Some('\n'),
        (Version::V1 | Version::V097, b'0', b'D' | b'd') => Some('\r'),
        _ => None,
    }
}
