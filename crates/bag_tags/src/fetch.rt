//! What `fetch.txt` lists, and its text (RFC 8493 section 2.2.3).
ghost use Rattle.std.specs.Prelude.{◌≡◌, ◌↔◌, ◌<◌, IsTrue, drop, length, ◌^◌, ◌++◌, ℕ, List, Option, IfErr, IfOk, IsErrOf, OnOk, IfSome, IfNone, MatchResult, true};
ghost use Rattle.std.specs.List.{AllByRecursion};
ghost use Rattle.bag_path.specs.Paths.{is_payload};
ghost use Rattle.bag_path.specs.declared.version.Version.TheVariants.{V1};
ghost use Rattle.bag_tags.specs.FetchEntries.{IsUrl, IsScheme, IsSchemeOctet, IsUrlOctet, IsEntry, written_entry, written_length};
ghost use Rattle.bag_tags.specs.declared.tag_fault.LineFault.{LineFault};
ghost use Rattle.bag_tags.specs.declared.fetch.FetchLine.{FetchLine};
ghost use Rattle.bag_tags.specs.TagLines.{Causes};
ghost use Rattle.bag_tags.specs.Fetches.{numbered_from, written_fetch};
ghost use Rattle.bag_tags.specs.FetchText.{AddsEntry, FetchText, FetchFault, AreWords, IsLength, LacksWord, GivesEntry, GivesNoEntry};

use crate::number::read_number;
use crate::splitting::{Cut, split_at_first, split_text};
use crate::tag_fault::{LineCause, TagCause, TagFault};
use crate::tag_lines::{TagLines, read_onto};
use bag_path::{BagPath, Version, escape, unescape};
use std::alloc::{AllocError, Global};
use std::marker::Model;
use thiserror::Error;

/// A payload file that isn't sent with the bag: its URL, its length in octets if one is given, and its path.
#[derive(Debug, Drop)]
pub struct FetchEntry {
    url: String,
    octets: Option<u64>,
    path: BagPath,
}

impl Model for FetchEntry {
    ghost use Rattle.bag_tags.specs.FetchEntries.{FetchItem, fetch_item, IsEntry};
    ghost use Rattle.std.specs.Prelude.{string_bytes};

    ghost Value = { FetchItem };

    ghost view = { λ e. fetch_item (string_bytes e.url) e.octets e.path };

    ghost invariant = { λ e. IsEntry (fetch_item (string_bytes e.url) e.octets e.path) };
}

/// An entry and the number of the line that lists it. In a list that was built by [`Fetch::push`] this is its place,
/// counted from 1.
#[derive(Debug, Drop)]
pub struct FetchLine {
    /// The number of the line, counted from 1.
    pub line: u64,
    /// The entry that the line lists.
    pub entry: FetchEntry,
}

/// Why a URL and a path make no entry. If several causes apply, the first in this order is returned, but `Memory` may
/// be returned in place of any other.
#[derive(Clone, Copy, Debug, PartialEq, Eq, Error)]
pub enum FetchEntryFault {
    /// The URL isn't a scheme, a colon and something more without blanks and controls (RFC 3986 section 3).
    #[error("url")]
    BadUrl,
    /// The path isn't that of a payload file.
    #[error("no payload path")]
    NotPayload,
    /// Memory ran out.
    #[error("out of memory")]
    Memory,
}

impl From<AllocError> for FetchEntryFault {
    ghost use Rattle.std.specs.Prelude.{◌≡◌};
    ghost use Rattle.bag_tags.specs.declared.fetch.FetchEntryFault.TheVariants.{Memory};

    ghost from_gives = { λ error fault. fault ≡ Memory };

    fn from(_: AllocError) -> FetchEntryFault {
        FetchEntryFault::Memory
    }
}

impl FetchEntry {
    ghost use Rattle.std.specs.Prelude.{◌≡◌, IfOk, IfErr};
    ghost use Rattle.bag_tags.specs.FetchEntries.{fetch_item, IsEntry, RefusesEntry};

    /// The entry of a payload file, with its length in octets if that is known.
    ///
    /// # Errors
    ///
    /// The first of `BadUrl` and `NotPayload` that applies, or `Memory` if memory runs out.
    pub fn new(
        alloc: Global,
        url: &str,
        length: Option<u64>,
        path: BagPath,
    ) -> Result<FetchEntry, FetchEntryFault>
        ensures made { IfOk result (λ made. made ≡ fetch_item url.now length path) }
        ensures is_entry { IfOk result IsEntry }
        ensures refused { IfErr result (RefusesEntry url.now path) }
    {
        if !is_url(url.as_bytes()) {
            return Err(FetchEntryFault::BadUrl);
        }
        if !path.is_payload() {
            return Err(FetchEntryFault::NotPayload);
        }
        // By the contract of `as_str` this is a path, which a proof needs here.
        let _text = path.as_str();
        Ok(FetchEntry {
            url: String::from_str(alloc, url)?,
            octets: length,
            path,
        })
    }

    /// The URL of the file.
    pub fn url(&self) -> &str
        ensures url { result.now ≡ self.now.url }
        ensures is_entry { IsEntry self.now }
    {
        self.url.as_str()
    }

    /// The length of the file in octets, if one is given.
    pub fn length(&self) -> Option<u64>
        ensures { result ≡ self.now.octets }
    {
        self.octets
    }

    /// The path of the file in the bag, below `data/`.
    pub fn path(&self) -> &BagPath
        ensures path { result.now ≡ self.now.path }
        ensures is_entry { IsEntry self.now }
    {
        &self.path
    }
}

/// The entries of `fetch.txt`, in its order. Several entries may have the same path.
#[derive(Drop)]
pub struct Fetch {
    lines: Vec<FetchLine>,
}

impl Model for Fetch {
    ghost use Rattle.std.specs.Prelude.{List};
    ghost use Rattle.bag_tags.specs.declared.fetch.FetchLine.{FetchLine};

    ghost Value = { List FetchLine };

    ghost view = { λ fetch. fetch.lines.items };
}

impl Fetch {
    ghost use Rattle.std.specs.Prelude.{◌≡◌, ◌+◌, ◌++◌, ◌∷◌, [], length, OnOk, OnErr};
    ghost use Rattle.bag_tags.specs.Fetches.{fetch_line};

    /// A list without entries.
    pub fn new(alloc: Global) -> Fetch
        ensures { result ≡ [] }
    {
        Fetch {
            lines: Vec::new(alloc),
        }
    }

    /// The allocator that the entries keep.
    pub(crate) fn allocator(&self) -> Global {
        *self.lines.allocator()
    }

    /// The entries in their order, each with the number of its line.
    pub fn entries(&self) -> &[FetchLine]
        ensures { result.now ≡ self.now }
    {
        self.lines.as_slice()
    }

    /// Adds an entry after the others. The number of its line is its place, counted from 1.
    ///
    /// # Errors
    ///
    /// `AllocError` if memory runs out. The entries are then unchanged.
    pub fn push(&mut self, entry: FetchEntry) -> Result<(), AllocError>
        ensures added { OnOk result (self.new ≡ self.old ++ fetch_line (length self.old + 1) entry
            ∷ []) }
        ensures unchanged { OnErr result (self.new ≡ self.old) }
    {
        let place = self.lines.len() as u64 + 1;
        self.push_line(place, entry)
    }

    /// Adds an entry with the number of the line that lists it.
    pub(crate) fn push_line(&mut self, line: u64, entry: FetchEntry) -> Result<(), AllocError>
        ensures added { OnOk result (self.new ≡ self.old ++ fetch_line line entry ∷ []) }
        ensures unchanged { OnErr result (self.new ≡ self.old) }
    {
        self.lines.push(FetchLine { line, entry })?;
        Ok(())
    }
}

/// Whether a text is a scheme, a colon and something more without blanks and controls.
pub fn is_url(text: &[u8]) -> bool
    ensures { IsTrue result ↔ IsUrl text.now }
{
    let (scheme, rest) = split_at_first(text, Cut::Colon);
    is_scheme(scheme) && is_colon_and_more(rest)
}

fn is_scheme(text: &[u8]) -> bool
    ensures { IsTrue result ↔ IsScheme text.now }
{
    !text.is_empty() && text[0].is_ascii_alphabetic() && are_in_scheme(&text[1..])
}

fn is_colon_and_more(text: &[u8]) -> bool
    ensures { IsTrue result ↔ ((1 < length text.now)
        × AllByRecursion IsUrlOctet (drop 1 text.now)) }
{
    text.len() > 1 && are_in_url(&text[1..])
}

fn are_in_scheme(text: &[u8]) -> bool
    ensures { IsTrue result ↔ AllByRecursion IsSchemeOctet text.now }
{
    text.iter().all(|octet| is_in_scheme(*octet))
}

fn are_in_url(text: &[u8]) -> bool
    ensures { IsTrue result ↔ AllByRecursion IsUrlOctet text.now }
{
    text.iter().all(|octet| is_in_url(*octet))
}

fn is_in_scheme(octet: u8) -> bool
    ensures { IsTrue result ↔ IsSchemeOctet octet }
{
    octet.is_ascii_alphanumeric() || octet == b'+' || octet == b'-' || octet == b'.'
}

fn is_in_url(octet: u8) -> bool
    ensures { IsTrue result ↔ IsUrlOctet octet }
{
    octet > b' ' && octet != 127
}

/// Reads the entries of a text. Each line is a URL, blanks, a length in octets or `-`, blanks, and the path of a
/// payload file.
///
/// One byte order mark at the start is dropped. Lines that are empty or only blanks are skipped.
///
/// # Errors
///
/// The first faulty line, counted from 1, with the first cause that applies: it isn't UTF-8; it has no blank after the
/// URL, or none after the length; its URL, its length or its path is bad; its path isn't that of a payload file. Or
/// `Memory`, if memory runs out.
pub fn read_fetch(alloc: Global, octets: &[u8], version: Version) -> Result<Fetch, TagFault>
    // The result is what the text lists, and every text that lists something is read.
    ensures listed { IfOk result (λ fetch. FetchText version octets.now fetch) }
    ensures only { (lines : List FetchLine) → FetchText version octets.now lines
        → MatchResult result (λ fetch. fetch ≡ lines) (λ fault. fault ≡ TagFault.Memory) }
    ensures fault { (fault : LineFault) → IsErrOf result (TagFault.Line fault)
        → FetchFault version octets.now fault }
{
    let mut fetch = Fetch::new(alloc);
    read_onto(alloc, &mut fetch, version, octets)?;
    Ok(fetch)
}

impl TagLines for Fetch {
    ghost use Rattle.bag_tags.specs.FetchText.{AddsEntry, RefusesFetchLine};

    ghost leads = { AddsEntry };

    ghost refuses = { RefusesFetchLine };

    fn read_line(&mut self, version: Version, number: u64, text: &str) -> Result<(), TagCause> {
        let entry = read_entry(self.allocator(), version, text)?;
        self.push_line(number, entry)?;
        Ok(())
    }
}

/// The entry that a line gives.
fn read_entry(alloc: Global, version: Version, text: &str) -> Result<FetchEntry, TagCause>
    ensures ok { IfOk result (λ entry. GivesEntry version text.now entry
        × (is_payload entry.path ≡ true)) }
    ensures err { IfErr result (Causes (GivesNoEntry version text.now)) }
{
    let Some((url, length, path)) = split_words(text) else {
        return Err(TagCause::Line(LineCause::NoSeparator));
    };
    if !is_url(url.as_bytes()) {
        return Err(TagCause::Line(LineCause::BadUrl));
    }
    let Some(length) = read_length(length.as_bytes()) else {
        return Err(TagCause::Line(LineCause::BadLength));
    };
    let path = unescape(alloc, path, version)?;
    match FetchEntry::new(alloc, url, length, path) {
        Ok(entry) => Ok(entry),
        Err(FetchEntryFault::BadUrl) => unreachable!(),
        Err(FetchEntryFault::NotPayload) => Err(TagCause::Line(LineCause::WrongPlace)),
        Err(FetchEntryFault::Memory) => Err(TagCause::Memory),
    }
}

/// The URL, the length and the text of the path on a line.
fn split_words(text: &str) -> Option<(&str, &str, &str)>
    ensures some { IfSome result (λ words. AreWords text.now words.0.now words.1.now words.2.now) }
    ensures none { IfNone result (LacksWord text.now) }
{
    let (url, rest) = split_text(text, Cut::Blank);
    let (_blanks, rest) = split_text(rest, Cut::NoBlank);
    let (length, rest) = split_text(rest, Cut::Blank);
    if rest.is_empty() {
        return None;
    }
    let (_blanks, path) = split_text(rest, Cut::NoBlank);
    Some((url, length, path))
}

/// The length that a text gives, which is `None` for `-`.
fn read_length(text: &[u8]) -> Option<Option<u64>>
    ensures some { IfSome result (λ length. IsLength text.now length) }
    ensures none { IfNone result ((length : Option ℕ) → ¬ IsLength text.now length) }
{
    if text == b"-".as_slice() {
        return Some(None);
    }
    Some(Some(read_number(text)?))
}

/// Writes these entries. Each line is a URL, a space, the length or `-`, a space and the escaped path, and ends in LF.
/// In version 1.0 `read_fetch` reads the same entries back, on lines numbered from 1.
///
/// # Errors
///
/// `AllocError` if memory runs out.
pub fn write_fetch(alloc: Global, fetch: &Fetch) -> Result<Vec<u8>, AllocError>
    ensures written { IfOk result (λ octets. octets.items ≡ written_fetch fetch.now) }
    ensures reads { IfOk result (λ octets. FetchText V1 octets.items (numbered_from 1 fetch.now)) }
{
    let mut octets = Vec::new(alloc);
    for line in fetch.entries() {
        write_entry(alloc, &mut octets, &line.entry)?;
    }
    Ok(octets)
}

fn write_entry(alloc: Global, octets: &mut Vec<u8>, entry: &FetchEntry) -> Result<(), AllocError>
    ensures written { OnOk result (octets.new.items ≡ octets.old.items ++ written_entry entry.now) }
    ensures is_entry { IsEntry entry.now }
    ensures fits { OnOk result (IfSome entry.now.octets (λ n. n < 2 ^ 64)) }
{
    octets.extend_from_slice(entry.url().as_bytes())?;
    octets.push(b' ')?;
    write_length(alloc, octets, entry.length())?;
    octets.push(b' ')?;
    octets.extend_from_slice(escape(alloc, entry.path())?.as_bytes())?;
    octets.push(b'\n')?;
    Ok(())
}

fn write_length(alloc: Global, octets: &mut Vec<u8>, length: Option<u64>) -> Result<(), AllocError>
    ensures written { OnOk result (octets.new.items ≡ octets.old.items ++ written_length length) }
    ensures fits { IfSome length (λ n. n < 2 ^ 64) }
{
    match length {
        None => octets.push(b'-')?,
        Some(n) => octets.extend_from_slice(format!(in alloc; "{n}")?.as_bytes())?,
    }
    Ok(())
}
