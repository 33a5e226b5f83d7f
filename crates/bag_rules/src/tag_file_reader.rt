//! Reads tag files that are read line by line while they come from a tree. None of them is held whole.
ghost use Rattle.std.specs.Prelude.{◌≡◌, ◌<◌, ◌≤◌, ◌↔◌, ℕ, List, [], IfErr, IfOk, IsErrOf, IsTrue, MatchResult, length};
ghost use Rattle.bag_digest.specs.Failures.{UsesSource};
ghost use Rattle.bag_digest.specs.Reading.{GaveAll, GaveBefore};
ghost use Rattle.bag_digest.specs.declared.algorithm.AlgSet.{AlgSet};
ghost use Rattle.bag_path.specs.LineCounts.{HasCounted};
ghost use Rattle.bag_path.specs.declared.version.Version.{Version};
ghost use Rattle.bag_rules.specs.Limits.{HasCountedLines, IsLongTag, Stopped};
ghost use Rattle.bag_rules.specs.ReadingInside.{IsReadOf};
ghost use Rattle.bag_rules.specs.TagFileReaders.{HasTaken, HasExcessLines, TakesOn};
ghost use Rattle.bag_rules.specs.OctetsRead.{MayBe};
ghost use Rattle.bag_rules.specs.Trees.{HasFileAt, UsesTree, octets_in, paths_in};
ghost use Rattle.bag_rules.specs.declared.outcome.CheckFault.{CheckFault};
ghost use Rattle.bag_tags.specs.Feeds.{Fed};

use crate::limits::{LARGEST_TAG_FILE, MOST_LINES};
use crate::outcome::CheckFault;
use crate::tree::Tree;
use bag_digest::{AlgSet, Multi, PIECE, ReadFault, Source, Sums, read_piece};
use bag_path::{LineCount, Version};
use bag_tags::{LineFile, TagFault, TagFeed, TagValue};
use std::alloc::Global;

/// What was taken of a tag file so far.
#[derive(Drop)]
pub(crate) struct TagFileReader {
    file: LineFile,
    feed: TagFeed,
    lines: LineCount,
    multi: Multi,
}

/// What a whole tag file was found to be.
#[derive(Drop)]
pub(crate) struct TagFileRead {
    /// Its length, and its digests by the algorithms of the reader.
    pub sums: Sums,
    /// Whether it has more lines than the limit. Then it isn't known what it says.
    pub has_too_many_lines: bool,
    /// What it says, or its first fault.
    pub read: Result<TagValue, TagFault>,
}

impl TagFileReader {
    ghost use Rattle.std.specs.Prelude.{◌≡◌, ℕ, List, [], length, IfErr};
    ghost use Rattle.bag_digest.specs.declared.algorithm.AlgSet.{AlgSet};
    ghost use Rattle.bag_digest.specs.declared.reading.ReadFault.{ReadFault};
    ghost use Rattle.bag_path.specs.declared.version.Version.{Version};
    ghost use Rattle.bag_rules.specs.TagFileReaders.{HasTaken, IsFoundOf, TakesOn};

    /// A reader of this tag file that has taken no octet yet.
    pub(crate) fn new(alloc: Global, file: LineFile, version: Version, set: AlgSet) -> TagFileReader
        ensures taken { HasTaken version set [] result }
        ensures file { result.file ≡ file }
    {
        TagFileReader {
            file,
            feed: feed_of(alloc, file, version),
            lines: LineCount::new(),
            multi: Multi::new(set),
        }
    }

    /// Takes the next piece. A faulty line is no error: what follows is counted and hashed all the same.
    fn take(&mut self, piece: &[u8]) -> Result<(), ReadFault>
        ensures taken { TakesOn self.old piece.now self.new }
        ensures file { self.new.file ≡ self.old.file }
        ensures err { IfErr result (λ fault. fault ≡ ReadFault.Memory) }
    {
        self.multi.update(piece);
        self.lines.update(piece);
        if are_too_many(self.file, self.lines) {
            return Ok(());
        }
        match self.feed.feed(piece) {
            Ok(()) | Err(TagFault::Line(_)) => Ok(()),
            Err(TagFault::Memory) => Err(ReadFault::Memory),
        }
    }

    /// What the file was found to be, which ends here and has this many octets.
    pub(crate) fn finish(self, total: u64) -> TagFileRead
        ensures { (version : Version) (set : AlgSet) (octets : List ℕ)
            → HasTaken version set octets self → total ≡ length octets
            → IsFoundOf version self.file set octets result }
    {
        let TagFileReader {
            file,
            feed,
            lines,
            multi,
        } = self;
        TagFileRead {
            sums: Sums {
                length: total,
                digests: multi.finish(),
            },
            has_too_many_lines: are_too_many(file, lines),
            read: feed.finish(),
        }
    }
}

/// Has a reader take a tag file from its first octet to its last. Returns the number of its octets.
pub(crate) fn take_file<T: Tree>(
    buffer: &mut [u8],
    tree: &mut T,
    i: usize,
    reader: &mut TagFileReader,
) -> Result<u64, CheckFault>
    requires room { 0 < length buffer.old }
    requires inside { i < length (paths_in (T.shown tree.old)) }
    ensures known { (version : Version) (set : AlgSet) (path octets : List ℕ)
        → HasTaken version set [] reader.old → HasFileAt (T.shown tree.old) i path octets
        → MatchResult result (λ total. (total ≡ length octets)
        × HasTaken version set octets reader.new × (length octets ≤ LARGEST_TAG_FILE))
        (Stopped (IsLongTag path octets)) }
    ensures some { (version : Version) (set : AlgSet) → HasTaken version set [] reader.old
        → IfOk result (λ total. (octets : List ℕ) × MayBe (octets_in (T.shown tree.old) i) octets
        × (total ≡ length octets) × HasTaken version set octets reader.new
        × (length octets ≤ LARGEST_TAG_FILE)) }
    ensures file { reader.new.file ≡ reader.old.file }
    ensures tree { UsesTree T.shown T.failures T.sure tree.old tree.new
        (IsErrOf result CheckFault.Tree) }
{
    tree.start(i)?;
    match take_all(buffer, tree, reader) {
        Ok(total) => Ok(total),
        Err(ReadFault::Read) => Err(CheckFault::Tree),
        Err(ReadFault::Memory) => Err(CheckFault::Memory),
        Err(ReadFault::TooLarge) => Err(CheckFault::TagTooLarge(tree.path(i).clone()?)),
    }
}

/// Reads a source to its end, piece by piece, and returns how many octets it gave. One that has more octets than a tag
/// file may have is left right after the first octet past that limit.
fn take_all<S: Source>(
    buffer: &mut [u8],
    source: &mut S,
    reader: &mut TagFileReader,
) -> Result<u64, ReadFault>
    requires { 0 < length buffer.old }
    ensures taken { IfOk result (λ total. (octets : List ℕ)
        × GaveAll (S.remaining source.old) (S.remaining source.new) LARGEST_TAG_FILE octets
        × (total ≡ length octets) × TakesOn reader.old octets reader.new) }
    ensures file { reader.new.file ≡ reader.old.file }
    ensures stopped { IfErr result
        (GaveBefore (S.remaining source.old) (S.remaining source.new) LARGEST_TAG_FILE) }
    ensures uses { UsesSource S.failures S.ready S.keeps source.old source.new
        (IsErrOf result ReadFault.Read) }
{
    let room = PIECE.min(buffer.len());
    let piece = &mut buffer[..room];
    let mut total = 0u64;
    'pieces: loop {
        let n = read_piece(piece, source, LARGEST_TAG_FILE - total)?;
        if n == 0 {
            return Ok(total);
        }
        reader.take(&piece[..n])?;
        total += n as u64;
    }
}

/// What a text says, or its first fault.
pub(crate) fn read_whole(
    alloc: Global,
    text: &[u8],
    file: LineFile,
    version: Version,
) -> Result<TagValue, TagFault>
    ensures { IsReadOf version file text.now result }
{
    let mut feed = feed_of(alloc, file, version);
    // If this is a fault, the feed answers it once more at its end.
    let _ = feed.feed(text);
    feed.finish()
}

/// A feed of this tag file, before its first piece.
fn feed_of(alloc: Global, file: LineFile, version: Version) -> TagFeed
    ensures { Fed version file [] result }
{
    match file {
        LineFile::Info => TagFeed::info(alloc, version),
        LineFile::FetchList => TagFeed::fetch(alloc, version),
        LineFile::Manifest(name) => TagFeed::manifest(alloc, name.alg, name.kind, version),
    }
}

/// Whether a file of this name with this text has more lines than the limit.
pub(crate) fn has_too_many_lines(file: LineFile, text: &[u8]) -> bool
    ensures { IsTrue result ↔ HasExcessLines file text.now }
{
    let mut lines = LineCount::new();
    lines.update(text);
    are_too_many(file, lines)
}

/// Whether these are more lines than a file of this name may have.
fn are_too_many(file: LineFile, lines: LineCount) -> bool
    ensures { (octets : List ℕ) → HasCounted lines octets
        → IsTrue result ↔ HasExcessLines file octets }
{
    has_counted_lines(file) && lines.finish() > MOST_LINES as u64
}

/// Whether the number of this file's lines is limited.
fn has_counted_lines(file: LineFile) -> bool
    ensures { IsTrue result ↔ HasCountedLines file }
{
    !matches!(file, LineFile::Info)
}
