//! Text tag files that are fed in pieces (RFC 8493 sections 2.1.3 and 2.2).
ghost use Rattle.std.specs.Prelude.{◌++◌, ℕ, List, [], IfErr, OnOk};
ghost use Rattle.bag_tags.specs.declared.name.LineFile.{LineFile};
ghost use Rattle.bag_tags.specs.Feeds.{AwaitsFor, IsFaultOf, IsTextFor};
ghost use Rattle.bag_tags.specs.TagLines.{Faults};

use crate::fetch::Fetch;
use crate::info::Info;
use crate::last_line::LastLine;
use crate::listing::Kind;
use crate::manifest::Manifest;
use crate::pieces::{read_end, read_piece};
use crate::tag_fault::TagFault;
use bag_digest::Alg;
use bag_path::Version;
use std::alloc::Global;

/// What a text tag file says.
#[derive(Drop)]
pub enum TagValue {
    /// What a manifest lists.
    Manifest(Manifest),
    /// What `bag-info.txt` says.
    Info(Info),
    /// What `fetch.txt` lists.
    Fetch(Fetch),
}

/// Reads a text tag file from pieces, which may be cut anywhere: between CR and LF, and inside a character or a byte
/// order mark. What it reads is what [`read_manifest`], [`read_info`] or [`read_fetch`] reads from the joined pieces.
///
/// A feed holds what the lines so far say, and the octets of the last line, which may go on in the next piece.
///
/// [`read_manifest`]: crate::read_manifest
/// [`read_info`]: crate::read_info
/// [`read_fetch`]: crate::read_fetch
#[derive(Drop)]
pub struct TagFeed {
    value: TagValue,
    version: Version,
    last: LastLine,
    fault: Option<TagFault>,
}

impl TagFeed {
    ghost use Rattle.std.specs.Prelude.{◌≡◌, ◌≤◌, ◌++◌, ℕ, List, [], None, Some, length, IfErr, IfOk, IsErrOf, MatchResult, OnOk};
    ghost use Rattle.bag_path.specs.Lines.{lines_of};
    ghost use Rattle.bag_path.specs.declared.version.Version.{Version};
    ghost use Rattle.bag_tags.specs.declared.tag_fault.LineFault.{LineFault};
    ghost use Rattle.bag_tags.specs.declared.tag_fault.TagFault.{TagFault};
    ghost use Rattle.bag_tags.specs.declared.name.LineFile.{LineFile};
    ghost use Rattle.bag_tags.specs.declared.name.LineFile.TheVariants as file;
    ghost use Rattle.bag_tags.specs.declared.tag_feed.TagValue.{TagValue};
    ghost use Rattle.bag_tags.specs.Feeds.{Fed, IsFaultOf, IsFaultlessBeforeLast, IsNewFeed, IsTextFor, fault_of};
    ghost use Rattle.bag_tags.specs.Names.{manifest_name};
    ghost use Rattle.bag_tags.specs.TagLines.{Faults};

    /// A feed of a manifest, before its first piece.
    pub fn manifest(alloc: Global, alg: Alg, kind: Kind, version: Version) -> TagFeed
        ensures fed { Fed version (file.Manifest (manifest_name kind alg)) [] result }
        ensures running { fault_of result ≡ None }
    {
        TagFeed::new(
            alloc,
            TagValue::Manifest(Manifest::new(alloc, alg, kind)),
            version,
        )
    }

    /// A feed of `bag-info.txt`, before its first piece.
    pub fn info(alloc: Global, version: Version) -> TagFeed
        ensures fed { Fed version file.Info [] result }
        ensures running { fault_of result ≡ None }
    {
        TagFeed::new(alloc, TagValue::Info(Info::new(alloc)), version)
    }

    /// A feed of `fetch.txt`, before its first piece.
    pub fn fetch(alloc: Global, version: Version) -> TagFeed
        ensures fed { Fed version file.FetchList [] result }
        ensures running { fault_of result ≡ None }
    {
        TagFeed::new(alloc, TagValue::Fetch(Fetch::new(alloc)), version)
    }

    fn new(alloc: Global, value: TagValue, version: Version) -> TagFeed
        ensures { IsNewFeed value version result }
    {
        TagFeed {
            value,
            version,
            last: LastLine::first(alloc),
            fault: None,
        }
    }

    /// Takes the next piece, which follows the earlier ones.
    ///
    /// # Errors
    ///
    /// The first faulty line of the text, at the latest by the call that brings an octet of the line after it; or
    /// `Memory`, if memory runs out or lines can't be counted any more. Each later call returns the same error.
    pub fn feed(&mut self, piece: &[u8]) -> Result<(), TagFault>
        ensures fed { (version : Version) (file : LineFile) (octets : List ℕ)
            → Fed version file octets self.old → Fed version file (octets ++ piece.now) self.new }
        ensures answer { MatchResult result (λ done. fault_of self.new ≡ None)
            (λ fault. fault_of self.new ≡ Some fault) }
        ensures again { (fault : TagFault) → fault_of self.old ≡ Some fault
            → IsErrOf result fault }
        ensures prompt { (version : Version) (file : LineFile) (octets : List ℕ)
            → Fed version file octets self.old
            → OnOk result (IsFaultlessBeforeLast version file (octets ++ piece.now)) }
    {
        if let Some(fault) = self.fault {
            return Err(fault);
        }
        match feed_value(&mut self.value, self.version, &mut self.last, piece) {
            Ok(()) => Ok(()),
            Err(fault) => {
                self.fault = Some(fault);
                Err(fault)
            }
        }
    }

    /// The value of the text, which ends here.
    ///
    /// # Errors
    ///
    /// The first faulty line of the text, or `Memory`. After a fault of [`TagFeed::feed`] it is that fault.
    pub fn finish(self) -> Result<TagValue, TagFault>
        ensures value { (version : Version) (file : LineFile) (octets : List ℕ)
            → Fed version file octets self → IfOk result (IsTextFor version file octets) }
        ensures only { (version : Version) (file : LineFile) (octets : List ℕ) (value : TagValue)
            → Fed version file octets self → IsTextFor version file octets value
            → MatchResult result (λ read. read ≡ value) (λ fault. fault ≡ TagFault.Memory) }
        ensures fault { (version : Version) (file : LineFile) (octets : List ℕ)
            → Fed version file octets self
            → IfErr result (Faults (IsFaultOf version file octets)) }
        ensures again { (fault : TagFault) → fault_of self ≡ Some fault → IsErrOf result fault }
    {
        let TagFeed {
            mut value,
            version,
            mut last,
            fault,
        } = self;
        if let Some(fault) = fault {
            return Err(fault);
        }
        end_value(&mut value, version, &mut last)?;
        Ok(value)
    }
}

/// Reads the lines that end in the next piece.
fn feed_value(
    value: &mut TagValue,
    version: Version,
    last: &mut LastLine,
    piece: &[u8],
) -> Result<(), TagFault>
    ensures ok { (file : LineFile) (all left : List ℕ)
        → AwaitsFor version file all (piece.now ++ left) last.old value.old
        → OnOk result (AwaitsFor version file all left last.new value.new) }
    ensures err { (file : LineFile) (all left : List ℕ)
        → AwaitsFor version file all (piece.now ++ left) last.old value.old
        → IfErr result (Faults (IsFaultOf version file all)) }
{
    match value {
        TagValue::Manifest(manifest) => read_piece(manifest, version, last, piece),
        TagValue::Info(info) => read_piece(info, version, last, piece),
        TagValue::Fetch(fetch) => read_piece(fetch, version, last, piece),
    }
}

/// Reads the last line, which ends where the text ends.
fn end_value(value: &mut TagValue, version: Version, last: &mut LastLine) -> Result<(), TagFault>
    ensures ok { (file : LineFile) (all : List ℕ)
        → AwaitsFor version file all [] last.old value.old
        → OnOk result (IsTextFor version file all value.new) }
    ensures err { (file : LineFile) (all : List ℕ)
        → AwaitsFor version file all [] last.old value.old
        → IfErr result (Faults (IsFaultOf version file all)) }
{
    match value {
        TagValue::Manifest(manifest) => read_end(manifest, version, last, &[]),
        TagValue::Info(info) => read_end(info, version, last, &[]),
        TagValue::Fetch(fetch) => read_end(fetch, version, last, &[]),
    }
}
