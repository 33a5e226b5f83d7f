//! The lines that `check` prints.
ghost use Rattle.std.specs.Prelude.{◌≡◌};
ghost use Rattle.bag_tags.specs.Names.{manifest_name};
ghost use Rattle.bag_commands.specs.FaultTexts.{declaration_text, cause_text};

use bag_digest::Alg;
use bag_path::Spelling;
use bag_rules::{Fault, OutsideCause};
use bag_tags::{DeclFault, Kind, LineCause, ManifestName};
use std::fmt::{Display, Formatter, Result, Write};

/// The name of a manifest of this kind and algorithm.
fn manifest_name(kind: Kind, alg: Alg) -> ManifestName
    ensures { result ≡ manifest_name kind alg }
{
    ManifestName { kind, alg }
}

/// Why `bagit.txt` can't be read.
fn declaration_text(why: DeclFault) -> &'static str
    ensures { result.now ≡ declaration_text why }
{
    match why {
        DeclFault::NotUtf8 => "not UTF-8",
        DeclFault::Mark => "byte order mark",
        DeclFault::LineCount => "line count",
        DeclFault::Label => "label",
        DeclFault::Version => "version",
        DeclFault::EncodingName => "encoding name",
    }
}

/// Why a line can't be read.
fn cause_text(cause: LineCause) -> &'static str
    ensures { result.now ≡ cause_text cause }
{
    match cause {
        LineCause::NotUtf8 => "not UTF-8",
        LineCause::NoSeparator => "separator",
        LineCause::BadDigest => "digest form",
        LineCause::BadPath(_) => "path",
        LineCause::WrongPlace => "wrong place",
        LineCause::Twice => "twice",
        LineCause::BadLabel => "label",
        LineCause::NothingToContinue => "nothing to continue",
        LineCause::BadUrl => "url",
        LineCause::BadLength => "length",
    }
}

/// A fault as a line.
#[derive(Clone, Copy)]
pub struct FaultLine<'a>(pub &'a Fault);

impl Display for FaultLine<'_> {
    ghost use Rattle.std.specs.Prelude.{Some};
    ghost use Rattle.bag_commands.specs.FaultTexts.{fault_text};

    ghost output = { λ line. Some (fault_text line.0.now) };

    fn fmt<W: Write>(&self, f: &mut Formatter<W>) -> Result {
        match self.0 {
            Fault::NoDeclaration => f.write_str("no bagit.txt"),
            Fault::BadDeclaration(why) => write!(f, "bagit.txt: {}", declaration_text(*why)),
            Fault::NoPayloadDir => f.write_str("no data directory"),
            Fault::NoManifest => f.write_str("no payload manifest"),
            Fault::BadLine { file, line, cause } => {
                write!(f, "{}:{line}: {}", file, cause_text(*cause))
            }
            Fault::ManifestNotListed {
                tag_manifest,
                manifest,
            } => {
                let tag_manifest = manifest_name(Kind::Tag, *tag_manifest);
                let manifest = manifest_name(Kind::Payload, *manifest);
                write!(f, "{tag_manifest}: not listed: {manifest}")
            }
            Fault::OxumForm => f.write_str("bag-info.txt: Payload-Oxum form"),
            Fault::OxumTwice => f.write_str("bag-info.txt: Payload-Oxum repeated"),
            Fault::Missing { manifest, path } => {
                write!(f, "{manifest}: missing: {}", Spelling(path))
            }
            Fault::Unlisted { manifest, path } => {
                let manifest = manifest_name(Kind::Payload, *manifest);
                write!(f, "{manifest}: unlisted: {}", Spelling(path))
            }
            Fault::FetchNotListed { manifest, path } => {
                let manifest = manifest_name(Kind::Payload, *manifest);
                write!(f, "fetch.txt: not in {manifest}: {}", Spelling(path))
            }
            Fault::FetchLength { line, path } => {
                write!(f, "fetch.txt:{line}: length: {}", Spelling(path))
            }
            Fault::OxumWrong => f.write_str("bag-info.txt: Payload-Oxum wrong"),
            Fault::WrongDigest { manifest, path } => {
                write!(f, "{manifest}: digest: {}", Spelling(path))
            }
        }
    }
}

/// The reason why a bag can't be judged, as a line.
#[derive(Clone, Copy)]
pub struct OutsideLine<'a>(pub &'a OutsideCause);

impl Display for OutsideLine<'_> {
    ghost use Rattle.std.specs.Prelude.{Some};
    ghost use Rattle.bag_commands.specs.CheckTexts.{outside_text};

    ghost output = { λ line. Some (outside_text line.0.now) };

    fn fmt<W: Write>(&self, f: &mut Formatter<W>) -> Result {
        match self.0 {
            OutsideCause::Version => f.write_str("outside: version"),
            OutsideCause::Encoding => f.write_str("outside: encoding"),
            OutsideCause::Algorithm(name) => write!(f, "outside: algorithm {name}"),
        }
    }
}
