//! Tag files that are read, whole or in pieces, and what was read.
use crate::event::Event;
use crate::lines::bad_line;
use crate::listing::NO_MEMORY;
use crate::shown::write_field;
use bag_commands::FaultLine;
use bag_digest::Alg;
use bag_path::Version;
use bag_rules::Fault;
use bag_tags::{
    Fetch, Info, Kind, LineFile, Manifest, ManifestName, TagFault, TagFeed, TagValue, read_fetch,
    read_info, read_manifest,
};
use std::alloc::Global;
use std::io::{self, Write};

/// A tag file, and the version by whose rules it is read.
#[derive(Clone, Copy)]
pub struct TagFile {
    pub file: LineFile,
    pub version: Version,
}

impl TagFile {
    /// What the name of a file and the number of a version ask for.
    pub fn of(name: &str, version: &str) -> io::Result<TagFile> {
        let file = match name {
            "bag-info.txt" => LineFile::Info,
            "fetch.txt" => LineFile::FetchList,
            _ => LineFile::Manifest(manifest_name(name)?),
        };
        let version = version_of(version)?;
        Ok(TagFile { file, version })
    }

    /// A feed before its first piece.
    pub fn feed(self, alloc: Global) -> TagFeed {
        match self.file {
            LineFile::Info => TagFeed::info(alloc, self.version),
            LineFile::FetchList => TagFeed::fetch(alloc, self.version),
            LineFile::Manifest(name) => {
                TagFeed::manifest(alloc, name.alg, name.kind, self.version)
            }
        }
    }

    /// What the whole reader reads from these octets.
    pub fn whole(self, alloc: Global, octets: &[u8]) -> Result<TagValue, TagFault> {
        Ok(match self.file {
            LineFile::Info => TagValue::Info(read_info(alloc, octets, self.version)?),
            LineFile::FetchList => TagValue::Fetch(read_fetch(alloc, octets, self.version)?),
            LineFile::Manifest(name) => TagValue::Manifest(read_manifest(
                alloc,
                octets,
                name.alg,
                name.kind,
                self.version,
            )?),
        })
    }

    /// Writes what was read, or the fault.
    pub fn write_read<W: Write + Drop>(
        self,
        read: &Result<TagValue, TagFault>,
        out: &mut W,
    ) -> io::Result<()> {
        match read {
            Ok(TagValue::Manifest(manifest)) => write_pairs(manifest, out),
            Ok(TagValue::Info(info)) => write_elements(info, out),
            Ok(TagValue::Fetch(fetch)) => write_entries(fetch, out),
            Err(fault) => self.write_fault(*fault, out),
        }
    }

    /// Writes the fault as the program prints it.
    pub fn write_fault<W: Write + Drop>(self, fault: TagFault, out: &mut W) -> io::Result<()> {
        match fault {
            TagFault::Memory => write!(out, "{NO_MEMORY}"),
            TagFault::Line(fault) => {
                let fault = Fault::BadLine {
                    file: self.file,
                    line: fault.line,
                    cause: fault.cause,
                };
                write!(out, "{}", FaultLine(&fault))
            }
        }
    }
}

/// Reads the tag file of a call in pieces, which have its version for a path, and writes each answer and what was read.
pub fn feed<W: Write + Drop>(alloc: Global, event: &Event<'_>, out: &mut W) -> io::Result<()> {
    let tag_file = tag_file_of(event)?;
    let mut feed = tag_file.feed(alloc);
    for piece in event.files.iter() {
        match feed.feed(piece.1.as_slice()) {
            Ok(()) => write!(out, "ok")?,
            Err(fault) => tag_file.write_fault(fault, out)?,
        }
        write!(out, " | ")?;
    }
    tag_file.write_read(&feed.finish(), out)
}

/// Reads the tag file of a call whole, and writes what was read.
pub fn whole<W: Write + Drop>(alloc: Global, event: &Event<'_>, out: &mut W) -> io::Result<()> {
    let (_, octets) = event.file()?;
    let tag_file = tag_file_of(event)?;
    tag_file.write_read(&tag_file.whole(alloc, octets), out)
}

/// The tag file that a call names, with the version that is the path of its first file; without one, version 1.0.
fn tag_file_of(event: &Event<'_>) -> io::Result<TagFile> {
    let version = match event.files.first() {
        Some(first) => first.0.as_str(),
        None => "1.0",
    };
    TagFile::of(event.name.as_str(), version)
}

/// The version with this number.
pub fn version_of(text: &str) -> io::Result<Version> {
    match text {
        "1.0" => Ok(Version::V1),
        "0.97" => Ok(Version::V097),
        _ => Err(bad_line()),
    }
}

/// The kind and the algorithm of the manifest with this name.
pub fn manifest_name(name: &str) -> io::Result<ManifestName> {
    let (kind, rest) = match name.strip_prefix("tag") {
        Some(rest) => (Kind::Tag, rest),
        None => (Kind::Payload, name),
    };
    let Some(rest) = rest.strip_prefix("manifest-") else {
        return Err(bad_line());
    };
    let Some(word) = rest.strip_suffix(".txt") else {
        return Err(bad_line());
    };
    match Alg::from_name(word) {
        Some(alg) => Ok(ManifestName { kind, alg }),
        None => Err(bad_line()),
    }
}

fn write_pairs<W: Write + Drop>(manifest: &Manifest, out: &mut W) -> io::Result<()> {
    write!(out, "pairs")?;
    for pair in manifest.pairs() {
        write!(out, " ")?;
        write_field(pair.digest.octets(), out)?;
        write!(out, " ")?;
        write_field(pair.path.as_str().as_bytes(), out)?;
    }
    Ok(())
}

fn write_elements<W: Write + Drop>(info: &Info, out: &mut W) -> io::Result<()> {
    write!(out, "elements")?;
    for element in info.elements() {
        write!(out, " ")?;
        write_field(element.label().as_bytes(), out)?;
        write!(out, " ")?;
        write_field(element.value().as_bytes(), out)?;
    }
    Ok(())
}

fn write_entries<W: Write + Drop>(fetch: &Fetch, out: &mut W) -> io::Result<()> {
    write!(out, "entries")?;
    for line in fetch.entries() {
        write!(out, " {} ", line.line)?;
        write_field(line.entry.url().as_bytes(), out)?;
        match line.entry.length() {
            Some(length) => write!(out, " {length} ")?,
            None => write!(out, " - ")?,
        }
        write_field(line.entry.path().as_str().as_bytes(), out)?;
    }
    Ok(())
}
