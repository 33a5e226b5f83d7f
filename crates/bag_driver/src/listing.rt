//! Values of which the texts of tag files are written.
use crate::event::File;
use crate::lines::{bad_line, parsed};
use crate::shown::write_field;
use bag_digest::{Alg, Digest};
use bag_tags::{
    Element, ElementFault, Fetch, FetchEntry, FetchEntryFault, Info, Manifest, ManifestName,
    PushFault, write_fetch, write_info, write_manifest,
};
use std::alloc::{AllocError, Global};
use std::io::{self, Write};

/// The answer to a call for which there was no memory.
pub const NO_MEMORY: &str = "refused: memory";

/// Lists each path with its digest, and writes the answers and the text.
pub fn manifest<W: Write + Drop>(
    alloc: Global,
    name: ManifestName,
    files: &[File],
    out: &mut W,
) -> io::Result<()> {
    let mut manifest = Manifest::new(alloc, name.alg, name.kind);
    for file in files {
        let answer = list(alloc, &mut manifest, file)?;
        write!(out, "{answer} | ")?;
    }
    write_text(write_manifest(alloc, &manifest), out)
}

/// Lists a path. Returns the answer.
fn list(alloc: Global, manifest: &mut Manifest, file: &File) -> io::Result<&'static str> {
    let Some(digest) = digest_of(file.1.as_slice()) else {
        return Err(bad_line());
    };
    let Some(path) = parsed(alloc, file.0.as_str())? else {
        return Ok(NO_MEMORY);
    };
    Ok(match manifest.push(path, digest) {
        Ok(()) => "listed",
        Err(PushFault::WrongAlg) => "refused: algorithm",
        Err(PushFault::WrongPlace) => "refused: place",
        Err(PushFault::Twice) => "refused: twice",
        Err(PushFault::Memory) => NO_MEMORY,
    })
}

/// The digest that is spelled by this many digits.
fn digest_of(text: &[u8]) -> Option<Digest> {
    let alg = match text.len() {
        32 => Alg::Md5,
        40 => Alg::Sha1,
        64 => Alg::Sha256,
        _ => Alg::Sha512,
    };
    Digest::from_hex(alg, text)
}

/// Adds each element, and writes the answers and the text.
pub fn metadata<W: Write + Drop>(alloc: Global, files: &[File], out: &mut W) -> io::Result<()> {
    let mut info = Info::new(alloc);
    for file in files {
        let Ok(value) = str::from_utf8(file.1.as_slice()) else {
            return Err(bad_line());
        };
        let answer = add_element(alloc, &mut info, file.0.as_str(), value);
        write!(out, "{answer} | ")?;
    }
    write_text(write_info(alloc, &info), out)
}

/// Adds an element. Returns the answer.
pub fn add_element(alloc: Global, info: &mut Info, label: &str, value: &str) -> &'static str {
    match Element::new(alloc, label, value) {
        Ok(element) => match info.push(element) {
            Ok(()) => "added",
            Err(_) => NO_MEMORY,
        },
        Err(ElementFault::BadLabel) => "refused: label",
        Err(ElementFault::BadValue) => "refused: value",
        Err(ElementFault::Memory) => NO_MEMORY,
    }
}

/// Adds each entry, of which the octets are its url and, after a blank, its length, and writes the answers and the
/// text.
pub fn entries<W: Write + Drop>(alloc: Global, files: &[File], out: &mut W) -> io::Result<()> {
    let mut fetch = Fetch::new(alloc);
    for file in files {
        let answer = add_entry(alloc, &mut fetch, file)?;
        write!(out, "{answer} | ")?;
    }
    write_text(write_fetch(alloc, &fetch), out)
}

/// Adds an entry. Returns the answer.
fn add_entry(alloc: Global, fetch: &mut Fetch, file: &File) -> io::Result<&'static str> {
    let Ok(text) = str::from_utf8(file.1.as_slice()) else {
        return Err(bad_line());
    };
    let Some((url, length)) = text.split_once(' ') else {
        return Err(bad_line());
    };
    let Some(path) = parsed(alloc, file.0.as_str())? else {
        return Ok(NO_MEMORY);
    };
    Ok(
        match FetchEntry::new(alloc, url, length.parse::<u64>().ok(), path) {
            Ok(entry) => match fetch.push(entry) {
                Ok(()) => "added",
                Err(_) => NO_MEMORY,
            },
            Err(FetchEntryFault::BadUrl) => "refused: url",
            Err(FetchEntryFault::NotPayload) => "refused: place",
            Err(FetchEntryFault::Memory) => NO_MEMORY,
        },
    )
}

/// Writes a text, or that memory ran out.
pub fn write_text<W: Write + Drop>(
    made: Result<Vec<u8>, AllocError>,
    out: &mut W,
) -> io::Result<()> {
    match made {
        Ok(octets) => {
            write!(out, "octets ")?;
            write_field(octets.as_slice(), out)
        }
        Err(AllocError) => write!(out, "{NO_MEMORY}"),
    }
}
