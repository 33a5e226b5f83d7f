//! Manifests, and their text (RFC 8493 sections 2.1.3 and 2.2.1).
ghost use Rattle.std.specs.Prelude.{◌≡◌, ◌++◌, ◌∷◌, [], false, OnOk, OnErr, slice_get, List, IfErr, IfOk, IsErrOf, MatchResult};
ghost use Rattle.std.specs.Option.{option_map};
ghost use Rattle.bag_path.specs.Paths.{IsPath};
ghost use Rattle.bag_path.specs.declared.version.Version.TheVariants.{V1};
ghost use Rattle.bag_digest.specs.Hash.{alg_of};
ghost use Rattle.bag_digest.specs.Spelling.{SpellsDigest, lower_case_of};
ghost use Rattle.bag_tags.specs.declared.listing.Pair.{Pair};
ghost use Rattle.bag_tags.specs.ManifestView.{IsIndexOf};
ghost use Rattle.bag_tags.specs.Listings.{lists_path, pair};
ghost use Rattle.bag_tags.specs.declared.tag_fault.LineFault.{LineFault};
ghost use Rattle.bag_tags.specs.TagLines.{Causes};
ghost use Rattle.bag_tags.specs.Manifests.{plain_path, Gives, GivesNothing, ManifestText, ManifestFault};
ghost use Rattle.bag_tags.specs.ManifestWriting.{needs_dot, written_path, written_pair, written_manifest};

use crate::listing::{Kind, Pair, PushFault};
use crate::name::ManifestName;
use crate::splitting::{Cut, is_blank, split_text};
use crate::tag_fault::{LineCause, TagCause, TagFault};
use crate::tag_lines::{TagLines, read_onto};
use bag_digest::{Alg, Digest};
use bag_path::{BagPath, Version, escape, unescape};
use std::alloc::{AllocError, Global};
use std::collections::BTreeMap;
use std::marker::Model;

/// The files that a manifest lists, in its order. Each is listed once, with its digest.
#[derive(Drop)]
pub struct Manifest {
    alg: Alg,
    kind: Kind,
    pairs: Vec<Pair>,
    places: BTreeMap<BagPath, usize>,
}

impl Model for Manifest {
    ghost use Rattle.bag_tags.specs.Listings.{Listing};

    ghost Value = { Listing };

    ghost use Rattle.bag_tags.specs.ManifestView.{listing_of, IsIndexed};

    ghost view = { listing_of };

    ghost invariant = { IsIndexed };
}

impl Manifest {
    ghost use Rattle.std.specs.Prelude.{◌≡◌, IfErr, IfSome, OnOk, OnErr};
    ghost use Rattle.bag_digest.specs.Hash.{alg_of};
    ghost use Rattle.bag_tags.specs.Listings.{nothing_listed, with_pair, pair, listed_digest, Admits, RefusesPair, NoneTwice};
    ghost use Rattle.bag_tags.specs.ManifestView.{FitEach};
    ghost use Rattle.bag_tags.specs.Names.{manifest_name};

    /// A manifest that lists nothing yet.
    pub fn new(alloc: Global, alg: Alg, kind: Kind) -> Manifest
        ensures { result ≡ nothing_listed alg kind }
    {
        Manifest {
            alg,
            kind,
            pairs: Vec::new(alloc),
            places: BTreeMap::new(alloc),
        }
    }

    /// The allocator that the manifest keeps.
    pub(crate) fn allocator(&self) -> Global {
        *self.pairs.allocator()
    }

    /// The algorithm of the digests.
    pub fn alg(&self) -> Alg
        ensures { result ≡ self.now.alg }
    {
        self.alg
    }

    /// Whether the manifest lists payload files or tag files.
    pub fn kind(&self) -> Kind
        ensures { result ≡ self.now.kind }
    {
        self.kind
    }

    /// The kind and the algorithm of the manifest, which determine its file name.
    pub fn name(&self) -> ManifestName
        ensures { result ≡ manifest_name self.now.kind self.now.alg }
    {
        ManifestName {
            kind: self.kind,
            alg: self.alg,
        }
    }

    /// The listed files in the order of the manifest.
    pub fn pairs(&self) -> &[Pair]
        ensures pairs { result.now ≡ self.now.pairs }
        ensures none_twice { NoneTwice self.now.pairs }
        ensures fit { FitEach self.now.alg self.now.kind self.now.pairs }
    {
        // By the invariant of the index no path is listed twice, which a proof needs here.
        let _places = &self.places;
        self.pairs.as_slice()
    }

    /// The digest that is listed for a path, if one is.
    pub fn get(&self, path: &BagPath) -> Option<Digest>
        ensures listed { result ≡ listed_digest self.now.pairs path.now }
        ensures by_alg { IfSome result (λ digest. alg_of digest ≡ self.now.alg) }
    {
        match self.places.get(path) {
            Some(place) => digest_at(&self.pairs, *place),
            None => None,
        }
    }

    /// Adds a file at the end of the list.
    ///
    /// # Errors
    ///
    /// The first of `WrongAlg`, `WrongPlace` and `Twice` that applies, or `Memory` if memory runs out. The manifest is
    /// then unchanged.
    pub fn push(&mut self, path: BagPath, digest: Digest) -> Result<(), PushFault>
        ensures admitted { OnOk result (Admits self.old path digest) }
        ensures added { OnOk result (self.new ≡ with_pair self.old (pair path digest)) }
        ensures refused { IfErr result (RefusesPair self.old path digest) }
        ensures unchanged { OnErr result (self.new ≡ self.old) }
    {
        if digest.alg() != self.alg {
            return Err(PushFault::WrongAlg);
        }
        if !self.kind.takes(&path) {
            return Err(PushFault::WrongPlace);
        }
        if self.places.contains_key(&path) {
            return Err(PushFault::Twice);
        }
        add(&mut self.pairs, &mut self.places, path, digest)?;
        Ok(())
    }
}

fn digest_at(pairs: &[Pair], place: usize) -> Option<Digest>
    ensures { result ≡ option_map (λ (pair : Pair). pair.digest) (slice_get pairs.now place) }
{
    pairs.get(place).map(|pair| pair.digest)
}

/// Adds a pair to the list, and its place to the index.
fn add(
    pairs: &mut Vec<Pair>,
    places: &mut BTreeMap<BagPath, usize>,
    path: BagPath,
    digest: Digest,
) -> Result<(), AllocError>
    requires indexed { IsIndexOf places.old pairs.old.items }
    requires absent { lists_path pairs.old.items path ≡ false }
    ensures added { OnOk result (pairs.new.items ≡ pairs.old.items ++ pair path digest ∷ []) }
    ensures unchanged { OnErr result (pairs.new.items ≡ pairs.old.items) }
    ensures index { IsIndexOf places.new pairs.new.items }
{
    let place = pairs.len();
    let key = path.clone()?;
    pairs.push(Pair { path, digest })?;
    let Ok(_) = places.insert(key, place) else {
        let _ = pairs.pop();
        return Err(AllocError);
    };
    Ok(())
}

/// Reads the manifest of a text. Each line is the checksum of a file in hex, blanks, and the path of the file.
///
/// One byte order mark at the start is dropped. Lines that are empty or only blanks are skipped. One `*` before a path
/// and then one `./` are dropped, since other tools write them.
///
/// # Errors
///
/// The first faulty line, counted from 1, with the first cause that applies: it isn't UTF-8; it has no blank after the
/// checksum; its checksum or its path is bad; this manifest may not list its path; an earlier line lists its path. Or
/// `Memory`, if memory runs out.
pub fn read_manifest(
    alloc: Global,
    octets: &[u8],
    alg: Alg,
    kind: Kind,
    version: Version,
) -> Result<Manifest, TagFault>
    // The result is what the text lists, and every text that lists something is read.
    ensures listed { IfOk result (λ manifest. (manifest.alg ≡ alg) × (manifest.kind ≡ kind)
        × ManifestText version alg kind octets.now manifest.pairs) }
    ensures only { (pairs : List Pair) → ManifestText version alg kind octets.now pairs
        → MatchResult result (λ manifest. manifest.pairs ≡ pairs)
        (λ fault. fault ≡ TagFault.Memory) }
    ensures fault { (fault : LineFault) → IsErrOf result (TagFault.Line fault)
        → ManifestFault version alg kind octets.now fault }
{
    let mut manifest = Manifest::new(alloc, alg, kind);
    read_onto(alloc, &mut manifest, version, octets)?;
    Ok(manifest)
}

impl TagLines for Manifest {
    ghost use Rattle.bag_tags.specs.Manifests.{AddsPair, RefusesLine};

    ghost leads = { AddsPair };

    ghost refuses = { RefusesLine };

    fn read_line(&mut self, version: Version, _number: u64, text: &str) -> Result<(), TagCause> {
        let alloc = self.allocator();
        let Pair { path, digest } = read_pair(alloc, self.alg(), version, text)?;
        match self.push(path, digest) {
            Ok(()) => Ok(()),
            Err(PushFault::WrongPlace) => Err(TagCause::Line(LineCause::WrongPlace)),
            Err(PushFault::Twice) => Err(TagCause::Line(LineCause::Twice)),
            Err(PushFault::Memory) => Err(TagCause::Memory),
            Err(PushFault::WrongAlg) => unreachable!(),
        }
    }
}

/// The path and the digest that a line gives.
fn read_pair(alloc: Global, alg: Alg, version: Version, text: &str) -> Result<Pair, TagCause>
    ensures ok { IfOk result (λ pair. Gives version alg text.now pair.path pair.digest) }
    ensures err { IfErr result (Causes (GivesNothing version alg text.now)) }
{
    let (checksum, rest) = split_text(text, Cut::Blank);
    if rest.is_empty() {
        return Err(TagCause::Line(LineCause::NoSeparator));
    }
    let Some(digest) = Digest::from_hex(alg, checksum.as_bytes()) else {
        return Err(TagCause::Line(LineCause::BadDigest));
    };
    let (_blanks, path_text) = split_text(rest, Cut::NoBlank);
    let path = unescape(alloc, plain_path(path_text), version)?;
    Ok(Pair { path, digest })
}

/// The text of a path without one `*` at its start, and then without one `./`.
fn plain_path(text: &str) -> &str
    ensures { result.now ≡ plain_path text.now }
{
    let text = text.strip_prefix("*").unwrap_or(text);
    text.strip_prefix("./").unwrap_or(text)
}

/// Writes a manifest, its pairs in their order. Each line is a digest in lower case hex, two spaces and the escaped
/// path, and ends in LF. A path that begins with `*` or a blank is written after `./`. In version 1.0 `read_manifest`
/// reads the same pairs back.
///
/// # Errors
///
/// `AllocError` if memory runs out.
pub fn write_manifest(alloc: Global, manifest: &Manifest) -> Result<Vec<u8>, AllocError>
    ensures written { IfOk result (λ octets. octets.items ≡ written_manifest manifest.now.pairs) }
    ensures reads { IfOk result (λ octets.
        ManifestText V1 manifest.now.alg manifest.now.kind octets.items manifest.now.pairs) }
{
    let mut octets = Vec::new(alloc);
    for pair in manifest.pairs() {
        write_pair(alloc, &mut octets, pair)?;
    }
    Ok(octets)
}

fn write_pair(alloc: Global, octets: &mut Vec<u8>, pair: &Pair) -> Result<(), AllocError>
    ensures written { OnOk result (octets.new.items ≡ octets.old.items ++ written_pair pair.now) }
    ensures path { OnOk result (IsPath pair.now.path) }
    ensures digest { OnOk result (SpellsDigest (alg_of pair.now.digest)
        (lower_case_of pair.now.digest) pair.now.digest) }
{
    octets.extend_from_slice(pair.digest.to_hex(alloc)?.as_bytes())?;
    octets.extend_from_slice(b"  ")?;
    write_path(alloc, octets, &pair.path)?;
    octets.push(b'\n')?;
    Ok(())
}

/// Writes a path so that a reader drops nothing of it.
fn write_path(alloc: Global, octets: &mut Vec<u8>, path: &BagPath) -> Result<(), AllocError>
    ensures written { OnOk result (octets.new.items ≡ octets.old.items ++ written_path path.now) }
    ensures path { IsPath path.now }
{
    if needs_dot(path.as_str().as_bytes()) {
        octets.extend_from_slice(b"./")?;
    }
    octets.extend_from_slice(escape(alloc, path)?.as_bytes())?;
    Ok(())
}

/// Whether a path begins with `*` or a blank. Without `./` before it a reader would drop that.
fn needs_dot(path: &[u8]) -> bool
    ensures { result ≡ needs_dot path.now }
{
    match path.first() {
        Some(octet) => *octet == b'*' || is_blank(*octet),
        None => false,
    }
}
