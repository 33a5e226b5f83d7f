//! Values of tag files: those that are read but printed by no command, and those that no command writes.
use bag_digest::{Alg, Digest};
use bag_path::{BagPath, Version};
use bag_tags::{
    Declaration, Element, ElementFault, Fetch, FetchEntry, FetchEntryFault, FetchLine, Info, Kind,
    Manifest, Oxum, PushFault, TagFault, read_declaration, read_fetch, read_info, write_fetch,
    write_info, write_manifest,
};
use std::alloc::Global;
use std::test::Fail;

// RFC 1321 section A.5, FIPS 180-4 example B.1, and RFC 6234 section 8.5.
const MD5_OF_ABC: &[u8] = b"900150983cd24fb0d6963f7d28e17f72";

const MD5_OF_NOTHING: &[u8] = b"d41d8cd98f00b204e9800998ecf8427e";

const SHA256_OF_ABC: &[u8] = b"BA7816BF8F01CFEA414140DE5DAE2223B00361A396177A9CB410FF61F20015AD";

const SHA256_OF_NOTHING: &[u8] =
    b"e3b0c44298fc1c149afbf4c8996fb92427ae41e4649b934ca495991b7852b855";

#[test]
fn a_version_is_read_as_its_two_numbers(rt: HostRuntime) {
    let octets = b"BagIt-Version: 10.999999999\nTag-File-Character-Encoding: utf-8\n";
    let declaration = Declaration {
        major: 10,
        minor: 999_999_999,
        utf8: true,
    };
    assert_eq!(rt; read_declaration(octets), Ok(declaration));
}

#[test]
fn an_oxum_is_written_without_leading_zeros(rt: HostRuntime) -> Result<(), Fail> {
    let large = Oxum {
        octets: u64::MAX,
        streams: 1198,
    };
    let text = large.to_text(rt.alloc())?;
    assert_eq!(rt; text.as_str(), "18446744073709551615.1198");
    assert_eq!(rt; Oxum::parse("\t018446744073709551615.001198 "), Some(large));
    Ok(())
}

/// Why this URL and this path make no entry.
fn no_entry(alloc: Global, url: &str, path: &str) -> Result<Option<FetchEntryFault>, Fail> {
    let path = BagPath::parse(alloc, path)?;
    Ok(FetchEntry::new(alloc, url, Some(5), path).err())
}

#[test]
fn urls_and_paths_that_make_no_entry(rt: HostRuntime) -> Result<(), Fail> {
    for (url, path, fault) in [
        ("http:x y", "data/a", FetchEntryFault::BadUrl),
        ("", "a", FetchEntryFault::BadUrl),
        ("http:x", "a", FetchEntryFault::NotPayload),
        ("http:x", "data2/a", FetchEntryFault::NotPayload),
    ] {
        assert_eq!(rt; no_entry(rt.alloc(), url, path)?, Some(fault), "{url:?}");
    }
    Ok(())
}

/// Whether these are the entries, each with the number of its line.
fn are(entries: &[FetchLine], rows: &[(u64, &str, Option<u64>, &str)]) -> bool {
    entries.len() == rows.len()
        && entries.iter().zip(rows).all(|(read, (line, url, length, path))| {
            read.line == *line
                && read.entry.url() == *url
                && read.entry.length() == *length
                && read.entry.path().as_str() == *path
        })
}

#[test]
fn entries_that_are_read(rt: HostRuntime) -> Result<(), Fail> {
    let text =
        b"\xEF\xBB\xBF\r\n \nhttp:x\t \t007  data/a b%0A\rhttp:x 18446744073709551615 data/a b%0a\nhttp://example.org/e - data/e.txt";
    let rows = [
        (3, "http:x", Some(7), "data/a b\n"),
        (4, "http:x", Some(u64::MAX), "data/a b\n"),
        (5, "http://example.org/e", None, "data/e.txt"),
    ];
    let fetch = read_fetch(rt.alloc(), text, Version::V1)?;
    assert!(rt; are(fetch.entries(), &rows));
    Ok(())
}

#[test]
fn entries_are_numbered_from_1_and_written(rt: HostRuntime) -> Result<(), Fail> {
    let alloc = rt.alloc();
    let mut fetch = Fetch::new(alloc);
    let rows = [
        (1, "http:x", Some(5), "data/a"),
        (2, "http://example.org/e", None, "data/a b"),
        (3, "a+b-c.1:\u{e9}:%41", Some(u64::MAX), "data/\n%"),
    ];
    for (_, url, length, path) in rows {
        let path = BagPath::parse(alloc, path)?;
        fetch.push(FetchEntry::new(alloc, url, length, path)?)?;
    }
    assert!(rt; are(fetch.entries(), &rows));
    let text =
        "http:x 5 data/a\nhttp://example.org/e - data/a b\na+b-c.1:\u{e9}:%41 18446744073709551615 data/%0A%25\n";
    assert!(rt; write_fetch(alloc, &fetch)?.as_slice() == text.as_bytes());
    Ok(())
}

#[test]
fn labels_and_values_that_make_no_element(rt: HostRuntime) {
    for (label, value, fault) in [
        ("", "v", ElementFault::BadLabel),
        (" a", "v", ElementFault::BadLabel),
        ("a\t", "v", ElementFault::BadLabel),
        ("a\nb", "v", ElementFault::BadLabel),
        ("\u{feff}a", "v", ElementFault::BadLabel),
        ("a:", "x\n", ElementFault::BadLabel),
        ("a", "x\n\ny", ElementFault::BadValue),
        ("a", "x\n", ElementFault::BadValue),
        ("a", "x\n y", ElementFault::BadValue),
        ("a", "x\r\ny", ElementFault::BadValue),
    ] {
        let answer = Element::new(rt.alloc(), label, value).err();
        assert_eq!(rt; answer, Some(fault), "{label:?} {value:?}");
    }
}

/// Whether a text says these labels and values.
fn says(
    alloc: Global,
    version: Version,
    text: &[u8],
    elements: &[(&str, &str)],
) -> Result<bool, TagFault> {
    let info = read_info(alloc, text, version)?;
    Ok(
        info.elements().len() == elements.len()
            && info.elements().iter().zip(elements).all(|(element, (label, value))| element.label()
                == *label
                && element.value() == *value),
    )
}

#[test]
fn elements_that_are_read(rt: HostRuntime) -> Result<(), Fail> {
    let text =
        b"\xEF\xBB\xBF\n \t\nA:\tb: c \r\n\n \r d\r\nA: \n\t b\n  c \nA:\n b\nA:   b\na b: c\nNote: one\nNote: two\n\t three\nEmpty:";
    let elements = [
        ("A", "b: c \nd"),
        ("A", "\nb\nc "),
        ("A", "\nb"),
        ("A", "  b"),
        ("a b", "c"),
        ("Note", "one"),
        ("Note", "two\nthree"),
        ("Empty", ""),
    ];
    assert!(rt; says(rt.alloc(), Version::V1, text, &elements)?);
    let text = b"L : v\nL:v\nL: \t v\n";
    let elements = [("L", "v"), ("L", "v"), ("L", "v")];
    assert!(rt; says(rt.alloc(), Version::V097, text, &elements)?);
    Ok(())
}

#[test]
fn an_element_is_written_with_each_blank_of_its_value(rt: HostRuntime) -> Result<(), Fail> {
    let alloc = rt.alloc();
    let mut info = Info::new(alloc);
    for (label, value) in [
        ("a b\tc", ""),
        ("a", " x"),
        ("a", "\t"),
        ("a", "\nx y\nz: "),
        ("\u{e9}\u{feff}", "\u{65e5}\u{672c}"),
    ] {
        info.push(Element::new(alloc, label, value)?)?;
    }
    let text = "a b\tc: \na:  x\na: \t\na: \n x y\n z: \n\u{e9}\u{feff}: \u{65e5}\u{672c}\n";
    assert!(rt; write_info(alloc, &info)?.as_slice() == text.as_bytes());
    Ok(())
}

/// What `push` returns for a path and the digest that these digits spell.
fn answer(
    alloc: Global,
    manifest: &mut Manifest,
    path: &str,
    hex: &[u8],
) -> Result<Result<(), PushFault>, Fail> {
    let alg = if hex.len() == 32 {
        Alg::Md5
    } else {
        Alg::Sha256
    };
    let digest = Digest::from_hex(alg, hex).ok_or("these are not the hex digits of a digest")?;
    let path = BagPath::parse(alloc, path)?;
    Ok(manifest.push(path, digest))
}

/// The digest that a manifest lists for this path.
fn listed(alloc: Global, manifest: &Manifest, path: &str) -> Result<Option<Digest>, Fail> {
    Ok(manifest.get(&BagPath::parse(alloc, path)?))
}

#[test]
fn the_first_reason_against_a_pair_is_answered(rt: HostRuntime) -> Result<(), Fail> {
    let alloc = rt.alloc();
    let mut manifest = Manifest::new(alloc, Alg::Md5, Kind::Payload);
    for (path, hex, want) in [
        ("k", SHA256_OF_ABC, Err(PushFault::WrongAlg)),
        ("k", MD5_OF_ABC, Err(PushFault::WrongPlace)),
        ("data/b", MD5_OF_ABC, Ok(())),
        ("data/b", MD5_OF_ABC, Err(PushFault::Twice)),
        ("data/b", SHA256_OF_ABC, Err(PushFault::WrongAlg)),
        ("data/a", MD5_OF_NOTHING, Ok(())),
    ] {
        let answered = answer(alloc, &mut manifest, path, hex)?;
        assert_eq!(rt; answered, want, "at {path}");
    }
    let of_nothing = Digest::from_hex(Alg::Md5, MD5_OF_NOTHING);
    assert_eq!(rt; listed(alloc, &manifest, "data/a")?, of_nothing);
    assert_eq!(rt; listed(alloc, &manifest, "data/c")?, None);
    assert_eq!(rt; manifest.pairs().len(), 2);
    Ok(())
}

#[test]
fn nothing_of_a_path_that_is_written_can_be_dropped(rt: HostRuntime) -> Result<(), Fail> {
    let alloc = rt.alloc();
    let mut manifest = Manifest::new(alloc, Alg::Sha256, Kind::Tag);
    for (path, hex) in [
        ("k/a.txt", SHA256_OF_ABC),
        ("bagit.txt", SHA256_OF_NOTHING),
        ("*a", SHA256_OF_NOTHING),
        (" b", SHA256_OF_ABC),
        ("\tc", SHA256_OF_NOTHING),
        ("d\n%", SHA256_OF_NOTHING),
        (".e/*", SHA256_OF_NOTHING),
        ("x ", SHA256_OF_NOTHING),
    ] {
        answer(alloc, &mut manifest, path, hex)??;
    }
    let lines: &[u8] =
        b"ba7816bf8f01cfea414140de5dae2223b00361a396177a9cb410ff61f20015ad  k/a.txt\n\
e3b0c44298fc1c149afbf4c8996fb92427ae41e4649b934ca495991b7852b855  bagit.txt\n\
e3b0c44298fc1c149afbf4c8996fb92427ae41e4649b934ca495991b7852b855  ./*a\n\
ba7816bf8f01cfea414140de5dae2223b00361a396177a9cb410ff61f20015ad  ./ b\n\
e3b0c44298fc1c149afbf4c8996fb92427ae41e4649b934ca495991b7852b855  ./\tc\n\
e3b0c44298fc1c149afbf4c8996fb92427ae41e4649b934ca495991b7852b855  d%0A%25\n\
e3b0c44298fc1c149afbf4c8996fb92427ae41e4649b934ca495991b7852b855  .e/*\n\
e3b0c44298fc1c149afbf4c8996fb92427ae41e4649b934ca495991b7852b855  x \n";
    assert!(rt; write_manifest(alloc, &manifest)?.as_slice() == lines);
    Ok(())
}
