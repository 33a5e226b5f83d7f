//! Names in memory, which no command uses.
use bag_folder::{EntryKind, MemEntry, MemNames, Names};
use std::io::{self, ErrorKind, Read};
use std::test::Fail;

/// Makes a folder, and a file and a folder in it.
fn make(names: &mut MemNames<'_>) -> io::Result<()> {
    names.make_folder("a")?;
    names.make_file("a/b")?;
    names.make_directories("a/c")?;
    names.make_directories("a")
}

#[test]
fn what_is_new_is_made_and_what_stands_is_refused(rt: HostRuntime) -> Result<(), Fail> {
    let alloc = rt.alloc();
    let mut names = MemNames {
        alloc,
        entries: Vec::new(alloc),
        absent: io::Error::from(ErrorKind::NotFound),
    };
    make(&mut names)?;
    for name in ["a", "a/b", "a/c"] {
        assert!(rt; names.make_folder(name).is_err());
        assert!(rt; names.make_file(name).is_err());
    }
    assert!(rt; names.make_directories("a/b").is_err());
    assert!(rt; matches!(names.kind("a"), Ok(EntryKind::Directory)));
    assert!(rt; matches!(names.kind("a/b"), Ok(EntryKind::File)));
    assert!(rt; matches!(names.kind("a/c"), Ok(EntryKind::Directory)));
    assert!(rt; names.kind("b").is_err());
    Ok(())
}

#[test]
fn a_file_gives_what_it_holds(rt: HostRuntime) -> Result<(), Fail> {
    let alloc = rt.alloc();
    let entry = MemEntry {
        name: String::from_str(alloc, "a")?,
        kind: EntryKind::File,
        octets: b"octets",
    };
    let mut entries = Vec::new(alloc);
    entries.push(entry)?;
    let names = MemNames {
        alloc,
        entries,
        absent: io::Error::from(ErrorKind::NotFound),
    };
    let mut octets = Vec::new(alloc);
    names.open("a")?.read_to_end(&mut octets)?;
    assert_eq!(rt; octets.as_slice(), b"octets".as_slice());
    assert!(rt; names.open("b").is_err());
    Ok(())
}
