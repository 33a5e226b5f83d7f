//! What is told of the last call that failed on a folder, where no command prints it.
use bag_digest::Source;
use bag_folder::{Disk, FolderSink, FolderSupplier, FolderTree, Names, Unfit};
use bag_path::BagPath;
use bag_receiver::Supplier;
use bag_rules::{Paths, Tree};
use bag_writer::Sink;
use std::alloc::{AllocError, Global};
use std::fs;
use std::os::unix::fs::symlink;
use std::test::Fail;

/// Fails with this text, which says what is tested, unless it holds.
fn expect(holds: bool, what: &'static str) -> Result<(), Fail> {
    if holds { Ok(()) } else { Err(Fail::from(what)) }
}

/// Whether this is the text of a trouble; the empty text is that of none.
fn tells(alloc: Global, last: Option<&Unfit>, expected: &str) -> Result<bool, AllocError> {
    match last {
        Some(unfit) => Ok(format!(in alloc; "{unfit}")?.as_str() == expected),
        None => Ok(expected.is_empty()),
    }
}

/// Starts two files, of which the first is gone.
fn start<R: Names + Drop>(alloc: Global, tree: &mut FolderTree<R>) -> Result<(), Fail> {
    expect(tree.trouble().is_none(), "no trouble before a start")?;
    if tree.count() != 2 {
        return Err(Fail::from("two files"));
    }
    let expected = "bag_tests_start/a: No such file or directory (os error 2)";
    expect(tree.start(0).is_err(), "a file that is gone")?;
    expect(
        tells(alloc, tree.trouble(), expected)?,
        "what it tells of it",
    )?;
    expect(tree.start(1).is_ok(), "a file that is there")?;
    expect(
        tells(alloc, tree.trouble(), expected)?,
        "what it tells after it",
    )
}

#[test]
fn a_tree_tells_what_it_could_not_start(rt: HostRuntime) -> Result<(), Fail> {
    let folder = "bag_tests_start";
    let _ = fs::remove_dir_all(&rt, folder);
    fs::create_dir_all(&rt, folder)?;
    fs::write(&rt, "bag_tests_start/a", b"a".as_slice())?;
    fs::write(&rt, "bag_tests_start/b", b"b".as_slice())?;
    let mut tree = FolderTree::open_payload(&rt, &Disk(&rt), rt.alloc(), folder)?;
    fs::remove_file(&rt, "bag_tests_start/a")?;
    start(rt.alloc(), &mut tree)?;
    drop(tree);
    fs::remove_dir_all(&rt, folder)?;
    Ok(())
}

/// Whether the sink begins no file with this path, and tells this.
fn refuses<R: Names + Drop>(
    alloc: Global,
    sink: &mut FolderSink<R>,
    path: &str,
    expected: &str,
) -> Result<bool, Fail> {
    let path = BagPath::parse(alloc, path)?;
    Ok(sink.file(&path).is_err() && tells(alloc, sink.trouble(), expected)?)
}

/// Begins files that a folder can't have.
fn make<R: Names + Drop>(alloc: Global, sink: &mut FolderSink<R>) -> Result<(), Fail> {
    sink.file(&BagPath::parse(alloc, "data/k/x")?)?;
    expect(
        refuses(alloc, sink, "data/k/x", "")?,
        "while a file is begun",
    )?;
    sink.end()?;
    let expected = "bag_tests_sink/data/k/x: File exists (os error 17)";
    expect(
        refuses(alloc, sink, "data/k/x", expected)?,
        "a file that is there",
    )?;
    let expected = "bag_tests_sink/data/k/x/y: File exists (os error 17)";
    expect(
        refuses(alloc, sink, "data/k/x/y", expected)?,
        "a file below a file",
    )?;
    expect(sink.write(b"octets").is_err(), "no file is begun")?;
    expect(sink.trouble().is_none(), "where no file is begun")?;
    expect(sink.failures() == 4, "four failures")
}

#[test]
fn a_sink_tells_what_it_could_not_make(rt: HostRuntime) -> Result<(), Fail> {
    let folder = "bag_tests_sink";
    let _ = fs::remove_dir_all(&rt, folder);
    let mut sink = FolderSink::create(&rt, rt.alloc(), folder)?;
    make(rt.alloc(), &mut sink)?;
    drop(sink);
    fs::remove_dir_all(&rt, folder)?;
    Ok(())
}

/// Whether the supplier doesn't have this path, and tells this.
fn lacks<R: Names + Drop>(
    alloc: Global,
    supplier: &mut FolderSupplier<R>,
    path: &str,
    expected: &str,
) -> Result<bool, AllocError> {
    Ok(supplier.ask("", path).is_err() && tells(alloc, supplier.trouble(), expected)?)
}

/// Asks for what is no plain file below the folder.
fn ask<R: Names + Drop>(alloc: Global, supplier: &mut FolderSupplier<R>) -> Result<(), Fail> {
    let expected = "bag_tests_asked/data/k: is a directory";
    expect(lacks(alloc, supplier, "data/k", expected)?, "a directory")?;
    let expected = "bag_tests_asked/data/way: it is a symbolic link";
    expect(lacks(alloc, supplier, "data/way/x", expected)?, "a link")?;
    expect(supplier.read(&mut [0; 16]).is_err(), "nothing is open")?;
    expect(supplier.trouble().is_none(), "where nothing is open")
}

#[test]
fn a_supplier_tells_what_stands_in_the_way(rt: HostRuntime) -> Result<(), Fail> {
    let folder = "bag_tests_asked";
    let _ = fs::remove_dir_all(&rt, folder);
    fs::create_dir_all(&rt, "bag_tests_asked/data/k")?;
    symlink(&rt, "k", "bag_tests_asked/data/way")?;
    let mut supplier = FolderSupplier::open(&rt, rt.alloc(), folder)?;
    ask(rt.alloc(), &mut supplier)?;
    drop(supplier);
    fs::remove_dir_all(&rt, folder)?;
    Ok(())
}

#[test]
fn a_supplier_tells_what_a_device_is(rt: HostRuntime) -> Result<(), Fail> {
    let mut devices = FolderSupplier::open(&rt, rt.alloc(), "/dev")?;
    let expected = "/dev/null: it is a named pipe, a socket or a device";
    assert!(rt; lacks(rt.alloc(), &mut devices, "null", expected)?);
    Ok(())
}
