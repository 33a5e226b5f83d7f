//! Sinks in memory, whose calls may come out of order.
use bag_path::BagPath;
use bag_rules::{MemTree, Paths};
use bag_writer::{MemSink, Sink};
use std::alloc::Global;
use std::test::Fail;

/// Fails with this text, which says what is tested, unless it holds.
fn expect(holds: bool, what: &'static str) -> Result<(), Fail> {
    if holds { Ok(()) } else { Err(Fail::from(what)) }
}

fn path(alloc: Global, text: &str) -> Result<BagPath, Fail> {
    Ok(BagPath::parse(alloc, text)?)
}

/// Whether the tree has these octets at the path.
fn holds(alloc: Global, tree: &MemTree, text: &str, octets: &[u8]) -> Result<bool, Fail> {
    Ok(tree.get(&path(alloc, text)?) == Some(octets))
}

/// Writes a whole file.
fn put(alloc: Global, sink: &mut MemSink, text: &str, octets: &[u8]) -> Result<(), Fail> {
    sink.file(&path(alloc, text)?)?;
    sink.write(octets)?;
    sink.end()?;
    Ok(())
}

/// Begins a second file before the first one ends, and a third one that doesn't end.
fn begin_again(alloc: Global, sink: &mut MemSink) -> Result<u64, Fail> {
    let first = path(alloc, "data/a")?;
    sink.file(&first)?;
    expect(sink.file(&path(alloc, "data/b")?).is_err(), "a second file")?;
    expect(sink.file(&first).is_err(), "the first once more")?;
    sink.write(b"on")?;
    sink.write(b"e")?;
    sink.end()?;
    sink.file(&path(alloc, "data/c")?)?;
    Ok(sink.failures())
}

#[test]
fn a_second_file_waits_for_the_end_of_the_first(rt: HostRuntime) -> Result<(), Fail> {
    let mut sink = MemSink::new(rt.alloc());
    let failures = begin_again(rt.alloc(), &mut sink)?;
    assert_eq!(rt; failures, 2);
    // A file that is only begun is lost.
    let tree = sink.into_tree();
    assert_eq!(rt; tree.count(), 1);
    assert!(rt; holds(rt.alloc(), &tree, "data/a", b"one")?);
    Ok(())
}

/// Writes and ends where no file is begun, also after a path that is there was refused.
fn write_unbegun(alloc: Global, sink: &mut MemSink) -> Result<u64, Fail> {
    expect(sink.write(b"a").is_err(), "a write before all")?;
    expect(sink.end().is_err(), "an end before all")?;
    put(alloc, sink, "data.txt", b"one")?;
    expect(
        sink.file(&path(alloc, "data.txt")?).is_err(),
        "a path that is there",
    )?;
    expect(sink.write(b"two").is_err(), "a write after it")?;
    expect(sink.end().is_err(), "an end after it")?;
    Ok(sink.failures())
}

#[test]
fn nothing_is_written_or_ended_where_no_file_is_begun(rt: HostRuntime) -> Result<(), Fail> {
    let mut sink = MemSink::new(rt.alloc());
    let failures = write_unbegun(rt.alloc(), &mut sink)?;
    assert_eq!(rt; failures, 5);
    let tree = sink.into_tree();
    assert_eq!(rt; tree.count(), 1);
    assert!(rt; holds(rt.alloc(), &tree, "data.txt", b"one")?);
    assert!(rt; !tree.has_payload_dir());
    Ok(())
}

#[test]
fn a_payload_directory_is_made_as_often_as_is_asked(rt: HostRuntime) -> Result<(), Fail> {
    let mut made = MemSink::new(rt.alloc());
    made.payload_dir()?;
    made.payload_dir()?;
    assert_eq!(rt; made.failures(), 0);
    assert!(rt; made.into_tree().has_payload_dir());
    Ok(())
}
