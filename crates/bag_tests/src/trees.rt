//! Trees in memory, whose calls may come out of order.
use bag_digest::{Failed, Source};
use bag_path::BagPath;
use bag_rules::{AddFault, MemTree, Paths, Tree, find};
use std::alloc::Global;
use std::test::Fail;

/// Fails with this text, which says what is tested, unless it holds.
fn expect(holds: bool, what: &'static str) -> Result<(), Fail> {
    if holds { Ok(()) } else { Err(Fail::from(what)) }
}

fn path(alloc: Global, text: &str) -> Result<BagPath, Fail> {
    Ok(BagPath::parse(alloc, text)?)
}

fn add(alloc: Global, tree: &mut MemTree, text: &str, octets: &[u8]) -> Result<(), Fail> {
    tree.add(path(alloc, text)?, Vec::from_slice(alloc, octets)?)?;
    Ok(())
}

fn start(tree: &mut MemTree, i: usize) -> Result<(), Failed> {
    if i < tree.count() {
        tree.start(i)
    } else {
        Err(Failed)
    }
}

/// Whether the tree has these octets at the path.
fn holds(alloc: Global, tree: &MemTree, text: &str, octets: &[u8]) -> Result<bool, Fail> {
    Ok(tree.get(&path(alloc, text)?) == Some(octets))
}

#[test]
fn a_repeated_path_is_refused_and_the_first_octets_stay(rt: HostRuntime) -> Result<(), Fail> {
    let alloc = rt.alloc();
    let mut tree = MemTree::new(alloc);
    add(alloc, &mut tree, "data.txt", b"one")?;
    let fault = tree.add(path(alloc, "data.txt")?, Vec::from_slice(alloc, b"two")?);
    assert_eq!(rt; fault, Err(AddFault::Twice));
    assert_eq!(rt; tree.count(), 1);
    assert!(rt; holds(alloc, &tree, "data.txt", b"one")?);
    assert!(rt; tree.get(&path(alloc, "bag-info.txt")?).is_none());
    assert!(rt; !tree.has_payload_dir());
    add(alloc, &mut tree, "data/a", b"")?;
    assert!(rt; tree.has_payload_dir());
    assert_eq!(rt;
        (find(&tree, "data/a"), find(&tree, "data")),
        (Some(1), None)
    );
    Ok(())
}

#[test]
fn a_read_before_a_start_fails_and_a_file_added_during_a_read_leaves_it_as_it_was(
    rt: HostRuntime,
) -> Result<(), Fail> {
    let mut tree = MemTree::new(rt.alloc());
    let failures = read_while_adding(rt.alloc(), &mut tree)?;
    assert_eq!(rt; failures, 1);
    Ok(())
}

/// Reads a file before it is started, and then in two reads, between which others are added.
fn read_while_adding(alloc: Global, tree: &mut MemTree) -> Result<u64, Fail> {
    add(alloc, tree, "m", b"octets")?;
    expect(tree.read(&mut [0; 4]) == Err(Failed), "no file is started")?;
    start(tree, 0)?;
    expect(tree.read(&mut [0; 3]) == Ok(3), "the first octets")?;
    add(alloc, tree, "a", b"before")?;
    add(alloc, tree, "z", b"after")?;
    let mut rest = [0; 4];
    expect(tree.read(&mut rest) == Ok(3), "the other octets")?;
    expect(rest.starts_with(b"ets"), "which octets they are")?;
    expect(tree.read(&mut rest) == Ok(0), "the end")?;
    Ok(tree.failures())
}
