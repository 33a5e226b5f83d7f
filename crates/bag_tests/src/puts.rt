//! Payload files that are put or read where no receiver does so, and what the faults of a put say.
use bag_digest::Alg;
use bag_ledger::{KeepFault, Keeper, PutFault, StoreFault};
use bag_path::BagPath;
use bag_rules::{Plan, TagSet};
use bag_sqlite::{NotCreated, SqlKeeper};
use sqlite::{Connection, MemStore};
use std::alloc::Global;
use std::test::Fail;

const DECLARATION: &str = "BagIt-Version: 1.0\nTag-File-Character-Encoding: UTF-8\n";

/// A payload file without octets, and one with the octets `abc`. The digests are those of `md5sum`.
const OF_NOTHING: &str = "d41d8cd98f00b204e9800998ecf8427e  data/e.txt\n";

const OF_ABC: &str = "900150983cd24fb0d6963f7d28e17f72  data/a.txt\n";

/// The tag files of a transfer with this manifest.
fn tag_files(alloc: Global, manifest: &str) -> Result<TagSet, Fail> {
    let mut tags = TagSet::new(alloc);
    for (path, text) in [("bagit.txt", DECLARATION), ("manifest-md5.txt", manifest)] {
        tags.add(path, Vec::from_slice(alloc, text.as_bytes())?)?;
    }
    Ok(tags)
}

fn made(connection: Connection<MemStore>) -> Result<SqlKeeper<MemStore>, KeepFault> {
    match SqlKeeper::create(connection) {
        Ok(keeper) => Ok(keeper),
        Err(
            NotCreated {
                fault,
                trouble: _,
                connection: _,
            },
        ) => Err(fault),
    }
}

#[test]
fn a_put_without_its_transfer_is_a_failure_of_the_store(rt: HostRuntime) -> Result<(), Fail> {
    let alloc = rt.alloc();
    let plan = Plan::from_tags(alloc, &tag_files(alloc, OF_NOTHING)?)?;
    let path = BagPath::parse(alloc, "data/e.txt")?;
    let want = plan.want(&path).ok_or("it isn't listed")?;
    let mut keeper = made(Connection::open_in_memory(alloc)?)?;
    for fault in [StoreFault::Refused, StoreFault::Spent] {
        let put = keeper.put(alloc, "t1", &want, b"");
        assert_eq!(rt; put, Err(PutFault::Keep(KeepFault::Store(fault))));
    }
    Ok(())
}

#[test]
fn nothing_is_read_past_the_end_of_what_is_held(rt: HostRuntime) -> Result<(), Fail> {
    let alloc = rt.alloc();
    let tags = tag_files(alloc, OF_ABC)?;
    let plan = Plan::from_tags(alloc, &tags)?;
    let path = BagPath::parse(alloc, "data/a.txt")?;
    let want = plan.want(&path).ok_or("it isn't listed")?;
    let mut keeper = made(Connection::open_in_memory(alloc)?)?;
    keeper.begin(alloc, "t1", &tags)?;
    keeper.put(alloc, "t1", &want, b"abc")?;
    read_past(alloc, &mut keeper, &path)
}

/// Reads pieces of a payload file that holds `abc`.
fn read_past(alloc: Global, keeper: &mut SqlKeeper<MemStore>, path: &BagPath) -> Result<(), Fail> {
    let mut octets = [0; 4];
    for (name, offset, count) in [("t1", 3, 0), ("t1", 65_536, 0), ("t2", 0, 0), ("t1", 1, 2)] {
        if keeper.read_piece(alloc, name, path, offset, &mut octets)? != count {
            return Err(Fail::from("another number of octets"));
        }
    }
    if &octets[..2] != b"bc".as_slice() {
        return Err(Fail::from("other octets"));
    }
    Ok(())
}

#[test]
fn what_the_faults_of_a_put_say(rt: HostRuntime) -> Result<(), Fail> {
    for (fault, wanted) in [
        (PutFault::Reader, "its content can't be read"),
        (PutFault::TooLarge, "too large"),
        (PutFault::Length, "length"),
        (PutFault::Digest(Alg::Md5), "digest"),
        (PutFault::Keep(KeepFault::Memory), "not kept"),
    ] {
        let text = format!(in rt.alloc(); "{fault}")?;
        assert_eq!(rt; text.as_str(), wanted);
    }
    let stores = format!(in rt.alloc();
        "{}; {}; {}; {}",
        KeepFault::Memory,
        KeepFault::Store(StoreFault::Spent),
        StoreFault::Refused,
        StoreFault::Spent
    )?;
    assert_eq!(rt;
        stores.as_str(),
        "out of memory; the store failed; the store refused a call; the store failed before"
    );
    Ok(())
}
