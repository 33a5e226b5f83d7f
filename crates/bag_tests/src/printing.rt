//! What is printed of results that no run of the program has, and what a failed write gives.
use bag_commands::{NoResult, Output, print_beginning, print_making, print_no_result};
use bag_ledger::{KeepFault, StoreFault};
use bag_path::BagPath;
use bag_receiver::BeginFault;
use bag_rules::{CheckFault, Fault, OutsideCause};
use bag_writer::{Large, WriteFault};
use std::alloc::Global;
use std::io::{self, BufWriter, Write};
use std::test::Fail;

/// An output that keeps what is written to it.
pub fn kept(alloc: Global) -> Result<Output<Vec<u8>>, Fail> {
    Ok(Output::new(BufWriter::new(alloc, Vec::new(alloc))?))
}

/// What was written to it.
pub fn printed(out: &Output<Vec<u8>>) -> Option<&str> {
    str::from_utf8(out.writer.get_ref().as_slice()).ok()
}

/// A writer that accepts some octets and then fails, at a write or at a flush.
#[derive(Drop)]
struct Failing {
    takes: usize,
    flushes: bool,
}

impl Write for Failing {
    fn write(&mut self, buf: &[u8]) -> io::Result<usize> {
        let taken = self.takes.min(buf.len());
        self.takes -= taken;
        if taken == 0 {
            return Err(io::Error::from(io::ErrorKind::StorageFull));
        }
        Ok(taken)
    }

    fn flush(&mut self) -> io::Result<()> {
        if self.flushes {
            Ok(())
        } else {
            Err(io::Error::from(io::ErrorKind::BrokenPipe))
        }
    }
}

#[test]
fn the_greatest_number_of_a_line_is_printed_whole(rt: HostRuntime) -> Result<(), Fail> {
    let fault = Fault::FetchLength {
        line: 18446744073709551615,
        path: BagPath::parse(rt.alloc(), "data/a.txt")?,
    };
    let mut out = kept(rt.alloc())?;
    let answered = print_beginning(&Err(BeginFault::Rules(fault)), &mut out);
    let text = "refused: fetch.txt:18446744073709551615: length: data/a.txt\n";
    assert_eq!(rt; (answered, printed(&out)), (1, Some(text)));
    Ok(())
}

#[test]
fn each_fault_that_ends_a_check_is_told(rt: HostRuntime) -> Result<(), Fail> {
    let alloc = rt.alloc();
    let large = BagPath::parse(alloc, "data/a.txt")?;
    let tag = BagPath::parse(alloc, "bag-info.txt")?;
    for (fault, line) in [
        (CheckFault::Tree, "bag: files\n"),
        (CheckFault::TagTooLarge(tag), "bag: tag too large\n"),
        (CheckFault::TooMany, "bag: too many\n"),
        (CheckFault::TooLarge(large), "bag: too large\n"),
        (CheckFault::Memory, "bag: memory\n"),
    ] {
        let mut out = kept(alloc)?;
        let answered = print_no_result(NoResult::from(&fault), &mut out);
        assert_eq!(rt; (answered, printed(&out)), (3, Some(line)));
    }
    Ok(())
}

#[test]
fn each_fault_of_a_new_bag_is_told(rt: HostRuntime) -> Result<(), Fail> {
    let alloc = rt.alloc();
    let folder = BagPath::parse(alloc, "data/a")?;
    for (fault, status, line) in [
        (WriteFault::NoAlgorithm, 1, "bag: no algorithm\n"),
        (WriteFault::OxumGiven, 1, "bag: oxum given\n"),
        (WriteFault::BadHole(0), 1, "bag: bad hole\n"),
        (WriteFault::Clash(folder), 1, "bag: clash\n"),
        (WriteFault::TooLarge(Large::Payload), 1, "bag: too large\n"),
        (WriteFault::Tree, 3, "bag: files\n"),
        (WriteFault::Sink, 3, "bag: files\n"),
        (WriteFault::Memory, 3, "bag: memory\n"),
    ] {
        let mut out = kept(alloc)?;
        let answered = print_making(&Err(fault), &mut out);
        assert_eq!(rt; (answered, printed(&out)), (status, Some(line)));
    }
    Ok(())
}

#[test]
fn each_fault_of_a_beginning_is_told(rt: HostRuntime) -> Result<(), Fail> {
    let alloc = rt.alloc();
    let folder = BagPath::parse(alloc, "data/100%")?;
    let tag = BagPath::parse(alloc, "bag-info.txt")?;
    for (fault, status, line) in [
        (BeginFault::BadName, 1, "refused: name\n"),
        (BeginFault::TagPath(0), 1, "refused: tag path\n"),
        (BeginFault::TagTooLarge(tag), 1, "refused: tag too large\n"),
        (
            BeginFault::Outside(OutsideCause::Encoding),
            2,
            "outside: encoding\n",
        ),
        (
            BeginFault::Rules(Fault::NoDeclaration),
            1,
            "refused: no bagit.txt\n",
        ),
        (BeginFault::Clash(folder), 1, "refused: clash data/100%25\n"),
        (BeginFault::Differs, 1, "refused: differs\n"),
        (BeginFault::Tree, 3, "bag: files\n"),
        (BeginFault::Keeper(KeepFault::Memory), 3, "bag: memory\n"),
        (
            BeginFault::Keeper(KeepFault::Store(StoreFault::Spent)),
            3,
            "bag: store\n",
        ),
    ] {
        let mut out = kept(alloc)?;
        let answered = print_beginning(&Err(fault), &mut out);
        assert_eq!(rt; (answered, printed(&out)), (status, Some(line)));
    }
    Ok(())
}

#[test]
fn a_failed_write_or_flush_gives_3(rt: HostRuntime) -> Result<(), Fail> {
    let alloc = rt.alloc();
    let answer = Err(BeginFault::Outside(OutsideCause::Version));
    for (takes, flushes, status) in [(0, true, 3), (16, true, 3), (17, true, 2), (17, false, 3)] {
        for held_back in [0, 4, 17, 100] {
            let failing = Failing { takes, flushes };
            let mut out = Output::new(BufWriter::with_capacity(alloc, held_back, failing)?);
            assert_eq!(rt;
                print_beginning(&answer, &mut out),
                status,
                "{takes} octets"
            );
            let failing = Failing { takes, flushes };
            let mut out = Output::new(BufWriter::with_capacity(alloc, held_back, failing)?);
            let told = out.print_line("outside: version", 2);
            assert_eq!(rt; told, status, "{takes} octets");
        }
    }
    Ok(())
}
