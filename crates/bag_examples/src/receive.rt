//! Receives a bag file by file: one file as it is listed, and one that is not. Another keeper is any type with `Keeper`
//! of `bag_ledger`, such as `SqlKeeper` of `bag_sqlite`.
use crate::{DECLARATION, Unfinished, add_file};
use bag_commands::{FaultLine, Output, RefusalText, verdict_text};
use bag_ledger::{Keeper, MapKeeper};
use bag_receiver::{Answer, DeliverFault, Receiver};
use bag_rules::MemTree;
use std::alloc::Global;
use std::io::Write;

const NAME: &str = "letters";

/// The SHA-256 of the texts `Dear Ada` and `Dear Ben`, each with a line feed.
const MANIFEST: &[u8] = b"\
ba52dd8308418cb8cc6b8ca513b89afb20e6fe8ecc134f6bd7cbabec869139fc  data/ada.txt\n\
c2b3725c84bd9a21c8b43b526e1cb3c2cdf3c5eacf89a8737a0ec9d99f636d99  data/ben.txt\n";

pub fn show<W: Write + Drop>(alloc: Global, out: &mut Output<W>) -> Result<(), Unfinished> {
    let mut receiver = Receiver::new(alloc, MapKeeper::new(alloc));
    begin(alloc, &mut receiver)?;
    deliver_and_report(alloc, &mut receiver, out)
}

/// Opens the transfer with the tag files of the bag.
fn begin<K: Keeper>(alloc: Global, receiver: &mut Receiver<K>) -> Result<(), Unfinished> {
    let mut tags = MemTree::new(alloc);
    add_file(alloc, &mut tags, "bagit.txt", DECLARATION)?;
    add_file(alloc, &mut tags, "manifest-sha256.txt", MANIFEST)?;
    receiver.begin_from(alloc, NAME, &mut tags)?;
    Ok(())
}

fn deliver_and_report<K: Keeper, W: Write + Drop>(
    alloc: Global,
    receiver: &mut Receiver<K>,
    out: &mut Output<W>,
) -> Result<(), Unfinished> {
    for (path, text) in [
        ("data/ada.txt", "Dear Ada\n"),
        ("data/ben.txt", "Dear Bem\n"),
    ] {
        let answer = receiver.deliver(alloc, NAME, path, text.as_bytes());
        out.line(told(alloc, path, answer)?)?;
    }
    let report = receiver.report(alloc, NAME)?;
    for fault in report.faults() {
        out.line(FaultLine(fault))?;
    }
    Ok(out.line(verdict_text(&report))?)
}

/// An answer as a line. A refusal changes nothing and is no error: only that the keeper has no answer is one.
fn told(alloc: Global, path: &str, answer: Answer) -> Result<String, Unfinished> {
    Ok(match answer {
        Answer::Taken => format!(in alloc; "taken {path}")?,
        Answer::Repeated => format!(in alloc; "repeated {path}")?,
        Answer::Refused(DeliverFault::Keeper(fault)) => return Err(Unfinished::Keeper(fault)),
        Answer::Refused(fault) => format!(in alloc; "refused {path}: {}", RefusalText(fault))?,
    })
}
