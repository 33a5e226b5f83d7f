//! `begin`: opens a transfer with the tag files of a tree.
ghost use Rattle.std.specs.Prelude.{◌≡◌, ◌∷◌, []};
ghost use Rattle.bag_receiver.specs.BeginningFrom.{BeginsFrom};
ghost use Rattle.bag_commands.specs.BeginTexts.{begin_line, begin_status};
ghost use Rattle.bag_commands.specs.Beginning.{PrintedBeginning};
ghost use Rattle.bag_commands.specs.Outputs.{Printed};

use crate::fault_line::{FaultLine, OutsideLine};
use crate::no_result::NoResult;
use crate::output::Output;
use crate::status::begin_status;
use bag_ledger::Keeper;
use bag_path::Spelling;
use bag_receiver::{BeginFault, Begun, Receiver};
use bag_rules::Tree;
use std::alloc::Global;
use std::fmt::{self, Display, Formatter};
use std::io::Write;

/// How `begin` ended.
#[derive(Debug, Drop)]
pub struct BeginEnd {
    /// The exit status.
    pub status: u8,
    /// Why no transfer was opened, if none was.
    pub fault: Option<BeginFault>,
}

/// Opens a transfer with the tag files of a tree and prints the result, with the status of [`print_beginning`]. Payload
/// files aren't read. If the name is invalid, no file is read.
pub fn begin_to<K: Keeper, T: Tree, W: Write + Drop>(
    alloc: Global,
    receiver: &mut Receiver<K>,
    name: &str,
    tree: &mut T,
    out: &mut Output<W>,
) -> BeginEnd
    ensures { PrintedBeginning W.contents out.old out.new result
        (BeginsFrom K.holds K.may_leave K.clean K.failures T.shown T.failures T.sure
        name.now receiver.old receiver.new tree.old tree.new) }
{
    let answer = receiver.begin_from(alloc, name, tree);
    BeginEnd {
        status: print_beginning(&answer, out),
        fault: answer.err(),
    }
}

/// Prints the result of `begin` and returns the status: 0 if the transfer is open, 1 if it was refused, 2 if the bag
/// can't be judged here, and 3 if the tree, the store or memory failed or the result couldn't be written.
pub fn print_beginning<W: Write + Drop>(
    answer: &Result<Begun, BeginFault>,
    out: &mut Output<W>,
) -> u8
    ensures { Printed W.contents out.old out.new result
        (begin_line answer.now ∷ []) (begin_status answer.now) }
{
    out.print(BeginLine(answer), begin_status(answer))
}

/// A result of `begin` as a line.
#[derive(Clone, Copy)]
struct BeginLine<'a>(&'a Result<Begun, BeginFault>);

impl Display for BeginLine<'_> {
    ghost use Rattle.std.specs.Prelude.{Some};
    ghost use Rattle.bag_commands.specs.BeginTexts.{begin_line};

    ghost output = { λ line. Some (begin_line line.0.now) };

    fn fmt<W: fmt::Write>(&self, f: &mut Formatter<W>) -> fmt::Result {
        match self.0 {
            Ok(Begun::New) => f.write_str("new"),
            Ok(Begun::Again) => f.write_str("again"),
            Err(BeginFault::BadName) => f.write_str("refused: name"),
            Err(BeginFault::TagPath(_)) => f.write_str("refused: tag path"),
            Err(BeginFault::TagTooLarge(_)) => f.write_str("refused: tag too large"),
            Err(BeginFault::Outside(cause)) => write!(f, "{}", OutsideLine(cause)),
            Err(BeginFault::Rules(fault)) => write!(f, "refused: {}", FaultLine(fault)),
            Err(BeginFault::Clash(path)) => write!(f, "refused: clash {}", Spelling(path)),
            Err(BeginFault::Differs) => f.write_str("refused: differs"),
            Err(BeginFault::Tree) => f.write_str(NoResult::Files.text()),
            Err(BeginFault::Keeper(why)) => f.write_str(NoResult::from(*why).text()),
        }
    }
}
