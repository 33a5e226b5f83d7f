//! The line that says why a ledger wasn't opened.

use bag_commands::NoResult;
use bag_path::TextSpelling;
use bag_sqlite::AdoptFault;
use std::fmt::{self, Display, Formatter, Write};

/// The line that says why a ledger wasn't opened.
#[derive(Clone, Copy)]
pub struct UnopenedLine<'a>(pub &'a AdoptFault);

impl Display for UnopenedLine<'_> {
    ghost use Rattle.std.specs.Prelude.{Some};
    ghost use Rattle.bag_program.specs.Working.{unopened_line};

    ghost output = { λ line. Some (unopened_line line.0.now) };

    fn fmt<W: Write>(&self, f: &mut Formatter<W>) -> fmt::Result {
        match self.0 {
            AdoptFault::NotALedger => f.write_str("bag: not a ledger"),
            AdoptFault::Damaged { name, path } => {
                let name = TextSpelling(name.as_str());
                write!(f, "bag: damaged {name} {}", TextSpelling(path.as_str()))
            }
            AdoptFault::Memory => f.write_str(NoResult::Memory.text()),
            AdoptFault::Store(_) => f.write_str(NoResult::Store.text()),
        }
    }
}
