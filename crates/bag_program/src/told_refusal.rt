//! Why no transfer was opened.
ghost use Rattle.std.specs.Prelude.{◌≡◌};
ghost use Rattle.bag_receiver.specs.TransferNames.{is_of_names};
ghost use Rattle.bag_program.specs.Endings.{first_odd};

use crate::told_name::ToldName;
use bag_path::BagPath;
use std::fmt::{self, Display, Formatter};

/// Why `begin` refused, where more is known than the printed line says. The name that is told with it is that of the
/// transfer, or for a tag file that of the folder which its path begins in.
#[derive(Debug, Drop)]
pub enum Refusal {
    /// The name is invalid. This is its first character that no name has, if there is one.
    Name(Option<char>),
    /// The tag file with this path has too many octets or lines.
    TagFile(BagPath),
    /// The transfer is open with other tag files.
    Differs,
}

impl Refusal {
    ghost use Rattle.std.specs.Prelude.{◌≡◌};
    ghost use Rattle.bag_program.specs.Endings.{refusal_text};

    /// What is said of the name, of the tag file or of the transfer.
    fn text(&self) -> &'static str
        ensures { result.now ≡ refusal_text self.now }
    {
        match self {
            Refusal::Name(_) => "a name has 1 to 64 of the characters a to z, 0 to 9 and -",
            Refusal::TagFile(_) => {
                "it has more than 16,777,216 octets, or more than 100,000 lines"
            }
            Refusal::Differs => {
                "it is open with other tag files, which are never replaced; use another name"
            }
        }
    }
}

impl Display for Refusal {
    fn fmt<W: fmt::Write>(&self, f: &mut Formatter<W>) -> fmt::Result {
        if let Refusal::TagFile(path) = self {
            write!(f, "/{}", ToldName::of(path.as_str()))?;
        }
        write!(f, ": {}", self.text())?;
        if let Refusal::Name(Some(odd)) = self {
            let mut octets = [0; 4];
            write!(f, ", not '{}'", ToldName::of(odd.encode_utf8(&mut octets)))?;
        }
        Ok(())
    }
}

/// The first character of a text that no name of a transfer has.
pub fn first_odd(text: &str) -> Option<char>
    ensures { result ≡ first_odd text.now }
{
    text.chars().find(|c| !is_of_names(*c))
}

/// Whether this character is allowed in the name of a transfer.
fn is_of_names(c: char) -> bool
    ensures { result ≡ is_of_names c }
{
    c.is_ascii_lowercase() || c.is_ascii_digit() || c == '-'
}
