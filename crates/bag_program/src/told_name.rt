//! Names on standard error.
use crate::terminal::{escape_of, is_obeyed};
use std::fmt::{self, Display, Formatter, Write};
use std::marker::Model;

/// A name as it is told: on one line, with the escapes of a path, and all that a terminal would obey escaped like this.
#[derive(Drop)]
pub struct ToldName<'a> {
    text: &'a str,
}

impl<'a> Model for ToldName<'a> {
    ghost use Rattle.std.specs.Prelude.{ℕ, List};

    ghost Value = { List ℕ };

    ghost view = { λ name. name.text.now };
}

impl<'a> ToldName<'a> {
    ghost use Rattle.std.specs.Prelude.{◌≡◌};

    /// This name, to be told.
    pub fn of(text: &'a str) -> ToldName<'a>
        ensures { result ≡ text.now }
    {
        ToldName { text }
    }
}

impl Display for ToldName<'_> {
    fn fmt<W: Write>(&self, f: &mut Formatter<W>) -> fmt::Result {
        for c in self.text.chars() {
            if c == '%' || is_obeyed(c) {
                write_escaped(f, c)?;
            } else {
                f.write_char(c)?;
            }
        }
        Ok(())
    }
}

/// Writes each octet of a character as an escape.
fn write_escaped<W: Write>(f: &mut Formatter<W>, c: char) -> fmt::Result {
    let mut octets = [0; 4];
    for octet in c.encode_utf8(&mut octets).as_bytes() {
        for part in &escape_of(*octet) {
            f.write_char(char::from(*part))?;
        }
    }
    Ok(())
}

/// The name of a folder.
#[derive(Debug, Drop)]
pub struct FolderName {
    pub text: String,
}

impl Model for FolderName {
    ghost use Rattle.std.specs.Prelude.{ℕ, List, string_bytes};

    ghost Value = { List ℕ };

    ghost view = { λ name. string_bytes name.text };
}
