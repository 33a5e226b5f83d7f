//! What a terminal is shown.
ghost use Rattle.std.specs.Prelude.{◌≡◌, ◌<◌, [], IfOk, OnOk, true};
ghost use Rattle.std.specs.Io.Buffered.{writer_buffer, writer_inner};
ghost use Rattle.std.specs.Io.KnownBytes.{Appends, Keeps};
ghost use Rattle.std.specs.List.{flat_map};
ghost use Rattle.std.specs.Str.{chars};
ghost use Rattle.bag_program.specs.Terminals.{escape_of, hex_digit, is_obeyed, shown_char};
ghost use Rattle.bag_program.specs.Screens.{Shows, given_to};

use std::alloc::Global;
use std::io::{self, BufWriter, Write};

/// How many octets are written to a terminal at a time.
const ROOM: usize = 8_192;

/// What standard output leads to: a terminal, which is shown each text with what it would obey escaped; or a pipe or a
/// file, which gets each octet as it is.
#[derive(Drop)]
pub struct Screen<W: Write + Drop> {
    writer: BufWriter<W>,
    is_terminal: bool,
}

impl<W: Write + Drop> Screen<W> {
    /// What this writer leads to.
    ///
    /// # Errors
    ///
    /// Memory ran out.
    pub fn new(alloc: Global, writer: W, is_terminal: bool) -> io::Result<Self>
        ensures writer { IfOk result (λ screen. writer_inner screen.writer ≡ writer) }
        ensures kind { IfOk result (λ screen. screen.is_terminal ≡ is_terminal) }
    {
        let room = if is_terminal { ROOM } else { 0 };
        let writer = BufWriter::with_capacity(alloc, room, writer)?;
        Ok(Screen {
            writer,
            is_terminal,
        })
    }
}

impl<W: Write + Drop> Write for Screen<W> {
    ghost contents = { given_to W.contents };

    fn write(&mut self, buf: &[u8]) -> io::Result<usize> {
        if self.is_terminal {
            self.write_all(buf)?;
            return Ok(buf.len());
        }
        self.writer.write(buf)
    }

    fn flush(&mut self) -> io::Result<()>
        ensures bytes { Keeps (given_to W.contents self.old) (given_to W.contents self.new) }
        ensures handed_on { OnOk result (writer_buffer self.new.writer ≡ []) }
    {
        self.writer.flush()
    }

    /// Each write to a terminal is shown whole, and handed on at once.
    fn write_all(&mut self, buf: &[u8]) -> io::Result<()>
        ensures bytes { OnOk result (Appends (given_to W.contents self.old)
            (given_to W.contents self.new) buf.now) }
        ensures shown { OnOk result (Shows W.contents self.old self.new buf.now) }
        ensures handed_on { self.old.is_terminal ≡ true
            → OnOk result (writer_buffer self.new.writer ≡ []) }
    {
        if !self.is_terminal {
            return self.writer.write_all(buf);
        }
        match str::from_utf8(buf) {
            Ok(text) => write_shown(&mut self.writer, text)?,
            Err(_) => write_escaped(&mut self.writer, buf)?,
        }
        self.writer.flush()
    }
}

/// Whether a terminal obeys this character instead of showing it: a control character, a separator of lines or of
/// paragraphs, or a mark that turns the direction of text.
pub fn is_obeyed(c: char) -> bool
    ensures { result ≡ is_obeyed c }
{
    c.is_control()
        || matches!(
            c,
            '\u{061C}' | '\u{200E}'..='\u{200F}' | '\u{2028}'..='\u{202E}' | '\u{2066}'..='\u{2069}'
        )
}

/// The escape of an octet: `%` and two hexadecimal digits.
pub fn escape_of(octet: u8) -> [u8; 3]
    ensures { result ≡ escape_of octet }
{
    [b'%', hex_digit(octet / 16), hex_digit(octet % 16)]
}

/// The hexadecimal digit with this value.
fn hex_digit(value: u8) -> u8
    requires { value < 16 }
    ensures { result ≡ hex_digit value }
{
    if value < 10 {
        b'0' + value
    } else {
        b'A' + (value - 10)
    }
}

/// Writes a text as a terminal is shown it: what it would obey is escaped, octet by octet, but for line feeds.
fn write_shown<W: Write>(writer: &mut W, text: &str) -> io::Result<()>
    ensures { OnOk result (Appends (W.contents writer.old) (W.contents writer.new)
        (flat_map shown_char (chars text.now))) }
{
    for c in text.chars() {
        let mut room = [0; 4];
        let octets = c.encode_utf8(&mut room).as_bytes();
        if c != '\n' && is_obeyed(c) {
            write_escaped(writer, octets)?;
        } else {
            writer.write_all(octets)?;
        }
    }
    Ok(())
}

/// Writes the escape of each octet.
fn write_escaped<W: Write>(writer: &mut W, octets: &[u8]) -> io::Result<()>
    ensures { OnOk result (Appends (W.contents writer.old) (W.contents writer.new)
        (flat_map escape_of octets.now)) }
{
    for octet in octets {
        writer.write_all(&escape_of(*octet))?;
    }
    Ok(())
}
