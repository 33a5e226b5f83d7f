//! Keeps what a command prints apart from the line of progress.
ghost use Rattle.std.specs.Prelude.{◌≡◌};

use crate::progress_line::Progress;
use std::io::{self, Write};
use std::marker::Model;

/// A writer before each of whose writes the line of progress is erased.
#[derive(Drop)]
pub struct Clearing<'a, W, R> {
    writer: W,
    progress: &'a Progress<'a, R>,
}

impl<'a, W, R> Model for Clearing<'a, W, R> {
    ghost Value = { W };

    ghost view = { λ clearing. clearing.writer };
}

impl<'a, W, R> Clearing<'a, W, R> {
    /// The same as this writer, apart from the line.
    pub fn new(writer: W, progress: &'a Progress<'a, R>) -> Self
        ensures { result ≡ writer }
    {
        Clearing { writer, progress }
    }
}

impl<W: Write, R: Eprint> Write for Clearing<'_, W, R> {
    ghost contents = { W.contents };

    fn write(&mut self, buf: &[u8]) -> io::Result<usize> {
        self.progress.clear();
        self.writer.write(buf)
    }

    fn flush(&mut self) -> io::Result<()> {
        self.writer.flush()
    }

    fn write_all(&mut self, buf: &[u8]) -> io::Result<()> {
        self.progress.clear();
        self.writer.write_all(buf)
    }
}
