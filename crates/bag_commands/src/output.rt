//! A writer that counts its failures.
ghost use Rattle.std.specs.Prelude.{◌≡◌, ◌++◌, ◌∷◌, [], IfSome, OnOk, codes};
ghost use Rattle.std.specs.Io.Buffered.{writer_buffer, writer_contents, writer_inner};
ghost use Rattle.std.specs.Io.KnownBytes.{Appends, Keeps};
ghost use Rattle.bag_digest.specs.Failures.{CountsFailure};
ghost use Rattle.bag_commands.specs.Outputs.{Printed};

use crate::status::FAILED;
use bag_digest::{Failed, Failures};
use std::alloc::Global;
use std::fmt::Display;
use std::io::{BufWriter, Write};

/// A buffered writer, and how many times it has failed. What is written is buffered until it is flushed or the buffer
/// is full.
#[derive(Drop)]
pub struct Output<W: Write + Drop> {
    pub writer: BufWriter<W>,
    failures: Failures,
}

impl<W: Write + Drop> Output<W> {
    /// A writer that hasn't failed yet.
    pub fn new(writer: BufWriter<W>) -> Self
        ensures writer { result.writer ≡ writer }
        ensures failures { result.failures ≡ 0 }
    {
        Output {
            writer,
            failures: Failures::none(),
        }
    }

    /// The same without a buffer: for standard error, and if there is no memory for a buffer.
    pub fn unbuffered(alloc: Global, writer: W) -> Self
        ensures inner { writer_inner result.writer ≡ writer }
        ensures empty { writer_buffer result.writer ≡ [] }
        ensures failures { result.failures ≡ 0 }
    {
        Output::new(BufWriter::with_capacity(alloc, 0, writer).unwrap())
    }

    /// Writes a text and a line feed.
    ///
    /// # Errors
    ///
    /// The writer failed. Part of the line may have been written.
    pub fn line<D: Display + Drop>(&mut self, text: D) -> Result<(), Failed>
        ensures ok { OnOk result (IfSome (D.output text) (λ octets.
            Appends (writer_contents W.contents self.old.writer)
            (writer_contents W.contents self.new.writer) (octets ++ codes "\n"))) }
        ensures counted { CountsFailure result self.old.failures self.new.failures }
    {
        let written = writeln!(self.writer, "{text}");
        self.failures.counted(written)
    }

    /// Prints a single text with a line feed, and flushes it. Returns the given status, or [`FAILED`] if the writer
    /// failed.
    pub fn print<D: Display + Drop>(&mut self, text: D, status: u8) -> u8
        ensures { IfSome (D.output text) (λ line.
            Printed W.contents self.old self.new result (line ∷ []) status) }
    {
        let printed = self.line(text).is_ok() && self.flush().is_ok();
        if printed { status } else { FAILED }
    }

    /// Prints a single line, and flushes it. Returns the given status, or [`FAILED`] if the writer failed.
    pub fn print_line(&mut self, line: &str, status: u8) -> u8
        ensures { Printed W.contents self.old self.new result (line.now ∷ []) status }
    {
        self.print(line, status)
    }

    /// Flushes the buffer.
    ///
    /// # Errors
    ///
    /// The writer failed.
    pub fn flush(&mut self) -> Result<(), Failed>
        ensures contents { Keeps (writer_contents W.contents self.old.writer)
            (writer_contents W.contents self.new.writer) }
        ensures handed_on { OnOk result (writer_buffer self.new.writer ≡ []) }
        ensures counted { CountsFailure result self.old.failures self.new.failures }
    {
        let flushed = self.writer.flush();
        self.failures.counted(flushed)
    }
}
