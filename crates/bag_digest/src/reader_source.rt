//! Readers as sources.
ghost use Rattle.std.specs.Prelude.{◌≡◌, true};

use crate::failures::Failures;
use crate::source::{Failed, Source};
use std::io::Read;

/// A reader as a source. It gives what the reader gives, and counts the reader's errors.
///
/// Every error is passed on at once, even that of an interrupted read. No read is retried.
#[derive(Drop)]
pub struct ReaderSource<R> {
    reader: R,
    failures: Failures,
}

impl<R: Read> ReaderSource<R> {
    /// A source that gives what the reader has left and hasn't failed yet.
    pub fn new(reader: R) -> ReaderSource<R>
        ensures octets { ⟦<ReaderSource<R> as Source>⟧.remaining result ≡ R.remaining reader }
        ensures unfailed { ⟦<ReaderSource<R> as Source>⟧.failures result ≡ 0 }
    {
        ReaderSource {
            reader,
            failures: Failures::none(),
        }
    }
}

impl<R: Read> Source for ReaderSource<R> {
    ghost remaining = { λ source. R.remaining source.reader };

    ghost failures = { λ source. source.failures };

    ghost ready = { λ _. ⊥ };

    ghost is_open = { λ _. true };

    ghost keeps = { λ _ _. Unit {0} };

    fn read(&mut self, buf: &mut [u8]) -> Result<usize, Failed> {
        self.failures.counted(self.reader.read(buf))
    }

    fn failures(&self) -> u64 {
        self.failures.count()
    }

    ghost keeps_itself = { λ _. tt };

    ghost keeps_on = { λ _ _ _ _ _. tt };
}
