//! A writer of which one call fails.

use crate::breaker::{Breaker, Device};
use std::io::{self, ErrorKind, Write};

/// Keeps what is written to it, as much as there is room for, and has one call that fails.
#[derive(Drop)]
pub struct BreakingWriter<'a> {
    written: Vec<u8>,
    breaker: &'a Breaker,
}

impl<'a> BreakingWriter<'a> {
    /// `room` is empty.
    pub fn new(room: Vec<u8>, breaker: &'a Breaker) -> Self {
        BreakingWriter {
            written: room,
            breaker,
        }
    }

    pub fn written(&self) -> &[u8] {
        self.written.as_slice()
    }
}

impl Write for BreakingWriter<'_> {
    fn write(&mut self, buf: &[u8]) -> io::Result<usize> {
        if self.breaker.breaks(Device::Writer) {
            return Err(io::Error::from(ErrorKind::StorageFull));
        }
        self.written.extend_from_slice(buf)?;
        Ok(buf.len())
    }

    fn flush(&mut self) -> io::Result<()> {
        if self.breaker.breaks(Device::Writer) {
            return Err(io::Error::from(ErrorKind::StorageFull));
        }
        Ok(())
    }
}
