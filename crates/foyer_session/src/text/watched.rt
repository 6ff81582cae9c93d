//! A writer that remembers a failure.

use std::io;
use std::io::{ErrorKind, Write};

/// Passes everything to another writer, and remembers whether that has failed.
#[derive(Drop)]
pub struct Watched<W: Write + Drop> {
    inner: W,
    has_failed: bool,
}

impl<W: Write + Drop> Watched<W> {
    /// Wraps a writer that hasn't failed yet.
    pub fn new(inner: W) -> Self {
        Watched {
            inner,
            has_failed: false,
        }
    }

    /// Returns whether a call failed, or took none of some bytes. An interruption is no failure.
    pub fn has_failed(&self) -> bool {
        self.has_failed
    }
}

impl<W: Write + Drop> Write for Watched<W> {
    ghost contents = { λ w. W.contents w.inner };

    fn write(&mut self, buf: &[u8]) -> io::Result<usize> {
        let written = self.inner.write(buf);
        let has_failed = match &written {
            Ok(count) => *count == 0 && !buf.is_empty(),
            Err(error) => error.kind() != ErrorKind::Interrupted,
        };
        self.has_failed = self.has_failed || has_failed;
        written
    }

    fn flush(&mut self) -> io::Result<()> {
        let flushed = self.inner.flush();
        if let Err(error) = &flushed {
            self.has_failed = self.has_failed || error.kind() != ErrorKind::Interrupted;
        }
        flushed
    }
}
