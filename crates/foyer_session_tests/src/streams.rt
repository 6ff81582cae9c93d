//! Readers and writers for tests.

use std::alloc::Global;
use std::io;
use std::io::{BufRead, ErrorKind, Read, Write};

/// Shows its bytes in parts of one length. One call of `fill_buf` fails, counted from 1.
#[derive(Drop)]
pub struct Parts<'a> {
    rest: &'a [u8],
    part: usize,
    calls: u64,
    pub fails_at: u64,
    pub kind: ErrorKind,
}

impl<'a> Parts<'a> {
    pub fn new(bytes: &'a [u8], part: usize) -> Self {
        Parts {
            rest: bytes,
            part,
            calls: 0,
            fails_at: 0,
            kind: ErrorKind::Other,
        }
    }
}

impl Read for Parts<'_> {
    fn read(&mut self, buf: &mut [u8]) -> io::Result<usize> {
        self.rest.read(buf)
    }
}

impl BufRead for Parts<'_> {
    fn fill_buf(&mut self) -> io::Result<&[u8]> {
        self.calls += 1;
        if self.calls == self.fails_at {
            return Err(io::Error::from(self.kind));
        }
        let shown = self.part.min(self.rest.len());
        Ok(&self.rest[..shown])
    }

    fn consume(&mut self, amount: usize) {
        let taken = amount.min(self.rest.len());
        self.rest = &self.rest[taken..];
    }
}

/// Takes a few bytes a call, and notes at each flush how many it has. One call of `write` fails, and one of
/// `flush`, each counted from 1.
#[derive(Drop)]
pub struct Slow {
    pub taken: Vec<u8>,
    most: usize,
    calls: u64,
    pub fails_at: u64,
    pub handed: Vec<usize>,
    pub flush_fails_at: usize,
    pub kind: ErrorKind,
}

impl Slow {
    pub fn new(alloc: Global, most: usize) -> Self {
        Slow {
            taken: Vec::new(alloc),
            most,
            calls: 0,
            fails_at: 0,
            handed: Vec::new(alloc),
            flush_fails_at: 0,
            kind: ErrorKind::Other,
        }
    }
}

impl Write for Slow {
    fn write(&mut self, buf: &[u8]) -> io::Result<usize> {
        self.calls += 1;
        if self.calls == self.fails_at {
            return Err(io::Error::from(self.kind));
        }
        let len = self.most.min(buf.len());
        self.taken.extend_from_slice(&buf[..len])?;
        Ok(len)
    }

    fn flush(&mut self) -> io::Result<()> {
        self.handed.push(self.taken.len())?;
        if self.handed.len() == self.flush_fails_at {
            return Err(io::Error::from(self.kind));
        }
        Ok(())
    }
}
