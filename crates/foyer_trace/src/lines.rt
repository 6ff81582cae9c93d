//! The lines of a reader.

use crate::failure::Failure;
use std::alloc::Global;
use std::io::BufRead;

/// The lines of a reader, without what ends them: a line feed, and carriage returns before it.
#[derive(Drop)]
pub struct Lines<B: Drop> {
    reader: B,
    line: Vec<u8>,
    alloc: Global,
}

impl<B: BufRead + Drop> Lines<B> {
    pub fn new(alloc: Global, reader: B) -> Self {
        Lines {
            reader,
            line: Vec::new(alloc),
            alloc,
        }
    }

    /// Goes on to the next line that is not empty, and returns how many lines on that is, or 0 at the end. A line with
    /// a byte of 0 is no text, and ends the run.
    pub fn advance(&mut self) -> Result<u64, Failure> {
        for skipped in 0..u64::MAX {
            self.line.clear();
            match self.reader.read_until(b'\n', &mut self.line) {
                Ok(0) => return Ok(0),
                Ok(_) => {}
                Err(error) => return Err(Failure::of_io(
                    self.alloc,
                    "cannot read the trace",
                    &error,
                )),
            }
            for _end in 0..self.line.len() {
                if !matches!(self.line.last(), Some(b'\n' | b'\r')) {
                    break;
                }
                self.line.pop();
            }
            if self.line.contains(&0) {
                return Err(Failure::no_text(self.alloc));
            }
            if !self.line.is_empty() {
                return Ok(skipped.saturating_add(1));
            }
        }
        Ok(0)
    }

    /// The line.
    pub fn line(&self) -> &[u8] {
        self.line.as_slice()
    }
}
