//! Traces of a key a line.

use crate::failure::Failure;
use crate::key::key_of_text;
use crate::lines::Lines;
use crate::record::{Record, RecordReader};
use std::alloc::Global;
use std::io::BufRead;

/// Reads a key a line: a number, or any text. The time is the number of the record, from 0.
#[derive(Drop)]
pub struct KeysReader<B: Drop> {
    lines: Lines<B>,
    time: u64,
}

impl<B: BufRead + Drop> KeysReader<B> {
    pub fn new(alloc: Global, reader: B) -> Self {
        KeysReader {
            lines: Lines::new(alloc, reader),
            time: 0,
        }
    }
}

impl<B: BufRead + Drop> RecordReader for KeysReader<B> {
    fn next_record(&mut self) -> Result<Option<Record>, Failure> {
        if self.lines.advance()? == 0 {
            return Ok(None);
        }
        let time = self.time;
        self.time = time.saturating_add(1);
        Ok(Some(Record {
            key: key_of_text(self.lines.line()),
            time,
            size: 1,
            ..Record::default()
        }))
    }

    fn has_sizes(&self) -> bool {
        false
    }
}
