//! Traces of Twitter's caches.

use crate::failure::Failure;
use crate::format::operation_of;
use crate::key::key_of_text;
use crate::lines::Lines;
use crate::number::decimal;
use crate::record::{Record, RecordReader};
use std::alloc::Global;
use std::io::BufRead;

/// Reads lines of a time in seconds, a key, its size, the value's size, a client that is ignored, an operation, and how
/// many seconds the value lives, or 0 for ever. A record has the bytes of its key and its value.
#[derive(Drop)]
pub struct TwitterReader<B: Drop> {
    lines: Lines<B>,
    lines_read: u64,
    alloc: Global,
}

impl<B: BufRead + Drop> TwitterReader<B> {
    pub fn new(alloc: Global, reader: B) -> Self {
        TwitterReader {
            lines: Lines::new(alloc, reader),
            lines_read: 0,
            alloc,
        }
    }

    // Parses the record of the line.
    fn record(&self) -> Option<Record> {
        let mut fields = self.lines.line().split(|byte| *byte == b',');
        let time = decimal(fields.next()?)?;
        let key = key_of_text(fields.next()?);
        let key_size = decimal(fields.next()?)?;
        let value_size = decimal(fields.next()?)?;
        fields.next()?;
        let operation = operation_of(fields.next()?)?;
        let ttl = decimal(fields.next()?)?;
        Some(Record {
            key,
            time,
            size: key_size.checked_add(value_size)?,
            ttl: Some(ttl).filter(|ttl| *ttl > 0),
            operation,
        })
    }
}

impl<B: BufRead + Drop> RecordReader for TwitterReader<B> {
    fn next_record(&mut self) -> Result<Option<Record>, Failure> {
        let lines = self.lines.advance()?;
        if lines == 0 {
            return Ok(None);
        }
        self.lines_read = self.lines_read.saturating_add(lines);
        match self.record() {
            Some(record) => Ok(Some(record)),
            None => {
                let line = self.lines_read;
                Err(Failure::Bad(format!(in self.alloc;
                    "expected a request such as 0,key,3,120,1,get,3600 in line {line}"
                )?))
            }
        }
    }

    fn has_sizes(&self) -> bool {
        true
    }
}
