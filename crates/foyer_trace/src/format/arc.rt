//! Traces of ranges of blocks, as those of the ARC paper.

use crate::failure::Failure;
use crate::key::key_of_number;
use crate::lines::Lines;
use crate::number::decimal;
use crate::record::{Record, RecordReader};
use std::alloc::Global;
use std::io::BufRead;

/// Reads lines of a first block, a count, and two columns that are ignored. Each block is a record. The time is the
/// number of the line, from 0.
#[derive(Drop)]
pub struct ArcReader<B: Drop> {
    lines: Lines<B>,
    block: u64,
    left: u64,
    lines_read: u64,
    alloc: Global,
}

impl<B: BufRead + Drop> ArcReader<B> {
    pub fn new(alloc: Global, reader: B) -> Self {
        ArcReader {
            lines: Lines::new(alloc, reader),
            block: 0,
            left: 0,
            lines_read: 0,
            alloc,
        }
    }

    // The first block and the count of the line.
    fn range(&self) -> Option<(u64, u64)> {
        let mut words = self
            .lines
            .line()
            .split(|byte| byte.is_ascii_whitespace())
            .filter(|word| !word.is_empty());
        let block = decimal(words.next()?)?;
        let count = decimal(words.next()?)?;
        block.checked_add(count)?;
        Some((block, count))
    }
}

impl<B: BufRead + Drop> RecordReader for ArcReader<B> {
    fn next_record(&mut self) -> Result<Option<Record>, Failure> {
        for _range in 0..u64::MAX {
            if self.left > 0 {
                break;
            }
            let lines = self.lines.advance()?;
            if lines == 0 {
                return Ok(None);
            }
            self.lines_read = self.lines_read.saturating_add(lines);
            let Some((block, count)) = self.range() else {
                let line = self.lines_read;
                return Err(Failure::Bad(format!(in self.alloc;
                    "expected two numbers, a first block and a count, in line {line}"
                )?));
            };
            self.block = block;
            self.left = count;
        }
        let block = self.block;
        self.block = block.saturating_add(1);
        self.left = self.left.saturating_sub(1);
        Ok(Some(Record {
            key: key_of_number(block),
            time: self.lines_read.saturating_sub(1),
            size: 1,
            ..Record::default()
        }))
    }

    fn has_sizes(&self) -> bool {
        false
    }
}
