//! Traces of disks' requests, as those of Microsoft Research Cambridge.

use crate::failure::Failure;
use crate::key::{key_of_block, key_of_disk};
use crate::lines::Lines;
use crate::number::decimal;
use crate::record::{Record, RecordReader};
use foyer_replay::Operation;
use std::alloc::Global;
use std::io::BufRead;

// The bytes of a block.
const BLOCK: u64 = 4096;

/// The blocks of a request that are still to be returned.
#[derive(Clone, Copy, Default)]
struct Blocks {
    disk: u64,
    next: u64,
    left: u64,
    time: u64,
    operation: Operation,
}

/// Reads lines of a time, a host, a disk, Read or Write, an offset and a size in bytes, and a response time that is
/// ignored. Each block of 4 KiB that the bytes touch is a record.
#[derive(Drop)]
pub struct MsrReader<B: Drop> {
    lines: Lines<B>,
    blocks: Blocks,
    lines_read: u64,
    alloc: Global,
}

impl<B: BufRead + Drop> MsrReader<B> {
    pub fn new(alloc: Global, reader: B) -> Self {
        MsrReader {
            lines: Lines::new(alloc, reader),
            blocks: Blocks::default(),
            lines_read: 0,
            alloc,
        }
    }

    // Parses the blocks of the line.
    fn request(&self) -> Option<Blocks> {
        let mut fields = self.lines.line().split(|byte| *byte == b',');
        let time = decimal(fields.next()?)?;
        let disk = key_of_disk(fields.next()?, fields.next()?);
        let kind = fields.next()?;
        let operation = if kind.eq_ignore_ascii_case(b"read") {
            Operation::Get
        } else if kind.eq_ignore_ascii_case(b"write") {
            Operation::Put
        } else {
            return None;
        };
        let offset = decimal(fields.next()?)?;
        let size = decimal(fields.next()?)?;
        let last = offset.checked_add(size.max(1))?.saturating_sub(1) / BLOCK;
        let next = offset / BLOCK;
        let left = if size == 0 {
            0
        } else {
            last.saturating_sub(next).saturating_add(1)
        };
        Some(Blocks {
            disk,
            next,
            left,
            time,
            operation,
        })
    }
}

impl<B: BufRead + Drop> RecordReader for MsrReader<B> {
    fn next_record(&mut self) -> Result<Option<Record>, Failure> {
        for _request in 0..u64::MAX {
            if self.blocks.left > 0 {
                break;
            }
            let lines = self.lines.advance()?;
            if lines == 0 {
                return Ok(None);
            }
            self.lines_read = self.lines_read.saturating_add(lines);
            let Some(blocks) = self.request() else {
                let line = self.lines_read;
                return Err(Failure::Bad(format!(in self.alloc;
                    "expected a request such as 128166372003061629,usr,0,Read,7014609920,24576,41286 in line {line}"
                )?));
            };
            self.blocks = blocks;
        }
        let blocks = self.blocks;
        self.blocks.next = blocks.next.saturating_add(1);
        self.blocks.left = blocks.left.saturating_sub(1);
        Ok(Some(Record {
            key: key_of_block(blocks.disk, blocks.next),
            time: blocks.time,
            size: BLOCK,
            ttl: None,
            operation: blocks.operation,
        }))
    }

    fn has_sizes(&self) -> bool {
        true
    }
}
