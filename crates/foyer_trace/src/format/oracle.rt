//! libCacheSim's binary traces, `oracleGeneral`.

use crate::failure::Failure;
use crate::key::key_of_number;
use crate::record::{Record, RecordReader};
use std::alloc::Global;
use std::io::Read;

// A record: u32 time, u64 key, u32 size and i64 number of the next request for the key, little endian.
const LENGTH: usize = 24;

/// Reads records of 24 bytes. The next request's number is not used.
#[derive(Drop)]
pub struct OracleReader<B: Drop> {
    reader: B,
    alloc: Global,
}

impl<B: Read + Drop> OracleReader<B> {
    pub fn new(alloc: Global, reader: B) -> Self {
        OracleReader { reader, alloc }
    }

    // Fills the record as far as the reader goes, and returns how far that is.
    fn fill(&mut self, record: &mut [u8; LENGTH]) -> Result<usize, Failure> {
        let mut filled = 0;
        for _read in 0..u64::MAX {
            if filled >= LENGTH {
                break;
            }
            match self.reader.read(&mut record[filled..]) {
                Ok(0) => break,
                Ok(count) => filled = filled.saturating_add(count),
                Err(error) if error.kind() == std::io::ErrorKind::Interrupted => {}
                Err(error) => return Err(Failure::of_io(
                    self.alloc,
                    "cannot read the trace",
                    &error,
                )),
            }
        }
        Ok(filled)
    }
}

// Whether all bytes are those of text. A record's are not: its sizes and places have upper bytes of 0 or 255.
fn is_text(bytes: &[u8]) -> bool {
    bytes.iter().all(|byte| matches!(*byte, b' '..=b'~' | b'\t' | b'\n' | b'\r'))
}

// The number that these bytes are, little endian.
fn number(bytes: &[u8]) -> u64 {
    bytes
        .iter()
        .rev()
        .fold(0u64, |number, byte| number << 8 | *byte as u64)
}

impl<B: Read + Drop> RecordReader for OracleReader<B> {
    fn next_record(&mut self) -> Result<Option<Record>, Failure> {
        let mut record = [0u8; LENGTH];
        let filled = self.fill(&mut record)?;
        if filled == 0 {
            return Ok(None);
        }
        if filled < LENGTH {
            return Err(Failure::Bad(format!(in self.alloc;
                "expected 24 bytes, and the file ends after {filled}"
            )?));
        }
        if is_text(record.as_slice()) {
            return Err(Failure::Other(format!(in self.alloc;
                "the trace is text, and no binary records: say --format keys or csv"
            )?));
        }
        Ok(Some(Record {
            key: key_of_number(number(&record[4..12])),
            time: number(&record[..4]),
            size: number(&record[12..16]),
            ..Record::default()
        }))
    }

    fn has_sizes(&self) -> bool {
        true
    }
}
