//! Traces of comma-separated values.

use crate::failure::Failure;
use crate::format::columns::{Columns, Role, Wanted, columns_of};
use crate::format::operation_of;
use crate::key::key_of_text;
use crate::number::{decimal, whole_part};
use crate::record::{Record, RecordReader};
use csv::{ByteRecord, ErrorKind, Reader, ReaderBuilder};
use foyer_replay::Operation;
use std::alloc::Global;
use std::io::Read;

/// Reads a record a row. Where no column is the time, it is the number of the record, from 0.
#[derive(Drop)]
pub struct CsvReader<R: Read + Drop> {
    rows: Reader<R>,
    row: ByteRecord,
    // Whether the row was read before the first record, and is that.
    is_ahead: bool,
    columns: Columns,
    time: u64,
    alloc: Global,
}

impl<R: Read + Drop> CsvReader<R> {
    /// Reads the first row, which may be a header.
    pub fn new(alloc: Global, reader: R, wanted: Option<&Wanted<'_>>) -> Result<Self, Failure> {
        let rows = ReaderBuilder::new()
            .has_headers(false)
            .flexible(true)
            .from_reader(alloc, reader);
        let mut made = CsvReader {
            rows,
            row: ByteRecord::new(alloc),
            is_ahead: false,
            columns: Columns::default(),
            time: 0,
            alloc,
        };
        if made.read_row()? {
            let (columns, is_header) = columns_of(alloc, wanted, &made.row)?;
            made.columns = columns;
            made.is_ahead = !is_header;
        }
        Ok(made)
    }

    fn read_row(&mut self) -> Result<bool, Failure> {
        match self.rows.read_byte_record(&mut self.row) {
            Ok(_) if self.row.as_slice().contains(&0) => Err(Failure::no_text(self.alloc)),
            Ok(found) => Ok(found),
            Err(error) => match error.kind() {
                ErrorKind::OutOfMemory => Err(Failure::Memory),
                ErrorKind::Io(error) => Err(Failure::of_io(
                    self.alloc,
                    "cannot read the trace",
                    error,
                )),
                _ => Err(Failure::Bad(format!(in self.alloc; "expected a row of values")?)),
            },
        }
    }

    // The field of a column.
    fn field(&self, role: Role, place: usize) -> Result<&[u8], Failure> {
        match self.row.get(place) {
            Some(field) => Ok(field),
            None => Err(self.bad(role, "a value", b"")),
        }
    }

    // The number of a column; of a time or a life its whole part.
    fn number(&self, role: Role, place: usize) -> Result<u64, Failure> {
        let field = self.field(role, place)?;
        let number = match role {
            Role::Time | Role::Ttl => whole_part(field.trim_ascii()),
            _ => decimal(field.trim_ascii()),
        };
        match number {
            Some(number) => Ok(number),
            None => Err(self.bad(role, "a number below 2^64", field)),
        }
    }

    // The failure of a field that is not what was expected.
    #[cold]
    fn bad(&self, role: Role, expected: &str, found: &[u8]) -> Failure {
        let name = role.name();
        let hint = if self.time <= 1 {
            "; --columns says which column is what"
        } else {
            ""
        };
        let shown = &found[..found.len().min(40)];
        let text = match String::from_utf8_lossy(self.alloc, shown) {
            Ok(found) => format!(in self.alloc;
                "expected {expected} in the column {name}, and found '{found}'{hint}"
            ),
            Err(error) => Err(error),
        };
        match text {
            Ok(text) => Failure::Bad(text),
            Err(_) => Failure::Memory,
        }
    }

    // The record of the row.
    fn record(&self, number: u64) -> Result<Record, Failure> {
        let columns = self.columns;
        let key = key_of_text(self.field(Role::Key, columns.key)?);
        let time = match columns.time {
            Some(place) => self.number(Role::Time, place)?,
            None => number,
        };
        let size = match columns.size {
            Some(place) => self.number(Role::Size, place)?,
            None => 1,
        };
        let operation = match columns.op {
            Some(place) => self.operation(self.field(Role::Op, place)?.trim_ascii())?,
            None => Operation::Get,
        };
        let ttl = match columns.ttl {
            Some(place) => Some(self.number(Role::Ttl, place)?).filter(|ttl| *ttl > 0),
            None => None,
        };
        Ok(Record {
            key,
            time,
            size,
            ttl,
            operation,
        })
    }

    fn operation(&self, word: &[u8]) -> Result<Operation, Failure> {
        match operation_of(word) {
            Some(operation) => Ok(operation),
            None => Err(self.bad(Role::Op, "get, set, delete or the like", word)),
        }
    }
}

impl<R: Read + Drop> RecordReader for CsvReader<R> {
    fn next_record(&mut self) -> Result<Option<Record>, Failure> {
        if self.is_ahead {
            self.is_ahead = false;
        } else if !self.read_row()? {
            return Ok(None);
        }
        let number = self.time;
        self.time = number.saturating_add(1);
        Ok(Some(self.record(number)?))
    }

    fn has_sizes(&self) -> bool {
        self.columns.size.is_some()
    }
}
