//! The sum of the parts of a run, from the CSV files that it wrote.

use crate::failure::Failure;
use crate::number::{decimal, grouped};
use crate::origin::Origin;
use crate::report::{Report, Row};
use crate::sheet::HEADER;
use csv::{ErrorKind, ReaderBuilder, StringRecord};
use std::alloc::{AllocError, Global};

// The message for a line that is no row.
const ROW: &str = "expected a row as --csv writes it";

/// A sum of rows, and the parts of the keys that they are of.
#[derive(Drop)]
struct Sum {
    row: Row,
    parts: Vec<u64>,
}

/// Sums the rows of CSV files by policy, parameters and size, and takes each part once.
#[derive(Drop)]
pub struct Merger {
    sums: Vec<Sum>,
    // The origin of the first row; all others have to agree, but for the part.
    origin: Origin,
    files: u64,
    is_in_bytes: bool,
    has_sizes: bool,
    shown_from: u64,
    alloc: Global,
}

impl Merger {
    pub fn new(alloc: Global) -> Merger {
        Merger {
            sums: Vec::new(alloc),
            origin: Origin::default(),
            files: 0,
            is_in_bytes: false,
            has_sizes: false,
            shown_from: 0,
            alloc,
        }
    }

    /// Adds the rows of a file.
    pub fn add(&mut self, path: &str, text: &[u8]) -> Result<(), Failure> {
        let mut reader = ReaderBuilder::new()
            .has_headers(false)
            .from_reader(self.alloc, text);
        let mut record = StringRecord::new(self.alloc);
        let mut line = 1u64;
        for _record in 0..u64::MAX {
            let added = match reader.read_record(&mut record) {
                Ok(true) => self.add_record(line, &record),
                Ok(false) => break,
                Err(error) if matches!(error.kind(), ErrorKind::OutOfMemory) => Err(
                    Failure::Memory,
                ),
                Err(_) => Err(self.bad(ROW)),
            };
            match added {
                Ok(()) => {}
                Err(Failure::Bad(why)) => return Err(self.bad_line(path, line, why.as_str())),
                Err(failure) => return Err(failure),
            }
            line = line.saturating_add(1);
        }
        if line <= 2 {
            return Err(self.bad_line(path, line, ROW));
        }
        self.files = self.files.saturating_add(1);
        Ok(())
    }

    fn bad_line(&self, path: &str, line: u64, why: &str) -> Failure {
        match format!(in self.alloc; "{path}: line {line}: {why}") {
            Ok(text) => Failure::Bad(text),
            Err(_) => Failure::Memory,
        }
    }

    fn bad(&self, why: &str) -> Failure {
        match String::from_str(self.alloc, why) {
            Ok(text) => Failure::Bad(text),
            Err(_) => Failure::Memory,
        }
    }

    // Adds the record of a line. The first line has the names of the columns.
    fn add_record(&mut self, line: u64, record: &StringRecord) -> Result<(), Failure> {
        if line == 1 {
            return if is_header(record) {
                Ok(())
            } else {
                Err(self.bad(ROW))
            };
        }
        let Some(origin) = origin_of(record) else {
            return Err(self.bad(ROW));
        };
        let has_sizes = record.get(11).is_some_and(|bytes| !bytes.is_empty());
        let is_in_bytes = record.get(13).is_some_and(|unit| unit == "bytes");
        if self.sums.is_empty() {
            self.origin = origin;
            self.has_sizes = has_sizes;
            self.is_in_bytes = is_in_bytes;
        }
        if has_sizes != self.has_sizes || is_in_bytes != self.is_in_bytes {
            return Err(self.bad("expected the unit and the columns of the rows before it"));
        }
        self.check_origin(origin)?;
        let Some(row) = row_of(self.alloc, record) else {
            return Err(self.bad(ROW));
        };
        let row = row?;
        if origin.parts == 1 && record.get(6).is_some_and(|ratio| ratio.is_empty()) {
            self.shown_from = self.shown_from.max(row.size.saturating_add(1));
        }
        self.add_row(row, origin.part)
    }

    // Checks that a row is a part of the same run as those before it.
    fn check_origin(&self, origin: Origin) -> Result<(), Failure> {
        let parts = self.origin.parts;
        if origin.parts != parts {
            return Err(Failure::Bad(format!(in self.alloc; "expected a part of {parts}")?));
        }
        if origin.read != self.origin.read || origin.checksum != self.origin.checksum {
            return Err(self.bad("expected a run of the same trace with the same options"));
        }
        Ok(())
    }

    fn add_row(&mut self, row: Row, part: u64) -> Result<(), Failure> {
        let (alloc, of) = (self.alloc, self.origin.parts);
        for sum in self.sums.iter_mut() {
            if !is_same_run(&sum.row, &row) {
                continue;
            }
            if sum.parts.contains(&part) {
                let name = name_of(alloc, &row)?;
                return Err(Failure::Bad(format!(in alloc;
                    "part {part}/{of} of {name} is there twice"
                )?));
            }
            sum.parts.push(part)?;
            add_counts(&mut sum.row, &row);
            return Ok(());
        }
        let mut parts = Vec::new(alloc);
        parts.push(part)?;
        self.sums.push(Sum { row, parts })?;
        Ok(())
    }

    /// Returns the report of all sums, with policies in the order of their first rows.
    pub fn report(self, title: String) -> Result<Report, Failure> {
        let alloc = self.alloc;
        self.check_parts()?;
        let mut notes = Vec::new(alloc);
        notes.push(self.facts()?)?;
        let mut policies: Vec<String> = Vec::new(alloc);
        let mut sizes: Vec<u64> = Vec::new(alloc);
        for sum in &self.sums {
            let label = label_of(alloc, &sum.row)?;
            if !policies.iter().any(|it| it.as_str() == label.as_str()) {
                policies.push(label)?;
            }
            if !sizes.contains(&sum.row.size) {
                sizes.push(sum.row.size)?;
            }
        }
        sizes.as_mut_slice().sort_unstable();
        if self.sums.len() != policies.len().saturating_mul(sizes.len()) {
            return Err(Failure::Other(format!(in alloc;
                "the files have not each policy at each size"
            )?));
        }
        let mut rows = Vec::with_capacity(alloc, self.sums.len())?;
        for sum in self.sums {
            let Sum { row, parts: _parts } = sum;
            rows.push(row)?;
        }
        put_in_order(alloc, rows.as_mut_slice(), &policies);
        Ok(Report {
            title,
            policies,
            sizes,
            rows,
            is_in_bytes: self.is_in_bytes,
            has_sizes: self.has_sizes,
            notes,
            origin: Origin {
                part: 1,
                parts: 1,
                ..self.origin
            },
            shown_from: self.shown_from,
            curve: Vec::new(alloc),
            windows: Vec::new(alloc),
        })
    }

    // Checks that each sum has all parts.
    fn check_parts(&self) -> Result<(), Failure> {
        let (alloc, of) = (self.alloc, self.origin.parts);
        for sum in &self.sums {
            for part in 1..=of {
                if !sum.parts.contains(&part) {
                    let name = name_of(alloc, &sum.row)?;
                    return Err(Failure::Other(format!(in alloc;
                        "part {part}/{of} of {name} is missing"
                    )?));
                }
            }
        }
        Ok(())
    }

    // Describes how many gets and files were added.
    fn facts(&self) -> Result<String, AllocError> {
        let gets = self
            .sums
            .iter()
            .map(|it| it.row.requests)
            .max()
            .unwrap_or(0);
        let gets = grouped(self.alloc, gets as u128)?;
        format!(in self.alloc; "{gets} gets in {} files", self.files)
    }
}

// Whether a record has the names of the columns.
fn is_header(record: &StringRecord) -> bool {
    let mut columns = 0usize;
    for name in HEADER.split(',') {
        if record.get(columns) != Some(name) {
            return false;
        }
        columns = columns.saturating_add(1);
    }
    record.len() == columns
}

// Parses the origin of a record.
fn origin_of(record: &StringRecord) -> Option<Origin> {
    let (part, parts) = record.get(14)?.split_once('/')?;
    let origin = Origin {
        part: decimal(part.as_bytes())?,
        parts: decimal(parts.as_bytes())?,
        read: decimal(record.get(15)?.as_bytes())?,
        checksum: decimal(record.get(16)?.as_bytes())?,
    };
    if origin.part >= 1 && origin.part <= origin.parts {
        Some(origin)
    } else {
        None
    }
}

// Parses the row of a record.
fn row_of(alloc: Global, record: &StringRecord) -> Option<Result<Row, AllocError>> {
    let number = |at: usize| decimal(record.get(at)?.as_bytes());
    let wide = |at: usize| {
        let word = record.get(at)?;
        if word.is_empty() {
            Some(0u128)
        } else {
            word.parse::<u128>().ok()
        }
    };
    let (policy, parameters) = (record.get(0)?, record.get(1)?);
    let (size, requests, hits, misses) = (number(2)?, number(3)?, number(4)?, number(5)?);
    let (evictions, expired) = (number(8)?, number(9)?);
    let seconds = record.get(10)?.parse::<f64>().ok()?;
    let (bytes, miss_bytes) = (wide(11)?, wide(12)?);
    let policy = match String::from_str(alloc, policy) {
        Ok(policy) => policy,
        Err(error) => return Some(Err(error)),
    };
    let parameters = match String::from_str(alloc, parameters) {
        Ok(parameters) => parameters,
        Err(error) => return Some(Err(error)),
    };
    Some(Ok(Row {
        policy,
        parameters,
        size,
        requests,
        hits,
        misses,
        bytes,
        miss_bytes,
        evictions,
        expired,
        seconds,
    }))
}

// Whether two rows are of one policy and size.
fn is_same_run(row: &Row, other: &Row) -> bool {
    row.policy.as_str() == other.policy.as_str()
        && row.parameters.as_str() == other.parameters.as_str()
        && row.size == other.size
}

// Adds the counts of another part.
fn add_counts(row: &mut Row, more: &Row) {
    row.requests = row.requests.saturating_add(more.requests);
    row.hits = row.hits.saturating_add(more.hits);
    row.misses = row.misses.saturating_add(more.misses);
    row.bytes = row.bytes.saturating_add(more.bytes);
    row.miss_bytes = row.miss_bytes.saturating_add(more.miss_bytes);
    row.evictions = row.evictions.saturating_add(more.evictions);
    row.expired = row.expired.saturating_add(more.expired);
    row.seconds = row.seconds + more.seconds;
}

// Sorts rows by the place of their policy, then by size.
fn put_in_order(alloc: Global, rows: &mut [Row], policies: &Vec<String>) {
    let key = |row: &Row| {
        let policy = policies.iter().position(|it| {
            label_of(alloc, row).is_ok_and(|label| label.as_str() == it.as_str())
        });
        (policy, row.size)
    };
    rows.sort_unstable_by(|a, b| key(a).cmp(&key(b)));
}

fn label_of(alloc: Global, row: &Row) -> Result<String, AllocError> {
    crate::policy::label_of(alloc, row.policy.as_str(), row.parameters.as_str())
}

fn name_of(alloc: Global, row: &Row) -> Result<String, AllocError> {
    let size = row.size;
    format!(in alloc; "{} at {size}", label_of(alloc, row)?)
}
