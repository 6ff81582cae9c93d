//! Reads a trace: records in the sample, in parts.

use crate::failure::Failure;
use crate::footprint::Footprint;
use crate::format::Format;
use crate::format::arc::ArcReader;
use crate::format::columns::Wanted;
use crate::format::keys::KeysReader;
use crate::format::msr::MsrReader;
use crate::format::oracle::OracleReader;
use crate::format::rows::CsvReader;
use crate::format::twitter::TwitterReader;
use crate::key::Sample;
use crate::origin::checksum_with;
use crate::record::{Record, RecordReader};
use crate::trace::{PART, Part, Totals, Trace};
use foyer_replay::Operation;
use std::alloc::Global;
use std::collections::HashSet;
use std::io::BufRead;

/// A reader of any of the formats.
#[derive(Drop)]
pub enum AnyReader<B: BufRead + Drop> {
    Keys(KeysReader<B>),
    Csv(CsvReader<B>),
    Oracle(OracleReader<B>),
    Arc(ArcReader<B>),
    Msr(MsrReader<B>),
    Twitter(TwitterReader<B>),
}

impl<B: BufRead + Drop> AnyReader<B> {
    /// The reader of a format.
    pub fn new(
        alloc: Global,
        format: Format,
        wanted: Option<&Wanted<'_>>,
        reader: B,
    ) -> Result<Self, Failure> {
        match format {
            Format::Keys => Ok(AnyReader::Keys(KeysReader::new(alloc, reader))),
            Format::Csv => Ok(AnyReader::Csv(CsvReader::new(alloc, reader, wanted)?)),
            Format::Oracle => Ok(AnyReader::Oracle(OracleReader::new(alloc, reader))),
            Format::Arc => Ok(AnyReader::Arc(ArcReader::new(alloc, reader))),
            Format::Msr => Ok(AnyReader::Msr(MsrReader::new(alloc, reader))),
            Format::Twitter => Ok(AnyReader::Twitter(TwitterReader::new(alloc, reader))),
        }
    }
}

impl<B: BufRead + Drop> RecordReader for AnyReader<B> {
    fn next_record(&mut self) -> Result<Option<Record>, Failure> {
        match self {
            AnyReader::Keys(reader) => reader.next_record(),
            AnyReader::Csv(reader) => reader.next_record(),
            AnyReader::Oracle(reader) => reader.next_record(),
            AnyReader::Arc(reader) => reader.next_record(),
            AnyReader::Msr(reader) => reader.next_record(),
            AnyReader::Twitter(reader) => reader.next_record(),
        }
    }

    fn has_sizes(&self) -> bool {
        match self {
            AnyReader::Keys(reader) => reader.has_sizes(),
            AnyReader::Csv(reader) => reader.has_sizes(),
            AnyReader::Oracle(reader) => reader.has_sizes(),
            AnyReader::Arc(reader) => reader.has_sizes(),
            AnyReader::Msr(reader) => reader.has_sizes(),
            AnyReader::Twitter(reader) => reader.has_sizes(),
        }
    }
}

/// Reads the records of a trace that are in a sample.
#[derive(Drop)]
pub struct Source<B: BufRead + Drop> {
    reader: AnyReader<B>,
    sample: Sample,
    skips_bad: bool,
    // The keys that were read, where the footprint is theirs and not the sample's.
    seen: Option<HashSet<u64>>,
    totals: Totals,
    alloc: Global,
}

impl<B: BufRead + Drop> Source<B> {
    /// What reads a trace. If `sees_all` the footprint is of all keys that are read, and else of those in the sample.
    pub fn new(
        alloc: Global,
        reader: AnyReader<B>,
        sample: Sample,
        skips_bad: bool,
        sees_all: bool,
    ) -> Self {
        let totals = Totals {
            has_sizes: reader.has_sizes(),
            ..Totals::default()
        };
        Source {
            reader,
            sample,
            skips_bad,
            seen: if sees_all {
                Some(HashSet::new(alloc))
            } else {
                None
            },
            totals,
            alloc,
        }
    }

    /// What is known of the records that were read.
    pub fn totals(&self) -> Totals {
        self.totals
    }

    /// Puts the next records of the sample, at most a part, in the place of those in the list.
    pub fn read_part(&mut self, records: &mut Vec<Record>) -> Result<(), Failure> {
        records.clear();
        for _record in 0..u64::MAX {
            if records.len() >= PART {
                break;
            }
            let record = match self.reader.next_record() {
                Ok(Some(record)) => record,
                Ok(None) => break,
                Err(Failure::Bad(why)) => {
                    self.meet_bad(why)?;
                    continue;
                }
                Err(failure) => return Err(failure),
            };
            self.count_read(&record);
            self.see(&record)?;
            if self.sample.has(record.key) {
                self.count(&record);
                records.push(record)?;
            }
        }
        Ok(())
    }

    /// Reads the whole trace.
    pub fn read_all(mut self) -> Result<Trace, Failure> {
        let mut parts = Vec::new(self.alloc);
        let mut records = Vec::with_capacity(self.alloc, PART)?;
        for _part in 0..u64::MAX {
            self.read_part(&mut records)?;
            if records.is_empty() {
                break;
            }
            parts.push(Part::new(self.alloc, records.as_slice())?)?;
        }
        let mut totals = self.totals;
        if self.seen.is_none() {
            let footprint = Footprint::of(self.alloc, parts.as_slice())?;
            totals.keys = footprint.keys;
            totals.key_bytes = footprint.bytes;
        }
        Ok(Trace { parts, totals })
    }

    // Counts a bad record, or ends the run with what was expected.
    fn meet_bad(&mut self, why: String) -> Result<(), Failure> {
        let number = self
            .totals
            .read
            .saturating_add(self.totals.bad)
            .saturating_add(1);
        self.totals.bad = self.totals.bad.saturating_add(1);
        if self.skips_bad {
            return Ok(());
        }
        Err(Failure::Bad(format!(in self.alloc; "record {number}: {why}")?))
    }

    fn see(&mut self, record: &Record) -> Result<(), Failure> {
        let Some(seen) = &mut self.seen else {
            return Ok(());
        };
        if record.operation != Operation::Remove && seen.insert(record.key)? {
            self.totals.keys = self.totals.keys.saturating_add(1);
            self.totals.key_bytes = self.totals.key_bytes.saturating_add(record.size as u128);
        }
        Ok(())
    }

    fn count_read(&mut self, record: &Record) {
        self.totals.read = self.totals.read.saturating_add(1);
        self.totals.checksum = checksum_with(self.totals.checksum, record);
        if record.operation == Operation::Get {
            self.totals.read_gets = self.totals.read_gets.saturating_add(1);
            self.totals.read_bytes = self.totals.read_bytes.saturating_add(record.size as u128);
        }
    }

    fn count(&mut self, record: &Record) {
        self.totals.records = self.totals.records.saturating_add(1);
        self.totals.has_lives = self.totals.has_lives || record.ttl.is_some();
        if record.operation == Operation::Get {
            self.totals.gets = self.totals.gets.saturating_add(1);
            self.totals.bytes = self.totals.bytes.saturating_add(record.size as u128);
        }
    }
}
