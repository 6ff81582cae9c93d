//! Which part of which trace the rows of a run are of, so that a merge takes each part once.

use crate::record::Record;
use foyer_replay::Operation;

/// The trace and the part of its keys that rows are of.
#[derive(Clone, Copy, Default, PartialEq, Eq)]
pub struct Origin {
    /// The number of the part, from 1.
    pub part: u64,
    /// The number of parts.
    pub parts: u64,
    /// The number of records in the trace.
    pub read: u64,
    /// The checksum of the trace's records and of the caches' options.
    pub checksum: u64,
}

/// Adds a number to a checksum.
#[inline]
pub fn joined(sum: u64, number: u64) -> u64 {
    (sum.rotate_left(5) ^ number).wrapping_mul(0x9E3779B97F4A7C15)
}

/// Adds a record to a checksum.
#[inline]
pub fn checksum_with(sum: u64, record: &Record) -> u64 {
    let operation = match record.operation {
        Operation::Get => 0,
        Operation::Put => 1,
        Operation::Remove => 2,
    };
    let ttl = record.ttl.unwrap_or(0);
    let about = record.time.rotate_left(16) ^ record.size.rotate_left(32) ^ ttl.rotate_left(48);
    joined(joined(sum, record.key), about ^ operation)
}
