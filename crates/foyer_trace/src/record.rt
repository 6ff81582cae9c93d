//! Records of a trace, as its readers give them.

use crate::failure::Failure;
use foyer_replay::Operation;

/// One record of a trace.
#[derive(Clone, Copy, Default)]
pub struct Record {
    /// The key, mixed.
    pub key: u64,
    /// When the request was made, in the trace's unit.
    pub time: u64,
    /// How many bytes the value has.
    pub size: u64,
    /// How long the value lives, in the trace's unit.
    pub ttl: Option<u64>,
    /// What was asked.
    pub operation: Operation,
}

/// Reads the records of a trace, one after another.
pub trait RecordReader: Drop {
    /// The next record, or none at the end. After a bad one, which is `Failure::Bad`, the next call goes on behind it.
    fn next_record(&mut self) -> Result<Option<Record>, Failure>;

    /// Whether records have sizes.
    fn has_sizes(&self) -> bool;
}
