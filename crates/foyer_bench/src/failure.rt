//! What ends the program early.

use foyer_policy::Error;
use std::alloc::{AllocError, AllocFailed};
use std::io;

/// Why the program ends before it is done.
#[derive(Debug, Drop)]
pub enum Failure {
    /// Bad arguments.
    Arguments,
    /// Memory is missing.
    Memory,
    /// The clock or standard output failed, for the system's reason.
    InputOrOutput(io::Error),
}

impl Failure {
    /// The status that the program ends with.
    pub fn status(&self) -> u8 {
        match self {
            Failure::Arguments => 2,
            Failure::Memory | Failure::InputOrOutput(_) => 1,
        }
    }
}

impl From<AllocError> for Failure {
    fn from(_error: AllocError) -> Failure {
        Failure::Memory
    }
}

impl<T: Drop> From<AllocFailed<T>> for Failure {
    fn from(_failed: AllocFailed<T>) -> Failure {
        Failure::Memory
    }
}

impl From<io::Error> for Failure {
    fn from(error: io::Error) -> Failure {
        Failure::InputOrOutput(error)
    }
}

// Nothing but memory can be missing: the configurations are good, and no limit is met.
impl From<Error> for Failure {
    fn from(_error: Error) -> Failure {
        Failure::Memory
    }
}
