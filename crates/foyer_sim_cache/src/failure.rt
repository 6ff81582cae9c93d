//! What ends the program early.

use foyer_policy::Error;
use std::alloc::{AllocError, AllocFailed};
use std::io;

/// Why the program ends before it is at the end of its input.
#[derive(Drop)]
pub enum Failure {
    /// Bad arguments.
    Arguments,
    /// Memory is missing.
    Memory,
    /// Standard input failed.
    Reading(io::Error),
    /// Standard output failed.
    Writing(io::Error),
}

impl Failure {
    /// The status that the program ends with.
    pub fn status(&self) -> u8 {
        match self {
            Failure::Arguments => 2,
            Failure::Memory | Failure::Reading(_) | Failure::Writing(_) => 1,
        }
    }

    /// Says on standard error what failed, as `foyer-sim` does.
    pub fn print(&self, rt: &HostRuntime) -> io::Result<()> {
        match self {
            Failure::Arguments => eprintln!(rt;
                "usage: foyer-sim --cache [--stats] POLICY CAPACITY SHARDS"
            ),
            Failure::Memory => eprintln!(rt; "foyer-sim: out of memory"),
            Failure::Reading(error) => {
                eprintln!(rt; "foyer-sim: input or output failed")?;
                eprintln!(rt; "foyer-sim: reading standard input: {error}")
            }
            Failure::Writing(error) => {
                eprintln!(rt; "foyer-sim: input or output failed")?;
                eprintln!(rt; "foyer-sim: writing standard output: {error}")
            }
        }
    }
}

impl From<AllocError> for Failure {
    fn from(_error: AllocError) -> Failure {
        Failure::Memory
    }
}

impl<T: Drop> From<AllocFailed<T>> for Failure {
    fn from(_failed: AllocFailed<T>) -> Failure {
        Failure::Memory
    }
}

// What is asked of a cache, and a new one's configuration, is good.
impl From<Error> for Failure {
    fn from(_error: Error) -> Failure {
        Failure::Memory
    }
}
