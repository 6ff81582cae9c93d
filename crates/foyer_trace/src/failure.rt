//! What ends the program early.

use std::alloc::{AllocError, AllocFailed, Global};
use std::io;

/// Why the program ends before it is done.
#[derive(Drop)]
pub enum Failure {
    /// The arguments are bad, and why.
    Usage(String),
    /// A record of the trace is bad, and what was expected.
    Bad(String),
    /// Something else failed, such as reading a file.
    Other(String),
    /// Standard output was closed by its reader.
    Closed,
    /// Memory ran out.
    Memory,
}

impl Failure {
    /// The status that the program ends with.
    pub fn status(&self) -> u8 {
        match self {
            Failure::Closed => 0,
            Failure::Usage(_) => 2,
            Failure::Bad(_) | Failure::Other(_) | Failure::Memory => 1,
        }
    }

    /// What was to be done with a file or a stream, and why it failed.
    pub fn of_io(alloc: Global, what: &str, error: &io::Error) -> Failure {
        match format!(in alloc; "{what}: {error}") {
            Ok(text) => Failure::Other(text),
            Err(_) => Failure::Memory,
        }
    }

    /// A trace that was to be text, and is none.
    #[cold]
    pub fn no_text(alloc: Global) -> Failure {
        let why =
            "the trace has bytes of 0, so it is no text: say --format oracle if it has libCacheSim's records, and unpack it if it is compressed";
        match String::from_str(alloc, why) {
            Ok(why) => Failure::Other(why),
            Err(_) => Failure::Memory,
        }
    }

    /// A failed write to standard output.
    pub fn of_output(alloc: Global, error: &io::Error) -> Failure {
        match error.kind() {
            io::ErrorKind::BrokenPipe => Failure::Closed,
            _ => Failure::of_io(alloc, "cannot write to standard output", error),
        }
    }
}

impl From<AllocError> for Failure {
    fn from(_error: AllocError) -> Failure {
        Failure::Memory
    }
}

impl<T: Drop> From<AllocFailed<T>> for Failure {
    fn from(_failed: AllocFailed<T>) -> Failure {
        Failure::Memory
    }
}

// The configurations were checked before, so that only memory can be missing.
impl From<foyer_policy::Error> for Failure {
    fn from(_error: foyer_policy::Error) -> Failure {
        Failure::Memory
    }
}
