//! The formats of traces.

use crate::failure::Failure;
use crate::nearest::unknown;
use foyer_replay::Operation;
use std::alloc::Global;

pub mod arc;
pub mod columns;
pub mod keys;
pub mod msr;
pub mod oracle;
pub mod rows;
pub mod twitter;

/// The format of a trace.
#[derive(Clone, Copy, PartialEq, Eq)]
pub enum Format {
    /// A key a line.
    Keys,
    /// Comma-separated values, a record a row.
    Csv,
    /// libCacheSim's binary records.
    Oracle,
    /// Blocks, a range a line, as in the traces of the ARC paper.
    Arc,
    /// Requests of disks, as those of Microsoft Research Cambridge.
    Msr,
    /// Requests of Twitter's caches.
    Twitter,
}

/// The names of the formats.
pub const NAMES: [&str; 6] = ["keys", "csv", "oracle", "arc", "msr", "twitter"];

impl Format {
    /// The format of this name.
    pub fn of_name(alloc: Global, name: &str) -> Result<Format, Failure> {
        match name {
            "keys" => Ok(Format::Keys),
            "csv" => Ok(Format::Csv),
            "oracle" => Ok(Format::Oracle),
            "arc" => Ok(Format::Arc),
            "msr" => Ok(Format::Msr),
            "twitter" => Ok(Format::Twitter),
            _ => Err(unknown(alloc, "format", name, NAMES.as_slice())),
        }
    }

    /// The format that the ending of a file's name stands for; standard input, `-`, has keys.
    pub fn of_path(alloc: Global, path: &str) -> Result<Format, Failure> {
        let name = path.rsplit_once('/').map_or(path, |parts| parts.1);
        let ending = name.rsplit_once('.').map_or("", |parts| parts.1);
        match ending {
            _ if path == "-" => Ok(Format::Keys),
            "keys" | "txt" => Ok(Format::Keys),
            "csv" => Ok(Format::Csv),
            "oracle" | "oracleGeneral" | "bin" => Ok(Format::Oracle),
            "arc" | "lis" => Ok(Format::Arc),
            _ => Err(Failure::Usage(format!(in alloc;
                "the name of {path} does not tell its format: say --format keys, csv, oracle, arc, msr or twitter"
            )?)),
        }
    }
}

/// What a word such as `get`, `SET` or `delete` asks.
pub fn operation_of(word: &[u8]) -> Option<Operation> {
    const GETS: [&str; 4] = ["get", "gets", "read", "r"];
    const PUTS: [&str; 12] = [
        "set", "put", "add", "replace", "cas", "append", "prepend", "incr", "decr", "write", "w",
        "insert",
    ];
    const REMOVES: [&str; 5] = ["delete", "del", "remove", "invalidate", "d"];
    let is_in = |words: &[&str]| {
        words
            .iter()
            .any(|it| it.as_bytes().eq_ignore_ascii_case(word))
    };
    if is_in(GETS.as_slice()) {
        Some(Operation::Get)
    } else if is_in(PUTS.as_slice()) {
        Some(Operation::Put)
    } else if is_in(REMOVES.as_slice()) {
        Some(Operation::Remove)
    } else {
        None
    }
}
