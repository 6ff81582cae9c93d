//! The lines that `foyer-sim` reads, and the numbers that it prints. Nothing here allocates.

use foyer_policy::Ratio;

mod kept;
mod number;
mod parse;
mod print;
mod scan;
mod watched;

pub use number::number_of;
pub use parse::{is_word, line_of};
pub use print::{flush_out, write_number, write_out, write_wide_number};
pub use scan::Lines;
pub use watched::Watched;

/// A parsed line. Words are separated by spaces, and numbers are decimal.
#[derive(Clone, Copy, Debug, PartialEq, Eq)]
pub enum Line {
    /// A line without words.
    Blank,
    /// `insert K V [W [E]]`. Without W the weight is 1; without E the record never expires.
    Insert {
        key: u64,
        value: u64,
        weight: usize,
        expires: Option<u64>,
    },
    /// `phantom K V [W]`, which inserts a phantom record. Without W the weight is 1.
    Phantom {
        key: u64,
        value: u64,
        weight: usize,
    },
    /// `get K`.
    Get(u64),
    /// `contains K`.
    Contains(u64),
    /// `touch K`.
    Touch(u64),
    /// `remove K`.
    Remove(u64),
    /// `drop N`, with the number of a handle.
    Drop(u64),
    /// `clear`.
    Clear,
    /// `evict`.
    Evict,
    /// `resize C`, with the new capacity.
    Resize(usize),
    /// `high N D`, with the share `N / D` of LRU's high-priority pool, both below 2^32.
    High(Ratio),
    /// `fetch K`.
    Fetch(u64),
    /// `at N`, with the time of the lines after it.
    At(u64),
    /// `done K F V`, which completes fetch F of the key with a value of weight 1.
    Done {
        key: u64,
        fetch: u64,
        value: u64,
    },
    /// `cancel K F`, which ends fetch F of the key without a value.
    Cancel {
        key: u64,
        fetch: u64,
    },
    /// Any other line.
    Bad,
}
