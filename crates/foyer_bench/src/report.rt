//! What a run comes to, as text.

use std::fmt;

/// What a run comes to.
#[derive(Clone, Copy, Debug)]
pub struct Report {
    /// The sum of the weights in the cache at the end.
    pub usage: u128,
    /// How many keys were looked up.
    pub ops: usize,
    /// How many of them were found.
    pub hits: usize,
    /// How long it took, in nanoseconds.
    pub nanos: u64,
}

// A quotient, rounded to the nearest, and 0 where there is none.
fn rounded(sum: u128, count: usize) -> u128 {
    if count == 0 {
        return 0;
    }
    sum.saturating_add(count as u128 / 2) / count as u128
}

impl fmt::Display for Report {
    fn fmt<W: fmt::Write>(&self, f: &mut fmt::Formatter<W>) -> fmt::Result {
        let usage = self.usage;
        let hits = self.hits;
        let millionths = rounded(self.hits as u128 * 1_000_000, self.ops);
        let ratio = millionths / 1_000_000;
        let places = millionths % 1_000_000;
        let tenths = rounded(self.nanos as u128 * 10, self.ops);
        let nanos = tenths / 10;
        let tenth = tenths % 10;
        write!(
            f,
            "usage={usage} hits={hits} hit_ratio={ratio}.{places:06} ns_per_op={nanos}.{tenth}"
        )
    }
}

#[cfg(test)]
mod tests;
