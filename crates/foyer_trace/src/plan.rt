//! What is replayed: the policies, and the sizes of the caches.

use crate::failure::Failure;
use crate::number::{count, count_of_bytes, fraction, part_of};
use crate::policy::Policy;
use crate::trace::{Terms, Totals};
use std::alloc::Global;

/// The size of a cache as it was asked for.
#[derive(Clone, Copy)]
pub enum Size {
    /// So many records, or bytes if records weigh their sizes.
    Absolute(u64),
    /// So many bytes.
    Bytes(u64),
    /// A part of the trace's footprint.
    Fraction(f64),
}

/// The sizes of a list such as `0.01,10k,64MiB`.
pub fn sizes_of(alloc: Global, list: &str) -> Result<Vec<Size>, Failure> {
    let mut sizes = Vec::new(alloc);
    for word in list.split(',') {
        let size = match (fraction(word), count(word), count_of_bytes(word)) {
            (Some(part), _, _) => Size::Fraction(part),
            (None, Some(number), _) => Size::Absolute(number),
            (None, None, Some(number)) => Size::Bytes(number),
            (None, None, None) => {
                return Err(Failure::Usage(format!(in alloc;
                    "a size must be a number such as 10k or 64MiB, or a fraction of the footprint such as 0.01, and not '{word}'"
                )?));
            }
        };
        sizes.push(size)?;
    }
    Ok(sizes)
}

/// A cache's size: as it is shown, and as the cache has it, which is less where a sample is replayed.
#[derive(Clone, Copy)]
pub struct Capacity {
    pub shown: u64,
    pub scaled: usize,
}

/// How long the cache is warmed up before anything is counted.
#[derive(Clone, Copy)]
pub enum Warmup {
    /// So many records.
    Records(u64),
    /// A part of all records.
    Fraction(f64),
}

/// What is replayed.
#[derive(Drop)]
pub struct Plan<'a> {
    pub policies: &'a [Policy<'a>],
    pub capacities: Vec<Capacity>,
    pub shards: usize,
    pub terms: Terms,
    /// How many records are served before anything is counted.
    pub warmup: u64,
    /// Whether Belady's cache is among the policies.
    pub has_belady: bool,
}

impl<'a> Plan<'a> {
    /// How many runs there are: one for each policy and size.
    pub fn runs(&self) -> usize {
        self.policies.len().saturating_mul(self.capacities.len())
    }

    /// The policy and the capacity of a run.
    pub fn run(&self, number: usize) -> Option<(&Policy<'a>, Capacity)> {
        let sizes = self.capacities.len().max(1);
        let policy = self.policies.get(number / sizes)?;
        let capacity = self.capacities.get(number % sizes)?;
        Some((policy, *capacity))
    }
}

/// Whether a policy stands for LRU at all sizes.
pub fn has_curve(policies: &[Policy<'_>]) -> bool {
    policies.iter().any(|policy| policy.is_curve())
}

/// Whether a policy is Belady's.
pub fn has_belady(policies: &[Policy<'_>]) -> bool {
    policies.iter().any(|policy| policy.is_belady())
}

/// The capacities of sizes, in ascending order and each once. Where a sample of this rate is replayed, `is_whole` says
/// whether the footprint is that of the whole trace.
pub fn capacities_of(
    alloc: Global,
    sizes: &[Size],
    totals: &Totals,
    weighs_sizes: bool,
    rate: f64,
    is_whole: bool,
) -> Result<Vec<Capacity>, Failure> {
    let footprint = if weighs_sizes {
        totals.key_bytes
    } else {
        totals.keys as u128
    };
    let footprint = u64::try_from(footprint).unwrap_or(u64::MAX);
    let whole = if is_whole {
        footprint
    } else {
        part_of(footprint, 1.0 / rate)
    };
    let mut capacities: Vec<Capacity> = Vec::new(alloc);
    for size in sizes {
        let shown = match size {
            Size::Absolute(number) | Size::Bytes(number) => *number,
            Size::Fraction(part) => part_of(whole, *part).max(1),
        };
        let scaled = if rate < 1.0 {
            part_of(shown, rate).max(1)
        } else {
            shown
        };
        let capacity = Capacity {
            shown,
            scaled: scaled as usize,
        };
        if !capacities.iter().any(|it| it.shown == shown) {
            capacities.push(capacity)?;
        }
    }
    capacities
        .as_mut_slice()
        .sort_unstable_by_key(|it| it.shown);
    Ok(capacities)
}

/// How many records the warmup is, of a sample of this rate.
pub fn warmup_of(warmup: Warmup, totals: &Totals, rate: f64) -> u64 {
    match warmup {
        Warmup::Records(number) => part_of(number, rate),
        Warmup::Fraction(part) => part_of(totals.records, part),
    }
}
