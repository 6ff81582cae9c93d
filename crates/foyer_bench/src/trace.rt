//! Traces: the keys that a run looks up, one after another.

use crate::args::{BenchArgs, Skew};
use crate::failure::Failure;
use crate::random::{Random, mix};
use crate::zipf::sums_of;
use std::alloc::{AllocError, Global};

/// How random numbers become ranks.
#[derive(Drop)]
pub enum Ranks {
    /// Each of so many ranks is as likely as any other.
    Uniform(u64),
    /// Ranks are as likely as their weights say, of which these are the sums.
    Weighed(Vec<u64>),
}

impl Ranks {
    /// The ranks of a keyspace: by Zipf's law, or all alike where the exponent is 0.
    pub fn new(alloc: Global, keyspace: u64, skew: Skew) -> Result<Self, Failure> {
        if skew.num == 0 {
            return Ok(Ranks::Uniform(keyspace));
        }
        Ok(Ranks::Weighed(sums_of(alloc, keyspace, skew)?))
    }

    /// The rank that a random number hits: the first one whose sum is above the number's part of the sum of all
    /// weights.
    #[inline]
    pub fn rank(&self, random: u64) -> u64 {
        match self {
            Ranks::Uniform(keyspace) => part(random, *keyspace),
            Ranks::Weighed(sums) => {
                let part = part(random, sums.last().copied().unwrap_or(0));
                sums.partition_point(|sum| *sum <= part) as u64
            }
        }
    }
}

// The part of a sum that a random number is of all of 64 bits.
fn part(random: u64, sum: u64) -> u64 {
    (random as u128 * sum as u128 >> 64) as u64
}

/// The first keys of a seed, so many. The key of a rank is the mixed rank.
pub fn keys_of(
    alloc: Global,
    ranks: &Ranks,
    seed: u64,
    ops: usize,
) -> Result<Vec<u64>, AllocError> {
    let mut keys = Vec::with_capacity(alloc, ops)?;
    let mut random = Random::new(seed);
    for _key in 0..ops {
        keys.push(mix(ranks.rank(random.next_number())))?;
    }
    Ok(keys)
}

/// A trace for each thread: that of the first has the seed that is asked for, and that of each other thread the seed
/// after its neighbour's.
pub fn traces_of(alloc: Global, args: &BenchArgs) -> Result<Vec<Vec<u64>>, Failure> {
    let ranks = Ranks::new(alloc, args.keyspace, args.skew)?;
    let mut traces = Vec::new(alloc);
    for thread in 0..args.threads.unwrap_or(1) {
        let seed = args.seed.wrapping_add(thread);
        traces.push(keys_of(alloc, &ranks, seed, args.ops as usize)?)?;
    }
    Ok(traces)
}

#[cfg(test)]
mod tests;
