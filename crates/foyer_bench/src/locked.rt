//! Runs of threads over a cache that they share: what is not found is put in.

use crate::args::Calls;
use crate::failure::Failure;
use crate::moment::Moment;
use crate::report::Report;
use foyer_core::CacheProperties;
use foyer_policy::{Eviction, HashBuilder, Result};
use foyer_raw::RawCache;
use std::alloc::Global;
use std::sync::Wait;
use std::thread::{self, Threads};
use std::time::{Clock, Instant};

/// A cache that threads share.
pub trait SharedCache: Drop {
    /// Looks a key up at a moment, and puts it in where it is not found, as its own value. Answers whether it was found.
    fn look_up(&self, moment: Moment, key: u64) -> Result<bool>;

    /// Looks a key up as `look_up` does, by calls that make no entry.
    fn read_up(&self, moment: Moment, key: u64) -> Result<bool>;

    /// The sum of the weights that are in.
    fn usage(&self) -> u128;
}

impl<H: Wait + Drop, E: Eviction, S: HashBuilder> SharedCache for RawCache<H, E, u64, u64, S> {
    fn look_up(&self, moment: Moment, key: u64) -> Result<bool> {
        if self.get(moment.now(), &key)?.is_some() {
            return Ok(true);
        }
        let properties = CacheProperties::default().with_expiry(moment.expiry());
        drop(self.insert_with_properties(moment.now(), key, key, properties)?);
        Ok(false)
    }

    fn read_up(&self, moment: Moment, key: u64) -> Result<bool> {
        if self.read(moment.now(), &key, |value| *value)?.is_some() {
            return Ok(true);
        }
        let properties = CacheProperties::default().with_expiry(moment.expiry());
        self.put_with_properties(moment.now(), key, key, properties)?;
        Ok(false)
    }

    fn usage(&self) -> u128 {
        self.usage()
    }
}

/// Runs over each trace in a thread of its own where one can be made, all over one cache, from the first thread's start
/// to the last one's end. Each thread's first key has the same moment. Refused where a key is, or where a thread's answer
/// finds no memory.
pub fn run_threads<R: Clock + Threads + Sync, C: SharedCache + Sync>(
    rt: &R,
    alloc: Global,
    cache: C,
    calls: Calls,
    traces: &[Vec<u64>],
    first: Moment,
) -> std::result::Result<Report, Failure> {
    let start = Instant::now(rt)?;
    let made = thread::map_indices(
        rt,
        alloc,
        traces.len(),
        &|place| drive(&cache, calls, &traces[place], first).ok(),
    );
    let time = start.elapsed(rt)?;
    let mut ops = 0usize;
    let mut hits = 0usize;
    for (found, keys) in made?.iter().zip(traces) {
        ops = ops.saturating_add(keys.len());
        hits = hits.saturating_add(found.ok_or(Failure::Memory)?);
    }
    Ok(Report {
        usage: cache.usage(),
        ops,
        hits,
        nanos: u64::try_from(time.as_nanos()).unwrap_or(u64::MAX),
    })
}

/// Looks each key up, the first at this moment, and puts in each that is not found. Answers how many keys were found.
/// Refused where a key is: it and the keys after it are left out.
pub fn drive<C: SharedCache>(
    cache: &C,
    calls: Calls,
    keys: &Vec<u64>,
    first: Moment,
) -> Result<usize> {
    let mut hits = 0usize;
    let mut moment = first;
    for key in keys {
        let is_found = match calls {
            Calls::Get => cache.look_up(moment, *key)?,
            Calls::Read => cache.read_up(moment, *key)?,
        };
        if is_found {
            hits = hits.wrapping_add(1);
        }
        moment = moment.next();
    }
    Ok(hits)
}

#[cfg(test)]
mod tests;
