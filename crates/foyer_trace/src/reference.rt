//! Other policies to compare with, as their papers have them: plain code, of which nothing but safety is proved, for
//! records that weigh 1 and do not expire.

use crate::trace::{Part, Trace};
use arc::Arc;
use foyer_replay::{Counts, Operation};
use lirs::Lirs;
use lru_k::LruK;
use s3fifo_paper::S3FifoPaper;
use std::alloc::{AllocError, Global};
use two_q::TwoQ;

mod arc;
mod lirs;
mod lru_k;
mod queue;
mod s3fifo_paper;
mod two_q;

/// A policy to compare with.
#[derive(Clone, Copy)]
pub enum Reference {
    Arc,
    Lirs,
    TwoQ,
    LruK,
    S3FifoPaper,
}

/// A cache of keys.
pub trait Cache: Drop {
    /// Returns the number of resident keys.
    fn len(&self) -> usize;

    /// Uses a key, inserts it if it is missing, and returns whether it was resident.
    fn touch(&mut self, key: u64) -> Result<bool, AllocError>;

    /// Forgets a key.
    fn remove(&mut self, key: u64) -> Result<(), AllocError>;
}

impl Reference {
    /// Returns the policy of this name.
    pub fn of_name(name: &str) -> Option<Reference> {
        match name {
            "arc" => Some(Reference::Arc),
            "lirs" => Some(Reference::Lirs),
            "2q" => Some(Reference::TwoQ),
            "lru-k" => Some(Reference::LruK),
            "s3fifo-paper" => Some(Reference::S3FifoPaper),
            _ => None,
        }
    }

    /// Replays the windows of a trace over a cache of at least one record, and returns the counts of each, without
    /// those of the first `warmup` records.
    pub fn replay(
        self,
        alloc: Global,
        capacity: usize,
        trace: &[Trace],
        warmup: u64,
    ) -> Result<Vec<Counts>, AllocError> {
        let capacity = capacity.max(1);
        match self {
            Reference::Arc => replay(alloc, &mut Arc::new(alloc, capacity), trace, warmup),
            Reference::Lirs => replay(alloc, &mut Lirs::new(alloc, capacity), trace, warmup),
            Reference::TwoQ => replay(alloc, &mut TwoQ::new(alloc, capacity), trace, warmup),
            Reference::LruK => replay(alloc, &mut LruK::new(alloc, capacity), trace, warmup),
            Reference::S3FifoPaper => replay(
                alloc,
                &mut S3FifoPaper::new(alloc, capacity),
                trace,
                warmup,
            ),
        }
    }
}

fn replay<C: Cache>(
    alloc: Global,
    cache: &mut C,
    trace: &[Trace],
    warmup: u64,
) -> Result<Vec<Counts>, AllocError> {
    let mut windows = Vec::with_capacity(alloc, trace.len())?;
    let mut left = warmup as usize;
    for window in trace {
        let mut counts = Counts::default();
        for part in &window.parts {
            serve(cache, part, left, &mut counts)?;
            left = left.saturating_sub(part.len());
        }
        windows.push(counts)?;
    }
    Ok(windows)
}

fn serve<C: Cache>(
    cache: &mut C,
    part: &Part,
    skipped: usize,
    counts: &mut Counts,
) -> Result<(), AllocError> {
    for (place, key) in part.keys().iter().enumerate() {
        let operation = part.operation(place);
        if operation == Operation::Remove {
            cache.remove(*key)?;
            continue;
        }
        let before = cache.len();
        let is_hit = cache.touch(*key)?;
        if place < skipped {
            continue;
        }
        if !is_hit && cache.len() <= before {
            counts.evictions = counts.evictions.saturating_add(1);
        }
        let size = part.size(place) as u128;
        if operation == Operation::Get && is_hit {
            counts.hits = counts.hits.saturating_add(1);
            counts.hit_bytes = counts.hit_bytes.saturating_add(size);
        } else if operation == Operation::Get {
            counts.misses = counts.misses.saturating_add(1);
            counts.miss_bytes = counts.miss_bytes.saturating_add(size);
        }
    }
    Ok(())
}
