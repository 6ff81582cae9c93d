//! The least possible misses, by L. A. Belady, "A study of replacement algorithms for a virtual-storage computer"
//! (1966).

use crate::trace::{Part, Trace};
use foyer_replay::{Counts, Operation};
use std::alloc::{AllocError, Global};
use std::collections::{BTreeSet, HashMap};

// Stands for no further get.
const NEVER: u32 = u32::MAX;

/// When each record's key is next got: the number of that record, by part.
#[derive(Drop)]
pub struct Future {
    parts: Vec<Vec<u32>>,
}

impl Future {
    /// The most records that a trace may have.
    pub const MOST: u64 = NEVER as u64;

    /// The future of each window of a trace. A key that is put or removed is of no use until then.
    pub fn of(alloc: Global, windows: &[Trace]) -> Result<Vec<Future>, AllocError> {
        let mut futures = Vec::new(alloc);
        let mut next: HashMap<u64, u32> = HashMap::new(alloc);
        let mut number = windows.first().map_or(0, |it| it.totals.records);
        for window in windows.iter().rev() {
            let mut parts = Vec::new(alloc);
            for part in window.parts.iter().rev() {
                parts.push(future_of(alloc, part, &mut next, &mut number)?)?;
            }
            parts.as_mut_slice().reverse();
            futures.push(Future { parts })?;
        }
        futures.as_mut_slice().reverse();
        Ok(futures)
    }

    /// The future of the records of a part.
    pub fn part(&self, place: usize) -> &[u32] {
        self.parts.get(place).map_or(&[], |part| part.as_slice())
    }
}

// The future of the records of a part, whose keys are next got so later. The number is that of the record behind it.
fn future_of(
    alloc: Global,
    part: &Part,
    next: &mut HashMap<u64, u32>,
    number: &mut u64,
) -> Result<Vec<u32>, AllocError> {
    let mut future = Vec::with_capacity(alloc, part.len())?;
    for (place, key) in part.keys().iter().enumerate().rev() {
        *number = number.saturating_sub(1);
        let uses = match part.operation(place) {
            Operation::Get => u32::try_from(*number).unwrap_or(NEVER),
            Operation::Put | Operation::Remove => NEVER,
        };
        future.push(next.insert(*key, uses)?.unwrap_or(NEVER))?;
    }
    future.as_mut_slice().reverse();
    Ok(future)
}

/// A cache that knows the future. It keeps those keys that are got the soonest, and a new key only if it is among them,
/// as any cache might.
#[derive(Drop)]
pub struct Belady {
    capacity: usize,
    // When each resident key is next got.
    resident: BTreeSet<u32>,
    number: u32,
}

impl Belady {
    pub fn new(alloc: Global, capacity: usize) -> Belady {
        Belady {
            capacity,
            resident: BTreeSet::new(alloc),
            number: 0,
        }
    }

    /// Serves the records of a part, and returns what it counted of those after the first `skipped`.
    pub fn serve(
        &mut self,
        part: &Part,
        future: &[u32],
        skipped: usize,
    ) -> Result<Counts, AllocError> {
        let mut counts = Counts::default();
        for place in 0..part.len() {
            let next = future.get(place).copied().unwrap_or(NEVER);
            let operation = part.operation(place);
            let (is_hit, evicts) = self.meet(operation, next)?;
            if place < skipped {
                continue;
            }
            let size = part.size(place) as u128;
            if operation == Operation::Get && is_hit {
                counts.hits = counts.hits.saturating_add(1);
                counts.hit_bytes = counts.hit_bytes.saturating_add(size);
            } else if operation == Operation::Get {
                counts.misses = counts.misses.saturating_add(1);
                counts.miss_bytes = counts.miss_bytes.saturating_add(size);
            }
            if evicts {
                counts.evictions = counts.evictions.saturating_add(1);
            }
        }
        Ok(counts)
    }

    // Serves a record whose key is next got then, and returns whether it was resident and whether another one was
    // evicted.
    fn meet(&mut self, operation: Operation, next: u32) -> Result<(bool, bool), AllocError> {
        let is_hit = self.resident.remove(&self.number);
        self.number = self.number.saturating_add(1);
        if operation == Operation::Remove || next == NEVER {
            return Ok((is_hit, false));
        }
        self.resident.insert(next)?;
        if self.resident.len() <= self.capacity {
            return Ok((is_hit, false));
        }
        self.resident.pop_last();
        Ok((is_hit, true))
    }
}
