//! The curve of textbook LRU over all sizes, in one pass over a trace: R. L. Mattson and others, "Evaluation techniques
//! for storage hierarchies" (1970), with sums by P. M. Fenwick, "A new data structure for cumulative frequency tables"
//! (1994).

use crate::trace::{Part, Totals, Trace};
use foyer_replay::{Counts, Operation};
use std::alloc::{AllocError, Global};
use std::collections::{BTreeSet, HashMap};

/// A set of slots that counts the used ones before a slot in O(log n).
#[derive(Drop)]
struct Slots {
    sums: Vec<u32>,
}

impl Slots {
    fn new(alloc: Global, count: usize) -> Result<Slots, AllocError> {
        Ok(Slots {
            sums: vec![in alloc; 0u32; count.saturating_add(1)]?,
        })
    }

    // Marks a slot as used or free.
    fn set(&mut self, slot: usize, is_used: bool) {
        let mut at = slot.saturating_add(1);
        for _bit in 0..usize::BITS {
            let Some(sum) = self.sums.get_mut(at) else {
                break;
            };
            *sum = if is_used {
                sum.saturating_add(1)
            } else {
                sum.saturating_sub(1)
            };
            at = at.saturating_add(at & at.wrapping_neg());
        }
    }

    // Counts the used slots before one.
    fn before(&self, slot: usize) -> usize {
        let mut at = slot;
        let mut count = 0usize;
        for _bit in 0..usize::BITS {
            if at == 0 {
                break;
            }
            count = count.saturating_add(self.sums.get(at).copied().unwrap_or(0) as usize);
            at &= at.wrapping_sub(1);
        }
        count
    }
}

/// All keys, the last used at the top, so that a cache holds the keys down to the depth of its size. A removed key
/// leaves a hole, which is free room in caches of that depth or more.
#[derive(Drop)]
struct Stack {
    slots: Slots,
    places: HashMap<u64, usize>,
    holes: BTreeSet<usize>,
    next: usize,
    used: usize,
}

/// The outcome of a use of a key.
#[derive(Clone, Copy)]
struct Touched {
    // The key's depth, from 1: caches of this size and larger ones held it.
    depth: Option<usize>,
    // Caches up to this size evict a key.
    evicts: usize,
}

impl Stack {
    fn new(alloc: Global, uses: usize) -> Result<Stack, AllocError> {
        Ok(Stack {
            slots: Slots::new(alloc, uses)?,
            places: HashMap::new(alloc),
            holes: BTreeSet::new(alloc),
            next: 0,
            used: 0,
        })
    }

    // Returns the depth of a used slot, from 1.
    fn depth(&self, slot: usize) -> usize {
        self.used.saturating_sub(self.slots.before(slot))
    }

    // Moves a key to the top. A put makes room before it replaces the key's old record, which leaves a hole.
    fn touch(&mut self, key: u64, is_put: bool) -> Result<Touched, AllocError> {
        let was = self.places.insert(key, self.next)?;
        let depth = was.map(|slot| self.depth(slot));
        let hole = self.holes.last().copied();
        let room = hole.map_or(self.used, |hole| self.depth(hole).saturating_sub(1));
        let above = match depth {
            Some(depth) if !is_put => depth.saturating_sub(1),
            _ => self.used,
        };
        let is_moved = !is_put && was.is_some_and(|slot| hole.is_none_or(|hole| hole < slot));
        if !is_moved {
            // The keys above the first hole move down into it, and a hole opens at the key's old slot.
            if let Some(hole) = hole {
                self.holes.remove(&hole);
            }
            if let Some(slot) = was {
                self.holes.insert(slot)?;
            }
        }
        match if is_moved { was } else { hole } {
            Some(slot) => self.slots.set(slot, false),
            None => self.used = self.used.saturating_add(1),
        }
        self.slots.set(self.next, true);
        self.next = self.next.saturating_add(1);
        Ok(Touched {
            depth,
            evicts: above.min(room),
        })
    }

    fn remove(&mut self, key: u64) -> Result<(), AllocError> {
        if let Some(slot) = self.places.remove(&key) {
            self.holes.insert(slot)?;
        }
        Ok(())
    }
}

/// The counts of LRU at all sizes.
#[derive(Drop)]
pub struct Curve {
    // The gets that found their key at each depth, their bytes, and the uses that evicted a key up to each size.
    hits: Vec<u64>,
    hit_bytes: Vec<u128>,
    evictions: Vec<u64>,
    gets: u64,
    bytes: u128,
    // The counts of caches of the wanted sizes up to the end of each window.
    marks: Vec<Vec<Counts>>,
}

impl Curve {
    /// Computes the curve over the windows of a trace in O(n log n), and marks the counts at sizes in ascending order.
    /// The first `warmup` records are not counted.
    pub fn of(
        alloc: Global,
        trace: &[Trace],
        warmup: u64,
        sizes: &[usize],
    ) -> Result<Curve, AllocError> {
        let totals = trace.first().map_or(Totals::default(), |it| it.totals);
        // Depths from 1 for all keys and a hole.
        let depths = (totals.keys as usize).saturating_add(2);
        let mut curve = Curve {
            hits: vec![in alloc; 0u64; depths]?,
            hit_bytes: vec![in alloc; 0u128; depths]?,
            evictions: vec![in alloc; 0u64; depths]?,
            gets: 0,
            bytes: 0,
            marks: Vec::with_capacity(alloc, trace.len())?,
        };
        let mut stack = Stack::new(alloc, totals.records as usize)?;
        let mut left = warmup as usize;
        for window in trace {
            for part in &window.parts {
                curve.add(&mut stack, part, left)?;
                left = left.saturating_sub(part.len());
            }
            let mark = curve.counts(alloc, sizes)?;
            curve.marks.push(mark)?;
        }
        Ok(curve)
    }

    fn add(&mut self, stack: &mut Stack, part: &Part, skipped: usize) -> Result<(), AllocError> {
        for (place, key) in part.keys().iter().enumerate() {
            let operation = part.operation(place);
            if operation == Operation::Remove {
                stack.remove(*key)?;
                continue;
            }
            let touched = stack.touch(*key, operation == Operation::Put)?;
            if place >= skipped {
                self.count(touched, operation == Operation::Get, part.size(place));
            }
        }
        Ok(())
    }

    fn count(&mut self, touched: Touched, is_get: bool, size: u64) {
        if let Some(evictions) = self.evictions.get_mut(touched.evicts) {
            *evictions = evictions.saturating_add(1);
        }
        if !is_get {
            return;
        }
        self.gets = self.gets.saturating_add(1);
        self.bytes = self.bytes.saturating_add(size as u128);
        let Some(depth) = touched.depth else {
            return;
        };
        if let Some(hits) = self.hits.get_mut(depth) {
            *hits = hits.saturating_add(1);
        }
        if let Some(bytes) = self.hit_bytes.get_mut(depth) {
            *bytes = bytes.saturating_add(size as u128);
        }
    }

    /// Returns the greatest depth. All larger caches have the same counts.
    pub fn depths(&self) -> usize {
        self.hits.len().saturating_sub(1)
    }

    /// Returns the counts of caches of these sizes, which ascend. A size of 0 counts as 1.
    pub fn counts(&self, alloc: Global, sizes: &[usize]) -> Result<Vec<Counts>, AllocError> {
        let mut all = Vec::with_capacity(alloc, sizes.len())?;
        let mut evictions = self
            .evictions
            .iter()
            .fold(0u64, |sum, it| sum.saturating_add(*it));
        let mut counts = Counts::default();
        let mut depth = 0usize;
        for size in sizes {
            let size = (*size).max(1).min(self.depths());
            for at in depth..=size {
                counts.hits = counts
                    .hits
                    .saturating_add(self.hits.get(at).copied().unwrap_or(0));
                let bytes = self.hit_bytes.get(at).copied().unwrap_or(0);
                counts.hit_bytes = counts.hit_bytes.saturating_add(bytes);
                if at > 0 {
                    let smaller = self
                        .evictions
                        .get(at.saturating_sub(1))
                        .copied()
                        .unwrap_or(0);
                    evictions = evictions.saturating_sub(smaller);
                }
            }
            depth = depth.max(size.saturating_add(1));
            all.push(Counts {
                misses: self.gets.saturating_sub(counts.hits),
                miss_bytes: self.bytes.saturating_sub(counts.hit_bytes),
                evictions,
                ..counts
            })?;
        }
        Ok(all)
    }

    /// Returns the counts in each window of a wanted size, given by its place.
    pub fn windows(&self, alloc: Global, place: usize) -> Result<Vec<Counts>, AllocError> {
        let mut windows = Vec::with_capacity(alloc, self.marks.len())?;
        let mut before = Counts::default();
        for mark in &self.marks {
            let now = mark.get(place).copied().unwrap_or(before);
            windows.push(Counts {
                hits: now.hits.saturating_sub(before.hits),
                misses: now.misses.saturating_sub(before.misses),
                hit_bytes: now.hit_bytes.saturating_sub(before.hit_bytes),
                miss_bytes: now.miss_bytes.saturating_sub(before.miss_bytes),
                evictions: now.evictions.saturating_sub(before.evictions),
                expired: 0,
            })?;
            before = now;
        }
        Ok(windows)
    }

    /// Returns the sizes that draw the curve: each up to 50, then 2 per cent apart.
    pub fn sizes(&self, alloc: Global) -> Result<Vec<usize>, AllocError> {
        let mut sizes = Vec::new(alloc);
        let mut size = 1usize;
        for _size in 0..4096 {
            if size >= self.depths() {
                break;
            }
            sizes.push(size)?;
            size = size.saturating_add((size / 50).max(1));
        }
        sizes.push(self.depths().max(1))?;
        Ok(sizes)
    }
}
