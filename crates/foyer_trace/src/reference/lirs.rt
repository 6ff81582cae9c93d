//! LIRS: S. Jiang and X. Zhang, "LIRS: An Efficient Low Inter-reference Recency Set Replacement Policy to Improve
//! Buffer Cache Performance" (2002).

use crate::reference::Cache;
use crate::reference::queue::Queue;
use std::alloc::{AllocError, Global};
use std::collections::HashSet;

/// A hundredth of the cache is a queue of keys that were not used again soon, the rest keys that were. The stack has
/// resident and evicted keys by their last use, down to the oldest of those used again soon.
#[derive(Drop)]
pub struct Lirs {
    // The most keys of either kind.
    most_soon: usize,
    most_others: usize,
    soon: HashSet<u64>,
    others: Queue,
    stack: Queue,
}

impl Lirs {
    pub fn new(alloc: Global, capacity: usize) -> Lirs {
        let most_others = (capacity / 100).max(1);
        Lirs {
            most_soon: capacity.saturating_sub(most_others),
            most_others,
            soon: HashSet::new(alloc),
            others: Queue::new(alloc),
            stack: Queue::new(alloc),
        }
    }

    // Pops keys off the bottom of the stack up to one that was used again soon.
    fn prune(&mut self) {
        for _key in 0..self.stack.len() {
            match self.stack.oldest() {
                Some(key) if !self.soon.contains(&key) => self.stack.pop(),
                _ => break,
            };
        }
    }

    // Makes a key one that was used again soon, in the place of the least recently used of these.
    fn promote(&mut self, key: u64) -> Result<(), AllocError> {
        self.others.remove(key);
        self.soon.insert(key)?;
        self.stack.push(key)?;
        if self.soon.len() > self.most_soon {
            self.prune();
            if let Some(last) = self.stack.pop() {
                self.soon.remove(&last);
                self.others.push(last)?;
            }
        }
        self.prune();
        Ok(())
    }
}

impl Cache for Lirs {
    fn len(&self) -> usize {
        self.soon.len().saturating_add(self.others.len())
    }

    fn touch(&mut self, key: u64) -> Result<bool, AllocError> {
        if self.soon.contains(&key) {
            self.stack.push(key)?;
            self.prune();
            return Ok(true);
        }
        let is_hit = self.others.contains(key);
        if !is_hit && self.soon.len() < self.most_soon && !self.stack.contains(key) {
            self.soon.insert(key)?;
            self.stack.push(key)?;
            return Ok(false);
        }
        if !is_hit && self.len() >= self.most_soon.saturating_add(self.most_others) {
            self.others.pop();
        }
        if self.stack.contains(key) && self.most_soon > 0 {
            self.promote(key)?;
        } else {
            self.others.push(key)?;
            self.stack.push(key)?;
            self.prune();
        }
        Ok(is_hit)
    }

    fn remove(&mut self, key: u64) -> Result<(), AllocError> {
        self.soon.remove(&key);
        self.others.remove(key);
        self.stack.remove(key);
        self.prune();
        Ok(())
    }
}
