//! LRU-K: E. J. O'Neil, P. E. O'Neil and G. Weikum, "The LRU-K Page Replacement Algorithm For Database Disk Buffering"
//! (1993), for K = 2 and with no correlated references.

use crate::reference::Cache;
use crate::reference::queue::Queue;
use std::alloc::{AllocError, Global};
use std::collections::{BTreeMap, HashMap};

/// The times of the last use but one, or 0, and of the last use.
type Uses = (u64, u64);

/// Evicts the key whose last use but one is the longest ago. The last use of evicted keys is remembered, of as many as
/// the capacity.
#[derive(Drop)]
pub struct LruK {
    capacity: usize,
    now: u64,
    order: BTreeMap<Uses, u64>,
    uses: HashMap<u64, Uses>,
    evicted: Queue,
    evicted_uses: HashMap<u64, u64>,
}

impl LruK {
    pub fn new(alloc: Global, capacity: usize) -> LruK {
        LruK {
            capacity,
            now: 0,
            order: BTreeMap::new(alloc),
            uses: HashMap::new(alloc),
            evicted: Queue::new(alloc),
            evicted_uses: HashMap::new(alloc),
        }
    }

    fn evict(&mut self) -> Result<(), AllocError> {
        let Some((uses, key)) = self.order.pop_first() else {
            return Ok(());
        };
        self.uses.remove(&key);
        self.evicted.push(key)?;
        self.evicted_uses.insert(key, uses.1)?;
        if self.evicted.len() > self.capacity {
            if let Some(key) = self.evicted.pop() {
                self.evicted_uses.remove(&key);
            }
        }
        Ok(())
    }
}

impl Cache for LruK {
    fn len(&self) -> usize {
        self.order.len()
    }

    fn touch(&mut self, key: u64) -> Result<bool, AllocError> {
        self.now = self.now.saturating_add(1);
        let is_hit = match self.uses.get(&key).copied() {
            Some(uses) => {
                self.order.remove(&uses);
                self.order.insert((uses.1, self.now), key)?;
                self.uses.insert(key, (uses.1, self.now))?;
                true
            }
            None => false,
        };
        if is_hit {
            return Ok(true);
        }
        let before = self.evicted_uses.remove(&key).unwrap_or(0);
        self.evicted.remove(key);
        if self.order.len() >= self.capacity {
            self.evict()?;
        }
        self.order.insert((before, self.now), key)?;
        self.uses.insert(key, (before, self.now))?;
        Ok(false)
    }

    fn remove(&mut self, key: u64) -> Result<(), AllocError> {
        if let Some(uses) = self.uses.remove(&key) {
            self.order.remove(&uses);
        }
        self.evicted.remove(key);
        self.evicted_uses.remove(&key);
        Ok(())
    }
}
