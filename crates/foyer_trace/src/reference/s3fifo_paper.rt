//! S3-FIFO of J. Yang and others, "FIFO Queues are All You Need for Cache Eviction" (2023): promoted keys begin anew.

use crate::reference::Cache;
use crate::reference::queue::Queue;
use std::alloc::{AllocError, Global};
use std::collections::HashMap;

/// A small queue of new keys, a tenth of the cache, a main queue, and the keys last evicted from the small one.
#[derive(Drop)]
pub struct S3FifoPaper {
    capacity: usize,
    small: Queue,
    main: Queue,
    evicted: Queue,
    uses: HashMap<u64, u8>,
}

impl S3FifoPaper {
    pub fn new(alloc: Global, capacity: usize) -> S3FifoPaper {
        S3FifoPaper {
            capacity,
            small: Queue::new(alloc),
            main: Queue::new(alloc),
            evicted: Queue::new(alloc),
            uses: HashMap::new(alloc),
        }
    }

    // Evicts a key of the small queue that was used at most once, and promotes those before it to the main queue.
    fn evict_small(&mut self) -> Result<(), AllocError> {
        for _key in 0..self.small.len() {
            let Some(key) = self.small.pop() else { break };
            if self.uses.remove(&key).is_none_or(|uses| uses <= 1) {
                self.evicted.push(key)?;
                if self.evicted.len() > self.capacity.saturating_mul(9) / 10 {
                    self.evicted.pop();
                }
                return Ok(());
            }
            self.main.push(key)?;
            if self.main.len().saturating_mul(10) > self.capacity.saturating_mul(9) {
                return self.evict_main();
            }
        }
        Ok(())
    }

    // Evicts the first key of the main queue with no uses left, and takes a use from those before it.
    fn evict_main(&mut self) -> Result<(), AllocError> {
        for _look in 0..self.main.len().saturating_mul(4) {
            let Some(key) = self.main.pop() else { break };
            let uses = self.uses.get(&key).copied().unwrap_or(0);
            if uses == 0 {
                self.uses.remove(&key);
                break;
            }
            self.uses.insert(key, uses.saturating_sub(1))?;
            self.main.push(key)?;
        }
        Ok(())
    }
}

impl Cache for S3FifoPaper {
    fn len(&self) -> usize {
        self.small.len().saturating_add(self.main.len())
    }

    fn touch(&mut self, key: u64) -> Result<bool, AllocError> {
        if self.small.contains(key) || self.main.contains(key) {
            let uses = self.uses.get(&key).copied().unwrap_or(0);
            self.uses.insert(key, uses.saturating_add(1).min(3))?;
            return Ok(true);
        }
        for _eviction in 0..self.len() {
            if self.len() < self.capacity {
                break;
            }
            if self.small.len() > 0 && self.small.len().saturating_mul(10) >= self.capacity {
                self.evict_small()?;
            } else {
                self.evict_main()?;
            }
        }
        if self.evicted.remove(key) {
            self.main.push(key)?;
        } else {
            self.small.push(key)?;
        }
        Ok(false)
    }

    fn remove(&mut self, key: u64) -> Result<(), AllocError> {
        self.uses.remove(&key);
        let _ = self.small.remove(key) || self.main.remove(key) || self.evicted.remove(key);
        Ok(())
    }
}
