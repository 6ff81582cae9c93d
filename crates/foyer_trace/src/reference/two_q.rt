//! 2Q: T. Johnson and D. Shasha, "2Q: A Low Overhead High Performance Buffer Management Replacement Algorithm" (1994).

use crate::reference::Cache;
use crate::reference::queue::Queue;
use std::alloc::{AllocError, Global};

/// A queue of new keys, a quarter of the cache, the keys last evicted from it, half as many as the capacity, and the
/// keys that were used again after that.
#[derive(Drop)]
pub struct TwoQ {
    capacity: usize,
    new: Queue,
    evicted: Queue,
    main: Queue,
}

impl TwoQ {
    pub fn new(alloc: Global, capacity: usize) -> TwoQ {
        TwoQ {
            capacity,
            new: Queue::new(alloc),
            evicted: Queue::new(alloc),
            main: Queue::new(alloc),
        }
    }

    // Evicts a key if the cache is full.
    fn make_room(&mut self) -> Result<(), AllocError> {
        if self.len() < self.capacity {
            return Ok(());
        }
        if self.new.len() <= (self.capacity / 4).max(1) && self.main.pop().is_some() {
            return Ok(());
        }
        if let Some(key) = self.new.pop() {
            self.evicted.push(key)?;
            if self.evicted.len() > (self.capacity / 2).max(1) {
                self.evicted.pop();
            }
        }
        Ok(())
    }
}

impl Cache for TwoQ {
    fn len(&self) -> usize {
        self.new.len().saturating_add(self.main.len())
    }

    fn touch(&mut self, key: u64) -> Result<bool, AllocError> {
        if self.main.contains(key) {
            self.main.push(key)?;
            return Ok(true);
        }
        if self.new.contains(key) {
            return Ok(true);
        }
        let is_known = self.evicted.remove(key);
        self.make_room()?;
        if is_known {
            self.main.push(key)?;
        } else {
            self.new.push(key)?;
        }
        Ok(false)
    }

    fn remove(&mut self, key: u64) -> Result<(), AllocError> {
        self.new.remove(key);
        self.evicted.remove(key);
        self.main.remove(key);
        Ok(())
    }
}
