//! ARC: N. Megiddo and D. S. Modha, "ARC: A Self-Tuning, Low Overhead Replacement Cache" (2003).

use crate::number::float;
use crate::reference::Cache;
use crate::reference::queue::Queue;
use std::alloc::{AllocError, Global};

/// Resident keys that were used once or more often, and the last keys evicted from each of the two.
#[derive(Drop)]
pub struct Arc {
    capacity: usize,
    // The wanted number of resident keys that were used once.
    target: f64,
    once: Queue,
    often: Queue,
    once_evicted: Queue,
    often_evicted: Queue,
}

impl Arc {
    pub fn new(alloc: Global, capacity: usize) -> Arc {
        Arc {
            capacity,
            target: 0.0,
            once: Queue::new(alloc),
            often: Queue::new(alloc),
            once_evicted: Queue::new(alloc),
            often_evicted: Queue::new(alloc),
        }
    }

    // Evicts a key and remembers it. `is_often` says whether the new key was evicted from those used often.
    fn replace(&mut self, is_often: bool) -> Result<(), AllocError> {
        let once = real(self.once.len());
        if self.once.len() > 0 && (once > self.target || is_often && once == self.target) {
            if let Some(key) = self.once.pop() {
                self.once_evicted.push(key)?;
            }
        } else if let Some(key) = self.often.pop() {
            self.often_evicted.push(key)?;
        }
        Ok(())
    }

    // Inserts a remembered key among those used often.
    fn recall(&mut self, key: u64, is_often: bool) -> Result<(), AllocError> {
        let (once, often) = (
            real(self.once_evicted.len()),
            real(self.often_evicted.len()),
        );
        self.target = if is_often {
            (self.target - (once / often).max(1.0)).max(0.0)
        } else {
            (self.target + (often / once).max(1.0)).min(real(self.capacity))
        };
        self.replace(is_often)?;
        self.once_evicted.remove(key);
        self.often_evicted.remove(key);
        self.often.push(key)
    }

    // Makes room for a key that is not remembered.
    fn make_room(&mut self) -> Result<(), AllocError> {
        let first = self.once.len().saturating_add(self.once_evicted.len());
        let second = self.often.len().saturating_add(self.often_evicted.len());
        if first >= self.capacity {
            if self.once.len() < self.capacity {
                self.once_evicted.pop();
                self.replace(false)?;
            } else {
                self.once.pop();
            }
        } else if first.saturating_add(second) >= self.capacity {
            if first.saturating_add(second) >= self.capacity.saturating_mul(2) {
                self.often_evicted.pop();
            }
            self.replace(false)?;
        }
        Ok(())
    }
}

fn real(number: usize) -> f64 {
    float(number as u128)
}

impl Cache for Arc {
    fn len(&self) -> usize {
        self.once.len().saturating_add(self.often.len())
    }

    fn touch(&mut self, key: u64) -> Result<bool, AllocError> {
        if self.once.remove(key) || self.often.contains(key) {
            self.often.push(key)?;
            return Ok(true);
        }
        if self.once_evicted.contains(key) {
            self.recall(key, false)?;
        } else if self.often_evicted.contains(key) {
            self.recall(key, true)?;
        } else {
            self.make_room()?;
            self.once.push(key)?;
        }
        Ok(false)
    }

    fn remove(&mut self, key: u64) -> Result<(), AllocError> {
        self.once.remove(key);
        self.often.remove(key);
        self.once_evicted.remove(key);
        self.often_evicted.remove(key);
        Ok(())
    }
}
