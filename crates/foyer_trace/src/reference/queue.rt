//! A queue of keys.

use std::alloc::{AllocError, Global};
use std::collections::{BTreeMap, HashMap};

/// Distinct keys in the order in which they were pushed.
#[derive(Drop)]
pub struct Queue {
    order: BTreeMap<u64, u64>,
    places: HashMap<u64, u64>,
    next: u64,
}

impl Queue {
    pub fn new(alloc: Global) -> Queue {
        Queue {
            order: BTreeMap::new(alloc),
            places: HashMap::new(alloc),
            next: 0,
        }
    }

    pub fn len(&self) -> usize {
        self.order.len()
    }

    pub fn contains(&self, key: u64) -> bool {
        self.places.contains_key(&key)
    }

    /// Pushes a key as the newest, and removes it from its old place.
    pub fn push(&mut self, key: u64) -> Result<(), AllocError> {
        self.remove(key);
        self.order.insert(self.next, key)?;
        self.places.insert(key, self.next)?;
        self.next = self.next.saturating_add(1);
        Ok(())
    }

    /// Removes a key, and returns whether it was there.
    pub fn remove(&mut self, key: u64) -> bool {
        match self.places.remove(&key) {
            Some(place) => self.order.remove(&place).is_some(),
            None => false,
        }
    }

    /// Returns the oldest key.
    pub fn oldest(&self) -> Option<u64> {
        self.order.first_key_value().map(|entry| *entry.1)
    }

    /// Removes and returns the oldest key.
    pub fn pop(&mut self) -> Option<u64> {
        let (_place, key) = self.order.pop_first()?;
        self.places.remove(&key);
        Some(key)
    }
}
