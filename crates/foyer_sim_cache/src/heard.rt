//! What a cache tells of what leaves it.

use foyer_policy::{Event, EventListener};
use foyer_session::SimValue;
use std::alloc::{AllocError, Global};
use std::cell::RefCell;
use std::rc::Rc;

/// A record that left.
#[derive(Clone, Copy, Debug, PartialEq, Eq)]
pub struct Leave {
    /// Why it left.
    pub event: Event,
    /// Its key.
    pub key: u64,
    /// Its value.
    pub value: u64,
}

/// What has left since the last line, in the order in which it was told, for all who have a share of it.
#[derive(Drop)]
pub struct Heard(Rc<RefCell<Vec<Leave>>>);

impl Heard {
    /// Nothing was told yet.
    pub fn new(alloc: Global) -> Result<Self, AllocError> {
        match Rc::new(alloc, RefCell::new(Vec::new(alloc))) {
            Ok(leaves) => Ok(Heard(leaves)),
            Err(_) => Err(AllocError),
        }
    }

    /// The same leaves again.
    pub fn share(&self) -> Result<Self, AllocError> {
        Ok(Heard(self.0.clone()?))
    }

    /// What has left, which is then forgotten.
    pub fn take(&self, alloc: Global) -> Vec<Leave> {
        match self.0.try_borrow_mut() {
            Ok(mut leaves) => std::mem::replace(&mut *leaves, Vec::new(alloc)),
            Err(_) => Vec::new(alloc),
        }
    }

    // One more. A leave for which there is no memory is lost, and so missing in what is printed.
    fn note(&self, leave: Leave) {
        if let Ok(mut leaves) = self.0.try_borrow_mut() {
            let _ = leaves.push(leave);
        }
    }
}

/// A listener that notes what it hears.
#[derive(Drop)]
pub struct Ear(pub Heard);

impl EventListener for Ear {
    type Key = u64;

    type Value = SimValue;

    fn on_leave(&self, event: Event, key: &u64, value: &SimValue) {
        self.0.note(Leave {
            event,
            key: *key,
            value: value.value,
        });
    }
}
