//! The distinct keys of a trace.

use crate::trace::Part;
use foyer_replay::Operation;
use std::alloc::{AllocError, Global};
use std::collections::HashSet;

// How often the trace is gone through, each time for some of the keys, so that few are held at a time.
const PASSES: u64 = 16;

/// The distinct keys of a trace.
#[derive(Clone, Copy, Default)]
pub struct Footprint {
    /// How many there are.
    pub keys: u64,
    /// Their bytes, each as large as it was first.
    pub bytes: u128,
}

impl Footprint {
    /// The footprint of these parts.
    pub fn of(alloc: Global, parts: &[Part]) -> Result<Footprint, AllocError> {
        let mut footprint = Footprint::default();
        for pass in 0..PASSES {
            let mut seen = HashSet::new(alloc);
            for part in parts {
                footprint.add(part, pass, &mut seen)?;
            }
        }
        Ok(footprint)
    }

    // Adds those keys of a part that belong to a pass and weren't seen.
    fn add(&mut self, part: &Part, pass: u64, seen: &mut HashSet<u64>) -> Result<(), AllocError> {
        for (place, key) in part.keys().iter().enumerate() {
            if (*key >> 32) % PASSES == pass
                && part.operation(place) != Operation::Remove
                && seen.insert(*key)?
            {
                self.keys = self.keys.saturating_add(1);
                self.bytes = self.bytes.saturating_add(part.size(place) as u128);
            }
        }
        Ok(())
    }
}
