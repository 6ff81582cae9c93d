//! What the tests share.

use foyer_core::{CacheProperties, CoreEntry, Left};
use foyer_policy::Event;
use std::process::Abort;
use std::test::Fail;

/// What a test answers.
pub type Done = std::result::Result<(), Fail>;

/// An entry of numbers.
pub type Entry = CoreEntry<u64, u64, CacheProperties>;

/// What left, of numbers.
pub type Leaves = Vec<(Event, Left<u64, u64, CacheProperties>)>;

/// These left, in this order.
pub fn assert_left(rt: &impl Abort, leaves: &Leaves, told: &[(Event, u64)]) {
    assert_eq!(rt; leaves.len(), told.len());
    for ((event, left), (reason, key)) in leaves.iter().zip(told) {
        assert_eq!(rt; (*event, *left.key()), (*reason, *key));
    }
}

/// These keys were evicted, in this order, and no other.
pub fn assert_evicted(rt: &impl Abort, leaves: &Leaves, keys: &[u64]) {
    assert_eq!(rt; leaves.len(), keys.len());
    for ((event, left), key) in leaves.iter().zip(keys) {
        assert_eq!(rt; (*event, *left.key()), (Event::Evict, *key));
    }
}
