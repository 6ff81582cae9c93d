//! Upstream's guard round an index.

ghost use Rattle.std.specs.Prelude.{◌≡◌, ℕ, None};

use crate::indexer::{HashTableIndexer, Indexer};
use foyer_policy::{Key, Result};
use std::alloc::Global;

/// An index that hands each call on to the one inside.
///
/// Upstream's sets a flag of each record that enters or leaves the index. Here an index holds numbers, nothing sets
/// that flag, and a shard's slots know which records are in the index.
#[derive(Drop)]
pub struct Sentry<I> {
    indexer: I,
}

impl<K: Key> Sentry<HashTableIndexer<K>> {
    /// Creates an index with no keys.
    pub fn new(alloc: Global) -> Self
        ensures { (q : ℕ × K) → ⟦<Sentry<HashTableIndexer<K>> as Indexer<K>>⟧.view result q ≡ None }
    {
        Sentry {
            indexer: HashTableIndexer::new(alloc),
        }
    }
}

/// Puts a guard round an index, with the keys that it has.
impl<I: Drop> From<I> for Sentry<I> {
    ghost from_gives = { λ indexer s. s.indexer ≡ indexer };

    fn from(indexer: I) -> Self {
        Sentry { indexer }
    }
}

impl<K: Key, I: Indexer<K>> Indexer<K> for Sentry<I> {
    ghost view = { λ s. I.view s.indexer };

    ghost respects = { λ s p q same. I.respects s.indexer p q same };

    fn empty(alloc: Global) -> Self {
        Sentry {
            indexer: I::empty(alloc),
        }
    }

    #[inline]
    fn insert(&mut self, hash: u64, key: K, id: u64) -> Result<Option<u64>> {
        self.indexer.insert(hash, key, id)
    }

    #[inline]
    fn get(&self, hash: u64, key: &K) -> Option<u64> {
        self.indexer.get(hash, key)
    }

    #[inline]
    fn remove(&mut self, hash: u64, key: &K) -> Option<u64> {
        self.indexer.remove(hash, key)
    }

    #[inline]
    fn drain(&mut self) -> Result<Vec<u64>> {
        self.indexer.drain()
    }
}
