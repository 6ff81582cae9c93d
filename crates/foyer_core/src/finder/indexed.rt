//! A finder over an index that keeps the keys.

use crate::finder::Finder;
use crate::indexer::{Indexer, insert_clone};
use foyer_policy::{Key, Result};
use std::alloc::Global;

/// A finder over any [`Indexer`], whose numbers are slots.
#[derive(Drop)]
pub struct Indexed<I> {
    index: I,
}

/// Makes a finder of an index, with the keys that it has.
impl<I: Drop> From<I> for Indexed<I> {
    ghost use Rattle.std.specs.Prelude.{◌≡◌};

    ghost from_gives = { λ index finder. finder.index ≡ index };

    fn from(index: I) -> Self {
        Indexed { index }
    }
}

impl<K: Key, I: Indexer<K>> Finder<K> for Indexed<I> {
    ghost view = { λ s. I.view s.index };

    // the clone of a key may be refused at any time
    ghost has_room = { λ _ _. ⊥ };

    ghost respects = { λ s p q same. I.respects s.index p q same };

    fn empty(alloc: Global) -> Self {
        Indexed {
            index: I::empty(alloc),
        }
    }

    #[inline]
    fn find<F: Fn(usize) -> bool>(&self, hash: u64, key: &K, _is_its: F) -> Option<usize> {
        let slot = self.index.get(hash, key)?;
        Some(slot as usize)
    }

    #[inline]
    fn put(&mut self, hash: u64, key: &K, _was: Option<usize>, slot: usize) -> Result<()> {
        insert_clone(&mut self.index, hash, key, slot as u64)
    }

    #[inline]
    fn take(&mut self, hash: u64, key: &K, _slot: usize) {
        let _ = self.index.remove(hash, key);
    }
}
