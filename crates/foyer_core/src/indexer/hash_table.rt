//! A hash table with chains: a look-up reads one head and, for most keys, one pair.

ghost use Rattle.std.specs.Prelude.{◌≡◌, ◌↔◌, ℕ, ◌-◌, ◌^◌, ◌<◌, Some, None, IfOk, IfErr, OnOk, OnErr, IsTrue, length, vec_len, vec_capacity};
ghost use Rattle.std.specs.List.{IsDistinct};
ghost use Rattle.std.specs.Map.{keys_of, lookup, update};
ghost use Rattle.std.proofs.lemmas.Map.Keys.{IsDistinct-prop};
ghost use Rattle.foyer_policy.specs.declared.error.Reason.TheVariants.{NoMemory};
ghost use Rattle.foyer_core.specs.Indexer.{same_key};
ghost use Rattle.foyer_core.specs.Chains.{entries_of, hashes_of, nexts_of, AllInChains, AllInChains-prop};

use crate::indexer::Indexer;
use crate::indexer::chain::{Pair, find, numbers, push, spread, swap_remove};
use foyer_policy::{Error, Key, Link, Reason, Result};
use std::alloc::{AllocError, Global};
use std::mem;

// Twice as many heads come with each step of the shift down from here.
const FIRST_SHIFT: u32 = 62;

/// A hash table with separate chaining, whose pairs lie in one vector (Knuth, The Art of Computer Programming, volume
/// 3, section 6.4).
#[derive(Drop)]
pub struct HashTableIndexer<K: Key> {
    // the link to the first pair of each chain
    heads: Vec<Link>,
    pairs: Vec<Pair<K>>,
    // by how many bits the product of a hash is shifted to the number of its chain
    shift: u32,
    alloc: Global,
    // none, or a power of two
    ghost shifted: { (shift < 64) × (0 < length heads.items → length heads.items ≡ 2 ^ (64 - shift)) × (length heads.items ≡ 0 → 1 < shift) },
    ghost linked: { AllInChains shift heads.items (hashes_of pairs.items) (nexts_of pairs.items) } by { AllInChains-prop shift heads.items (hashes_of pairs.items) (nexts_of pairs.items) },
    // no two hashed keys are equal
    ghost distinct: { IsDistinct (same_key K.eq) (keys_of (entries_of pairs.items)) } by { IsDistinct-prop (same_key K.eq) (keys_of (entries_of pairs.items)) },
}

impl<K: Key> HashTableIndexer<K> {
    /// Creates an index with no keys.
    pub fn new(alloc: Global) -> Self
        ensures { (q : ℕ × K) → ⟦<HashTableIndexer<K> as Indexer<K>>⟧.view result q ≡ None }
    {
        HashTableIndexer {
            heads: Vec::new(alloc),
            pairs: Vec::new(alloc),
            shift: FIRST_SHIFT,
            alloc,
        }
    }

    /// Returns whether there is no key. Takes no memory.
    #[inline(always)]
    pub fn is_empty(&self) -> bool
        ensures { IsTrue result ↔ ((q : ℕ × K) → ⟦<HashTableIndexer<K> as Indexer<K>>⟧.view self.now q ≡ None) }
    {
        self.pairs.as_slice().is_empty()
    }

    // Makes room for one more pair, and for its chain.
    fn make_room(&mut self) -> std::result::Result<(), AllocError>
        ensures heads { OnOk result (0 < length self.new.heads.items) }
        ensures room { OnOk result (vec_len self.new.pairs < vec_capacity self.new.pairs) }
        ensures entries { entries_of self.new.pairs.items ≡ entries_of self.old.pairs.items }
    {
        self.pairs.reserve(1)?;
        if self.heads.len() <= self.pairs.len() && self.shift > 1 {
            let shift = self.shift - 1;
            self.heads = spread(self.alloc, shift, &mut self.pairs)?;
            self.shift = shift;
        }
        Ok(())
    }
}

impl<K: Key> Indexer<K> for HashTableIndexer<K> {
    ghost use Rattle.foyer_core.specs.Entries.{lookup_same};

    ghost view = { λ s q. lookup (same_key K.eq q) (entries_of s.pairs.items) };

    ghost respects = { λ s p q same. lookup_same K.Eq.laws p q same (entries_of s.pairs.items) };

    fn empty(alloc: Global) -> Self {
        HashTableIndexer::new(alloc)
    }

    fn insert(&mut self, hash: u64, key: K, id: u64) -> Result<Option<u64>> {
        if let Some(place) = find(&self.heads, self.shift, &self.pairs, hash, &key) {
            let pair = &mut self.pairs[place];
            return Ok(Some(mem::replace(&mut pair.number, id)));
        }
        if self.make_room().is_err() {
            return Err(Error::new(Reason::NoMemory));
        }
        let pair = Pair {
            hash,
            key,
            number: id,
            next: Link::end(),
        };
        push(&mut self.heads, self.shift, &mut self.pairs, pair);
        Ok(None)
    }

    #[inline(always)]
    fn get(&self, hash: u64, key: &K) -> Option<u64> {
        // An index beside another one is mostly empty.
        if self.is_empty() {
            return None;
        }
        let place = find(&self.heads, self.shift, &self.pairs, hash, key)?;
        Some(self.pairs[place].number)
    }

    fn remove(&mut self, hash: u64, key: &K) -> Option<u64> {
        let place = find(&self.heads, self.shift, &self.pairs, hash, key)?;
        let number = swap_remove(&mut self.heads, self.shift, &mut self.pairs, place);
        Some(number)
    }

    fn drain(&mut self) -> Result<Vec<u64>> {
        let Ok(ids) = numbers(self.alloc, &self.pairs) else {
            return Err(Error::new(Reason::NoMemory));
        };
        self.pairs.clear();
        self.heads.fill(Link::end());
        Ok(ids)
    }
}
