//! Questions on which a conditional change rests, for callers that ask and change under one lock.

ghost use Rattle.std.specs.Prelude.{◌≡◌, ◌↔◌, IsTrue};

use super::Shard;
use crate::finder::Finder;
use foyer_policy::{Eviction, Key, Properties, Value};

impl<E: Eviction, K: Key, V: Value, P: Properties, N: Drop, R: Drop, I: Finder<K>> Shard<
    E,
    K,
    V,
    P,
    N,
    R,
    I,
> {
    ghost use Rattle.foyer_core.specs.Shards.{state_of, meaning_of};
    ghost use Rattle.foyer_core.specs.Conditional.{Fits, is_current};

    /// Returns whether the key still has what was seen: the record of this id, expired or not, or, for `None`, no
    /// record that a `get` at `now` finds. Takes no memory.
    #[inline(always)]
    pub fn is_current(&self, now: u64, hash: u64, key: &K, seen: Option<u64>) -> bool
        ensures { result ≡ is_current (meaning_of self.now) now (state_of self.now) (hash, key.now) seen }
    {
        self.store.is_current(now, hash, key, seen)
    }

    /// Returns whether a record of this key and weight fits the capacity beside what is pinned of other keys. If not,
    /// an insert of it would evict all else, and leave the usage above the capacity. Takes no memory.
    pub fn would_fit(&self, hash: u64, key: &K, weight: usize) -> bool
        ensures { IsTrue result ↔ Fits (meaning_of self.now) (state_of self.now) (hash, key.now) weight }
    {
        self.store.would_fit(hash, key, weight)
    }
}
