//! Questions on which a conditional change rests.

ghost use Rattle.std.specs.Prelude.{◌≡◌, ◌↔◌, IsTrue};

use super::Store;
use crate::finder::Finder;
use foyer_policy::{Eviction, Key, Properties, Value};

impl<E: Eviction, K: Key, V: Value, P: Properties, I: Finder<K>> Store<E, K, V, P, I> {
    ghost use Rattle.foyer_core.specs.Stores.{state_of, meaning_of};
    ghost use Rattle.foyer_core.specs.Conditional.{Fits, is_current};
    ghost use Rattle.foyer_core.specs.Observed.{is_known};

    /// Returns whether the key still has what was seen, as `Shard::is_current` does.
    #[inline(always)]
    pub fn is_current(&self, now: u64, hash: u64, key: &K, seen: Option<u64>) -> bool
        ensures { result ≡ is_current (meaning_of self.now) now (state_of self.now) (hash, key.now) seen }
    {
        match seen {
            Some(id) => self.has_id(hash, key, id),
            None => self.live_under(now, hash, key).is_none(),
        }
    }

    // Whether the key's record has this id.
    #[inline(always)]
    fn has_id(&self, hash: u64, key: &K, id: u64) -> bool
        ensures { result ≡ is_known ((state_of self.now).index (hash, key.now)) id }
    {
        let Some(slot) = self.slot_under(hash, key) else {
            return false;
        };
        match self.records.get(slot) {
            Some(found) => found.id() == id,
            None => unreachable!(),
        }
    }

    /// Returns whether a record would fit beside what is pinned, as `Shard::would_fit` does.
    pub fn would_fit(&self, hash: u64, key: &K, weight: usize) -> bool
        ensures { IsTrue result ↔ Fits (meaning_of self.now) (state_of self.now) (hash, key.now) weight }
    {
        let beside = self.eviction.pinned_weight() - self.own_pinned(hash, key);
        beside <= self.capacity && weight <= self.capacity - beside
    }
}
