//! What a core does with a key, beside a `get`, and with an entry that it owns.

ghost use Rattle.std.specs.Prelude.{◌≡◌, ◌↔◌, [], None, IsSomeAnd, IsTrue, MatchResult, option_copied, option_map};
ghost use Rattle.std.specs.Fn.{FnOnceReturnsAt};
ghost use Rattle.std.specs.Option.{option_to_list};
ghost use Rattle.foyer_policy.specs.declared.types.Event.TheVariants.{Remove};

use super::CacheCore;
use super::load::Load;
use crate::entry::{CoreEntry, Leave, Left};
use crate::filter::Filter;
use crate::finder::Finder;
use crate::weighter::Weighter;
use foyer_policy::{Eviction, HashBuilder, Key, Properties, Result, Value};

impl<
    E: Eviction,
    K: Key,
    V: Value,
    P: Properties,
    S: HashBuilder,
    W: Weighter<K, V>,
    A: Filter<K, V>,
    N: Drop,
    R: Drop,
    I: Finder<K>,
> CacheCore<E, K, V, P, S, W, A, N, R, I> {
    ghost use Rattle.foyer_core.specs.CallLaws.{CallLaws};
    ghost use Rattle.foyer_core.specs.Core.{AtShard, IsOutdatedIn, Owns, refs_in, shard_at};
    ghost use Rattle.foyer_core.specs.Cores.{core_of, fetches_of, hashes_of, meaning_of_core};
    ghost use Rattle.foyer_core.specs.Laws.{one_of};
    ghost use Rattle.foyer_core.specs.NoEntry.{Peeks, Reads};
    ghost use Rattle.foyer_core.specs.Steps.{ClonesHandle, GivesBack, Removes, Touches};

    /// Counts a use of the record that the key hits at `now`, and returns what `look` makes of its value.
    ///
    /// No entry is made and no handle is left over. Takes no memory.
    ///
    /// # Errors
    /// F9 if the handle count would pass its limit; nothing has changed.
    #[inline(always)]
    pub fn read<T, F: FnOnce(&V) -> T>(&mut self, now: u64, key: &K, look: F) -> Result<Option<T>>
        requires callable { F.IsAlwaysCallable look }
        ensures reads { let hash = S.hash_of (core_of self.old).hash_builder (K.hash_input key.now) in
            AtShard (λ s t. Reads (meaning_of_core self.old) now s (hash, key.now) (FnOnceReturnsAt F.FnOnce look) result t)
            hash (core_of self.old) (core_of self.new) }
        ensures fetches { fetches_of self.new ≡ fetches_of self.old }
        ensures laws { CallLaws K.eq (hashes_of self.old) (λ _. 0) (core_of self.old) [] (core_of self.new) }
    {
        let hash = self.hash(key);
        let place = self.shard_index(hash);
        self.shards[place].read(now, hash, key, look)
    }

    /// Returns the value that the key hits at `now`. It counts no use, and takes no memory.
    #[inline(always)]
    pub fn value(&self, now: u64, key: &K) -> Option<&V>
        ensures { IsSomeAnd (shard_at (core_of self.now) (hashes_of self.now key.now))
            (λ s. Peeks (meaning_of_core self.now) now s (hashes_of self.now key.now, key.now) (λ v seen. seen ≡ v) (option_copied result)) }
    {
        let hash = self.hash(key);
        self.shards[self.shard_index(hash)].value(now, hash, key)
    }

    /// Returns what `look` makes of the value that the key hits at `now`. It counts no use, and takes no memory.
    #[inline(always)]
    pub fn peek<T, F: FnOnce(&V) -> T>(&self, now: u64, key: &K, look: F) -> Option<T>
        requires callable { F.IsAlwaysCallable look }
        ensures { let hash = S.hash_of (core_of self.now).hash_builder (K.hash_input key.now) in
            IsSomeAnd (shard_at (core_of self.now) hash)
            (λ s. Peeks (meaning_of_core self.now) now s (hash, key.now) (FnOnceReturnsAt F.FnOnce look) result) }
    {
        let hash = self.hash(key);
        self.shards[self.shard_index(hash)].peek(now, hash, key, look)
    }

    /// Returns whether a `get` at `now` finds the key, and if so counts a use of its record. Takes no memory.
    ///
    /// # Errors
    /// F9 if the handle count would pass its limit; nothing has changed.
    pub fn touch(&mut self, now: u64, key: &K) -> Result<bool>
        ensures touches { let hash = S.hash_of (core_of self.old).hash_builder (K.hash_input key.now) in
            AtShard (λ s t. Touches (meaning_of_core self.old) now s (hash, key.now) result t)
            hash (core_of self.old) (core_of self.new) }
        ensures fetches { fetches_of self.new ≡ fetches_of self.old }
        ensures laws { CallLaws K.eq (hashes_of self.old) (λ _. 0) (core_of self.old) [] (core_of self.new) }
    {
        let hash = self.hash(key);
        let place = self.shard_index(hash);
        self.shards[place].touch(now, hash, key)
    }

    /// Removes the key's record, expired or not, and returns an entry of it and the record as it left (`Remove`).
    ///
    /// Allocates nothing.
    ///
    /// # Errors
    /// F9 if the handle count would pass its limit, F7 if a reference count is full; nothing has changed.
    pub fn remove(&mut self, key: &K) -> Result<Option<(CoreEntry<K, V, P>, Left<K, V, P>)>>
        ensures removes { let hash = S.hash_of (core_of self.old).hash_builder (K.hash_input key.now) in
            AtShard (λ s t. Removes (meaning_of_core self.old) s (hash, key.now) result t)
            hash (core_of self.old) (core_of self.new) }
        ensures fetches { fetches_of self.new ≡ fetches_of self.old }
        ensures laws { MatchResult result
            (λ out. CallLaws K.eq (hashes_of self.old) (λ _. 0) (core_of self.old)
            (option_to_list (option_map (λ o. (Remove, o.1)) out)) (core_of self.new))
            (λ _. CallLaws K.eq (hashes_of self.old) (λ _. 0) (core_of self.old) [] (core_of self.new)) }
    {
        let hash = self.hash(key);
        let place = self.shard_index(hash);
        let before = Load::of(&self.shards[place]);
        let removed = self.shards[place].remove(hash, key);
        let after = Load::of(&self.shards[place]);
        self.load.replace(before, after);
        removed
    }

    /// Returns one more entry of the same record, with the same source. It counts as a handle and not as a use.
    ///
    /// The core must own the entry. Allocates nothing.
    ///
    /// # Errors
    /// F9 if the handle count would pass its limit, F7 if a reference count is full; nothing has changed.
    pub fn clone_handle(&mut self, entry: &CoreEntry<K, V, P>) -> Result<CoreEntry<K, V, P>>
        requires owned { Owns (core_of self.old) entry.now }
        ensures clones { AtShard (λ s t. ClonesHandle s entry.now result t)
            entry.now.kept.hash (core_of self.old) (core_of self.new) }
        ensures fetches { fetches_of self.new ≡ fetches_of self.old }
        ensures laws { CallLaws K.eq (hashes_of self.old) (λ _. 0) (core_of self.old) [] (core_of self.new) }
    {
        let place = self.shard_index(entry.hash());
        self.shards[place].clone_handle(entry)
    }

    /// Returns how many handles the entry's record has. The core must own the entry. Takes no memory.
    pub fn refs(&self, entry: &CoreEntry<K, V, P>) -> usize
        requires owned { Owns (core_of self.now) entry.now }
        ensures { result ≡ refs_in (core_of self.now) entry.now }
    {
        self.shards[self.shard_index(entry.hash())].refs(entry)
    }

    /// Returns whether the entry's record is no longer resident: it left, or was replaced. The core must own the
    /// entry. Takes no memory.
    pub fn is_outdated(&self, entry: &CoreEntry<K, V, P>) -> bool
        requires owned { Owns (core_of self.now) entry.now }
        ensures { IsTrue result ↔ IsOutdatedIn (core_of self.now) entry.now }
    {
        self.shards[self.shard_index(entry.hash())].is_outdated(entry)
    }

    /// Gives an entry back and returns what left with it. An entry that the core doesn't own is discarded, and
    /// nothing changes. Takes no memory.
    #[inline(always)]
    pub fn drop_entry(&mut self, entry: CoreEntry<K, V, P>) -> Option<Leave<K, V, P>>
        ensures owned { Owns (core_of self.old) entry → AtShard (λ s t. GivesBack (meaning_of_core self.old) s entry.id result t)
            entry.kept.hash (core_of self.old) (core_of self.new) }
        ensures foreign { (Owns (core_of self.old) entry → ⊥) → (result ≡ None) × (core_of self.new ≡ core_of self.old) }
        ensures fetches { fetches_of self.new ≡ fetches_of self.old }
        ensures laws { CallLaws K.eq (hashes_of self.old) (one_of (core_of self.old) entry) (core_of self.old) (option_to_list result) (core_of self.new) }
    {
        match self.give_back(entry) {
            Ok(leave) => leave,
            Err(foreign) => {
                foreign.discard();
                None
            }
        }
    }
}
