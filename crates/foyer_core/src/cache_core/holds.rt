//! Handles by name, for callers that keep the core alive themselves.

ghost use Rattle.std.specs.Prelude.{◌≡◌, ◌↔◌, [], IfNone, IfOk, IfSome, IsOk, IsSomeAnd, MatchResult, OnErr, is_some, option_map, slice_get};
ghost use Rattle.std.specs.Option.{option_to_list};
ghost use Rattle.foyer_policy.specs.declared.types.Event.TheVariants.{Remove};
ghost use Rattle.foyer_core.specs.Pieces.{is_in};
ghost use Rattle.foyer_core.specs.Table.{rec_of};

use super::CacheCore;
use super::load::Load;
use crate::entry::{Leave, Left};
use crate::filter::Filter;
use crate::finder::Finder;
use crate::hold::{Hold, RecordRef};
use crate::outcome::Foreign;
use crate::weighter::Weighter;
use foyer_policy::{Eviction, HashBuilder, Key, Properties, Result, Value};

impl<
    E: Eviction,
    K: Key,
    V: Value,
    P: Properties,
    S: HashBuilder,
    W: Weighter<K, V>,
    A: Filter<K, V>,
    N: Drop,
    R: Drop,
    I: Finder<K>,
> CacheCore<E, K, V, P, S, W, A, N, R, I> {
    ghost use Rattle.foyer_core.specs.Bulk.{TakesRecordOut};
    ghost use Rattle.foyer_core.specs.CallLaws.{CallLaws};
    ghost use Rattle.foyer_core.specs.Core.{AtShard, shard_at, shard_of};
    ghost use Rattle.foyer_core.specs.Cores.{core_of, fetches_of, hashes_of, meaning_of_core};
    ghost use Rattle.foyer_core.specs.Holds.{HasNoResident, Holds, IsHeld, Names, NamesResident, one_named};
    ghost use Rattle.foyer_core.specs.NoEntry.{Reads};
    ghost use Rattle.foyer_core.specs.Steps.{GivesBack};

    /// Looks a key up as `get` does, and returns the name of the handle in place of an entry.
    ///
    /// The record's data is counted nowhere: read it by `held` while the core is there. Takes no memory.
    ///
    /// # Errors
    /// F9 if the handle count would pass its limit; nothing has changed.
    #[inline(always)]
    pub fn hold(&mut self, now: u64, key: &K) -> Result<Option<Hold>>
        ensures holds { let hash = S.hash_of (core_of self.old).hash_builder (K.hash_input key.now) in
            AtShard (λ s t. Holds (meaning_of_core self.old) now s (hash, key.now) result t)
            hash (core_of self.old) (core_of self.new) }
        ensures fetches { fetches_of self.new ≡ fetches_of self.old }
        ensures laws { CallLaws K.eq (hashes_of self.old) (λ _. 0) (core_of self.old) [] (core_of self.new) }
    {
        let hash = self.hash(key);
        let place = self.shard_index(hash);
        self.shards[place].hold(now, hash, key)
    }

    /// Counts a use of the record that the key hits at `now`, and returns its name, by which `held` finds it until the
    /// core is changed. No handle is counted. Takes no memory.
    ///
    /// # Errors
    /// F9 if the handle count would pass its limit; nothing has changed.
    #[inline(always)]
    pub fn touch_named(&mut self, now: u64, key: &K) -> Result<Option<Hold>>
        ensures reads { let hash = hashes_of self.old key.now in
            AtShard (λ s t. Reads (meaning_of_core self.old) now s (hash, key.now) (Names t hash) result t)
            hash (core_of self.old) (core_of self.new) }
        ensures fetches { fetches_of self.new ≡ fetches_of self.old }
    {
        let hash = self.hash(key);
        let place = self.shard_index(hash);
        self.shards[place].touch_named(now, hash, key)
    }

    /// Takes a handle back by its name, and returns what left with it.
    ///
    /// With its last handle a resident record is released, a phantom one leaves, and any other is forgotten. A name
    /// whose record has no handle in its shard is `Foreign`, and nothing has changed. Takes no memory.
    #[inline(always)]
    pub fn unhold(&mut self, hold: Hold) -> std::result::Result<Option<Leave<K, V, P>>, Foreign>
        ensures held { IsOk result ↔ IsHeld (core_of self.old) hold }
        ensures taken { IfOk result (λ leave.
            AtShard (λ s t. GivesBack (meaning_of_core self.old) s hold.id leave t)
            hold.hash (core_of self.old) (core_of self.new)) }
        ensures foreign { OnErr result (core_of self.new ≡ core_of self.old) }
        ensures fetches { fetches_of self.new ≡ fetches_of self.old }
        ensures laws { let given = one_named (core_of self.old) hold in MatchResult result
            (λ leave. CallLaws K.eq (hashes_of self.old) given (core_of self.old) (option_to_list leave) (core_of self.new))
            (λ _. CallLaws K.eq (hashes_of self.old) given (core_of self.old) [] (core_of self.new)) }
    {
        let place = self.shard_index(hold.hash);
        self.shards[place].unhold(hold)
    }

    /// Returns the record that is named, if its shard still has it: it has while there is a handle. Takes no memory.
    #[inline(always)]
    pub fn held(&self, hold: Hold) -> Option<RecordRef<'_, K, V, P>>
        ensures { IsSomeAnd (shard_at (core_of self.now) hold.hash) (λ s. option_map rec_of result ≡ s.records hold.id) }
    {
        self.shards[self.shard_index(hold.hash)].held(hold)
    }

    /// Removes the record that is named, if it is still its key's record, and returns it as it left (`Remove`).
    ///
    /// It makes no handle, and takes no memory.
    pub fn remove_this(&mut self, hold: Hold) -> Option<Left<K, V, P>>
        ensures resident { IsSomeAnd (shard_at (core_of self.old) hold.hash) (λ s. is_some result ≡ is_in (s.records hold.id)) }
        ensures removed { IfSome result (λ left. AtShard (λ s t. TakesRecordOut (meaning_of_core self.old) s hold.id left t)
            hold.hash (core_of self.old) (core_of self.new)) }
        ensures none { IfNone result (core_of self.new ≡ core_of self.old) }
        ensures fetches { fetches_of self.new ≡ fetches_of self.old }
        ensures laws { CallLaws K.eq (hashes_of self.old) (λ _. 0) (core_of self.old)
            (option_to_list (option_map (λ left. (Remove, left)) result)) (core_of self.new) }
    {
        let place = self.shard_index(hold.hash);
        let before = Load::of(&self.shards[place]);
        let removed = self.shards[place].remove_this(hold);
        let after = Load::of(&self.shards[place]);
        self.load.replace(before, after);
        removed
    }

    /// Names a resident record of one shard, if there is one: the first in a slot from `slot` on, or else the first of
    /// all. With the slot of the last name, removals of all records pass each slot a few times.
    ///
    /// It makes no handle, and takes no memory.
    pub fn resident_from(&self, shard: usize, slot: usize) -> Option<Hold>
        ensures some { IfSome result (λ hold. (shard_of (core_of self.now) hold.hash ≡ shard)
            × IsSomeAnd (shard_at (core_of self.now) hold.hash) (λ s. NamesResident s hold)) }
        ensures none { IfNone result (IfSome (slice_get (core_of self.now).shards shard) HasNoResident) }
    {
        match self.shards.get(shard) {
            Some(shard) => shard.resident_from(slot),
            None => None,
        }
    }
}
