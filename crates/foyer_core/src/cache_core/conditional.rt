//! Inserts that depend on what the key has.

ghost use Rattle.std.specs.Prelude.{◌≡◌, ◌+◌, ◌↔◌, [], IsSomeAnd, IsTrue, MatchResult, false, true, length};
ghost use Rattle.foyer_policy.specs.declared.types.Source.TheVariants.{Outer};
ghost use Rattle.foyer_core.specs.Inflight.{waiters_of};
ghost use Rattle.foyer_core.specs.State.{at_moment, coming_in};

use super::CacheCore;
use crate::entry::Leave;
use crate::filter::Filter;
use crate::finder::Finder;
use crate::outcome::ReplaceResult;
use crate::weighter::Weighter;
use foyer_policy::{Eviction, HashBuilder, Key, Properties, Result, Value};

impl<
    E: Eviction,
    K: Key,
    V: Value,
    P: Properties,
    S: HashBuilder,
    W: Weighter<K, V>,
    A: Filter<K, V>,
    N: Drop,
    R: Drop,
    I: Finder<K>,
> CacheCore<E, K, V, P, S, W, A, N, R, I> {
    ghost use Rattle.foyer_core.specs.Bulk.{GoesOn};
    ghost use Rattle.foyer_core.specs.CallLaws.{AnswersIn, CallLaws, InsertLaws};
    ghost use Rattle.foyer_core.specs.Conditional.{Fits, IfChanged, IfInserting, IsCurrentIn};
    ghost use Rattle.foyer_core.specs.Core.{AtShard, InsertsWeighed, shard_at};
    ghost use Rattle.foyer_core.specs.CoreFetches.{open_in};
    ghost use Rattle.foyer_core.specs.Cores.{core_of, fetches_of, hashes_of, meaning_of_core};
    ghost use Rattle.foyer_core.specs.Holds.{Holds};
    ghost use Rattle.foyer_core.specs.Onto.{insertion_onto};

    /// Returns whether the key still has what was seen: the record of this id, expired or not, or, for `None`, no
    /// record that a `get` at `now` finds. Takes no memory.
    #[inline(always)]
    pub fn is_current(&self, now: u64, key: &K, seen: Option<u64>) -> bool
        ensures { let hash = S.hash_of (core_of self.now).hash_builder (K.hash_input key.now) in
            IsCurrentIn (meaning_of_core self.now) now (core_of self.now) (hash, key.now) seen result }
    {
        let hash = self.hash(key);
        self.shards[self.shard_index(hash)].is_current(now, hash, key, seen)
    }

    /// Inserts a record as `insert_with_properties_onto` does, if the key still has what was seen, as `is_current`
    /// says. If not, nothing changes but that the key's record is held, as by `hold`.
    ///
    /// # Errors
    /// Those of the insert, or of the `hold`.
    pub fn replace_if(
        &mut self,
        now: u64,
        seen: Option<u64>,
        key: K,
        value: V,
        properties: P,
        leaves: &mut Vec<Leave<K, V, P>>,
    ) -> Result<ReplaceResult<K, V, P, N>>
        requires clones { (k c : K) → K.is_clone k c → K.eq c k ≡ true }
        ensures inserted { IsCurrentIn (meaning_of_core self.old) now (core_of self.old) (hashes_of self.old key, key) seen true
            → IfInserting result (λ made. GoesOn leaves.old.items leaves.new.items (λ ls.
            InsertsWeighed (at_moment now (meaning_of_core self.old)) Outer (W.weighs (core_of self.old).weighter key value) (A.admits (core_of self.old).filter key value)
            (hashes_of self.old key) key value (λ admitted. coming_in P.location_of P.with_phantom_of admitted properties)
            (1 + length (waiters_of (open_in (fetches_of self.old) (hashes_of self.old key, key)))) (insertion_onto made ls) (core_of self.old) (core_of self.new))) }
        ensures fetches { IsCurrentIn (meaning_of_core self.old) now (core_of self.old) (hashes_of self.old key, key) seen true
            → IfInserting result (λ made. MatchResult made
            (λ m. AnswersIn K.eq (hashes_of self.old key) m.entry m.answers (fetches_of self.old) (fetches_of self.new))
            (λ _. fetches_of self.new ≡ fetches_of self.old)) }
        ensures laws { IsCurrentIn (meaning_of_core self.old) now (core_of self.old) (hashes_of self.old key, key) seen true
            → IfInserting result (λ made. GoesOn leaves.old.items leaves.new.items (λ ls.
            InsertLaws (meaning_of_core self.old) (hashes_of self.old) (hashes_of self.new) (hashes_of self.old key)
            (core_of self.old) (insertion_onto made ls) (core_of self.new))) }
        ensures changed { IsCurrentIn (meaning_of_core self.old) now (core_of self.old) (hashes_of self.old key, key) seen false
            → IfChanged result (λ hold. AtShard (λ s t. Holds (meaning_of_core self.old) now s (hashes_of self.old key, key) hold t)
            (hashes_of self.old key) (core_of self.old) (core_of self.new)) }
        ensures rest { IsCurrentIn (meaning_of_core self.old) now (core_of self.old) (hashes_of self.old key, key) seen false
            → (leaves.new.items ≡ leaves.old.items) × (fetches_of self.new ≡ fetches_of self.old)
            × CallLaws K.eq (hashes_of self.old) (λ _. 0) (core_of self.old) [] (core_of self.new) }
    {
        if !self.is_current(now, &key, seen) {
            return match self.hold(now, &key) {
                Ok(hold) => Ok(ReplaceResult::Changed(hold)),
                Err(error) => Err(error),
            };
        }
        match self.insert_with_properties_onto(now, key, value, properties, leaves) {
            Ok(made) => Ok(ReplaceResult::Inserted(made)),
            Err(error) => Err(error),
        }
    }

    /// Returns whether a record of this key and weight fits its shard's capacity beside what is pinned of other keys.
    /// If not, an insert of it would evict all else, and leave the shard's usage above its capacity. Takes no memory.
    pub fn would_fit(&self, key: &K, weight: usize) -> bool
        ensures { let hash = S.hash_of (core_of self.now).hash_builder (K.hash_input key.now) in
            IsSomeAnd (shard_at (core_of self.now) hash)
            (λ s. IsTrue result ↔ Fits (meaning_of_core self.now) s (hash, key.now) weight) }
    {
        let hash = self.hash(key);
        self.shards[self.shard_index(hash)].would_fit(hash, key, weight)
    }
}
