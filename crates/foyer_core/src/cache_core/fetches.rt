//! Fetches of missing keys.

ghost use Rattle.std.specs.Prelude.{◌≡◌, ◌↔◌, ℕ, [], None, Some, IfSome, IfNone, IfOk, IfErr, OnSome, IsSomeAnd, IsTrue, true};
ghost use Rattle.foyer_policy.specs.declared.error.Reason.TheVariants.{Fetch, TaskCancelled};
ghost use Rattle.foyer_core.specs.Inflight.{IsFetchOrTake, after_nothing, asked};
ghost use Rattle.foyer_core.specs.Waited.{ending_of};

use super::CacheCore;
use crate::filter::Filter;
use crate::finder::Finder;
use crate::inflight::FetchOrTake;
use crate::outcome::{Ended, Lookup};
use crate::weighter::Weighter;
use foyer_policy::{Error, Eviction, Fault, HashBuilder, Key, Properties, Reason, Result, Value};
use std::alloc::Global;
use std::sync::Arc;

impl<
    E: Eviction,
    K: Key,
    V: Value,
    P: Properties,
    S: HashBuilder,
    W: Weighter<K, V>,
    A: Filter<K, V>,
    N: Drop,
    R: Drop,
    I: Finder<K>,
> CacheCore<E, K, V, P, S, W, A, N, R, I> {
    ghost use Rattle.foyer_core.specs.CoreFetches.{AtOpen, EndsAt, IsOpenIn, WasExpired, at_hash, open_in};
    ghost use Rattle.foyer_core.specs.Cores.{core_of, fetches_of, hashes_of, meaning_of_core};
    ghost use Rattle.foyer_core.specs.Fetching.{LooksUp};
    ghost use Rattle.foyer_core.specs.CallLaws.{CallLaws};

    /// Returns an entry as `get` does at `now`, or a token to wait with if the key is missing.
    ///
    /// If the key has no open fetch, one is opened, and the caller leads it and gets its builder back. Otherwise the
    /// caller waits for that one, and its builder is kept if the fetch has none. A clone of the key must equal it.
    ///
    /// # Errors
    /// On a hit, those of `get`. On a miss, F10 if no number is left and F7 if memory runs out. Nothing has changed.
    pub fn get_or_enqueue(
        &mut self,
        now: u64,
        key: &K,
        required: Option<R>,
        waiter: N,
    ) -> Result<Lookup<K, V, P, R>>
        requires clones { (k c : K) → K.is_clone k c → K.eq c k ≡ true }
        ensures looked_up { let hash = S.hash_of (core_of self.old).hash_builder (K.hash_input key.now) in
            AtOpen (λ s f t g. LooksUp (meaning_of_core self.old) now s f (hash, key.now) waiter required result t g)
            hash (core_of self.old) (fetches_of self.old) (core_of self.new) (fetches_of self.new) }
        ensures laws { CallLaws K.eq (hashes_of self.old) (λ _. 0) (core_of self.old) [] (core_of self.new) }
    {
        let hash = self.hash(key);
        let place = self.shard_index(hash);
        self.shards[place].get_or_enqueue(now, hash, key, required, waiter)
    }

    /// Returns whether this fetch of a key is open. Takes no memory.
    ///
    /// A key has at most one open fetch. If it has one and is resident, its record was expired when the fetch was
    /// opened.
    pub fn is_open(&self, key: &K, fetch: u64) -> bool
        ensures is_open { let hash = S.hash_of (core_of self.now).hash_builder (K.hash_input key.now) in
            IsTrue result ↔ IsOpenIn (fetches_of self.now) (hash, key.now) fetch }
        ensures equal_keys { let hash = S.hash_of (core_of self.now).hash_builder (K.hash_input key.now) in
            (other : K) → IsTrue (K.eq key.now other) → open_in (fetches_of self.now) (hash, other) ≡ open_in (fetches_of self.now) (hash, key.now) }
        ensures apart { let hash = S.hash_of (core_of self.now).hash_builder (K.hash_input key.now) in
            WasExpired P.expiry_of (core_of self.now) (fetches_of self.now) (hash, key.now) }
    {
        let hash = self.hash(key);
        self.shards[self.shard_index(hash)].is_open(hash, key, fetch)
    }

    /// Ends an open fetch of a key with a fault, which its waiters get (F11). If the fetch isn't open, nothing
    /// changes. Takes no memory.
    pub fn fail(&mut self, key: &K, fetch: u64, fault: Arc<Fault, Global>) -> Ended<K, V, P, N>
        ensures ended { let hash = S.hash_of (core_of self.old).hash_builder (K.hash_input key.now) in
            EndsAt (hash, key.now) fetch K.eq (Fetch fault) (fetches_of self.old) (ending_of result) (fetches_of self.new) }
        ensures core { core_of self.new ≡ core_of self.old }
    {
        self.end(key, fetch, Error::new(Reason::Fetch(fault)))
    }

    /// Ends an open fetch of a key whose task was dropped; its waiters get F15. If the fetch isn't open, nothing
    /// changes. Takes no memory.
    pub fn cancel(&mut self, key: &K, fetch: u64) -> Ended<K, V, P, N>
        ensures ended { let hash = S.hash_of (core_of self.old).hash_builder (K.hash_input key.now) in
            EndsAt (hash, key.now) fetch K.eq TaskCancelled (fetches_of self.old) (ending_of result) (fetches_of self.new) }
        ensures core { core_of self.new ≡ core_of self.old }
    {
        self.end(key, fetch, Error::new(Reason::TaskCancelled))
    }

    // Ends an open fetch of a key with an error.
    pub(super) fn end(&mut self, key: &K, fetch: u64, error: Error) -> Ended<K, V, P, N>
        ensures ended { let hash = S.hash_of (core_of self.old).hash_builder (K.hash_input key.now) in
            EndsAt (hash, key.now) fetch K.eq error (fetches_of self.old) (ending_of result) (fetches_of self.new) }
        ensures core { core_of self.new ≡ core_of self.old }
    {
        let hash = self.hash(key);
        let place = self.shard_index(hash);
        self.shards[place].end(self.alloc, hash, key, fetch, error)
    }

    /// Takes the builder that an open fetch keeps, to go on with after the fetch found nothing. If it keeps none,
    /// closes the fetch and returns its waiters.
    ///
    /// Returns `None` if the fetch isn't open. Takes no memory.
    pub fn fetch_or_take(&mut self, key: &K, fetch: u64) -> Option<FetchOrTake<R, N>>
        ensures answer { let hash = S.hash_of (core_of self.old).hash_builder (K.hash_input key.now) in
            IfSome result (λ answer. IsSomeAnd (asked (Some fetch) (open_in (fetches_of self.old) (hash, key.now))) (λ o. IsFetchOrTake o answer)) }
        ensures none { let hash = S.hash_of (core_of self.old).hash_builder (K.hash_input key.now) in
            IfNone result (asked (Some fetch) (open_in (fetches_of self.old) (hash, key.now)) ≡ None) }
        ensures opens { let hash = S.hash_of (core_of self.old).hash_builder (K.hash_input key.now) in
            OnSome result (fetches_of self.new ≡ at_hash (λ f. after_nothing K.eq f (hash, key.now)) (fetches_of self.old) hash) }
        ensures same { IfNone result (fetches_of self.new ≡ fetches_of self.old) }
        ensures core { core_of self.new ≡ core_of self.old }
    {
        let hash = self.hash(key);
        let place = self.shard_index(hash);
        self.shards[place].fetch_or_take(hash, key, fetch)
    }
}
