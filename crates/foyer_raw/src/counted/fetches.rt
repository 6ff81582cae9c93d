//! Calls that begin and end fetches.

ghost use Rattle.std.specs.Prelude.{◌≡◌, ◌↔◌, ℕ, IfNone, IfOk, IfSome, IsSomeAnd, IsTrue, None, OnSome, Some, false, true};
ghost use Rattle.foyer_policy.specs.Moments.{is_expired};
ghost use Rattle.foyer_core.specs.Fetching.{CompletesBy, EndsBy, LooksUp};
ghost use Rattle.foyer_core.specs.Inflight.{IsFetchOrTake, IsOpen, after_nothing, asked};
ghost use Rattle.foyer_core.specs.PieceEnds.{CompletesPieceBy};
ghost use Rattle.foyer_core.specs.State.{at_moment};
ghost use Rattle.foyer_core.specs.Waited.{ending_of};
ghost use Rattle.foyer_core.specs.declared.outcome.Lookup.TheVariants.{Hit, Lead, Wait};
ghost use Rattle.foyer_raw.specs.Counts.{ask_counted, ending_counted};

use super::counts::{count_ask, count_ended};
use super::{At, CountedShard, Hashed};
use crate::ticket::{Answer, Notifier};
use foyer_core::{Data, Ended, FetchOrTake, Finder, Lookup, Piece};
use foyer_policy::{Error, Eviction, Key, Properties, Result, Source, Value};
use std::alloc::Global;

/// The end of a fetch.
pub type RawEnded<K, V, P> = Ended<K, V, P, Notifier<Answer<K, V, P>>>;

/// What is to be done if a fetch found nothing.
pub type Later<K, V, P, R> = FetchOrTake<R, Notifier<Answer<K, V, P>>>;

impl<E: Eviction, K: Key, V: Value, P: Properties, R: Drop, I: Finder<K>> CountedShard<
    E,
    K,
    V,
    P,
    R,
    I,
> {
    ghost use Rattle.foyer_core.specs.Shards.{state_of, meaning_of, opens_of};

    /// Returns an entry of what a `get` at a time finds, or else a token: for a new fetch, or for the one that is open. Counts
    /// a hit, or a miss and which of both.
    pub fn get_or_enqueue(
        &mut self,
        now: At,
        key: Hashed<'_, K>,
        required: Option<R>,
        waiter: Notifier<Answer<K, V, P>>,
    ) -> Result<Lookup<K, V, P, R>>
        requires clones { (k c : K) → K.is_clone k c → K.eq c k ≡ true }
        ensures looked_up { LooksUp (meaning_of self.old.shard) now.0 (state_of self.old.shard) (opens_of self.old.shard)
            key.entry waiter required result (state_of self.new.shard) (opens_of self.new.shard) }
        ensures asked { IfOk result (elim [ Hit e ↦ K.eq key.entry.1 e.kept.key ≡ true | Lead _ _ _ ↦ Unit {0} | Wait _ ↦ Unit {0} ]) }
        ensures live { IfOk result (elim [ Hit e ↦ is_expired now.0 (P.expiry_of e.kept.properties) ≡ false | Lead _ _ _ ↦ Unit {0} | Wait _ ↦ Unit {0} ]) }
        ensures counts { self.new.stats ≡ ask_counted result self.old.stats }
    {
        let look = self
            .shard
            .get_or_enqueue(now.0, key.hash, key.key, required, waiter);
        count_ask(&mut self.stats, &look);
        look
    }

    /// Returns whether this fetch of a key is open.
    pub fn is_open(&self, key: Hashed<'_, K>, fetch: u64) -> bool
        ensures { IsTrue result ↔ IsOpen (opens_of self.now.shard) key.entry fetch }
    {
        self.shard.is_open(key.hash, key.key, fetch)
    }

    /// Takes the builder that an open fetch keeps, or closes it and returns its waiters.
    pub fn fetch_or_take(&mut self, key: Hashed<'_, K>, fetch: u64) -> Option<Later<K, V, P, R>>
        ensures answer { IfSome result (λ answer. IsSomeAnd (asked (Some fetch) ((opens_of self.old.shard).by_key key.entry)) (λ o. IsFetchOrTake o answer)) }
        ensures none { IfNone result (asked (Some fetch) ((opens_of self.old.shard).by_key key.entry) ≡ None) }
        ensures opens { OnSome result (opens_of self.new.shard ≡ after_nothing K.eq (opens_of self.old.shard) key.entry) }
        ensures same { IfNone result (opens_of self.new.shard ≡ opens_of self.old.shard) }
        ensures state { state_of self.new.shard ≡ state_of self.old.shard }
        ensures counts { self.new.stats ≡ self.old.stats }
    {
        self.shard.fetch_or_take(key.hash, key.key, fetch)
    }

    /// Ends an open fetch of a key with an error. Nothing is counted.
    pub fn end(
        &mut self,
        alloc: Global,
        key: Hashed<'_, K>,
        fetch: u64,
        error: Error,
    ) -> RawEnded<K, V, P>
        ensures ended { EndsBy (asked (Some fetch) ((opens_of self.old.shard).by_key key.entry)) K.eq
            key.entry error (opens_of self.old.shard) (ending_of result) (opens_of self.new.shard) }
        ensures state { state_of self.new.shard ≡ state_of self.old.shard }
        ensures counts { self.new.stats ≡ self.old.stats }
    {
        self.shard.end(alloc, key.hash, key.key, fetch, error)
    }

    /// Ends an open fetch with a record of its key, which is inserted at a time.
    pub fn complete(
        &mut self,
        alloc: Global,
        now: At,
        fetch: u64,
        kept: Data<K, V, P>,
        source: Source,
    ) -> RawEnded<K, V, P>
        requires clones { (k c : K) → K.is_clone k c → K.eq c k ≡ true }
        ensures completed { let key : ℕ × K = (kept.hash, kept.key) in
            CompletesBy (at_moment now.0 (meaning_of self.old.shard)) (asked (Some fetch) ((opens_of self.old.shard).by_key key)) source
            (state_of self.old.shard) (opens_of self.old.shard) key kept (ending_of result) (state_of self.new.shard)
            (opens_of self.new.shard) }
        ensures counts { self.new.stats ≡ ending_counted P.phantom_of P.expiry_of now.0 (ending_of result) self.old.stats }
    {
        let ended = self.shard.complete(alloc, now.0, fetch, kept, source);
        count_ended(&mut self.stats, now.0, &ended);
        ended
    }

    /// Ends an open fetch of a key with a piece, whose key has the hash `own`, which is inserted at a time. `is_home` says
    /// whether this is the shard of `own`.
    pub fn complete_piece(
        &mut self,
        alloc: Global,
        now: At,
        key: Hashed<'_, K>,
        fetch: u64,
        piece: Piece<K, V, P>,
        own: u64,
        is_home: bool,
        weight: usize,
    ) -> RawEnded<K, V, P>
        requires clones { (k c : K) → K.is_clone k c → K.eq c k ≡ true }
        ensures completed { CompletesPieceBy (at_moment now.0 (meaning_of self.old.shard))
            (asked (Some fetch) ((opens_of self.old.shard).by_key key.entry))
            (λ w. w ≡ weight) own piece is_home (state_of self.old.shard) (opens_of self.old.shard) key.entry (ending_of result)
            (state_of self.new.shard) (opens_of self.new.shard) }
        ensures counts { self.new.stats ≡ ending_counted P.phantom_of P.expiry_of now.0 (ending_of result) self.old.stats }
    {
        let ended = self.shard.complete_piece(
            alloc, now.0, key.hash, key.key, fetch, piece, own, is_home, weight,
        );
        count_ended(&mut self.stats, now.0, &ended);
        ended
    }
}
