//! Fetches of missing keys.

ghost use Rattle.std.specs.Prelude.{◌≡◌, ◌↔◌, ℕ, None, Some, IfOk, IfSome, IfNone, OnSome, IsSomeAnd, IsTrue, true};
ghost use Rattle.foyer_policy.specs.declared.types.Source.{Source as SourceOf};
ghost use Rattle.foyer_core.specs.Inflight.{IsFetchOrTake, IsOpen, after_nothing, asked};
ghost use Rattle.foyer_core.specs.Waited.{ending_of};
ghost use Rattle.foyer_core.specs.declared.outcome.Lookup.TheVariants.{Hit, Lead, Wait};

use super::Shard;
use crate::finder::Finder;
use crate::inflight::{Enqueue, FetchOrTake};
use crate::outcome::{Ended, Further, Lookup};
use crate::piece::Piece;
use crate::record::Data;
use foyer_policy::{Error, Eviction, Key, Properties, Reason, Result, Source, Value};
use std::alloc::Global;

impl<E: Eviction, K: Key, V: Value, P: Properties, N: Drop, R: Drop, I: Finder<K>> Shard<
    E,
    K,
    V,
    P,
    N,
    R,
    I,
> {
    ghost use Rattle.foyer_core.specs.Shards.{state_of, meaning_of, opens_of};
    ghost use Rattle.foyer_core.specs.State.{at_moment, hit};
    ghost use Rattle.foyer_core.specs.Fetching.{Apart, CompletesBy, EndsBy, LooksUp};
    ghost use Rattle.foyer_core.specs.PieceEnds.{CompletesPieceBy, comes_under};

    /// Returns an entry as `get` does at `now`, or a token to wait with if the key is missing.
    ///
    /// If the key has no open fetch, one is opened and the caller leads it. Otherwise the caller waits for that one,
    /// and its builder is kept if the fetch has none. A clone of the key must equal it.
    ///
    /// # Errors
    /// On a hit, those of `get`. On a miss, F10 if no number is left and F7 if memory runs out. Nothing has changed.
    pub fn get_or_enqueue(
        &mut self,
        now: u64,
        hash: u64,
        key: &K,
        required: Option<R>,
        waiter: N,
    ) -> Result<Lookup<K, V, P, R>>
        requires clones { (k c : K) → K.is_clone k c → K.eq c k ≡ true }
        ensures looked_up { LooksUp (meaning_of self.old) now (state_of self.old) (opens_of self.old)
            (hash, key.now) waiter required result (state_of self.new) (opens_of self.new) }
        ensures asked { IfOk result (elim [ Hit e ↦ K.eq key.now e.kept.key ≡ true | Lead _ _ _ ↦ Unit {0} | Wait _ ↦ Unit {0} ]) }
    {
        match self.get(now, hash, key) {
            Ok(None) => self.enqueue(now, hash, key, required, waiter),
            Ok(Some(entry)) => Ok(Lookup::Hit(entry)),
            Err(error) => Err(error),
        }
    }

    // Enters a caller that asks for a missing key.
    fn enqueue(
        &mut self,
        now: u64,
        hash: u64,
        key: &K,
        required: Option<R>,
        waiter: N,
    ) -> Result<Lookup<K, V, P, R>>
        requires clones { (k c : K) → K.is_clone k c → K.eq c k ≡ true }
        requires missing { hit (meaning_of self.old) now (state_of self.old) (hash, key.now) ≡ None }
        ensures looked_up { LooksUp (meaning_of self.old) now (state_of self.old) (opens_of self.old)
            (hash, key.now) waiter required result (state_of self.new) (opens_of self.new) }
        ensures missed { IfOk result (elim [ Hit _ ↦ ⊥ | Lead _ _ _ ↦ Unit {0} | Wait _ ↦ Unit {0} ]) }
    {
        let ids = self.store.ids();
        if self.inflights.lacks(hash, key, ids) {
            return Err(Error::new(Reason::Ids));
        }
        let Ok(own) = key.clone() else {
            return Err(Error::new(Reason::NoMemory));
        };
        match self
            .inflights
            .enqueue(now, hash, own, required, waiter, ids)
        {
            Ok(
                Enqueue::Lead {
                    id,
                    token,
                    required_fetch_builder,
                },
            ) => Ok(Lookup::Lead {
                fetch: id,
                token,
                required: required_fetch_builder,
            }),
            Ok(Enqueue::Wait { token }) => Ok(Lookup::Wait { token }),
            Err(error) => Err(error),
        }
    }

    /// Returns whether this fetch of a key is open. Takes no memory.
    ///
    /// A key has at most one open fetch. If it has one and is resident, its record was expired when the fetch was
    /// opened.
    pub fn is_open(&self, hash: u64, key: &K, fetch: u64) -> bool
        ensures is_open { IsTrue result ↔ IsOpen (opens_of self.now) (hash, key.now) fetch }
        ensures equal_keys { (other : K) → IsTrue (K.eq key.now other)
            → (opens_of self.now).by_key (hash, other) ≡ (opens_of self.now).by_key (hash, key.now) }
        ensures apart { Apart P.expiry_of (state_of self.now) (opens_of self.now) }
    {
        self.inflights.is_open(hash, key, fetch)
    }

    /// Takes the builder that an open fetch keeps, to go on with after the fetch found nothing. If it keeps none,
    /// closes the fetch and returns its waiters.
    ///
    /// Returns `None` if the fetch isn't open. Takes no memory.
    pub fn fetch_or_take(&mut self, hash: u64, key: &K, fetch: u64) -> Option<FetchOrTake<R, N>>
        ensures answer { IfSome result (λ answer. IsSomeAnd (asked (Some fetch) ((opens_of self.old).by_key (hash, key.now))) (λ o. IsFetchOrTake o answer)) }
        ensures none { IfNone result (asked (Some fetch) ((opens_of self.old).by_key (hash, key.now)) ≡ None) }
        ensures opens { OnSome result (opens_of self.new ≡ after_nothing K.eq (opens_of self.old) (hash, key.now)) }
        ensures same { IfNone result (opens_of self.new ≡ opens_of self.old) }
        ensures state { state_of self.new ≡ state_of self.old }
    {
        self.inflights.fetch_or_take(hash, key, fetch)
    }

    /// Ends an open fetch of a key with an error, which its waiters get. If the fetch isn't open, nothing changes.
    /// Takes no memory.
    pub fn end(
        &mut self,
        alloc: Global,
        hash: u64,
        key: &K,
        fetch: u64,
        error: Error,
    ) -> Ended<K, V, P, N>
        ensures ended { EndsBy (asked (Some fetch) ((opens_of self.old).by_key (hash, key.now))) K.eq
            (hash, key.now) error (opens_of self.old) (ending_of result) (opens_of self.new) }
        ensures state { state_of self.new ≡ state_of self.old }
    {
        match self.inflights.take(hash, key, Some(fetch)) {
            Some(waiters) => Ended::found(waiters, Err(error), Vec::new(alloc)),
            None => Ended::lost(alloc),
        }
    }

    /// Ends an open fetch of a key with a new record of it, which is inserted at `now` as by `emplace`, with a handle
    /// for each waiter and none beside.
    ///
    /// If the insert fails, the waiters get its error, and the fetch is closed all the same. If the fetch isn't open,
    /// nothing changes. A clone of the key must equal it.
    pub fn complete(
        &mut self,
        alloc: Global,
        now: u64,
        fetch: u64,
        kept: Data<K, V, P>,
        source: Source,
    ) -> Ended<K, V, P, N>
        requires clones { (k c : K) → K.is_clone k c → K.eq c k ≡ true }
        ensures completed { let key : ℕ × K = (kept.hash, kept.key) in
            CompletesBy (at_moment now (meaning_of self.old)) (asked (Some fetch) ((opens_of self.old).by_key key)) source
            (state_of self.old) (opens_of self.old) key kept (ending_of result) (state_of self.new)
            (opens_of self.new) }
    {
        let Some(waiters) = self.inflights.take(kept.hash, &kept.key, Some(fetch)) else {
            return Ended::lost(alloc);
        };
        let further = Further {
            count: waiters.len() - 1,
            room: 1,
        };
        let mut leaves = Vec::new(alloc);
        let came = self
            .store
            .emplace_data(alloc, now, kept, source, further, &mut leaves);
        Ended::found(waiters, came, leaves)
    }

    /// Ends an open fetch of a key with a piece, whose key has the hash `own`, as `complete` does.
    ///
    /// `is_home` says whether this is the shard of `own`. If it is, and the piece's record has this hash and an equal
    /// key, it is inserted as by `emplace_piece`, with this weight if the shard doesn't know the piece. Otherwise the
    /// waiters get F12.
    pub fn complete_piece(
        &mut self,
        alloc: Global,
        now: u64,
        hash: u64,
        key: &K,
        fetch: u64,
        piece: Piece<K, V, P>,
        own: u64,
        is_home: bool,
        weight: usize,
    ) -> Ended<K, V, P, N>
        requires clones { (k c : K) → K.is_clone k c → K.eq c k ≡ true }
        ensures completed { CompletesPieceBy (at_moment now (meaning_of self.old))
            (asked (Some fetch) ((opens_of self.old).by_key (hash, key.now)))
            (λ w. w ≡ weight) own piece is_home (state_of self.old) (opens_of self.old) (hash, key.now) (ending_of result)
            (state_of self.new) (opens_of self.new) }
    {
        let Some(waiters) = self.inflights.take(hash, key, Some(fetch)) else {
            return Ended::lost(alloc);
        };
        let mut leaves = Vec::new(alloc);
        if !self.is_under(own, &piece, is_home, hash, key) {
            let wrong = Error::new(Reason::WrongKey);
            return Ended::found(waiters, Err(wrong), leaves);
        }
        let further = Further {
            count: waiters.len() - 1,
            room: 1,
        };
        let came = self
            .store
            .emplace_piece(alloc, now, piece, own, weight, further, &mut leaves);
        Ended::found(waiters, came, leaves)
    }

    // Whether a piece, whose key has the hash `own`, is inserted under this hash and a key that equals this one.
    // `is_home` says whether this is the shard of `own`.
    fn is_under(&self, own: u64, piece: &Piece<K, V, P>, is_home: bool, hash: u64, key: &K) -> bool
        ensures { result ≡ comes_under (meaning_of self.now) (state_of self.now) own piece.now is_home (hash, key.now) }
    {
        if !is_home {
            return false;
        }
        let (under, other) = self.store.key_under(own, piece);
        hash == under && *key == *other
    }

    /// Ends an open fetch of a key with a value whose key couldn't be cloned: the waiters get the error that an
    /// insert would have, and F7 if it would have none.
    pub fn refuse_value(
        &mut self,
        alloc: Global,
        hash: u64,
        key: &K,
        fetch: u64,
        properties: &P,
        weight: usize,
    ) -> Ended<K, V, P, N>
        ensures completed { (now : ℕ) (source : SourceOf) (value : V)
            → CompletesBy (at_moment now (meaning_of self.old)) (asked (Some fetch) ((opens_of self.old).by_key (hash, key.now)))
            source (state_of self.old) (opens_of self.old) (hash, key.now)
            (record { key = key.now; value = value; properties = properties.now; hash = hash; weight = weight })
            (ending_of result) (state_of self.new) (opens_of self.new) }
        ensures state { state_of self.new ≡ state_of self.old }
    {
        let Some(waiters) = self.inflights.take(hash, key, Some(fetch)) else {
            return Ended::lost(alloc);
        };
        let further = waiters.len() - 1;
        let error = self
            .store
            .out_of_memory(hash, key, properties, weight, further);
        Ended::found(waiters, Err(error), Vec::new(alloc))
    }
}
