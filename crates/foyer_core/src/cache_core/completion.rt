//! Fetches that end with a record of their key.

ghost use Rattle.std.specs.Prelude.{◌≡◌, ℕ, Some, true};
ghost use Rattle.foyer_policy.specs.declared.types.Source.{Source as SourceOf};
ghost use Rattle.foyer_core.specs.Inflight.{OpenFetch, asked};
ghost use Rattle.foyer_core.specs.State.{at_moment, coming_in};
ghost use Rattle.foyer_core.specs.Waited.{ending_of};

use super::CacheCore;
use super::load::Load;
use crate::filter::Filter;
use crate::finder::Finder;
use crate::outcome::{Ended, FetchTarget};
use crate::piece::Piece;
use crate::record::Data;
use crate::weighter::Weighter;
use foyer_policy::{Eviction, HashBuilder, Key, Properties, Source, Value};

impl<
    E: Eviction,
    K: Key,
    V: Value,
    P: Properties,
    S: HashBuilder,
    W: Weighter<K, V>,
    A: Filter<K, V>,
    N: Drop,
    R: Drop,
    I: Finder<K>,
> CacheCore<E, K, V, P, S, W, A, N, R, I> {
    ghost use Rattle.foyer_core.specs.Core.{shard_at};
    ghost use Rattle.foyer_core.specs.CoreFetches.{AtOpen, Completed, PieceCompletes, ValueCompletes, is_of, open_in};
    ghost use Rattle.foyer_core.specs.Cores.{core_of, fetches_of, hashes_of, meaning_of_core};
    ghost use Rattle.foyer_core.specs.FetchLaws.{BoundsTarget, FindsTarget, IsToldByEnd};
    ghost use Rattle.foyer_core.specs.Fetching.{CompletesBy};
    ghost use Rattle.foyer_core.specs.Laws.{HandlesStay};

    /// Ends an open fetch of a key with a record of it: inserts that record at `now` and returns an entry for each
    /// waiter, and what left.
    ///
    /// A value is inserted as by `insert_with_properties`, with this source. A piece is inserted as by
    /// `insert_piece`, if its record has this key; otherwise the waiters get F12. If the insert fails, the waiters
    /// get its error, the fetch is closed all the same, and after F7 the evictions made so far stand. A clone of the
    /// key must equal it.
    ///
    /// If the fetch isn't open, nothing changes, and neither the weighter nor the filter is asked.
    pub fn complete(
        &mut self,
        now: u64,
        key: &K,
        fetch: u64,
        target: FetchTarget<K, V, P>,
        source: Source,
    ) -> Ended<K, V, P, N>
        requires clones { (k c : K) → K.is_clone k c → K.eq c k ≡ true }
        ensures completed { let k : ℕ × K = (hashes_of self.old key.now, key.now) in
            Completed (at_moment now (meaning_of_core self.old)) (record {
              hash = hashes_of self.old;
              weighs = W.weighs (core_of self.old).weighter;
              admits = A.admits (core_of self.old).filter;
              properties = λ p admitted. coming_in P.location_of P.with_phantom_of admitted p;
            }) source target k (asked (Some fetch) (open_in (fetches_of self.old) k)) (ending_of result)
            (core_of self.old) (fetches_of self.old) (core_of self.new) (fetches_of self.new) }
        ensures found { FindsTarget (meaning_of_core self.new) (hashes_of self.new) P.location_of
            (A.admits (core_of self.old).filter) target key.now (ending_of result).outcome (core_of self.new) }
        ensures bounded { BoundsTarget (meaning_of_core self.old) P.location_of
            (A.admits (core_of self.old).filter) target (hashes_of self.old key.now) key.now
            (ending_of result).outcome
            (core_of self.old) (core_of self.new) }
        ensures stay { HandlesStay (λ _. 0) (core_of self.old) (core_of self.new) }
        ensures told { IsToldByEnd K.eq (hashes_of self.old) P.phantom_of (core_of self.old) (ending_of result).leaves
            (ending_of result).outcome (core_of self.new) }
    {
        if !self.is_open(key, fetch) {
            return Ended::lost(self.alloc);
        }
        match target {
            FetchTarget::Entry { value, properties } => {
                self.complete_value(now, key, fetch, value, properties, source)
            }
            FetchTarget::Piece(piece) => self.complete_piece(now, key, fetch, piece),
        }
    }

    // Ends an open fetch with a value.
    fn complete_value(
        &mut self,
        now: u64,
        key: &K,
        fetch: u64,
        value: V,
        properties: P,
        source: Source,
    ) -> Ended<K, V, P, N>
        requires clones { (k c : K) → K.is_clone k c → K.eq c k ≡ true }
        ensures completed { let k : ℕ × K = (hashes_of self.old key.now, key.now) in
            (o : OpenFetch N R) → asked (Some fetch) (open_in (fetches_of self.old) k) ≡ Some o
            → ValueCompletes (at_moment now (meaning_of_core self.old)) source (W.weighs (core_of self.old).weighter key.now value)
            (A.admits (core_of self.old).filter key.now value) k value
            (λ admitted. coming_in P.location_of P.with_phantom_of admitted properties) o (ending_of result)
            (core_of self.old) (fetches_of self.old) (core_of self.new) (fetches_of self.new) }
    {
        let hash = self.hash(key);
        let (weight, properties) = self.rules.judge(key, &value, properties);
        let Ok(own) = key.clone() else {
            return self.refuse_value(hash, key, fetch, &properties, weight);
        };
        let kept = Data {
            key: own,
            value,
            properties,
            hash,
            weight,
        };
        let place = self.shard_index(hash);
        let before = Load::of(&self.shards[place]);
        let ended = self.shards[place].complete(self.alloc, now, fetch, kept, source);
        let after = Load::of(&self.shards[place]);
        self.load.replace(before, after);
        ended
    }

    // Ends an open fetch with a value whose key couldn't be cloned.
    fn refuse_value(
        &mut self,
        hash: u64,
        key: &K,
        fetch: u64,
        properties: &P,
        weight: usize,
    ) -> Ended<K, V, P, N>
        ensures completed { let k : ℕ × K = (hash, key.now) in (now : ℕ) (source : SourceOf) (value : V) →
            AtOpen (λ s f t g. CompletesBy (at_moment now (meaning_of_core self.old)) (asked (Some fetch) (f.by_key k)) source s f k
            (record { key = key.now; value = value; properties = properties.now; hash = hash; weight = weight }) (ending_of result) t g)
            hash (core_of self.old) (fetches_of self.old) (core_of self.new) (fetches_of self.new) }
    {
        let place = self.shard_index(hash);
        self.shards[place].refuse_value(self.alloc, hash, key, fetch, properties, weight)
    }

    // Ends an open fetch with a piece.
    fn complete_piece(
        &mut self,
        now: u64,
        key: &K,
        fetch: u64,
        piece: Piece<K, V, P>,
    ) -> Ended<K, V, P, N>
        requires clones { (k c : K) → K.is_clone k c → K.eq c k ≡ true }
        ensures completed { let k : ℕ × K = (hashes_of self.old key.now, key.now) in let hash = hashes_of self.old piece.kept.key in
            (o : OpenFetch N R) → asked (Some fetch) (open_in (fetches_of self.old) k) ≡ Some o
            → PieceCompletes (at_moment now (meaning_of_core self.old)) (is_of (at_moment now (meaning_of_core self.old)) (core_of self.old) hash piece k (shard_at (core_of self.old) k.0))
            (W.weighs (core_of self.old).weighter piece.kept.key piece.kept.value) hash piece k o (ending_of result)
            (core_of self.old) (fetches_of self.old) (core_of self.new) (fetches_of self.new) }
    {
        let hash = self.hash(key);
        let own = self.hash(piece.key());
        let weight = self.weight_under(own, &piece, key);
        let place = self.shard_index(hash);
        let is_home = self.shard_index(own) == place;
        let before = Load::of(&self.shards[place]);
        let ended = self.shards[place].complete_piece(
            self.alloc, now, hash, key, fetch, piece, own, is_home, weight,
        );
        let after = Load::of(&self.shards[place]);
        self.load.replace(before, after);
        ended
    }
}
