//! Inserts that append what leaves to a list that the caller lends, so that its room can be used again.

ghost use Rattle.std.specs.Prelude.{◌≡◌, ◌+◌, true, false, IfOk, MatchResult, length};
ghost use Rattle.foyer_policy.specs.Properties.{is_phantom};
ghost use Rattle.foyer_policy.specs.declared.types.Source.TheVariants.{Outer};
ghost use Rattle.foyer_core.specs.Inflight.{waiters_of};
ghost use Rattle.foyer_core.specs.State.{IsAdmitted, MakesPlain, at_moment, coming_in};

use super::CacheCore;
use super::load::Load;
use crate::entry::Leave;
use crate::filter::Filter;
use crate::finder::Finder;
use crate::outcome::{InsertedOnto, PutOnto};
use crate::weighter::Weighter;
use foyer_policy::{Eviction, HashBuilder, Key, Properties, Result, Source, Value};

impl<
    E: Eviction,
    K: Key,
    V: Value,
    P: Properties,
    S: HashBuilder,
    W: Weighter<K, V>,
    A: Filter<K, V>,
    N: Drop,
    R: Drop,
    I: Finder<K>,
> CacheCore<E, K, V, P, S, W, A, N, R, I> {
    ghost use Rattle.foyer_core.specs.Bulk.{GoesOn};
    ghost use Rattle.foyer_core.specs.CoreFetches.{open_in};
    ghost use Rattle.foyer_core.specs.Core.{InsertsWeighed};
    ghost use Rattle.foyer_core.specs.Cores.{core_of, fetches_of, hashes_of, meaning_of_core};
    ghost use Rattle.foyer_core.specs.CallLaws.{AnswersIn, InsertLaws, IsNewEntry};
    ghost use Rattle.foyer_core.specs.NoEntry.{PutsWeighed, last_of};
    ghost use Rattle.foyer_core.specs.Onto.{insertion_onto};
    ghost use Rattle.foyer_core.specs.Values.{Held};

    /// Inserts a record as `insert_with_properties` does, and appends what leaves to a list, in order, also before an
    /// error.
    #[inline(always)]
    pub fn insert_with_properties_onto(
        &mut self,
        now: u64,
        key: K,
        value: V,
        properties: P,
        leaves: &mut Vec<Leave<K, V, P>>,
    ) -> Result<InsertedOnto<K, V, P, N>>
        requires clones { (k c : K) → K.is_clone k c → K.eq c k ≡ true }
        ensures inserted { GoesOn leaves.old.items leaves.new.items (λ ls.
            InsertsWeighed (at_moment now (meaning_of_core self.old)) Outer (W.weighs (core_of self.old).weighter key value) (A.admits (core_of self.old).filter key value)
            (hashes_of self.old key) key value (λ admitted. coming_in P.location_of P.with_phantom_of admitted properties)
            (1 + length (waiters_of (open_in (fetches_of self.old) (hashes_of self.old key, key)))) (insertion_onto result ls) (core_of self.old) (core_of self.new)) }
        ensures given { IfOk result (λ made. IsNewEntry (core_of self.old) (hashes_of self.old key) key value made.entry) }
        ensures fetches { MatchResult result
            (λ made. AnswersIn K.eq (hashes_of self.old key) made.entry made.answers (fetches_of self.old) (fetches_of self.new))
            (λ _. fetches_of self.new ≡ fetches_of self.old) }
        ensures plain { MakesPlain P.phantom_of P.location_of properties → IsAdmitted (A.admits (core_of self.old).filter key value)
            → IfOk result (λ made. is_phantom (P.phantom_of made.entry.kept.properties) ≡ false) }
        ensures laws { GoesOn leaves.old.items leaves.new.items (λ ls.
            InsertLaws (meaning_of_core self.old) (hashes_of self.old) (hashes_of self.new) (hashes_of self.old key)
            (core_of self.old) (insertion_onto result ls) (core_of self.new)) }
    {
        let hash = self.hash(&key);
        let kept = self.rules.data(hash, key, value, properties);
        let place = self.shard_index(hash);
        let before = Load::of(&self.shards[place]);
        let emplaced = self.shards[place].emplace(self.alloc, now, kept, Source::Outer, leaves);
        let after = Load::of(&self.shards[place]);
        self.load.replace(before, after);
        emplaced
    }

    /// Inserts a record as `insert_with_properties_onto` does, of which no entry is wanted: as one step, that entry is
    /// given back. None is made if no fetch is open in the record's shard.
    ///
    /// # Errors
    /// Those of `insert_with_properties`.
    #[inline(always)]
    pub fn put_onto(
        &mut self,
        now: u64,
        key: K,
        value: V,
        properties: P,
        leaves: &mut Vec<Leave<K, V, P>>,
    ) -> Result<PutOnto<K, V, P, N>>
        requires clones { (k c : K) → K.is_clone k c → K.eq c k ≡ true }
        ensures puts { GoesOn leaves.old.items leaves.new.items (λ ls.
            PutsWeighed (meaning_of_core self.old) now (W.weighs (core_of self.old).weighter key value) (A.admits (core_of self.old).filter key value)
            (hashes_of self.old key) key value (λ admitted. coming_in P.location_of P.with_phantom_of admitted properties)
            (1 + length (waiters_of (open_in (fetches_of self.old) (hashes_of self.old key, key)))) (last_of result) ls (core_of self.old) (core_of self.new)) }
        ensures fetches { MatchResult result
            (λ put. (entry : Held K V P) × IsNewEntry (core_of self.old) (hashes_of self.old key) key value entry
            × AnswersIn K.eq (hashes_of self.old key) entry put.answers (fetches_of self.old) (fetches_of self.new))
            (λ _. fetches_of self.new ≡ fetches_of self.old) }
    {
        let hash = self.hash(&key);
        let kept = self.rules.data(hash, key, value, properties);
        let place = self.shard_index(hash);
        let before = Load::of(&self.shards[place]);
        let put = self.shards[place].put_onto(self.alloc, now, kept, leaves);
        let after = Load::of(&self.shards[place]);
        self.load.replace(before, after);
        put
    }
}
