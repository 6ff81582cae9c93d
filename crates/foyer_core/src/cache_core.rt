//! The sharded core of a cache.

ghost use Rattle.std.specs.Prelude.{◌≡◌, ◌↔◌, ℕ, ◌+◌, ◌<◌, true, false, All, [], Some, None, Ok, Err, IfOk, IfErr, IfSome, OnOk, OnErr, IsOk, IsTrue, MatchResult, is_some, length, map, vec_len};
ghost use Rattle.std.specs.Option.{option_to_list};
ghost use Rattle.foyer_policy.specs.declared.error.Reason.TheVariants.{NoMemory};
ghost use Rattle.foyer_policy.specs.Properties.{is_phantom};
ghost use Rattle.foyer_policy.specs.declared.types.Source.TheVariants.{Outer};
ghost use Rattle.foyer_core.specs.Core.{AreHashed, AreWhole, Belong};
ghost use Rattle.foyer_core.specs.Idle.{NoneOpen};
ghost use Rattle.foyer_core.specs.Inflight.{no_opens, waiters_of};
ghost use Rattle.foyer_core.specs.Shards.{state_of};
ghost use Rattle.foyer_core.specs.Waited.{insertion_of};
ghost use Rattle.foyer_core.specs.State.{IsAdmitted, MakesPlain, at_moment, coming_in};
ghost use Rattle.foyer_core.specs.Stored.{meaning};

use crate::config::RawCacheConfig;
use crate::entry::{CoreEntry, Leave};
use crate::filter::{AdmitAll, Filter};
use crate::finder::{Finder, TagFinder};
use crate::outcome::{Inserted, InsertedOnto, Refused};
use crate::properties::CacheProperties;
use crate::rules::Rules;
use crate::shard::Shard;
use crate::weighter::{UnitWeighter, Weighter};
use foyer_policy::{
    DefaultHasher, Error, Eviction, HashBuilder, Key, Properties, Reason, Result, Value,
};
use load::Load;
use std::alloc::Global;

mod answers;
mod bulk;
mod completion;
mod conditional;
mod entries;
mod fetches;
mod holds;
mod in_turn;
mod load;
mod onto;
mod pieces;
mod resident_pieces;
mod shards;

pub use shards::{shard_capacity, shard_of};

/// A cache for one thread: records found by their keys, in shards that evict for themselves.
///
/// `N` is the type of waiters, `R` of fetch builders, and `I` of each shard's index. Contracts see a `Core`: the
/// shards, the hash builder, the weighter and the filter.
#[derive(Drop)]
pub struct CacheCore<
    E: Eviction,
    K: Key,
    V: Value,
    P: Properties = CacheProperties,
    S: HashBuilder = DefaultHasher,
    W: Weighter<K, V> = UnitWeighter,
    A: Filter<K, V> = AdmitAll,
    N: Drop = (),
    R: Drop = (),
    I: Finder<K> = TagFinder<K>,
> {
    shards: Vec<Shard<E, K, V, P, N, R, I>>,
    // The sums over the shards, kept as these change.
    load: Load,
    capacity: usize,
    hash_builder: S,
    rules: Rules<W, A>,
    alloc: Global,
    ghost sharded: { 0 < vec_len shards },
    ghost whole: { AreWhole (meaning K.eq E.model P.hint_of P.phantom_of P.expiry_of) (λ k. S.hash_of hash_builder (K.hash_input k))
        load.usage load.entries (map state_of shards.items) },
}

impl<
    E: Eviction,
    K: Key,
    V: Value,
    P: Properties,
    S: HashBuilder,
    W: Weighter<K, V>,
    A: Filter<K, V>,
    N: Drop,
    R: Drop,
> CacheCore<E, K, V, P, S, W, A, N, R> {
    ghost use Rattle.foyer_core.specs.Core.{IsNewCore, core_fault};
    ghost use Rattle.foyer_core.specs.Cores.{core_of, fetches_of, meaning_of_core};

    /// Creates an empty core, whose shards share the capacity: each of n shards gets one n-th of it, rounded down,
    /// and the first shards get one more until nothing is left over.
    ///
    /// # Errors
    /// F1 if there are no shards, then the first fault of the policy's configuration (F2 to F6), then F7 if memory
    /// runs out.
    pub fn new(alloc: Global, config: RawCacheConfig<E::Config, S, W, A>) -> Result<Self>
        ensures made { IfOk result (λ core. IsNewCore (meaning_of_core core) config (core_of core)) }
        ensures fetches { IfOk result (λ core. All (λ f. f ≡ no_opens) (fetches_of core) × NoneOpen (fetches_of core)) }
        ensures accepted { OnOk result (core_fault E.model config ≡ None) }
        ensures refused { IfSome (core_fault E.model config) (λ reason. result ≡ Err reason) }
        ensures memory { IfErr result (λ e. core_fault E.model config ≡ None → e ≡ NoMemory) }
    {
        Self::with_index(alloc, config)
    }
}

impl<
    E: Eviction,
    K: Key,
    V: Value,
    P: Properties,
    S: HashBuilder,
    W: Weighter<K, V>,
    A: Filter<K, V>,
    N: Drop,
    R: Drop,
    I: Finder<K>,
> CacheCore<E, K, V, P, S, W, A, N, R, I> {
    ghost use Rattle.foyer_core.specs.CoreFetches.{open_in};
    ghost use Rattle.foyer_core.specs.Core.{AtShard, InsertsWeighed, IsNewCore, Owns, core_fault, entries_of_core, hit_in, usage_of_core};
    ghost use Rattle.foyer_core.specs.Cores.{core_of, fetches_of, hashes_of, meaning_of_core};
    ghost use Rattle.foyer_core.specs.CallLaws.{AnswersIn, CallLaws, InsertLaws, IsNewEntry};
    ghost use Rattle.foyer_core.specs.Laws.{one_of};
    ghost use Rattle.foyer_core.specs.Steps.{Gets, GivesBack};

    /// Creates an empty core as `new` does, with an index of the caller's choice.
    pub fn with_index(alloc: Global, config: RawCacheConfig<E::Config, S, W, A>) -> Result<Self>
        ensures made { IfOk result (λ core. IsNewCore (meaning_of_core core) config (core_of core)) }
        ensures fetches { IfOk result (λ core. All (λ f. f ≡ no_opens) (fetches_of core) × NoneOpen (fetches_of core)) }
        ensures accepted { OnOk result (core_fault E.model config ≡ None) }
        ensures refused { IfSome (core_fault E.model config) (λ reason. result ≡ Err reason) }
        ensures memory { IfErr result (λ e. core_fault E.model config ≡ None → e ≡ NoMemory) }
    {
        if config.shards == 0 {
            return Err(Error::new(Reason::NoShards));
        }
        let shards = Self::new_shards(alloc, &config)?;
        let load = Load::of_all(&shards);
        Ok(CacheCore {
            shards,
            load,
            capacity: config.capacity,
            hash_builder: config.hash_builder,
            rules: Rules {
                weighter: config.weighter,
                filter: config.filter,
            },
            alloc,
        })
    }

    /// Returns the capacity: the weight that the records may have together.
    pub fn capacity(&self) -> usize
        ensures { result ≡ (core_of self.now).capacity }
    {
        self.capacity
    }

    /// Returns the number of shards. A record is in the shard of its hash modulo this number.
    pub fn shards(&self) -> usize
        ensures many { result ≡ length (core_of self.now).shards }
        ensures belong { Belong (core_of self.now).shards }
    {
        self.shards.len()
    }

    /// Returns the sum of the weights of the resident records, expired ones included.
    pub fn usage(&self) -> u128
        ensures { result ≡ usage_of_core (meaning_of_core self.now) (core_of self.now) }
    {
        self.load.usage
    }

    /// Returns the number of resident records, expired ones included.
    pub fn entries(&self) -> u128
        ensures { result ≡ entries_of_core (meaning_of_core self.now) (core_of self.now) }
    {
        self.load.entries
    }

    /// Returns the hash of a key. Equal keys have equal hashes.
    #[inline(always)]
    pub fn hash(&self, key: &K) -> u64
        ensures hash { result ≡ S.hash_of (core_of self.now).hash_builder (K.hash_input key.now) }
        ensures equal_keys { (other : K) → IsTrue (K.eq key.now other)
            → S.hash_of (core_of self.now).hash_builder (K.hash_input other) ≡ result }
    {
        self.hash_builder.hash_one(key)
    }

    /// Returns the hash builder. Each record has the hash of its key.
    pub fn hash_builder(&self) -> &S
        ensures builder { result.now ≡ (core_of self.now).hash_builder }
        ensures hashed { AreHashed (hashes_of self.now) (core_of self.now).shards }
    {
        &self.hash_builder
    }

    /// Returns whether a `get` at `now` finds the key. It counts no use, and takes no memory.
    pub fn contains(&self, now: u64, key: &K) -> bool
        ensures { let hash = S.hash_of (core_of self.now).hash_builder (K.hash_input key.now) in
            result ≡ is_some (hit_in (meaning_of_core self.now) now (core_of self.now) (hash, key.now)) }
    {
        let hash = self.hash(key);
        self.shards[self.shard_index(hash)].contains(now, hash, key)
    }

    /// Returns an entry of the key's record, unless that is expired at `now`. This counts as a use.
    ///
    /// Allocates nothing.
    ///
    /// # Errors
    /// F9 if the handle count would pass its limit, F7 if a reference count is full; nothing has changed.
    #[inline(always)]
    pub fn get(&mut self, now: u64, key: &K) -> Result<Option<CoreEntry<K, V, P>>>
        ensures gets { let hash = S.hash_of (core_of self.old).hash_builder (K.hash_input key.now) in
            AtShard (λ s t. Gets (meaning_of_core self.old) now s (hash, key.now) result t)
            hash (core_of self.old) (core_of self.new) }
        ensures fetches { fetches_of self.new ≡ fetches_of self.old }
        ensures laws { CallLaws K.eq (hashes_of self.old) (λ _. 0) (core_of self.old) [] (core_of self.new) }
    {
        let hash = self.hash(key);
        let place = self.shard_index(hash);
        self.shards[place].get(now, hash, key)
    }

    /// Inserts a value with default properties, as `insert_with_properties` does.
    pub fn insert(
        &mut self,
        now: u64,
        key: K,
        value: V,
    ) -> std::result::Result<Inserted<K, V, P, N>, Refused<K, V, P>>
        requires clones { (k c : K) → K.is_clone k c → K.eq c k ≡ true }
        ensures inserted { (p : P) × P.is_default p
            × InsertsWeighed (at_moment now (meaning_of_core self.old)) Outer (W.weighs (core_of self.old).weighter key value) (A.admits (core_of self.old).filter key value)
            (hashes_of self.old key) key value (λ admitted. coming_in P.location_of P.with_phantom_of admitted p)
            (1 + length (waiters_of (open_in (fetches_of self.old) (hashes_of self.old key, key)))) (insertion_of result) (core_of self.old) (core_of self.new) }
        ensures given { IfOk result (λ made. IsNewEntry (core_of self.old) (hashes_of self.old key) key value made.entry) }
        ensures fetches { MatchResult result
            (λ made. AnswersIn K.eq (hashes_of self.old key) made.entry made.answers (fetches_of self.old) (fetches_of self.new))
            (λ _. fetches_of self.new ≡ fetches_of self.old) }
        ensures plain { ((p : P) → P.is_default p → MakesPlain P.phantom_of P.location_of p) → IsAdmitted (A.admits (core_of self.old).filter key value)
            → IfOk result (λ made. is_phantom (P.phantom_of made.entry.kept.properties) ≡ false) }
        ensures laws { InsertLaws (meaning_of_core self.old) (hashes_of self.old) (hashes_of self.new) (hashes_of self.old key)
            (core_of self.old) (insertion_of result) (core_of self.new) }
    {
        self.insert_with_properties(now, key, value, P::default())
    }

    /// Inserts a record and returns an entry of it, an entry for each caller that waits for the key, and what left.
    ///
    /// The weighter is asked, and then the filter. Records that are expired at `now` are evicted, then the policy's
    /// victims, until the record fits or nothing more leaves; then it replaces the key's record (`Replace`). A `get`
    /// right after the insert finds it unless it has expired, however heavy it is. The shard's usage is then at most
    /// its capacity, or the record's weight and what was pinned before, whichever is more. The key's fetch is closed.
    /// A clone of the key must equal it.
    ///
    /// A record that the filter doesn't admit, or whose properties say that it is phantom or to be on disk alone, is
    /// reported as `Remove`. It replaces the key's record, but nothing is evicted for it, no `get` finds it, and it
    /// leaves (`Evict`) with its last handle.
    ///
    /// # Errors
    /// F10 if no id is left, F9 if the handle count would pass its limit, F8 if the record's weight and the pinned
    /// weight of other keys don't fit a `usize`; nothing has changed. F7 if memory runs out; the evictions made so
    /// far stand and are returned. After any error, callers that wait for the key still wait.
    pub fn insert_with_properties(
        &mut self,
        now: u64,
        key: K,
        value: V,
        properties: P,
    ) -> std::result::Result<Inserted<K, V, P, N>, Refused<K, V, P>>
        requires clones { (k c : K) → K.is_clone k c → K.eq c k ≡ true }
        ensures inserted { InsertsWeighed (at_moment now (meaning_of_core self.old)) Outer (W.weighs (core_of self.old).weighter key value) (A.admits (core_of self.old).filter key value)
            (hashes_of self.old key) key value (λ admitted. coming_in P.location_of P.with_phantom_of admitted properties)
            (1 + length (waiters_of (open_in (fetches_of self.old) (hashes_of self.old key, key)))) (insertion_of result) (core_of self.old) (core_of self.new) }
        ensures given { IfOk result (λ made. IsNewEntry (core_of self.old) (hashes_of self.old key) key value made.entry) }
        ensures fetches { MatchResult result
            (λ made. AnswersIn K.eq (hashes_of self.old key) made.entry made.answers (fetches_of self.old) (fetches_of self.new))
            (λ _. fetches_of self.new ≡ fetches_of self.old) }
        ensures plain { MakesPlain P.phantom_of P.location_of properties → IsAdmitted (A.admits (core_of self.old).filter key value)
            → IfOk result (λ made. is_phantom (P.phantom_of made.entry.kept.properties) ≡ false) }
        ensures laws { InsertLaws (meaning_of_core self.old) (hashes_of self.old) (hashes_of self.new) (hashes_of self.old key)
            (core_of self.old) (insertion_of result) (core_of self.new) }
    {
        let mut leaves = Vec::new(self.alloc);
        match self.insert_with_properties_onto(now, key, value, properties, &mut leaves) {
            Ok(made) => {
                let InsertedOnto { entry, answers } = made;
                Ok(Inserted {
                    entry,
                    answers,
                    leaves,
                })
            }
            Err(error) => Err(Refused { error, leaves }),
        }
    }

    /// Returns whether the entry has the core's number and a record with a handle, as every unspent entry of this
    /// core has.
    ///
    /// Cores with the same number can't tell their entries apart. Takes no memory.
    pub fn owns(&self, entry: &CoreEntry<K, V, P>) -> bool
        ensures { IsTrue result ↔ Owns (core_of self.now) entry.now }
    {
        self.shards[self.shard_index(entry.hash())].owns(entry)
    }

    /// Gives an entry back and returns what left with it.
    ///
    /// With its last handle a resident record is released, a phantom one leaves, and any other is forgotten. An entry
    /// that the core doesn't own comes back as `Err`, and nothing has changed. Takes no memory.
    #[inline(always)]
    pub fn give_back(
        &mut self,
        entry: CoreEntry<K, V, P>,
    ) -> std::result::Result<Option<Leave<K, V, P>>, CoreEntry<K, V, P>>
        ensures owned { IsOk result ↔ Owns (core_of self.old) entry }
        ensures taken { IfOk result (λ leave.
            AtShard (λ s t. GivesBack (meaning_of_core self.old) s entry.id leave t)
            entry.kept.hash (core_of self.old) (core_of self.new)) }
        ensures returned { IfErr result (λ e. (e ≡ entry) × (core_of self.new ≡ core_of self.old)) }
        ensures fetches { fetches_of self.new ≡ fetches_of self.old }
        ensures laws { let given = one_of (core_of self.old) entry in MatchResult result
            (λ leave. CallLaws K.eq (hashes_of self.old) given (core_of self.old) (option_to_list leave) (core_of self.new))
            (λ _. CallLaws K.eq (hashes_of self.old) given (core_of self.old) [] (core_of self.new)) }
    {
        let place = self.shard_index(entry.hash());
        self.shards[place].give_back(entry)
    }
}
