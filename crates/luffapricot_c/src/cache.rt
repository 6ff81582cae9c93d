//! The cache behind the address that C holds: of bytes by bytes, of one shard, of any of the five policies.

ghost use Rattle.std.specs.Prelude.{◌≡◌, [], IfErr, IfOk, None};
ghost use Rattle.foyer_policy.specs.Any.{any};
ghost use Rattle.foyer_policy.specs.Errors.{number_of};
ghost use Rattle.luffapricot_c.specs.Bytes.{expiry_of, plain, properties_of};
ghost use Rattle.foyer_core.specs.Core.{entries_of_core, usage_of_core};
ghost use Rattle.foyer_core.specs.Cores.{core_of, meaning_of_core};
ghost use Rattle.luffapricot_c.specs.Opening.{IsOpened, refused_with};
ghost use Rattle.luffapricot_c.specs.Calls.{FindsKey, GetsEntry, Inserts, InsertsBytes, InsertsEntry, RemovesEntry, TouchesKey};

use crate::hold::{Gone, Hold};
use crate::key::{Key, copied};
use crate::record::LuffaRecord;
use crate::terms::{LuffaTerms, plain_properties};
use crate::value::{GivenWeight, Value};
use foyer_core::{
    AdmitAll, CacheCore, CacheProperties, InsertedOnto, Limits, PutOnto, RawCacheConfig,
};
use foyer_policy::{AnyEviction, Event, EvictionConfig, ModHasher, Result};
use slab::Slab;
use std::alloc::Global;

mod bulk;
mod conditional;
mod fetches;
mod holds;
mod reads;
mod walks;

use holds::{answer, forget_left, hold, hold_named};

type Core = CacheCore<
    AnyEviction,
    Key,
    Value,
    CacheProperties,
    ModHasher,
    GivenWeight,
    AdmitAll,
    usize,
    (),
>;

type Made = InsertedOnto<Key, Value, CacheProperties, usize>;

/// A cache of bytes by bytes, and what C holds of it.
#[derive(Drop)]
pub struct ByteCache {
    core: Core,
    // The key of a lookup, kept so that a lookup allocates nothing.
    asked: Key,
    // What C holds, by number. Whoever waits for a fetch has its number here.
    holds: Slab<Hold>,
    // What left and was not taken yet, in order. Without a listener it is empty between calls.
    left: Vec<Gone>,
    // What `clear_one` showed last, kept so that it can be read.
    last_shown: Option<Gone>,
    has_listener: bool,
    alloc: Global,
}

impl ByteCache {
    pub(crate) fn new(
        alloc: Global,
        config: EvictionConfig,
        capacity: usize,
        has_listener: bool,
    ) -> Result<ByteCache>
        ensures opened { IfOk result (λ cache. (any.fault config ≡ None) × IsOpened config capacity has_listener cache) }
        ensures refused { IfErr result (λ reason. number_of reason ≡ refused_with (any.fault config)) }
    {
        let made = CacheCore::new(
            alloc,
            RawCacheConfig {
                capacity,
                shards: 1,
                eviction_config: config,
                hash_builder: ModHasher::default(),
                weighter: GivenWeight,
                filter: AdmitAll,
                number: 0,
                limits: Limits::default(),
            },
        );
        match made {
            Ok(core) => Ok(ByteCache {
                core,
                asked: Key::empty(alloc),
                holds: Slab::new(alloc),
                left: Vec::new(alloc),
                last_shown: None,
                has_listener,
                alloc,
            }),
            Err(error) => Err(error),
        }
    }

    /// Inserts a record, and holds no handle to it. It never expires if `expires` is 0.
    #[inline(always)]
    pub(crate) fn insert(
        &mut self,
        now: u64,
        hash: u64,
        key: &[u8],
        bytes: &[u8],
        weight: usize,
        expires: u64,
    ) -> Result<()>
        ensures { Inserts now hash key.now bytes.now 0 weight (plain (expiry_of expires)) result self.old self.new }
    {
        let key = Key::new(self.alloc, hash, key)?;
        let copy = copied(self.alloc, bytes)?;
        let value = Value {
            bytes: copy,
            weight,
            owner: 0,
        };
        self.put(now, key, value, plain_properties(expires))
    }

    // Inserts a record, and holds no handle to it.
    #[inline(always)]
    fn put(&mut self, now: u64, key: Key, value: Value, properties: CacheProperties) -> Result<()>
        ensures { Inserts now key.hash (key.bytes).items (value.bytes).items value.owner value.weight properties result self.old self.new }
    {
        let put = self
            .core
            .put_onto(now, key, value, properties, &mut self.left);
        forget_left(&mut self.left, self.has_listener);
        match put {
            Ok(
                PutOnto {
                    last,
                    answers: waiting,
                },
            ) => {
                // A record that is not phantom stays when its handle ends.
                drop(last);
                answer(&mut self.holds, waiting);
                Ok(())
            }
            Err(error) => Err(error),
        }
    }

    /// Inserts a record and holds a handle to it.
    pub(crate) fn insert_entry(
        &mut self,
        now: u64,
        hash: u64,
        key: &[u8],
        bytes: &[u8],
        owner: u64,
        terms: &LuffaTerms,
        shown: &mut LuffaRecord,
    ) -> Result<()>
        ensures { InsertsEntry now hash key.now bytes.now owner terms.now.weight (properties_of terms.now) result shown.new self.old self.new }
    {
        self.holds.reserve(1)?;
        match self.insert_with(now, hash, key, bytes, owner, terms) {
            Ok(InsertedOnto { entry, answers }) => {
                hold(&mut self.holds, entry, shown);
                answer(&mut self.holds, answers);
                Ok(())
            }
            Err(error) => Err(error),
        }
    }

    #[inline(always)]
    fn insert_with(
        &mut self,
        now: u64,
        hash: u64,
        key: &[u8],
        bytes: &[u8],
        owner: u64,
        terms: &LuffaTerms,
    ) -> Result<Made>
        ensures inserted { InsertsBytes now hash key.now bytes.now owner terms.now.weight (properties_of terms.now) result self.old self.new }
        ensures rest { self.new ≡ record self.old { core = self.new.core; left = self.new.left } }
    {
        let key = Key::new(self.alloc, hash, key)?;
        let copy = copied(self.alloc, bytes)?;
        let value = Value {
            bytes: copy,
            weight: terms.weight,
            owner,
        };
        let made = self
            .core
            .insert_with_properties_onto(now, key, value, terms.properties(), &mut self.left);
        forget_left(&mut self.left, self.has_listener);
        made
    }

    /// Looks a record up and holds a handle to it. Whether there is one.
    #[inline(always)]
    pub(crate) fn get_entry(
        &mut self,
        now: u64,
        hash: u64,
        key: &[u8],
        shown: &mut LuffaRecord,
    ) -> Result<bool>
        ensures { GetsEntry now hash key.now result shown.new self.old self.new }
    {
        self.holds.reserve(1)?;
        self.asked.set(hash, key)?;
        match self.core.hold(now, &self.asked) {
            Ok(Some(name)) => {
                let Some(record) = self.core.held(name) else {
                    unreachable!();
                };
                hold_named(&mut self.holds, name, &record, shown);
                Ok(true)
            }
            Ok(None) => Ok(false),
            Err(error) => Err(error),
        }
    }

    /// Removes a record and holds a handle to it. Whether there was one.
    pub(crate) fn remove(&mut self, hash: u64, key: &[u8], shown: &mut LuffaRecord) -> Result<bool>
        ensures { RemovesEntry hash key.now result shown.new self.old self.new }
    {
        self.holds.reserve(1)?;
        self.left.reserve(1)?;
        self.asked.set(hash, key)?;
        match self.core.remove(&self.asked) {
            Ok(Some((entry, left))) => {
                self.left.push_reserved((Event::Remove, left));
                forget_left(&mut self.left, self.has_listener);
                hold(&mut self.holds, entry, shown);
                Ok(true)
            }
            Ok(None) => Ok(false),
            Err(error) => Err(error),
        }
    }

    /// Whether a lookup would find the key.
    pub(crate) fn contains(&mut self, now: u64, hash: u64, key: &[u8]) -> Result<bool>
        ensures { FindsKey now hash key.now result self.old self.new }
    {
        self.asked.set(hash, key)?;
        Ok(self.core.contains(now, &self.asked))
    }

    /// Counts as a use of the key's record. Whether there is one.
    pub(crate) fn touch(&mut self, now: u64, hash: u64, key: &[u8]) -> Result<bool>
        ensures { TouchesKey now hash key.now result self.old self.new }
    {
        self.asked.set(hash, key)?;
        self.core.touch(now, &self.asked)
    }

    pub(crate) fn usage(&self) -> u128
        ensures { result ≡ usage_of_core (meaning_of_core self.now.core) (core_of self.now.core) }
    {
        self.core.usage()
    }

    pub(crate) fn entries(&self) -> u128
        ensures { result ≡ entries_of_core (meaning_of_core self.now.core) (core_of self.now.core) }
    {
        self.core.entries()
    }
}
