//! The builder of caches.

ghost use Rattle.std.specs.Prelude.{◌≡◌, None, Some};
ghost use Rattle.foyer_policy.specs.declared.eviction_config.EvictionConfig.TheVariants.{Lru};

use foyer_core::{AdmitAll, Filter, Limits, RawCacheConfig, UnitWeighter, Weighter};
use foyer_policy::{DefaultHasher, EventListener, EvictionConfig, HashBuilder, Key, Value};
use foyer_raw::NoListener;
use std::marker::PhantomData;

mod build;

/// Builds a `Cache`.
///
/// The setters of the hash builder, the weighter, the filter and the listener change the builder's type.
#[derive(Drop)]
pub struct CacheBuilder<
    K,
    V,
    S = DefaultHasher,
    W = UnitWeighter,
    A = AdmitAll,
    L = NoListener<K, V>,
> {
    config: RawCacheConfig<EvictionConfig, S, W, A>,
    listener: L,
    time_to_live: Option<u64>,
    keys: PhantomData<(K, V)>,
}

impl<K: Key, V: Value> CacheBuilder<K, V> {
    /// Creates a builder of a cache of this capacity, which is a total weight.
    ///
    /// By default there are 8 shards, the policy is LRU with its default configuration, each record weighs 1 and is
    /// admitted, there is no listener, and the number is 0.
    pub fn new(capacity: usize) -> Self
        ensures capacity { result.config.capacity ≡ capacity }
        ensures shards { result.config.shards ≡ 8 }
        ensures eviction_config { result.config.eviction_config ≡ Lru (record { high_priority_pool_ratio = record { num = 9; den = 10 } }) }
        ensures number { result.config.number ≡ 0 }
        ensures limits { result.config.limits ≡ record { handles = 18446744073709551615; ids = 18446744073709551615 } }
        ensures time_to_live { result.time_to_live ≡ None }
    {
        CacheBuilder {
            config: RawCacheConfig::new(capacity),
            listener: NoListener::new(),
            time_to_live: None,
            keys: PhantomData,
        }
    }
}

impl<K, V, S, W, A, L> CacheBuilder<K, V, S, W, A, L>
where
    K: Key,
    V: Value,
    S: HashBuilder,
    W: Weighter<K, V>,
    A: Filter<K, V>,
    L: EventListener<Key = K, Value = V>,
{
    /// Sets the number of shards, among which the capacity is divided.
    pub fn with_shards(mut self, shards: usize) -> Self
        ensures { result ≡ record self { config = record self.config { shards = shards } } }
    {
        self.config.shards = shards;
        self
    }

    /// Sets the policy and its configuration.
    pub fn with_eviction_config(mut self, eviction_config: EvictionConfig) -> Self
        ensures { result ≡ record self { config = record self.config { eviction_config = eviction_config } } }
    {
        self.config.eviction_config = eviction_config;
        self
    }

    /// Sets the cache's number, by which it knows its own pieces. Caches that exchange pieces need different numbers.
    pub fn with_number(mut self, number: u64) -> Self
        ensures { result ≡ record self { config = record self.config { number = number } } }
    {
        self.config.number = number;
        self
    }

    /// Sets the limits of the handle counts and of the ids.
    pub fn with_limits(mut self, limits: Limits) -> Self
        ensures { result ≡ record self { config = record self.config { limits = limits } } }
    {
        self.config.limits = limits;
        self
    }

    /// Sets a time to live, in the unit of the current time.
    ///
    /// A record that is inserted or fetched without an expiry of its own then expires at that call's `now + time_to_live`,
    /// at most 2^64 - 1; with 0, no look-up finds it. A piece keeps the expiry that it has.
    pub fn with_time_to_live(mut self, time_to_live: u64) -> Self
        ensures { result ≡ record self { time_to_live = Some time_to_live } }
    {
        self.time_to_live = Some(time_to_live);
        self
    }

    /// Sets the hash builder of the keys.
    pub fn with_hash_builder<X: HashBuilder>(
        self,
        hash_builder: X,
    ) -> CacheBuilder<K, V, X, W, A, L>
        ensures given { result.config.hash_builder ≡ hash_builder }
        ensures capacity { result.config.capacity ≡ self.config.capacity }
        ensures shards { result.config.shards ≡ self.config.shards }
        ensures eviction_config { result.config.eviction_config ≡ self.config.eviction_config }
        ensures weighter { result.config.weighter ≡ self.config.weighter }
        ensures filter { result.config.filter ≡ self.config.filter }
        ensures number { result.config.number ≡ self.config.number }
        ensures limits { result.config.limits ≡ self.config.limits }
        ensures time_to_live { result.time_to_live ≡ self.time_to_live }
        ensures listener { result.listener ≡ self.listener }
    {
        let CacheBuilder {
            config,
            listener,
            time_to_live,
            keys,
        } = self;
        let RawCacheConfig {
            capacity,
            shards,
            eviction_config,
            hash_builder: _,
            weighter,
            filter,
            number,
            limits,
        } = config;
        CacheBuilder {
            config: RawCacheConfig {
                capacity,
                shards,
                eviction_config,
                hash_builder,
                weighter,
                filter,
                number,
                limits,
            },
            listener,
            time_to_live,
            keys,
        }
    }

    /// Sets the weighter, which gives each record its weight.
    pub fn with_weighter<X: Weighter<K, V>>(self, weighter: X) -> CacheBuilder<K, V, S, X, A, L>
        ensures given { result.config.weighter ≡ weighter }
        ensures capacity { result.config.capacity ≡ self.config.capacity }
        ensures shards { result.config.shards ≡ self.config.shards }
        ensures eviction_config { result.config.eviction_config ≡ self.config.eviction_config }
        ensures hash_builder { result.config.hash_builder ≡ self.config.hash_builder }
        ensures filter { result.config.filter ≡ self.config.filter }
        ensures number { result.config.number ≡ self.config.number }
        ensures limits { result.config.limits ≡ self.config.limits }
        ensures time_to_live { result.time_to_live ≡ self.time_to_live }
        ensures listener { result.listener ≡ self.listener }
    {
        let CacheBuilder {
            config,
            listener,
            time_to_live,
            keys,
        } = self;
        CacheBuilder {
            config: config.with_weighter(weighter),
            listener,
            time_to_live,
            keys,
        }
    }

    /// Sets the filter. A record that it refuses is held by its entry alone, and no `get` finds it.
    pub fn with_filter<X: Filter<K, V>>(self, filter: X) -> CacheBuilder<K, V, S, W, X, L>
        ensures given { result.config.filter ≡ filter }
        ensures capacity { result.config.capacity ≡ self.config.capacity }
        ensures shards { result.config.shards ≡ self.config.shards }
        ensures eviction_config { result.config.eviction_config ≡ self.config.eviction_config }
        ensures hash_builder { result.config.hash_builder ≡ self.config.hash_builder }
        ensures weighter { result.config.weighter ≡ self.config.weighter }
        ensures number { result.config.number ≡ self.config.number }
        ensures limits { result.config.limits ≡ self.config.limits }
        ensures time_to_live { result.time_to_live ≡ self.time_to_live }
        ensures listener { result.listener ≡ self.listener }
    {
        let CacheBuilder {
            config,
            listener,
            time_to_live,
            keys,
        } = self;
        CacheBuilder {
            config: config.with_filter(filter),
            listener,
            time_to_live,
            keys,
        }
    }

    /// Sets the listener, which is told of each record that leaves.
    pub fn with_event_listener<X: EventListener<Key = K, Value = V>>(
        self,
        listener: X,
    ) -> CacheBuilder<K, V, S, W, A, X>
        ensures given { result.listener ≡ listener }
        ensures capacity { result.config.capacity ≡ self.config.capacity }
        ensures shards { result.config.shards ≡ self.config.shards }
        ensures eviction_config { result.config.eviction_config ≡ self.config.eviction_config }
        ensures hash_builder { result.config.hash_builder ≡ self.config.hash_builder }
        ensures weighter { result.config.weighter ≡ self.config.weighter }
        ensures filter { result.config.filter ≡ self.config.filter }
        ensures number { result.config.number ≡ self.config.number }
        ensures limits { result.config.limits ≡ self.config.limits }
        ensures time_to_live { result.time_to_live ≡ self.time_to_live }
    {
        let CacheBuilder {
            config,
            listener: _,
            time_to_live,
            keys,
        } = self;
        CacheBuilder {
            config,
            listener,
            time_to_live,
            keys,
        }
    }
}
