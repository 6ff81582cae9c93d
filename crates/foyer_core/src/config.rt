//! The configuration of a core.

ghost use Rattle.std.specs.Prelude.{◌≡◌};

use crate::filter::AdmitAll;
use crate::record::Limits;
use crate::weighter::UnitWeighter;

/// The configuration of a core. `C` is the policy's configuration, `S` the hash builder, `W` the weighter and `A` the
/// filter.
#[derive(Drop)]
pub struct RawCacheConfig<C, S, W, A> {
    /// The weight that the records may have together.
    pub capacity: usize,
    /// How many shards the core has.
    pub shards: usize,
    /// The configuration of each shard's policy.
    pub eviction_config: C,
    /// Gives each key its hash.
    pub hash_builder: S,
    /// Gives each record its weight.
    pub weighter: W,
    /// Says which records are admitted.
    pub filter: A,
    /// The core's number. Give different ones to cores that exchange records.
    pub number: u64,
    /// The largest handle count and the limit of ids.
    pub limits: Limits,
}

impl<C: Default, S: Default> RawCacheConfig<C, S, UnitWeighter, AdmitAll> {
    /// Creates a configuration of this capacity, with defaults for everything else: 8 shards, the policy's default
    /// configuration, the default hash builder of its type, weight 1 for each record, every record admitted, number 0
    /// and the default limits.
    ///
    /// A field that keeps its type is set by struct update:
    /// `RawCacheConfig { shards: 1, ..RawCacheConfig::new(100) }`.
    pub fn new(capacity: usize) -> Self
        ensures capacity { result.capacity ≡ capacity }
        ensures shards { result.shards ≡ 8 }
        ensures eviction_config { C.is_default result.eviction_config }
        ensures hash_builder { S.is_default result.hash_builder }
        ensures number { result.number ≡ 0 }
        ensures limits { result.limits ≡ record { handles = 18446744073709551615; ids = 18446744073709551615 } }
    {
        RawCacheConfig {
            capacity,
            shards: 8,
            eviction_config: C::default(),
            hash_builder: S::default(),
            weighter: UnitWeighter,
            filter: AdmitAll,
            number: 0,
            limits: Limits::default(),
        }
    }
}

impl<C, S, W: Drop, A: Drop> RawCacheConfig<C, S, W, A> {
    /// Sets the weighter.
    pub fn with_weighter<B>(self, weighter: B) -> RawCacheConfig<C, S, B, A>
        ensures weighter { result.weighter ≡ weighter }
        ensures filter { result.filter ≡ self.filter }
        ensures hash_builder { result.hash_builder ≡ self.hash_builder }
        ensures eviction_config { result.eviction_config ≡ self.eviction_config }
        ensures capacity { result.capacity ≡ self.capacity }
        ensures shards { result.shards ≡ self.shards }
        ensures number { result.number ≡ self.number }
        ensures limits { result.limits ≡ self.limits }
    {
        RawCacheConfig {
            capacity: self.capacity,
            shards: self.shards,
            eviction_config: self.eviction_config,
            hash_builder: self.hash_builder,
            weighter,
            filter: self.filter,
            number: self.number,
            limits: self.limits,
        }
    }

    /// Sets the filter.
    pub fn with_filter<B>(self, filter: B) -> RawCacheConfig<C, S, W, B>
        ensures filter { result.filter ≡ filter }
        ensures weighter { result.weighter ≡ self.weighter }
        ensures hash_builder { result.hash_builder ≡ self.hash_builder }
        ensures eviction_config { result.eviction_config ≡ self.eviction_config }
        ensures capacity { result.capacity ≡ self.capacity }
        ensures shards { result.shards ≡ self.shards }
        ensures number { result.number ≡ self.number }
        ensures limits { result.limits ≡ self.limits }
    {
        RawCacheConfig {
            capacity: self.capacity,
            shards: self.shards,
            eviction_config: self.eviction_config,
            hash_builder: self.hash_builder,
            weighter: self.weighter,
            filter,
            number: self.number,
            limits: self.limits,
        }
    }
}
