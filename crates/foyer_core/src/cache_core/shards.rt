//! The shards of a core: how they are made, and which one has a hash.

ghost use Rattle.std.specs.Prelude.{◌≡◌, ◌<◌, ◌%◌, All, None, Err, IfOk, IfErr, IfSome, OnOk, map, vec_len};
ghost use Rattle.foyer_policy.specs.declared.error.Reason.TheVariants.{NoMemory};
ghost use Rattle.foyer_core.specs.Core.{AreNewShards, share_of};
ghost use Rattle.foyer_core.specs.Inflight.{no_opens};
ghost use Rattle.foyer_core.specs.Stored.{meaning};

use super::CacheCore;
use crate::config::RawCacheConfig;
use crate::filter::Filter;
use crate::finder::Finder;
use crate::shard::Shard;
use crate::weighter::Weighter;
use foyer_policy::{Eviction, HashBuilder, Key, Properties, Result, Value};
use std::alloc::Global;

/// Returns the part of a capacity that the shard of this number gets: one n-th, rounded down, and one more if its
/// number is below what is left over.
pub fn shard_capacity(capacity: usize, shards: usize, number: usize) -> usize
    requires { 0 < shards }
    ensures { result ≡ share_of capacity shards number }
{
    capacity / shards + (number < capacity % shards) as usize
}

// A hash modulo the number of shards: a mask if that is a power of two, which spares a division.
#[inline(always)]
fn part_of(hash: u64, shards: u64) -> u64
    requires { 0 < shards }
    ensures { result ≡ hash % shards }
{
    if shards.is_power_of_two() {
        hash & (shards - 1)
    } else {
        hash % shards
    }
}

/// Returns the number of the shard of a hash: the hash modulo the number of shards.
#[inline(always)]
pub fn shard_of(hash: u64, shards: usize) -> usize
    requires { 0 < shards }
    ensures within { result < shards }
    ensures number { result ≡ hash % shards }
{
    part_of(hash, shards as u64) as usize
}

impl<
    E: Eviction,
    K: Key,
    V: Value,
    P: Properties,
    S: HashBuilder,
    W: Weighter<K, V>,
    A: Filter<K, V>,
    N: Drop,
    R: Drop,
    I: Finder<K>,
> CacheCore<E, K, V, P, S, W, A, N, R, I> {
    ghost use Rattle.foyer_core.specs.Shards.{opens_of, state_of};

    /// Creates the empty shards of a configuration, each over an empty index, for a cache that keeps each behind a
    /// lock.
    ///
    /// # Errors
    /// Those of `new`.
    pub fn new_shards(
        alloc: Global,
        config: &RawCacheConfig<E::Config, S, W, A>,
    ) -> Result<Vec<Shard<E, K, V, P, N, R, I>>>
        requires some { 0 < config.now.shards }
        ensures made { IfOk result (λ shards. AreNewShards
            (meaning K.eq E.model P.hint_of P.phantom_of P.expiry_of) config.now config.now.shards (map state_of shards.items)) }
        ensures opens { IfOk result (λ shards. All (λ f. f ≡ no_opens) (map opens_of shards.items)) }
        ensures accepted { OnOk result (E.model.fault config.now.eviction_config ≡ None) }
        ensures refused { IfSome (E.model.fault config.now.eviction_config) (λ reason. result ≡ Err reason) }
        ensures memory { IfErr result (λ e. E.model.fault config.now.eviction_config ≡ None → e ≡ NoMemory) }
    {
        let mut shards = Vec::new(alloc);
        for number in 0..config.shards {
            let shard = Shard::new(
                alloc,
                config.number,
                shard_capacity(config.capacity, config.shards, number),
                config.limits,
                &config.eviction_config,
                I::empty(alloc),
            )?;
            // Room for all is asked for at once, and after the configuration's fault.
            shards.reserve(config.shards - number)?;
            shards.push_reserved(shard);
        }
        Ok(shards)
    }

    // The shard of a hash, by its number.
    #[inline(always)]
    pub(super) fn shard_index(&self, hash: u64) -> usize
        ensures within { result < vec_len self.now.shards }
        ensures index { result ≡ hash % vec_len self.now.shards }
    {
        shard_of(hash, self.shards.len())
    }
}
