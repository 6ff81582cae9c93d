//! The core that a replay runs over.

ghost use Rattle.std.specs.Prelude.{◌<◌, IfOk, map, vec_len};
ghost use Rattle.foyer_core.specs.Shards.{opens_of, state_of};
ghost use Rattle.foyer_replay.specs.Idle.{IsIdle};

use crate::request::{Outcome, Request, RequestWeighter};
use crate::serving::{Departures, ReplayShard, serve_in};
use foyer_core::{AdmitAll, CacheCore, CacheProperties, RawCacheConfig, shard_of};
use foyer_policy::{Error, Eviction, HashBuilder, Reason, Result};
use std::alloc::Global;

// A core whose shards these are.
type Core<E, S> = CacheCore<E, u64, u64, CacheProperties, S, RequestWeighter, AdmitAll>;

/// The configuration of a core that is replayed over: a record weighs what its request says.
pub type ReplayConfig<C, S> = RawCacheConfig<C, S, RequestWeighter, AdmitAll>;

/// The shards of a core, which make no entry and open no fetch. Contracts see a `Core`.
#[derive(Drop)]
pub struct ReplayCore<E: Eviction, S: HashBuilder> {
    shards: Vec<ReplayShard<E>>,
    config: ReplayConfig<E::Config, S>,
    alloc: Global,
    ghost sharded: { 0 < vec_len shards },
    // no record has a handle, and nobody waits for one
    ghost idle: { IsIdle (map state_of shards.items) (map opens_of shards.items) },
}

impl<E: Eviction, S: HashBuilder> ReplayCore<E, S> {
    ghost use Rattle.foyer_core.specs.Core.{IsNewCore};
    ghost use Rattle.foyer_replay.specs.Cores.{core_of, meaning_of_core, serves_of};

    /// Creates an empty core, as `CacheCore::new` does.
    ///
    /// # Errors
    /// F1 if there are no shards, then the first fault of the policy's configuration (F2 to F6), then F7 if memory
    /// runs out.
    pub fn new(alloc: Global, config: ReplayConfig<E::Config, S>) -> Result<Self>
        ensures made { IfOk result (λ core. IsNewCore (meaning_of_core core) config (core_of core)) }
    {
        if config.shards == 0 {
            return Err(Error::new(Reason::NoShards));
        }
        let shards = Core::<E, S>::new_shards(alloc, &config)?;
        Ok(ReplayCore {
            shards,
            config,
            alloc,
        })
    }

    /// Serves one request: a get that finds no record inserts one. What leaves the core is appended to `departures`.
    ///
    /// # Errors
    /// F7 if memory runs out.
    #[inline]
    pub fn serve(&mut self, request: &Request, departures: &mut Departures) -> Result<Outcome>
        ensures served { IfOk result (λ outcome. serves_of self.old request.now outcome (core_of self.old) (core_of self.new)) }
    {
        let hash = self.config.hash_builder.hash_one(&request.key);
        let place = shard_of(hash, self.shards.len());
        serve_in(
            &mut self.shards[place],
            self.alloc,
            hash,
            request,
            departures,
        )
    }
}
