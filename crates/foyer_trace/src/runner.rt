//! A cache of any policy that is replayed.

ghost use Rattle.std.specs.Prelude.{◌≡◌, IfOk};
ghost use Rattle.foyer_trace.specs.Runs.{IsEmpty, IsNew, Serves};
ghost use Rattle.foyer_trace.specs.Trace.{requests_of_part};

use crate::belady::Belady;
use crate::failure::Failure;
use crate::policy::Kind;
use crate::trace::{Part, PartRequests, Terms};
use foyer_core::RawCacheConfig;
use foyer_policy::{
    Eviction, Fifo, FifoConfig, Lfu, LfuConfig, Lru, LruConfig, ModHasher, S3Fifo, S3FifoConfig,
    Sieve, SieveConfig,
};
use foyer_replay::{Counts, Departures, ReplayCore, RequestWeighter, replay};
use std::alloc::Global;

/// A core of any policy, or Belady's cache.
#[derive(Drop)]
enum Core {
    Fifo(ReplayCore<Fifo, ModHasher>),
    Lru(ReplayCore<Lru, ModHasher>),
    Lfu(ReplayCore<Lfu, ModHasher>),
    S3Fifo(ReplayCore<S3Fifo, ModHasher>),
    Sieve(ReplayCore<Sieve, ModHasher>),
    Belady(Belady),
}

/// A cache with what a replay of it needs.
#[derive(Drop)]
pub struct Runner {
    core: Core,
    terms: Terms,
    departures: Departures,
}

// A core of one policy. Its keys are mixed, so that a key is its own hash.
fn core_of<E: Eviction>(
    alloc: Global,
    config: E::Config,
    capacity: usize,
    shards: usize,
) -> Result<ReplayCore<E, ModHasher>, Failure>
where
    E::Config: Default,
    ensures { IfOk result (λ core. IsEmpty config capacity shards core) }
{
    let config = RawCacheConfig {
        shards,
        eviction_config: config,
        ..RawCacheConfig::new(capacity).with_weighter(RequestWeighter)
    };
    Ok(ReplayCore::new(alloc, config)?)
}

impl Runner {
    /// A cache of a policy, with a capacity that so many shards share.
    pub fn new(
        alloc: Global,
        kind: &Kind,
        capacity: usize,
        shards: usize,
        terms: Terms,
    ) -> Result<Runner, Failure>
        ensures terms { IfOk result (λ runner. runner.terms ≡ terms) }
        ensures new { IfOk result (λ runner. IsNew kind.now capacity shards runner.core) }
    {
        let core = match kind {
            Kind::Fifo => Core::Fifo(core_of(alloc, FifoConfig {}, capacity, shards)?),
            Kind::Lru(config) => {
                let config = LruConfig { ..*config };
                Core::Lru(core_of(alloc, config, capacity, shards)?)
            }
            Kind::Lfu(config) => {
                let config = LfuConfig { ..*config };
                Core::Lfu(core_of(alloc, config, capacity, shards)?)
            }
            Kind::S3Fifo(config) => {
                let config = S3FifoConfig { ..*config };
                Core::S3Fifo(core_of(alloc, config, capacity, shards)?)
            }
            Kind::Sieve => Core::Sieve(core_of(alloc, SieveConfig, capacity, shards)?),
            // A shard keeps a record even if it has no capacity.
            Kind::Belady => Core::Belady(Belady::new(alloc, capacity.max(shards))),
        };
        Ok(Runner {
            core,
            terms,
            departures: Vec::new(alloc),
        })
    }

    /// Serves the records of a part, and returns what it counted of those after the first `skipped`. Belady's cache
    /// needs the part's future.
    pub fn serve(&mut self, part: &Part, future: &[u32], skipped: usize) -> Result<Counts, Failure>
        ensures terms { self.new.terms ≡ self.old.terms }
        ensures counted { IfOk result (λ counts. Serves self.old.core skipped (requests_of_part self.old.terms part.now)
            counts.hits counts.misses self.new.core) }
    {
        let terms = self.terms;
        let requests = PartRequests { part, terms };
        let departures = &mut self.departures;
        match &mut self.core {
            Core::Fifo(core) => Ok(replay(core, &requests, skipped, departures)?),
            Core::Lru(core) => Ok(replay(core, &requests, skipped, departures)?),
            Core::Lfu(core) => Ok(replay(core, &requests, skipped, departures)?),
            Core::S3Fifo(core) => Ok(replay(core, &requests, skipped, departures)?),
            Core::Sieve(core) => Ok(replay(core, &requests, skipped, departures)?),
            Core::Belady(belady) => Ok(belady.serve(part, future, skipped)?),
        }
    }
}
