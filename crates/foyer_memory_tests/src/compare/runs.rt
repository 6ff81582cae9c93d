//! Runs of 2,000 calls of each policy.

use super::*;
use crate::testing::builder;
use foyer_core::{AdmitAll, Limits, RawCacheConfig, UnitWeighter};
use foyer_memory::{EvictionConfig, FifoConfig, LfuConfig, LruConfig, S3FifoConfig, SieveConfig};
use foyer_policy::{Fifo, Lfu, Lru, S3Fifo, Sieve};
use log::Log;
use std::process::Abort;

// Makes 2,000 calls of a cache and of a core, and ends where they differ, with the number of that call.
fn agree<
    H: Wait + Log + RandomSource + Alloc<A = Global> + Abort + Copy + Drop + 'static,
    E: Eviction,
>(rt: H, config: EvictionConfig) -> Outcome
where
    E::Config: Default,
{
    let alloc = rt.alloc();
    let heard = Notes::new(alloc)?;
    let cache = builder(8, config, &heard)?
        .with_shards(2)
        .build(rt, alloc, &rt)?;
    let core: One<E> = CacheCore::new(
        alloc,
        RawCacheConfig {
            capacity: 8,
            shards: 2,
            eviction_config: E::Config::default(),
            hash_builder: ModHasher::default(),
            weighter: UnitWeighter,
            filter: AdmitAll,
            number: 0,
            limits: Limits::default(),
        },
    )?;
    let mut both = Both {
        cache,
        core,
        heard,
        left: Vec::new(alloc),
        held: Vec::new(alloc),
        now: 0,
    };
    let mut state = 1u64;
    for number in 1..2001u64 {
        state = state
            .wrapping_mul(6364136223846793005)
            .wrapping_add(1442695040888963407);
        let (pick, key) = (state / (1 << 56) % 21, state / (1 << 32) % 16);
        both.now = number / 4 + state / (1 << 40) % 8;
        let agrees = both.step(rt, pick, key as u32, number)? && both.agree();
        assert!(rt; agrees, "call {number}");
    }
    Ok(())
}

#[test]
fn a_fifo_is_as_its_core(rt: HostRuntime) -> Outcome {
    agree::<HostRuntime, Fifo>(rt, EvictionConfig::from(FifoConfig {}))
}

#[test]
fn an_s3fifo_is_as_its_core(rt: HostRuntime) -> Outcome {
    agree::<HostRuntime, S3Fifo>(rt, EvictionConfig::from(S3FifoConfig::default()))
}

#[test]
fn an_lru_is_as_its_core(rt: HostRuntime) -> Outcome {
    agree::<HostRuntime, Lru>(rt, EvictionConfig::from(LruConfig::default()))
}

#[test]
fn an_lfu_is_as_its_core(rt: HostRuntime) -> Outcome {
    agree::<HostRuntime, Lfu>(rt, EvictionConfig::from(LfuConfig::default()))
}

#[test]
fn a_sieve_is_as_its_core(rt: HostRuntime) -> Outcome {
    agree::<HostRuntime, Sieve>(rt, EvictionConfig::from(SieveConfig))
}
