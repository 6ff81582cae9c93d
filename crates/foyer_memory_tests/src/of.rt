//! Caches whose policy is known by their type.

use crate::testing::{Fetch, Outcome, given, number};
use foyer_core::{AdmitAll, RawCacheConfig, UnitWeighter};
use foyer_memory::{
    Cache, CacheEntry, CacheProperties, EvictionConfig, FifoCache, FifoCacheEntry, FifoConfig,
    FifoGetOrFetch, GetOrFetch, Kind, LruCache, LruConfig, SieveCache, SieveConfig,
};
use foyer_policy::{DefaultHasher, Ratio};
use foyer_raw::{Direct, ListSpawner, NoListener, NoopPipe};

/// A FIFO cache that fetches.
type Fifo<H> = FifoCache<
    H,
    u32,
    u64,
    DefaultHasher,
    CacheProperties,
    UnitWeighter,
    AdmitAll,
    NoListener<u32, u64>,
    NoopPipe<u32, u64>,
    Direct<Fetch>,
>;

#[test]
fn a_fifo_cache_is_one_of_any(rt: HostRuntime) -> Outcome {
    let alloc = rt.alloc();
    let config = RawCacheConfig {
        shards: 1,
        ..RawCacheConfig::new(2)
    };
    let cache: Fifo<HostRuntime> = FifoCache::new(rt, alloc, config, NoListener::new())?;
    let entry = cache.insert(0, 1, 10)?;
    assert_eq!(rt; (cache.kind(), entry.kind()), (Kind::Fifo, Kind::Fifo));
    let own: FifoCacheEntry<_, _, _, _, _, _, _, _, _, Direct<Fetch>> = entry
        .of_policy()
        .ok()
        .ok_or("another policy")?;
    assert_eq!(rt; (*own.key(), **own), (1, 10));
    let mut spawner = ListSpawner::new(alloc);
    let look = cache.get_or_fetch(0, &1, || given(11), &mut spawner)?;
    let own_look: FifoGetOrFetch<_, _, _, _, _, _, _, _, _, Direct<Fetch>> = look
        .of_policy()
        .ok()
        .ok_or("another policy")?;
    let look = GetOrFetch::from(own_look);
    assert_eq!(rt; format!(in alloc; "{look:?}")?.as_str(), "Fifo(Hit)");
    let entry = CacheEntry::from(own);
    assert_eq!(rt; (*entry, entry.kind(), entry.refs()), (10, Kind::Fifo, 2));
    let any = Cache::from(cache);
    assert_eq!(rt; format!(in alloc; "{any:?}")?.as_str(), "Cache::FifoCache");
    any.reconfigure(EvictionConfig::from(FifoConfig {}))?;
    assert_eq!(rt;
        number(any.reconfigure(EvictionConfig::from(SieveConfig))),
        Some(17)
    );
    let any = any.of_policy::<SieveConfig>().err().ok_or("a sieve")?;
    assert!(rt; any.of_policy::<FifoConfig>().is_ok());
    Ok(())
}

// Of each policy the configuration's fault is told, and the kind is its own.
#[test]
fn others_are_made_alike(rt: HostRuntime) -> Outcome {
    let alloc = rt.alloc();
    let config = RawCacheConfig {
        shards: 0,
        ..RawCacheConfig::new(2)
    };
    let none: foyer_policy::Result<SieveCache<HostRuntime, u32, u64>> = SieveCache::new(
        rt,
        alloc,
        config,
        NoListener::new(),
    );
    assert_eq!(rt; number(none), Some(1));
    let config = RawCacheConfig {
        eviction_config: LruConfig {
            high_priority_pool_ratio: Ratio { num: 2, den: 1 },
        },
        ..RawCacheConfig::new(2)
    };
    let faulty: foyer_policy::Result<LruCache<HostRuntime, u32, u64>> = LruCache::new(
        rt,
        alloc,
        config,
        NoListener::new(),
    );
    assert_eq!(rt; number(faulty), Some(3));
    let config = RawCacheConfig::new(2);
    let cache: LruCache<HostRuntime, u32, u64> = LruCache::new(
        rt,
        alloc,
        config,
        NoListener::new(),
    )?;
    assert_eq!(rt; Cache::from(cache).kind(), Kind::Lru);
    Ok(())
}
