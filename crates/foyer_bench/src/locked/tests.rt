use super::*;
use crate::args::{Policy, Skew};
use crate::moment::Life;
use crate::trace::{Ranks, keys_of};
use foyer_core::RawCacheConfig;
use foyer_policy::{AnyEviction, ModHasher};
use foyer_raw::NoListener;
use std::test::Fail;

const CALLS: [Calls; 2] = [Calls::Get, Calls::Read];

// How many of two thousand keys one thread finds by these calls in a cache of capacity 20, where records live so long.
fn hits<H: Wait + Alloc<A = Global> + Copy + Drop>(
    rt: H,
    calls: Calls,
    policy: Policy,
    shards: usize,
    life: Life,
) -> std::result::Result<usize, Fail> {
    let alloc = rt.alloc();
    let Ok(ranks) = Ranks::new(alloc, 200, Skew { num: 9, den: 10 }) else {
        return Ok(0);
    };
    let keys = keys_of(alloc, &ranks, 1, 2_000)?;
    let config = RawCacheConfig {
        shards,
        eviction_config: policy.config(),
        ..RawCacheConfig::new(20)
    };
    let cache: RawCache<H, AnyEviction, u64, u64, ModHasher> = RawCache::new(
        rt,
        alloc,
        config,
        NoListener::new(),
    )?;
    Ok(drive(&cache, calls, &keys, Moment::first(life))?)
}

// As upstream finds them.
#[test]
fn one_thread(rt: HostRuntime) -> std::result::Result<(), Fail> {
    for calls in CALLS {
        assert_eq!(rt; hits(rt, calls, Policy::Fifo, 1, Life::Ever)?, 721);
        assert_eq!(rt; hits(rt, calls, Policy::Lru, 1, Life::Ever)?, 807);
        assert_eq!(rt; hits(rt, calls, Policy::Lfu, 3, Life::Ever)?, 946);
        assert_eq!(rt; hits(rt, calls, Policy::S3Fifo, 3, Life::Ever)?, 981);
        assert_eq!(rt; hits(rt, calls, Policy::Sieve, 3, Life::Ever)?, 963);
    }
    Ok(())
}

// As a model in another language finds them.
#[test]
fn where_records_expire(rt: HostRuntime) -> std::result::Result<(), Fail> {
    for calls in CALLS {
        assert_eq!(rt; hits(rt, calls, Policy::Lru, 1, Life::For(100))?, 793);
        assert_eq!(rt; hits(rt, calls, Policy::Lfu, 1, Life::For(100))?, 861);
        assert_eq!(rt; hits(rt, calls, Policy::S3Fifo, 1, Life::For(30))?, 687);
        assert_eq!(rt; hits(rt, calls, Policy::Sieve, 3, Life::For(30))?, 665);
    }
    Ok(())
}
