//! Another configuration, of a cache whose policy is any of the five.

use crate::notes::Note::Evict;
use crate::notes::{Ear, Notes};
use crate::testing::builders::Trial;
use crate::testing::cache::Cache;
use crate::testing::{Outcome, fifo, number};
use foyer_core::{CacheProperties, RawCacheConfig};
use foyer_policy::{AnyEviction, EvictionConfig, Hint, LfuConfig, LruConfig, Properties, Ratio};
use foyer_raw::RawCache;
use std::alloc::Global;
use std::sync::Wait;

/// Such a cache.
type Any<H> = Cache<H, Trial, AnyEviction>;

// LRU whose pool of high priority has this share.
fn lru(num: u32) -> EvictionConfig {
    EvictionConfig::from(LruConfig {
        high_priority_pool_ratio: Ratio { num, den: 1 },
    })
}

// Puts a record of low priority in.
fn put_low<H: Wait + Drop>(cache: &Any<H>, key: u32) -> Outcome {
    let low = CacheProperties::default().with_hint(Hint::Low);
    drop(cache.insert_with_properties(0, key, 0, low)?);
    Ok(())
}

// Two shards with LRU, each of which has two records of high priority and then one of low, and what they tell.
fn heard<H: Wait + Alloc<A = Global> + Copy + Drop>(rt: H) -> Outcome<(Any<H>, Notes)> {
    let notes = Notes::new(rt.alloc())?;
    let base = fifo(8, 2);
    let config = RawCacheConfig {
        capacity: base.capacity,
        shards: base.shards,
        eviction_config: lru(1),
        hash_builder: base.hash_builder,
        weighter: base.weighter,
        filter: base.filter,
        number: base.number,
        limits: base.limits,
    };
    let cache = RawCache::new(rt, rt.alloc(), config, Ear(notes.share()?))?;
    for key in 0..4u32 {
        drop(cache.insert(0, key, 0)?);
    }
    put_low(&cache, 4)?;
    put_low(&cache, 5)?;
    Ok((cache, notes))
}

// Puts one more of low priority into each shard, and evicts two from each.
fn evict_two<H: Wait + Drop>(cache: &Any<H>) -> Outcome {
    put_low(cache, 6)?;
    put_low(cache, 7)?;
    Ok(cache.resize(0, 4)?)
}

// F17 goes before a fault, and neither changes what leaves next.
#[test]
fn what_is_refused_changes_nothing(rt: HostRuntime) -> Outcome {
    let (cache, notes) = heard(rt)?;
    let other = EvictionConfig::from(LfuConfig {
        cmsketch_buckets: 0,
        ..LfuConfig::default()
    });
    assert_eq!(rt; number(cache.reconfigure(&other)), Some(17));
    assert_eq!(rt; number(cache.reconfigure(&lru(2))), Some(3));
    cache.configure(&EvictionConfig::from(LfuConfig::default()));
    evict_two(&cache)?;
    assert!(rt; notes.are(&[Evict(4, 0), Evict(6, 0), Evict(5, 0), Evict(7, 0)]));
    Ok(())
}

#[test]
fn each_shard_takes_its_own(rt: HostRuntime) -> Outcome {
    let (cache, notes) = heard(rt)?;
    cache.reconfigure(&lru(0))?;
    assert!(rt; notes.are(&[]));
    evict_two(&cache)?;
    assert!(rt; notes.are(&[Evict(4, 0), Evict(0, 0), Evict(5, 0), Evict(1, 0)]));
    Ok(())
}
