//! The examples that `crates/foyer_memory/CALLING.md` prints.

use crate::testing::Outcome;
use foyer_memory::{
    Bytes, Cache, CacheBuilder, CacheProperties, EvictionConfig, FetchCache, FetchTarget,
    PlainCache, S3FifoConfig,
};
use foyer_policy::{Event, EventListener, Fault, Result};
use foyer_raw::{AllTasks, ListSpawner};
use futures::executor::block_on;
use futures::future::{Ready, ready};
use std::sync::atomic::{AtomicU64, Ordering};
use std::sync::{Arc, Wait};
use std::thread::map_indices;

#[test]
fn a_cache_is_made_and_used(rt: HostRuntime) -> Outcome {
    let alloc = rt.alloc();
    let cache: Cache<HostRuntime, u32, u64> = CacheBuilder::new(1000)
        .with_eviction_config(EvictionConfig::from(S3FifoConfig::default()))
        .build(rt, alloc, &rt)?;
    let entry = cache.insert(0, 7, 49)?;
    let found = cache.get(0, &7)?.ok_or("none")?;
    drop(cache.remove(&7)?);
    assert_eq!(rt; (*found, *entry, entry.is_outdated()), (49, 49, true));
    Ok(())
}

/// Counts the records that are evicted.
#[derive(Drop)]
struct Evictions(Arc<AtomicU64>);

impl EventListener for Evictions {
    type Key = String;

    type Value = Vec<u8>;

    fn on_leave(&self, event: Event, _key: &String, _page: &Vec<u8>) {
        if event == Event::Evict {
            self.0.fetch_add(1, Ordering::SeqCst);
        }
    }
}

#[test]
fn what_is_evicted_is_counted(rt: HostRuntime) -> Outcome {
    let alloc = rt.alloc();
    let evicted = Arc::new(alloc, AtomicU64::new(0))?;
    let cache: PlainCache<HostRuntime, String, Vec<u8>, Bytes, Evictions> = CacheBuilder::new(10)
        .with_shards(1)
        .with_weighter(Bytes)
        .with_event_listener(Evictions(Arc::try_clone(&evicted)?))
        .build(rt, alloc, &rt)?;
    for key in ["a", "b"] {
        let page = String::from_str(alloc, "12345")?.into_bytes();
        drop(cache.insert(0, String::from_str(alloc, key)?, page)?);
    }
    assert_eq!(rt; (evicted.load(Ordering::SeqCst), cache.usage()), (1, 6));
    assert_eq!(rt; cache.stats().evictions, 1);
    Ok(())
}

#[test]
fn a_record_expires(rt: HostRuntime) -> Outcome {
    let alloc = rt.alloc();
    let cache: Cache<HostRuntime, u32, u64> = CacheBuilder::new(1000).build(rt, alloc, &rt)?;
    let expiring = CacheProperties::default().with_expiry(Some(60));
    drop(cache.insert_with_properties(0, 8, 64, expiring)?);
    assert!(rt; cache.contains(59, &8) && !cache.contains(60, &8));
    assert_eq!(rt; cache.entries(), 1); // It takes up room until it is evicted.
    Ok(())
}

/// A fetch that is ready at once.
type Fetch = Ready<std::result::Result<FetchTarget<u32, u64, CacheProperties>, Fault>>;

// A fetch that gives this square.
fn fetched(square: u64) -> Fetch {
    ready(Ok(FetchTarget::Entry {
        value: square,
        properties: CacheProperties::default(),
    }))
}

/// A cache of squares that fetches what is missing.
type Squares<H> = FetchCache<H, u32, u64, Fetch>;

#[test]
fn what_is_missing_is_made(rt: HostRuntime) -> Outcome {
    let alloc = rt.alloc();
    let squares: Squares<HostRuntime> = CacheBuilder::new(1000).build(rt, alloc, &rt)?;
    let made = squares.get_or_insert_with(0, &8, || Ok(64))?;
    let fetched = squares.get_or_fetch_blocking(0, &9, fetched(81))?;
    assert_eq!(rt; (*made, *fetched), (64, 81));
    Ok(())
}

#[test]
fn what_is_missing_is_fetched_once(rt: HostRuntime) -> Outcome {
    let alloc = rt.alloc();
    let squares: Squares<HostRuntime> = CacheBuilder::new(1000).build(rt, alloc, &rt)?;
    let mut tasks = ListSpawner::new(alloc);
    let first = squares.get_or_fetch(0, &9, || fetched(81), &mut tasks)?;
    let second = squares.get_or_fetch(0, &9, || fetched(82), &mut tasks)?;
    block_on(&rt, AllTasks::new(tasks))?; // Before the waits: it is what ends them.
    let (first, second) = (block_on(&rt, first)??, block_on(&rt, second)??);
    assert_eq!(rt; (*first, *second), (81, 81));
    Ok(())
}

// Inserts ten numbers of a thread's own. How many of them are found.
fn fill<H: Wait + Drop>(cache: &Cache<H, u32, u64>, thread: u32) -> Result<u32> {
    let mut found = 0;
    for key in 10 * thread..10 * thread + 10 {
        drop(cache.insert(0, key, u64::from(key))?);
        found += u32::from(cache.contains(0, &key));
    }
    Ok(found)
}

#[test]
fn threads_share_a_cache(rt: HostRuntime) -> Outcome {
    let alloc = rt.alloc();
    let cache: Cache<HostRuntime, u32, u64> = CacheBuilder::new(1000).build(rt, alloc, &rt)?;
    for found in map_indices(&rt, alloc, 4, &|thread| fill(&cache, thread as u32))? {
        assert_eq!(rt; found?, 10);
    }
    Ok(())
}
