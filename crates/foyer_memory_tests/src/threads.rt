//! Many threads at one cache.

use crate::testing::{Outcome, all_policies};
use foyer_memory::{Cache as CacheOf, CacheBuilder, EvictionConfig};
use foyer_policy::ModHasher;
use log::Log;
use std::alloc::Global;
use std::sync::Wait;
use std::thread;
use std::thread::Threads;
use std::time::{Clock, Duration};

type Cache<H> = CacheOf<H, u32, u64, ModHasher>;

// A cache of four shards.
fn cache<H: Wait + Log + Alloc<A = Global> + Copy + Drop>(
    rt: H,
    capacity: usize,
    config: EvictionConfig,
) -> Outcome<Cache<H>> {
    Ok(
        CacheBuilder::new(capacity)
            .with_shards(4)
            .with_eviction_config(config)
            .with_hash_builder(ModHasher::default())
            .build(rt, rt.alloc(), &rt)?,
    )
}

// Lets threads work, so many from this number on. The sum of what they answer.
fn each_thread<R: Threads + Sync, F: Fn(u32) -> u64 + Sync>(
    rt: &R,
    from: u32,
    count: u32,
    work: &F,
) -> u64 {
    if count == 1 {
        return work(from);
    }
    let half = count / 2;
    let (one, other) = thread::join(
        rt,
        || each_thread(rt, from, half, work),
        || each_thread(rt, from + half, half, work),
    );
    one + other
}

// The value that a thread puts in under a key.
fn value(thread: u32, key: u32) -> u64 {
    u64::from(key) * 10 + u64::from(thread)
}

// Whether a key is in with this value.
fn has<H: Wait + Drop>(cache: &Cache<H>, key: u32, value: u64) -> bool {
    match cache.get(0, &key) {
        Ok(Some(entry)) => *entry == value,
        _ => false,
    }
}

// Each thread reads back what it put in, at once and later.
#[test]
fn each_thread_finds_its_own(rt: HostRuntime) -> Outcome {
    for config in all_policies() {
        let cache = cache(rt, 4096, config)?;
        let found = each_thread(
            &rt,
            0,
            4,
            &|thread: u32| {
                let mut found = 0;
                for key in 100 * thread..100 * thread + 100 {
                    let put = cache.insert(0, key, value(thread, key)).is_ok();
                    found += u64::from(put && has(&cache, key, value(thread, key)));
                }
                for key in 100 * thread..100 * thread + 100 {
                    found += u64::from(has(&cache, key, value(thread, key)));
                }
                found
            },
        );
        assert_eq!(rt; (found, cache.usage(), cache.entries()), (800, 400, 400));
    }
    Ok(())
}

// Waits until something is so, ten seconds at most.
fn until<R: Clock, F: Fn() -> bool>(rt: &R, is_so: &F) {
    for _look in 0..10_000u64 {
        if is_so() {
            return;
        }
        thread::sleep(rt, Duration::from_millis(1));
    }
}

// A caller that finds another making the value gets that one's, which isn't there before the caller waits.
#[test]
fn who_waits_gets_what_another_makes(rt: HostRuntime) -> Outcome {
    for config in all_policies() {
        let cache = cache(rt, 4096, config)?;
        for key in 0..10u32 {
            let before = cache.stats();
            let (made, got) = thread::join(
                &rt,
                || {
                    let entry = cache.get_or_insert_with(0, &key, || {
                        until(&rt, &|| cache.stats().waits > before.waits);
                        Ok(value(1, key))
                    });
                    entry.map_or(0, |entry| *entry)
                },
                || {
                    until(&rt, &|| cache.stats().fetches > before.fetches);
                    let entry = cache.get_or_insert_with(0, &key, || Ok(value(2, key)));
                    entry.map_or(0, |entry| *entry)
                },
            );
            assert_eq!(rt; (made, got), (value(1, key), value(1, key)));
        }
    }
    Ok(())
}
