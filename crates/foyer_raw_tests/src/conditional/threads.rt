//! Conditional calls of threads that meet.

use crate::testing::{Outcome, fifo, limited};
use crate::threads::{Flags, is_up};
use foyer_core::{CacheProperties, Limits};
use foyer_policy::{Fifo, ModHasher, Result};
use foyer_raw::{NoListener, RawCache, Replaced};
use std::alloc::Global;
use std::sync::atomic::Ordering;
use std::sync::{Arc, Wait};
use std::thread;
use std::thread::Threads;
use std::time::Clock;

type Cache<H> = RawCache<H, Fifo, u32, u64, ModHasher>;

/// A value whose drop waits until the other thread has looked, if that is told.
struct Slow<C: Clock + Drop> {
    rt: C,
    flags: Option<Arc<Flags, Global>>,
}

impl<C: Clock + Drop> Drop for Slow<C> {
    fn drop(self) {
        let Slow { rt, flags } = self;
        if let Some(flags) = flags {
            flags.wait_inside(&rt);
        }
    }
}

// Has a value dropped that isn't inserted: the key has another record than was seen, the record doesn't fit, or no id is
// left for it.
fn drop_value<H: Wait + Clock + Drop + 'static>(
    cache: &RawCache<H, Fifo, u32, Slow<H>, ModHasher>,
    call: u64,
    value: Slow<H>,
) -> bool {
    let properties = CacheProperties::default();
    match call {
        0 => cache.replace_if(0, None, 1, value, properties).is_ok(),
        1 => matches!(cache.insert_if_fits(0, 2, value, properties), Ok(None)),
        _ => match cache.get(0, &1) {
            Ok(Some(seen)) => cache
                .replace_if(0, Some(&seen), 1, value, properties)
                .is_err(),
            _ => false,
        },
    }
}

// While the value of a record is dropped that wasn't inserted, another thread looks into the same shard.
#[test]
fn no_lock_is_held_while_a_value_is_dropped(rt: HostRuntime) -> Outcome {
    for call in 0..3u64 {
        let flags = Arc::new(rt.alloc(), Flags::new())?;
        let config = limited(
            0,
            Limits {
                ids: 1,
                ..Limits::default()
            },
        );
        let cache: RawCache<HostRuntime, Fifo, u32, Slow<HostRuntime>, ModHasher> = RawCache::new(
            rt,
            rt.alloc(),
            config,
            NoListener::new(),
        )?;
        drop(cache.insert(0, 1, Slow { rt, flags: None })?);
        let value = Slow {
            rt,
            flags: Some(Arc::try_clone(&flags)?),
        };
        let (ended, _) = thread::join(
            &rt,
            || drop_value(&cache, call, value),
            || {
                if is_up(&rt, &flags.inside) && !cache.contains(0, &3) {
                    flags.looked.store(1, Ordering::SeqCst);
                }
            },
        );
        assert!(rt; ended && flags.were_seen(), "call {call}");
    }
    Ok(())
}

// Adds 1 to the number of a key, which begins as missing.
fn add_one<H: Wait + Drop>(cache: &Cache<H>, key: u32) -> Result<bool> {
    let mut seen = cache.get(0, &key)?;
    for _turn in 0..1_000_000u64 {
        let next = match &seen {
            Some(entry) => **entry + 1,
            None => 1,
        };
        match cache.replace_if(0, seen.as_ref(), key, next, CacheProperties::default())? {
            Replaced::Inserted(_) => return Ok(true),
            Replaced::Changed(found) => seen = found,
        }
    }
    Ok(false)
}

// Lets so many threads count so far. How many steps they made.
fn count_on<H: Wait + Threads + Sync + Send + Drop>(
    rt: &H,
    cache: &Cache<H>,
    threads: u32,
    steps: u32,
) -> u64 {
    if threads == 1 {
        return (0..steps)
            .map(|step| u64::from(matches!(add_one(cache, step % 4), Ok(true))))
            .sum();
    }
    let half = threads / 2;
    let (one, other) = thread::join(
        rt,
        || count_on(rt, cache, half, steps),
        || count_on(rt, cache, threads - half, steps),
    );
    one + other
}

// Eight threads count in four records of two shards, and no step is lost.
#[test]
fn eight_threads_count_exactly(rt: HostRuntime) -> Outcome {
    let cache: Cache<HostRuntime> = RawCache::new(rt, rt.alloc(), fifo(64, 2), NoListener::new())?;
    assert_eq!(rt; count_on(&rt, &cache, 8, 400), 3200);
    for key in 0..4u32 {
        assert!(rt; cache.get_copied(0, &key)? == Some(800));
    }
    let stats = cache.stats();
    assert_eq!(rt; (stats.inserts, stats.replaced), (3200, 3196));
    Ok(())
}
