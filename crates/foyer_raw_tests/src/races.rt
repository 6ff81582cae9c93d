//! Calls of threads that meet, whichever goes first.

use crate::testing::builders::{Later, Must, Surely, after_polls, value};
use crate::testing::{Outcome, fifo};
use foyer_core::{AdmitAll, CacheProperties, RawCacheConfig, UnitWeighter};
use foyer_policy::{Fifo, Hint, Lru, LruConfig, ModHasher, Properties, Ratio};
use foyer_raw::{Direct, ListSpawner, NoListener, NoopPipe, RawCache, RawFetch, RawGetOrFetch};
use futures::Future;
use futures::executor::block_on;
use futures::task::{Context, Poll};
use std::alloc::Global;
use std::sync::Wait;
use std::sync::atomic::{AtomicU64, Ordering};
use std::thread;
use std::thread::yield_now;
use std::time::{Clock, Duration};

/// A cache that fetches what is required.
type Fetching<H> = RawCache<
    H,
    Fifo,
    u32,
    u64,
    ModHasher,
    CacheProperties,
    UnitWeighter,
    AdmitAll,
    NoListener<u32, u64>,
    NoopPipe<u32, u64>,
    Direct<Later<Surely>>,
>;

/// A look-up in it.
type Look<H> = RawGetOrFetch<
    H,
    Fifo,
    u32,
    u64,
    ModHasher,
    CacheProperties,
    UnitWeighter,
    AdmitAll,
    NoListener<u32, u64>,
    NoopPipe<u32, u64>,
    Must,
>;

/// The tasks of its fetches.
type Tasks<H> = ListSpawner<
    RawFetch<
        H,
        Fifo,
        u32,
        u64,
        ModHasher,
        CacheProperties,
        UnitWeighter,
        AdmitAll,
        NoListener<u32, u64>,
        NoopPipe<u32, u64>,
        Direct<Later<Surely>>,
    >,
>;

/// How many keys are inserted while the waits for them are dropped.
const KEYS: u32 = 400;

/// How many wait for each.
const WAITS: u32 = 32;

// Waits until the other thread has come as far as this one, or for long enough.
fn meet(mine: &AtomicU64, other: &AtomicU64) {
    let step = mine.fetch_add(1, Ordering::SeqCst);
    for _ in 0..1_000_000u64 {
        if other.load(Ordering::SeqCst) > step {
            return;
        }
        yield_now();
    }
}

/// The waits for one key. The first is polled until it is answered, or for long enough, and the others are dropped then,
/// the last one first.
#[derive(Drop)]
struct Crossing<H: Wait + Drop> {
    first: Look<H>,
    others: Vec<Look<H>>,
}

impl<H: Wait + Drop> Future for Crossing<H> {
    type Output = ();

    fn poll(&mut self, cx: &mut Context<'_>) -> Poll<()> {
        let mut answer = self.first.poll(cx);
        for _ in 0..10_000u64 {
            if !matches!(answer, Poll::Pending) {
                break;
            }
            answer = self.first.poll(cx);
        }
        while let Some(wait) = self.others.pop() {
            drop(wait);
        }
        drop(answer);
        Poll::Ready(())
    }
}

// The waits for each key, and the tasks of the fetches.
fn crossings<H: Wait + Drop + 'static>(
    cache: &Fetching<H>,
    alloc: Global,
    spawner: &mut Tasks<H>,
) -> Outcome<Vec<Crossing<H>>> {
    let fetch = || after_polls(0, Ok(value(69)));
    let mut all = Vec::new(alloc);
    for key in 0..KEYS {
        let first = cache.get_or_fetch(0, &key, fetch, spawner)?;
        let mut others = Vec::new(alloc);
        for _ in 0..WAITS {
            others.push(cache.get_or_fetch(0, &key, fetch, spawner)?)?;
        }
        all.push(Crossing { first, others })?;
    }
    Ok(all)
}

// Waits are dropped while an insert answers them, and the two meet. No handle remains.
#[test]
fn a_wait_is_dropped_while_it_is_answered(rt: HostRuntime) -> Outcome {
    let config = fifo(KEYS as usize, 1);
    let cache: Fetching<HostRuntime> = RawCache::new(rt, rt.alloc(), config, NoListener::new())?;
    let mut spawner = ListSpawner::new(rt.alloc());
    let crossings = crossings(&cache, rt.alloc(), &mut spawner)?;
    let [inserter, dropper] = [AtomicU64::new(0), AtomicU64::new(0)];
    thread::join(
        &rt,
        || {
            for key in 0..KEYS {
                meet(&inserter, &dropper);
                drop(cache.insert(0, key, 70));
            }
        },
        || {
            for crossing in crossings {
                meet(&dropper, &inserter);
                drop(block_on(&rt, crossing));
            }
        },
    );
    for key in 0..KEYS {
        assert_eq!(rt; cache.get(0, &key)?.ok_or("none")?.refs(), 1);
    }
    Ok(())
}

// While a resize evicts, no greater one begins: it would leave more in.
#[test]
fn resizes_take_turns(rt: HostRuntime) -> Outcome {
    let config = fifo(8192, 64);
    let cache: Fetching<HostRuntime> = RawCache::new(rt, rt.alloc(), config, NoListener::new())?;
    for _ in 0..4u64 {
        for key in 0..8192u32 {
            drop(cache.insert(0, key, 0)?);
        }
        // the first of both needs a new thread, and begins later
        let (greater, smaller) = thread::join(
            &rt,
            || cache.resize(0, 8192),
            || cache.resize(0, 64),
        );
        greater?;
        smaller?;
        assert_eq!(rt; cache.usage(), 64);
        cache.resize(0, 8192)?;
    }
    Ok(())
}

// Waits until a flag is up, for so many milliseconds at most. Whether it is.
fn is_up(rt: &impl Clock, flag: &AtomicU64, turns: u64) -> bool {
    for _ in 0..turns {
        if flag.load(Ordering::SeqCst) == 1 {
            return true;
        }
        thread::sleep(rt, Duration::from_millis(1));
    }
    false
}

// LRU whose pool of high priority is all of the capacity, or nothing.
fn pool(num: u32) -> LruConfig {
    LruConfig {
        high_priority_pool_ratio: Ratio { num, den: 1 },
    }
}

// Whether the first shard, which has room for three and is empty, evicts what has a low priority first.
fn has_pool<H: Wait + Drop>(cache: &RawCache<H, Lru, u32, u64, ModHasher>) -> Outcome<bool> {
    let low = CacheProperties::default().with_hint(Hint::Low);
    drop(cache.insert(0, 0, 0)?);
    drop(cache.insert(0, 2, 0)?);
    drop(cache.insert_with_properties(0, 4, 0, low)?);
    drop(cache.insert(0, 6, 0)?);
    let has = cache.contains(0, &0);
    for key in [0u32, 2, 4, 6] {
        drop(cache.remove(&key)?);
    }
    Ok(has)
}

// Waits until the first shard has its pool, and then asks for the capacity.
fn ask_for_capacity<H: Wait + Clock + Drop>(
    rt: &H,
    cache: &RawCache<H, Lru, u32, u64, ModHasher>,
) -> Outcome<usize> {
    for _ in 0..10_000u64 {
        if has_pool(cache)? {
            break;
        }
        thread::sleep(rt, Duration::from_millis(1));
    }
    Ok(cache.capacity())
}

// Who asks for the capacity waits for a reconfiguration that has told the first shard and not yet the second, which a
// predicate keeps locked.
#[test]
fn a_reconfiguration_takes_turns_with_resizes(rt: HostRuntime) -> Outcome {
    let config: RawCacheConfig<_, ModHasher, _, _> = RawCacheConfig {
        shards: 2,
        eviction_config: pool(0),
        ..RawCacheConfig::new(6)
    };
    let cache: RawCache<HostRuntime, Lru, u32, u64, ModHasher> = RawCache::new(
        rt,
        rt.alloc(),
        config,
        NoListener::new(),
    )?;
    drop(cache.insert(0, 1, 10)?);
    let [inside, answered, seen] = [AtomicU64::new(0), AtomicU64::new(0), AtomicU64::new(0)];
    let (_, (_, asked)) = thread::join(
        &rt,
        || {
            cache.flush_if(|key, _| {
                inside.store(*key as u64, Ordering::SeqCst);
                if is_up(&rt, &answered, 500) {
                    seen.store(1, Ordering::SeqCst);
                }
                false
            })
        },
        || {
            is_up(&rt, &inside, 10_000);
            thread::join(
                &rt,
                || cache.configure(&pool(1)),
                || {
                    let asked = ask_for_capacity(&rt, &cache);
                    answered.store(1, Ordering::SeqCst);
                    asked
                },
            )
        },
    );
    let capacity = asked?;
    assert_eq!(rt; (capacity, seen.load(Ordering::SeqCst)), (6, 0));
    Ok(())
}
