//! Many threads at one cache.

use crate::testing::builders::{Later, Surely, after_polls, value};
use crate::testing::cache::at_once;
use crate::testing::{Outcome, fifo, phantom};
use foyer_core::{AdmitAll, CacheProperties, UnitWeighter};
use foyer_policy::{Event, EventListener, Fifo, ModHasher};
use foyer_raw::{Direct, ListSpawner, NoListener, NoopPipe, RawCache};
use std::alloc::Global;
use std::sync::atomic::{AtomicU64, Ordering};
use std::sync::{Arc, Wait};
use std::thread;
use std::time::{Clock, Duration};

type Cache<H> = RawCache<H, Fifo, u32, u64, ModHasher>;

// Inserts a thousand keys with this value. How many inserts were accepted.
fn insert_all<H: Wait + Drop>(cache: &Cache<H>, value: u64) -> u64 {
    (0..1000u32)
        .map(|key| u64::from(cache.insert(0, key, value).is_ok()))
        .sum()
}

#[test]
fn two_threads_insert_and_drop(rt: HostRuntime) -> Outcome {
    let cache: Cache<HostRuntime> = RawCache::new(rt, rt.alloc(), fifo(64, 4), NoListener::new())?;
    let done = thread::join(&rt, || insert_all(&cache, 1), || insert_all(&cache, 2));
    assert_eq!(rt; done, (1000, 1000));
    assert!(rt; cache.usage() <= 64);
    assert_eq!(rt; cache.entries(), cache.usage());
    Ok(())
}

/// Waits until a flag is up, ten seconds at most. Whether it is.
pub(crate) fn is_up(rt: &impl Clock, flag: &AtomicU64) -> bool {
    for _ in 0..10_000u64 {
        if flag.load(Ordering::SeqCst) == 1 {
            return true;
        }
        thread::sleep(rt, Duration::from_millis(1));
    }
    false
}

/// What two threads tell each other.
#[derive(Drop)]
pub(crate) struct Flags {
    pub(crate) inside: AtomicU64,
    pub(crate) looked: AtomicU64,
    seen: AtomicU64,
}

impl Flags {
    /// No flag is up.
    pub(crate) fn new() -> Self {
        Flags {
            inside: AtomicU64::new(0),
            looked: AtomicU64::new(0),
            seen: AtomicU64::new(0),
        }
    }

    /// Says that it is inside, and waits until the other has looked.
    pub(crate) fn wait_inside(&self, rt: &impl Clock) {
        self.inside.store(1, Ordering::SeqCst);
        if is_up(rt, &self.looked) {
            self.seen.store(1, Ordering::SeqCst);
        }
    }

    /// Whether the other looked while this was inside.
    pub(crate) fn were_seen(&self) -> bool {
        self.seen.load(Ordering::SeqCst) == 1
    }
}

// Flushes nothing. Under the lock of key 0's shard it waits until the other has looked.
fn flush_slowly<H: Wait + Drop>(rt: &impl Clock, cache: &Cache<H>, flags: &Flags) {
    let flush = cache.flush_if(|key, _| {
        if *key == 0 {
            flags.wait_inside(rt);
        }
        false
    });
    drop(flush);
}

// While a predicate runs under the lock of the first shard, another thread looks into the second one.
#[test]
fn each_shard_has_a_lock_of_its_own(rt: HostRuntime) -> Outcome {
    let cache: Cache<HostRuntime> = RawCache::new(rt, rt.alloc(), fifo(64, 2), NoListener::new())?;
    drop(cache.insert(0, 0, 10)?);
    drop(cache.insert(0, 1, 11)?);
    let flags = Flags::new();
    thread::join(
        &rt,
        || flush_slowly(&rt, &cache, &flags),
        || {
            if is_up(&rt, &flags.inside) && cache.contains(0, &1) {
                flags.looked.store(1, Ordering::SeqCst);
            }
        },
    );
    assert!(rt; flags.were_seen());
    assert_eq!(rt; cache.entries(), 2);
    Ok(())
}

// While a predicate runs under the lock of the second shard, another thread looks for a key there, and finds it once the
// lock is free.
#[test]
fn a_shard_whose_lock_is_held_is_waited_for(rt: HostRuntime) -> Outcome {
    let cache: Cache<HostRuntime> = RawCache::new(rt, rt.alloc(), fifo(64, 2), NoListener::new())?;
    drop(cache.insert(0, 1, 11)?);
    let flags = Flags::new();
    thread::join(
        &rt,
        || {
            drop(cache.flush_if(|_, _| {
                flags.inside.store(1, Ordering::SeqCst);
                thread::sleep(&rt, Duration::from_millis(200));
                false
            }));
        },
        || {
            if is_up(&rt, &flags.inside) && cache.contains(0, &1) {
                flags.looked.store(1, Ordering::SeqCst);
            }
        },
    );
    assert_eq!(rt; flags.looked.load(Ordering::SeqCst), 1);
    Ok(())
}

/// A listener that waits, each time that it is told a leave, until the other thread has looked.
#[derive(Drop)]
struct Patient<C: Clock + Drop> {
    rt: C,
    flags: Arc<Flags, Global>,
}

impl<C: Clock + Drop + 'static> EventListener for Patient<C> {
    type Key = u32;

    type Value = u64;

    fn on_leave(&self, _event: Event, _key: &u32, _value: &u64) {
        self.flags.wait_inside(&self.rt);
    }
}

/// A cache that tells it, and fetches what is required.
type Told<H> = RawCache<
    H,
    Fifo,
    u32,
    u64,
    ModHasher,
    CacheProperties,
    UnitWeighter,
    AdmitAll,
    Patient<H>,
    NoopPipe<u32, u64>,
    Direct<Later<Surely>>,
>;

// Makes one of the calls by which key 1 leaves a cache of one record. Whether it was accepted.
fn make_leave<H: Wait + Clock + Drop + 'static>(cache: &Told<H>, call: u64) -> bool {
    match call {
        0 => cache.insert(0, 2, 20).is_ok(),
        1 => cache.insert(0, 1, 11).is_ok(),
        2 => cache.insert_with_properties(0, 1, 11, phantom()).is_ok(),
        3 => cache.remove(&1).is_ok(),
        4 => cache.clear().is_ok(),
        5 => cache.evict_all(0).is_ok(),
        6 => cache.resize(0, 0).is_ok(),
        7 => {
            drop(cache.flush(0));
            true
        }
        8 => match cache.get(0, &1) {
            Ok(Some(seen)) => cache
                .replace_if(0, Some(&seen), 1, 11, CacheProperties::default())
                .is_ok(),
            _ => false,
        },
        9 => match cache.get(0, &1) {
            Ok(Some(seen)) => cache.remove_this(&seen),
            _ => false,
        },
        10 => cache
            .insert_if_fits(0, 2, 20, CacheProperties::default())
            .is_ok(),
        _ => {
            drop(cache.flush_if(|_, _| true));
            true
        }
    }
}

// While a listener is told, another thread looks into the same shard, and asks for the capacity.
#[test]
fn no_lock_is_held_while_a_leave_is_told(rt: HostRuntime) -> Outcome {
    for call in 0..12u64 {
        let flags = Arc::new(rt.alloc(), Flags::new())?;
        let listener = Patient {
            rt,
            flags: Arc::try_clone(&flags)?,
        };
        let cache: Told<HostRuntime> = RawCache::new(rt, rt.alloc(), fifo(1, 1), listener)?;
        drop(cache.insert(0, 1, 10)?);
        let (accepted, _) = thread::join(
            &rt,
            || make_leave(&cache, call),
            || {
                if is_up(&rt, &flags.inside) && !cache.contains(0, &3) && cache.capacity() <= 1 {
                    flags.looked.store(1, Ordering::SeqCst);
                }
            },
        );
        assert!(rt; accepted && flags.were_seen(), "call {call}");
    }
    Ok(())
}

// An insert answers who waits for its key before it tells what it evicted.
#[test]
fn who_waits_is_answered_before_a_leave_is_told(rt: HostRuntime) -> Outcome {
    let flags = Arc::new(rt.alloc(), Flags::new())?;
    let listener = Patient {
        rt,
        flags: Arc::try_clone(&flags)?,
    };
    let cache: Told<HostRuntime> = RawCache::new(rt, rt.alloc(), fifo(1, 1), listener)?;
    drop(cache.insert(0, 1, 10)?);
    let mut spawner = ListSpawner::new(rt.alloc());
    let wait = cache.get_or_fetch(0, &7, || after_polls(0, Ok(value(69))), &mut spawner)?;
    let (accepted, answer) = thread::join(
        &rt,
        || cache.insert(0, 7, 70).is_ok(),
        || -> Outcome<u64> {
            is_up(&rt, &flags.inside);
            let entry = at_once(&rt, wait)??.ok_or("none")?;
            flags.looked.store(1, Ordering::SeqCst);
            Ok(*entry)
        },
    );
    assert_eq!(rt; (answer?, accepted, flags.were_seen()), (70, true, true));
    Ok(())
}
