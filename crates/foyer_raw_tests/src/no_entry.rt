//! Calls that return no entry: reads, peeks, puts and deletes.

use crate::notes::Note::{Evict, Piece, Remove, Replace};
use crate::notes::{Ear, Notes};
use crate::testing::builders::{must, value};
use crate::testing::cache::{finish, got, heard, piped};
use crate::testing::{BEFORE, EXPIRY, Outcome, expiring, fifo, limited, number, phantom};
use foyer_core::{AdmitAll, CacheProperties, Limits, RawCacheConfig, Stats, UnitWeighter};
use foyer_core_tests::refusing::RefusingKey;
use foyer_policy::{Fifo, FifoConfig, ModHasher, Sieve, SieveConfig};
use foyer_raw::{ListSpawner, NoListener, RawCache};
use std::sync::Arc;
use std::sync::atomic::{AtomicU64, Ordering};

/// A cache that writes down what it tells.
type Sieved<H> = RawCache<
    H,
    Sieve,
    u32,
    u64,
    ModHasher,
    CacheProperties,
    UnitWeighter,
    AdmitAll,
    Ear,
>;

/// A cache of values whose clones may be refused.
type Refusing<H> = RawCache<H, Fifo, u32, RefusingKey, ModHasher>;

// A read counts a use and a peek none; neither keeps a handle, so a limit of one is never met.
#[test]
fn a_read_is_a_use_and_a_peek_is_none(rt: HostRuntime) -> Outcome {
    for reads in [true, false] {
        let notes = Notes::new(rt.alloc())?;
        let config: RawCacheConfig<SieveConfig, ModHasher, UnitWeighter, AdmitAll> =
            RawCacheConfig {
                shards: 1,
                limits: Limits {
                    handles: 1,
                    ..Limits::default()
                },
                ..RawCacheConfig::new(2)
            };
        let cache: Sieved<HostRuntime> = RawCache::new(
            rt,
            rt.alloc(),
            config,
            Ear(notes.share()?),
        )?;
        cache.put(0, 1, 10)?;
        cache.put(0, 2, 20)?;
        for _again in 0..3 {
            if reads {
                assert!(rt; cache.read(0, &1, |value| *value)? == Some(10));
            } else {
                assert!(rt; cache.peek(0, &1, |value| *value) == Some(10));
            }
        }
        cache.put(0, 3, 30)?;
        assert!(rt;
            notes.are(if reads {
                &[Evict(2, 20)]
            } else {
                &[Evict(1, 10)]
            })
        );
        assert_eq!(rt; cache.get(0, &3)?.ok_or("none")?.refs(), 1);
        let stats = cache.stats();
        assert_eq!(rt; (stats.hits, stats.misses), (if reads { 4 } else { 1 }, 0));
    }
    Ok(())
}

// What has expired is not seen; the closure is called once, for a hit alone.
#[test]
fn what_has_expired_is_not_read(rt: HostRuntime) -> Outcome {
    let (cache, _notes) = heard(rt, fifo(4, 2))?;
    cache.put_with_properties(0, 2, 20, expiring())?;
    let mut calls = 0u64;
    for (now, found) in [(BEFORE, Some(20)), (EXPIRY, None), (u64::MAX, None)] {
        assert!(rt; cache.peek(now, &2, |value| *value) == found);
        assert!(rt; cache.get_copied(now, &2)? == found && cache.get_cloned(now, &2)? == found);
        let seen = cache.read(now, &2, |value| {
            calls += 1;
            *value
        })?;
        assert!(rt; seen == found);
    }
    assert_eq!(rt; calls, 1);
    let stats = cache.stats();
    assert_eq!(rt; (stats.hits, stats.misses, stats.inserts), (3, 6, 1));
    assert_eq!(rt; cache.entries(), 1);
    Ok(())
}

// A put tells what its insert tells, and then what its entry would.
#[test]
fn a_put_tells_as_an_insert_and_a_drop(rt: HostRuntime) -> Outcome {
    let (cache, notes) = piped(rt, fifo(2, 1))?;
    for (key, value) in [(1, 10), (2, 20), (3, 30), (3, 31)] {
        cache.put(0, key, value)?;
    }
    assert!(rt;
        notes.are(&[
            Evict(1, 10),
            Piece(1, 10),
            Evict(2, 20),
            Piece(2, 20),
            Replace(3, 30)
        ])
    );
    notes.forget();
    cache.put_with_properties(0, 3, 100, phantom())?;
    cache.put_with_properties(0, 4, 101, phantom())?;
    assert!(rt;
        notes.are(&[
            Replace(3, 31),
            Remove(3, 100),
            Evict(3, 100),
            Piece(3, 100),
            Remove(4, 101),
            Evict(4, 101),
            Piece(4, 101)
        ])
    );
    assert_eq!(rt; (cache.usage(), cache.entries()), (0, 0));
    let stats = cache.stats();
    assert_eq!(rt;
        (
            stats.inserts,
            stats.evictions,
            stats.replaced,
            stats.removed
        ),
        (4, 2, 2, 0)
    );
    Ok(())
}

// A caller that waits gets the record of a put, as of an insert; the put keeps no handle of it.
#[test]
fn a_put_answers_those_who_wait(rt: HostRuntime) -> Outcome {
    for is_phantom in [false, true] {
        let (cache, notes) = piped(rt, fifo(4, 1))?;
        let mut tasks = ListSpawner::new(rt.alloc());
        let builders = (None, must(3, Ok(value(5))));
        let wait = cache.get_or_fetch_inner(0, &7, || builders.0, || builders.1, (), &mut tasks)?;
        if is_phantom {
            cache.put_with_properties(0, 7, 70, phantom())?;
        } else {
            cache.put(0, 7, 70)?;
        }
        finish(&rt, tasks)?;
        let entry = got(&rt, wait)?;
        assert_eq!(rt;
            (*entry, entry.refs(), entry.is_outdated()),
            (70, 1, is_phantom)
        );
        drop(entry);
        if is_phantom {
            assert!(rt; notes.are(&[Remove(7, 70), Evict(7, 70), Piece(7, 70)]));
        } else {
            assert!(rt; notes.are(&[]) && cache.get_copied(0, &7)? == Some(70));
        }
    }
    Ok(())
}

// A delete takes a record out, and what is held of it can still be read.
#[test]
fn a_delete_leaves_what_is_held(rt: HostRuntime) -> Outcome {
    let (cache, notes) = piped(rt, fifo(4, 2))?;
    let held = cache.insert(0, 1, 10)?;
    cache.put(0, 2, 20)?;
    cache.put_with_properties(0, 3, 30, expiring())?;
    assert!(rt; cache.delete(&1)? && cache.delete(&2)? && cache.delete(&3)? && !cache.delete(&3)?);
    assert!(rt; notes.are(&[Remove(1, 10), Remove(2, 20), Remove(3, 30)]));
    assert_eq!(rt; (*held, held.refs(), held.is_outdated()), (10, 1, true));
    assert!(rt; cache.peek(0, &1, |value| *value).is_none() && cache.entries() == 0);
    drop(held);
    assert!(rt; notes.are(&[Remove(1, 10), Remove(2, 20), Remove(3, 30)]));
    assert_eq!(rt; cache.stats().removed, 3);
    Ok(())
}

// F9 at the limit of handles, F10 without ids; nothing has changed, and no closure is called.
#[test]
fn calls_without_an_entry_are_refused(rt: HostRuntime) -> Outcome {
    let (cache, notes) = heard(rt, limited(2, Limits { handles: 1, ids: 2 }))?;
    let held = cache.insert(0, 1, 10)?;
    let mut is_called = false;
    let read = cache.read(0, &1, |_value| is_called = true);
    assert_eq!(rt; (number(read), is_called), (Some(9), false));
    assert_eq!(rt; number(cache.get_copied(0, &1)), Some(9));
    assert_eq!(rt; number(cache.delete(&1)), Some(9));
    assert!(rt; cache.peek(0, &1, |value| *value) == Some(10));
    cache.put(0, 2, 20)?;
    assert_eq!(rt; number(cache.put(0, 3, 30)), Some(10));
    assert_eq!(rt;
        number(cache.put_with_properties(0, 1, 11, phantom())),
        Some(10)
    );
    assert!(rt; notes.are(&[]) && cache.contains(0, &1) && cache.contains(0, &2));
    drop(held);
    assert!(rt; cache.read(0, &1, |value| *value)? == Some(10) && cache.delete(&1)?);
    let stats = cache.stats();
    assert_eq!(rt; (stats.inserts, stats.refused, stats.hits), (2, 2, 1));
    let (cache, _notes) = heard(rt, limited(2, Limits { handles: 0, ids: 1 }))?;
    assert_eq!(rt; number(cache.put(0, 1, 10)), Some(9));
    assert!(rt;
        cache.stats()
            == Stats {
                refused: 1,
                ..Stats::default()
            }
    );
    Ok(())
}

// Sums over many shards, of which some stay empty.
#[test]
fn many_shards_are_put_and_deleted(rt: HostRuntime) -> Outcome {
    for shards in [17, 65, 1000] {
        let (cache, _notes) = heard(rt, fifo(4 * shards, shards))?;
        for key in 0..3000u32 {
            cache.put(0, key / 4 * 7, u64::from(key) << 33)?;
        }
        let (mut sum, mut found, mut deleted) = (0u64, 0u64, 0u64);
        for key in 0..6000u32 {
            let peeked = cache.peek(0, &key, |value| *value);
            let read = cache.read(0, &key, |value| *value)?;
            assert!(rt; peeked == read && read.is_some() == cache.contains(0, &key));
            if let Some(value) = read {
                sum = sum.wrapping_add(value >> 33);
                found += 1;
                deleted += u64::from(cache.delete(&key)?);
            }
        }
        let stats = cache.stats();
        assert_eq!(rt;
            (stats.inserts, stats.hits, stats.removed),
            (3000, found, deleted)
        );
        assert_eq!(rt; u128::from(found), u128::from(deleted) + cache.entries());
        assert_eq!(rt; stats.replaced, 2250);
        assert!(rt; sum > 0 && cache.usage() == 0);
    }
    Ok(())
}

// A clone that is refused is F7, and still a use: the record is found by the next.
#[test]
fn a_value_s_clone_may_be_refused(rt: HostRuntime) -> Outcome {
    let grants = Arc::new(rt.alloc(), AtomicU64::new(0))?;
    let config: RawCacheConfig<FifoConfig, ModHasher, UnitWeighter, AdmitAll> = RawCacheConfig::new(
        4,
    );
    let cache: Refusing<HostRuntime> = RawCache::new(rt, rt.alloc(), config, NoListener::new())?;
    cache.put(0, 1, RefusingKey::new(7, &grants)?)?;
    assert_eq!(rt; number(cache.get_cloned(0, &1)), Some(7));
    assert_eq!(rt; cache.get(0, &1)?.ok_or("none")?.refs(), 1);
    grants.store(1, Ordering::SeqCst);
    let clone = cache.get_cloned(0, &1)?.ok_or("none")?;
    assert!(rt; clone == RefusingKey::new(7, &grants)? && cache.get_cloned(0, &2)?.is_none());
    assert_eq!(rt; (cache.stats().hits, cache.stats().misses), (3, 1));
    // So it is where the record would be inserted again.
    assert_eq!(rt; number(cache.set_expires(0, &1, Some(1))), Some(7));
    assert!(rt; cache.contains(1, &1) && cache.get(0, &1)?.ok_or("none")?.refs() == 1);
    grants.store(1, Ordering::SeqCst);
    assert!(rt; cache.set_expires(0, &1, Some(1))? && !cache.contains(1, &1));
    let stats = cache.stats();
    assert_eq!(rt; (stats.hits, stats.inserts, stats.refused), (6, 2, 1));
    Ok(())
}
