//! Records that expire, in a cache of each policy.

use crate::testing::{Cache, Look, Outcome, all_policies, at_once, builder, finish, given};
use foyer_memory::{CacheProperties, EvictionConfig};
use foyer_raw::ListSpawner;
use foyer_raw_tests::notes::Note::{Clear, Evict, Remove, Replace};
use foyer_raw_tests::notes::Notes;
use futures::executor::block_on;
use log::Log;
use std::alloc::Global;
use std::random::RandomSource;
use std::sync::Wait;

/// When records expire that do: nanoseconds since 1970, in November 2026. The lower 32 bits are 0, so that the moment
/// before it differs from it in all of them.
const EXPIRY: u64 = 418_000_000 << 32;

/// The last moment before that.
const BEFORE: u64 = EXPIRY - 1;

// The properties of a record that expires.
fn expiring() -> CacheProperties {
    CacheProperties::default().with_expiry(Some(EXPIRY))
}

// A cache of one shard for three records that has 1, 2 and 3, of which 2 expires, and what it tells.
fn three<H: Wait + Log + Alloc<A = Global> + Copy + Drop>(
    rt: H,
    config: EvictionConfig,
) -> Outcome<(Cache<H>, Notes)> {
    let notes = Notes::new(rt.alloc())?;
    let cache: Cache<H> = builder(3, config, &notes)?
        .with_shards(1)
        .build(rt, rt.alloc(), &rt)?;
    drop(cache.insert(0, 1, 10)?);
    drop(cache.insert_with_properties(0, 2, 20, expiring())?);
    drop(cache.insert(0, 3, 30)?);
    Ok((cache, notes))
}

// From its expiry on a record is a miss, and before it is found, also by who asks later.
#[test]
fn a_look_up_goes_by_its_moment(rt: HostRuntime) -> Outcome {
    for config in all_policies() {
        let (cache, notes) = three(rt, config)?;
        for _ in 0..2u64 {
            assert!(rt; cache.contains(BEFORE, &2) && cache.touch(BEFORE, &2)?);
            assert_eq!(rt; *cache.get(BEFORE, &2)?.ok_or("none")?, 20);
            assert!(rt; !cache.contains(EXPIRY, &2) && !cache.touch(EXPIRY, &2)?);
            assert!(rt; cache.get(EXPIRY, &2)?.is_none() && cache.contains(EXPIRY, &1));
        }
        assert_eq!(rt; (cache.usage(), cache.entries()), (3, 3));
        assert!(rt; notes.are(&[]));
    }
    Ok(())
}

#[test]
fn an_insert_evicts_what_is_expired_first(rt: HostRuntime) -> Outcome {
    for (now, first) in [(EXPIRY, Evict(2, 20)), (BEFORE, Evict(1, 10))] {
        for config in all_policies() {
            let (cache, notes) = three(rt, config)?;
            drop(cache.insert(now, 4, 40)?);
            assert!(rt; notes.are(&[first]));
        }
    }
    Ok(())
}

// What is expired leaves first, and the rest in the policy's order.
#[test]
fn calls_on_all_records_go_by_their_moment(rt: HostRuntime) -> Outcome {
    let expired = [Evict(2, 20), Evict(1, 10), Evict(3, 30)];
    let none = [Evict(1, 10), Evict(2, 20), Evict(3, 30)];
    for (now, order) in [(EXPIRY, expired), (BEFORE, none)] {
        for config in all_policies() {
            let (cache, notes) = three(rt, config)?;
            cache.evict_all(now)?;
            assert!(rt; notes.are(&order));
        }
        for config in all_policies() {
            let (cache, notes) = three(rt, config)?;
            assert!(rt; block_on(&rt, cache.flush(now))?.is_ok());
            assert!(rt; notes.are(&order));
        }
        for config in all_policies() {
            let (cache, notes) = three(rt, config)?;
            cache.resize(now, 2)?;
            assert!(rt; notes.are(&order[..1]));
        }
    }
    Ok(())
}

// A handle of an expired record is one of a record that is in, and a remove takes such a record out.
#[test]
fn what_is_held_or_removed_knows_no_moment(rt: HostRuntime) -> Outcome {
    for config in all_policies() {
        let (cache, notes) = three(rt, config)?;
        let held = cache.get(BEFORE, &2)?.ok_or("none")?;
        assert!(rt; cache.get(EXPIRY, &2)?.is_none() && !cache.touch(EXPIRY, &2)?);
        assert_eq!(rt; (*held, held.refs(), held.is_outdated()), (20, 1, false));
        assert_eq!(rt; held.properties().expiry(), Some(EXPIRY));
        assert_eq!(rt; *cache.remove(&2)?.ok_or("none")?, 20);
        assert!(rt; held.is_outdated() && notes.are(&[Remove(2, 20)]));
    }
    Ok(())
}

#[test]
fn what_takes_all_out_knows_no_moment(rt: HostRuntime) -> Outcome {
    for config in all_policies() {
        let (cache, notes) = three(rt, config)?;
        assert!(rt; cache.get(EXPIRY, &2)?.is_none());
        assert!(rt; block_on(&rt, cache.flush_if(|key, _| *key < 3))?.is_ok());
        assert!(rt; notes.are(&[Evict(1, 10), Evict(2, 20)]));
    }
    for config in all_policies() {
        let (cache, notes) = three(rt, config)?;
        cache.clear()?;
        assert!(rt; notes.are(&[Clear(1, 10), Clear(2, 20), Clear(3, 30)]));
    }
    Ok(())
}

// What a look-up of 2 at a moment answers whose fetch has ended, where one began.
fn fetched<H: Wait + RandomSource + Alloc<A = Global> + Drop>(
    rt: &H,
    cache: &Cache<H>,
    now: u64,
) -> Outcome<Look<H>> {
    let mut spawner = ListSpawner::new(rt.alloc());
    let look = cache.get_or_fetch(now, &2, || given(21), &mut spawner)?;
    finish(rt, spawner)?;
    Ok(look)
}

// An expired record blocks no fetch of its key, and what is fetched replaces it. Before its expiry it is a hit.
#[test]
fn what_is_expired_is_fetched_anew(rt: HostRuntime) -> Outcome {
    for config in all_policies() {
        let notes = Notes::new(rt.alloc())?;
        let cache: Cache<HostRuntime> = builder(3, config, &notes)?
            .with_shards(1)
            .build(rt, rt.alloc(), &rt)?;
        drop(cache.insert_with_properties(0, 2, 20, expiring())?);
        let hit = fetched(&rt, &cache, BEFORE)?;
        assert!(rt; !hit.need_await() && notes.are(&[]));
        assert_eq!(rt; *at_once(&rt, hit)??, 20);
        let wait = fetched(&rt, &cache, EXPIRY)?;
        assert!(rt; wait.need_await() && notes.are(&[Replace(2, 20)]));
        assert_eq!(rt; *at_once(&rt, wait)??, 21);
        assert!(rt; cache.contains(u64::MAX, &2));
    }
    Ok(())
}

// A task completes at its leader's moment: where 2 was expired then it makes room, and else the oldest.
#[test]
fn a_task_completes_at_its_leaders_moment(rt: HostRuntime) -> Outcome {
    for (now, first) in [(EXPIRY, Evict(2, 20)), (BEFORE, Evict(1, 10))] {
        for config in all_policies() {
            let (cache, notes) = three(rt, config)?;
            let mut spawner = ListSpawner::new(rt.alloc());
            let wait = cache.get_or_fetch(now, &7, || given(70), &mut spawner)?;
            finish(&rt, spawner)?;
            assert!(rt; notes.are(&[first]));
            assert_eq!(rt; *at_once(&rt, wait)??, 70);
        }
    }
    Ok(())
}
