//! Records that expire, and calls at moments.

use crate::notes::Note::{Clear, Evict, Remove, Replace};
use crate::notes::Notes;
use crate::testing::cache::{Cache, heard};
use crate::testing::{BEFORE, EXPIRY, Outcome, expiring, fifo, put_three};
use foyer_core::CacheProperties;
use futures::executor::block_on;
use std::alloc::Global;
use std::sync::Wait;

// A cache for three records that has 1, 2 and 3, of which 2 expires, and what it tells.
fn three<H: Wait + Alloc<A = Global> + Copy + Drop>(rt: H) -> Outcome<(Cache<H>, Notes)> {
    let (cache, notes) = heard(rt, fifo(3, 1))?;
    put_three(&cache)?;
    Ok((cache, notes))
}

// From its expiry on a record is a miss, and before it is found, also by who asks later.
#[test]
fn a_look_up_goes_by_its_moment(rt: HostRuntime) -> Outcome {
    let (cache, notes) = three(rt)?;
    for _ in 0..2u64 {
        for now in [0, BEFORE] {
            assert!(rt; cache.contains(now, &2) && cache.touch(now, &2)?);
            assert_eq!(rt; *cache.get(now, &2)?.ok_or("none")?, 20);
        }
        for now in [EXPIRY, EXPIRY + 1, u64::MAX] {
            assert!(rt; !cache.contains(now, &2) && !cache.touch(now, &2)?);
            assert!(rt; cache.get(now, &2)?.is_none() && cache.contains(now, &1));
        }
    }
    assert_eq!(rt; (cache.usage(), cache.entries()), (3, 3));
    assert!(rt; notes.are(&[]));
    Ok(())
}

// A record that expires at 0 is a miss at all moments, and one that expires last is found before that.
#[test]
fn the_first_and_the_last_moment(rt: HostRuntime) -> Outcome {
    let (cache, _notes) = heard(rt, fifo(3, 1))?;
    for (key, expiry) in [(1u32, 0u64), (2, u64::MAX)] {
        let properties = CacheProperties::default().with_expiry(Some(expiry));
        let entry = cache.insert_with_properties(0, key, 0, properties)?;
        assert_eq!(rt; entry.properties().expiry(), Some(expiry));
    }
    assert!(rt; !cache.contains(0, &1) && !cache.contains(u64::MAX, &1));
    assert!(rt; cache.contains(u64::MAX - 1, &2) && !cache.contains(u64::MAX, &2));
    assert_eq!(rt; *cache.remove(&1)?.ok_or("none")?, 0);
    Ok(())
}

#[test]
fn an_insert_evicts_what_is_expired_first(rt: HostRuntime) -> Outcome {
    for (now, first) in [(EXPIRY, Evict(2, 20)), (BEFORE, Evict(1, 10))] {
        let (cache, notes) = three(rt)?;
        drop(cache.insert(now, 4, 40)?);
        assert!(rt; notes.are(&[first]));
        let (cache, notes) = heard(rt, fifo(3, 1))?;
        let piece = cache.insert(0, 4, 40)?.piece()?;
        drop(cache.remove(&4)?);
        put_three(&cache)?;
        notes.forget();
        drop(cache.insert_piece(now, piece)?);
        assert!(rt; notes.are(&[first]));
    }
    Ok(())
}

// What is expired leaves first, and the rest in the policy's order.
#[test]
fn calls_on_all_records_go_by_their_moment(rt: HostRuntime) -> Outcome {
    let expired = [Evict(2, 20), Evict(1, 10), Evict(3, 30)];
    let none = [Evict(1, 10), Evict(2, 20), Evict(3, 30)];
    for (now, order) in [(EXPIRY, expired), (BEFORE, none)] {
        let (cache, notes) = three(rt)?;
        cache.evict_all(now)?;
        assert!(rt; notes.are(&order));
        let (cache, notes) = three(rt)?;
        assert!(rt; block_on(&rt, cache.flush(now))?.is_ok());
        assert!(rt; notes.are(&order));
        let (cache, notes) = three(rt)?;
        cache.resize(now, 2)?;
        assert!(rt; notes.are(&order[..1]));
    }
    Ok(())
}

// A handle of an expired record is one of a record that is in.
#[test]
fn a_held_entry_knows_no_moment(rt: HostRuntime) -> Outcome {
    let (cache, _notes) = heard(rt, fifo(3, 1))?;
    let held = cache.insert_with_properties(0, 2, 20, expiring())?;
    assert!(rt; cache.get(EXPIRY, &2)?.is_none() && !cache.touch(EXPIRY, &2)?);
    assert_eq!(rt; (*held, held.refs(), held.is_outdated()), (20, 1, false));
    let again = held.try_clone()?;
    assert_eq!(rt; (*again, held.refs(), cache.usage()), (20, 2, 1));
    drop(cache.insert(EXPIRY, 2, 21)?);
    assert_eq!(rt; (*held, held.refs(), held.is_outdated()), (20, 2, true));
    Ok(())
}

#[test]
fn other_calls_know_no_moment(rt: HostRuntime) -> Outcome {
    let (cache, notes) = three(rt)?;
    assert!(rt; cache.get(EXPIRY, &2)?.is_none());
    assert_eq!(rt; *cache.remove(&2)?.ok_or("none")?, 20);
    assert!(rt; notes.are(&[Remove(2, 20)]) && cache.remove(&2)?.is_none());
    let (cache, notes) = three(rt)?;
    assert!(rt; cache.get(EXPIRY, &2)?.is_none());
    assert!(rt; block_on(&rt, cache.flush_if(|key, _| *key < 3))?.is_ok());
    assert!(rt; notes.are(&[Evict(1, 10), Evict(2, 20)]));
    let (cache, notes) = three(rt)?;
    cache.clear()?;
    assert!(rt; notes.are(&[Clear(1, 10), Clear(2, 20), Clear(3, 30)]));
    Ok(())
}

// An expired record gives way to a newer one of its key, as any does. The newer one has an expiry of its own.
#[test]
fn an_expired_record_is_replaced(rt: HostRuntime) -> Outcome {
    let (cache, notes) = heard(rt, fifo(3, 1))?;
    drop(cache.insert_with_properties(0, 2, 20, expiring())?);
    drop(cache.insert(EXPIRY, 2, 21)?);
    assert!(rt; notes.are(&[Replace(2, 20)]));
    assert_eq!(rt; *cache.get(u64::MAX, &2)?.ok_or("none")?, 21);
    Ok(())
}
