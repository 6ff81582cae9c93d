//! Fetches at moments.

use super::*;
use crate::notes::Note::{Evict, Replace};
use crate::testing::{BEFORE, EXPIRY, expiring, put_three};

// An expired record blocks no fetch of its key. It is in until what is fetched replaces it, and whoever asks at a moment
// before finds it.
#[test]
fn what_is_expired_is_fetched_anew(rt: HostRuntime) -> Outcome {
    let (cache, notes) = heard(rt, fifo(4, 1))?;
    let held = cache.insert_with_properties(0, 7, 70, expiring())?;
    let mut spawner = ListSpawner::new(rt.alloc());
    let first = look_at(&cache, EXPIRY, &mut spawner, (None, must(1, Ok(value(5)))))?;
    let second = look_at(&cache, EXPIRY, &mut spawner, NONE)?;
    assert!(rt; first.need_await() && second.need_await());
    let hit = look_at(&cache, BEFORE, &mut spawner, NONE)?;
    assert_eq!(rt; *got(&rt, hit)?, 70);
    assert_eq!(rt; (cache.usage(), cache.entries()), (1, 1));
    assert!(rt; notes.are(&[]) && !held.is_outdated());
    finish(&rt, spawner)?;
    assert!(rt; notes.are(&[Replace(7, 70)]) && held.is_outdated());
    let (first, second) = (got(&rt, first)?, got(&rt, second)?);
    assert_eq!(rt; (*first, *second, *held), (5, 5, 70));
    assert_eq!(rt; (cache.usage(), cache.contains(u64::MAX, &7)), (1, true));
    Ok(())
}

// A look-up with a closure is led by what it is led by with builders.
#[test]
fn a_closure_is_called_for_what_is_expired(rt: HostRuntime) -> Outcome {
    let notes = Notes::new(rt.alloc())?;
    let listener = Ear(notes.share()?);
    let cache: Cache<HostRuntime, Direct<Later<Surely>>> = RawCache::new(
        rt,
        rt.alloc(),
        fifo(4, 1),
        listener,
    )?;
    drop(cache.insert_with_properties(0, 7, 70, expiring())?);
    for (now, is_led) in [(BEFORE, false), (EXPIRY, true)] {
        let mut spawner = ListSpawner::new(rt.alloc());
        let look = cache.get_or_fetch(now, &7, || after_polls(0, Ok(value(5))), &mut spawner)?;
        assert_eq!(rt; look.need_await(), is_led);
        finish(&rt, spawner)?;
    }
    assert!(rt; notes.are(&[Replace(7, 70)]));
    Ok(())
}

// A task completes at its leader's moment, whoever else asks, and whenever it is polled: where 2 was expired then it
// makes room, and else the oldest.
#[test]
fn a_task_completes_at_its_leaders_moment(rt: HostRuntime) -> Outcome {
    for (now, other, first) in [(EXPIRY, 0, Evict(2, 20)), (BEFORE, EXPIRY, Evict(1, 10))] {
        let (cache, notes) = heard(rt, fifo(3, 1))?;
        put_three(&cache)?;
        let mut spawner = ListSpawner::new(rt.alloc());
        let wait = look_at(&cache, now, &mut spawner, (None, must(1, Ok(value(5)))))?;
        let also = look_at(&cache, other, &mut spawner, NONE)?;
        finish(&rt, spawner)?;
        assert!(rt; notes.are(&[first]));
        assert_eq!(rt; (*got(&rt, wait)?, *got(&rt, also)?), (5, 5));
    }
    Ok(())
}

// So it is with a piece, and with what an optional fetch gives.
#[test]
fn a_piece_comes_in_at_its_leaders_moment(rt: HostRuntime) -> Outcome {
    for (now, first) in [(EXPIRY, Evict(2, 20)), (BEFORE, Evict(1, 10))] {
        let (cache, notes) = heard(rt, fifo(3, 1))?;
        let piece = cache.insert(0, 7, 70)?.piece()?;
        drop(cache.remove(&7)?);
        put_three(&cache)?;
        notes.forget();
        let mut spawner = ListSpawner::new(rt.alloc());
        let optional = optionally(0, Ok(Some(FetchTarget::Piece(piece))));
        let wait = look_at(&cache, now, &mut spawner, (optional, None))?;
        finish(&rt, spawner)?;
        assert!(rt; notes.are(&[first]));
        assert_eq!(rt; *got(&rt, wait)?, 70);
    }
    Ok(())
}

// What is fetched may be expired when it comes in: who waits gets it, and a look-up at that moment fetches anew.
#[test]
fn an_expired_value_answers_who_waits(rt: HostRuntime) -> Outcome {
    let (cache, _notes) = heard(rt, fifo(4, 1))?;
    let target = FetchTarget::Entry {
        value: 5,
        properties: expiring(),
    };
    let mut spawner = ListSpawner::new(rt.alloc());
    let wait = look_at(&cache, EXPIRY, &mut spawner, (None, must(0, Ok(target))))?;
    finish(&rt, spawner)?;
    let entry = got(&rt, wait)?;
    assert_eq!(rt; (*entry, entry.is_outdated()), (5, false));
    assert!(rt; !cache.contains(EXPIRY, &7) && cache.contains(BEFORE, &7));
    Ok(())
}
