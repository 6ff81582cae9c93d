//! An eviction that found nothing expired doesn't hide what expires later. Each test makes one first, at the moment 10.

use super::*;

// The third expires at 20, and the first two never do. What expired at 5 was removed, and so there is none at 10.
fn none_yet(rt: &impl Abort, alloc: Global) -> Result<Core<Lru>> {
    let mut core = lru(alloc, 3)?;
    fill(rt, &mut core, &[(9, Some(5))]);
    let removed = core.remove(&9).expect(rt, "a remove");
    release(rt, &mut core, removed.expect(rt, "a record").0);
    fill(rt, &mut core, &[(1, None), (2, None), (3, Some(20))]);
    assert_evicted(rt, &put_at(rt, &mut core, 10, 4, None), &[1]);
    Ok(core)
}

#[test]
fn what_was_in_expires_later(rt: HostRuntime) -> Done {
    for (now, first) in [(20, 3), (19, 2)] {
        let mut core = none_yet(&rt, rt.alloc())?;
        assert_evicted(&rt, &put_at(&rt, &mut core, now, 5, None), &[first]);
    }
    Ok(())
}

// It comes in after that eviction and expires before all that was in.
#[test]
fn what_comes_in_expires_later(rt: HostRuntime) -> Done {
    let mut core = none_yet(&rt, rt.alloc())?;
    assert_evicted(&rt, &put_at(&rt, &mut core, 12, 5, Some(15)), &[2]);
    assert_evicted(&rt, &put_at(&rt, &mut core, 15, 6, None), &[5]);
    assert_evicted(&rt, &put_at(&rt, &mut core, 20, 7, None), &[3]);
    assert_all_evicted(&rt, &mut core, 20, &[4, 6, 7]);
    Ok(())
}

// Its entry is held since it came in, which pins nothing.
#[test]
fn what_comes_in_and_is_held_expires_later(rt: HostRuntime) -> Done {
    let mut core = none_yet(&rt, rt.alloc())?;
    let (held, leaves) = put_held(&rt, &mut core, 12, 5, Some(15));
    assert_evicted(&rt, &leaves, &[2]);
    assert_evicted(&rt, &put_at(&rt, &mut core, 15, 6, None), &[5]);
    assert!(rt; core.is_outdated(&held));
    release(&rt, &mut core, held);
    Ok(())
}

// What is expired already when it comes in is the next to leave.
#[test]
fn what_comes_in_expired_leaves_next(rt: HostRuntime) -> Done {
    let mut core = none_yet(&rt, rt.alloc())?;
    assert_evicted(&rt, &put_at(&rt, &mut core, 10, 5, Some(3)), &[2]);
    assert!(rt; !core.contains(10, &5));
    assert_evicted(&rt, &put_at(&rt, &mut core, 10, 6, None), &[5]);
    Ok(())
}

// It expired while it was pinned, and leaves once it is released.
#[test]
fn what_is_released_leaves_next(rt: HostRuntime) -> Done {
    let mut core = lru(rt.alloc(), 3)?;
    fill(&rt, &mut core, &[(1, Some(5)), (2, None), (3, None)]);
    let held = hold_at(&rt, &mut core, 0, 1);
    assert_evicted(&rt, &put_at(&rt, &mut core, 10, 4, None), &[2]);
    release(&rt, &mut core, held);
    assert_evicted(&rt, &put_at(&rt, &mut core, 10, 5, None), &[1]);
    assert_all_evicted(&rt, &mut core, 10, &[3, 4, 5]);
    Ok(())
}

// It was used last, and leaves first all the same.
#[test]
fn what_is_touched_expires_later(rt: HostRuntime) -> Done {
    let mut core = none_yet(&rt, rt.alloc())?;
    assert!(rt; core.touch(19, &3)? && !core.touch(20, &3)?);
    assert_evicted(&rt, &put_at(&rt, &mut core, 20, 5, None), &[3]);
    assert_all_evicted(&rt, &mut core, 20, &[2, 4, 5]);
    Ok(())
}

// A piece of what left comes back with its expiry.
#[test]
fn what_comes_back_expires_later(rt: HostRuntime) -> Done {
    let mut core = none_yet(&rt, rt.alloc())?;
    let held = hold_at(&rt, &mut core, 10, 3);
    let piece = held.piece().expect(&rt, "a piece");
    release(&rt, &mut core, held);
    assert_all_evicted(&rt, &mut core, 10, &[2, 4, 3]);
    fill(&rt, &mut core, &[(5, None), (6, None)]);
    let made = core.insert_piece(10, piece);
    let (entry, leaves) = taken(&rt, &mut core, made.expect(&rt, "an insert"));
    release(&rt, &mut core, entry);
    assert!(rt; leaves.is_empty());
    assert_evicted(&rt, &put_at(&rt, &mut core, 20, 7, None), &[3]);
    Ok(())
}
