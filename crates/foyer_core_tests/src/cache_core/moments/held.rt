//! What knows no moment: entries that are held, pieces, and calls that ask for none.

use super::*;

#[test]
fn a_held_entry_is_as_before_when_it_expires(rt: HostRuntime) -> Done {
    let mut core = lru(rt.alloc(), 2)?;
    fill(&rt, &mut core, &[(1, Some(5))]);
    let held = hold_at(&rt, &mut core, 4, 1);
    let touched = core.touch(5, &1).expect(&rt, "a touch");
    assert!(rt; !touched && !finds(&rt, &mut core, 5, 1));
    assert_eq!(rt; (*held.value(), held.properties().expiry()), (10, Some(5)));
    assert_eq!(rt; (core.refs(&held), core.is_outdated(&held)), (1, false));
    let again = hold_at(&rt, &mut core, 4, 1);
    assert_eq!(rt; (core.refs(&held), core.is_outdated(&held)), (2, false));
    release(&rt, &mut core, again);
    assert_all_evicted(&rt, &mut core, 5, &[]);
    release(&rt, &mut core, held);
    assert_all_evicted(&rt, &mut core, 5, &[1]);
    Ok(())
}

// The second of three has expired at every moment. Nothing is told in another order for that.
#[test]
fn removals_clears_and_flushes_ask_for_no_moment(rt: HostRuntime) -> Done {
    let keys = [(1, None), (2, Some(0)), (3, None)];
    let mut core = core(rt.alloc(), 3, 1)?;
    fill(&rt, &mut core, &keys);
    assert_evicted(&rt, &core.flush_if(&|_, _| true)?, &[1, 2, 3]);
    fill(&rt, &mut core, &keys);
    let leaves = core.clear()?;
    assert_left(
        &rt,
        &leaves,
        &[(Event::Clear, 1), (Event::Clear, 2), (Event::Clear, 3)],
    );
    fill(&rt, &mut core, &keys);
    let removed = core.remove(&2).expect(&rt, "a remove");
    let (entry, left) = removed.expect(&rt, "a record");
    assert_eq!(rt; (*entry.value(), left.properties().expiry()), (20, Some(0)));
    release(&rt, &mut core, entry);
    assert_all_evicted(&rt, &mut core, 0, &[1, 3]);
    Ok(())
}

// It comes back into its own core and into another one, and expires there as before.
#[test]
fn a_piece_keeps_its_expiry(rt: HostRuntime) -> Done {
    let mut core = core(rt.alloc(), 2, 1)?;
    let config = RawCacheConfig {
        number: 2,
        ..config(2, 1)
    };
    let mut other: Core = CacheCore::new(rt.alloc(), config)?;
    fill(&rt, &mut core, &[(1, Some(5))]);
    let held = hold_at(&rt, &mut core, 0, 1);
    let piece = held.piece().expect(&rt, "a piece");
    release(&rt, &mut core, held);
    core.clear()?;
    for core in [&mut core, &mut other] {
        let piece = piece.clone().expect(&rt, "a piece");
        let made = core.insert_piece(9, piece);
        let (entry, leaves) = taken(&rt, core, made.expect(&rt, "an insert"));
        release(&rt, core, entry);
        assert!(rt; leaves.is_empty());
        assert!(rt; core.contains(4, &1) && !core.contains(5, &1));
    }
    Ok(())
}

// The record that is in has one handle more, and is as expired as before.
#[test]
fn a_piece_of_what_is_expired_changes_nothing_but_handles(rt: HostRuntime) -> Done {
    let mut core = core(rt.alloc(), 1, 1)?;
    fill(&rt, &mut core, &[(1, Some(5))]);
    let held = hold_at(&rt, &mut core, 0, 1);
    let piece = held.piece().expect(&rt, "a piece");
    let made = core.insert_piece(5, piece);
    let (again, leaves) = taken(&rt, &mut core, made.expect(&rt, "an insert"));
    assert_eq!(rt;
        (again.id(), core.refs(&held), leaves.len()),
        (held.id(), 2, 0)
    );
    assert!(rt; !core.contains(5, &1) && core.contains(4, &1));
    release(&rt, &mut core, again);
    release(&rt, &mut core, held);
    assert_evicted(&rt, &put_at(&rt, &mut core, 5, 2, None), &[1]);
    Ok(())
}
