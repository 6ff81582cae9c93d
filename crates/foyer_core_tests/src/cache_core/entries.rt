//! Entries: touches, removes, clones, leaves and pieces.

use super::*;

#[test]
fn removed_records_stay_with_their_handles(rt: HostRuntime) -> Done {
    let mut core = core(rt.alloc(), 2, 1)?;
    let (first, _) = put(&rt, &mut core, 1, 10);
    let second = core.clone_handle(&first).expect(&rt, "a clone");
    assert_eq!(rt; (core.refs(&first), core.is_outdated(&first)), (2, false));
    let removed = core.remove(&1).expect(&rt, "a remove");
    let (third, left) = removed.expect(&rt, "a record");
    assert_eq!(rt; (*left.key(), left.id(), third.id()), (1, 0, 0));
    assert_eq!(rt; (core.refs(&second), core.is_outdated(&second)), (3, true));
    assert_eq!(rt;
        (first.source(), third.source()),
        (Source::Outer, Source::Memory)
    );
    assert_eq!(rt; (core.usage(), *third.value()), (0, 10));
    release(&rt, &mut core, first);
    release(&rt, &mut core, second);
    release(&rt, &mut core, third);
    assert!(rt; !core.contains(0, &1));
    Ok(())
}

#[test]
fn touches_keep_no_handle(rt: HostRuntime) -> Done {
    let mut core = core(rt.alloc(), 2, 1)?;
    put_tenfold(&rt, &mut core, 1);
    assert!(rt; core.touch(0, &1)? && !core.touch(0, &2)?);
    let entry = found(&rt, &mut core, 1);
    assert_eq!(rt; core.refs(&entry), 1);
    release(&rt, &mut core, entry);
    Ok(())
}

// An entry makes a leave of its record's data once.
#[test]
fn a_leave_has_its_record_s_data(rt: HostRuntime) -> Done {
    let mut core = core(rt.alloc(), 1, 1)?;
    let (mut entry, _) = put(&rt, &mut core, 7, 70);
    let left = entry.left().expect(&rt, "a leave");
    assert!(rt; entry.left().is_none());
    assert_eq!(rt;
        (entry.hash(), entry.weight(), entry.properties().hint()),
        (7, 1, Hint::Normal)
    );
    release(&rt, &mut core, entry);
    assert_eq!(rt;
        (left.hash(), left.weight(), left.properties().hint()),
        (7, 1, Hint::Normal)
    );
    let leaves = put_tenfold(&rt, &mut core, 8);
    assert!(rt; leaves[0].1 == left && left.clone()? == left);
    let piece = left.piece();
    assert_eq!(rt;
        (*piece.key(), *piece.value(), piece.properties().hint()),
        (7, 70, Hint::Normal)
    );
    Ok(())
}

// Under its id: as one handle more where it is in, and else anew.
#[test]
fn a_piece_brings_its_record_back(rt: HostRuntime) -> Done {
    let mut core = core(rt.alloc(), 1, 1)?;
    let (first, _) = put(&rt, &mut core, 1, 10);
    let piece = first.piece().expect(&rt, "a piece");
    let made = core.insert_piece(0, first.piece().expect(&rt, "a piece"));
    let (second, leaves) = taken(&rt, &mut core, made.expect(&rt, "an insert"));
    assert_eq!(rt; (second.id(), core.refs(&first), leaves.len()), (0, 2, 0));
    release(&rt, &mut core, first);
    release(&rt, &mut core, second);
    put_tenfold(&rt, &mut core, 2);
    let made = core.insert_piece(0, piece);
    let (third, leaves) = taken(&rt, &mut core, made.expect(&rt, "an insert"));
    assert_eq!(rt;
        (third.id(), *third.value(), third.source()),
        (0, 10, Source::Memory)
    );
    release(&rt, &mut core, third);
    assert_left(&rt, &leaves, &[(Event::Evict, 2)]);
    Ok(())
}

// A read counts a use and keeps no handle; a peek counts none. What has expired is seen by neither.
#[test]
fn reads_and_peeks_see_values(rt: HostRuntime) -> Done {
    let mut core: Core<Sieve> = CacheCore::new(rt.alloc(), config(2, 1))?;
    put_tenfold(&rt, &mut core, 1);
    put_tenfold(&rt, &mut core, 2);
    assert_eq!(rt; core.peek(0, &1, |value| value + 1), Some(11));
    assert!(rt;
        core.read(0, &3, |value| *value)?.is_none() && core.peek(0, &3, |value| *value).is_none()
    );
    assert_evicted(&rt, &put_tenfold(&rt, &mut core, 3), &[1]);
    assert_eq!(rt; core.read(0, &2, |value| value + 1)?, Some(21));
    assert_evicted(&rt, &put_tenfold(&rt, &mut core, 4), &[3]);
    let entry = found(&rt, &mut core, 2);
    assert_eq!(rt; core.refs(&entry), 1);
    release(&rt, &mut core, entry);
    Ok(())
}
