//! Counts of a core's calls, as its caller keeps them.

use super::*;
use foyer_core::{Counted, Stats};
use std::fmt::Write;

// Counts what left at a moment.
fn count_leaves(stats: &mut Stats, now: u64, leaves: &Leaves) {
    for (event, left) in leaves {
        stats.count_left(now, *event, left);
    }
}

// Puts ten times the key in under it at a moment, with these properties, lets its entry go, and counts.
fn put_counted(
    rt: &impl Abort,
    core: &mut Core,
    stats: &mut Stats,
    now: u64,
    key: u64,
    properties: CacheProperties,
) {
    let made = core.insert_with_properties(now, key, key * 10, properties);
    let (entry, leaves) = taken(rt, core, made.expect(rt, "an insert"));
    stats.count_insert(entry.properties());
    count_leaves(stats, now, &leaves);
    if let Some((event, left)) = core.drop_entry(entry) {
        stats.count_left(now, event, &left);
    }
}

// Takes a key's record out, and counts.
fn remove_counted(rt: &impl Abort, core: &mut Core, stats: &mut Stats, key: u64) {
    let removed = core.remove(&key).expect(rt, "a remove");
    let (entry, left) = removed.expect(rt, "a record");
    stats.count_left(0, Event::Remove, &left);
    release(rt, core, entry);
}

fn plain() -> CacheProperties {
    CacheProperties::default()
}

#[test]
fn each_call_has_its_count(rt: HostRuntime) {
    let none = Stats::default();
    for (call, counts) in [
        (Counted::Hit, Stats { hits: 1, ..none }),
        (Counted::Miss, Stats { misses: 1, ..none }),
        (
            Counted::Fetch,
            Stats {
                misses: 1,
                fetches: 1,
                ..none
            },
        ),
        (
            Counted::Wait,
            Stats {
                misses: 1,
                waits: 1,
                ..none
            },
        ),
        (Counted::Insert, Stats { inserts: 1, ..none }),
        (Counted::Refused, Stats { refused: 1, ..none }),
    ] {
        let mut stats = none;
        stats.count(call);
        assert!(rt; stats == counts, "{call:?}: {stats:?}");
    }
}

// Three fit: the fourth evicts the first, which isn't expired, and the fifth the third, which is.
#[test]
fn each_event_has_its_count(rt: HostRuntime) -> Done {
    let mut core = core(rt.alloc(), 3, 1)?;
    let mut stats = Stats::default();
    put_counted(&rt, &mut core, &mut stats, 0, 1, plain());
    put_counted(&rt, &mut core, &mut stats, 0, 2, plain());
    let expires = plain().with_expiry(Some(10));
    put_counted(&rt, &mut core, &mut stats, 0, 3, expires);
    put_counted(&rt, &mut core, &mut stats, 9, 4, plain());
    put_counted(&rt, &mut core, &mut stats, 10, 5, plain());
    put_counted(&rt, &mut core, &mut stats, 10, 5, plain());
    remove_counted(&rt, &mut core, &mut stats, 4);
    count_leaves(&mut stats, 0, &core.clear()?);
    let counts = Stats {
        inserts: 6,
        evictions: 3,
        expired: 1,
        replaced: 1,
        removed: 1,
        cleared: 1,
        ..Stats::default()
    };
    assert!(rt; stats == counts, "{stats:?}");
    Ok(())
}

// Neither as it is inserted nor as it leaves. The record whose key it takes counts.
#[test]
fn a_phantom_is_not_counted(rt: HostRuntime) -> Done {
    let mut core = core(rt.alloc(), 3, 1)?;
    let mut stats = Stats::default();
    put_counted(&rt, &mut core, &mut stats, 0, 1, plain().with_phantom(true));
    assert!(rt; stats == Stats::default(), "{stats:?}");
    put_counted(
        &rt,
        &mut core,
        &mut stats,
        0,
        1,
        plain().with_phantom(false),
    );
    put_counted(&rt, &mut core, &mut stats, 0, 1, plain().with_phantom(true));
    let counts = Stats {
        inserts: 1,
        replaced: 1,
        ..Stats::default()
    };
    assert!(rt; stats == counts, "{stats:?}");
    Ok(())
}

// Counts of distinct numbers, from this one on.
fn from(first: u64) -> Stats {
    Stats {
        hits: first,
        misses: first.wrapping_add(1),
        inserts: first.wrapping_add(2),
        evictions: first.wrapping_add(3),
        expired: first.wrapping_add(4),
        replaced: first.wrapping_add(5),
        removed: first.wrapping_add(6),
        cleared: first.wrapping_add(7),
        fetches: first.wrapping_add(8),
        waits: first.wrapping_add(9),
        refused: first.wrapping_add(10),
    }
}

#[test]
fn counts_are_added_and_go_on_from_0(rt: HostRuntime) {
    let mut stats = from(0);
    stats.add(&from(u64::MAX - 4));
    let sums = Stats {
        hits: u64::MAX - 4,
        misses: u64::MAX - 2,
        inserts: u64::MAX,
        evictions: 1,
        expired: 3,
        replaced: 5,
        removed: 7,
        cleared: 9,
        fetches: 11,
        waits: 13,
        refused: 15,
    };
    assert!(rt; stats == sums, "{stats:?}");
    stats.count(Counted::Insert);
    assert_eq!(rt; stats.inserts, 0);
}

#[test]
fn each_count_has_its_name(rt: HostRuntime) -> Done {
    let mut text = String::new(rt.alloc());
    for (name, count) in from(1).named() {
        write!(text, "{name} {count} ")?;
    }
    let wanted =
        "hits 1 misses 2 inserts 3 evictions 4 expired 5 replaced 6 removed 7 cleared 8 fetches 9 waits 10 refused 11 ";
    assert_eq!(rt; text.as_str(), wanted);
    Ok(())
}
