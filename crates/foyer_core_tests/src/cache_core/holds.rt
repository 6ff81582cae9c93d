//! Handles by name, conditional changes, and whether a record would fit.

use super::*;
use foyer_core::{Foreign, Hold, ReplaceResult};
use foyer_policy::{Lru, LruConfig, Reason};

// A name of a handle of a key that is in.
fn held<E: Eviction>(rt: &impl Abort, core: &mut Core<E>, now: u64, key: u64) -> Hold {
    core.hold(now, &key)
        .expect(rt, "a hold")
        .expect(rt, "a record")
}

// A named handle goes back, and nothing leaves with it.
fn back<E: Eviction>(rt: &impl Abort, core: &mut Core<E>, hold: Hold) {
    match core.unhold(hold) {
        Ok(leave) => assert!(rt; leave.is_none()),
        Err(Foreign) => panic!(rt; "no handle"),
    }
}

// A hold counts a handle and a use, its record stays readable after it left, and goes with the last handle.
#[test]
fn a_hold_is_a_handle(rt: HostRuntime) -> Done {
    let mut core = core(rt.alloc(), 2, 1)?;
    put_tenfold(&rt, &mut core, 1);
    assert!(rt; core.hold(0, &2)?.is_none());
    let (first, second) = (held(&rt, &mut core, 0, 1), held(&rt, &mut core, 0, 1));
    assert!(rt; first == second && first.hash == 1 && first.id == 0);
    let record = core.held(first).expect(&rt, "a record");
    assert_eq!(rt;
        (
            *record.key(),
            *record.value(),
            record.weight(),
            record.hash(),
            record.refs()
        ),
        (1, 10, 1, 1, 2)
    );
    assert!(rt; !record.is_outdated() && record.properties().expiry().is_none());
    put_tenfold(&rt, &mut core, 2);
    assert_evicted(&rt, &put_tenfold(&rt, &mut core, 3), &[1]);
    assert!(rt; core.held(first).expect(&rt, "a record").is_outdated());
    back(&rt, &mut core, first);
    assert_eq!(rt; core.held(second).expect(&rt, "a record").refs(), 1);
    back(&rt, &mut core, second);
    assert!(rt; core.held(second).is_none() && core.unhold(second).is_err());
    Ok(())
}

// With a wrong slot the record is found by its id; a name of another shard, or of an id that has no handle, is foreign.
#[test]
fn a_hold_is_found_by_its_id(rt: HostRuntime) -> Done {
    let mut core = core(rt.alloc(), 400, 17)?;
    for key in 0..100 {
        put_tenfold(&rt, &mut core, key);
    }
    for key in 0..100 {
        let hold = held(&rt, &mut core, 0, key);
        let astray = Hold {
            slot: hold.slot + 1,
            ..hold
        };
        let elsewhere = Hold {
            hash: hold.hash + 1,
            ..hold
        };
        assert!(rt; core.unhold(elsewhere).is_err());
        assert_eq!(rt;
            *core.held(astray).expect(&rt, "a record").value(),
            key * 10
        );
        back(&rt, &mut core, astray);
        assert!(rt; core.unhold(hold).is_err() && core.contains(0, &key));
    }
    assert_eq!(rt; core.entries(), 100);
    Ok(())
}

// A use is counted: Sieve passes the record over. What has expired isn't held, a phantom leaves with its last handle.
#[test]
fn holds_count_uses(rt: HostRuntime) -> Done {
    let mut core: Core<Sieve> = CacheCore::new(rt.alloc(), config(2, 1))?;
    put_tenfold(&rt, &mut core, 1);
    put_tenfold(&rt, &mut core, 2);
    let hold = held(&rt, &mut core, 0, 1);
    back(&rt, &mut core, hold);
    assert_evicted(&rt, &put_tenfold(&rt, &mut core, 3), &[2]);
    let properties = CacheProperties::default().with_expiry(Some(5));
    let made = core.insert_with_properties(0, 3, 30, properties);
    let (entry, _) = taken(&rt, &mut core, made.expect(&rt, "an insert"));
    release(&rt, &mut core, entry);
    assert!(rt; core.hold(5, &3)?.is_none());
    let hold = held(&rt, &mut core, 4, 3);
    back(&rt, &mut core, hold);
    let phantom = CacheProperties::default().with_phantom(true);
    let made = core.insert_with_properties(0, 7, 70, phantom);
    let (entry, leaves) = taken(&rt, &mut core, made.expect(&rt, "an insert"));
    assert_left(&rt, &leaves, &[(Event::Remove, 7)]);
    let hold = entry.into_hold();
    assert_eq!(rt; *core.held(hold).expect(&rt, "a record").value(), 70);
    let Ok(Some((Event::Evict, left))) = core.unhold(hold) else {
        panic!(&rt; "a phantom leaves");
    };
    assert_eq!(rt; *left.key(), 7);
    Ok(())
}

// At the limit of handles a hold is refused; what LRU has pinned by one isn't evicted.
#[test]
fn holds_are_limited_and_pin(rt: HostRuntime) -> Done {
    let limits = Limits {
        handles: 2,
        ids: u64::MAX,
    };
    let config = RawCacheConfig {
        shards: 1,
        limits,
        ..RawCacheConfig::new(2)
    };
    let mut core: Core<Lru> = CacheCore::new(rt.alloc(), config)?;
    put_tenfold(&rt, &mut core, 1);
    let (first, second) = (held(&rt, &mut core, 0, 1), held(&rt, &mut core, 0, 1));
    let refused = core.hold(0, &1);
    assert!(rt; refused.is_err_and(|error| error.reason() == &Reason::Handles));
    put_tenfold(&rt, &mut core, 2);
    assert_evicted(&rt, &put_tenfold(&rt, &mut core, 3), &[2]);
    back(&rt, &mut core, first);
    assert_evicted(&rt, &put_tenfold(&rt, &mut core, 4), &[3]);
    back(&rt, &mut core, second);
    put_tenfold(&rt, &mut core, 5);
    put_tenfold(&rt, &mut core, 6);
    assert!(rt; !core.contains(0, &1));
    Ok(())
}

// Replaces a key's record if it is the one that was seen: its id, or none, and what a change shows.
fn replaced<E: Eviction>(
    rt: &impl Abort,
    core: &mut Core<E>,
    now: u64,
    seen: Option<u64>,
    key: u64,
    leaves: &mut Leaves,
) -> std::result::Result<u64, Option<Hold>> {
    let value = now + key;
    let properties = CacheProperties::default();
    match core
        .replace_if(now, seen, key, value, properties, leaves)
        .expect(rt, "memory")
    {
        ReplaceResult::Inserted(made) => {
            let InsertedOnto { entry, answers } = made;
            core.drop_answers(answers);
            let id = entry.id();
            release(rt, core, entry);
            Ok(id)
        }
        ReplaceResult::Changed(hold) => Err(hold),
    }
}

// An insert replaces the record that was seen, and no other; else the current one is held, and nothing else changes.
#[test]
fn a_record_is_replaced_if_it_was_seen(rt: HostRuntime) -> Done {
    let mut core = core(rt.alloc(), 4, 2)?;
    let mut leaves = Vec::new(rt.alloc());
    assert!(rt; replaced(&rt, &mut core, 0, Some(0), 1, &mut leaves) == Err(None));
    assert!(rt; replaced(&rt, &mut core, 0, None, 1, &mut leaves) == Ok(0));
    let Err(Some(seen)) = replaced(&rt, &mut core, 5, None, 1, &mut leaves) else {
        panic!(&rt; "it was seen");
    };
    assert_eq!(rt; *core.held(seen).expect(&rt, "a record").value(), 1);
    assert!(rt; leaves.is_empty());
    assert!(rt; replaced(&rt, &mut core, 7, Some(seen.id), 1, &mut leaves) == Ok(1));
    assert_left(&rt, &leaves, &[(Event::Replace, 1)]);
    let Err(Some(other)) = replaced(&rt, &mut core, 9, Some(seen.id), 1, &mut leaves) else {
        panic!(&rt; "it has changed");
    };
    let record = core.held(other).expect(&rt, "a record");
    assert_eq!(rt; (*record.value(), record.refs(), other.id), (8, 1, 1));
    assert_eq!(rt; (leaves.len(), core.entries()), (1, 1));
    back(&rt, &mut core, seen);
    assert!(rt; core.remove_this(seen).is_none() && core.entries() == 1);
    let left = core.remove_this(other).expect(&rt, "a record");
    assert_eq!(rt; (*left.key(), core.usage(), core.entries()), (1, 0, 0));
    assert!(rt; core.is_current(0, &1, None) && !core.is_current(0, &1, Some(1)));
    back(&rt, &mut core, other);
    Ok(())
}

// A fetch that waits for the key is answered by the insert, and stays open where nothing is inserted.
#[test]
fn a_conditional_insert_answers_who_waits(rt: HostRuntime) -> Done {
    let mut core = core(rt.alloc(), 4, 1)?;
    assert_eq!(rt; ask(&rt, &mut core, 1, None), Asked::Leads(0, 0, None));
    let mut leaves = Vec::new(rt.alloc());
    assert!(rt; replaced(&rt, &mut core, 0, Some(3), 1, &mut leaves) == Err(None));
    assert!(rt; core.is_open(&1, 0));
    assert!(rt; replaced(&rt, &mut core, 0, None, 1, &mut leaves) == Ok(0));
    assert!(rt; !core.is_open(&1, 0));
    assert!(rt; core.would_fit(&1, 4) && !core.would_fit(&1, 5));
    Ok(())
}
