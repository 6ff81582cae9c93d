//! Records that expire: what leaves first at a moment, and what a fetch does with them.

use super::*;
use crate::testing::assert_evicted;
use foyer_core::{Ended, FetchTarget};
use foyer_policy::{Lfu, Lru, LruConfig, Ratio, S3Fifo, Sieve};

mod ends;
mod held;
mod later;

// Puts ten times the key in under it at a moment, with an expiry if there is one: its entry, and what left.
fn put_held<E: Eviction>(
    rt: &impl Abort,
    core: &mut Core<E>,
    now: u64,
    key: u64,
    expires: Option<u64>,
) -> (Entry, Leaves) {
    let properties = CacheProperties::default().with_expiry(expires);
    let made = core.insert_with_properties(now, key, key * 10, properties);
    taken(rt, core, made.expect(rt, "an insert"))
}

// The same, and lets its entry go: what left.
fn put_at<E: Eviction>(
    rt: &impl Abort,
    core: &mut Core<E>,
    now: u64,
    key: u64,
    expires: Option<u64>,
) -> Leaves {
    let (entry, leaves) = put_held(rt, core, now, key, expires);
    release(rt, core, entry);
    leaves
}

// Puts keys with their expiries in at 0, for which nothing leaves.
fn fill<E: Eviction>(rt: &impl Abort, core: &mut Core<E>, keys: &[(u64, Option<u64>)]) {
    for (key, expires) in keys {
        assert!(rt; put_at(rt, core, 0, *key, *expires).is_empty());
    }
}

// An eviction of all at a moment: these keys leave, in this order.
fn assert_all_evicted<E: Eviction>(rt: &impl Abort, core: &mut Core<E>, now: u64, keys: &[u64]) {
    let leaves = core.evict_all(now).expect(rt, "an eviction");
    assert_evicted(rt, &leaves, keys);
}

// An entry of a key that is found at a moment.
fn hold_at<E: Eviction>(rt: &impl Abort, core: &mut Core<E>, now: u64, key: u64) -> Entry {
    core.get(now, &key)
        .expect(rt, "a get")
        .expect(rt, "an entry")
}

// Whether a get finds the key at a moment. The entry goes back.
fn finds<E: Eviction>(rt: &impl Abort, core: &mut Core<E>, now: u64, key: u64) -> bool {
    match core.get(now, &key).expect(rt, "a get") {
        Some(entry) => {
            release(rt, core, entry);
            true
        }
        None => false,
    }
}

// A core under LRU, all of which is the pool of high priority.
fn lru(alloc: Global, capacity: usize) -> Result<Core<Lru>> {
    let ratio = Ratio { num: 1, den: 1 };
    let config = RawCacheConfig {
        eviction_config: LruConfig {
            high_priority_pool_ratio: ratio,
        },
        ..config(capacity, 1)
    };
    CacheCore::new(alloc, config)
}

// At the moment at which a record expires it is a miss and the first to leave, and not at the one before.
#[test]
fn what_is_expired_leaves_first(rt: HostRuntime) -> Done {
    for (now, is_in, first, rest) in [(10, false, 2, [1, 3, 4]), (9, true, 1, [2, 3, 4])] {
        let mut core = core(rt.alloc(), 3, 1)?;
        fill(&rt, &mut core, &[(1, None), (2, Some(10)), (3, None)]);
        assert_eq!(rt; (core.contains(now, &2), core.usage()), (is_in, 3));
        assert_evicted(&rt, &put_at(&rt, &mut core, now, 4, None), &[first]);
        assert_all_evicted(&rt, &mut core, now, &rest);
    }
    Ok(())
}

#[test]
fn what_is_pinned_stays_when_it_expires(rt: HostRuntime) -> Done {
    let mut core = lru(rt.alloc(), 2)?;
    fill(&rt, &mut core, &[(1, Some(5))]);
    let held = hold_at(&rt, &mut core, 0, 1);
    fill(&rt, &mut core, &[(2, None)]);
    assert_evicted(&rt, &put_at(&rt, &mut core, 5, 3, None), &[2]);
    release(&rt, &mut core, held);
    assert_evicted(&rt, &put_at(&rt, &mut core, 5, 4, None), &[1]);
    assert_all_evicted(&rt, &mut core, 5, &[3, 4]);
    Ok(())
}

// The hand stands at what expires, and looks from the front once that is gone.
#[test]
fn the_hand_goes_with_what_expired(rt: HostRuntime) -> Done {
    let mut core: Core<Sieve> = CacheCore::new(rt.alloc(), config(3, 1))?;
    fill(&rt, &mut core, &[(1, None), (2, None), (3, Some(5))]);
    assert!(rt; core.touch(0, &1)?);
    assert_evicted(&rt, &put_at(&rt, &mut core, 0, 4, None), &[2]);
    assert_evicted(&rt, &put_at(&rt, &mut core, 5, 5, None), &[3]);
    assert_evicted(&rt, &put_at(&rt, &mut core, 5, 6, None), &[1]);
    assert_all_evicted(&rt, &mut core, 5, &[4, 5, 6]);
    Ok(())
}

// The third of four expires, and leaves before the first.
fn leaves_first<E: Eviction>(rt: &impl Abort, alloc: Global) -> Done
where
    E::Config: Default,
{
    let mut core: Core<E> = CacheCore::new(alloc, config(4, 1))?;
    fill(
        rt,
        &mut core,
        &[(1, None), (2, None), (3, Some(5)), (4, None)],
    );
    assert_evicted(rt, &put_at(rt, &mut core, 5, 5, None), &[3]);
    assert!(rt; core.contains(5, &1) && core.entries() == 4);
    Ok(())
}

#[test]
fn what_is_expired_leaves_first_under_each_policy(rt: HostRuntime) -> Done {
    leaves_first::<Fifo>(&rt, rt.alloc())?;
    leaves_first::<Lru>(&rt, rt.alloc())?;
    leaves_first::<Lfu>(&rt, rt.alloc())?;
    leaves_first::<S3Fifo>(&rt, rt.alloc())?;
    leaves_first::<Sieve>(&rt, rt.alloc())
}

// In the policy's order, whichever expired first, and then what the policy pops.
#[test]
fn bulk_evictions_begin_with_what_is_expired(rt: HostRuntime) -> Done {
    let keys = [(1, None), (2, Some(12)), (3, Some(10)), (4, None)];
    let mut core = core(rt.alloc(), 4, 1)?;
    fill(&rt, &mut core, &keys);
    assert_all_evicted(&rt, &mut core, 12, &[2, 3, 1, 4]);
    fill(&rt, &mut core, &keys);
    assert_evicted(&rt, &core.resize(11, 2)?, &[3, 1]);
    assert_all_evicted(&rt, &mut core, 11, &[2, 4]);
    Ok(())
}

// The fetch is opened while the record is in. At a moment before its expiry the record is found all the same.
#[test]
fn a_fetch_replaces_what_is_expired(rt: HostRuntime) -> Done {
    let mut core = core(rt.alloc(), 4, 1)?;
    fill(&rt, &mut core, &[(7, Some(5))]);
    assert_eq!(rt;
        ask_at(&rt, &mut core, 5, 7, None),
        Asked::Leads(0, 0, None)
    );
    assert!(rt; !core.contains(5, &7) && core.entries() == 1);
    assert_eq!(rt; ask_at(&rt, &mut core, 4, 7, None), Asked::Hit(70));
    assert_eq!(rt; ask_at(&rt, &mut core, 6, 7, None), Asked::Waits(1));
    let ended = core.complete(5, &7, 0, FetchTarget::from(71), Source::Outer);
    let Ended {
        found,
        answers,
        leaves,
    } = ended;
    let mut entries = answers.into_parts().1.expect(&rt, "the answers");
    assert_eq!(rt; (found, entries.len()), (true, 2));
    while let Some(entry) = entries.pop() {
        assert_eq!(rt; *entry.value(), 71);
        release(&rt, &mut core, entry);
    }
    entries.destroy_empty();
    assert_left(&rt, &leaves, &[(Event::Replace, 7)]);
    assert_eq!(rt; *leaves[0].1.value(), 70);
    assert_eq!(rt; ask_at(&rt, &mut core, 5, 7, None), Asked::Hit(71));
    assert_eq!(rt; (core.usage(), core.entries()), (1, 1));
    Ok(())
}
