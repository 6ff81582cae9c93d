//! Items whose weights are 0, or as great as may be.

use crate::any::defaults;
use crate::policies::{assert_order, item, push};
use foyer_policy::{AnyEviction, Eviction, Item, Lru, LruConfig, Place};
use std::test::Fail;

const ITEMS: usize = 6;

// Together they weigh 2^64 - 1.
const WEIGHTS: [usize; ITEMS] = [0, usize::MAX - (1 << 40) - 2, 0, 1 << 40, 2, 0];

fn weighed(id: usize) -> Item {
    Item {
        weight: WEIGHTS[id],
        ..item(id as u64)
    }
}

fn push_all<E: Eviction>(policy: &mut E) -> Result<[Place; ITEMS], Fail> {
    let mut places = [Place::at(0); ITEMS];
    for (id, place) in places.iter_mut().enumerate() {
        *place = push(policy, weighed(id))?;
    }
    Ok(places)
}

// By both kinds of pops, also after uses of some.
#[test]
fn items_of_each_weight_leave_once(rt: HostRuntime) -> Result<(), Fail> {
    for config in &defaults() {
        for (capacity, used) in [
            (0, 0),
            (8, 3),
            (1 << 40, ITEMS),
            (usize::MAX, 0),
            (usize::MAX, 3),
        ] {
            let mut policy = AnyEviction::new(rt.alloc(), capacity, config)?;
            for place in push_all(&mut policy)?.iter().take(used) {
                policy.acquire(*place);
                policy.release(*place);
            }
            assert_eq!(rt; policy.order()?.len(), ITEMS);
            let mut times = [0u64; ITEMS];
            for turn in 0..ITEMS {
                let popped = if turn % 2 == 0 {
                    policy.pop()?
                } else {
                    policy.pop_at()?.map(|(_, item)| item)
                };
                let Some(item) = popped else {
                    panic!(rt; "{turn} have left of {ITEMS} at {capacity}")
                };
                let id = item.id as usize;
                assert_eq!(rt; item, weighed(id));
                times[id] += 1;
            }
            assert_eq!(rt; times, [1; ITEMS]);
            assert!(rt; policy.pop()?.is_none() && policy.pop_at()?.is_none());
            assert_order(&rt, &policy, &[])?;
        }
    }
    Ok(())
}

#[test]
fn lru_pins_items_of_each_weight(rt: HostRuntime) -> Result<(), Fail> {
    let mut lru = Lru::new(rt.alloc(), usize::MAX, &LruConfig::default())?;
    let places = push_all(&mut lru)?;
    let mut pinned = 0;
    for (place, weight) in places.iter().zip(WEIGHTS) {
        lru.acquire(*place);
        pinned += weight;
        assert!(rt; lru.is_pinned(*place));
        assert_eq!(rt; lru.pinned_weight(), pinned);
    }
    assert_eq!(rt; lru.pop()?, None);
    for (id, place) in places.iter().enumerate() {
        lru.release(*place);
        assert_eq!(rt; lru.pop()?, Some(weighed(id)));
    }
    assert_eq!(rt; lru.pinned_weight(), 0);
    Ok(())
}
