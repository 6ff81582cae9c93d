//! Calls on all records of a core.

use super::*;
use foyer_policy::{AnyEviction, EvictionConfig, LfuConfig, Lru, LruConfig, Ratio};

#[test]
fn what_a_predicate_takes_leaves_in_order(rt: HostRuntime) -> Done {
    let mut core = core(rt.alloc(), 256, 4)?;
    for key in 0..9 {
        put_tenfold(&rt, &mut core, key);
    }
    let leaves = core.flush_if(&|key, value| *key % 2 == 0 && *value < 60 || *key == 8)?;
    let evicted = [
        (Event::Evict, 0),
        (Event::Evict, 4),
        (Event::Evict, 8),
        (Event::Evict, 2),
    ];
    assert_left(&rt, &leaves, &evicted);
    assert_eq!(rt; (core.usage(), core.entries()), (5, 5));
    Ok(())
}

// What is held is pinned under LRU.
#[test]
fn what_is_pinned_survives(rt: HostRuntime) -> Done {
    let mut core: Core<Lru> = CacheCore::new(rt.alloc(), config(5, 1))?;
    let ratio = Ratio { num: 1, den: 1 };
    core.reconfigure(&LruConfig {
        high_priority_pool_ratio: ratio,
    })?;
    for key in 1..4 {
        let (entry, _) = put(&rt, &mut core, key, 10);
        release(&rt, &mut core, entry);
    }
    let held = found(&rt, &mut core, 2);
    let leaves = core.evict_all(0).expect(&rt, "an eviction");
    release(&rt, &mut core, held);
    assert_left(&rt, &leaves, &[(Event::Evict, 1), (Event::Evict, 3)]);
    assert!(rt; core.contains(0, &2) && core.usage() == 1);
    Ok(())
}

// The configuration of another policy is refused, before its fault, and then nothing has changed: what was used leaves
// last, as under LRU.
#[test]
fn another_policy_is_refused(rt: HostRuntime) -> Done {
    let mut core: Core<AnyEviction> = CacheCore::new(rt.alloc(), config(4, 1))?;
    for key in 1..4 {
        let (entry, _) = put(&rt, &mut core, key, 10);
        release(&rt, &mut core, entry);
    }
    let refused = |done: Result<()>| done.err().map(|error| error.number());
    let ratio = Ratio { num: 2, den: 1 };
    let lfu = EvictionConfig::from(LfuConfig {
        window_capacity_ratio: ratio,
        ..LfuConfig::default()
    });
    assert_eq!(rt; refused(core.reconfigure(&lfu)), Some(17));
    let lru = EvictionConfig::from(LruConfig {
        high_priority_pool_ratio: ratio,
    });
    assert_eq!(rt; refused(core.reconfigure(&lru)), Some(3));
    assert_eq!(rt; refused(core.reconfigure(&EvictionConfig::default())), None);

    let used = found(&rt, &mut core, 1);
    release(&rt, &mut core, used);
    assert!(rt; put_tenfold(&rt, &mut core, 4).is_empty());
    let leaves = put_tenfold(&rt, &mut core, 5);
    assert_left(&rt, &leaves, &[(Event::Evict, 2)]);
    Ok(())
}
