//! Requests for memory that a policy, an index or a key refuses once: what stands then, and that the same call then
//! succeeds.

use super::*;
use crate::refusing::{RefusingIndex, RefusingPolicy};
use crate::testing::assert_evicted;
use foyer_core::{HashTableIndexer, Indexed};

mod keys;

// A record weighs what its value says.
#[derive(Drop)]
struct ByValue;

impl Weighter<u64, u64> for ByValue {
    ghost use Rattle.std.specs.Prelude.{◌≡◌};

    ghost weighs = { λ _ _ value w. w ≡ value };

    fn weigh(&self, _key: &u64, value: &u64) -> usize {
        *value as usize
    }
}

// A core each of whose shards has a policy that refuses the request of this number.
type Hostile<const AT: u64, I = TagFinder<u64>> = Core<
    RefusingPolicy<Fifo, AT>,
    ByValue,
    AdmitAll,
    I,
>;

// One that holds nothing.
fn hostile<const AT: u64, I: Finder<u64>>(
    alloc: Global,
    capacity: usize,
    shards: usize,
) -> Result<Hostile<AT, I>> {
    CacheCore::with_index(alloc, config(capacity, shards).with_weighter(ByValue))
}

// Puts a record in and lets its entry go: its id, or none where memory is refused, and what left.
fn put_weight<const AT: u64, I: Finder<u64>>(
    rt: &impl Abort,
    core: &mut Hostile<AT, I>,
    key: u64,
    weight: u64,
) -> (Option<u64>, Leaves) {
    match core.insert(0, key, weight) {
        Ok(made) => {
            let (entry, leaves) = taken(rt, core, made);
            let id = entry.id();
            release(rt, core, entry);
            (Some(id), leaves)
        }
        Err(refused) => {
            assert_eq!(rt; refused.error.number(), 7);
            (None, refused.leaves)
        }
    }
}

// Four records give way to one that is as heavy as all of them, but that insert is refused once so many have left.
fn insert_is_refused<const AT: u64, I: Finder<u64>>(
    rt: &impl Abort,
    alloc: Global,
    gone: usize,
) -> Done {
    let keys = [1, 2, 3, 4];
    let mut core: Hostile<AT, I> = hostile(alloc, 4, 1)?;
    for key in keys {
        assert!(rt; put_weight(rt, &mut core, key, 1).0.is_some());
    }
    let (id, leaves) = put_weight(rt, &mut core, 5, 4);
    assert!(rt; id.is_none() && !core.contains(0, &5));
    assert_evicted(rt, &leaves, &keys[..gone]);
    assert_eq!(rt; core.usage(), 4 - gone as u128);
    let (id, leaves) = put_weight(rt, &mut core, 5, 4);
    assert_eq!(rt; (id, core.usage(), core.entries()), (Some(4), 4, 1));
    assert_evicted(rt, &leaves, &keys[gone..]);
    Ok(())
}

// The first insert asks the policy for four nodes. The fifth asks it for more by the request of number 1, and for
// evictions by those from number 2 on. The index is asked last of all.
#[test]
fn a_refused_insert_has_evicted_a_beginning(rt: HostRuntime) -> Done {
    const NEVER: u64 = u64::MAX;
    insert_is_refused::<1, TagFinder<u64>>(&rt, rt.alloc(), 0)?;
    insert_is_refused::<2, TagFinder<u64>>(&rt, rt.alloc(), 0)?;
    insert_is_refused::<4, TagFinder<u64>>(&rt, rt.alloc(), 2)?;
    type Refusing = Indexed<RefusingIndex<HashTableIndexer<u64>, 4>>;
    insert_is_refused::<NEVER, Refusing>(&rt, rt.alloc(), 4)
}

// Of two shards the second has five records: its policy alone is asked as often as five times.
#[test]
fn a_refused_eviction_of_all_has_a_beginning(rt: HostRuntime) -> Done {
    let keys = [0, 1, 3, 5, 7, 9];
    let mut core: Hostile<4> = hostile(rt.alloc(), 64, 2)?;
    for key in keys {
        assert!(rt; put_weight(&rt, &mut core, key, 1).0.is_some());
    }
    let Err(refused) = core.evict_all(0) else {
        panic!(&rt; "the eviction is not refused");
    };
    assert_eq!(rt; (refused.error.number(), core.usage()), (7, 3));
    assert_evicted(&rt, &refused.leaves, &keys[..3]);
    assert_evicted(&rt, &core.evict_all(0)?, &keys[3..]);
    Ok(())
}
