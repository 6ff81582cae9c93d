//! Handles by name and questions about keys, where hashes collide and LRU has pins.

use super::*;
use foyer_core::{Foreign, Hold};

// A record of this key under a hash of its own.
fn under(hash: u64, key: u64, weight: usize) -> Data<u64, u64, CacheProperties> {
    Data {
        hash,
        ..data(key, weight)
    }
}

// Puts these data in, for which nothing leaves.
fn put_data<E: Eviction>(
    rt: &impl Abort,
    alloc: Global,
    shard: &mut Over<E>,
    kept: Data<u64, u64, CacheProperties>,
) {
    let mut leaves = Vec::new(alloc);
    let put = shard.put(0, share(rt, alloc, kept), &mut leaves);
    assert!(rt; put.is_ok_and(|last| last.is_none()) && leaves.is_empty());
}

// The name of a handle of a key that is in.
fn held<E: Eviction>(rt: &impl Abort, shard: &mut Over<E>, hash: u64, key: u64) -> Hold {
    shard
        .hold(0, hash, &key)
        .expect(rt, "a hold")
        .expect(rt, "a record")
}

fn back<E: Eviction>(rt: &impl Abort, shard: &mut Over<E>, hold: Hold) {
    match shard.unhold(hold) {
        Ok(leave) => assert!(rt; leave.is_none()),
        Err(Foreign) => panic!(rt; "no handle"),
    }
}

#[test]
fn keys_of_one_hash_are_held_apart(rt: HostRuntime) -> Done {
    let mut shard: Over<Fifo> = empty(rt.alloc(), Limits::default(), &FifoConfig {})?;
    put_data(&rt, rt.alloc(), &mut shard, under(7, 1, 1));
    put_data(&rt, rt.alloc(), &mut shard, under(7, 2, 2));
    let (one, two) = (held(&rt, &mut shard, 7, 1), held(&rt, &mut shard, 7, 2));
    assert_eq!(rt; (one.hash, one.id, two.hash, two.id), (7, 0, 7, 1));
    assert!(rt; shard.hold(0, 7, &3)?.is_none() && shard.hold(0, 8, &1)?.is_none());
    assert_eq!(rt; *shard.held(two).expect(&rt, "a record").value(), 20);
    assert!(rt; shard.is_current(0, 7, &1, Some(0)) && !shard.is_current(0, 7, &2, Some(0)));
    assert!(rt; !shard.is_current(0, 7, &2, None) && shard.is_current(0, 7, &3, None));
    back(&rt, &mut shard, one);
    assert!(rt; shard.unhold(one).is_err());
    back(&rt, &mut shard, two);
    Ok(())
}

// A touch that names its record counts a use and no handle, and is refused where a handle would be.
#[test]
fn a_touch_names_its_record(rt: HostRuntime) -> Done {
    let limits = Limits {
        handles: 1,
        ..Limits::default()
    };
    let mut shard: Over<Sieve> = empty(rt.alloc(), limits, &SieveConfig {})?;
    put_data(&rt, rt.alloc(), &mut shard, under(7, 1, 2));
    put_data(&rt, rt.alloc(), &mut shard, under(7, 2, 3));
    let named = shard.touch_named(0, 7, &1)?.expect(&rt, "a record");
    assert_eq!(rt; (named.hash, named.id), (7, 0));
    let found = shard.held(named).expect(&rt, "a record");
    assert_eq!(rt; (*found.key(), *found.value(), found.refs()), (1, 10, 0));
    assert!(rt; shard.unhold(named).is_err());
    assert!(rt; shard.touch_named(0, 7, &3)?.is_none() && shard.touch_named(0, 8, &1)?.is_none());
    let held = held(&rt, &mut shard, 7, 2);
    assert!(rt; shard.touch_named(0, 7, &2).is_err());
    back(&rt, &mut shard, held);
    // The key 1 was used, and 2 too, by its hold: Sieve passes both by, and evicts what came first.
    let mut leaves = Vec::new(rt.alloc());
    shard.put(0, share(&rt, rt.alloc(), data(9, 1)), &mut leaves)?;
    assert_left(&rt, &leaves, &[(Event::Evict, 1)]);
    assert!(rt; shard.held(named).is_none());
    Ok(())
}

// Without the use the first one leaves, with it the second.
#[test]
fn a_named_touch_is_a_use(rt: HostRuntime) -> Done {
    let mut shard: Over<Sieve> = empty(rt.alloc(), Limits::default(), &SieveConfig {})?;
    put_data(&rt, rt.alloc(), &mut shard, under(7, 1, 2));
    put_data(&rt, rt.alloc(), &mut shard, under(7, 2, 3));
    assert!(rt; shard.touch_named(0, 7, &1)?.is_some());
    let mut leaves = Vec::new(rt.alloc());
    shard.put(0, share(&rt, rt.alloc(), data(9, 1)), &mut leaves)?;
    assert_left(&rt, &leaves, &[(Event::Evict, 2)]);
    Ok(())
}

// A name removes its own record alone, and only while that is resident.
#[test]
fn a_name_removes_its_record(rt: HostRuntime) -> Done {
    let mut shard: Over<Lru> = empty(rt.alloc(), Limits::default(), &LruConfig::default())?;
    put(&rt, rt.alloc(), &mut shard, 1, 1);
    put(&rt, rt.alloc(), &mut shard, 2, 2);
    let old = held(&rt, &mut shard, 1, 1);
    let mut leaves = Vec::new(rt.alloc());
    shard.put(0, share(&rt, rt.alloc(), data(1, 2)), &mut leaves)?;
    assert_left(&rt, &leaves, &[(Event::Replace, 1)]);
    assert!(rt; !shard.is_current(0, 1, &1, Some(old.id)) && shard.remove_this(old).is_none());
    let new = held(&rt, &mut shard, 1, 1);
    assert!(rt; shard.is_current(0, 1, &1, Some(new.id)));
    let left = shard.remove_this(new).expect(&rt, "a record");
    assert_eq!(rt;
        (*left.key(), left.id(), shard.usage(), shard.entries()),
        (1, 2, 2, 1)
    );
    assert!(rt; shard.remove_this(new).is_none() && shard.held(new).is_some());
    assert!(rt; shard.is_current(0, 1, &1, None));
    back(&rt, &mut shard, new);
    back(&rt, &mut shard, old);
    assert!(rt; shard.held(new).is_none() && shard.held(old).is_none());
    let missing = Hold { id: 9, ..new };
    assert!(rt; shard.remove_this(missing).is_none() && shard.entries() == 1);
    Ok(())
}

// An expired record is none that is seen, but keeps its id until it is replaced.
#[test]
fn an_expired_record_is_not_seen(rt: HostRuntime) -> Done {
    let mut shard: Over<Fifo> = empty(rt.alloc(), Limits::default(), &FifoConfig {})?;
    let expiring = Data {
        properties: CacheProperties::default().with_expiry(Some(5)),
        ..data(1, 1)
    };
    put_data(&rt, rt.alloc(), &mut shard, expiring);
    assert!(rt; !shard.is_current(4, 1, &1, None) && shard.is_current(5, 1, &1, None));
    assert!(rt; shard.is_current(5, 1, &1, Some(0)) && !shard.is_current(5, 1, &1, Some(1)));
    assert!(rt; shard.hold(5, 1, &1)?.is_none() && shard.hold(4, 1, &1)?.is_some());
    Ok(())
}

// The shard's capacity is 5; what LRU has pinned of other keys stays, and all else leaves.
#[test]
fn a_record_fits_beside_pins(rt: HostRuntime) -> Done {
    let mut shard = three(&rt, rt.alloc())?;
    assert!(rt; shard.would_fit(9, &9, 5) && !shard.would_fit(9, &9, 6));
    let pinned = held(&rt, &mut shard, 2, 2);
    assert!(rt; shard.would_fit(9, &9, 2) && !shard.would_fit(9, &9, 3));
    assert!(rt; shard.would_fit(2, &2, 5) && !shard.would_fit(2, &2, 6));
    assert!(rt; !shard.would_fit(2, &9, 3) && !shard.would_fit(9, &9, usize::MAX));
    let mut leaves = Vec::new(rt.alloc());
    shard.put(0, share(&rt, rt.alloc(), data(9, 2)), &mut leaves)?;
    assert_eq!(rt; shard.usage(), 5);
    shard.put(0, share(&rt, rt.alloc(), data(8, 3)), &mut leaves)?;
    assert_eq!(rt; shard.usage(), 6);
    shard.set_capacity(2);
    assert!(rt; !shard.would_fit(9, &9, 0) && shard.would_fit(2, &2, 2));
    back(&rt, &mut shard, pinned);
    assert!(rt; shard.would_fit(9, &9, 2));
    Ok(())
}
