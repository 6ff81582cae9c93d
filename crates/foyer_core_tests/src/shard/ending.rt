//! The end of a shard tells what is in, each record once.

use super::*;
use crate::refusing::RefusingPolicy;
use std::cell::RefCell;
use std::test::Fail;

// The keys and values that a shard's end tells, in order.
fn ending<E: Eviction>(
    alloc: Global,
    shard: Over<E>,
) -> std::result::Result<Vec<(u64, u64)>, Fail> {
    let mut room = Vec::new(alloc);
    room.reserve(8)?;
    let told = RefCell::new(room);
    shard.finish(&|key: &u64, value: &u64| {
        if let Ok(mut told) = told.try_borrow_mut() {
            let _ = told.push((*key, *value));
        }
    });
    Ok(told.into_inner())
}

// The least recently used comes first. What was taken out is not told.
#[test]
fn all_that_is_in_is_told_in_order(rt: HostRuntime) -> Done {
    let mut shard: Over<Lru> = empty(rt.alloc(), Limits::default(), &LruConfig::default())?;
    for key in 1..5 {
        put(&rt, rt.alloc(), &mut shard, key, 1);
    }
    assert!(rt; shard.touch(0, 1, &1)?);
    take_out(&rt, &mut shard, 3);
    let told = ending(rt.alloc(), shard)?;
    assert_eq!(rt; told.as_slice(), [(2, 20), (4, 40), (1, 10)].as_slice());
    Ok(())
}

// What the end of a shard with three records tells, of which the first was used last, where the policy's request of
// this number is refused. The first insert makes one, counted from 0, and the end makes one.
fn end_of_three<const AT: u64>(
    rt: &impl Abort,
    alloc: Global,
) -> std::result::Result<Vec<(u64, u64)>, Fail> {
    let config = LruConfig::default();
    let mut shard: Over<RefusingPolicy<Lru, AT>> = empty(alloc, Limits::default(), &config)?;
    for key in 1..4 {
        put(rt, alloc, &mut shard, key, 1);
    }
    shard.touch(0, 1, &1)?;
    ending(alloc, shard)
}

// Where the policy's order is refused, all are told by their slots.
#[test]
fn a_refused_order_loses_none(rt: HostRuntime) -> Done {
    let told = end_of_three::<1>(&rt, rt.alloc())?;
    assert_eq!(rt; told.as_slice(), [(1, 10), (2, 20), (3, 30)].as_slice());
    let told = end_of_three::<2>(&rt, rt.alloc())?;
    assert_eq!(rt; told.as_slice(), [(2, 20), (3, 30), (1, 10)].as_slice());
    Ok(())
}

// A shard that holds nothing tells nothing, and so does one whose only record is held outside of the index.
#[test]
fn what_is_not_in_is_not_told(rt: HostRuntime) -> Done {
    let nothing: Over<Fifo> = empty(rt.alloc(), Limits::default(), &FifoConfig {})?;
    assert!(rt; ending(rt.alloc(), nothing)?.is_empty());
    let mut shard: Over<Fifo> = empty(rt.alloc(), Limits::default(), &FifoConfig {})?;
    put(&rt, rt.alloc(), &mut shard, 1, 1);
    let held = hold(&rt, &mut shard, 1);
    take_out(&rt, &mut shard, 1);
    let told = ending(rt.alloc(), shard);
    held.discard();
    assert!(rt; told?.is_empty());
    Ok(())
}
