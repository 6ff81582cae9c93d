//! One shard by itself: an example of each call that a core doesn't make alone.

use crate::testing::{Done, Entry, assert_left};
use foyer_core::{
    Answers, CacheProperties, Data, Finder, InsertedOnto, Limits, Shard, Share, TagFinder,
};
use foyer_policy::{
    Event, Eviction, Fifo, FifoConfig, Lru, LruConfig, Properties, Reason, Result, Sieve,
    SieveConfig, Source,
};
use std::alloc::Global;
use std::process::Abort;

mod ending;
mod fetches;
mod holds;
mod resident_pieces;

// A shard over numbers, where numbers wait for fetches and numbers build them.
type Over<E> = Shard<E, u64, u64, CacheProperties, u64, u64, TagFinder<u64>>;

// A shard of capacity 5 that holds nothing.
fn empty<E: Eviction>(alloc: Global, limits: Limits, config: &E::Config) -> Result<Over<E>> {
    Shard::new(alloc, 0, 5, limits, config, TagFinder::empty(alloc))
}

// A record whose value is ten times its key.
fn data(key: u64, weight: usize) -> Data<u64, u64, CacheProperties> {
    Data {
        key,
        value: key * 10,
        properties: CacheProperties::default(),
        hash: key,
        weight,
    }
}

// What came in, for which nobody waited, goes back.
fn settle<E: Eviction>(
    rt: &impl Abort,
    shard: &mut Over<E>,
    made: InsertedOnto<u64, u64, CacheProperties, u64>,
) {
    let InsertedOnto { entry, answers } = made;
    assert_eq!(rt; all_back(rt, shard, answers), 0);
    release(rt, shard, entry);
}

// An entry of the shard goes back, and nothing leaves with it.
fn release<E: Eviction>(rt: &impl Abort, shard: &mut Over<E>, entry: Entry) {
    match shard.give_back(entry) {
        Ok(leave) => assert!(rt; leave.is_none()),
        Err(entry) => {
            entry.discard();
            panic!(rt; "the entry came back");
        }
    }
}

// The entries of those who waited go back: how many they were.
fn all_back<E: Eviction>(
    rt: &impl Abort,
    shard: &mut Over<E>,
    answers: Answers<u64, u64, CacheProperties, u64>,
) -> usize {
    let (waiters, entries) = answers.into_parts();
    let mut entries = entries.expect(rt, "the answers");
    while let Some(entry) = entries.pop() {
        release(rt, shard, entry);
    }
    entries.destroy_empty();
    waiters.len()
}

// Puts a record in, for which nothing leaves, and lets its entry go.
fn put<E: Eviction>(rt: &impl Abort, alloc: Global, shard: &mut Over<E>, key: u64, weight: usize) {
    let mut leaves = Vec::new(alloc);
    let made = shard.emplace(alloc, 0, data(key, weight), Source::Outer, &mut leaves);
    settle(rt, shard, made.expect(rt, "an insert"));
    assert!(rt; leaves.is_empty(), "insert of {key}");
}

// Records of the keys 1 to 3, of the weights 0, 3 and 1.
fn three(rt: &impl Abort, alloc: Global) -> Result<Over<Lru>> {
    let mut shard = empty(alloc, Limits::default(), &LruConfig::default())?;
    for (key, weight) in [(1, 0), (2, 3), (3, 1)] {
        put(rt, alloc, &mut shard, key, weight);
    }
    Ok(shard)
}

// An entry of a key that is in.
fn hold<E: Eviction>(rt: &impl Abort, shard: &mut Over<E>, key: u64) -> Entry {
    shard
        .get(0, key, &key)
        .expect(rt, "a get")
        .expect(rt, "an entry")
}

// Takes a key's record out.
fn take_out<E: Eviction>(rt: &impl Abort, shard: &mut Over<E>, key: u64) {
    let removed = shard.remove(key, &key).expect(rt, "a remove");
    let (entry, left) = removed.expect(rt, "a record");
    assert_eq!(rt; *left.key(), key);
    release(rt, shard, entry);
}

// What leaves goes behind what a list has.
#[test]
fn leaves_go_onto_a_list(rt: HostRuntime) -> Done {
    let mut shard = three(&rt, rt.alloc())?;
    let mut leaves = Vec::new(rt.alloc());
    shard.evict_if(rt.alloc(), &|key: &u64, _: &u64| *key == 2, &mut leaves)?;
    let made = shard.emplace(rt.alloc(), 0, data(4, 5), Source::Outer, &mut leaves);
    settle(&rt, &mut shard, made.expect(&rt, "an insert"));
    shard.clear_onto(&mut leaves)?;
    assert_left(
        &rt,
        &leaves,
        &[
            (Event::Evict, 2),
            (Event::Evict, 1),
            (Event::Evict, 3),
            (Event::Clear, 4),
        ],
    );
    Ok(())
}

#[test]
fn records_are_evicted_by_weight(rt: HostRuntime) -> Done {
    let mut shard = three(&rt, rt.alloc())?;
    shard.configure(&LruConfig::default());
    let mut leaves = Vec::new(rt.alloc());
    shard.evict_onto(0, &mut leaves, 3)?;
    assert_eq!(rt; (leaves.len(), shard.usage()), (2, 1));
    leaves.clear();
    put(&rt, rt.alloc(), &mut shard, 4, 2);
    shard.evict_onto(0, &mut leaves, 2)?;
    put(&rt, rt.alloc(), &mut shard, 5, 1);
    shard.set_capacity(1);
    assert_eq!(rt; (shard.entries(), shard.usage()), (2, 3));
    shard.evict_to_capacity(0, &mut leaves)?;
    shard.evict_unpinned(0, &mut leaves)?;
    assert_left(
        &rt,
        &leaves,
        &[(Event::Evict, 3), (Event::Evict, 4), (Event::Evict, 5)],
    );
    Ok(())
}

// The room is asked for first, and the second step takes no memory.
#[test]
fn bulk_calls_have_two_steps(rt: HostRuntime) -> Done {
    let mut shard = three(&rt, rt.alloc())?;
    let mut leaves = Vec::new(rt.alloc());
    leaves.reserve(3)?;
    let picked = shard.pick(rt.alloc(), &|_: &u64, value: &u64| *value == 20)?;
    shard.evict_picked(&picked, &mut leaves);
    let items = shard.reserve_clear()?;
    shard.clear(&items, &mut leaves);
    assert_left(
        &rt,
        &leaves,
        &[(Event::Evict, 2), (Event::Clear, 1), (Event::Clear, 3)],
    );
    let mut shard = three(&rt, rt.alloc())?;
    shard.evict_if(rt.alloc(), &|_: &u64, _: &u64| true, &mut leaves)?;
    assert_eq!(rt; leaves.len(), 6);
    Ok(())
}

#[test]
fn refusals_are_foreseen(rt: HostRuntime) -> Done {
    let limits = Limits { handles: 1, ids: 1 };
    let mut shard: Over<Fifo> = empty(rt.alloc(), limits, &FifoConfig {})?;
    let properties = CacheProperties::default();
    assert!(rt; shard.refuses_insert(1, &1, &properties, 1).is_none());
    put(&rt, rt.alloc(), &mut shard, 1, 1);
    assert!(rt; shard.refuses_insert(2, &2, &properties, 1) == Some(Reason::Ids));
    assert!(rt; shard.refuses_get(0, 1, &1).is_none());
    let held = hold(&rt, &mut shard, 1);
    assert!(rt; shard.refuses_get(0, 1, &1) == Some(Reason::Handles));
    release(&rt, &mut shard, held);
    Ok(())
}

// A put is an insert and its entry's way back; a delete is a remove and its entry's way back.
#[test]
fn puts_and_deletes_keep_no_handle(rt: HostRuntime) -> Done {
    let limits = Limits { handles: 2, ids: 5 };
    let mut shard: Over<Lru> = empty(rt.alloc(), limits, &LruConfig::default())?;
    let mut leaves = Vec::new(rt.alloc());
    for key in [1, 2, 1] {
        let kept = share(&rt, rt.alloc(), data(key, 1));
        assert!(rt; shard.put(0, kept, &mut leaves)?.is_none());
    }
    assert_left(&rt, &leaves, &[(Event::Replace, 1)]);
    leaves.clear();
    let held = hold(&rt, &mut shard, 1);
    assert_eq!(rt; shard.refs(&held), 1);
    let phantom = Data {
        properties: CacheProperties::default().with_phantom(true),
        ..data(1, 1)
    };
    let put = shard.put(0, share(&rt, rt.alloc(), phantom), &mut leaves);
    let (event, left) = put.expect(&rt, "a put").expect(&rt, "a phantom leaves");
    assert_eq!(rt;
        (event, *left.key(), shard.refs(&held)),
        (Event::Evict, 1, 1)
    );
    assert_left(&rt, &leaves, &[(Event::Replace, 1), (Event::Remove, 1)]);
    assert!(rt; shard.is_outdated(&held));
    release(&rt, &mut shard, held);
    let held = hold(&rt, &mut shard, 2);
    let deleted = shard.delete(2, &2).expect(&rt, "a delete");
    let left = deleted.expect(&rt, "a record");
    assert_eq!(rt; (*left.key(), shard.refs(&held), shard.usage()), (2, 1, 0));
    release(&rt, &mut shard, held);
    assert!(rt; shard.delete(2, &2)?.is_none());
    let kept = share(&rt, rt.alloc(), data(3, 1));
    assert!(rt; shard.put(0, kept, &mut leaves)?.is_none());
    let refused = shard.put(0, share(&rt, rt.alloc(), data(4, 1)), &mut leaves);
    assert!(rt; refused.is_err() && shard.entries() == 1);
    let (first, second) = (hold(&rt, &mut shard, 3), hold(&rt, &mut shard, 3));
    assert!(rt; shard.delete(3, &3).is_err() && shard.entries() == 1);
    release(&rt, &mut shard, first);
    let deleted = shard.delete(3, &3).expect(&rt, "a delete");
    assert!(rt; deleted.is_some() && shard.entries() == 0);
    release(&rt, &mut shard, second);
    Ok(())
}

// The first share of a record's data.
fn share(
    rt: &impl Abort,
    alloc: Global,
    kept: Data<u64, u64, CacheProperties>,
) -> Share<u64, u64, CacheProperties> {
    match Share::new(alloc, kept) {
        Ok(share) => share,
        Err(_) => panic!(rt; "no memory"),
    }
}
