//! Cores of a cache: an example of each call, and what no contract says of them.

use crate::testing::{Done, Entry, Leaves, assert_evicted, assert_left};
use foyer_core::{
    AdmitAll, CacheCore, CacheProperties, Filter, Finder, Inserted, InsertedOnto, Limits, Lookup,
    RawCacheConfig, TagFinder, UnitWeighter, Weighter,
};
use foyer_policy::{
    Error, Event, Eviction, Fifo, HashBuilder, Hint, ModHasher, Properties, Result, Sieve, Source,
};
use std::alloc::Global;
use std::process::Abort;

mod asked;
mod bulk;
mod drops;
mod entries;
mod fetches;
mod holds;
mod memory;
mod moments;
mod refused;
mod shards;
mod stats;

// A core over numbers, where numbers wait for fetches and numbers build them.
type Core<E = Fifo, W = UnitWeighter, A = AdmitAll, I = TagFinder<u64>> = CacheCore<
    E,
    u64,
    u64,
    CacheProperties,
    ModHasher,
    W,
    A,
    u64,
    u64,
    I,
>;

// A configuration of this capacity, with so many shards.
fn config<C: Default>(
    capacity: usize,
    shards: usize,
) -> RawCacheConfig<C, ModHasher, UnitWeighter, AdmitAll> {
    RawCacheConfig {
        shards,
        ..RawCacheConfig::new(capacity)
    }
}

// A core that holds nothing.
fn core(alloc: Global, capacity: usize, shards: usize) -> Result<Core> {
    CacheCore::new(alloc, config(capacity, shards))
}

// Puts a value in, for which nobody waits: its entry, and what left.
fn put<E: Eviction, W: Weighter<u64, u64>, A: Filter<u64, u64>, I: Finder<u64>>(
    rt: &impl Abort,
    core: &mut Core<E, W, A, I>,
    key: u64,
    value: u64,
) -> (Entry, Leaves) {
    let made = core.insert(0, key, value).expect(rt, "an insert");
    taken(rt, core, made)
}

// What came in, for which nobody waited: its entry, and what left.
fn taken<E: Eviction, W: Weighter<u64, u64>, A: Filter<u64, u64>, I: Finder<u64>>(
    rt: &impl Abort,
    core: &mut Core<E, W, A, I>,
    made: Inserted<u64, u64, CacheProperties, u64>,
) -> (Entry, Leaves) {
    let Inserted {
        entry,
        answers,
        leaves,
    } = made;
    assert!(rt; answers.waiters.is_empty());
    core.drop_answers(answers);
    (entry, leaves)
}

// Puts ten times the key in under it, and lets its entry go: what left.
fn put_tenfold<E: Eviction>(rt: &impl Abort, core: &mut Core<E>, key: u64) -> Leaves {
    let (entry, leaves) = put(rt, core, key, key * 10);
    release(rt, core, entry);
    leaves
}

// An entry of a key that is in.
fn found<E: Eviction, W: Weighter<u64, u64>, A: Filter<u64, u64>, I: Finder<u64>>(
    rt: &impl Abort,
    core: &mut Core<E, W, A, I>,
    key: u64,
) -> Entry {
    core.get(0, &key).expect(rt, "a get").expect(rt, "an entry")
}

// An entry that the core owns goes back, and nothing leaves with it.
fn release<E: Eviction, W: Weighter<u64, u64>, A: Filter<u64, u64>, I: Finder<u64>>(
    rt: &impl Abort,
    core: &mut Core<E, W, A, I>,
    entry: Entry,
) {
    match core.give_back(entry) {
        Ok(leave) => assert!(rt; leave.is_none()),
        Err(entry) => {
            entry.discard();
            panic!(rt; "the entry came back");
        }
    }
}

// What a look-up answers: the value of a hit, or the fetch where the one who asks leads, the token, and the builder
// that came back.
#[derive(Clone, Copy, PartialEq, Eq, Debug)]
enum Asked {
    Hit(u64),
    Leads(u64, u64, Option<u64>),
    Waits(u64),
}

// Asks for a key. The entry of a hit goes back.
fn ask<E: Eviction, W: Weighter<u64, u64>, A: Filter<u64, u64>, I: Finder<u64>>(
    rt: &impl Abort,
    core: &mut Core<E, W, A, I>,
    key: u64,
    builder: Option<u64>,
) -> Asked {
    ask_at(rt, core, 0, key, builder)
}

// Asks for a key at a moment.
fn ask_at<E: Eviction, W: Weighter<u64, u64>, A: Filter<u64, u64>, I: Finder<u64>>(
    rt: &impl Abort,
    core: &mut Core<E, W, A, I>,
    now: u64,
    key: u64,
    builder: Option<u64>,
) -> Asked {
    match core
        .get_or_enqueue(now, &key, builder, key)
        .expect(rt, "a look-up")
    {
        Lookup::Lead {
            fetch,
            token,
            required,
        } => Asked::Leads(fetch, token, required),
        Lookup::Wait { token } => Asked::Waits(token),
        Lookup::Hit(entry) => {
            let value = *entry.value();
            release(rt, core, entry);
            Asked::Hit(value)
        }
    }
}

#[test]
fn gets_find_what_was_inserted(rt: HostRuntime) -> Done {
    let mut core = core(rt.alloc(), 100, 1)?;
    for key in 0..100 {
        assert!(rt; put_tenfold(&rt, &mut core, key).is_empty());
    }
    for key in 0..100 {
        let entry = found(&rt, &mut core, key);
        assert_eq!(rt; (*entry.key(), *entry.value()), (key, key * 10));
        assert_eq!(rt; (entry.source(), core.owns(&entry)), (Source::Memory, true));
        release(&rt, &mut core, entry);
    }
    assert!(rt; core.contains(0, &99) && !core.contains(0, &100));
    assert_eq!(rt; (core.capacity(), core.shards()), (100, 1));
    assert_eq!(rt; (core.usage(), core.entries()), (100, 100));
    assert_eq!(rt;
        (
            core.hash(&7),
            HashBuilder::hash_one(core.hash_builder(), &7u64)
        ),
        (7, 7)
    );
    Ok(())
}

#[test]
fn evictions_come_before_the_replaced_record(rt: HostRuntime) -> Done {
    let mut core = core(rt.alloc(), 2, 1)?;
    assert!(rt; put_tenfold(&rt, &mut core, 1).is_empty());
    assert!(rt; put_tenfold(&rt, &mut core, 2).is_empty());
    let leaves = put_tenfold(&rt, &mut core, 2);
    assert_left(&rt, &leaves, &[(Event::Evict, 1), (Event::Replace, 2)]);
    assert_eq!(rt; (core.usage(), core.entries()), (1, 1));
    Ok(())
}

// An entry of a phantom record is never found, and its record leaves with its last handle.
#[test]
fn a_phantom_record_leaves_with_its_last_handle(rt: HostRuntime) -> Done {
    let mut core = core(rt.alloc(), 2, 1)?;
    put_tenfold(&rt, &mut core, 1);
    let phantom = CacheProperties::default()
        .with_hint(Hint::Low)
        .with_phantom(true);
    let made = core.insert_with_properties(0, 1, 100, phantom);
    let (entry, leaves) = taken(&rt, &mut core, made.expect(&rt, "an insert"));
    assert_left(&rt, &leaves, &[(Event::Replace, 1), (Event::Remove, 1)]);
    assert_eq!(rt;
        (entry.properties().hint(), core.contains(0, &1)),
        (Hint::Low, false)
    );
    let (event, left) = core.drop_entry(entry).expect(&rt, "a leave");
    assert_eq!(rt;
        (event, *left.value(), core.entries()),
        (Event::Evict, 100, 0)
    );
    Ok(())
}

// What came in, for which nobody waited, goes back.
fn settle<E: Eviction, W: Weighter<u64, u64>, A: Filter<u64, u64>, I: Finder<u64>>(
    rt: &impl Abort,
    core: &mut Core<E, W, A, I>,
    made: InsertedOnto<u64, u64, CacheProperties, u64>,
) {
    let InsertedOnto { entry, answers } = made;
    assert!(rt; answers.waiters.is_empty());
    core.drop_answers(answers);
    release(rt, core, entry);
}

#[test]
fn leaves_go_onto_a_list(rt: HostRuntime) -> Done {
    let mut core = core(rt.alloc(), 1, 1)?;
    let mut leaves = Vec::new(rt.alloc());
    for key in [1, 2, 3] {
        let made = core.insert_with_properties_onto(
            0,
            key,
            key,
            CacheProperties::default(),
            &mut leaves,
        );
        settle(&rt, &mut core, made.expect(&rt, "an insert"));
    }
    let (_, left) = leaves.pop().expect(&rt, "a leave");
    let made = core.insert_piece_onto(0, left.piece(), &mut leaves);
    settle(&rt, &mut core, made.expect(&rt, "an insert"));
    assert_left(&rt, &leaves, &[(Event::Evict, 1), (Event::Evict, 3)]);
    Ok(())
}

#[test]
fn a_refusal_has_a_text(rt: HostRuntime) -> Done {
    let config = RawCacheConfig {
        limits: Limits { handles: 1, ids: 0 },
        ..config(2, 1)
    };
    let mut core: Core = CacheCore::new(rt.alloc(), config)?;
    match core.insert(0, 1, 10) {
        Ok(made) => {
            taken(&rt, &mut core, made).0.discard();
            panic!(rt; "a record without a number");
        }
        Err(refused) => {
            let text = format!(in rt.alloc(); "{refused}")?;
            assert_eq!(rt; text.as_str(), "no number is left");
            let text = format!(in rt.alloc(); "{refused:?}")?;
            assert_eq!(rt;
                text.as_str(),
                "Refused { error: Error { kind: Limit, reason: Ids } }"
            );
            assert_eq!(rt; Error::from(refused).number(), 10);
        }
    }
    Ok(())
}
