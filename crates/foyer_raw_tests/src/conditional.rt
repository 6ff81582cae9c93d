//! Calls that depend on what a key has.

use crate::notes::Note::{Evict, Piece, Remove, Replace};
use crate::notes::{Ear, Notes};
use crate::testing::builders::{must, value};
use crate::testing::cache::{Cache, Entry, finish, got, heard, piped};
use crate::testing::{BEFORE, EXPIRY, Outcome, expiring, fifo, limited, number, phantom};
use foyer_core::{AdmitAll, CacheProperties, Limits, RawCacheConfig, Weighter};
use foyer_policy::{Lru, LruConfig, ModHasher, Source};
use foyer_raw::{ListSpawner, RawCache, Replaced};
use std::sync::Wait;

mod expiry;
mod threads;

// A record with default properties, inserted if the key still has what was seen.
fn replace<H: Wait + Drop>(
    cache: &Cache<H>,
    now: u64,
    seen: Option<&Entry<H>>,
    key: u32,
    value: u64,
) -> Outcome<Replaced<Entry<H>>> {
    Ok(cache.replace_if(now, seen, key, value, CacheProperties::default())?)
}

// The entry of what was inserted.
fn inserted<H: Wait + Drop>(replaced: Replaced<Entry<H>>) -> Outcome<Entry<H>> {
    match replaced {
        Replaced::Inserted(entry) => Ok(entry),
        Replaced::Changed(_) => Err("changed".into()),
    }
}

// The entry of what the key had instead.
fn changed<H: Wait + Drop>(replaced: Replaced<Entry<H>>) -> Outcome<Option<Entry<H>>> {
    match replaced {
        Replaced::Inserted(_) => Err("inserted".into()),
        Replaced::Changed(found) => Ok(found),
    }
}

// Who saw the last record inserts the next one, and who saw another gets the last one. No call is a hit or a miss.
#[test]
fn a_record_is_replaced_by_who_saw_it(rt: HostRuntime) -> Outcome {
    let (cache, notes) = heard(rt, fifo(4, 2))?;
    let first = inserted(replace(&cache, 0, None, 1, 10)?)?;
    assert_eq!(rt;
        (*first, first.source(), first.refs()),
        (10, Source::Outer, 1)
    );
    let found = changed(replace(&cache, 0, None, 1, 11)?)?.ok_or("none")?;
    assert_eq!(rt;
        (*found, found.source(), first.refs()),
        (10, Source::Memory, 2)
    );
    let second = inserted(replace(&cache, 0, Some(&found), 1, 20)?)?;
    assert!(rt; notes.are(&[Replace(1, 10)]) && first.is_outdated() && !second.is_outdated());
    let newer = changed(replace(&cache, 0, Some(&first), 1, 12)?)?.ok_or("none")?;
    assert_eq!(rt; (*newer, second.refs(), cache.entries()), (20, 2, 1));
    assert!(rt; cache.delete(&1)? && changed(replace(&cache, 0, Some(&second), 1, 13)?)?.is_none());
    assert!(rt; !cache.contains(0, &1) && notes.are(&[Replace(1, 10), Remove(1, 20)]));
    drop(inserted(replace(&cache, 0, None, 1, 30)?)?);
    let stats = cache.stats();
    assert_eq!(rt; (stats.hits, stats.misses, stats.inserts), (0, 0, 3));
    assert_eq!(rt; (stats.replaced, stats.removed, stats.refused), (1, 1, 0));
    Ok(())
}

// A record that comes back by its piece is the one that was seen; one that was inserted anew with the same data isn't.
#[test]
fn a_record_is_known_by_its_insert(rt: HostRuntime) -> Outcome {
    let (cache, _notes) = heard(rt, fifo(4, 1))?;
    let seen = cache.insert(0, 1, 10)?;
    let piece = seen.piece()?;
    drop(cache.remove(&1)?);
    drop(cache.insert_piece(0, piece)?);
    drop(inserted(replace(&cache, 0, Some(&seen), 1, 10)?)?);
    let found = changed(replace(&cache, 0, Some(&seen), 1, 11)?)?.ok_or("none")?;
    assert_eq!(rt; (*found, found.refs(), seen.refs()), (10, 1, 1));
    Ok(())
}

// From its expiry on a record counts as none, and who saw it may still replace it.
#[test]
fn an_expired_record_counts_as_none(rt: HostRuntime) -> Outcome {
    for now in [BEFORE, EXPIRY, u64::MAX] {
        let (cache, notes) = heard(rt, fifo(4, 1))?;
        let seen = cache.insert_with_properties(0, 1, 10, expiring())?;
        if now == BEFORE {
            let found = changed(replace(&cache, now, None, 1, 11)?)?.ok_or("none")?;
            assert!(rt; *found == 10 && notes.are(&[]));
        } else {
            drop(inserted(replace(&cache, now, None, 1, 11)?)?);
            assert!(rt; notes.are(&[Replace(1, 10)]));
            assert_eq!(rt; cache.stats().expired, 0);
        }
        drop(cache.insert_with_properties(0, 2, 20, expiring())?);
        let seen_2 = cache.get(0, &2)?.ok_or("none")?;
        drop(inserted(replace(&cache, now, Some(&seen_2), 2, 21)?)?);
        assert_eq!(rt; *cache.get(u64::MAX - 1, &2)?.ok_or("none")?, 21);
        assert!(rt; changed(replace(&cache, now, Some(&seen), 3, 30)?)?.is_none());
    }
    // What another key's insert finds expired leaves, and then there is nothing to be seen.
    let (cache, notes) = heard(rt, fifo(1, 1))?;
    let seen = cache.insert_with_properties(0, 1, 10, expiring())?;
    drop(inserted(replace(&cache, EXPIRY, None, 2, 20)?)?);
    assert!(rt; notes.are(&[Evict(1, 10)]));
    assert!(rt; changed(replace(&cache, EXPIRY, Some(&seen), 1, 11)?)?.is_none());
    assert_eq!(rt; (cache.stats().evictions, cache.stats().expired), (1, 1));
    Ok(())
}

// The time to live is that of any insert, and the record's own expiry goes before it.
#[test]
fn a_time_to_live_holds_for_what_is_replaced(rt: HostRuntime) -> Outcome {
    let (cache, _notes) = heard(rt, fifo(4, 1))?;
    let cache = cache.with_time_to_live(Some(1 << 50));
    let entry = inserted(replace(&cache, BEFORE, None, 1, 10)?)?;
    assert_eq!(rt; entry.properties().expiry(), Some(BEFORE + (1 << 50)));
    let own = inserted(cache.replace_if(0, Some(&entry), 1, 11, expiring())?)?;
    assert_eq!(rt; own.properties().expiry(), Some(EXPIRY));
    let fits = cache.insert_if_fits(u64::MAX - 1, 2, 20, CacheProperties::default())?;
    assert_eq!(rt; fits.ok_or("none")?.properties().expiry(), Some(u64::MAX));
    Ok(())
}

// Records of two shards and of two caches have equal ids, and keys of one hash are in one shard.
#[test]
fn entries_of_others_are_not_what_the_key_has(rt: HostRuntime) -> Outcome {
    let (cache, notes) = heard(rt, fifo(8, 2))?;
    let (other, others) = heard(
        rt,
        RawCacheConfig {
            number: 1,
            ..fifo(8, 2)
        },
    )?;
    let (one, two) = (cache.insert(0, 1, 10)?, cache.insert(0, 2, 20)?);
    let foreign = other.insert(0, 1, 10)?;
    for seen in [&two, &foreign] {
        let found = changed(replace(&cache, 0, Some(seen), 1, 11)?)?.ok_or("none")?;
        assert_eq!(rt; *found, 10);
    }
    assert!(rt;
        !cache.remove_this(&foreign) && !other.remove_this(&one) && !other.remove_this(&two)
    );
    assert!(rt; notes.are(&[]) && others.are(&[]) && cache.entries() == 2 && other.entries() == 1);
    assert!(rt; other.remove_this(&foreign) && cache.remove_this(&one) && cache.remove_this(&two));
    assert!(rt; notes.are(&[Remove(1, 10), Remove(2, 20)]) && others.are(&[Remove(1, 10)]));
    Ok(())
}

// An entry's record is removed once, if the key still has it. What is held of it can still be read.
#[test]
fn a_record_is_removed_by_who_saw_it(rt: HostRuntime) -> Outcome {
    let (cache, notes) = piped(rt, fifo(4, 2))?;
    let old = cache.insert(0, 1, 10)?;
    let new = cache.insert_with_properties(0, 1, 11, expiring())?;
    assert!(rt; !cache.remove_this(&old) && notes.are(&[Replace(1, 10)]));
    assert!(rt; cache.remove_this(&new) && !cache.remove_this(&new) && cache.entries() == 0);
    assert!(rt; notes.are(&[Replace(1, 10), Remove(1, 11)]));
    assert_eq!(rt; (*new, new.refs(), new.is_outdated()), (11, 1, true));
    let phantom = cache.insert_with_properties(0, 1, 12, phantom())?;
    assert!(rt; !cache.remove_this(&phantom) && cache.stats().removed == 1);
    drop(phantom);
    assert!(rt;
        notes.are(&[
            Replace(1, 10),
            Remove(1, 11),
            Remove(1, 12),
            Evict(1, 12),
            Piece(1, 12)
        ])
    );
    Ok(())
}

// A phantom record takes the seen one out, and is itself never what the key has.
#[test]
fn a_phantom_is_never_what_the_key_has(rt: HostRuntime) -> Outcome {
    let (cache, notes) = heard(rt, fifo(1, 1))?;
    let seen = cache.insert(0, 1, 10)?;
    let held = inserted(cache.replace_if(0, Some(&seen), 1, 11, phantom())?)?;
    assert!(rt; notes.are(&[Replace(1, 10), Remove(1, 11)]) && held.is_outdated());
    assert!(rt; changed(replace(&cache, 0, Some(&held), 1, 12)?)?.is_none());
    drop(cache.insert_if_fits(0, 1, 13, phantom())?.ok_or("none")?);
    drop(held);
    assert!(rt;
        notes.are(&[
            Replace(1, 10),
            Remove(1, 11),
            Remove(1, 13),
            Evict(1, 13),
            Evict(1, 11)
        ])
    );
    assert_eq!(rt; (cache.stats().inserts, cache.entries()), (1, 0));
    Ok(())
}

// Callers that wait for the key get what was inserted; after `Changed` they still wait.
#[test]
fn who_waits_gets_what_is_inserted(rt: HostRuntime) -> Outcome {
    for fits in [false, true] {
        let (cache, notes) = heard(rt, fifo(4, 1))?;
        let gone = cache.insert(0, 7, 69)?;
        assert!(rt; cache.delete(&7)?);
        notes.forget();
        let mut tasks = ListSpawner::new(rt.alloc());
        let builders = (None, must(3, Ok(value(5))));
        let wait = cache.get_or_fetch_inner(0, &7, || builders.0, || builders.1, (), &mut tasks)?;
        assert!(rt; changed(replace(&cache, 0, Some(&gone), 7, 68)?)?.is_none());
        assert!(rt; changed(replace(&cache, 0, Some(&gone), 8, 80)?)?.is_none());
        let entry = if fits {
            cache
                .insert_if_fits(0, 7, 70, CacheProperties::default())?
                .ok_or("none")?
        } else {
            inserted(replace(&cache, 0, None, 7, 70)?)?
        };
        finish(&rt, tasks)?;
        let waited = got(&rt, wait)?;
        assert_eq!(rt;
            (*waited, entry.refs(), waited.is_outdated()),
            (70, 2, false)
        );
        assert!(rt; notes.are(&[]) && cache.stats().fetches == 1);
    }
    Ok(())
}

/// A value is its weight.
#[derive(Clone, Copy)]
struct ByValue;

impl Weighter<u32, u64> for ByValue {
    ghost weighs = { λ _ _ value weight. weight ≡ value };

    fn weigh(&self, _key: &u32, value: &u64) -> usize {
        *value as usize
    }
}

/// A cache under LRU whose records weigh what their values say.
type Weighed<H> = RawCache<H, Lru, u32, u64, ModHasher, CacheProperties, ByValue, AdmitAll, Ear>;

// Whether a record is inserted that has to fit.
fn fits<H: Wait + Drop>(cache: &Weighed<H>, key: u32, weight: u64) -> Outcome<bool> {
    let properties = CacheProperties::default();
    Ok(cache.insert_if_fits(0, key, weight, properties)?.is_some())
}

// A record fits beside what is pinned of other keys, evicts what isn't pinned, and else changes nothing.
#[test]
fn a_record_is_inserted_if_it_fits(rt: HostRuntime) -> Outcome {
    let unit = (1u64 << 40) + 1;
    let notes = Notes::new(rt.alloc())?;
    let config = RawCacheConfig {
        capacity: 5 * unit as usize,
        shards: 1,
        eviction_config: LruConfig::default(),
        hash_builder: ModHasher::default(),
        weighter: ByValue,
        filter: AdmitAll,
        number: 0,
        limits: Limits::default(),
    };
    let cache: Weighed<HostRuntime> = RawCache::new(rt, rt.alloc(), config, Ear(notes.share()?))?;
    assert!(rt; !fits(&cache, 1, 5 * unit + 1)? && fits(&cache, 1, 3 * unit)?);
    assert!(rt; fits(&cache, 2, 2 * unit)? && notes.are(&[]));
    let pin = cache.get(0, &1)?.ok_or("none")?;
    assert!(rt; !fits(&cache, 3, 2 * unit + 1)? && cache.contains(0, &2) && notes.are(&[]));
    assert!(rt; fits(&cache, 3, 2 * unit)? && notes.are(&[Evict(2, 2 * unit)]));
    // The key's own pinned record gives way.
    assert!(rt; fits(&cache, 1, 5 * unit)? && pin.is_outdated());
    assert!(rt; notes.are(&[Evict(2, 2 * unit), Evict(3, 2 * unit), Replace(1, 3 * unit)]));
    drop(pin);
    let pin = cache.get(0, &1)?.ok_or("none")?;
    assert!(rt; !fits(&cache, 2, 1)? && fits(&cache, 2, 0)?);
    drop(pin);
    assert!(rt; fits(&cache, 3, 1)? && !cache.contains(0, &1));
    let stats = cache.stats();
    assert_eq!(rt; (stats.inserts, stats.refused, stats.hits), (6, 0, 2));
    Ok(())
}

// F10 without ids and F9 at the limit of handles, of the insert and of what is found; nothing has changed.
#[test]
fn conditional_calls_are_refused(rt: HostRuntime) -> Outcome {
    let (cache, notes) = heard(rt, limited(2, Limits { handles: 1, ids: 2 }))?;
    let first = inserted(replace(&cache, 0, None, 1, 10)?)?;
    let refused = cache.replace_if(0, None, 1, 11, CacheProperties::default());
    assert_eq!(rt; number(refused), Some(9));
    let second = inserted(replace(&cache, 0, Some(&first), 1, 12)?)?;
    for seen in [&second, &first] {
        let refused = cache.replace_if(0, Some(seen), 1, 13, CacheProperties::default());
        let wanted = if *seen.value() == 12 { 10 } else { 9 };
        assert_eq!(rt; number(refused), Some(wanted));
    }
    let refused = cache.insert_if_fits(0, 1, 14, CacheProperties::default());
    assert_eq!(rt; number(refused), Some(10));
    assert!(rt; notes.are(&[Replace(1, 10)]) && !second.is_outdated() && second.refs() == 1);
    let stats = cache.stats();
    assert_eq!(rt; (stats.inserts, stats.refused, stats.hits), (2, 2, 0));
    assert!(rt; cache.remove_this(&second));
    let (cache, _notes) = heard(rt, limited(2, Limits { handles: 0, ids: 1 }))?;
    let refused = cache.insert_if_fits(0, 1, 10, CacheProperties::default());
    assert_eq!(rt; number(refused), Some(9));
    Ok(())
}

// Each of many shards replaces and removes its own.
#[test]
fn many_shards_replace_and_remove(rt: HostRuntime) -> Outcome {
    for shards in [17, 65, 1000] {
        let (cache, _notes) = heard(rt, fifo(4 * shards, shards))?;
        let mut held = Vec::new(rt.alloc());
        for key in 0..2000u32 {
            held.push(inserted(replace(&cache, 0, None, key * 7, 1 << 33)?)?)?;
        }
        let mut replaced = 0u64;
        for seen in held.as_slice() {
            let now = replace(&cache, 0, Some(seen), *seen.key(), 2 << 33)?;
            let was_in = matches!(&now, Replaced::Inserted(_));
            assert!(rt; seen.is_outdated());
            replaced += u64::from(was_in);
        }
        let stats = cache.stats();
        let left = stats.replaced + stats.evictions;
        assert_eq!(rt;
            (stats.inserts, left),
            (2000 + replaced, 2000 + replaced - cache.entries() as u64)
        );
        let mut removed = 0u64;
        for seen in held.as_slice() {
            assert!(rt; !cache.remove_this(seen));
            if let Some(entry) = cache.get(0, seen.key())? {
                assert!(rt; cache.remove_this(&entry) && !cache.remove_this(&entry));
                removed += 1;
            }
        }
        assert_eq!(rt; (cache.entries(), cache.stats().removed), (0, removed));
    }
    Ok(())
}
