//! Calls that make no entry, in a cache of each policy.

use crate::testing::{Cache, Outcome, all_policies, at_once, builder, finish, given, number};
use foyer_core::Limits;
use foyer_memory::{CacheProperties, EvictionConfig, Stats};
use foyer_policy::Properties;
use foyer_raw::ListSpawner;
use foyer_raw_tests::notes::Note::{Evict, Piece, Remove, Replace};
use foyer_raw_tests::notes::{Notes, Tube};
use log::Log;
use std::alloc::Global;
use std::sync::{Arc, Wait};
use std::test::Fail;

/// A life of 26 days in nanoseconds, by a clock that began in 1970.
pub(crate) const LIFE: u64 = (1 << 51) + 1;

/// The time of a call.
pub(crate) const NOW: u64 = 418_000_000 << 32;

/// A cache of one shard for three records with a pipe, whose handles have a limit, and what it tells.
pub(crate) fn piped<H: Wait + Log + Alloc<A = Global> + Copy + Drop>(
    rt: H,
    config: EvictionConfig,
    handles: usize,
) -> Outcome<(Cache<H>, Notes)> {
    let notes = Notes::new(rt.alloc())?;
    let tube = Tube {
        notes: notes.share()?,
        enabled: true,
    };
    let limits = Limits {
        handles,
        ..Limits::default()
    };
    let cache: Cache<H> = builder(3, config, &notes)?
        .with_shards(1)
        .with_limits(limits)
        .build(rt, rt.alloc(), &rt)?;
    Ok((cache.with_pipe(Arc::new(rt.alloc(), tube)?), notes))
}

// The ways to look at a value that make no entry, and whether one counts as a hit and a use.
const WAYS: [(Way, bool); 4] = [
    (Way::Read, true),
    (Way::Copied, true),
    (Way::Cloned, true),
    (Way::Peek, false),
];

#[derive(Clone, Copy)]
enum Way {
    Read,
    Copied,
    Cloned,
    Peek,
    Touch,
    Contains,
}

impl Way {
    // The value of a key, which is 10 where it is not seen.
    fn sees<H: Wait + Drop>(self, cache: &Cache<H>, now: u64, key: u32) -> Outcome<Option<u64>> {
        Ok(match self {
            Way::Read => cache.read(now, &key, |value| *value)?,
            Way::Copied => cache.get_copied(now, &key)?,
            Way::Cloned => cache.get_cloned(now, &key)?,
            Way::Peek => cache.peek(now, &key, |value| *value),
            Way::Touch => cache.touch(now, &key)?.then_some(10),
            Way::Contains => cache.contains(now, &key).then_some(10),
        })
    }
}

// Which keys are in at each of thirty puts into a full cache of thirty, after so many looks at each of five keys.
fn stays<H: Wait + Log + Alloc<A = Global> + Copy + Drop>(
    rt: H,
    config: &EvictionConfig,
    way: Way,
    looks: usize,
) -> Outcome<[u64; 30]> {
    let (cache, _notes) = piped(rt, config.clone()?, 1)?;
    cache.resize(0, 30)?;
    for key in 0..30u32 {
        cache.put(0, key, 10)?;
    }
    for _ in 0..looks {
        for key in [0, 3, 7, 16, 29] {
            if way.sees(&cache, 0, key)? != Some(10) {
                return Err(Fail::from("not seen"));
            }
        }
    }
    let mut steps = [0u64; 30];
    for (step, key) in steps.iter_mut().zip(30..60u32) {
        cache.put(0, key, 10)?;
        for key in (0..60u32).filter(|key| cache.contains(0, key)) {
            *step |= 1 << key;
        }
    }
    Ok(steps)
}

// A read is one use, as a touch is, and a peek none.
#[test]
fn a_read_is_a_use_and_a_peek_is_none(rt: HostRuntime) -> Outcome {
    for (config, is_fifo) in all_policies()
        .into_iter()
        .zip([true, false, false, false, false])
    {
        for looks in 1..4usize {
            let used = stays(rt, &config, Way::Touch, looks)?;
            let unused = stays(rt, &config, Way::Contains, looks)?;
            assert_eq!(rt; used == unused, is_fifo);
            for (way, counts) in WAYS {
                let wanted = if counts { used } else { unused };
                assert!(rt; stays(rt, &config, way, looks)? == wanted);
            }
        }
    }
    Ok(())
}

// A read is one hit or one miss, and a peek none. Neither leaves a handle, so a limit of one is never met.
#[test]
fn a_read_is_one_hit_and_a_peek_is_none(rt: HostRuntime) -> Outcome {
    for config in all_policies() {
        for (way, counts) in WAYS {
            let (cache, notes) = piped(rt, config.clone()?, 1)?;
            cache.put(0, 1, 10)?;
            for looks in 1..4u64 {
                assert!(rt;
                    way.sees(&cache, 0, 1)? == Some(10) && way.sees(&cache, 0, 9)?.is_none()
                );
                let count = if counts { looks } else { 0 };
                assert_eq!(rt; (cache.stats().hits, cache.stats().misses), (count, count));
            }
            assert_eq!(rt; cache.get(0, &1)?.ok_or("none")?.refs(), 1);
            assert!(rt; notes.are(&[]));
        }
    }
    Ok(())
}

// The closure is called once for a hit that lives, and for nothing else.
#[test]
fn what_lives_past_2_to_the_48_is_read(rt: HostRuntime) -> Outcome {
    for config in all_policies() {
        let (cache, notes) = piped(rt, config, 1)?;
        let expiring = CacheProperties::default().with_expiry(Some(NOW + LIFE));
        cache.put_with_properties(NOW, 1, 10, expiring)?;
        cache.put(NOW, 2, 20)?;
        let mut calls = 0u64;
        for (now, found) in [
            (NOW, Some(10)),
            (NOW + LIFE - 1, Some(10)),
            (NOW + LIFE, None),
            (u64::MAX, None),
        ] {
            for (way, _) in WAYS {
                assert!(rt; way.sees(&cache, now, 1)? == found);
                assert!(rt; way.sees(&cache, now, 2)? == Some(20));
            }
            let seen = cache.read(now, &1, |value| {
                calls += 1;
                *value
            })?;
            assert!(rt; seen == found);
        }
        assert_eq!(rt; (calls, cache.entries()), (2, 2));
        assert!(rt; notes.are(&[]) && cache.delete(&1)? && notes.are(&[Remove(1, 10)]));
    }
    Ok(())
}

// A put tells what an insert tells, and then what its entry's drop would; a phantom is never found.
#[test]
fn a_put_tells_as_an_insert_and_a_drop(rt: HostRuntime) -> Outcome {
    for config in all_policies() {
        let (cache, notes) = piped(rt, config, 1)?;
        for (key, value) in [(1, 10), (2, 20), (3, 30), (4, 40)] {
            cache.put(0, key, value)?;
        }
        assert!(rt; notes.are(&[Evict(1, 10), Piece(1, 10)]));
        notes.forget();
        cache.resize(0, 9)?;
        cache.put(0, 3, 31)?;
        let phantom = || CacheProperties::default().with_phantom(true);
        cache.put_with_properties(0, 3, 32, phantom())?;
        cache.put_with_properties(0, 5, 50, phantom())?;
        assert!(rt;
            notes.are(&[
                Replace(3, 30),
                Replace(3, 31),
                Remove(3, 32),
                Evict(3, 32),
                Piece(3, 32),
                Remove(5, 50),
                Evict(5, 50),
                Piece(5, 50)
            ])
        );
        assert!(rt; !cache.contains(0, &3) && !cache.contains(0, &5));
        let wanted = Stats {
            inserts: 5,
            evictions: 1,
            replaced: 2,
            ..Stats::default()
        };
        assert_eq!(rt; (cache.stats(), cache.entries()), (wanted, 2));
        cache.evict_all(0)?;
        assert_eq!(rt; (cache.entries(), cache.usage()), (0, 0));
    }
    Ok(())
}

// Those who wait get the record of a put, and each has the only handle of it that is left when the other is dropped.
#[test]
fn a_put_answers_those_who_wait(rt: HostRuntime) -> Outcome {
    for config in all_policies() {
        for is_phantom in [false, true] {
            let (cache, notes) = piped(rt, config.clone()?, 3)?;
            let mut tasks = ListSpawner::new(rt.alloc());
            let first = cache.get_or_fetch(0, &7, || given(5), &mut tasks)?;
            let second = cache.get_or_fetch(0, &7, || given(6), &mut tasks)?;
            let properties = CacheProperties::default().with_phantom(is_phantom);
            cache.put_with_properties(0, 7, 70, properties)?;
            finish(&rt, tasks)?;
            let (first, second) = (at_once(&rt, first)??, at_once(&rt, second)??);
            assert_eq!(rt; (*first, *second, first.refs()), (70, 70, 2));
            assert_eq!(rt;
                (first.is_outdated(), cache.contains(0, &7)),
                (is_phantom, !is_phantom)
            );
            drop(second);
            assert_eq!(rt; first.refs(), 1);
            drop(first);
            let told = [Remove(7, 70), Evict(7, 70), Piece(7, 70)];
            assert!(rt; notes.are(if is_phantom { &told } else { &[] }));
        }
    }
    Ok(())
}

// While a fetch of another key is open, a put tells the same, and nobody waits for it.
#[test]
fn a_put_beside_a_fetch_tells_as_ever(rt: HostRuntime) -> Outcome {
    for config in all_policies() {
        let (cache, notes) = piped(rt, config, 1)?;
        let mut tasks = ListSpawner::new(rt.alloc());
        let look = cache.get_or_fetch(0, &7, || given(70), &mut tasks)?;
        for key in 1..5u32 {
            cache.put(0, key, 10)?;
        }
        assert!(rt; notes.are(&[Evict(1, 10), Piece(1, 10)]));
        notes.forget();
        let phantom = CacheProperties::default().with_phantom(true);
        cache.put_with_properties(0, 4, 11, phantom)?;
        assert!(rt; notes.are(&[Replace(4, 10), Remove(4, 11), Evict(4, 11), Piece(4, 11)]));
        assert_eq!(rt;
            (cache.get(0, &3)?.ok_or("none")?.refs(), cache.entries()),
            (1, 2)
        );
        finish(&rt, tasks)?;
        assert_eq!(rt; *at_once(&rt, look)??, 70);
    }
    Ok(())
}

// What is held of a deleted record can still be read.
#[test]
fn a_delete_says_whether_there_was_a_record(rt: HostRuntime) -> Outcome {
    for config in all_policies() {
        let (cache, notes) = piped(rt, config, 2)?;
        let held = cache.insert(0, 1, 10)?;
        cache.put_with_properties(0, 2, 20, CacheProperties::default().with_expiry(Some(0)))?;
        assert!(rt;
            cache.delete(&1)? && !cache.delete(&1)? && cache.delete(&2)? && !cache.delete(&9)?
        );
        assert!(rt; notes.are(&[Remove(1, 10), Remove(2, 20)]));
        assert_eq!(rt; (*held, held.refs(), held.is_outdated()), (10, 1, true));
        drop(held);
        assert_eq!(rt; (cache.stats().removed, cache.entries()), (2, 0));
        assert!(rt; notes.are(&[Remove(1, 10), Remove(2, 20)]));
    }
    Ok(())
}

// F9 at the limit of handles: nothing has changed, no closure was called, and a peek needs no handle.
#[test]
fn a_full_handle_count_refuses_all_but_a_peek(rt: HostRuntime) -> Outcome {
    for config in all_policies() {
        let (cache, notes) = piped(rt, config, 1)?;
        let held = cache.insert(0, 1, 10)?;
        let mut is_called = false;
        let read = cache.read(0, &1, |_value| is_called = true);
        assert_eq!(rt; (number(read), is_called), (Some(9), false));
        assert_eq!(rt;
            (
                number(cache.get_copied(0, &1)),
                number(cache.get_cloned(0, &1)),
                number(cache.delete(&1))
            ),
            (Some(9), Some(9), Some(9))
        );
        assert!(rt; cache.peek(0, &1, |value| *value) == Some(10) && notes.are(&[]));
        assert_eq!(rt; (cache.stats().hits, cache.stats().removed), (0, 0));
        drop(held);
        assert!(rt; cache.read(0, &1, |value| *value)? == Some(10) && cache.delete(&1)?);
    }
    Ok(())
}
