//! Two who wait for one key, in a cache of each policy.

use crate::testing::{Cache, Fetch, Outcome, all_policies, at_once, builder, finish, given};
use foyer_core::UnitWeighter;
use foyer_memory::{Cache as CacheOf, CacheProperties, Filter};
use foyer_policy::{Fault, ModHasher, Reason, Result, Source};
use foyer_raw::{Direct, ListSpawner, NoopPipe};
use foyer_raw_tests::notes::Note::{Evict, Remove};
use foyer_raw_tests::notes::{Ear, Notes};
use futures::future::ready;

#[test]
fn an_insert_answers_two(rt: HostRuntime) -> Outcome {
    for config in all_policies() {
        let notes = Notes::new(rt.alloc())?;
        let cache: Cache<HostRuntime> = builder(16, config, &notes)?.build(rt, rt.alloc(), &rt)?;
        let mut spawner = ListSpawner::new(rt.alloc());
        let first = cache.get_or_fetch(0, &7, || given(69), &mut spawner)?;
        let second = cache.get_or_fetch(0, &7, || given(68), &mut spawner)?;
        let held = cache.insert(0, 7, 70)?;
        let (first, second) = (at_once(&rt, first)??, at_once(&rt, second)??);
        finish(&rt, spawner)?;
        assert_eq!(rt; (*first, first.source()), (70, Source::Outer));
        assert_eq!(rt;
            (*second, second.source(), held.refs()),
            (70, Source::Outer, 3)
        );
    }
    Ok(())
}

// The code of the fault with which a fetch failed.
fn code<X: Drop>(answered: Result<X>) -> Option<u64> {
    match answered.err()?.reason() {
        Reason::Fetch(fault) => Some(fault.code),
        _ => None,
    }
}

#[test]
fn a_fault_answers_two(rt: HostRuntime) -> Outcome {
    for config in all_policies() {
        let notes = Notes::new(rt.alloc())?;
        let cache: Cache<HostRuntime> = builder(16, config, &notes)?.build(rt, rt.alloc(), &rt)?;
        let fault = |code| {
            ready(Err(Fault {
                code,
                message: String::new(rt.alloc()),
            }))
        };
        let mut spawner = ListSpawner::new(rt.alloc());
        let first = cache.get_or_fetch(0, &7, || fault(3), &mut spawner)?;
        let second = cache.get_or_fetch(0, &7, || fault(4), &mut spawner)?;
        finish(&rt, spawner)?;
        assert_eq!(rt; code(at_once(&rt, first)?), Some(3));
        assert_eq!(rt; code(at_once(&rt, second)?), Some(3));
        assert!(rt; !cache.contains(0, &7));
    }
    Ok(())
}

/// Admits nothing.
#[derive(Clone, Copy)]
struct AdmitNone;

impl Filter<u32, u64> for AdmitNone {
    ghost use Rattle.std.specs.Prelude.{◌≡◌, false};

    ghost admits = { λ _ _ _ admitted. admitted ≡ false };

    fn admit(&self, _key: &u32, _value: &u64) -> bool {
        false
    }
}

/// A cache in which nothing is found.
type Shut<H> = CacheOf<
    H,
    u32,
    u64,
    ModHasher,
    CacheProperties,
    UnitWeighter,
    AdmitNone,
    Ear,
    NoopPipe<u32, u64>,
    Direct<Fetch>,
>;

// What is not admitted is held by who inserts it, or by the two who wait for it, and leaves with the last of them.
#[test]
fn nothing_is_admitted(rt: HostRuntime) -> Outcome {
    for config in all_policies() {
        let notes = Notes::new(rt.alloc())?;
        let cache: Shut<HostRuntime> = builder(16, config, &notes)?
            .with_filter(AdmitNone)
            .build(rt, rt.alloc(), &rt)?;
        let held = cache.insert(0, 1, 10)?;
        assert!(rt; held.is_outdated() && !cache.contains(0, &1) && cache.get(0, &1)?.is_none());
        assert_eq!(rt; (*held, cache.usage(), cache.entries()), (10, 0, 0));
        assert!(rt; notes.are(&[Remove(1, 10)]));
        drop(held);
        assert!(rt; notes.are(&[Remove(1, 10), Evict(1, 10)]));
        notes.forget();
        let mut spawner = ListSpawner::new(rt.alloc());
        let first = cache.get_or_fetch(0, &7, || given(70), &mut spawner)?;
        let second = cache.get_or_fetch(0, &7, || given(71), &mut spawner)?;
        finish(&rt, spawner)?;
        let (first, second) = (at_once(&rt, first)??, at_once(&rt, second)??);
        assert_eq!(rt; (*first, *second, first.refs()), (70, 70, 2));
        assert!(rt; !cache.contains(0, &7) && cache.get(0, &7)?.is_none());
        drop(first);
        assert!(rt; notes.are(&[Remove(7, 70)]));
        drop(second);
        assert!(rt; notes.are(&[Remove(7, 70), Evict(7, 70)]));
        assert_eq!(rt; (cache.usage(), cache.entries()), (0, 0));
    }
    Ok(())
}
