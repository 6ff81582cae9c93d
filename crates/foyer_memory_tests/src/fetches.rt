//! Look-ups that fetch what is missing.

use crate::testing::{
    Cache, Look, Outcome, Target, Task, all_policies, at_once, builder, finish, given, number,
    target,
};
use foyer_memory::{CacheProperties, EvictionConfig, FetchTarget, LruConfig, OptionalFetchBuilder};
use foyer_policy::{Fault, Result, Source};
use foyer_raw::{FetchTypes, Given, ListSpawner, Pollable, Spawner};
use foyer_raw_tests::notes::Notes;
use futures::Future;
use futures::executor::block_on;
use futures::future::{Ready, ready};
use futures::task::{Context, Poll};
use log::Log;
use std::alloc::Global;
use std::sync::Wait;

/// What a required fetch gives.
type Surely = std::result::Result<Target, Fault>;

/// What an optional fetch may give.
type Perhaps = std::result::Result<Option<Target>, Fault>;

/// Gives the optional fetch that it holds.
#[derive(Drop)]
struct May {
    fetch: Pollable<Ready<Perhaps>>,
}

impl OptionalFetchBuilder<u32, u64, CacheProperties, ()> for May {
    type Fetch = Ready<Perhaps>;

    fn build(self, _context: &mut ()) -> Ready<Perhaps> {
        let May { fetch } = self;
        fetch.into_inner()
    }
}

/// Fetch types with an optional and a required fetch.
struct Trial;

impl FetchTypes<u32, u64, CacheProperties> for Trial {
    type Context = ();

    type Optional = May;

    type Required = Given<Ready<Surely>>;
}

// A cache with these fetch types, and with the builder's own policy and number of shards.
fn fetching<
    H: Wait + Log + Alloc<A = Global> + Copy + Drop,
    T: FetchTypes<u32, u64, CacheProperties>,
>(rt: H) -> Outcome<Cache<H, T>> {
    let config = EvictionConfig::from(LruConfig::default());
    let notes = Notes::new(rt.alloc())?;
    Ok(builder(16, config, &notes)?.build(rt, rt.alloc(), &rt)?)
}

// An optional builder whose fetch gives this.
fn may(found: Option<Target>) -> Option<May> {
    Some(May {
        fetch: Pollable::new(ready(Ok(found))),
    })
}

// A required builder whose fetch gives this.
fn must_give(target: Target) -> Option<Given<Ready<Surely>>> {
    Some(Given {
        fetch: Pollable::new(ready(Ok(target))),
    })
}

// A required builder whose fetch gives this value.
fn must(value: u64) -> Option<Given<Ready<Surely>>> {
    must_give(target(value))
}

/// Polls a look-up twice: the value of the first answer, or its refusal's number, and the number of the second one's. 0
/// and none where it is pending.
struct Twice<'a, H: Wait + Drop, T: FetchTypes<u32, u64, CacheProperties>> {
    look: &'a mut Look<H, T>,
}

impl<H: Wait + Drop, T: FetchTypes<u32, u64, CacheProperties>> Drop for Twice<'_, H, T> {
    fn drop(self) {
        let Twice { look: _ } = self;
    }
}

impl<H: Wait + Drop, T: FetchTypes<u32, u64, CacheProperties>> Future for Twice<'_, H, T> {
    type Output = (u64, Option<u8>);

    fn poll(&mut self, cx: &mut Context<'_>) -> Poll<(u64, Option<u8>)> {
        let Poll::Ready(first) = self.look.poll(cx) else {
            return Poll::Ready((0, None));
        };
        let Poll::Ready(second) = self.look.poll_inner(cx) else {
            return Poll::Ready((0, None));
        };
        let value = match first {
            Ok(entry) => *entry,
            Err(error) => u64::from(error.number()),
        };
        Poll::Ready((value, number(second)))
    }
}

#[test]
fn two_wait_for_one_fetch(rt: HostRuntime) -> Outcome {
    let cache: Cache<HostRuntime> = fetching(rt)?;
    let mut spawner = ListSpawner::new(rt.alloc());
    let first = cache.get_or_fetch(0, &7, || given(69), &mut spawner)?;
    let second = cache.get_or_fetch(0, &7, || given(68), &mut spawner)?;
    let first = first.try_unwrap().err().ok_or("a hit")?;
    finish(&rt, spawner)?;
    let (first, second) = (at_once(&rt, first)??, at_once(&rt, second)??);
    assert_eq!(rt; (*first, *second, first.refs()), (69, 69, 2));
    assert_eq!(rt;
        (first.source(), second.source()),
        (Source::Outer, Source::Outer)
    );
    let mut spawner = ListSpawner::new(rt.alloc());
    let hit = cache.get_or_fetch(0, &7, || given(1), &mut spawner)?;
    let hit = hit.try_unwrap().ok().ok_or("a miss")??;
    assert_eq!(rt; (*hit, hit.source()), (69, Source::Memory));
    Ok(())
}

/// A spawner that keeps the last task.
#[derive(Drop)]
struct Last<X> {
    task: Option<X>,
}

impl<X: Future<Output = ()>> Spawner<X> for Last<X> {
    ghost room = { λ _. 1 };

    fn reserve(&mut self) -> Result<()> {
        Ok(())
    }

    fn spawn(&mut self, task: X) {
        self.task = Some(task);
    }
}

#[test]
fn each_kind_prints_its_name(rt: HostRuntime) -> Outcome {
    let alloc = rt.alloc();
    let names = ["Fifo", "S3Fifo", "Lru", "Lfu", "Sieve"];
    for (config, name) in all_policies().into_iter().zip(names) {
        let cache: Cache<HostRuntime> = builder(16, config, &Notes::new(alloc)?)?.build(
            rt, alloc, &rt,
        )?;
        let kind = format!(in alloc; "Cache::{name}Cache")?;
        assert_eq!(rt; format!(in alloc; "{cache:?}")?, kind);
        let mut last: Last<Task<HostRuntime>> = Last { task: None };
        let look = cache.get_or_fetch(0, &7, || given(69), &mut last)?;
        let miss = format!(in alloc; "{name}(Miss)")?;
        assert_eq!(rt; format!(in alloc; "{look:?}")?, miss);
        let task = last.task.take().ok_or("no task")?;
        assert!(rt;
            format!(in alloc; "{task:?}")?
                .as_str()
                .starts_with("RawFetch {")
        );
        drop(task);
        let held = cache.insert(0, 7, 70)?;
        let open = format!(in alloc; "{name}(")?;
        assert!(rt;
            format!(in alloc; "{held:?}")?
                .as_str()
                .starts_with(open.as_str())
        );
        let look = cache.get_or_fetch(0, &7, || given(69), &mut last)?;
        let hit = format!(in alloc; "{name}(Hit)")?;
        assert_eq!(rt; format!(in alloc; "{look:?}")?, hit);
    }
    Ok(())
}

// Of a wait as of a hit.
#[test]
fn an_answer_is_given_once(rt: HostRuntime) -> Outcome {
    let cache: Cache<HostRuntime> = fetching(rt)?;
    let mut spawner = ListSpawner::new(rt.alloc());
    let mut wait = cache.get_or_fetch(0, &7, || given(5), &mut spawner)?;
    finish(&rt, spawner)?;
    assert_eq!(rt; block_on(&rt, Twice { look: &mut wait })?, (5, Some(16)));
    let mut spawner = ListSpawner::new(rt.alloc());
    let mut hit = cache.get_or_fetch(0, &7, || given(6), &mut spawner)?;
    assert_eq!(rt; block_on(&rt, Twice { look: &mut hit })?, (5, Some(16)));
    Ok(())
}

#[test]
fn a_builder_that_was_lent(rt: HostRuntime) -> Outcome {
    let cache: Cache<HostRuntime, Trial> = fetching(rt)?;
    let mut spawner = ListSpawner::new(rt.alloc());
    let first = cache.get_or_fetch_inner(0, &7, || may(None), || None, (), &mut spawner)?;
    let second = cache.get_or_fetch_inner(0, &7, || None, || must(5), (), &mut spawner)?;
    finish(&rt, spawner)?;
    assert_eq!(rt; (*at_once(&rt, first)??, *at_once(&rt, second)??), (5, 5));
    Ok(())
}

// A value of an optional fetch is from the disk and one of a required fetch from outside, and a piece's is from memory.
// With a piece of another key a fetch is refused.
#[test]
fn a_fetch_says_where_its_value_is_from(rt: HostRuntime) -> Outcome {
    let cache: Cache<HostRuntime, Trial> = fetching(rt)?;
    let [own, strange] = [3u32, 5].map(|key| cache.insert(0, key, u64::from(10 * key)));
    let (own, strange) = (own?.piece()?, strange?.piece()?);
    drop(cache.remove(&3)?);
    let given = [
        (1u32, may(Some(target(10))), None),
        (2, None, must(20)),
        (3, None, must_give(FetchTarget::Piece(own))),
        (4, None, must_give(FetchTarget::Piece(strange))),
    ];
    let mut spawner = ListSpawner::new(rt.alloc());
    let mut looks = Vec::new(rt.alloc());
    for (key, optional, required) in given {
        looks.push(cache.get_or_fetch_inner(0, &key, || optional, || required, (), &mut spawner)?)?;
    }
    finish(&rt, spawner)?;
    let wrong = looks.pop().ok_or("no look-up")?;
    assert_eq!(rt; number(at_once(&rt, wrong)?), Some(12));
    let sources = [Source::Disk, Source::Outer, Source::Memory];
    for (look, (key, source)) in looks.into_iter().zip((1u32..4).zip(sources)) {
        let entry = at_once(&rt, look)??;
        assert_eq!(rt;
            (*entry.key(), *entry, entry.source()),
            (key, u64::from(10 * key), source)
        );
    }
    Ok(())
}

// F13 where the fetch found nothing, and F15 where its task was dropped.
#[test]
fn nothing_was_found(rt: HostRuntime) -> Outcome {
    let cache: Cache<HostRuntime, Trial> = fetching(rt)?;
    let mut spawner = ListSpawner::new(rt.alloc());
    let mut first = cache.get_or_fetch_inner(0, &7, || None, || None, (), &mut spawner)?;
    let lost = cache.get_or_fetch_inner(0, &8, || None, || None, (), &mut spawner)?;
    let mut other = ListSpawner::new(rt.alloc());
    let dropped = cache.get_or_fetch_inner(0, &9, || None, || must(5), (), &mut other)?;
    drop(other);
    finish(&rt, spawner)?;
    assert_eq!(rt; block_on(&rt, Twice { look: &mut first })?, (13, Some(16)));
    assert_eq!(rt; number(at_once(&rt, lost)?), Some(13));
    assert_eq!(rt; number(at_once(&rt, dropped)?), Some(15));
    Ok(())
}
