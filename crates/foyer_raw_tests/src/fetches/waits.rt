//! What those get who wait.

use super::*;
use foyer_core::CacheProperties;
use foyer_raw::Answer;
use futures::channel::oneshot;
use std::sync::atomic::{AtomicU64, Ordering};

/// Such a cache, which fetches what is required.
type Fetching<H> = Cache<H, Direct<Later<Surely>>>;

// Such a cache of one shard.
fn fetching<H: Wait + Alloc<A = Global> + Copy + Drop>(rt: H) -> Outcome<Fetching<H>> {
    let listener = Ear(Notes::new(rt.alloc())?);
    Ok(RawCache::new(rt, rt.alloc(), fifo(4, 1), listener)?)
}

#[test]
fn a_fetch_is_overtaken(rt: HostRuntime) -> Outcome {
    let cache = fetching(rt)?;
    let mut spawner = ListSpawner::new(rt.alloc());
    let first = cache.get_or_fetch(0, &7, || after_polls(0, Ok(value(69))), &mut spawner)?;
    let second = cache.get_or_fetch(0, &7, || after_polls(0, Ok(value(68))), &mut spawner)?;
    assert!(rt; first.need_await() && second.need_await());
    let held = cache.insert(0, 7, 70)?;
    assert_eq!(rt; held.refs(), 3);
    finish(&rt, spawner)?;
    let (first, second) = (got(&rt, first)?, got(&rt, second)?);
    assert_eq!(rt; (*first, first.source()), (70, Source::Outer));
    assert_eq!(rt; (*second, second.source()), (70, Source::Outer));
    assert_eq!(rt; held.refs(), 3);
    assert_eq!(rt; *cache.get(0, &7)?.ok_or("none")?, 70);
    Ok(())
}

#[test]
fn a_fetch_answers_two(rt: HostRuntime) -> Outcome {
    let cache = fetching(rt)?;
    let mut spawner = ListSpawner::new(rt.alloc());
    let first = cache.get_or_fetch(0, &7, || after_polls(3, Ok(value(69))), &mut spawner)?;
    let second = cache.get_or_fetch(0, &7, || after_polls(0, Ok(value(68))), &mut spawner)?;
    finish(&rt, spawner)?;
    let first = got(&rt, first)?;
    assert_eq!(rt;
        (*first, first.source(), first.refs()),
        (69, Source::Outer, 2)
    );
    drop(second);
    assert_eq!(rt; first.refs(), 1);
    let mut spawner = ListSpawner::new(rt.alloc());
    let hit = cache.get_or_fetch(0, &7, || after_polls(0, Ok(value(1))), &mut spawner)?;
    let hit = hit.try_unwrap().ok().ok_or("a miss")??;
    assert_eq!(rt; (*hit, hit.source()), (69, Source::Memory));
    Ok(())
}

/// Polls a look-up twice: the value of the first answer, and the number of the second one's refusal.
struct Twice<'a, H: Wait + Drop> {
    look: &'a mut Look<H>,
}

impl<H: Wait + Drop> Drop for Twice<'_, H> {
    fn drop(self) {
        let Twice { look: _ } = self;
    }
}

impl<H: Wait + Drop> Future for Twice<'_, H> {
    type Output = (u64, u8);

    fn poll(&mut self, cx: &mut Context<'_>) -> Poll<(u64, u8)> {
        let value = value_of(self.look, cx);
        Poll::Ready((value, refusal_of(self.look, cx)))
    }
}

// The value that a poll gives, or 0.
fn value_of<H: Wait + Drop>(look: &mut Look<H>, cx: &mut Context<'_>) -> u64 {
    match look.poll(cx) {
        Poll::Ready(Ok(Some(entry))) => *entry,
        _ => 0,
    }
}

// The number of a poll's refusal, or 0.
fn refusal_of<H: Wait + Drop>(look: &mut Look<H>, cx: &mut Context<'_>) -> u8 {
    match look.poll(cx) {
        Poll::Ready(Err(error)) => error.number(),
        _ => 0,
    }
}

#[test]
fn an_answer_is_given_once(rt: HostRuntime) -> Outcome {
    let (cache, _notes) = heard(rt, fifo(4, 1))?;
    let mut wait = ended(&rt, &cache, (None, must(0, Ok(value(5)))))?;
    assert_eq!(rt; format!(in rt.alloc(); "{wait:?}")?.as_str(), "Miss");
    assert_eq!(rt; block_on(&rt, Twice { look: &mut wait })?, (5, 16));
    let mut hit = ended(&rt, &cache, NONE)?;
    assert_eq!(rt; format!(in rt.alloc(); "{hit:?}")?.as_str(), "Hit");
    assert_eq!(rt; block_on(&rt, Twice { look: &mut hit })?, (5, 16));
    Ok(())
}

// On a hit no builder is asked for, on a miss both, and only the required one by who waits for a fetch that is open.
#[test]
fn builders_are_asked_for_where_they_are_needed(rt: HostRuntime) -> Outcome {
    let (cache, _notes) = heard(rt, fifo(4, 1))?;
    let held = cache.insert(0, 7, 70)?;
    let asked = AtomicU64::new(0);
    let optional = || {
        asked.fetch_add(1, Ordering::SeqCst);
        None
    };
    let required = || {
        asked.fetch_add(10, Ordering::SeqCst);
        None
    };
    let mut spawner = ListSpawner::new(rt.alloc());
    for (key, all) in [(7u32, 0u64), (8, 11), (8, 21)] {
        drop(cache.get_or_fetch_inner(0, &key, &optional, &required, (), &mut spawner)?);
        assert_eq!(rt; asked.load(Ordering::SeqCst), all);
    }
    drop(held);
    Ok(())
}

#[test]
fn no_builder_at_all(rt: HostRuntime) -> Outcome {
    let (cache, _notes) = heard(rt, fifo(4, 1))?;
    let wait = ended(&rt, &cache, NONE)?;
    assert!(rt; at_once(&rt, wait)??.is_none() && cache.get(0, &7)?.is_none());
    Ok(())
}

#[test]
fn a_wait_is_dropped(rt: HostRuntime) -> Outcome {
    let (cache, _notes) = heard(rt, fifo(4, 1))?;
    let (before, mut spawner) = begun(&cache, rt.alloc(), (None, must(0, Ok(value(5)))))?;
    let after = look(&cache, &mut spawner, NONE)?;
    let kept = look(&cache, &mut spawner, NONE)?;
    drop(before);
    finish(&rt, spawner)?;
    let entry = got(&rt, kept)?;
    assert_eq!(rt; entry.refs(), 2);
    drop(after);
    assert_eq!(rt; entry.refs(), 1);
    Ok(())
}

// A wait ends with what was sent, and with F14 where its sender goes without an answer.
#[test]
fn a_sender_is_gone(rt: HostRuntime) -> Outcome {
    let alloc = rt.alloc();
    let (cache, _notes) = heard(rt, fifo(4, 1))?;
    let (notifier, waiter) = oneshot::channel::<Result<Answer<u32, u64, CacheProperties>>>(alloc)?;
    let wait = cache.wait_for(waiter)?;
    assert!(rt; notifier.send(Ok(None)).is_ok());
    assert!(rt; at_once(&rt, wait)??.is_none());
    let (notifier, waiter) = oneshot::channel::<Result<Answer<u32, u64, CacheProperties>>>(alloc)?;
    drop(notifier);
    assert_eq!(rt; number(at_once(&rt, cache.wait_for(waiter)?)?), Some(14));
    Ok(())
}

// The answer of a wait is a handle like any other: it keeps a record pinned until the wait is dropped.
#[test]
fn a_wait_ends_a_pin(rt: HostRuntime) -> Outcome {
    let alloc = rt.alloc();
    let config: RawCacheConfig<_, ModHasher, _, _> = RawCacheConfig {
        shards: 1,
        ..RawCacheConfig::new(1)
    };
    let cache: Cache<HostRuntime, Direct<Later<Surely>>, Lru> = RawCache::new(
        rt,
        alloc,
        config,
        Ear(Notes::new(alloc)?),
    )?;
    let mut spawner = ListSpawner::new(alloc);
    let wait = cache.get_or_fetch(0, &7, || after_polls(0, Ok(value(70))), &mut spawner)?;
    finish(&rt, spawner)?;
    drop(cache.get(0, &7)?);
    drop(cache.insert(0, 8, 80)?);
    assert!(rt; cache.contains(0, &7) && cache.contains(0, &8));
    drop(wait);
    drop(cache.insert(0, 9, 90)?);
    assert!(rt; !cache.contains(0, &7) && !cache.contains(0, &8) && cache.contains(0, &9));
    Ok(())
}
