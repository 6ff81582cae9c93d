//! A locked cache of the tests' own parts, and what polls its tasks and those who wait.

use crate::notes::{Ear, Notes, Tube};
use crate::testing::builders::{Must, Trial};
use crate::testing::{Config, Outcome, number};
use foyer_core::{AdmitAll, CacheProperties, UnitWeighter};
use foyer_policy::{Fifo, ModHasher};
use foyer_raw::{ListSpawner, RawCache, RawCacheEntry, RawFetch, RawGetOrFetch};
use futures::Future;
use futures::executor::block_on;
use futures::task::{Context, Poll};
use std::alloc::Global;
use std::random::RandomSource;
use std::sync::{Arc, Wait};
use std::test::Fail;

/// A cache of numbers that writes down what it tells.
pub(crate) type Cache<H, T = Trial, E = Fifo> = RawCache<
    H,
    E,
    u32,
    u64,
    ModHasher,
    CacheProperties,
    UnitWeighter,
    AdmitAll,
    Ear,
    Tube,
    T,
>;

/// An entry of it.
pub(crate) type Entry<H> = RawCacheEntry<
    H,
    Fifo,
    u32,
    u64,
    ModHasher,
    CacheProperties,
    UnitWeighter,
    AdmitAll,
    Ear,
    Tube,
    Must,
>;

/// A look-up in it.
pub(crate) type Look<H> = RawGetOrFetch<
    H,
    Fifo,
    u32,
    u64,
    ModHasher,
    CacheProperties,
    UnitWeighter,
    AdmitAll,
    Ear,
    Tube,
    Must,
>;

/// The task of a fetch.
pub(crate) type Task<H> = RawFetch<
    H,
    Fifo,
    u32,
    u64,
    ModHasher,
    CacheProperties,
    UnitWeighter,
    AdmitAll,
    Ear,
    Tube,
    Trial,
>;

/// The tasks of such a cache.
pub(crate) type Tasks<H> = ListSpawner<Task<H>>;

/// A cache with a listener and no pipe, and what it tells.
pub(crate) fn heard<H: Wait + Alloc<A = Global> + Copy + Drop>(
    rt: H,
    config: Config,
) -> Outcome<(Cache<H>, Notes)> {
    let notes = Notes::new(rt.alloc())?;
    let cache = RawCache::new(rt, rt.alloc(), config, Ear(notes.share()?))?;
    Ok((cache, notes))
}

/// The same cache with a pipe, which is enabled or not.
pub(crate) fn with_tube<H: Wait + Drop>(
    cache: Cache<H>,
    alloc: Global,
    notes: &Notes,
    enabled: bool,
) -> Outcome<Cache<H>> {
    let notes = notes.share()?;
    Ok(cache.with_pipe(Arc::new(alloc, Tube { notes, enabled })?))
}

/// A cache with a listener and a pipe, and what both are told.
pub(crate) fn piped<H: Wait + Alloc<A = Global> + Copy + Drop>(
    rt: H,
    config: Config,
) -> Outcome<(Cache<H>, Notes)> {
    let (cache, notes) = heard(rt, config)?;
    Ok((with_tube(cache, rt.alloc(), &notes, true)?, notes))
}

/// Polls tasks so many times, or until none is left, and answers how many remain. Those are dropped.
pub(crate) fn polled<H: Wait + RandomSource + Alloc<A = Global>, X: Future<Output = ()>>(
    rt: &H,
    spawner: ListSpawner<X>,
    turns: u64,
) -> Outcome<usize> {
    Ok(block_on(rt, Drive { spawner, turns })?)
}

/// Polls tasks until none is left.
pub(crate) fn finish<H: Wait + RandomSource + Alloc<A = Global>, X: Future<Output = ()>>(
    rt: &H,
    spawner: ListSpawner<X>,
) -> Outcome {
    match polled(rt, spawner, 1000)? {
        0 => Ok(()),
        _ => Err(Fail::from("tasks remain")),
    }
}

/// Polls the tasks so many times, or until none is left.
#[derive(Drop)]
struct Drive<X: Future<Output = ()>> {
    spawner: ListSpawner<X>,
    turns: u64,
}

impl<X: Future<Output = ()>> Future for Drive<X> {
    type Output = usize;

    fn poll(&mut self, cx: &mut Context<'_>) -> Poll<usize> {
        let remain = self.spawner.poll_all(cx);
        if remain == 0 || self.turns <= 1 {
            return Poll::Ready(remain);
        }
        self.turns -= 1;
        cx.yield_now()
    }
}

/// Polls a future once: what it gives, or none where it is pending.
#[derive(Drop)]
struct Now<F: Future> {
    future: F,
}

impl<F: Future> Future for Now<F> {
    type Output = Option<F::Output>;

    fn poll(&mut self, cx: &mut Context<'_>) -> Poll<Option<F::Output>> {
        match self.future.poll(cx) {
            Poll::Ready(given) => Poll::Ready(Some(given)),
            Poll::Pending => Poll::Ready(None),
        }
    }
}

/// What a future gives at its first poll. Where it is pending that is an error: it could be so for ever.
pub(crate) fn at_once<H: Wait + RandomSource + Alloc<A = Global>, F: Future>(
    rt: &H,
    future: F,
) -> Outcome<F::Output> {
    match block_on(rt, Now { future })? {
        Some(given) => Ok(given),
        None => Err(Fail::from("no answer")),
    }
}

/// The entry that one who waits gets.
pub(crate) fn got<H: Wait + RandomSource + Alloc<A = Global> + Drop>(
    rt: &H,
    look: Look<H>,
) -> Outcome<Entry<H>> {
    Ok(at_once(rt, look)??.ok_or("none")?)
}

/// With which number one who waits is refused, if it is.
pub(crate) fn refused<H: Wait + RandomSource + Alloc<A = Global> + Drop>(
    rt: &H,
    look: Look<H>,
) -> Outcome<Option<u8>> {
    Ok(number(at_once(rt, look)?))
}
