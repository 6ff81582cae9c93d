//! What the tests have in common: a cache of their own parts, and what polls its tasks.

use foyer_core::{AdmitAll, UnitWeighter};
use foyer_memory::{
    Cache as CacheOf, CacheBuilder, CacheEntry, CacheProperties, EvictionConfig, FetchTarget,
    FetchTask, FifoConfig, GetOrFetch, LfuConfig, LruConfig, S3FifoConfig, SieveConfig,
};
use foyer_policy::{Fault, ModHasher, Result};
use foyer_raw::{Direct, ListSpawner};
use foyer_raw_tests::notes::{Ear, Notes, Tube};
use futures::Future;
use futures::executor::block_on;
use futures::future::{Ready, ready};
use futures::task::{Context, Poll};
use log::Log;
use std::alloc::Global;
use std::random::RandomSource;
use std::sync::Wait;
use std::test::Fail;

/// What a test, or a helper of one, ends with.
pub(crate) type Outcome<T = ()> = std::result::Result<T, Fail>;

/// What a fetch gives where nothing fails.
pub(crate) type Target = FetchTarget<u32, u64, CacheProperties>;

/// A fetch that is ready at once.
pub(crate) type Fetch = Ready<std::result::Result<Target, Fault>>;

/// A cache of numbers that writes down what it tells.
pub(crate) type Cache<H, T = Direct<Fetch>> = CacheOf<
    H,
    u32,
    u64,
    ModHasher,
    CacheProperties,
    UnitWeighter,
    AdmitAll,
    Ear,
    Tube,
    T,
>;

/// An entry of it.
pub(crate) type Entry<H> = CacheEntry<
    H,
    u32,
    u64,
    ModHasher,
    CacheProperties,
    UnitWeighter,
    AdmitAll,
    Ear,
    Tube,
    Direct<Fetch>,
>;

/// A look-up in it.
pub(crate) type Look<H, T = Direct<Fetch>> = GetOrFetch<
    H,
    u32,
    u64,
    ModHasher,
    CacheProperties,
    UnitWeighter,
    AdmitAll,
    Ear,
    Tube,
    T,
>;

/// A task of it.
pub(crate) type Task<H, T = Direct<Fetch>> = FetchTask<
    H,
    u32,
    u64,
    ModHasher,
    CacheProperties,
    UnitWeighter,
    AdmitAll,
    Ear,
    Tube,
    T,
>;

/// A configuration of each policy.
pub(crate) fn all_policies() -> [EvictionConfig; 5] {
    [
        EvictionConfig::from(FifoConfig {}),
        EvictionConfig::from(S3FifoConfig::default()),
        EvictionConfig::from(LruConfig::default()),
        EvictionConfig::from(LfuConfig::default()),
        EvictionConfig::from(SieveConfig),
    ]
}

/// A value of a key.
pub(crate) fn target(value: u64) -> Target {
    FetchTarget::Entry {
        value,
        properties: CacheProperties::default(),
    }
}

/// A fetch of this value.
pub(crate) fn given(value: u64) -> Fetch {
    ready(Ok(target(value)))
}

/// A builder of caches of numbers with keys as their own hashes, which tell a listener that writes down.
pub(crate) fn builder(
    capacity: usize,
    config: EvictionConfig,
    notes: &Notes,
) -> Outcome<CacheBuilder<u32, u64, ModHasher, UnitWeighter, AdmitAll, Ear>> {
    Ok(
        CacheBuilder::new(capacity)
            .with_eviction_config(config)
            .with_hash_builder(ModHasher::default())
            .with_event_listener(Ear(notes.share()?)),
    )
}

/// Polls each task once, and is an error where one remains.
pub(crate) fn finish<H: Wait + RandomSource + Alloc<A = Global>, X: Future<Output = ()>>(
    rt: &H,
    spawner: ListSpawner<X>,
) -> Outcome {
    match block_on(rt, Once { spawner })? {
        0 => Ok(()),
        _ => Err(Fail::from("tasks remain")),
    }
}

/// Polls each task once, and answers how many remain.
#[derive(Drop)]
struct Once<X: Future<Output = ()>> {
    spawner: ListSpawner<X>,
}

impl<X: Future<Output = ()>> Future for Once<X> {
    type Output = usize;

    fn poll(&mut self, cx: &mut Context<'_>) -> Poll<usize> {
        Poll::Ready(self.spawner.poll_all(cx))
    }
}

/// Polls a future once: what it gives, or none where it is pending.
#[derive(Drop)]
struct Now<F: Future> {
    future: F,
}

impl<F: Future> Future for Now<F> {
    type Output = Option<F::Output>;

    fn poll(&mut self, cx: &mut Context<'_>) -> Poll<Option<F::Output>> {
        match self.future.poll(cx) {
            Poll::Ready(given) => Poll::Ready(Some(given)),
            Poll::Pending => Poll::Ready(None),
        }
    }
}

/// What a future gives at its first poll. Where it is pending that is an error: it could be so for ever.
pub(crate) fn at_once<H: Wait + RandomSource + Alloc<A = Global>, F: Future>(
    rt: &H,
    future: F,
) -> Outcome<F::Output> {
    match block_on(rt, Now { future })? {
        Some(given) => Ok(given),
        None => Err(Fail::from("no answer")),
    }
}

/// With which number a call is refused, if it is.
pub(crate) fn number<X: Drop>(answered: Result<X>) -> Option<u8> {
    answered.err().map(|error| error.number())
}
