//! The cache of the cases: of any policy, with values for weights, told to a listener and a pipe that count.

use crate::case::{Outcome, Runtime};
use crate::heard::{Ear, Heard, Tube};
use foyer_core::{AdmitAll, CacheProperties, FetchTarget, Weighter};
use foyer_memory::{Cache as CacheOf, CacheBuilder, CacheEntry, EvictionConfig, FetchTask};
use foyer_policy::{Fault, ModHasher, Result};
use foyer_raw::{Direct, Spawner};
use futures::Future;
use futures::channel::oneshot;
use futures::task::{Context, Poll};
use std::hash::{BuildHasher, Hasher};
use std::sync::Arc;

/// A record weighs what its value says.
#[derive(Clone, Copy, Debug, Default)]
pub struct ByValue;

impl Weighter<u64, u64> for ByValue {
    ghost use Rattle.std.specs.Prelude.{◌≡◌};

    ghost weighs = { λ _ _ value weight. weight ≡ value };

    fn weigh(&self, _key: &u64, value: &u64) -> usize {
        *value as usize
    }
}

/// Gives a key the hash `256 * key + seed`, as no other builder does.
#[derive(Clone, Copy, Debug, Default)]
pub struct Seeded {
    pub seed: u8,
}

impl BuildHasher for Seeded {
    type Hasher = ModHasher;

    ghost use Rattle.std.specs.Prelude.{[], ◌∷◌};
    ghost use Rattle.foyer_policy.specs.Hash.{no_digits, with_bytes};

    ghost build_hasher = { λ s. with_bytes no_digits (s.seed ∷ []) };

    fn build_hasher(&self) -> ModHasher {
        let mut hasher = ModHasher::default();
        hasher.write(&[self.seed]);
        hasher
    }
}

/// The seed of the caches.
pub const SEED: u8 = 77;

/// A fetch: of a value that a channel brings, or of one that is there.
#[derive(Drop)]
pub enum Fetch {
    Later(oneshot::Receiver<u64>),
    Now(Option<FetchTarget<u64, u64, CacheProperties>>),
}

impl Future for Fetch {
    type Output = std::result::Result<FetchTarget<u64, u64, CacheProperties>, Fault>;

    fn poll(&mut self, cx: &mut Context<'_>) -> Poll<Self::Output> {
        match self {
            Fetch::Later(receiver) => match receiver.poll(cx) {
                Poll::Ready(value) => Poll::Ready(Ok(target(value.unwrap_or(0)))),
                Poll::Pending => Poll::Pending,
            },
            Fetch::Now(target) => match target.take() {
                Some(target) => Poll::Ready(Ok(target)),
                None => cx.yield_now(),
            },
        }
    }
}

/// A fetched value.
pub fn target(value: u64) -> FetchTarget<u64, u64, CacheProperties> {
    FetchTarget::Entry {
        value,
        properties: CacheProperties::default(),
    }
}

/// Such a cache.
pub type Cache<H> = CacheOf<
    H,
    u64,
    u64,
    Seeded,
    CacheProperties,
    ByValue,
    AdmitAll,
    Ear,
    Tube,
    Direct<Fetch>,
>;

/// An entry of it.
pub type Entry<H> = CacheEntry<
    H,
    u64,
    u64,
    Seeded,
    CacheProperties,
    ByValue,
    AdmitAll,
    Ear,
    Tube,
    Direct<Fetch>,
>;

/// A task of it.
pub type Task<H> = FetchTask<
    H,
    u64,
    u64,
    Seeded,
    CacheProperties,
    ByValue,
    AdmitAll,
    Ear,
    Tube,
    Direct<Fetch>,
>;

/// Such a cache, with a pipe, which tells these.
pub fn cache<H: Runtime>(
    rt: H,
    capacity: usize,
    shards: usize,
    config: EvictionConfig,
    heard: &Heard,
) -> Outcome<Cache<H>> {
    let made: Cache<H> = CacheBuilder::new(capacity)
        .with_shards(shards)
        .with_eviction_config(config)
        .with_hash_builder(Seeded { seed: SEED })
        .with_weighter(ByValue)
        .with_event_listener(Ear(heard.share()?))
        .build(rt, rt.alloc(), &rt)?;
    let tube = Arc::new(rt.alloc(), Tube(heard.share()?))?;
    Ok(made.with_pipe(tube))
}

/// Puts the keys below a number in, each of weight 1.
pub fn fill<H: Runtime>(cache: &Cache<H>, keys: u64) -> Outcome {
    for key in 0..keys {
        drop(cache.insert(0, key, 1)?);
    }
    Ok(())
}

/// Keeps the task that a look-up brings, if it leads a fetch.
#[derive(Drop)]
pub struct Led<H: Runtime> {
    pub task: Option<Task<H>>,
}

impl<H: Runtime> Spawner<Task<H>> for Led<H> {
    ghost room = { λ _. 1 };

    fn reserve(&mut self) -> Result<()> {
        Ok(())
    }

    fn spawn(&mut self, task: Task<H>) {
        self.task = Some(task);
    }
}
