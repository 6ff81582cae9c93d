//! How often a missed look-up clones its key, and how often a shard compares it.

use crate::testing::Outcome;
use crate::testing::cache::{at_once, finish};
use foyer_core::{AdmitAll, CacheProperties, FetchTarget, RawCacheConfig, UnitWeighter};
use foyer_policy::{Fault, Fifo, FifoConfig, ModHasher};
use foyer_raw::{Direct, ListSpawner, NoListener, NoopPipe, RawCache};
use futures::future::{Ready, ready};
use std::alloc::{AllocError, Global};
use std::hash::{Hash, Hasher};
use std::marker::Model;
use std::sync::Arc;
use std::sync::atomic::{AtomicU64, Ordering};

/// How often keys were cloned and compared.
#[derive(Drop)]
struct Counts {
    clones: AtomicU64,
    compares: AtomicU64,
}

impl Counts {
    fn new() -> Self {
        Counts {
            clones: AtomicU64::new(0),
            compares: AtomicU64::new(0),
        }
    }

    // What was counted since this was asked last.
    fn take(&self) -> (u64, u64) {
        (
            self.clones.swap(0, Ordering::SeqCst),
            self.compares.swap(0, Ordering::SeqCst),
        )
    }
}

/// A number as a key, which counts.
#[derive(Drop)]
struct CountingKey {
    number: u64,
    counts: Arc<Counts, Global>,
}

impl CountingKey {
    fn new(number: u64, counts: &Arc<Counts, Global>) -> Result<Self, AllocError> {
        Ok(CountingKey {
            number,
            counts: Arc::try_clone(counts)?,
        })
    }
}

impl Model for CountingKey {
    ghost use Rattle.std.specs.Prelude.{ℕ};

    ghost Value = { ℕ };

    ghost view = { λ k. k.number };
}

impl PartialEq for CountingKey {
    ghost use Rattle.std.specs.Prelude.{nat_eq};
    ghost use Rattle.std.specs.Cmp.{nat_eq_equiv, partial_equiv_from_equiv};

    ghost eq = { nat_eq };

    ghost laws = { partial_equiv_from_equiv nat_eq_equiv };

    fn eq(&self, other: &CountingKey) -> bool {
        self.counts.compares.fetch_add(1, Ordering::SeqCst);
        self.number == other.number
    }
}

impl Eq for CountingKey {
    ghost use Rattle.std.specs.Cmp.{nat_eq_equiv};

    ghost laws = { nat_eq_equiv };
}

impl Hash for CountingKey {
    ghost use Rattle.std.proofs.Common.{rules};

    ghost hash_input = { ⟦<u64 as Hash>⟧.hash_input };

    ghost respects_eq = { Prim.search rules };

    fn hash<H: Hasher>(&self, state: &mut H) {
        self.number.hash(state);
    }
}

impl Clone for CountingKey {
    ghost use Rattle.std.specs.Prelude.{◌≡◌};

    ghost is_clone = { λ k c. c ≡ k };

    fn clone(&self) -> Result<Self, AllocError> {
        self.counts.clones.fetch_add(1, Ordering::SeqCst);
        CountingKey::new(self.number, &self.counts)
    }
}

/// A fetch that is ready at once.
type Fetch = Ready<Result<FetchTarget<CountingKey, u64, CacheProperties>, Fault>>;

/// A cache under such keys.
type Counting<H> = RawCache<
    H,
    Fifo,
    CountingKey,
    u64,
    ModHasher,
    CacheProperties,
    UnitWeighter,
    AdmitAll,
    NoListener<CountingKey, u64>,
    NoopPipe<CountingKey, u64, CacheProperties>,
    Direct<Fetch>,
>;

// An expired record of the key is resident, so each lock under which the key is looked up compares it with that record's key
// or with the open fetch's.
#[test]
fn a_fetch_clones_its_key_twice(rt: HostRuntime) -> Outcome {
    let counts = Arc::new(rt.alloc(), Counts::new())?;
    let config: RawCacheConfig<FifoConfig, ModHasher, UnitWeighter, AdmitAll> = RawCacheConfig::new(
        8,
    );
    let cache: Counting<HostRuntime> = RawCache::new(rt, rt.alloc(), config, NoListener::new())?;
    let key = CountingKey::new(7, &counts)?;
    let expired = CacheProperties::default().with_expiry(Some(0));
    cache.put_with_properties(0, CountingKey::new(7, &counts)?, 1, expired)?;
    counts.take();
    let mut tasks = ListSpawner::new(rt.alloc());
    let look = cache.get_or_fetch(0, &key, || ready(Ok(FetchTarget::from(2))), &mut tasks)?;
    let asked = counts.take();
    finish(&rt, tasks)?;
    let fetched = counts.take();
    assert_eq!(rt; *at_once(&rt, look)??.ok_or("none")?, 2);
    assert_eq!(rt; (asked, fetched, counts.take()), ((2, 2), (0, 4), (0, 0)));
    assert_eq!(rt; *cache.get(0, &key)?.ok_or("none")?, 2);
    Ok(())
}

// The same of a value that the caller makes.
#[test]
fn a_made_value_clones_its_key_twice(rt: HostRuntime) -> Outcome {
    let counts = Arc::new(rt.alloc(), Counts::new())?;
    let config: RawCacheConfig<FifoConfig, ModHasher, UnitWeighter, AdmitAll> = RawCacheConfig::new(
        8,
    );
    let cache: Counting<HostRuntime> = RawCache::new(rt, rt.alloc(), config, NoListener::new())?;
    let key = CountingKey::new(7, &counts)?;
    assert_eq!(rt; *cache.get_or_insert_with(0, &key, || Ok(2))?, 2);
    assert_eq!(rt; counts.take(), (2, 2));
    assert_eq!(rt; *cache.get_or_insert_with(0, &key, || Ok(3))?, 2);
    assert_eq!(rt; counts.take(), (0, 1));
    Ok(())
}
