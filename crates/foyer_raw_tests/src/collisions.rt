//! Keys that all have one hash.

use crate::testing::Outcome;
use foyer_core::{AdmitAll, Limits, RawCacheConfig, UnitWeighter};
use foyer_policy::{Fifo, FifoConfig};
use foyer_raw::{NoListener, RawCache};
use std::hash::{BuildHasher, Hasher};
use std::marker::Model;

/// Gives all keys the number 0.
#[derive(Clone, Copy)]
struct Zeros;

impl Model for Zeros {
    ghost use Rattle.std.specs.Prelude.{⊤};

    ghost Value = { ⊤ };

    ghost view = { λ _. tt };

    ghost inverse = { λ _. record {} };
}

impl Hasher for Zeros {
    ghost write = { λ h _. h };

    ghost finish = { λ _. 0 };

    fn finish(&self) -> u64 {
        0
    }

    fn write(&mut self, _bytes: &[u8]) {}
}

impl BuildHasher for Zeros {
    type Hasher = Zeros;

    ghost build_hasher = { λ _. tt };

    fn build_hasher(&self) -> Zeros {
        Zeros
    }
}

type Cache<H> = RawCache<H, Fifo, u32, u64, Zeros>;

// A configuration of two shards with room for two records each. All keys live in the first.
fn colliding() -> RawCacheConfig<FifoConfig, Zeros, UnitWeighter, AdmitAll> {
    RawCacheConfig {
        capacity: 4,
        shards: 2,
        eviction_config: FifoConfig {},
        hash_builder: Zeros,
        weighter: UnitWeighter,
        filter: AdmitAll,
        number: 0,
        limits: Limits::default(),
    }
}

#[test]
fn colliding_keys_have_their_own_records(rt: HostRuntime) -> Outcome {
    let cache: Cache<HostRuntime> = RawCache::new(rt, rt.alloc(), colliding(), NoListener::new())?;
    let one = cache.insert(0, 1, 10)?;
    let two = cache.insert(0, 2, 20)?;
    assert_eq!(rt; (one.hash(), two.hash()), (0, 0));
    assert_eq!(rt; *cache.get(0, &1)?.ok_or("none")?, 10);
    assert_eq!(rt; *cache.get(0, &2)?.ok_or("none")?, 20);
    assert!(rt; cache.get(0, &3)?.is_none() && cache.remove(&3)?.is_none());
    assert_eq!(rt; *cache.remove(&1)?.ok_or("none")?, 10);
    assert!(rt; one.is_outdated() && !two.is_outdated());
    assert!(rt; !cache.contains(0, &1) && cache.contains(0, &2));
    drop(cache.insert(0, 3, 30)?);
    drop(cache.insert(0, 4, 40)?);
    assert!(rt; !cache.contains(0, &2) && cache.contains(0, &3) && cache.contains(0, &4));
    assert_eq!(rt; (cache.usage(), cache.entries()), (2, 2));
    Ok(())
}
