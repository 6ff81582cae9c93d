//! Records whose expiry is set.

use crate::notes::Note::{Evict, Replace};
use crate::notes::{Ear, Notes};
use crate::testing::builders::{must, value};
use crate::testing::cache::{finish, got, heard};
use crate::testing::{BEFORE, EXPIRY, Outcome, expiring, fifo, limited, number};
use foyer_core::{AdmitAll, CacheProperties, Limits, RawCacheConfig, Weighter};
use foyer_policy::{Hint, ModHasher, Properties, Sieve, SieveConfig};
use foyer_raw::{ListSpawner, RawCache};
use std::sync::Arc;
use std::sync::atomic::{AtomicUsize, Ordering};

// All but the expiry stays, the old record is told, and an entry of it is as it was.
#[test]
fn an_expiry_is_set(rt: HostRuntime) -> Outcome {
    let (cache, notes) = heard(rt, fifo(8, 2))?;
    let cache = cache.with_time_to_live(Some(1));
    let old = cache.insert_with_properties(0, 1, 10, expiring().with_hint(Hint::Low))?;
    for expires in [Some(EXPIRY + 1), Some(u64::MAX), None] {
        notes.forget();
        assert!(rt; cache.set_expires(BEFORE, &1, expires)? && notes.are(&[Replace(1, 10)]));
        let new = cache.get(EXPIRY, &1)?.ok_or("none")?;
        let properties = new.properties();
        assert_eq!(rt;
            (*new, properties.expiry(), properties.hint()),
            (10, expires, Hint::Low)
        );
        assert_eq!(rt; (new.refs(), new.is_outdated(), new.hash()), (1, false, 1));
    }
    assert_eq!(rt;
        (old.properties().expiry(), old.refs(), old.is_outdated()),
        (Some(EXPIRY), 1, true)
    );
    assert!(rt; !cache.set_expires(0, &2, None)? && cache.entries() == 1);
    let stats = cache.stats();
    assert_eq!(rt; (stats.hits, stats.misses, stats.inserts), (6, 1, 4));
    assert_eq!(rt; (stats.replaced, stats.evictions), (3, 0));
    Ok(())
}

// What has expired isn't found, and what is to be expired already is so at once.
#[test]
fn an_expired_record_stays_expired(rt: HostRuntime) -> Outcome {
    let (cache, notes) = heard(rt, fifo(4, 1))?;
    drop(cache.insert_with_properties(0, 1, 10, expiring())?);
    assert!(rt; !cache.set_expires(EXPIRY, &1, None)? && notes.are(&[]));
    assert!(rt; !cache.contains(EXPIRY, &1) && cache.set_expires(BEFORE, &1, Some(0))?);
    assert!(rt; !cache.contains(0, &1) && cache.entries() == 1);
    assert!(rt; !cache.set_expires(0, &1, None)? && notes.are(&[Replace(1, 10)]));
    Ok(())
}

// An insert makes room first, for which the record itself may be evicted.
#[test]
fn a_full_shard_evicts_one(rt: HostRuntime) -> Outcome {
    for capacity in [1, 2] {
        let (cache, notes) = heard(rt, fifo(capacity, 1))?;
        cache.put(0, 1, 10)?;
        cache.put(0, 2, 20)?;
        notes.forget();
        assert!(rt; cache.set_expires(0, &2, Some(5))? && cache.entries() == 1);
        if capacity == 1 {
            assert!(rt; notes.are(&[Evict(2, 20)]));
        } else {
            assert!(rt; notes.are(&[Evict(1, 10), Replace(2, 20)]));
        }
    }
    Ok(())
}

// A fetch that was opened while the record had expired ends with the new one.
#[test]
fn who_waits_gets_the_record(rt: HostRuntime) -> Outcome {
    let (cache, notes) = heard(rt, fifo(4, 1))?;
    drop(cache.insert_with_properties(0, 7, 70, expiring())?);
    let mut tasks = ListSpawner::new(rt.alloc());
    let builders = (None, must(3, Ok(value(5))));
    let wait = cache.get_or_fetch_inner(EXPIRY, &7, || builders.0, || builders.1, (), &mut tasks)?;
    assert!(rt; cache.set_expires(BEFORE, &7, None)?);
    finish(&rt, tasks)?;
    let waited = got(&rt, wait)?;
    assert_eq!(rt;
        (*waited, waited.refs(), waited.is_outdated()),
        (70, 1, false)
    );
    assert!(rt; notes.are(&[Replace(7, 70)]) && waited.properties().expiry().is_none());
    Ok(())
}

/// Counts how often it is asked, which is the weight.
#[derive(Drop)]
struct Asked(Arc<AtomicUsize>);

impl Weighter<u32, u64> for Asked {
    ghost use Rattle.std.specs.Prelude.{⊤};

    ghost weighs = { λ _ _ _ _. ⊤ };

    fn weigh(&self, _key: &u32, _value: &u64) -> usize {
        self.0.fetch_add(1, Ordering::SeqCst)
    }
}

// The weigher isn't asked again.
#[test]
fn the_weight_stays(rt: HostRuntime) -> Outcome {
    let (notes, asked) = (
        Notes::new(rt.alloc())?,
        Arc::new(rt.alloc(), AtomicUsize::new(3))?,
    );
    let config = RawCacheConfig {
        capacity: 9,
        shards: 1,
        eviction_config: SieveConfig,
        hash_builder: ModHasher::default(),
        weighter: Asked(Arc::try_clone(&asked)?),
        filter: AdmitAll,
        number: 0,
        limits: Limits::default(),
    };
    let cache: RawCache<
        HostRuntime,
        Sieve,
        u32,
        u64,
        ModHasher,
        CacheProperties,
        Asked,
        AdmitAll,
        Ear,
    > = RawCache::new(rt, rt.alloc(), config, Ear(notes.share()?))?;
    cache.put(0, 1, 10)?;
    assert!(rt; cache.set_expires(0, &1, Some(5))? && cache.usage() == 3);
    assert_eq!(rt; asked.load(Ordering::SeqCst), 4);
    Ok(())
}

// F9 of the look-up, and F10 of the insert, which comes after the use.
#[test]
fn an_expiry_is_refused(rt: HostRuntime) -> Outcome {
    let (cache, notes) = heard(rt, limited(2, Limits { handles: 1, ids: 1 }))?;
    let held = cache.insert(0, 1, 10)?;
    assert_eq!(rt; number(cache.set_expires(0, &1, Some(5))), Some(9));
    drop(held);
    assert_eq!(rt; number(cache.set_expires(0, &1, Some(5))), Some(10));
    let stats = cache.stats();
    assert_eq!(rt; (stats.hits, stats.inserts, stats.refused), (1, 1, 1));
    assert!(rt; notes.are(&[]) && cache.contains(5, &1));
    Ok(())
}
