//! Calls of one thread, on keys and entries.

use crate::testing::cache::heard;
use crate::testing::{Outcome, fifo};
use foyer_core::{CacheProperties, Filter, Limits, RawCacheConfig, Weighter};
use foyer_policy::{Fifo, FifoConfig, Lru, ModHasher, Source};
use foyer_raw::{NoListener, NoopPipe, RawCache};
use std::alloc::Global;
use std::sync::Arc;
use std::sync::atomic::{AtomicU64, Ordering};

#[test]
fn an_entry_is_found(rt: HostRuntime) -> Outcome {
    let (cache, _notes) = heard(rt, fifo(4, 2))?;
    let entry = cache.insert(0, 7, 70)?;
    assert_eq!(rt; (entry.source(), entry.weight()), (Source::Outer, 1));
    assert_eq!(rt; (entry.hash(), cache.hash(&7)), (7, 7));
    let found = cache.get(0, &7)?.ok_or("none")?;
    assert_eq!(rt; (*found, found.source()), (70, Source::Memory));
    assert_eq!(rt; found.refs(), 2);
    let again = found.try_clone()?;
    assert_eq!(rt; again.refs(), 3);
    again.release();
    drop(found);
    assert_eq!(rt; entry.refs(), 1);
    assert_eq!(rt; (cache.entries(), cache.usage(), cache.shards()), (1, 1, 2));
    assert!(rt; cache.touch(0, &7)? && !cache.touch(0, &8)? && !entry.is_outdated());
    let removed = cache.remove(&7)?.ok_or("none")?;
    assert_eq!(rt; *removed.key(), 7);
    assert!(rt; entry.is_outdated() && !cache.contains(0, &7));
    assert!(rt; cache.get(0, &7)?.is_none() && cache.remove(&7)?.is_none());
    assert_eq!(rt; cache.entries(), 0);
    let back = cache.insert_piece(0, entry.piece()?)?;
    assert_eq!(rt;
        (*back, back.source(), back.refs()),
        (70, Source::Memory, 3)
    );
    assert!(rt; cache.contains(0, &7));
    Ok(())
}

#[test]
fn texts_are_printed(rt: HostRuntime) -> Outcome {
    let alloc = rt.alloc();
    let (cache, _notes) = heard(rt, fifo(4, 2))?;
    let entry = cache.insert(0, 7, 70)?;
    assert_eq!(rt;
        format!(in alloc; "{entry:?}")?.as_str(),
        "RawCacheEntry { record: Record { hash: 7 } }"
    );
    let pipe: NoopPipe<u32, u64> = NoopPipe::default();
    assert_eq!(rt; format!(in alloc; "{pipe:?}")?.as_str(), "NoopPipe");
    Ok(())
}

#[test]
fn a_pin_ends_with_its_entry(rt: HostRuntime) -> Outcome {
    let config: RawCacheConfig<_, ModHasher, _, _> = RawCacheConfig {
        shards: 1,
        ..RawCacheConfig::new(1)
    };
    let cache: RawCache<HostRuntime, Lru, u32, u64, ModHasher> = RawCache::new(
        rt,
        rt.alloc(),
        config,
        NoListener::new(),
    )?;
    drop(cache.insert(0, 1, 10)?);
    let held = cache.get(0, &1)?.ok_or("none")?;
    drop(cache.insert(0, 2, 20)?);
    assert!(rt; cache.contains(0, &1) && cache.contains(0, &2));
    drop(held);
    drop(cache.insert(0, 3, 30)?);
    assert!(rt; !cache.contains(0, &1) && cache.contains(0, &3));
    Ok(())
}

/// Who was asked, in order: the weighter writes a digit 1 behind the others, and the filter a digit 2.
type Trail = Arc<AtomicU64, Global>;

// Writes a digit. The test has one thread.
fn write(trail: &Trail, digit: u64) {
    let before = trail.load(Ordering::SeqCst);
    trail.store(
        before.wrapping_mul(10).wrapping_add(digit),
        Ordering::SeqCst,
    );
}

/// Says that each record weighs 2.
#[derive(Drop)]
struct TracedWeighter(Trail);

impl Weighter<u32, u64> for TracedWeighter {
    ghost use Rattle.std.specs.Prelude.{◌≡◌};

    ghost weighs = { λ _ _ _ w. w ≡ 2 };

    fn weigh(&self, _key: &u32, _value: &u64) -> usize {
        write(&self.0, 1);
        2
    }
}

/// Admits all keys but 9.
#[derive(Drop)]
struct TracedFilter(Trail);

impl Filter<u32, u64> for TracedFilter {
    ghost use Rattle.std.specs.Prelude.{◌≡◌, ◌==◌, not};

    ghost admits = { λ _ key _ admitted. admitted ≡ not (key == 9) };

    fn admit(&self, key: &u32, _value: &u64) -> bool {
        write(&self.0, 2);
        *key != 9
    }
}

// The weighter and then the filter are asked once for a fresh record, the weighter alone, once, for a piece of another
// cache, and nobody for one of this cache. What is not admitted is held by its entry, and no get finds it.
#[test]
fn weighter_and_filter_are_asked_once(rt: HostRuntime) -> Outcome {
    let trail = Arc::new(rt.alloc(), AtomicU64::new(0))?;
    let config: RawCacheConfig<FifoConfig, ModHasher, _, _> = RawCacheConfig {
        capacity: 4,
        shards: 1,
        eviction_config: FifoConfig {},
        hash_builder: ModHasher::default(),
        weighter: TracedWeighter(Arc::try_clone(&trail)?),
        filter: TracedFilter(Arc::try_clone(&trail)?),
        number: 0,
        limits: Limits::default(),
    };
    let cache: RawCache<
        HostRuntime,
        Fifo,
        u32,
        u64,
        ModHasher,
        CacheProperties,
        TracedWeighter,
        TracedFilter,
    > = RawCache::new(rt, rt.alloc(), config, NoListener::new())?;
    let entry = cache.insert(0, 1, 10)?;
    assert_eq!(rt; (trail.swap(0, Ordering::SeqCst), cache.usage()), (12, 2));
    let refused = cache.insert(0, 9, 90)?;
    assert_eq!(rt; (trail.swap(0, Ordering::SeqCst), *refused), (12, 90));
    assert!(rt; !cache.contains(0, &9) && cache.get(0, &9)?.is_none());
    assert_eq!(rt; (cache.usage(), cache.entries()), (2, 1));
    drop(cache.insert_piece(0, entry.piece()?)?);
    assert_eq!(rt; trail.swap(0, Ordering::SeqCst), 0);
    let (other, _notes) = heard(
        rt,
        RawCacheConfig {
            number: 1,
            ..fifo(4, 1)
        },
    )?;
    let foreign = cache.insert_piece(0, other.insert(0, 3, 30)?.piece()?)?;
    assert_eq!(rt; (trail.load(Ordering::SeqCst), foreign.weight()), (1, 2));
    Ok(())
}
