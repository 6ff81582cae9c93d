//! The core's refusals, through the calls of a cache.

use crate::notes::Note::{Evict, Remove};
use crate::notes::{Ear, Notes};
use crate::testing::cache::heard;
use crate::testing::{Outcome, limited, number, phantom};
use foyer_core::{AdmitAll, CacheProperties, Limits, RawCacheConfig, Weighter};
use foyer_core_tests::refusing::RefusingPolicy;
use foyer_policy::{Fifo, FifoConfig, Lru, LruConfig, ModHasher};
use foyer_raw::{NoListener, RawCache};
use std::alloc::Global;
use std::sync::Wait;

/// A value is its weight.
#[derive(Clone, Copy)]
struct ByValue;

impl Weighter<u32, u64> for ByValue {
    ghost weighs = { λ _ _ value weight. weight ≡ value };

    fn weigh(&self, _key: &u32, value: &u64) -> usize {
        *value as usize
    }
}

#[test]
fn handles_have_a_limit(rt: HostRuntime) -> Outcome {
    let limits = Limits {
        handles: 2,
        ..Limits::default()
    };
    let (cache, _notes) = heard(rt, limited(4, limits))?;
    let first = cache.insert(0, 1, 10)?;
    let second = cache.get(0, &1)?.ok_or("none")?;
    assert_eq!(rt; number(cache.get(0, &1)), Some(9));
    assert_eq!(rt; number(cache.touch(0, &1)), Some(9));
    assert_eq!(rt; number(first.try_clone()), Some(9));
    drop(second);
    assert!(rt; cache.touch(0, &1)? && cache.get(0, &1)?.is_some());
    Ok(())
}

// No id is left for a third record, and nothing leaves for it. A piece of a record that was in needs none.
#[test]
fn ids_have_a_limit(rt: HostRuntime) -> Outcome {
    let (cache, notes) = heard(rt, limited(2, Limits { ids: 2, handles: 4 }))?;
    let piece = cache.insert(0, 1, 10)?.piece()?;
    drop(cache.insert(0, 2, 20)?);
    assert_eq!(rt; number(cache.insert(0, 3, 30)), Some(10));
    assert_eq!(rt;
        number(cache.insert_with_properties(0, 3, 30, phantom())),
        Some(10)
    );
    assert!(rt; notes.are(&[]) && cache.contains(0, &1));
    drop(cache.remove(&1)?);
    assert_eq!(rt; *cache.insert_piece(0, piece)?, 10);
    assert!(rt; notes.are(&[Remove(1, 10)]));
    Ok(())
}

// F10 goes before F9, and F9 alone where there is an id.
#[test]
fn a_record_without_handles_is_refused(rt: HostRuntime) -> Outcome {
    let (cache, _notes) = heard(rt, limited(2, Limits { ids: 0, handles: 0 }))?;
    assert_eq!(rt; number(cache.insert(0, 1, 10)), Some(10));
    let (cache, notes) = heard(rt, limited(2, Limits { ids: 1, handles: 0 }))?;
    assert_eq!(rt; number(cache.insert(0, 1, 10)), Some(9));
    assert!(rt; notes.are(&[]) && cache.entries() == 0);
    Ok(())
}

// A configuration of one shard, of records whose values are their weights.
fn weighed<C>(
    capacity: usize,
    eviction_config: C,
) -> RawCacheConfig<C, ModHasher, ByValue, AdmitAll> {
    RawCacheConfig {
        capacity,
        shards: 1,
        eviction_config,
        hash_builder: ModHasher::default(),
        weighter: ByValue,
        filter: AdmitAll,
        number: 0,
        limits: Limits::default(),
    }
}

/// A cache whose policy is refused its third request for memory: the second eviction, as the first insert makes four nodes.
type Refusing<H> = RawCache<
    H,
    RefusingPolicy<Fifo, 2>,
    u32,
    u64,
    ModHasher,
    CacheProperties,
    ByValue,
    AdmitAll,
    Ear,
>;

// Such a cache with a listener, and what it tells.
fn refusing<H: Wait + Alloc<A = Global> + Copy + Drop>(
    rt: H,
    capacity: usize,
) -> Outcome<(Refusing<H>, Notes)> {
    let notes = Notes::new(rt.alloc())?;
    let config = weighed(capacity, FifoConfig {});
    let cache = RawCache::new(rt, rt.alloc(), config, Ear(notes.share()?))?;
    Ok((cache, notes))
}

// The third record needs two evictions, of which the second is refused: the first is told all the same.
#[test]
fn leaves_of_a_refused_insert_are_told(rt: HostRuntime) -> Outcome {
    let (cache, notes) = refusing(rt, 2)?;
    drop(cache.insert(0, 1, 1)?);
    drop(cache.insert(0, 2, 1)?);
    assert_eq!(rt; number(cache.insert(0, 3, 2)), Some(7));
    assert!(rt; notes.are(&[Evict(1, 1)]) && !cache.contains(0, &1) && !cache.contains(0, &3));
    Ok(())
}

// A resize to nothing, whose second eviction is refused: the first is told, and the capacity is set all the same.
#[test]
fn a_refused_resize_sets_the_capacity(rt: HostRuntime) -> Outcome {
    let (cache, notes) = refusing(rt, 3)?;
    for key in 1..4u32 {
        drop(cache.insert(0, key, 1)?);
    }
    assert_eq!(rt; number(cache.resize(0, 0)), Some(7));
    assert!(rt; notes.are(&[Evict(1, 1)]));
    assert_eq!(rt; (cache.capacity(), cache.usage()), (0, 2));
    drop(cache.insert(0, 4, 1)?);
    assert!(rt; notes.are(&[Evict(1, 1), Evict(2, 1), Evict(3, 1)]));
    Ok(())
}

/// A cache whose records weigh what their values say.
type Weighed<H> = RawCache<H, Lru, u32, u64, ModHasher, CacheProperties, ByValue>;

// Two records have room, and one after a resize.
#[test]
fn weights_and_capacities_may_pass_32_bits(rt: HostRuntime) -> Outcome {
    let weight = (1 << 40) + 1u64;
    let room = 2 * weight as usize;
    let config = weighed(room, LruConfig::default());
    let cache: Weighed<HostRuntime> = RawCache::new(rt, rt.alloc(), config, NoListener::new())?;
    for key in 0..3u32 {
        assert_eq!(rt; cache.insert(0, key, weight)?.weight(), weight as usize);
    }
    assert_eq!(rt; (cache.capacity(), cache.usage()), (room, room as u128));
    cache.resize(0, room - 1)?;
    assert_eq!(rt;
        (cache.capacity(), cache.usage()),
        (room - 1, weight as u128)
    );
    Ok(())
}

// Beside a pinned record of the greatest weight none but the weightless fits, and a phantom one.
#[test]
fn a_weight_fits_beside_what_is_pinned(rt: HostRuntime) -> Outcome {
    let config = weighed(usize::MAX, LruConfig::default());
    let cache: Weighed<HostRuntime> = RawCache::new(rt, rt.alloc(), config, NoListener::new())?;
    drop(cache.insert(0, 1, u64::MAX)?);
    let held = cache.get(0, &1)?.ok_or("none")?;
    assert_eq!(rt; number(cache.insert(0, 2, 1)), Some(8));
    assert!(rt; cache.contains(0, &1) && !cache.contains(0, &2));
    drop(cache.insert(0, 2, 0)?);
    assert!(rt; cache.contains(0, &2));
    drop(cache.insert_with_properties(0, 2, 1, phantom())?);
    assert!(rt; !cache.contains(0, &2));
    drop(held);
    assert_eq!(rt; *cache.insert(0, 2, 1)?, 1);
    assert!(rt; !cache.contains(0, &1));
    assert_eq!(rt; cache.usage(), 1);
    Ok(())
}
