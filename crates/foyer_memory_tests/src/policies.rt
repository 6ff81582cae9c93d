//! What each call does in a cache of each policy.

use crate::testing::{Cache, Outcome, all_policies, builder, number};
use foyer_core::Limits;
use foyer_memory::{
    Cache as CacheOf, CacheBuilder, CacheProperties, EvictionConfig, Filter, LruConfig, Weighter,
};
use foyer_policy::{HashBuilder, Hint, ModHasher, Properties, Ratio, Source};
use foyer_raw_tests::notes::Note::{Clear, Evict, Flush, Piece, Remove, Replace};
use foyer_raw_tests::notes::{Ear, Notes, Tube};
use futures::executor::block_on;
use log::Log;
use std::alloc::Global;
use std::sync::{Arc, Wait};

// A cache of two shards and eight records with a pipe, whose handles have a limit of three.
fn piped<H: Wait + Log + Alloc<A = Global> + Copy + Drop>(
    rt: H,
    config: EvictionConfig,
    number: u64,
    notes: &Notes,
) -> Outcome<Cache<H>> {
    let limits = Limits {
        handles: 3,
        ..Limits::default()
    };
    let tube = Tube {
        notes: notes.share()?,
        enabled: true,
    };
    let cache = builder(8, config, notes)?
        .with_shards(2)
        .with_number(number)
        .with_limits(limits)
        .build(rt, rt.alloc(), &rt)?;
    Ok(cache.with_pipe(Arc::new(rt.alloc(), tube)?))
}

#[test]
fn calls_on_keys_and_entries(rt: HostRuntime) -> Outcome {
    for config in all_policies() {
        let notes = Notes::new(rt.alloc())?;
        let cache: Cache<HostRuntime> = piped(rt, config, 0, &notes)?;
        assert_eq!(rt; (cache.capacity(), cache.shards()), (8, 2));
        assert_eq!(rt;
            (cache.hash(&7), cache.hash_builder().hash_one(&7u32)),
            (7, 7)
        );
        let entry = cache.insert(0, 7, 70)?;
        assert_eq!(rt; (cache.usage(), cache.entries(), entry.weight()), (1, 1, 1));
        assert!(rt; cache.touch(0, &7)? && !cache.touch(0, &8)?);
        assert!(rt; cache.contains(0, &7) && !cache.contains(0, &8));
        let found = cache.get(0, &7)?.ok_or("none")?;
        let again = found.try_clone()?;
        assert_eq!(rt;
            (entry.source(), found.source()),
            (Source::Outer, Source::Memory)
        );
        assert_eq!(rt; (entry.refs(), found.refs(), again.refs()), (3, 3, 3));
        assert_eq!(rt;
            (number(cache.get(0, &7)), number(again.try_clone())),
            (Some(9), Some(9))
        );
        again.release();
        drop(found);
        assert!(rt; !entry.is_outdated() && notes.are(&[]));
        let other = cache.try_clone()?;
        assert_eq!(rt; *other.remove(&7)?.ok_or("none")?, 70);
        assert!(rt; entry.is_outdated() && cache.remove(&7)?.is_none());
        let back = cache.insert_piece(0, entry.piece()?)?;
        assert_eq!(rt;
            (*back, back.source(), back.refs()),
            (70, Source::Memory, 2)
        );
        drop(cache.insert(0, 7, 71)?);
        assert!(rt; notes.are(&[Remove(7, 70), Replace(7, 70)]));
    }
    Ok(())
}

#[test]
fn calls_on_all_records(rt: HostRuntime) -> Outcome {
    for config in all_policies() {
        let notes = Notes::new(rt.alloc())?;
        let cache: Cache<HostRuntime> = piped(rt, config, 0, &notes)?;
        drop(cache.insert(0, 1, 10)?);
        cache.clear()?;
        drop(cache.insert(0, 2, 20)?);
        cache.evict_all(0)?;
        assert!(rt; notes.are(&[Clear(1, 10), Evict(2, 20), Piece(2, 20)]));
        notes.forget();
        drop(cache.insert(0, 3, 30)?);
        assert!(rt; block_on(&rt, cache.flush(0))?.is_ok());
        assert!(rt; notes.are(&[Evict(3, 30), Piece(3, 30), Flush(1)]));
        notes.forget();
        drop(cache.insert(0, 4, 40)?);
        drop(cache.insert(0, 5, 50)?);
        let flush = cache.flush_if(|key, value| *key == 4 && *value == 40);
        assert!(rt; block_on(&rt, flush)?.is_ok());
        assert!(rt; notes.are(&[Evict(4, 40), Piece(4, 40), Flush(1)]));
        notes.forget();
        cache.resize(0, 0)?;
        assert!(rt; notes.are(&[Evict(5, 50), Piece(5, 50)]));
        assert_eq!(rt;
            (cache.capacity(), cache.usage(), cache.entries()),
            (0, 0, 0)
        );
        notes.forget();
        let phantom = CacheProperties::default().with_phantom(true);
        drop(cache.insert_with_properties(0, 6, 60, phantom)?);
        assert!(rt; notes.are(&[Remove(6, 60), Evict(6, 60), Piece(6, 60)]));
    }
    Ok(())
}

// A piece of a cache with another number makes a record of its own, though both caches gave the same id.
#[test]
fn caches_have_their_numbers(rt: HostRuntime) -> Outcome {
    for (config, same) in all_policies().into_iter().zip(all_policies()) {
        let notes = Notes::new(rt.alloc())?;
        let cache: Cache<HostRuntime> = piped(rt, config, 0, &notes)?;
        let other: Cache<HostRuntime> = piped(rt, same, 3, &notes)?;
        let piece = cache.insert(0, 1, 10)?.piece()?;
        drop(other.insert(0, 1, 20)?);
        assert_eq!(rt; *other.insert_piece(0, piece)?, 10);
        assert!(rt; notes.are(&[Replace(1, 20)]));
    }
    Ok(())
}

// With all of the capacity for records of high priority, one of low priority is evicted first, and with none the oldest.
#[test]
fn the_policy_has_its_configuration(rt: HostRuntime) -> Outcome {
    for (num, evicted) in [(1u32, Evict(3, 30)), (0, Evict(1, 10))] {
        let config = EvictionConfig::from(LruConfig {
            high_priority_pool_ratio: Ratio { num, den: 1 },
        });
        let notes = Notes::new(rt.alloc())?;
        let cache: Cache<HostRuntime> = builder(3, config, &notes)?
            .with_shards(1)
            .build(rt, rt.alloc(), &rt)?;
        drop(cache.insert(0, 1, 10)?);
        drop(cache.insert(0, 2, 20)?);
        let low = CacheProperties::default().with_hint(Hint::Low);
        drop(cache.insert_with_properties(0, 3, 30, low)?);
        drop(cache.insert(0, 4, 40)?);
        assert!(rt; notes.are(&[evicted]));
    }
    Ok(())
}

/// A weight that is the value.
#[derive(Clone, Copy)]
struct ByValue;

impl Weighter<u32, u64> for ByValue {
    ghost use Rattle.std.specs.Prelude.{◌≡◌};

    ghost weighs = { λ _ _ value weight. weight ≡ value };

    fn weigh(&self, _key: &u32, value: &u64) -> usize {
        *value as usize
    }
}

/// Admits all keys but 9.
#[derive(Clone, Copy)]
struct NotNine;

impl Filter<u32, u64> for NotNine {
    ghost use Rattle.std.specs.Prelude.{◌≡◌, ◌==◌, not};

    ghost admits = { λ _ key _ admitted. admitted ≡ not (key == 9) };

    fn admit(&self, key: &u32, _value: &u64) -> bool {
        *key != 9
    }
}

/// A cache of numbers whose weights are their values.
type Weighed<H> = CacheOf<H, u32, u64, ModHasher, CacheProperties, ByValue, NotNine, Ear>;

#[test]
fn weights_and_admissions(rt: HostRuntime) -> Outcome {
    for config in all_policies() {
        let notes = Notes::new(rt.alloc())?;
        let cache: Weighed<HostRuntime> = builder(100, config, &notes)?
            .with_shards(1)
            .with_weighter(ByValue)
            .with_filter(NotNine)
            .build(rt, rt.alloc(), &rt)?;
        let entry = cache.insert(0, 1, 40)?;
        let phantom = cache.insert(0, 9, 5)?;
        assert_eq!(rt; (entry.weight(), phantom.weight()), (40, 5));
        assert_eq!(rt;
            (cache.usage(), cache.entries(), cache.contains(0, &9)),
            (40, 1, false)
        );
        assert_eq!(rt; (cache.capacity(), cache.shards()), (100, 1));
    }
    Ok(())
}

// What weighs nothing needs no room.
#[test]
fn weightless_records_stay_in_no_room(rt: HostRuntime) -> Outcome {
    for config in all_policies() {
        let notes = Notes::new(rt.alloc())?;
        let cache: Weighed<HostRuntime> = builder(0, config, &notes)?
            .with_shards(1)
            .with_weighter(ByValue)
            .with_filter(NotNine)
            .build(rt, rt.alloc(), &rt)?;
        drop(cache.insert(0, 1, 0)?);
        drop(cache.insert(0, 2, 0)?);
        assert!(rt; notes.are(&[]) && cache.contains(0, &1) && cache.contains(0, &2));
        assert_eq!(rt; (cache.usage(), cache.entries()), (0, 2));
    }
    Ok(())
}

#[test]
fn texts_are_kept(rt: HostRuntime) -> Outcome {
    let alloc = rt.alloc();
    let cache: CacheOf<HostRuntime, String, String> = CacheBuilder::new(16).build(rt, alloc, &rt)?;
    let held = cache.insert(0, "hello".to_string(alloc)?, "world".to_string(alloc)?)?;
    let found = cache.get(0, &"hello".to_string(alloc)?)?.ok_or("none")?;
    assert_eq!(rt; (held.as_str(), found.as_str()), ("world", "world"));
    assert_eq!(rt; (held.refs(), cache.usage()), (2, 1));
    Ok(())
}
