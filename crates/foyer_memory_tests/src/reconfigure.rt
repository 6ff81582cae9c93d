//! Another configuration of the policy, while the cache is in use.

use crate::testing::{Cache, Outcome, all_policies, builder, number};
use foyer_memory::{EvictionConfig, LfuConfig, LruConfig, S3FifoConfig};
use foyer_policy::Ratio;
use foyer_raw_tests::notes::Note::Evict;
use foyer_raw_tests::notes::Notes;
use log::Log;
use std::alloc::Global;
use std::sync::Wait;

// A cache of one shard for so many records.
fn cache<H: Wait + Log + Alloc<A = Global> + Copy + Drop>(
    rt: H,
    capacity: usize,
    config: EvictionConfig,
    notes: &Notes,
) -> Outcome<Cache<H>> {
    Ok(
        builder(capacity, config, notes)?
            .with_shards(1)
            .build(rt, rt.alloc(), &rt)?,
    )
}

// LRU whose pool of high priority has this share.
fn lru(num: u32, den: u32) -> EvictionConfig {
    EvictionConfig::from(LruConfig {
        high_priority_pool_ratio: Ratio { num, den },
    })
}

fn put<H: Wait + Drop>(cache: &Cache<H>, keys: &[u32]) -> Outcome {
    for key in keys {
        drop(cache.insert(0, *key, u64::from(*key))?);
    }
    Ok(())
}

// What is in the pool stands behind what left it, also where the pool is as great again.
#[test]
fn lru_takes_a_smaller_pool_and_a_greater_one(rt: HostRuntime) -> Outcome {
    let notes = Notes::new(rt.alloc())?;
    let cache: Cache<HostRuntime> = cache(rt, 4, lru(1, 1), &notes)?;
    put(&cache, &[1, 2, 3])?;
    cache.reconfigure(lru(0, 1))?;
    cache.reconfigure(lru(1, 1))?;
    put(&cache, &[4])?;
    assert!(rt; cache.touch(0, &1)? && notes.are(&[]));
    cache.evict_all(0)?;
    assert!(rt; notes.are(&[Evict(2, 2), Evict(3, 3), Evict(1, 1), Evict(4, 4)]));
    Ok(())
}

#[test]
fn s3fifo_takes_another_threshold(rt: HostRuntime) -> Outcome {
    let with_threshold = |small_to_main_freq_threshold| {
        EvictionConfig::from(S3FifoConfig {
            small_queue_capacity_ratio: Ratio { num: 1, den: 2 },
            ghost_queue_capacity_ratio: Ratio { num: 1, den: 1 },
            small_to_main_freq_threshold,
        })
    };
    let notes = Notes::new(rt.alloc())?;
    let cache: Cache<HostRuntime> = cache(rt, 2, with_threshold(1), &notes)?;
    put(&cache, &[1, 2])?;
    assert!(rt; cache.touch(0, &1)?);
    cache.reconfigure(with_threshold(3))?;
    put(&cache, &[3])?;
    assert!(rt; notes.are(&[Evict(1, 1)]));
    Ok(())
}

// A configuration of another policy is F17, also where it has a fault; one of its own is refused with that.
#[test]
fn what_is_refused_changes_nothing(rt: HostRuntime) -> Outcome {
    let faulty = EvictionConfig::from(LfuConfig {
        window_capacity_ratio: Ratio { num: 1, den: 10 },
        protected_capacity_ratio: Ratio { num: 8, den: 10 },
        cmsketch_buckets: 0,
        cmsketch_hashes: 4,
    });
    let wanted = |config: &EvictionConfig| match config {
        EvictionConfig::Lfu(_) => Some(6),
        _ => Some(17),
    };
    for config in all_policies() {
        let notes = Notes::new(rt.alloc())?;
        let refusal = wanted(&config);
        let cache: Cache<HostRuntime> = cache(rt, 3, config, &notes)?;
        put(&cache, &[1, 2, 3])?;
        assert_eq!(rt; number(cache.reconfigure(faulty.clone()?)), refusal);
        assert!(rt; notes.are(&[]));
        assert_eq!(rt; (cache.capacity(), cache.entries()), (3, 3));
        cache.evict_all(0)?;
        assert!(rt; notes.are(&[Evict(1, 1), Evict(2, 2), Evict(3, 3)]));
    }
    Ok(())
}

// Each policy takes its own configuration again, and nothing leaves.
#[test]
fn its_own_configuration_changes_nothing(rt: HostRuntime) -> Outcome {
    for (config, same) in all_policies().into_iter().zip(all_policies()) {
        let notes = Notes::new(rt.alloc())?;
        let cache: Cache<HostRuntime> = cache(rt, 3, config, &notes)?;
        put(&cache, &[1, 2, 3])?;
        cache.reconfigure(same)?;
        assert!(rt; notes.are(&[]));
        assert_eq!(rt; cache.entries(), 3);
    }
    Ok(())
}
