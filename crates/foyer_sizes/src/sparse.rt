//! Calls over all shards of caches with 17, 65 and 100 of them, of which some are empty.

use crate::cache::{Cache, SEED, cache};
use crate::calls::{Call, Removed};
use crate::case::{Cases, Outcome, Runtime, same};
use crate::heard::{Heard, Told};
use foyer_core::CacheProperties;
use foyer_memory::{EvictionConfig, LruConfig, S3FifoConfig};
use foyer_policy::{Hint, Ratio};

const SHARDS: [u64; 3] = [17, 65, 100];

// The keys are below this number.
const KEYS: u64 = 1_000;

// The key of a removed record.
const SPARE: u64 = KEYS;

pub fn run<H: Runtime>(cases: &mut Cases<H>) -> Outcome {
    for shards in SHARDS {
        of(cases, shards)?;
    }
    Ok(())
}

fn of<H: Runtime>(cases: &mut Cases<H>, shards: u64) -> Outcome {
    let rt = cases.rt;
    for (name, call) in [
        ("is cleared, some of them empty", Call::Clear),
        ("is evicted, some of them empty", Call::EvictAll),
        ("is flushed, some of them empty", Call::Flush),
        ("is flushed in part, some of them empty", Call::FlushEven),
        ("is resized to nothing, some of them empty", Call::Resize(0)),
    ] {
        cases.of_shards(name, shards, |config| empties(rt, config, shards, call))?;
    }
    cases.of_shards(
        "is dropped, some of them empty",
        shards,
        |config| drops(rt, config, shards),
    )?;
    cases.of_shards(
        "is walked, some of them empty",
        shards,
        |config| walks(rt, config, shards),
    )?;
    cases.of_shards(
        "is retained in part, some of them empty",
        shards,
        |config| { retains(rt, config, shards) },
    )?;
    cases.of_shards(
        "counts, some of them empty",
        shards,
        |config| counts(rt, config, shards),
    )?;
    cases.of_shards(
        "is put to and deleted from, some of them empty",
        shards,
        |config| puts(rt, config, shards),
    )?;
    cases.of_shards("gets its part of what is left over", shards, |config| {
        shares_out(rt, config, shards)
    })?;
    cases.of_shards(
        "is configured anew",
        shards,
        |config| configures(rt, config, shards),
    )
}

// The shard of a key.
fn shard_of(key: u64, shards: u64) -> u64 {
    key.wrapping_mul(256).wrapping_add(u64::from(SEED)) % shards
}

// Whether a key is put in: those of every fourth shard aren't.
fn is_in(key: u64, shards: u64) -> bool {
    shard_of(key, shards) % 4 != 2
}

// How many keys are put in, of all or of even ones.
fn count_of(shards: u64, step: usize) -> u64 {
    (0..KEYS)
        .step_by(step)
        .filter(|key| is_in(*key, shards))
        .count() as u64
}

// A cache with room for all, of which every fourth shard is empty, and a removed record.
fn sparse<H: Runtime>(
    rt: H,
    config: EvictionConfig,
    shards: u64,
    heard: &Heard,
) -> Outcome<(Cache<H>, Removed)> {
    let cache = cache(rt, (shards * KEYS) as usize, shards as usize, config, heard)?;
    let piece = cache.insert(0, SPARE, 1)?.piece()?;
    drop(cache.remove(&SPARE)?);
    for key in (0..KEYS).filter(|key| is_in(*key, shards)) {
        drop(cache.insert(0, key, 1)?);
    }
    same(rt, "told before", &heard.take(), &Told::default())?;
    assert_has(rt, &cache, count_of(shards, 1))?;
    Ok((cache, piece))
}

// The cache has so many records.
fn assert_has<H: Runtime>(rt: H, cache: &Cache<H>, records: u64) -> Outcome {
    let all = u128::from(records);
    same(rt, "sums", &(cache.entries(), cache.usage()), &(all, all))
}

fn empties<H: Runtime>(rt: H, config: EvictionConfig, shards: u64, call: Call) -> Outcome {
    let heard = Heard::new(rt.alloc(), KEYS)?;
    let (cache, piece) = sparse(rt, config, shards, &heard)?;
    let all = count_of(shards, 1);
    let told = match call {
        Call::Clear => Told::cleared(all),
        Call::FlushEven => Told::evicted(count_of(shards, 2)),
        _ => Told::evicted(all),
    };
    call.make(rt, &cache, 0, piece)?;
    same(rt, "told", &heard.take(), &told)?;
    assert_has(rt, &cache, all - told.evicted - told.cleared)
}

fn drops<H: Runtime>(rt: H, config: EvictionConfig, shards: u64) -> Outcome {
    let heard = Heard::new(rt.alloc(), KEYS)?;
    let (cache, _) = sparse(rt, config, shards, &heard)?;
    let other = cache.try_clone()?;
    drop(cache);
    same(rt, "told before", &heard.take(), &Told::default())?;
    drop(other);
    same(
        rt,
        "told",
        &heard.take(),
        &Told::cleared(count_of(shards, 1)),
    )
}

// Each record is visited once, and its key is one of the keys.
fn walks<H: Runtime>(rt: H, config: EvictionConfig, shards: u64) -> Outcome {
    let heard = Heard::new(rt.alloc(), KEYS)?;
    let (cache, _) = sparse(rt, config, shards, &heard)?;
    let mut seen = vec![in rt.alloc(); 0u64; KEYS as usize]?;
    cache.for_each(|key, value| seen[*key as usize] += *value)?;
    for key in cache.keys()?.as_slice() {
        seen[*key as usize] += 1;
    }
    for key in 0..KEYS {
        let wanted = if is_in(key, shards) { 2 } else { 0 };
        same(rt, "visits", &seen[key as usize], &wanted)?;
    }
    same(rt, "told", &heard.take(), &Told::default())
}

fn retains<H: Runtime>(rt: H, config: EvictionConfig, shards: u64) -> Outcome {
    let heard = Heard::new(rt.alloc(), KEYS)?;
    let (cache, _) = sparse(rt, config, shards, &heard)?;
    let even = count_of(shards, 2);
    cache.retain(|key, _| *key % 2 == 1)?;
    same(rt, "told", &heard.take(), &Told::removed(even))?;
    assert_has(rt, &cache, count_of(shards, 1) - even)
}

// Look-ups and inserts count in each shard, and are counted from 0 again.
fn counts<H: Runtime>(rt: H, config: EvictionConfig, shards: u64) -> Outcome {
    let heard = Heard::new(rt.alloc(), KEYS)?;
    let (cache, _) = sparse(rt, config, shards, &heard)?;
    let all = count_of(shards, 1);
    same(
        rt,
        "inserts",
        &(cache.stats().inserts, cache.stats().removed),
        &(all + 1, 1),
    )?;
    for _ in 0..2 {
        cache.reset_stats();
        for key in 0..KEYS {
            same(
                rt,
                "is found",
                &cache.get(0, &key)?.is_some(),
                &is_in(key, shards),
            )?;
        }
        let stats = cache.stats();
        same(
            rt,
            "look-ups",
            &(stats.hits, stats.misses),
            &(all, KEYS - all),
        )?;
        same(rt, "inserts", &(stats.inserts, stats.removed), &(0, 0))?;
    }
    cache.evict_all(0)?;
    same(rt, "evictions", &cache.stats().evictions, &all)
}

// Each key is put twice and read; those of even keys are deleted.
fn puts<H: Runtime>(rt: H, config: EvictionConfig, shards: u64) -> Outcome {
    let heard = Heard::new(rt.alloc(), KEYS)?;
    let (cache, _) = sparse(rt, config, shards, &heard)?;
    let (all, even) = (count_of(shards, 1), count_of(shards, 2));
    cache.reset_stats();
    for key in (0..KEYS).filter(|key| is_in(*key, shards)) {
        cache.put(0, key, 2)?;
    }
    for key in 0..KEYS {
        let wanted = is_in(key, shards).then_some(2);
        same(rt, "read", &cache.read(0, &key, |value| *value)?, &wanted)?;
        if key % 2 == 0 {
            same(rt, "deleted", &cache.delete(&key)?, &wanted.is_some())?;
            same(rt, "peeked", &cache.peek(0, &key, |value| *value), &None)?;
        }
    }
    let stats = cache.stats();
    let counted = (
        stats.inserts,
        stats.replaced,
        stats.removed,
        stats.hits,
        stats.misses,
    );
    same(rt, "counted", &counted, &(all, all, even, all, KEYS - all))?;
    let sums = (u128::from(all - even), u128::from(2 * (all - even)));
    same(rt, "sums", &(cache.entries(), cache.usage()), &sums)?;
    let told = Told {
        replaced: all,
        removed: even,
        ..Told::default()
    };
    same(rt, "told", &heard.take(), &told)
}

// What is left over of a capacity goes to the first shards.
fn shares_out<H: Runtime>(rt: H, config: EvictionConfig, shards: u64) -> Outcome {
    let heard = Heard::new(rt.alloc(), KEYS)?;
    let over = shards / 2;
    for weight in [1, (1 << 33) + 1] {
        let cache = cache(
            rt,
            shards as usize,
            shards as usize,
            config.clone()?,
            &heard,
        )?;
        cache.resize(0, (shards * 5 * weight + over * weight) as usize)?;
        for key in 0..KEYS {
            drop(cache.insert(0, key, weight)?);
        }
        let mut fit = vec![in rt.alloc(); 0u64; shards as usize]?;
        for key in (0..KEYS).filter(|key| cache.contains(0, key)) {
            fit[shard_of(key, shards) as usize] += 1;
        }
        for shard in 0..shards {
            let keys = (0..KEYS)
                .filter(|key| shard_of(*key, shards) == shard)
                .count() as u64;
            // `over * weight` is that much more for each of the first shards, or a part of it for all.
            let share = (5 * weight + (over * weight + shards - 1 - shard) / shards) / weight;
            same(
                rt,
                "records of a shard",
                &fit[shard as usize],
                &share.min(keys),
            )?;
        }
    }
    Ok(())
}

// Each shard evicts by the new configuration, and none takes another policy's.
fn configures<H: Runtime>(rt: H, config: EvictionConfig, shards: u64) -> Outcome {
    let heard = Heard::new(rt.alloc(), KEYS)?;
    let other = match &config {
        EvictionConfig::Lru(_) => EvictionConfig::from(S3FifoConfig::default()),
        _ => EvictionConfig::from(LruConfig::default()),
    };
    let (anew, is_changed) = match &config {
        // Records of low priority are no longer the first to leave.
        EvictionConfig::Lru(_) => {
            let high_priority_pool_ratio = Ratio { num: 0, den: 1 };
            (
                EvictionConfig::from(LruConfig {
                    high_priority_pool_ratio,
                }),
                true,
            )
        }
        // A single use no longer moves a record to the main queue.
        EvictionConfig::S3Fifo(_) => {
            let small_to_main_freq_threshold = 3;
            (
                EvictionConfig::from(S3FifoConfig {
                    small_to_main_freq_threshold,
                    ..S3FifoConfig::default()
                }),
                true,
            )
        }
        same => (same.clone()?, false),
    };
    let cache = cache(rt, (shards * 2) as usize, shards as usize, config, &heard)?;
    let refused = cache.reconfigure(other);
    same(rt, "another policy's is refused", &refused.is_err(), &true)?;
    let first = oldest_leave(&cache, shards)?;
    cache.clear()?;
    cache.reconfigure(anew)?;
    let now = oldest_leave(&cache, shards)?;
    let wanted = if is_changed { 0 } else { first };
    same(rt, "shards whose oldest record stays", &now, &wanted)?;
    same(
        rt,
        "before, if it changes",
        &(first > 0 || !is_changed),
        &true,
    )
}

// Puts three records into each shard that has so many keys, of which two fit: the first is used once, the second has low
// priority. In how many shards the first one stays.
fn oldest_leave<H: Runtime>(cache: &Cache<H>, shards: u64) -> Outcome<u64> {
    let mut stays = 0;
    for shard in 0..shards {
        let mut keys = (0..KEYS).filter(|key| shard_of(*key, shards) == shard);
        let (Some(first), Some(second), Some(third)) = (keys.next(), keys.next(), keys.next())
        else {
            continue;
        };
        drop(cache.insert(0, first, 1)?);
        drop(cache.get(0, &first)?);
        let low = CacheProperties::default().with_hint(Hint::Low);
        drop(cache.insert_with_properties(0, second, 1, low)?);
        drop(cache.insert(0, third, 1)?);
        stays += u64::from(cache.contains(0, &first));
    }
    Ok(stays)
}
