//! Weights and capacities beyond 2^32.

use crate::cache::cache;
use crate::case::{Cases, Outcome, Runtime, same};
use crate::heard::{Heard, Told};
use foyer_memory::EvictionConfig;

// The weight of a record: beyond 2^32, with its least bits set too.
const WEIGHT: usize = (1 << 40) + 1;

// How many such records a shard has room for.
const FIT: usize = 5;

pub fn run<H: Runtime>(cases: &mut Cases<H>) -> Outcome {
    let rt = cases.rt;
    cases.of_each_policy(
        "a capacity beyond 2^32 holds what fits",
        |config| holds_what_fits(rt, config),
    )?;
    cases.of_each_policy(
        "a resize beyond 2^32 evicts what is over",
        |config| resizes(rt, config),
    )?;
    cases.of_each_policy("weights of 0 and 2^64 - 1", |config| extremes(rt, config))
}

// Seven shards, each of which has room for five records.
fn holds_what_fits<H: Runtime>(rt: H, config: EvictionConfig) -> Outcome {
    const SHARDS: usize = 7;
    let heard = Heard::new(rt.alloc(), 100)?;
    let cache = cache(rt, SHARDS * FIT * WEIGHT, SHARDS, config, &heard)?;
    same(rt, "capacity", &cache.capacity(), &(SHARDS * FIT * WEIGHT))?;
    for key in 0..42u64 {
        if key % 2 == 0 {
            let entry = cache.insert(0, key, WEIGHT as u64)?;
            same(rt, "weight", &entry.weight(), &WEIGHT)?;
        } else {
            cache.put(0, key, WEIGHT as u64)?;
        }
        let entries = (key as usize + 1).min(SHARDS * FIT);
        same(rt, "entries", &cache.entries(), &(entries as u128))?;
        same(rt, "usage", &cache.usage(), &((entries * WEIGHT) as u128))?;
    }
    same(rt, "told", &heard.take(), &Told::evicted(7))
}

fn resizes<H: Runtime>(rt: H, config: EvictionConfig) -> Outcome {
    let heard = Heard::new(rt.alloc(), 100)?;
    let cache = cache(rt, FIT * WEIGHT, 1, config, &heard)?;
    let mut key = 0;
    for (capacity, entries, evicted) in [
        (FIT * WEIGHT, 5, 5),
        (FIT * WEIGHT - 1, 4, 11),
        (2 * WEIGHT, 2, 12),
        (10 * WEIGHT + 7, 10, 2),
        (usize::MAX, 20, 0),
        (WEIGHT, 1, 29),
    ] {
        cache.resize(0, capacity)?;
        same(rt, "capacity", &cache.capacity(), &capacity)?;
        for _ in 0..10 {
            drop(cache.insert(0, key, WEIGHT as u64)?);
            key += 1;
        }
        same(rt, "entries", &cache.entries(), &entries)?;
        same(rt, "usage", &cache.usage(), &(entries * WEIGHT as u128))?;
        same(rt, "told", &heard.take(), &Told::evicted(evicted))?;
    }
    Ok(())
}

// A record without weight is evicted for what does not fit beside it, and the heaviest one for a single unit.
fn extremes<H: Runtime>(rt: H, config: EvictionConfig) -> Outcome {
    let heard = Heard::new(rt.alloc(), 100)?;
    let cache = cache(rt, usize::MAX, 1, config, &heard)?;
    for key in 0..20u64 {
        drop(cache.insert(0, key, 0)?);
    }
    drop(cache.insert(0, 20, u64::MAX)?);
    same(rt, "entries", &cache.entries(), &21)?;
    same(rt, "usage", &cache.usage(), &(usize::MAX as u128))?;
    same(rt, "told", &heard.take(), &Told::default())?;
    drop(cache.insert(0, 21, 1)?);
    same(rt, "the heaviest is in", &cache.contains(0, &20), &false)?;
    same(rt, "usage", &cache.usage(), &1)?;
    let evicted = heard.take().evicted;
    same(rt, "entries", &cache.entries(), &(22 - evicted as u128))?;
    cache.evict_all(0)?;
    same(rt, "evictions", &(heard.take().evicted + evicted), &22)?;
    same(rt, "left", &(cache.entries(), cache.usage()), &(0, 0))
}
