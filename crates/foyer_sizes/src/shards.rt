//! More than a hundred shards, each of which does what the cache is told.

use crate::cache::{Cache, cache, fill};
use crate::calls::{Call, Removed};
use crate::case::{Cases, Outcome, Runtime, same};
use crate::heard::{Heard, Told};
use foyer_memory::EvictionConfig;

// A prime, so that keys in a row stand in shards of their own.
const SHARDS: u64 = 131;

// How many records each shard has room for.
const FIT: u64 = 10;

const RECORDS: u64 = SHARDS * FIT;

pub fn run<H: Runtime>(cases: &mut Cases<H>) -> Outcome {
    let rt = cases.rt;
    let all = Told::evicted(RECORDS);
    for (name, call, told, left) in [
        (
            "each of 131 shards is cleared",
            Call::Clear,
            Told::cleared(RECORDS),
            0,
        ),
        ("each of 131 shards is evicted", Call::EvictAll, all, 0),
        ("each of 131 shards is flushed", Call::Flush, all, 0),
        (
            "each of 131 shards is flushed in part",
            Call::FlushEven,
            Told::evicted(RECORDS / 2),
            FIT / 2,
        ),
        (
            "each of 131 shards is resized to nothing",
            Call::Resize(0),
            all,
            0,
        ),
    ] {
        cases.of_each_policy(name, |config| each_does(rt, config, call, told, left))?;
    }
    cases.of_each_policy("each of 131 shards gets its part", |config| {
        shares_out(rt, config)
    })
}

// A cache whose shards are full, and a removed record.
fn full<H: Runtime>(rt: H, config: EvictionConfig, heard: &Heard) -> Outcome<(Cache<H>, Removed)> {
    let cache = cache(rt, RECORDS as usize, SHARDS as usize, config, heard)?;
    let piece = cache.insert(0, RECORDS, 1)?.piece()?;
    drop(cache.remove(&RECORDS)?);
    fill(&cache, RECORDS)?;
    same(rt, "shards", &cache.shards(), &(SHARDS as usize))?;
    assert_holds(rt, &cache, FIT)?;
    same(rt, "told before", &heard.take(), &Told::default())?;
    Ok((cache, piece))
}

// Each shard has so many records.
fn assert_holds<H: Runtime>(rt: H, cache: &Cache<H>, each: u64) -> Outcome {
    let all = (SHARDS * each) as u128;
    same(rt, "sums", &(cache.entries(), cache.usage()), &(all, all))?;
    for shard in 0..SHARDS {
        let found = (0..FIT)
            .filter(|turn| cache.contains(0, &(shard + turn * SHARDS)))
            .count();
        same(rt, "records of a shard", &found, &(each as usize))?;
    }
    Ok(())
}

// After a call each shard has so many left.
fn each_does<H: Runtime>(
    rt: H,
    config: EvictionConfig,
    call: Call,
    told: Told,
    left: u64,
) -> Outcome {
    let heard = Heard::new(rt.alloc(), RECORDS)?;
    let (cache, piece) = full(rt, config, &heard)?;
    call.make(rt, &cache, 0, piece)?;
    same(rt, "told", &heard.take(), &told)?;
    assert_holds(rt, &cache, left)
}

// Of a smaller capacity each shard gets its part, and of a greater one too.
fn shares_out<H: Runtime>(rt: H, config: EvictionConfig) -> Outcome {
    let heard = Heard::new(rt.alloc(), RECORDS)?;
    let (cache, _) = full(rt, config, &heard)?;
    cache.resize(0, (3 * SHARDS) as usize)?;
    assert_holds(rt, &cache, 3)?;
    same(rt, "told", &heard.take(), &Told::evicted(7 * SHARDS))?;
    cache.resize(0, RECORDS as usize)?;
    cache.clear()?;
    fill(&cache, RECORDS)?;
    assert_holds(rt, &cache, FIT)?;
    same(rt, "told", &heard.take(), &Told::cleared(3 * SHARDS))
}
