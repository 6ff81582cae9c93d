//! Many records in one shard, which expire by a clock of nanoseconds since 1970.

use crate::cache::{cache, fill};
use crate::case::{Cases, Outcome, Runtime, same};
use crate::heard::{Heard, Told};
use crate::moments::NOW;
use foyer_core::CacheProperties;
use foyer_memory::EvictionConfig;

const RECORDS: u64 = 300_000;

pub fn run<H: Runtime>(cases: &mut Cases<H>) -> Outcome {
    let rt = cases.rt;
    cases.of_each_policy(
        "a shard holds 300,000 records",
        |config| holds_all(rt, config),
    )
}

// Every other record expires, each at a moment of its own. Then as many come into the places of those that left.
fn holds_all<H: Runtime>(rt: H, config: EvictionConfig) -> Outcome {
    let heard = Heard::new(rt.alloc(), RECORDS)?;
    let cache = cache(rt, RECORDS as usize, 1, config, &heard)?;
    for key in 0..RECORDS {
        let expiry = if key % 2 == 0 { Some(NOW + key) } else { None };
        let properties = CacheProperties::default().with_expiry(expiry);
        cache.put_with_properties(NOW - 1, key, 1, properties)?;
    }
    let all = (RECORDS as u128, RECORDS as u128);
    same(rt, "sums", &(cache.entries(), cache.usage()), &all)?;
    let mut got = 0;
    for key in 0..RECORDS {
        got += cache.get(NOW - 1, &key)?.map_or(0, |entry| *entry);
    }
    same(rt, "found before", &got, &RECORDS)?;
    let half_way = NOW + RECORDS / 2;
    let found = (0..RECORDS).filter(|key| cache.contains(half_way, key));
    same(rt, "found half way", &found.count(), &224_999)?;
    same(rt, "told", &heard.take(), &Told::default())?;
    cache.evict_all(half_way)?;
    same(rt, "told of all", &heard.take(), &Told::evicted(RECORDS))?;
    same(rt, "left", &(cache.entries(), cache.usage()), &(0, 0))?;
    fill(&cache, RECORDS)?;
    same(rt, "sums again", &(cache.entries(), cache.usage()), &all)?;
    cache.clear()?;
    same(rt, "told again", &heard.take(), &Told::cleared(RECORDS))
}
