//! Calls from which thousands of records leave: each is told once.

use crate::cache::{cache, fill};
use crate::calls::Call;
use crate::case::{Cases, Outcome, Runtime, same};
use crate::heard::{Heard, Told};
use foyer_memory::EvictionConfig;

// How many records are in.
const RECORDS: u64 = 20_000;

// The key of a record as heavy as all of them.
const HEAVY: u64 = RECORDS;

pub fn run<H: Runtime>(cases: &mut Cases<H>) -> Outcome {
    let rt = cases.rt;
    let all = Told::evicted(RECORDS);
    for (name, call, told) in [
        ("an insert evicts 20,000", Call::Insert, all),
        ("a put evicts 20,000", Call::Put, all),
        ("a replace_if evicts 20,000", Call::ReplaceIf, all),
        ("an insert_if_fits evicts 20,000", Call::InsertIfFits, all),
        ("a piece evicts 20,000", Call::InsertPiece, all),
        ("a fetch evicts 20,000", Call::Fetch, all),
        (
            "a resize evicts 19,990",
            Call::Resize(10),
            Told::evicted(RECORDS - 10),
        ),
        ("evict_all evicts 20,000", Call::EvictAll, all),
        ("a flush evicts 20,000", Call::Flush, all),
        (
            "a flush_if evicts 10,000",
            Call::FlushEven,
            Told::evicted(RECORDS / 2),
        ),
        (
            "a clear takes 20,000 out",
            Call::Clear,
            Told::cleared(RECORDS),
        ),
    ] {
        cases.of_each_policy(name, |config| tells(rt, config, call, told))?;
    }
    cases.of_each_policy("the last drop takes 20,000 out", |config| drops(rt, config))
}

// A shard full of records, which then tells this of a call.
fn tells<H: Runtime>(rt: H, config: EvictionConfig, call: Call, told: Told) -> Outcome {
    let heard = Heard::new(rt.alloc(), RECORDS)?;
    let cache = cache(rt, RECORDS as usize, 1, config, &heard)?;
    let piece = cache.insert(0, HEAVY, RECORDS)?.piece()?;
    drop(cache.remove(&HEAVY)?);
    fill(&cache, RECORDS)?;
    same(rt, "told before", &heard.take(), &Told::default())?;
    call.make(rt, &cache, 0, piece)?;
    same(rt, "told", &heard.take(), &told)?;
    let left = RECORDS - told.evicted - told.cleared;
    let found = (0..RECORDS).filter(|key| cache.contains(0, key)).count();
    same(rt, "left", &found, &(left as usize))
}

// Entries keep the cache, and the last one's drop clears it.
fn drops<H: Runtime>(rt: H, config: EvictionConfig) -> Outcome {
    let heard = Heard::new(rt.alloc(), RECORDS)?;
    let cache = cache(rt, 2 * RECORDS as usize, 3, config, &heard)?;
    fill(&cache, RECORDS - 1)?;
    let entry = cache.insert(0, RECORDS - 1, 1)?;
    drop(cache);
    same(rt, "told before", &heard.take(), &Told::default())?;
    drop(entry);
    same(rt, "told", &heard.take(), &Told::cleared(RECORDS))
}
