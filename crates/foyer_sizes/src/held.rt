//! Calls on all records of 65 shards while thousands of them are held.

use crate::cache::{Cache, Entry, cache, fill};
use crate::calls::Call;
use crate::case::{Cases, Failure, Outcome, Runtime, same};
use crate::heard::{Heard, Told};
use foyer_memory::{EvictionConfig, Kind};

const SHARDS: usize = 65;

// How many records are in, of which those with even keys are held.
const RECORDS: u64 = 10_000;

// How many are held.
const HELD: u64 = RECORDS / 2;

// The key of a removed record.
const SPARE: u64 = RECORDS;

pub fn run<H: Runtime>(cases: &mut Cases<H>) -> Outcome {
    let rt = cases.rt;
    for (name, call) in [
        ("evict_all while 5,000 are held", Call::EvictAll),
        ("a flush while 5,000 are held", Call::Flush),
        ("a resize while 5,000 are held", Call::Resize(0)),
        ("a flush_if of 5,000 that are held", Call::FlushEven),
        ("a clear while 5,000 are held", Call::Clear),
    ] {
        cases.of_each_policy(name, |config| calls(rt, config, call))?;
    }
    cases.of_each_policy(
        "a retain without 5,000 that are held",
        |config| retains(rt, config),
    )
}

// A cache with room for more, and the entries of even keys, each by a get.
fn holding<H: Runtime>(
    rt: H,
    config: EvictionConfig,
    heard: &Heard,
) -> Outcome<(Cache<H>, Vec<Entry<H>>)> {
    let cache = cache(rt, 2 * RECORDS as usize, SHARDS, config, heard)?;
    fill(&cache, RECORDS)?;
    let mut entries = Vec::new(rt.alloc());
    for key in (0..RECORDS).step_by(2) {
        entries.push(cache.get(0, &key)?.ok_or(Failure::Differs)?)?;
    }
    Ok((cache, entries))
}

// What is held under LRU is evicted by no call but that of a predicate, and else each call takes what it is told to.
fn calls<H: Runtime>(rt: H, config: EvictionConfig, call: Call) -> Outcome {
    let heard = Heard::new(rt.alloc(), RECORDS)?;
    let (cache, entries) = holding(rt, config, &heard)?;
    let piece = cache.insert(0, SPARE, 1)?.piece()?;
    drop(cache.remove(&SPARE)?);
    let pins = cache.kind() == Kind::Lru;
    let (told, has_left) = match call {
        Call::FlushEven => (Told::evicted(HELD), true),
        Call::Clear => (Told::cleared(RECORDS), true),
        _ if pins => (Told::evicted(RECORDS - HELD), false),
        _ => (Told::evicted(RECORDS), true),
    };
    call.make(rt, &cache, 0, piece)?;
    same(rt, "told", &heard.take(), &told)?;
    ends(rt, &cache, entries, has_left, &heard)
}

fn retains<H: Runtime>(rt: H, config: EvictionConfig) -> Outcome {
    let heard = Heard::new(rt.alloc(), RECORDS)?;
    let (cache, entries) = holding(rt, config, &heard)?;
    cache.retain(|key, _| *key % 2 == 1)?;
    same(rt, "told", &heard.take(), &Told::removed(HELD))?;
    ends(rt, &cache, entries, true, &heard)
}

// Each entry has the one handle of its record, whether that has left or not, and its drop tells nothing. What is left can be
// evicted then.
fn ends<H: Runtime>(
    rt: H,
    cache: &Cache<H>,
    entries: Vec<Entry<H>>,
    has_left: bool,
    heard: &Heard,
) -> Outcome {
    for (place, entry) in entries.iter().enumerate() {
        let seen = (*entry.key(), **entry, entry.refs(), entry.is_outdated());
        same(rt, "entry", &seen, &(2 * place as u64, 1, 1, has_left))?;
    }
    drop(entries);
    same(rt, "told by the drops", &heard.take(), &Told::default())?;
    let left = cache.entries();
    same(rt, "usage", &cache.usage(), &left)?;
    cache.evict_all(0)?;
    same(
        rt,
        "told at the end",
        &heard.take(),
        &Told::evicted(left as u64),
    )?;
    same(rt, "left", &(cache.entries(), cache.usage()), &(0, 0))
}
