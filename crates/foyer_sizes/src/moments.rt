//! Moments of a real clock: nanoseconds since 1970.

use crate::cache::{Cache, Fetch, Led, cache, target};
use crate::calls::{Call, Removed};
use crate::case::{Cases, Outcome, Runtime, same};
use crate::heard::Heard;
use foyer_core::CacheProperties;
use foyer_memory::EvictionConfig;

/// A moment in November 2026. Its lower 32 bits are 0, so that the moment before it differs from it in all of them.
pub const NOW: u64 = 418_000_000 << 32;

const RECORDS: u64 = 2_000;

// The key of a record as heavy as half of them.
const HEAVY: u64 = RECORDS;

// A look-up of a key.
#[derive(Clone, Copy)]
enum Query {
    Contains,
    Get,
    Read,
    Peek,
    GetCopied,
    GetCloned,
    Touch,
    Fetch,
}

pub fn run<H: Runtime>(cases: &mut Cases<H>) -> Outcome {
    let rt = cases.rt;
    for (name, call) in [
        ("an insert evicts what is expired first", Call::Insert),
        ("a put evicts what is expired first", Call::Put),
        ("a replace_if evicts what is expired first", Call::ReplaceIf),
        (
            "an insert_if_fits evicts what is expired first",
            Call::InsertIfFits,
        ),
        ("a piece evicts what is expired first", Call::InsertPiece),
        ("a fetch evicts what is expired first", Call::Fetch),
        (
            "a resize evicts what is expired first",
            Call::Resize(RECORDS as usize / 2),
        ),
        ("evict_all evicts what is expired first", Call::EvictAll),
        ("a flush evicts what is expired first", Call::Flush),
    ] {
        cases.of_each_policy(name, |config| evicts(rt, config, call, false))?;
    }
    for (name, call) in [
        (
            "an insert beside a fetch evicts what is expired first",
            Call::Insert,
        ),
        (
            "a put beside a fetch evicts what is expired first",
            Call::Put,
        ),
        (
            "a replace_if beside a fetch evicts what is expired first",
            Call::ReplaceIf,
        ),
    ] {
        cases.of_each_policy(name, |config| evicts(rt, config, call, true))?;
    }
    for (name, query) in [
        ("contains misses what is expired", Query::Contains),
        ("get misses what is expired", Query::Get),
        ("read misses what is expired", Query::Read),
        ("peek misses what is expired", Query::Peek),
        ("get_copied misses what is expired", Query::GetCopied),
        ("get_cloned misses what is expired", Query::GetCloned),
        ("touch misses what is expired", Query::Touch),
        ("get_or_fetch misses what is expired", Query::Fetch),
    ] {
        cases.of_each_policy(name, |config| misses(rt, config, query))?;
    }
    Ok(())
}

// A shard full of records, of which those with even keys expire, and a removed one.
fn half_expiring<H: Runtime>(
    rt: H,
    config: EvictionConfig,
    heard: &Heard,
) -> Outcome<(Cache<H>, Removed)> {
    let cache = cache(rt, RECORDS as usize, 1, config, heard)?;
    let piece = cache.insert(0, HEAVY, RECORDS / 2)?.piece()?;
    drop(cache.remove(&HEAVY)?);
    for key in 0..RECORDS {
        let expiry = if key % 2 == 0 { Some(NOW) } else { None };
        let properties = CacheProperties::default().with_expiry(expiry);
        drop(cache.insert_with_properties(NOW - 1, key, 1, properties)?);
    }
    heard.take();
    Ok((cache, piece))
}

// What is expired leaves first, and else what the policy gives: also while a fetch of another key is open.
fn evicts<H: Runtime>(rt: H, config: EvictionConfig, call: Call, is_fetching: bool) -> Outcome {
    let heard = Heard::new(rt.alloc(), RECORDS)?;
    let (cache, piece) = half_expiring(rt, config.clone()?, &heard)?;
    let mut led = Led { task: None };
    if is_fetching {
        drop(cache.get_or_fetch(NOW, &u64::MAX, || Fetch::Now(None), &mut led)?);
    }
    call.make(rt, &cache, NOW, piece)?;
    same(
        rt,
        "expired ones leave first",
        &heard.evens_first(),
        &(RECORDS / 2),
    )?;
    same(rt, "expired", &cache.stats().expired, &(RECORDS / 2))?;
    let (cache, piece) = half_expiring(rt, config, &heard)?;
    call.make(rt, &cache, NOW - 1, piece)?;
    same(rt, "expired before", &cache.stats().expired, &0)?;
    let evens = heard.evens_first();
    same(rt, "the policy's victims leave first", &(evens < 10), &true)
}

fn misses<H: Runtime>(rt: H, config: EvictionConfig, query: Query) -> Outcome {
    let heard = Heard::new(rt.alloc(), RECORDS)?;
    let (cache, _piece) = half_expiring(rt, config, &heard)?;
    for (now, key, is_found) in [
        (NOW - 1, 0, true),
        (NOW, 0, false),
        (NOW + 1, 0, false),
        (NOW, 1, true),
        (u64::MAX, 1, true),
        (NOW - 1, 0, true),
    ] {
        same(rt, "is found", &query.finds(&cache, now, key)?, &is_found)?;
    }
    Ok(())
}

impl Query {
    fn finds<H: Runtime>(self, cache: &Cache<H>, now: u64, key: u64) -> Outcome<bool> {
        Ok(match self {
            Query::Contains => cache.contains(now, &key),
            Query::Get => cache.get(now, &key)?.is_some(),
            Query::Read => cache.read(now, &key, |value| *value)? == Some(1),
            Query::Peek => cache.peek(now, &key, |value| *value) == Some(1),
            Query::GetCopied => cache.get_copied(now, &key)? == Some(1),
            Query::GetCloned => cache.get_cloned(now, &key)? == Some(1),
            Query::Touch => cache.touch(now, &key)?,
            Query::Fetch => {
                let fetch = || Fetch::Now(Some(target(1)));
                let mut led = Led { task: None };
                !cache.get_or_fetch(now, &key, fetch, &mut led)?.need_await()
            }
        })
    }
}
