//! Thousands of handles of one record, and of those who wait for one.

use crate::cache::{Cache, Entry, Fetch, Led, cache, target};
use crate::calls::at_once;
use crate::case::{Cases, Failure, Outcome, Runtime, same};
use crate::heard::{Heard, Told};
use foyer_core::CacheProperties;
use foyer_memory::{EvictionConfig, LruConfig};
use foyer_policy::Properties;

// More than 2^16.
const HANDLES: usize = 70_000;

// The key of the record.
const KEY: u64 = 7;

pub fn run<H: Runtime>(cases: &mut Cases<H>) -> Outcome {
    let rt = cases.rt;
    cases.of_each_policy(
        "70,000 handles of one record",
        |config| counts_each(rt, config),
    )?;
    cases.of_each_policy(
        "70,000 handles beside calls that make no entry",
        |config| counts_none(rt, config),
    )?;
    cases.of_each_policy(
        "70,000 handles of a phantom",
        |config| keeps_a_phantom(rt, config),
    )?;
    cases.of_each_policy(
        "70,000 wait for one insert",
        |config| answers_each(rt, config, false),
    )?;
    cases.of_each_policy(
        "70,000 wait for one fetch",
        |config| answers_each(rt, config, true),
    )?;
    let pinned = keeps_its_pin(rt);
    cases.print("70,000 handles pin a record", "lru", pinned)
}

// As many handles of the record of an entry, each by a get or a clone.
fn more<H: Runtime>(rt: H, cache: &Cache<H>, entry: &Entry<H>) -> Outcome<Vec<Entry<H>>> {
    let mut entries = Vec::new(rt.alloc());
    while entries.len() < HANDLES {
        entries.push(entry.try_clone()?)?;
        if let Some(found) = cache.get(0, &KEY)? {
            entries.push(found)?;
        }
    }
    Ok(entries)
}

// Each counts, also once the record has left, which is told once.
fn counts_each<H: Runtime>(rt: H, config: EvictionConfig) -> Outcome {
    let heard = Heard::new(rt.alloc(), 100)?;
    let cache = cache(rt, 100, 1, config, &heard)?;
    let first = cache.insert(0, KEY, 1)?;
    let entries = more(rt, &cache, &first)?;
    same(rt, "handles", &first.refs(), &(HANDLES + 1))?;
    same(rt, "is outdated", &first.is_outdated(), &false)?;
    let removed = cache.remove(&KEY)?;
    same(rt, "handles", &first.refs(), &(HANDLES + 2))?;
    same(rt, "is outdated", &first.is_outdated(), &true)?;
    drop(removed);
    for (dropped, entry) in entries.into_iter().enumerate() {
        drop(entry);
        same(rt, "handles", &first.refs(), &(HANDLES - dropped))?;
    }
    same(rt, "value", &*first, &1)?;
    drop(first);
    same(rt, "told", &heard.take(), &Told::removed(1))
}

// Calls that make no entry leave the handles as they are, and no handle of their own.
fn counts_none<H: Runtime>(rt: H, config: EvictionConfig) -> Outcome {
    let heard = Heard::new(rt.alloc(), 100)?;
    let cache = cache(rt, 100, 1, config, &heard)?;
    let first = cache.insert(0, KEY, 1)?;
    let entries = more(rt, &cache, &first)?;
    let hits = cache.stats().hits;
    for _ in 0..HANDLES {
        let read = cache.read(0, &KEY, |value| *value)?;
        same(
            rt,
            "values",
            &(read, cache.peek(0, &KEY, |value| *value)),
            &(Some(1), Some(1)),
        )?;
    }
    same(rt, "hits", &(cache.stats().hits - hits), &(HANDLES as u64))?;
    same(rt, "handles", &first.refs(), &(HANDLES + 1))?;
    cache.put(0, KEY, 2)?;
    same(rt, "is outdated", &first.is_outdated(), &true)?;
    same(
        rt,
        "handles of the new one",
        &cache.get(0, &KEY)?.ok_or(Failure::Differs)?.refs(),
        &1,
    )?;
    same(
        rt,
        "deleted",
        &(cache.delete(&KEY)?, cache.delete(&KEY)?),
        &(true, false),
    )?;
    same(rt, "handles", &(first.refs(), *first), &(HANDLES + 1, 1))?;
    drop(entries);
    same(rt, "handles", &first.refs(), &1)?;
    let told = Told {
        replaced: 1,
        removed: 1,
        ..Told::default()
    };
    same(rt, "told", &heard.take(), &told)
}

// A phantom leaves with the last of its handles.
fn keeps_a_phantom<H: Runtime>(rt: H, config: EvictionConfig) -> Outcome {
    let heard = Heard::new(rt.alloc(), 100)?;
    let cache = cache(rt, 100, 1, config, &heard)?;
    let phantom = CacheProperties::default().with_phantom(true);
    let first = cache.insert_with_properties(0, KEY, 1, phantom)?;
    let entries = more(rt, &cache, &first)?;
    same(rt, "told", &heard.take(), &Told::removed(1))?;
    same(rt, "handles", &first.refs(), &(HANDLES + 1))?;
    drop(entries);
    same(rt, "told", &heard.take(), &Told::default())?;
    drop(first);
    same(rt, "told at the end", &heard.take(), &Told::evicted(1))
}

// The record stays until the last handle is dropped, whatever is inserted.
fn keeps_its_pin<H: Runtime>(rt: H) -> Outcome {
    let heard = Heard::new(rt.alloc(), 1000)?;
    let cache = cache(
        rt,
        100,
        1,
        EvictionConfig::from(LruConfig::default()),
        &heard,
    )?;
    drop(cache.insert(0, KEY, 1)?);
    let first = cache.get(0, &KEY)?.ok_or(Failure::Differs)?;
    drop(more(rt, &cache, &first)?);
    for key in 100..300 {
        drop(cache.insert(0, key, 1)?);
    }
    same(rt, "is pinned", &cache.contains(0, &KEY), &true)?;
    drop(first);
    for key in 300..500 {
        drop(cache.insert(0, key, 1)?);
    }
    same(rt, "is in", &cache.contains(0, &KEY), &false)
}

// Each gets a handle of the record that an insert, or the first one's fetch, puts in.
fn answers_each<H: Runtime>(rt: H, config: EvictionConfig, is_fetched: bool) -> Outcome {
    let heard = Heard::new(rt.alloc(), 100)?;
    let cache = cache(rt, 100, 1, config, &heard)?;
    let mut led = Led { task: None };
    let mut looks = Vec::new(rt.alloc());
    for _ in 0..HANDLES {
        let fetch = || Fetch::Now(Some(target(1)));
        looks.push(cache.get_or_fetch(0, &KEY, fetch, &mut led)?)?;
    }
    let task = led.task.ok_or(Failure::Differs)?;
    if is_fetched {
        at_once(rt, task)?;
    } else {
        drop(cache.insert(0, KEY, 1)?);
        drop(task);
    }
    let first = cache.get(0, &KEY)?.ok_or(Failure::Differs)?;
    same(rt, "handles", &first.refs(), &(HANDLES + 1))?;
    let half = HANDLES / 2;
    for look in looks.drain(half..) {
        same(rt, "value", &*at_once(rt, look)??, &1)?;
    }
    same(rt, "handles", &first.refs(), &(half + 1))?;
    drop(looks);
    same(rt, "handles", &first.refs(), &1)
}
