//! Records that are replaced and removed by who saw them, in each of 999 shards, at times of nanoseconds since 1970.

use crate::cache::{Entry, cache};
use crate::case::{Cases, Failure, Outcome, Runtime, same};
use crate::heard::{Heard, Told};
use crate::moments::NOW;
use foyer_core::CacheProperties;
use foyer_memory::{EvictionConfig, Replaced};

// The hashes lead to each of so many; of 1,000 they would leave seven in eight empty.
const SHARDS: usize = 999;

const KEYS: u64 = 3000;

pub fn run<H: Runtime>(cases: &mut Cases<H>) -> Outcome {
    let rt = cases.rt;
    cases.of_each_policy(
        "each of 999 shards changes what was seen",
        |config| changes(rt, config),
    )?;
    cases.of_each_policy(
        "each of 999 shards lets records live longer",
        |config| lives_longer(rt, config),
    )
}

fn inserted<H: Runtime>(replaced: Replaced<Entry<H>>) -> Outcome<Entry<H>> {
    match replaced {
        Replaced::Inserted(entry) => Ok(entry),
        Replaced::Changed(_) => Err(Failure::Differs),
    }
}

// Each record comes in where none is, is replaced once it has expired, and is then removed by its last entry alone.
fn changes<H: Runtime>(rt: H, config: EvictionConfig) -> Outcome {
    let heard = Heard::new(rt.alloc(), KEYS)?;
    let cache = cache(rt, 20 * SHARDS, SHARDS, config, &heard)?;
    let none = || CacheProperties::default();
    let expires = || CacheProperties::default().with_expiry(Some(NOW));
    for key in 0..KEYS {
        let old = inserted(cache.replace_if(NOW - 1, None, key, 1, expires())?)?;
        let found = match cache.replace_if(NOW - 1, None, key, 2, none())? {
            Replaced::Changed(Some(found)) => *found,
            _ => 0,
        };
        same(rt, "found before", &found, &1)?;
        let new = inserted(cache.replace_if(NOW, None, key, 2, none())?)?;
        let found = match cache.replace_if(NOW, Some(&old), key, 3, none())? {
            Replaced::Changed(Some(found)) => *found,
            _ => 0,
        };
        same(rt, "found", &found, &2)?;
        let last = inserted(cache.replace_if(u64::MAX, Some(&new), key, 3, none())?)?;
        let removed = (
            cache.remove_this(&old),
            cache.remove_this(&new),
            cache.remove_this(&last),
            cache.remove_this(&last),
        );
        same(rt, "removed", &removed, &(false, false, true, false))?;
    }
    let wanted = Told {
        replaced: KEYS,
        again: KEYS,
        ..Told::removed(KEYS)
    };
    same(rt, "told", &heard.take(), &wanted)?;
    let stats = cache.stats();
    same(
        rt,
        "counts",
        &(stats.inserts, stats.hits, stats.misses),
        &(3 * KEYS, 0, 0),
    )?;
    same(rt, "sums", &(cache.entries(), cache.usage()), &(0, 0))
}

// Each record lives beyond its moment once it has another, ends at that one, and isn't found any more.
fn lives_longer<H: Runtime>(rt: H, config: EvictionConfig) -> Outcome {
    let heard = Heard::new(rt.alloc(), KEYS)?;
    let cache = cache(rt, 20 * SHARDS, SHARDS, config, &heard)?;
    let expires = || CacheProperties::default().with_expiry(Some(NOW));
    for key in 0..KEYS {
        cache.put_with_properties(NOW - 1, key, 1, expires())?;
        let set = (
            cache.set_expires(NOW - 1, &key, Some(2 * NOW))?,
            cache.contains(2 * NOW - 1, &key),
            cache.contains(2 * NOW, &key),
            cache.set_expires(2 * NOW, &key, None)?,
        );
        same(rt, "set", &set, &(true, true, false, false))?;
    }
    let wanted = Told {
        replaced: KEYS,
        ..Told::default()
    };
    same(rt, "told", &heard.take(), &wanted)?;
    let stats = cache.stats();
    same(
        rt,
        "counts",
        &(stats.inserts, stats.hits, stats.misses),
        &(2 * KEYS, KEYS, KEYS),
    )?;
    same(rt, "entries", &cache.entries(), &(KEYS as u128))
}
