//! Values that a call makes or fetches while it blocks, by a clock of nanoseconds since 1970, in each of many shards.

use crate::cache::{ByValue, Cache, Fetch, Led, SEED, Seeded, target};
use crate::calls::at_once;
use crate::case::{Cases, Failure, Outcome, Runtime, same};
use crate::heard::{Ear, Heard, Told};
use crate::moments::NOW;
use foyer_core::CacheProperties;
use foyer_memory::{CacheBuilder, EvictionConfig, Kind, LruConfig, S3FifoConfig};
use foyer_policy::{Fault, Properties};

const SHARDS: usize = 65;

const KEYS: u64 = 200;

// How long a record lives.
const LIFE: u64 = (1 << 50) + 1;

// A call by which a missing value comes in.
#[derive(Clone, Copy)]
enum Way {
    Make,
    MakeWithExpiry,
    Fetch,
    Task,
}

pub fn run<H: Runtime>(cases: &mut Cases<H>) -> Outcome {
    let rt = cases.rt;
    for (name, way) in [
        ("a value is made in each of 65 shards", Way::Make),
        (
            "a value is made with its expiry in each of 65 shards",
            Way::MakeWithExpiry,
        ),
        ("a value is fetched in each of 65 shards", Way::Fetch),
        (
            "a value is fetched by a task in each of 65 shards",
            Way::Task,
        ),
    ] {
        cases.of_each_policy(name, |config| comes_in(rt, config, way))?;
    }
    cases.of_each_policy("a failed maker leaves nothing", |config| fails(rt, config))?;
    cases.of_each_policy(
        "a cache and its entries know their policy",
        |config| kinds(rt, config),
    )
}

fn living<H: Runtime>(
    rt: H,
    config: EvictionConfig,
    life: u64,
    heard: &Heard,
) -> Outcome<Cache<H>> {
    Ok(
        CacheBuilder::new(SHARDS * 1000)
            .with_shards(SHARDS)
            .with_eviction_config(config)
            .with_time_to_live(life)
            .with_hash_builder(Seeded { seed: SEED })
            .with_weighter(ByValue)
            .with_event_listener(Ear(heard.share()?))
            .build(rt, rt.alloc(), &rt)?,
    )
}

impl Way {
    // The value of a key at a moment, which is this one if it is missing.
    fn value<H: Runtime>(
        self,
        rt: H,
        cache: &Cache<H>,
        now: u64,
        key: u64,
        value: u64,
    ) -> Outcome<u64> {
        let fetch = Fetch::Now(Some(target(value)));
        Ok(match self {
            Way::Make => *cache.get_or_insert_with(now, &key, || Ok(value))?,
            Way::MakeWithExpiry => {
                let properties = CacheProperties::default().with_expiry(Some(now.saturating_add(
                    LIFE,
                )));
                *cache.get_or_insert_with_properties(now, &key, || Ok((value, properties)))?
            }
            Way::Fetch => *cache.get_or_fetch_blocking(now, &key, fetch)?,
            Way::Task => {
                let mut led = Led { task: None };
                let look = cache.get_or_fetch(now, &key, || fetch, &mut led)?;
                if let Some(task) = led.task {
                    at_once(rt, task)?;
                }
                *at_once(rt, look)??
            }
        })
    }
}

// Each is made once while it lives, and again from the moment on at which it has expired.
fn comes_in<H: Runtime>(rt: H, config: EvictionConfig, way: Way) -> Outcome {
    let heard = Heard::new(rt.alloc(), KEYS)?;
    // A value's own expiry counts, and not the cache's time to live.
    let life = match way {
        Way::MakeWithExpiry => 0,
        _ => LIFE,
    };
    let cache = living(rt, config, life, &heard)?;
    for (now, made, wanted) in [
        (NOW, 1, 1),
        (NOW, 2, 1),
        (NOW + LIFE - 1, 3, 1),
        (NOW + LIFE, 4, 4),
        (NOW + 2 * LIFE - 1, 5, 4),
        (u64::MAX - LIFE, 6, 6),
        (u64::MAX - 1, 7, 6),
    ] {
        for key in 0..KEYS {
            same(
                rt,
                "value",
                &way.value(rt, &cache, now, key, made)?,
                &wanted,
            )?;
            assert_hits(rt, &cache, now, key, wanted)?;
        }
        same(rt, "entries", &cache.entries(), &u128::from(KEYS))?;
        same(rt, "usage", &cache.usage(), &u128::from(KEYS * wanted))?;
    }
    let told = heard.take();
    same(
        rt,
        "left",
        &(told.replaced + told.evicted, told.again),
        &(KEYS, KEYS),
    )
}

// Entries of a hit are released in both ways.
fn assert_hits<H: Runtime>(rt: H, cache: &Cache<H>, now: u64, key: u64, wanted: u64) -> Outcome {
    cache.get(now, &key)?.ok_or(Failure::Differs)?.release();
    let mut led = Led { task: None };
    let look = cache.get_or_fetch_inner(now, &key, || None, || None, (), &mut led)?;
    same(rt, "has to wait", &look.need_await(), &false)?;
    let entry = at_once(rt, look)??;
    same(rt, "value of a hit", &(*entry, entry.refs()), &(wanted, 1))
}

// A maker that fails has the miss counted, and the next one is asked.
fn fails<H: Runtime>(rt: H, config: EvictionConfig) -> Outcome {
    let heard = Heard::new(rt.alloc(), KEYS)?;
    let cache = living(rt, config, LIFE, &heard)?;
    for key in 0..KEYS {
        let failed = cache.get_or_insert_with(
            NOW,
            &key,
            || Err(Fault::with_text(rt.alloc(), 7, "no")),
        );
        let number = failed.err().ok_or(Failure::Differs)?.number();
        same(rt, "refusal", &number, &11)?;
        same(
            rt,
            "value",
            &*cache.get_or_insert_with(NOW, &key, || Ok(3))?,
            &3,
        )?;
    }
    let stats = cache.stats();
    same(rt, "look-ups", &(stats.hits, stats.misses), &(0, 2 * KEYS))?;
    same(rt, "told", &heard.take(), &Told::default())
}

fn kinds<H: Runtime>(rt: H, config: EvictionConfig) -> Outcome {
    let kind = match &config {
        EvictionConfig::Fifo(_) => Kind::Fifo,
        EvictionConfig::Lru(_) => Kind::Lru,
        EvictionConfig::Lfu(_) => Kind::Lfu,
        EvictionConfig::S3Fifo(_) => Kind::S3Fifo,
        EvictionConfig::Sieve(_) => Kind::Sieve,
    };
    let heard = Heard::new(rt.alloc(), KEYS)?;
    let cache = living(rt, config, LIFE, &heard)?;
    let entry = cache.insert(NOW, 1, 1)?;
    let mut led = Led { task: None };
    let look = cache.get_or_fetch(NOW, &2, || Fetch::Now(None), &mut led)?;
    same(
        rt,
        "kinds",
        &(cache.kind(), entry.kind(), look.kind()),
        &(kind, kind, kind),
    )?;
    let is_lru = cache.try_clone()?.of_policy::<LruConfig>().is_ok();
    let is_s3fifo = cache.of_policy::<S3FifoConfig>().is_ok();
    let wanted = (kind == Kind::Lru, kind == Kind::S3Fifo);
    same(rt, "is of a policy", &(is_lru, is_s3fifo), &wanted)
}
