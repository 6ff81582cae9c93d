//! Sizes of a core.

use crate::cache::{ByValue, Fetch, SEED, Seeded};
use crate::case::{Cases, Failure, Outcome, Runtime, same};
use crate::moments::NOW;
use foyer_core::{AdmitAll, CacheCore, CacheProperties, Inserted, Leave, Limits, RawCacheConfig};
use foyer_memory::EvictionConfig;
use foyer_policy::AnyEviction;
use foyer_raw::{Answer, Given, Notifier};

// A core over the shards of the other cases' cache.
type Core = CacheCore<
    AnyEviction,
    u64,
    u64,
    CacheProperties,
    Seeded,
    ByValue,
    AdmitAll,
    Notifier<Answer<u64, u64, CacheProperties>>,
    Given<Fetch>,
>;

// What left it.
type Leaves = Vec<Leave<u64, u64, CacheProperties>>;

const RECORDS: u64 = 200_000;

// The weight of a record.
const WEIGHT: usize = (1 << 33) + 1;

const CAPACITY: usize = RECORDS as usize * WEIGHT;

pub fn run<H: Runtime>(cases: &mut Cases<H>) -> Outcome {
    let rt = cases.rt;
    cases.of_each_policy(
        "a core holds 200,000 heavy records",
        |config| holds_all(rt, config),
    )
}

fn core<H: Runtime>(rt: H, config: EvictionConfig) -> Outcome<Core> {
    let config = RawCacheConfig {
        capacity: CAPACITY,
        shards: 1,
        eviction_config: config,
        hash_builder: Seeded { seed: SEED },
        weighter: ByValue,
        filter: AdmitAll,
        number: 0,
        limits: Limits::default(),
    };
    Ok(Core::new(rt.alloc(), config)?)
}

// Puts a key in. What left for it.
fn put(
    core: &mut Core,
    now: u64,
    key: u64,
    weight: usize,
    expires: Option<u64>,
) -> Outcome<Leaves> {
    let properties = CacheProperties::default().with_expiry(expires);
    let Inserted {
        entry,
        answers,
        leaves,
    } = core.insert_with_properties(now, key, weight as u64, properties)?;
    core.drop_answers(answers);
    drop(core.drop_entry(entry));
    Ok(leaves)
}

// Whether these are different keys below the number of records, so many.
fn are_different<H: Runtime>(rt: H, leaves: &Leaves, count: u64) -> Outcome<bool> {
    let mut left = vec![in rt.alloc(); false; RECORDS as usize]?;
    let mut different = 0;
    for (_, gone) in leaves {
        if let Some(has_left) = left.get_mut(*gone.key() as usize) {
            different += u64::from(!*has_left);
            *has_left = true;
        }
    }
    Ok(different == count && leaves.len() as u64 == count)
}

// Nothing leaves for records that fit. Half of them expire, which leave for a single record as heavy as they are, and the
// rest by a resize, or by an insert of what has no room beside them.
fn holds_all<H: Runtime>(rt: H, config: EvictionConfig) -> Outcome {
    let mut core = core(rt, config)?;
    for key in 0..RECORDS {
        let expires = if key % 2 == 0 { Some(NOW) } else { None };
        let leaves = put(&mut core, NOW - 1, key, WEIGHT, expires)?;
        same(rt, "leaves", &leaves.len(), &0)?;
    }
    let sums = (RECORDS as u128, CAPACITY as u128);
    same(rt, "sums", &(core.entries(), core.usage()), &sums)?;
    same(rt, "is found before", &core.contains(NOW - 1, &0), &true)?;
    same(rt, "is found then", &core.contains(NOW, &0), &false)?;
    let leaves = put(&mut core, NOW, RECORDS, CAPACITY / 2, None)?;
    same(
        rt,
        "leave for one",
        &are_different(rt, &leaves, RECORDS / 2)?,
        &true,
    )?;
    same(rt, "usage", &core.usage(), &(CAPACITY as u128))?;
    let (entry, _) = core.remove(&RECORDS)?.ok_or(Failure::Differs)?;
    drop(core.drop_entry(entry));
    let leaves = core.resize(NOW, CAPACITY / 4)?;
    same(
        rt,
        "leave by a resize",
        &are_different(rt, &leaves, RECORDS / 4)?,
        &true,
    )?;
    let leaves = core.clear()?;
    same(
        rt,
        "leave by a clear",
        &are_different(rt, &leaves, RECORDS / 4)?,
        &true,
    )?;
    same(rt, "left", &(core.entries(), core.usage()), &(0, 0))
}
