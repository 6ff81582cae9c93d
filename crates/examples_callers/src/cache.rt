//! A cache of numbers that one thread owns, and what a caller proves of it from the library's contracts alone.

ghost use Rattle.std.specs.Prelude.{◌≡◌, All, IfOk, IsSomeAnd, Some, length};
ghost use Rattle.foyer_core.specs.CoreFetches.{open_in};
ghost use Rattle.foyer_core.specs.Cores.{fetches_of, hashes_of};
ghost use Rattle.foyer_core.specs.Inflight.{asked, waiters_of};
ghost use Rattle.foyer_core.specs.Waited.{handed_out};

use foyer_core::{
    AdmitAll, Answers, CacheCore, CacheProperties, CoreEntry, Ended, FetchTarget, Inserted, Lookup,
    RawCacheConfig, Weighter,
};
use foyer_policy::{DefaultHasher, Eviction, Lru, Result, Source};
use std::alloc::Global;

/// Who asks for a number.
pub type Caller = u32;

/// A cache of numbers under any policy, for whose fetches callers wait.
pub type Numbers<E> = CacheCore<
    E,
    u64,
    u64,
    CacheProperties,
    DefaultHasher,
    OwnWeight,
    AdmitAll,
    Caller,
>;

/// A handle of a number.
pub type Number = CoreEntry<u64, u64, CacheProperties>;

/// The callers that waited for a number, and what they get.
pub type Told = Answers<u64, u64, CacheProperties, Caller>;

/// A number is its own weight.
#[derive(Clone, Copy, Debug, Default)]
pub struct OwnWeight;

impl<K> Weighter<K, u64> for OwnWeight {
    ghost use Rattle.std.specs.Prelude.{◌≡◌};

    ghost weighs = { λ _ _ number weight. weight ≡ number };

    fn weigh(&self, _key: &K, number: &u64) -> usize {
        *number as usize
    }
}

/// Makes an empty LRU cache of one shard.
pub fn empty(alloc: Global, capacity: usize) -> Result<Numbers<Lru>> {
    let base = RawCacheConfig::new(capacity).with_weighter(OwnWeight);
    CacheCore::new(alloc, RawCacheConfig { shards: 1, ..base })
}

/// Inserts a number and looks it up. It is found, however heavy it is, unless one of the two calls fails.
pub fn put_and_get<E: Eviction>(
    numbers: &mut Numbers<E>,
    now: u64,
    key: u64,
    number: u64,
) -> Result<Option<Number>>
    ensures { IfOk result (λ found. IsSomeAnd found (λ entry. entry.kept.value ≡ number)) }
{
    // If callers wait for a fetch of the key, they get handles too, which are dropped here, as is what left.
    let Inserted {
        entry,
        answers,
        leaves: _,
    } = numbers.insert(now, key, number)?;
    let found = numbers.get(now, &key);
    numbers.drop_answers(answers);
    numbers.drop_entry(entry);
    // The insert's contract says that a get finds the number unless it has expired, and default properties never do.
    found
}

/// Looks a number up for a caller. If it is missing the caller waits for its fetch; the first one gets the fetch, and has
/// to end it.
pub fn ask<E: Eviction>(
    numbers: &mut Numbers<E>,
    now: u64,
    key: u64,
    caller: Caller,
) -> Result<Option<u64>> {
    match numbers.get_or_enqueue(now, &key, None, caller)? {
        Lookup::Hit(entry) => {
            numbers.drop_entry(entry);
            Ok(None)
        }
        Lookup::Lead {
            fetch,
            token: _,
            required: _,
        } => Ok(Some(fetch)),
        Lookup::Wait { token: _ } => Ok(None),
    }
}

/// Ends a fetch with a number. Each caller that waits for it gets a handle of the number, or all get the same error. If
/// the fetch isn't open, nobody gets anything.
pub fn complete<E: Eviction>(
    numbers: &mut Numbers<E>,
    now: u64,
    key: u64,
    fetch: u64,
    number: u64,
) -> Told
    ensures all { result.waiters.items ≡ waiters_of (asked (Some fetch) (open_in (fetches_of numbers.old) (hashes_of numbers.old key, key))) }
    ensures each { IfOk (handed_out result.outcome) (λ handles. length handles ≡ length result.waiters.items) }
    ensures same { IfOk (handed_out result.outcome) (All (λ handle. handle.kept.value ≡ number)) }
{
    let target = FetchTarget::Entry {
        value: number,
        properties: CacheProperties::default(),
    };
    let Ended {
        found: _,
        answers,
        leaves: _,
    } = numbers.complete(now, &key, fetch, target, Source::Outer);
    answers
}
