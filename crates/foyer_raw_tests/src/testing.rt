//! What the tests have in common.

use foyer_core::{AdmitAll, CacheProperties, Limits, RawCacheConfig, UnitWeighter};
use foyer_policy::{FifoConfig, ModHasher, Properties, Result};
use std::sync::Wait;
use std::test::Fail;

pub(crate) mod builders;
pub(crate) mod cache;

/// What a test, or a helper of one, ends with.
pub(crate) type Outcome<T = ()> = std::result::Result<T, Fail>;

/// A configuration of FIFO shards, with keys as their own hashes.
pub(crate) type Config = RawCacheConfig<FifoConfig, ModHasher, UnitWeighter, AdmitAll>;

/// Such shards, with room for so many records together.
pub(crate) fn fifo(capacity: usize, shards: usize) -> Config {
    RawCacheConfig {
        capacity,
        shards,
        eviction_config: FifoConfig {},
        hash_builder: ModHasher::default(),
        weighter: UnitWeighter,
        filter: AdmitAll,
        number: 0,
        limits: Limits::default(),
    }
}

/// One such shard for so many records, with these limits.
pub(crate) fn limited(capacity: usize, limits: Limits) -> Config {
    RawCacheConfig {
        limits,
        ..fifo(capacity, 1)
    }
}

/// When records expire that do: nanoseconds since 1970, in November 2026. The lower 32 bits are 0, so that the moment
/// before it differs from it in all of them.
pub(crate) const EXPIRY: u64 = 418_000_000 << 32;

/// The last moment before that.
pub(crate) const BEFORE: u64 = EXPIRY - 1;

/// The properties of a record that expires.
pub(crate) fn expiring() -> CacheProperties {
    CacheProperties::default().with_expiry(Some(EXPIRY))
}

/// Puts 1, 2 and 3 in at the first moment, of which 2 expires.
pub(crate) fn put_three<H: Wait + Drop>(cache: &cache::Cache<H>) -> Outcome {
    drop(cache.insert(0, 1, 10)?);
    drop(cache.insert_with_properties(0, 2, 20, expiring())?);
    drop(cache.insert(0, 3, 30)?);
    Ok(())
}

/// With which number a call is refused, if it is.
pub(crate) fn number<X: Drop>(answered: Result<X>) -> Option<u8> {
    answered.err().map(|error| error.number())
}

/// The properties of a phantom record.
pub(crate) fn phantom() -> CacheProperties {
    CacheProperties::default().with_phantom(true)
}
