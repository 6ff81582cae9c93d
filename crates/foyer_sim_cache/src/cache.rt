//! The types of the cache that the program drives.

use crate::fetch::Promise;
use crate::heard::Ear;
use foyer_core::{AdmitAll, CacheProperties};
use foyer_memory::{Cache, CacheEntry, FetchTask, GetOrFetch};
use foyer_policy::ModHasher;
use foyer_raw::{Direct, NoopPipe};
use foyer_session::{SimValue, SimWeighter};

/// A cache of the values that a program keeps, with keys as their own hashes.
pub type SimCache<H> = Cache<
    H,
    u64,
    SimValue,
    ModHasher,
    CacheProperties,
    SimWeighter,
    AdmitAll,
    Ear,
    NoopPipe<u64, SimValue>,
    Direct<Promise>,
>;

/// An entry of it.
pub type SimEntry<H> = CacheEntry<
    H,
    u64,
    SimValue,
    ModHasher,
    CacheProperties,
    SimWeighter,
    AdmitAll,
    Ear,
    NoopPipe<u64, SimValue>,
    Direct<Promise>,
>;

/// A look-up in it.
pub type SimLook<H> = GetOrFetch<
    H,
    u64,
    SimValue,
    ModHasher,
    CacheProperties,
    SimWeighter,
    AdmitAll,
    Ear,
    NoopPipe<u64, SimValue>,
    Direct<Promise>,
>;

/// A task of it.
pub type SimTask<H> = FetchTask<
    H,
    u64,
    SimValue,
    ModHasher,
    CacheProperties,
    SimWeighter,
    AdmitAll,
    Ear,
    NoopPipe<u64, SimValue>,
    Direct<Promise>,
>;
