//! What the tests share: a cache's configuration, fresh sessions, and commands by their numbers.

use foyer_core::{
    AdmitAll, CacheCore, CacheProperties, Limits, RawCacheConfig, UnitWeighter, shard_capacity,
};
use foyer_policy::{Fault, Fifo, FifoConfig, ModHasher, Result, Source};
use foyer_session::{Command, End, NoPredicate, Session};
use std::alloc::{AllocError, Global};
use std::sync::Arc;
use std::test::Fail;

/// What a test, or a helper of one, ends with.
pub type Outcome<T = ()> = std::result::Result<T, Fail>;

pub type Plain = Command<u64, u64, CacheProperties, NoPredicate, FifoConfig>;

pub type Config = RawCacheConfig<FifoConfig, ModHasher, UnitWeighter, AdmitAll>;

pub type PlainSession = Session<Fifo, u64, u64, CacheProperties, ModHasher, UnitWeighter, AdmitAll>;

// A configuration whose number every record has in a reply, and whose limits long runs of commands reach.
pub fn config(capacity: usize, shards: usize) -> Config {
    RawCacheConfig {
        capacity,
        shards,
        eviction_config: FifoConfig {},
        hash_builder: ModHasher::default(),
        weighter: UnitWeighter,
        filter: AdmitAll,
        number: 3,
        limits: Limits {
            ids: 80,
            handles: 3,
        },
    }
}

// A session over the one shard of this number of a cache of this capacity with so many shards.
pub fn session(
    alloc: Global,
    capacity: usize,
    shards: usize,
    shard: usize,
) -> Result<PlainSession> {
    let capacity = shard_capacity(capacity, shards, shard);
    Ok(Session::new(alloc, CacheCore::new(alloc, config(capacity, 1))?))
}

pub fn insert(key: u64, value: u64) -> Plain {
    Command::Insert(0, key, value, CacheProperties::default())
}

fn fault(alloc: Global, code: u64) -> std::result::Result<Arc<Fault, Global>, AllocError> {
    let message = String::from_str(alloc, "refused")?;
    Ok(Arc::new(alloc, Fault { code, message })?)
}

// How many kinds of commands name no handle and no piece, and how many of these name a key.
const KINDS: u64 = 23;

const KEYED: u64 = 15;

fn kind(number: u64) -> u64 {
    (number >> 32) % KINDS
}

// Whether the command of a number names a key.
pub fn is_keyed(number: u64) -> bool {
    kind(number) < KEYED
}

// The command of a number, of this key where it names one, at some moment: each kind that names no handle and no
// piece.
pub fn command(alloc: Global, number: u64, key: u64) -> std::result::Result<Plain, AllocError> {
    let fetch = (number >> 50) % 4;
    let now = (number >> 40) % 4;
    let expires = match number % 3 {
        0 => Some((number >> 44) % 8),
        _ => None,
    };
    let properties = CacheProperties::default().with_expiry(expires);
    Ok(match kind(number) {
        0 | 1 | 2 => Command::Insert(now, key, number % 1000, properties),
        3 => Command::Get(now, key),
        4 => Command::Contains(now, key),
        5 => Command::Touch(now, key),
        6 => Command::Remove(key),
        7 => Command::GetOrFetch(now, key, None),
        8 => Command::GetOrFetch(now, key, Some(number % 1000)),
        9 => Command::Complete(
            now,
            key,
            fetch,
            End::Value(number % 1000, properties, Source::Outer),
        ),
        10 => Command::Fail(key, fetch, fault(alloc, number % 10)?),
        11 => Command::Cancel(key, fetch),
        12 => Command::FetchOrTake(key, fetch, None),
        13 => Command::FetchOrTake(key, fetch, Some(fault(alloc, number % 10)?)),
        14 => Command::IsOpen(key, fetch),
        15 => Command::Clear,
        16 => Command::EvictAll(now),
        17 => Command::FlushIf(NoPredicate),
        18 => Command::Resize(now, (number % 8) as usize),
        19 => Command::Reconfigure(FifoConfig {}),
        20 => Command::Capacity,
        21 => Command::Usage,
        _ => Command::Entries,
    })
}

pub fn next(number: u64) -> u64 {
    number
        .wrapping_mul(6364136223846793005)
        .wrapping_add(1442695040888963407)
}
