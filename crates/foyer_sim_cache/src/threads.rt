//! Threads that fill a cache which they share.

use crate::failure::Failure;
use foyer_memory::{Cache as CacheOf, CacheBuilder, EvictionConfig};
use foyer_policy::ModHasher;
use std::sync::Wait;
use std::thread::{self, Threads};

type Cache<H> = CacheOf<H, u64, u64, ModHasher>;

const THREADS: usize = 8;

// How many keys of its own a thread has.
const KEYS: u64 = 10_000;

const CAPACITY: usize = 256;

const SHARDS: usize = 4;

/// What is in a cache of this policy then, and prints it: as much as there is room for, whatever turns the threads took.
pub fn run<H: Wait + Threads + Send + Sync + Copy + Drop>(
    rt: &HostRuntime,
    handle: H,
    name: &str,
    config: EvictionConfig,
) -> Result<(), Failure> {
    let cache = CacheBuilder::new(CAPACITY)
        .with_shards(SHARDS)
        .with_eviction_config(config)
        .with_hash_builder(ModHasher::default())
        .build(handle, rt.alloc(), rt)?;
    let counts = thread::map_indices(
        &handle,
        rt.alloc(),
        THREADS,
        &|thread| fill(&cache, thread as u64),
    )?;
    let mut put = 0;
    for count in counts {
        put += count?;
    }
    println!(rt;
        "{name} put={put} usage={} entries={}",
        cache.usage(),
        cache.entries()
    )
    .map_err(Failure::Writing)
}

// Looks a thread's keys up, and puts in what is missing, which is each of them. How many were put in.
fn fill<H: Wait + Drop>(cache: &Cache<H>, thread: u64) -> Result<u64, Failure> {
    let mut put = 0;
    for key in KEYS * thread..KEYS * (thread + 1) {
        if cache.get(0, &key)?.is_none() {
            cache.insert(0, key, key)?;
            put += 1;
        }
    }
    Ok(put)
}
