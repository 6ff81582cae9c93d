//! The shards of a cache, each under a lock of its own.

ghost use Rattle.std.specs.Prelude.{◌≡◌, ◌<◌, IfErr, IfOk, vec_len};
ghost use Rattle.foyer_policy.specs.declared.error.Reason.TheVariants.{NoMemory};

use crate::counted::{Capacity, CountedShard, RawShard};
use foyer_core::{Finder, shard_of};
use foyer_policy::{Error, Event, EventListener, Eviction, Key, Properties, Result, Value};
use std::alloc::Global;
use std::hint::spin_loop;
use std::sync::{Mutex, MutexGuard, Wait};

mod bulk;

// How often a thread looks whether a lock is free, before it sleeps.
const LOOKS: u32 = 100;

/// The shards of a cache. Each call locks one shard, makes one step, and unlocks, or does so with each in turn.
#[derive(Drop)]
pub(crate) struct Shards<H, E, K, V, P, R, I>
where
    H: Drop,
    E: Eviction,
    K: Key,
    V: Value,
    P: Properties,
    R: Drop,
    I: Finder<K>,
{
    pub(crate) rt: H,
    all: Vec<Mutex<CountedShard<E, K, V, P, R, I>>>,
    // The capacity, under the lock that orders changes of all shards.
    capacity: Mutex<Capacity>,
    pub(crate) alloc: Global,
    ghost some: { 0 < vec_len all },
}

impl<H, E, K, V, P, R, I> Shards<H, E, K, V, P, R, I>
where
    H: Drop,
    E: Eviction,
    K: Key,
    V: Value,
    P: Properties,
    R: Drop,
    I: Finder<K>,
{
    // These shards, which share a capacity. Only memory can be missing (F7).
    pub(crate) fn new(
        rt: H,
        alloc: Global,
        made: Vec<RawShard<E, K, V, P, R, I>>,
        capacity: Capacity,
    ) -> Result<Self>
        requires { 0 < vec_len made }
        ensures { IfErr result (λ e. e ≡ NoMemory) }
    {
        Ok(Shards {
            rt,
            all: locked(alloc, made)?,
            capacity: Mutex::new(capacity),
            alloc,
        })
    }

    // How many there are.
    pub(crate) fn len(&self) -> usize
        ensures { result ≡ vec_len self.now.all }
    {
        self.all.len()
    }

    // Tells a listener all records that are still in, as `Clear`: shard by shard, in each policy's order, or where there is
    // no memory for that order, in the order of slots.
    pub(crate) fn finish<L: EventListener<Key = K, Value = V>>(self, listener: &L) {
        let Shards { all, .. } = self;
        for shard in all {
            let shard = shard.into_inner().into_shard();
            shard.finish(&|key: &K, value: &V| listener.on_leave(Event::Clear, key, value));
        }
    }
}

impl<H, E, K, V, P, R, I> Shards<H, E, K, V, P, R, I>
where
    H: Wait + Drop,
    E: Eviction,
    K: Key,
    V: Value,
    P: Properties,
    R: Drop,
    I: Finder<K>,
{
    // The place of the shard in which the keys of a hash live.
    #[inline(always)]
    pub(crate) fn index_of(&self, hash: u64) -> usize
        ensures { result < vec_len self.now.all }
    {
        shard_of(hash, self.all.len())
    }

    // The shard of a hash, locked. A lock that is free is had without waiting.
    #[inline(always)]
    pub(crate) fn lock(&self, hash: u64) -> MutexGuard<'_, CountedShard<E, K, V, P, R, I>> {
        let place = self.index_of(hash);
        match self.all[place].try_lock() {
            Some(shard) => shard,
            None => self.wait_for(place),
        }
    }

    // Refuses an insert for which memory ran out.
    #[cold]
    #[inline(never)]
    pub(crate) fn refuse_insert(&self, hash: u64, key: &K, properties: &P, weight: usize) -> Error {
        self.lock(hash).refuse_insert(hash, key, properties, weight)
    }

    // A shard whose lock was held, locked. A step of a shard is short, and mostly ends before a thread would be asleep: so
    // the thread looks for a while first.
    #[cold]
    #[inline(never)]
    fn wait_for(&self, place: usize) -> MutexGuard<'_, CountedShard<E, K, V, P, R, I>>
        requires { place < vec_len self.now.all }
    {
        let shard = &self.all[place];
        for _look in 0..LOOKS {
            spin_loop();
            if let Some(guard) = shard.try_lock() {
                return guard;
            }
        }
        shard.lock(&self.rt)
    }
}

// Each shard under a lock of its own.
fn locked<E: Eviction, K: Key, V: Value, P: Properties, R: Drop, I: Finder<K>>(
    alloc: Global,
    made: Vec<RawShard<E, K, V, P, R, I>>,
) -> Result<Vec<Mutex<CountedShard<E, K, V, P, R, I>>>>
    ensures len { IfOk result (λ all. vec_len all ≡ vec_len made) }
    ensures memory { IfErr result (λ e. e ≡ NoMemory) }
{
    let mut all = Vec::new(alloc);
    for shard in made {
        all.push(Mutex::new(CountedShard::new(alloc, shard)))?;
    }
    Ok(all)
}
