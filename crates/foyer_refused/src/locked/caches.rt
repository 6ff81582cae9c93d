//! Caches behind locks, and what they hold before a call.

use super::Runtime;
use super::call::Call;
use super::notes::{Ear, Notes, Tube};
use crate::call::Kept;
use crate::cores::{FETCHED, Look, weighing};
use crate::kept::Filled;
use foyer_core::{AdmitAll, CacheProperties, FetchTarget};
use foyer_memory::{Cache, CacheBuilder, CacheEntry, FetchTask, GetOrFetch};
use foyer_policy::{EvictionConfig, Fault, ModHasher, Result};
use foyer_raw::{Direct, ListSpawner};
use foyer_session::{SimValue, SimWeighter};
use futures::future::{Ready, ready};
use std::sync::Arc;

/// A fetch that is ready at once.
pub type Fetch = Ready<std::result::Result<FetchTarget<u64, SimValue, CacheProperties>, Fault>>;

/// A cache that writes down what it tells.
pub type Shared<H> = Cache<
    H,
    u64,
    SimValue,
    ModHasher,
    CacheProperties,
    SimWeighter,
    AdmitAll,
    Ear,
    Tube,
    Direct<Fetch>,
>;

/// A builder of it.
pub type Builder = CacheBuilder<u64, SimValue, ModHasher, SimWeighter, AdmitAll, Ear>;

/// An entry of it.
pub type Entry<H> = CacheEntry<
    H,
    u64,
    SimValue,
    ModHasher,
    CacheProperties,
    SimWeighter,
    AdmitAll,
    Ear,
    Tube,
    Direct<Fetch>,
>;

/// A look-up in it.
pub type Search<H> = GetOrFetch<
    H,
    u64,
    SimValue,
    ModHasher,
    CacheProperties,
    SimWeighter,
    AdmitAll,
    Ear,
    Tube,
    Direct<Fetch>,
>;

/// Its tasks.
pub type Tasks<H> = ListSpawner<
    FetchTask<
        H,
        u64,
        SimValue,
        ModHasher,
        CacheProperties,
        SimWeighter,
        AdmitAll,
        Ear,
        Tube,
        Direct<Fetch>,
    >,
>;

/// A cache, what it told, and who has hold of something of it.
#[derive(Drop)]
pub struct Locked<H: Runtime> {
    pub rt: H,
    pub cache: Shared<H>,
    pub notes: Notes,
    /// An entry of the key 5 in one shard, and of 11 in more.
    pub held: Option<Entry<H>>,
    /// Two who wait for `FETCHED`.
    pub waits: Option<(Search<H>, Search<H>)>,
    pub tasks: Tasks<H>,
    /// What an insert or a fetch of a piece puts in.
    pub piece: Option<Kept>,
    /// The configuration of its policy.
    pub config: EvictionConfig,
}

/// A builder of an empty cache that writes to these notes.
pub fn builder(config: &EvictionConfig, filled: Filled, notes: &Notes) -> Result<Builder> {
    Ok(
        CacheBuilder::new(filled.capacity)
            .with_shards(filled.shards)
            .with_eviction_config(config.clone()?)
            .with_hash_builder(ModHasher::default())
            .with_weighter(SimWeighter)
            .with_event_listener(Ear(notes.share()?)),
    )
}

/// A cache that holds nothing and has no pipe yet.
pub fn empty<H: Runtime>(
    rt: H,
    config: &EvictionConfig,
    filled: Filled,
    number: u64,
    notes: &Notes,
) -> Result<Shared<H>> {
    builder(config, filled, notes)?
        .with_number(number)
        .build(rt, rt.alloc(), &rt)
}

/// How a cache looks from outside. Whether a fetch is open does not show.
pub fn look<H: Runtime>(cache: &Shared<H>) -> Look {
    Look::seen(
        cache.usage(),
        cache.entries(),
        cache.capacity(),
        &|key| cache.contains(0, key),
    )
}

/// A cache with a pipe before a call. In one shard the key 5 was used.
pub fn prepared<H: Runtime>(
    rt: H,
    config: &EvictionConfig,
    filled: Filled,
    call: Call,
) -> Result<Locked<H>> {
    let notes = Notes::new(rt.alloc())?;
    let pipe = Arc::new(rt.alloc(), Tube(notes.share()?))?;
    let cache = empty(rt, config, filled, 0, &notes)?.with_pipe(pipe);
    let kept = if filled.shards == 1 { 5 } else { 11 };
    let mut held = None;
    for key in 0..filled.records {
        let entry = cache.insert(0, key, weighing(1))?;
        if key == kept {
            held = Some(entry);
        }
    }
    if filled.shards == 1 {
        let _ = cache.touch(0, &5)?;
    }
    let mut locked = Locked {
        rt,
        cache,
        notes,
        held,
        waits: None,
        tasks: ListSpawner::new(rt.alloc()),
        piece: None,
        config: config.clone()?,
    };
    if let Call::Piece(key) | Call::CompletePiece(key) = call {
        locked.piece = locked.piece_of(filled, key)?;
    }
    if filled.waits {
        locked.ask_twice(call)?;
    }
    locked.notes.forget();
    Ok(locked)
}

impl<H: Runtime> Locked<H> {
    /// Two ask for `FETCHED`, whose fetch gives a piece where there is one, and else a value, or fails where that is the
    /// call.
    pub fn ask_twice(&mut self, call: Call) -> Result<()> {
        let first = self.ask(&FETCHED, call)?;
        let second = self.ask(&FETCHED, call)?;
        self.waits = Some((first, second));
        Ok(())
    }

    /// One asks for a key.
    pub fn ask(&mut self, key: &u64, call: Call) -> Result<Search<H>> {
        let fetched = match (call, &self.piece) {
            (Call::Fail, _) => Err(Fault {
                code: 5,
                message: String::new(self.rt.alloc()),
            }),
            (_, Some(piece)) => Ok(FetchTarget::Piece(piece.clone()?)),
            _ => Ok(FetchTarget::Entry {
                value: weighing(4),
                properties: CacheProperties::default(),
            }),
        };
        let Locked { cache, tasks, .. } = self;
        cache.get_or_fetch(0, key, || ready(fetched), tasks)
    }

    // A piece of a record that is in, of one that left, or of another cache's, as the key is below 10, below 20, or
    // above. Where one left a full cache, the cache is full without it.
    fn piece_of(&self, filled: Filled, key: u64) -> Result<Option<Kept>> {
        if key >= 20 {
            let other = empty(self.rt, &self.config, filled, 1, &self.notes)?;
            let piece = other.insert(0, key, weighing(1))?.piece()?;
            other.clear()?;
            return Ok(Some(piece));
        }
        let found = if key < 10 {
            self.cache.get(0, &key)?
        } else {
            self.cache.remove(&key)?
        };
        if key >= 10 && filled.capacity == 12 {
            self.cache.resize(0, 11)?;
        }
        match found {
            Some(entry) => Ok(Some(entry.piece()?)),
            None => Ok(None),
        }
    }

    /// Whether the held entry has the only handle of its record, where one is held.
    pub fn is_held_once(&self) -> bool {
        match &self.held {
            Some(held) => held.refs() == 1,
            None => true,
        }
    }

    /// Whether no handle is counted of any record that is in.
    pub fn is_free(&self) -> bool {
        (0..64u64).all(|key| match self.cache.get(0, &key) {
            Ok(Some(entry)) => entry.refs() == 1,
            Ok(None) => true,
            Err(_) => false,
        })
    }
}
