//! A cache, what its user holds of it, and the lines that are carried out over it.

use crate::cache::{SimCache, SimEntry, SimLook, SimTask};
use crate::failure::Failure;
use crate::fetch::Promise;
use crate::heard::{Ear, Heard};
use crate::told::{Told, write_rest, write_told};
use foyer_core::CacheProperties;
use foyer_memory::{CacheBuilder, EvictionConfig, LruConfig, Stats};
use foyer_policy::{ModHasher, Properties};
use foyer_session::text::Line;
use foyer_session::{Answer, SimValue, SimWeighter};
use std::io;
use std::io::Write;
use std::sync::Wait;

mod fetches;

/// One who waits for a key.
#[derive(Drop)]
struct Waiting<H: Wait + Drop> {
    key: u64,
    token: u64,
    look: SimLook<H>,
}

/// The task of a fetch that no line has ended. Where an insert has answered those who waited, it is overtaken.
#[derive(Drop)]
struct Fetch<H: Wait + Drop> {
    key: u64,
    number: u64,
    promise: Promise,
    task: SimTask<H>,
}

/// The numbers that a shard gives next.
#[derive(Clone, Copy, Debug, Default)]
struct Next {
    token: u64,
    fetch: u64,
}

impl Next {
    fn new_token(&mut self) -> u64 {
        self.token += 1;
        self.token - 1
    }

    fn new_fetch(&mut self) -> u64 {
        self.fetch += 1;
        self.fetch - 1
    }
}

/// A cache of a policy, and what its user holds of it: entries by the numbers of their handles, look-ups that wait, and
/// tasks.
#[derive(Drop)]
pub struct Runner<H: Wait + Drop> {
    rt: HostRuntime,
    cache: SimCache<H>,
    heard: Heard,
    handles: Vec<Option<SimEntry<H>>>,
    waiting: Vec<Waiting<H>>,
    fetches: Vec<Fetch<H>>,
    // Of each shard.
    next: Vec<Next>,
    // The moment of the lines.
    now: u64,
}

impl<H: Wait + Drop> Runner<H> {
    /// An empty cache, with a handle that may wait.
    pub fn new(
        rt: HostRuntime,
        handle: H,
        capacity: usize,
        shards: usize,
        config: EvictionConfig,
    ) -> Result<Self, Failure> {
        let alloc = rt.alloc();
        let heard = Heard::new(alloc)?;
        let no_log: Option<HostRuntime> = None;
        let cache = CacheBuilder::new(capacity)
            .with_shards(shards)
            .with_eviction_config(config)
            .with_hash_builder(ModHasher::default())
            .with_weighter(SimWeighter)
            .with_event_listener(Ear(heard.share()?))
            .build(handle, alloc, &no_log)?;
        Ok(Runner {
            rt,
            cache,
            heard,
            handles: Vec::new(alloc),
            waiting: Vec::new(alloc),
            fetches: Vec::new(alloc),
            next: vec![in alloc; Next::default(); shards]?,
            now: 0,
        })
    }

    /// Carries out a line at the moment that the last `at` set. A line without words is none. A fetch ends at the moment at
    /// which it was led.
    pub fn carry_out(&mut self, line: Line) -> Result<Option<Told>, Failure> {
        let plain = CacheProperties::default();
        let now = self.now;
        Ok(Some(match line {
            Line::Blank => return Ok(None),
            Line::Bad => Told::NoLine,
            Line::Insert {
                key,
                value,
                weight,
                expires,
            } => self.insert(key, SimValue { value, weight }, plain.with_expiry(expires))?,
            Line::Phantom { key, value, weight } => {
                self.insert(key, SimValue { value, weight }, plain.with_phantom(true))?
            }
            Line::Get(key) => self.found(self.cache.get(now, &key))?,
            Line::Contains(key) => Told::says(self.cache.contains(now, &key)),
            Line::Touch(key) => match self.cache.touch(now, &key) {
                Ok(is_found) => Told::says(is_found),
                Err(error) => Told::refused(error),
            },
            Line::Remove(key) => self.found(self.cache.remove(&key))?,
            Line::Drop(number) => self.give_back(number),
            Line::Clear => Told::done(self.cache.clear()),
            Line::Evict => Told::done(self.cache.evict_all(now)),
            Line::Resize(capacity) => Told::done(self.cache.resize(now, capacity)),
            Line::High(ratio) => {
                let config = LruConfig {
                    high_priority_pool_ratio: ratio,
                };
                Told::done(self.cache.reconfigure(EvictionConfig::from(config)))
            }
            Line::Fetch(key) => self.fetch(key)?,
            Line::At(moment) => {
                self.now = moment;
                Told::Plain(Answer::Done)
            }
            Line::Done { key, fetch, value } => self.end(key, fetch, Some(value))?,
            Line::Cancel { key, fetch } => self.end(key, fetch, None)?,
        }))
    }

    /// Writes the reply to the last line, what has left since the one before, and the usage and the entries.
    pub fn write<W: Write>(&self, writer: &mut W, told: &Told) -> io::Result<()> {
        let leaves = self.heard.take(self.rt.alloc());
        write_told(writer, told)?;
        write_rest(
            writer,
            leaves.as_slice(),
            self.cache.usage(),
            self.cache.entries(),
        )
    }

    /// What the cache has counted.
    pub fn stats(&self) -> Stats {
        self.cache.stats()
    }

    // Puts a value in. Those who waited for the key get their handles first.
    fn insert(
        &mut self,
        key: u64,
        value: SimValue,
        properties: CacheProperties,
    ) -> Result<Told, Failure> {
        let entry = match self
            .cache
            .insert_with_properties(self.now, key, value, properties)
        {
            Ok(entry) => entry,
            Err(error) => return Ok(Told::refused(error)),
        };
        let answers = self.answers(key)?;
        let handle = self.hold(entry)?;
        Ok(Told::Entry { handle, answers })
    }

    // Holds what was found, if something was.
    fn found(&mut self, found: foyer_policy::Result<Option<SimEntry<H>>>) -> Result<Told, Failure> {
        let entry = match found {
            Ok(Some(entry)) => entry,
            Ok(None) => return Ok(Told::Plain(Answer::Missing)),
            Err(error) => return Ok(Told::refused(error)),
        };
        let value = entry.value().value;
        let handle = self.hold(entry)?;
        Ok(Told::Found { handle, value })
    }

    // Holds an entry, and answers the number of its handle.
    fn hold(&mut self, entry: SimEntry<H>) -> Result<u64, Failure> {
        let number = self.handles.len() as u64;
        self.handles.push(Some(entry))?;
        Ok(number)
    }

    // What the shard of a key numbers next.
    fn next_of(&mut self, key: u64) -> &mut Next {
        let shards = self.next.len() as u64;
        &mut self.next[(key % shards) as usize]
    }

    // Drops the entry of a handle of this number.
    fn give_back(&mut self, number: u64) -> Told {
        let held = usize::try_from(number)
            .ok()
            .and_then(|place| self.handles.get_mut(place));
        match held.and_then(|entry| entry.take()) {
            Some(entry) => {
                drop(entry);
                Told::Plain(Answer::Done)
            }
            None => Told::Plain(Answer::NotHeld),
        }
    }
}
