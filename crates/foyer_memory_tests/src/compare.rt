//! A cache beside a core of one thread: random calls at random moments, which both answer alike.

use crate::testing::{Cache, Entry, Outcome, Target, at_once, finish};
use foyer_core::{Answers, CacheCore, CoreEntry, Ended, Inserted, Leave, Lookup};
use foyer_memory::{CacheProperties, Eviction, FetchTarget};
use foyer_policy::{ModHasher, Properties, Source};
use foyer_raw::ListSpawner;
use foyer_raw_tests::notes::{Note, Notes};
use futures::future::ready;
use std::alloc::Global;
use std::random::RandomSource;
use std::sync::Wait;

mod conditional;
mod no_entry;
mod runs;

type One<E> = CacheCore<E, u32, u64, CacheProperties, ModHasher>;

type Handle = CoreEntry<u32, u64, CacheProperties>;

/// A handle of the core, which is discarded where it is not given back.
struct Kept(Option<Handle>);

impl Drop for Kept {
    fn drop(self) {
        let Kept(handle) = self;
        if let Some(handle) = handle {
            handle.discard();
        }
    }
}

/// A cache and a core over the same records, and what both told.
#[derive(Drop)]
struct Both<H: Wait + Drop, E: Eviction> {
    cache: Cache<H>,
    core: One<E>,
    heard: Notes,
    left: Vec<Note>,
    held: Vec<(Entry<H>, Kept)>,
    // The moment of the next call.
    now: u64,
}

// The properties of a record with this value, which is the number of the call that puts it in: of two records one expires,
// some calls later, and of seven one is a phantom.
fn properties(value: u64) -> CacheProperties {
    let expires = (value % 2 == 1).then(|| value / 4 + 4 + value % 8);
    CacheProperties::default()
        .with_expiry(expires)
        .with_phantom(value % 7 == 3)
}

// What a fetch of this value gives.
fn target(value: u64) -> Target {
    FetchTarget::Entry {
        value,
        properties: properties(value),
    }
}

// The handles of the first two who get one.
fn two_of(answers: Answers<u32, u64, CacheProperties, ()>) -> (Kept, Kept) {
    let (_, handles) = answers.into_parts();
    let Ok(mut handles) = handles else {
        return (Kept(None), Kept(None));
    };
    let second = Kept(handles.pop());
    let first = Kept(handles.pop());
    discard_all(handles);
    (first, second)
}

// Handles that are not given back.
fn discard_all(mut handles: Vec<Handle>) {
    while let Some(handle) = handles.pop() {
        handle.discard();
    }
    handles.destroy_empty();
}

impl<H: Wait + RandomSource + Alloc<A = Global> + Copy + Drop + 'static, E: Eviction> Both<H, E> {
    // What the core handed out.
    fn note(&mut self, leaves: Vec<Leave<u32, u64, CacheProperties>>) -> Outcome {
        for (event, left) in leaves.as_slice() {
            self.left.push(Note::of(*event, left.key(), left.value()))?;
        }
        Ok(())
    }

    // Holds an entry of each, whether they are of the same record, and gives the oldest back where there are nine.
    fn hold(&mut self, entry: Entry<H>, kept: Kept) -> Outcome<bool> {
        let same = match &kept.0 {
            Some(handle) => {
                *entry.key() == *handle.key()
                    && *entry.value() == *handle.value()
                    && entry.source() == handle.source()
            }
            None => false,
        };
        self.held.push((entry, kept))?;
        if self.held.len() > 8 {
            let (entry, kept) = self.held.remove(0);
            drop(entry);
            self.give_back(kept)?;
        }
        Ok(same)
    }

    // Gives a handle of the core back.
    fn give_back(&mut self, mut kept: Kept) -> Outcome {
        let Some(handle) = kept.0.take() else {
            return Ok(());
        };
        if let Some((event, left)) = self.core.drop_entry(handle) {
            self.left.push(Note::of(event, left.key(), left.value()))?;
        }
        Ok(())
    }

    // The same of two that may be missing, but both or none.
    fn hold_found(&mut self, entry: Option<Entry<H>>, kept: Kept) -> Outcome<bool> {
        match entry {
            Some(entry) => self.hold(entry, kept),
            None => Ok(kept.0.is_none()),
        }
    }

    // An insert.
    fn insert(&mut self, key: u32, value: u64) -> Outcome<bool> {
        let entry = self
            .cache
            .insert_with_properties(self.now, key, value, properties(value))?;
        let made = self
            .core
            .insert_with_properties(self.now, key, value, properties(value));
        let (kept, leaves) = match made {
            Ok(
                Inserted {
                    entry,
                    answers,
                    leaves,
                },
            ) => {
                self.core.drop_answers(answers);
                (Kept(Some(entry)), leaves)
            }
            Err(refused) => (Kept(None), refused.leaves),
        };
        self.note(leaves)?;
        self.hold(entry, kept)
    }

    // A remove.
    fn remove(&mut self, key: u32) -> Outcome<bool> {
        let entry = self.cache.remove(&key)?;
        match self.core.remove(&key)? {
            Some((handle, left)) => {
                let kept = Kept(Some(handle));
                self.left.push(Note::Remove(*left.key(), *left.value()))?;
                self.hold_found(entry, kept)
            }
            None => Ok(entry.is_none()),
        }
    }

    // Two look-ups that fetch, and the fetch.
    fn fetch(&mut self, rt: H, key: u32, value: u64) -> Outcome<bool> {
        let mut spawner = ListSpawner::new(rt.alloc());
        let fetch = || ready(Ok(target(value)));
        let first = self
            .cache
            .get_or_fetch(self.now, &key, fetch, &mut spawner)?;
        let second = self
            .cache
            .get_or_fetch(self.now, &key, fetch, &mut spawner)?;
        finish(&rt, spawner)?;
        let (first, second) = (at_once(&rt, first)??, at_once(&rt, second)??);
        let (fetch, lead) = self.ask(key)?;
        let (_, next) = self.ask(key)?;
        let (one, other) = match fetch {
            Some(fetch) => self.complete(key, fetch, value)?,
            None => (lead, next),
        };
        Ok(self.hold(first, one)? && self.hold(second, other)?)
    }

    // Ends the core's fetch, and answers the handles of the two who wait for it.
    fn complete(&mut self, key: u32, fetch: u64, value: u64) -> Outcome<(Kept, Kept)> {
        let Ended {
            found: _,
            answers,
            leaves,
        } = self
            .core
            .complete(self.now, &key, fetch, target(value), Source::Outer);
        let two = two_of(answers);
        self.note(leaves)?;
        Ok(two)
    }

    // What the core answers who asks for a key: the fetch that is to be led, or a handle.
    fn ask(&mut self, key: u32) -> Outcome<(Option<u64>, Kept)> {
        match self.core.get_or_enqueue(self.now, &key, None, ())? {
            Lookup::Hit(handle) => Ok((None, Kept(Some(handle)))),
            Lookup::Lead {
                fetch,
                token: _,
                required: _,
            } => Ok((Some(fetch), Kept(None))),
            Lookup::Wait { token: _ } => Ok((None, Kept(None))),
        }
    }

    // One call, picked by a number; whether both answered alike.
    fn step(&mut self, rt: H, pick: u64, key: u32, value: u64) -> Outcome<bool> {
        let now = self.now;
        match pick {
            0 | 1 => self.insert(key, value),
            2 => {
                let entry = self.cache.get(now, &key)?;
                let kept = Kept(self.core.get(now, &key)?);
                self.hold_found(entry, kept)
            }
            3 => Ok(self.cache.touch(now, &key)? == self.core.touch(now, &key)?),
            4 => Ok(self.cache.contains(now, &key) == self.core.contains(now, &key)),
            5 => self.remove(key),
            6 | 7 => self.fetch(rt, key, value),
            8..=15 => self.without_entry(pick, key, value),
            _ => self.conditional(pick, key, value),
        }
    }

    // Whether both have the same sums and counts, and told the same leaves since the last step.
    fn agree(&mut self) -> bool {
        for (entry, kept) in self.held.as_slice() {
            if let Some(handle) = &kept.0 {
                if !self.core.owns(handle) || entry.refs() != self.core.refs(handle) {
                    return false;
                }
            }
        }
        let same = self.heard.are(self.left.as_slice());
        self.heard.forget();
        self.left.clear();
        same && self.cache.usage() == self.core.usage()
            && self.cache.entries() == self.core.entries()
    }
}
