//! A run over a core, in one thread: what is not found is put in.

use crate::failure::Failure;
use crate::moment::Moment;
use crate::progress::Progress;
use crate::report::Report;
use foyer_core::{
    AdmitAll, CacheCore, CacheProperties, CoreEntry, InsertedOnto, Leave, UnitWeighter,
};
use foyer_policy::{Eviction, HashBuilder, Result};
use std::alloc::Global;
use std::rt::Clock;
use std::time::{Duration, Instant};

/// A core of `u64` keys and values that weigh 1 each.
pub type Core<E, S> = CacheCore<E, u64, u64, CacheProperties, S, UnitWeighter, AdmitAll>;

// How many keys are looked up between two looks at the clock.
const PART: usize = 1 << 18;

/// Runs over the keys as `drive` does, and says how long it took.
pub fn run_core<R: Clock + Eprint, E: Eviction, S: HashBuilder>(
    rt: &R,
    alloc: Global,
    core: &mut Core<E, S>,
    keys: &[u64],
    first: Moment,
    progress: &mut Progress,
) -> std::result::Result<Report, Failure> {
    let mut moment = first;
    let mut hits = 0usize;
    let mut time = Duration::ZERO;
    let mut done = 0usize;
    for part in keys.chunks(PART) {
        let start = Instant::now(rt)?;
        let found = drive(alloc, core, part, &mut moment)?;
        time = time.saturating_add(start.elapsed(rt)?);
        hits = hits.saturating_add(found);
        done = done.saturating_add(part.len());
        progress.say(rt, done, keys.len());
    }
    progress.end(rt);
    Ok(Report {
        usage: core.usage(),
        ops: keys.len(),
        hits,
        nanos: u64::try_from(time.as_nanos()).unwrap_or(u64::MAX),
    })
}

/// Looks each key up, the first at the moment `next`, and puts in each that is not found, as its own value. Each entry
/// is given back at once. `next` becomes the moment after the last key's. Answers how many keys were found. Refused
/// where a key is: it and the keys after it are left out.
pub fn drive<E: Eviction, S: HashBuilder>(
    alloc: Global,
    core: &mut Core<E, S>,
    keys: &[u64],
    next: &mut Moment,
) -> Result<usize> {
    let mut hits = 0usize;
    let mut moment = *next;
    // One list of what leaves serves all inserts.
    let mut leaves = Vec::new(alloc);
    for key in keys {
        // No `?` here and below: it would copy each answer.
        let found = match look_up(core, moment, *key, &mut leaves) {
            Ok(found) => found,
            Err(error) => return Err(error),
        };
        if found {
            hits = hits.wrapping_add(1);
        }
        moment = moment.next();
    }
    *next = moment;
    Ok(hits)
}

// Looks a key up, and puts it in where it is not found. Answers whether it was.
#[inline]
fn look_up<E: Eviction, S: HashBuilder>(
    core: &mut Core<E, S>,
    moment: Moment,
    key: u64,
    leaves: &mut Vec<Leave<u64, u64, CacheProperties>>,
) -> Result<bool> {
    match core.get(moment.now(), &key) {
        Ok(Some(entry)) => {
            end(core, entry);
            Ok(true)
        }
        Ok(None) => match put_in(core, moment, key, leaves) {
            Ok(()) => Ok(false),
            Err(error) => Err(error),
        },
        Err(error) => Err(error),
    }
}

// Puts a key in, as its own value.
#[inline]
fn put_in<E: Eviction, S: HashBuilder>(
    core: &mut Core<E, S>,
    moment: Moment,
    key: u64,
    leaves: &mut Vec<Leave<u64, u64, CacheProperties>>,
) -> Result<()> {
    let properties = CacheProperties::default().with_expiry(moment.expiry());
    match core.insert_with_properties_onto(moment.now(), key, key, properties, leaves) {
        Ok(made) => {
            let InsertedOnto { entry, answers } = made;
            core.drop_answers(answers);
            end(core, entry);
            leaves.clear();
            Ok(())
        }
        Err(error) => Err(error),
    }
}

// Gives an entry back, which is the core's.
#[inline(always)]
fn end<E: Eviction, S: HashBuilder>(
    core: &mut Core<E, S>,
    entry: CoreEntry<u64, u64, CacheProperties>,
) {
    match core.give_back(entry) {
        Ok(_) => {}
        Err(entry) => entry.discard(),
    }
}

#[cfg(test)]
mod tests;
