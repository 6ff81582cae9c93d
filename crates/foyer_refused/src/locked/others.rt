//! A new cache behind locks, its end, and inserts: behind a refused resize, and without an id.

use super::Runtime;
use super::caches::{Locked, Shared, builder, empty, look, prepared};
use super::call::Call;
use super::notes::{Note, Notes};
use crate::cores::weighing;
use crate::kept::{Filled, ROOMY, SHARDED};
use crate::word::Shown;
use foyer_core::Limits;
use foyer_policy::{Event, EvictionConfig, Result};

/// Shows the call of this name, where it is one of these.
pub fn shown<H: Runtime>(rt: H, config: &EvictionConfig, name: &str) -> Option<Shown> {
    match name {
        "locked_new_1" => Some(opened(rt, config, 1)),
        "locked_new_4" => Some(opened(rt, config, 4)),
        "locked_resize_then_insert" => Some(resized(rt, config)),
        "locked_drop" => Some(dropped(rt, config)),
        "locked_insert_without_ids" => Some(without_ids(rt, config)),
        _ => None,
    }
}

// A new cache. Nothing is left of one that was refused.
fn opened<H: Runtime>(rt: H, config: &EvictionConfig, shards: usize) -> Shown {
    let filled = Filled {
        shards,
        capacity: 10,
        ..SHARDED
    };
    let Ok(notes) = Notes::new(rt.alloc()) else {
        return Shown::Early;
    };
    let made = empty(rt, config, filled, 0, &notes);
    let is_refused = matches!(&made, Err(error) if error.number() == 7);
    let made = if is_refused {
        empty(rt, config, filled, 0, &notes)
    } else {
        made
    };
    match is_sound(&made, shards) {
        true if is_refused => Shown::Kept,
        true => Shown::Done.or_behind(rt.alloc()),
        false => Shown::Wrong("the new cache"),
    }
}

fn is_sound<H: Runtime>(made: &Result<Shared<H>>, shards: usize) -> bool {
    match made {
        Ok(cache) => cache.shards() == shards && cache.capacity() == 10 && cache.entries() == 0,
        Err(_) => false,
    }
}

// A resize that is refused has set the capacities of all shards: an insert into the last one evicts what is over.
fn resized<H: Runtime>(rt: H, config: &EvictionConfig) -> Shown {
    let Ok(locked) = prepared(rt, config, SHARDED, Call::Resize(4)) else {
        return Shown::Early;
    };
    match locked.cache.resize(0, 4) {
        Ok(()) => return Shown::Done.or_behind(rt.alloc()),
        Err(error) if error.number() != 7 => return Shown::Wrong("another refusal"),
        Err(_) => {}
    }
    let before = look(&locked.cache);
    let left = locked.notes.len();
    let Ok(made) = locked.cache.insert(0, 51, weighing(1)) else {
        return Shown::Wrong("the insert behind a resize");
    };
    let mut wanted = before.with(51, 1);
    let mut place = left;
    for key in [3, 7, 11] {
        if before != before.without_key(key) {
            wanted = wanted.without_key(key);
            let told = locked.notes.at(place) == Some(Note::Left(Event::Evict, key));
            if !told || locked.notes.at(place + 1) != Some(Note::Piece(key)) {
                return Shown::Wrong("what is told of the insert behind a resize");
            }
            place += 2;
        }
    }
    if look(&locked.cache) == wanted && locked.notes.len() == place && made.refs() == 1 {
        return Shown::Kept;
    }
    Shown::Wrong("the cache after the insert behind a resize")
}

// The last owner's drop tells each record that is in once, whether there is memory for their order or not.
fn dropped<H: Runtime>(rt: H, config: &EvictionConfig) -> Shown {
    let Ok(locked) = prepared(rt, config, SHARDED, Call::Clear) else {
        return Shown::Early;
    };
    let Locked {
        cache,
        notes,
        held,
        ..
    } = locked;
    drop(held);
    drop(cache);
    let mut keys = 0u64;
    for place in 0..notes.len() {
        match notes.at(place) {
            Some(Note::Left(Event::Clear, key)) => keys |= 1 << (key % 64),
            _ => return Shown::Wrong("another leave"),
        }
    }
    if notes.len() == 12 && keys == 0xfff {
        return Shown::Done.or_behind(rt.alloc());
    }
    Shown::Wrong("who is told")
}

// An insert for which no id is left is refused for that, also where there is no memory for its record.
fn without_ids<H: Runtime>(rt: H, config: &EvictionConfig) -> Shown {
    let Ok(cache) = cache_without_ids(rt, config) else {
        return Shown::Early;
    };
    match cache.insert(0, 1, weighing(1)) {
        Err(error) if error.number() == 10 => Shown::Done,
        _ => Shown::Wrong("the refusal of an insert without an id"),
    }
}

fn cache_without_ids<H: Runtime>(rt: H, config: &EvictionConfig) -> Result<Shared<H>> {
    let limits = Limits {
        ids: 0,
        ..Limits::default()
    };
    builder(config, ROOMY, &Notes::new(rt.alloc())?)?
        .with_limits(limits)
        .build(rt, rt.alloc(), &rt)
}
