//! Calls on an entry and on a core that change nothing.

use super::waited;
use crate::cores::{Core, Look};
use crate::word::Shown;
use foyer_core::{CacheProperties, CoreEntry};
use foyer_policy::EvictionConfig;
use foyer_session::SimValue;
use std::alloc::Global;

type Entry = CoreEntry<u64, SimValue, CacheProperties>;

/// A call on an entry of the key 5, which changes nothing, and the end of the entry.
pub fn asked(alloc: Global, config: &EvictionConfig, name: &str) -> Shown {
    let Ok(mut core) = waited(alloc, config) else {
        return Shown::Early;
    };
    let Ok(Some(entry)) = core.get(0, &5) else {
        return Shown::Wrong("a look-up");
    };
    let before = Look::of(&core);
    let shown = match name {
        "clone_handle" => cloned(&mut core, &entry),
        "piece" => taken(&core, &entry),
        "sums" => same_sums(&core),
        _ => looked(&core, &entry),
    };
    drop(core.drop_entry(entry));
    if Look::of(&core) != before {
        return Shown::Wrong("the core after the call");
    }
    shown
}

// A clone of an entry, which never wants memory.
fn cloned(core: &mut Core, entry: &Entry) -> Shown {
    if !core.owns(entry) {
        return Shown::Wrong("the entry isn't owned");
    }
    let Ok(clone) = core.clone_handle(entry) else {
        return Shown::Wrong("a clone is refused");
    };
    let id = clone.id();
    drop(core.drop_entry(clone));
    if id == 5 {
        return Shown::Done;
    }
    Shown::Wrong("the clone")
}

// A piece of an entry's record, and a clone of that.
fn taken(core: &Core, entry: &Entry) -> Shown {
    let Ok(piece) = entry.piece() else {
        return match entry.piece() {
            Ok(_) if core.owns(entry) => Shown::Kept,
            _ => Shown::Wrong("a piece is refused twice"),
        };
    };
    match piece.clone() {
        Ok(clone) if *clone.key() == 5 => Shown::Done,
        Ok(_) => Shown::Wrong("the piece"),
        Err(_) if piece.clone().is_ok() => Shown::Kept,
        Err(_) => Shown::Wrong("a clone is refused twice"),
    }
}

// What is asked of an entry that the core owns.
fn looked(core: &Core, entry: &Entry) -> Shown {
    if !core.owns(entry) {
        return Shown::Wrong("the entry isn't owned");
    }
    if core.refs(entry) == 1 && !core.is_outdated(entry) {
        return Shown::Done;
    }
    Shown::Wrong("what is asked of an entry")
}

// The sums and the hash of a key.
fn same_sums(core: &Core) -> Shown {
    let sums = core.usage() == 12 && core.entries() == 12 && core.capacity() == 12;
    if sums && core.shards() == 1 && core.hash(&9) == 9 {
        return Shown::Done;
    }
    Shown::Wrong("the sums")
}
