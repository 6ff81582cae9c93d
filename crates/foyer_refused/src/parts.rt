//! The parts that a cache is made of, by themselves.

use crate::word::Shown;
use foyer_core::{CacheProperties, Data, HashTableIndexer, Indexer, Record};
use foyer_policy::{GhostQueue, Lists, Result, Sketch};
use std::alloc::Global;

/// Shows the call of this name, where it is one of these.
pub fn shown(alloc: Global, name: &str) -> Option<Shown> {
    match name {
        "record" => Some(of_record(alloc)),
        "sketch" => Some(twice(&mut (), |_| Sketch::new(alloc, 3, 33).map(|_| ()), |_| true)),
        "index_insert" => Some(of_index(alloc, |index| index.insert(9, 9, 9).map(|_| ()))),
        "index_drain" => Some(of_index(alloc, |index| index.drain().map(|_| ()))),
        "lists_reserve" => Some(of_lists(alloc)),
        "ghosts_push" => Some(of_ghosts(alloc)),
        _ => None,
    }
}

/// Makes a call until it is not refused, and asks whether a refused one changed nothing.
pub fn twice<T, C: Fn(&mut T) -> Result<()>, S: Fn(&mut T) -> bool>(
    part: &mut T,
    call: C,
    is_same: S,
) -> Shown {
    match call(part) {
        Ok(()) => return Shown::Done,
        Err(error) if error.number() != 7 => return Shown::Wrong("another refusal"),
        Err(_) => {}
    }
    if !is_same(part) {
        return Shown::Wrong("a refused call changed something");
    }
    match call(part) {
        Ok(()) => Shown::Kept,
        Err(_) => Shown::Wrong("refused twice"),
    }
}

fn of_record(alloc: Global) -> Shown {
    let data = |key| Data {
        key,
        value: 2u64,
        properties: CacheProperties::default(),
        hash: 1,
        weight: 1,
    };
    twice(
        &mut (),
        |_| Record::new(alloc, data(1u64)).map(|_| ()),
        |_| true,
    )
}

// A call of an index of four keys, whose tables are full.
fn of_index<C: Fn(&mut HashTableIndexer<u64>) -> Result<()>>(alloc: Global, call: C) -> Shown {
    let mut index = HashTableIndexer::new(alloc);
    for key in 0..4u64 {
        let Ok(_) = index.insert(key, key, key) else {
            return Shown::Early;
        };
    }
    twice(&mut index, call, |index| {
        index.get(9, &9).is_none() && (0..4u64).all(|key| index.get(key, &key) == Some(key))
    })
}

// Room in lists that have a value.
fn of_lists(alloc: Global) -> Shown {
    let mut lists: Lists<u64, 2> = Lists::new(alloc);
    let Ok(()) = lists.reserve(1) else {
        return Shown::Early;
    };
    let place = lists.push_back(1, 7);
    twice(
        &mut lists,
        |lists| lists.reserve(9),
        |lists| { lists.pop_front(0).is_none() && lists.front(1) == Some(place) },
    )
}

// One more hash in a ghost queue that has four. Where it is refused the queue is as it was.
fn of_ghosts(alloc: Global) -> Shown {
    let mut ghosts = GhostQueue::new(alloc, 4);
    for hash in 0..4 {
        let Ok(()) = ghosts.push(hash, 1) else {
            return Shown::Early;
        };
    }
    let shown = twice(
        &mut ghosts,
        |ghosts| ghosts.push(9, 3),
        |ghosts| { ghosts.weight() == 4 && ghosts.contains(0) && !ghosts.contains(9) },
    );
    if !ghosts.contains(9) || ghosts.contains(2) || !ghosts.contains(3) {
        return Shown::Wrong("the ghosts");
    }
    shown
}
