//! What stands after a refused call of a core, and after the same call once more.

use crate::call::{Kept, Op, Told, make};
use crate::cores::{Core, FETCHED, Leaves, Look, empty, ended, fill, weighing};
use crate::word::Shown;
use foyer_core::Lookup;
use foyer_policy::{Event, EvictionConfig, Result};
use std::alloc::Global;

/// What a core holds before a call: so many records, from the key 0 on, which may say when they expire, and where `waits`
/// is set one who waits for `FETCHED`.
#[derive(Clone, Copy)]
pub struct Filled {
    pub shards: usize,
    pub capacity: usize,
    pub records: u64,
    pub expires: Option<u64>,
    pub waits: bool,
}

/// One shard with room for more.
pub const ROOMY: Filled = Filled {
    shards: 1,
    capacity: 64,
    records: 12,
    expires: None,
    waits: false,
};

/// One shard that is full.
pub const FULL: Filled = Filled {
    capacity: 12,
    ..ROOMY
};

/// The same, with one who waits.
pub const WAITED: Filled = Filled {
    waits: true,
    ..FULL
};

/// Four shards that are full.
pub const SHARDED: Filled = Filled { shards: 4, ..FULL };

/// What a call is to make of a core.
#[derive(Clone, Copy)]
pub struct Wanted {
    /// The keys that leave, in order. Of evictions these are the first of the policy's order.
    pub leaves: &'static [u64],
    /// Why they do, and why the last one does.
    pub events: (Event, Event),
    /// Whether a refused call may have evicted the first of them.
    pub begins: bool,
    /// The capacity then.
    pub capacity: usize,
    /// The key and the weight of the record that comes in.
    pub enters: Option<(u64, usize)>,
    /// The key whose record is taken out, and told of beside.
    pub removes: Option<u64>,
    /// Whether the fetch of `FETCHED` is open then.
    pub is_open: bool,
    /// The number that is given.
    pub number: Option<u64>,
}

impl Wanted {
    /// Nothing changes.
    pub fn same(filled: Filled) -> Wanted {
        Wanted {
            leaves: &[],
            events: (Event::Evict, Event::Evict),
            begins: false,
            capacity: filled.capacity,
            enters: None,
            removes: None,
            is_open: filled.waits,
            number: None,
        }
    }
}

/// A core before a call, and the piece of a record that the call puts in: of one that it holds, of one that left it, or
/// of another core's, as the call's key is below 10, below 20, or above. In a core of one shard the key 5 was used.
pub fn prepared(
    alloc: Global,
    config: &EvictionConfig,
    filled: Filled,
    op: Op<'_>,
    capacity: usize,
) -> Result<(Core, Option<Kept>)> {
    let mut core = empty(alloc, config, filled.capacity, filled.shards, 0)?;
    fill(&mut core, filled.records, filled.expires)?;
    if filled.shards == 1 {
        let _ = core.touch(0, &5)?;
    }
    if filled.waits {
        ask_for(&mut core)?;
    }
    let piece = match op {
        Op::Piece(key) if key >= 20 => foreign_piece(alloc, config, key)?,
        Op::Piece(key) => piece_of(&mut core, key)?,
        _ => None,
    };
    if let Op::Piece(key) = op
        && (10..20).contains(&key)
    {
        if let Some((entry, _)) = core.remove(&key)? {
            drop(core.drop_entry(entry));
        }
        drop(core.resize(0, capacity)?);
    }
    Ok((core, piece))
}

/// Asks for `FETCHED`.
pub fn ask_for(core: &mut Core) -> Result<()> {
    match core.get_or_enqueue(0, &FETCHED, None, ())? {
        Lookup::Hit(entry) => drop(core.drop_entry(entry)),
        Lookup::Lead {
            fetch: _,
            token: _,
            required: _,
        } => (),
        Lookup::Wait { token: _ } => (),
    }
    Ok(())
}

// A piece of the record of a key in another core.
fn foreign_piece(alloc: Global, config: &EvictionConfig, key: u64) -> Result<Option<Kept>> {
    let mut other = empty(alloc, config, 4, 1, 1)?;
    let made = other.insert(0, key, weighing(1))?;
    drop(ended(&mut other, made));
    piece_of(&mut other, key)
}

// A piece of the record of a key.
fn piece_of(core: &mut Core, key: u64) -> Result<Option<Kept>> {
    let Some(entry) = core.get(0, &key)? else {
        return Ok(None);
    };
    let piece = entry.piece();
    drop(core.drop_entry(entry));
    Ok(Some(piece?))
}

/// Makes a call until it is not refused, and compares what stands with what is wanted.
pub fn compared(
    alloc: Global,
    core: &mut Core,
    op: Op<'_>,
    piece: Option<&Kept>,
    wanted: &Wanted,
) -> Shown {
    let before = Look::of(core);
    let first = make(alloc, core, op, piece);
    let Some(number) = first.refused else {
        return settled(core, before, 0, &first, wanted);
    };
    if number != 7 {
        return Shown::Wrong("another refusal");
    }
    if !(begin(&first.leaves, 0, wanted) && (wanted.begins || first.leaves.is_empty())) {
        return Shown::Wrong("what left a refused call");
    }
    let mut look = before.without(&first.leaves);
    if let Op::Resize(capacity) = op {
        look.capacity = capacity;
    }
    if Look::of(core) != look {
        return Shown::Wrong("the core after a refused call");
    }
    let second = make(alloc, core, op, piece);
    if second.refused.is_some() {
        return Shown::Wrong("refused twice");
    }
    settled(core, look, first.leaves.len(), &second, wanted).behind_a_refusal()
}

// Whether what a call told is all that is wanted, and the core looks so, where it looked so before and so many had
// left.
fn settled(core: &Core, before: Look, gone: usize, told: &Told, wanted: &Wanted) -> Shown {
    let all = gone.saturating_add(told.leaves.len());
    if !begin(&told.leaves, gone, wanted) || all != wanted.leaves.len() {
        return Shown::Wrong("what left");
    }
    let mut look = before.without(&told.leaves);
    look.capacity = wanted.capacity;
    look.is_open = wanted.is_open;
    if let Some(key) = wanted.removes {
        look = look.without_key(key);
    }
    if let Some((key, weight)) = wanted.enters {
        look = look.with(key, weight);
    }
    if Look::of(core) != look {
        return Shown::Wrong("the core after the call");
    }
    if told.number != wanted.number {
        return Shown::Wrong("the number that is given");
    }
    Shown::Done
}

/// Whether what left is that which is wanted from this place on.
pub fn begin(leaves: &Leaves, at: usize, wanted: &Wanted) -> bool {
    let mut place = at;
    for (event, left) in leaves {
        let Some(key) = wanted.leaves.get(place) else {
            return false;
        };
        place = place.saturating_add(1);
        let reason = if place == wanted.leaves.len() {
            wanted.events.1
        } else {
            wanted.events.0
        };
        if *left.key() != *key || *event != reason {
            return false;
        }
    }
    true
}
