//! The calls of a core that may want memory, and what each of them makes of a core.

use crate::cores::{Core, Leaves, ended, weighing};
use foyer_core::{CacheProperties, Lookup, Piece, Refused};
use foyer_policy::{Error, EvictionConfig, Properties, Result};
use foyer_session::SimValue;
use std::alloc::Global;

/// A piece of a record of these cores.
pub type Kept = Piece<u64, SimValue, CacheProperties>;

/// A call. Each has its key, and inserts their weight.
#[derive(Clone, Copy)]
pub enum Op<'a> {
    Insert(u64, usize),
    Phantom(u64),
    Piece(u64),
    Resize(usize),
    EvictAll,
    Clear,
    FlushIf,
    Ask(u64),
    Get(u64),
    Remove(u64),
    Touch(u64),
    Reconfigure(&'a EvictionConfig),
}

/// What a call answered: the number of its refusal, what left, and the number of the record or the token that it gave.
#[derive(Drop)]
pub struct Told {
    pub refused: Option<u8>,
    pub leaves: Leaves,
    pub number: Option<u64>,
}

/// Makes a call, and lets go what it hands out. The piece is that which an `Op::Piece` puts in.
pub fn make(alloc: Global, core: &mut Core, op: Op<'_>, piece: Option<&Kept>) -> Told {
    match called(alloc, core, op, piece) {
        Ok((leaves, number)) => Told {
            refused: None,
            leaves,
            number,
        },
        Err(Refused { error, leaves }) => Told {
            refused: Some(error.number()),
            leaves,
            number: None,
        },
    }
}

type Called = std::result::Result<(Leaves, Option<u64>), Refused<u64, SimValue, CacheProperties>>;

fn called(alloc: Global, core: &mut Core, op: Op<'_>, piece: Option<&Kept>) -> Called {
    let made = match op {
        Op::Insert(key, weight) => core.insert(0, key, weighing(weight))?,
        Op::Phantom(key) => {
            let properties = CacheProperties::default().with_phantom(true);
            core.insert_with_properties(0, key, weighing(1), properties)?
        }
        Op::Piece(_) => match piece.map(|piece| piece.clone()) {
            Some(Ok(piece)) => core.insert_piece(0, piece)?,
            Some(Err(refused)) => return bare(alloc, Err(Error::from(refused))),
            None => return bare(alloc, Ok(None)),
        },
        Op::Resize(capacity) => return Ok((core.resize(0, capacity)?, None)),
        Op::EvictAll => return Ok((core.evict_all(0)?, None)),
        Op::Clear => return taken(alloc, core.clear()),
        Op::FlushIf => return taken(alloc, core.flush_if(&|key, _| *key % 2 == 0)),
        _ => return bare(alloc, looked(core, op)),
    };
    let (id, leaves) = ended(core, made);
    Ok((leaves, Some(id)))
}

// An answer of a call with which nothing leaves.
fn bare(alloc: Global, told: Result<Option<u64>>) -> Called {
    let leaves = Vec::new(alloc);
    match told {
        Ok(number) => Ok((leaves, number)),
        Err(error) => Err(Refused { error, leaves }),
    }
}

fn taken(alloc: Global, told: Result<Leaves>) -> Called {
    match told {
        Ok(leaves) => Ok((leaves, None)),
        Err(error) => bare(alloc, Err(error)),
    }
}

// Makes a call with which nothing leaves. What leaves with a removal is told by the entry's id alone, since a list of
// it would take memory.
fn looked(core: &mut Core, op: Op<'_>) -> Result<Option<u64>> {
    let found = match op {
        Op::Ask(key) => match core.get_or_enqueue(0, &key, None, ())? {
            Lookup::Hit(entry) => {
                drop(core.drop_entry(entry));
                return Ok(None);
            }
            Lookup::Lead {
                fetch: _,
                token,
                required: _,
            } => return Ok(Some(token)),
            Lookup::Wait { token } => return Ok(Some(token)),
        },
        Op::Get(key) => core.get(0, &key)?,
        Op::Remove(key) => core.remove(&key)?.map(|(entry, _)| entry),
        Op::Touch(key) => return Ok(if core.touch(0, &key)? { None } else { Some(0) }),
        Op::Reconfigure(config) => {
            core.reconfigure(config)?;
            None
        }
        _ => None,
    };
    let Some(entry) = found else {
        return Ok(None);
    };
    let id = entry.id();
    drop(core.drop_entry(entry));
    Ok(Some(id))
}
