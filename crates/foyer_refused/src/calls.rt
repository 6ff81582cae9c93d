//! The calls of a core by their names.

use crate::call::Op;
use crate::cores::FETCHED;
use crate::kept::{FULL, Filled, ROOMY, SHARDED, WAITED, Wanted, compared, prepared};
use crate::word::Shown;
use foyer_policy::{Event, EvictionConfig};
use std::alloc::Global;

// A call of a core that holds this. It evicts so many records of the policy's order.
#[derive(Clone, Copy)]
struct Row<'a> {
    filled: Filled,
    op: Op<'a>,
    evicts: usize,
}

// The call of a name over a policy.
fn row<'a>(config: &'a EvictionConfig, name: &str) -> Option<Row<'a>> {
    let (filled, op, evicts) = match name {
        "first_insert" => (holding(0), Op::Insert(FETCHED, 1), 0),
        "insert" => (ROOMY, Op::Insert(FETCHED, 1), 0),
        "insert_grows_4" => (holding(4), Op::Insert(FETCHED, 1), 0),
        "insert_grows_8" => (holding(8), Op::Insert(FETCHED, 1), 0),
        "replace" => (ROOMY, Op::Insert(5, 1), 0),
        "insert_beside_expiring" => (expiring(1), Op::Insert(FETCHED, 1), 0),
        "insert_beside_many_expiring" => (expiring(12), Op::Insert(FETCHED, 1), 0),
        "insert_evicts_1" => (FULL, Op::Insert(FETCHED, 1), 1),
        "insert_evicts_10" => (FULL, Op::Insert(FETCHED, 10), 10),
        "phantom" => (ROOMY, Op::Phantom(5), 0),
        "resident_piece" => (ROOMY, Op::Piece(5), 0),
        "piece_comes_back" => (ROOMY, Op::Piece(11), 0),
        "piece_evicts_1" => (FULL, Op::Piece(11), 1),
        "foreign_piece" => (ROOMY, Op::Piece(FETCHED), 0),
        "resize" => (FULL, Op::Resize(2), 10),
        "evict_all" => (SHARDED, Op::EvictAll, 0),
        "clear" => (SHARDED, Op::Clear, 0),
        "flush_if" => (SHARDED, Op::FlushIf, 0),
        "lead" => (ROOMY, Op::Ask(FETCHED), 0),
        "wait" => (WAITED, Op::Ask(FETCHED), 0),
        "insert_for_one_who_waits" => (WAITED, Op::Insert(FETCHED, 1), 1),
        "get" => (ROOMY, Op::Get(5), 0),
        "remove" => (ROOMY, Op::Remove(5), 0),
        "touch" => (ROOMY, Op::Touch(5), 0),
        "touch_expiring" => (expiring(12), Op::Touch(5), 0),
        "remove_expiring" => (expiring(12), Op::Remove(5), 0),
        "found_by_a_fetch" => (ROOMY, Op::Ask(5), 0),
        "reconfigure" => (ROOMY, Op::Reconfigure(config), 0),
        _ => return None,
    };
    Some(Row { filled, op, evicts })
}

/// Room, and so many records.
pub fn holding(records: u64) -> Filled {
    Filled { records, ..ROOMY }
}

// Room, and so many records that expire later.
fn expiring(records: u64) -> Filled {
    Filled {
        expires: Some(100),
        ..holding(records)
    }
}

/// In what order records of four shards leave.
pub const SHARD_BY_SHARD: [u64; 12] = [0, 4, 8, 1, 5, 9, 2, 6, 10, 3, 7, 11];

/// Those of them with even keys.
pub const EVEN: [u64; 6] = [0, 4, 8, 2, 6, 10];

const IN_ORDER: [u64; 10] = [0, 1, 2, 3, 4, 5, 6, 7, 8, 9];

const BUT_USED: [u64; 10] = [0, 1, 2, 3, 4, 6, 7, 8, 9, 10];

/// The first ten that leave a core of twelve records, of which the sixth was used.
pub fn victims(config: &EvictionConfig) -> &'static [u64; 10] {
    match config {
        EvictionConfig::Fifo(_) => &IN_ORDER,
        _ => &BUT_USED,
    }
}

/// Shows a call of a core, where it has this name.
pub fn shown(alloc: Global, config: &EvictionConfig, name: &str) -> Option<Shown> {
    let row = row(config, name)?;
    let wanted = wanted(row, victims(config));
    let made = prepared(alloc, config, row.filled, row.op, wanted.capacity);
    let Ok((mut core, piece)) = made else {
        return Some(Shown::Early);
    };
    Some(compared(alloc, &mut core, row.op, piece.as_ref(), &wanted))
}

// What a call is to make of a core.
fn wanted(row: Row<'_>, victims: &'static [u64; 10]) -> Wanted {
    let Row { filled, op, evicts } = row;
    let same = Wanted::same(filled);
    let evicting = Wanted {
        leaves: victims.get(..evicts).unwrap_or(&[]),
        begins: true,
        ..same
    };
    let next = Some(filled.records);
    match op {
        Op::Insert(5, weight) => Wanted {
            leaves: &[5],
            events: (Event::Replace, Event::Replace),
            enters: Some((5, weight)),
            number: next,
            ..same
        },
        Op::Insert(key, weight) => Wanted {
            enters: Some((key, weight)),
            is_open: false,
            number: next,
            ..evicting
        },
        Op::Phantom(_) => Wanted {
            leaves: &[5, 5],
            events: (Event::Replace, Event::Remove),
            number: next,
            ..same
        },
        // Of a record that is in, of one that left, or of another core.
        Op::Piece(key) if key < 10 => Wanted {
            number: Some(key),
            ..same
        },
        Op::Piece(key) if key < 20 => Wanted {
            capacity: if evicts == 0 { filled.capacity } else { 11 },
            enters: Some((key, 1)),
            number: Some(key),
            ..evicting
        },
        Op::Piece(key) => Wanted {
            enters: Some((key, 1)),
            number: next,
            ..same
        },
        Op::Resize(capacity) => Wanted {
            capacity,
            ..evicting
        },
        Op::EvictAll => Wanted {
            leaves: &SHARD_BY_SHARD,
            begins: true,
            ..same
        },
        Op::Clear => Wanted {
            leaves: &SHARD_BY_SHARD,
            events: (Event::Clear, Event::Clear),
            ..same
        },
        Op::FlushIf => Wanted {
            leaves: &EVEN,
            ..same
        },
        Op::Ask(key) if key != 5 => Wanted {
            is_open: true,
            number: Some(filled.waits as u64),
            ..same
        },
        Op::Get(key) => Wanted {
            number: Some(key),
            ..same
        },
        Op::Remove(key) => Wanted {
            removes: Some(key),
            number: Some(key),
            ..same
        },
        Op::Ask(_) | Op::Touch(_) | Op::Reconfigure(_) => same,
    }
}
