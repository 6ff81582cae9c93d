//! The calls of a cache behind locks by their names, and what each is to make of a cache.

use super::call::Call;
use super::kept::Wanted;
use crate::calls::{EVEN, SHARD_BY_SHARD, holding};
use crate::cores::FETCHED;
use crate::kept::{FULL, Filled, ROOMY, SHARDED, WAITED};
use foyer_policy::Event;

/// What a cache holds before the call of a name, and that call.
pub fn row(name: &str) -> Option<(Filled, Call)> {
    Some(match name {
        "locked_first_insert" => (holding(0), Call::Insert(FETCHED, 1)),
        "locked_insert" => (ROOMY, Call::Insert(FETCHED, 1)),
        "locked_replace" => (ROOMY, Call::Insert(5, 1)),
        "locked_insert_evicts_1" => (FULL, Call::Insert(FETCHED, 1)),
        "locked_insert_evicts_10" => (FULL, Call::Insert(FETCHED, 10)),
        "locked_insert_for_two_who_wait" => (WAITED, Call::Insert(FETCHED, 1)),
        "locked_put" => (ROOMY, Call::Put(FETCHED, 1)),
        "locked_put_replaces" => (ROOMY, Call::Put(5, 1)),
        "locked_put_evicts_10" => (FULL, Call::Put(FETCHED, 10)),
        "locked_put_for_two_who_wait" => (WAITED, Call::Put(FETCHED, 1)),
        "locked_put_phantom" => (ROOMY, Call::PutPhantom(FETCHED)),
        "locked_replace_if" => (ROOMY, Call::Replace(5, 1)),
        "locked_replace_if_evicts_10" => (FULL, Call::Replace(FETCHED, 10)),
        "locked_replace_if_for_two_who_wait" => (WAITED, Call::Replace(FETCHED, 1)),
        "locked_replace_if_changed" => (ROOMY, Call::Changed(5)),
        "locked_insert_if_fits" => (FULL, Call::Fit(FETCHED, 10)),
        "locked_insert_if_full" => (FULL, Call::Fit(FETCHED, 13)),
        "locked_set_expires" => (ROOMY, Call::SetExpires(5)),
        "locked_phantom" => (ROOMY, Call::Phantom(5)),
        "locked_resident_piece" => (ROOMY, Call::Piece(5)),
        "locked_piece_comes_back" => (ROOMY, Call::Piece(11)),
        "locked_piece_evicts_1" => (FULL, Call::Piece(11)),
        "locked_foreign_piece" => (ROOMY, Call::Piece(FETCHED)),
        "locked_get" => (ROOMY, Call::Get(5)),
        "locked_remove" => (ROOMY, Call::Remove(5)),
        "locked_make" => (ROOMY, Call::Make(FETCHED, 1)),
        "locked_make_evicts_10" => (FULL, Call::Make(FETCHED, 10)),
        "locked_make_hit" => (ROOMY, Call::Make(5, 1)),
        "locked_fetch_blocking_hit" => (ROOMY, Call::FetchBlocking(5)),
        "locked_delete" => (ROOMY, Call::Delete(5)),
        "locked_remove_this" => (ROOMY, Call::RemoveThis),
        "locked_read" => (ROOMY, Call::Read(5)),
        "locked_peek" => (ROOMY, Call::Peek(5)),
        "locked_get_copied" => (ROOMY, Call::Copied(5)),
        "locked_get_cloned" => (ROOMY, Call::Cloned(5)),
        "locked_touch" => (ROOMY, Call::Touch(5)),
        "locked_contains" => (ROOMY, Call::Contains(5)),
        "locked_lead" => (ROOMY, Call::Fetch(FETCHED)),
        "locked_wait" => (WAITED, Call::Fetch(FETCHED)),
        "locked_hit" => (ROOMY, Call::Fetch(5)),
        "locked_complete" => (WAITED, Call::Complete),
        "locked_complete_piece" => (WAITED, Call::CompletePiece(FETCHED)),
        "locked_fail" => (WAITED, Call::Fail),
        "locked_cancel" => (WAITED, Call::Cancel),
        "locked_resize" => (FULL, Call::Resize(2)),
        "locked_resize_4" => (SHARDED, Call::Resize(4)),
        "locked_evict_all" => (SHARDED, Call::EvictAll),
        "locked_clear" => (SHARDED, Call::Clear),
        "locked_flush" => (SHARDED, Call::Flush),
        "locked_flush_if" => (SHARDED, Call::FlushIf),
        "locked_reconfigure" => (ROOMY, Call::Reconfigure),
        "locked_try_clone" => (ROOMY, Call::CloneCache),
        "locked_entry_try_clone" => (ROOMY, Call::CloneEntry),
        "locked_piece" => (ROOMY, Call::TakePiece),
        _ => return None,
    })
}

// What leaves four shards of three records each that may have one.
const ALL_BUT_LAST: [u64; 8] = [0, 4, 1, 5, 2, 6, 3, 7];

/// What a call is to make of a cache. The first ten victims of the policy are these.
pub fn wanted(filled: Filled, call: Call, victims: &'static [u64; 10]) -> Wanted {
    let same = Wanted::same(filled);
    match call {
        Call::Insert(..) | Call::Phantom(_) | Call::Piece(_) => of_insert(filled, call, victims),
        Call::Put(key, weight) => Wanted {
            refs: if filled.waits { 2 } else { 1 },
            ..of_insert(filled, Call::Insert(key, weight), victims)
        },
        Call::SetExpires(key) => of_insert(filled, Call::Insert(key, 1), victims),
        Call::Fit(_, 13) => same,
        Call::Replace(key, weight) | Call::Fit(key, weight) => {
            of_insert(filled, Call::Insert(key, weight), victims)
        }
        Call::Make(FETCHED, weight) => of_insert(filled, Call::Insert(FETCHED, weight), victims),
        Call::Make(..) | Call::FetchBlocking(_) => Wanted { refs: 2, ..same },
        Call::PutPhantom(_) => Wanted {
            leaves: &[FETCHED, FETCHED],
            events: (Event::Remove, Event::Evict),
            ..same
        },
        Call::Delete(_) | Call::RemoveThis => Wanted {
            leaves: &[5],
            events: (Event::Remove, Event::Remove),
            ..same
        },
        Call::Get(_) | Call::Changed(_) | Call::Fetch(5) | Call::CloneEntry => {
            Wanted { refs: 2, ..same }
        }
        Call::Remove(_) => Wanted {
            leaves: &[5],
            events: (Event::Remove, Event::Remove),
            refs: 2,
            ..same
        },
        Call::Complete => Wanted {
            refs: 2,
            ..same.with(FETCHED, 4, victims)
        },
        Call::CompletePiece(key) => Wanted {
            refs: 2,
            ..same.with(key, 1, victims)
        },
        _ => of_all(same, call, victims),
    }
}

// The same of an insert. A piece is of a record that is in, of one that left, or of another cache.
fn of_insert(filled: Filled, call: Call, victims: &'static [u64; 10]) -> Wanted {
    let same = Wanted::same(filled);
    match call {
        Call::Insert(5, weight) => Wanted {
            leaves: &[5],
            events: (Event::Replace, Event::Replace),
            enters: Some((5, weight)),
            ..same
        },
        Call::Insert(key, weight) => Wanted {
            refs: if filled.waits { 3 } else { 1 },
            ..same.with(key, weight, victims)
        },
        Call::Phantom(_) => Wanted {
            leaves: &[5, 5],
            events: (Event::Replace, Event::Remove),
            ..same
        },
        Call::Piece(11) if filled.capacity == 12 => Wanted {
            capacity: 11,
            ..same.with(11, 1, victims)
        },
        Call::Piece(key) if key != 5 => Wanted {
            enters: Some((key, 1)),
            ..same
        },
        _ => Wanted { refs: 2, ..same },
    }
}

// The same of a call on all records.
fn of_all(same: Wanted, call: Call, victims: &'static [u64; 10]) -> Wanted {
    let all = Wanted {
        leaves: &SHARD_BY_SHARD,
        batch: 1,
        ..same
    };
    match call {
        Call::Resize(2) => Wanted {
            leaves: victims,
            capacity: 2,
            ..all
        },
        Call::Resize(capacity) => Wanted {
            leaves: &ALL_BUT_LAST,
            capacity,
            ..all
        },
        Call::EvictAll => all,
        Call::Clear => Wanted {
            events: (Event::Clear, Event::Clear),
            batch: 3,
            ..all
        },
        Call::Flush => Wanted {
            is_flush: true,
            ..all
        },
        Call::FlushIf => Wanted {
            leaves: &EVEN,
            is_flush: true,
            batch: 3,
            ..all
        },
        _ => same,
    }
}
