//! Fetches and pieces of a shard.

use super::*;
use foyer_core::{Ended, FetchOrTake, Lookup, Piece};
use foyer_policy::Error;

type End = Ended<u64, u64, CacheProperties, u64>;

// A key that is not in is fetched.
fn lead(rt: &impl Abort, shard: &mut Over<Lru>, key: u64) -> u64 {
    let answer = shard.get_or_enqueue(0, key, &key, None, 0);
    match answer.expect(rt, "a look-up") {
        Lookup::Lead {
            fetch,
            token: _,
            required: _,
        } => fetch,
        Lookup::Wait { token: _ } => panic!(rt; "{key} is fetched already"),
        Lookup::Hit(entry) => {
            entry.discard();
            panic!(rt; "{key} is in")
        }
    }
}

// How many got an entry at the end of a fetch, with which nothing left.
fn answered(rt: &impl Abort, shard: &mut Over<Lru>, ended: End) -> usize {
    let Ended {
        found,
        answers,
        leaves,
    } = ended;
    assert!(rt; found && leaves.is_empty());
    all_back(rt, shard, answers)
}

// The number of the refusal that those got who waited.
fn refused(rt: &impl Abort, ended: End) -> u8 {
    let Ended {
        found,
        answers,
        leaves,
    } = ended;
    assert!(rt; found && leaves.is_empty());
    match answers.into_parts().1 {
        Ok(entries) => {
            entries.destroy_empty();
            panic!(rt; "the end is not refused")
        }
        Err(error) => error.number(),
    }
}

// A piece of a key's record, which is taken out.
fn taken_piece(
    rt: &impl Abort,
    shard: &mut Over<Lru>,
    key: u64,
) -> Piece<u64, u64, CacheProperties> {
    let held = hold(rt, shard, key);
    let piece = held.piece().expect(rt, "a piece");
    release(rt, shard, held);
    take_out(rt, shard, key);
    piece
}

#[test]
fn a_fetch_ends_in_each_way(rt: HostRuntime) -> Done {
    let alloc = rt.alloc();
    let mut shard = three(&rt, alloc)?;
    let fetch = lead(&rt, &mut shard, 7);
    assert!(rt; shard.is_open(7, &7, fetch));
    let ended = shard.complete(alloc, 0, fetch, data(7, 0), Source::Outer);
    assert_eq!(rt; answered(&rt, &mut shard, ended), 1);
    assert!(rt; shard.contains(0, 7, &7) && !shard.is_open(7, &7, fetch));
    let fetch = lead(&rt, &mut shard, 8);
    let ended = shard.end(alloc, 8, &8, fetch, Error::new(Reason::TaskCancelled));
    assert_eq!(rt; refused(&rt, ended), 15);
    let fetch = lead(&rt, &mut shard, 8);
    let properties = CacheProperties::default();
    let ended = shard.refuse_value(alloc, 8, &8, fetch, &properties, 1);
    assert_eq!(rt; refused(&rt, ended), 7);
    let fetch = lead(&rt, &mut shard, 8);
    match shard.fetch_or_take(8, &8, fetch) {
        Some(FetchOrTake::Notifiers(waiters)) => assert_eq!(rt; waiters.len(), 1),
        _ => panic!(rt; "nobody waits"),
    }
    Ok(())
}

// Into its own shard, where it is known, and into another one, where it makes a new record.
#[test]
fn a_piece_brings_its_record(rt: HostRuntime) -> Done {
    let alloc = rt.alloc();
    let mut shard = three(&rt, alloc)?;
    let mut other: Over<Lru> = empty(alloc, Limits::default(), &LruConfig::default())?;
    let piece = taken_piece(&rt, &mut shard, 2);
    assert!(rt; shard.knows(2, &piece) && !other.knows(2, &piece));
    let mut leaves = Vec::new(alloc);
    let made = other.emplace_piece(alloc, 0, piece.clone()?, 2, 3, &mut leaves);
    settle(&rt, &mut other, made.expect(&rt, "a new record"));
    let made = shard.emplace_piece(alloc, 0, piece.clone()?, 2, 0, &mut leaves);
    settle(&rt, &mut shard, made.expect(&rt, "a record"));
    assert!(rt; shard.contains(0, 2, &2) && other.contains(0, 2, &2) && leaves.is_empty());
    take_out(&rt, &mut shard, 2);
    take_out(&rt, &mut other, 2);
    let fetch = lead(&rt, &mut other, 2);
    let ended = other.complete_piece(alloc, 0, 2, &2, fetch, piece.clone()?, 2, true, 3);
    assert_eq!(rt; answered(&rt, &mut other, ended), 1);
    let fetch = lead(&rt, &mut shard, 2);
    let ended = shard.complete_piece(alloc, 0, 2, &2, fetch, piece, 2, true, 0);
    assert_eq!(rt; answered(&rt, &mut shard, ended), 1);
    assert!(rt; shard.contains(0, 2, &2) && other.contains(0, 2, &2));
    Ok(())
}

// A piece of another key, and one whose own shard is another.
#[test]
fn a_piece_of_another_key_ends_a_fetch(rt: HostRuntime) -> Done {
    let alloc = rt.alloc();
    let mut shard = three(&rt, alloc)?;
    let mut other: Over<Lru> = empty(alloc, Limits::default(), &LruConfig::default())?;
    let piece = taken_piece(&rt, &mut shard, 2);
    let fetch = lead(&rt, &mut shard, 8);
    let ended = shard.complete_piece(alloc, 0, 8, &8, fetch, piece.clone()?, 2, true, 3);
    assert_eq!(rt; refused(&rt, ended), 12);
    let fetch = lead(&rt, &mut other, 2);
    let ended = other.complete_piece(alloc, 0, 2, &2, fetch, piece, 2, false, 3);
    assert_eq!(rt; refused(&rt, ended), 12);
    assert!(rt; !shard.contains(0, 8, &8) && !other.contains(0, 2, &2));
    Ok(())
}
