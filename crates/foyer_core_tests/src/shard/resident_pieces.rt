//! Pieces of the records in the index, and records taken out by their pieces.

use super::*;
use foyer_core::Piece;
use foyer_policy::{Lfu, S3Fifo, Sieve};

type Pieces = Vec<Piece<u64, u64, CacheProperties>>;

// These keys have pieces, in this order, each with its value and hash.
fn assert_keys(rt: &impl Abort, pieces: &Pieces, keys: &[u64]) {
    assert_eq!(rt; pieces.len(), keys.len());
    for (piece, key) in pieces.iter().zip(keys) {
        assert_eq!(rt;
            (*piece.key(), *piece.value(), piece.hash()),
            (*key, *key * 10, *key)
        );
    }
}

// A record of the key 9 that expires at 5 comes in behind others, of which the first is used again.
fn pieces_of<E: Eviction>(rt: &impl Abort, alloc: Global, keys: &[u64]) -> Done
where
    E::Config: Default,
{
    let mut shard: Over<E> = empty(alloc, Limits::default(), &E::Config::default())?;
    for key in [1, 2, 3] {
        put(rt, alloc, &mut shard, key, 1);
    }
    let mut leaves = Vec::new(alloc);
    let expiring = Data {
        properties: CacheProperties::default().with_expiry(Some(5)),
        ..data(9, 1)
    };
    let made = shard.emplace(alloc, 0, expiring, Source::Outer, &mut leaves);
    settle(rt, &mut shard, made.expect(rt, "an insert"));
    assert!(rt; shard.touch(0, 1, &1)? && !shard.contains(5, 9, &9));
    let held = hold(rt, &mut shard, 2);
    let pieces = shard.pieces(alloc).expect(rt, "pieces");
    assert_keys(rt, &pieces, keys);
    release(rt, &mut shard, held);
    assert_eq!(rt; (shard.entries(), shard.usage()), (4, 4));
    Ok(())
}

// In the order in which a clear takes the records out, pinned and expired ones too.
#[test]
fn each_record_in_the_index_has_a_piece(rt: HostRuntime) -> Done {
    pieces_of::<Fifo>(&rt, rt.alloc(), &[1, 2, 3, 9])?;
    pieces_of::<Lru>(&rt, rt.alloc(), &[3, 9, 1, 2])?;
    pieces_of::<Lfu>(&rt, rt.alloc(), &[3, 9, 1, 2])?;
    pieces_of::<S3Fifo>(&rt, rt.alloc(), &[1, 2, 3, 9])?;
    pieces_of::<Sieve>(&rt, rt.alloc(), &[1, 2, 3, 9])
}

#[test]
fn a_shard_that_holds_nothing_has_no_pieces(rt: HostRuntime) -> Done {
    let mut shard = three(&rt, rt.alloc())?;
    take_out(&rt, &mut shard, 2);
    assert_keys(&rt, &shard.pieces(rt.alloc())?, &[1, 3]);
    shard.clear_onto(&mut Vec::new(rt.alloc()))?;
    assert!(rt; shard.pieces(rt.alloc())?.is_empty());
    Ok(())
}

// The records' weights are 0, 3 and 1. One that has a handle stays with it.
#[test]
fn a_piece_takes_its_record_out(rt: HostRuntime) -> Done {
    let mut shard = three(&rt, rt.alloc())?;
    let held = hold(&rt, &mut shard, 3);
    let pieces = shard.pieces(rt.alloc()).expect(&rt, "pieces");
    assert_keys(&rt, &pieces, &[1, 2, 3]);
    for (at, entries, usage) in [(1, 2, 1), (2, 1, 0), (0, 0, 0)] {
        let left = shard.remove_piece(&pieces[at]).expect(&rt, "a record");
        assert_eq!(rt;
            (*left.key(), left.hash()),
            (*pieces[at].key(), pieces[at].hash())
        );
        assert_eq!(rt; (shard.entries(), shard.usage()), (entries, usage));
        assert!(rt; !shard.contains(0, left.hash(), left.key()));
        assert!(rt; shard.remove_piece(&pieces[at]).is_none());
    }
    release(&rt, &mut shard, held);
    Ok(())
}

// A newer record of the key, one that was removed, and one of another core stay.
#[test]
fn a_piece_takes_no_other_record_out(rt: HostRuntime) -> Done {
    let alloc = rt.alloc();
    let mut shard = three(&rt, alloc)?;
    let pieces = shard.pieces(alloc)?;
    let mut leaves = Vec::new(alloc);
    let made = shard.emplace(alloc, 0, data(1, 1), Source::Outer, &mut leaves);
    settle(&rt, &mut shard, made.expect(&rt, "an insert"));
    assert_left(&rt, &leaves, &[(Event::Replace, 1)]);
    take_out(&rt, &mut shard, 2);
    put(&rt, alloc, &mut shard, 4, 1);
    let config = LruConfig::default();
    let index = TagFinder::empty(alloc);
    let mut other: Over<Lru> = Shard::new(alloc, 1, 5, Limits::default(), &config, index)?;
    put(&rt, alloc, &mut other, 1, 1);
    for piece in &other.pieces(alloc)? {
        assert!(rt; shard.remove_piece(piece).is_none());
    }
    for piece in &pieces[..2] {
        assert!(rt; shard.remove_piece(piece).is_none());
    }
    assert_keys(&rt, &shard.pieces(alloc)?, &[3, 1, 4]);
    Ok(())
}

// A record whose handle alone keeps it isn't in the index, until its piece brings it back.
#[test]
fn a_piece_takes_out_what_came_back(rt: HostRuntime) -> Done {
    let alloc = rt.alloc();
    let mut shard = three(&rt, alloc)?;
    let held = hold(&rt, &mut shard, 3);
    let piece = held.piece().expect(&rt, "a piece");
    take_out(&rt, &mut shard, 3);
    assert!(rt; shard.remove_piece(&piece).is_none());
    let back = held.piece().expect(&rt, "a piece");
    let mut leaves = Vec::new(alloc);
    let made = shard.emplace_piece(alloc, 0, back, 3, 1, &mut leaves);
    settle(&rt, &mut shard, made.expect(&rt, "an insert"));
    assert!(rt; shard.contains(0, 3, &3));
    let left = shard.remove_piece(&piece).expect(&rt, "a record");
    assert_eq!(rt; (*left.value(), shard.entries()), (30, 2));
    release(&rt, &mut shard, held);
    Ok(())
}
