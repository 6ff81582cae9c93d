//! Calls on all records of a cache.

use crate::notes::Note::{Evict, Flush, Piece};
use crate::testing::cache::{heard, piped, with_tube};
use crate::testing::{Outcome, fifo};
use futures::executor::block_on;

#[test]
fn a_flush_by_a_predicate(rt: HostRuntime) -> Outcome {
    let (cache, notes) = piped(rt, fifo(256, 4))?;
    for key in 0..8u32 {
        drop(cache.insert(0, key, u64::from(10 * key))?);
    }
    let held = cache.insert(0, 8, 80)?;
    let flush = cache.flush_if(|key, value| *key % 2 == 0 && *value < 60 || *key == 8);
    let wanted = [
        Evict(0, 0),
        Evict(4, 40),
        Evict(8, 80),
        Evict(2, 20),
        Piece(0, 0),
        Piece(4, 40),
        Piece(8, 80),
        Piece(2, 20),
        Flush(4),
    ];
    assert!(rt; notes.are(&wanted));
    assert!(rt; block_on(&rt, flush)?.is_ok());
    assert_eq!(rt; (cache.entries(), cache.usage()), (5, 5));
    assert!(rt; held.is_outdated());
    Ok(())
}

#[test]
fn a_flush_of_all(rt: HostRuntime) -> Outcome {
    let (cache, notes) = heard(rt, fifo(4, 2))?;
    drop(cache.insert(0, 1, 10)?);
    assert!(rt; block_on(&rt, cache.flush(0))?.is_ok());
    assert!(rt; notes.are(&[Evict(1, 10)]));
    assert_eq!(rt; cache.entries(), 0);
    Ok(())
}

// A pipe that is not enabled gets no piece: not of what is evicted, nor of what is flushed.
#[test]
fn a_disabled_pipe_gets_no_eviction(rt: HostRuntime) -> Outcome {
    let (cache, notes) = heard(rt, fifo(1, 1))?;
    let cache = with_tube(cache, rt.alloc(), &notes, false)?;
    drop(cache.insert(0, 1, 10)?);
    drop(cache.insert(0, 2, 20)?);
    assert!(rt; notes.are(&[Evict(1, 10)]));
    Ok(())
}

#[test]
fn a_disabled_pipe_gets_no_flush(rt: HostRuntime) -> Outcome {
    let (cache, notes) = heard(rt, fifo(1, 1))?;
    let cache = with_tube(cache, rt.alloc(), &notes, false)?;
    drop(cache.insert(0, 1, 10)?);
    assert!(rt; block_on(&rt, cache.flush(0))?.is_ok());
    assert!(rt; notes.are(&[Evict(1, 10)]));
    Ok(())
}

#[test]
fn a_resize(rt: HostRuntime) -> Outcome {
    let (cache, notes) = heard(rt, fifo(4, 2))?;
    for key in 0..4u32 {
        drop(cache.insert(0, key, u64::from(10 * key))?);
    }
    cache.resize(0, 2)?;
    assert!(rt; notes.are(&[Evict(0, 0), Evict(1, 10)]));
    assert_eq!(rt; (cache.usage(), cache.capacity()), (2, 2));
    drop(cache.insert(0, 4, 40)?);
    cache.evict_all(0)?;
    assert!(rt;
        notes.are(&[
            Evict(0, 0),
            Evict(1, 10),
            Evict(2, 20),
            Evict(4, 40),
            Evict(3, 30)
        ])
    );
    assert_eq!(rt; cache.entries(), 0);
    cache.resize(0, 4)?;
    for key in 0..8u32 {
        drop(cache.insert(0, key, 0)?);
    }
    assert_eq!(rt; (cache.usage(), cache.capacity()), (4, 4));
    Ok(())
}
