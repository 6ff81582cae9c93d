//! How tasks end.

use super::*;
use crate::notes::Note::{Evict, Piece, Remove};

// What a fetch with these builders gives a lone waiter.
fn outcome<H: Wait + RandomSource + Alloc<A = Global> + Copy + Drop>(
    rt: H,
    builders: Builders,
) -> Outcome<(u64, Source)> {
    let (cache, _notes) = piped(rt, fifo(4, 1))?;
    let entry = got(&rt, ended(&rt, &cache, builders)?)?;
    Ok((*entry, entry.source()))
}

// A value of the optional fetch is from the disk. Where there is none, or a fault, the required fetch follows.
#[test]
fn an_optional_fetch_comes_first(rt: HostRuntime) -> Outcome {
    let found = (optionally(2, Ok(Some(value(4)))), must(0, Ok(value(5))));
    assert_eq!(rt; outcome(rt, found)?, (4, Source::Disk));
    let nothing = (optionally(1, Ok(None)), must(1, Ok(value(5))));
    assert_eq!(rt; outcome(rt, nothing)?, (5, Source::Outer));
    let faulty = (
        optionally(0, Err(fault(rt.alloc(), 3))),
        must(0, Ok(value(5))),
    );
    assert_eq!(rt; outcome(rt, faulty)?, (5, Source::Outer));
    Ok(())
}

#[test]
fn a_builder_that_was_lent(rt: HostRuntime) -> Outcome {
    let (cache, _notes) = piped(rt, fifo(4, 1))?;
    let optional = (optionally(1, Ok(None)), None);
    let required = (None, must(1, Ok(value(5))));
    let (first, second) = both_ended(&rt, &cache, optional, required)?;
    let (first, second) = (got(&rt, first)?, got(&rt, second)?);
    assert_eq!(rt; (*first, first.source()), (5, Source::Outer));
    assert_eq!(rt; (*second, second.source()), (5, Source::Outer));
    Ok(())
}

#[test]
fn a_fault_is_shared(rt: HostRuntime) -> Outcome {
    let alloc = rt.alloc();
    let (cache, _notes) = piped(rt, fifo(4, 1))?;
    let optional = (optionally(0, Err(fault(alloc, 3))), None);
    let (first, second) = both_ended(&rt, &cache, optional, NONE)?;
    assert_eq!(rt;
        (refused(&rt, first)?, refused(&rt, second)?),
        (Some(11), Some(11))
    );
    let required = (None, must(1, Err(fault(alloc, 4))));
    let third = ended(&rt, &cache, required)?;
    assert_eq!(rt; refused(&rt, third)?, Some(11));
    Ok(())
}

// A required builder whose fetch gives a piece of a record of this key that was in.
fn must_give_piece<H: Wait + Drop>(cache: &Cache<H>, key: u32, value: u64) -> Result<Builders> {
    let piece = cache.insert(0, key, value)?.piece()?;
    drop(cache.remove(&key)?);
    Ok((None, must(0, Ok(FetchTarget::Piece(piece)))))
}

#[test]
fn a_piece_of_another_key(rt: HostRuntime) -> Outcome {
    let (cache, _notes) = piped(rt, fifo(4, 1))?;
    let required = must_give_piece(&cache, 8, 80)?;
    let (first, second) = both_ended(&rt, &cache, (optionally(0, Ok(None)), None), required)?;
    assert_eq!(rt;
        (refused(&rt, first)?, refused(&rt, second)?),
        (Some(12), Some(12))
    );
    assert!(rt; !cache.contains(0, &7) && !cache.contains(0, &8));
    Ok(())
}

// A piece of a cache with another number makes a new record, of the weight that the weighter gives it.
#[test]
fn a_piece_of_another_cache(rt: HostRuntime) -> Outcome {
    let config = RawCacheConfig {
        number: 1,
        ..fifo(4, 1)
    };
    let (cache, _notes) = piped(rt, fifo(4, 1))?;
    let (other, _notes) = heard(rt, config)?;
    let required = must_give_piece(&other, 7, 70)?;
    let entry = got(&rt, ended(&rt, &cache, required)?)?;
    assert_eq!(rt;
        (*entry, entry.source(), entry.weight()),
        (70, Source::Memory, 1)
    );
    assert_eq!(rt; (cache.usage(), cache.entries()), (1, 1));
    Ok(())
}

// A completion by a piece needs a handle for each who waits, and none beside.
#[test]
fn a_piece_of_the_key_comes_at_the_limit(rt: HostRuntime) -> Outcome {
    let limits = Limits {
        handles: 2,
        ..Limits::default()
    };
    let (cache, _notes) = heard(rt, limited(4, limits))?;
    let required = must_give_piece(&cache, 7, 70)?;
    let (first, second) = both_ended(&rt, &cache, required, NONE)?;
    let (first, second) = (got(&rt, first)?, got(&rt, second)?);
    assert_eq!(rt;
        (*first, first.source(), first.refs()),
        (70, Source::Memory, 2)
    );
    assert_eq!(rt; (*second, second.refs()), (70, 2));
    assert_eq!(rt; number(cache.get(0, &7)), Some(9));
    Ok(())
}

// Without a number for it no fetch begins, and none who leads one gets a task.
#[test]
fn a_fetch_without_a_number_is_refused(rt: HostRuntime) -> Outcome {
    let limits = Limits {
        ids: 1,
        ..Limits::default()
    };
    let (cache, _notes) = heard(rt, limited(4, limits))?;
    let (first, mut spawner) = begun(&cache, rt.alloc(), (None, must(0, Ok(value(5)))))?;
    assert_eq!(rt; number(look(&cache, &mut spawner, NONE)), Some(10));
    finish(&rt, spawner)?;
    assert_eq!(rt; *got(&rt, first)?, 5);
    Ok(())
}

// With which number one who waits is refused where the task is polled so many times and then dropped.
fn refused_after<H: Wait + RandomSource + Alloc<A = Global> + Drop>(
    rt: &H,
    cache: &Cache<H>,
    builders: Builders,
    polls: u64,
) -> Outcome<Option<u8>> {
    let (wait, spawner) = begun(cache, rt.alloc(), builders)?;
    match polls {
        0 => drop(spawner),
        _ => drop(polled(rt, spawner, polls)?),
    }
    refused(rt, wait)
}

#[test]
fn a_task_is_dropped(rt: HostRuntime) -> Outcome {
    let (cache, _notes) = piped(rt, fifo(4, 1))?;
    // Before its first poll, in the optional fetch, and in the required one.
    assert_eq!(rt; refused_after(&rt, &cache, NONE, 0)?, Some(15));
    let optional = (optionally(9, Ok(None)), None);
    assert_eq!(rt; refused_after(&rt, &cache, optional, 1)?, Some(15));
    let two = (optionally(0, Ok(None)), must(9, Ok(value(5))));
    assert_eq!(rt; refused_after(&rt, &cache, two, 2)?, Some(15));
    // The key can be fetched anew.
    let required = (None, must(2, Ok(value(5))));
    let wait = ended(&rt, &cache, required)?;
    assert_eq!(rt; *got(&rt, wait)?, 5);
    Ok(())
}

#[test]
fn a_fetch_evicts(rt: HostRuntime) -> Outcome {
    let (cache, notes) = piped(rt, fifo(4, 1))?;
    for key in 0..4u32 {
        drop(cache.insert(0, key, u64::from(key))?);
    }
    let wait = ended(&rt, &cache, (None, must(0, Ok(value(5)))))?;
    assert!(rt; notes.are(&[Evict(0, 0), Piece(0, 0)]));
    assert_eq!(rt; *got(&rt, wait)?, 5);
    Ok(())
}

// Who waits is answered before anything is told: what nobody received leaves first, as the last handle of a phantom.
#[test]
fn an_answer_comes_back_before_the_leaves(rt: HostRuntime) -> Outcome {
    let (cache, notes) = piped(rt, fifo(4, 1))?;
    let target = FetchTarget::Entry {
        value: 5,
        properties: phantom(),
    };
    let (wait, spawner) = begun(&cache, rt.alloc(), (None, must(0, Ok(target))))?;
    drop(wait);
    finish(&rt, spawner)?;
    assert!(rt; notes.are(&[Evict(7, 5), Piece(7, 5), Remove(7, 5)]));
    Ok(())
}

// A piece whose key lives in another shard stands for no record of the fetch's shard, whichever record has its id there.
#[test]
fn a_piece_of_another_shard(rt: HostRuntime) -> Outcome {
    let (cache, _notes) = piped(rt, fifo(4, 2))?;
    let held = cache.insert(0, 7, 70)?;
    drop(cache.remove(&7)?);
    let piece = cache.insert(0, 8, 80)?.piece()?;
    let wait = ended(&rt, &cache, (None, must(0, Ok(FetchTarget::Piece(piece)))))?;
    assert_eq!(rt; refused(&rt, wait)?, Some(12));
    assert!(rt; held.is_outdated() && !cache.contains(0, &7));
    Ok(())
}
