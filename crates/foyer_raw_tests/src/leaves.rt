//! What is told of leaves, and in which order.

use crate::notes::Note::{Clear, Evict, Piece, Remove, Replace};
use crate::notes::{Ear, Notes};
use crate::testing::cache::{heard, piped, with_tube};
use crate::testing::{Outcome, fifo, phantom};
use foyer_core::{AdmitAll, CacheProperties, Limits, RawCacheConfig, Weighter};
use foyer_policy::{Fifo, FifoConfig, ModHasher};
use foyer_raw::RawCache;

#[test]
fn a_phantom_leaves_with_its_entry(rt: HostRuntime) -> Outcome {
    let (cache, notes) = piped(rt, fifo(2, 1))?;
    drop(cache.insert(0, 1, 1)?);
    let held = cache.insert_with_properties(0, 1, 100, phantom())?;
    let [replaced, removed] = [Replace(1, 1), Remove(1, 100)];
    assert!(rt; notes.are(&[replaced, removed]));
    assert_eq!(rt; cache.usage(), 0);
    assert!(rt; held.is_outdated());
    drop(held);
    assert!(rt; notes.are(&[replaced, removed, Evict(1, 100), Piece(1, 100)]));
    assert!(rt; cache.get(0, &1)?.is_none());
    Ok(())
}

#[test]
fn the_listener_hears_before_the_pipe(rt: HostRuntime) -> Outcome {
    let (cache, notes) = heard(rt, fifo(1, 1))?;
    let piped = with_tube(cache.try_clone()?, rt.alloc(), &notes, true)?;
    drop(cache.insert(0, 1, 10)?);
    drop(cache.insert(0, 2, 20)?);
    drop(piped.insert(0, 3, 30)?);
    drop(piped.remove(&3)?);
    drop(piped.insert(0, 4, 40)?);
    piped.clear()?;
    assert!(rt;
        notes.are(&[
            Evict(1, 10),
            Evict(2, 20),
            Piece(2, 20),
            Remove(3, 30),
            Clear(4, 40)
        ])
    );
    Ok(())
}

#[test]
fn the_last_owner_clears(rt: HostRuntime) -> Outcome {
    let (cache, notes) = heard(rt, fifo(4, 2))?;
    let held = cache.insert(0, 1, 10)?;
    drop(cache.insert(0, 3, 30)?);
    let of_the_other_shard = cache.insert(0, 2, 20)?;
    drop(cache);
    drop(held);
    assert!(rt; notes.are(&[]));
    drop(of_the_other_shard);
    assert!(rt; notes.are(&[Clear(2, 20), Clear(1, 10), Clear(3, 30)]));
    Ok(())
}

/// Says that a record weighs its value.
struct ValueWeighter;

impl Drop for ValueWeighter {
    fn drop(self) {
        let ValueWeighter = self;
    }
}

impl Weighter<u32, u64> for ValueWeighter {
    ghost use Rattle.std.specs.Prelude.{◌≡◌};

    ghost weighs = { λ _ _ value w. w ≡ value };

    fn weigh(&self, _key: &u32, value: &u64) -> usize {
        *value as usize
    }
}

// One record that leaves, two, three and many, each told once and in order. What an insert tells isn't told again.
#[test]
fn an_insert_tells_all_that_leave_for_it(rt: HostRuntime) -> Outcome {
    let config: RawCacheConfig<FifoConfig, ModHasher, _, _> = RawCacheConfig {
        capacity: 8,
        shards: 1,
        eviction_config: FifoConfig {},
        hash_builder: ModHasher::default(),
        weighter: ValueWeighter,
        filter: AdmitAll,
        number: 0,
        limits: Limits::default(),
    };
    let notes = Notes::new(rt.alloc())?;
    let cache: RawCache<
        HostRuntime,
        Fifo,
        u32,
        u64,
        ModHasher,
        CacheProperties,
        ValueWeighter,
        AdmitAll,
        Ear,
    > = RawCache::new(rt, rt.alloc(), config, Ear(notes.share()?))?;
    for key in 1..9 {
        drop(cache.insert(0, key, 1)?);
    }
    drop(cache.insert(0, 9, 1)?);
    drop(cache.insert(0, 10, 2)?);
    drop(cache.insert(0, 11, 3)?);
    let [one, two, three] = [Evict(1, 1), Evict(2, 1), Evict(3, 1)];
    let [four, five, six] = [Evict(4, 1), Evict(5, 1), Evict(6, 1)];
    assert!(rt; notes.are(&[one, two, three, four, five, six]));
    drop(cache.insert(0, 10, 1)?);
    drop(cache.insert(0, 12, 8)?);
    assert!(rt;
        notes.are(&[
            one,
            two,
            three,
            four,
            five,
            six,
            Evict(7, 1),
            Replace(10, 2),
            Evict(8, 1),
            Evict(9, 1),
            Evict(11, 3),
            Evict(10, 1)
        ])
    );
    assert_eq!(rt; cache.usage(), 8);
    Ok(())
}
