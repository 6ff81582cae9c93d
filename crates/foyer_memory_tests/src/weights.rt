//! Weights past 2^32, in a cache of each policy.

use crate::testing::{Outcome, all_policies};
use foyer_core::{AdmitAll, Weighter};
use foyer_memory::{Cache, CacheBuilder, CacheProperties};
use foyer_policy::ModHasher;
use foyer_raw_tests::notes::Note::Evict;
use foyer_raw_tests::notes::{Ear, Notes};

/// A record weighs what its value says.
#[derive(Clone, Copy, Debug, Default)]
struct ByValue;

impl Weighter<u32, u64> for ByValue {
    ghost use Rattle.std.specs.Prelude.{◌≡◌};

    ghost weighs = { λ _ _ value weight. weight ≡ value };

    fn weigh(&self, _key: &u32, value: &u64) -> usize {
        *value as usize
    }
}

/// A cache of such records.
type Weighed<H> = Cache<H, u32, u64, ModHasher, CacheProperties, ByValue, AdmitAll, Ear>;

// They are counted, and evict.
#[test]
fn a_put_may_weigh_more_than_2_to_the_32(rt: HostRuntime) -> Outcome {
    const WEIGHT: u64 = (1 << 40) + 1;
    for config in all_policies() {
        let notes = Notes::new(rt.alloc())?;
        let cache: Weighed<HostRuntime> = CacheBuilder::new(3 * WEIGHT as usize)
            .with_shards(1)
            .with_eviction_config(config)
            .with_hash_builder(ModHasher::default())
            .with_weighter(ByValue)
            .with_event_listener(Ear(notes.share()?))
            .build(rt, rt.alloc(), &rt)?;
        for key in 0..5u32 {
            cache.put(0, key, WEIGHT)?;
        }
        assert!(rt; notes.are(&[Evict(0, WEIGHT), Evict(1, WEIGHT)]));
        assert_eq!(rt; cache.usage(), 3 * u128::from(WEIGHT));
        notes.forget();
        cache.put(0, 5, 3 * WEIGHT)?;
        assert!(rt; notes.are(&[Evict(2, WEIGHT), Evict(3, WEIGHT), Evict(4, WEIGHT)]));
        assert!(rt; cache.delete(&5)? && cache.usage() == 0);
        cache.put(0, 3, WEIGHT)?;
        cache.put(0, 4, WEIGHT)?;
        assert!(rt; cache.get_copied(0, &4)? == Some(WEIGHT) && cache.delete(&4)?);
        assert_eq!(rt; cache.usage(), u128::from(WEIGHT));
    }
    Ok(())
}
