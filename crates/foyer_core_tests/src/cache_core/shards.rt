//! Cores of more shards than one, and over other indexes.

use super::*;
use foyer_core::{HashTableIndexer, Indexed, Sentry, Shard, shard_capacity};
use foyer_policy::FifoConfig;

#[test]
fn shards_are_made_without_a_core(rt: HostRuntime) -> Done {
    type Plain = Shard<Fifo, u64, u64, CacheProperties, u64, u64, TagFinder<u64>>;
    let config: RawCacheConfig<FifoConfig, _, _, _> = RawCacheConfig::new(9);
    let shards: Vec<Plain> = Core::<Fifo>::new_shards(rt.alloc(), &config)?;
    assert_eq!(rt; shards.len(), 8);
    assert_eq!(rt; (shard_capacity(9, 8, 0), shard_capacity(9, 8, 7)), (2, 1));
    Ok(())
}

// A core's index is of the type that its maker picks.
#[test]
fn a_core_stands_over_another_index(rt: HostRuntime) -> Done {
    type Guarded = Core<Fifo, UnitWeighter, AdmitAll, Indexed<Sentry<HashTableIndexer<u64>>>>;
    let mut core: Guarded = CacheCore::with_index(rt.alloc(), RawCacheConfig::new(8))?;
    for key in 0..9 {
        let (entry, leaves) = put(&rt, &mut core, key, key);
        release(&rt, &mut core, entry);
        assert_eq!(rt; leaves.len(), usize::from(key == 8));
    }
    assert!(rt; !core.contains(0, &0) && core.contains(0, &8) && core.entries() == 8);
    Ok(())
}
