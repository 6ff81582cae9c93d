//! Pieces that stand for no record which is in.

use crate::testing::{Cache, Entry, Outcome, all_policies, builder};
use foyer_memory::EvictionConfig;
use foyer_policy::Source;
use foyer_raw_tests::notes::Notes;
use log::Log;
use std::alloc::Global;
use std::sync::Wait;

// A cache of one shard.
fn cache<H: Wait + Log + Alloc<A = Global> + Copy + Drop>(
    rt: H,
    config: EvictionConfig,
) -> Outcome<Cache<H>> {
    let notes = Notes::new(rt.alloc())?;
    Ok(
        builder(8, config, &notes)?
            .with_shards(1)
            .build(rt, rt.alloc(), &rt)?,
    )
}

// What an entry holds, and how it came in.
fn seen<H: Wait + Drop>(entry: &Entry<H>) -> (u32, u64, usize, Source, usize) {
    (
        *entry.key(),
        *entry.value(),
        entry.weight(),
        entry.source(),
        entry.refs(),
    )
}

// A piece of a cache with the same number whose id was not given yet, and one of a record that was removed: the entries
// have what the pieces have, the sums count them, and they leave like others.
#[test]
fn strange_pieces_come_in(rt: HostRuntime) -> Outcome {
    for (config, same) in all_policies().into_iter().zip(all_policies()) {
        let cache = cache(rt, config)?;
        let other = self::cache(rt, same)?;
        drop(other.insert(0, 1, 10)?);
        drop(other.insert(0, 2, 20)?);
        let strange = other.insert(0, 3, 30)?.piece()?;
        let gone = cache.insert(0, 4, 40)?.piece()?;
        drop(cache.remove(&4)?);
        let strange = cache.insert_piece(0, strange)?;
        let back = cache.insert_piece(0, gone)?;
        assert_eq!(rt; seen(&strange), (3, 30, 1, Source::Memory, 1));
        assert_eq!(rt; seen(&back), (4, 40, 1, Source::Memory, 1));
        assert_eq!(rt; (cache.usage(), cache.entries()), (2, 2));
        for key in 5..8u32 {
            drop(cache.insert(0, key, u64::from(10 * key))?);
        }
        for key in 3..8u32 {
            assert_eq!(rt; *cache.get(0, &key)?.ok_or("none")?, u64::from(10 * key));
        }
        assert_eq!(rt; (cache.usage(), cache.entries()), (5, 5));
        drop(strange);
        drop(back);
        cache.evict_all(0)?;
        assert_eq!(rt; (cache.usage(), cache.entries()), (0, 0));
    }
    Ok(())
}
