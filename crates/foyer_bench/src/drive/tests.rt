use super::*;
use crate::args::Skew;
use crate::moment::Life;
use crate::trace::{Ranks, keys_of};
use foyer_core::RawCacheConfig;
use foyer_policy::{Fifo, Lfu, Lru, ModHasher, S3Fifo, Sieve};
use std::test::Fail;

// How many of two thousand keys a core of capacity 20 finds, where records live so long.
fn hits<E: Eviction>(alloc: Global, shards: usize, life: Life) -> std::result::Result<usize, Fail>
where
    E::Config: Default,
{
    let Ok(ranks) = Ranks::new(alloc, 200, Skew { num: 9, den: 10 }) else {
        return Ok(0);
    };
    let keys = keys_of(alloc, &ranks, 1, 2_000)?;
    let config = RawCacheConfig {
        shards,
        ..RawCacheConfig::new(20)
    };
    let mut core = Core::<E, ModHasher>::new(alloc, config)?;
    // In two parts: the moments go on.
    let mut next = Moment::first(life);
    let (first, second) = keys.as_slice().split_at(700);
    let hits = drive(alloc, &mut core, first, &mut next)?;
    Ok(hits + drive(alloc, &mut core, second, &mut next)?)
}

// As upstream finds them.
#[test]
fn one_shard(rt: HostRuntime) -> std::result::Result<(), Fail> {
    assert_eq!(rt; hits::<Fifo>(rt.alloc(), 1, Life::Ever)?, 721);
    assert_eq!(rt; hits::<Lru>(rt.alloc(), 1, Life::Ever)?, 807);
    assert_eq!(rt; hits::<Lfu>(rt.alloc(), 1, Life::Ever)?, 1_061);
    assert_eq!(rt; hits::<S3Fifo>(rt.alloc(), 1, Life::Ever)?, 1_000);
    assert_eq!(rt; hits::<Sieve>(rt.alloc(), 1, Life::Ever)?, 962);
    Ok(())
}

#[test]
fn three_shards(rt: HostRuntime) -> std::result::Result<(), Fail> {
    assert_eq!(rt; hits::<Fifo>(rt.alloc(), 3, Life::Ever)?, 719);
    assert_eq!(rt; hits::<Lru>(rt.alloc(), 3, Life::Ever)?, 778);
    assert_eq!(rt; hits::<Lfu>(rt.alloc(), 3, Life::Ever)?, 946);
    assert_eq!(rt; hits::<S3Fifo>(rt.alloc(), 3, Life::Ever)?, 981);
    assert_eq!(rt; hits::<Sieve>(rt.alloc(), 3, Life::Ever)?, 963);
    Ok(())
}

// As a model in another language finds them.
#[test]
fn where_records_expire(rt: HostRuntime) -> std::result::Result<(), Fail> {
    let life = Life::For(100);
    assert_eq!(rt; hits::<Fifo>(rt.alloc(), 3, life)?, 719);
    assert_eq!(rt; hits::<Lru>(rt.alloc(), 3, life)?, 768);
    assert_eq!(rt; hits::<Lfu>(rt.alloc(), 3, life)?, 815);
    assert_eq!(rt; hits::<S3Fifo>(rt.alloc(), 3, life)?, 818);
    assert_eq!(rt; hits::<Sieve>(rt.alloc(), 3, life)?, 814);
    assert_eq!(rt; hits::<Fifo>(rt.alloc(), 1, Life::For(30))?, 685);
    assert_eq!(rt; hits::<Sieve>(rt.alloc(), 1, Life::For(30))?, 689);
    assert_eq!(rt; hits::<Lru>(rt.alloc(), 1, Life::For(1))?, 0);
    Ok(())
}
