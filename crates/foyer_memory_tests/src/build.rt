//! What a builder warns of and reads.

use crate::testing::{Outcome, all_policies};
use foyer_memory::{Cache, CacheBuilder, EvictionConfig, LruConfig};
use foyer_policy::Ratio;
use log::sink::Memory;
use log::{Level, Logged};

#[test]
fn a_small_capacity_is_warned_of_once(rt: HostRuntime) -> Outcome {
    let alloc = rt.alloc();
    let sink = Memory::new(alloc);
    let log = Logged::new(rt, Level::Warn, &sink);
    let cache: Cache<HostRuntime, u64, u64> = CacheBuilder::new(3).build(rt, alloc, &log)?;
    assert_eq!(rt; (cache.capacity(), cache.shards()), (3, 8));
    let equal: Cache<HostRuntime, u64, u64> = CacheBuilder::new(8).build(rt, alloc, &log)?;
    assert_eq!(rt; (equal.capacity(), equal.shards()), (8, 8));
    drop(log);
    let lines = sink.into_lines().into_vec();
    assert_eq!(rt; lines.len(), 1);
    assert!(rt;
        lines[0]
            .as_str()
            .ends_with("The in-memory cache capacity(3) < shards(8).")
    );
    assert!(rt; lines[0].as_str().starts_with("[WARN "));
    Ok(())
}

#[test]
fn json_is_read_back(rt: HostRuntime) -> Outcome {
    let alloc = rt.alloc();
    let text = "{\"Lru\":{\"high_priority_pool_ratio\":{\"num\":9,\"den\":10}}}";
    let read: EvictionConfig = serde_json::from_str(alloc, text)?;
    assert_eq!(rt; read, EvictionConfig::Lru(LruConfig::default()));
    assert_eq!(rt; serde_json::to_string(alloc, &read)?.as_str(), text);
    let faulty = EvictionConfig::from(LruConfig {
        high_priority_pool_ratio: Ratio { num: 1, den: 0 },
    });
    for config in all_policies().into_iter().chain([faulty]) {
        let written = serde_json::to_string(alloc, &config)?;
        let read: EvictionConfig = serde_json::from_str(alloc, written.as_str())?;
        assert_eq!(rt; read, config);
    }
    assert!(rt; serde_json::from_str::<EvictionConfig>(alloc, "{\"Lru\":{}}").is_err());
    assert!(rt; serde_json::from_str::<EvictionConfig>(alloc, "{\"Mru\":{}}").is_err());
    Ok(())
}
