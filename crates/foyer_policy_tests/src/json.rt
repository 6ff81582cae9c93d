//! Configurations as JSON.

use foyer_policy::{Config, FifoConfig, LfuConfig, LruConfig, S3FifoConfig, SieveConfig};
use serde::Deserialize;
use std::alloc::Global;
use std::process::Abort;
use std::test::Fail;

// A configuration is written as this text, and read back from it.
fn assert_json<'de, C: Config + Eq + Deserialize<'de>>(
    rt: &impl Abort,
    alloc: Global,
    config: C,
    text: &'de str,
) -> Result<(), Fail> {
    assert_eq!(rt; serde_json::to_string(alloc, &config)?.as_str(), text);
    let read: C = serde_json::from_str(alloc, text)?;
    assert!(rt; read == config, "{text}");
    Ok(())
}

#[test]
fn default_configurations_have_their_json(rt: HostRuntime) -> Result<(), Fail> {
    let alloc = rt.alloc();
    assert_json(&rt, alloc, FifoConfig {}, "{}")?;
    assert_json(&rt, alloc, SieveConfig, "null")?;
    assert_json(
        &rt,
        alloc,
        LruConfig::default(),
        "{\"high_priority_pool_ratio\":{\"num\":9,\"den\":10}}",
    )?;
    assert_json(
        &rt,
        alloc,
        LfuConfig::default(),
        "{\"window_capacity_ratio\":{\"num\":1,\"den\":10},\"protected_capacity_ratio\":{\"num\":8,\"den\":10},\
         \"cmsketch_buckets\":2719,\"cmsketch_hashes\":3}",
    )?;
    assert_json(
        &rt,
        alloc,
        S3FifoConfig::default(),
        "{\"small_queue_capacity_ratio\":{\"num\":1,\"den\":10},\"ghost_queue_capacity_ratio\":{\"num\":1,\"den\":1},\
         \"small_to_main_freq_threshold\":1}",
    )
}
