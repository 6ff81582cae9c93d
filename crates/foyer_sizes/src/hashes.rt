//! The hash of a key is the hash builder's.

use crate::cache::{SEED, Seeded, cache};
use crate::case::{Cases, Outcome, Runtime, same};
use crate::heard::Heard;
use foyer_memory::EvictionConfig;
use foyer_policy::HashBuilder;

pub fn run<H: Runtime>(cases: &mut Cases<H>) -> Outcome {
    let rt = cases.rt;
    cases.of_each_policy("hashes are the builder's", |config| hashes(rt, config))
}

fn hashes<H: Runtime>(rt: H, config: EvictionConfig) -> Outcome {
    let heard = Heard::new(rt.alloc(), 0)?;
    let cache = cache(rt, 1000, 3, config, &heard)?;
    let own = Seeded { seed: SEED };
    for key in [0, 1, 255, 1 << 31, 1 << 32, u64::MAX >> 8, u64::MAX] {
        let wanted = key.wrapping_mul(256).wrapping_add(u64::from(SEED));
        same(
            rt,
            "hash of the builder",
            &HashBuilder::hash_one(&own, &key),
            &wanted,
        )?;
        same(rt, "hash", &cache.hash(&key), &wanted)?;
        let builder: &Seeded = cache.hash_builder();
        same(
            rt,
            "hash of the cache's builder",
            &HashBuilder::hash_one(builder, &key),
            &wanted,
        )?;
        same(
            rt,
            "hash of an entry",
            &cache.insert(0, key, 1)?.hash(),
            &wanted,
        )?;
    }
    Ok(())
}
