//! Cores, and how they look.

use foyer_core::{AdmitAll, CacheCore, CacheProperties, Inserted, Leave, RawCacheConfig};
use foyer_policy::{AnyEviction, EvictionConfig, ModHasher, Result};
use foyer_session::{SimValue, SimWeighter};
use std::alloc::Global;

/// A core whose records weigh what their values say.
pub type Core = CacheCore<
    AnyEviction,
    u64,
    SimValue,
    CacheProperties,
    ModHasher,
    SimWeighter,
    AdmitAll,
    (),
    u64,
>;

/// What left a core.
pub type Leaves = Vec<Leave<u64, SimValue, CacheProperties>>;

/// A value of this weight.
pub fn weighing(weight: usize) -> SimValue {
    SimValue { value: 7, weight }
}

/// The configuration of such a core of one shard.
pub fn one_shard(
    config: &EvictionConfig,
    capacity: usize,
) -> Result<RawCacheConfig<EvictionConfig, ModHasher, SimWeighter, AdmitAll>> {
    Ok(RawCacheConfig {
        shards: 1,
        eviction_config: config.clone()?,
        ..RawCacheConfig::new(capacity).with_weighter(SimWeighter)
    })
}

/// A core that holds nothing.
pub fn empty(
    alloc: Global,
    config: &EvictionConfig,
    capacity: usize,
    shards: usize,
    number: u64,
) -> Result<Core> {
    let config = RawCacheConfig {
        shards,
        number,
        ..one_shard(config, capacity)?
    };
    CacheCore::new(alloc, config)
}

/// Puts records of the keys below `end` in, each of weight 1, which expire then, and lets their entries go.
pub fn fill(core: &mut Core, end: u64, expires: Option<u64>) -> Result<()> {
    for key in 0..end {
        let properties = CacheProperties::default().with_expiry(expires);
        let made = core.insert_with_properties(0, key, weighing(1), properties)?;
        drop(ended(core, made));
    }
    Ok(())
}

/// Ends what came in: the record's id, and what left.
pub fn ended(core: &mut Core, made: Inserted<u64, SimValue, CacheProperties, ()>) -> (u64, Leaves) {
    let Inserted {
        entry,
        answers,
        leaves,
    } = made;
    let id = entry.id();
    core.drop_answers(answers);
    drop(core.drop_entry(entry));
    (id, leaves)
}

/// The key of which a fetch may be open.
pub const FETCHED: u64 = 40;

/// How a core looks from outside: its sums, which of the keys below 64 are in, and whether the first fetch of `FETCHED`
/// is open.
#[derive(Clone, Copy, PartialEq, Eq)]
pub struct Look {
    pub usage: u128,
    pub entries: u128,
    pub capacity: usize,
    pub is_open: bool,
    keys: u64,
}

impl Look {
    pub fn of(core: &Core) -> Look {
        let look = Look::seen(
            core.usage(),
            core.entries(),
            core.capacity(),
            &|key| core.contains(0, key),
        );
        Look {
            is_open: core.is_open(&FETCHED, 0),
            ..look
        }
    }

    /// The look of what has these sums and these keys, and no open fetch.
    pub fn seen<F: Fn(&u64) -> bool>(
        usage: u128,
        entries: u128,
        capacity: usize,
        is_in: &F,
    ) -> Look {
        let mut keys = 0;
        for key in 0..64u64 {
            if is_in(&key) {
                keys |= bit(key);
            }
        }
        Look {
            usage,
            entries,
            capacity,
            is_open: false,
            keys,
        }
    }

    /// The look once these have left, each of weight 1.
    pub fn without(self, leaves: &Leaves) -> Look {
        let mut look = self;
        for (_, left) in leaves {
            look = look.without_key(*left.key());
        }
        look
    }

    /// The look once a key's record has left, of weight 1, where it is in.
    pub fn without_key(self, key: u64) -> Look {
        if self.keys & bit(key) == 0 {
            return self;
        }
        Look {
            usage: self.usage.saturating_sub(1),
            entries: self.entries.saturating_sub(1),
            keys: self.keys & !bit(key),
            ..self
        }
    }

    /// The look once a key's record has come in.
    pub fn with(self, key: u64, weight: usize) -> Look {
        Look {
            usage: self.usage.saturating_add(weight as u128),
            entries: self.entries.saturating_add(1),
            keys: self.keys | bit(key),
            ..self
        }
    }
}

// The bit of a key below 64.
fn bit(key: u64) -> u64 {
    1 << (key % 64)
}
