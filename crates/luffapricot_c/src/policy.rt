//! Configurations of policies, as C writes them.

ghost use Rattle.std.specs.Prelude.{◌≡◌};
ghost use Rattle.luffapricot_c.specs.Policies.{config_of, ratio_of};

use foyer_policy::{
    EvictionConfig, FifoConfig, LfuConfig, LruConfig, Ratio, S3FifoConfig, SieveConfig,
};

/// A share of a capacity: `num / den`.
#[repr(C)]
#[derive(Clone, Copy)]
pub struct LuffaRatio {
    pub num: u32,
    pub den: u32,
}

/// A policy by its number, and the configuration of each. Only that of the named policy is read.
#[repr(C)]
#[derive(Clone, Copy)]
pub struct LuffaPolicy {
    pub kind: u32,
    pub high_priority_pool: LuffaRatio,
    pub window: LuffaRatio,
    pub protected: LuffaRatio,
    pub sketch_buckets: u32,
    pub sketch_rows: u8,
    pub small_to_main: u8,
    pub small_queue: LuffaRatio,
    pub ghost_queue: LuffaRatio,
}

const FIFO: u32 = 0;

const LRU: u32 = 1;

const LFU: u32 = 2;

const S3FIFO: u32 = 3;

const SIEVE: u32 = 4;

impl LuffaRatio {
    fn ratio(&self) -> Ratio
        ensures { result ≡ ratio_of self.now }
    {
        Ratio {
            num: self.num,
            den: self.den,
        }
    }
}

impl LuffaPolicy {
    /// The configuration, or `None` if no policy has the number.
    pub(crate) fn config(&self) -> Option<EvictionConfig>
        ensures { result ≡ config_of self.now }
    {
        match self.kind {
            FIFO => Some(EvictionConfig::Fifo(FifoConfig {})),
            LRU => Some(EvictionConfig::Lru(LruConfig {
                high_priority_pool_ratio: self.high_priority_pool.ratio(),
            })),
            LFU => Some(EvictionConfig::Lfu(LfuConfig {
                window_capacity_ratio: self.window.ratio(),
                protected_capacity_ratio: self.protected.ratio(),
                cmsketch_buckets: self.sketch_buckets,
                cmsketch_hashes: self.sketch_rows,
            })),
            S3FIFO => Some(EvictionConfig::S3Fifo(S3FifoConfig {
                small_queue_capacity_ratio: self.small_queue.ratio(),
                ghost_queue_capacity_ratio: self.ghost_queue.ratio(),
                small_to_main_freq_threshold: self.small_to_main,
            })),
            SIEVE => Some(EvictionConfig::Sieve(SieveConfig)),
            _ => None,
        }
    }
}
