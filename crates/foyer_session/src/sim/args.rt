//! The arguments of `foyer-sim`.

ghost use Rattle.std.specs.Prelude.{◌≡◌, map, string_bytes};
ghost use Rattle.foyer_session.specs.Args.{args_of, config_of, policy_of};

use crate::text::{is_word, number_of};
use foyer_policy::{EvictionConfig, FifoConfig, LfuConfig, LruConfig, S3FifoConfig, SieveConfig};

/// A policy.
#[derive(Clone, Copy, Debug, PartialEq, Eq)]
pub enum SimPolicy {
    /// First in, first out.
    Fifo,
    /// Least recently used.
    Lru,
    /// w-TinyLFU: least frequently used, with a window.
    Lfu,
    /// S3-FIFO: a small, a main and a ghost queue.
    S3Fifo,
    /// Sieve: a queue with a hand.
    Sieve,
}

impl SimPolicy {
    /// Returns the policy's default configuration.
    pub fn config(self) -> EvictionConfig
        ensures { result ≡ config_of self }
    {
        match self {
            SimPolicy::Fifo => EvictionConfig::Fifo(FifoConfig {}),
            SimPolicy::Lru => EvictionConfig::Lru(LruConfig::default()),
            SimPolicy::Lfu => EvictionConfig::Lfu(LfuConfig::default()),
            SimPolicy::S3Fifo => EvictionConfig::S3Fifo(S3FifoConfig::default()),
            SimPolicy::Sieve => EvictionConfig::Sieve(SieveConfig),
        }
    }
}

/// The arguments.
#[derive(Clone, Copy, Debug, PartialEq, Eq)]
pub struct SimArgs {
    /// The policy, in its default configuration.
    pub policy: SimPolicy,
    /// The capacity.
    pub capacity: usize,
    /// The number of shards.
    pub shards: usize,
}

/// Parses the arguments: the name of a policy, a capacity, and a number of shards that isn't 0.
pub fn sim_args(words: &[String]) -> Option<SimArgs>
    ensures { result ≡ args_of (map string_bytes words.now) }
{
    let [policy, capacity, shards] = words else {
        return None;
    };
    let policy = policy_of(policy.as_bytes())?;
    let capacity = number_of(capacity.as_bytes())?;
    let shards = number_of(shards.as_bytes())?;
    if shards == 0 {
        return None;
    }
    Some(SimArgs {
        policy,
        capacity: capacity as usize,
        shards: shards as usize,
    })
}

// The policy of this name.
fn policy_of(name: &[u8]) -> Option<SimPolicy>
    ensures { result ≡ policy_of name.now }
{
    if is_word(name, b"fifo") {
        Some(SimPolicy::Fifo)
    } else if is_word(name, b"lru") {
        Some(SimPolicy::Lru)
    } else if is_word(name, b"lfu") {
        Some(SimPolicy::Lfu)
    } else if is_word(name, b"s3fifo") {
        Some(SimPolicy::S3Fifo)
    } else if is_word(name, b"sieve") {
        Some(SimPolicy::Sieve)
    } else {
        None
    }
}
