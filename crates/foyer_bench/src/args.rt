//! The arguments of the benchmark.

use crate::moment::Life;
use foyer_policy::{EvictionConfig, FifoConfig, LfuConfig, LruConfig, S3FifoConfig, SieveConfig};

/// The policy of a cache, in its default configuration.
#[derive(Clone, Copy, Debug, PartialEq, Eq)]
pub enum Policy {
    /// First in, first out.
    Fifo,
    /// Least recently used.
    Lru,
    /// w-TinyLFU: least frequently used, with a window.
    Lfu,
    /// S3-FIFO: a small, a main and a ghost queue.
    S3Fifo,
    /// Sieve: a queue with a hand.
    Sieve,
}

impl Policy {
    /// Returns its default configuration.
    pub fn config(self) -> EvictionConfig {
        match self {
            Policy::Fifo => EvictionConfig::Fifo(FifoConfig::default()),
            Policy::Lru => EvictionConfig::Lru(LruConfig::default()),
            Policy::Lfu => EvictionConfig::Lfu(LfuConfig::default()),
            Policy::S3Fifo => EvictionConfig::S3Fifo(S3FifoConfig::default()),
            Policy::Sieve => EvictionConfig::Sieve(SieveConfig::default()),
        }
    }
}

/// What gives the keys their hashes.
#[derive(Clone, Copy, Debug, PartialEq, Eq)]
pub enum Hasher {
    /// The hash is the key.
    Mod,
    /// The hash builder that a cache has where none is given.
    Default,
}

/// By which calls a cache behind locks is driven.
#[derive(Clone, Copy, Debug, PartialEq, Eq)]
pub enum Calls {
    /// `get` and `insert`, whose entries are dropped at once.
    Get,
    /// `read` and `put`, which make no entry.
    Read,
}

/// An exponent of Zipf's law, `num / den`. With 0 all ranks weigh the same.
#[derive(Clone, Copy, Debug, PartialEq, Eq)]
pub struct Skew {
    pub num: u32,
    pub den: u32,
}

/// What the benchmark is asked for.
#[derive(Clone, Copy, Debug, PartialEq, Eq)]
pub struct BenchArgs {
    /// How many threads share a cache behind locks. Where it is `None`, a core is run over.
    pub threads: Option<u64>,
    /// By which calls they drive it.
    pub calls: Calls,
    /// The policy of the cache.
    pub policy: Policy,
    /// The weight that its records may have together.
    pub capacity: u64,
    /// How many shards it has.
    pub shards: u64,
    /// How many keys are looked up, by each thread.
    pub ops: u64,
    /// How many keys there are.
    pub keyspace: u64,
    /// The exponent of Zipf's law.
    pub skew: Skew,
    /// What the random numbers come from.
    pub seed: u64,
    /// What gives the keys their hashes.
    pub hasher: Hasher,
    /// How often the trace is run, each time over a new cache.
    pub reps: u64,
    /// How long records live.
    pub life: Life,
    /// Whether the hits alone are printed.
    pub hits_alone: bool,
}

/// Whether the words begin as those of a cache that threads share.
pub fn are_locked(words: &[String]) -> bool {
    words
        .first()
        .is_some_and(|word| word.as_str() == "--locked")
}

/// What words ask for: perhaps `--locked` and how many threads, and then the cache, its trace and any options. Of an option that stands
/// there twice the last one counts.
pub fn bench_args(words: &[String]) -> Option<BenchArgs> {
    if !are_locked(words) {
        return args_of(None, words);
    }
    let [_, threads, words @ ..] = words else {
        return None;
    };
    args_of(Some(some_of(threads.as_str())?), words)
}

fn args_of(threads: Option<u64>, words: &[String]) -> Option<BenchArgs> {
    let [
        policy,
        capacity,
        shards,
        ops,
        keyspace,
        skew,
        seed,
        options @ ..,
    ] = words
    else {
        return None;
    };
    let args = BenchArgs {
        threads,
        calls: Calls::Get,
        policy: policy_of(policy.as_str())?,
        capacity: number_of(capacity.as_str())?,
        shards: some_of(shards.as_str())?,
        ops: some_of(ops.as_str())?,
        keyspace: some_of(keyspace.as_str())?,
        skew: skew_of(skew.as_str())?,
        seed: number_of(seed.as_str())?,
        hasher: Hasher::Default,
        reps: 1,
        life: Life::Ever,
        hits_alone: false,
    };
    with_options(args, options)
}

// The arguments with what these words change.
fn with_options(mut args: BenchArgs, words: &[String]) -> Option<BenchArgs> {
    // The option whose value comes next.
    let mut option = "";
    for word in words {
        let word = word.as_str();
        let asked = option;
        option = "";
        match (asked, word) {
            ("", "--hits") => args.hits_alone = true,
            ("", "--read") if args.threads.is_some() => args.calls = Calls::Read,
            ("", _) => option = word,
            ("--reps", _) => args.reps = some_of(word)?,
            ("--hasher", _) => args.hasher = hasher_of(word)?,
            _ => args.life = life_of(asked, word)?,
        }
    }
    if option.is_empty() { Some(args) } else { None }
}

fn policy_of(name: &str) -> Option<Policy> {
    match name {
        "fifo" => Some(Policy::Fifo),
        "lru" => Some(Policy::Lru),
        "lfu" => Some(Policy::Lfu),
        "s3fifo" => Some(Policy::S3Fifo),
        "sieve" => Some(Policy::Sieve),
        _ => None,
    }
}

fn hasher_of(name: &str) -> Option<Hasher> {
    match name {
        "mod" => Some(Hasher::Mod),
        "default" => Some(Hasher::Default),
        _ => None,
    }
}

// How long records live by an option and the word behind it.
fn life_of(option: &str, word: &str) -> Option<Life> {
    let length = number_of(word)?;
    match option {
        "--ttl" => Some(Life::For(length)),
        "--ttl-few" => Some(Life::Few(length)),
        "--ttl-spread" => Some(Life::Spread(length)),
        "--ttl-batch" => Some(Life::Batch(length)),
        _ => None,
    }
}

// The number that a word is: decimal digits with a value below 2^64. Leading zeros are fine, a sign is not.
fn number_of(word: &str) -> Option<u64> {
    if !word.as_bytes().iter().all(|byte| byte.is_ascii_digit()) {
        return None;
    }
    word.parse::<u64>().ok()
}

// The number that a word is, where it is not 0.
fn some_of(word: &str) -> Option<u64> {
    number_of(word).filter(|number| *number > 0)
}

// What an exponent is divided by that has so many places after the point.
const DENS: [u32; 7] = [1, 10, 100, 1_000, 10_000, 100_000, 1_000_000];

// The exponent that a decimal number is, with at most 6 places after the point.
fn skew_of(text: &str) -> Option<Skew> {
    let (whole, places) = text.split_once('.').unwrap_or((text, ""));
    let den = *DENS.get(places.len())?;
    let whole = number_of(whole)?.checked_mul(den as u64)?;
    let part = if places.is_empty() {
        0
    } else {
        number_of(places)?
    };
    let num = u32::try_from(whole.checked_add(part)?).ok()?;
    Some(Skew { num, den })
}

#[cfg(test)]
mod tests;
