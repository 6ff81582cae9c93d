//! The policies that are replayed, and their parameters.

use crate::failure::Failure;
use crate::nearest::unknown;
use crate::number::{decimal, ratio};
use crate::reference::Reference;
use foyer_policy::{Eviction, Lfu, LfuConfig, Lru, LruConfig, Ratio, S3Fifo, S3FifoConfig};
use std::alloc::{AllocError, Global};

/// A policy with its configuration.
#[derive(Drop)]
pub enum Kind {
    Fifo,
    Lru(LruConfig),
    Lfu(LfuConfig),
    S3Fifo(S3FifoConfig),
    Sieve,
    /// The least possible misses, by Belady.
    Belady,
}

/// What replays a trace.
#[derive(Drop)]
pub enum Engine {
    /// A core, or Belady's cache.
    Core(Kind),
    /// LRU at all sizes at once.
    Curve,
    /// Another policy, to compare with.
    Reference(Reference),
}

/// A policy as it was asked for.
#[derive(Drop)]
pub struct Policy<'a> {
    pub engine: Engine,
    /// Its name.
    pub name: &'a str,
    /// The parameters that were given, as they were written.
    pub parameters: String,
}

const NAMES: [&str; 13] = [
    "all",
    "fifo",
    "lru",
    "lfu",
    "s3fifo",
    "sieve",
    "belady",
    "lru-curve",
    "arc",
    "lirs",
    "2q",
    "lru-k",
    "s3fifo-paper",
];

const ALL: [&str; 5] = ["fifo", "lru", "lfu", "s3fifo", "sieve"];

/// The policies of a list such as `lru,s3fifo:small=1/10,threshold=2,belady`, or `all` for the five. A word with `=` is
/// a parameter of the policy before it. Each policy is taken once.
pub fn policies_of<'a>(alloc: Global, list: &'a str) -> Result<Vec<Policy<'a>>, Failure> {
    let mut policies: Vec<Policy<'a>> = Vec::new(alloc);
    for word in list.split(',') {
        let (name, parameter) = match word.split_once(':') {
            Some(parts) => parts,
            None if word.contains('=') => ("", word),
            None => (word, ""),
        };
        if name == "all" {
            for name in ALL {
                policies.push(plain(alloc, name)?)?;
            }
        } else if !name.is_empty() {
            policies.push(plain(alloc, name)?)?;
        }
        if !parameter.is_empty() {
            let Some(policy) = policies.last_mut() else {
                return Err(Failure::Usage(format!(in alloc; "'{word}' is no policy's parameter")?));
            };
            policy.set(alloc, parameter)?;
        }
    }
    if policies.is_empty() {
        return Err(Failure::Usage(format!(in alloc; "'{list}' names no policy")?));
    }
    distinct(alloc, policies)
}

// Each of these once, if it takes its configuration.
fn distinct<'a>(alloc: Global, policies: Vec<Policy<'a>>) -> Result<Vec<Policy<'a>>, Failure> {
    let mut distinct: Vec<Policy<'a>> = Vec::new(alloc);
    for policy in policies {
        policy.check(alloc)?;
        if !distinct.iter().any(|it| it.is_same(&policy)) {
            distinct.push(policy)?;
        }
    }
    Ok(distinct)
}

// A policy in its default configuration.
fn plain<'a>(alloc: Global, name: &'a str) -> Result<Policy<'a>, Failure> {
    let engine = match name {
        "fifo" => Engine::Core(Kind::Fifo),
        "lru" => Engine::Core(Kind::Lru(LruConfig::default())),
        "lfu" => Engine::Core(Kind::Lfu(LfuConfig::default())),
        "s3fifo" => Engine::Core(Kind::S3Fifo(S3FifoConfig::default())),
        "sieve" => Engine::Core(Kind::Sieve),
        "belady" => Engine::Core(Kind::Belady),
        "lru-curve" => Engine::Curve,
        _ => match Reference::of_name(name) {
            Some(reference) => Engine::Reference(reference),
            None => return Err(unknown(alloc, "policy", name, NAMES.as_slice())),
        },
    };
    Ok(Policy {
        engine,
        name,
        parameters: String::new(alloc),
    })
}

impl Policy<'_> {
    /// Whether the policy is one of the core's, which take weights, lives and shards.
    pub fn is_cores(&self) -> bool {
        matches!(self.engine, Engine::Core(_)) && !self.is_belady()
    }

    /// Whether the policy is Belady's.
    pub fn is_belady(&self) -> bool {
        matches!(self.engine, Engine::Core(Kind::Belady))
    }

    /// Whether the policy's name stands for LRU at all sizes.
    pub fn is_curve(&self) -> bool {
        matches!(self.engine, Engine::Curve)
    }

    /// Whether the policy is one to compare with.
    pub fn is_reference(&self) -> bool {
        matches!(self.engine, Engine::Reference(_))
    }

    /// The policy's name, with its parameters if it has some.
    pub fn label(&self, alloc: Global) -> Result<String, AllocError> {
        label_of(alloc, self.name, self.parameters.as_str())
    }

    // Whether another one has the same name and parameters.
    fn is_same(&self, other: &Policy<'_>) -> bool {
        self.name == other.name && self.parameters.as_str() == other.parameters.as_str()
    }

    // Sets a parameter, as `small=1/10`.
    fn set(&mut self, alloc: Global, word: &str) -> Result<(), Failure> {
        let (parameter, value) = word.split_once('=').unwrap_or((word, ""));
        match &mut self.engine {
            Engine::Core(Kind::Lru(config)) => set_lru(alloc, config, parameter, value)?,
            Engine::Core(Kind::Lfu(config)) => set_lfu(alloc, config, parameter, value)?,
            Engine::Core(Kind::S3Fifo(config)) => set_s3fifo(alloc, config, parameter, value)?,
            Engine::Core(Kind::Fifo | Kind::Sieve | Kind::Belady)
            | Engine::Curve
            | Engine::Reference(_) => {
                let name = self.name;
                return Err(Failure::Usage(format!(in alloc;
                    "{name} has no parameters, and '{word}' is given"
                )?));
            }
        }
        if !self.parameters.is_empty() {
            self.parameters.push(' ')?;
        }
        self.parameters.push_str(word)?;
        Ok(())
    }

    // Whether the policy takes its configuration.
    fn check(&self, alloc: Global) -> Result<(), Failure> {
        let checked = match &self.engine {
            Engine::Core(Kind::Lru(config)) => Lru::check(config),
            Engine::Core(Kind::Lfu(config)) => Lfu::check(config),
            Engine::Core(Kind::S3Fifo(config)) => S3Fifo::check(config),
            Engine::Core(Kind::Fifo | Kind::Sieve | Kind::Belady)
            | Engine::Curve
            | Engine::Reference(_) => Ok(()),
        };
        let Err(error) = checked else {
            return Ok(());
        };
        let (name, parameters) = (self.name, self.parameters.as_str());
        Err(Failure::Usage(format!(in alloc; "{name}:{parameters}: {error}")?))
    }
}

/// What stands beside a policy's line: its name and its parameters, and whether it is one to compare with.
pub fn label_of(alloc: Global, name: &str, parameters: &str) -> Result<String, AllocError> {
    if Reference::of_name(name).is_some() {
        format!(in alloc; "{name} (unproved)")
    } else if parameters.is_empty() {
        String::from_str(alloc, name)
    } else {
        format!(in alloc; "{name} ({parameters})")
    }
}

fn set_lru(
    alloc: Global,
    config: &mut LruConfig,
    parameter: &str,
    value: &str,
) -> Result<(), Failure> {
    match parameter {
        "high" => config.high_priority_pool_ratio = ratio_of(alloc, parameter, value)?,
        _ => return Err(unknown(alloc, "parameter of lru", parameter, &["high"])),
    }
    Ok(())
}

fn set_lfu(
    alloc: Global,
    config: &mut LfuConfig,
    parameter: &str,
    value: &str,
) -> Result<(), Failure> {
    match parameter {
        "window" => config.window_capacity_ratio = ratio_of(alloc, parameter, value)?,
        "protected" => config.protected_capacity_ratio = ratio_of(alloc, parameter, value)?,
        "buckets" => {
            config.cmsketch_buckets = number_of(alloc, parameter, value, u32::MAX)?;
        }
        "hashes" => {
            config.cmsketch_hashes = byte_of(alloc, parameter, value)?;
        }
        _ => {
            let known = ["window", "protected", "buckets", "hashes"];
            return Err(unknown(alloc, "parameter of lfu", parameter, known.as_slice()));
        }
    }
    Ok(())
}

fn set_s3fifo(
    alloc: Global,
    config: &mut S3FifoConfig,
    parameter: &str,
    value: &str,
) -> Result<(), Failure> {
    match parameter {
        "small" => config.small_queue_capacity_ratio = ratio_of(alloc, parameter, value)?,
        "ghost" => config.ghost_queue_capacity_ratio = ratio_of(alloc, parameter, value)?,
        "threshold" => {
            config.small_to_main_freq_threshold = byte_of(alloc, parameter, value)?;
        }
        _ => {
            let known = ["small", "ghost", "threshold"];
            return Err(unknown(alloc, "parameter of s3fifo", parameter, known.as_slice()));
        }
    }
    Ok(())
}

fn ratio_of(alloc: Global, parameter: &str, value: &str) -> Result<Ratio, Failure> {
    match ratio(value) {
        Some(ratio) => Ok(ratio),
        None => Err(Failure::Usage(format!(in alloc;
            "{parameter} must be a share such as 1/10 or 0.1, and not '{value}'"
        )?)),
    }
}

fn number_of(alloc: Global, parameter: &str, value: &str, most: u32) -> Result<u32, Failure> {
    let number = decimal(value.as_bytes()).filter(|number| *number <= most as u64);
    match number.and_then(|number| u32::try_from(number).ok()) {
        Some(number) => Ok(number),
        None => Err(Failure::Usage(format!(in alloc;
            "{parameter} must be a number from 0 to {most}, and not '{value}'"
        )?)),
    }
}

fn byte_of(alloc: Global, parameter: &str, value: &str) -> Result<u8, Failure> {
    let number = number_of(alloc, parameter, value, u8::MAX as u32)?;
    Ok(u8::try_from(number).unwrap_or(u8::MAX))
}
