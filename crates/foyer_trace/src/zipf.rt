//! Synthetic traces.

use crate::failure::Failure;
use crate::nearest::unknown;
use crate::number::{count, float};
use rand_core::{Rng, SeedableRng};
use rand_xoshiro::Xoshiro256PlusPlus;
use std::alloc::Global;
use std::io::Write;

/// Zipf's law: the key of rank r, from 1 on, is as likely as 1 / r^skew.
#[derive(Clone, Copy)]
pub struct Zipf {
    /// How many requests there are.
    pub ops: u64,
    /// How many keys there are.
    pub keys: u64,
    /// The exponent.
    pub skew: f64,
    /// What the random numbers come from.
    pub seed: u64,
}

const NAMES: [&str; 4] = ["ops", "keys", "skew", "seed"];

/// The trace that a word such as `zipf:ops=1M,keys=100k,skew=0.9,seed=1` asks for.
pub fn zipf_of(alloc: Global, word: &str) -> Result<Zipf, Failure> {
    let mut zipf = Zipf {
        ops: 1_000_000,
        keys: 100_000,
        skew: 0.9,
        seed: 1,
    };
    let (kind, parameters) = word.split_once(':').unwrap_or((word, ""));
    if kind != "zipf" {
        return Err(unknown(alloc, "kind of trace", kind, &["zipf"]));
    }
    for it in parameters.split(',') {
        if it.is_empty() {
            continue;
        }
        let (name, value) = it.split_once('=').unwrap_or((it, ""));
        let number = count(value);
        match (name, number) {
            ("ops", Some(number)) => zipf.ops = number,
            ("keys", Some(number)) if number > 0 => zipf.keys = number,
            ("seed", Some(number)) => zipf.seed = number,
            ("skew", _) => match value.parse::<f64>() {
                Ok(skew) if skew >= 0.0 && skew < 100.0 => zipf.skew = skew,
                _ => return Err(bad_value(alloc, it)),
            },
            ("ops" | "keys" | "seed", _) => return Err(bad_value(alloc, it)),
            _ => return Err(unknown(alloc, "parameter of zipf", name, NAMES.as_slice())),
        }
    }
    Ok(zipf)
}

fn bad_value(alloc: Global, word: &str) -> Failure {
    match format!(in alloc; "'{word}' has no number that fits") {
        Ok(text) => Failure::Usage(text),
        Err(_) => Failure::Memory,
    }
}

/// Writes a trace, a key a line: ranks from 0.
pub fn write_zipf<W: Write>(alloc: Global, zipf: Zipf, out: &mut W) -> Result<(), Failure> {
    let mut sums = Vec::with_capacity(alloc, zipf.keys as usize)?;
    let mut sum = 0.0f64;
    for rank in 0..zipf.keys {
        sum = sum + (float(rank as u128) + 1.0).powf(0.0 - zipf.skew);
        sums.push(sum)?;
    }
    let mut random = Xoshiro256PlusPlus::seed_from_u64(zipf.seed);
    for _op in 0..zipf.ops {
        // 53 random bits are a number from 0 to below 1.
        let part = float((random.next_u64() >> 11) as u128) / 9007199254740992.0;
        let rank = sums.partition_point(|it| *it <= part * sum);
        let rank = (rank as u64).min(zipf.keys.saturating_sub(1));
        match writeln!(out, "{rank}") {
            Ok(()) => {}
            Err(error) => return Err(Failure::of_output(alloc, &error)),
        }
    }
    match out.flush() {
        Ok(()) => Ok(()),
        Err(error) => Err(Failure::of_output(alloc, &error)),
    }
}
