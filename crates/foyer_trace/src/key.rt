//! Keys as the core has them: 64 bits, mixed.

use crate::number::{decimal, float};
use std::num::saturating_f64_to_u64;

/// A number, mixed by the finalizer of splitmix64. Distinct numbers stay distinct.
#[inline]
pub fn mix(number: u64) -> u64 {
    let first = (number ^ (number >> 30)).wrapping_mul(0xBF58476D1CE4E5B9);
    let second = (first ^ (first >> 27)).wrapping_mul(0x94D049BB133111EB);
    second ^ (second >> 31)
}

/// The key of a number.
#[inline]
pub fn key_of_number(number: u64) -> u64 {
    mix(number)
}

/// The key of a text: that of the number if the text is one below 2^64 without leading zeros, else that of the text's
/// FNV-1a hash.
pub fn key_of_text(text: &[u8]) -> u64 {
    let is_plain = text.first().is_some_and(|first| *first != b'0') || text.len() == 1;
    match decimal(text) {
        Some(number) if is_plain => key_of_number(number),
        _ => mix(fnv(text)),
    }
}

/// The number of a host's disk.
pub fn key_of_disk(host: &[u8], disk: &[u8]) -> u64 {
    mix(fnv_on(fnv_on(fnv(host), b","), disk))
}

/// The key of a disk's block.
#[inline]
pub fn key_of_block(disk: u64, block: u64) -> u64 {
    mix(disk ^ mix(block))
}

// FNV-1a of 64 bits.
fn fnv(text: &[u8]) -> u64 {
    fnv_on(0xCBF29CE484222325, text)
}

// FNV-1a of what goes on after a text of this hash.
fn fnv_on(start: u64, text: &[u8]) -> u64 {
    let mut hash = start;
    for byte in text {
        hash = (hash ^ *byte as u64).wrapping_mul(0x100000001B3);
    }
    hash
}

/// Which keys are replayed: those whose place in the order of a second hash is within a range.
#[derive(Clone, Copy)]
pub struct Sample {
    /// The first place, of 2^64.
    pub first: u64,
    /// The last place.
    pub last: u64,
    /// Which part of all keys that is.
    pub rate: f64,
}

impl Sample {
    /// All keys.
    pub const ALL: Sample = Sample {
        first: 0,
        last: u64::MAX,
        rate: 1.0,
    };

    /// This part of the keys.
    pub fn first(rate: f64) -> Sample {
        if rate >= 1.0 {
            return Sample::ALL;
        }
        Sample {
            first: 0,
            last: saturating_f64_to_u64(rate * 18446744073709551616.0).saturating_sub(1),
            rate,
        }
    }

    /// One of several parts of the same size, which are numbered from 1.
    pub fn part(number: u64, parts: u64) -> Sample {
        let parts = parts.max(1);
        let place = |number: u64| ((number as u128) << 64) / parts as u128;
        let end = place(number).saturating_sub(1);
        Sample {
            first: u64::try_from(place(number.saturating_sub(1))).unwrap_or(u64::MAX),
            last: u64::try_from(end).unwrap_or(u64::MAX),
            rate: 1.0 / float(parts as u128),
        }
    }

    /// Whether a key is replayed.
    #[inline]
    pub fn has(&self, key: u64) -> bool {
        let place = mix(key ^ 0x9E3779B97F4A7C15);
        self.first <= place && place <= self.last
    }
}
