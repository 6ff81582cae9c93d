//! The weights of ranks by Zipf's law, and their sums, in whole numbers alone.

use crate::args::Skew;
use crate::failure::Failure;
use std::alloc::Global;

// How many binary places a logarithm and an exponent have, and how many factors there are.
const PLACES: usize = 32;

/// The sums of the weights of the first ranks: of one, of two, and so on. The arguments are bad where the sum of all
/// passes 64 bits.
pub fn sums_of(alloc: Global, keyspace: u64, skew: Skew) -> Result<Vec<u64>, Failure> {
    let factors = factors();
    let mut sums = Vec::with_capacity(alloc, keyspace as usize)?;
    let mut sum = 0u64;
    for rank in 0..keyspace {
        let weight = weight(&factors, skew, rank.saturating_add(1));
        sum = sum.checked_add(weight).ok_or(Failure::Arguments)?;
        sums.push(sum)?;
    }
    Ok(sums)
}

// The product of two numbers with 63 binary places.
fn product(a: u64, b: u64) -> u64 {
    low(a as u128 * b as u128 >> 63)
}

// The last 64 bits of a number.
fn low(number: u128) -> u64 {
    (number & u64::MAX as u128) as u64
}

// The logarithm of a number above 0 to base 2, with 32 binary places.
fn log2(number: u64) -> u64 {
    let zeros = number.leading_zeros().min(63);
    let mut rest = number << zeros;
    let mut log = 63 - zeros as u64;
    for _place in 0..PLACES {
        // The square of a number from 1 to 2, with 63 places, is a number from 1 to 4.
        let square = rest as u128 * rest as u128 >> 63;
        let place = square >> 64 & 1;
        log = log << 1 | low(place);
        rest = low(square >> place);
    }
    log
}

// By what each binary place of an exponent lowers a power of 1/2: the square root of 1/2, the root of that,
// and so on, with 63 places.
fn factors() -> [u64; PLACES] {
    let mut factors = [0; PLACES];
    let mut last: u64 = 1 << 62;
    for place in 0..PLACES {
        last = low(((last as u128) << 63).isqrt());
        factors[place] = last;
    }
    factors
}

// The power of 1/2 by an exponent of 32 binary places below 1, with 63 places.
fn power(factors: &[u64], exponent: u64) -> u64 {
    let mut power = 1 << 63;
    let mut place: u64 = 1 << 31;
    for factor in factors {
        if exponent & place != 0 {
            power = product(power, *factor);
        }
        place >>= 1;
    }
    power
}

// The weight of the rank before the number-th: 2^40 over that power of the number, and at least 1.
fn weight(factors: &[u64], skew: Skew, number: u64) -> u64 {
    let exponent = log2(number) as u128 * skew.num as u128 / skew.den.max(1) as u128;
    let whole = exponent >> PLACES;
    if whole > 40 {
        return 1;
    }
    let part = low(exponent % (1 << PLACES));
    (power(factors, part) >> 23 >> whole).max(1)
}
