//! Random numbers, and a mixing of numbers, in whole numbers alone.

// What is added to a seed, and the state that stands in the place of 0: 2^64 over the golden ratio.
const GOLDEN: u64 = 0x9E3779B97F4A7C15;

/// A number, mixed by the finalizer of splitmix64. Distinct numbers stay distinct.
#[inline]
pub fn mix(number: u64) -> u64 {
    let first = (number ^ (number >> 30)).wrapping_mul(0xBF58476D1CE4E5B9);
    let second = (first ^ (first >> 27)).wrapping_mul(0x94D049BB133111EB);
    second ^ (second >> 31)
}

/// Random numbers by xorshift64*.
#[derive(Drop)]
pub struct Random {
    // It is not 0.
    state: u64,
}

impl Random {
    /// The random numbers of a seed.
    pub fn new(seed: u64) -> Self {
        match mix(seed.wrapping_add(GOLDEN)) {
            0 => Random { state: GOLDEN },
            state => Random { state },
        }
    }

    /// The next number, from 0 to the greatest of 64 bits.
    #[inline]
    pub fn next_number(&mut self) -> u64 {
        let first = self.state ^ (self.state >> 12);
        let second = first ^ (first << 25);
        self.state = second ^ (second >> 27);
        self.state.wrapping_mul(0x2545F4914F6CDD1D)
    }
}

#[cfg(test)]
mod tests;
