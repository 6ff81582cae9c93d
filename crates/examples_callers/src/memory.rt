//! A cache of squares that threads share, and what a caller proves of it from the library's contracts alone.

ghost use Rattle.std.specs.Prelude.{◌≡◌, ◌*◌, IfOk};

use foyer_memory::PlainCache;
use foyer_policy::Result;
use std::sync::Wait;

/// The moment of each call. No square expires, and so any number will do.
pub const NOW: u64 = 0;

/// A cache of the squares of numbers.
pub type Squares<H> = PlainCache<H, u32, u64>;

/// The square of a number.
pub fn square(number: u32) -> u64
    ensures { result ≡ number * number }
{
    u64::from(number) * u64::from(number)
}

/// Inserts the square of a number and returns the value of its entry.
pub fn put<H: Wait + Drop>(squares: &Squares<H>, number: u32) -> Result<u64>
    ensures { IfOk result (λ square. square ≡ number * number) }
{
    let entry = squares.insert(NOW, number, square(number))?;
    Ok(*entry)
}
