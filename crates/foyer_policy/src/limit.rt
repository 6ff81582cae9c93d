//! Limits from ratios, and which ratios are accepted.

ghost use Rattle.std.specs.Prelude.{◌≡◌, ◌<◌};
ghost use Rattle.foyer_policy.specs.Limit.{limit_of, ok_unless, ratio_fault};

use crate::error::{Error, Field, Reason, Result};
use crate::types::Ratio;

/// The range in which a ratio is accepted.
#[derive(Clone, Copy)]
pub(crate) enum Range {
    /// From 0 to 1, both included.
    Closed,
    /// Above 0 and below 1.
    Open,
}

/// Returns the part of a capacity that a ratio gives, rounded down, and at most the largest `usize`. The denominator
/// must not be 0.
pub(crate) fn limit_of(capacity: usize, ratio: Ratio) -> usize
    requires { 0 < ratio.den }
    ensures { result ≡ limit_of capacity ratio }
{
    // A capacity of 64 bits times a numerator of 32 bits fits 96 bits.
    let part = capacity as u128 * u128::from(ratio.num) / u128::from(ratio.den);
    usize::try_from(part).unwrap_or(usize::MAX)
}

/// Checks the ratio of a field.
///
/// # Errors
/// F2 for a denominator of 0, F3 if it is outside of its range.
pub(crate) fn check_ratio(range: Range, field: Field, ratio: Ratio) -> Result<()>
    ensures { result ≡ ok_unless (ratio_fault range field ratio) }
{
    if ratio.den == 0 {
        return Err(Error::new(Reason::ZeroDenominator));
    }
    let is_in_range = match range {
        Range::Closed => ratio.num <= ratio.den,
        Range::Open => 0 < ratio.num && ratio.num < ratio.den,
    };
    if !is_in_range {
        return Err(Error::new(Reason::RatioRange(field)));
    }
    Ok(())
}
