//! The values of `foyer-sim`.

use foyer_core::Weighter;

/// A value with its weight.
#[derive(Clone, Copy, Debug, PartialEq, Eq)]
pub struct SimValue {
    /// The value that is printed.
    pub value: u64,
    /// The weight of its record.
    pub weight: usize,
}

/// Gives each record the weight that its value has.
#[derive(Clone, Copy, Debug, Default)]
pub struct SimWeighter;

impl Weighter<u64, SimValue> for SimWeighter {
    ghost use Rattle.std.specs.Prelude.{◌≡◌};

    ghost weighs = { λ _ _ v w. w ≡ v.weight };

    #[inline]
    fn weigh(&self, _key: &u64, value: &SimValue) -> usize {
        value.weight
    }
}
