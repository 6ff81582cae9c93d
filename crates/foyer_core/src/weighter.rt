//! What a record counts against the capacity.

ghost use Rattle.std.specs.Prelude.{◌≡◌};

/// Says what a record counts against the capacity. An insert asks it once.
pub trait Weighter<K, V>: Drop {
    ghost use Rattle.std.specs.Prelude.{ℕ};

    // what the weighter may return
    ghost weighs: { Self → K → V → ℕ → Type 0 };

    /// Returns the weight of a record with this key and value.
    fn weigh(&self, key: &K, value: &V) -> usize
        ensures { weighs self.now key.now value.now result };
}

/// Every record weighs 1.
#[derive(Clone, Copy, Debug, Default)]
pub struct UnitWeighter;

impl<K, V> Weighter<K, V> for UnitWeighter {
    ghost use Rattle.std.specs.Prelude.{◌≡◌};

    ghost weighs = { λ _ _ _ w. w ≡ 1 };

    #[inline]
    fn weigh(&self, _key: &K, _value: &V) -> usize {
        1
    }
}
