//! Which records a `FlushIf` evicts.

ghost use Rattle.std.specs.Prelude.{◌≡◌, false};

/// Picks the records that a `FlushIf` evicts. It is asked once for each record.
pub trait Predicate<K, V>: Drop {
    ghost use Rattle.std.specs.Prelude.{Bool};

    // what the predicate may answer
    ghost picks: { Self → K → V → Bool → Type 0 };

    /// Returns whether the record of this key and value is evicted.
    fn pick(&self, key: &K, value: &V) -> bool
        ensures { picks self.now key.now value.now result };
}

/// Picks no record.
#[derive(Clone, Copy, Debug, Default, PartialEq, Eq)]
pub struct NoPredicate;

impl<K, V> Predicate<K, V> for NoPredicate {
    ghost use Rattle.std.specs.Prelude.{◌≡◌, false};

    ghost picks = { λ _ _ _ answer. answer ≡ false };

    #[inline]
    fn pick(&self, _key: &K, _value: &V) -> bool {
        false
    }
}
