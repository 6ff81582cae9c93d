//! Clones of records that left, and when two of them are equal.

use super::Left;
use std::alloc::AllocError;

impl<K: Drop, V: Drop, P: Drop> Clone for Left<K, V, P> {
    ghost use Rattle.std.specs.Prelude.{◌≡◌};

    ghost is_clone = { λ l c. c ≡ l };

    /// Returns the same record with a share of its own. Fails if the reference count is full.
    fn clone(&self) -> std::result::Result<Self, AllocError> {
        let Ok(kept) = self.kept.try_clone() else {
            return Err(AllocError);
        };
        Ok(Left::new(self.number, self.id, kept))
    }
}

impl<K: PartialEq, V: PartialEq, P: PartialEq> PartialEq for Left<K, V, P> {
    ghost use Rattle.foyer_core.specs.Alike.{gone_eq, gone_eq_per};

    ghost eq = { gone_eq K.eq V.eq P.eq };

    ghost laws = { gone_eq_per K.laws V.laws P.laws };

    /// Returns whether both have the same numbers of core and record, and equal data.
    fn eq(&self, other: &Self) -> bool {
        self.number == other.number
            && self.id == other.id
            && self.key() == other.key()
            && self.value() == other.value()
            && self.properties() == other.properties()
            && self.hash() == other.hash()
            && self.weight() == other.weight()
    }
}
