//! Clones of removed records, and when two lists of them are equal.

ghost use Rattle.std.specs.Prelude.{◌≡◌};

use super::Leaves;
use foyer_core::Left;
use foyer_policy::Event;
use std::alloc::AllocError;

impl<K: Drop, V: Drop, P: Drop> Clone for Leaves<K, V, P> {
    ghost use Rattle.std.specs.Prelude.{◌≡◌};

    ghost is_clone = { λ l c. c ≡ l };

    /// Clones the list; the records are shared. Fails if memory runs out or a count of shares is full.
    fn clone(&self) -> Result<Self, AllocError> {
        let items = self.items.as_slice().to_vec(*self.items.allocator())?;
        Ok(Leaves { items })
    }
}

impl<K: PartialEq, V: PartialEq, P: PartialEq> PartialEq for Leaves<K, V, P> {
    ghost use Rattle.std.specs.Cmp.{and_per, on_per};
    ghost use Rattle.std.specs.Cmp.Lexicographic.{lists_per, pointwise};
    ghost use Rattle.foyer_policy.specs.contracts.types.EventPartialEq.TheImpl.Laws.{laws-law};
    ghost use Rattle.foyer_core.specs.Alike.{gone_eq_per};

    ghost eq = { pointwise ⟦<(Event, Left<K, V, P>) as PartialEq>⟧.eq };

    ghost laws = { lists_per (and_per (on_per (λ leave. leave.0) laws-law)
        (on_per (λ leave. leave.1) (gone_eq_per K.laws V.laws P.laws))) };

    /// Returns whether both lists are equal, one by one.
    fn eq(&self, other: &Self) -> bool {
        self.items == other.items
    }
}
