//! Places, which name values of lists.

ghost use Rattle.std.specs.Prelude.{◌≡◌};

use std::marker::Model;

/// Names a value of a [`Lists`](super::Lists) until it is removed.
#[derive(Clone, Copy, Debug, PartialEq, Eq, Hash)]
pub struct Place {
    pub(super) node: usize,
}

impl Model for Place {
    ghost use Rattle.std.specs.Prelude.{ℕ};

    ghost Value = { ℕ };

    ghost view = { λ p. p.node };

    ghost inverse = { λ n. record { node = n } };
}

impl Place {
    /// Returns the number of its node, below the span of the lists. A caller may keep something else under the same
    /// number.
    #[inline(always)]
    pub fn number(self) -> usize
        ensures { result ≡ self }
    {
        self.node
    }

    /// Returns the place with this number.
    #[inline(always)]
    pub fn at(number: usize) -> Place
        ensures { result ≡ number }
    {
        Place { node: number }
    }
}
