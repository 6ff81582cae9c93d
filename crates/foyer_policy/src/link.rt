//! Links of chains and lists, in one word.

ghost use Rattle.std.specs.Prelude.{◌≡◌, ◌-◌, ◌^◌, ◌<◌, Some, None};

use std::marker::Model;

/// Where a chain goes on: at a place, or nowhere. It takes one word; an `Option<usize>` takes two.
#[derive(Clone, Copy)]
pub struct Link {
    // the largest number for nowhere
    place: usize,
}

impl Model for Link {
    ghost use Rattle.std.specs.Prelude.{ℕ, Option};

    ghost Value = { Option ℕ };

    ghost use Rattle.foyer_policy.specs.Links.{place_of, with_place, with_place-place_of};

    ghost view = { place_of };

    ghost inverse = { with_place };

    ghost inverse_ok = { λ a h. with_place-place_of a };
}

impl Link {
    /// Returns the end of a chain.
    #[inline(always)]
    pub fn end() -> Self
        ensures { result ≡ None }
    {
        Link { place: usize::MAX }
    }

    /// Returns a link to a place, which is below the largest number.
    #[inline(always)]
    pub fn to(place: usize) -> Self
        requires { place < 2 ^ 64 - 1 }
        ensures { result ≡ Some place }
    {
        Link { place }
    }

    /// Returns the place that it leads to, or `None` at the end.
    #[inline(always)]
    pub fn place(self) -> Option<usize>
        ensures { result ≡ self }
    {
        if self.place == usize::MAX {
            None
        } else {
            Some(self.place)
        }
    }
}
