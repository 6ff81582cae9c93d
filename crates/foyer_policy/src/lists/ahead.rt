//! Reads ahead of a change: of values that may be removed next, and of neighbors.

ghost use Rattle.std.specs.Prelude.{◌<◌, IfSome, IsSome, IsTrue};
ghost use Rattle.foyer_policy.specs.Lists.{find};

use crate::lists::linking::has_neighbors;
use crate::lists::{Lists, Place};

impl<T, const N: usize> Lists<T, N> {
    /// Reads the neighbors of the value at a place, which `move_back` and `remove` will write, and returns true. The
    /// place must have a value.
    #[inline(always)]
    pub fn has_neighbors(&self, place: Place) -> bool
        requires { IsSome (find place self.now.lists) }
        ensures { IsTrue result }
    {
        let Lists {
            nodes,
            heads,
            tails,
        } = self;
        has_neighbors(nodes, heads, tails, place.node)
    }

    /// Returns the places of the first two values of a list, if there are some. `list` is below `N`.
    #[inline(always)]
    pub fn first_two(&self, list: usize) -> (Option<Place>, Option<Place>)
        requires { list < N }
        ensures first { IfSome result.0 (λ p. IsSome (find p self.now.lists)) }
        ensures second { IfSome result.1 (λ p. IsSome (find p self.now.lists)) }
    {
        match self.front(list) {
            Some(first) => (Some(first), self.next(first)),
            None => (None, None),
        }
    }
}
