//! Reading lists.

ghost use Rattle.std.specs.Prelude.{◌≡◌, ℕ, ◌^◌, ◌<◌, ◌∷◌, ◌++◌, Some, None, IfSome, IsSome, IsTrue, length, sum_by};
ghost use Rattle.foyer_policy.specs.Lists.{list_at, first_or, find, find_in, AreLists};

use crate::lists::{Lists, Place};

impl<T, const N: usize> Lists<T, N> {
    /// Returns the place of a list's first value, or `None` if it is empty. `list` is below `N`.
    #[inline(always)]
    pub fn front(&self, list: usize) -> Option<Place>
        requires { list < N }
        ensures place { result ≡ first_or (list_at self.now.lists list) None }
        ensures there { IfSome result (λ p. IsSome (find p self.now.lists)) }
        ensures small { sum_by length self.now.lists < 2 ^ 64 }
        ensures apart { AreLists N self.now.lists }
    {
        let node = self.heads[list].place()?;
        Some(Place { node })
    }

    /// Returns the place of the next value in the same list, or `None` at its end. The place must have a value.
    #[inline(always)]
    pub fn next(&self, place: Place) -> Option<Place>
        requires { IsSome (find place self.now.lists) }
        ensures place { (k : ℕ) (xs ys : _) (v : _)
            → list_at self.now.lists k ≡ xs ++ (place, v) ∷ ys → result ≡ first_or ys None }
        ensures there { IfSome result (λ p. IsSome (find p self.now.lists)) }
        ensures small { sum_by length self.now.lists < 2 ^ 64 }
        ensures apart { AreLists N self.now.lists }
    {
        let node = self.nodes.links(place.node).after.place()?;
        Some(Place { node })
    }

    /// Returns the number of the list that has the value at a place. The place must have a value.
    #[inline(always)]
    pub fn list_of(&self, place: Place) -> usize
        requires { IsSome (find place self.now.lists) }
        ensures within { result < N }
        ensures stands { find_in place (list_at self.now.lists result) ≡ find place self.now.lists }
        ensures apart { AreLists N self.now.lists }
    {
        self.nodes.links(place.node).list
    }

    /// Returns whether a place has a value.
    #[inline(always)]
    pub(crate) fn holds(&self, place: Place) -> bool
        ensures { IsTrue result → IsSome (find place self.now.lists) }
    {
        self.nodes.has_value(place.node)
    }

    /// Returns the value at a place. The place must have a value.
    #[inline(always)]
    pub fn get(&self, place: Place) -> &T
        requires { IsSome (find place self.now.lists) }
        ensures value { find place self.now.lists ≡ Some result.now }
        ensures small { sum_by length self.now.lists < 2 ^ 64 }
        ensures apart { AreLists N self.now.lists }
    {
        self.nodes.get(place.node)
    }

    /// Returns the number of nodes, with values or free. Each place is below it.
    #[inline(always)]
    pub fn span(&self) -> usize
        ensures span { result ≡ self.now.span }
        ensures within { (q : ℕ) → IsSome (find q self.now.lists) → q < self.now.span }
    {
        let Lists { nodes, .. } = self;
        nodes.len
    }
}
