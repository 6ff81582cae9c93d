//! Reading lists of items, and finding the first that is due.

ghost use Rattle.std.specs.Prelude.{◌≡◌, ℕ, ◌^◌, ◌<◌, ◌∷◌, ◌++◌, [], Some, None, IfSome, IsSome, IsTrue, length, map, option_and_then, option_map, sum_by};
ghost use Rattle.std.specs.List.{filter};
ghost use Rattle.foyer_policy.specs.DatedLists.{dates_at};
ghost use Rattle.foyer_policy.specs.Dues.{first_item};
ghost use Rattle.foyer_policy.specs.Lists.{list_at, first_or, find, find_in, AreLists};
ghost use Rattle.foyer_policy.specs.Moments.{is_due};

use super::DatedLists;
use super::tracking::Tracking;
use crate::due::{due_at, first_of_list};
use crate::lists::Place;
use crate::queued::HasItem;

impl<T: HasItem, const N: usize> DatedLists<T, N> {
    /// Returns the place of a list's first value, or `None` if it is empty. `list` is below `N`.
    #[inline(always)]
    pub(crate) fn front(&self, list: usize) -> Option<Place>
        requires { list < N }
        ensures place { result ≡ first_or (list_at self.now.lists list) None }
        ensures there { IfSome result (λ p. IsSome (find p self.now.lists)) }
        ensures small { sum_by length self.now.lists < 2 ^ 64 }
        ensures apart { AreLists N self.now.lists }
    {
        self.lists.front(list)
    }

    /// Returns the place of the next value in the same list, or `None` at its end. The place must have a value.
    #[inline(always)]
    pub(crate) fn next(&self, place: Place) -> Option<Place>
        requires { IsSome (find place self.now.lists) }
        ensures place { (k : ℕ) (xs ys : _) (v : _)
            → list_at self.now.lists k ≡ xs ++ (place, v) ∷ ys → result ≡ first_or ys None }
        ensures there { IfSome result (λ p. IsSome (find p self.now.lists)) }
        ensures small { sum_by length self.now.lists < 2 ^ 64 }
        ensures apart { AreLists N self.now.lists }
    {
        self.lists.next(place)
    }

    /// Returns the number of the list that has the value at a place. The place must have a value.
    #[inline(always)]
    pub(crate) fn list_of(&self, place: Place) -> usize
        requires { IsSome (find place self.now.lists) }
        ensures within { result < N }
        ensures stands { find_in place (list_at self.now.lists result) ≡ find place self.now.lists }
        ensures apart { AreLists N self.now.lists }
    {
        self.lists.list_of(place)
    }

    /// Returns the value at a place. The place must have a value.
    #[inline(always)]
    pub(crate) fn get(&self, place: Place) -> &T
        requires { IsSome (find place self.now.lists) }
        ensures value { find place self.now.lists ≡ Some result.now }
        ensures small { sum_by length self.now.lists < 2 ^ 64 }
        ensures apart { AreLists N self.now.lists }
    {
        self.lists.get(place)
    }

    /// Returns the number of nodes, with values or free. Each place is below it.
    #[inline(always)]
    pub(crate) fn span(&self) -> usize
        ensures span { result ≡ self.now.span }
        ensures within { (q : ℕ) → IsSome (find q self.now.lists) → q < self.now.span }
    {
        self.lists.span()
    }

    /// Reads the neighbors of the value at a place, which `move_back` and `remove` will write, and returns true. The
    /// place must have a value.
    #[inline(always)]
    pub(crate) fn has_neighbors(&self, place: Place) -> bool
        requires { IsSome (find place self.now.lists) }
        ensures { IsTrue result }
    {
        self.lists.has_neighbors(place)
    }

    /// Returns the places of the first two values of a list, if there are some. `list` is below `N`.
    #[inline(always)]
    pub(crate) fn first_two(&self, list: usize) -> (Option<Place>, Option<Place>)
        requires { list < N }
        ensures first { IfSome result.0 (λ p. IsSome (find p self.now.lists)) }
        ensures second { IfSome result.1 (λ p. IsSome (find p self.now.lists)) }
    {
        self.lists.first_two(list)
    }

    /// Returns whether no item expires, as far as that is known without looking at them.
    #[inline(always)]
    pub(crate) fn is_plain(&self) -> bool
        ensures { IsTrue result → (k : ℕ) → k < N → dates_at T.item_of self.now.lists k ≡ [] }
    {
        matches!(self.dates, Tracking::Plain)
    }

    /// Returns the place of the first item of a list that is due at `now`, or `None`. `list` is below `N`.
    pub(crate) fn first_due(&self, list: usize, now: u64) -> Option<Place>
        requires { list < N }
        ensures there { IfSome result (λ p. IsSome (find p self.now.lists)) }
        ensures first { option_and_then (λ p. option_map T.item_of (find p self.now.lists)) result
            ≡ first_item (filter (is_due now) (map (λ e. T.item_of e.1) (list_at self.now.lists list))) }
    {
        match &self.dates {
            Tracking::Plain => None,
            Tracking::Untracked => first_of_list(&self.lists, list, now),
            Tracking::Tracked(dates) => {
                let front = self.lists.front(list)?;
                if list >= dates.lists() {
                    return first_of_list(&self.lists, list, now);
                }
                if dates.are_behind(list, now) {
                    return None;
                }
                // If all records live equally long, the front is often the first that is due.
                if due_at(self.lists.get(front).item(), now) {
                    return Some(front);
                }
                dates.first(list, now)
            }
        }
    }
}
