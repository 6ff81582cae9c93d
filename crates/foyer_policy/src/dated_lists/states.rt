//! The states that policies keep beside the items of lists.

ghost use Rattle.std.specs.Prelude.{◌≡◌, ℕ, ◌^◌, ◌<◌, Some, IsSome, length, map, sum_by};
ghost use Rattle.foyer_policy.specs.Lists.{find, with_value, AreLists};

use super::DatedLists;
use crate::lists::Place;
use crate::queued::{ItemState, Queued};

impl<S: ItemState, const N: usize> DatedLists<Queued<S>, N> {
    /// Sets the state of the value at a place; its item stays. The place must have a value.
    #[inline(always)]
    pub(crate) fn set_state(&mut self, place: Place, state: S)
        requires { IsSome (find place self.old.lists) }
        ensures lists { (n : _) → find place self.old.lists ≡ Some n
            → self.new.lists ≡ map (with_value place (record { item = n.item; state = state })) self.old.lists }
        ensures room { self.new.room ≡ self.old.room }
        ensures span { self.new.span ≡ self.old.span }
        ensures small { sum_by length self.old.lists < 2 ^ 64 }
        ensures apart { AreLists N self.old.lists }
    {
        self.lists.get_mut(place).set_state(state);
    }
}
