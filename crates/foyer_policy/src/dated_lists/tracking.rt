//! What is known of when the items of lists expire.

ghost use Rattle.std.specs.Prelude.{◌≡◌, ℕ, ◌<◌, List};
ghost use Rattle.foyer_policy.specs.Dates.{with_last};
ghost use Rattle.foyer_policy.specs.DatedLists.{CanPush, CanRemove, Knows};
ghost use Rattle.foyer_policy.specs.Lists.{drop_place};

use crate::dates::{Dates, Gone};
use crate::lists::{Lists, Place};
use crate::queued::HasItem;

/// What is known of when items expire.
#[derive(Drop)]
pub(super) enum Tracking {
    /// No item expires.
    Plain,
    /// Some items may expire; a search walks along its list.
    Untracked,
    /// The dates of all items that expire.
    Tracked(Dates),
}

impl Tracking {
    /// Enters the date of an item that expires and is appended to a list. Returns what is to be noted beside the
    /// item. Takes no memory.
    #[inline(always)]
    pub(super) fn push<T: HasItem, const N: usize>(
        &mut self,
        lists: &mut Lists<T, N>,
        list: usize,
        place: Place,
        date: u64,
    ) -> usize
        requires { CanPush place self.old }
        ensures known { (n : ℕ) (are : ℕ → List _) → list < n → Knows n are self.old
            → Knows n (with_last list place date are) self.new }
        ensures lists { lists.new ≡ lists.old }
    {
        let slot = match self {
            Tracking::Tracked(dates) => dates.push(lists, list, place, date),
            _ => None,
        };
        match slot {
            Some(slot) => slot,
            None => {
                *self = Tracking::Untracked;
                0
            }
        }
    }

    /// Removes the date of an item that expires and leaves a list. Takes no memory.
    #[inline(always)]
    pub(super) fn remove(&mut self, list: usize, place: Place, gone: Gone)
        requires { CanRemove list place self.old }
        ensures { (n : ℕ) (are : ℕ → List _) → Knows n are self.old
            → Knows n (λ k. drop_place place (are k)) self.new }
    {
        if let Tracking::Tracked(dates) = self {
            dates.remove(list, place, gone);
        }
    }
}
