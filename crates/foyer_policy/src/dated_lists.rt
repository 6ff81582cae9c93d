//! Linked lists of items, with the dates of those that expire.

ghost use Rattle.std.specs.Prelude.{◌≡◌, ◌≢◌, ℕ, ◌+◌, ◌^◌, ◌<◌, ◌≤◌, ◌∷◌, ◌++◌, [], Some, None, OnOk, IfErr, IfSome, IsOk, IsSome, length, map, sum_by, slice_set, if◌then◌else◌, replicate, is_some};
ghost use Rattle.foyer_policy.specs.Lists.{list_at, first_entry, first_or, find, find_in, first_value, rest, drop_place, moved, AreLists};
ghost use Rattle.foyer_policy.specs.declared.error.Reason.TheVariants.{NoMemory};

mod building;
mod following;
pub(crate) mod noting;
mod reading;
mod states;
mod tracking;

use crate::error::Result;
use crate::lists::{Lists, Place};
use crate::queued::HasItem;
use following::{follow_move, follow_pop, follow_push, follow_remove, follow_reserve};
use std::alloc::Global;
use std::marker::Model;
use tracking::Tracking;

/// `N` lists of items, numbered from 0, as [`Lists`] are. The first item of a list that is due is found in steps that
/// grow with the logarithm of how many items expire, and at once if none does.
///
/// Dates are kept from the first `reserve` or `reserve_to` after an item that expires was inserted. Until then, while
/// memory for them is refused, and beyond 2^32 - 1 nodes, a search walks along the list. A value keeps its item.
#[derive(Drop)]
pub(crate) struct DatedLists<T: HasItem, const N: usize> {
    lists: Lists<T, N>,
    dates: Tracking,
    // How many of the lists, the first ones, are searched for what is due.
    searched: u8,
    alloc: Global,
}

impl<T: HasItem, const N: usize> Model for DatedLists<T, N> {
    ghost use Rattle.foyer_policy.specs.Lists.{Lists as State};

    ghost Value = { State T };

    ghost use Rattle.foyer_policy.specs.DatedLists.{Knows, dates_at};

    ghost view = { λ d. d.lists };

    ghost invariant = { λ d. Knows N (dates_at T.item_of d.lists.lists) d.dates };
}

impl<T: HasItem, const N: usize> DatedLists<T, N> {
    /// Creates empty lists with no room. Takes no memory. `first_due` is quick in the first `searched` of them; of
    /// the others no dates are kept.
    pub(crate) fn new(alloc: Global, searched: u8) -> Self
        ensures lists { result.lists ≡ replicate N [] }
        ensures room { result.room ≡ 0 }
        ensures span { result.span ≡ 0 }
    {
        DatedLists {
            lists: Lists::new(alloc),
            dates: Tracking::Plain,
            searched,
            alloc,
        }
    }

    /// Makes room for `more` values beside those in the lists, and for one date if there is memory for that.
    ///
    /// # Errors
    /// F7 if the room is still less than `more`. The lists are as they were, and neither the room nor the span is
    /// less.
    #[inline(always)]
    pub(crate) fn reserve(&mut self, more: usize) -> Result<()>
        ensures room { OnOk result (more ≤ self.new.room) }
        ensures lists { self.new.lists ≡ self.old.lists }
        ensures kept { self.old.room ≤ self.new.room }
        ensures span { self.old.span ≤ self.new.span }
        ensures granted { more ≤ self.old.room → IsOk result }
        ensures refused { IfErr result (λ e. e ≡ NoMemory) }
        ensures small { sum_by length self.old.lists < 2 ^ 64 }
        ensures apart { AreLists N self.old.lists }
    {
        let reserved = self.lists.reserve(more);
        follow_reserve(&mut self.dates, &mut self.lists, self.searched, self.alloc);
        reserved
    }

    /// Makes nodes until there are `wanted`, so that each number below it is a place, and room for one date if there is
    /// memory for that.
    ///
    /// # Errors
    /// F7 if the span is still less than `wanted`. The lists are as they were, and neither the room nor the span is
    /// less.
    #[inline(always)]
    pub(crate) fn reserve_to(&mut self, wanted: usize) -> Result<()>
        ensures enough { OnOk result (wanted ≤ self.new.span) }
        ensures lists { self.new.lists ≡ self.old.lists }
        ensures kept { self.old.room ≤ self.new.room }
        ensures span { self.old.span ≤ self.new.span }
        ensures granted { wanted ≤ self.old.span → IsOk result }
        ensures refused { IfErr result (λ e. e ≡ NoMemory) }
        ensures small { sum_by length self.old.lists < 2 ^ 64 }
        ensures apart { AreLists N self.old.lists }
    {
        let reserved = self.lists.reserve_to(wanted);
        follow_reserve(&mut self.dates, &mut self.lists, self.searched, self.alloc);
        reserved
    }

    /// Returns the place that `Lists::next_place` returns. Needs reserved room.
    #[inline(always)]
    pub(crate) fn next_place(&self) -> Place
        requires { 0 < self.now.room }
        ensures free { find result self.now.lists ≡ None }
        ensures within { result < self.now.span }
        ensures apart { AreLists N self.now.lists }
    {
        self.lists.next_place()
    }

    /// Appends a value to a list at a free place below the span, which the caller chooses. `list` is below `N`.
    #[inline(always)]
    pub(crate) fn push_back_at(&mut self, list: usize, place: Place, mut value: T)
        requires list { list < N }
        requires within { place < self.old.span }
        requires free { find place self.old.lists ≡ None }
        ensures lists { self.new.lists
            ≡ slice_set self.old.lists list (list_at self.old.lists list ++ (place, value) ∷ []) }
        ensures room { self.new.room + 1 ≡ self.old.room }
        ensures span { self.new.span ≡ self.old.span }
        ensures here { find place self.new.lists ≡ Some value }
        ensures others { (q : ℕ) → q ≢ place → find q self.new.lists ≡ find q self.old.lists }
        ensures small { sum_by length self.new.lists < 2 ^ 64 }
        ensures apart { AreLists N self.old.lists }
    {
        follow_push(&mut self.dates, &mut self.lists, list, place, &mut value);
        self.lists.push_back_at(list, place, value);
    }

    /// Removes the first value of a list, if there is one, and gives its room back. `list` is below `N`.
    #[inline(always)]
    pub(crate) fn pop_front(&mut self, list: usize) -> Option<T>
        requires { list < N }
        ensures value { result ≡ first_value (list_at self.old.lists list) }
        ensures lists { self.new.lists
            ≡ slice_set self.old.lists list (rest (list_at self.old.lists list)) }
        ensures room { self.new.room ≡ self.old.room + (if is_some result then 1 else 0) }
        ensures span { self.new.span ≡ self.old.span }
        ensures others { (q : ℕ) → first_or (list_at self.old.lists list) None ≢ Some q
            → find q self.new.lists ≡ find q self.old.lists }
        ensures small { sum_by length self.old.lists < 2 ^ 64 }
        ensures apart { AreLists N self.old.lists }
    {
        follow_pop(&mut self.dates, &self.lists, list);
        self.lists.pop_front(list)
    }

    /// Removes the first value of a list, if there is one, and returns it with its place. `list` is below `N`.
    #[inline(always)]
    pub(crate) fn pop_front_at(&mut self, list: usize) -> Option<(Place, T)>
        requires { list < N }
        ensures entry { result ≡ first_entry (list_at self.old.lists list) }
        ensures there { IfSome result (λ e. find e.0 self.old.lists ≡ Some e.1) }
        ensures gone { IfSome result (λ e. find e.0 self.new.lists ≡ None) }
        ensures lists { self.new.lists
            ≡ slice_set self.old.lists list (rest (list_at self.old.lists list)) }
        ensures room { self.new.room ≡ self.old.room + (if is_some result then 1 else 0) }
        ensures span { self.new.span ≡ self.old.span }
        ensures others { (q : ℕ) → first_or (list_at self.old.lists list) None ≢ Some q
            → find q self.new.lists ≡ find q self.old.lists }
        ensures small { sum_by length self.old.lists < 2 ^ 64 }
        ensures apart { AreLists N self.old.lists }
    {
        follow_pop(&mut self.dates, &self.lists, list);
        self.lists.pop_front_at(list)
    }

    /// Removes the value at a place, and gives its room back. The place must have a value.
    #[inline(always)]
    pub(crate) fn remove(&mut self, place: Place) -> T
        requires { IsSome (find place self.old.lists) }
        ensures value { find place self.old.lists ≡ Some result }
        ensures lists { self.new.lists ≡ map (drop_place place) self.old.lists }
        ensures room { self.new.room ≡ self.old.room + 1 }
        ensures span { self.new.span ≡ self.old.span }
        ensures gone { find place self.new.lists ≡ None }
        ensures others { (q : ℕ) → q ≢ place → find q self.new.lists ≡ find q self.old.lists }
        ensures small { sum_by length self.old.lists < 2 ^ 64 }
        ensures apart { AreLists N self.old.lists }
    {
        follow_remove(&mut self.dates, &self.lists, place);
        self.lists.remove(place)
    }

    /// Moves the value at a place to the end of a list, which may be its own. It keeps its place. The place must have
    /// a value, and `list` is below `N`.
    #[inline(always)]
    pub(crate) fn move_back(&mut self, place: Place, list: usize)
        requires list { list < N }
        requires there { IsSome (find place self.old.lists) }
        ensures lists { self.new.lists ≡ moved place list self.old.lists }
        ensures room { self.new.room ≡ self.old.room }
        ensures span { self.new.span ≡ self.old.span }
        ensures places { (q : ℕ) → find q self.new.lists ≡ find q self.old.lists }
        ensures small { sum_by length self.old.lists < 2 ^ 64 }
        ensures apart { AreLists N self.old.lists }
    {
        follow_move(&mut self.dates, &mut self.lists, place, list);
        self.lists.move_back(place, list);
    }
}
