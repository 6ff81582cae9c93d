//! Linked lists of values over one block of nodes.

ghost use Rattle.std.specs.Prelude.{◌≡◌, ◌≢◌, ℕ, ◌+◌, ◌^◌, ◌<◌, ◌≤◌, ◌∷◌, ◌++◌, [], Some, None, OnOk, OnErr, IfErr, IfSome, IsOk, IsSome, length, map, sum_by, slice_set, if◌then◌else◌, replicate, is_some};
ghost use Rattle.foyer_policy.specs.Lists.{list_at, first_entry, first_or, find, find_in, first_value, rest, drop_place, moved, AreLists};

use crate::error::{Error, Reason, Result};
use crate::link::Link;
use crate::lists::arena::Arena;
use crate::lists::linking::{link_back, relink, take_out, unlink};
use std::alloc::Global;
use std::marker::Model;

mod ahead;
pub(crate) mod arena;
pub(crate) mod block;
pub(crate) mod free;
pub(crate) mod linking;
mod place;
mod reading;

pub use place::Place;

/// `N` lists of values, numbered from 0, as doubly linked lists over one block of nodes.
///
/// Each value has a place, by which it is read, moved and removed in constant time. It keeps its place, also in
/// another list; once it is removed the place may be given again. The lists choose the place of a new value, or the
/// caller does. Only `reserve` and `reserve_to` take memory: a new value takes a reserved room, and gives it back
/// when it is removed. Each place is below the span, which only these two raise.
pub struct Lists<T, const N: usize> {
    nodes: Arena<T, N>,
    heads: [Link; N],
    tails: [Link; N],
}

impl<T, const N: usize> Model for Lists<T, N> {
    ghost use Rattle.foyer_policy.specs.Lists.{Lists as State};

    ghost Value = { State T };

    ghost use Rattle.std.specs.Prelude.{◌-◌};
    ghost use Rattle.foyer_policy.specs.Chain.{lists_of, IsSound};

    ghost view = { λ l. record {
      lists = lists_of l.nodes l.heads;
      room = l.nodes.len - l.nodes.used;
      span = l.nodes.len;
    } };

    ghost invariant = { λ l. IsSound l.nodes l.heads l.tails };
}

impl<T, const N: usize> Lists<T, N> {
    ghost use Rattle.std.specs.Borrow.{sem};
    ghost use Rattle.foyer_policy.specs.Lends.{lends_value};

    /// Creates empty lists with no room. Takes no memory.
    pub fn new(alloc: Global) -> Self
        ensures lists { result.lists ≡ replicate N [] }
        ensures room { result.room ≡ 0 }
        ensures span { result.span ≡ 0 }
        ensures apart { AreLists N result.lists }
    {
        Lists {
            nodes: Arena::new(alloc),
            heads: [Link::end(); N],
            tails: [Link::end(); N],
        }
    }

    /// Makes room for `more` values beside those in the lists. Only this call and `reserve_to` take memory.
    ///
    /// # Errors
    /// F7 if the room is still less than `more`. The lists are as they were, and neither the room nor the span is
    /// less.
    #[inline(always)]
    pub fn reserve(&mut self, more: usize) -> Result<()>
        ensures room { OnOk result (more ≤ self.new.room) }
        ensures lists { self.new.lists ≡ self.old.lists }
        ensures kept { self.old.room ≤ self.new.room }
        ensures span { self.old.span ≤ self.new.span }

        // It fails only if the room is less, and so never if there was room.
        ensures refused { IfErr result (λ e. e ≡ Reason.NoMemory) }
        ensures lacking { OnErr result (self.new.room < more) }
        ensures had_room { more ≤ self.old.room → IsOk result }

        ensures small { sum_by length self.old.lists < 2 ^ 64 }
        ensures apart { AreLists N self.old.lists }
    {
        match self.nodes.reserve(more) {
            Ok(()) => Ok(()),
            Err(_) => Err(Error::new(Reason::NoMemory)),
        }
    }

    /// Makes nodes until there are `wanted`, so that each number below it is a place.
    ///
    /// # Errors
    /// F7 if the span is still less than `wanted`. The lists are as they were, and neither the room nor the span is
    /// less.
    #[inline(always)]
    pub fn reserve_to(&mut self, wanted: usize) -> Result<()>
        ensures enough { OnOk result (wanted ≤ self.new.span) }
        ensures lists { self.new.lists ≡ self.old.lists }
        ensures kept { self.old.room ≤ self.new.room }
        ensures span { self.old.span ≤ self.new.span }

        // It fails only if the span is less, and so never if it was enough.
        ensures refused { IfErr result (λ e. e ≡ Reason.NoMemory) }
        ensures lacking { OnErr result (self.new.span < wanted) }
        ensures had_span { wanted ≤ self.old.span → IsOk result }

        ensures small { sum_by length self.old.lists < 2 ^ 64 }
        ensures apart { AreLists N self.old.lists }
    {
        match self.nodes.reserve_to(wanted) {
            Ok(()) => Ok(()),
            Err(_) => Err(Error::new(Reason::NoMemory)),
        }
    }

    /// Returns the place that `push_back` would take: the one freed last, or else the least that was never taken.
    /// Needs reserved room.
    #[inline(always)]
    pub fn next_place(&self) -> Place
        requires { 0 < self.now.room }
        ensures free { find result self.now.lists ≡ None }
        ensures within { result < self.now.span }
        ensures apart { AreLists N self.now.lists }
    {
        let Lists { nodes, .. } = self;
        Place {
            node: nodes.first_free(),
        }
    }

    /// Appends a value to a list at a free place below the span, which the caller chooses. `list` is below `N`.
    #[inline(always)]
    pub fn push_back_at(&mut self, list: usize, place: Place, value: T)
        requires list { list < N }
        requires within { place < self.old.span }
        requires free { find place self.old.lists ≡ None }
        ensures lists { self.new.lists
            ≡ slice_set self.old.lists list (list_at self.old.lists list ++ (place, value) ∷ []) }
        ensures room { self.new.room + 1 ≡ self.old.room }
        ensures span { self.new.span ≡ self.old.span }
        ensures here { find place self.new.lists ≡ Some value }
        ensures others { (q : ℕ) → q ≢ place → find q self.new.lists ≡ find q self.old.lists }
        ensures small { sum_by length self.new.lists < 2 ^ 64 }
        ensures apart { AreLists N self.old.lists }
    {
        link_back(
            &mut self.nodes,
            &mut self.heads,
            &mut self.tails,
            list,
            place.node,
            value,
        );
    }

    /// Appends a value to a list, and returns its place. `list` is below `N`. Needs reserved room.
    #[inline(always)]
    pub fn push_back(&mut self, list: usize, value: T) -> Place
        requires list { list < N }
        requires room { 0 < self.old.room }
        ensures lists { self.new.lists
            ≡ slice_set self.old.lists list (list_at self.old.lists list ++ (result, value) ∷ []) }
        ensures room { self.new.room + 1 ≡ self.old.room }
        ensures within { result < self.old.span }
        ensures span { self.new.span ≡ self.old.span }
        ensures free { find result self.old.lists ≡ None }
        ensures here { find result self.new.lists ≡ Some value }
        ensures others { (q : ℕ) → q ≢ result → find q self.new.lists ≡ find q self.old.lists }
        ensures small { sum_by length self.new.lists < 2 ^ 64 }
        ensures apart { AreLists N self.old.lists }
    {
        let place = self.next_place();
        self.push_back_at(list, place, value);
        place
    }

    /// Removes the first value of a list, if there is one, and gives its room back. `list` is below `N`.
    #[inline(always)]
    pub fn pop_front(&mut self, list: usize) -> Option<T>
        requires { list < N }
        ensures value { result ≡ first_value (list_at self.old.lists list) }
        ensures lists { self.new.lists
            ≡ slice_set self.old.lists list (rest (list_at self.old.lists list)) }
        ensures room { self.new.room ≡ self.old.room + (if is_some result then 1 else 0) }
        ensures span { self.new.span ≡ self.old.span }
        ensures others { (q : ℕ) → first_or (list_at self.old.lists list) None ≢ Some q
            → find q self.new.lists ≡ find q self.old.lists }
        ensures small { sum_by length self.old.lists < 2 ^ 64 }
        ensures apart { AreLists N self.old.lists }
    {
        let (_, value) = self.pop_front_at(list)?;
        Some(value)
    }

    /// Removes the first value of a list, if there is one, and returns it with its place. `list` is below `N`.
    #[inline(always)]
    pub fn pop_front_at(&mut self, list: usize) -> Option<(Place, T)>
        requires { list < N }
        ensures entry { result ≡ first_entry (list_at self.old.lists list) }
        ensures there { IfSome result (λ e. find e.0 self.old.lists ≡ Some e.1) }
        ensures gone { IfSome result (λ e. find e.0 self.new.lists ≡ None) }
        ensures lists { self.new.lists
            ≡ slice_set self.old.lists list (rest (list_at self.old.lists list)) }
        ensures room { self.new.room ≡ self.old.room + (if is_some result then 1 else 0) }
        ensures span { self.new.span ≡ self.old.span }
        ensures others { (q : ℕ) → first_or (list_at self.old.lists list) None ≢ Some q
            → find q self.new.lists ≡ find q self.old.lists }
        ensures small { sum_by length self.old.lists < 2 ^ 64 }
        ensures apart { AreLists N self.old.lists }
    {
        match self.heads[list].place() {
            Some(node) => {
                let value = take_out(&mut self.nodes, &mut self.heads, &mut self.tails, node);
                Some((Place { node }, value))
            }
            None => None,
        }
    }

    /// Removes the value at a place, and gives its room back. The place must have a value.
    #[inline(always)]
    pub fn remove(&mut self, place: Place) -> T
        requires { IsSome (find place self.old.lists) }
        ensures value { find place self.old.lists ≡ Some result }
        ensures lists { self.new.lists ≡ map (drop_place place) self.old.lists }
        ensures room { self.new.room ≡ self.old.room + 1 }
        ensures span { self.new.span ≡ self.old.span }
        ensures gone { find place self.new.lists ≡ None }
        ensures others { (q : ℕ) → q ≢ place → find q self.new.lists ≡ find q self.old.lists }
        ensures small { sum_by length self.old.lists < 2 ^ 64 }
        ensures apart { AreLists N self.old.lists }
    {
        take_out(
            &mut self.nodes,
            &mut self.heads,
            &mut self.tails,
            place.node,
        )
    }

    /// Moves the value at a place to the end of a list, which may be its own. It keeps its place. The place must have
    /// a value, and `list` is below `N`.
    #[inline(always)]
    pub fn move_back(&mut self, place: Place, list: usize)
        requires list { list < N }
        requires there { IsSome (find place self.old.lists) }
        ensures lists { self.new.lists ≡ moved place list self.old.lists }
        ensures room { self.new.room ≡ self.old.room }
        ensures span { self.new.span ≡ self.old.span }
        ensures places { (q : ℕ) → find q self.new.lists ≡ find q self.old.lists }
        ensures small { sum_by length self.old.lists < 2 ^ 64 }
        ensures apart { AreLists N self.old.lists }
    {
        unlink(
            &mut self.nodes,
            &mut self.heads,
            &mut self.tails,
            place.node,
        );
        relink(
            &mut self.nodes,
            &mut self.heads,
            &mut self.tails,
            list,
            place.node,
        );
    }

    /// Returns the value at a place for writing. The place must have a value.
    #[inline(always)]
    pub fn get_mut(&mut self, place: Place) -> &mut T
        requires { IsSome (find place self.old.lists) }
        ensures* writes_back { sem 𝓛 (lends_value T.row N.row self.entry place result) }
        ensures value { find place self.old.lists ≡ Some result.now }
        ensures small { sum_by length self.old.lists < 2 ^ 64 }
        ensures apart { AreLists N self.old.lists }
    {
        let base = self.nodes.base;
        self.nodes.nodes.get_mut(base, place.node)
    }

    /// Returns the number of lists.
    #[inline(always)]
    pub(crate) fn count(&self) -> usize
        ensures count { result ≡ N }
        ensures apart { AreLists N self.now.lists }
    {
        let heads: &[Link] = &self.heads;
        heads.len()
    }

    // Removes the values of a list, and drops them.
    fn clear(&mut self, list: usize)
    where
        T: Drop,
        requires { list < N }
        ensures empty { list_at self.new.lists list ≡ [] }
        ensures others { (k : ℕ) → k ≢ list → list_at self.new.lists k ≡ list_at self.old.lists k }
        ensures count { length self.new.lists ≡ length self.old.lists }
    {
        while self.pop_front(list).is_some() {}
    }
}

/// Drops each value, list by list, and frees the block.
impl<T: Drop, const N: usize> Drop for Lists<T, N> {
    fn drop(mut self) {
        for list in 0..self.count() {
            self.clear(list);
        }
        let Lists {
            nodes,
            heads: _,
            tails: _,
        } = self;
        nodes.destroy_empty();
    }
}
