//! Values in slots, which are numbered from 0.
//!
//! A slot keeps its number and its value until that is removed. Then the slot is free, and the next value gets it. A
//! new slot is made only if none is free.

ghost use Rattle.std.specs.Prelude.{◌≡◌, ◌+◌, ◌≤◌, ◌↔◌, ℕ, [], count_by, length, is_some, IsTrue, IsOk, IsSome, OnOk, OnErr, Some, None, option_copied, nat_eq};
ghost use Rattle.std.specs.Option.{option_copied_mut};
ghost use Rattle.std.specs.Map.{update};
ghost use Rattle.std.specs.Borrow.{Lends, sem};
ghost use Rattle.foyer_core.specs.Slots.{get, HasRoomFor, entries};
ghost use Rattle.foyer_core.specs.Cells.{value_of};

mod iter;

use foyer_policy::Link;
pub use iter::Iter;
use std::alloc::{AllocError, Global};
use std::marker::Model;
use std::mem;

/// Values in slots. Only `reserve` takes memory: a new value takes a reserved room, and gives it back when it is
/// removed.
#[derive(Drop)]
pub struct Slots<T> {
    cells: Vec<Cell<T>>,
    // the cell that was freed last, or the end
    free: Link,
    // how many cells are free
    vacant: usize,
}

/// Where a slot's value lies. A free cell leads to the one freed before it.
#[derive(Drop)]
enum Cell<T> {
    Free(Link),
    Taken(T),
}

impl<T> Model for Slots<T> {
    ghost use Rattle.std.specs.Prelude.{◌+◌, ◌-◌, map, unwrap_or, vec_len, vec_capacity};
    ghost use Rattle.foyer_core.specs.Slots.{Slots as State};

    ghost Value = { State T };

    ghost use Rattle.foyer_core.specs.Cells.{value_of, AreCells};

    ghost view = { λ s. record {
      slots = map value_of s.cells.items;
      next = unwrap_or s.free (vec_len s.cells);
      room = s.vacant + (vec_capacity s.cells - vec_len s.cells);
    } };

    ghost invariant = { λ s. AreCells s.cells.items s.vacant s.free };
}

impl<T> Cell<T> {
    ghost use Rattle.foyer_core.specs.contracts.slots.Cell.{the_row};

    // The value for writing. There must be one.
    #[inline(always)]
    fn value_mut(&mut self) -> &mut T
        requires { IsSome (value_of self.old) }
        ensures* writes_back { sem 𝓛 (Lends (the_row T.row) T.row self.entry result Cell.Taken) }
        ensures value { value_of self.old ≡ Some result.now }
    {
        match self {
            Cell::Taken(value) => value,
            Cell::Free(_) => unreachable!(),
        }
    }
}

impl<T> Slots<T> {
    ghost use Rattle.foyer_core.specs.SlotLends.{lends_get, lends_value};

    /// Creates slots with no value and no room. Takes no memory.
    pub fn new(alloc: Global) -> Self
        ensures { result ≡ record { slots = []; next = 0; room = 0 } }
    {
        Slots {
            cells: Vec::new(alloc),
            free: Link::end(),
            vacant: 0,
        }
    }

    /// Makes room for one more value. If memory runs out, nothing has changed.
    #[inline(always)]
    pub fn reserve(&mut self) -> Result<(), AllocError>
        ensures room { OnOk result (HasRoomFor self.new 1) }
        ensures rest_kept { self.new ≡ record self.old { room = self.new.room } }
        ensures kept { self.old.room ≤ self.new.room }

        ensures had_room { HasRoomFor self.old 1 → self.new ≡ self.old }
        ensures succeeds { HasRoomFor self.old 1 → IsOk result }
        ensures err { OnErr result (self.new ≡ self.old) }
    {
        if self.vacant > 0 || self.cells.len() < self.cells.capacity() {
            return Ok(());
        }
        self.cells.reserve(1)
    }

    /// Returns how many slots have a value.
    #[inline(always)]
    pub fn len(&self) -> usize
        ensures { result ≡ count_by is_some self.now.slots }
    {
        self.cells.len() - self.vacant
    }

    /// Returns the number of slots, with a value or free. A new slot gets this number.
    #[inline(always)]
    pub fn count(&self) -> usize
        ensures { result ≡ length self.now.slots }
    {
        self.cells.len()
    }

    /// Returns the slot that the next value gets.
    #[inline(always)]
    pub fn next_slot(&self) -> usize
        ensures next { result ≡ self.now.next }
        ensures within { result ≤ length self.now.slots }
        ensures free { get self.now result ≡ None }
    {
        match self.free.place() {
            Some(slot) => slot,
            None => self.cells.len(),
        }
    }

    /// Puts a value into the next slot, and returns the slot. Needs room.
    #[inline(always)]
    pub fn insert(&mut self, value: T) -> usize
        requires { HasRoomFor self.old 1 }
        ensures next { result ≡ self.old.next }
        ensures free { get self.old result ≡ None }
        ensures slots { (n : ℕ) → get self.new n ≡ update nat_eq (get self.old) result (Some value) n }
        ensures room { self.new.room + 1 ≡ self.old.room }
    {
        let Some(slot) = self.free.place() else {
            let slot = self.cells.len();
            self.cells.push_reserved(Cell::Taken(value));
            return slot;
        };
        self.vacant -= 1;
        match mem::replace(&mut self.cells[slot], Cell::Taken(value)) {
            Cell::Free(next) => self.free = next,
            Cell::Taken(_) => unreachable!(),
        }
        slot
    }

    /// Removes the value of a slot, which must have one, and gives its room back. The next value gets this slot.
    #[inline(always)]
    pub fn remove(&mut self, slot: usize) -> T
        requires { IsSome (get self.old slot) }
        ensures value { get self.old slot ≡ Some result }
        ensures slots { (n : ℕ) → get self.new n ≡ update nat_eq (get self.old) slot None n }
        ensures next { self.new.next ≡ slot }
        ensures room { self.new.room ≡ self.old.room + 1 }
        ensures count { length self.new.slots ≡ length self.old.slots }
    {
        let free = Cell::Free(self.free);
        match mem::replace(&mut self.cells[slot], free) {
            Cell::Taken(value) => {
                self.free = Link::to(slot);
                self.vacant += 1;
                value
            }
            Cell::Free(_) => unreachable!(),
        }
    }

    /// Returns the value in a slot, if it has one.
    #[inline(always)]
    pub fn get(&self, slot: usize) -> Option<&T>
        ensures { option_copied result ≡ get self.now slot }
    {
        match self.cells.get(slot) {
            Some(Cell::Taken(value)) => Some(value),
            _ => None,
        }
    }

    /// Returns the value in a slot for writing, if it has one.
    #[inline(always)]
    pub fn get_mut(&mut self, slot: usize) -> Option<&mut T>
        ensures* writes_back { sem 𝓛 (lends_get T.row self.entry slot result) }
        ensures value { option_copied_mut result ≡ get self.old slot }
    {
        if self.contains(slot) {
            Some(self.value_mut(slot))
        } else {
            None
        }
    }

    // The value in a slot for writing. There must be one.
    #[inline(always)]
    fn value_mut(&mut self, slot: usize) -> &mut T
        requires { IsSome (get self.old slot) }
        ensures* writes_back { sem 𝓛 (lends_value T.row self.entry slot result) }
        ensures value { get self.old slot ≡ Some result.now }
    {
        self.cells[slot].value_mut()
    }

    // Whether a slot has a value.
    #[inline(always)]
    fn contains(&self, slot: usize) -> bool
        ensures { IsTrue result ↔ IsSome (get self.now slot) }
    {
        matches!(self.cells.get(slot), Some(Cell::Taken(_)))
    }

    /// Returns the slots that have a value, with it, by rising number.
    pub fn iter(&self) -> Iter<'_, T>
        ensures { result ≡ entries self.now }
    {
        Iter::new(&self.cells)
    }
}
