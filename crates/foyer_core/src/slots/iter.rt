//! A walk over slots, by rising number.

ghost use Rattle.std.specs.Prelude.{◌≡◌, map};
ghost use Rattle.std.specs.Iterator.{YieldsFirstBy, item_count};
ghost use Rattle.foyer_core.specs.Slots.{entries_from};
ghost use Rattle.foyer_core.specs.Cells.{value_of};

use super::Cell;
use std::marker::Model;

/// An iterator over the slots that have a value, with it.
#[derive(Drop)]
pub struct Iter<'a, T> {
    cells: &'a [Cell<T>],
    // the slot of the first of the cells
    slot: usize,
}

impl<'a, T> Model for Iter<'a, T> {
    ghost use Rattle.std.specs.Prelude.{ℕ, ◌+◌, ◌^◌, ◌<◌, List, length, map};

    ghost Value = { List (ℕ × T) };

    ghost use Rattle.foyer_core.specs.Slots.{entries_from};
    ghost use Rattle.foyer_core.specs.Cells.{value_of};

    ghost view = { λ it. entries_from it.slot (map value_of it.cells.now) };

    ghost invariant = { λ it. it.slot + length it.cells.now < 2 ^ 64 };
}

impl<'a, T> Iter<'a, T> {
    // All the slots of these cells.
    pub(super) fn new(cells: &'a [Cell<T>]) -> Self
        ensures { result ≡ entries_from 0 (map value_of cells.now) }
    {
        Iter { cells, slot: 0 }
    }
}

impl<'a, T> Iterator for Iter<'a, T> {
    type Item = (usize, &'a T);

    ghost next_gives = { YieldsFirstBy (λ item. (item.0, item.1.now)) (λ rest. rest) };

    ghost remaining = { item_count (λ rest. rest) };

    fn next(&mut self) -> Option<(usize, &'a T)> {
        while let Some((cell, rest)) = self.cells.split_first() {
            let slot = self.slot;
            self.cells = rest;
            self.slot += 1;
            if let Cell::Taken(value) = cell {
                return Some((slot, value));
            }
        }
        None
    }
}
