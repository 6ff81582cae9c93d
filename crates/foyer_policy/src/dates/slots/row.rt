//! A row of slots, in two columns.

ghost use Rattle.std.specs.Prelude.{◌≡◌, ℕ, ◌<◌, ◌≤◌, ◌∷◌, ◌++◌, [], Some, None, IfErr, IfOk, IfSome, length, slice_get, slice_set, take};
ghost use Rattle.foyer_policy.specs.declared.error.Reason.TheVariants.{NoMemory};

use crate::error::Result;
use crate::lists::Place;
use std::alloc::Global;
use std::marker::Model;

/// The bound of the places in slots. An empty slot has this number.
pub(super) const PLACES: u32 = u32::MAX;

/// Slots in a row, each with a place and its date, or empty. The places are apart from the dates, so that finding and
/// emptying a slot reads and writes four bytes.
#[derive(Drop)]
pub(super) struct Row {
    dates: Vec<u64>,
    places: Vec<u32>,
}

impl Model for Row {
    ghost use Rattle.std.specs.Prelude.{◌≡◌, length, min};
    ghost use Rattle.std.specs.Vec.{vec_capacity};
    ghost use Rattle.foyer_policy.specs.Rows.{Row as State, slots_of};

    ghost Value = { State };

    ghost view = { λ r. record {
      slots = slots_of r.dates.items r.places.items;
      capacity = min (vec_capacity r.dates) (vec_capacity r.places);
    } };

    ghost invariant = { λ r. length r.places.items ≡ length r.dates.items };
}

impl Row {
    /// Creates no slots, with room for so many.
    ///
    /// # Errors
    /// F7 if memory runs out.
    pub(super) fn with_capacity(alloc: Global, count: usize) -> Result<Self>
        ensures none { IfOk result (λ r. r.slots ≡ []) }
        ensures capacity { IfOk result (λ r. count ≤ r.capacity) }
        ensures refused { IfErr result (λ e. e ≡ NoMemory) }
    {
        let dates = Vec::with_capacity(alloc, count)?;
        let places = Vec::with_capacity(alloc, count)?;
        Ok(Row { dates, places })
    }

    /// Copies the slots, with room for so many.
    ///
    /// # Errors
    /// F7 if memory runs out.
    pub(super) fn with_room(&self, alloc: Global, count: usize) -> Result<Self>
        ensures slots { IfOk result (λ r. r.slots ≡ self.now.slots) }
        ensures capacity { IfOk result (λ r. count ≤ r.capacity) }
        ensures within { IfOk result (λ r. length r.slots ≤ r.capacity) }
        ensures refused { IfErr result (λ e. e ≡ NoMemory) }
    {
        let mut dates = Vec::with_capacity(alloc, count)?;
        let mut places = Vec::with_capacity(alloc, count)?;
        dates.extend_from_slice(&self.dates)?;
        places.extend_from_slice(&self.places)?;
        Ok(Row { dates, places })
    }

    /// Returns how many slots there may be.
    #[inline(always)]
    pub(super) fn capacity(&self) -> usize
        ensures { result ≡ self.now.capacity }
    {
        self.dates.capacity().min(self.places.capacity())
    }

    /// Returns how many slots there are.
    #[inline(always)]
    pub(super) fn len(&self) -> usize
        ensures { result ≡ length self.now.slots }
    {
        self.dates.len()
    }

    /// Returns the place and the date of the slot at an index below their number, or `None` if it is empty.
    #[inline(always)]
    pub(super) fn get(&self, index: usize) -> Option<(Place, u64)>
        requires { index < length self.now.slots }
        ensures is { slice_get self.now.slots index ≡ Some result }
        ensures fits { IfSome result (λ e. e.0 < 4294967295) }
    {
        let date = self.dates[index];
        let place = self.places[index];
        if place == PLACES {
            return None;
        }
        Some((Place::at(place as usize), date))
    }

    /// Writes the slot at an index below their number.
    #[inline(always)]
    pub(super) fn set(&mut self, index: usize, place: Place, date: u64)
        requires within { index < length self.old.slots }
        requires fits { place < 4294967295 }
        ensures slots { self.new.slots ≡ slice_set self.old.slots index (Some (place, date)) }
        ensures capacity { self.new.capacity ≡ self.old.capacity }
    {
        self.dates[index] = date;
        self.places[index] = place.number() as u32;
    }

    /// Empties the slot at an index below their number.
    #[inline(always)]
    pub(super) fn empty(&mut self, index: usize)
        requires { index < length self.old.slots }
        ensures slots { self.new.slots ≡ slice_set self.old.slots index None }
        ensures capacity { self.new.capacity ≡ self.old.capacity }
    {
        self.places[index] = PLACES;
    }

    /// Appends a slot. Needs room.
    #[inline(always)]
    pub(super) fn push_reserved(&mut self, place: Place, date: u64)
        requires room { length self.old.slots < self.old.capacity }
        requires fits { place < 4294967295 }
        ensures slots { self.new.slots ≡ self.old.slots ++ Some (place, date) ∷ [] }
        ensures capacity { self.new.capacity ≡ self.old.capacity }
    {
        self.dates.push_reserved(date);
        self.places.push_reserved(place.number() as u32);
    }

    /// Drops all slots but the first `count`.
    pub(super) fn truncate(&mut self, count: usize)
        ensures slots { self.new.slots ≡ take count self.old.slots }
        ensures capacity { self.new.capacity ≡ self.old.capacity }
    {
        self.dates.truncate(count);
        self.places.truncate(count);
    }
}
