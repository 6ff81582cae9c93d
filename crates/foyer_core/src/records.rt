//! The records of a shard, by slot and by id.

ghost use Rattle.std.specs.Prelude.{◌≡◌, ℕ, ◌+◌, ◌-◌, ◌<◌, ◌≤◌, ◌^◌, Option, Some, None, IfErr, IfOk, OnOk, OnErr, IsOk, IsSomeAnd, IsSome, IsTrue, nat_eq, option_copied, option_map, true};
ghost use Rattle.std.specs.Map.{update};
ghost use Rattle.foyer_core.specs.Slots.{entries, get};
ghost use Rattle.foyer_policy.specs.declared.error.Reason.TheVariants.{NoMemory};
ghost use Rattle.foyer_core.specs.Values.{Kept};
ghost use Rattle.foyer_core.specs.Ids.{slot_of};
ghost use Rattle.foyer_core.specs.Steps.{outside};
ghost use Rattle.foyer_core.specs.Table.{IsTable, rec_of, slot_outside};

mod ids;

use crate::entry::Left;
use crate::slot::Slot;
use crate::slots::{Iter, Slots};
use foyer_policy::{Error, Reason, Result};
use ids::Ids;
use std::alloc::Global;
use std::mem;

/// The records of a shard, by slot. The table of ids is asked only if a slot isn't known.
#[derive(Drop)]
pub struct Records<K: Drop, V: Drop, P: Drop> {
    slots: Slots<Slot<K, V, P>>,
    ids: Ids,
    ghost agree: { IsTable (get slots) (slot_of ids) },
}

impl<K: Drop, V: Drop, P: Drop> Records<K, V, P> {
    ghost use Rattle.foyer_core.specs.Records.{slot_in, number_of, record_in, id_in, slot_to, count_in, HasAllRoom, HasRoom};

    pub fn new(alloc: Global) -> Self
        ensures slots { (n : ℕ) → slot_in result n ≡ None }
        ensures ids { (id : ℕ) → number_of result id ≡ None }
    {
        Records {
            slots: Slots::new(alloc),
            ids: Ids::new(alloc),
        }
    }

    /// Makes room for one record.
    ///
    /// # Errors
    /// F7 if memory runs out.
    #[inline(always)]
    pub fn reserve(&mut self) -> Result<()>
        ensures room { OnOk result (HasRoom self.new) }
        ensures refused { IfErr result (λ e. e ≡ NoMemory) }
        ensures slots { (n : ℕ) → slot_in self.new n ≡ slot_in self.old n }
        ensures ids { (id : ℕ) → number_of self.new id ≡ number_of self.old id }
        ensures count { count_in self.new ≡ count_in self.old }
        ensures granted { HasAllRoom self.old → IsOk result }
    {
        let Ok(()) = self.slots.reserve() else {
            return Err(Error::new(Reason::NoMemory));
        };
        let Ok(()) = self.ids.reserve(self.slots.len()) else {
            return Err(Error::new(Reason::NoMemory));
        };
        Ok(())
    }

    /// Returns the number of slots. A new slot gets this number.
    #[inline(always)]
    pub fn count(&self) -> usize
        ensures { result ≡ count_in self.now }
    {
        self.slots.count()
    }

    /// Returns the record in a slot.
    #[inline(always)]
    pub fn get(&self, slot: usize) -> Option<&Slot<K, V, P>>
        ensures { option_copied result ≡ slot_in self.now slot }
    {
        self.slots.get(slot)
    }

    /// Returns the slots with a record, by rising number.
    pub fn iter(&self) -> Iter<'_, Slot<K, V, P>>
        ensures { result ≡ entries self.now.slots }
    {
        self.slots.iter()
    }

    /// Returns the slot of an id.
    #[inline(always)]
    pub fn stands(&self, id: u64) -> Option<usize>
        ensures { result ≡ number_of self.now id }
    {
        self.ids.get(id)
    }

    /// Returns the slot of an id, which may be the hinted one.
    #[inline(always)]
    pub fn find(&self, id: u64, hint: usize) -> Option<usize>
        ensures { result ≡ number_of self.now id }
    {
        if let Some(slot) = self.slots.get(hint) {
            if slot.id() == id {
                return Some(hint);
            }
        }
        self.stands(id)
    }

    /// Returns the slot for a record: the one that its id has, or else the next new one.
    #[inline(always)]
    pub fn slot_for(&self, stands: Option<usize>) -> usize
        ensures slot { result ≡ slot_to self.now stands }
        ensures within { (id : ℕ) → stands ≡ number_of self.now id → result ≤ count_in self.now }
        ensures here { (id : ℕ) → stands ≡ number_of self.now id → record_in self.now id ≡ option_map rec_of (slot_in self.now result) }
    {
        match stands {
            Some(slot) => slot,
            None => self.slots.next_slot(),
        }
    }

    /// Puts a record into the slot that its id has, or into a new one, and returns the slot and what it had. Needs
    /// room.
    #[inline(always)]
    pub fn put(
        &mut self,
        slot: Slot<K, V, P>,
        stands: Option<usize>,
    ) -> (usize, Option<Slot<K, V, P>>)
        requires room { HasRoom self.old }
        requires stands { stands ≡ number_of self.old slot.id }
        ensures slot { result.0 ≡ slot_to self.old stands }
        ensures stood { slot_in self.old result.0 ≡ result.1 }
        ensures was { record_in self.old slot.id ≡ option_map rec_of result.1 }
        ensures alike { (x : Kept K V P) → result.1 ≡ Some x → x.id ≡ slot.id }
        ensures slots { (n : ℕ) → slot_in self.new n ≡ update nat_eq (slot_in self.old) result.0 (Some slot) n }
        ensures records { (id : ℕ) → record_in self.new id ≡ update nat_eq (record_in self.old) slot.id (Some (rec_of slot)) id }
    {
        match stands {
            Some(place) => {
                let stood = self.replace(place, slot);
                (place, Some(stood))
            }
            None => (self.put_new(slot), None),
        }
    }

    // Enters a record with a new id, and returns its slot.
    #[inline(always)]
    fn put_new(&mut self, slot: Slot<K, V, P>) -> usize
        requires room { HasRoom self.old }
        requires new { number_of self.old slot.id ≡ None }
        ensures slot { result ≡ slot_to self.old None }
        ensures free { slot_in self.old result ≡ None }
        ensures slots { (n : ℕ) → slot_in self.new n ≡ update nat_eq (slot_in self.old) result (Some slot) n }
        ensures records { (id : ℕ) → record_in self.new id ≡ update nat_eq (record_in self.old) slot.id (Some (rec_of slot)) id }
    {
        let id = slot.id();
        let place = self.slots.insert(slot);
        self.ids.name(id, place);
        place
    }

    // Puts a record into the slot of its id, and returns what was there.
    #[inline(always)]
    fn replace(&mut self, place: usize, slot: Slot<K, V, P>) -> Slot<K, V, P>
        requires { IsSomeAnd (slot_in self.old place) (λ s. s.id ≡ slot.id) }
        ensures stood { slot_in self.old place ≡ Some result }
        ensures slots { (n : ℕ) → slot_in self.new n ≡ update nat_eq (slot_in self.old) place (Some slot) n }
        ensures records { (id : ℕ) → record_in self.new id ≡ update nat_eq (record_in self.old) slot.id (Some (rec_of slot)) id }
    {
        let Some(found) = self.slots.get_mut(place) else {
            unreachable!();
        };
        mem::replace(found, slot)
    }

    /// Counts so many more handles.
    #[inline(always)]
    pub fn add_handles(&mut self, slot: usize, more: usize)
        requires { IsSomeAnd (slot_in self.old slot) (λ s. s.handles + more < 2 ^ 64) }
        ensures slots { (s : Kept K V P) → slot_in self.old slot ≡ Some s → (n : ℕ)
            → slot_in self.new n ≡ update nat_eq (slot_in self.old) slot
            (Some (record s { handles = s.handles + more })) n }
        ensures records { (s : Kept K V P) → slot_in self.old slot ≡ Some s → (id : ℕ)
            → record_in self.new id ≡ update nat_eq (record_in self.old) s.id
            (Some (rec_of (record s { handles = s.handles + more }))) id }
        ensures ids { (id : ℕ) → number_of self.new id ≡ number_of self.old id }
        ensures room { HasRoom self.old → HasRoom self.new }
    {
        let Some(found) = self.slots.get_mut(slot) else {
            unreachable!();
        };
        found.add_handles(more);
    }

    /// Counts one more handle.
    #[inline(always)]
    pub fn add_handle(&mut self, slot: usize)
        requires { IsSomeAnd (slot_in self.old slot) (λ s. s.handles + 1 < 2 ^ 64) }
        ensures slots { (s : Kept K V P) → slot_in self.old slot ≡ Some s → (n : ℕ)
            → slot_in self.new n ≡ update nat_eq (slot_in self.old) slot
            (Some (record s { handles = s.handles + 1 })) n }
        ensures records { (s : Kept K V P) → slot_in self.old slot ≡ Some s → (id : ℕ)
            → record_in self.new id ≡ update nat_eq (record_in self.old) s.id
            (Some (rec_of (record s { handles = s.handles + 1 }))) id }
        ensures ids { (id : ℕ) → number_of self.new id ≡ number_of self.old id }
        ensures room { HasRoom self.old → HasRoom self.new }
    {
        self.add_handles(slot, 1);
    }

    /// Counts one handle less.
    #[inline(always)]
    pub fn take_handle(&mut self, slot: usize)
        requires { IsSomeAnd (slot_in self.old slot) (λ s. 0 < s.handles) }
        ensures slots { (s : Kept K V P) → slot_in self.old slot ≡ Some s → (n : ℕ)
            → slot_in self.new n ≡ update nat_eq (slot_in self.old) slot
            (Some (record s { handles = s.handles - 1 })) n }
        ensures records { (s : Kept K V P) → slot_in self.old slot ≡ Some s → (id : ℕ)
            → record_in self.new id ≡ update nat_eq (record_in self.old) s.id
            (Some (rec_of (record s { handles = s.handles - 1 }))) id }
        ensures ids { (id : ℕ) → number_of self.new id ≡ number_of self.old id }
    {
        let Some(found) = self.slots.get_mut(slot) else {
            unreachable!();
        };
        let _ = found.take_handle();
    }

    /// Removes the record of a slot.
    #[inline(always)]
    pub fn forget(&mut self, slot: usize) -> Slot<K, V, P>
        requires { IsSome (slot_in self.old slot) }
        ensures slot { slot_in self.old slot ≡ Some result }
        ensures slots { (n : ℕ) → slot_in self.new n ≡ update nat_eq (slot_in self.old) slot None n }
        ensures ids { (id : ℕ) → number_of self.new id ≡ update nat_eq (number_of self.old) result.id None id }
        ensures records { (id : ℕ) → record_in self.new id ≡ update nat_eq (record_in self.old) result.id None id }
        ensures room { HasRoom self.old → HasRoom self.new }
        ensures count { count_in self.new ≡ count_in self.old }
    {
        let found = self.slots.remove(slot);
        self.ids.remove(found.id());
        found
    }

    /// Takes the record of a slot out of index and policy, and returns what leaves, in the core of this number. The
    /// record stays in its slot only while it has a handle.
    #[inline(always)]
    pub fn leave(&mut self, slot: usize, number: u64) -> Left<K, V, P>
        requires { IsSomeAnd (slot_in self.old slot) (λ s. s.resident ≡ true) }
        ensures left { (s : Kept K V P) → slot_in self.old slot ≡ Some s → result ≡ record { number = number; id = s.id; kept = s.kept } }
        ensures slots { (s : Kept K V P) → slot_in self.old slot ≡ Some s → (n : ℕ)
            → slot_in self.new n ≡ update nat_eq (slot_in self.old) slot (slot_outside s) n }
        ensures records { (s : Kept K V P) → slot_in self.old slot ≡ Some s → (id : ℕ)
            → record_in self.new id ≡ update nat_eq (record_in self.old) s.id (outside (rec_of s)) id }
        ensures room { HasRoom self.old → HasRoom self.new }
        ensures count { count_in self.new ≡ count_in self.old }
    {
        let Some(found) = self.slots.get_mut(slot) else {
            unreachable!();
        };
        let left = found.leave(number);
        if found.handles() == 0 {
            let _ = self.forget(slot);
        }
        left
    }
}

impl<K: Eq + Drop, V: Drop, P: Drop> Records<K, V, P> {
    ghost use Rattle.foyer_core.specs.Records.{slot_in};
    ghost use Rattle.foyer_core.specs.Table.{has_key};

    /// Returns whether the record in a slot has this key.
    #[inline(always)]
    pub fn has_key(&self, slot: usize, hash: u64, key: &K) -> bool
        ensures { result ≡ has_key K.eq (slot_in self.now slot) (hash, key.now) }
    {
        match self.slots.get(slot) {
            Some(found) => found.hash() == hash && *found.key() == *key,
            None => false,
        }
    }
}
