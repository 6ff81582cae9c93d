//! Inserts of phantom records, which are never in the index.

ghost use Rattle.std.specs.Prelude.{◌≡◌, ℕ, ◌+◌, ◌<◌, ◌≤◌, ◌^◌, Some, None, OnOk, IfOk, MatchOption, false, vec_len, vec_capacity};
ghost use Rattle.foyer_policy.specs.declared.types.Source.{Source};
ghost use Rattle.foyer_policy.specs.declared.error.Reason.TheVariants.{NoMemory};
ghost use Rattle.foyer_core.specs.Records.{HasRoom};
ghost use Rattle.foyer_core.specs.Values.{Rec, incoming_of};

use super::Store;
use super::admission::above;
use crate::entry::{Leave, Left};
use crate::finder::Finder;
use crate::slot::Slot;
use foyer_policy::{Event, Eviction, Key, Properties, Result, Value};

impl<E: Eviction, K: Key, V: Value, P: Properties, I: Finder<K>> Store<E, K, V, P, I> {
    ghost use Rattle.foyer_core.specs.Stores.{state_of, meaning_of};
    ghost use Rattle.foyer_core.specs.Bulk.{GoesOn};
    ghost use Rattle.foyer_core.specs.State.{at_moment};
    ghost use Rattle.foyer_core.specs.Steps.{RefusesPhantom, GivesWay, MayHold, after_hold, replaced_leaves};
    ghost use Rattle.foyer_core.specs.Settled.{SettlesPhantom};

    // Inserts a phantom record that only F7 can refuse: replaces its key's record, and is held by its entries alone.
    // It has a new id, or comes back under its own.
    #[cold]
    #[inline(never)]
    pub(super) fn insert_phantom(
        &mut self,
        slot: Slot<K, V, P>,
        leaves: &mut Vec<Leave<K, V, P>>,
    ) -> Option<usize>
        requires apart { slot ≡ record slot { resident = false } }
        requires out { (r : Rec K V P) → (state_of self.old).records slot.id ≡ Some r → r.resident ≡ false }
        requires number { slot.id + 1 < 2 ^ 64 }
        requires held { 0 < slot.handles }
        requires may { MayHold (meaning_of self.old) (state_of self.old) (incoming_of slot) }
        ensures inserted { (now : ℕ) (source : Source) → GoesOn leaves.old.items leaves.new.items (λ ls. MatchOption result
            (RefusesPhantom (at_moment now (meaning_of self.old)) (state_of self.old) (incoming_of slot) NoMemory ls (state_of self.new))
            (λ _. SettlesPhantom (at_moment now (meaning_of self.old)) source (state_of self.old) (incoming_of slot) ls (state_of self.new))) }
    {
        let Ok(gone) = self.prepare_phantom(&slot, leaves) else {
            return None;
        };
        if let Some(left) = self.make_way(slot.hash(), slot.key()) {
            leaves.push_reserved((Event::Replace, left));
        }
        leaves.push_reserved((Event::Remove, gone));
        Some(self.hold(slot))
    }

    // Makes room for one record that isn't indexed and for two that leave, and returns what it is reported with.
    fn prepare_phantom(
        &mut self,
        slot: &Slot<K, V, P>,
        leaves: &mut Vec<Leave<K, V, P>>,
    ) -> Result<Left<K, V, P>>
        ensures same { state_of self.new ≡ state_of self.old }
        ensures gone { IfOk result (λ gone. gone ≡ record { number = self.old.number; id = slot.now.id; kept = slot.now.kept }) }
        ensures leaves { leaves.new.items ≡ leaves.old.items }
        ensures leaves_room { OnOk result (vec_len leaves.new + 2 ≤ vec_capacity leaves.new) }
        ensures room { OnOk result (HasRoom self.new.records) }
    {
        leaves.reserve(2)?;
        self.records.reserve()?;
        slot.left(self.number)
    }

    // Removes the key's record, if it has one.
    fn make_way(&mut self, hash: u64, key: &K) -> Option<Left<K, V, P>>
        ensures gives_way { GivesWay (meaning_of self.old) ((state_of self.old).index (hash, key.now))
            (state_of self.old) (replaced_leaves result) (state_of self.new) }
        ensures room { HasRoom self.old.records → HasRoom self.new.records }
    {
        let Some(slot) = self.slot_under(hash, key) else {
            return None;
        };
        let Some(found) = self.records.get(slot) else {
            unreachable!();
        };
        let id = found.id();
        Some(self.take_out(id, slot))
    }

    // Holds a record that isn't indexed, in place of what is held under its id, and returns its slot. Needs room.
    fn hold(&mut self, slot: Slot<K, V, P>) -> usize
        requires room { HasRoom self.old.records }
        requires apart { slot ≡ record slot { resident = false } }
        requires out { (r : Rec K V P) → (state_of self.old).records slot.id ≡ Some r → r.resident ≡ false }
        requires number { slot.id + 1 < 2 ^ 64 }
        requires held { 0 < slot.handles }
        requires handles { slot.handles ≤ self.old.limits.handles }
        ensures { state_of self.new ≡ after_hold (meaning_of self.old) (state_of self.old) (incoming_of slot) }
    {
        let id = slot.id();
        let stands = self.stands(id);
        let (place, _stood) = self.records.put(slot, stands);
        self.next = above(self.next, id);
        place
    }
}
