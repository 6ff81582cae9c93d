//! Evictions of records that a predicate picks.

ghost use Rattle.std.specs.Prelude.{◌≡◌, ◌+◌, ◌<◌, ◌≤◌, IfOk, IfErr, length, vec_len, vec_capacity};
ghost use Rattle.foyer_policy.specs.Items.{count_of, IsWithin};
ghost use Rattle.foyer_policy.specs.declared.error.Reason.TheVariants.{NoMemory};
ghost use Rattle.foyer_policy.specs.declared.types.Event.TheVariants.{Evict};
ghost use Rattle.foyer_core.specs.Records.{HasRoom};

use super::Store;
use super::clearing::leave_slot;
use crate::entry::{Leave, Left};
use crate::finder::Finder;
use foyer_policy::{Error, Event, Eviction, Item, Key, Place, Properties, Reason, Result, Value};
use std::alloc::Global;

impl<E: Eviction, K: Key, V: Value, P: Properties, I: Finder<K>> Store<E, K, V, P, I> {
    ghost use Rattle.foyer_core.specs.Stores.{state_of, meaning_of, HasPlaces};
    ghost use Rattle.foyer_core.specs.Bulk.{GoesOn, TakesRecordOut, TakesOut, Picks, Says, Answers};

    /// Returns the items that the predicate picks, as `Shard::pick` does.
    pub fn pick<F: Fn(&K, &V) -> bool>(&self, alloc: Global, predicate: &F) -> Result<Vec<Item>>
        requires { F.IsAlwaysCallable predicate.now }
        ensures picks { IfOk result (λ picked. Picks (meaning_of self.now) (Says F.Fn predicate.now) (state_of self.now) picked.items) }
        ensures within { IfOk result (λ picked. IsWithin picked.items (E.model.order (state_of self.now).view)) }
        ensures refused { IfErr result (λ e. e ≡ NoMemory) }
    {
        let items = self.eviction.order()?;
        let mut picked = Vec::new(alloc);
        let Ok(()) = picked.reserve(items.len()) else {
            return Err(Error::new(Reason::NoMemory));
        };
        for item in &items {
            if self.says(item.id, predicate) {
                picked.push_reserved(*item);
            }
        }
        Ok(picked)
    }

    // What the predicate returns for an id's record.
    fn says<F: Fn(&K, &V) -> bool>(&self, id: u64, predicate: &F) -> bool
        requires callable { F.IsAlwaysCallable predicate.now }
        requires there { 0 < count_of id (E.model.order (E.view self.now.eviction)) }
        ensures { Answers (Says F.Fn predicate.now) (state_of self.now) id result }
    {
        let Some(slot) = self.records.find(id, 0) else {
            unreachable!();
        };
        let Some(found) = self.records.get(slot) else {
            unreachable!();
        };
        predicate(found.key(), found.value())
    }

    /// Evicts the records of these items, as `Shard::evict_picked` does.
    pub fn evict_picked(&mut self, picked: &[Item], leaves: &mut Vec<Leave<K, V, P>>)
        requires within { IsWithin picked.now (E.model.order (state_of self.old).view) }
        requires room { vec_len leaves.old + length picked.now ≤ vec_capacity leaves.old }
        ensures told { GoesOn leaves.old.items leaves.new.items
            (λ ls. TakesOut (meaning_of self.old) Evict picked.now (state_of self.old) ls (state_of self.new)) }
        ensures len { vec_len leaves.new ≡ vec_len leaves.old + length picked.now }
        ensures capacity { vec_capacity leaves.new ≡ vec_capacity leaves.old }
    {
        for item in picked {
            let left = self.take_out(item.id, 0);
            leaves.push_reserved((Event::Evict, left));
        }
    }

    // Evicts the record of an id, which may be in the hinted slot.
    #[inline(always)]
    pub(super) fn take_out(&mut self, id: u64, hint: usize) -> Left<K, V, P>
        requires { 0 < count_of id (E.model.order (E.view self.old.eviction)) }
        ensures taken { TakesRecordOut (meaning_of self.old) (state_of self.old) id result (state_of self.new) }
        ensures room { HasRoom self.old.records → HasRoom self.new.records }
        ensures places { HasPlaces self.old → HasPlaces self.new }
    {
        let Some(slot) = self.records.find(id, hint) else {
            unreachable!();
        };
        let item = self.eviction.remove(Place::at(slot));
        self.usage -= item.weight;
        self.entries -= 1;
        leave_slot(&mut self.index, &mut self.records, slot, self.number)
    }
}
