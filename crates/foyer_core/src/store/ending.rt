//! The end of a store: its resident records are told.

ghost use Rattle.std.specs.Prelude.{◌≡◌, ℕ, ◌<◌, Some, true};
ghost use Rattle.foyer_policy.specs.Items.{count_of};
ghost use Rattle.foyer_core.specs.Records.{slot_in};
ghost use Rattle.foyer_core.specs.Values.{Kept, Rec};

use super::Store;
use crate::finder::Finder;
use foyer_policy::{Eviction, Item, Key, Properties, Value};

impl<E: Eviction, K: Key, V: Value, P: Properties, I: Finder<K>> Store<E, K, V, P, I> {
    ghost use Rattle.foyer_core.specs.Stores.{state_of};
    ghost use Rattle.foyer_core.specs.Questions.{IsTold, TellsResidents};

    // Tells each resident record, in the policy's order, or in the order of slots if there is no memory for that
    // order.
    pub(crate) fn tell_residents<F: Fn(&K, &V)>(&self, tell: &F)
        requires { F.IsAlwaysCallable tell.now }
        ensures { TellsResidents F.Fn tell.now (state_of self.now) }
    {
        match self.eviction.order() {
            Ok(items) => self.tell_in_order(&items, tell),
            Err(_) => self.tell_by_slot(tell),
        }
    }

    // Tells the records of these items, which are all items.
    fn tell_in_order<F: Fn(&K, &V)>(&self, items: &[Item], tell: &F)
        requires callable { F.IsAlwaysCallable tell.now }
        requires all { items.now ≡ E.model.order (E.view self.now.eviction) }
        ensures { TellsResidents F.Fn tell.now (state_of self.now) }
    {
        for item in items {
            self.tell(item.id, tell);
        }
    }

    // Tells an id's record.
    fn tell<F: Fn(&K, &V)>(&self, id: u64, tell: &F)
        requires callable { F.IsAlwaysCallable tell.now }
        requires there { 0 < count_of id (E.model.order (E.view self.now.eviction)) }
        ensures { (r : Rec K V P) → (state_of self.now).records id ≡ Some r → IsTold F.Fn tell.now r.kept.key r.kept.value }
    {
        let Some(slot) = self.records.find(id, 0) else {
            unreachable!();
        };
        let Some(found) = self.records.get(slot) else {
            unreachable!();
        };
        tell(found.key(), found.value());
    }

    // Tells the resident records in the order of slots. Takes no memory.
    fn tell_by_slot<F: Fn(&K, &V)>(&self, tell: &F)
        requires callable { F.IsAlwaysCallable tell.now }
        ensures { (n : ℕ) (x : Kept K V P) → slot_in self.now.records n ≡ Some x → x.resident ≡ true → IsTold F.Fn tell.now x.kept.key x.kept.value }
    {
        for (_, slot) in self.records.iter() {
            if slot.is_resident() {
                tell(slot.key(), slot.value());
            }
        }
    }
}
