//! Removals of all records of a shard, or of those that a predicate picks.

ghost use Rattle.std.specs.Prelude.{◌≡◌, ◌+◌, ◌≤◌, OnOk, OnErr, IfOk, IfErr, length, vec_len, vec_capacity};
ghost use Rattle.foyer_policy.specs.Items.{IsWithin};
ghost use Rattle.foyer_policy.specs.declared.error.Reason.TheVariants.{NoMemory};
ghost use Rattle.foyer_policy.specs.declared.types.Event.TheVariants.{Evict};

use super::Shard;
use crate::entry::Leave;
use crate::finder::Finder;
use foyer_policy::{Error, Eviction, Item, Key, Properties, Reason, Result, Value};
use std::alloc::Global;

impl<E: Eviction, K: Key, V: Value, P: Properties, N: Drop, R: Drop, I: Finder<K>> Shard<
    E,
    K,
    V,
    P,
    N,
    R,
    I,
> {
    ghost use Rattle.foyer_core.specs.Shards.{state_of, meaning_of, opens_of};
    ghost use Rattle.foyer_core.specs.Bulk.{GoesOn, Clears, EvictsIf, Picks, Says, TakesOut};

    /// Makes room in the policy for a `clear`, and returns all items, in the policy's order.
    ///
    /// # Errors
    /// F7 if memory runs out; nothing else has changed.
    pub fn reserve_clear(&mut self) -> Result<Vec<Item>>
        ensures same { state_of self.new ≡ state_of self.old }
        ensures can_clear { OnOk result (E.can_clear self.new.store.eviction) }
        ensures items { IfOk result (λ items. items.items ≡ E.model.order (state_of self.new).view) }
        ensures refused { IfErr result (λ e. e ≡ NoMemory) }
        ensures opens { opens_of self.new ≡ opens_of self.old }
    {
        self.store.reserve_clear()
    }

    /// Removes all records as `Clear`, in the policy's order, and appends them.
    ///
    /// Needs the room and the items of `reserve_clear`, and room in the list. Takes no memory.
    pub fn clear(&mut self, items: &[Item], leaves: &mut Vec<Leave<K, V, P>>)
        requires can_clear { E.can_clear self.old.store.eviction }
        requires items { items.now ≡ E.model.order (state_of self.old).view }
        requires room { vec_len leaves.old + length items.now ≤ vec_capacity leaves.old }
        ensures told { GoesOn leaves.old.items leaves.new.items (λ ls. Clears (meaning_of self.old) (state_of self.old) ls (state_of self.new)) }
        ensures len { vec_len leaves.new ≡ vec_len leaves.old + length items.now }
        ensures capacity { vec_capacity leaves.new ≡ vec_capacity leaves.old }
        ensures opens { opens_of self.new ≡ opens_of self.old }
    {
        self.store.clear(items, leaves)
    }

    /// Removes all records as `Clear`, in the policy's order, and appends them.
    ///
    /// # Errors
    /// F7 if memory runs out; nothing has changed.
    pub fn clear_onto(&mut self, leaves: &mut Vec<Leave<K, V, P>>) -> Result<()>
        ensures done { OnOk result (GoesOn leaves.old.items leaves.new.items (λ ls. Clears (meaning_of self.old) (state_of self.old) ls (state_of self.new))) }
        ensures err { OnErr result (state_of self.new ≡ state_of self.old) }
        ensures none { OnErr result (leaves.new.items ≡ leaves.old.items) }
        ensures refused { IfErr result (λ e. e ≡ NoMemory) }
        ensures opens { opens_of self.new ≡ opens_of self.old }
    {
        let items = self.reserve_clear()?;
        let Ok(()) = leaves.reserve(items.len()) else {
            return Err(Error::new(Reason::NoMemory));
        };
        self.clear(&items, leaves);
        Ok(())
    }

    /// Evicts the records for which the predicate returns true, pinned or not, in the policy's order, and appends
    /// them. The predicate is called once for each record.
    ///
    /// # Errors
    /// F7 if memory runs out; nothing has changed.
    pub fn evict_if<F: Fn(&K, &V) -> bool>(
        &mut self,
        alloc: Global,
        predicate: &F,
        leaves: &mut Vec<Leave<K, V, P>>,
    ) -> Result<()>
        requires { F.IsAlwaysCallable predicate.now }
        ensures done { OnOk result (GoesOn leaves.old.items leaves.new.items
            (λ ls. EvictsIf (meaning_of self.old) (Says F.Fn predicate.now) (state_of self.old) ls
            (state_of self.new))) }
        ensures err { OnErr result (state_of self.new ≡ state_of self.old) }
        ensures none { OnErr result (leaves.new.items ≡ leaves.old.items) }
        ensures refused { IfErr result (λ e. e ≡ NoMemory) }
        ensures opens { opens_of self.new ≡ opens_of self.old }
    {
        let picked = self.pick(alloc, predicate)?;
        let Ok(()) = leaves.reserve(picked.len()) else {
            return Err(Error::new(Reason::NoMemory));
        };
        self.evict_picked(&picked, leaves);
        Ok(())
    }

    /// Returns the items of the records for which the predicate returns true, pinned or not, in the policy's order.
    /// The predicate is called once for each record.
    ///
    /// # Errors
    /// F7 if memory runs out.
    pub fn pick<F: Fn(&K, &V) -> bool>(&self, alloc: Global, predicate: &F) -> Result<Vec<Item>>
        requires { F.IsAlwaysCallable predicate.now }
        ensures picks { IfOk result (λ picked. Picks (meaning_of self.now) (Says F.Fn predicate.now) (state_of self.now) picked.items) }
        ensures within { IfOk result (λ picked. IsWithin picked.items (E.model.order (state_of self.now).view)) }
        ensures refused { IfErr result (λ e. e ≡ NoMemory) }
    {
        self.store.pick(alloc, predicate)
    }

    /// Evicts the records of these items, in this order, and appends them.
    ///
    /// Each must be resident and named once, as `pick` returns them, and the list needs room. Takes no memory.
    pub fn evict_picked(&mut self, picked: &[Item], leaves: &mut Vec<Leave<K, V, P>>)
        requires within { IsWithin picked.now (E.model.order (state_of self.old).view) }
        requires room { vec_len leaves.old + length picked.now ≤ vec_capacity leaves.old }
        ensures told { GoesOn leaves.old.items leaves.new.items
            (λ ls. TakesOut (meaning_of self.old) Evict picked.now (state_of self.old) ls (state_of self.new)) }
        ensures len { vec_len leaves.new ≡ vec_len leaves.old + length picked.now }
        ensures capacity { vec_capacity leaves.new ≡ vec_capacity leaves.old }
        ensures opens { opens_of self.new ≡ opens_of self.old }
    {
        self.store.evict_picked(picked, leaves)
    }
}
