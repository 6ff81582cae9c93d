//! Calls on a shard's own entries.

ghost use Rattle.std.specs.Prelude.{◌≡◌, ◌<◌, ◌↔◌, IsTrue};

use super::Store;
use crate::entry::CoreEntry;
use crate::finder::Finder;
use foyer_policy::{Error, Eviction, Key, Properties, Reason, Result, Value};

impl<E: Eviction, K: Key, V: Value, P: Properties, I: Finder<K>> Store<E, K, V, P, I> {
    ghost use Rattle.foyer_core.specs.Stores.{state_of, meaning_of};
    ghost use Rattle.foyer_core.specs.State.{handles_in};
    ghost use Rattle.foyer_core.specs.Steps.{ClonesHandle, IsOutdated};

    /// Returns one more entry of the same record, as `Shard::clone_handle` does.
    pub fn clone_handle(&mut self, entry: &CoreEntry<K, V, P>) -> Result<CoreEntry<K, V, P>>
        requires owned { (entry.now.number ≡ (state_of self.old).number) × (0 < handles_in (state_of self.old) entry.now.id) }
        ensures clones { ClonesHandle (state_of self.old) entry.now result (state_of self.new) }
    {
        let Some(slot) = self.records.find(entry.id(), entry.slot()) else {
            unreachable!();
        };
        let Some(found) = self.records.get(slot) else {
            unreachable!();
        };
        if found.handles() >= self.limits.handles {
            return Err(Error::new(Reason::Handles));
        }
        let clone = entry.share(slot)?;
        self.records.add_handle(slot);
        Ok(clone)
    }

    /// Returns how many handles an entry's record has. The entry must be this shard's.
    pub fn refs(&self, entry: &CoreEntry<K, V, P>) -> usize
        requires owned { (entry.now.number ≡ (state_of self.now).number) × (0 < handles_in (state_of self.now) entry.now.id) }
        ensures { result ≡ handles_in (state_of self.now) entry.now.id }
    {
        self.handles(entry.id(), entry.slot())
    }

    /// Returns whether an entry's record is no longer resident. The entry must be this shard's.
    pub fn is_outdated(&self, entry: &CoreEntry<K, V, P>) -> bool
        requires owned { (entry.now.number ≡ (state_of self.now).number) × (0 < handles_in (state_of self.now) entry.now.id) }
        ensures { IsTrue result ↔ IsOutdated (state_of self.now) entry.now.id }
    {
        let Some(slot) = self.records.find(entry.id(), entry.slot()) else {
            unreachable!();
        };
        match self.records.get(slot) {
            Some(found) => !found.is_resident(),
            None => unreachable!(),
        }
    }
}
