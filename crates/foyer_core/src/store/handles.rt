//! Handles of records: `look_up` and `take_back`.

ghost use Rattle.std.specs.Prelude.{◌≡◌, ◌≢◌, ◌⊎◌, Some, OnErr, IfOk, IsSomeAnd, false, option_copied, option_map};
ghost use Rattle.foyer_core.specs.Looks.{IfHit, look_whole};
ghost use Rattle.foyer_core.specs.Values.{Kept};
ghost use Rattle.foyer_core.specs.Records.{slot_in};
ghost use Rattle.foyer_core.specs.Table.{rec_of};

use super::Store;
use crate::entry::{CoreEntry, Leave};
use crate::finder::Finder;
use crate::outcome::{Foreign, Got};
use crate::prefetch;
use crate::slot::Slot;
use foyer_policy::{Event, Eviction, Key, Place, Properties, Source, Value};

impl<E: Eviction, K: Key, V: Value, P: Properties, I: Finder<K>> Store<E, K, V, P, I> {
    ghost use Rattle.foyer_core.specs.Stores.{state_of, meaning_of};
    ghost use Rattle.foyer_core.specs.State.{handles_in};
    ghost use Rattle.foyer_core.specs.Steps.{Gets, GivesBack};

    /// Returns an entry of the key's record, as `Shard::look_up` does. Allocates nothing.
    #[inline(always)]
    pub fn look_up(&mut self, now: u64, hash: u64, key: &K, told: bool) -> Got<K, V, P>
        ensures gets { Gets (meaning_of self.old) now (state_of self.old) (hash, key.now) (look_whole result) (state_of self.new) }
        ensures told { IfHit result (λ e. e.left ≡ told) }
    {
        let Some((slot, found)) = self.live_under(now, hash, key) else {
            return Got::Miss;
        };
        if found.handles() >= self.limits.handles {
            return Got::Full;
        }
        let place = Place::at(slot);
        // The item's node and its neighbors are read before shares are counted (store/ahead.rt).
        prefetch::keep(self.eviction.look_ahead(place));
        let Some(entry) = found.entry(self.number, slot, Source::Memory, told) else {
            return Got::OutOfMemory;
        };
        self.records.add_handle(slot);
        self.eviction.acquire(place);
        Got::Hit(entry)
    }

    /// Takes an entry's handle back and returns what left with it, as `Shard::take_back` does. Takes no memory.
    #[inline(always)]
    pub fn take_back(
        &mut self,
        entry: &CoreEntry<K, V, P>,
    ) -> std::result::Result<Option<Leave<K, V, P>>, Foreign>
        ensures taken { IfOk result (λ leave. (entry.now.number ≡ (state_of self.old).number)
            × GivesBack (meaning_of self.old) (state_of self.old) entry.now.id leave (state_of self.new)) }
        ensures foreign { OnErr result ((entry.now.number ≢ (state_of self.old).number) ⊎ (handles_in (state_of self.old) entry.now.id ≡ 0)) }
        ensures err { OnErr result (state_of self.new ≡ state_of self.old) }
    {
        if entry.number() != self.number {
            return Err(Foreign);
        }
        self.take_back_at(entry.id(), entry.slot())
    }

    // Takes a handle of an id back, whose record may be in the hinted slot, and returns what left with it.
    #[inline(always)]
    pub(crate) fn take_back_at(
        &mut self,
        id: u64,
        hint: usize,
    ) -> std::result::Result<Option<Leave<K, V, P>>, Foreign>
        ensures taken { IfOk result (λ leave. GivesBack (meaning_of self.old) (state_of self.old) id leave (state_of self.new)) }
        ensures foreign { OnErr result (handles_in (state_of self.old) id ≡ 0) }
        ensures err { OnErr result (state_of self.new ≡ state_of self.old) }
    {
        let Some(slot) = self.records.find(id, hint) else {
            return Err(Foreign);
        };
        let Some(found) = self.records.get(slot) else {
            unreachable!();
        };
        let handles = found.handles();
        if handles == 0 {
            return Err(Foreign);
        }
        if handles > 1 {
            self.records.take_handle(slot);
            return Ok(None);
        }
        if !found.is_resident() {
            return Ok(self.forget(slot));
        }
        self.records.take_handle(slot);
        self.eviction.release(Place::at(slot));
        Ok(None)
    }

    // Forgets a record that isn't resident, with its last handle.
    fn forget(&mut self, slot: usize) -> Option<Leave<K, V, P>>
        requires { IsSomeAnd (slot_in self.old.records slot) (λ s. (s.handles ≡ 1) × (s.resident ≡ false)) }
        ensures { (s : Kept K V P) → slot_in self.old.records slot ≡ Some s
            → GivesBack (meaning_of self.old) (state_of self.old) s.id result (state_of self.new) }
    {
        let gone = self.records.forget(slot);
        if gone.properties().phantom().unwrap_or(false) {
            return Some((Event::Evict, gone.into_left(self.number)));
        }
        None
    }

    // The number of the shard's core.
    pub(crate) fn number(&self) -> u64
        ensures { result ≡ (state_of self.now).number }
    {
        self.number
    }

    // How many handles there are of an id, whose record may be in the hinted slot. Takes no memory.
    pub(crate) fn handles(&self, id: u64, hint: usize) -> usize
        ensures { result ≡ handles_in (state_of self.now) id }
    {
        let Some(slot) = self.records.find(id, hint) else {
            return 0;
        };
        match self.records.get(slot) {
            Some(found) => found.handles(),
            None => 0,
        }
    }

    // The record of an id, which may be in the hinted slot. Takes no memory.
    pub(crate) fn held(&self, id: u64, hint: usize) -> Option<&Slot<K, V, P>>
        ensures { option_map rec_of (option_copied result) ≡ (state_of self.now).records id }
    {
        let slot = self.records.find(id, hint)?;
        self.records.get(slot)
    }
}
