//! Handles by name.

ghost use Rattle.std.specs.Prelude.{◌≡◌, ℕ, ◌<◌, ◌≤◌, Some, false, OnErr, IfOk, IfSome, IfNone, is_some, option_map};
ghost use Rattle.foyer_core.specs.Pieces.{is_in};
ghost use Rattle.foyer_core.specs.Records.{slot_in};
ghost use Rattle.foyer_core.specs.Table.{rec_of};
ghost use Rattle.foyer_core.specs.Values.{Kept};

use super::Store;
use crate::entry::{Leave, Left};
use crate::finder::Finder;
use crate::hold::{Hold, RecordRef};
use crate::outcome::Foreign;
use crate::prefetch;
use foyer_policy::{Error, Eviction, Key, Place, Properties, Reason, Result, Value};

impl<E: Eviction, K: Key, V: Value, P: Properties, I: Finder<K>> Store<E, K, V, P, I> {
    ghost use Rattle.foyer_core.specs.Stores.{state_of, meaning_of};
    ghost use Rattle.foyer_core.specs.Bulk.{TakesRecordOut};
    ghost use Rattle.foyer_core.specs.Holds.{HasNoResident, Holds, NamesResident};
    ghost use Rattle.foyer_core.specs.State.{handles_in};
    ghost use Rattle.foyer_core.specs.Steps.{GivesBack};

    /// Counts a use of the record that the key hits at `now` and one handle more, as `Shard::hold` does.
    #[inline(always)]
    pub fn hold_key(&mut self, now: u64, hash: u64, key: &K) -> Result<Option<Hold>>
        ensures holds { Holds (meaning_of self.old) now (state_of self.old) (hash, key.now) result (state_of self.new) }
    {
        let Some((slot, found)) = self.live_under(now, hash, key) else {
            return Ok(None);
        };
        if found.handles() >= self.limits.handles {
            return Err(Error::new(Reason::Handles));
        }
        let place = Place::at(slot);
        prefetch::keep(self.eviction.look_ahead(place));
        let id = found.id();
        self.records.add_handle(slot);
        self.eviction.acquire(place);
        Ok(Some(Hold { hash, id, slot }))
    }

    /// Takes a handle back by its name, as `Shard::unhold` does.
    #[inline(always)]
    pub fn unhold(&mut self, hold: Hold) -> std::result::Result<Option<Leave<K, V, P>>, Foreign>
        ensures taken { IfOk result (λ leave. GivesBack (meaning_of self.old) (state_of self.old) hold.id leave (state_of self.new)) }
        ensures foreign { OnErr result (handles_in (state_of self.old) hold.id ≡ 0) }
        ensures err { OnErr result (state_of self.new ≡ state_of self.old) }
    {
        self.take_back_at(hold.id, hold.slot)
    }

    /// Returns the record that is named, as `Shard::held` does.
    #[inline(always)]
    pub fn found(&self, hold: Hold) -> Option<RecordRef<'_, K, V, P>>
        ensures { option_map rec_of result ≡ (state_of self.now).records hold.id }
    {
        match self.held(hold.id, hold.slot) {
            Some(slot) => Some(RecordRef::new(slot)),
            None => None,
        }
    }

    /// Takes the record that is named out of the index, as `Shard::remove_this` does.
    pub fn remove_this(&mut self, hold: Hold) -> Option<Left<K, V, P>>
        ensures resident { is_some result ≡ is_in ((state_of self.old).records hold.id) }
        ensures removed { IfSome result (λ left. TakesRecordOut (meaning_of self.old) (state_of self.old) hold.id left (state_of self.new)) }
        ensures none { IfNone result (state_of self.new ≡ state_of self.old) }
    {
        let slot = self.records.find(hold.id, hold.slot)?;
        let Some(found) = self.records.get(slot) else {
            unreachable!();
        };
        if !found.is_resident() {
            return None;
        }
        Some(self.take_out(hold.id, slot))
    }

    /// Names a resident record, as `Shard::resident_from` does.
    pub fn resident_from(&self, slot: usize) -> Option<Hold>
        ensures some { IfSome result (NamesResident (state_of self.now)) }
        ensures none { IfNone result (HasNoResident (state_of self.now)) }
    {
        let slots = self.records.count();
        match self.resident_between(slot, slots) {
            Some(hold) => Some(hold),
            None => self.resident_between(0, slots),
        }
    }

    // Names the first record that is resident in one of these slots, the last of which is excluded.
    fn resident_between(&self, first: usize, end: usize) -> Option<Hold>
        ensures some { IfSome result (NamesResident (state_of self.now)) }
        ensures none { IfNone result ((n : ℕ) (x : Kept K V P) → first ≤ n → n < end → slot_in self.now.records n ≡ Some x
            → x.resident ≡ false) }
    {
        for slot in first..end {
            match self.records.get(slot) {
                Some(found) if found.is_resident() => {
                    let (hash, id) = (found.hash(), found.id());
                    return Some(Hold { hash, id, slot });
                }
                _ => {}
            }
        }
        None
    }
}
