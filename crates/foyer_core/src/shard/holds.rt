//! Handles by name, for callers that keep the shard alive themselves.

ghost use Rattle.std.specs.Prelude.{◌≡◌, OnErr, IfOk, IfSome, IfNone, is_some, option_map};
ghost use Rattle.foyer_core.specs.Pieces.{is_in};
ghost use Rattle.foyer_core.specs.Table.{rec_of};

use super::Shard;
use crate::entry::{Leave, Left};
use crate::finder::Finder;
use crate::hold::{Hold, RecordRef};
use crate::outcome::Foreign;
use foyer_policy::{Eviction, Key, Properties, Result, Value};

impl<E: Eviction, K: Key, V: Value, P: Properties, N: Drop, R: Drop, I: Finder<K>> Shard<
    E,
    K,
    V,
    P,
    N,
    R,
    I,
> {
    ghost use Rattle.foyer_core.specs.Shards.{state_of, meaning_of, opens_of};
    ghost use Rattle.foyer_core.specs.Bulk.{TakesRecordOut};
    ghost use Rattle.foyer_core.specs.Holds.{HasNoResident, Holds, Names, NamesResident};
    ghost use Rattle.foyer_core.specs.NoEntry.{Reads};
    ghost use Rattle.foyer_core.specs.State.{handles_in};
    ghost use Rattle.foyer_core.specs.Steps.{GivesBack};

    /// Looks a key up as `get` does, and returns the name of the handle in place of an entry.
    ///
    /// The record's data is counted nowhere: read it by `held` while the shard is there. Takes no memory.
    ///
    /// # Errors
    /// F9 if the handle count would pass its limit; nothing has changed.
    #[inline(always)]
    pub fn hold(&mut self, now: u64, hash: u64, key: &K) -> Result<Option<Hold>>
        ensures holds { Holds (meaning_of self.old) now (state_of self.old) (hash, key.now) result (state_of self.new) }
        ensures opens { opens_of self.new ≡ opens_of self.old }
    {
        self.store.hold_key(now, hash, key)
    }

    /// Counts a use of the record that the key hits at `now`, and returns its name, by which `held` finds it until the
    /// shard is changed. No handle is counted. Takes no memory.
    ///
    /// # Errors
    /// F9 if the handle count would pass its limit; nothing has changed.
    #[inline(always)]
    pub fn touch_named(&mut self, now: u64, hash: u64, key: &K) -> Result<Option<Hold>>
        ensures reads { Reads (meaning_of self.old) now (state_of self.old) (hash, key.now) (Names (state_of self.new) hash)
            result (state_of self.new) }
        ensures opens { opens_of self.new ≡ opens_of self.old }
    {
        self.store.touch_named(now, hash, key)
    }

    /// Takes a handle back by its name, and returns what left with it, as `take_back` does. If the id has no handle
    /// here, it is `Foreign`, and nothing has changed. Takes no memory.
    #[inline(always)]
    pub fn unhold(&mut self, hold: Hold) -> std::result::Result<Option<Leave<K, V, P>>, Foreign>
        ensures taken { IfOk result (λ leave. GivesBack (meaning_of self.old) (state_of self.old) hold.id leave (state_of self.new)) }
        ensures foreign { OnErr result (handles_in (state_of self.old) hold.id ≡ 0) }
        ensures err { OnErr result (state_of self.new ≡ state_of self.old) }
        ensures opens { opens_of self.new ≡ opens_of self.old }
    {
        self.store.unhold(hold)
    }

    /// Returns the record that is named, if the shard still has it: it has while there is a handle.
    #[inline(always)]
    pub fn held(&self, hold: Hold) -> Option<RecordRef<'_, K, V, P>>
        ensures { option_map rec_of result ≡ (state_of self.now).records hold.id }
    {
        self.store.found(hold)
    }

    /// Removes the record that is named, if it is still resident, and returns it: a `Remove` for the caller to tell.
    /// It takes no memory, and makes no handle.
    pub fn remove_this(&mut self, hold: Hold) -> Option<Left<K, V, P>>
        ensures resident { is_some result ≡ is_in ((state_of self.old).records hold.id) }
        ensures removed { IfSome result (λ left. TakesRecordOut (meaning_of self.old) (state_of self.old) hold.id left (state_of self.new)) }
        ensures none { IfNone result (state_of self.new ≡ state_of self.old) }
        ensures opens { opens_of self.new ≡ opens_of self.old }
    {
        self.store.remove_this(hold)
    }

    /// Names a resident record, if there is one: the first in a slot from `slot` on, or else the first of all. It takes
    /// no memory, and makes no handle.
    pub fn resident_from(&self, slot: usize) -> Option<Hold>
        ensures some { IfSome result (NamesResident (state_of self.now)) }
        ensures none { IfNone result (HasNoResident (state_of self.now)) }
    {
        self.store.resident_from(slot)
    }
}
