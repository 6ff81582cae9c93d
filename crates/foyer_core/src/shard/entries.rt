//! Calls on a shard's entries, and `get`.

ghost use Rattle.std.specs.Prelude.{◌≡◌, ◌≢◌, ◌<◌, ◌↔◌, ◌⊎◌, OnErr, IfOk, IfErr, IfSome, IsTrue, true};
ghost use Rattle.foyer_core.specs.Looks.{IfHit, look_whole};

use super::Shard;
use crate::entry::{CoreEntry, Leave};
use crate::finder::Finder;
use crate::outcome::{Foreign, Got};
use foyer_policy::{Eviction, Key, Properties, Result, Value};

impl<E: Eviction, K: Key, V: Value, P: Properties, N: Drop, R: Drop, I: Finder<K>> Shard<
    E,
    K,
    V,
    P,
    N,
    R,
    I,
> {
    ghost use Rattle.foyer_core.specs.Shards.{state_of, meaning_of, opens_of};
    ghost use Rattle.foyer_core.specs.State.{handles_in};
    ghost use Rattle.foyer_core.specs.Steps.{ClonesHandle, Gets, GivesBack, IsOutdated};

    /// Returns an entry of the key's record, unless that is expired at `now`. This counts as a use.
    ///
    /// Allocates nothing.
    ///
    /// # Errors
    /// F9 if the handle count would pass its limit, F7 if a reference count is full; nothing has changed.
    #[inline(always)]
    pub fn get(&mut self, now: u64, hash: u64, key: &K) -> Result<Option<CoreEntry<K, V, P>>>
        ensures gets { Gets (meaning_of self.old) now (state_of self.old) (hash, key.now) result (state_of self.new) }
        ensures asked { IfOk result (λ found. IfSome found (λ entry. K.eq key.now entry.kept.key ≡ true)) }
        ensures opens { opens_of self.new ≡ opens_of self.old }
    {
        self.look_up(now, hash, key, true).into_result()
    }

    /// Looks a key up as `get` does. Unless `told`, the entry has no share for `left`, which saves counting one.
    #[inline(always)]
    pub fn look_up(&mut self, now: u64, hash: u64, key: &K, told: bool) -> Got<K, V, P>
        ensures gets { Gets (meaning_of self.old) now (state_of self.old) (hash, key.now) (look_whole result) (state_of self.new) }
        ensures asked { IfHit result (λ entry. K.eq key.now entry.kept.key ≡ true) }
        ensures told { IfHit result (λ entry. entry.left ≡ told) }
        ensures opens { opens_of self.new ≡ opens_of self.old }
    {
        self.store.look_up(now, hash, key, told)
    }

    /// Takes an entry's handle back and returns what left with it. Then the entry must be discarded.
    ///
    /// With its last handle a resident record is released, a phantom one leaves, and any other is forgotten. If the entry
    /// has another core's number, or its id has no handle here, it is `Foreign`, and nothing has changed. Takes no memory.
    #[inline(always)]
    pub fn take_back(
        &mut self,
        entry: &CoreEntry<K, V, P>,
    ) -> std::result::Result<Option<Leave<K, V, P>>, Foreign>
        ensures taken { IfOk result (λ leave. (entry.now.number ≡ (state_of self.old).number)
            × GivesBack (meaning_of self.old) (state_of self.old) entry.now.id leave (state_of self.new)) }
        ensures foreign { OnErr result ((entry.now.number ≢ (state_of self.old).number) ⊎ (handles_in (state_of self.old) entry.now.id ≡ 0)) }
        ensures err { OnErr result (state_of self.new ≡ state_of self.old) }
        ensures opens { opens_of self.new ≡ opens_of self.old }
    {
        self.store.take_back(entry)
    }

    /// Gives an entry back and returns what left with it, as `take_back` does. A foreign entry comes back as `Err`.
    #[inline(always)]
    pub fn give_back(
        &mut self,
        entry: CoreEntry<K, V, P>,
    ) -> std::result::Result<Option<Leave<K, V, P>>, CoreEntry<K, V, P>>
        ensures taken { IfOk result (λ leave. (entry.number ≡ (state_of self.old).number)
            × GivesBack (meaning_of self.old) (state_of self.old) entry.id leave (state_of self.new)) }
        ensures returned { IfErr result (λ e. e ≡ entry) }
        ensures foreign { OnErr result ((entry.number ≢ (state_of self.old).number) ⊎ (handles_in (state_of self.old) entry.id ≡ 0)) }
        ensures err { OnErr result (state_of self.new ≡ state_of self.old) }
        ensures opens { opens_of self.new ≡ opens_of self.old }
    {
        match self.take_back(&entry) {
            Ok(leave) => {
                entry.discard();
                Ok(leave)
            }
            Err(_) => Err(entry),
        }
    }

    /// Returns one more entry of the same record, with the same source. It counts as a handle and not as a use.
    ///
    /// The shard must own the entry. Allocates nothing.
    ///
    /// # Errors
    /// F9 if the handle count would pass its limit, F7 if a reference count is full; nothing has changed.
    pub fn clone_handle(&mut self, entry: &CoreEntry<K, V, P>) -> Result<CoreEntry<K, V, P>>
        requires owned { (entry.now.number ≡ (state_of self.old).number) × (0 < handles_in (state_of self.old) entry.now.id) }
        ensures clones { ClonesHandle (state_of self.old) entry.now result (state_of self.new) }
        ensures kept { IfOk result (λ clone. clone.kept ≡ entry.now.kept) }
        ensures opens { opens_of self.new ≡ opens_of self.old }
    {
        self.store.clone_handle(entry)
    }

    /// Returns how many handles the entry's record has. The shard must own the entry. Takes no memory.
    pub fn refs(&self, entry: &CoreEntry<K, V, P>) -> usize
        requires owned { (entry.now.number ≡ (state_of self.now).number) × (0 < handles_in (state_of self.now) entry.now.id) }
        ensures { result ≡ handles_in (state_of self.now) entry.now.id }
    {
        self.store.refs(entry)
    }

    /// Returns whether the entry's record is no longer resident. The shard must own the entry. Takes no memory.
    pub fn is_outdated(&self, entry: &CoreEntry<K, V, P>) -> bool
        requires owned { (entry.now.number ≡ (state_of self.now).number) × (0 < handles_in (state_of self.now) entry.now.id) }
        ensures { IsTrue result ↔ IsOutdated (state_of self.now) entry.now.id }
    {
        self.store.is_outdated(entry)
    }
}
