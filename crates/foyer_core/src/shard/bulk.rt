//! What a shard does with all of its records.

ghost use Rattle.std.specs.Prelude.{◌≡◌, Some, None, OnOk, OnErr, IfOk, IfErr, IsTrue};
ghost use Rattle.foyer_policy.specs.declared.error.Reason.TheVariants.{NoMemory};

use super::Shard;
use crate::entry::Leave;
use crate::finder::Finder;
use foyer_policy::{Eviction, Key, Properties, Result, Value};

impl<E: Eviction, K: Key, V: Value, P: Properties, N: Drop, R: Drop, I: Finder<K>> Shard<
    E,
    K,
    V,
    P,
    N,
    R,
    I,
> {
    ghost use Rattle.foyer_core.specs.Shards.{state_of, meaning_of, opens_of};
    ghost use Rattle.foyer_core.specs.Bulk.{GoesOn, after_capacity, after_update, EvictsUnpinned, EvictingUnpinned};
    ghost use Rattle.foyer_core.specs.CoreBulk.{EvictsToCapacity, EvictingToCapacity};
    ghost use Rattle.foyer_core.specs.State.{at_moment};
    ghost use Rattle.foyer_core.specs.Steps.{Evicts, Evicting};

    /// Sets the capacity and tells the policy. Nothing leaves, even if the usage is above it. Takes no memory.
    pub fn set_capacity(&mut self, capacity: usize)
        ensures set { state_of self.new ≡ after_capacity (meaning_of self.old) (state_of self.old) capacity }
        ensures opens { opens_of self.new ≡ opens_of self.old }
    {
        self.store.set_capacity(capacity)
    }

    /// Returns whether a configuration is of the shard's policy.
    pub fn takes(&self, config: &E::Config) -> bool
        ensures { result ≡ E.model.takes (state_of self.now).view config.now }
    {
        self.store.takes(config)
    }

    /// Gives the policy another configuration, one that it accepts. The capacity stays, and nothing leaves. Takes no
    /// memory.
    pub fn configure(&mut self, config: &E::Config)
        requires accepted { E.model.fault config.now ≡ None }
        requires taken { IsTrue (E.model.takes (state_of self.old).view config.now) }
        ensures configured { state_of self.new
            ≡ after_update (meaning_of self.old) (state_of self.old) (state_of self.old).capacity (Some config.now) }
        ensures opens { opens_of self.new ≡ opens_of self.old }
    {
        self.store.configure(config)
    }

    /// Evicts until the usage is at most the capacity or nothing more leaves, records expired at `now` first, and
    /// appends what leaves.
    ///
    /// # Errors
    /// F7 if memory runs out; the evictions made so far stand and are in the list.
    pub fn evict_to_capacity(&mut self, now: u64, leaves: &mut Vec<Leave<K, V, P>>) -> Result<()>
        ensures done { OnOk result (GoesOn leaves.old.items leaves.new.items
            (λ ls. EvictsToCapacity (at_moment now (meaning_of self.old)) (state_of self.old) ls (state_of self.new))) }
        ensures refused { OnErr result (GoesOn leaves.old.items leaves.new.items
            (λ ls. EvictingToCapacity (at_moment now (meaning_of self.old)) (state_of self.old) ls (state_of self.new))) }
        ensures reason { IfErr result (λ e. e ≡ NoMemory) }
        ensures opens { opens_of self.new ≡ opens_of self.old }
    {
        self.store.evict_to_capacity(now, leaves)
    }

    /// Evicts all records that aren't pinned, those expired at `now` first, then in the policy's order, and appends
    /// them.
    ///
    /// # Errors
    /// F7 if memory runs out; the evictions made so far stand and are in the list.
    pub fn evict_unpinned(&mut self, now: u64, leaves: &mut Vec<Leave<K, V, P>>) -> Result<()>
        ensures done { OnOk result (GoesOn leaves.old.items leaves.new.items
            (λ ls. EvictsUnpinned (at_moment now (meaning_of self.old)) (state_of self.old) ls (state_of self.new))) }
        ensures refused { OnErr result (GoesOn leaves.old.items leaves.new.items
            (λ ls. EvictingUnpinned (at_moment now (meaning_of self.old)) (state_of self.old) ls (state_of self.new))) }
        ensures reason { IfErr result (λ e. e ≡ NoMemory) }
        ensures opens { opens_of self.new ≡ opens_of self.old }
    {
        self.store.evict_unpinned(now, leaves)
    }

    /// Evicts until the usage is at most the target or nothing more leaves, records expired at `now` first, and
    /// appends what leaves.
    ///
    /// # Errors
    /// F7 if memory runs out; the evictions made so far stand and are in the list.
    pub fn evict_onto(
        &mut self,
        now: u64,
        leaves: &mut Vec<Leave<K, V, P>>,
        target: usize,
    ) -> Result<()>
        ensures done { OnOk result (GoesOn leaves.old.items leaves.new.items
            (λ ls. Evicts (at_moment now (meaning_of self.old)) target (state_of self.old) ls (state_of self.new))) }
        ensures refused { OnErr result (GoesOn leaves.old.items leaves.new.items
            (λ ls. Evicting (at_moment now (meaning_of self.old)) target (state_of self.old) ls (state_of self.new))) }
        ensures reason { IfErr result (λ e. e ≡ NoMemory) }
        ensures opens { opens_of self.new ≡ opens_of self.old }
    {
        self.store.evict_onto(now, leaves, target)
    }
}
