//! Evictions, capacity and configuration of a store.

ghost use Rattle.std.specs.Prelude.{◌≡◌, ℕ, Some, None, OnOk, OnErr, IfErr, IsTrue};
ghost use Rattle.foyer_policy.specs.declared.error.Reason.TheVariants.{NoMemory};

use super::Store;
use crate::entry::Leave;
use crate::finder::Finder;
use foyer_policy::{Error, Event, Eviction, Key, Properties, Reason, Result, Value};

impl<E: Eviction, K: Key, V: Value, P: Properties, I: Finder<K>> Store<E, K, V, P, I> {
    ghost use Rattle.foyer_core.specs.Stores.{state_of, meaning_of};
    ghost use Rattle.foyer_core.specs.Bulk.{GoesOn, after_capacity, after_update, EvictsUnpinned, EvictingUnpinned};
    ghost use Rattle.foyer_core.specs.CoreBulk.{EvictsToCapacity, EvictingToCapacity};
    ghost use Rattle.foyer_core.specs.State.{at_moment};

    /// Sets the capacity and tells the policy. Nothing leaves, even if the usage is above it. Takes no memory.
    pub fn set_capacity(&mut self, capacity: usize)
        ensures { state_of self.new ≡ after_capacity (meaning_of self.old) (state_of self.old) capacity }
    {
        tell_capacity(&mut self.eviction, capacity);
        self.capacity = capacity;
    }

    /// Returns whether a configuration is of the store's policy.
    pub fn takes(&self, config: &E::Config) -> bool
        ensures { result ≡ E.model.takes (state_of self.now).view config.now }
    {
        self.eviction.takes(config)
    }

    /// Gives the policy another configuration, one that it accepts. The capacity stays, and nothing leaves. Takes no
    /// memory.
    pub fn configure(&mut self, config: &E::Config)
        requires accepted { E.model.fault config.now ≡ None }
        requires taken { IsTrue (E.model.takes (state_of self.old).view config.now) }
        ensures { state_of self.new
            ≡ after_update (meaning_of self.old) (state_of self.old) (state_of self.old).capacity (Some config.now) }
    {
        tell_config(&mut self.eviction, self.capacity, config);
    }

    /// Evicts until the usage is at most the capacity, as `Shard::evict_to_capacity` does.
    pub fn evict_to_capacity(&mut self, now: u64, leaves: &mut Vec<Leave<K, V, P>>) -> Result<()>
        ensures done { OnOk result (GoesOn leaves.old.items leaves.new.items
            (λ ls. EvictsToCapacity (at_moment now (meaning_of self.old)) (state_of self.old) ls (state_of self.new))) }
        ensures refused { OnErr result (GoesOn leaves.old.items leaves.new.items
            (λ ls. EvictingToCapacity (at_moment now (meaning_of self.old)) (state_of self.old) ls (state_of self.new))) }
        ensures reason { IfErr result (λ e. e ≡ NoMemory) }
    {
        self.evict_onto(now, leaves, self.capacity)
    }

    /// Evicts all records that aren't pinned, as `Shard::evict_unpinned` does.
    pub fn evict_unpinned(&mut self, now: u64, leaves: &mut Vec<Leave<K, V, P>>) -> Result<()>
        ensures done { OnOk result (GoesOn leaves.old.items leaves.new.items
            (λ ls. EvictsUnpinned (at_moment now (meaning_of self.old)) (state_of self.old) ls (state_of self.new))) }
        ensures refused { OnErr result (GoesOn leaves.old.items leaves.new.items
            (λ ls. EvictingUnpinned (at_moment now (meaning_of self.old)) (state_of self.old) ls (state_of self.new))) }
        ensures reason { IfErr result (λ e. e ≡ NoMemory) }
    {
        loop {
            let Ok(()) = leaves.reserve(1) else {
                return Err(Error::new(Reason::NoMemory));
            };
            match self.evict_one(now) {
                Ok(Some(left)) => leaves.push_reserved((Event::Evict, left)),
                Ok(None) => return Ok(()),
                Err(_) => return Err(Error::new(Reason::NoMemory)),
            }
        }
    }
}

// Tells a policy another capacity.
fn tell_capacity<'a, E: Eviction>(eviction: &'a mut E, capacity: usize)
    ensures view { E.view eviction.new ≡ E.model.update (E.view eviction.old) capacity None }
    ensures places { (p : ℕ) → E.at eviction.new p ≡ E.at eviction.old p }
{
    let same: Option<&'a E::Config> = None;
    let Ok(()) = eviction.update(capacity, same) else {
        unreachable!();
    };
}

// Tells a policy another configuration, one that it accepts, with the capacity that it has.
fn tell_config<E: Eviction>(eviction: &mut E, capacity: usize, config: &E::Config)
    requires accepted { E.model.fault config.now ≡ None }
    requires taken { IsTrue (E.model.takes (E.view eviction.old) config.now) }
    ensures view { E.view eviction.new ≡ E.model.update (E.view eviction.old) capacity (Some config.now) }
    ensures places { (p : ℕ) → E.at eviction.new p ≡ E.at eviction.old p }
{
    let Ok(()) = eviction.update(capacity, Some(config)) else {
        unreachable!();
    };
}
