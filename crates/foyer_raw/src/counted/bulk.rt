//! Calls on all records.

ghost use Rattle.std.specs.Prelude.{◌≡◌, IfErr, IsTrue, None, OnErr, OnOk, Some, drop, false, length, vec_len};
ghost use Rattle.foyer_policy.specs.declared.error.Reason.TheVariants.{NoMemory};
ghost use Rattle.foyer_core.specs.Bulk.{Clears, EvictingUnpinned, EvictsIf, EvictsUnpinned, GoesOn, Says, after_capacity, after_update};
ghost use Rattle.foyer_core.specs.CoreBulk.{EvictingToCapacity, EvictsToCapacity};
ghost use Rattle.foyer_core.specs.State.{at_moment, usage_of};
ghost use Rattle.foyer_raw.specs.Counts.{leaves_counted};

use super::counts::count_leaves;
use super::{At, Capacity, CountedShard, FIRST};
use foyer_core::{Finder, Leave, Piece};
use foyer_policy::{Eviction, Key, Properties, Result, Value};
use std::alloc::Global;

impl<E: Eviction, K: Key, V: Value, P: Properties, R: Drop, I: Finder<K>> CountedShard<
    E,
    K,
    V,
    P,
    R,
    I,
> {
    ghost use Rattle.foyer_core.specs.Shards.{state_of, meaning_of, opens_of};

    /// Returns the total weight of the resident records, expired ones included.
    pub fn usage(&self) -> usize
        ensures { result ≡ usage_of (meaning_of self.now.shard) (state_of self.now.shard) }
    {
        self.shard.usage()
    }

    /// Returns the number of resident records, expired ones included.
    pub fn entries(&self) -> u64
        ensures { result ≡ length (E.model.order (state_of self.now.shard).view) }
    {
        self.shard.entries()
    }

    /// Removes all records, as `Clear`, and appends them.
    ///
    /// # Errors
    /// F7 if memory runs out; nothing has changed.
    pub fn clear(&mut self, leaves: &mut Vec<Leave<K, V, P>>) -> Result<()>
        ensures done { OnOk result (GoesOn leaves.old.items leaves.new.items
            (λ ls. Clears (meaning_of self.old.shard) (state_of self.old.shard) ls (state_of self.new.shard))) }
        ensures err { OnErr result ((state_of self.new.shard ≡ state_of self.old.shard) × (leaves.new.items ≡ leaves.old.items)) }
        ensures memory { IfErr result (λ e. e ≡ NoMemory) }
        ensures opens { opens_of self.new.shard ≡ opens_of self.old.shard }
        ensures counts { self.new.stats ≡ leaves_counted P.phantom_of P.expiry_of FIRST (drop (vec_len leaves.old) leaves.new.items) self.old.stats }
    {
        let told = leaves.len();
        let done = self.shard.clear_onto(leaves);
        count_leaves(&mut self.stats, FIRST, &leaves[told..]);
        done
    }

    /// Evicts all records that aren't pinned, those expired at a time first, and appends them.
    ///
    /// # Errors
    /// F7 if memory runs out; the evictions made so far stand and are in the list.
    pub fn evict_all(&mut self, now: At, leaves: &mut Vec<Leave<K, V, P>>) -> Result<()>
        ensures done { OnOk result (GoesOn leaves.old.items leaves.new.items
            (λ ls. EvictsUnpinned (at_moment now.0 (meaning_of self.old.shard)) (state_of self.old.shard) ls (state_of self.new.shard))) }
        ensures err { OnErr result (GoesOn leaves.old.items leaves.new.items
            (λ ls. EvictingUnpinned (at_moment now.0 (meaning_of self.old.shard)) (state_of self.old.shard) ls (state_of self.new.shard))) }
        ensures memory { IfErr result (λ e. e ≡ NoMemory) }
        ensures opens { opens_of self.new.shard ≡ opens_of self.old.shard }
        ensures counts { self.new.stats ≡ leaves_counted P.phantom_of P.expiry_of now.0 (drop (vec_len leaves.old) leaves.new.items) self.old.stats }
    {
        let told = leaves.len();
        let done = self.shard.evict_unpinned(now.0, leaves);
        count_leaves(&mut self.stats, now.0, &leaves[told..]);
        done
    }

    /// Sets the shard's part of a capacity. Nothing leaves, even if the usage is above it.
    pub fn set_capacity(&mut self, part: Capacity)
        ensures set { state_of self.new.shard ≡ after_capacity (meaning_of self.old.shard) (state_of self.old.shard) part.0 }
        ensures opens { opens_of self.new.shard ≡ opens_of self.old.shard }
        ensures counts { self.new.stats ≡ self.old.stats }
    {
        self.shard.set_capacity(part.0);
    }

    /// Evicts until the usage is at most the shard's capacity or nothing more leaves, records expired at a time first, and
    /// appends what leaves.
    ///
    /// # Errors
    /// F7 if memory runs out; the evictions made so far stand and are in the list.
    pub fn evict_to_capacity(&mut self, now: At, leaves: &mut Vec<Leave<K, V, P>>) -> Result<()>
        ensures done { OnOk result (GoesOn leaves.old.items leaves.new.items
            (λ ls. EvictsToCapacity (at_moment now.0 (meaning_of self.old.shard)) (state_of self.old.shard) ls (state_of self.new.shard))) }
        ensures err { OnErr result (GoesOn leaves.old.items leaves.new.items
            (λ ls. EvictingToCapacity (at_moment now.0 (meaning_of self.old.shard)) (state_of self.old.shard) ls (state_of self.new.shard))) }
        ensures memory { IfErr result (λ e. e ≡ NoMemory) }
        ensures opens { opens_of self.new.shard ≡ opens_of self.old.shard }
        ensures counts { self.new.stats ≡ leaves_counted P.phantom_of P.expiry_of now.0 (drop (vec_len leaves.old) leaves.new.items) self.old.stats }
    {
        let told = leaves.len();
        let done = self.shard.evict_to_capacity(now.0, leaves);
        count_leaves(&mut self.stats, now.0, &leaves[told..]);
        done
    }

    /// Returns whether a configuration is of the shard's policy.
    pub fn takes(&self, config: &E::Config) -> bool
        ensures { result ≡ E.model.takes (state_of self.now.shard).view config.now }
    {
        self.shard.takes(config)
    }

    /// Gives the policy another configuration, one that it accepts, if it takes it. The capacity stays, and nothing leaves.
    pub fn configure(&mut self, config: &E::Config)
        requires accepted { E.model.fault config.now ≡ None }
        ensures taken { IsTrue (E.model.takes (state_of self.old.shard).view config.now) → state_of self.new.shard
            ≡ after_update (meaning_of self.old.shard) (state_of self.old.shard) (state_of self.old.shard).capacity (Some config.now) }
        ensures other { E.model.takes (state_of self.old.shard).view config.now ≡ false → self.new.shard ≡ self.old.shard }
        ensures opens { opens_of self.new.shard ≡ opens_of self.old.shard }
        ensures counts { self.new.stats ≡ self.old.stats }
    {
        if self.shard.takes(config) {
            self.shard.configure(config);
        }
    }

    /// Evicts as `evict_all` does, once there is room for the pieces of all that leaves.
    ///
    /// # Errors
    /// F7 if memory runs out; the evictions made so far stand and are in the list.
    pub fn flush(
        &mut self,
        now: At,
        leaves: &mut Vec<Leave<K, V, P>>,
        pieces: &mut Vec<Piece<K, V, P>>,
    ) -> Result<()>
        ensures done { OnOk result (GoesOn leaves.old.items leaves.new.items
            (λ ls. EvictsUnpinned (at_moment now.0 (meaning_of self.old.shard)) (state_of self.old.shard) ls (state_of self.new.shard))) }
        ensures err { OnErr result (GoesOn leaves.old.items leaves.new.items
            (λ ls. EvictingUnpinned (at_moment now.0 (meaning_of self.old.shard)) (state_of self.old.shard) ls (state_of self.new.shard))) }
        ensures memory { IfErr result (λ e. e ≡ NoMemory) }
        ensures opens { opens_of self.new.shard ≡ opens_of self.old.shard }
        ensures pieces { pieces.new.items ≡ pieces.old.items }
        ensures counts { self.new.stats ≡ leaves_counted P.phantom_of P.expiry_of now.0 (drop (vec_len leaves.old) leaves.new.items) self.old.stats }
    {
        let room = leaves.len().saturating_add(self.entries() as usize);
        pieces.reserve(room)?;
        self.evict_all(now, leaves)
    }

    /// Evicts the records for which the predicate returns true, pinned or not, in the policy's order, once there is room for
    /// the pieces of all that leaves, and appends them.
    ///
    /// # Errors
    /// F7 if memory runs out; nothing has changed.
    pub fn flush_if<F: Fn(&K, &V) -> bool>(
        &mut self,
        alloc: Global,
        predicate: &F,
        leaves: &mut Vec<Leave<K, V, P>>,
        pieces: &mut Vec<Piece<K, V, P>>,
    ) -> Result<()>
        requires { F.IsAlwaysCallable predicate.now }
        ensures done { OnOk result (GoesOn leaves.old.items leaves.new.items
            (λ ls. EvictsIf (meaning_of self.old.shard) (Says F.Fn predicate.now) (state_of self.old.shard) ls (state_of self.new.shard))) }
        ensures err { OnErr result ((state_of self.new.shard ≡ state_of self.old.shard) × (leaves.new.items ≡ leaves.old.items)) }
        ensures memory { IfErr result (λ e. e ≡ NoMemory) }
        ensures opens { opens_of self.new.shard ≡ opens_of self.old.shard }
        ensures pieces { pieces.new.items ≡ pieces.old.items }
        ensures counts { self.new.stats ≡ leaves_counted P.phantom_of P.expiry_of FIRST (drop (vec_len leaves.old) leaves.new.items) self.old.stats }
    {
        let told = leaves.len();
        pieces.reserve(told.saturating_add(self.entries() as usize))?;
        let done = self.shard.evict_if(alloc, predicate, leaves);
        count_leaves(&mut self.stats, FIRST, &leaves[told..]);
        done
    }
}
