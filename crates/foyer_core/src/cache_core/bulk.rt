//! What a core does with all of its records.

ghost use Rattle.std.specs.Prelude.{◌≡◌, ◌↔◌, [], None, Err, IfSome, IsOk, OnOk, MatchResult};
ghost use Rattle.foyer_policy.specs.declared.error.Reason.TheVariants.{NoMemory, WrongPolicy};

use super::CacheCore;
use super::in_turn::{
    clear_each, configure_each, evict_each, evict_each_if, evict_each_to_capacity, share_out,
    taken_by_each,
};
use super::load::Load;
use crate::entry::Leave;
use crate::filter::Filter;
use crate::finder::Finder;
use crate::outcome::Refused;
use crate::weighter::Weighter;
use foyer_policy::{Error, Eviction, HashBuilder, Key, Properties, Reason, Result, Value};

impl<
    E: Eviction,
    K: Key,
    V: Value,
    P: Properties,
    S: HashBuilder,
    W: Weighter<K, V>,
    A: Filter<K, V>,
    N: Drop,
    R: Drop,
    I: Finder<K>,
> CacheCore<E, K, V, P, S, W, A, N, R, I> {
    ghost use Rattle.foyer_core.specs.Bulk.{Clears, EvictsIf, EvictsUnpinned, EvictingUnpinned, Says};
    ghost use Rattle.foyer_core.specs.CoreBulk.{InTurn, InTurnUntil, OfShards, EvictsToCapacity, EvictingToCapacity, Resizes, Configures, NotTaken, TakenByEach, NothingPinned, IsEmptied, FitsOrPinned};
    ghost use Rattle.foyer_core.specs.Cores.{core_of, fetches_of, hashes_of, meaning_of_core};
    ghost use Rattle.foyer_core.specs.CallLaws.{CallLaws};
    ghost use Rattle.foyer_core.specs.State.{at_moment};

    /// Evicts all records that aren't pinned, shard by shard: those expired at `now` first, then in the policy's
    /// order. Returns what left.
    ///
    /// If nothing is pinned, the core is empty afterwards.
    ///
    /// # Errors
    /// F7 if memory runs out; the evictions made so far stand and are returned.
    pub fn evict_all(
        &mut self,
        now: u64,
    ) -> std::result::Result<Vec<Leave<K, V, P>>, Refused<K, V, P>>
        ensures evicts { MatchResult result
            (λ leaves. OfShards (InTurn (EvictsUnpinned (at_moment now (meaning_of_core self.old)))) (core_of self.old) leaves.items (core_of self.new))
            (λ refused. (refused.error ≡ NoMemory) × OfShards
            (InTurnUntil (EvictsUnpinned (at_moment now (meaning_of_core self.old))) (EvictingUnpinned (at_moment now (meaning_of_core self.old))))
            (core_of self.old) refused.leaves.items (core_of self.new)) }
        ensures emptied { OnOk result (NothingPinned (meaning_of_core self.old) (core_of self.old) → IsEmptied (meaning_of_core self.new) (core_of self.new)) }
        ensures fetches { fetches_of self.new ≡ fetches_of self.old }
        ensures laws { MatchResult result
            (λ leaves. CallLaws K.eq (hashes_of self.old) (λ _. 0) (core_of self.old) leaves.items (core_of self.new))
            (λ refused. CallLaws K.eq (hashes_of self.old) (λ _. 0) (core_of self.old) refused.leaves.items (core_of self.new)) }
    {
        let mut leaves = Vec::new(self.alloc);
        let done = evict_each(&mut self.shards, now, &mut leaves);
        self.load = Load::of_all(&self.shards);
        match done {
            Ok(()) => Ok(leaves),
            Err(error) => Err(Refused { error, leaves }),
        }
    }

    /// Sets the capacity, divides it among the shards as `new` does, and evicts what no longer fits, shard by shard,
    /// records expired at `now` first. Returns what left.
    ///
    /// # Errors
    /// F7 if memory runs out; the capacity is set all the same, and the evictions made so far stand and are returned.
    pub fn resize(
        &mut self,
        now: u64,
        capacity: usize,
    ) -> std::result::Result<Vec<Leave<K, V, P>>, Refused<K, V, P>>
        ensures resizes { MatchResult result
            (λ leaves. Resizes (meaning_of_core self.old) (InTurn (EvictsToCapacity (at_moment now (meaning_of_core self.old))))
            capacity (core_of self.old) leaves.items (core_of self.new))
            (λ refused. (refused.error ≡ NoMemory) × Resizes (meaning_of_core self.old)
            (InTurnUntil (EvictsToCapacity (at_moment now (meaning_of_core self.old))) (EvictingToCapacity (at_moment now (meaning_of_core self.old))))
            capacity (core_of self.old) refused.leaves.items (core_of self.new)) }
        ensures fits { OnOk result (FitsOrPinned (meaning_of_core self.new) (core_of self.new)) }
        ensures fetches { fetches_of self.new ≡ fetches_of self.old }
        ensures laws { MatchResult result
            (λ leaves. CallLaws K.eq (hashes_of self.old) (λ _. 0) (core_of self.old) leaves.items (core_of self.new))
            (λ refused. CallLaws K.eq (hashes_of self.old) (λ _. 0) (core_of self.old) refused.leaves.items (core_of self.new)) }
    {
        self.capacity = capacity;
        share_out(&mut self.shards, capacity);
        let mut evicted = Vec::new(self.alloc);
        let done = evict_each_to_capacity(&mut self.shards, now, &mut evicted);
        self.load = Load::of_all(&self.shards);
        match done {
            Ok(()) => Ok(evicted),
            Err(error) => Err(Refused {
                error,
                leaves: evicted,
            }),
        }
    }

    /// Gives each shard's policy another configuration, which later calls of `resize` use too. No record leaves.
    ///
    /// Takes no memory.
    ///
    /// # Errors
    /// F17 if a shard's policy is another one, F2 to F6 for the configuration's first fault; nothing has changed.
    pub fn reconfigure(&mut self, config: &E::Config) -> Result<()>
        ensures configured { MatchResult result
            (λ _. Configures (meaning_of_core self.old) config.now (core_of self.old) (core_of self.new))
            (λ _. core_of self.new ≡ core_of self.old) }
        ensures wrong { NotTaken (meaning_of_core self.old) config.now (core_of self.old).shards → result ≡ Err WrongPolicy }
        ensures accepted { TakenByEach (meaning_of_core self.old) config.now (core_of self.old).shards
            → IsOk result ↔ (E.model.fault config.now ≡ None) }
        ensures refused { TakenByEach (meaning_of_core self.old) config.now (core_of self.old).shards
            → IfSome (E.model.fault config.now) (λ reason. result ≡ Err reason) }
        ensures fetches { fetches_of self.new ≡ fetches_of self.old }
        ensures laws { CallLaws K.eq (hashes_of self.old) (λ _. 0) (core_of self.old) [] (core_of self.new) }
    {
        if !taken_by_each(&self.shards, config) {
            return Err(Error::new(Reason::WrongPolicy));
        }
        E::check(config)?;
        configure_each(&mut self.shards, config);
        Ok(())
    }

    /// Removes all records as `Clear`, shard by shard, in the policy's order, and returns them.
    ///
    /// # Errors
    /// F7 if memory runs out; nothing has changed.
    pub fn clear(&mut self) -> Result<Vec<Leave<K, V, P>>>
        ensures clears { MatchResult result
            (λ leaves. OfShards (InTurn (Clears (meaning_of_core self.old))) (core_of self.old) leaves.items (core_of self.new))
            (λ error. (error ≡ NoMemory) × (core_of self.new ≡ core_of self.old)) }
        ensures emptied { OnOk result (IsEmptied (meaning_of_core self.new) (core_of self.new)) }
        ensures fetches { fetches_of self.new ≡ fetches_of self.old }
        ensures laws { MatchResult result
            (λ leaves. CallLaws K.eq (hashes_of self.old) (λ _. 0) (core_of self.old) leaves.items (core_of self.new))
            (λ _. CallLaws K.eq (hashes_of self.old) (λ _. 0) (core_of self.old) [] (core_of self.new)) }
    {
        let cleared = clear_each(&mut self.shards, self.alloc);
        self.load = Load::of_all(&self.shards);
        cleared
    }

    /// Evicts the records for which the predicate returns true, pinned or not, shard by shard, in the policy's order,
    /// and returns them. The predicate is called once for each record.
    ///
    /// # Errors
    /// F7 if memory runs out; nothing has changed.
    pub fn flush_if<F: Fn(&K, &V) -> bool>(&mut self, predicate: &F) -> Result<Vec<Leave<K, V, P>>>
        requires { F.IsAlwaysCallable predicate.now }
        ensures evicts { MatchResult result
            (λ leaves. OfShards (InTurn (EvictsIf (meaning_of_core self.old) (Says F.Fn predicate.now))) (core_of self.old) leaves.items (core_of self.new))
            (λ error. (error ≡ NoMemory) × (core_of self.new ≡ core_of self.old)) }
        ensures fetches { fetches_of self.new ≡ fetches_of self.old }
        ensures laws { MatchResult result
            (λ leaves. CallLaws K.eq (hashes_of self.old) (λ _. 0) (core_of self.old) leaves.items (core_of self.new))
            (λ _. CallLaws K.eq (hashes_of self.old) (λ _. 0) (core_of self.old) [] (core_of self.new)) }
    {
        let flushed = evict_each_if(&mut self.shards, self.alloc, predicate);
        self.load = Load::of_all(&self.shards);
        flushed
    }
}
