//! The policy, the index and the records of a shard.

ghost use Rattle.std.specs.Prelude.{◌≡◌, ℕ, ◌≤◌, None, Some, OnOk, IfOk, IfErr, IfSome, is_some, length, option_map, Err};
ghost use Rattle.foyer_policy.specs.declared.error.Reason.TheVariants.{NoMemory};
ghost use Rattle.foyer_policy.specs.Items.{weight_of};
ghost use Rattle.foyer_core.specs.Records.{slot_in};
ghost use Rattle.foyer_core.specs.State.{IsKept};
ghost use Rattle.foyer_core.specs.Stored.{meaning, state, IsStored};

use crate::finder::Finder;
use crate::properties::is_expired;
use crate::record::Limits;
use crate::records::Records;
use crate::slot::Slot;
use foyer_policy::{Eviction, Key, Properties, Result, Value};
use std::alloc::Global;

mod admission;
mod ahead;
mod bulk;
mod clearing;
mod conditional;
mod ending;
mod entries;
mod evictions;
mod handles;
mod holds;
mod insertion;
mod keys;
mod lending;
mod phantoms;
mod picking;
mod pieces;
mod questions;
mod refusals;
mod resident_pieces;

/// The policy, the index and the records of a shard. Contracts see its `State`: maps from hashed keys to ids and from
/// ids to records.
#[derive(Drop)]
pub struct Store<E: Eviction, K: Key, V: Value, P: Properties, I: Finder<K>> {
    eviction: E,
    index: I,
    records: Records<K, V, P>,
    usage: usize,
    entries: u64,
    capacity: usize,
    number: u64,
    next: u64,
    limits: Limits,
    ghost sound: { ∥ IsKept (meaning K.eq E.model P.hint_of P.phantom_of P.expiry_of) (state number capacity limits (E.view eviction) (I.view index) records next) ∥₁ },
    ghost stored: { IsStored (meaning K.eq E.model P.hint_of P.phantom_of P.expiry_of) (E.at eviction) (I.view index) records },
    ghost weighed: { usage ≡ weight_of (E.model.order (E.view eviction)) },
    ghost counted: { entries ≡ length (E.model.order (E.view eviction)) },
    ghost numbered: { entries ≤ next },
}

impl<E: Eviction, K: Key, V: Value, P: Properties, I: Finder<K>> Store<E, K, V, P, I> {
    ghost use Rattle.foyer_core.specs.Stores.{state_of, meaning_of};
    ghost use Rattle.foyer_core.specs.State.{hit, usage_of};

    /// Creates an empty store over an empty index. `number` is its core's.
    ///
    /// # Errors
    /// The first fault of the policy's configuration (F2 to F6), then F7 if memory runs out.
    pub fn new(
        alloc: Global,
        number: u64,
        capacity: usize,
        limits: Limits,
        config: &E::Config,
        index: I,
    ) -> Result<Self>
        requires { (k : ℕ × K) → I.view index k ≡ None }
        ensures number { IfOk result (λ s. (state_of s).number ≡ number) }
        ensures capacity { IfOk result (λ s. (state_of s).capacity ≡ capacity) }
        ensures limits { IfOk result (λ s. (state_of s).limits ≡ limits) }
        ensures view { IfOk result (λ s. (state_of s).view ≡ E.model.opening capacity config.now) }
        ensures index { IfOk result (λ s. (k : ℕ × K) → (state_of s).index k ≡ None) }
        ensures records { IfOk result (λ s. (id : ℕ) → (state_of s).records id ≡ None) }
        ensures next { IfOk result (λ s. (state_of s).next ≡ 0) }
        ensures accepted { OnOk result (E.model.fault config.now ≡ None) }
        ensures refused { IfSome (E.model.fault config.now) (λ reason. result ≡ Err reason) }
        ensures memory { IfErr result (λ e. E.model.fault config.now ≡ None → e ≡ NoMemory) }
    {
        let eviction = E::new(alloc, capacity, config)?;
        Ok(Store {
            eviction,
            index,
            records: Records::new(alloc),
            usage: 0,
            entries: 0,
            capacity,
            number,
            next: 0,
            limits,
        })
    }

    /// Returns the sum of the weights of the resident records.
    #[inline(always)]
    pub fn usage(&self) -> usize
        ensures { result ≡ usage_of (meaning_of self.now) (state_of self.now) }
    {
        self.usage
    }

    /// Returns the number of resident records.
    #[inline(always)]
    pub fn entries(&self) -> u64
        ensures { result ≡ length (E.model.order (state_of self.now).view) }
    {
        self.entries
    }

    /// Returns whether a `get` at `now` finds the key. Takes no memory.
    pub fn contains(&self, now: u64, hash: u64, key: &K) -> bool
        ensures { result ≡ is_some (hit (meaning_of self.now) now (state_of self.now) (hash, key.now)) }
    {
        self.live_under(now, hash, key).is_some()
    }

    // The record that a key hits at `now`, and its slot, which is read once.
    #[inline(always)]
    fn live_under(&self, now: u64, hash: u64, key: &K) -> Option<(usize, &Slot<K, V, P>)>
        ensures led { IfSome result (λ live. I.view self.now.index (hash, key.now) ≡ Some live.0) }
        ensures there { IfSome result (λ live. slot_in self.now.records live.0 ≡ Some live.1.now) }
        ensures hits { hit (meaning_of self.now) now (state_of self.now) (hash, key.now) ≡ option_map (λ live. live.1.now.id) result }
    {
        let slot = self.slot_under(hash, key)?;
        let Some(found) = self.records.get(slot) else {
            unreachable!();
        };
        if is_expired(found.properties().expiry(), now) {
            return None;
        }
        Some((slot, found))
    }

    // The slot to which a key leads.
    #[inline(always)]
    fn slot_under(&self, hash: u64, key: &K) -> Option<usize>
        ensures { result ≡ I.view self.now.index (hash, key.now) }
    {
        self.index
            .find(hash, key, |slot| self.records.has_key(slot, hash, key))
    }

    // What the shard's numbers are below.
    pub(crate) fn ids(&self) -> u64
        ensures { result ≡ (state_of self.now).limits.ids }
    {
        self.limits.ids
    }
}
