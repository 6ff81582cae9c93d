//! One shard of a cache: its records and its open fetches.

ghost use Rattle.std.specs.Prelude.{◌≡◌, ◌↔◌, ℕ, ◌<◌, None, OnOk, IfOk, IfErr, IfSome, IsTrue, is_some, length, Err};
ghost use Rattle.foyer_policy.specs.declared.error.Reason.TheVariants.{NoMemory};
ghost use Rattle.foyer_core.specs.Fetching.{Apart};
ghost use Rattle.foyer_core.specs.Inflight.{no_opens};
ghost use Rattle.foyer_core.specs.Inflights.{opens_of as manager_opens};
ghost use Rattle.foyer_core.specs.Stores.{state_of as store_state};

use crate::entry::CoreEntry;
use crate::finder::Finder;
use crate::inflight::InflightManager;
use crate::record::Limits;
use crate::store::Store;
use foyer_policy::{Eviction, Key, Properties, Result, Value};
use std::alloc::Global;

mod bulk;
mod clearing;
mod conditional;
mod ending;
mod entries;
mod fetches;
mod holds;
mod insertion;
mod keys;
mod puts;
mod questions;
mod resident_pieces;

/// One shard of a cache. `N` is the type of waiters, `R` of fetch builders.
///
/// Contracts see its `State`, maps from hashed keys to ids and from ids to records, and its `Opens`, the open fetches
/// by their keys.
#[derive(Drop)]
pub struct Shard<E: Eviction, K: Key, V: Value, P: Properties, N: Drop, R: Drop, I: Finder<K>> {
    store: Store<E, K, V, P, I>,
    inflights: InflightManager<K, N, R>,
    // a key that is in the index and has an open fetch was expired when that was opened
    ghost apart: { Apart P.expiry_of (store_state store) (manager_opens inflights) },
}

impl<E: Eviction, K: Key, V: Value, P: Properties, N: Drop, R: Drop, I: Finder<K>> Shard<
    E,
    K,
    V,
    P,
    N,
    R,
    I,
> {
    ghost use Rattle.foyer_core.specs.Shards.{state_of, meaning_of, opens_of};
    ghost use Rattle.foyer_core.specs.State.{hit, handles_in, usage_of};

    /// Creates an empty shard over an empty index, with no open fetch. `number` is its core's.
    ///
    /// # Errors
    /// The first fault of the policy's configuration (F2 to F6), then F7 if memory runs out.
    pub fn new(
        alloc: Global,
        number: u64,
        capacity: usize,
        limits: Limits,
        config: &E::Config,
        index: I,
    ) -> Result<Self>
        requires { (k : ℕ × K) → I.view index k ≡ None }
        ensures number { IfOk result (λ s. (state_of s).number ≡ number) }
        ensures capacity { IfOk result (λ s. (state_of s).capacity ≡ capacity) }
        ensures limits { IfOk result (λ s. (state_of s).limits ≡ limits) }
        ensures view { IfOk result (λ s. (state_of s).view ≡ E.model.opening capacity config.now) }
        ensures index { IfOk result (λ s. (k : ℕ × K) → (state_of s).index k ≡ None) }
        ensures records { IfOk result (λ s. (id : ℕ) → (state_of s).records id ≡ None) }
        ensures next { IfOk result (λ s. (state_of s).next ≡ 0) }
        ensures opens { IfOk result (λ s. opens_of s ≡ no_opens) }
        ensures accepted { OnOk result (E.model.fault config.now ≡ None) }
        ensures refused { IfSome (E.model.fault config.now) (λ reason. result ≡ Err reason) }
        ensures memory { IfErr result (λ e. E.model.fault config.now ≡ None → e ≡ NoMemory) }
    {
        match Store::new(alloc, number, capacity, limits, config, index) {
            Ok(store) => Ok(Shard {
                store,
                inflights: InflightManager::new(alloc),
            }),
            Err(error) => Err(error),
        }
    }

    /// Returns the sum of the weights of the resident records, expired ones included.
    #[inline(always)]
    pub fn usage(&self) -> usize
        ensures { result ≡ usage_of (meaning_of self.now) (state_of self.now) }
    {
        self.store.usage()
    }

    /// Returns the number of resident records, expired ones included.
    #[inline(always)]
    pub fn entries(&self) -> u64
        ensures { result ≡ length (E.model.order (state_of self.now).view) }
    {
        self.store.entries()
    }

    /// Returns whether a `get` at `now` finds the key. It counts no use, and takes no memory.
    pub fn contains(&self, now: u64, hash: u64, key: &K) -> bool
        ensures { result ≡ is_some (hit (meaning_of self.now) now (state_of self.now) (hash, key.now)) }
    {
        self.store.contains(now, hash, key)
    }

    /// Returns whether the entry has the number of the shard's core and its record has a handle here. Takes no
    /// memory.
    pub fn owns(&self, entry: &CoreEntry<K, V, P>) -> bool
        ensures { IsTrue result ↔ ((entry.now.number ≡ (state_of self.now).number) × (0 < handles_in (state_of self.now) entry.now.id)) }
    {
        entry.number() == self.store.number() && self.store.handles(entry.id(), entry.slot()) > 0
    }
}
