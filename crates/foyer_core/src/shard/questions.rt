//! Why a call would fail whatever memory there is. These calls change nothing and take no memory.

ghost use Rattle.std.specs.Prelude.{◌≡◌, ◌≢◌, ◌+◌, [], Err, IfSome, IfNone};
ghost use Rattle.foyer_policy.specs.Properties.{is_phantom};
ghost use Rattle.foyer_policy.specs.declared.error.Reason.TheVariants.{Handles, NoMemory};

use super::Shard;
use crate::finder::Finder;
use foyer_policy::{Eviction, Key, Properties, Reason, Value};

impl<E: Eviction, K: Key, V: Value, P: Properties, N: Drop, R: Drop, I: Finder<K>> Shard<
    E,
    K,
    V,
    P,
    N,
    R,
    I,
> {
    ghost use Rattle.foyer_core.specs.Shards.{state_of, meaning_of, opens_of};
    ghost use Rattle.foyer_core.specs.Questions.{MayGet};
    ghost use Rattle.foyer_core.specs.Steps.{Gets, MayBy, RefusesInsert, newcomer};
    ghost use Rattle.foyer_core.specs.Waited.{waiting_for};

    /// Returns why a `get` of a key at `now` would fail whatever memory there is: F9, or `None`, also if it would
    /// miss.
    pub fn refuses_get(&self, now: u64, hash: u64, key: &K) -> Option<Reason>
        ensures some { IfSome result (λ reason. (reason ≡ Handles)
            × Gets (meaning_of self.now) now (state_of self.now) (hash, key.now) (Err Handles) (state_of self.now)) }
        ensures none { IfNone result (MayGet (meaning_of self.now) now (state_of self.now) (hash, key.now)) }
    {
        self.store.get_refusal(now, hash, key)
    }

    /// Returns why an `emplace` of a record with this key, these properties and this weight would fail, whatever its
    /// value and whatever memory there is: F10, F9 or F8, with a handle for each waiter, or `None`.
    pub fn refuses_insert(
        &self,
        hash: u64,
        key: &K,
        properties: &P,
        weight: usize,
    ) -> Option<Reason>
        ensures some { IfSome result (λ reason. (value : V) → RefusesInsert (meaning_of self.now) (state_of self.now)
            (newcomer (state_of self.now) (record {
              key = key.now;
              value = value;
              properties = properties.now;
              hash =
                  hash;
              weight = weight;
            }) (1 + waiting_for (opens_of self.now) (hash, key.now))) reason []
            (state_of self.now)) }
        ensures none { IfNone result ((value : V) → MayBy (meaning_of self.now) (is_phantom (P.phantom_of properties.now)) (state_of self.now)
            (newcomer (state_of self.now) (record {
              key = key.now;
              value = value;
              properties = properties.now;
              hash =
                  hash;
              weight = weight;
            }) (1 + waiting_for (opens_of self.now) (hash, key.now)))) }
        ensures memory { IfSome result (λ reason. reason ≢ NoMemory) }
    {
        let further = self.further(hash, key);
        self.store
            .new_refusal(hash, key, properties, weight, further.count)
    }
}
