//! The end of a shard.

use super::Shard;
use crate::finder::Finder;
use foyer_policy::{Eviction, Key, Properties, Value};

impl<E: Eviction, K: Key, V: Value, P: Properties, N: Drop, R: Drop, I: Finder<K>> Shard<
    E,
    K,
    V,
    P,
    N,
    R,
    I,
> {
    ghost use Rattle.foyer_core.specs.Shards.{state_of};
    ghost use Rattle.foyer_core.specs.Questions.{TellsResidents};

    /// Ends the shard, and calls `tell` with the key and the value of each resident record: once each, in the
    /// policy's order, or in the order of slots if there is no memory for that order.
    ///
    /// The contract says that each was told. How often, and in which order, no contract can say of a function that
    /// only looks.
    pub fn finish<F: Fn(&K, &V)>(self, tell: &F)
        requires { F.IsAlwaysCallable tell.now }
        ensures { TellsResidents F.Fn tell.now (state_of self) }
    {
        self.store.tell_residents(tell);
    }
}
