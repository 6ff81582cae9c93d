//! The sums over the shards of a core.

ghost use Rattle.std.specs.Prelude.{◌≡◌, ◌+◌, ◌-◌, ◌<◌, ◌≤◌, ◌^◌, length, map};
ghost use Rattle.foyer_core.specs.Core.{AreSums};
ghost use Rattle.foyer_core.specs.Shards.{state_of};
ghost use Rattle.foyer_core.specs.State.{usage_of};
ghost use Rattle.foyer_core.specs.Stored.{meaning};

use crate::finder::Finder;
use crate::shard::Shard;
use foyer_policy::{Eviction, Key, Properties, Value};

/// The usage and the number of entries of one shard, or of several together.
#[derive(Clone, Copy)]
pub(super) struct Load {
    // The sum of the weights of the resident records.
    pub(super) usage: u128,
    // The number of resident records.
    pub(super) entries: u128,
}

impl Load {
    // The load of a shard.
    #[inline(always)]
    pub(super) fn of<E: Eviction, K: Key, V: Value, P: Properties, N: Drop, R: Drop, I: Finder<K>>(
        shard: &Shard<E, K, V, P, N, R, I>,
    ) -> Self
        ensures usage { result.usage ≡ usage_of (meaning K.eq E.model P.hint_of P.phantom_of P.expiry_of) (state_of shard.now) }
        ensures entries { result.entries ≡ length (E.model.order (state_of shard.now).view) }
        ensures small { (result.usage < 2 ^ 64) × (result.entries < 2 ^ 64) }
    {
        Load {
            usage: shard.usage() as u128,
            entries: shard.entries() as u128,
        }
    }

    // The load of these shards together.
    pub(super) fn of_all<
        E: Eviction,
        K: Key,
        V: Value,
        P: Properties,
        N: Drop,
        R: Drop,
        I: Finder<K>,
    >(shards: &[Shard<E, K, V, P, N, R, I>]) -> Self
        ensures { AreSums (meaning K.eq E.model P.hint_of P.phantom_of P.expiry_of) result.usage result.entries (map state_of shards.now) }
    {
        let mut sum = Load {
            usage: 0,
            entries: 0,
        };
        for shard in shards {
            let load = Load::of(shard);
            sum.usage += load.usage;
            sum.entries += load.entries;
        }
        sum
    }

    // Replaces a part of the load by another.
    #[inline(always)]
    pub(super) fn replace(&mut self, before: Load, after: Load)
        requires usage { (before.usage ≤ self.old.usage) × (self.old.usage - before.usage + after.usage < 2 ^ 128) }
        requires entries { (before.entries ≤ self.old.entries) × (self.old.entries - before.entries + after.entries < 2 ^ 128) }
        ensures usage { self.new.usage ≡ self.old.usage - before.usage + after.usage }
        ensures entries { self.new.entries ≡ self.old.entries - before.entries + after.entries }
    {
        self.usage = self.usage - before.usage + after.usage;
        self.entries = self.entries - before.entries + after.entries;
    }
}
