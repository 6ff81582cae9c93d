//! Why a `get` would fail whatever memory there is.

ghost use Rattle.std.specs.Prelude.{◌≡◌, Err, IfSome, IfNone};
ghost use Rattle.foyer_policy.specs.declared.error.Reason.TheVariants.{Handles};

use super::Store;
use crate::finder::Finder;
use foyer_policy::{Eviction, Key, Properties, Reason, Value};

impl<E: Eviction, K: Key, V: Value, P: Properties, I: Finder<K>> Store<E, K, V, P, I> {
    ghost use Rattle.foyer_core.specs.Stores.{state_of, meaning_of};
    ghost use Rattle.foyer_core.specs.Steps.{Gets};
    ghost use Rattle.foyer_core.specs.Questions.{MayGet};

    // Why the record that a key hits at `now` can't have one more handle, whatever memory there is.
    pub(crate) fn get_refusal(&self, now: u64, hash: u64, key: &K) -> Option<Reason>
        ensures some { IfSome result (λ reason. (reason ≡ Handles)
            × Gets (meaning_of self.now) now (state_of self.now) (hash, key.now) (Err Handles) (state_of self.now)) }
        ensures none { IfNone result (MayGet (meaning_of self.now) now (state_of self.now) (hash, key.now)) }
    {
        let (_slot, found) = self.live_under(now, hash, key)?;
        if found.handles() >= self.limits.handles {
            return Some(Reason::Handles);
        }
        None
    }
}
