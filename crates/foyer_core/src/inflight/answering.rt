//! What waiters get when an insert brings their key's record.

ghost use Rattle.std.specs.Prelude.{◌≡◌, Some};
ghost use Rattle.foyer_core.specs.Inflight.{closed, waiters_of};
ghost use Rattle.foyer_core.specs.State.{key_of};
ghost use Rattle.foyer_core.specs.Waited.{entries_in};

use super::InflightManager;
use crate::entry::CoreEntry;
use crate::outcome::{Answers, Outcome};
use foyer_policy::Key;

impl<K: Key, N: Drop, R: Drop> InflightManager<K, N, R> {
    ghost use Rattle.foyer_core.specs.Inflights.{opens_of};

    // What the waiters of an inserted record's key get: one of these entries each. Closes the key's fetch. Takes no
    // memory.
    pub(crate) fn answers<V: Drop, P: Drop>(
        &mut self,
        entry: &CoreEntry<K, V, P>,
        others: Vec<CoreEntry<K, V, P>>,
    ) -> Answers<K, V, P, N>
        ensures waiters { result.waiters.items ≡ waiters_of ((opens_of self.old).by_key (key_of entry.now.kept)) }
        ensures entries { entries_in result.outcome ≡ Some others.items }
        ensures closed { opens_of self.new ≡ closed K.eq (opens_of self.old) (key_of entry.now.kept) }
    {
        let waiters = self.close(entry.hash(), entry.key());
        Answers {
            waiters,
            outcome: Outcome::Entries(others),
        }
    }
}
