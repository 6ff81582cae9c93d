//! Answers that nobody wants.

ghost use Rattle.std.specs.Prelude.{◌≡◌, []};
ghost use Rattle.foyer_core.specs.Waited.{entries_got};

use super::CacheCore;
use crate::entry::CoreEntry;
use crate::filter::Filter;
use crate::finder::Finder;
use crate::outcome::{Answers, Outcome};
use crate::weighter::Weighter;
use foyer_policy::{Eviction, HashBuilder, Key, Properties, Value};

impl<
    E: Eviction,
    K: Key,
    V: Value,
    P: Properties,
    S: HashBuilder,
    W: Weighter<K, V>,
    A: Filter<K, V>,
    N: Drop,
    R: Drop,
    I: Finder<K>,
> CacheCore<E, K, V, P, S, W, A, N, R, I> {
    ghost use Rattle.foyer_core.specs.Cores.{core_of, fetches_of, hashes_of, meaning_of_core};
    ghost use Rattle.foyer_core.specs.Dropping.{Drops, among};
    ghost use Rattle.foyer_core.specs.Laws.{HandlesStay};

    /// Ends answers that nobody wants: gives each entry back, from the last to the first, and drops the waiters.
    ///
    /// What leaves with the entries is dropped too. Takes no memory.
    pub fn drop_answers(&mut self, answers: Answers<K, V, P, N>)
        ensures dropped { Drops (meaning_of_core self.old) (hashes_of self.old) (entries_got answers.outcome) (core_of self.old) (core_of self.new) }
        ensures nobody { entries_got answers.outcome ≡ [] → core_of self.new ≡ core_of self.old }
        ensures fetches { fetches_of self.new ≡ fetches_of self.old }
        ensures stay { HandlesStay (among (core_of self.old) (entries_got answers.outcome)) (core_of self.old) (core_of self.new) }
    {
        let Answers { waiters, outcome } = answers;
        drop(waiters);
        match outcome {
            Outcome::Entries(entries) => self.drop_entries(entries),
            Outcome::None => (),
            Outcome::Fault(error) => drop(error),
        }
    }

    // Ends entries, from the last to the first.
    fn drop_entries(&mut self, mut entries: Vec<CoreEntry<K, V, P>>)
        ensures dropped { Drops (meaning_of_core self.old) (hashes_of self.old) entries.items (core_of self.old) (core_of self.new) }
        ensures fetches { fetches_of self.new ≡ fetches_of self.old }
        ensures stay { HandlesStay (among (core_of self.old) entries.items) (core_of self.old) (core_of self.new) }
    {
        while let Some(entry) = entries.pop() {
            drop(self.drop_entry(entry));
        }
        entries.destroy_empty();
    }
}
