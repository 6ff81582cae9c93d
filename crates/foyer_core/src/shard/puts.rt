//! Inserts into a shard of which no entry is wanted.

ghost use Rattle.std.specs.Prelude.{◌≡◌, ◌+◌, ℕ, None, IfOk, MatchResult, OnOk, OnErr, true};
ghost use Rattle.foyer_core.specs.Inflight.{closed, waiters_of};
ghost use Rattle.foyer_policy.specs.declared.types.Source.TheVariants.{Outer};
ghost use Rattle.foyer_core.specs.Waited.{AnswersEach, waiting_for};

use super::Shard;
use crate::entry::Leave;
use crate::finder::Finder;
use crate::outcome::{Answers, InsertedOnto, PutOnto};
use crate::record::Data;
use crate::share::Share;
use foyer_policy::{Eviction, Key, Properties, Result, Source, Value};
use std::alloc::Global;

impl<E: Eviction, K: Key, V: Value, P: Properties, N: Drop, R: Drop, I: Finder<K>> Shard<
    E,
    K,
    V,
    P,
    N,
    R,
    I,
> {
    ghost use Rattle.foyer_core.specs.Shards.{state_of, meaning_of, opens_of};
    ghost use Rattle.foyer_core.specs.Bulk.{GoesOn};
    ghost use Rattle.foyer_core.specs.State.{at_moment, key_of};
    ghost use Rattle.foyer_core.specs.Steps.{RefusesInsert, entry_of, newcomer};
    ghost use Rattle.foyer_core.specs.NoEntry.{Puts, PutsAnswering, last_of};

    /// Inserts a record with this share of its data as `emplace` does, while no fetch is open, and takes its entry back, as
    /// one step that makes none. Appends what leaves, and returns what left with the entry: a phantom record.
    ///
    /// # Errors
    /// Those of `emplace`.
    #[inline(always)]
    pub fn put(
        &mut self,
        now: u64,
        kept: Share<K, V, P>,
        leaves: &mut Vec<Leave<K, V, P>>,
    ) -> Result<Option<Leave<K, V, P>>>
        requires clones { (k c : K) → K.is_clone k c → K.eq c k ≡ true }
        requires alone { (k : ℕ × K) → (opens_of self.old).by_key k ≡ None }
        ensures puts { GoesOn leaves.old.items leaves.new.items (λ ls. MatchResult result
            (λ last. Puts (meaning_of self.old) now (state_of self.old) (newcomer (state_of self.old) kept 1) ls last (state_of self.new))
            (λ error. RefusesInsert (at_moment now (meaning_of self.old)) (state_of self.old)
            (newcomer (state_of self.old) kept 1) error ls (state_of self.new))) }
        ensures opens { opens_of self.new ≡ opens_of self.old }
    {
        self.store.put(now, kept, leaves)
    }

    /// Inserts a record as `emplace` does, of which no entry is wanted: as one step, that entry is taken back. None is
    /// made if no fetch is open. Appends what leaves.
    ///
    /// # Errors
    /// Those of `emplace`.
    #[inline(always)]
    pub fn put_onto(
        &mut self,
        alloc: Global,
        now: u64,
        kept: Data<K, V, P>,
        leaves: &mut Vec<Leave<K, V, P>>,
    ) -> Result<PutOnto<K, V, P, N>>
        requires clones { (k c : K) → K.is_clone k c → K.eq c k ≡ true }
        ensures puts { let handles = 1 + waiting_for (opens_of self.old) (key_of kept) in GoesOn leaves.old.items leaves.new.items (λ ls.
            PutsAnswering (meaning_of self.old) now (state_of self.old) (newcomer (state_of self.old) kept handles) (last_of result) ls (state_of self.new)) }
        ensures answers { let s = state_of self.old in IfOk result (λ put. AnswersEach (waiters_of ((opens_of self.old).by_key (key_of kept)))
            (entry_of s s.next kept Outer) put.answers) }
        ensures closed { OnOk result (opens_of self.new ≡ closed K.eq (opens_of self.old) (key_of kept)) }
        ensures opens { OnErr result (opens_of self.new ≡ opens_of self.old) }
    {
        match Share::new(alloc, kept) {
            Ok(kept) => self.put_share(alloc, now, kept, leaves),
            Err(kept) => {
                Err(self.out_of_memory(kept.hash, &kept.key, &kept.properties, kept.weight))
            }
        }
    }

    /// Inserts a record with this share of its data as `put_onto` does.
    ///
    /// # Errors
    /// Those of `emplace`.
    #[inline(always)]
    pub fn put_share(
        &mut self,
        alloc: Global,
        now: u64,
        kept: Share<K, V, P>,
        leaves: &mut Vec<Leave<K, V, P>>,
    ) -> Result<PutOnto<K, V, P, N>>
        requires clones { (k c : K) → K.is_clone k c → K.eq c k ≡ true }
        ensures puts { let handles = 1 + waiting_for (opens_of self.old) (key_of kept) in GoesOn leaves.old.items leaves.new.items (λ ls.
            PutsAnswering (meaning_of self.old) now (state_of self.old) (newcomer (state_of self.old) kept handles) (last_of result) ls (state_of self.new)) }
        ensures answers { let s = state_of self.old in IfOk result (λ put. AnswersEach (waiters_of ((opens_of self.old).by_key (key_of kept)))
            (entry_of s s.next kept Outer) put.answers) }
        ensures closed { OnOk result (opens_of self.new ≡ closed K.eq (opens_of self.old) (key_of kept)) }
        ensures opens { OnErr result (opens_of self.new ≡ opens_of self.old) }
    {
        if self.has_fetches() {
            return self.put_answering(alloc, now, kept, leaves);
        }
        match self.put(now, kept, leaves) {
            Ok(last) => Ok(PutOnto {
                last,
                answers: Answers::nobody(alloc),
            }),
            Err(error) => Err(error),
        }
    }

    // Inserts as `put_onto` does, if there are open fetches.
    #[cold]
    #[inline(never)]
    fn put_answering(
        &mut self,
        alloc: Global,
        now: u64,
        kept: Share<K, V, P>,
        leaves: &mut Vec<Leave<K, V, P>>,
    ) -> Result<PutOnto<K, V, P, N>>
        requires clones { (k c : K) → K.is_clone k c → K.eq c k ≡ true }
        ensures puts { let handles = 1 + waiting_for (opens_of self.old) (key_of kept) in GoesOn leaves.old.items leaves.new.items (λ ls.
            PutsAnswering (meaning_of self.old) now (state_of self.old) (newcomer (state_of self.old) kept handles) (last_of result) ls (state_of self.new)) }
        ensures answers { let s = state_of self.old in IfOk result (λ put. AnswersEach (waiters_of ((opens_of self.old).by_key (key_of kept)))
            (entry_of s s.next kept Outer) put.answers) }
        ensures closed { OnOk result (opens_of self.new ≡ closed K.eq (opens_of self.old) (key_of kept)) }
        ensures opens { OnErr result (opens_of self.new ≡ opens_of self.old) }
    {
        match self.emplace_answering(alloc, now, kept, Source::Outer, leaves) {
            Ok(InsertedOnto { entry, answers }) => {
                let Ok(last) = self.store.take_back_at(entry.id(), entry.slot()) else {
                    unreachable!();
                };
                entry.discard();
                Ok(PutOnto { last, answers })
            }
            Err(error) => Err(error),
        }
    }
}
