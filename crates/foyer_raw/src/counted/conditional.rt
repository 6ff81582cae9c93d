//! Inserts and removals that depend on what a key has.

ghost use Rattle.std.specs.Prelude.{◌≡◌, ◌+◌, [], IfNone, IfOk, IfSome, IsTrue, MatchResult, None, Ok, false, option_copied, true, ◌↔◌};
ghost use Rattle.foyer_policy.specs.Moments.{is_expired};
ghost use Rattle.foyer_core.specs.Bulk.{TakesRecordOut};
ghost use Rattle.foyer_core.specs.Conditional.{Fits};
ghost use Rattle.foyer_core.specs.Inflight.{closed, waiters_of};
ghost use Rattle.foyer_core.specs.Pieces.{is_in};
ghost use Rattle.foyer_core.specs.State.{key_of};
ghost use Rattle.foyer_core.specs.Steps.{Gets};
ghost use Rattle.foyer_core.specs.Waited.{AnswersEach, waiting_for};
ghost use Rattle.foyer_raw.specs.Conditional.{IfChanged, IfFitting, IfFound, IfInserted, IfInserting, InsertsOnto, IsAgain, SetsExpiry, StillHas};
ghost use Rattle.foyer_raw.specs.Counts.{leaves_counted, made_counted};
ghost use Rattle.foyer_raw.specs.Told.{IsOf, IsUntold, taken_out, told_of};

use super::{At, CountedShard, FIRST, Hashed, RawInserted, RawPut};
use crate::leaves::Leaves;
use crate::replaced::Replaced;
use foyer_core::{CoreEntry, Counted, Data, Finder, Hold, Left, Share};
use foyer_policy::{Error, Event, Eviction, Key, Properties, Reason, Result, Value};
use std::alloc::Global;

/// What a conditional insert returns that has not failed.
pub type RawReplaced<K, V, P> = Replaced<RawInserted<K, V, P>, CoreEntry<K, V, P>>;

impl<E: Eviction, K: Key, V: Value, P: Properties, R: Drop, I: Finder<K>> CountedShard<
    E,
    K,
    V,
    P,
    R,
    I,
> {
    ghost use Rattle.foyer_core.specs.Shards.{state_of, meaning_of, opens_of};

    /// Inserts a record at a time with this share of its data, if its key still has what was seen. If not, looks the key up as
    /// `get` does, and counts neither a hit nor a miss.
    ///
    /// The caller keeps another share of the data, so that no data is dropped under the lock.
    pub fn replace_if(
        &mut self,
        alloc: Global,
        now: At,
        seen: Option<&CoreEntry<K, V, P>>,
        kept: Share<K, V, P>,
        leaves: &mut Leaves<K, V, P>,
    ) -> Result<RawReplaced<K, V, P>>
        requires clones { (k c : K) → K.is_clone k c → K.eq c k ≡ true }
        requires untold { IsUntold leaves.old }
        ensures inserted { StillHas (meaning_of self.old.shard) now.0 (state_of self.old.shard) (key_of kept) (option_copied seen.entry)
            → IfInserting result (λ made. InsertsOnto (meaning_of self.old.shard) now.0 (state_of self.old.shard) kept
            (1 + waiting_for (opens_of self.old.shard) (key_of kept)) made (told_of leaves.new) (state_of self.new.shard)) }
        ensures answered { StillHas (meaning_of self.old.shard) now.0 (state_of self.old.shard) (key_of kept) (option_copied seen.entry)
            → IfInserting result (λ made. MatchResult made
            (λ m. AnswersEach (waiters_of ((opens_of self.old.shard).by_key (key_of kept))) m.entry m.answers
            × (opens_of self.new.shard ≡ closed K.eq (opens_of self.old.shard) (key_of kept)))
            (λ _. opens_of self.new.shard ≡ opens_of self.old.shard)) }
        ensures counts { StillHas (meaning_of self.old.shard) now.0 (state_of self.old.shard) (key_of kept) (option_copied seen.entry)
            → IfInserting result (λ made. self.new.stats ≡ leaves_counted P.phantom_of P.expiry_of now.0 (told_of leaves.new)
            (made_counted P.phantom_of made self.old.stats)) }
        ensures changed { ¬ StillHas (meaning_of self.old.shard) now.0 (state_of self.old.shard) (key_of kept) (option_copied seen.entry)
            → IfChanged result (λ found. Gets (meaning_of self.old.shard) now.0 (state_of self.old.shard) (key_of kept) found (state_of self.new.shard)) }
        ensures rest { ¬ StillHas (meaning_of self.old.shard) now.0 (state_of self.old.shard) (key_of kept) (option_copied seen.entry)
            → (told_of leaves.new ≡ []) × (opens_of self.new.shard ≡ opens_of self.old.shard) × (self.new.stats ≡ self.old.stats) }
        ensures given { IfInserted result (λ made. made.entry.kept ≡ kept) }
        ensures key { IfFound result (λ e. K.eq kept.key e.kept.key ≡ true) }
        ensures live { IfFound result (λ e. is_expired now.0 (P.expiry_of e.kept.properties) ≡ false) }
    {
        if !self.still_has(now, seen, &kept) {
            let found = self.shard.get(now.0, kept.hash(), kept.key())?;
            return Ok(Replaced::Changed(found));
        }
        Ok(Replaced::Inserted(self.emplace(alloc, now, kept, leaves)?))
    }

    // Whether the key of these data still has what was seen.
    fn still_has(&self, now: At, seen: Option<&CoreEntry<K, V, P>>, kept: &Share<K, V, P>) -> bool
        ensures { IsTrue result ↔ StillHas (meaning_of self.now.shard) now.0 (state_of self.now.shard) (key_of kept.now) (option_copied seen.entry) }
    {
        let (hash, key) = (kept.hash(), kept.key());
        match seen {
            Some(entry) => {
                self.shard.owns(entry)
                    && entry.hash() == hash
                    && self.shard.is_current(now.0, hash, key, Some(entry.id()))
            }
            None => self.shard.is_current(now.0, hash, key, None),
        }
    }

    /// Inserts a record at a time with this share of its data, if it fits beside what is pinned of other keys. If not, nothing
    /// happens.
    ///
    /// The caller keeps another share of the data, so that no data is dropped under the lock.
    pub fn insert_if_fits(
        &mut self,
        alloc: Global,
        now: At,
        kept: Share<K, V, P>,
        leaves: &mut Leaves<K, V, P>,
    ) -> Result<Option<RawInserted<K, V, P>>>
        requires clones { (k c : K) → K.is_clone k c → K.eq c k ≡ true }
        requires untold { IsUntold leaves.old }
        ensures inserted { Fits (meaning_of self.old.shard) (state_of self.old.shard) (key_of kept) kept.weight
            → IfFitting result (λ made. InsertsOnto (meaning_of self.old.shard) now.0 (state_of self.old.shard) kept
            (1 + waiting_for (opens_of self.old.shard) (key_of kept)) made (told_of leaves.new) (state_of self.new.shard)) }
        ensures answered { Fits (meaning_of self.old.shard) (state_of self.old.shard) (key_of kept) kept.weight
            → IfFitting result (λ made. MatchResult made
            (λ m. AnswersEach (waiters_of ((opens_of self.old.shard).by_key (key_of kept))) m.entry m.answers
            × (opens_of self.new.shard ≡ closed K.eq (opens_of self.old.shard) (key_of kept)))
            (λ _. opens_of self.new.shard ≡ opens_of self.old.shard)) }
        ensures counts { Fits (meaning_of self.old.shard) (state_of self.old.shard) (key_of kept) kept.weight
            → IfFitting result (λ made. self.new.stats ≡ leaves_counted P.phantom_of P.expiry_of now.0 (told_of leaves.new)
            (made_counted P.phantom_of made self.old.stats)) }
        ensures full { ¬ Fits (meaning_of self.old.shard) (state_of self.old.shard) (key_of kept) kept.weight
            → (result ≡ Ok None) × (told_of leaves.new ≡ []) × (self.new.shard ≡ self.old.shard) × (self.new.stats ≡ self.old.stats) }
        ensures given { IfOk result (λ made. IfSome made (λ m. m.entry.kept ≡ kept)) }
    {
        if !self.shard.would_fit(kept.hash(), kept.key(), kept.weight()) {
            return Ok(None);
        }
        Ok(Some(self.emplace(alloc, now, kept, leaves)?))
    }

    /// Removes an entry's record, expired or not, if its key still has it, and returns it as it left (`Remove`).
    ///
    /// Takes no memory.
    #[tactic(auto, using(crate::proofs::CountLemmas::leaves_counted_one))]
    pub fn remove_this(&mut self, entry: &CoreEntry<K, V, P>) -> Option<Left<K, V, P>>
        ensures removed { IfSome result (λ left. IsOf (state_of self.old.shard) entry.now
            × TakesRecordOut (meaning_of self.old.shard) (state_of self.old.shard) entry.now.id left (state_of self.new.shard)) }
        ensures none { IfNone result ((IsOf (state_of self.old.shard) entry.now → is_in ((state_of self.old.shard).records entry.now.id) ≡ false)
            × (state_of self.new.shard ≡ state_of self.old.shard)) }
        ensures opens { opens_of self.new.shard ≡ opens_of self.old.shard }
        ensures counts { self.new.stats ≡ leaves_counted P.phantom_of P.expiry_of FIRST (taken_out result) self.old.stats }
    {
        if !self.shard.owns(entry) {
            return None;
        }
        let left = self.shard.remove_this(Hold {
            hash: entry.hash(),
            id: entry.id(),
            slot: 0,
        })?;
        self.stats.count_left(FIRST, Event::Remove, &left);
        Some(left)
    }

    /// Looks the key up at a time as `touch` does, and inserts the record that it hits again as `put_answering` does: copies of its
    /// key, value and properties, with its weight and this expiry. What can't be copied counts as an insert that failed.
    pub fn set_expires(
        &mut self,
        alloc: Global,
        now: At,
        key: Hashed<'_, K>,
        expires: Option<u64>,
        leaves: &mut Leaves<K, V, P>,
    ) -> Result<Option<RawPut<K, V, P>>>
    where
        V: Clone,
        P: Clone,
        requires clones { (k c : K) → K.is_clone k c → K.eq c k ≡ true }
        requires untold { IsUntold leaves.old }
        ensures { SetsExpiry (meaning_of self.old.shard) now.0 (IsAgain K.is_clone V.is_clone P.is_clone P.with_expiry_of expires) key.entry result
            (told_of leaves.new) (state_of self.old.shard) (state_of self.new.shard)
            (opens_of self.old.shard) (opens_of self.new.shard) self.old.stats self.new.stats }
    {
        let Some(entry) = self.shard.get(now.0, key.hash, key.key)? else {
            self.stats.count(Counted::Miss);
            return Ok(None);
        };
        self.stats.count(Counted::Hit);
        let kept = again(alloc, &entry, expires);
        // The record is resident, so nothing leaves with this handle.
        drop(self.shard.take_back(&entry));
        entry.discard();
        match kept {
            Some(kept) => Ok(Some(self.put_answering(alloc, now, kept, leaves)?)),
            None => {
                self.stats.count(Counted::Refused);
                Err(Error::new(Reason::NoMemory))
            }
        }
    }
}

// The data of an entry's record, copied, with this expiry.
fn again<K: Key, V: Value + Clone, P: Properties + Clone>(
    alloc: Global,
    entry: &CoreEntry<K, V, P>,
    expires: Option<u64>,
) -> Option<Share<K, V, P>>
    ensures { IfSome result (IsAgain K.is_clone V.is_clone P.is_clone P.with_expiry_of expires entry.now.kept) }
{
    let value = entry.value().clone().ok()?;
    let key = entry.key().clone().ok()?;
    let properties = entry.properties().clone().ok()?.with_expiry(expires);
    let (hash, weight) = (entry.hash(), entry.weight());
    Share::new(
        alloc,
        Data {
            key,
            value,
            properties,
            hash,
            weight,
        },
    )
    .ok()
}
