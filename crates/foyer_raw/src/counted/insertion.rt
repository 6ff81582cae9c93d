//! Inserts.

ghost use Rattle.std.specs.Prelude.{◌≡◌, ◌≢◌, ◌+◌, ℕ, [], Err, IfNone, IfOk, IfSome, MatchResult, None, OnErr, true};
ghost use Rattle.foyer_policy.specs.Properties.{is_phantom};
ghost use Rattle.foyer_policy.specs.declared.error.Reason.TheVariants.{Handles, NoMemory};
ghost use Rattle.foyer_policy.specs.declared.types.Source.TheVariants.{Outer};
ghost use Rattle.foyer_core.specs.Inflight.{closed, waiters_of};
ghost use Rattle.foyer_core.specs.Looks.{whole};
ghost use Rattle.foyer_core.specs.NoEntry.{Puts, PutsAnswering, last_of};
ghost use Rattle.foyer_core.specs.Onto.{insertion_onto};
ghost use Rattle.foyer_core.specs.Pieces.{InsertsPiece, coming_under, is_known};
ghost use Rattle.foyer_core.specs.State.{at_moment, key_of};
ghost use Rattle.foyer_core.specs.Stats.{counted};
ghost use Rattle.foyer_core.specs.Steps.{Gets, GivesBack, Inserts, MayBy, RefusesInsert, entry_of, newcomer};
ghost use Rattle.foyer_core.specs.Waited.{AnswersEach, waiting_for};
ghost use Rattle.foyer_core.specs.declared.stats.Counted.TheVariants.{Refused};
ghost use Rattle.foyer_raw.specs.Conditional.{InsertsOnto};
ghost use Rattle.foyer_raw.specs.Counts.{leaves_counted, made_counted, put_counted};
ghost use Rattle.foyer_raw.specs.Told.{IsUntold, told_of};

use super::counts::{count_leaves, count_made, count_put, is_phantom};
use super::{At, CountedShard, FIRST};
use crate::leaves::Leaves;
use crate::ticket::{Answer, Notifier};
use foyer_core::{CoreEntry, Counted, Finder, InsertedOnto, Leave, Piece, PutOnto, Share};
use foyer_policy::{Error, Eviction, Key, Properties, Reason, Result, Source, Value};
use std::alloc::Global;

/// What an insert returns that has not failed.
pub type RawInserted<K, V, P> = InsertedOnto<K, V, P, Notifier<Answer<K, V, P>>>;

/// What a put returns that has not failed.
pub type RawPut<K, V, P> = PutOnto<K, V, P, Notifier<Answer<K, V, P>>>;

impl<E: Eviction, K: Key, V: Value, P: Properties, R: Drop, I: Finder<K>> CountedShard<
    E,
    K,
    V,
    P,
    R,
    I,
> {
    ghost use Rattle.foyer_core.specs.Shards.{state_of, meaning_of, opens_of};

    /// Inserts a record at a time with this share of its data, and says in an entry that was made of the share where the
    /// record stands. If a fetch is open, nothing happens, and the share comes back in `later`.
    #[inline(always)]
    pub fn place(
        &mut self,
        now: At,
        kept: Share<K, V, P>,
        entry: &mut CoreEntry<K, V, P>,
        leaves: &mut Leaves<K, V, P>,
        later: &mut Option<Share<K, V, P>>,
    ) -> Result<()>
        requires clones { (k c : K) → K.is_clone k c → K.eq c k ≡ true }
        requires of { entry.old.kept ≡ kept }
        requires none { later.old ≡ None }
        requires untold { IsUntold leaves.old }
        ensures inserted { IfNone later.new (MatchResult result
            (λ _. Inserts (at_moment now.0 (meaning_of self.old.shard)) entry.old.source (state_of self.old.shard)
            (newcomer (state_of self.old.shard) kept 1) (told_of leaves.new) (whole entry.new) (state_of self.new.shard))
            (λ error. RefusesInsert (at_moment now.0 (meaning_of self.old.shard)) (state_of self.old.shard)
            (newcomer (state_of self.old.shard) kept 1) error (told_of leaves.new) (state_of self.new.shard))) }
        ensures counts { IfNone later.new (self.new.stats ≡ leaves_counted P.phantom_of P.expiry_of now.0 (told_of leaves.new)
            (put_counted (is_phantom (P.phantom_of kept.properties)) result self.old.stats)) }
        ensures later { IfSome later.new (λ share. (share ≡ kept) × (self.new.shard ≡ self.old.shard) × (self.new.stats ≡ self.old.stats)) }
        ensures stays { entry.new ≡ record entry.old { number = entry.new.number; id = entry.new.id } }
        ensures opens { opens_of self.new.shard ≡ opens_of self.old.shard }
    {
        if self.shard.has_fetches() {
            *later = Some(kept);
            return Ok(());
        }
        let placed = self.shard.place(now.0, kept, entry, &mut self.left);
        count_put(&mut self.stats, &placed, is_phantom(entry.properties()));
        count_leaves(&mut self.stats, now.0, self.left.as_slice());
        leaves.take(&mut self.left);
        placed
    }

    /// Inserts a record at a time with this share of its data, as one step that makes no entry. Returns what leaves with the
    /// entry that it doesn't make: a phantom record. If a fetch is open, nothing happens, and the share comes back in `later`.
    #[inline(always)]
    pub fn put(
        &mut self,
        now: At,
        kept: Share<K, V, P>,
        leaves: &mut Leaves<K, V, P>,
        later: &mut Option<Share<K, V, P>>,
    ) -> Result<Option<Leave<K, V, P>>>
        requires clones { (k c : K) → K.is_clone k c → K.eq c k ≡ true }
        requires none { later.old ≡ None }
        requires untold { IsUntold leaves.old }
        ensures puts { IfNone later.new (MatchResult result
            (λ last. Puts (meaning_of self.old.shard) now.0 (state_of self.old.shard) (newcomer (state_of self.old.shard) kept 1) (told_of leaves.new)
            last (state_of self.new.shard))
            (λ error. RefusesInsert (at_moment now.0 (meaning_of self.old.shard)) (state_of self.old.shard)
            (newcomer (state_of self.old.shard) kept 1) error (told_of leaves.new) (state_of self.new.shard))) }
        ensures counts { IfNone later.new (self.new.stats ≡ leaves_counted P.phantom_of P.expiry_of now.0 (told_of leaves.new)
            (put_counted (is_phantom (P.phantom_of kept.properties)) result self.old.stats)) }
        ensures later { IfSome later.new (λ share. (share ≡ kept) × (self.new.shard ≡ self.old.shard) × (self.new.stats ≡ self.old.stats)) }
        ensures opens { opens_of self.new.shard ≡ opens_of self.old.shard }
    {
        if self.shard.has_fetches() {
            *later = Some(kept);
            return Ok(None);
        }
        let phantom = is_phantom(kept.properties());
        let put = self.shard.put(now.0, kept, &mut self.left);
        count_put(&mut self.stats, &put, phantom);
        count_leaves(&mut self.stats, now.0, self.left.as_slice());
        leaves.take(&mut self.left);
        put
    }

    /// Inserts a record at a time with this share of its data, also while fetches are open.
    pub fn emplace(
        &mut self,
        alloc: Global,
        now: At,
        kept: Share<K, V, P>,
        leaves: &mut Leaves<K, V, P>,
    ) -> Result<RawInserted<K, V, P>>
        requires clones { (k c : K) → K.is_clone k c → K.eq c k ≡ true }
        requires untold { IsUntold leaves.old }
        ensures inserted { InsertsOnto (meaning_of self.old.shard) now.0 (state_of self.old.shard) kept
            (1 + waiting_for (opens_of self.old.shard) (key_of kept)) result (told_of leaves.new) (state_of self.new.shard) }
        ensures answered { MatchResult result
            (λ m. AnswersEach (waiters_of ((opens_of self.old.shard).by_key (key_of kept))) m.entry m.answers
            × (opens_of self.new.shard ≡ closed K.eq (opens_of self.old.shard) (key_of kept)))
            (λ _. opens_of self.new.shard ≡ opens_of self.old.shard) }
        ensures counts { self.new.stats ≡ leaves_counted P.phantom_of P.expiry_of now.0 (told_of leaves.new)
            (made_counted P.phantom_of result self.old.stats) }
        ensures given { IfOk result (λ made. made.entry.kept ≡ kept) }
    {
        let made = self
            .shard
            .emplace_share(alloc, now.0, kept, Source::Outer, &mut self.left);
        count_made(&mut self.stats, &made);
        count_leaves(&mut self.stats, now.0, self.left.as_slice());
        leaves.take(&mut self.left);
        made
    }

    /// Inserts a record as `put` does, also while fetches are open.
    pub fn put_answering(
        &mut self,
        alloc: Global,
        now: At,
        kept: Share<K, V, P>,
        leaves: &mut Leaves<K, V, P>,
    ) -> Result<RawPut<K, V, P>>
        requires clones { (k c : K) → K.is_clone k c → K.eq c k ≡ true }
        requires untold { IsUntold leaves.old }
        ensures puts { PutsAnswering (meaning_of self.old.shard) now.0 (state_of self.old.shard) (newcomer (state_of self.old.shard) kept
            (1 + waiting_for (opens_of self.old.shard) (key_of kept))) (last_of result) (told_of leaves.new) (state_of self.new.shard) }
        ensures answers { let s = state_of self.old.shard in IfOk result (λ put. AnswersEach (waiters_of ((opens_of self.old.shard).by_key (key_of kept)))
            (entry_of s s.next kept Outer) put.answers) }
        ensures opens { MatchResult result (λ _. opens_of self.new.shard ≡ closed K.eq (opens_of self.old.shard) (key_of kept))
            (λ _. opens_of self.new.shard ≡ opens_of self.old.shard) }
        ensures counts { self.new.stats ≡ leaves_counted P.phantom_of P.expiry_of now.0 (told_of leaves.new)
            (put_counted (is_phantom (P.phantom_of kept.properties)) result self.old.stats) }
    {
        let phantom = is_phantom(kept.properties());
        let put = self.shard.put_share(alloc, now.0, kept, &mut self.left);
        count_put(&mut self.stats, &put, phantom);
        count_leaves(&mut self.stats, now.0, self.left.as_slice());
        leaves.take(&mut self.left);
        put
    }

    /// Inserts a piece's record at a time. The piece's key has this hash, and the record has this weight if the shard doesn't
    /// know the piece.
    pub fn emplace_piece(
        &mut self,
        alloc: Global,
        now: At,
        piece: Piece<K, V, P>,
        hash: u64,
        weight: usize,
        leaves: &mut Leaves<K, V, P>,
    ) -> Result<RawInserted<K, V, P>>
        requires clones { (k c : K) → K.is_clone k c → K.eq c k ≡ true }
        requires untold { IsUntold leaves.old }
        ensures inserted { InsertsPiece (at_moment now.0 (meaning_of self.old.shard)) (λ w. w ≡ weight) hash piece
            (1 + waiting_for (opens_of self.old.shard) (coming_under (state_of self.old.shard) hash piece))
            (insertion_onto result (told_of leaves.new)) (state_of self.old.shard) (state_of self.new.shard) }
        ensures answers { IfOk result (λ made. AnswersEach (waiters_of ((opens_of self.old.shard).by_key (key_of made.entry.kept))) made.entry made.answers) }
        ensures opens { MatchResult result (λ made. opens_of self.new.shard ≡ closed K.eq (opens_of self.old.shard) (key_of made.entry.kept))
            (λ _. opens_of self.new.shard ≡ opens_of self.old.shard) }
        ensures counts { self.new.stats ≡ leaves_counted P.phantom_of P.expiry_of now.0 (told_of leaves.new)
            (made_counted P.phantom_of result self.old.stats) }
    {
        let made = self
            .shard
            .emplace_piece(alloc, now.0, piece, hash, weight, &mut self.left);
        count_made(&mut self.stats, &made);
        count_leaves(&mut self.stats, now.0, self.left.as_slice());
        leaves.take(&mut self.left);
        made
    }

    /// Returns whether the shard knows a piece, whose key has this hash.
    pub fn knows(&self, hash: u64, piece: &Piece<K, V, P>) -> bool
        ensures { result ≡ is_known (state_of self.now.shard) hash piece.now }
    {
        self.shard.knows(hash, piece)
    }

    /// Counts an insert that fails because memory ran out, and returns its error: F10, F9 or F8 if it has one of these now, or
    /// else F7.
    pub fn refuse_insert(&mut self, hash: u64, key: &K, properties: &P, weight: usize) -> Error
        ensures first { result ≢ NoMemory → (value : V) → RefusesInsert (meaning_of self.old.shard) (state_of self.old.shard)
            (newcomer (state_of self.old.shard) (record { key = key.now; value = value; properties = properties.now; hash = hash; weight = weight })
            (1 + waiting_for (opens_of self.old.shard) (hash, key.now))) result [] (state_of self.old.shard) }
        ensures memory { result ≡ NoMemory → (value : V) → MayBy (meaning_of self.old.shard) (is_phantom (P.phantom_of properties.now))
            (state_of self.old.shard)
            (newcomer (state_of self.old.shard) (record { key = key.now; value = value; properties = properties.now; hash = hash; weight = weight })
            (1 + waiting_for (opens_of self.old.shard) (hash, key.now))) }
        ensures rest { (self.new.shard ≡ self.old.shard) × (self.new.stats ≡ counted Refused self.old.stats) }
    {
        self.stats.count(Counted::Refused);
        match self.shard.refuses_insert(hash, key, properties, weight) {
            Some(reason) => Error::new(reason),
            None => Error::new(Reason::NoMemory),
        }
    }

    /// Counts a piece whose insert fails because memory ran out, and returns why it would fail now, whatever memory there is,
    /// as `emplace_piece` takes it. Of a piece that the shard knows this asks for a handle alone.
    pub fn refuse_piece(
        &mut self,
        hash: u64,
        weight: usize,
        piece: &Piece<K, V, P>,
    ) -> Option<Reason>
        ensures known { is_known (state_of self.old.shard) hash piece.now ≡ true → IfSome result (λ reason. (reason ≡ Handles)
            × Gets (meaning_of self.old.shard) FIRST (state_of self.old.shard) (hash, piece.now.kept.key) (Err Handles) (state_of self.old.shard)) }
        ensures memory { IfSome result (λ reason. reason ≢ NoMemory) }
        ensures rest { (self.new.shard ≡ self.old.shard) × (self.new.stats ≡ counted Refused self.old.stats) }
    {
        self.stats.count(Counted::Refused);
        if self.shard.knows(hash, piece) {
            return self.shard.refuses_get(FIRST, hash, piece.key());
        }
        self.shard
            .refuses_insert(hash, piece.key(), piece.properties(), weight)
    }
}
