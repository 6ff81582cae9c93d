//! Inserts into a shard.

ghost use Rattle.std.specs.Prelude.{◌≡◌, ◌+◌, ℕ, [], ◌<◌, ◌^◌, None, IfOk, MatchResult, OnErr, true, false};
ghost use Rattle.foyer_core.specs.Looks.{whole};
ghost use Rattle.foyer_core.specs.Inflight.{closed, waiters_of};
ghost use Rattle.foyer_core.specs.Onto.{insertion_onto};
ghost use Rattle.foyer_core.specs.Waited.{AnswersEach, waiting_for};

use super::Shard;
use crate::entry::{CoreEntry, Leave};
use crate::finder::Finder;
use crate::outcome::{Answers, Further, Handles, InsertedOnto};
use crate::piece::Piece;
use crate::record::Data;
use crate::share::Share;
use foyer_policy::{Error, Eviction, Key, Properties, Result, Source, Value};
use std::alloc::Global;

impl<E: Eviction, K: Key, V: Value, P: Properties, N: Drop, R: Drop, I: Finder<K>> Shard<
    E,
    K,
    V,
    P,
    N,
    R,
    I,
> {
    ghost use Rattle.foyer_core.specs.Shards.{state_of, meaning_of, opens_of};
    ghost use Rattle.foyer_core.specs.Bulk.{GoesOn};
    ghost use Rattle.foyer_core.specs.State.{at_moment, key_of};
    ghost use Rattle.foyer_core.specs.Steps.{Inserts, RefusesInsert, newcomer};
    ghost use Rattle.foyer_core.specs.Pieces.{InsertsPiece, coming_under, is_known};

    /// Inserts a record, and returns an entry of it with this source and one for each caller that waits for its key.
    /// Appends what leaves.
    ///
    /// Records that are expired at `now` are evicted, then the policy's victims, until the record fits or nothing
    /// more leaves; then it replaces the key's record (`Replace`). A record whose properties say that it is phantom
    /// is reported as `Remove`: it replaces the key's record, but nothing is evicted for it, it is never in the
    /// index, and it leaves with its last handle. The key's fetch is closed. A clone of the key must equal it.
    ///
    /// # Errors
    /// F10 if no id is left, F9 if the handle count would pass its limit, F8 if the record's weight and the pinned
    /// weight of other keys don't fit a `usize`; nothing has changed. F7 if memory runs out; the evictions made so
    /// far stand. After any error, callers that wait for the key still wait.
    #[inline(always)]
    pub fn emplace(
        &mut self,
        alloc: Global,
        now: u64,
        kept: Data<K, V, P>,
        source: Source,
        leaves: &mut Vec<Leave<K, V, P>>,
    ) -> Result<InsertedOnto<K, V, P, N>>
        requires clones { (k c : K) → K.is_clone k c → K.eq c k ≡ true }
        ensures inserted { let handles = 1 + waiting_for (opens_of self.old) (key_of kept) in GoesOn leaves.old.items leaves.new.items (λ ls. MatchResult result
            (λ made. Inserts (at_moment now (meaning_of self.old)) source (state_of self.old)
            (newcomer (state_of self.old) kept handles) ls made.entry (state_of self.new))
            (λ error. RefusesInsert (at_moment now (meaning_of self.old)) (state_of self.old)
            (newcomer (state_of self.old) kept handles) error ls (state_of self.new))) }
        ensures given { IfOk result (λ made. made.entry.kept ≡ kept) }
        ensures answers { IfOk result (λ made. AnswersEach (waiters_of ((opens_of self.old).by_key (key_of made.entry.kept))) made.entry made.answers) }
        ensures closed { IfOk result (λ made. opens_of self.new ≡ closed K.eq (opens_of self.old) (key_of made.entry.kept)) }
        ensures opens { OnErr result (opens_of self.new ≡ opens_of self.old) }
    {
        match Share::new(alloc, kept) {
            Ok(kept) => self.emplace_share(alloc, now, kept, source, leaves),
            Err(kept) => {
                Err(self.out_of_memory(kept.hash, &kept.key, &kept.properties, kept.weight))
            }
        }
    }

    // The error of an insert of a new record with these parts for which memory runs out: F10, F9 or F8 if it has one of
    // these, with a handle for each waiter, else F7.
    #[cold]
    pub(super) fn out_of_memory(&self, hash: u64, key: &K, properties: &P, weight: usize) -> Error
        ensures { (now : ℕ) (value : V) → RefusesInsert (at_moment now (meaning_of self.now)) (state_of self.now)
            (newcomer (state_of self.now) (record {
              key = key.now;
              value = value;
              properties = properties.now;
              hash =
                  hash;
              weight = weight;
            }) (1 + waiting_for (opens_of self.now) (hash, key.now))) result [] (state_of self.now) }
    {
        let further = self.further(hash, key);
        self.store
            .out_of_memory(hash, key, properties, weight, further.count)
    }

    /// Inserts a record with this share of its data, as `emplace` does.
    ///
    /// # Errors
    /// Those of `emplace`.
    #[inline(always)]
    pub fn emplace_share(
        &mut self,
        alloc: Global,
        now: u64,
        kept: Share<K, V, P>,
        source: Source,
        leaves: &mut Vec<Leave<K, V, P>>,
    ) -> Result<InsertedOnto<K, V, P, N>>
        requires clones { (k c : K) → K.is_clone k c → K.eq c k ≡ true }
        ensures inserted { let handles = 1 + waiting_for (opens_of self.old) (key_of kept) in GoesOn leaves.old.items leaves.new.items (λ ls. MatchResult result
            (λ made. Inserts (at_moment now (meaning_of self.old)) source (state_of self.old)
            (newcomer (state_of self.old) kept handles) ls made.entry (state_of self.new))
            (λ error. RefusesInsert (at_moment now (meaning_of self.old)) (state_of self.old)
            (newcomer (state_of self.old) kept handles) error ls (state_of self.new))) }
        ensures given { IfOk result (λ made. made.entry.kept ≡ kept) }
        ensures answers { IfOk result (λ made. AnswersEach (waiters_of ((opens_of self.old).by_key (key_of made.entry.kept))) made.entry made.answers) }
        ensures closed { IfOk result (λ made. opens_of self.new ≡ closed K.eq (opens_of self.old) (key_of made.entry.kept)) }
        ensures opens { OnErr result (opens_of self.new ≡ opens_of self.old) }
    {
        if self.has_fetches() {
            return self.emplace_answering(alloc, now, kept, source, leaves);
        }
        let Some(mut entry) = CoreEntry::of_share(&kept, source, true) else {
            let (key, properties) = (kept.key(), kept.properties());
            return Err(self.out_of_memory(kept.hash(), key, properties, kept.weight()));
        };
        match self.place(now, kept, &mut entry, leaves) {
            Ok(()) => Ok(InsertedOnto {
                entry,
                answers: Answers::nobody(alloc),
            }),
            Err(error) => {
                entry.discard();
                Err(error)
            }
        }
    }

    /// Returns whether a fetch is open.
    #[inline(always)]
    pub fn has_fetches(&self) -> bool
        ensures { result ≡ false → (k : ℕ × K) → (opens_of self.now).by_key k ≡ None }
    {
        !self.inflights.is_empty()
    }

    /// Inserts a record with this share of its data as `emplace` does, while no fetch is open, and says in an entry that was made
    /// of the share where the record stands. After an error the entry must be discarded.
    ///
    /// # Errors
    /// Those of `emplace`.
    #[inline(always)]
    pub fn place(
        &mut self,
        now: u64,
        kept: Share<K, V, P>,
        entry: &mut CoreEntry<K, V, P>,
        leaves: &mut Vec<Leave<K, V, P>>,
    ) -> Result<()>
        requires clones { (k c : K) → K.is_clone k c → K.eq c k ≡ true }
        requires alone { (k : ℕ × K) → (opens_of self.old).by_key k ≡ None }
        requires of { entry.old.kept ≡ kept }
        ensures inserted { GoesOn leaves.old.items leaves.new.items (λ ls. MatchResult result
            (λ _. Inserts (at_moment now (meaning_of self.old)) entry.old.source (state_of self.old)
            (newcomer (state_of self.old) kept 1) ls (whole entry.new) (state_of self.new))
            (λ error. RefusesInsert (at_moment now (meaning_of self.old)) (state_of self.old)
            (newcomer (state_of self.old) kept 1) error ls (state_of self.new))) }
        ensures stays { entry.new ≡ record entry.old { number = entry.new.number; id = entry.new.id } }
        ensures opens { opens_of self.new ≡ opens_of self.old }
    {
        self.store.place(now, kept, entry, leaves)
    }

    // Inserts as `emplace` does, if there are open fetches.
    #[cold]
    #[inline(never)]
    pub(super) fn emplace_answering(
        &mut self,
        alloc: Global,
        now: u64,
        kept: Share<K, V, P>,
        source: Source,
        leaves: &mut Vec<Leave<K, V, P>>,
    ) -> Result<InsertedOnto<K, V, P, N>>
        requires clones { (k c : K) → K.is_clone k c → K.eq c k ≡ true }
        ensures inserted { let handles = 1 + waiting_for (opens_of self.old) (key_of kept) in GoesOn leaves.old.items leaves.new.items (λ ls. MatchResult result
            (λ made. Inserts (at_moment now (meaning_of self.old)) source (state_of self.old)
            (newcomer (state_of self.old) kept handles) ls made.entry (state_of self.new))
            (λ error. RefusesInsert (at_moment now (meaning_of self.old)) (state_of self.old)
            (newcomer (state_of self.old) kept handles) error ls (state_of self.new))) }
        ensures given { IfOk result (λ made. made.entry.kept ≡ kept) }
        ensures answers { IfOk result (λ made. AnswersEach (waiters_of ((opens_of self.old).by_key (key_of made.entry.kept))) made.entry made.answers) }
        ensures closed { IfOk result (λ made. opens_of self.new ≡ closed K.eq (opens_of self.old) (key_of made.entry.kept)) }
        ensures opens { OnErr result (opens_of self.new ≡ opens_of self.old) }
    {
        let further = self.further(kept.hash(), kept.key());
        match self
            .store
            .emplace(alloc, now, kept, source, further, leaves)
        {
            Ok(made) => {
                let Handles { entry, others } = made;
                let answers = self.inflights.answers(&entry, others);
                Ok(InsertedOnto { entry, answers })
            }
            Err(error) => Err(error),
        }
    }

    /// Returns whether a piece, whose key has this hash, stands for a record of this shard: the piece has the core's
    /// number and this hash, and its id was given. Takes no memory.
    pub fn knows(&self, hash: u64, piece: &Piece<K, V, P>) -> bool
        ensures { result ≡ is_known (state_of self.now) hash piece.now }
    {
        self.store.knows(hash, piece)
    }

    /// Inserts the record of a piece, whose key has this hash, and returns what `emplace` does, with the source
    /// `Memory`. Appends what leaves.
    ///
    /// A piece that the shard knows stands for its record. If that is resident it gets the handles, and nothing else
    /// happens. Otherwise it is inserted under its id, with the data that a handle still holds, or else the piece's.
    /// A piece that the shard doesn't know makes a new record of this hash and this weight, which shares the piece's
    /// data. A clone of the key must equal it.
    ///
    /// # Errors
    /// Those of `emplace`, but F10 only for a new record.
    pub fn emplace_piece(
        &mut self,
        alloc: Global,
        now: u64,
        piece: Piece<K, V, P>,
        hash: u64,
        weight: usize,
        leaves: &mut Vec<Leave<K, V, P>>,
    ) -> Result<InsertedOnto<K, V, P, N>>
        requires clones { (k c : K) → K.is_clone k c → K.eq c k ≡ true }
        ensures inserted { GoesOn leaves.old.items leaves.new.items (λ ls. InsertsPiece (at_moment now (meaning_of self.old)) (λ w. w ≡ weight) hash piece
            (1 + waiting_for (opens_of self.old) (coming_under (state_of self.old) hash piece))
            (insertion_onto result ls) (state_of self.old) (state_of self.new)) }
        ensures answers { IfOk result (λ made. AnswersEach (waiters_of ((opens_of self.old).by_key (key_of made.entry.kept))) made.entry made.answers) }
        ensures closed { IfOk result (λ made. opens_of self.new ≡ closed K.eq (opens_of self.old) (key_of made.entry.kept)) }
        ensures opens { OnErr result (opens_of self.new ≡ opens_of self.old) }
    {
        let further = self.further_of(hash, &piece);
        match self
            .store
            .emplace_piece(alloc, now, piece, hash, weight, further, leaves)
        {
            Ok(made) => {
                let Handles { entry, others } = made;
                let answers = self.inflights.answers(&entry, others);
                Ok(InsertedOnto { entry, answers })
            }
            Err(error) => Err(error),
        }
    }

    // An entry for each waiter of a key.
    #[inline(always)]
    pub(super) fn further(&self, hash: u64, key: &K) -> Further
        ensures count { result.count ≡ waiting_for (opens_of self.now) (hash, key.now) }
        ensures room { result.room ≡ 0 }
        ensures listed { result.count + result.room < 2 ^ 64 }
    {
        let count = if self.inflights.is_empty() {
            0
        } else {
            self.inflights.waiters(hash, key)
        };
        Further { count, room: 0 }
    }

    // An entry for each waiter of the key under which a piece is inserted, whose key has this hash.
    fn further_of(&self, hash: u64, piece: &Piece<K, V, P>) -> Further
        ensures count { result.count ≡ waiting_for (opens_of self.now) (coming_under (state_of self.now) hash piece.now) }
        ensures room { result.room ≡ 0 }
        ensures listed { result.count + result.room < 2 ^ 64 }
    {
        let (hash, key) = self.store.key_under(hash, piece);
        self.further(hash, key)
    }
}
