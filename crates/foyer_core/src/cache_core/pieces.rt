//! Inserts of pieces.

ghost use Rattle.std.specs.Prelude.{◌≡◌, ◌+◌, MatchResult, Some, false, length, true};
ghost use Rattle.foyer_core.specs.Inflight.{waiters_of};
ghost use Rattle.foyer_core.specs.Onto.{insertion_onto};
ghost use Rattle.foyer_core.specs.State.{State, at_moment};
ghost use Rattle.foyer_core.specs.Waited.{insertion_of};

use super::CacheCore;
use super::load::Load;
use crate::entry::Leave;
use crate::filter::Filter;
use crate::finder::Finder;
use crate::outcome::{Inserted, InsertedOnto, Refused};
use crate::piece::Piece;
use crate::weighter::Weighter;
use foyer_policy::{Eviction, HashBuilder, Key, Properties, Result, Value};

impl<
    E: Eviction,
    K: Key,
    V: Value,
    P: Properties,
    S: HashBuilder,
    W: Weighter<K, V>,
    A: Filter<K, V>,
    N: Drop,
    R: Drop,
    I: Finder<K>,
> CacheCore<E, K, V, P, S, W, A, N, R, I> {
    ghost use Rattle.foyer_core.specs.Bulk.{GoesOn};
    ghost use Rattle.foyer_core.specs.Core.{AtShard, shard_at};
    ghost use Rattle.foyer_core.specs.CoreFetches.{open_in};
    ghost use Rattle.foyer_core.specs.Cores.{core_of, fetches_of, hashes_of, meaning_of_core};
    ghost use Rattle.foyer_core.specs.CallLaws.{AnswersIn, InsertLaws};
    ghost use Rattle.foyer_core.specs.Pieces.{InsertsPiece, coming_under, is_known};

    /// Inserts the record of a piece and returns an entry of it with the source `Memory`, an entry for each caller
    /// that waits for its key, and what left.
    ///
    /// A piece that this core made stands for its record, if the key still has the piece's hash. If that record is
    /// resident it gets the handles, and nothing else happens. Otherwise it is inserted under its id, as by
    /// `insert_with_properties`, with the data that a handle still holds, or else the piece's. A piece of another
    /// core makes a new record that shares the piece's key, value and properties, with a hash and a weight of its
    /// own. The filter isn't asked; a piece whose properties say phantom stays phantom. The key's fetch is closed. A
    /// clone of the key must equal it.
    ///
    /// # Errors
    /// Those of `insert_with_properties`, but F10 only for a new record.
    pub fn insert_piece(
        &mut self,
        now: u64,
        piece: Piece<K, V, P>,
    ) -> std::result::Result<Inserted<K, V, P, N>, Refused<K, V, P>>
        requires clones { (k c : K) → K.is_clone k c → K.eq c k ≡ true }
        ensures inserted { let hash = hashes_of self.old piece.kept.key in
            AtShard (λ s t. InsertsPiece (at_moment now (meaning_of_core self.old)) (W.weighs (core_of self.old).weighter piece.kept.key piece.kept.value) hash piece
            (1 + length (waiters_of (open_in (fetches_of self.old) (coming_under s hash piece)))) (insertion_of result) s t)
            hash (core_of self.old) (core_of self.new) }
        ensures fetches { MatchResult result
            (λ made. AnswersIn K.eq (hashes_of self.old piece.kept.key) made.entry made.answers (fetches_of self.old) (fetches_of self.new))
            (λ _. fetches_of self.new ≡ fetches_of self.old) }
        ensures laws { InsertLaws (meaning_of_core self.old) (hashes_of self.old) (hashes_of self.new)
            (hashes_of self.old piece.kept.key) (core_of self.old) (insertion_of result) (core_of self.new) }
    {
        let mut leaves = Vec::new(self.alloc);
        match self.insert_piece_onto(now, piece, &mut leaves) {
            Ok(made) => {
                let InsertedOnto { entry, answers } = made;
                Ok(Inserted {
                    entry,
                    answers,
                    leaves,
                })
            }
            Err(error) => Err(Refused { error, leaves }),
        }
    }

    /// Inserts a piece as `insert_piece` does, and appends what leaves to a list, in order, also before an error.
    pub fn insert_piece_onto(
        &mut self,
        now: u64,
        piece: Piece<K, V, P>,
        leaves: &mut Vec<Leave<K, V, P>>,
    ) -> Result<InsertedOnto<K, V, P, N>>
        requires clones { (k c : K) → K.is_clone k c → K.eq c k ≡ true }
        ensures inserted { let hash = hashes_of self.old piece.kept.key in
            GoesOn leaves.old.items leaves.new.items (λ ls.
            AtShard (λ s t. InsertsPiece (at_moment now (meaning_of_core self.old)) (W.weighs (core_of self.old).weighter piece.kept.key piece.kept.value) hash piece
            (1 + length (waiters_of (open_in (fetches_of self.old) (coming_under s hash piece)))) (insertion_onto result ls) s t)
            hash (core_of self.old) (core_of self.new)) }
        ensures fetches { MatchResult result
            (λ made. AnswersIn K.eq (hashes_of self.old piece.kept.key) made.entry made.answers (fetches_of self.old) (fetches_of self.new))
            (λ _. fetches_of self.new ≡ fetches_of self.old) }
        ensures laws { GoesOn leaves.old.items leaves.new.items (λ ls.
            InsertLaws (meaning_of_core self.old) (hashes_of self.old) (hashes_of self.new)
            (hashes_of self.old piece.kept.key) (core_of self.old) (insertion_onto result ls) (core_of self.new)) }
    {
        let hash = self.hash(piece.key());
        let weight = self.weight_under(hash, &piece, piece.key());
        let place = self.shard_index(hash);
        let before = Load::of(&self.shards[place]);
        let made = self.shards[place].emplace_piece(self.alloc, now, piece, hash, weight, leaves);
        let after = Load::of(&self.shards[place]);
        self.load.replace(before, after);
        made
    }

    // The weight that a piece makes a new record with, whose key has this hash. The weighter isn't asked of a piece
    // that its shard knows, nor of one whose key isn't this one.
    pub(super) fn weight_under(&self, hash: u64, piece: &Piece<K, V, P>, key: &K) -> usize
        ensures { (s : State K V P E.View) → shard_at (core_of self.now) hash ≡ Some s → is_known s hash piece.now ≡ false
            → K.eq key.now piece.now.kept.key ≡ true
            → W.weighs (core_of self.now).weighter piece.now.kept.key piece.now.kept.value result }
    {
        if !(*key == *piece.key()) || self.shards[self.shard_index(hash)].knows(hash, piece) {
            return 0;
        }
        self.rules.weighter.weigh(piece.key(), piece.value())
    }
}
