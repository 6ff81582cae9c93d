//! Pieces of a core's resident records, and a record taken out by its piece.

ghost use Rattle.std.specs.Prelude.{◌≡◌, [], IfNone, IfOk, IfErr, IfSome, IsSomeAnd, MatchOption, is_some, slice_get};
ghost use Rattle.foyer_policy.specs.declared.error.Reason.TheVariants.{NoMemory};

use super::CacheCore;
use super::load::Load;
use crate::entry::Left;
use crate::filter::Filter;
use crate::finder::Finder;
use crate::piece::Piece;
use crate::weighter::Weighter;
use foyer_policy::{Eviction, HashBuilder, Key, Properties, Result, Value};

impl<
    E: Eviction,
    K: Key,
    V: Value,
    P: Properties,
    S: HashBuilder,
    W: Weighter<K, V>,
    A: Filter<K, V>,
    N: Drop,
    R: Drop,
    I: Finder<K>,
> CacheCore<E, K, V, P, S, W, A, N, R, I> {
    ghost use Rattle.foyer_core.specs.Bulk.{TakesRecordOut};
    ghost use Rattle.foyer_core.specs.Core.{AtShard, shard_at};
    ghost use Rattle.foyer_core.specs.Cores.{core_of, fetches_of, meaning_of_core};
    ghost use Rattle.foyer_core.specs.ResidentPieces.{ArePieces, is_resident};

    /// Returns a piece of each resident record of one shard, expired or not, in the policy's order, or none if there is no
    /// such shard.
    ///
    /// # Errors
    /// F7 if memory runs out.
    pub fn pieces(&self, shard: usize) -> Result<Vec<Piece<K, V, P>>>
        ensures pieces { IfOk result (λ pieces. MatchOption (slice_get (core_of self.now).shards shard) (pieces.items ≡ [])
            (λ s. ArePieces (meaning_of_core self.now) s pieces.items)) }
        ensures refused { IfErr result (λ e. e ≡ NoMemory) }
    {
        match self.shards.get(shard) {
            Some(shard) => shard.pieces(self.alloc),
            None => Ok(Vec::new(self.alloc)),
        }
    }

    /// Returns whether the piece's record is resident in the shard of its hash. Takes no memory.
    pub fn has_piece(&self, piece: &Piece<K, V, P>) -> bool
        ensures { IsSomeAnd (shard_at (core_of self.now) piece.now.kept.hash) (λ s. result ≡ is_resident s piece.now) }
    {
        self.shards[self.shard_index(piece.hash())].has_piece(piece)
    }

    /// Removes the piece's record if it is resident in the shard of its hash, and returns it: a `Remove` for the caller
    /// to tell. Takes no memory, and makes no entry.
    pub fn remove_piece(&mut self, piece: &Piece<K, V, P>) -> Option<Left<K, V, P>>
        ensures resident { IsSomeAnd (shard_at (core_of self.old) piece.now.kept.hash) (λ s. is_some result ≡ is_resident s piece.now) }
        ensures removed { IfSome result (λ left. AtShard (λ s t. TakesRecordOut (meaning_of_core self.old) s piece.now.id left t)
            piece.now.kept.hash (core_of self.old) (core_of self.new)) }
        ensures none { IfNone result (core_of self.new ≡ core_of self.old) }
        ensures fetches { fetches_of self.new ≡ fetches_of self.old }
    {
        let place = self.shard_index(piece.hash());
        let before = Load::of(&self.shards[place]);
        let removed = self.shards[place].remove_piece(piece);
        let after = Load::of(&self.shards[place]);
        self.load.replace(before, after);
        removed
    }
}
