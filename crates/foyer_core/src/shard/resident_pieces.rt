//! Pieces of the records in the index, and a record taken out by its piece.

ghost use Rattle.std.specs.Prelude.{◌≡◌, IfOk, IfErr, IfSome, IfNone, is_some};
ghost use Rattle.foyer_policy.specs.declared.error.Reason.TheVariants.{NoMemory};

use super::Shard;
use crate::entry::Left;
use crate::finder::Finder;
use crate::piece::Piece;
use foyer_policy::{Eviction, Key, Properties, Result, Value};
use std::alloc::Global;

impl<E: Eviction, K: Key, V: Value, P: Properties, N: Drop, R: Drop, I: Finder<K>> Shard<
    E,
    K,
    V,
    P,
    N,
    R,
    I,
> {
    ghost use Rattle.foyer_core.specs.Shards.{state_of, meaning_of, opens_of};
    ghost use Rattle.foyer_core.specs.Bulk.{TakesRecordOut};
    ghost use Rattle.foyer_core.specs.ResidentPieces.{ArePieces, is_resident};

    /// Returns a piece of each record in the index, expired or not, in the policy's order.
    ///
    /// # Errors
    /// F7 if memory runs out; nothing has changed.
    pub fn pieces(&self, alloc: Global) -> Result<Vec<Piece<K, V, P>>>
        ensures pieces { IfOk result (λ pieces. ArePieces (meaning_of self.now) (state_of self.now) pieces.items) }
        ensures refused { IfErr result (λ e. e ≡ NoMemory) }
    {
        self.store.pieces(alloc)
    }

    /// Returns whether the piece's record is in the index. Takes no memory.
    pub fn has_piece(&self, piece: &Piece<K, V, P>) -> bool
        ensures { result ≡ is_resident (state_of self.now) piece.now }
    {
        self.store.has_piece(piece)
    }

    /// Takes the piece's record out of the index, if it is still there, and returns it: a `Remove` for the caller to
    /// tell. It takes no memory, and makes no handle.
    ///
    /// The record is found by the piece's number and id alone, so the caller passes a piece to the shard of its hash.
    pub fn remove_piece(&mut self, piece: &Piece<K, V, P>) -> Option<Left<K, V, P>>
        ensures resident { is_some result ≡ is_resident (state_of self.old) piece.now }
        ensures removed { IfSome result (λ left. TakesRecordOut (meaning_of self.old) (state_of self.old) piece.now.id left (state_of self.new)) }
        ensures none { IfNone result (state_of self.new ≡ state_of self.old) }
        ensures opens { opens_of self.new ≡ opens_of self.old }
    {
        self.store.remove_piece(piece)
    }
}
