//! Pieces of the records in the index, and a record taken out by its piece.

ghost use Rattle.std.specs.Prelude.{◌≡◌, ◌<◌, IfOk, IfErr, IfSome, IfNone, is_some};
ghost use Rattle.foyer_policy.specs.Items.{count_of};
ghost use Rattle.foyer_policy.specs.declared.error.Reason.TheVariants.{NoMemory};

use super::Store;
use crate::entry::Left;
use crate::finder::Finder;
use crate::piece::Piece;
use foyer_policy::{Error, Eviction, Key, Properties, Reason, Result, Value};
use std::alloc::Global;

impl<E: Eviction, K: Key, V: Value, P: Properties, I: Finder<K>> Store<E, K, V, P, I> {
    ghost use Rattle.foyer_core.specs.Stores.{state_of, meaning_of};
    ghost use Rattle.foyer_core.specs.Bulk.{TakesRecordOut};
    ghost use Rattle.foyer_core.specs.ResidentPieces.{IsPieceOf, ArePieces, is_resident};

    /// Returns a piece of each record in the index, expired or not, in the policy's order. Fails only with F7.
    pub fn pieces(&self, alloc: Global) -> Result<Vec<Piece<K, V, P>>>
        ensures pieces { IfOk result (λ pieces. ArePieces (meaning_of self.now) (state_of self.now) pieces.items) }
        ensures refused { IfErr result (λ e. e ≡ NoMemory) }
    {
        let items = self.eviction.order()?;
        let mut pieces = Vec::new(alloc);
        let Ok(()) = pieces.reserve(items.len()) else {
            return Err(Error::new(Reason::NoMemory));
        };
        for item in &items {
            pieces.push_reserved(self.piece_of(item.id)?);
        }
        Ok(pieces)
    }

    // Returns a piece of the record of an id. Fails only with F7.
    fn piece_of(&self, id: u64) -> Result<Piece<K, V, P>>
        requires { 0 < count_of id (E.model.order (E.view self.now.eviction)) }
        ensures piece { IfOk result (IsPieceOf (state_of self.now) id) }
        ensures refused { IfErr result (λ e. e ≡ NoMemory) }
    {
        let Some(slot) = self.records.find(id, 0) else {
            unreachable!();
        };
        let Some(found) = self.records.get(slot) else {
            unreachable!();
        };
        let share = found.share()?;
        Ok(Piece::of_share(self.number, id, slot, share))
    }

    /// Returns whether the record of a piece is in the index. Takes no memory.
    pub fn has_piece(&self, piece: &Piece<K, V, P>) -> bool
        ensures { result ≡ is_resident (state_of self.now) piece.now }
    {
        if piece.number() != self.number {
            return false;
        }
        match self.held(piece.id(), piece.slot()) {
            Some(found) => found.is_resident(),
            None => false,
        }
    }

    /// Takes the record of a piece out, if it is in the index, and returns what left. It takes no memory.
    pub fn remove_piece(&mut self, piece: &Piece<K, V, P>) -> Option<Left<K, V, P>>
        ensures resident { is_some result ≡ is_resident (state_of self.old) piece.now }
        ensures removed { IfSome result (λ left. TakesRecordOut (meaning_of self.old) (state_of self.old) piece.now.id left (state_of self.new)) }
        ensures none { IfNone result (state_of self.new ≡ state_of self.old) }
    {
        if piece.number() != self.number {
            return None;
        }
        let slot = self.records.find(piece.id(), piece.slot())?;
        let Some(found) = self.records.get(slot) else {
            unreachable!();
        };
        if !found.is_resident() {
            return None;
        }
        Some(self.take_out(piece.id(), slot))
    }
}
