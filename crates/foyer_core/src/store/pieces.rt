//! Inserts of pieces.

ghost use Rattle.std.specs.Prelude.{◌≡◌, [], ◌+◌, ◌<◌, ◌≤◌, ◌^◌, Some, IfOk, IsSomeAnd, MatchResult, replicate, true, false, vec_len, vec_capacity};
ghost use Rattle.foyer_policy.specs.declared.types.Source.TheVariants.{Memory};
ghost use Rattle.foyer_core.specs.Onto.{handles_onto};
ghost use Rattle.foyer_core.specs.Records.{slot_in};
ghost use Rattle.foyer_core.specs.Values.{Carried, Kept, Rec, incoming_of};

use super::Store;
use crate::entry::Leave;
use crate::finder::Finder;
use crate::outcome::{Further, Handles};
use crate::piece::Piece;
use crate::slot::Slot;
use foyer_policy::{Error, Eviction, Key, Properties, Reason, Result, Source, Value};
use std::alloc::Global;

impl<E: Eviction, K: Key, V: Value, P: Properties, I: Finder<K>> Store<E, K, V, P, I> {
    ghost use Rattle.foyer_core.specs.Stores.{state_of, meaning_of};
    ghost use Rattle.foyer_core.specs.Bulk.{GoesOn};
    ghost use Rattle.foyer_core.specs.State.{at_moment};
    ghost use Rattle.foyer_core.specs.Steps.{Inserts, RefusesHandles, RefusesInsert};
    ghost use Rattle.foyer_core.specs.Pieces.{GainsHandles, InsertsPiece, Returns, RefusesReturn, coming_under, is_known};

    /// Returns whether a piece, whose key has this hash, stands for a record of this shard, as `Shard::knows` does.
    pub(crate) fn knows(&self, hash: u64, piece: &Piece<K, V, P>) -> bool
        ensures { result ≡ is_known (state_of self.now) hash piece.now }
    {
        piece.number() == self.number && piece.hash() == hash && piece.id() < self.next
    }

    /// Returns the hash and the key under which a piece is inserted, whose key has this hash: those of its record, if
    /// the store knows that. Takes no memory.
    pub(crate) fn key_under<'a>(&'a self, hash: u64, piece: &'a Piece<K, V, P>) -> (u64, &'a K)
        ensures hash { result.0 ≡ (coming_under (state_of self.now) hash piece.now).0 }
        ensures key { result.1.now ≡ (coming_under (state_of self.now) hash piece.now).1 }
    {
        if !self.knows(hash, piece) {
            return (hash, piece.key());
        }
        match self.held(piece.id(), piece.slot()) {
            Some(held) => (held.hash(), held.key()),
            None => (piece.hash(), piece.key()),
        }
    }

    /// Inserts the record of a piece as `Shard::emplace_piece` does, and returns one handle and as many more as
    /// `further` says.
    pub(crate) fn emplace_piece(
        &mut self,
        alloc: Global,
        now: u64,
        piece: Piece<K, V, P>,
        hash: u64,
        weight: usize,
        further: Further,
        leaves: &mut Vec<Leave<K, V, P>>,
    ) -> Result<Handles<K, V, P>>
        requires clones { (k c : K) → K.is_clone k c → K.eq c k ≡ true }
        requires listed { further.count + further.room < 2 ^ 64 }
        ensures inserted { GoesOn leaves.old.items leaves.new.items (λ ls.
            InsertsPiece (at_moment now (meaning_of self.old)) (λ w. w ≡ weight) hash piece (1 + further.count)
            (handles_onto result ls) (state_of self.old) (state_of self.new)) }
        ensures others { IfOk result (λ made. made.others.items ≡ replicate further.count made.entry) }
        ensures room { IfOk result (λ made. vec_len made.others + further.room ≤ vec_capacity made.others) }
    {
        if !self.knows(hash, &piece) {
            let slot = Slot::outside(piece.into_share().with(hash, weight), self.next, 1);
            return self.emplace_new(alloc, now, slot, further, leaves);
        }
        let id = piece.id();
        match self.records.find(id, piece.slot()) {
            Some(slot) => self.emplace_known(alloc, now, slot, further, leaves),
            None => {
                let slot = Slot::outside(piece.into_share(), id, 1);
                self.emplace_new(alloc, now, slot, further, leaves)
            }
        }
    }

    // Gives more handles to the record of a slot, and inserts it if it isn't resident.
    fn emplace_known(
        &mut self,
        alloc: Global,
        now: u64,
        slot: usize,
        further: Further,
        leaves: &mut Vec<Leave<K, V, P>>,
    ) -> Result<Handles<K, V, P>>
        requires clones { (k c : K) → K.is_clone k c → K.eq c k ≡ true }
        requires there { IsSomeAnd (slot_in self.old.records slot) (λ s. s.id < (state_of self.old).next) }
        requires listed { further.count + further.room < 2 ^ 64 }
        ensures returned { (s : Kept K V P) → slot_in self.old.records slot ≡ Some s → (piece : Carried K V P) → piece.id ≡ s.id
            → GoesOn leaves.old.items leaves.new.items (λ ls. MatchResult result
            (λ made. Returns (at_moment now (meaning_of self.old)) (state_of self.old) piece (1 + further.count) ls made.entry (state_of self.new))
            (λ error. RefusesReturn (at_moment now (meaning_of self.old)) (state_of self.old) piece (1 + further.count) error ls (state_of self.new))) }
        ensures others { IfOk result (λ made. made.others.items ≡ replicate further.count made.entry) }
        ensures room { IfOk result (λ made. vec_len made.others + further.room ≤ vec_capacity made.others) }
    {
        let Some(found) = self.records.get(slot) else {
            unreachable!();
        };
        if found.is_resident() {
            return self.hand_out(alloc, slot, further);
        }
        self.emplace_held(alloc, now, slot, further, leaves)
    }

    // Gives more handles to a resident record.
    fn hand_out(&mut self, alloc: Global, slot: usize, further: Further) -> Result<Handles<K, V, P>>
        requires there { IsSomeAnd (slot_in self.old.records slot) (λ s. s.resident ≡ true) }
        requires listed { further.count + further.room < 2 ^ 64 }
        ensures handed { (s : Kept K V P) → slot_in self.old.records slot ≡ Some s → MatchResult result
            (λ made. GainsHandles (state_of self.old) s.id (1 + further.count) [] made.entry (state_of self.new))
            (λ error. RefusesHandles (state_of self.old) s.id (1 + further.count) error (state_of self.new)) }
        ensures others { IfOk result (λ made. made.others.items ≡ replicate further.count made.entry) }
        ensures room { IfOk result (λ made. vec_len made.others + further.room ≤ vec_capacity made.others) }
    {
        let Some(found) = self.records.get(slot) else {
            unreachable!();
        };
        if self.passes_limit(found.handles(), further.count) {
            return Err(Error::new(Reason::Handles));
        }
        let Some(entry) = found.entry(self.number, slot, Source::Memory, true) else {
            return Err(Error::new(Reason::NoMemory));
        };
        let Ok(others) = found.entries(alloc, self.number, Source::Memory, further) else {
            entry.discard();
            return Err(Error::new(Reason::NoMemory));
        };
        self.records.add_handles(slot, 1 + further.count);
        Ok(Handles { entry, others })
    }

    // Inserts the record of a slot that isn't resident, or refuses it.
    fn emplace_held(
        &mut self,
        alloc: Global,
        now: u64,
        slot: usize,
        further: Further,
        leaves: &mut Vec<Leave<K, V, P>>,
    ) -> Result<Handles<K, V, P>>
        requires clones { (k c : K) → K.is_clone k c → K.eq c k ≡ true }
        requires there { IsSomeAnd (slot_in self.old.records slot) (λ s. (s.id < (state_of self.old).next) × (s.resident ≡ false)) }
        requires listed { further.count + further.room < 2 ^ 64 }
        ensures inserted { (s : Kept K V P) → slot_in self.old.records slot ≡ Some s
            → GoesOn leaves.old.items leaves.new.items (λ ls. MatchResult result
            (λ made. Inserts (at_moment now (meaning_of self.old)) Memory (state_of self.old)
            (record { id = s.id; kept = s.kept; handles = s.handles + 1 + further.count }) ls made.entry (state_of self.new))
            (λ error. RefusesInsert (at_moment now (meaning_of self.old)) (state_of self.old)
            (record { id = s.id; kept = s.kept; handles = s.handles + 1 + further.count }) error ls (state_of self.new))) }
        ensures others { IfOk result (λ made. made.others.items ≡ replicate further.count made.entry) }
        ensures room { IfOk result (λ made. vec_len made.others + further.room ≤ vec_capacity made.others) }
    {
        let Some(found) = self.records.get(slot) else {
            unreachable!();
        };
        let handles = found.handles();
        if let Some(reason) = self.slot_refusal(found, handles, further.count) {
            return Err(Error::new(reason));
        }
        let Ok(share) = found.share() else {
            return Err(Error::new(Reason::NoMemory));
        };
        let id = found.id();
        let slot = Slot::outside(share, id, handles + 1 + further.count);
        self.emplace_slot(alloc, now, slot, Source::Memory, further, leaves)
    }

    // Inserts a record that the store doesn't hold, or refuses it.
    fn emplace_new(
        &mut self,
        alloc: Global,
        now: u64,
        mut slot: Slot<K, V, P>,
        further: Further,
        leaves: &mut Vec<Leave<K, V, P>>,
    ) -> Result<Handles<K, V, P>>
        requires clones { (k c : K) → K.is_clone k c → K.eq c k ≡ true }
        requires apart { slot ≡ record slot { handles = 1; resident = false } }
        requires out { (r : Rec K V P) → (state_of self.old).records slot.id ≡ Some r → r.resident ≡ false }
        requires listed { further.count + further.room < 2 ^ 64 }
        ensures inserted { GoesOn leaves.old.items leaves.new.items (λ ls. MatchResult result
            (λ made. Inserts (at_moment now (meaning_of self.old)) Memory (state_of self.old)
            (record (incoming_of slot) { handles = 1 + further.count }) ls made.entry (state_of self.new))
            (λ error. RefusesInsert (at_moment now (meaning_of self.old)) (state_of self.old)
            (record (incoming_of slot) { handles = 1 + further.count }) error ls (state_of self.new))) }
        ensures others { IfOk result (λ made. made.others.items ≡ replicate further.count made.entry) }
        ensures room { IfOk result (λ made. vec_len made.others + further.room ≤ vec_capacity made.others) }
    {
        if let Some(reason) = self.slot_refusal(&slot, 0, further.count) {
            return Err(Error::new(reason));
        }
        slot.add_handles(further.count);
        self.emplace_slot(alloc, now, slot, Source::Memory, further, leaves)
    }
}
