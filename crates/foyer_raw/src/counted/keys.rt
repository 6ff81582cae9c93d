//! Calls on a key, an entry or a piece.

ghost use Rattle.std.specs.Prelude.{◌≡◌, ◌≢◌, ◌↔◌, ◌⊎◌, Err, IfErr, IfNone, IfOk, IfSome, IsTrue, OnErr, false, is_some, true};
ghost use Rattle.std.specs.Fn.{FnOnceReturnsAt};
ghost use Rattle.foyer_policy.specs.Moments.{is_expired};
ghost use Rattle.foyer_policy.specs.declared.error.Reason.TheVariants.{Handles, NoMemory};
ghost use Rattle.foyer_core.specs.Bulk.{TakesRecordOut};
ghost use Rattle.foyer_core.specs.Looks.{IfHit, look_of, look_whole};
ghost use Rattle.foyer_core.specs.NoEntry.{Deletes, Peeks, Reads, SeesLive, is_found};
ghost use Rattle.foyer_core.specs.Questions.{MayGet};
ghost use Rattle.foyer_core.specs.ResidentPieces.{ArePieces, is_resident};
ghost use Rattle.foyer_core.specs.State.{handles_in, hit};
ghost use Rattle.foyer_core.specs.Steps.{ClonesHandle, Gets, GivesBack, IsOutdated, Removes, Touches};
ghost use Rattle.foyer_raw.specs.Counts.{first_look_counted, leaves_counted, look_up_counted};
ghost use Rattle.foyer_raw.specs.Told.{IsOf, deleted, removed, taken_out};

use super::counts::{count_deleted, count_first_look, count_look_up, count_removed, count_touch};
use super::{At, CountedShard, FIRST, Hashed};
use foyer_core::{CoreEntry, Counted, Finder, Foreign, Got, Leave, Left, Piece};
use foyer_policy::{Error, Event, Eviction, Key, Properties, Reason, Result, Value};
use std::alloc::Global;

impl<E: Eviction, K: Key, V: Value, P: Properties, R: Drop, I: Finder<K>> CountedShard<
    E,
    K,
    V,
    P,
    R,
    I,
> {
    ghost use Rattle.foyer_core.specs.Shards.{state_of, meaning_of, opens_of};

    /// Looks a key up at a time, and counts a hit or a miss. The entry has no share for `left`.
    #[inline(always)]
    pub fn get(&mut self, now: At, key: Hashed<'_, K>) -> Got<K, V, P>
        ensures gets { Gets (meaning_of self.old.shard) now.0 (state_of self.old.shard) key.entry (look_whole result) (state_of self.new.shard) }
        ensures asked { IfHit result (λ e. K.eq key.entry.1 e.kept.key ≡ true) }
        ensures live { IfHit result (λ e. is_expired now.0 (P.expiry_of e.kept.properties) ≡ false) }
        ensures opens { opens_of self.new.shard ≡ opens_of self.old.shard }
        ensures counts { self.new.stats ≡ look_up_counted (is_found (look_of result)) self.old.stats }
    {
        let found = self.shard.look_up(now.0, key.hash, key.key, false);
        count_look_up(&mut self.stats, &found);
        found
    }

    /// Looks a key up as `get` does. A miss isn't counted, since another look-up follows it.
    pub fn get_first(&mut self, now: At, key: Hashed<'_, K>) -> Got<K, V, P>
        ensures gets { Gets (meaning_of self.old.shard) now.0 (state_of self.old.shard) key.entry (look_whole result) (state_of self.new.shard) }
        ensures asked { IfHit result (λ e. K.eq key.entry.1 e.kept.key ≡ true) }
        ensures live { IfHit result (λ e. is_expired now.0 (P.expiry_of e.kept.properties) ≡ false) }
        ensures opens { opens_of self.new.shard ≡ opens_of self.old.shard }
        ensures counts { self.new.stats ≡ first_look_counted (is_found (look_of result)) self.old.stats }
    {
        let found = self.shard.look_up(now.0, key.hash, key.key, false);
        count_first_look(&mut self.stats, &found);
        found
    }

    /// Counts a use of what the key hits at a time, and a hit or a miss. Returns what `look` makes of the value.
    #[inline(always)]
    pub fn read<X, F: FnOnce(&V) -> X>(
        &mut self,
        now: At,
        key: Hashed<'_, K>,
        look: F,
    ) -> Result<Option<X>>
        requires callable { F.IsAlwaysCallable look }
        ensures reads { Reads (meaning_of self.old.shard) now.0 (state_of self.old.shard) key.entry
            (FnOnceReturnsAt F.FnOnce look) result (state_of self.new.shard) }
        ensures asked { IfOk result (λ found. IfSome found (SeesLive K.eq P.expiry_of now.0 key.entry.1 (FnOnceReturnsAt F.FnOnce look))) }
        ensures opens { opens_of self.new.shard ≡ opens_of self.old.shard }
        ensures counts { self.new.stats ≡ look_up_counted (is_found result) self.old.stats }
    {
        match self.shard.read(now.0, key.hash, key.key, look) {
            Ok(Some(seen)) => {
                self.stats.count(Counted::Hit);
                Ok(Some(seen))
            }
            Ok(None) => {
                self.stats.count(Counted::Miss);
                Ok(None)
            }
            Err(error) => Err(error),
        }
    }

    /// Returns what `look` makes of the value that the key hits at a time. Nothing is counted.
    #[inline(always)]
    pub fn peek<X, F: FnOnce(&V) -> X>(&self, now: At, key: Hashed<'_, K>, look: F) -> Option<X>
        requires callable { F.IsAlwaysCallable look }
        ensures peeks { Peeks (meaning_of self.now.shard) now.0 (state_of self.now.shard) key.entry (FnOnceReturnsAt F.FnOnce look) result }
        ensures asked { IfSome result (SeesLive K.eq P.expiry_of now.0 key.entry.1 (FnOnceReturnsAt F.FnOnce look)) }
    {
        self.shard.peek(now.0, key.hash, key.key, look)
    }

    /// Returns whether a `get` at a time finds the key, and if so counts a use of its record.
    ///
    /// # Errors
    /// F9 if the handle count would pass its limit; nothing has changed.
    pub fn touch(&mut self, now: At, key: Hashed<'_, K>) -> Result<bool>
        ensures touches { Touches (meaning_of self.old.shard) now.0 (state_of self.old.shard) key.entry result (state_of self.new.shard) }
        ensures opens { opens_of self.new.shard ≡ opens_of self.old.shard }
        ensures counts { self.new.stats ≡ look_up_counted result self.old.stats }
    {
        let found = self.shard.touch(now.0, key.hash, key.key);
        count_touch(&mut self.stats, &found);
        found
    }

    /// Returns whether a `get` at a time finds the key. Nothing is counted.
    pub fn contains(&self, now: At, key: Hashed<'_, K>) -> bool
        ensures { result ≡ is_some (hit (meaning_of self.now.shard) now.0 (state_of self.now.shard) key.entry) }
    {
        self.shard.contains(now.0, key.hash, key.key)
    }

    /// Removes the key's record, expired or not, and returns an entry of it and the record as it left (`Remove`).
    ///
    /// # Errors
    /// F9 if the handle count would pass its limit, F7 if a reference count is full; nothing has changed.
    pub fn remove(
        &mut self,
        key: Hashed<'_, K>,
    ) -> Result<Option<(CoreEntry<K, V, P>, Left<K, V, P>)>>
        ensures removes { Removes (meaning_of self.old.shard) (state_of self.old.shard) key.entry result (state_of self.new.shard) }
        ensures asked { IfOk result (λ taken. IfSome taken (λ out. K.eq key.entry.1 out.0.kept.key ≡ true)) }
        ensures opens { opens_of self.new.shard ≡ opens_of self.old.shard }
        ensures counts { self.new.stats ≡ leaves_counted P.phantom_of P.expiry_of FIRST (removed result) self.old.stats }
    {
        let taken = self.shard.remove(key.hash, key.key);
        count_removed(&mut self.stats, &taken);
        taken
    }

    /// Removes the key's record, expired or not, and returns it as it left (`Remove`). No entry is made.
    ///
    /// # Errors
    /// F9 if the handle count would pass its limit; nothing has changed.
    pub fn delete(&mut self, key: Hashed<'_, K>) -> Result<Option<Left<K, V, P>>>
        ensures deletes { Deletes (meaning_of self.old.shard) (state_of self.old.shard) key.entry result (state_of self.new.shard) }
        ensures opens { opens_of self.new.shard ≡ opens_of self.old.shard }
        ensures counts { self.new.stats ≡ leaves_counted P.phantom_of P.expiry_of FIRST (deleted result) self.old.stats }
    {
        let taken = self.shard.delete(key.hash, key.key);
        count_deleted(&mut self.stats, &taken);
        taken
    }

    /// Returns why a `get` of the key would fail whatever memory there is, for a key that is never expired: F9, or `None`.
    pub fn refuses_get(&self, key: Hashed<'_, K>) -> Option<Reason>
        ensures some { IfSome result (λ reason. (reason ≡ Handles)
            × Gets (meaning_of self.now.shard) FIRST (state_of self.now.shard) key.entry (Err Handles) (state_of self.now.shard)) }
        ensures none { IfNone result (MayGet (meaning_of self.now.shard) FIRST (state_of self.now.shard) key.entry) }
    {
        self.shard.refuses_get(FIRST, key.hash, key.key)
    }

    /// Takes an entry's handle back and returns what left with it. Then the entry must be discarded.
    #[inline(always)]
    pub fn take_back(
        &mut self,
        entry: &CoreEntry<K, V, P>,
    ) -> std::result::Result<Option<Leave<K, V, P>>, Foreign>
        ensures taken { IfOk result (λ leave. (entry.now.number ≡ (state_of self.old.shard).number)
            × GivesBack (meaning_of self.old.shard) (state_of self.old.shard) entry.now.id leave (state_of self.new.shard)) }
        ensures foreign { OnErr result ((entry.now.number ≢ (state_of self.old.shard).number) ⊎ (handles_in (state_of self.old.shard) entry.now.id ≡ 0)) }
        ensures err { OnErr result (state_of self.new.shard ≡ state_of self.old.shard) }
        ensures opens { opens_of self.new.shard ≡ opens_of self.old.shard }
        ensures counts { self.new.stats ≡ self.old.stats }
    {
        self.shard.take_back(entry)
    }

    /// Returns one more entry of the same record. It counts as a handle and not as a use.
    ///
    /// # Errors
    /// F9 if the handle count would pass its limit, F7 if a reference count is full or the shard doesn't know the entry;
    /// nothing has changed.
    pub fn clone_handle(&mut self, entry: &CoreEntry<K, V, P>) -> Result<CoreEntry<K, V, P>>
        ensures clones { IsOf (state_of self.old.shard) entry.now → ClonesHandle (state_of self.old.shard) entry.now result (state_of self.new.shard) }
        ensures foreign { ¬ IsOf (state_of self.old.shard) entry.now → (result ≡ Err NoMemory) × (state_of self.new.shard ≡ state_of self.old.shard) }
        ensures kept { IfOk result (λ clone. clone.kept ≡ entry.now.kept) }
        ensures opens { opens_of self.new.shard ≡ opens_of self.old.shard }
        ensures counts { self.new.stats ≡ self.old.stats }
    {
        if !self.shard.owns(entry) {
            return Err(Error::new(Reason::NoMemory));
        }
        self.shard.clone_handle(entry)
    }

    /// Returns how many handles the entry's record has: 0 if the shard doesn't know the entry.
    pub fn refs(&self, entry: &CoreEntry<K, V, P>) -> usize
        ensures refs { IsOf (state_of self.now.shard) entry.now → result ≡ handles_in (state_of self.now.shard) entry.now.id }
        ensures foreign { ¬ IsOf (state_of self.now.shard) entry.now → result ≡ 0 }
    {
        if !self.shard.owns(entry) {
            return 0;
        }
        self.shard.refs(entry)
    }

    /// Returns whether the entry's record is no longer resident, or the shard doesn't know the entry.
    pub fn is_outdated(&self, entry: &CoreEntry<K, V, P>) -> bool
        ensures known { IsOf (state_of self.now.shard) entry.now → (IsTrue result ↔ IsOutdated (state_of self.now.shard) entry.now.id) }
        ensures foreign { ¬ IsOf (state_of self.now.shard) entry.now → result ≡ true }
    {
        if !self.shard.owns(entry) {
            return true;
        }
        self.shard.is_outdated(entry)
    }

    /// Returns a piece of each resident record, expired or not, in the policy's order.
    ///
    /// # Errors
    /// F7 if memory runs out.
    pub fn pieces(&self, alloc: Global) -> Result<Vec<Piece<K, V, P>>>
        ensures pieces { IfOk result (λ pieces. ArePieces (meaning_of self.now.shard) (state_of self.now.shard) pieces.items) }
        ensures memory { IfErr result (λ e. e ≡ NoMemory) }
    {
        self.shard.pieces(alloc)
    }

    /// Removes a piece's record, if it is still stored.
    #[tactic(auto, using(crate::proofs::CountLemmas::leaves_counted_one))]
    pub fn remove_piece(&mut self, piece: &Piece<K, V, P>) -> Option<Left<K, V, P>>
        ensures resident { is_some result ≡ is_resident (state_of self.old.shard) piece.now }
        ensures removed { IfSome result (λ left. TakesRecordOut (meaning_of self.old.shard) (state_of self.old.shard) piece.now.id left
            (state_of self.new.shard)) }
        ensures none { IfNone result (state_of self.new.shard ≡ state_of self.old.shard) }
        ensures opens { opens_of self.new.shard ≡ opens_of self.old.shard }
        ensures counts { self.new.stats ≡ leaves_counted P.phantom_of P.expiry_of FIRST (taken_out result) self.old.stats }
    {
        let left = self.shard.remove_piece(piece)?;
        self.stats.count_left(FIRST, Event::Remove, &left);
        Some(left)
    }
}
