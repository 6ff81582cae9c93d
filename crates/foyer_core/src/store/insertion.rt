//! Inserts of new records.

ghost use Rattle.std.specs.Prelude.{◌≡◌, ◌+◌, ◌<◌, ◌≤◌, ◌^◌, Some, None, OnOk, IfOk, IsOk, MatchOption, MatchResult, replicate, true, false, vec_len, vec_capacity};
ghost use Rattle.foyer_policy.specs.Properties.{is_phantom};
ghost use Rattle.foyer_policy.specs.declared.types.Source.{Source};
ghost use Rattle.foyer_policy.specs.declared.error.Reason.TheVariants.{NoMemory};
ghost use Rattle.foyer_core.specs.Looks.{whole};
ghost use Rattle.foyer_core.specs.Values.{Rec, incoming_of};
ghost use Rattle.foyer_core.specs.Records.{HasAllRoom, HasRoom};

use super::Store;
use crate::entry::{CoreEntry, Leave, discard_all};
use crate::finder::Finder;
use crate::outcome::{Further, Handles};
use crate::record::Data;
use crate::share::Share;
use crate::slot::Slot;
use foyer_policy::{Error, Event, Eviction, Key, Properties, Reason, Result, Source, Value};
use std::alloc::Global;

impl<E: Eviction, K: Key, V: Value, P: Properties, I: Finder<K>> Store<E, K, V, P, I> {
    ghost use Rattle.foyer_core.specs.Stores.{state_of, meaning_of, HasPlaces};
    ghost use Rattle.foyer_core.specs.State.{at_moment, is_phantom_record};
    ghost use Rattle.foyer_core.specs.Bulk.{GoesOn};
    ghost use Rattle.foyer_core.specs.Steps.{Inserts, RefusesInsert, RefusesPlain, MayBy, MayInsert, newcomer};
    ghost use Rattle.foyer_core.specs.Settled.{Settles, SettlesPlain};
    ghost use Rattle.foyer_core.specs.NoEntry.{Puts};

    /// Inserts a record as `Shard::emplace` does, and returns one handle and as many more as `further` says. Appends
    /// what leaves.
    pub(crate) fn emplace(
        &mut self,
        alloc: Global,
        now: u64,
        kept: Share<K, V, P>,
        source: Source,
        further: Further,
        leaves: &mut Vec<Leave<K, V, P>>,
    ) -> Result<Handles<K, V, P>>
        requires clones { (k c : K) → K.is_clone k c → K.eq c k ≡ true }
        requires listed { further.count + further.room < 2 ^ 64 }
        ensures inserted { GoesOn leaves.old.items leaves.new.items (λ ls. MatchResult result
            (λ made. Inserts (at_moment now (meaning_of self.old)) source (state_of self.old)
            (newcomer (state_of self.old) kept (1 + further.count)) ls made.entry (state_of self.new))
            (λ error. RefusesInsert (at_moment now (meaning_of self.old)) (state_of self.old)
            (newcomer (state_of self.old) kept (1 + further.count)) error ls (state_of self.new))) }
        ensures others { IfOk result (λ made. made.others.items ≡ replicate further.count made.entry) }
        ensures room { IfOk result (λ made. vec_len made.others + further.room ≤ vec_capacity made.others) }
    {
        if let Some(reason) = self.share_refusal(&kept, further.count) {
            return Err(Error::new(reason));
        }
        let slot = Slot::outside(kept, self.next, 1 + further.count);
        self.emplace_slot(alloc, now, slot, source, further, leaves)
    }

    /// Inserts a record of these data as `emplace` does.
    pub(crate) fn emplace_data(
        &mut self,
        alloc: Global,
        now: u64,
        kept: Data<K, V, P>,
        source: Source,
        further: Further,
        leaves: &mut Vec<Leave<K, V, P>>,
    ) -> Result<Handles<K, V, P>>
        requires clones { (k c : K) → K.is_clone k c → K.eq c k ≡ true }
        requires listed { further.count + further.room < 2 ^ 64 }
        ensures inserted { GoesOn leaves.old.items leaves.new.items (λ ls. MatchResult result
            (λ made. Inserts (at_moment now (meaning_of self.old)) source (state_of self.old)
            (newcomer (state_of self.old) kept (1 + further.count)) ls made.entry (state_of self.new))
            (λ error. RefusesInsert (at_moment now (meaning_of self.old)) (state_of self.old)
            (newcomer (state_of self.old) kept (1 + further.count)) error ls (state_of self.new))) }
        ensures others { IfOk result (λ made. made.others.items ≡ replicate further.count made.entry) }
        ensures room { IfOk result (λ made. vec_len made.others + further.room ≤ vec_capacity made.others) }
    {
        match Share::new(alloc, kept) {
            Ok(kept) => self.emplace(alloc, now, kept, source, further, leaves),
            Err(kept) => Err(self.out_of_memory(
                kept.hash,
                &kept.key,
                &kept.properties,
                kept.weight,
                further.count,
            )),
        }
    }

    /// Inserts the record of an entry as `Shard::place` does.
    #[inline(always)]
    pub(crate) fn place(
        &mut self,
        now: u64,
        kept: Share<K, V, P>,
        entry: &mut CoreEntry<K, V, P>,
        leaves: &mut Vec<Leave<K, V, P>>,
    ) -> Result<()>
        requires clones { (k c : K) → K.is_clone k c → K.eq c k ≡ true }
        requires of { entry.old.kept ≡ kept }
        ensures inserted { GoesOn leaves.old.items leaves.new.items (λ ls. MatchResult result
            (λ _. Inserts (at_moment now (meaning_of self.old)) entry.old.source (state_of self.old)
            (newcomer (state_of self.old) kept 1) ls (whole entry.new) (state_of self.new))
            (λ error. RefusesInsert (at_moment now (meaning_of self.old)) (state_of self.old)
            (newcomer (state_of self.old) kept 1) error ls (state_of self.new))) }
        ensures stays { entry.new ≡ record entry.old { number = entry.new.number; id = entry.new.id } }
    {
        if let Some(reason) = self.share_refusal(&kept, 0) {
            return Err(Error::new(reason));
        }
        let (number, id) = (self.number, self.next);
        let Some(slot) = self.insert_slot(now, Slot::outside(kept, id, 1), leaves) else {
            return Err(Error::new(Reason::NoMemory));
        };
        entry.set_place(number, id, slot);
        Ok(())
    }

    /// Inserts a record of which no entry is wanted, as `Shard::put` does.
    #[inline(always)]
    pub(crate) fn put(
        &mut self,
        now: u64,
        kept: Share<K, V, P>,
        leaves: &mut Vec<Leave<K, V, P>>,
    ) -> Result<Option<Leave<K, V, P>>>
        requires clones { (k c : K) → K.is_clone k c → K.eq c k ≡ true }
        ensures puts { GoesOn leaves.old.items leaves.new.items (λ ls. MatchResult result
            (λ last. Puts (meaning_of self.old) now (state_of self.old) (newcomer (state_of self.old) kept 1) ls last (state_of self.new))
            (λ error. RefusesInsert (at_moment now (meaning_of self.old)) (state_of self.old)
            (newcomer (state_of self.old) kept 1) error ls (state_of self.new))) }
    {
        if let Some(reason) = self.share_refusal(&kept, 0) {
            return Err(Error::new(reason));
        }
        let id = self.next;
        let Some(slot) = self.insert_slot(now, Slot::outside(kept, id, 1), leaves) else {
            return Err(Error::new(Reason::NoMemory));
        };
        match self.take_back_at(id, slot) {
            Ok(last) => Ok(last),
            Err(_) => unreachable!(),
        }
    }

    // Inserts a record that only F7 can refuse, and makes handles of it. Appends what leaves.
    #[inline(always)]
    pub(super) fn emplace_slot(
        &mut self,
        alloc: Global,
        now: u64,
        slot: Slot<K, V, P>,
        source: Source,
        further: Further,
        leaves: &mut Vec<Leave<K, V, P>>,
    ) -> Result<Handles<K, V, P>>
        requires clones { (k c : K) → K.is_clone k c → K.eq c k ≡ true }
        requires apart { slot ≡ record slot { resident = false } }
        requires out { (r : Rec K V P) → (state_of self.old).records slot.id ≡ Some r → r.resident ≡ false }
        requires number { slot.id + 1 < 2 ^ 64 }
        requires held { 0 < slot.handles }
        requires may { MayBy (meaning_of self.old) (is_phantom_record (meaning_of self.old) slot.kept) (state_of self.old) (incoming_of slot) }
        requires listed { further.count + further.room < 2 ^ 64 }
        ensures inserted { GoesOn leaves.old.items leaves.new.items (λ ls. MatchResult result
            (λ made. Inserts (at_moment now (meaning_of self.old)) source (state_of self.old) (incoming_of slot) ls made.entry (state_of self.new))
            (λ error. RefusesInsert (at_moment now (meaning_of self.old)) (state_of self.old) (incoming_of slot) error ls (state_of self.new))) }
        ensures others { IfOk result (λ made. made.others.items ≡ replicate further.count made.entry) }
        ensures room { IfOk result (λ made. vec_len made.others + further.room ≤ vec_capacity made.others) }
    {
        let Ok(others) = slot.entries(alloc, self.number, source, further) else {
            return Err(Error::new(Reason::NoMemory));
        };
        let Some(mut entry) = slot.entry(self.number, 0, source, true) else {
            discard_all(others);
            return Err(Error::new(Reason::NoMemory));
        };
        match self.insert_slot(now, slot, leaves) {
            Some(slot) => {
                entry.set_slot(slot);
                Ok(Handles { entry, others })
            }
            None => {
                entry.discard();
                discard_all(others);
                Err(Error::new(Reason::NoMemory))
            }
        }
    }

    // Inserts as `emplace_slot` does, with no entry, and returns the record's slot, or nothing if memory runs out. An entry with any
    // source would be of it.
    #[inline(always)]
    fn insert_slot(
        &mut self,
        now: u64,
        slot: Slot<K, V, P>,
        leaves: &mut Vec<Leave<K, V, P>>,
    ) -> Option<usize>
        requires clones { (k c : K) → K.is_clone k c → K.eq c k ≡ true }
        requires apart { slot ≡ record slot { resident = false } }
        requires out { (r : Rec K V P) → (state_of self.old).records slot.id ≡ Some r → r.resident ≡ false }
        requires number { slot.id + 1 < 2 ^ 64 }
        requires held { 0 < slot.handles }
        requires may { MayBy (meaning_of self.old) (is_phantom_record (meaning_of self.old) slot.kept) (state_of self.old) (incoming_of slot) }
        ensures inserted { (source : Source) → GoesOn leaves.old.items leaves.new.items (λ ls. MatchOption result
            (RefusesInsert (at_moment now (meaning_of self.old)) (state_of self.old) (incoming_of slot) NoMemory ls (state_of self.new))
            (λ _. Settles (at_moment now (meaning_of self.old)) source (state_of self.old) (incoming_of slot) ls (state_of self.new))) }
    {
        if slot.properties().phantom().unwrap_or(false) {
            return self.insert_phantom(slot, leaves);
        }
        self.insert_plain(now, slot, leaves)
    }

    // Inserts a plain record that only F7 can refuse: one with a new id, or one that comes back under its own.
    //
    // Never inlined, at a place where little is handed over: inlined with all around it, the caller would be too
    // large.
    #[inline(never)]
    fn insert_plain(
        &mut self,
        now: u64,
        mut slot: Slot<K, V, P>,
        leaves: &mut Vec<Leave<K, V, P>>,
    ) -> Option<usize>
        requires clones { (k c : K) → K.is_clone k c → K.eq c k ≡ true }
        requires plain { is_phantom (P.phantom_of slot.kept.properties) ≡ false }
        requires apart { slot ≡ record slot { resident = false } }
        requires out { (r : Rec K V P) → (state_of self.old).records slot.id ≡ Some r → r.resident ≡ false }
        requires held { 0 < slot.handles }
        requires may { MayInsert (meaning_of self.old) (state_of self.old) (incoming_of slot) }
        ensures inserted { (source : Source) → GoesOn leaves.old.items leaves.new.items (λ ls. MatchOption result
            (RefusesPlain (at_moment now (meaning_of self.old)) (state_of self.old) (incoming_of slot) NoMemory ls (state_of self.new))
            (λ _. SettlesPlain (at_moment now (meaning_of self.old)) source (state_of self.old) (incoming_of slot) ls (state_of self.new))) }
    {
        let target = self.capacity.saturating_sub(slot.weight());
        let Ok(()) = self.prepare(&mut slot, leaves) else {
            return None;
        };
        let Ok(()) = self.evict_onto(now, leaves, target) else {
            return None;
        };
        match self.admit(slot) {
            Some((place, replaced)) => {
                if let Some(left) = replaced {
                    leaves.push_reserved((Event::Replace, left));
                }
                Some(place)
            }
            None => None,
        }
    }

    // Makes room for one record and for what leaves. The slot gets the share that it leaves with.
    #[inline(always)]
    fn prepare(&mut self, slot: &mut Slot<K, V, P>, leaves: &mut Vec<Leave<K, V, P>>) -> Result<()>
        ensures same { state_of self.new ≡ state_of self.old }
        ensures slot { OnOk result (slot.new ≡ record slot.old { resident = true }) }
        ensures leaves { leaves.new.items ≡ leaves.old.items }
        ensures leaves_room { OnOk result (vec_len leaves.new < vec_capacity leaves.new) }
        ensures room { OnOk result (HasRoom self.new.records) }
        ensures places { OnOk result (HasPlaces self.new) }
    {
        self.make_room(leaves)?;
        slot.come_in()
    }

    // Makes room for one record and for what leaves. F7 only if there wasn't all of it.
    #[inline(always)]
    fn make_room(&mut self, leaves: &mut Vec<Leave<K, V, P>>) -> Result<()>
        ensures same { state_of self.new ≡ state_of self.old }
        ensures leaves { leaves.new.items ≡ leaves.old.items }
        ensures leaves_room { OnOk result (vec_len leaves.new < vec_capacity leaves.new) }
        ensures room { OnOk result (HasRoom self.new.records) }
        ensures places { OnOk result (HasPlaces self.new) }
        ensures granted { HasAllRoom self.old.records → HasPlaces self.old → vec_len leaves.old + 2 ≤ vec_capacity leaves.old → IsOk result }
    {
        self.records.reserve()?;
        let Some(places) = self.records.count().checked_add(1) else {
            // The span is a `usize`, and so not above the count.
            let _ = self.eviction.span();
            return Err(Error::new(Reason::NoMemory));
        };
        self.eviction.reserve_to(places)?;
        // Mostly one leaves, and one more may be replaced.
        leaves.reserve(2)?;
        Ok(())
    }
}
