//! Why an insert fails whatever memory there is: F10, F9 and F8.

ghost use Rattle.std.specs.Prelude.{◌≡◌, ℕ, [], ◌⊎◌, ◌↔◌, ◌+◌, ◌<◌, ◌≤◌, ◌^◌, false, Some, IfSome, IfNone, IsTrue};
ghost use Rattle.foyer_policy.specs.declared.error.Reason.TheVariants.{Ids, Handles, Weight};
ghost use Rattle.foyer_policy.specs.Items.{weight_of};
ghost use Rattle.foyer_policy.specs.Properties.{is_phantom};
ghost use Rattle.foyer_core.specs.Values.{incoming_of};

use super::Store;
use crate::finder::Finder;
use crate::share::Share;
use crate::slot::Slot;
use foyer_policy::{Error, Eviction, Key, Place, Properties, Reason, Value};

impl<E: Eviction, K: Key, V: Value, P: Properties, I: Finder<K>> Store<E, K, V, P, I> {
    ghost use Rattle.foyer_core.specs.Stores.{state_of, meaning_of};
    ghost use Rattle.foyer_core.specs.State.{at_moment, is_phantom_record, pinned_beside};
    ghost use Rattle.foyer_core.specs.Steps.{HasId, LacksId, MayBy, RefusesInsert, newcomer};

    // Why a new record can't be inserted, with so many handles beside the first, whatever memory there is.
    #[inline(always)]
    pub(super) fn share_refusal(&self, kept: &Share<K, V, P>, further: usize) -> Option<Reason>
        ensures some { IfSome result (λ reason. RefusesInsert (meaning_of self.now) (state_of self.now)
            (newcomer (state_of self.now) kept.now (1 + further)) reason [] (state_of self.now)) }
        ensures none { IfNone result (MayBy (meaning_of self.now) (is_phantom_record (meaning_of self.now) kept.now)
            (state_of self.now) (newcomer (state_of self.now) kept.now (1 + further))) }
        ensures number { IfNone result (self.now.next + 1 < 2 ^ 64) }
        ensures count { IfNone result (1 + further < 2 ^ 64) }
    {
        self.new_refusal(
            kept.hash(),
            kept.key(),
            kept.properties(),
            kept.weight(),
            further,
        )
    }

    // Why a new record with these parts can't be inserted, whatever its value is.
    #[inline(always)]
    pub(crate) fn new_refusal(
        &self,
        hash: u64,
        key: &K,
        properties: &P,
        weight: usize,
        further: usize,
    ) -> Option<Reason>
        ensures some { IfSome result (λ reason. (value : V) → RefusesInsert (meaning_of self.now) (state_of self.now)
            (newcomer (state_of self.now) (record {
              key = key.now;
              value = value;
              properties = properties.now;
              hash =
                  hash;
              weight = weight;
            }) (1 + further)) reason [] (state_of self.now)) }
        ensures none { IfNone result ((value : V) → MayBy (meaning_of self.now) (is_phantom (P.phantom_of properties.now)) (state_of self.now)
            (newcomer (state_of self.now) (record { key = key.now; value = value; properties = properties.now; hash = hash; weight = weight }) (1 + further))) }
        ensures only { IfSome result (λ reason. (reason ≡ Ids) ⊎ ((reason ≡ Handles) ⊎ (reason ≡ Weight))) }
        ensures number { IfNone result (self.now.next + 1 < 2 ^ 64) }
        ensures count { IfNone result (1 + further < 2 ^ 64) }
    {
        if properties.phantom().unwrap_or(false) {
            self.hold_refusal(self.next, 0, further)
        } else {
            self.refusal(self.next, 0, further, hash, key, weight)
        }
    }

    // The error of an insert of a new record with these parts for which memory runs out: F10, F9 or F8 if it has one of
    // these, else F7.
    #[cold]
    pub(crate) fn out_of_memory(
        &self,
        hash: u64,
        key: &K,
        properties: &P,
        weight: usize,
        further: usize,
    ) -> Error
        ensures { (now : ℕ) (value : V) → RefusesInsert (at_moment now (meaning_of self.now)) (state_of self.now)
            (newcomer (state_of self.now) (record {
              key = key.now;
              value = value;
              properties = properties.now;
              hash =
                  hash;
              weight = weight;
            }) (1 + further)) result [] (state_of self.now) }
    {
        let refusal = self.new_refusal(hash, key, properties, weight, further);
        Error::new(refusal.unwrap_or(Reason::NoMemory))
    }

    // Why the record of a slot can't be inserted, with one handle more than these and so many further ones, whatever
    // memory there is.
    pub(super) fn slot_refusal(
        &self,
        slot: &Slot<K, V, P>,
        held: usize,
        further: usize,
    ) -> Option<Reason>
        ensures some { IfSome result (λ reason. RefusesInsert (meaning_of self.now) (state_of self.now)
            (record (incoming_of slot.now) { handles = held + 1 + further }) reason [] (state_of self.now)) }
        ensures none { IfNone result (MayBy (meaning_of self.now)
            (is_phantom_record (meaning_of self.now) slot.now.kept) (state_of self.now)
            (record (incoming_of slot.now) { handles = held + 1 + further })) }
        ensures number { IfNone result (slot.now.id + 1 < 2 ^ 64) }
        ensures count { IfNone result (held + 1 + further < 2 ^ 64) }
    {
        if slot.properties().phantom().unwrap_or(false) {
            self.hold_refusal(slot.id(), held, further)
        } else {
            self.refusal(
                slot.id(),
                held,
                further,
                slot.hash(),
                slot.key(),
                slot.weight(),
            )
        }
    }

    // Why a plain record can't be inserted, whatever memory there is.
    #[inline(always)]
    fn refusal(
        &self,
        id: u64,
        held: usize,
        further: usize,
        hash: u64,
        key: &K,
        weight: usize,
    ) -> Option<Reason>
        ensures ids { result ≡ Some Ids ↔ LacksId (state_of self.now) id }
        ensures handles { result ≡ Some Handles ↔ (HasId (state_of self.now) id × (self.now.limits.handles < held + 1 + further)) }
        ensures number { IfNone result (id + 1 < 2 ^ 64) }
        ensures weight { result ≡ Some Weight ↔ (HasId (state_of self.now) id
            × (held + 1 + further ≤ self.now.limits.handles)
            × (2 ^ 64 ≤ weight + pinned_beside (meaning_of self.now) (state_of self.now) (hash, key.now))) }
        ensures only { IfSome result (λ reason. (reason ≡ Ids) ⊎ ((reason ≡ Handles) ⊎ (reason ≡ Weight))) }
        ensures count { IfNone result (held + 1 + further < 2 ^ 64) }
    {
        if let Some(reason) = self.hold_refusal(id, held, further) {
            return Some(reason);
        }
        if !self.fits_beside_pinned(hash, key, weight) {
            return Some(Reason::Weight);
        }
        None
    }

    // Why a record can't have these handles, whatever memory there is.
    #[inline(always)]
    fn hold_refusal(&self, id: u64, held: usize, further: usize) -> Option<Reason>
        ensures ids { result ≡ Some Ids ↔ LacksId (state_of self.now) id }
        ensures handles { result ≡ Some Handles ↔ (HasId (state_of self.now) id × (self.now.limits.handles < held + 1 + further)) }
        ensures only { IfSome result (λ reason. (reason ≡ Ids) ⊎ (reason ≡ Handles)) }
        ensures number { IfNone result (id + 1 < 2 ^ 64) }
        ensures count { IfNone result (held + 1 + further < 2 ^ 64) }
    {
        if id >= self.next && id >= self.limits.ids {
            return Some(Reason::Ids);
        }
        if self.passes_limit(held, further) {
            return Some(Reason::Handles);
        }
        None
    }

    // Whether one handle more than these, and so many further ones, pass the limit. Their sum may pass a `usize`,
    // which the limit doesn't.
    #[inline(always)]
    pub(super) fn passes_limit(&self, held: usize, further: usize) -> bool
        ensures passes { IsTrue result ↔ (self.now.limits.handles < held + 1 + further) }
        ensures within { result ≡ false → held + 1 + further ≤ self.now.limits.handles }
        ensures count { result ≡ false → held + 1 + further < 2 ^ 64 }
    {
        let limit = self.limits.handles;
        match held.checked_add(further) {
            Some(others) => limit <= others,
            None => true,
        }
    }

    // Whether a weight and the pinned weight of other keys fit a `usize` together.
    #[inline(always)]
    fn fits_beside_pinned(&self, hash: u64, key: &K, weight: usize) -> bool
        ensures { IsTrue result ↔ (weight + pinned_beside (meaning_of self.now) (state_of self.now) (hash, key.now) < 2 ^ 64) }
    {
        let pinned = self.eviction.pinned_weight();
        weight <= usize::MAX - pinned
            || weight <= usize::MAX - (pinned - self.own_pinned(hash, key))
    }

    // The weight of a key's record, if that is pinned.
    pub(super) fn own_pinned(&self, hash: u64, key: &K) -> usize
        ensures { result + pinned_beside (meaning_of self.now) (state_of self.now) (hash, key.now) ≡ weight_of (E.model.pinned (E.view self.now.eviction)) }
    {
        let Some(slot) = self.slot_under(hash, key) else {
            return 0;
        };
        let Some(found) = self.records.get(slot) else {
            unreachable!();
        };
        let pinned = self.eviction.is_pinned(Place::at(slot));
        if pinned { found.weight() } else { 0 }
    }
}
