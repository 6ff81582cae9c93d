//! How a record is entered in index and policy, once there is room.

ghost use Rattle.std.specs.Prelude.{◌≡◌, ℕ, ◌+◌, ◌<◌, ◌≤◌, ◌^◌, Some, None, IfSome, IfNone, IsSome, IsSomeAnd, max, nat_eq, true, false};
ghost use Rattle.std.specs.Option.{ForSome};
ghost use Rattle.std.specs.Map.{update};
ghost use Rattle.foyer_policy.specs.Policy.{without};
ghost use Rattle.foyer_policy.specs.Properties.{is_phantom};
ghost use Rattle.foyer_policy.specs.declared.types.Item.{Item};
ghost use Rattle.foyer_core.specs.Values.{Kept, Rec, incoming_of};
ghost use Rattle.foyer_core.specs.Steps.{outside};
ghost use Rattle.foyer_core.specs.Table.{rec_of, slot_outside};
ghost use Rattle.foyer_core.specs.Records.{slot_in, record_in, number_of, slot_to, HasRoom};

use super::Store;
use crate::entry::Left;
use crate::finder::Finder;
use crate::records::Records;
use crate::slot::Slot;
use foyer_policy::{Eviction, Hint, Item, Key, Place, Properties, Value};

impl<E: Eviction, K: Key, V: Value, P: Properties, I: Finder<K>> Store<E, K, V, P, I> {
    ghost use Rattle.foyer_core.specs.Stores.{state_of, meaning_of, HasPlaces};
    ghost use Rattle.foyer_core.specs.State.{key_of, usage_of};
    ghost use Rattle.foyer_core.specs.Steps.{GivesWay, Admits, HasId};

    // Enters a record, for which there is room, in place of what is held under its id, and removes its key's record.
    // Returns nothing if the index has no room; nothing has changed.
    #[inline(always)]
    pub(super) fn admit(&mut self, slot: Slot<K, V, P>) -> Option<(usize, Option<Left<K, V, P>>)>
        requires room { HasRoom self.old.records }
        requires places { HasPlaces self.old }
        requires clones { (k c : K) → K.is_clone k c → K.eq c k ≡ true }
        requires plain { is_phantom (P.phantom_of slot.kept.properties) ≡ false }
        requires coming { slot ≡ record slot { resident = true } }
        requires out { (r : Rec K V P) → (state_of self.old).records slot.id ≡ Some r → r.resident ≡ false }
        requires number { HasId (state_of self.old) slot.id }
        requires held { 0 < slot.handles }
        requires handles { slot.handles ≤ self.old.limits.handles }
        requires fits { (b : _) (last : _) → GivesWay (meaning_of self.old)
            ((state_of self.old).index (key_of slot.kept)) (state_of self.old) b last
            → usage_of (meaning_of self.old) last + slot.kept.weight < 2 ^ 64 }
        ensures admitted { IfSome result (λ made. Admits (meaning_of self.old) (state_of self.old) (incoming_of slot) made.1 (state_of self.new)) }
        ensures none { IfNone result (state_of self.new ≡ state_of self.old) }
        ensures granted { I.has_room self.old.index (slot_to self.old.records (number_of self.old.records slot.id)) → IsSome result }
    {
        let hash = slot.hash();
        let weight = slot.weight();
        let hint = slot.properties().hint().unwrap_or(Hint::Normal);
        let expires = slot.properties().expiry();
        let id = slot.id();
        let key = slot.key();
        let was = self.slot_under(hash, key);
        let stands = self.stands(id);
        let number = self.records.slot_for(stands);
        let Ok(()) = self.index.put(hash, key, was, number) else {
            return None;
        };
        let _ = self.records.put(slot, stands);
        let (gone, replaced) = give_way(&mut self.eviction, &mut self.records, self.number, was);
        self.usage -= gone;
        self.entries -= replaced.is_some() as u64;
        let item = Item {
            id,
            hash,
            weight,
            hint,
            expires,
        };
        self.eviction.push_at(Place::at(number), item);
        self.usage += weight;
        self.entries += 1;
        self.next = above(self.next, id);
        Some((number, replaced))
    }

    // The slot of an id. An id that wasn't given has none.
    #[inline(always)]
    pub(super) fn stands(&self, id: u64) -> Option<usize>
        ensures { result ≡ number_of self.now.records id }
    {
        if id >= self.next {
            return None;
        }
        self.records.stands(id)
    }
}

// The next number once this id is used.
#[inline(always)]
pub(super) fn above(next: u64, id: u64) -> u64
    requires { id + 1 < 2 ^ 64 }
    ensures { result ≡ max next (id + 1) }
{
    if id < next { next } else { id + 1 }
}

// Removes the record that a key had, if it had one: returns its weight and what leaves, in the core of this number.
#[inline(always)]
fn give_way<E: Eviction, K: Drop, V: Drop, P: Drop>(
    eviction: &mut E,
    records: &mut Records<K, V, P>,
    number: u64,
    was: Option<usize>,
) -> (usize, Option<Left<K, V, P>>)
    requires { ForSome was (λ n. IsSomeAnd (slot_in records.old n) (λ s. s.resident ≡ true) × IsSome (E.at eviction.old n)) }
    ensures none { was ≡ None → (result ≡ (0, None)) × (E.view eviction.new ≡ E.view eviction.old) }
    ensures none_slots { was ≡ None → (n : ℕ) → slot_in records.new n ≡ slot_in records.old n }
    ensures none_records { was ≡ None → (id : ℕ) → record_in records.new id ≡ record_in records.old id }
    ensures none_places { was ≡ None → (p : ℕ) → E.at eviction.new p ≡ E.at eviction.old p }
    ensures some { (n : ℕ) (s : Kept K V P) (i : Item) → was ≡ Some n → slot_in records.old n ≡ Some s
        → E.at eviction.old n ≡ Some i → (result ≡ (
          i.weight,
          Some
              record { number = number; id = s.id; kept = s.kept },
        ))
        × (E.view eviction.new ≡ E.model.remove (E.view eviction.old) i.id) }
    ensures some_slots { (n : ℕ) (s : Kept K V P) → was ≡ Some n → slot_in records.old n ≡ Some s → (q : ℕ)
        → slot_in records.new q ≡ update nat_eq (slot_in records.old) n (slot_outside s) q }
    ensures some_records { (n : ℕ) (s : Kept K V P) → was ≡ Some n → slot_in records.old n ≡ Some s → (id : ℕ)
        → record_in records.new id ≡ update nat_eq (record_in records.old) s.id (outside (rec_of s)) id }
    ensures some_places { (n : ℕ) (s : Kept K V P) (i : Item) → was ≡ Some n → slot_in records.old n ≡ Some s
        → E.at eviction.old n ≡ Some i → (p : ℕ) → E.at eviction.new p ≡ without i.id (E.at eviction.old p) }
    ensures span { E.span eviction.new ≡ E.span eviction.old }
{
    let Some(slot) = was else {
        return (0, None);
    };
    let (weight, left) = leave_way(eviction, records, number, slot);
    (weight, Some(left))
}

// Removes the record in a slot: returns its weight and what leaves, in the core of this number.
#[cold]
#[inline(never)]
fn leave_way<E: Eviction, K: Drop, V: Drop, P: Drop>(
    eviction: &mut E,
    records: &mut Records<K, V, P>,
    number: u64,
    slot: usize,
) -> (usize, Left<K, V, P>)
    requires resident { IsSomeAnd (slot_in records.old slot) (λ s. s.resident ≡ true) }
    requires there { IsSome (E.at eviction.old slot) }
    ensures gone { (s : Kept K V P) (i : Item) → slot_in records.old slot ≡ Some s → E.at eviction.old slot ≡ Some i
        → (result ≡ (i.weight, record { number = number; id = s.id; kept = s.kept }))
        × (E.view eviction.new ≡ E.model.remove (E.view eviction.old) i.id) }
    ensures slots { (s : Kept K V P) → slot_in records.old slot ≡ Some s → (q : ℕ)
        → slot_in records.new q ≡ update nat_eq (slot_in records.old) slot (slot_outside s) q }
    ensures records { (s : Kept K V P) → slot_in records.old slot ≡ Some s → (id : ℕ)
        → record_in records.new id ≡ update nat_eq (record_in records.old) s.id (outside (rec_of s)) id }
    ensures places { (i : Item) → E.at eviction.old slot ≡ Some i → (p : ℕ)
        → E.at eviction.new p ≡ without i.id (E.at eviction.old p) }
    ensures span { E.span eviction.new ≡ E.span eviction.old }
{
    let item = eviction.remove(Place::at(slot));
    (item.weight, records.leave(slot, number))
}
