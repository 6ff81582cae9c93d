//! The removal of all records.

ghost use Rattle.std.specs.Prelude.{◌≡◌, ℕ, ◌+◌, ◌≤◌, [], Some, None, OnOk, IfOk, IfErr, IsSomeAnd, nat_eq, true, length, vec_len, vec_capacity};
ghost use Rattle.std.specs.Map.{update};
ghost use Rattle.foyer_policy.specs.declared.error.Reason.TheVariants.{NoMemory};
ghost use Rattle.foyer_core.specs.Indexer.{same_key};
ghost use Rattle.foyer_core.specs.State.{key_of};
ghost use Rattle.foyer_core.specs.Steps.{outside};
ghost use Rattle.foyer_core.specs.Values.{Kept};
ghost use Rattle.foyer_core.specs.Stored.{meaning};
ghost use Rattle.foyer_core.specs.Table.{rec_of, slot_outside};
ghost use Rattle.foyer_core.specs.Records.{count_in, slot_in, record_in, HasRoom};

use super::Store;
use crate::entry::{Leave, Left};
use crate::finder::Finder;
use crate::records::Records;
use foyer_policy::{Event, Eviction, Item, Key, Properties, Result, Value};

impl<E: Eviction, K: Key, V: Value, P: Properties, I: Finder<K>> Store<E, K, V, P, I> {
    ghost use Rattle.foyer_core.specs.Stores.{state_of, meaning_of};
    ghost use Rattle.foyer_core.specs.Bulk.{GoesOn, Clears, Lined, Passes};

    /// Makes room for a `clear` and returns all items, as `Shard::reserve_clear` does.
    pub fn reserve_clear(&mut self) -> Result<Vec<Item>>
        ensures same { state_of self.new ≡ state_of self.old }
        ensures can_clear { OnOk result (E.can_clear self.new.eviction) }
        ensures items { IfOk result (λ items. items.items ≡ E.model.order (state_of self.new).view) }
        ensures refused { IfErr result (λ e. e ≡ NoMemory) }
    {
        self.eviction.reserve_clear()?;
        self.eviction.order()
    }

    /// Removes all records, as `Shard::clear` does.
    pub fn clear(&mut self, items: &[Item], leaves: &mut Vec<Leave<K, V, P>>)
        requires can_clear { E.can_clear self.old.eviction }
        requires items { items.now ≡ E.model.order (state_of self.old).view }
        requires room { vec_len leaves.old + length items.now ≤ vec_capacity leaves.old }
        ensures told { GoesOn leaves.old.items leaves.new.items (λ ls. Clears (meaning_of self.old) (state_of self.old) ls (state_of self.new)) }
        ensures len { vec_len leaves.new ≡ vec_len leaves.old + length items.now }
        ensures capacity { vec_capacity leaves.new ≡ vec_capacity leaves.old }
    {
        Self::leave_all(
            &mut self.index,
            &mut self.records,
            self.number,
            items,
            leaves,
        );
        self.eviction.clear();
        self.usage = 0;
        self.entries = 0;
    }

    // Removes the records of these items from the index and their slots, in the core of this number.
    fn leave_all(
        index: &mut I,
        records: &mut Records<K, V, P>,
        number: u64,
        items: &[Item],
        leaves: &mut Vec<Leave<K, V, P>>,
    )
        requires lined { Lined (meaning K.eq E.model P.hint_of P.phantom_of P.expiry_of) number (I.view index.old) records.old items.now }
        requires room { vec_len leaves.old + length items.now ≤ vec_capacity leaves.old }
        ensures told { (o : Lined (meaning K.eq E.model P.hint_of P.phantom_of P.expiry_of) number
            (I.view index.old) records.old items.now) → GoesOn leaves.old.items leaves.new.items
            (λ ls. Passes (meaning K.eq E.model P.hint_of P.phantom_of P.expiry_of) o items.now [] ls
            (I.view index.new) records.new) }
        ensures len { vec_len leaves.new ≡ vec_len leaves.old + length items.now }
        ensures capacity { vec_capacity leaves.new ≡ vec_capacity leaves.old }
    {
        for item in items {
            let Some(slot) = records.find(item.id, 0) else {
                unreachable!();
            };
            let left = leave_slot(index, records, slot, number);
            leaves.push_reserved((Event::Clear, left));
        }
    }
}

// Removes the record in a slot, to which its key leads, from the index and the slot, in the core of this number.
#[inline(always)]
pub(super) fn leave_slot<K: Key, V: Drop, P: Drop, I: Finder<K>>(
    index: &mut I,
    records: &mut Records<K, V, P>,
    slot: usize,
    number: u64,
) -> Left<K, V, P>
    requires { IsSomeAnd (slot_in records.old slot) (λ s.
        (s.resident ≡ true) × (I.view index.old (key_of s.kept) ≡ Some slot)) }
    ensures left { (s : Kept K V P) → slot_in records.old slot ≡ Some s → result ≡ record { number = number; id = s.id; kept = s.kept } }
    ensures index { (s : Kept K V P) → slot_in records.old slot ≡ Some s → (q : ℕ × K)
        → I.view index.new q ≡ update (same_key K.eq) (I.view index.old) (key_of s.kept) None q }
    ensures slots { (s : Kept K V P) → slot_in records.old slot ≡ Some s → (q : ℕ)
        → slot_in records.new q ≡ update nat_eq (slot_in records.old) slot (slot_outside s) q }
    ensures records { (s : Kept K V P) → slot_in records.old slot ≡ Some s → (id : ℕ)
        → record_in records.new id ≡ update nat_eq (record_in records.old) s.id (outside (rec_of s)) id }
    ensures room { HasRoom records.old → HasRoom records.new }
    ensures count { count_in records.new ≡ count_in records.old }
{
    let Some(found) = records.get(slot) else {
        unreachable!();
    };
    index.take(found.hash(), found.key(), slot);
    records.leave(slot, number)
}
