//! Evictions.

ghost use Rattle.std.specs.Prelude.{◌≡◌, ◌<◌, Some, None, OnOk, OnErr, IfOk, IfErr, IfSome, IfNone, IsSome, vec_len, vec_capacity};
ghost use Rattle.foyer_policy.specs.declared.error.Reason.TheVariants.{NoMemory};
ghost use Rattle.foyer_policy.specs.declared.types.Item.{Item};
ghost use Rattle.foyer_core.specs.Records.{HasRoom};

use super::Store;
use crate::entry::{Leave, Left};
use crate::finder::Finder;
use foyer_policy::{Error, Event, Eviction, Key, Place, Properties, Reason, Result, Value};

impl<E: Eviction, K: Key, V: Value, P: Properties, I: Finder<K>> Store<E, K, V, P, I> {
    ghost use Rattle.foyer_core.specs.Stores.{state_of, meaning_of, HasPlaces};
    ghost use Rattle.foyer_core.specs.State.{at_moment};
    ghost use Rattle.foyer_core.specs.Steps.{Evicts, Evicting, EvictsOne};
    ghost use Rattle.foyer_core.specs.Bulk.{GoesOn, TakesRecordOut};

    // Evicts one record: the first that is due at `now`, or else the policy's victim.
    #[inline(always)]
    pub(super) fn evict_one(&mut self, now: u64) -> Result<Option<Left<K, V, P>>>
        ensures some { IfOk result (λ found. IfSome found (λ left.
            EvictsOne (at_moment now (meaning_of self.old)) (state_of self.old) left (state_of self.new))) }
        ensures none { IfOk result (λ found. IfNone found
            (((at_moment now (meaning_of self.old)).policy.pop (E.view self.old.eviction) ≡ None) × (state_of self.new ≡ state_of self.old))) }
        ensures err { OnErr result (state_of self.new ≡ state_of self.old) }
        ensures room { HasRoom self.old.records → HasRoom self.new.records }
        ensures places { HasPlaces self.old → HasPlaces self.new }
    {
        if let Some(place) = self.eviction.expired(now) {
            self.read_all_at(place);
            return Ok(Some(self.leave_due(place)));
        }
        self.pop_one()
    }

    // Evicts the record at this place in the policy.
    #[cold]
    #[inline(never)]
    fn leave_due(&mut self, place: Place) -> Left<K, V, P>
        requires { IsSome (E.at self.old.eviction place) }
        ensures taken { (i : Item) → E.at self.old.eviction place ≡ Some i
            → TakesRecordOut (meaning_of self.old) (state_of self.old) i.id result (state_of self.new) }
        ensures room { HasRoom self.old.records → HasRoom self.new.records }
        ensures places { HasPlaces self.old → HasPlaces self.new }
    {
        let item = self.eviction.item(place);
        self.take_out(item.id, place.number())
    }

    // Evicts the record that the policy pops.
    #[inline(always)]
    fn pop_one(&mut self) -> Result<Option<Left<K, V, P>>>
        ensures some { IfOk result (λ found. IfSome found (λ left. EvictsOne (meaning_of self.old) (state_of self.old) left (state_of self.new))) }
        ensures none { IfOk result (λ found. IfNone found ((E.model.pop (E.view self.old.eviction) ≡ None) × (state_of self.new ≡ state_of self.old))) }
        ensures err { OnErr result (state_of self.new ≡ state_of self.old) }
        ensures room { HasRoom self.old.records → HasRoom self.new.records }
        ensures places { HasPlaces self.old → HasPlaces self.new }
    {
        self.read_ahead();
        let Some(victim) = self.eviction.pop_at()? else {
            return Ok(None);
        };
        let slot = victim.0.number();
        let Some(found) = self.records.get(slot) else {
            unreachable!();
        };
        self.index.take(found.hash(), found.key(), slot);
        self.usage -= victim.1.weight;
        self.entries -= 1;
        Ok(Some(self.records.leave(slot, self.number)))
    }

    /// Evicts until the usage is at most the target, as `Shard::evict_onto` does.
    #[inline(always)]
    pub fn evict_onto(
        &mut self,
        now: u64,
        leaves: &mut Vec<Leave<K, V, P>>,
        target: usize,
    ) -> Result<()>
        ensures done { OnOk result (GoesOn leaves.old.items leaves.new.items
            (λ ls. Evicts (at_moment now (meaning_of self.old)) target (state_of self.old) ls (state_of self.new))) }
        ensures refused { OnErr result (GoesOn leaves.old.items leaves.new.items
            (λ ls. Evicting (at_moment now (meaning_of self.old)) target (state_of self.old) ls (state_of self.new))) }
        ensures reason { IfErr result (λ e. e ≡ NoMemory) }
        ensures one_more { vec_len leaves.old < vec_capacity leaves.old → vec_len leaves.new < vec_capacity leaves.new }
        ensures room { HasRoom self.old.records → HasRoom self.new.records }
        ensures places { HasPlaces self.old → HasPlaces self.new }
    {
        while self.usage > target {
            let Ok(()) = leaves.reserve(2) else {
                return Err(Error::new(Reason::NoMemory));
            };
            match self.evict_one(now) {
                Ok(Some(left)) => leaves.push_reserved((Event::Evict, left)),
                Ok(None) => return Ok(()),
                Err(_) => return Err(Error::new(Reason::NoMemory)),
            }
        }
        Ok(())
    }
}
