//! The trait of eviction policies.

ghost use Rattle.std.specs.Prelude.{◌≡◌, ◌≢◌, ◌↔◌, ℕ, ◌+◌, ◌<◌, ◌≤◌, ◌^◌, Option, Some, None, Ok, Err, OnOk, OnErr, IfOk, IfErr, IfSome, IfNone, IsSome, IsTrue, IsOk, option_and_then, option_map};
ghost use Rattle.std.specs.Option.{option_copied};
ghost use Rattle.foyer_policy.specs.Items.{weight_of, count_of, find_id, IsNewIn};
ghost use Rattle.foyer_policy.specs.Limit.{ok_unless};
ghost use Rattle.foyer_policy.specs.Moments.{first_due, is_due};
ghost use Rattle.foyer_policy.specs.Policy.{Policy, IsPolicy, Pops, refusal_in, without};
ghost use Rattle.foyer_policy.specs.declared.types.Item.{Item};
ghost use Rattle.foyer_policy.specs.declared.error.Reason.{Reason};
ghost use Rattle.foyer_policy.specs.declared.error.Reason.TheVariants.{NoMemory};

use crate::error::Result;
use crate::lists::Place;
use crate::queued::item_found;
use crate::types::Item;
use std::alloc::Global;

/// An eviction policy: holds an [`Item`] for each resident record at a [`Place`], and says which leaves next.
///
/// Contracts see a policy's abstract `view`, and what each call makes of it by the policy's `model`, which meets the
/// laws of `IsPolicy`. A `Place` that is passed must have an item.
pub trait Eviction: Drop {
    /// The policy's configuration.
    type Config: Drop;

    ghost View: { Type 0 };

    // what each call makes of a view
    ghost model: { Policy View Self.Config };

    ghost view: { Self → View };

    // the item at a place
    ghost at: { Self → ℕ → Option Item };

    // for how many pushes there is room
    ghost room: { Self → ℕ };

    // how many nodes there are, with items or free: each place is below it
    ghost span: { Self → ℕ };

    // there is room for a `clear`
    ghost can_clear: { Self → Type 0 };

    // a pop may need memory now, as in a policy that remembers what it evicted
    ghost pop_wants_memory: { Self → Type 0 };

    // how many readings the last pop made
    ghost looked: { Self → ℕ };

    /// Checks a configuration, for every capacity alike. Takes no memory.
    ///
    /// # Errors
    /// F2 to F6 for the first fault. `new` and `update` fail with the same, and with no other fault.
    fn check(config: &Self::Config) -> Result<()>
        ensures { result ≡ ok_unless (model.fault config.now) };

    /// Creates an empty policy.
    ///
    /// # Errors
    /// F2 to F6 for the configuration's first fault, then F7 if memory runs out.
    fn new(alloc: Global, capacity: usize, config: &Self::Config) -> Result<Self>
        ensures view { IfOk result (λ s. view s ≡ model.opening capacity config.now) }
        ensures places { IfOk result (λ s. (p : ℕ) → at s p ≡ None) }
        ensures looked { IfOk result (λ s. looked s ≡ 0) }
        ensures span { IfOk result (λ s. span s ≡ 0) }
        ensures accepted { OnOk result (model.fault config.now ≡ None) }
        ensures refused { IfSome (model.fault config.now) (λ reason. result ≡ Err reason) }
        ensures memory { IfErr result (λ e. model.fault config.now ≡ None → e ≡ NoMemory) };

    /// Returns whether a configuration is of this policy.
    fn takes(&self, config: &Self::Config) -> bool
        ensures { result ≡ model.takes (view self.now) config.now };

    /// Sets the capacity, and the configuration if one is given. Takes no memory.
    ///
    /// # Errors
    /// F17 if the configuration is of another policy, F2 to F6 for its first fault; nothing has changed.
    fn update(&mut self, capacity: usize, config: Option<&Self::Config>) -> Result<()>
        ensures accepted { refusal_in model (view self.old) (option_copied config.entry) ≡ None → IsOk result }
        ensures refused { IfSome (refusal_in model (view self.old) (option_copied config.entry)) (λ reason. result ≡ Err reason) }
        ensures view { OnOk result (view self.new ≡ model.update (view self.old) capacity (option_copied config.entry)) }
        ensures err { OnErr result (view self.new ≡ view self.old) }
        ensures places { (p : ℕ) → at self.new p ≡ at self.old p }
        ensures room { room self.old ≤ room self.new }
        ensures span { span self.new ≡ span self.old }
        ensures looked { looked self.new ≡ looked self.old };

    /// Makes room for one push, for which the span may grow.
    ///
    /// # Errors
    /// F7 if there is none and memory runs out; nothing else has changed.
    fn reserve(&mut self) -> Result<()>
        ensures room { OnOk result (0 < room self.new) }
        ensures granted { 0 < room self.old → IsOk result }
        ensures refused { IfErr result (λ e. e ≡ NoMemory) }
        ensures view { view self.new ≡ view self.old }
        ensures places { (p : ℕ) → at self.new p ≡ at self.old p }
        ensures kept { room self.old ≤ room self.new }
        ensures span { span self.old ≤ span self.new }
        ensures looked { looked self.new ≡ looked self.old };

    /// Makes nodes until there are `wanted`, so that each number below it is a place.
    ///
    /// # Errors
    /// F7 if there are fewer and memory runs out; nothing else has changed.
    fn reserve_to(&mut self, wanted: usize) -> Result<()>
        ensures enough { OnOk result (wanted ≤ span self.new) }
        ensures granted { wanted ≤ span self.old → IsOk result }
        ensures refused { IfErr result (λ e. e ≡ NoMemory) }
        ensures view { view self.new ≡ view self.old }
        ensures places { (p : ℕ) → at self.new p ≡ at self.old p }
        ensures room { room self.old ≤ room self.new }
        ensures kept { span self.old ≤ span self.new }
        ensures looked { looked self.new ≡ looked self.old };

    /// Returns the free place that `push` takes next. Needs reserved room.
    fn next_place(&self) -> Place
        requires room { 0 < room self.now }
        ensures free { at self.now result ≡ None }
        ensures within { result < span self.now };

    /// Inserts an item at a free place below the span, which the caller chooses.
    ///
    /// The id must be new, and all weights together fit a `usize`. Takes no memory.
    fn push_at(&mut self, place: Place, item: Item)
        requires within { place < span self.old }
        requires free { at self.old place ≡ None }
        requires new_id { IsNewIn item.id (model.order (view self.old)) }
        requires fits { item.weight + weight_of (model.order (view self.old)) < 2 ^ 64 }
        ensures view { view self.new ≡ model.push (view self.old) item }
        ensures here { at self.new place ≡ Some item }
        ensures others { (p : ℕ) → p ≢ place → at self.new p ≡ at self.old p }
        ensures span { span self.new ≡ span self.old }
        ensures looked { looked self.new ≡ looked self.old };

    /// Inserts an item at the next place, and returns that.
    ///
    /// Needs reserved room; the id must be new, and all weights together fit a `usize`. Takes no memory.
    #[inline(always)]
    fn push(&mut self, item: Item) -> Place
        requires room { 0 < room self.old }
        requires new_id { IsNewIn item.id (model.order (view self.old)) }
        requires fits { item.weight + weight_of (model.order (view self.old)) < 2 ^ 64 }
        ensures view { view self.new ≡ model.push (view self.old) item }
        ensures here { at self.new result ≡ Some item }
        ensures was_free { at self.old result ≡ None }
        ensures within { result < span self.new }
        ensures others { (p : ℕ) → p ≢ result → at self.new p ≡ at self.old p }
        ensures span { span self.new ≡ span self.old }
        ensures looked { looked self.new ≡ looked self.old }
    {
        let place = self.next_place();
        self.push_at(place, item);
        place
    }

    /// Removes the victim and returns it with its place, or `None` if every item is pinned.
    ///
    /// # Errors
    /// F7 if memory runs out, only in a policy that remembers what it evicted; nothing has changed.
    fn pop_at(&mut self) -> Result<Option<(Place, Item)>>
        ensures stood { IfOk result (λ found. IfSome found (λ e. at self.old e.0 ≡ Some e.1)) }
        ensures pops { IfOk result (λ found. Pops model (view self.old) (option_map (λ e. e.1) found) (view self.new)) }
        ensures places { IfOk result (λ found. IfSome found (λ e. (p : ℕ)
            → at self.new p ≡ without e.1.id (at self.old p))) }
        ensures none { IfOk result (λ found. IfNone found ((p : ℕ) → at self.new p ≡ at self.old p)) }
        ensures looked { OnOk result (looked self.new ≡ model.looks (view self.old)) }
        ensures room { room self.old ≤ room self.new }
        ensures span { span self.new ≡ span self.old }
        ensures refused { IfErr result (λ e. e ≡ NoMemory) }
        ensures granted { OnErr result (pop_wants_memory self.old) }
        ensures err_view { OnErr result (view self.new ≡ view self.old) }
        ensures err_places { OnErr result ((p : ℕ) → at self.new p ≡ at self.old p) }
        ensures err_looked { OnErr result (looked self.new ≡ looked self.old) };

    /// Removes the victim and returns it, as `pop_at` does, without its place.
    #[inline(always)]
    fn pop(&mut self) -> Result<Option<Item>>
        ensures pops { IfOk result (λ found. Pops model (view self.old) found (view self.new)) }
        ensures places { IfOk result (λ found. IfSome found (λ i. (p : ℕ) → at self.new p ≡ without i.id (at self.old p))) }
        ensures none { IfOk result (λ found. IfNone found ((p : ℕ) → at self.new p ≡ at self.old p)) }
        ensures looked { OnOk result (looked self.new ≡ model.looks (view self.old)) }
        ensures room { room self.old ≤ room self.new }
        ensures span { span self.new ≡ span self.old }
        ensures refused { IfErr result (λ e. e ≡ NoMemory) }
        ensures granted { OnErr result (pop_wants_memory self.old) }
        ensures err_view { OnErr result (view self.new ≡ view self.old) }
        ensures err_places { OnErr result ((p : ℕ) → at self.new p ≡ at self.old p) }
        ensures err_looked { OnErr result (looked self.new ≡ looked self.old) }
    {
        Ok(item_found(self.pop_at()?))
    }

    /// Removes the item at a place and returns it. Takes no memory.
    fn remove(&mut self, place: Place) -> Item
        requires { IsSome (at self.old place) }
        ensures item { at self.old place ≡ Some result }
        ensures member { find_id result.id (model.order (view self.old)) ≡ Some result }
        ensures view { view self.new ≡ model.remove (view self.old) result.id }
        ensures places { (p : ℕ) → at self.new p ≡ without result.id (at self.old p) }
        ensures room { room self.old ≤ room self.new }
        ensures span { span self.new ≡ span self.old }
        ensures looked { looked self.new ≡ looked self.old };

    /// Makes room for a `clear`.
    ///
    /// # Errors
    /// F7 if memory runs out, only in a policy that remembers what it evicted; nothing else has changed.
    fn reserve_clear(&mut self) -> Result<()>
        ensures can_clear { OnOk result (can_clear self.new) }
        ensures refused { IfErr result (λ e. e ≡ NoMemory) }
        ensures granted { OnErr result (pop_wants_memory self.old) }
        ensures view { view self.new ≡ view self.old }
        ensures places { (p : ℕ) → at self.new p ≡ at self.old p }
        ensures kept { room self.old ≤ room self.new }
        ensures span { span self.new ≡ span self.old }
        ensures looked { looked self.new ≡ looked self.old };

    /// Removes all items. Needs the room of `reserve_clear`, and takes no memory.
    fn clear(&mut self)
        requires { can_clear self.old }
        ensures view { view self.new ≡ model.clear (view self.old) }
        ensures places { (p : ℕ) → at self.new p ≡ None }
        ensures room { room self.old ≤ room self.new }
        ensures span { span self.new ≡ span self.old }
        ensures looked { looked self.new ≡ 0 };

    /// Tells the policy that the item at a place was used. Takes no memory.
    fn acquire(&mut self, place: Place)
        requires { IsSome (at self.old place) }
        ensures view { IfSome (at self.old place) (λ i. view self.new ≡ model.acquire (view self.old) i.id) }
        ensures places { (p : ℕ) → at self.new p ≡ at self.old p }
        ensures room { room self.old ≤ room self.new }
        ensures span { span self.new ≡ span self.old }
        ensures looked { looked self.new ≡ looked self.old };

    /// Tells the policy that the item at a place has no handle left. Takes no memory.
    fn release(&mut self, place: Place)
        requires { IsSome (at self.old place) }
        ensures view { IfSome (at self.old place) (λ i. view self.new ≡ model.release (view self.old) i.id) }
        ensures places { (p : ℕ) → at self.new p ≡ at self.old p }
        ensures room { room self.old ≤ room self.new }
        ensures span { span self.new ≡ span self.old }
        ensures looked { looked self.new ≡ looked self.old };

    /// Reads what `acquire` and `release` will change, and returns true.
    ///
    /// A caller that is about to count shares of the record calls this first: after a locked count, each of these
    /// reads would wait for memory by itself. A policy in which a use changes nothing reads nothing.
    #[inline(always)]
    fn look_ahead(&self, place: Place) -> bool
        requires { IsSome (at self.now place) }
        ensures { IsTrue result }
    {
        let _ = place;
        true
    }

    /// Returns the places of two items that may leave next, so that the caller can read their records ahead. It is
    /// only a hint, and a policy may return none.
    #[inline(always)]
    fn ahead(&self) -> (Option<Place>, Option<Place>)
        ensures first { IfSome result.0 (λ p. IsSome (at self.now p)) }
        ensures second { IfSome result.1 (λ p. IsSome (at self.now p)) }
    {
        (None, None)
    }

    /// Returns the place of the first item in the policy's order that is expired at `now` and not pinned, or `None`.
    /// Takes no memory.
    ///
    /// The policies of this crate find it in steps that grow with the logarithm of how many items expire, and at once
    /// if none does. They walk along their order as long as `reserve` has made no room for that: until its next call
    /// after an item that expires was inserted, while memory is refused, and for places from 2^32 - 1 on.
    fn expired(&self, now: u64) -> Option<Place>
        ensures there { IfSome result (λ p. IsSome (at self.now p)) }
        ensures first { option_and_then (λ p. at self.now p) result ≡ first_due (is_due now) model (view self.now) };

    /// Returns the number of nodes, with items or free. Every place is below it. It only grows, by `reserve` and
    /// `reserve_to`.
    fn span(&self) -> usize
        ensures span { result ≡ span self.now }
        ensures within { (p : ℕ) → IsSome (at self.now p) → p < span self.now };

    /// Returns the item at a place.
    fn item(&self, place: Place) -> Item
        requires { IsSome (at self.now place) }
        ensures { at self.now place ≡ Some result };

    /// Returns all items, in the policy's order.
    ///
    /// # Errors
    /// F7 if memory runs out.
    fn order(&self) -> Result<Vec<Item>>
        ensures items { IfOk result (λ items. items.items ≡ model.order (view self.now)) }
        ensures refused { IfErr result (λ e. e ≡ NoMemory) };

    /// Returns the sum of the weights of the pinned items.
    fn pinned_weight(&self) -> usize
        ensures { result ≡ weight_of (model.pinned (view self.now)) };

    /// Returns whether the item at a place is pinned.
    fn is_pinned(&self, place: Place) -> bool
        requires { IsSome (at self.now place) }
        ensures { IfSome (at self.now place) (λ i. IsTrue result ↔ (0 < count_of i.id (model.pinned (view self.now)))) };

    /// Returns how many readings the last `pop` made: 0 before any, after one that returned none, and after `clear`.
    fn looks(&self) -> u128
        ensures { result ≡ looked self.now };

    ghost lawful: { IsPolicy model };
}
