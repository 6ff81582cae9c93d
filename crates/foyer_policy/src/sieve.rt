//! Sieve: one queue, a visited bit for each record, and a hand that looks for an unvisited one.

ghost use Rattle.std.specs.Prelude.{◌≡◌, ◌≢◌, ℕ, false, ◌+◌, ◌<◌, ◌≤◌, ◌^◌, [], ◌∷◌, ◌++◌, List, Some, None, IfSome, IfNone, IfOk, IsSome, IsOk, map, length, option_map, sum_by};
ghost use Rattle.foyer_policy.specs.Lists.{list_at, find, first_or, with_value, AreLists};
ghost use Rattle.foyer_policy.specs.Items.{HasIdsOnce};
ghost use Rattle.foyer_policy.specs.Policy.{Pops, without};
ghost use Rattle.foyer_policy.specs.Sieve.{hand_without, rotation, sieve, unvisited_or_first};
ghost use Rattle.foyer_policy.specs.declared.sieve.SieveConfig.{SieveConfig};
ghost use Rattle.foyer_policy.specs.SieveQueue.{view_of, entry, entries, entry_items, item_at, IsTurn};

use crate::dated_lists::DatedLists;
use crate::due::first_of_lists;
use crate::error::{Error, Reason, Result};
use crate::eviction::Eviction;
use crate::lists::Place;
use crate::queued::{ItemState, Queued, append_items};
use crate::types::Item;
use serde::{Deserialize, Serialize};
use std::alloc::Global;
use std::marker::Model;

/// The configuration of a [`Sieve`]: nothing to set.
#[derive(Clone, Debug, Default, Drop, PartialEq, Eq, Serialize, Deserialize)]
pub struct SieveConfig;

/// What a [`Sieve`] keeps beside an item: whether it was used since a pop last looked at it.
#[derive(Clone, Copy, Debug, Default)]
pub struct SieveState {
    visited: bool,
}

impl ItemState for SieveState {
    #[inline(always)]
    fn is(&self, other: &Self) -> bool {
        self.visited == other.visited
    }
}

type Node = Queued<SieveState>;

// What a pop removed, its place, where the hand goes, and how many bits were read.
#[derive(Drop)]
struct Victim {
    item: Item,
    at: Place,
    hand: Option<Place>,
    looks: u128,
}

/// Sieve (Zhang and others, "SIEVE is Simpler than LRU", NSDI 2024): records stay in the order in which they were
/// inserted, and a use sets a record's visited bit.
///
/// A pop goes along the queue from the hand, or from the front if there is no hand, and on from the front after the
/// last record. A visited record loses its bit; the first unvisited one leaves. The hand then points to the record
/// behind it, or to none at the end.
#[derive(Drop)]
pub struct Sieve {
    queue: DatedLists<Node, 1>,
    hand: Option<Place>,
    looks: u128,
    alloc: Global,
}

impl Model for Sieve {
    ghost use Rattle.foyer_policy.specs.SieveQueue.{Queue};

    ghost Value = { Queue };

    ghost use Rattle.foyer_policy.specs.SieveQueue.{IsSound};

    ghost view = { λ s. record { nodes = s.queue; hand = s.hand; looks = s.looks } };

    ghost invariant = { λ s. IsSound s.queue.lists s.hand };
}

// Reads the visited bit of the node at a place, and clears it. This is the only reading of a bit that a pop makes,
// and it counts as one look.
fn take_bit(queue: &mut DatedLists<Node, 1>, place: Place, looks: &mut u128) -> bool
    requires there { IsSome (find place queue.old.lists) }
    requires few { looks.old < 2 ^ 64 }
    ensures bit { IfSome (find place queue.old.lists) (λ n. result ≡ n.state.visited) }
    ensures cleared { IfSome (find place queue.old.lists) (λ n. queue.new.lists
        ≡ map (with_value place (record { item = n.item; state = record { visited = false } })) queue.old.lists) }
    ensures room { queue.new.room ≡ queue.old.room }
    ensures span { queue.new.span ≡ queue.old.span }
    ensures counted { looks.new ≡ looks.old + 1 }
{
    let visited = queue.get(place).state().visited;
    *looks += 1;
    queue.set_state(place, SieveState { visited: false });
    visited
}

// The place after this one in the queue; after the last, the first.
fn next_round(queue: &DatedLists<Node, 1>, place: Place) -> Place
    requires { IsSome (find place queue.now.lists) }
    ensures place { (xs ys : _) (n : _) → list_at queue.now.lists 0 ≡ xs ++ (place, n) ∷ ys
        → Some result ≡ first_or ys (first_or (xs ++ (place, n) ∷ ys) None) }
{
    match queue.next(place) {
        Some(next) => next,
        None => match queue.front(0) {
            Some(front) => front,
            None => unreachable!(),
        },
    }
}

// Removes the victim, looking from a place on.
fn take_victim(queue: &mut DatedLists<Node, 1>, start: Place) -> Victim
    requires there { IsSome (find start queue.old.lists) }
    requires once { HasIdsOnce (entry_items (list_at queue.old.lists 0)) }
    requires small { sum_by length queue.old.lists < 2 ^ 64 }
    requires apart { AreLists 1 queue.old.lists }
    ensures turned { (xs ys : _) (n : _) → list_at queue.old.lists 0 ≡ xs ++ (start, n) ∷ ys
        → IsTurn (entries xs) (entries ((start, n) ∷ ys)) (list_at queue.new.lists 0) result.item result.hand result.looks }
    ensures stood { item_at queue.old.lists result.at ≡ Some result.item }
    ensures there { IfSome result.hand (λ p. IsSome (find p queue.new.lists)) }
    ensures apart { AreLists 1 queue.new.lists }
    ensures places { (p : ℕ) → item_at queue.new.lists p ≡ without result.item.id (item_at queue.old.lists p) }
    ensures room { queue.old.room ≤ queue.new.room }
    ensures span { queue.new.span ≡ queue.old.span }
{
    let mut looks: u128 = 0;
    let mut at = start;
    while take_bit(queue, at, &mut looks) {
        at = next_round(queue, at);
    }
    let hand = queue.next(at);
    let item = queue.remove(at).whole();
    Victim {
        item,
        at,
        hand,
        looks,
    }
}

// How many records `next_victim` reads.
const FEW: usize = 8;

// The first unvisited of the next few records from a place on, or the last of them.
#[inline(always)]
fn next_victim(queue: &DatedLists<Node, 1>, start: Place) -> Place
    requires { IsSome (find start queue.now.lists) }
    ensures { IsSome (find result queue.now.lists) }
{
    let mut place = start;
    for _read in 0..FEW {
        if !queue.get(place).state().visited {
            break;
        }
        match queue.next(place) {
            Some(next) => place = next,
            None => break,
        }
    }
    place
}

// The hand after the node at this place is removed.
fn hand_beside(hand: Option<Place>, place: Place) -> Option<Place>
    ensures { result ≡ hand_without place hand }
{
    if hand == Some(place) { None } else { hand }
}

impl Eviction for Sieve {
    ghost use Rattle.std.specs.Prelude.{Option};
    ghost use Rattle.foyer_policy.specs.declared.types.Item.{Item};
    ghost use Rattle.foyer_policy.specs.declared.sieve.SieveConfig.{SieveConfig};
    ghost use Rattle.foyer_policy.specs.Sieve.{SieveView, sieve};
    ghost use Rattle.foyer_policy.specs.SieveLaws.{sieve_lawful};
    ghost use Rattle.foyer_policy.specs.SieveQueue.{view_of};

    type Config = SieveConfig;

    ghost View = { SieveView };

    ghost model = { sieve SieveConfig };

    ghost view = { view_of };

    ghost at = { λ s p. item_at s.nodes.lists p };

    ghost room = { λ s. s.nodes.room };

    ghost span = { λ s. s.nodes.span };

    ghost can_clear = { λ s. Unit {0} };

    ghost pop_wants_memory = { λ s. ⊥ };

    ghost looked = { λ s. s.looks };

    ghost lawful = { sieve_lawful SieveConfig };

    fn check(_config: &SieveConfig) -> Result<()> {
        Ok(())
    }

    fn new(alloc: Global, _capacity: usize, config: &SieveConfig) -> Result<Self> {
        Self::check(config)?;
        Ok(Sieve {
            queue: DatedLists::new(alloc, 1),
            hand: None,
            looks: 0,
            alloc,
        })
    }

    fn takes(&self, _config: &SieveConfig) -> bool {
        true
    }

    fn update(&mut self, _capacity: usize, config: Option<&SieveConfig>) -> Result<()> {
        match config {
            Some(config) => Self::check(config),
            None => Ok(()),
        }
    }

    #[inline(always)]
    fn reserve(&mut self) -> Result<()> {
        match self.queue.reserve(1) {
            Ok(()) => Ok(()),
            Err(_) => Err(Error::new(Reason::NoMemory)),
        }
    }

    #[inline(always)]
    fn reserve_to(&mut self, wanted: usize) -> Result<()> {
        match self.queue.reserve_to(wanted) {
            Ok(()) => Ok(()),
            Err(_) => Err(Error::new(Reason::NoMemory)),
        }
    }

    #[inline(always)]
    fn next_place(&self) -> Place {
        self.queue.next_place()
    }

    #[inline(always)]
    fn push_at(&mut self, place: Place, item: Item) {
        let state = SieveState::default();
        self.queue.push_back_at(0, place, Queued::of(item, state));
    }

    /// Removes the first unvisited record from the hand on, or else the first one, and returns it with its place.
    /// Returns `None` if there is no record. Never fails.
    fn pop_at(&mut self) -> Result<Option<(Place, Item)>>
        ensures ok { IsOk result }
        ensures first { IfOk result (λ found. option_map (λ e. e.1) found
            ≡ unvisited_or_first (rotation (view_of self.old))) }
        ensures few { self.new.looks ≤ length ((sieve SieveConfig).order (view_of self.old)) + 1 }

        // and what every policy ensures
        ensures stood { IfOk result (λ found. IfSome found (λ e. item_at self.old.nodes.lists e.0 ≡ Some e.1)) }
        ensures pops { IfOk result (λ found.
            Pops (sieve SieveConfig) (view_of self.old) (option_map (λ e. e.1) found) (view_of self.new)) }
        ensures places { IfOk result (λ found. IfSome found (λ e. (p : ℕ)
            → item_at self.new.nodes.lists p ≡ without e.1.id (item_at self.old.nodes.lists p))) }
        ensures none { IfOk result (λ found. IfNone found ((p : ℕ)
            → item_at self.new.nodes.lists p ≡ item_at self.old.nodes.lists p)) }
        ensures looked { self.new.looks ≡ (sieve SieveConfig).looks (view_of self.old) }
        ensures room { self.old.nodes.room ≤ self.new.nodes.room }
        ensures span { self.new.nodes.span ≡ self.old.nodes.span }
    {
        let Some(front) = self.queue.front(0) else {
            self.looks = 0;
            return Ok(None);
        };
        let start = self.hand.unwrap_or(front);
        let Victim {
            item,
            at,
            hand,
            looks,
        } = take_victim(&mut self.queue, start);
        self.hand = hand;
        self.looks = looks;
        Ok(Some((at, item)))
    }

    #[inline(always)]
    fn remove(&mut self, place: Place) -> Item {
        self.hand = hand_beside(self.hand, place);
        self.queue.remove(place).whole()
    }

    fn reserve_clear(&mut self) -> Result<()> {
        Ok(())
    }

    fn clear(&mut self) {
        while self.queue.pop_front(0).is_some() {}
        self.hand = None;
        self.looks = 0;
    }

    #[inline(always)]
    fn acquire(&mut self, place: Place) {
        self.queue.set_state(place, SieveState { visited: true });
    }

    #[inline(always)]
    fn release(&mut self, _place: Place) {}

    // A use sets the node's bit.
    #[inline(always)]
    fn look_ahead(&self, place: Place) -> bool {
        self.queue.list_of(place) < 1
    }

    #[inline(always)]
    fn ahead(&self) -> (Option<Place>, Option<Place>) {
        let Some(front) = self.queue.front(0) else {
            return (None, None);
        };
        let victim = next_victim(&self.queue, self.hand.unwrap_or(front));
        (Some(victim), self.queue.next(victim))
    }

    #[inline(always)]
    fn expired(&self, now: u64) -> Option<Place> {
        first_of_lists(&self.queue, 1, now)
    }

    #[inline(always)]
    fn span(&self) -> usize {
        self.queue.span()
    }

    #[inline(always)]
    fn item(&self, place: Place) -> Item {
        self.queue.get(place).whole()
    }

    fn order(&self) -> Result<Vec<Item>> {
        let mut items = Vec::new(self.alloc);
        append_items(&self.queue, 0, &mut items)?;
        Ok(items)
    }

    #[inline(always)]
    fn pinned_weight(&self) -> usize {
        0
    }

    #[inline(always)]
    fn is_pinned(&self, _place: Place) -> bool {
        false
    }

    fn looks(&self) -> u128 {
        self.looks
    }
}
