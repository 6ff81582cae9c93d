//! The two queues of an S3-FIFO: what a pop takes from each.

ghost use Rattle.std.specs.Prelude.{◌≡◌, ℕ, ◌+◌, ◌-◌, ◌<◌, ◌≤◌, ◌^◌, [], List, Some, None, Option, IfSome, IfNone, IsSome, map, length, nat_lt, sum_by};
ghost use Rattle.std.specs.Option.{option_map};
ghost use Rattle.foyer_policy.specs.Lists.{list_at, find, with_value, AreLists};
ghost use Rattle.foyer_policy.specs.Items.{weight_of};
ghost use Rattle.foyer_policy.specs.GhostQueue.{Ghost, ghost_of};
ghost use Rattle.foyer_policy.specs.S3Fifo.{Setting, items, main_looks, from_main, s3fifo_pop, s3fifo_looks};
ghost use Rattle.foyer_policy.specs.S3FifoQueues.{item_at, small_of, main_of, view_with, Gives, AreQueues, PlacesAfter, TakesSmall, TakesMain};

use crate::dated_lists::DatedLists;
use crate::ghost_queue::GhostQueue;
use crate::lists::Place;
use crate::queued::{ItemState, Queued};
use crate::types::Item;

// The numbers of the two lists.
pub(super) const SMALL: usize = 0;

pub(super) const MAIN: usize = 1;

// The largest frequency.
pub(super) const MOST: u8 = 3;

/// What an [`S3Fifo`](super::S3Fifo) keeps beside an item: its frequency, from 0 to 3, and its queue.
#[derive(Clone, Copy, Debug, Default)]
pub struct S3FifoState {
    pub(super) frequency: u8,
    pub(super) is_main: bool,
}

impl ItemState for S3FifoState {
    #[inline(always)]
    fn is(&self, other: &Self) -> bool {
        self.frequency == other.frequency && self.is_main == other.is_main
    }
}

pub(super) type Node = Queued<S3FifoState>;

// A victim, its place, and how many frequencies of the main queue were read.
#[derive(Clone, Copy)]
pub(super) struct Victim {
    pub(super) item: Item,
    pub(super) at: Place,
    pub(super) looks: u128,
}

// Removes the first record below a threshold from the small queue. Those before it, or all if there is none, move to
// the end of the main queue. `weight` is the small queue's.
pub(super) fn take_small(
    queues: &mut DatedLists<Node, 2>,
    weight: &mut usize,
    threshold: u8,
) -> Option<Victim>
    requires queues { AreQueues queues.old.lists }
    requires weight { weight.old ≡ weight_of (items (small_of queues.old.lists)) }
    ensures takes { TakesSmall threshold queues.old.lists (option_map (λ v. v.item) result) queues.new.lists }
    ensures stood { IfSome result (λ v. item_at queues.old.lists v.at ≡ Some v.item) }
    ensures looks { IfSome result (λ v. v.looks ≡ 0) }
    ensures queues { AreQueues queues.new.lists }
    ensures places { PlacesAfter (option_map (λ v. v.item) result) queues.old.lists queues.new.lists }
    ensures weight { weight.new ≡ weight_of (items (small_of queues.new.lists)) }
    ensures room { queues.old.room ≤ queues.new.room }
    ensures span { queues.new.span ≡ queues.old.span }
{
    while let Some(front) = queues.front(SMALL) {
        let node = queues.get(front);
        let state = node.state();
        *weight -= node.whole().weight;
        if state.frequency < threshold {
            let item = node.whole();
            queues.remove(front);
            return Some(Victim {
                item,
                at: front,
                looks: 0,
            });
        }
        let main = S3FifoState {
            is_main: true,
            ..state
        };
        queues.set_state(front, main);
        queues.move_back(front, MAIN);
    }
    None
}

// Reads the frequency of the node at a place, lowers it by 1 if it is above 0, and returns whether it was. This is
// the only reading of a frequency in the main queue that a pop makes, and it counts as one look.
fn lower(queues: &mut DatedLists<Node, 2>, place: Place, looks: &mut u128) -> bool
    requires there { IsSome (find place queues.old.lists) }
    requires few { looks.old < 2 ^ 127 }
    ensures above { IfSome (find place queues.old.lists) (λ n. result ≡ nat_lt 0 n.state.frequency) }
    ensures lowered { IfSome (find place queues.old.lists) (λ n. queues.new.lists
        ≡ map (with_value place (record { item = n.item; state = record { frequency = n.state.frequency - 1; is_main = n.state.is_main } })) queues.old.lists) }
    ensures room { queues.new.room ≡ queues.old.room }
    ensures span { queues.new.span ≡ queues.old.span }
    ensures counted { looks.new ≡ looks.old + 1 }
{
    let state = queues.get(place).state();
    *looks += 1;
    let lowered = S3FifoState {
        frequency: state.frequency.saturating_sub(1),
        ..state
    };
    queues.set_state(place, lowered);
    state.frequency > 0
}

// Removes the victim of the main queue: each record at the front goes to the back, its frequency lowered by 1, until
// the first of frequency 0 leaves.
pub(super) fn take_main(queues: &mut DatedLists<Node, 2>) -> Option<Victim>
    requires queues { AreQueues queues.old.lists }
    ensures takes { TakesMain queues.old.lists (option_map (λ v. (v.item, v.looks)) result) queues.new.lists }
    ensures stood { IfSome result (λ v. item_at queues.old.lists v.at ≡ Some v.item) }
    ensures queues { AreQueues queues.new.lists }
    ensures places { PlacesAfter (option_map (λ v. v.item) result) queues.old.lists queues.new.lists }
    ensures room { queues.old.room ≤ queues.new.room }
    ensures span { queues.new.span ≡ queues.old.span }
{
    let mut looks: u128 = 0;
    while let Some(front) = queues.front(MAIN) {
        if !lower(queues, front, &mut looks) {
            let item = queues.remove(front).whole();
            return Some(Victim {
                item,
                at: front,
                looks,
            });
        }
        queues.move_back(front, MAIN);
    }
    None
}

// Removes the victim of the main queue, or else the first record of the small one. `weight` is the small queue's.
fn pop_main(queues: &mut DatedLists<Node, 2>, weight: &mut usize) -> Option<Victim>
    requires queues { AreQueues queues.old.lists }
    requires weight { weight.old ≡ weight_of (items (small_of queues.old.lists)) }
    ensures gives { (g : Ghost) (l : ℕ) (s : Setting) → Gives (from_main (view_with queues.old.lists g l s))
        (option_map (λ v. v.item) result) (view_with queues.old.lists g l s) (view_with queues.new.lists g l s) }
    ensures looks { IfSome result (λ v. v.looks ≡ main_looks (main_of queues.old.lists)) }
    ensures stood { IfSome result (λ v. item_at queues.old.lists v.at ≡ Some v.item) }
    ensures queues { AreQueues queues.new.lists }
    ensures places { PlacesAfter (option_map (λ v. v.item) result) queues.old.lists queues.new.lists }
    ensures none { IfNone result ((p : ℕ) → find p queues.new.lists ≡ None) }
    ensures weight { weight.new ≡ weight_of (items (small_of queues.new.lists)) }
    ensures room { queues.old.room ≤ queues.new.room }
    ensures span { queues.new.span ≡ queues.old.span }
{
    if let Some(victim) = take_main(queues) {
        return Some(victim);
    }
    let found = queues.pop_front_at(SMALL)?;
    let item = found.1.whole();
    *weight -= item.weight;
    Some(Victim {
        item,
        at: found.0,
        looks: 0,
    })
}

// Removes the victim, and enters it in the ghost queue if it leaves the small queue. Needs room there. `weight` is
// the small queue's.
pub(super) fn pop_victim(
    queues: &mut DatedLists<Node, 2>,
    weight: &mut usize,
    ghost_queue: &mut GhostQueue,
    limit: usize,
    threshold: u8,
) -> Option<Victim>
    requires queues { AreQueues queues.old.lists }
    requires weight { weight.old ≡ weight_of (items (small_of queues.old.lists)) }
    requires room { limit < weight.old → 0 < ghost_queue.old.capacity → 0 < ghost_queue.old.room }
    ensures pops { (s : Setting) → s.threshold ≡ threshold
        → Gives (s3fifo_pop (view_with queues.old.lists (ghost_of ghost_queue.old) limit s))
        (option_map (λ v. v.item) result) (view_with queues.old.lists (ghost_of ghost_queue.old) limit s)
        (view_with queues.new.lists (ghost_of ghost_queue.new) limit s) }
    ensures looks { (s : Setting) → s.threshold ≡ threshold
        → IfSome result (λ v. v.looks ≡ s3fifo_looks (view_with queues.old.lists
        (ghost_of ghost_queue.old) limit s)) }
    ensures stood { IfSome result (λ v. item_at queues.old.lists v.at ≡ Some v.item) }
    ensures queues { AreQueues queues.new.lists }
    ensures places { PlacesAfter (option_map (λ v. v.item) result) queues.old.lists queues.new.lists }
    ensures none { IfNone result ((p : ℕ) → find p queues.new.lists ≡ None) }
    ensures weight { weight.new ≡ weight_of (items (small_of queues.new.lists)) }
    ensures room { queues.old.room ≤ queues.new.room }
    ensures span { queues.new.span ≡ queues.old.span }
    ensures ghost_room { ghost_queue.old.room ≤ ghost_queue.new.room + 1 }
    ensures ghost_capacity { ghost_queue.new.capacity ≡ ghost_queue.old.capacity }
{
    if *weight <= limit {
        return pop_main(queues, weight);
    }
    match take_small(queues, weight, threshold) {
        Some(victim) => {
            ghost_queue.push_reserved(victim.item.hash, victim.item.weight);
            Some(victim)
        }
        None => pop_main(queues, weight),
    }
}

// How many records `next_victim` reads.
const FEW: usize = 8;

// The first of a queue's next few records whose frequency is below this, or the last of them.
#[inline(always)]
pub(super) fn next_victim(queues: &DatedLists<Node, 2>, list: usize, threshold: u8) -> Option<Place>
    requires { list < 2 }
    ensures { IfSome result (λ p. IsSome (find p queues.now.lists)) }
{
    let mut at = queues.front(list)?;
    for _read in 0..FEW {
        if queues.get(at).state().frequency < threshold {
            break;
        }
        match queues.next(at) {
            Some(next) => at = next,
            None => break,
        }
    }
    Some(at)
}

// The number of records in a queue.
pub(super) fn count(queues: &DatedLists<Node, 2>, list: usize) -> usize
    requires { list < 2 }
    ensures count { result ≡ length (list_at queues.now.lists list) }
    ensures small { sum_by length queues.now.lists < 2 ^ 64 }
    ensures apart { AreLists 2 queues.now.lists }
{
    let mut count = 0;
    let mut next = queues.front(list);
    while let Some(place) = next {
        count += 1;
        next = queues.next(place);
    }
    count
}
