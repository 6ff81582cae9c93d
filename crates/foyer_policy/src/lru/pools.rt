//! The three lists of an [`Lru`](super::Lru), below its running sums.

ghost use Rattle.std.specs.Prelude.{◌≡◌, ℕ, ◌<◌, ◌≤◌, ◌∷◌, ◌++◌, [], length, map, sum_by, IsSome, slice_set};
ghost use Rattle.foyer_policy.specs.Queued.{queued_at};
ghost use Rattle.foyer_policy.specs.Items.{fit, over};
ghost use Rattle.foyer_policy.specs.Lists.{AreLists, find, list_at, moved, with_value};
ghost use Rattle.foyer_policy.specs.LruLists.{low_entry, weight_at};

use super::LruState;
use crate::dated_lists::DatedLists;
use crate::lists::Place;
use crate::queued::Queued;

/// The list of low priority, which leaves first.
pub(super) const LOW: usize = 0;

/// The list of the pool of high priority.
pub(super) const HIGH: usize = 1;

/// The list of pinned items.
pub(super) const PIN: usize = 2;

pub(super) type Node = Queued<LruState>;

/// Moves the first node of the pool to the end of the low list, clears its high bit, and returns its weight. The pool
/// must not be empty.
#[inline(always)]
fn lower(lists: &mut DatedLists<Node, 3>) -> usize
    requires { 0 < length (list_at lists.old.lists 1) }
    ensures weight { (e : _) (es : _) → list_at lists.old.lists 1 ≡ e ∷ es → result ≡ weight_at e }
    ensures lists { (e : _) (es : _) → list_at lists.old.lists 1 ≡ e ∷ es
        → lists.new.lists ≡ (list_at lists.old.lists 0 ++ low_entry e ∷ []) ∷ es ∷ list_at lists.old.lists 2 ∷ [] }
    ensures places { (q : ℕ) → queued_at q lists.new.lists ≡ queued_at q lists.old.lists }
    ensures room { lists.new.room ≡ lists.old.room }
    ensures span { lists.new.span ≡ lists.old.span }
{
    match lists.front(HIGH) {
        Some(place) => {
            let node = lists.get(place);
            let weight = node.whole().weight;
            let state = node.state();
            let low = LruState {
                high: false,
                ..state
            };
            lists.set_state(place, low);
            lists.move_back(place, LOW);
            weight
        }
        None => unreachable!(),
    }
}

/// Lowers nodes of the pool, which weighs `weight`, until it is within a limit, and returns its weight.
#[inline(always)]
pub(super) fn settle(lists: &mut DatedLists<Node, 3>, weight: usize, limit: usize) -> usize
    requires { weight ≡ sum_by weight_at (list_at lists.old.lists 1) }
    ensures low { list_at lists.new.lists 0
        ≡ list_at lists.old.lists 0 ++ map low_entry (over weight_at limit (list_at lists.old.lists 1)) }
    ensures high { list_at lists.new.lists 1 ≡ fit weight_at limit (list_at lists.old.lists 1) }
    ensures pin { list_at lists.new.lists 2 ≡ list_at lists.old.lists 2 }
    ensures weight { result ≡ sum_by weight_at (list_at lists.new.lists 1) }
    ensures places { (q : ℕ) → queued_at q lists.new.lists ≡ queued_at q lists.old.lists }
    ensures room { lists.new.room ≡ lists.old.room }
    ensures span { lists.new.span ≡ lists.old.span }
{
    let mut left = weight;
    while left > limit {
        left -= lower(lists);
    }
    left
}

/// Sets a node's state and moves it to the end of a list. The place must have a node.
#[inline(always)]
pub(super) fn relist(lists: &mut DatedLists<Node, 3>, place: Place, state: LruState, list: usize)
    requires list { list < 3 }
    requires there { IsSome (find place lists.old.lists) }
    ensures lists { (n : _) → find place lists.old.lists ≡ Some n
        → lists.new.lists ≡ moved place list (map (with_value place (record { item = n.item; state = state })) lists.old.lists) }
    ensures places { (q : ℕ) → queued_at q lists.new.lists ≡ queued_at q lists.old.lists }
    ensures room { lists.new.room ≡ lists.old.room }
    ensures span { lists.new.span ≡ lists.old.span }
    ensures apart { AreLists 3 lists.old.lists }
{
    lists.set_state(place, state);
    lists.move_back(place, list);
}

/// Removes all nodes of a list.
pub(super) fn drain(lists: &mut DatedLists<Node, 3>, list: usize)
    requires { list < 3 }
    ensures lists { lists.new.lists ≡ slice_set lists.old.lists list [] }
    ensures count { length lists.new.lists ≡ 3 }
    ensures room { lists.old.room ≤ lists.new.room }
    ensures span { lists.new.span ≡ lists.old.span }
{
    while lists.pop_front(list).is_some() {}
}
