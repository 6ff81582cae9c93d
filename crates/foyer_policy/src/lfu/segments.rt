//! The three lists of an [`Lfu`](super::Lfu), below its running sums.

ghost use Rattle.std.specs.Prelude.{◌≡◌, ◌≢◌, ℕ, ◌+◌, ◌<◌, ◌≤◌, ◌∷◌, ◌++◌, [], length, map, option_map, slice_set, if◌then◌else◌};
ghost use Rattle.foyer_policy.specs.Items.{fit, over, weight_of};
ghost use Rattle.foyer_policy.specs.LfuLists.{items_in, victim_list};
ghost use Rattle.foyer_policy.specs.Lists.{find, first_value, list_at};

use crate::dated_lists::DatedLists;
use crate::kept::Kept;
use crate::sketch::Sketch;

/// The list of new records.
pub(super) const WINDOW: usize = 0;

/// The list of records that weren't used since they left another list.
pub(super) const PROBATION: usize = 1;

/// The list of records that were used in probation.
pub(super) const PROTECTED: usize = 2;

/// Returns a weight if it counts, and otherwise 0.
#[inline]
pub(super) fn weight_if(counts: bool, weight: usize) -> usize
    ensures { result ≡ (if counts then weight else 0) }
{
    if counts { weight } else { 0 }
}

/// Moves the first item of a list to the end of probation, and returns its weight. The list isn't probation, and not
/// empty.
fn demote(lists: &mut DatedLists<Kept, 3>, from: usize) -> usize
    requires list { from < 3 }
    requires other { from ≢ 1 }
    requires some { 0 < length (list_at lists.old.lists from) }
    ensures from { (e : _) (es : _) → list_at lists.old.lists from ≡ e ∷ es → list_at lists.new.lists from ≡ es }
    ensures probation { (e : _) (es : _) → list_at lists.old.lists from ≡ e ∷ es
        → list_at lists.new.lists 1 ≡ list_at lists.old.lists 1 ++ e ∷ [] }
    ensures weight { (e : _) (es : _) → list_at lists.old.lists from ≡ e ∷ es → result ≡ e.1.weight }
    ensures others { (k : ℕ) → k ≢ from → k ≢ 1 → list_at lists.new.lists k ≡ list_at lists.old.lists k }
    ensures places { (q : ℕ) → find q lists.new.lists ≡ find q lists.old.lists }
    ensures room { lists.new.room ≡ lists.old.room }
    ensures span { lists.new.span ≡ lists.old.span }
{
    match lists.front(from) {
        Some(place) => {
            let weight = lists.get(place).whole().weight;
            lists.move_back(place, PROBATION);
            weight
        }
        None => unreachable!(),
    }
}

/// Moves the first items of a list, which weighs `weight`, to the end of probation until the rest is within a limit,
/// and returns the weight of the rest. The list isn't probation.
pub(super) fn settle(
    lists: &mut DatedLists<Kept, 3>,
    from: usize,
    weight: usize,
    limit: usize,
) -> usize
    requires list { from < 3 }
    requires other { from ≢ 1 }
    requires weight { weight ≡ weight_of (items_in lists.old.lists from) }
    ensures from { items_in lists.new.lists from ≡ fit (λ i. i.weight) limit (items_in lists.old.lists from) }
    ensures probation { items_in lists.new.lists 1
        ≡ items_in lists.old.lists 1 ++ over (λ i. i.weight) limit (items_in lists.old.lists from) }
    ensures weight { result ≡ weight_of (items_in lists.new.lists from) }
    ensures others { (k : ℕ) → k ≢ from → k ≢ 1 → items_in lists.new.lists k ≡ items_in lists.old.lists k }
    ensures places { (q : ℕ) → find q lists.new.lists ≡ find q lists.old.lists }
    ensures room { lists.new.room ≡ lists.old.room }
    ensures span { lists.new.span ≡ lists.old.span }
{
    let mut left = weight;
    while left > limit {
        left -= demote(lists, from);
    }
    left
}

// The hash of the first item of a list.
fn first_hash(lists: &DatedLists<Kept, 3>, list: usize) -> Option<u64>
    requires { list < 3 }
    ensures { result ≡ option_map (λ i. i.hash) (first_value (list_at lists.now.lists list)) }
{
    let place = lists.front(list)?;
    Some(lists.get(place).whole().hash)
}

/// Returns the list whose first item leaves next, if there is one.
pub(super) fn next_list(lists: &DatedLists<Kept, 3>, sketch: &Sketch) -> usize
    ensures list { result ≡ victim_list sketch.now (items_in lists.now.lists 0) (items_in lists.now.lists 1) }
    ensures within { result < 3 }
{
    match (first_hash(lists, WINDOW), first_hash(lists, PROBATION)) {
        (Some(window), Some(probation)) => {
            if sketch.estimate(window) < sketch.estimate(probation) {
                WINDOW
            } else {
                PROBATION
            }
        }
        (Some(_), None) => WINDOW,
        (None, Some(_)) => PROBATION,
        (None, None) => PROTECTED,
    }
}

/// Removes all items of a list.
pub(super) fn drain(lists: &mut DatedLists<Kept, 3>, list: usize)
    requires { list < 3 }
    ensures lists { lists.new.lists ≡ slice_set lists.old.lists list [] }
    ensures count { length lists.new.lists ≡ 3 }
    ensures room { lists.old.room ≤ lists.new.room }
    ensures span { lists.new.span ≡ lists.old.span }
{
    while lists.pop_front(list).is_some() {}
}
