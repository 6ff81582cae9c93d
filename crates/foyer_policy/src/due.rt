//! Which item of some lists is due first.

ghost use Rattle.std.specs.Prelude.{◌≡◌, ◌<◌, ◌≤◌, IfSome, IsSome, map, option_and_then, option_map};
ghost use Rattle.std.specs.List.{filter};
ghost use Rattle.foyer_policy.specs.Dues.{first_item, first_lists};
ghost use Rattle.foyer_policy.specs.Lists.{find, list_at};
ghost use Rattle.foyer_policy.specs.Moments.{is_due};

use crate::dated_lists::DatedLists;
use crate::lists::{Lists, Place};
use crate::queued::HasItem;
use crate::types::Item;

/// Returns whether an item is due at `now`.
#[inline(always)]
pub(crate) fn due_at(item: Item, now: u64) -> bool
    ensures { result ≡ is_due now item }
{
    match item.expires {
        Some(moment) => moment <= now,
        None => false,
    }
}

/// Returns the place of the first item of a list that is due at `now`, or `None`. Walks along the list.
pub(crate) fn first_of_list<T: HasItem, const N: usize>(
    lists: &Lists<T, N>,
    list: usize,
    now: u64,
) -> Option<Place>
    requires { list < N }
    ensures there { IfSome result (λ p. IsSome (find p lists.now.lists)) }
    ensures first { option_and_then (λ p. option_map T.item_of (find p lists.now.lists)) result
        ≡ first_item (filter (is_due now) (map (λ e. T.item_of e.1) (list_at lists.now.lists list))) }
{
    let mut next = lists.front(list);
    while let Some(place) = next {
        if due_at(lists.get(place).item(), now) {
            return Some(place);
        }
        next = lists.next(place);
    }
    None
}

// As `first_of_lists`, if some items may expire.
#[cold]
#[inline(never)]
fn first_of_each<T: HasItem, const N: usize>(
    lists: &DatedLists<T, N>,
    count: usize,
    now: u64,
) -> Option<Place>
    requires { count ≤ N }
    ensures there { IfSome result (λ p. IsSome (find p lists.now.lists)) }
    ensures first { option_and_then (λ p. option_map T.item_of (find p lists.now.lists)) result
        ≡ first_item (filter (is_due now) (first_lists T.item_of lists.now.lists count)) }
{
    for list in 0..count {
        let found = lists.first_due(list, now);
        if found.is_some() {
            return found;
        }
    }
    None
}

/// Returns the place of the first item of the first `count` lists that is due at `now`, or `None`.
#[inline(always)]
pub(crate) fn first_of_lists<T: HasItem, const N: usize>(
    lists: &DatedLists<T, N>,
    count: usize,
    now: u64,
) -> Option<Place>
    requires { count ≤ N }
    ensures there { IfSome result (λ p. IsSome (find p lists.now.lists)) }
    ensures first { option_and_then (λ p. option_map T.item_of (find p lists.now.lists)) result
        ≡ first_item (filter (is_due now) (first_lists T.item_of lists.now.lists count)) }
{
    if lists.is_plain() {
        return None;
    }
    first_of_each(lists, count, now)
}
