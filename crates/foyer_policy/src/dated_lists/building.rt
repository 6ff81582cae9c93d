//! Looking up the dates of all items in lists.

ghost use Rattle.std.specs.Prelude.{◌≡◌, ℕ, ◌≢◌, ◌+◌, ◌<◌, ◌≤◌, [], IfErr, IfOk, IsTrue};
ghost use Rattle.foyer_policy.specs.DatedLists.{Builds, Knows, dates_at};
ghost use Rattle.foyer_policy.specs.Dates.{dates_of};
ghost use Rattle.foyer_policy.specs.Lists.{list_at};
ghost use Rattle.foyer_policy.specs.declared.error.Reason.TheVariants.{NoMemory};

use super::noting::note_slot;
use super::tracking::Tracking;
use crate::dates::{Dates, MOST};
use crate::error::Result;
use crate::lists::Lists;
use crate::queued::HasItem;
use std::alloc::Global;

// How many items of a list expire.
fn count_dates<T: HasItem, const N: usize>(lists: &Lists<T, N>, list: usize) -> usize
    requires { list < N }
    ensures { result ≡ 0 → dates_of T.item_of (list_at lists.now.lists list) ≡ [] }
{
    let mut count: usize = 0;
    let mut next = lists.front(list);
    while let Some(place) = next {
        let expires = lists.get(place).item().expires.is_some();
        count = count.saturating_add(usize::from(expires));
        next = lists.next(place);
    }
    count
}

// How many items expire.
fn count_all<T: HasItem, const N: usize>(lists: &Lists<T, N>) -> usize
    ensures { result ≡ 0 → (k : ℕ) → k < N → dates_at T.item_of lists.now.lists k ≡ [] }
{
    let mut count: usize = 0;
    for list in 0..lists.count() {
        count = count.saturating_add(count_dates(lists, list));
    }
    count
}

// Enters the dates of a list, and returns false if there is no room for one.
fn push_dates<T: HasItem, const N: usize>(
    dates: &mut Dates,
    lists: &mut Lists<T, N>,
    list: usize,
) -> bool
    requires list { list < dates.old.lists }
    requires within { dates.old.lists ≤ N }
    requires before { Builds T.item_of dates.old.lists lists.old.lists list dates.old }
    ensures done { IsTrue result → Builds T.item_of dates.old.lists lists.old.lists (list + 1) dates.new }
    ensures lists { lists.new ≡ lists.old }
{
    let mut next = lists.front(list);
    while let Some(place) = next {
        if let Some(date) = lists.get(place).item().expires {
            let Some(slot) = dates.push(lists, list, place, date) else {
                return false;
            };
            note_slot(lists, place, slot);
        }
        next = lists.next(place);
    }
    true
}

/// Looks up all dates of the first `searched` lists.
///
/// # Errors
/// F7 if memory runs out.
#[cold]
#[inline(never)]
pub(super) fn built<T: HasItem, const N: usize>(
    alloc: Global,
    lists: &mut Lists<T, N>,
    searched: u8,
) -> Result<Tracking>
    ensures known { IfOk result (λ t. Knows N (dates_at T.item_of lists.old.lists) t) }
    ensures lists { lists.new ≡ lists.old }
    ensures refused { IfErr result (λ e. e ≡ NoMemory) }
{
    let count = count_all(lists);
    if count == 0 {
        return Ok(Tracking::Plain);
    }
    if usize::from(searched) > lists.count() || lists.span() > MOST {
        return Ok(Tracking::Untracked);
    }
    // room for as many more, and one
    let room = count.saturating_mul(2).saturating_add(1);
    let mut dates = Dates::new(alloc, searched, room)?;
    for list in 0..usize::from(searched) {
        if !push_dates(&mut dates, lists, list) {
            return Ok(Tracking::Untracked);
        }
    }
    Ok(Tracking::Tracked(dates))
}
