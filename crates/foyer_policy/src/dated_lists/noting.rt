//! The slots of dates, noted beside the values.

ghost use Rattle.std.specs.Prelude.{◌≡◌, IsSome};
ghost use Rattle.foyer_policy.specs.Lists.{find};

use crate::lists::{Lists, Place};
use crate::queued::HasItem;

/// Notes the slot of a value's date beside it, if there is a value at this place. No contract sees it.
#[inline(always)]
pub(crate) fn note_slot<T: HasItem, const N: usize>(
    lists: &mut Lists<T, N>,
    place: Place,
    slot: usize,
)
    ensures { lists.new ≡ lists.old }
{
    if lists.holds(place) {
        note_slot_at(lists, place, slot);
    }
}

/// Notes the slot of a value's date beside it. The place must have a value. No contract sees it.
#[inline(always)]
pub(super) fn note_slot_at<T: HasItem, const N: usize>(
    lists: &mut Lists<T, N>,
    place: Place,
    slot: usize,
)
    requires { IsSome (find place lists.old.lists) }
    ensures { lists.new ≡ lists.old }
{
    lists.get_mut(place).set_slot(slot);
}
