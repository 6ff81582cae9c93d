//! Items in lists, alone or with the state that a policy keeps beside them.

ghost use Rattle.std.specs.Prelude.{◌≡◌, ◌++◌, ◌<◌, IfErr, OnOk, map, option_map};
ghost use Rattle.std.specs.Bool.{OnTrue};
ghost use Rattle.foyer_policy.specs.Lists.{list_at};
ghost use Rattle.foyer_policy.specs.declared.types.Item.{Item};
ghost use Rattle.foyer_policy.specs.declared.error.Reason.TheVariants.{NoMemory};

use crate::dated_lists::DatedLists;
use crate::error::{Error, Reason, Result};
use crate::kept::Kept;
use crate::lists::Place;
use crate::types::{Hint, Item};
use std::marker::Model;

/// A value of a list that holds an item.
pub(crate) trait HasItem {
    // the item
    ghost item_of: { Self → Item };

    fn item(&self) -> Item
        ensures { result ≡ item_of self.now };

    // The number that was set last, or 0. No contract sees it.
    fn slot(&self) -> usize;

    fn set_slot(&mut self, slot: usize)
        ensures { self.new ≡ self.old };
}

/// What a policy keeps beside an item.
pub(crate) trait ItemState: Copy {
    /// Returns true only if the states are equal.
    fn is(&self, other: &Self) -> bool
        ensures { OnTrue result (self.now ≡ other.now) };
}

impl HasItem for Kept {
    ghost item_of = { λ i. i };

    #[inline(always)]
    fn item(&self) -> Item {
        self.whole()
    }

    #[inline(always)]
    fn slot(&self) -> usize {
        Kept::slot(self)
    }

    #[inline(always)]
    fn set_slot(&mut self, slot: usize) {
        Kept::set_slot(self, slot);
    }
}

/// An item with a small state, in no more bytes than the item alone. Whether the record expires, the state, and a
/// number that no contract sees are beside the hint.
#[derive(Drop)]
pub(crate) struct Queued<S> {
    slot: u32,
    hint: Hint,
    expires: bool,
    state: S,
    hash: u64,
    weight: usize,
    id: u64,
    // 0 if the record does not expire
    moment: u64,
}

impl<S> Model for Queued<S> {
    ghost use Rattle.foyer_policy.specs.Queued.{Queued as State, queued};

    ghost Value = { State S };

    ghost view = { queued };
}

impl<S> Queued<S> {
    /// Keeps an item with a state.
    #[inline(always)]
    pub(crate) fn of(item: Item, state: S) -> Self
        ensures { result ≡ record { item = item; state = state } }
    {
        let (expires, moment) = match item.expires {
            Some(moment) => (true, moment),
            None => (false, 0),
        };
        Queued {
            slot: 0,
            hint: item.hint,
            expires,
            state,
            hash: item.hash,
            weight: item.weight,
            id: item.id,
            moment,
        }
    }

    /// Returns the item.
    #[inline(always)]
    pub(crate) fn whole(&self) -> Item
        ensures { result ≡ self.now.item }
    {
        Item {
            id: self.id,
            hash: self.hash,
            weight: self.weight,
            hint: self.hint,
            expires: if self.expires {
                Some(self.moment)
            } else {
                None
            },
        }
    }

    /// Returns the number that was set last, or 0. No contract sees it.
    #[inline(always)]
    pub(crate) fn slot(&self) -> usize {
        self.slot as usize
    }

    /// Sets the number, of which the low 32 bits are kept. The item and the state stay.
    #[inline(always)]
    pub(crate) fn set_slot(&mut self, slot: usize)
        ensures { self.new ≡ self.old }
    {
        self.slot = (slot & 0xffff_ffff) as u32;
    }
}

impl<S: ItemState> Queued<S> {
    /// Returns the state.
    #[inline(always)]
    pub(crate) fn state(&self) -> S
        ensures { result ≡ self.now.state }
    {
        self.state
    }

    /// Sets the state. The item stays. A state that is there isn't written again, which would take the node away from
    /// other processors that read it.
    #[inline(always)]
    pub(crate) fn set_state(&mut self, state: S)
        ensures { self.new ≡ record { item = self.old.item; state = state } }
    {
        if !self.state.is(&state) {
            self.state = state;
        }
    }
}

impl<S> HasItem for Queued<S> {
    ghost item_of = { λ h. h.item };

    #[inline(always)]
    fn item(&self) -> Item {
        self.whole()
    }

    #[inline(always)]
    fn slot(&self) -> usize {
        Queued::slot(self)
    }

    #[inline(always)]
    fn set_slot(&mut self, slot: usize) {
        Queued::set_slot(self, slot);
    }
}

/// Returns what was found at a place, with its item whole.
#[inline(always)]
pub(crate) fn whole_found(found: Option<(Place, Kept)>) -> Option<(Place, Item)>
    ensures { result ≡ found }
{
    match found {
        Some((place, kept)) => Some((place, kept.whole())),
        None => None,
    }
}

/// Returns the item that was found at a place, alone.
#[inline(always)]
pub(crate) fn item_found(found: Option<(Place, Item)>) -> Option<Item>
    ensures { result ≡ option_map (λ e. e.1) found }
{
    let (_, item) = found?;
    Some(item)
}

/// Appends the items of a list, first to last.
///
/// # Errors
/// F7 if memory runs out.
pub(crate) fn append_items<T: HasItem, const N: usize>(
    lists: &DatedLists<T, N>,
    list: usize,
    items: &mut Vec<Item>,
) -> Result<()>
    requires { list < N }
    ensures items { OnOk result (items.new.items ≡ items.old.items ++ map (λ e. T.item_of e.1) (list_at lists.now.lists list)) }
    ensures refused { IfErr result (λ e. e ≡ NoMemory) }
{
    let mut next = lists.front(list);
    while let Some(place) = next {
        let item = lists.get(place).item();
        let Ok(()) = items.push(item) else {
            return Err(Error::new(Reason::NoMemory));
        };
        next = lists.next(place);
    }
    Ok(())
}
