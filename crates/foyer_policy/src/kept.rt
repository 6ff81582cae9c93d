//! Items as nodes keep them, in less room, each with a number beside it.

ghost use Rattle.std.specs.Prelude.{◌≡◌};

use crate::queued::Queued;
use crate::types::Item;
use std::marker::Model;

/// An item as a node keeps it if its policy has no state. A contract sees the item.
#[derive(Drop)]
pub(crate) struct Kept {
    parts: Queued<()>,
}

impl Model for Kept {
    ghost use Rattle.foyer_policy.specs.declared.types.Item.{Item};

    ghost Value = { Item };

    ghost view = { λ k. k.parts.item };
}

impl Kept {
    /// Keeps an item.
    #[inline(always)]
    pub(crate) fn of(item: Item) -> Self
        ensures { result ≡ item }
    {
        Kept {
            parts: Queued::of(item, ()),
        }
    }

    /// Returns the item.
    #[inline(always)]
    pub(crate) fn whole(&self) -> Item
        ensures { result ≡ self.now }
    {
        self.parts.whole()
    }

    /// Returns the number that was set last, or 0. No contract sees it.
    #[inline(always)]
    pub(crate) fn slot(&self) -> usize {
        self.parts.slot()
    }

    /// Sets the number, of which the low 32 bits are kept. The item stays.
    #[inline(always)]
    pub(crate) fn set_slot(&mut self, slot: usize)
        ensures { self.new ≡ self.old }
    {
        self.parts.set_slot(slot);
    }
}
