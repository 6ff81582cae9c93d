//! First in, first out.

ghost use Rattle.std.specs.Prelude.{◌≡◌, [], ◌∷◌, map};

use crate::dated_lists::DatedLists;
use crate::due::first_of_lists;
use crate::error::{Error, Reason, Result};
use crate::eviction::Eviction;
use crate::kept::Kept;
use crate::lists::Place;
use crate::queued::{append_items, whole_found};
use crate::types::Item;
use serde::{Deserialize, Serialize};
use std::alloc::Global;
use std::marker::Model;

/// The configuration of a [`Fifo`]: nothing to set.
#[derive(Clone, Debug, Default, Drop, PartialEq, Eq, Serialize, Deserialize)]
pub struct FifoConfig {}

/// What a [`Fifo`] keeps beside an item: nothing.
#[derive(Debug, Default, Drop)]
pub struct FifoState {}

/// First in, first out: the record that was inserted first leaves first, used or not.
#[derive(Drop)]
pub struct Fifo {
    queue: DatedLists<Kept, 1>,
    alloc: Global,
}

impl Model for Fifo {
    ghost use Rattle.foyer_policy.specs.Lists.{Lists as Linked};
    ghost use Rattle.foyer_policy.specs.declared.types.Item.{Item};

    ghost Value = { Linked Item };

    ghost use Rattle.std.specs.Prelude.{map};
    ghost use Rattle.foyer_policy.specs.Lists.{list_at};
    ghost use Rattle.foyer_policy.specs.Items.{HasIdsOnce};

    ghost view = { λ f. f.queue };

    ghost invariant = { λ f. HasIdsOnce (map (λ e. e.1) (list_at f.queue.lists 0)) };
}

impl Eviction for Fifo {
    ghost use Rattle.std.specs.Prelude.{List, map};
    ghost use Rattle.foyer_policy.specs.Lists.{list_at, find};
    ghost use Rattle.foyer_policy.specs.declared.types.Item.{Item};
    ghost use Rattle.foyer_policy.specs.declared.fifo.FifoConfig.{FifoConfig};
    ghost use Rattle.foyer_policy.specs.Fifo.{fifo};
    ghost use Rattle.foyer_policy.specs.FifoLaws.{fifo_lawful};

    type Config = FifoConfig;

    ghost View = { List Item };

    ghost model = { fifo FifoConfig };

    ghost view = { λ f. map (λ e. e.1) (list_at f.lists 0) };

    ghost at = { λ f p. find p f.lists };

    ghost room = { λ f. f.room };

    ghost span = { λ f. f.span };

    ghost can_clear = { λ f. Unit {0} };

    ghost pop_wants_memory = { λ f. ⊥ };

    ghost looked = { λ f. 0 };

    ghost lawful = { fifo_lawful FifoConfig };

    fn check(_config: &FifoConfig) -> Result<()> {
        Ok(())
    }

    fn new(alloc: Global, _capacity: usize, config: &FifoConfig) -> Result<Self> {
        Self::check(config)?;
        Ok(Fifo {
            queue: DatedLists::new(alloc, 1),
            alloc,
        })
    }

    fn takes(&self, _config: &FifoConfig) -> bool {
        true
    }

    fn update(&mut self, _capacity: usize, config: Option<&FifoConfig>) -> Result<()> {
        match config {
            Some(config) => Self::check(config),
            None => Ok(()),
        }
    }

    #[inline(always)]
    fn reserve(&mut self) -> Result<()> {
        match self.queue.reserve(1) {
            Ok(()) => Ok(()),
            Err(_) => Err(Error::new(Reason::NoMemory)),
        }
    }

    #[inline(always)]
    fn reserve_to(&mut self, wanted: usize) -> Result<()> {
        match self.queue.reserve_to(wanted) {
            Ok(()) => Ok(()),
            Err(_) => Err(Error::new(Reason::NoMemory)),
        }
    }

    #[inline(always)]
    fn next_place(&self) -> Place {
        self.queue.next_place()
    }

    #[inline(always)]
    fn push_at(&mut self, place: Place, item: Item) {
        self.queue.push_back_at(0, place, Kept::of(item));
    }

    #[inline(always)]
    fn pop_at(&mut self) -> Result<Option<(Place, Item)>> {
        Ok(whole_found(self.queue.pop_front_at(0)))
    }

    #[inline(always)]
    fn remove(&mut self, place: Place) -> Item {
        self.queue.remove(place).whole()
    }

    fn reserve_clear(&mut self) -> Result<()> {
        Ok(())
    }

    fn clear(&mut self) {
        while self.queue.pop_front(0).is_some() {}
    }

    #[inline(always)]
    fn acquire(&mut self, _place: Place) {}

    #[inline(always)]
    fn release(&mut self, _place: Place) {}

    #[inline(always)]
    fn ahead(&self) -> (Option<Place>, Option<Place>) {
        self.queue.first_two(0)
    }

    #[inline(always)]
    fn expired(&self, now: u64) -> Option<Place> {
        first_of_lists(&self.queue, 1, now)
    }

    #[inline(always)]
    fn span(&self) -> usize {
        self.queue.span()
    }

    #[inline(always)]
    fn item(&self, place: Place) -> Item {
        self.queue.get(place).whole()
    }

    fn order(&self) -> Result<Vec<Item>> {
        let mut items = Vec::new(self.alloc);
        append_items(&self.queue, 0, &mut items)?;
        Ok(items)
    }

    #[inline(always)]
    fn pinned_weight(&self) -> usize {
        0
    }

    #[inline(always)]
    fn is_pinned(&self, _place: Place) -> bool {
        false
    }

    fn looks(&self) -> u128 {
        0
    }
}
