//! w-TinyLFU: least frequently used, with a window for new records.

ghost use Rattle.std.specs.Prelude.{◌≡◌};
ghost use Rattle.foyer_policy.specs.Lfu.{ratios_fault};
ghost use Rattle.foyer_policy.specs.Limit.{ok_unless};

mod segments;

use crate::dated_lists::DatedLists;
use crate::due::first_of_lists;
use crate::error::{Error, Field, Reason, Result};
use crate::eviction::Eviction;
use crate::kept::Kept;
use crate::limit::{Range, check_ratio, limit_of};
use crate::lists::Place;
use crate::queued::append_items;
use crate::sketch::Sketch;
use crate::types::{Item, Ratio};
use segments::{PROBATION, PROTECTED, WINDOW, drain, next_list, settle, weight_if};
use serde::{Deserialize, Serialize};
use std::alloc::Global;
use std::marker::Model;

/// The configuration of an [`Lfu`].
#[derive(Clone, Debug, Drop, PartialEq, Eq, Serialize, Deserialize)]
pub struct LfuConfig {
    /// The part of the capacity that the window may weigh, above 0 and below 1.
    pub window_capacity_ratio: Ratio,
    /// The part of the capacity that protected records may weigh, above 0 and below 1. Both parts together are below
    /// 1.
    pub protected_capacity_ratio: Ratio,
    /// The number of buckets in each row of the sketch, above 0. With more of them, fewer hashes share one, and old
    /// uses fade later.
    pub cmsketch_buckets: u32,
    /// The number of rows of the sketch, above 0.
    pub cmsketch_hashes: u8,
}

impl Default for LfuConfig {
    ghost use Rattle.std.specs.Prelude.{◌≡◌};

    ghost is_default = { λ c. c ≡ record {
      window_capacity_ratio = record { num = 1; den = 10 };
      protected_capacity_ratio = record { num = 8; den = 10 };
      cmsketch_buckets = 2719;
      cmsketch_hashes = 3;
    } };

    /// Returns a window of one tenth, eight tenths for protected records, and 3 rows of 2719 buckets.
    fn default() -> LfuConfig {
        LfuConfig {
            window_capacity_ratio: Ratio { num: 1, den: 10 },
            protected_capacity_ratio: Ratio { num: 8, den: 10 },
            cmsketch_buckets: 2719,
            cmsketch_hashes: 3,
        }
    }
}

// Checks two ratios: each alone, F2 before F3, and then their sum (F4).
fn check_ratios(window: Ratio, protected: Ratio) -> Result<()>
    ensures { result ≡ ok_unless (ratios_fault window protected) }
{
    check_ratio(Range::Open, Field::Window, window)?;
    check_ratio(Range::Open, Field::Protected, protected)?;
    let (window_num, window_den) = (u128::from(window.num), u128::from(window.den));
    let (protected_num, protected_den) = (u128::from(protected.num), u128::from(protected.den));
    if window_num * protected_den + protected_num * window_den >= window_den * protected_den {
        return Err(Error::new(Reason::RatioSum));
    }
    Ok(())
}

/// What an [`Lfu`] keeps beside an item: nothing, since the item's list says it all.
#[derive(Debug, Default, Drop)]
pub struct LfuState {}

/// w-TinyLFU (Einziger, Friedman and Manes, 2017): of two records, the one that was used less often leaves first.
///
/// A record is inserted into the window, and moves to probation when the window weighs more than its part of the
/// capacity. A pop compares the first records of both by how often a sketch has counted their hashes, and takes the
/// one counted less; on a tie, that of probation. A record that is used in probation becomes protected, and leaves
/// only after all others. If the protected records weigh more than their part, the first of them go back to
/// probation.
#[derive(Drop)]
pub struct Lfu {
    lists: DatedLists<Kept, 3>,
    sketch: Sketch,
    window_weight: usize,
    protected_weight: usize,
    window_limit: usize,
    protected_limit: usize,
    window_ratio: Ratio,
    protected_ratio: Ratio,
    alloc: Global,
}

impl Model for Lfu {
    ghost use Rattle.foyer_policy.specs.LfuLists.{LfuLists, IsLfu, lfu_view};

    ghost Value = { LfuLists };

    ghost view = { λ l. record {
      lists = l.lists.lists;
      room = l.lists.room;
      span = l.lists.span;
      window_limit = l.window_limit;
      protected_limit = l.protected_limit;
      window_ratio = l.window_ratio;
      protected_ratio = l.protected_ratio;
      sketch = l.sketch;
    } };

    ghost invariant = { λ l. IsLfu
        (lfu_view (record {
          lists = l.lists.lists;
          room = l.lists.room;
          span = l.lists.span;
          window_limit = l.window_limit;
          protected_limit = l.protected_limit;
          window_ratio = l.window_ratio;
          protected_ratio = l.protected_ratio;
          sketch = l.sketch;
        }))
        l.window_weight
        l.protected_weight };
}

impl Eviction for Lfu {
    ghost use Rattle.foyer_policy.specs.Lists.{find};
    ghost use Rattle.foyer_policy.specs.Lfu.{LfuView, lfu};
    ghost use Rattle.foyer_policy.specs.LfuLaws.{lfu_lawful};
    ghost use Rattle.foyer_policy.specs.LfuLists.{lfu_view};

    type Config = LfuConfig;

    ghost View = { LfuView };

    ghost model = { lfu };

    ghost view = { lfu_view };

    ghost at = { λ l p. find p l.lists };

    ghost room = { λ l. l.room };

    ghost span = { λ l. l.span };

    ghost can_clear = { λ l. Unit {0} };

    ghost pop_wants_memory = { λ l. ⊥ };

    ghost looked = { λ l. 0 };

    ghost lawful = { lfu_lawful };

    // The fields in their order, and the sum right after both ratios.
    fn check(config: &LfuConfig) -> Result<()> {
        check_ratios(
            config.window_capacity_ratio,
            config.protected_capacity_ratio,
        )?;
        if config.cmsketch_buckets == 0 {
            return Err(Error::new(Reason::NoBuckets));
        }
        if config.cmsketch_hashes == 0 {
            return Err(Error::new(Reason::NoRows));
        }
        Ok(())
    }

    fn new(alloc: Global, capacity: usize, config: &LfuConfig) -> Result<Self> {
        Self::check(config)?;
        let sketch = Sketch::new(alloc, config.cmsketch_hashes, config.cmsketch_buckets)?;
        let window_ratio = config.window_capacity_ratio;
        let protected_ratio = config.protected_capacity_ratio;
        Ok(Lfu {
            lists: DatedLists::new(alloc, 3),
            sketch,
            window_weight: 0,
            protected_weight: 0,
            window_limit: limit_of(capacity, window_ratio),
            protected_limit: limit_of(capacity, protected_ratio),
            window_ratio,
            protected_ratio,
            alloc,
        })
    }

    fn takes(&self, _config: &LfuConfig) -> bool {
        true
    }

    fn update(&mut self, capacity: usize, config: Option<&LfuConfig>) -> Result<()> {
        if let Some(config) = config {
            Self::check(config)?;
            self.window_ratio = config.window_capacity_ratio;
            self.protected_ratio = config.protected_capacity_ratio;
        }
        self.window_limit = limit_of(capacity, self.window_ratio);
        self.protected_limit = limit_of(capacity, self.protected_ratio);
        Ok(())
    }

    #[inline(always)]
    fn reserve(&mut self) -> Result<()> {
        self.lists.reserve(1)
    }

    #[inline(always)]
    fn reserve_to(&mut self, wanted: usize) -> Result<()> {
        self.lists.reserve_to(wanted)
    }

    #[inline(always)]
    fn next_place(&self) -> Place {
        self.lists.next_place()
    }

    fn push_at(&mut self, place: Place, item: Item) {
        self.sketch.update(item.hash);
        self.lists.push_back_at(WINDOW, place, Kept::of(item));
        let weight = self.window_weight + item.weight;
        self.window_weight = settle(&mut self.lists, WINDOW, weight, self.window_limit);
    }

    fn pop_at(&mut self) -> Result<Option<(Place, Item)>> {
        let list = next_list(&self.lists, &self.sketch);
        let Some(found) = self.lists.pop_front_at(list) else {
            return Ok(None);
        };
        let item = found.1.whole();
        self.window_weight -= weight_if(list == WINDOW, item.weight);
        self.protected_weight -= weight_if(list == PROTECTED, item.weight);
        Ok(Some((found.0, item)))
    }

    #[inline(always)]
    fn remove(&mut self, place: Place) -> Item {
        let list = self.lists.list_of(place);
        let item = self.lists.remove(place).whole();
        self.window_weight -= weight_if(list == WINDOW, item.weight);
        self.protected_weight -= weight_if(list == PROTECTED, item.weight);
        item
    }

    fn reserve_clear(&mut self) -> Result<()> {
        Ok(())
    }

    fn clear(&mut self) {
        drain(&mut self.lists, WINDOW);
        drain(&mut self.lists, PROBATION);
        drain(&mut self.lists, PROTECTED);
        self.window_weight = 0;
        self.protected_weight = 0;
    }

    // Not put in line: with it, a look-up under `AnyEviction` would be too large to be put in line itself.
    fn acquire(&mut self, place: Place) {
        let item = self.lists.get(place).whole();
        self.sketch.update(item.hash);
        let list = self.lists.list_of(place);
        if list != PROBATION {
            self.lists.move_back(place, list);
            return;
        }
        self.lists.move_back(place, PROTECTED);
        let weight = self.protected_weight + item.weight;
        self.protected_weight = settle(&mut self.lists, PROTECTED, weight, self.protected_limit);
    }

    #[inline(always)]
    fn release(&mut self, _place: Place) {}

    // A use moves the node.
    #[inline(always)]
    fn look_ahead(&self, place: Place) -> bool {
        self.lists.has_neighbors(place)
    }

    #[inline(always)]
    fn ahead(&self) -> (Option<Place>, Option<Place>) {
        self.lists.first_two(PROBATION)
    }

    #[inline(always)]
    fn expired(&self, now: u64) -> Option<Place> {
        first_of_lists(&self.lists, 3, now)
    }

    #[inline(always)]
    fn span(&self) -> usize {
        self.lists.span()
    }

    #[inline(always)]
    fn item(&self, place: Place) -> Item {
        self.lists.get(place).whole()
    }

    fn order(&self) -> Result<Vec<Item>> {
        let mut items = Vec::new(self.alloc);
        append_items(&self.lists, WINDOW, &mut items)?;
        append_items(&self.lists, PROBATION, &mut items)?;
        append_items(&self.lists, PROTECTED, &mut items)?;
        Ok(items)
    }

    #[inline(always)]
    fn pinned_weight(&self) -> usize {
        0
    }

    #[inline(always)]
    fn is_pinned(&self, _place: Place) -> bool {
        false
    }

    fn looks(&self) -> u128 {
        0
    }
}
