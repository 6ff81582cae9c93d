//! S3-FIFO: a small and a main queue, and a ghost queue that remembers what left the small one.

ghost use Rattle.std.specs.Prelude.{◌≡◌, ℕ, ◌+◌, ◌*◌, ◌<◌, ◌≤◌, Some, None, Option, option_map, IfNone, IfSome, IfOk, IfErr, OnOk, OnErr, min, length};
ghost use Rattle.foyer_policy.specs.Policy.{Pops};
ghost use Rattle.foyer_policy.specs.S3Fifo.{S3FifoView, s3fifo, s3fifo_looks};
ghost use Rattle.foyer_policy.specs.S3FifoLaws.{s3fifo_lawful};
ghost use Rattle.foyer_policy.specs.declared.error.Reason.TheVariants.{NoMemory};
ghost use Rattle.foyer_policy.specs.S3FifoQueues.{S3Queues, IsSound, item_at, view_of, PlacesAfter, HasRoomToPop, CanClear, WantsMemory};

mod queues;

use crate::dated_lists::DatedLists;
use crate::due::first_of_lists;
use crate::error::{Error, Field, Reason, Result};
use crate::eviction::Eviction;
use crate::ghost_queue::GhostQueue;
use crate::limit::{Range, check_ratio, limit_of};
use crate::lists::Place;
use crate::queued::{Queued, append_items};
use crate::types::{Item, Ratio};
pub use queues::S3FifoState;
use queues::{MAIN, MOST, Node, SMALL, count, next_victim, pop_victim};
use serde::{Deserialize, Serialize};
use std::alloc::Global;
use std::marker::Model;

/// The configuration of an [`S3Fifo`].
#[derive(Clone, Debug, Drop, PartialEq, Eq, Serialize, Deserialize)]
pub struct S3FifoConfig {
    /// The part of the capacity that the small queue may weigh before a pop takes from it, above 0 and below 1.
    pub small_queue_capacity_ratio: Ratio,
    /// The part of the capacity that the ghost queue may weigh, any number.
    pub ghost_queue_capacity_ratio: Ratio,
    /// From this frequency on, a pop moves a record of the small queue to the main queue instead of evicting it. More
    /// than 3 counts as 3.
    pub small_to_main_freq_threshold: u8,
}

impl Default for S3FifoConfig {
    ghost use Rattle.std.specs.Prelude.{◌≡◌};

    ghost is_default = { λ c. c ≡ record {
      small_queue_capacity_ratio = record { num = 1; den = 10 };
      ghost_queue_capacity_ratio = record { num = 1; den = 1 };
      small_to_main_freq_threshold = 1;
    } };

    /// Returns a small queue of one tenth, a ghost queue of the whole capacity and a threshold of 1.
    fn default() -> S3FifoConfig {
        S3FifoConfig {
            small_queue_capacity_ratio: Ratio { num: 1, den: 10 },
            ghost_queue_capacity_ratio: Ratio { num: 1, den: 1 },
            small_to_main_freq_threshold: 1,
        }
    }
}

/// S3-FIFO (Yang and others, "FIFO queues are all you need for cache eviction", SOSP 2023): a small queue for new
/// records, a main queue for those that were used, and a ghost queue that remembers what left the small one.
///
/// Each use adds 1 to a record's frequency, up to 3. If the small queue weighs more than its limit, a pop goes along
/// it: records at or above the threshold move to the main queue, and the first one below it leaves. Otherwise the
/// first record of the main queue with frequency 0 leaves; each one before it is lowered by 1 and goes to the back. A
/// record whose hash the ghost queue remembers is inserted into the main queue.
#[derive(Drop)]
pub struct S3Fifo {
    queues: DatedLists<Node, 2>,
    ghost_queue: GhostQueue,
    small_weight: usize,
    limit: usize,
    small_ratio: Ratio,
    ghost_ratio: Ratio,
    threshold: u8,
    looks: u128,
    alloc: Global,
}

impl Model for S3Fifo {
    ghost Value = { S3Queues };

    ghost view = { λ s. record {
      nodes = s.queues;
      ghost = s.ghost_queue;
      limit = s.limit;
      small_ratio = s.small_ratio;
      ghost_ratio = s.ghost_ratio;
      threshold = s.threshold;
      looks = s.looks;
    } };

    ghost invariant = { λ s. IsSound s.queues.lists s.small_weight s.small_ratio s.ghost_ratio };
}

impl S3Fifo {
    // Removes the victim, for which the ghost queue has room, and returns it with its place.
    fn pop_reserved(&mut self) -> Option<(Place, Item)>
        requires room { HasRoomToPop self.old }
        ensures stood { IfSome result (λ e. item_at self.old.nodes.lists e.0 ≡ Some e.1) }
        ensures pops { Pops s3fifo (view_of self.old) (option_map (λ e. e.1) result) (view_of self.new) }
        ensures places { PlacesAfter (option_map (λ e. e.1) result) self.old.nodes.lists self.new.nodes.lists }
        ensures none { IfNone result ((p : ℕ) → item_at self.new.nodes.lists p ≡ None) }
        ensures looked { self.new.looks ≡ s3fifo_looks (view_of self.old) }
        ensures few { self.new.looks ≤ 4 * length (s3fifo.order (view_of self.old)) }
        ensures room { self.old.nodes.room ≤ self.new.nodes.room }
        ensures span { self.new.nodes.span ≡ self.old.nodes.span }
        ensures ghost_room { self.old.ghost.room ≤ self.new.ghost.room + 1 }
        ensures ghost_capacity { self.new.ghost.capacity ≡ self.old.ghost.capacity }
    {
        let victim = pop_victim(
            &mut self.queues,
            &mut self.small_weight,
            &mut self.ghost_queue,
            self.limit,
            self.threshold,
        );
        match victim {
            Some(victim) => {
                self.looks = victim.looks;
                Some((victim.at, victim.item))
            }
            None => {
                self.looks = 0;
                None
            }
        }
    }
}

impl Eviction for S3Fifo {
    type Config = S3FifoConfig;

    ghost View = { S3FifoView };

    ghost model = { s3fifo };

    ghost view = { view_of };

    ghost at = { λ s p. item_at s.nodes.lists p };

    ghost room = { λ s. s.nodes.room };

    ghost span = { λ s. s.nodes.span };

    ghost can_clear = { CanClear };

    ghost pop_wants_memory = { WantsMemory };

    ghost looked = { λ s. s.looks };

    ghost lawful = { s3fifo_lawful };

    // The ratio of the small queue, and then the denominator of the ghost queue's.
    fn check(config: &S3FifoConfig) -> Result<()> {
        check_ratio(
            Range::Open,
            Field::SmallQueue,
            config.small_queue_capacity_ratio,
        )?;
        if config.ghost_queue_capacity_ratio.den == 0 {
            return Err(Error::new(Reason::ZeroDenominator));
        }
        Ok(())
    }

    fn new(alloc: Global, capacity: usize, config: &S3FifoConfig) -> Result<Self> {
        Self::check(config)?;
        let small_ratio = config.small_queue_capacity_ratio;
        let ghost_ratio = config.ghost_queue_capacity_ratio;
        Ok(S3Fifo {
            queues: DatedLists::new(alloc, 2),
            ghost_queue: GhostQueue::new(alloc, limit_of(capacity, ghost_ratio)),
            small_weight: 0,
            limit: limit_of(capacity, small_ratio),
            small_ratio,
            ghost_ratio,
            threshold: config.small_to_main_freq_threshold.min(MOST),
            looks: 0,
            alloc,
        })
    }

    fn takes(&self, _config: &S3FifoConfig) -> bool {
        true
    }

    fn update(&mut self, capacity: usize, config: Option<&S3FifoConfig>) -> Result<()> {
        if let Some(config) = config {
            Self::check(config)?;
            self.small_ratio = config.small_queue_capacity_ratio;
            self.ghost_ratio = config.ghost_queue_capacity_ratio;
            self.threshold = config.small_to_main_freq_threshold.min(MOST);
        }
        self.limit = limit_of(capacity, self.small_ratio);
        self.ghost_queue
            .update(limit_of(capacity, self.ghost_ratio));
        Ok(())
    }

    #[inline(always)]
    fn reserve(&mut self) -> Result<()> {
        self.queues.reserve(1)
    }

    #[inline(always)]
    fn reserve_to(&mut self, wanted: usize) -> Result<()> {
        self.queues.reserve_to(wanted)
    }

    #[inline(always)]
    fn next_place(&self) -> Place {
        self.queues.next_place()
    }

    #[inline(always)]
    fn push_at(&mut self, place: Place, item: Item) {
        let is_main = self.ghost_queue.contains(item.hash);
        let state = S3FifoState {
            is_main,
            ..S3FifoState::default()
        };
        if is_main {
            self.queues
                .push_back_at(MAIN, place, Queued::of(item, state));
            return;
        }
        self.small_weight += item.weight;
        self.queues
            .push_back_at(SMALL, place, Queued::of(item, state));
    }

    fn pop_at(&mut self) -> Result<Option<(Place, Item)>>
        ensures few { OnOk result (self.new.looks ≤ 4 * length (s3fifo.order (view_of self.old))) }

        // and what every policy ensures
        ensures stood { IfOk result (λ found. IfSome found (λ e. item_at self.old.nodes.lists e.0 ≡ Some e.1)) }
        ensures pops { IfOk result (λ found.
            Pops s3fifo (view_of self.old) (option_map (λ e. e.1) found) (view_of self.new)) }
        ensures places { IfOk result (λ found.
            PlacesAfter (option_map (λ e. e.1) found) self.old.nodes.lists self.new.nodes.lists) }
        ensures looked { OnOk result (self.new.looks ≡ s3fifo_looks (view_of self.old)) }
        ensures room { self.old.nodes.room ≤ self.new.nodes.room }
        ensures span { self.new.nodes.span ≡ self.old.nodes.span }
        ensures refused { IfErr result (λ e. e ≡ NoMemory) }
        ensures granted { OnErr result (WantsMemory self.old) }
        ensures err_view { OnErr result (view_of self.new ≡ view_of self.old) }
        ensures err_places { OnErr result ((p : ℕ) → item_at self.new.nodes.lists p ≡ item_at self.old.nodes.lists p) }
        ensures err_looked { OnErr result (self.new.looks ≡ self.old.looks) }
    {
        if self.small_weight > self.limit && self.ghost_queue.capacity() > 0 {
            self.ghost_queue.reserve(1)?;
        }
        Ok(self.pop_reserved())
    }

    #[inline(always)]
    fn remove(&mut self, place: Place) -> Item {
        let node = self.queues.remove(place);
        let item = node.whole();
        let state = node.state();
        if !state.is_main {
            self.small_weight -= item.weight;
        }
        item
    }

    // A clear enters only records of the small queue in the ghost queue, and none if that queue is within its limit.
    fn reserve_clear(&mut self) -> Result<()> {
        if self.small_weight <= self.limit || self.ghost_queue.capacity() == 0 {
            return Ok(());
        }
        self.ghost_queue.reserve(count(&self.queues, SMALL))
    }

    fn clear(&mut self) {
        while self.pop_reserved().is_some() {}
    }

    #[inline(always)]
    fn acquire(&mut self, place: Place) {
        let state = self.queues.get(place).state();
        let used = S3FifoState {
            frequency: state.frequency.saturating_add(1).min(MOST),
            ..state
        };
        self.queues.set_state(place, used);
    }

    #[inline(always)]
    fn release(&mut self, _place: Place) {}

    // A use counts at the node.
    #[inline(always)]
    fn look_ahead(&self, place: Place) -> bool {
        self.queues.list_of(place) < 2
    }

    #[inline(always)]
    fn ahead(&self) -> (Option<Place>, Option<Place>) {
        let victim = if self.small_weight > self.limit {
            next_victim(&self.queues, SMALL, self.threshold)
        } else {
            next_victim(&self.queues, MAIN, 1)
        };
        match victim {
            Some(place) => (victim, self.queues.next(place)),
            None => (None, None),
        }
    }

    #[inline(always)]
    fn expired(&self, now: u64) -> Option<Place> {
        first_of_lists(&self.queues, 2, now)
    }

    #[inline(always)]
    fn span(&self) -> usize {
        self.queues.span()
    }

    #[inline(always)]
    fn item(&self, place: Place) -> Item {
        self.queues.get(place).whole()
    }

    fn order(&self) -> Result<Vec<Item>> {
        let mut items = Vec::new(self.alloc);
        append_items(&self.queues, SMALL, &mut items)?;
        append_items(&self.queues, MAIN, &mut items)?;
        Ok(items)
    }

    #[inline(always)]
    fn pinned_weight(&self) -> usize {
        0
    }

    #[inline(always)]
    fn is_pinned(&self, _place: Place) -> bool {
        false
    }

    fn looks(&self) -> u128 {
        self.looks
    }
}
