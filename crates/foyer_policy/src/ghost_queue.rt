//! The ghost queue, which remembers the hashes of records that left lately.

ghost use Rattle.std.specs.Prelude.{◌≡◌, ◌+◌, ◌≤◌, ◌<◌, min, [], IfErr, OnOk, OnErr, IsOk};
ghost use Rattle.std.specs.HashSet.{spare};
ghost use Rattle.std.specs.VecDeque.{deque_len, deque_capacity};
ghost use Rattle.std.specs.FinSet.{contains, empty};
ghost use Rattle.foyer_policy.specs.Items.{fit, over};
ghost use Rattle.foyer_policy.specs.GhostQueue.{pair_weight, ghost_weight, without_hashes, ghost_of, ghost_push, ghost_update, LongestTailsAreKept};
ghost use Rattle.foyer_policy.specs.GhostParts.{set_of};
ghost use Rattle.foyer_policy.specs.declared.error.Reason.TheVariants.{NoMemory};

use crate::error::{Error, Reason, Result};
use std::alloc::Global;
use std::collections::{HashSet, VecDeque};
use std::marker::Model;

/// Records that left lately, oldest first, as pairs of a hash and a weight, with the set of remembered hashes.
///
/// The pairs weigh at most the capacity, or a single pair weighs more, perhaps with some of weight 0. After an update
/// to capacity 0 all pairs stay, whatever they weigh. A pair that leaves takes its hash out of the set, even if a
/// younger pair has the same hash.
#[derive(Drop)]
pub struct GhostQueue {
    pairs: VecDeque<(u64, usize)>,
    hashes: HashSet<u64>,
    capacity: usize,
    weight: usize,
}

impl Model for GhostQueue {
    ghost use Rattle.foyer_policy.specs.GhostQueue.{GhostState};

    ghost Value = { GhostState };

    ghost use Rattle.std.specs.Prelude.{◌≡◌, ◌-◌, min};
    ghost use Rattle.std.specs.HashSet.{spare};
    ghost use Rattle.std.specs.VecDeque.{deque_len, deque_capacity};
    ghost use Rattle.foyer_policy.specs.GhostQueue.{ghost_weight};

    ghost view = { λ g. record {
      pairs = g.pairs.items;
      keys = g.hashes.keys;
      capacity = g.capacity;
      room = min (deque_capacity g.pairs - deque_len g.pairs) (spare g.hashes);
    } };

    ghost invariant = { λ g. g.weight ≡ ghost_weight g.pairs.items };
}

// Drops pairs from the front until the rest weighs at most this, and returns what the rest weighs.
fn shrink(
    pairs: &mut VecDeque<(u64, usize)>,
    hashes: &mut HashSet<u64>,
    weight: usize,
    most: usize,
) -> usize
    requires { weight ≡ ghost_weight pairs.old.items }
    ensures pairs { pairs.new.items ≡ fit pair_weight most pairs.old.items }
    ensures hashes { set_of hashes.new.keys ≡ without_hashes (set_of hashes.old.keys) (over pair_weight most pairs.old.items) }
    ensures weight { result ≡ ghost_weight pairs.new.items }
    ensures capacity { deque_capacity pairs.new ≡ deque_capacity pairs.old }
    ensures len { deque_len pairs.new ≤ deque_len pairs.old }
    ensures spare { spare hashes.old ≤ spare hashes.new }
{
    let mut left = weight;
    while left > most {
        let Some((hash, weight)) = pairs.pop_front() else {
            return 0;
        };
        left -= weight;
        hashes.remove(&hash);
    }
    left
}

/// The law that no pair is dropped without need: an update and a push keep the longest tail of the pairs that fits
/// the weight left to them.
///
/// The function does nothing; the law is its contract.
pub fn longest_tails_are_kept()
    ensures { LongestTailsAreKept }
{}

impl GhostQueue {
    /// Creates an empty queue. Takes no memory.
    pub fn new(alloc: Global, capacity: usize) -> Self
        ensures queue { ghost_of result ≡ record { pairs = []; hashes = empty; capacity = capacity } }
    {
        GhostQueue {
            pairs: VecDeque::new(alloc),
            hashes: HashSet::new(alloc),
            capacity,
            weight: 0,
        }
    }

    /// Sets the capacity, and drops pairs from the front while they weigh more. With capacity 0 none is dropped.
    /// Takes no memory.
    pub fn update(&mut self, capacity: usize)
        ensures queue { ghost_of self.new ≡ ghost_update (ghost_of self.old) capacity }
    {
        self.capacity = capacity;
        if capacity > 0 {
            self.weight = shrink(&mut self.pairs, &mut self.hashes, self.weight, capacity);
        }
    }

    /// Makes room for so many pushes.
    ///
    /// # Errors
    /// F7 if memory runs out; nothing else has changed.
    pub fn reserve(&mut self, more: usize) -> Result<()>
        ensures room { OnOk result (more ≤ self.new.room) }
        ensures queue { ghost_of self.new ≡ ghost_of self.old }
        ensures capacity { self.new.capacity ≡ self.old.capacity }
        ensures kept { self.old.room ≤ self.new.room }
        ensures refused { IfErr result (λ e. e ≡ NoMemory) }
        ensures had_room { more ≤ self.old.room → IsOk result }
    {
        let Ok(()) = self.pairs.reserve(more) else {
            return Err(Error::new(Reason::NoMemory));
        };
        let Ok(()) = self.hashes.reserve(more) else {
            return Err(Error::new(Reason::NoMemory));
        };
        Ok(())
    }

    /// Remembers a hash with its weight, as `push` does. Needs room, and takes no memory.
    pub fn push_reserved(&mut self, hash: u64, weight: usize)
        requires { 0 < self.old.capacity → 0 < self.old.room }
        ensures queue { ghost_of self.new ≡ ghost_push (ghost_of self.old) hash weight }
        ensures room { self.old.room ≤ self.new.room + 1 }
        ensures capacity { self.new.capacity ≡ self.old.capacity }
    {
        if self.capacity == 0 {
            return;
        }
        let most = self.capacity.saturating_sub(weight);
        let left = shrink(&mut self.pairs, &mut self.hashes, self.weight, most);
        self.pairs.push_back_reserved((hash, weight));
        self.weight = left + weight;
        let _ = self.hashes.insert(hash);
    }

    /// Remembers a hash with its weight.
    ///
    /// Pairs are dropped from the front first, while the others would weigh more than the capacity with the new one,
    /// and weigh something. With capacity 0 nothing changes.
    ///
    /// # Errors
    /// F7 if memory runs out; nothing has changed. Never with capacity 0.
    pub fn push(&mut self, hash: u64, weight: usize) -> Result<()>
        ensures queue { OnOk result (ghost_of self.new ≡ ghost_push (ghost_of self.old) hash weight) }
        ensures refused { IfErr result (λ e. e ≡ NoMemory) }
        ensures granted { OnErr result (0 < self.old.capacity) }
        ensures err { OnErr result (ghost_of self.new ≡ ghost_of self.old) }
    {
        if self.capacity == 0 {
            return Ok(());
        }
        self.reserve(1)?;
        self.push_reserved(hash, weight);
        Ok(())
    }

    /// Returns whether a hash is remembered.
    pub fn contains(&self, hash: u64) -> bool
        ensures { result ≡ contains (ghost_of self.now).hashes hash }
    {
        self.hashes.contains(&hash)
    }

    /// Returns the sum of the weights of the pairs.
    pub fn weight(&self) -> usize
        ensures { result ≡ ghost_weight self.now.pairs }
    {
        self.weight
    }

    /// Returns the capacity.
    pub fn capacity(&self) -> usize
        ensures { result ≡ self.now.capacity }
    {
        self.capacity
    }
}
