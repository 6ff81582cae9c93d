//! A policy, an index and a key whose requests for memory are refused at a stated call, for tests of what stands then.

use foyer_core::Indexer;
use foyer_policy::{Error, Eviction, Item, Key, Place, Reason, Result};
use std::alloc::{AllocError, Global};
use std::hash::{Hash, Hasher};
use std::marker::Model;
use std::sync::Arc;
use std::sync::atomic::{AtomicU64, Ordering};

/// A policy whose request number `AT` is refused, counted from 0: the calls of `reserve_to` for more nodes than there
/// are, `pop_at`, `reserve_clear` and `order`.
#[derive(Drop)]
pub struct RefusingPolicy<E, const AT: u64> {
    policy: E,
    calls: AtomicU64,
}

impl<E: Drop, const AT: u64> RefusingPolicy<E, AT> {
    // One request more: whether it is granted.
    fn grants(&self) -> bool {
        self.calls.fetch_add(1, Ordering::SeqCst) != AT
    }
}

impl<E: Eviction, const AT: u64> Eviction for RefusingPolicy<E, AT> {
    type Config = E::Config;

    ghost View = { E.View };

    ghost model = { E.model };

    ghost view = { λ s. E.view s.policy };

    ghost at = { λ s. E.at s.policy };

    ghost room = { λ s. E.room s.policy };

    ghost span = { λ s. E.span s.policy };

    ghost can_clear = { λ s. E.can_clear s.policy };

    ghost pop_wants_memory = { λ _. Unit {0} };

    ghost looked = { λ s. E.looked s.policy };

    ghost lawful = { E.lawful };

    fn check(config: &E::Config) -> Result<()> {
        E::check(config)
    }

    fn new(alloc: Global, capacity: usize, config: &E::Config) -> Result<Self> {
        let policy = E::new(alloc, capacity, config)?;
        Ok(RefusingPolicy {
            policy,
            calls: AtomicU64::new(0),
        })
    }

    fn takes(&self, config: &E::Config) -> bool {
        self.policy.takes(config)
    }

    fn update(&mut self, capacity: usize, config: Option<&E::Config>) -> Result<()> {
        self.policy.update(capacity, config)
    }

    fn reserve(&mut self) -> Result<()> {
        self.policy.reserve()
    }

    fn reserve_to(&mut self, wanted: usize) -> Result<()> {
        if self.policy.span() < wanted && !self.grants() {
            return Err(Error::new(Reason::NoMemory));
        }
        self.policy.reserve_to(wanted)
    }

    fn next_place(&self) -> Place {
        self.policy.next_place()
    }

    fn push_at(&mut self, place: Place, item: Item) {
        self.policy.push_at(place, item);
    }

    fn pop_at(&mut self) -> Result<Option<(Place, Item)>> {
        if !self.grants() {
            return Err(Error::new(Reason::NoMemory));
        }
        self.policy.pop_at()
    }

    fn remove(&mut self, place: Place) -> Item {
        self.policy.remove(place)
    }

    fn reserve_clear(&mut self) -> Result<()> {
        if !self.grants() {
            return Err(Error::new(Reason::NoMemory));
        }
        self.policy.reserve_clear()
    }

    fn clear(&mut self) {
        self.policy.clear();
    }

    fn acquire(&mut self, place: Place) {
        self.policy.acquire(place);
    }

    fn release(&mut self, place: Place) {
        self.policy.release(place);
    }

    fn expired(&self, now: u64) -> Option<Place> {
        self.policy.expired(now)
    }

    fn span(&self) -> usize {
        self.policy.span()
    }

    fn item(&self, place: Place) -> Item {
        self.policy.item(place)
    }

    fn order(&self) -> Result<Vec<Item>> {
        if !self.grants() {
            return Err(Error::new(Reason::NoMemory));
        }
        self.policy.order()
    }

    fn pinned_weight(&self) -> usize {
        self.policy.pinned_weight()
    }

    fn is_pinned(&self, place: Place) -> bool {
        self.policy.is_pinned(place)
    }

    fn looks(&self) -> u128 {
        self.policy.looks()
    }
}

/// An index whose insert number `AT` is refused, counted from 0, unless it has the key.
#[derive(Drop)]
pub struct RefusingIndex<I, const AT: u64> {
    index: I,
    inserts: AtomicU64,
}

impl<K: Key, I: Indexer<K>, const AT: u64> Indexer<K> for RefusingIndex<I, AT> {
    ghost view = { λ s. I.view s.index };

    ghost respects = { λ s p q same. I.respects s.index p q same };

    fn empty(alloc: Global) -> Self {
        RefusingIndex {
            index: I::empty(alloc),
            inserts: AtomicU64::new(0),
        }
    }

    fn insert(&mut self, hash: u64, key: K, id: u64) -> Result<Option<u64>> {
        let granted = self.inserts.fetch_add(1, Ordering::SeqCst) != AT;
        if self.index.get(hash, &key).is_none() && !granted {
            return Err(Error::new(Reason::NoMemory));
        }
        self.index.insert(hash, key, id)
    }

    fn get(&self, hash: u64, key: &K) -> Option<u64> {
        self.index.get(hash, key)
    }

    fn remove(&mut self, hash: u64, key: &K) -> Option<u64> {
        self.index.remove(hash, key)
    }

    fn drain(&mut self) -> Result<Vec<u64>> {
        self.index.drain()
    }
}

/// How many clones of keys are granted.
pub type Grants = Arc<AtomicU64, Global>;

/// A number as a key, of which so many clones are granted; others are refused.
#[derive(Drop)]
pub struct RefusingKey {
    number: u64,
    grants: Grants,
}

impl RefusingKey {
    /// The key of a number.
    pub fn new(number: u64, grants: &Grants) -> std::result::Result<Self, AllocError> {
        Ok(RefusingKey {
            number,
            grants: Arc::try_clone(grants)?,
        })
    }

    /// The number.
    pub fn number(&self) -> u64 {
        self.number
    }
}

impl Model for RefusingKey {
    ghost use Rattle.std.specs.Prelude.{ℕ};

    ghost Value = { ℕ };

    ghost view = { λ k. k.number };
}

impl PartialEq for RefusingKey {
    ghost use Rattle.std.specs.Prelude.{nat_eq};
    ghost use Rattle.std.specs.Cmp.{nat_eq_equiv, partial_equiv_from_equiv};

    ghost eq = { nat_eq };

    ghost laws = { partial_equiv_from_equiv nat_eq_equiv };

    fn eq(&self, other: &RefusingKey) -> bool {
        self.number == other.number
    }
}

impl Eq for RefusingKey {
    ghost use Rattle.std.specs.Cmp.{nat_eq_equiv};

    ghost laws = { nat_eq_equiv };
}

impl Hash for RefusingKey {
    ghost use Rattle.std.proofs.Common.{rules};

    ghost hash_input = { ⟦<u64 as Hash>⟧.hash_input };

    ghost respects_eq = { Prim.search rules };

    fn hash<H: Hasher>(&self, state: &mut H) {
        self.number.hash(state);
    }
}

impl Clone for RefusingKey {
    ghost use Rattle.std.specs.Prelude.{◌≡◌};

    ghost is_clone = { λ k c. c ≡ k };

    fn clone(&self) -> std::result::Result<Self, AllocError> {
        let left = self.grants.load(Ordering::SeqCst);
        if left == 0 {
            return Err(AllocError);
        }
        self.grants.store(left - 1, Ordering::SeqCst);
        Ok(RefusingKey {
            number: self.number,
            grants: Arc::try_clone(&self.grants)?,
        })
    }
}
