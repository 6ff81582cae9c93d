//! The open fetches of a shard: who leads the fetch of a key, and who waits for it.

ghost use Rattle.std.specs.Prelude.{◌≡◌, ◌↔◌, ℕ, ◌+◌, ◌<◌, [], ◌∷◌, Some, None, IsSomeAnd, IfSome, IfNone, OnSome, IfOk, IfErr, OnOk, OnErr, IsTrue, length, true, false, is_some, option_copied};
ghost use Rattle.foyer_core.specs.Slots.{get};
ghost use Rattle.foyer_policy.specs.declared.error.Reason.TheVariants.{NoMemory};
ghost use Rattle.foyer_core.specs.Indexer.{same_key};
ghost use Rattle.foyer_core.specs.Inflight.{AreLinked, AreOpen, AreOpen-prop, HasNumbers, IsFetchOrTake, IsOpen, LacksNumber, OpenFetch, RefusesEnqueue, after_enqueue, after_nothing, asked, closed, enqueued, joined, no_opens, numbers_in, opens_by, waiters_of, with_open};

use crate::indexer::{HashTableIndexer, Indexer};
use crate::outcome::Waiting;
use crate::slots::Slots;
use foyer_policy::{Error, Key, Reason, Result};
use std::alloc::Global;
use std::marker::Model;

mod answering;

/// A fetch that is open.
#[derive(Drop)]
struct Inflight<N, R> {
    id: u64,
    // the time at which it was opened
    opened: u64,
    waiters: Vec<Waiting<N>>,
    // the first builder that a waiter brought
    later: Option<R>,
}

impl<N, R> Model for Inflight<N, R> {
    ghost use Rattle.foyer_core.specs.Inflight.{OpenFetch};

    ghost Value = { OpenFetch N R };

    ghost view = { λ p. record { fetch = p.id; opened = p.opened; tokens = p.waiters.items; later = p.later } };
}

impl<N: Drop, R: Drop> Inflight<N, R> {
    // A new fetch, opened at `now`, with this waiter. F7 if memory runs out.
    fn new(alloc: Global, now: u64, id: u64, waiting: Waiting<N>) -> Result<Self>
        ensures made { IfOk result (λ o. o ≡ record { fetch = id; opened = now; tokens = waiting ∷ []; later = None }) }
        ensures refused { IfErr result (λ e. e ≡ NoMemory) }
    {
        let Ok(mut waiters) = Vec::with_capacity(alloc, 1) else {
            return Err(Error::new(Reason::NoMemory));
        };
        waiters.push_reserved(waiting);
        Ok(Inflight {
            id,
            opened: now,
            waiters,
            later: None,
        })
    }

    // Adds a waiter. Its builder is kept if the fetch has none. F7 if memory runs out; nothing has changed.
    fn join(&mut self, waiting: Waiting<N>, later: Option<R>) -> Result<()>
        ensures joined { OnOk result (self.new ≡ joined (Some self.old) self.old.opened self.old.fetch waiting later) }
        ensures refused { IfErr result (λ e. e ≡ NoMemory) }
        ensures err { OnErr result (self.new ≡ self.old) }
    {
        let Ok(()) = self.waiters.reserve(1) else {
            return Err(Error::new(Reason::NoMemory));
        };
        self.waiters.push_reserved(waiting);
        if self.later.is_none() {
            self.later = later;
        }
        Ok(())
    }

    // Takes the builder that is kept.
    fn take_later(&mut self) -> Option<R>
        ensures later { result ≡ self.old.later }
        ensures taken { self.new ≡ record self.old { later = None } }
    {
        self.later.take()
    }

    // Whether this is the fetch that was asked for, if one was.
    fn is_asked(&self, id: Option<u64>) -> bool
        ensures { result ≡ is_some (asked id (Some self.now)) }
    {
        match id {
            Some(id) => self.id == id,
            None => true,
        }
    }
}

/// What a caller gets that asks for a missing key.
#[derive(Drop)]
pub enum Enqueue<R> {
    /// Nobody fetches the key: the caller leads a new fetch.
    Lead {
        /// The fetch's id.
        id: u64,
        /// The token that the leader waits with.
        token: u64,
        /// The leader's own builder.
        required_fetch_builder: Option<R>,
    },
    /// The key has an open fetch.
    Wait {
        /// The token to wait with.
        token: u64,
    },
}

/// What a fetch that found nothing goes on with.
#[derive(Drop)]
pub enum FetchOrTake<R, N> {
    /// A waiter's builder, to fetch with.
    Fetch(R),
    /// The waiters. The fetch is closed.
    Notifiers(Vec<Waiting<N>>),
}

/// The open fetches of a shard, at most one for each key.
///
/// Keys are looked up together with their hash, and compared by `==`. `N` is the type of waiters, `R` of builders.
#[derive(Drop)]
pub struct InflightManager<K: Key, N: Drop, R: Drop> {
    index: HashTableIndexer<K>,
    inflights: Slots<Inflight<N, R>>,
    next_fetch: u64,
    next_token: u64,
    alloc: Global,
    ghost linked: { AreLinked K.eq (numbers_in index) (get inflights) },
    ghost sound: { AreOpen K.eq (opens_by (numbers_in index) (get inflights) next_fetch next_token) } by { AreOpen-prop K.eq (opens_by (numbers_in index) (get inflights) next_fetch next_token) },
}

impl<K: Key, N: Drop, R: Drop> InflightManager<K, N, R> {
    ghost use Rattle.foyer_core.specs.Inflights.{opens_of};

    /// Creates a manager with no open fetch. The first fetch and the first token have the number 0.
    pub fn new(alloc: Global) -> Self
        ensures { opens_of result ≡ no_opens }
    {
        InflightManager {
            index: HashTableIndexer::new(alloc),
            inflights: Slots::new(alloc),
            next_fetch: 0,
            next_token: 0,
            alloc,
        }
    }

    /// Enters a caller that asks at `now` for a missing key.
    ///
    /// If the key has no open fetch, one is opened and the caller leads it. Otherwise the caller waits, and its
    /// builder is kept if the fetch has none.
    ///
    /// # Errors
    /// F10 if a number isn't below `ids`, then F7 if memory runs out; nothing has changed.
    pub fn enqueue(
        &mut self,
        now: u64,
        hash: u64,
        key: K,
        required_fetch_builder: Option<R>,
        waiter: N,
        ids: u64,
    ) -> Result<Enqueue<R>>
        ensures answer { IfOk result (λ answer. answer ≡ enqueued ((opens_of self.old).by_key (hash, key))
            (opens_of self.old).next_fetch (opens_of self.old).next_token required_fetch_builder) }
        ensures opens { OnOk result (opens_of self.new ≡ after_enqueue K.eq now (opens_of self.old) (hash, key) waiter required_fetch_builder) }
        ensures numbers { OnOk result (HasNumbers ids (opens_of self.old) (hash, key)) }
        ensures refused { IfErr result (λ e. RefusesEnqueue ids (opens_of self.old) (hash, key) e) }
        ensures err { OnErr result (opens_of self.new ≡ opens_of self.old) }
    {
        let Some(number) = self.index.get(hash, &key) else {
            return self.lead(now, hash, key, required_fetch_builder, waiter, ids);
        };
        let token = self.next_token;
        if token >= ids {
            return Err(Error::new(Reason::Ids));
        }
        let Some(inflight) = self.inflights.get_mut(number as usize) else {
            unreachable!();
        };
        inflight.join(Waiting { token, waiter }, required_fetch_builder)?;
        self.next_token += 1;
        Ok(Enqueue::Wait { token })
    }

    // Opens a fetch for the first caller that asks for a key.
    fn lead(
        &mut self,
        now: u64,
        hash: u64,
        key: K,
        required_fetch_builder: Option<R>,
        waiter: N,
        ids: u64,
    ) -> Result<Enqueue<R>>
        requires { numbers_in self.old.index (hash, key) ≡ None }
        ensures answer { IfOk result (λ answer. answer ≡ enqueued {N = N} None self.old.next_fetch self.old.next_token required_fetch_builder) }
        ensures opens { OnOk result (opens_of self.new ≡ after_enqueue K.eq now (opens_of self.old) (hash, key) waiter required_fetch_builder) }
        ensures numbers { OnOk result (HasNumbers ids (opens_of self.old) (hash, key)) }
        ensures refused { IfErr result (λ e. RefusesEnqueue ids (opens_of self.old) (hash, key) e) }
        ensures err { OnErr result (opens_of self.new ≡ opens_of self.old) }
    {
        let id = self.next_fetch;
        let token = self.next_token;
        if id >= ids || token >= ids {
            return Err(Error::new(Reason::Ids));
        }
        let inflight = Inflight::new(self.alloc, now, id, Waiting { token, waiter })?;
        let Ok(()) = self.inflights.reserve() else {
            return Err(Error::new(Reason::NoMemory));
        };
        let number = self.inflights.next_slot();
        if let Err(error) = self.index.insert(hash, key, number as u64) {
            return Err(error);
        }
        let _ = self.inflights.insert(inflight);
        self.next_fetch += 1;
        self.next_token += 1;
        Ok(Enqueue::Lead {
            id,
            token,
            required_fetch_builder,
        })
    }

    /// Closes a key's open fetch and returns its waiters, one or more. With an id, only that fetch.
    ///
    /// Returns `None` if no such fetch is open. Takes no memory.
    pub fn take(&mut self, hash: u64, key: &K, id: Option<u64>) -> Option<Vec<Waiting<N>>>
        ensures waited { IfSome result (λ waiters. 0 < length waiters.items) }
        ensures taken { IfSome result (λ waiters. IsSomeAnd (asked id ((opens_of self.old).by_key (hash, key.now))) (λ o. waiters.items ≡ o.tokens)) }
        ensures none { IfNone result (asked id ((opens_of self.old).by_key (hash, key.now)) ≡ None) }
        ensures opens { OnSome result (opens_of self.new ≡ closed K.eq (opens_of self.old) (hash, key.now)) }
        ensures same { IfNone result (opens_of self.new ≡ opens_of self.old) }
    {
        let number = self.index.get(hash, key)? as usize;
        let Some(inflight) = self.inflights.get(number) else {
            unreachable!();
        };
        if !inflight.is_asked(id) {
            return None;
        }
        let _ = self.index.remove(hash, key);
        let Inflight { waiters, .. } = self.inflights.remove(number);
        Some(waiters)
    }

    // Closes a key's fetch, if one is open, and returns its waiters. Takes no memory.
    #[inline(always)]
    fn close(&mut self, hash: u64, key: &K) -> Vec<Waiting<N>>
        ensures waiters { result.items ≡ waiters_of ((opens_of self.old).by_key (hash, key.now)) }
        ensures closed { opens_of self.new ≡ closed K.eq (opens_of self.old) (hash, key.now) }
    {
        if self.is_empty() {
            return Vec::new(self.alloc);
        }
        match self.take(hash, key, None) {
            Some(waiters) => waiters,
            None => Vec::new(self.alloc),
        }
    }

    /// Takes the builder that an open fetch keeps, to go on with after the fetch found nothing. If it keeps none,
    /// closes the fetch and returns its waiters.
    ///
    /// Returns `None` if the fetch isn't open. Takes no memory.
    pub fn fetch_or_take(&mut self, hash: u64, key: &K, id: u64) -> Option<FetchOrTake<R, N>>
        ensures answer { IfSome result (λ answer. IsSomeAnd (asked (Some id) ((opens_of self.old).by_key (hash, key.now))) (λ o. IsFetchOrTake o answer)) }
        ensures none { IfNone result (asked (Some id) ((opens_of self.old).by_key (hash, key.now)) ≡ None) }
        ensures opens { OnSome result (opens_of self.new ≡ after_nothing K.eq (opens_of self.old) (hash, key.now)) }
        ensures same { IfNone result (opens_of self.new ≡ opens_of self.old) }
    {
        if !self.is_open(hash, key, id) {
            return None;
        }
        if let Some(builder) = self.take_later(hash, key) {
            return Some(FetchOrTake::Fetch(builder));
        }
        let Some(waiters) = self.take(hash, key, None) else {
            unreachable!();
        };
        Some(FetchOrTake::Notifiers(waiters))
    }

    // Takes the builder that a key's open fetch keeps.
    fn take_later(&mut self, hash: u64, key: &K) -> Option<R>
        requires { is_some ((opens_of self.old).by_key (hash, key.now)) ≡ true }
        ensures later { (o : OpenFetch N R) → (opens_of self.old).by_key (hash, key.now) ≡ Some o → result ≡ o.later }
        ensures opens { (o : OpenFetch N R) → (opens_of self.old).by_key (hash, key.now) ≡ Some o
            → opens_of self.new ≡ with_open K.eq (opens_of self.old) (hash, key.now) (Some (record o { later = None })) }
    {
        let number = self.index.get(hash, key)?;
        let Some(inflight) = self.inflights.get_mut(number as usize) else {
            unreachable!();
        };
        inflight.take_later()
    }

    /// Returns whether this fetch of a key is open. Takes no memory.
    pub fn is_open(&self, hash: u64, key: &K, id: u64) -> bool
        ensures is_open { IsTrue result ↔ IsOpen (opens_of self.now) (hash, key.now) id }
        ensures equal_keys { (other : K) → IsTrue (K.eq key.now other)
            → (opens_of self.now).by_key (hash, other) ≡ (opens_of self.now).by_key (hash, key.now) }
    {
        match self.find(hash, key) {
            Some(inflight) => inflight.id == id,
            None => false,
        }
    }

    /// Returns whether `enqueue` would fail with F10 for this key. Takes no memory.
    pub fn lacks(&self, hash: u64, key: &K, ids: u64) -> bool
        ensures yes { result ≡ true → LacksNumber ids (opens_of self.now) (hash, key.now) }
        ensures no { result ≡ false → HasNumbers ids (opens_of self.now) (hash, key.now) }
    {
        self.next_token >= ids || (self.next_fetch >= ids && self.find(hash, key).is_none())
    }

    /// Returns how many callers wait for a key's fetch: 0 if none is open. Takes no memory.
    #[inline(always)]
    pub fn waiters(&self, hash: u64, key: &K) -> usize
        ensures { result ≡ length (waiters_of ((opens_of self.now).by_key (hash, key.now))) }
    {
        match self.find(hash, key) {
            Some(inflight) => inflight.waiters.len(),
            None => 0,
        }
    }

    /// Returns whether no fetch is open. Takes no memory.
    #[inline(always)]
    pub fn is_empty(&self) -> bool
        ensures { IsTrue result ↔ ((q : ℕ × K) → (opens_of self.now).by_key q ≡ None) }
    {
        self.index.is_empty()
    }

    // The open fetch of a key.
    fn find(&self, hash: u64, key: &K) -> Option<&Inflight<N, R>>
        ensures { option_copied result ≡ (opens_of self.now).by_key (hash, key.now) }
    {
        let number = self.index.get(hash, key)? as usize;
        self.inflights.get(number)
    }
}
