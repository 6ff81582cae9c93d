//! The task that fetches a missing key for all that wait for it.

ghost use Rattle.std.specs.Prelude.{◌≡◌, ◌≢◌, ◌⊎◌, IfSome, IsNone, true};
ghost use Rattle.futures.specs.Task.{Covers, Keeps};
ghost use Rattle.futures.specs.Poll.{IfReady, OnPending};
ghost use Rattle.foyer_raw.specs.Steps.{next_state, Leads};

use super::state::{RawFetchState, TaskEvent};
use super::types::{FetchTypes, OptionalFuture, RequiredFuture};
use crate::pipe::Pipe;
use crate::shares::{Fetch, Shares};
use foyer_core::{Finder, TagFinder};
use foyer_policy::{Error, EventListener, Eviction, Fault, Key, Properties, Reason, Value};
use futures::Future;
use futures::task::{Context, Poll};
use std::fmt::{self, Debug};
use std::sync::Wait;

mod ends;
mod polls;

/// The task that fetches a missing key for all that wait for it.
///
/// The spawner of the first caller gets it. If it is dropped before it has ended, all that wait get F15.
pub struct RawFetch<H, E, K, V, S, P, W, A, L, Q, T, I = TagFinder<K>>
where
    H: Wait + Drop,
    E: Eviction,
    K: Key,
    V: Value,
    S: Drop,
    P: Properties,
    W: Drop,
    A: Drop,
    L: EventListener<Key = K, Value = V>,
    I: Finder<K>,
    Q: Pipe<Key = K, Value = V, Properties = P>,
    T: FetchTypes<K, V, P>,
{
    state: RawFetchState,
    fetch: Fetch,
    // Until the value is inserted.
    key: Option<K>,
    shares: Shares<H, E, K, V, S, P, W, A, L, Q, T::Required, I>,
    context: T::Context,
    // The builders, until their fetches are built.
    optional: Option<T::Optional>,
    required: Option<T::Required>,
    // The fetches, while they are polled.
    optional_fetch: Option<OptionalFuture<K, V, P, T>>,
    required_fetch: Option<RequiredFuture<K, V, P, T>>,
    // What the optional fetch failed with.
    fault: Option<Fault>,
    ghost clones: { (k c : K) → K.is_clone k c → K.eq c k ≡ true },
}

/// What a task begins with.
pub(crate) struct Begin<K, C, O, F> {
    /// The fetch.
    pub(crate) fetch: Fetch,
    /// The key.
    pub(crate) key: K,
    /// The builders' context.
    pub(crate) context: C,
    /// The optional builder, if there is one.
    pub(crate) optional: Option<O>,
    /// The first caller's own required builder, if there is one.
    pub(crate) required: Option<F>,
}

impl<H, E, K, V, S, P, W, A, L, Q, T, I> RawFetch<H, E, K, V, S, P, W, A, L, Q, T, I>
where
    H: Wait + Drop,
    E: Eviction,
    K: Key,
    V: Value,
    S: Drop,
    P: Properties,
    W: Drop,
    A: Drop,
    L: EventListener<Key = K, Value = V>,
    I: Finder<K>,
    Q: Pipe<Key = K, Value = V, Properties = P>,
    T: FetchTypes<K, V, P>,
{
    // Makes a task.
    pub(crate) fn new(
        shares: Shares<H, E, K, V, S, P, W, A, L, Q, T::Required, I>,
        begin: Begin<K, T::Context, T::Optional, T::Required>,
    ) -> Self
        requires clones { (k c : K) → K.is_clone k c → K.eq c k ≡ true }
        ensures state { result.state ≡ RawFetchState.Init }
        ensures idle { IsNone result.optional_fetch × IsNone result.required_fetch }
        ensures fetch { result.fetch ≡ begin.fetch }
    {
        let Begin {
            fetch,
            key,
            context,
            optional,
            required,
        } = begin;
        RawFetch {
            state: RawFetchState::Init,
            fetch,
            key: Some(key),
            shares,
            context,
            optional,
            required,
            optional_fetch: None,
            required_fetch: None,
            fault: None,
        }
    }

    /// Returns what the task is doing.
    pub fn state(&self) -> RawFetchState
        ensures { result ≡ self.now.state }
    {
        self.state
    }

    /// Cancels the task, as its drop does.
    pub fn cancel(self) {
        drop(self);
    }

    // Goes to the state after an event.
    fn step(&mut self, event: TaskEvent)
        ensures start { (optional : _) → event ≡ TaskEvent.Start optional → Leads 1 self.old.state self.new.state }
        ensures later { self.old.state ≢ RawFetchState.Init → Leads 1 self.old.state self.new.state }
        ensures state { (r : _) × (self.new.state ≡ next_state self.old.state r event) }
        ensures optional { self.new.optional_fetch ≡ self.old.optional_fetch }
        ensures required { self.new.required_fetch ≡ self.old.required_fetch }
    {
        self.state = self.state.next(self.required.is_some(), event);
    }
}

impl<H, E, K, V, S, P, W, A, L, Q, T, I> Drop for RawFetch<H, E, K, V, S, P, W, A, L, Q, T, I>
where
    H: Wait + Drop,
    E: Eviction,
    K: Key,
    V: Value,
    S: Drop,
    P: Properties,
    W: Drop,
    A: Drop,
    L: EventListener<Key = K, Value = V>,
    I: Finder<K>,
    Q: Pipe<Key = K, Value = V, Properties = P>,
    T: FetchTypes<K, V, P>,
{
    fn drop(self) {
        let RawFetch {
            state,
            fetch,
            key,
            shares,
            context: _,
            optional: _,
            required: _,
            optional_fetch: _,
            required_fetch: _,
            fault: _,
        } = self;
        if state == RawFetchState::Ready {
            return;
        }
        if let Some(key) = key {
            shares.end(&fetch, &key, Error::new(Reason::TaskCancelled));
        }
    }
}

impl<H, E, K, V, S, P, W, A, L, Q, T, I> Debug for RawFetch<H, E, K, V, S, P, W, A, L, Q, T, I>
where
    H: Wait + Drop,
    E: Eviction,
    K: Key,
    V: Value,
    S: Drop,
    P: Properties,
    W: Drop,
    A: Drop,
    L: EventListener<Key = K, Value = V>,
    I: Finder<K>,
    Q: Pipe<Key = K, Value = V, Properties = P>,
    T: FetchTypes<K, V, P>,
{
    fn fmt<X: fmt::Write>(&self, f: &mut fmt::Formatter<X>) -> fmt::Result {
        f.debug_struct("RawFetch")
            .field("state", &self.state)
            .field("id", &self.fetch.id)
            .field("hash", &self.fetch.hash)
            .finish()
    }
}
