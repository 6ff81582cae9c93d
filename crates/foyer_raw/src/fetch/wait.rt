//! What a caller waits with.

ghost use Rattle.std.specs.Prelude.{◌≡◌, ⊤, IsErr, IsNone, IsOk, IsSome, IsSomeAnd, IfErr, MatchOption, IfOk, IfSome, Ok, Err, Some, None, true, false};
ghost use Rattle.futures.specs.Task.{Covers, Keeps};
ghost use Rattle.futures.specs.Poll.{IfReady, OnPending};
ghost use Rattle.futures.specs.Channel.{completed_source};
ghost use Rattle.foyer_policy.specs.declared.error.Reason.TheVariants.{Spent};
ghost use Rattle.foyer_raw.specs.Polls.{GivesAny};

use crate::entry::RawCacheEntry;
use crate::pipe::Pipe;
use crate::shares::Shares;
use crate::ticket::{Answer, Waiter};
use foyer_core::{Finder, TagFinder};
use foyer_policy::{Error, EventListener, Eviction, Key, Properties, Reason, Result, Value};
use futures::Future;
use futures::channel::oneshot::Canceled;
use futures::task::{Context, Poll};
use std::fmt::{self, Debug};
use std::sync::Wait;

/// A future of an entry, or of none. If it is dropped, it gives back the handle that it was sent, if any.
pub struct RawWait<H, E, K, V, S, P, W, A, L, Q, R, I = TagFinder<K>>
where
    H: Wait + Drop,
    E: Eviction,
    K: Key,
    V: Value,
    S: Drop,
    P: Properties,
    W: Drop,
    A: Drop,
    L: EventListener<Key = K, Value = V>,
    I: Finder<K>,
    Q: Pipe<Key = K, Value = V, Properties = P>,
    R: Drop,
{
    // Until the result came.
    open: Option<
        (
            Shares<H, E, K, V, S, P, W, A, L, Q, R, I>,
            Waiter<Answer<K, V, P>>,
        ),
    >,
}

impl<H, E, K, V, S, P, W, A, L, Q, R, I> RawWait<H, E, K, V, S, P, W, A, L, Q, R, I>
where
    H: Wait + Drop,
    E: Eviction,
    K: Key,
    V: Value,
    S: Drop,
    P: Properties,
    W: Drop,
    A: Drop,
    L: EventListener<Key = K, Value = V>,
    I: Finder<K>,
    Q: Pipe<Key = K, Value = V, Properties = P>,
    R: Drop,
{
    // Makes a wait for what this receiver gets.
    pub(crate) fn new(
        shares: Shares<H, E, K, V, S, P, W, A, L, Q, R, I>,
        waiter: Waiter<Answer<K, V, P>>,
    ) -> Self
        ensures { IsSome result.open × IfSome result.open (λ held. held.1 ≡ waiter) }
    {
        RawWait {
            open: Some((shares, waiter)),
        }
    }

    // Returns the result if it came already, and else the wait unchanged.
    pub(crate) fn try_now(
        mut self,
    ) -> std::result::Result<
        Result<Option<RawCacheEntry<H, E, K, V, S, P, W, A, L, Q, R, I>>>,
        Self,
    > {
        let Some((shares, mut waiter)) = self.open.take() else {
            return Ok(Err(Error::new(Reason::Spent)));
        };
        match waiter.try_recv() {
            Ok(Some(answer)) => Ok(Self::entry_of(shares, Ok(answer))),
            Ok(None) => {
                self.open = Some((shares, waiter));
                Err(self)
            }
            Err(canceled) => Ok(Self::entry_of(shares, Err(canceled))),
        }
    }

    // The entry of what came through the channel, if one did.
    fn entry_of(
        shares: Shares<H, E, K, V, S, P, W, A, L, Q, R, I>,
        received: std::result::Result<Result<Answer<K, V, P>>, Canceled>,
    ) -> Result<Option<RawCacheEntry<H, E, K, V, S, P, W, A, L, Q, R, I>>> {
        match received {
            Ok(Ok(Some(ticket))) => match ticket.into_core() {
                Some(core) => Ok(Some(shares.entry(core))),
                None => Ok(None),
            },
            Ok(Ok(None)) => Ok(None),
            Ok(Err(error)) => Err(error),
            Err(_) => Err(Error::new(Reason::ChannelClosed)),
        }
    }
}

impl<H, E, K, V, S, P, W, A, L, Q, R, I> Drop for RawWait<H, E, K, V, S, P, W, A, L, Q, R, I>
where
    H: Wait + Drop,
    E: Eviction,
    K: Key,
    V: Value,
    S: Drop,
    P: Properties,
    W: Drop,
    A: Drop,
    L: EventListener<Key = K, Value = V>,
    I: Finder<K>,
    Q: Pipe<Key = K, Value = V, Properties = P>,
    R: Drop,
{
    fn drop(self) {
        let RawWait { open } = self;
        let Some((shares, mut waiter)) = open else {
            return;
        };
        // From here on a sender has its answer back.
        waiter.close();
        if let Ok(Some(Ok(Some(ticket)))) = waiter.try_recv() {
            if let Some(core) = ticket.into_core() {
                shares.give_back(core);
            }
        }
    }
}

impl<H, E, K, V, S, P, W, A, L, Q, R, I> Future for RawWait<H, E, K, V, S, P, W, A, L, Q, R, I>
where
    H: Wait + Drop,
    E: Eviction,
    K: Key,
    V: Value,
    S: Drop,
    P: Properties,
    W: Drop,
    A: Drop,
    L: EventListener<Key = K, Value = V>,
    I: Finder<K>,
    Q: Pipe<Key = K, Value = V, Properties = P>,
    R: Drop,
{
    type Output = Result<Option<RawCacheEntry<H, E, K, V, S, P, W, A, L, Q, R, I>>>;

    // the end of its own channel
    ghost needs = { λ wait source. IsSomeAnd wait.open (λ held. source ≡ completed_source held.1) };

    /// Gives the result once it came: an entry, or none if the fetch found nothing.
    ///
    /// # Errors
    /// F14 if the sender is gone, F16 if a result was given before, otherwise the error with which the fetch ended.
    fn poll(&mut self, cx: &mut Context<'_>) -> Poll<Self::Output>
        ensures value { IfReady result (λ _. ⊤) }
        ensures again { OnPending result ⊤ }
        ensures same { GivesAny result }
        ensures registered { OnPending result (Covers cx.new (λ source. IsSomeAnd self.new.open (λ held. source ≡ completed_source held.1))) }
        ensures kept { Keeps cx.old cx.new }
        ensures once { IfReady result (λ _. IsNone self.new.open) }
        ensures spent { IsNone self.old.open → (result ≡ Poll.Ready (Err Spent)) × (self.new ≡ self.old) }
    {
        let Some((shares, mut waiter)) = self.open.take() else {
            return Poll::Ready(Err(Error::new(Reason::Spent)));
        };
        let Poll::Ready(received) = waiter.poll(cx) else {
            self.open = Some((shares, waiter));
            return Poll::Pending;
        };
        Poll::Ready(Self::entry_of(shares, received))
    }
}

impl<H, E, K, V, S, P, W, A, L, Q, R, I> Debug for RawWait<H, E, K, V, S, P, W, A, L, Q, R, I>
where
    H: Wait + Drop,
    E: Eviction,
    K: Key,
    V: Value,
    S: Drop,
    P: Properties,
    W: Drop,
    A: Drop,
    L: EventListener<Key = K, Value = V>,
    I: Finder<K>,
    Q: Pipe<Key = K, Value = V, Properties = P>,
    R: Drop,
{
    fn fmt<X: fmt::Write>(&self, f: &mut fmt::Formatter<X>) -> fmt::Result {
        f.debug_struct("RawWait").finish()
    }
}

/// The result of a look-up that fetches what is missing: an entry at once, or a wait.
#[derive(Drop)]
pub enum RawGetOrFetch<H, E, K, V, S, P, W, A, L, Q, R, I = TagFinder<K>>
where
    H: Wait + Drop,
    E: Eviction,
    K: Key,
    V: Value,
    S: Drop,
    P: Properties,
    W: Drop,
    A: Drop,
    L: EventListener<Key = K, Value = V>,
    I: Finder<K>,
    Q: Pipe<Key = K, Value = V, Properties = P>,
    R: Drop,
{
    /// The entry, until it is taken.
    Hit(Option<RawCacheEntry<H, E, K, V, S, P, W, A, L, Q, R, I>>),
    /// A wait for the entry that is fetched.
    Miss(RawWait<H, E, K, V, S, P, W, A, L, Q, R, I>),
}

impl<H, E, K, V, S, P, W, A, L, Q, R, I> RawGetOrFetch<H, E, K, V, S, P, W, A, L, Q, R, I>
where
    H: Wait + Drop,
    E: Eviction,
    K: Key,
    V: Value,
    S: Drop,
    P: Properties,
    W: Drop,
    A: Drop,
    L: EventListener<Key = K, Value = V>,
    I: Finder<K>,
    Q: Pipe<Key = K, Value = V, Properties = P>,
    R: Drop,
{
    ghost use Rattle.foyer_raw.specs.declared.fetch.wait.RawGetOrFetch.TheVariants.{Hit, Miss};

    /// Returns whether the look-up missed, so that its entry is still to come.
    pub fn need_await(&self) -> bool
        ensures { elim self.now as (λ _. Type 0) [ Hit _ ↦ result ≡ false | Miss _ ↦ result ≡ true ] }
    {
        matches!(self, RawGetOrFetch::Miss(_))
    }

    /// Returns the entry of a hit, or a miss unchanged.
    ///
    /// # Errors
    /// F16 if the entry of a hit was taken before.
    pub fn try_unwrap(
        self,
    ) -> std::result::Result<Result<RawCacheEntry<H, E, K, V, S, P, W, A, L, Q, R, I>>, Self>
        ensures { elim self as (λ _. Type 0) [
          | Hit entry ↦ IfOk result (λ answer. MatchOption entry (answer ≡ Err Spent) (λ e. answer ≡ Ok e)) × IsOk result
          | Miss _ ↦ IfErr result (λ back. back ≡ self) × IsErr result
        ] }
    {
        match self {
            RawGetOrFetch::Hit(Some(entry)) => Ok(Ok(entry)),
            RawGetOrFetch::Hit(None) => Ok(Err(Error::new(Reason::Spent))),
            RawGetOrFetch::Miss(wait) => Err(RawGetOrFetch::Miss(wait)),
        }
    }
}

impl<H, E, K, V, S, P, W, A, L, Q, R, I> Future
    for RawGetOrFetch<H, E, K, V, S, P, W, A, L, Q, R, I>
where
    H: Wait + Drop,
    E: Eviction,
    K: Key,
    V: Value,
    S: Drop,
    P: Properties,
    W: Drop,
    A: Drop,
    L: EventListener<Key = K, Value = V>,
    I: Finder<K>,
    Q: Pipe<Key = K, Value = V, Properties = P>,
    R: Drop,
{
    type Output = Result<Option<RawCacheEntry<H, E, K, V, S, P, W, A, L, Q, R, I>>>;

    ghost use Rattle.foyer_raw.specs.declared.fetch.wait.RawGetOrFetch.TheVariants.{Hit, Miss};

    /// Gives the entry of a hit, or the result of the wait.
    ///
    /// # Errors
    /// F16 if a result was given before, otherwise the errors of the wait.
    fn poll(&mut self, cx: &mut Context<'_>) -> Poll<Self::Output>
        ensures value { IfReady result (λ _. ⊤) }
        ensures again { OnPending result ⊤ }
        ensures same { GivesAny result }
        ensures registered { OnPending result (Covers cx.new (λ _. ⊥)) }
        ensures kept { Keeps cx.old cx.new }
        ensures hit { elim self.old as (λ _. Type 0) [
          | Hit entry ↦ MatchOption entry (result ≡ Poll.Ready (Err Spent)) (λ e. result ≡ Poll.Ready (Ok (Some e))) × (self.new ≡ Hit None)
          | Miss _ ↦ Unit {0}
        ] }
    {
        match self {
            RawGetOrFetch::Hit(entry) => match entry.take() {
                Some(entry) => Poll::Ready(Ok(Some(entry))),
                None => Poll::Ready(Err(Error::new(Reason::Spent))),
            },
            RawGetOrFetch::Miss(wait) => wait.poll(cx),
        }
    }
}

impl<H, E, K, V, S, P, W, A, L, Q, R, I> Debug for RawGetOrFetch<H, E, K, V, S, P, W, A, L, Q, R, I>
where
    H: Wait + Drop,
    E: Eviction,
    K: Key,
    V: Value,
    S: Drop,
    P: Properties,
    W: Drop,
    A: Drop,
    L: EventListener<Key = K, Value = V>,
    I: Finder<K>,
    Q: Pipe<Key = K, Value = V, Properties = P>,
    R: Drop,
{
    fn fmt<X: fmt::Write>(&self, f: &mut fmt::Formatter<X>) -> fmt::Result {
        f.write_str(match self {
            RawGetOrFetch::Hit(_) => "Hit",
            RawGetOrFetch::Miss(_) => "Miss",
        })
    }
}
