//! The result of a look-up that fetches what is missing.

ghost use Rattle.std.specs.Prelude.{◌≡◌, ◌↔◌, ⊤, IfErr, IfOk, IsOk, MatchOption, None, Some, Ok, Err, true, false};
ghost use Rattle.futures.specs.Poll.{IfReady, OnPending};
ghost use Rattle.futures.specs.Task.{Covers, Keeps};
ghost use Rattle.foyer_policy.specs.declared.error.Reason.TheVariants.{Spent};
ghost use Rattle.foyer_raw.specs.Polls.{GivesAny};
ghost use Rattle.foyer_memory.specs.Looks.{entry_of, is_miss};

use crate::entry::CacheEntry;
use crate::kind::Kind;
use crate::of::Of;
use crate::policy_config::PolicyConfig;
use foyer_core::{AdmitAll, CacheProperties, Finder, TagFinder, UnitWeighter};
use foyer_policy::{
    AnyEviction, DefaultHasher, Error, EventListener, Key, Properties, Reason, Result, Value,
};
use foyer_raw::{FetchTypes, NoFetch, NoListener, NoopPipe, Pipe, RawFetch, RawGetOrFetch};
use futures::Future;
use futures::task::{Context, Poll};
use std::fmt::{self, Debug};
use std::sync::Wait;

/// The task that fetches a missing key of a `Cache` for all that wait for it. A spawner takes it and has it polled.
pub type FetchTask<
    H,
    K,
    V,
    S = DefaultHasher,
    P = CacheProperties,
    W = UnitWeighter,
    A = AdmitAll,
    L = NoListener<K, V>,
    Q = NoopPipe<K, V, P>,
    T = NoFetch,
    I = TagFinder<K>,
> = RawFetch<H, AnyEviction, K, V, S, P, W, A, L, Q, T, I>;

/// A future of an entry, which is ready at once on a hit.
pub struct GetOrFetch<
    H,
    K,
    V,
    S = DefaultHasher,
    P = CacheProperties,
    W = UnitWeighter,
    A = AdmitAll,
    L = NoListener<K, V>,
    Q = NoopPipe<K, V, P>,
    T = NoFetch,
    I = TagFinder<K>,
>
where
    H: Wait + Drop,
    K: Key,
    V: Value,
    S: Drop,
    P: Properties,
    W: Drop,
    A: Drop,
    L: EventListener<Key = K, Value = V>,
    I: Finder<K>,
    Q: Pipe<Key = K, Value = V, Properties = P>,
    T: FetchTypes<K, V, P>,
{
    pub(crate) look: RawGetOrFetch<H, AnyEviction, K, V, S, P, W, A, L, Q, T::Required, I>,
    pub(crate) kind: Kind,
}

impl<H, K, V, S, P, W, A, L, Q, T, I> Drop for GetOrFetch<H, K, V, S, P, W, A, L, Q, T, I>
where
    H: Wait + Drop,
    K: Key,
    V: Value,
    S: Drop,
    P: Properties,
    W: Drop,
    A: Drop,
    L: EventListener<Key = K, Value = V>,
    I: Finder<K>,
    Q: Pipe<Key = K, Value = V, Properties = P>,
    T: FetchTypes<K, V, P>,
{
    // Written by hand, so that a caller's proof doesn't go through all parts at its own types.
    fn drop(self) {
        let GetOrFetch { look: _, kind: _ } = self;
    }
}

impl<H, K, V, S, P, W, A, L, Q, T, I> GetOrFetch<H, K, V, S, P, W, A, L, Q, T, I>
where
    H: Wait + Drop,
    K: Key,
    V: Value,
    S: Drop,
    P: Properties,
    W: Drop,
    A: Drop,
    L: EventListener<Key = K, Value = V>,
    I: Finder<K>,
    Q: Pipe<Key = K, Value = V, Properties = P>,
    T: FetchTypes<K, V, P>,
{
    /// Returns the policy of the cache.
    pub fn kind(&self) -> Kind
        ensures { result ≡ self.now.kind }
    {
        self.kind
    }

    /// Returns the look-up with its policy in the type, or unchanged if its policy isn't the one that `C` configures.
    pub fn of_policy<C: PolicyConfig>(self) -> std::result::Result<Of<C, Self>, Self>
        ensures own { IfOk result (λ of. of.inner ≡ self) }
        ensures other { IfErr result (λ back. back ≡ self) }
        ensures is { IsOk result ↔ (self.kind ≡ C.kind) }
    {
        if self.kind == C::kind() {
            Ok(Of::new_of(self))
        } else {
            Err(self)
        }
    }

    /// Returns whether the look-up missed, so that its entry is still to come.
    pub fn need_await(&self) -> bool
        ensures { result ≡ is_miss self.now.look }
    {
        self.look.need_await()
    }

    /// Returns the entry of a hit, or a miss unchanged.
    ///
    /// # Errors
    /// F16 if the entry of a hit was taken before.
    pub fn try_unwrap(
        self,
    ) -> std::result::Result<Result<CacheEntry<H, K, V, S, P, W, A, L, Q, T, I>>, Self>
        ensures hit { is_miss self.look ≡ false → MatchOption (entry_of self.look) (result ≡ Ok (Err Spent))
            (λ e. result ≡ Ok (Ok (record { entry = e; kind = self.kind }))) }
        ensures miss { is_miss self.look ≡ true → result ≡ Err self }
    {
        let GetOrFetch { look, kind } = self;
        match look.try_unwrap() {
            Ok(Ok(entry)) => Ok(Ok(CacheEntry { entry, kind })),
            Ok(Err(error)) => Ok(Err(error)),
            Err(look) => Err(GetOrFetch { look, kind }),
        }
    }

    /// Polls as `poll` does, but gives `None` if the fetch found nothing.
    pub fn poll_inner(
        &mut self,
        cx: &mut Context<'_>,
    ) -> Poll<Result<Option<CacheEntry<H, K, V, S, P, W, A, L, Q, T, I>>>>
        ensures hit { is_miss self.old.look ≡ false → MatchOption (entry_of self.old.look) (result ≡ Poll.Ready (Err Spent))
            (λ e. result ≡ Poll.Ready (Ok (Some (record { entry = e; kind = self.old.kind })))) }
        ensures spent { is_miss self.old.look ≡ false → (entry_of self.new.look ≡ None) × (is_miss self.new.look ≡ false) }
        ensures kind { self.new.kind ≡ self.old.kind }
        ensures registered { OnPending result (Covers cx.new (λ _. ⊥)) }
        ensures kept { Keeps cx.old cx.new }
    {
        match self.look.poll(cx) {
            Poll::Ready(Ok(Some(entry))) => Poll::Ready(Ok(Some(CacheEntry {
                entry,
                kind: self.kind,
            }))),
            Poll::Ready(Ok(None)) => Poll::Ready(Ok(None)),
            Poll::Ready(Err(error)) => Poll::Ready(Err(error)),
            Poll::Pending => Poll::Pending,
        }
    }
}

impl<H, K, V, S, P, W, A, L, Q, T, I> Future for GetOrFetch<H, K, V, S, P, W, A, L, Q, T, I>
where
    H: Wait + Drop,
    K: Key,
    V: Value,
    S: Drop,
    P: Properties,
    W: Drop,
    A: Drop,
    L: EventListener<Key = K, Value = V>,
    I: Finder<K>,
    Q: Pipe<Key = K, Value = V, Properties = P>,
    T: FetchTypes<K, V, P>,
{
    type Output = Result<CacheEntry<H, K, V, S, P, W, A, L, Q, T, I>>;

    /// Gives the entry once it is there.
    ///
    /// # Errors
    /// F13 if the fetch found nothing, F16 if a result was given before, otherwise the error with which the fetch ended.
    fn poll(&mut self, cx: &mut Context<'_>) -> Poll<Self::Output>
        ensures value { IfReady result (λ _. ⊤) }
        ensures again { OnPending result ⊤ }
        ensures same { GivesAny result }
        ensures registered { OnPending result (Covers cx.new (λ _. ⊥)) }
        ensures kept { Keeps cx.old cx.new }
        ensures hit { is_miss self.old.look ≡ false → MatchOption (entry_of self.old.look) (result ≡ Poll.Ready (Err Spent))
            (λ e. result ≡ Poll.Ready (Ok (record { entry = e; kind = self.old.kind }))) }
        ensures spent { is_miss self.old.look ≡ false → (entry_of self.new.look ≡ None) × (is_miss self.new.look ≡ false) }
        ensures kind { self.new.kind ≡ self.old.kind }
    {
        match self.poll_inner(cx) {
            Poll::Ready(Ok(Some(entry))) => Poll::Ready(Ok(entry)),
            Poll::Ready(Ok(None)) => Poll::Ready(Err(Error::new(Reason::NoValue))),
            Poll::Ready(Err(error)) => Poll::Ready(Err(error)),
            Poll::Pending => Poll::Pending,
        }
    }
}

impl<H, K, V, S, P, W, A, L, Q, T, I> Debug for GetOrFetch<H, K, V, S, P, W, A, L, Q, T, I>
where
    H: Wait + Drop,
    K: Key,
    V: Value,
    S: Drop,
    P: Properties,
    W: Drop,
    A: Drop,
    L: EventListener<Key = K, Value = V>,
    I: Finder<K>,
    Q: Pipe<Key = K, Value = V, Properties = P>,
    T: FetchTypes<K, V, P>,
{
    fn fmt<X: fmt::Write>(&self, f: &mut fmt::Formatter<X>) -> fmt::Result {
        f.debug_tuple(self.kind.name()).field(&self.look).finish()
    }
}
