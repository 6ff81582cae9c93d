//! The poll of a task.

ghost use Rattle.std.specs.Prelude.{◌≡◌, ◌≢◌, ◌⊎◌, ⊤, IfSome, IsNone};
ghost use Rattle.futures.specs.Task.{Covers, Keeps};
ghost use Rattle.futures.specs.Poll.{IfReady, OnPending};
ghost use Rattle.foyer_raw.specs.Steps.{Awaits, Leads};

use super::RawFetch;
use crate::fetch::{
    FetchTypes, OptionalFetchBuilder, RawFetchState, RequiredFetchBuilder, RequiredFuture,
    TaskEvent,
};
use crate::pipe::Pipe;
use foyer_core::{FetchOrTake, Filter, Finder, Weighter};
use foyer_policy::{EventListener, Eviction, HashBuilder, Key, Properties, Source, Value};
use futures::Future;
use futures::task::{Context, Poll};
use std::sync::Wait;

impl<H, E, K, V, S, P, W, A, L, Q, T, I> Future for RawFetch<H, E, K, V, S, P, W, A, L, Q, T, I>
where
    H: Wait + Drop,
    E: Eviction,
    K: Key,
    V: Value,
    S: HashBuilder,
    P: Properties,
    W: Weighter<K, V>,
    A: Filter<K, V>,
    L: EventListener<Key = K, Value = V>,
    I: Finder<K>,
    Q: Pipe<Key = K, Value = V, Properties = P>,
    T: FetchTypes<K, V, P>,
{
    type Output = ();

    ghost can_poll = { λ t. IfSome t.optional_fetch T.Optional.Fetch.can_poll × IfSome t.required_fetch T.Required.Fetch.can_poll };

    // the sources of the fetch that is polled
    ghost needs = { λ t. Awaits t.state T.Optional.Fetch.needs T.Required.Fetch.needs t.optional_fetch t.required_fetch };

    /// Goes on until a fetch is pending or the task ends, through at most five events. A task that has ended stays so.
    fn poll(&mut self, cx: &mut Context<'_>) -> Poll<()>
        requires { IfSome self.old.optional_fetch T.Optional.Fetch.can_poll × IfSome self.old.required_fetch T.Required.Fetch.can_poll }
        ensures value { IfReady result (λ _. ⊤) }
        ensures same { OnPending result (Unit {0} → ⊤ → ⊤) }
        ensures again { OnPending result (IfSome self.new.optional_fetch T.Optional.Fetch.can_poll × IfSome self.new.required_fetch T.Required.Fetch.can_poll) }
        ensures registered { OnPending result (Covers cx.new
            (Awaits self.new.state T.Optional.Fetch.needs T.Required.Fetch.needs self.new.optional_fetch
            self.new.required_fetch)) }
        ensures kept { Keeps cx.old cx.new }
        ensures leads { Leads 5 self.old.state self.new.state }
        ensures over { self.old.state ≡ RawFetchState.Ready → self.new ≡ self.old }
        ensures ended { IfReady result (λ _. self.new.state ≡ RawFetchState.Ready) }
    {
        match self.state {
            RawFetchState::Ready => Poll::Ready(()),
            RawFetchState::Init => {
                self.start();
                self.go_on(cx)
            }
            _ => self.go_on(cx),
        }
    }
}

impl<H, E, K, V, S, P, W, A, L, Q, T, I> RawFetch<H, E, K, V, S, P, W, A, L, Q, T, I>
where
    H: Wait + Drop,
    E: Eviction,
    K: Key,
    V: Value,
    S: HashBuilder,
    P: Properties,
    W: Weighter<K, V>,
    A: Filter<K, V>,
    L: EventListener<Key = K, Value = V>,
    I: Finder<K>,
    Q: Pipe<Key = K, Value = V, Properties = P>,
    T: FetchTypes<K, V, P>,
{
    // Builds the optional fetch, if there is a builder.
    fn start(&mut self)
        requires new { self.old.state ≡ RawFetchState.Init }
        requires can { IfSome self.old.optional_fetch T.Optional.Fetch.can_poll × IfSome self.old.required_fetch T.Required.Fetch.can_poll }
        ensures leads { Leads 1 self.old.state self.new.state }
        ensures begun { self.new.state ≢ RawFetchState.Init }
        ensures can { IfSome self.new.optional_fetch T.Optional.Fetch.can_poll × IfSome self.new.required_fetch T.Required.Fetch.can_poll }
    {
        match self.optional.take() {
            Some(builder) => {
                self.optional_fetch = Some(builder.build(&mut self.context));
                self.step(TaskEvent::Start(true));
            }
            None => self.step(TaskEvent::Start(false)),
        }
    }

    // Goes on from the optional fetch.
    fn go_on(&mut self, cx: &mut Context<'_>) -> Poll<()>
        requires begun { self.old.state ≢ RawFetchState.Init }
        requires can { IfSome self.old.optional_fetch T.Optional.Fetch.can_poll × IfSome self.old.required_fetch T.Required.Fetch.can_poll }
        ensures leads { Leads 4 self.old.state self.new.state }
        ensures ended { IfReady result (λ _. self.new.state ≡ RawFetchState.Ready) }
        ensures can { IfSome self.new.optional_fetch T.Optional.Fetch.can_poll × IfSome self.new.required_fetch T.Required.Fetch.can_poll }
        ensures armed { OnPending result (Covers cx.new
            (Awaits self.new.state T.Optional.Fetch.needs T.Required.Fetch.needs self.new.optional_fetch
            self.new.required_fetch)) }
        ensures kept { Keeps cx.old cx.new }
    {
        if self.state != RawFetchState::FetchOptional {
            return self.settle(cx);
        }
        if let Poll::Pending = self.poll_optional(cx) {
            return Poll::Pending;
        }
        if self.state == RawFetchState::Ready {
            return Poll::Ready(());
        }
        self.settle(cx)
    }

    // Goes on from the required fetch, or from giving results.
    fn settle(&mut self, cx: &mut Context<'_>) -> Poll<()>
        requires begun { self.old.state ≢ RawFetchState.Init }
        requires past { self.old.state ≢ RawFetchState.FetchOptional }
        requires can { IfSome self.old.optional_fetch T.Optional.Fetch.can_poll × IfSome self.old.required_fetch T.Required.Fetch.can_poll }
        ensures leads { Leads 3 self.old.state self.new.state }
        ensures ended { IfReady result (λ _. self.new.state ≡ RawFetchState.Ready) }
        ensures can { IfSome self.new.optional_fetch T.Optional.Fetch.can_poll × IfSome self.new.required_fetch T.Required.Fetch.can_poll }
        ensures armed { OnPending result (Covers cx.new
            (Awaits self.new.state T.Optional.Fetch.needs T.Required.Fetch.needs self.new.optional_fetch
            self.new.required_fetch)) }
        ensures kept { Keeps cx.old cx.new }
    {
        match self.state {
            RawFetchState::Notify => self.take_or_tell(),
            RawFetchState::FetchRequired => return self.poll_required(cx),
            _ => return Poll::Ready(()),
        }
        if self.state == RawFetchState::Ready {
            return Poll::Ready(());
        }
        self.poll_required(cx)
    }

    // Polls the optional fetch. A value ends the task.
    fn poll_optional(&mut self, cx: &mut Context<'_>) -> Poll<()>
        requires at { self.old.state ≡ RawFetchState.FetchOptional }
        requires can { IfSome self.old.optional_fetch T.Optional.Fetch.can_poll × IfSome self.old.required_fetch T.Required.Fetch.can_poll }
        ensures ended { IfReady result (λ _. Leads 2 self.old.state self.new.state) }
        ensures going { IfReady result (λ _. self.new.state ≢ RawFetchState.Ready → Leads 1 self.old.state self.new.state) }
        ensures past { IfReady result (λ _. self.new.state ≢ RawFetchState.FetchOptional) }
        ensures pending { OnPending result (self.new.state ≡ self.old.state) }
        ensures begun { self.new.state ≢ RawFetchState.Init }
        ensures can { IfSome self.new.optional_fetch T.Optional.Fetch.can_poll × IfSome self.new.required_fetch T.Required.Fetch.can_poll }
        ensures armed { OnPending result (Covers cx.new
            (Awaits self.new.state T.Optional.Fetch.needs T.Required.Fetch.needs self.new.optional_fetch
            self.new.required_fetch)) }
        ensures kept { Keeps cx.old cx.new }
    {
        let Some(mut fetch) = self.optional_fetch.take() else {
            self.step(TaskEvent::Missing);
            return Poll::Ready(());
        };
        if !self.is_open() {
            self.step(TaskEvent::Closed);
            return Poll::Ready(());
        }
        match fetch.poll(cx) {
            Poll::Pending => {
                self.optional_fetch = Some(fetch);
                Poll::Pending
            }
            Poll::Ready(Ok(Some(target))) => {
                self.step(TaskEvent::Given);
                let key = self.key.take();
                self.complete(key, target, Source::Disk);
                self.step(TaskEvent::Told);
                Poll::Ready(())
            }
            Poll::Ready(Ok(None)) => {
                self.step(TaskEvent::Missing);
                Poll::Ready(())
            }
            Poll::Ready(Err(fault)) => {
                self.fault = Some(fault);
                self.step(TaskEvent::Missing);
                Poll::Ready(())
            }
        }
    }

    // Takes the required fetch, and builds it first if need be.
    fn take_required(&mut self) -> Option<RequiredFuture<K, V, P, T>>
        requires { IfSome self.old.required_fetch T.Required.Fetch.can_poll }
        ensures can { IfSome result T.Required.Fetch.can_poll }
        ensures state { self.new.state ≡ self.old.state }
        ensures optional { self.new.optional_fetch ≡ self.old.optional_fetch }
        ensures taken { IsNone self.new.required_fetch }
    {
        if let Some(fetch) = self.required_fetch.take() {
            return Some(fetch);
        }
        let builder = self.required.take()?;
        Some(builder.build(&mut self.context))
    }

    // Polls the required fetch. A value or a fault ends the task.
    fn poll_required(&mut self, cx: &mut Context<'_>) -> Poll<()>
        requires at { self.old.state ≡ RawFetchState.FetchRequired }
        requires can { IfSome self.old.optional_fetch T.Optional.Fetch.can_poll × IfSome self.old.required_fetch T.Required.Fetch.can_poll }
        ensures leads { Leads 2 self.old.state self.new.state }
        ensures ended { IfReady result (λ _. self.new.state ≡ RawFetchState.Ready) }
        ensures pending { OnPending result (self.new.state ≡ self.old.state) }
        ensures can { IfSome self.new.optional_fetch T.Optional.Fetch.can_poll × IfSome self.new.required_fetch T.Required.Fetch.can_poll }
        ensures armed { OnPending result (Covers cx.new
            (Awaits self.new.state T.Optional.Fetch.needs T.Required.Fetch.needs self.new.optional_fetch
            self.new.required_fetch)) }
        ensures kept { Keeps cx.old cx.new }
    {
        if !self.is_open() {
            self.step(TaskEvent::Closed);
            return Poll::Ready(());
        }
        let Some(mut fetch) = self.take_required() else {
            self.step(TaskEvent::Closed);
            return Poll::Ready(());
        };
        match fetch.poll(cx) {
            Poll::Pending => {
                self.required_fetch = Some(fetch);
                Poll::Pending
            }
            Poll::Ready(Ok(target)) => {
                self.step(TaskEvent::Given);
                let key = self.key.take();
                self.complete(key, target, Source::Outer);
                self.step(TaskEvent::Told);
                Poll::Ready(())
            }
            Poll::Ready(Err(fault)) => {
                self.step(TaskEvent::Given);
                self.fail(fault);
                self.step(TaskEvent::Told);
                Poll::Ready(())
            }
        }
    }

    // Takes a builder that a waiting caller brought, or else gives all that wait none, or the fault.
    fn take_or_tell(&mut self)
        requires at { self.old.state ≡ RawFetchState.Notify }
        requires can { IfSome self.old.optional_fetch T.Optional.Fetch.can_poll × IfSome self.old.required_fetch T.Required.Fetch.can_poll }
        ensures leads { Leads 1 self.old.state self.new.state }
        ensures to { (self.new.state ≡ RawFetchState.FetchRequired) ⊎ (self.new.state ≡ RawFetchState.Ready) }
        ensures can { IfSome self.new.optional_fetch T.Optional.Fetch.can_poll × IfSome self.new.required_fetch T.Required.Fetch.can_poll }
    {
        match self.later() {
            Some(FetchOrTake::Fetch(builder)) => {
                self.required = Some(builder);
                self.step(TaskEvent::Taken);
            }
            Some(FetchOrTake::Notifiers(waiters)) => {
                let fault = self.fault.take();
                self.tell_nothing(waiters, fault);
                self.step(TaskEvent::Told);
            }
            None => self.step(TaskEvent::Closed),
        }
    }
}
