//! Fetches that are pending for a while, and what builds them.

use crate::testing::Outcome;
use foyer_core::{CacheProperties, FetchTarget};
use foyer_policy::Fault;
use foyer_raw::{FetchTypes, Given, OptionalFetchBuilder, Pollable};
use futures::Future;
use futures::task::{Context, Poll};
use std::alloc::Global;
use std::sync::Arc;
use std::sync::atomic::{AtomicU64, Ordering};

/// What a fetch gives where nothing fails.
pub(crate) type Target = FetchTarget<u32, u64, CacheProperties>;

/// What an optional fetch may give.
pub(crate) type Perhaps = std::result::Result<Option<Target>, Fault>;

/// What a required fetch gives.
pub(crate) type Surely = std::result::Result<Target, Fault>;

/// How many polls there were.
pub(crate) type Polls = Arc<AtomicU64, Global>;

/// A future that is pending so many times, and then gives what it holds. Its polls may be counted.
#[derive(Drop)]
pub(crate) struct Later<O> {
    pending: u64,
    answer: Option<O>,
    polls: Option<Polls>,
}

impl<O: Drop> Later<O> {
    /// The same future, whose polls are counted there.
    pub(crate) fn counted(mut self, polls: &Polls) -> Outcome<Self> {
        self.polls = Some(Arc::try_clone(polls)?);
        Ok(self)
    }
}

impl<O: Drop> Future for Later<O> {
    type Output = O;

    fn poll(&mut self, cx: &mut Context<'_>) -> Poll<O> {
        if let Some(polls) = &self.polls {
            polls.fetch_add(1, Ordering::SeqCst);
        }
        if self.pending > 0 {
            self.pending -= 1;
            return cx.yield_now();
        }
        Poll::Ready(self.answer.take().unwrap())
    }
}

/// A future that gives this, after so many polls.
pub(crate) fn after_polls<O>(pending: u64, answer: O) -> Later<O> {
    Later {
        pending,
        answer: Some(answer),
        polls: None,
    }
}

/// Gives the optional fetch that it holds.
#[derive(Drop)]
pub(crate) struct May {
    pub(crate) fetch: Pollable<Later<Perhaps>>,
}

impl OptionalFetchBuilder<u32, u64, CacheProperties, ()> for May {
    type Fetch = Later<Perhaps>;

    fn build(self, _context: &mut ()) -> Later<Perhaps> {
        let May { fetch } = self;
        fetch.into_inner()
    }
}

/// Gives the required fetch that it holds.
pub(crate) type Must = Given<Later<Surely>>;

/// Fetch types with an optional and a required fetch.
pub(crate) struct Trial;

impl FetchTypes<u32, u64, CacheProperties> for Trial {
    type Context = ();

    type Optional = May;

    type Required = Must;
}

/// A value of a key.
pub(crate) fn value(value: u64) -> Target {
    FetchTarget::Entry {
        value,
        properties: CacheProperties::default(),
    }
}

/// A fault of this code.
pub(crate) fn fault(alloc: Global, code: u64) -> Fault {
    Fault {
        code,
        message: String::new(alloc),
    }
}

/// An optional builder whose fetch gives this, after so many polls.
pub(crate) fn optionally(pending: u64, answer: Perhaps) -> Option<May> {
    Some(May {
        fetch: Pollable::new(after_polls(pending, answer)),
    })
}

/// A required builder whose fetch gives this, after so many polls.
pub(crate) fn must(pending: u64, answer: Surely) -> Option<Must> {
    Some(Given {
        fetch: Pollable::new(after_polls(pending, answer)),
    })
}
