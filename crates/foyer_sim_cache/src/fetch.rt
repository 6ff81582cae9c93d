//! Fetches that are open until a line ends them.

use crate::cache::SimTask;
use foyer_core::{CacheProperties, FetchTarget};
use foyer_policy::{Fault, Result};
use foyer_raw::Spawner;
use foyer_session::SimValue;
use futures::Future;
use futures::task::{Context, Poll};
use std::alloc::{AllocError, Global};
use std::cell::Cell;
use std::rc::Rc;
use std::sync::Wait;

/// A value that is given later, for all who have a share of it.
#[derive(Drop)]
pub struct Promise(Rc<Cell<Option<SimValue>>>);

impl Promise {
    /// It is not given yet.
    pub fn new(alloc: Global) -> std::result::Result<Self, AllocError> {
        match Rc::new(alloc, Cell::new(None)) {
            Ok(value) => Ok(Promise(value)),
            Err(_) => Err(AllocError),
        }
    }

    /// The same promise again.
    pub fn share(&self) -> std::result::Result<Self, AllocError> {
        Ok(Promise(self.0.clone()?))
    }

    /// Gives the value.
    pub fn give(&self, value: SimValue) {
        self.0.set(Some(value));
    }
}

impl Future for Promise {
    type Output = std::result::Result<FetchTarget<u64, SimValue, CacheProperties>, Fault>;

    fn poll(&mut self, cx: &mut Context<'_>) -> Poll<Self::Output> {
        match self.0.get() {
            Some(value) => Poll::Ready(Ok(FetchTarget::Entry {
                value,
                properties: CacheProperties::default(),
            })),
            None => cx.yield_now(),
        }
    }
}

/// Keeps the task that a look-up brings, where it leads a fetch.
#[derive(Drop)]
pub struct Led<H: Wait + Drop> {
    /// The task.
    pub task: Option<SimTask<H>>,
}

impl<H: Wait + Drop> Spawner<SimTask<H>> for Led<H> {
    ghost room = { λ _. 1 };

    fn reserve(&mut self) -> Result<()> {
        Ok(())
    }

    fn spawn(&mut self, task: SimTask<H>) {
        self.task = Some(task);
    }
}
