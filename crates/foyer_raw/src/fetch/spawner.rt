//! What runs the tasks of fetches.

ghost use Rattle.std.specs.Prelude.{◌≡◌, ◌<◌, ◌-◌, ℕ, OnOk, vec_len, vec_capacity};
ghost use Rattle.futures.specs.Task.{IsArmed, Keeps};

use foyer_policy::Result;
use futures::Future;
use futures::future::{Spawned, Task};
use futures::task::{Context, Poll};
use std::alloc::Global;

/// Takes tasks and has them polled.
pub trait Spawner<X: Future<Output = ()>> {
    // For how many tasks there is room.
    ghost room: { Self → ℕ };

    /// Makes room for a task.
    ///
    /// # Errors
    /// F7 if memory runs out.
    fn reserve(&mut self) -> Result<()>
        ensures { OnOk result (0 < room self.new) };

    /// Takes a task. There has to be room, and the task has to be one that may be polled.
    fn spawn(&mut self, task: X)
        requires room { 0 < room self.old }
        requires can_poll { X.can_poll task };
}

/// Tasks in a list, which the caller polls by `poll_all`.
#[derive(Drop)]
pub struct ListSpawner<X: Future<Output = ()>> {
    tasks: Vec<Spawned<X>>,
}

impl<X: Future<Output = ()>> ListSpawner<X> {
    /// Creates an empty list.
    pub fn new(alloc: Global) -> Self {
        ListSpawner {
            tasks: Vec::new(alloc),
        }
    }

    /// Polls each task once, drops those that have ended, and returns how many remain.
    ///
    /// Never call it from a listener, which the tasks may call.
    pub fn poll_all(&mut self, cx: &mut Context<'_>) -> usize
        ensures remain { result ≡ vec_len self.new.tasks }
        ensures armed { 0 < result → IsArmed cx.new }
        ensures kept { Keeps cx.old cx.new }
    {
        let mut place = 0;
        while place < self.tasks.len() {
            match self.tasks[place].poll_task(cx) {
                Poll::Ready(()) => drop(self.tasks.remove(place)),
                Poll::Pending => place += 1,
            }
        }
        self.tasks.len()
    }
}

impl<X: Future<Output = ()>> Spawner<X> for ListSpawner<X> {
    ghost room = { λ s. vec_capacity s.tasks - vec_len s.tasks };

    fn reserve(&mut self) -> Result<()> {
        self.tasks.reserve(1)?;
        Ok(())
    }

    fn spawn(&mut self, task: X) {
        if self.tasks.push(Spawned::new(task)).is_err() {
            unreachable!()
        }
    }
}

/// A future of the end of all tasks of a list. Each poll polls all tasks that have not ended.
#[derive(Drop)]
pub struct AllTasks<X: Future<Output = ()>> {
    tasks: ListSpawner<X>,
}

impl<X: Future<Output = ()>> AllTasks<X> {
    /// Returns a future that is ready once each of these tasks has ended.
    pub fn new(tasks: ListSpawner<X>) -> Self {
        AllTasks { tasks }
    }
}

impl<X: Future<Output = ()>> Future for AllTasks<X> {
    type Output = ();

    /// Polls each task that has not ended.
    fn poll(&mut self, cx: &mut Context<'_>) -> Poll<()> {
        if self.tasks.poll_all(cx) > 0 {
            return Poll::Pending;
        }
        Poll::Ready(())
    }
}
