//! Tasks in the hands of a spawner of one's own.

use super::*;
use foyer_raw::{Given, Pollable, RawFetchState, Spawner};
use std::sync::Arc;
use std::sync::atomic::{AtomicU64, Ordering};

/// Keeps the last task that it got.
#[derive(Drop)]
struct Keeper<X: Future<Output = ()>> {
    task: Option<X>,
}

impl<X: Future<Output = ()>> Spawner<X> for Keeper<X> {
    ghost room = { λ _. 1 };

    fn reserve(&mut self) -> Result<()> {
        Ok(())
    }

    fn spawn(&mut self, task: X) {
        self.task = Some(task);
    }
}

/// Polls a task so many times, or until it has ended, and answers it.
#[derive(Drop)]
struct Polled<X: Future<Output = ()>> {
    task: Option<X>,
    turns: u64,
}

impl<X: Future<Output = ()>> Future for Polled<X> {
    type Output = Option<X>;

    fn poll(&mut self, cx: &mut Context<'_>) -> Poll<Option<X>> {
        let Some(mut task) = self.task.take() else {
            return Poll::Ready(None);
        };
        if self.turns == 0 {
            return Poll::Ready(Some(task));
        }
        self.turns -= 1;
        match task.poll(cx) {
            Poll::Ready(()) => Poll::Ready(Some(task)),
            Poll::Pending => {
                self.task = Some(task);
                cx.yield_now()
            }
        }
    }
}

// A wait for 7 with these builders, and its task, to be polled so many times.
fn led<H: Wait + Drop>(
    cache: &Cache<H>,
    (optional, required): Builders,
    turns: u64,
) -> Result<(Look<H>, Polled<Task<H>>)> {
    let mut keeper = Keeper { task: None };
    let look = cache.get_or_fetch_inner(0, &7, || optional, || required, (), &mut keeper)?;
    let Keeper { task } = keeper;
    Ok((look, Polled { task, turns }))
}

#[test]
fn a_task_is_cancelled(rt: HostRuntime) -> Outcome {
    let (cache, notes) = piped(rt, fifo(4, 1))?;
    let states = [
        RawFetchState::Init,
        RawFetchState::FetchOptional,
        RawFetchState::FetchRequired,
    ];
    for (turns, state) in (0..3u64).zip(states) {
        let two = (optionally(1, Ok(None)), must(9, Ok(value(5))));
        let (wait, task) = led(&cache, two, turns)?;
        let task = block_on(&rt, task)?.ok_or("no task")?;
        assert_eq!(rt; task.state(), state);
        task.cancel();
        assert_eq!(rt; refused(&rt, wait)?, Some(15));
    }
    assert!(rt; notes.are(&[]) && !cache.contains(0, &7));
    Ok(())
}

// A task that has ended touches no fetch of its key that began later.
#[test]
fn a_task_that_has_ended_is_dropped(rt: HostRuntime) -> Outcome {
    let (cache, _notes) = piped(rt, fifo(4, 1))?;
    let (wait, task) = led(&cache, (None, must(0, Ok(value(5)))), 9)?;
    let last = block_on(&rt, task)?.ok_or("no task")?;
    assert_eq!(rt; last.state(), RawFetchState::Ready);
    assert_eq!(rt; *got(&rt, wait)?, 5);
    drop(cache.remove(&7)?);
    let (wait, task) = led(&cache, (None, must(0, Ok(value(6)))), 9)?;
    drop(last);
    let last = block_on(&rt, task)?.ok_or("no task")?;
    assert_eq!(rt; *got(&rt, wait)?, 6);
    drop(last);
    assert!(rt; cache.contains(0, &7));
    Ok(())
}

// Once a fetch is overtaken its task ends, and what it polled, the optional fetch or the required one, is polled no more.
#[test]
fn what_is_overtaken_is_polled_no_more(rt: HostRuntime) -> Outcome {
    let (cache, _notes) = piped(rt, fifo(4, 1))?;
    let polls = Arc::new(rt.alloc(), AtomicU64::new(0))?;
    let optional = Pollable::new(after_polls(9, Ok(None)).counted(&polls)?);
    let required = Pollable::new(after_polls(9, Ok(value(5))).counted(&polls)?);
    let builders = [
        (Some(May { fetch: optional }), None),
        (None, Some(Given { fetch: required })),
    ];
    for builders in builders {
        let (wait, task) = led(&cache, builders, 2)?;
        let task = block_on(&rt, task)?;
        assert_eq!(rt; polls.swap(0, Ordering::SeqCst), 2);
        drop(cache.insert(0, 7, 70)?);
        let task = block_on(&rt, Polled { task, turns: 1 })?.ok_or("no task")?;
        assert_eq!(rt;
            (task.state(), polls.load(Ordering::SeqCst)),
            (RawFetchState::Ready, 0)
        );
        assert_eq!(rt; *got(&rt, wait)?, 70);
        drop(cache.remove(&7)?);
    }
    Ok(())
}

#[test]
fn states_are_printed(rt: HostRuntime) -> Outcome {
    let names = ["Init", "Optional", "Required", "Notify", "Ready"];
    let states = [
        RawFetchState::Init,
        RawFetchState::FetchOptional,
        RawFetchState::FetchRequired,
        RawFetchState::Notify,
        RawFetchState::Ready,
    ];
    for (state, name) in states.iter().zip(names) {
        assert_eq!(rt; format!(in rt.alloc(); "{state:?}")?.as_str(), name);
    }
    Ok(())
}
