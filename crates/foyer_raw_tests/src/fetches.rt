//! Fetches, their tasks and those who wait for them.

use crate::notes::{Ear, Notes};
use crate::testing::builders::{
    Later, May, Must, Surely, after_polls, fault, must, optionally, value,
};
use crate::testing::cache::{
    Cache, Look, Task, Tasks, at_once, finish, got, heard, piped, polled, refused,
};
use crate::testing::{Outcome, fifo, limited, number, phantom};
use foyer_core::{FetchTarget, Limits, RawCacheConfig};
use foyer_policy::{Lru, ModHasher, Result, Source};
use foyer_raw::{Direct, ListSpawner, RawCache};
use futures::Future;
use futures::executor::block_on;
use futures::task::{Context, Poll};
use std::alloc::Global;
use std::random::RandomSource;
use std::sync::Wait;

mod counts;
mod ends;
mod moments;
mod tasks;
mod waits;

/// The two builders of a look-up.
type Builders = (Option<May>, Option<Must>);

const NONE: Builders = (None, None);

// Looks 7 up with these builders, at the first moment.
fn look<H: Wait + Drop>(
    cache: &Cache<H>,
    spawner: &mut Tasks<H>,
    builders: Builders,
) -> Result<Look<H>> {
    look_at(cache, 0, spawner, builders)
}

// Looks 7 up with these builders at a moment.
fn look_at<H: Wait + Drop>(
    cache: &Cache<H>,
    now: u64,
    spawner: &mut Tasks<H>,
    (optional, required): Builders,
) -> Result<Look<H>> {
    cache.get_or_fetch_inner(now, &7, || optional, || required, (), spawner)
}

// Who waits for 7 after a look-up with these builders, and the tasks.
fn begun<H: Wait + Drop>(
    cache: &Cache<H>,
    alloc: Global,
    builders: Builders,
) -> Result<(Look<H>, Tasks<H>)> {
    let mut spawner = ListSpawner::new(alloc);
    Ok((look(cache, &mut spawner, builders)?, spawner))
}

// Who waits for 7 after a look-up with these builders whose fetch has ended.
fn ended<H: Wait + RandomSource + Alloc<A = Global> + Drop>(
    rt: &H,
    cache: &Cache<H>,
    builders: Builders,
) -> Outcome<Look<H>> {
    let (wait, spawner) = begun(cache, rt.alloc(), builders)?;
    finish(rt, spawner)?;
    Ok(wait)
}

// The two who wait for 7 after look-ups with these builders, whose fetch has ended.
fn both_ended<H: Wait + RandomSource + Alloc<A = Global> + Drop>(
    rt: &H,
    cache: &Cache<H>,
    first: Builders,
    second: Builders,
) -> Outcome<(Look<H>, Look<H>)> {
    let (first, mut spawner) = begun(cache, rt.alloc(), first)?;
    let second = look(cache, &mut spawner, second)?;
    finish(rt, spawner)?;
    Ok((first, second))
}
