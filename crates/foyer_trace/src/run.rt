//! Runs each policy at each size over a trace in memory, in threads.

ghost use Rattle.std.specs.Prelude.{◌≡◌, ◌+◌, IfOk, sum_by};
ghost use Rattle.foyer_trace.specs.Runs.{IsRun, Serves};
ghost use Rattle.foyer_trace.specs.Trace.{requests_of};

use crate::belady::Future;
use crate::curve::Curve;
use crate::failure::Failure;
use crate::plan::Plan;
use crate::policy::{Engine, Kind};
use crate::progress::Progress;
use crate::runner::Runner;
use crate::trace::Trace;
use foyer_replay::Counts;
use std::alloc::Global;
use std::rt::Clock;
use std::sync::atomic::{AtomicUsize, Ordering};
use std::thread::{self, Threads};
use std::time::Instant;

/// What a run came to.
#[derive(Clone, Copy, Default)]
pub struct Measured {
    pub counts: Counts,
    pub seconds: f64,
}

/// What all runs came to.
#[derive(Drop)]
pub struct Runs {
    /// What each run counted, in the order of the plan.
    pub measured: Vec<Measured>,
    /// What each run counted in each window.
    pub windows: Vec<Vec<Counts>>,
}

// A run that is done.
#[derive(Drop)]
struct Done {
    number: usize,
    measured: Measured,
    windows: Vec<Counts>,
}

/// Runs all of a plan over the windows of a trace, at most so many at a time, but for the curve.
pub fn run_all<R: Clock + Eprint + Threads + Sync>(
    rt: &R,
    alloc: Global,
    trace: &[Trace],
    plan: &Plan<'_>,
    jobs: usize,
    progress: &Progress<'_, R>,
) -> Result<Runs, Failure> {
    let futures = if plan.has_belady {
        Future::of(alloc, trace)?
    } else {
        Vec::new(alloc)
    };
    let next = AtomicUsize::new(0);
    let threads = jobs.min(plan.runs()).max(1);
    let worked = thread::map_indices(
        rt,
        alloc,
        threads,
        &|_thread| work(rt, alloc, trace, plan, futures.as_slice(), &next, progress),
    )?;
    let mut runs = Runs {
        measured: Vec::with_capacity(alloc, plan.runs())?,
        windows: Vec::with_capacity(alloc, plan.runs())?,
    };
    for _run in 0..plan.runs() {
        runs.measured.push(Measured::default())?;
        runs.windows.push(Vec::new(alloc))?;
    }
    for done in worked {
        for it in done? {
            runs.put(it);
        }
    }
    Ok(runs)
}

impl Runs {
    fn put(&mut self, done: Done) {
        let Done {
            number,
            measured,
            windows,
        } = done;
        if let Some(place) = self.measured.get_mut(number) {
            *place = measured;
        }
        if let Some(place) = self.windows.get_mut(number) {
            *place = windows;
        }
    }

    /// Puts what the curve counts in the place of its runs.
    pub fn put_curve(
        &mut self,
        alloc: Global,
        plan: &Plan<'_>,
        curve: &Curve,
    ) -> Result<(), Failure> {
        for number in 0..plan.runs() {
            let Some((policy, _capacity)) = plan.run(number) else {
                break;
            };
            if policy.is_curve() {
                let column = number % plan.capacities.len().max(1);
                let windows = curve.windows(alloc, column)?;
                let measured = Measured {
                    counts: sum_of_all(alloc, windows.as_slice())?,
                    seconds: 0.0,
                };
                self.put(Done {
                    number,
                    measured,
                    windows,
                });
            }
        }
        Ok(())
    }
}

// Takes one run after another until none is left.
fn work<R: Clock + Eprint>(
    rt: &R,
    alloc: Global,
    trace: &[Trace],
    plan: &Plan<'_>,
    futures: &[Future],
    next: &AtomicUsize,
    progress: &Progress<'_, R>,
) -> Result<Vec<Done>, Failure> {
    let mut done = Vec::new(alloc);
    for _run in 0..plan.runs() {
        let number = next.fetch_add(1, Ordering::SeqCst);
        let Some((policy, capacity)) = plan.run(number) else {
            break;
        };
        let start = Instant::now(rt);
        let windows = match &policy.engine {
            Engine::Core(kind) => run_core(
                alloc,
                kind,
                capacity.scaled,
                trace,
                futures,
                plan,
                progress,
            )?,
            Engine::Reference(it) => it.replay(alloc, capacity.scaled, trace, plan.warmup)?,
            Engine::Curve => Vec::new(alloc),
        };
        let seconds = match start {
            Ok(start) => start.elapsed(rt).map_or(0.0, |taken| taken.as_secs_f64()),
            Err(_) => 0.0,
        };
        let counts = sum_of_all(alloc, windows.as_slice())?;
        done.push(Done {
            number,
            measured: Measured { counts, seconds },
            windows,
        })?;
    }
    Ok(done)
}

/// Runs a core over the windows of a trace, and returns what it counts in each.
pub fn run_core<R: Clock + Eprint>(
    alloc: Global,
    kind: &Kind,
    capacity: usize,
    trace: &[Trace],
    futures: &[Future],
    plan: &Plan<'_>,
    progress: &Progress<'_, R>,
) -> Result<Vec<Counts>, Failure>
    ensures { IfOk result (λ windows. IsRun kind.now capacity plan.now.shards plan.now.terms plan.now.warmup trace.now
        windows.items) }
{
    let mut runner = Runner::new(alloc, kind, capacity, plan.shards, plan.terms)?;
    let mut windows = Vec::with_capacity(alloc, trace.len())?;
    let mut left = plan.warmup;
    for (number, window) in trace.iter().enumerate() {
        let future = futures.get(number);
        let counts = run_one(alloc, &mut runner, window, future, left, progress)?;
        windows.push(counts)?;
        left = left.saturating_sub(window.len());
    }
    Ok(windows)
}

/// What was counted in all windows.
pub fn sum_of_all(alloc: Global, windows: &[Counts]) -> Result<Counts, Failure>
    ensures hits { IfOk result (λ sum. sum.hits ≡ sum_by (λ it. it.hits) windows.now) }
    ensures misses { IfOk result (λ sum. sum.misses ≡ sum_by (λ it. it.misses) windows.now) }
{
    let mut sum = Counts::default();
    for counts in windows {
        sum = sum_of(alloc, sum, *counts)?;
    }
    Ok(sum)
}

// Runs over a window of the trace, and counts what is behind the warmup.
fn run_one<R: Clock + Eprint>(
    alloc: Global,
    runner: &mut Runner,
    trace: &Trace,
    future: Option<&Future>,
    warmup: u64,
    progress: &Progress<'_, R>,
) -> Result<Counts, Failure>
    ensures terms { runner.new.terms ≡ runner.old.terms }
    ensures counted { IfOk result (λ counts. Serves runner.old.core warmup
        (requests_of runner.old.terms trace.now.parts.items) counts.hits counts.misses runner.new.core) }
{
    let mut counts = Counts::default();
    let mut left = warmup as usize;
    for (number, part) in trace.parts.iter().enumerate() {
        let future = future.map_or(&[][..], |future| future.part(number));
        let more = runner.serve(part, future, left)?;
        let sum = sum_of(alloc, counts, more)?;
        counts = sum;
        left = left.saturating_sub(part.len());
        progress.advance(part.len() as u64);
    }
    Ok(counts)
}

/// What was counted together.
pub fn sum_of(alloc: Global, counts: Counts, more: Counts) -> Result<Counts, Failure>
    ensures hits { IfOk result (λ sum. sum.hits ≡ counts.hits + more.hits) }
    ensures misses { IfOk result (λ sum. sum.misses ≡ counts.misses + more.misses) }
{
    match counts.plus(more) {
        Some(sum) => Ok(sum),
        None => Err(Failure::Other(String::from_str(alloc, "2^64 gets are too many")?)),
    }
}
