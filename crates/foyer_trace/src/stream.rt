//! Runs all policies at all sizes side by side over a trace that is read once and not kept.

use crate::failure::Failure;
use crate::plan::Plan;
use crate::policy::Engine;
use crate::progress::Progress;
use crate::run::{Measured, sum_of};
use crate::runner::Runner;
use crate::source::Source;
use crate::trace::{PART, Part};
use std::alloc::Global;
use std::io::BufRead;
use std::rt::Clock;
use std::thread::{self, Threads};
use std::time::Instant;

// A run in the middle of the stream.
#[derive(Drop)]
struct Running {
    runner: Runner,
    measured: Measured,
    failure: Option<Failure>,
}

impl Running {
    // Serves a part, of which the first requests are warmup.
    fn serve<R: Clock>(&mut self, rt: &R, alloc: Global, part: &Part, warm: usize) {
        if self.failure.is_some() {
            return;
        }
        let start = Instant::now(rt);
        let served = match self.runner.serve(part, &[], warm) {
            Ok(more) => sum_of(alloc, self.measured.counts, more),
            Err(failure) => Err(failure),
        };
        match served {
            Ok(counts) => self.measured.counts = counts,
            Err(failure) => self.failure = Some(failure),
        }
        if let Ok(start) = start {
            let taken = start.elapsed(rt).map_or(0.0, |taken| taken.as_secs_f64());
            self.measured.seconds = self.measured.seconds + taken;
        }
    }
}

/// Runs all of a plan over what a source reads, with at most so many threads, and returns what each came to.
pub fn stream_all<R: Clock + Eprint + Threads + Sync, B: BufRead + Drop>(
    rt: &R,
    alloc: Global,
    source: &mut Source<B>,
    plan: &Plan<'_>,
    jobs: usize,
    progress: &Progress<'_, R>,
) -> Result<Vec<Measured>, Failure> {
    let mut running = Vec::with_capacity(alloc, plan.runs())?;
    for number in 0..plan.runs() {
        let Some((policy, capacity)) = plan.run(number) else {
            break;
        };
        // The others were refused.
        let Engine::Core(kind) = &policy.engine else {
            break;
        };
        running.push(Running {
            runner: Runner::new(alloc, kind, capacity.scaled, plan.shards, plan.terms)?,
            measured: Measured::default(),
            failure: None,
        })?;
    }
    let mut records = Vec::with_capacity(alloc, PART)?;
    let mut left = plan.warmup as usize;
    for _part in 0..u64::MAX {
        source.read_part(&mut records)?;
        if records.is_empty() {
            break;
        }
        let part = Part::new(alloc, records.as_slice())?;
        thread::for_each_mut(
            rt,
            running.as_mut_slice(),
            jobs.max(1),
            &|_, run| run.serve(rt, alloc, &part, left),
        );
        left = left.saturating_sub(part.len());
        progress.advance(part.len() as u64);
    }
    let mut measured = Vec::with_capacity(alloc, running.len())?;
    for run in running {
        let Running {
            runner: _runner,
            measured: it,
            failure,
        } = run;
        if let Some(failure) = failure {
            return Err(failure);
        }
        measured.push(it)?;
    }
    Ok(measured)
}
