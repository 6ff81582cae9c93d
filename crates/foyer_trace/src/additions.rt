//! What a report has beside its rows: the curve of LRU, and a recommendation.

use crate::curve::Curve;
use crate::failure::Failure;
use crate::number::part_of;
use crate::options::Replay;
use crate::plan::{Plan, has_curve};
use crate::policy::Engine;
use crate::progress::Progress;
use crate::recommend::Choice;
use crate::report::{Report, Scale, ratio_of};
use crate::run::{run_core, sum_of_all};
use crate::trace::{Totals, Trace};
use std::alloc::{AllocError, Global};
use std::rt::Clock;

/// Adds the points of LRU's curve to a report.
pub fn put_curve(
    alloc: Global,
    report: &mut Report,
    replay: &Replay<'_>,
    plan: &Plan<'_>,
    totals: &Totals,
    curve: &Curve,
) -> Result<(), AllocError> {
    let scale = scale_of(replay, totals);
    if let Some(policy) = plan.policies.iter().find(|it| it.is_curve()) {
        report.put_curve(alloc, policy, curve, replay.sample.rate, scale)?;
    }
    Ok(())
}

/// Adds a recommendation above the notes, if the user asked for one.
pub fn put_recommendation<R: Clock + Eprint>(
    alloc: Global,
    report: &mut Report,
    replay: &Replay<'_>,
    plan: &Plan<'_>,
    trace: &[Trace],
    progress: &Progress<'_, R>,
) -> Result<(), Failure> {
    let Some(target) = replay.target else {
        return Ok(());
    };
    let choice = report.choice(target);
    let at_twice = ratio_at_twice(alloc, trace, plan, report, choice, replay, progress)?;
    let line = report.recommendation(alloc, target, choice, at_twice)?;
    report.notes.insert(0, line)?;
    Ok(())
}

/// Computes LRU's curve, if the user asked for it.
pub fn curve_of(
    alloc: Global,
    trace: &[Trace],
    plan: &Plan<'_>,
) -> Result<Option<Curve>, AllocError> {
    if !has_curve(plan.policies) {
        return Ok(None);
    }
    let mut sizes = Vec::new(alloc);
    for capacity in &plan.capacities {
        sizes.push(capacity.scaled)?;
    }
    Ok(Some(Curve::of(alloc, trace, plan.warmup, sizes.as_slice())?))
}

// Returns the miss ratio of a choice's policy at twice its size, and runs it once more if no run had that size.
fn ratio_at_twice<R: Clock + Eprint>(
    alloc: Global,
    trace: &[Trace],
    plan: &Plan<'_>,
    report: &Report,
    choice: Option<Choice>,
    replay: &Replay<'_>,
    progress: &Progress<'_, R>,
) -> Result<Option<f64>, Failure> {
    let Some(choice) = choice else {
        return Ok(None);
    };
    let known = report.ratio_at_twice(choice);
    let policy = plan.policies.get(choice.policy);
    let (None, Some(Engine::Core(kind))) = (known, policy.map(|it| &it.engine)) else {
        return Ok(known);
    };
    let rate = replay.sample.rate;
    let twice = part_of(choice.size.saturating_mul(2), rate).max(1) as usize;
    let windows = run_core(alloc, kind, twice, trace, &[], plan, progress)?;
    let counts = sum_of_all(alloc, windows.as_slice())?;
    let totals = trace.first().map_or(Totals::default(), |it| it.totals);
    Ok(Some(ratio_of(&counts, scale_of(replay, &totals))))
}

/// Returns the factors by which a sample's counts are scaled.
pub fn scale_of(replay: &Replay<'_>, totals: &Totals) -> Option<Scale> {
    if replay.sample.rate < 1.0 && replay.part.is_none() {
        Some(Scale::of(totals, replay.sample.rate))
    } else {
        None
    }
}
