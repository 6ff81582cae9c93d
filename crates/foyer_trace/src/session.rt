//! A replay from its options to its report.

use crate::additions::{curve_of, put_curve, put_recommendation, scale_of};
use crate::belady::Future;
use crate::failure::Failure;
use crate::notes::{facts_of, push_warnings, shown_from, speed_of};
use crate::number::grouped;
use crate::options::{Outputs, Replay};
use crate::origin::Origin;
use crate::plan::{Plan, Size, capacities_of, has_belady, warmup_of};
use crate::progress::Progress;
use crate::report::Report;
use crate::run::{Measured, Runs, run_all};
use crate::source::{AnyReader, Source};
use crate::stream::stream_all;
use crate::trace::Totals;
use crate::windows::windows_of;
use std::alloc::{AllocError, Global};
use std::io::BufRead;
use std::rt::Clock;
use std::thread::{self, Threads};
use std::time::Instant;

/// What a replay works with.
#[derive(Drop)]
pub struct Ground<'a, R> {
    pub rt: &'a R,
    pub alloc: Global,
    pub is_terminal: bool,
    pub outputs: Outputs<'a>,
}

/// Replays what a reader reads.
pub fn replay_trace<R: AllocGlobal + Clock + Eprint + Threads + Sync, B: BufRead + Drop>(
    ground: &Ground<'_, R>,
    replay: &Replay<'_>,
    reader: B,
) -> Result<Report, Failure> {
    let alloc = ground.alloc;
    let reader = AnyReader::new(alloc, replay.format, replay.columns.as_ref(), reader)?;
    let sees_all = replay.part.is_some() && replay.has_relative_sizes();
    let source = Source::new(alloc, reader, replay.sample, replay.skips_bad, sees_all);
    let jobs = match replay.jobs {
        Some(jobs) => jobs,
        None => thread::available_parallelism(ground.rt).map_or(1, |found| found.get()),
    };
    if replay.is_stream {
        replay_stream(ground, replay, source, jobs)
    } else {
        replay_kept(ground, replay, source, jobs)
    }
}

// What is replayed of a trace of which so much is known.
fn plan_of<'a>(
    alloc: Global,
    replay: &'a Replay<'a>,
    totals: &Totals,
) -> Result<Plan<'a>, Failure> {
    let weighs_sizes = replay.terms.weighs_sizes;
    Ok(Plan {
        policies: replay.policies.as_slice(),
        capacities: capacities_of(
            alloc,
            replay.sizes.as_slice(),
            totals,
            weighs_sizes,
            replay.sample.rate,
            replay.part.is_some(),
        )?,
        shards: replay.shards,
        terms: replay.terms,
        warmup: warmup_of(replay.warmup, totals, replay.sample.rate),
        has_belady: has_belady(replay.policies.as_slice()),
    })
}

fn replay_kept<R: AllocGlobal + Clock + Eprint + Threads + Sync, B: BufRead + Drop>(
    ground: &Ground<'_, R>,
    replay: &Replay<'_>,
    source: Source<B>,
    jobs: usize,
) -> Result<Report, Failure> {
    let alloc = ground.alloc;
    let trace = source.read_all()?;
    check_totals(alloc, replay, &trace.totals)?;
    let plan = plan_of(alloc, replay, &trace.totals)?;
    check_warmup(alloc, replay, &plan, &trace.totals)?;
    let all = trace.totals.records.saturating_mul(plan.runs() as u64);
    let progress = Progress::new(
        ground.rt,
        alloc,
        all,
        ground.is_terminal,
        ground.outputs.is_quiet,
    );
    let start = Instant::now(ground.rt);
    let totals = trace.totals;
    let windows = windows_of(alloc, trace, replay.windows)?;
    let windows = windows.as_slice();
    let mut runs = run_all(ground.rt, alloc, windows, &plan, jobs, &progress)?;
    let curve = curve_of(alloc, windows, &plan)?;
    if let Some(curve) = &curve {
        runs.put_curve(alloc, &plan, curve)?;
    }
    progress.end();
    let seconds = since(ground.rt, &start);
    let Runs {
        measured,
        windows: counts,
    } = runs;
    let mut report = report_of(ground, replay, &plan, measured, totals, jobs, seconds)?;
    if replay.windows > 1 {
        report.windows = counts;
    }
    if let Some(curve) = &curve {
        put_curve(alloc, &mut report, replay, &plan, &totals, curve)?;
    }
    put_recommendation(alloc, &mut report, replay, &plan, windows, &progress)?;
    Ok(report)
}

fn replay_stream<R: AllocGlobal + Clock + Eprint + Threads + Sync, B: BufRead + Drop>(
    ground: &Ground<'_, R>,
    replay: &Replay<'_>,
    mut source: Source<B>,
    jobs: usize,
) -> Result<Report, Failure> {
    let alloc = ground.alloc;
    let plan = plan_of(alloc, replay, &source.totals())?;
    if plan.terms.weighs_sizes && !source.totals().has_sizes {
        return Err(no_sizes(alloc));
    }
    let progress = Progress::new(
        ground.rt,
        alloc,
        0,
        ground.is_terminal,
        ground.outputs.is_quiet,
    );
    let start = Instant::now(ground.rt);
    let measured = stream_all(ground.rt, alloc, &mut source, &plan, jobs, &progress)?;
    progress.end();
    let seconds = since(ground.rt, &start);
    let totals = source.totals();
    check_totals(alloc, replay, &totals)?;
    check_warmup(alloc, replay, &plan, &totals)?;
    let mut report = report_of(ground, replay, &plan, measured, totals, jobs, seconds)?;
    report.recommend(alloc, replay.target)?;
    Ok(report)
}

fn since<R: Clock>(rt: &R, start: &std::io::Result<Instant>) -> f64 {
    match start {
        Ok(start) => start.elapsed(rt).map_or(0.0, |taken| taken.as_secs_f64()),
        Err(_) => 0.0,
    }
}

fn no_sizes(alloc: Global) -> Failure {
    let why = "--weigh size wants a column of sizes: name it by --columns";
    match String::from_str(alloc, why) {
        Ok(why) => Failure::Usage(why),
        Err(_) => Failure::Memory,
    }
}

// Whether there is something to replay, as it is asked for.
fn check_totals(alloc: Global, replay: &Replay<'_>, totals: &Totals) -> Result<(), Failure> {
    if totals.read == 0 {
        return Err(Failure::Other(format!(in alloc;
            "{}: the trace has no requests",
            replay.path
        )?));
    }
    // A part may have no keys, and is added to the others all the same.
    if totals.records == 0 && replay.part.is_none() {
        return Err(Failure::Other(format!(in alloc;
            "{}: no request is in the sample",
            replay.path
        )?));
    }
    if replay.terms.weighs_sizes && !totals.has_sizes {
        return Err(no_sizes(alloc));
    }
    if replay.windows > 1 && replay.windows as u64 > totals.records {
        let windows = grouped(alloc, replay.windows as u128)?;
        let requests = grouped(alloc, totals.records as u128)?;
        return Err(Failure::Other(format!(in alloc;
            "{windows} windows are more than the {requests} requests"
        )?));
    }
    let plain = replay.policies.iter().find(|it| !it.is_cores());
    if let Some(policy) = plain.filter(|_| totals.has_lives) {
        return Err(Failure::Other(format!(in alloc;
            "{} knows no lives, and the trace has some: leave the column ttl out by --columns",
            policy.name
        )?));
    }
    if has_belady(replay.policies.as_slice()) && totals.records >= Future::MOST {
        return Err(Failure::Other(format!(in alloc;
            "belady takes at most 4,294,967,294 requests: take a --sample"
        )?));
    }
    Ok(())
}

// Whether something is counted. A part may have fewer requests than its share of the warmup.
fn check_warmup(
    alloc: Global,
    replay: &Replay<'_>,
    plan: &Plan<'_>,
    totals: &Totals,
) -> Result<(), Failure> {
    if replay.part.is_some() || plan.warmup < totals.records {
        return Ok(());
    }
    let requests = grouped(alloc, totals.records as u128)?;
    Err(Failure::Other(format!(in alloc;
        "the warmup leaves none of the {requests} requests to be counted"
    )?))
}

fn report_of<R>(
    ground: &Ground<'_, R>,
    replay: &Replay<'_>,
    plan: &Plan<'_>,
    measured: Vec<Measured>,
    totals: Totals,
    jobs: usize,
    seconds: f64,
) -> Result<Report, Failure> {
    let alloc = ground.alloc;
    let title = title_of(ground, replay, &totals)?;
    let scale = scale_of(replay, &totals);
    let mut notes = Vec::new(alloc);
    notes.push(facts_of(alloc, plan, &totals)?)?;
    push_warnings(alloc, &mut notes, replay, plan, &totals)?;
    if !ground.outputs.is_quiet {
        notes.push(speed_of(alloc, plan, &totals, jobs, seconds)?)?;
    }
    let measured = measured.as_slice();
    let mut report = Report::new(alloc, title, plan, measured, &totals, scale, notes)?;
    let (part, parts) = replay.part.unwrap_or((1, 1));
    report.origin = Origin {
        part,
        parts,
        read: totals.read,
        checksum: replay.checksum(totals.checksum),
    };
    report.shown_from = shown_from(&totals, plan.terms.weighs_sizes, replay.sample.rate);
    Ok(report)
}

// The trace, how many requests it has, and whether a sample is replayed.
fn title_of<R>(
    ground: &Ground<'_, R>,
    replay: &Replay<'_>,
    totals: &Totals,
) -> Result<String, AllocError> {
    let alloc = ground.alloc;
    let path = replay.name;
    let name = match ground.outputs.title {
        Some(title) => title,
        None if path == "-" => "standard input",
        None => path.rsplit_once('/').map_or(path, |parts| parts.1),
    };
    let requests = grouped(alloc, totals.records as u128)?;
    let mut title = format!(in alloc; "{name}: {requests} requests")?;
    if !replay.sample_name.is_empty() {
        title.push_str("; ")?;
        title.push_str(replay.sample_name.as_str())?;
    }
    Ok(title)
}
