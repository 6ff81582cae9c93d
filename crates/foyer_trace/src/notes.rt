//! What stands below a table.

use crate::number::{bytes, float, grouped, quotient};
use crate::options::Replay;
use crate::plan::Plan;
use crate::trace::Totals;
use std::alloc::{AllocError, Global};
use std::num::saturating_f64_to_u64;

// A sampled cache of fewer records has no meaningful ratio.
const FEW: f64 = 100.0;

// Returns the mean weight of a record.
fn mean_weight(totals: &Totals, weighs_sizes: bool) -> f64 {
    if !weighs_sizes {
        1.0
    } else if totals.keys > 0 {
        quotient(totals.key_bytes, totals.keys as u128)
    } else {
        quotient(totals.bytes, totals.gets as u128)
    }
}

/// Returns the least size whose ratio is shown: the one of which a sample of this rate has 100 records.
pub fn shown_from(totals: &Totals, weighs_sizes: bool, rate: f64) -> u64 {
    if rate >= 1.0 {
        return 0;
    }
    let wanted = FEW * mean_weight(totals, weighs_sizes);
    let size = saturating_f64_to_u64(wanted / rate);
    if float(size as u128) * rate < wanted * 0.999999999 {
        size.saturating_add(1)
    } else {
        size
    }
}

/// Adds what a reader has to know of the table's sizes and rows.
pub fn push_warnings(
    alloc: Global,
    notes: &mut Vec<String>,
    replay: &Replay<'_>,
    plan: &Plan<'_>,
    totals: &Totals,
) -> Result<(), AllocError> {
    let weighs_sizes = plan.terms.weighs_sizes;
    let from = shown_from(totals, weighs_sizes, replay.sample.rate);
    if plan.capacities.iter().any(|it| it.shown < from) {
        let size = size_of(alloc, from, weighs_sizes)?;
        notes.push(format!(in alloc;
            "a sample of fewer than 100 records says nothing: sizes are shown from {size} on"
        )?)?;
    }
    if plan.policies.iter().any(|it| it.is_reference()) {
        let what =
            "unproved rows are those of other policies' papers, to compare with: the caches here do not have them";
        notes.push(String::from_str(alloc, what)?)?;
    }
    let shards = plan.shards;
    if shards == 1 {
        return Ok(());
    }
    let least = mean_weight(totals, weighs_sizes) * float(shards as u128);
    for capacity in &plan.capacities {
        if float(capacity.scaled as u128) < least {
            let size = size_of(alloc, capacity.shown, weighs_sizes)?;
            let unit = if weighs_sizes { " records" } else { "" };
            notes.push(format!(in alloc;
                "warning: a cache of {size} may hold {shards}{unit}: each of its {shards} shards keeps one"
            )?)?;
        }
    }
    Ok(())
}

// Formats a size with its unit.
fn size_of(alloc: Global, size: u64, weighs_sizes: bool) -> Result<String, AllocError> {
    if weighs_sizes {
        bytes(alloc, size as u128)
    } else {
        format!(in alloc; "{} records", grouped(alloc, size as u128)?)
    }
}

/// Describes how fast the runs were.
pub fn speed_of(
    alloc: Global,
    plan: &Plan<'_>,
    totals: &Totals,
    jobs: usize,
    seconds: f64,
) -> Result<String, AllocError> {
    let runs = plan.runs();
    let jobs = jobs.min(runs).max(1);
    let requests = float(totals.records as u128) * float(runs as u128);
    let rate = requests / seconds.max(0.000001) / 1e6;
    let part = rate / float(jobs as u128);
    format!(in alloc;
        "{runs} runs in {seconds:.2} s, {jobs} at a time: {rate:.2} million requests a second, {part:.2} million a job"
    )
}

/// Describes the trace in a line.
pub fn facts_of(alloc: Global, plan: &Plan<'_>, totals: &Totals) -> Result<String, AllocError> {
    let mut text = format!(in alloc; "{} requests", grouped(alloc, totals.records as u128)?)?;
    if totals.gets != totals.records {
        write!(text, " ({} gets)", grouped(alloc, totals.gets as u128)?)?;
    }
    if totals.records != totals.read {
        write!(text, " of {} read", grouped(alloc, totals.read as u128)?)?;
    }
    if totals.keys > 0 {
        write!(
            text,
            ", {} distinct keys",
            grouped(alloc, totals.keys as u128)?
        )?;
    }
    if totals.has_sizes {
        if totals.keys > 0 {
            write!(text, " of {}", bytes(alloc, totals.key_bytes)?)?;
        }
        write!(text, ", {} requested", bytes(alloc, totals.bytes)?)?;
    }
    if totals.bad > 0 {
        write!(
            text,
            ", {} bad records left out",
            grouped(alloc, totals.bad as u128)?
        )?;
    }
    if plan.warmup > 0 {
        write!(
            text,
            ", the first {} not counted",
            grouped(alloc, plan.warmup as u128)?
        )?;
    }
    Ok(text)
}
