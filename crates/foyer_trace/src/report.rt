//! What the runs came to, for the table, the CSV file and the pictures.

ghost use Rattle.std.specs.Prelude.{◌≡◌, IfOk, None};
ghost use Rattle.foyer_trace.specs.Rows.{AreRowsOf};

use crate::curve::Curve;
use crate::failure::Failure;
use crate::number::{bytes, float, part_of, quotient};
use crate::origin::Origin;
use crate::plan::Plan;
use crate::policy::Policy;
use crate::run::Measured;
use crate::trace::Totals;
use foyer_replay::Counts;
use std::alloc::{AllocError, Global};
use std::num::saturating_f64_to_u64;

/// What one run came to.
#[derive(Drop)]
pub struct Row {
    pub policy: String,
    pub parameters: String,
    pub size: u64,
    pub requests: u64,
    pub hits: u64,
    pub misses: u64,
    pub bytes: u128,
    pub miss_bytes: u128,
    pub evictions: u64,
    pub expired: u64,
    pub seconds: f64,
}

impl Row {
    // What a run of a policy came to, of which a sample's scale makes an estimate.
    fn new(
        policy: &Policy<'_>,
        alloc: Global,
        size: u64,
        measured: &Measured,
        scale: Option<Scale>,
    ) -> Result<Row, AllocError>
        ensures misses { IfOk result (λ row. row.misses ≡ measured.now.counts.misses) }
        ensures hits { scale ≡ None → IfOk result (λ row. row.hits ≡ measured.now.counts.hits) }
    {
        let counts = measured.counts;
        let gets = counts.hits.saturating_add(counts.misses);
        let read = counts.hit_bytes.saturating_add(counts.miss_bytes);
        let (hits, bytes) = match scale {
            Some(scale) => (
                scale.requests(gets).saturating_sub(counts.misses),
                scale.bytes(read).max(counts.miss_bytes),
            ),
            None => (counts.hits, read),
        };
        Ok(Row {
            policy: String::from_str(alloc, policy.name)?,
            parameters: policy.parameters.clone()?,
            size,
            requests: hits.saturating_add(counts.misses),
            hits,
            misses: counts.misses,
            bytes,
            miss_bytes: counts.miss_bytes,
            evictions: counts.evictions,
            expired: counts.expired,
            seconds: measured.seconds,
        })
    }

    /// The part of the requests that missed.
    pub fn miss_ratio(&self) -> f64 {
        quotient(self.misses as u128, self.requests as u128)
    }

    /// The part of the bytes that missed.
    pub fn byte_miss_ratio(&self) -> f64 {
        quotient(self.miss_bytes, self.bytes)
    }
}

/// The miss ratio of counts, of which a sample's scale makes an estimate.
pub fn ratio_of(counts: &Counts, scale: Option<Scale>) -> f64 {
    let gets = counts.hits.saturating_add(counts.misses);
    let requests = match scale {
        Some(scale) => scale.requests(gets).max(counts.misses),
        None => gets,
    };
    quotient(counts.misses as u128, requests as u128)
}

/// Which ratio of a run is shown.
#[derive(Clone, Copy)]
pub enum Measure {
    Requests,
    Bytes,
}

impl Measure {
    /// What the ratio is called.
    pub fn name(self) -> &'static str {
        match self {
            Measure::Requests => "miss ratio",
            Measure::Bytes => "byte miss ratio",
        }
    }

    /// The ratio of a run.
    pub fn of(self, row: &Row) -> f64 {
        match self {
            Measure::Requests => row.miss_ratio(),
            Measure::Bytes => row.byte_miss_ratio(),
        }
    }
}

/// How many requests a sample stands for, where the few hottest keys may be in it or not: its gets are taken to be the
/// sample's part of all gets, and those that it lacks, or has beyond that, to be hits (SHARDS-adj, of the same paper).
#[derive(Clone, Copy)]
pub struct Scale {
    /// By what the gets of the sample are multiplied, and its bytes.
    requests: f64,
    bytes: f64,
}

impl Scale {
    /// That of a sample of this rate.
    pub fn of(totals: &Totals, rate: f64) -> Scale {
        Scale {
            requests: rate / quotient(totals.gets as u128, totals.read_gets as u128).max(1e-12),
            bytes: rate / quotient(totals.bytes, totals.read_bytes).max(1e-12),
        }
    }

    fn requests(self, number: u64) -> u64 {
        part_of(number, self.requests)
    }

    fn bytes(self, number: u128) -> u128 {
        saturating_f64_to_u64(float(number) * self.bytes + 0.5) as u128
    }
}

// The rows of a plan's runs, in their order.
fn all_rows(
    alloc: Global,
    plan: &Plan<'_>,
    measured: &[Measured],
    scale: Option<Scale>,
) -> Result<Vec<Row>, Failure>
    ensures { scale ≡ None → IfOk result (λ rows. AreRowsOf rows.items measured.now) }
{
    let mut rows = Vec::new(alloc);
    for number in 0..measured.len() {
        let Some((policy, capacity)) = plan.run(number) else {
            break;
        };
        rows.push(Row::new(policy, alloc, capacity.shown, &measured[number], scale)?)?;
    }
    Ok(rows)
}

/// What all runs came to.
#[derive(Drop)]
pub struct Report {
    /// The trace, and how much of it was replayed.
    pub title: String,
    /// A label for each policy.
    pub policies: Vec<String>,
    /// The sizes, in ascending order.
    pub sizes: Vec<u64>,
    /// A row for each policy and size, in their order.
    pub rows: Vec<Row>,
    /// Whether the sizes are in bytes.
    pub is_in_bytes: bool,
    /// Whether the requests have sizes.
    pub has_sizes: bool,
    /// What stands below the table.
    pub notes: Vec<String>,
    /// What the rows are of.
    pub origin: Origin,
    /// The least size that is shown: a sample's smaller ones mean nothing.
    pub shown_from: u64,
    /// LRU at many sizes in ascending order, if its curve was asked for.
    pub curve: Vec<Row>,
    /// What each row's run counted in each window, if there are several.
    pub windows: Vec<Vec<Counts>>,
}

impl Report {
    /// The report of a plan's runs.
    pub fn new(
        alloc: Global,
        title: String,
        plan: &Plan<'_>,
        measured: &[Measured],
        totals: &Totals,
        scale: Option<Scale>,
        notes: Vec<String>,
    ) -> Result<Report, Failure>
        ensures rows { scale ≡ None → IfOk result (λ report. AreRowsOf report.rows.items measured.now) }
    {
        let rows = all_rows(alloc, plan, measured, scale)?;
        let mut policies = Vec::new(alloc);
        for policy in plan.policies {
            policies.push(policy.label(alloc)?)?;
        }
        let mut sizes = Vec::new(alloc);
        for capacity in &plan.capacities {
            sizes.push(capacity.shown)?;
        }
        Ok(Report {
            title,
            policies,
            sizes,
            rows,
            is_in_bytes: plan.terms.weighs_sizes,
            has_sizes: totals.has_sizes,
            notes,
            origin: Origin::default(),
            shown_from: 0,
            curve: Vec::new(alloc),
            windows: Vec::new(alloc),
        })
    }

    /// Puts the curve of LRU in. A sample's sizes are larger by its rate.
    pub fn put_curve(
        &mut self,
        alloc: Global,
        policy: &Policy<'_>,
        curve: &Curve,
        rate: f64,
        scale: Option<Scale>,
    ) -> Result<(), AllocError> {
        let sizes = curve.sizes(alloc)?;
        let counts = curve.counts(alloc, sizes.as_slice())?;
        for (size, counts) in sizes.iter().zip(counts.iter()) {
            let measured = Measured {
                counts: *counts,
                seconds: 0.0,
            };
            let shown = part_of(*size as u64, 1.0 / rate);
            self.curve
                .push(Row::new(policy, alloc, shown, &measured, scale)?)?;
        }
        Ok(())
    }

    /// The rows that a policy's line goes through.
    pub fn drawn(&self, policy: usize) -> &[Row] {
        let is_curve = self
            .policies
            .get(policy)
            .is_some_and(|it| it.as_str() == "lru-curve");
        if is_curve && !self.curve.is_empty() {
            self.curve.as_slice()
        } else {
            self.rows_of(policy)
        }
    }

    /// The rows of a policy, one for each size.
    pub fn rows_of(&self, policy: usize) -> &[Row] {
        let sizes = self.sizes.len();
        let start = policy.saturating_mul(sizes).min(self.rows.len());
        let end = start.saturating_add(sizes).min(self.rows.len());
        &self.rows.as_slice()[start..end]
    }

    /// Whether a row's ratios are shown.
    pub fn shows(&self, row: &Row) -> bool {
        row.size >= self.shown_from
    }

    /// The measures that are shown.
    pub fn measures(&self) -> &'static [Measure] {
        if self.has_sizes {
            &[Measure::Requests, Measure::Bytes]
        } else {
            &[Measure::Requests]
        }
    }

    /// What the sizes are counted in.
    pub fn unit(&self) -> &'static str {
        if self.is_in_bytes { "bytes" } else { "records" }
    }

    /// A size as it is shown above its column.
    pub fn size_text(&self, alloc: Global, size: u64) -> Result<String, AllocError> {
        if self.is_in_bytes && size >= 10_000 {
            bytes(alloc, size as u128)
        } else {
            format!(in alloc; "{size}")
        }
    }

    /// The least ratio of a column but Belady's, as it is printed.
    pub fn least(
        &self,
        alloc: Global,
        measure: Measure,
        column: usize,
    ) -> Result<Option<String>, AllocError> {
        let mut least: Option<f64> = None;
        for policy in 0..self.policies.len() {
            let Some(row) = self.rows_of(policy).get(column) else {
                continue;
            };
            if row.policy.as_str() == "belady" || !self.shows(row) {
                continue;
            }
            let ratio = measure.of(row);
            if least.is_none_or(|it| ratio < it) {
                least = Some(ratio);
            }
        }
        match least {
            Some(ratio) => Ok(Some(format!(in alloc; "{ratio:.4}")?)),
            None => Ok(None),
        }
    }
}
