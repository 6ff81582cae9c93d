//! Windows: parts of a trace, one after another, of as many records.

use crate::number::{grouped, quotient};
use crate::report::Report;
use crate::trace::{Part, Trace};
use foyer_replay::Counts;
use std::alloc::{AllocError, Global};
use std::mem;

/// Cuts a trace into windows.
#[derive(Drop)]
struct Cutter {
    windows: Vec<Trace>,
    // The parts of the current window.
    parts: Vec<Part>,
    // The records of all windows so far and of the trace, and the wanted number of windows.
    records: u64,
    all: u64,
    count: usize,
    alloc: Global,
}

/// Cuts a trace into windows whose numbers of records differ by at most one.
pub fn windows_of(alloc: Global, trace: Trace, count: usize) -> Result<Vec<Trace>, AllocError> {
    let Trace { parts, totals } = trace;
    let mut cutter = Cutter {
        windows: Vec::new(alloc),
        parts: Vec::new(alloc),
        records: 0,
        all: totals.records,
        count,
        alloc,
    };
    for part in parts {
        cutter.add(part)?;
    }
    let Cutter {
        windows,
        parts,
        records: _records,
        all: _all,
        count: _count,
        alloc: _alloc,
    } = cutter;
    let mut windows = windows;
    windows.push(Trace { parts, totals })?;
    for window in windows.iter_mut() {
        window.totals = totals;
    }
    Ok(windows)
}

impl Cutter {
    // Returns the number of the record at which the current window ends.
    fn end(&self) -> u64 {
        let number = self.windows.len().saturating_add(1);
        let end = (self.all as u128).saturating_mul(number as u128) / (self.count.max(1) as u128);
        u64::try_from(end).unwrap_or(u64::MAX)
    }

    fn add(&mut self, part: Part) -> Result<(), AllocError> {
        let length = part.len();
        let mut start = 0usize;
        for _window in 0..self.count {
            let room = self.end().saturating_sub(self.records) as usize;
            let is_last = self.windows.len().saturating_add(1) >= self.count;
            if is_last || length.saturating_sub(start) < room {
                break;
            }
            let end = start.saturating_add(room);
            self.parts.push(part.slice(self.alloc, start, end)?)?;
            self.records = self.records.saturating_add(room as u64);
            start = end;
            let parts = mem::replace(&mut self.parts, Vec::new(self.alloc));
            self.windows.push(Trace {
                parts,
                totals: Default::default(),
            })?;
        }
        let rest = length.saturating_sub(start);
        self.records = self.records.saturating_add(rest as u64);
        if start == 0 {
            self.parts.push(part)?;
        } else if rest > 0 {
            self.parts.push(part.slice(self.alloc, start, length)?)?;
        }
        Ok(())
    }
}

/// Returns the miss ratio of a window, if it has counted gets.
pub fn ratio_of(counts: &Counts) -> Option<f64> {
    let gets = counts.hits.saturating_add(counts.misses);
    if gets == 0 {
        return None;
    }
    Some(quotient(counts.misses as u128, gets as u128))
}

impl Report {
    /// Returns the counts in each window of a policy's run at a size.
    pub fn windows_of(&self, policy: usize, column: usize) -> &[Counts] {
        let number = policy
            .saturating_mul(self.sizes.len())
            .saturating_add(column);
        self.windows.get(number).map_or(&[], |it| it.as_slice())
    }

    /// Returns the number of windows.
    pub fn window_count(&self) -> usize {
        self.windows.first().map_or(0, |it| it.len())
    }

    /// Returns the title of a size's windows.
    pub fn windows_title(&self, alloc: Global, size: u64) -> Result<String, AllocError> {
        let size = if self.is_in_bytes {
            self.size_text(alloc, size)?
        } else {
            format!(in alloc; "{} records", grouped(alloc, size as u128)?)?
        };
        let count = self.window_count();
        format!(in alloc; "miss ratio in each of {count} parts of the trace, with {size}")
    }
}

/// Prints a table for each size, with a row for each policy and a column for each window.
pub fn push_windows(alloc: Global, text: &mut String, report: &Report) -> Result<(), AllocError> {
    if report.window_count() == 0 {
        return Ok(());
    }
    let labels = report
        .policies
        .iter()
        .map(|label| label.len())
        .max()
        .unwrap_or(0);
    for (column, size) in report.sizes.iter().enumerate() {
        let title = report.windows_title(alloc, *size)?;
        write!(text, "\n{title}\n{:labels$}", "")?;
        for number in 1..=report.window_count() {
            write!(text, "  {number:>6}")?;
        }
        text.push('\n')?;
        for (policy, label) in report.policies.iter().enumerate() {
            write!(text, "{label:labels$}")?;
            for counts in report.windows_of(policy, column) {
                match ratio_of(counts) {
                    Some(ratio) => write!(text, "  {ratio:.4}")?,
                    None => text.push_str("       -")?,
                }
            }
            text.push('\n')?;
        }
    }
    Ok(())
}
