//! The CSV file of a report: a row for each run.

use crate::origin::Origin;
use crate::report::Report;
use crate::windows::ratio_of;
use foyer_replay::Counts;
use std::alloc::{AllocError, Global};

/// The columns.
pub const HEADER: &str =
    "policy,parameters,size,requests,hits,misses,miss_ratio,byte_miss_ratio,evictions,expired,seconds,bytes,miss_bytes,unit,part,read,checksum,windows";

/// The CSV text of a report. Without sizes the columns of bytes are empty, and so are ratios that mean nothing.
pub fn sheet_of(alloc: Global, report: &Report) -> Result<String, AllocError> {
    let mut text = String::from_str(alloc, HEADER)?;
    text.push('\n')?;
    let unit = report.unit();
    let Origin {
        part,
        parts,
        read,
        checksum,
    } = report.origin;
    for (number, row) in report.rows.iter().enumerate() {
        let (policy, parameters, size) = (&row.policy, &row.parameters, row.size);
        let (requests, hits, misses) = (row.requests, row.hits, row.misses);
        write!(
            text,
            "{policy},{parameters},{size},{requests},{hits},{misses},"
        )?;
        if report.shows(row) {
            write!(text, "{:.6}", row.miss_ratio())?;
        }
        text.push(',')?;
        if report.has_sizes && report.shows(row) {
            write!(text, "{:.6}", row.byte_miss_ratio())?;
        }
        let (evictions, expired, seconds) = (row.evictions, row.expired, row.seconds);
        write!(text, ",{evictions},{expired},{seconds:.3},")?;
        if report.has_sizes {
            let (bytes, miss_bytes) = (row.bytes, row.miss_bytes);
            write!(text, "{bytes},{miss_bytes}")?;
        } else {
            text.push(',')?;
        }
        write!(text, ",{unit},{part}/{parts},{read},{checksum},")?;
        if let Some(windows) = report.windows.get(number) {
            push_ratios(&mut text, windows.as_slice())?;
        }
        text.push('\n')?;
    }
    Ok(text)
}

// The ratios of windows, with a space between two.
fn push_ratios(text: &mut String, windows: &[Counts]) -> Result<(), AllocError> {
    for (at, counts) in windows.iter().enumerate() {
        if at > 0 {
            text.push(' ')?;
        }
        match ratio_of(counts) {
            Some(ratio) => write!(text, "{ratio:.6}")?,
            None => text.push('-')?,
        }
    }
    Ok(())
}
