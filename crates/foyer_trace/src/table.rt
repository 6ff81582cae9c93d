//! The table of a report, as text and as HTML.

use crate::report::{Measure, Report, Row};
use crate::svg::push_escaped;
use crate::windows::push_windows;
use std::alloc::{AllocError, Global};

/// The whole report as text.
pub fn text_of(alloc: Global, report: &Report) -> Result<String, AllocError> {
    let mut text = String::new(alloc);
    let title = &report.title;
    write!(text, "{title}\n")?;
    for measure in report.measures() {
        text.push('\n')?;
        push_table(alloc, &mut text, report, *measure)?;
    }
    push_windows(alloc, &mut text, report)?;
    if !report.notes.is_empty() {
        text.push('\n')?;
    }
    for note in &report.notes {
        write!(text, "{note}\n")?;
    }
    Ok(text)
}

// The table of one measure: a row for each policy and a column for each size, the least of each marked.
fn push_table(
    alloc: Global,
    text: &mut String,
    report: &Report,
    measure: Measure,
) -> Result<(), AllocError> {
    let (name, unit) = (measure.name(), report.unit());
    let labels = report
        .policies
        .iter()
        .map(|label| label.len())
        .max()
        .unwrap_or(0);
    write!(
        text,
        "{name} by cache size in {unit}; * is the least of its column\n"
    )?;
    write!(text, "{:labels$}", "")?;
    let width = column_width(alloc, report)?;
    for size in &report.sizes {
        let size = report.size_text(alloc, *size)?;
        write!(text, "  {size:>width$} ")?;
    }
    end_line(text)?;
    for (policy, label) in report.policies.iter().enumerate() {
        write!(text, "{label:labels$}")?;
        for (column, row) in report.rows_of(policy).iter().enumerate() {
            let (ratio, is_marked) = cell_of(alloc, report, measure, column, row)?;
            let mark = if is_marked { '*' } else { ' ' };
            write!(text, "  {ratio:>width$}{mark}")?;
        }
        end_line(text)?;
    }
    Ok(())
}

// What stands at a policy's size, and whether it is the least of its column.
fn cell_of(
    alloc: Global,
    report: &Report,
    measure: Measure,
    column: usize,
    row: &Row,
) -> Result<(String, bool), AllocError> {
    if !report.shows(row) {
        return Ok((String::from_str(alloc, "-")?, false));
    }
    let ratio = format!(in alloc; "{:.4}", measure.of(row))?;
    let is_least = report
        .least(alloc, measure, column)?
        .is_some_and(|least| least.as_str() == ratio.as_str());
    Ok((ratio, is_least && row.policy.as_str() != "belady"))
}

// How wide a column is, which has room for the longest size.
fn column_width(alloc: Global, report: &Report) -> Result<usize, AllocError> {
    let mut width = 9;
    for size in &report.sizes {
        width = width.max(report.size_text(alloc, *size)?.len());
    }
    Ok(width)
}

// Ends a line, without spaces at its end.
fn end_line(text: &mut String) -> Result<(), AllocError> {
    for _space in 0..text.len() {
        if text.as_bytes().last() != Some(&b' ') {
            break;
        }
        text.pop();
    }
    text.push('\n')
}

/// The table of one measure as HTML.
pub fn push_html(
    alloc: Global,
    text: &mut String,
    report: &Report,
    measure: Measure,
) -> Result<(), AllocError> {
    let (name, unit) = (measure.name(), report.unit());
    write!(
        text,
        "<table>\n<caption>{name} by cache size in {unit}; the least of each column in bold</caption>\n<tr><th></th>"
    )?;
    for size in &report.sizes {
        let size = report.size_text(alloc, *size)?;
        write!(text, "<th scope=\"col\">{size}</th>")?;
    }
    text.push_str("</tr>\n")?;
    for (policy, label) in report.policies.iter().enumerate() {
        text.push_str("<tr><th scope=\"row\">")?;
        push_escaped(text, label.as_str())?;
        text.push_str("</th>")?;
        for (column, row) in report.rows_of(policy).iter().enumerate() {
            let (ratio, is_marked) = cell_of(alloc, report, measure, column, row)?;
            if is_marked {
                write!(text, "<td><b>{ratio}</b></td>")?;
            } else {
                write!(text, "<td>{ratio}</td>")?;
            }
        }
        text.push_str("</tr>\n")?;
    }
    text.push_str("</table>\n")
}
