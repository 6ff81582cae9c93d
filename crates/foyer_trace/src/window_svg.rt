//! The miss ratios of windows, as SVG.

use crate::axis::{BOTTOM, LEFT, RIGHT, Scale, TOP, push_ratios, push_size, push_tick};
use crate::look::{Look, look_of, push_marker};
use crate::number::float;
use crate::report::{Measure, Report};
use crate::svg::push_legend;
use crate::windows::ratio_of;
use std::alloc::{AllocError, Global};

// Returns the x coordinate of a window: the middle of its part of the axis.
fn place_of(report: &Report, window: usize) -> f64 {
    let part = (float(window as u128) + 0.5) / float(report.window_count().max(1) as u128);
    LEFT + (RIGHT - LEFT) * part
}

/// Draws the panel of a size, given by its place.
pub fn push_window_panel(
    alloc: Global,
    text: &mut String,
    report: &Report,
    column: usize,
) -> Result<(), AllocError> {
    let mut most = 0.0f64;
    for policy in 0..report.policies.len() {
        for counts in report.windows_of(policy, column) {
            most = most.max(ratio_of(counts).unwrap_or(0.0));
        }
    }
    let scale = Scale::of_ratios(most);
    let size = report.sizes.get(column).copied().unwrap_or(0);
    let title = report.windows_title(alloc, size)?;
    let above = TOP - 14.0;
    write!(
        text,
        "<text x=\"{LEFT:.0}\" y=\"{above:.0}\">{title}</text>\n"
    )?;
    push_ratios(text, scale, Measure::Requests)?;
    push_numbers(alloc, text, report)?;
    for (policy, label) in report.policies.iter().enumerate() {
        let look = look_of(policy);
        push_window_line(text, report, policy, column, scale, &look)?;
        push_legend(text, policy, label.as_str(), &look)?;
    }
    Ok(())
}

// Draws the axis of windows, and numbers about ten of them.
fn push_numbers(alloc: Global, text: &mut String, report: &Report) -> Result<(), AllocError> {
    let count = report.window_count();
    let step = (count / 10).max(1);
    for window in 0..count {
        let x = place_of(report, window);
        let is_labelled = window % step == 0;
        if is_labelled || count <= 100 {
            push_tick(text, x, is_labelled)?;
        }
        if is_labelled {
            let label = format!(in alloc; "{}", window.saturating_add(1))?;
            push_size(text, x, label.as_str())?;
        }
    }
    let middle = (LEFT + RIGHT) / 2.0;
    let down = BOTTOM + 46.0;
    write!(
        text,
        "<text x=\"{middle:.0}\" y=\"{down:.0}\" text-anchor=\"middle\">part of the trace</text>\n"
    )
}

fn push_window_line(
    text: &mut String,
    report: &Report,
    policy: usize,
    column: usize,
    scale: Scale,
    look: &Look,
) -> Result<(), AllocError> {
    let (colour, dashes) = (look.colour, look.dashes);
    text.push_str("<polyline points=\"")?;
    for (window, counts) in report.windows_of(policy, column).iter().enumerate() {
        if let Some(ratio) = ratio_of(counts) {
            let (x, y) = (place_of(report, window), scale.y(ratio));
            write!(text, "{x:.1},{y:.1} ")?;
        }
    }
    write!(
        text,
        "\" fill=\"none\" stroke=\"{colour}\" stroke-width=\"1.8\" stroke-dasharray=\"{dashes}\"/>\n"
    )?;
    if report.window_count() > 50 {
        return Ok(());
    }
    for (window, counts) in report.windows_of(policy, column).iter().enumerate() {
        if let Some(ratio) = ratio_of(counts) {
            push_marker(text, place_of(report, window), scale.y(ratio), look)?;
        }
    }
    Ok(())
}
