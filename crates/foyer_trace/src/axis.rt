//! The axes of a panel.

use crate::number::float;
use crate::report::{Measure, Report};
use std::alloc::{AllocError, Global};

/// The edges of the plot within its panel.
pub const LEFT: f64 = 86.0;

pub const RIGHT: f64 = 591.0;

pub const TOP: f64 = 46.0;

pub const BOTTOM: f64 = 370.0;

/// Maps sizes and ratios to the coordinates of a panel.
#[derive(Clone, Copy)]
pub struct Scale {
    // The decimal logarithms of the least and the greatest size.
    low: f64,
    high: f64,
    ratios: Ratios,
}

/// The axis of ratios.
#[derive(Clone, Copy)]
struct Ratios {
    // The ratio at the top.
    most: f64,
    // The number of steps up to it, and of decimal places in their labels.
    steps: u32,
    places: usize,
}

impl Scale {
    /// Creates the scale of a report's rows.
    pub fn new(report: &Report, measure: Measure) -> Scale {
        let (mut first, mut last) = (u64::MAX, 1);
        let rows = report.rows.iter().chain(report.curve.iter());
        let mut most = 0.0f64;
        for row in rows {
            first = first.min(row.size);
            last = last.max(row.size);
            if report.shows(row) {
                most = most.max(measure.of(row));
            }
        }
        let least = float(first as u128).max(1.0);
        let greatest = float(last as u128).max(least);
        let (mut low, mut high) = (least.log10(), greatest.log10());
        // A span of half a power of ten has a tick.
        let missing = (0.5 - (high - low)).max(0.0);
        low = low - missing / 2.0;
        high = high + missing / 2.0;
        Scale {
            low,
            high,
            ratios: ratios_up_to(most),
        }
    }

    /// Returns the x coordinate of a size.
    pub fn x(self, size: f64) -> f64 {
        LEFT + 12.0
            + (RIGHT - LEFT - 24.0) * (size.max(1.0).log10() - self.low) / (self.high - self.low)
    }

    /// Creates a scale that has ratios alone.
    pub fn of_ratios(most: f64) -> Scale {
        Scale {
            low: 0.0,
            high: 1.0,
            ratios: ratios_up_to(most),
        }
    }

    // Whether a size is on the axis.
    fn has(self, size: f64) -> bool {
        let at = size.log10();
        at >= self.low - 0.001 && at <= self.high + 0.001
    }

    /// Returns the y coordinate of a ratio.
    pub fn y(self, ratio: f64) -> f64 {
        BOTTOM - (BOTTOM - TOP) * ratio / self.ratios.most
    }
}

// Returns the axis whose top is the least of 1, 0.8, 0.5, 0.4, 0.2, 0.1, 0.08 and so on that is at least the ratio; of
// 0 it is 1.
fn ratios_up_to(ratio: f64) -> Ratios {
    let mut best = Ratios {
        most: 1.0,
        steps: 5,
        places: 1,
    };
    if ratio <= 0.0 {
        return best;
    }
    let mut power = 1.0;
    for place in 1..5usize {
        for (most, steps, more) in [
            (1.0, 5u32, 0usize),
            (0.8, 4, 0),
            (0.5, 5, 0),
            (0.4, 4, 0),
            (0.2, 4, 1),
        ] {
            if most * power >= ratio {
                best = Ratios {
                    most: most * power,
                    steps,
                    places: place.saturating_add(more),
                };
            }
        }
        power = power / 10.0;
    }
    best
}

/// Draws the axis of ratios, with a line across at each tick.
pub fn push_ratios(text: &mut String, scale: Scale, measure: Measure) -> Result<(), AllocError> {
    let Ratios {
        most,
        steps,
        places,
    } = scale.ratios;
    for step in 0..=steps {
        let ratio = most * step as f64 / steps as f64;
        push_ratio(text, ratio, scale.y(ratio), places)?;
    }
    let middle = (TOP + BOTTOM) / 2.0;
    let name = measure.name();
    write!(
        text,
        "<text transform=\"translate(16 {middle:.0}) rotate(-90)\" text-anchor=\"middle\">{name}</text>\n"
    )?;
    write!(
        text,
        "<path d=\"M{LEFT:.0} {TOP:.0}V{BOTTOM:.0}H{RIGHT:.0}\" fill=\"none\" stroke=\"#333333\"/>\n"
    )
}

// Draws the line across at a ratio, and its label.
fn push_ratio(text: &mut String, ratio: f64, y: f64, places: usize) -> Result<(), AllocError> {
    let (start, end) = (LEFT, RIGHT);
    let edge = LEFT - 8.0;
    let down = y + 4.5;
    write!(
        text,
        "<line x1=\"{start:.0}\" y1=\"{y:.1}\" x2=\"{end:.0}\" y2=\"{y:.1}\" stroke=\"#dddddd\"/>\n"
    )?;
    write!(
        text,
        "<text x=\"{edge:.0}\" y=\"{down:.1}\" text-anchor=\"end\">"
    )?;
    write!(text, "{ratio:.places$}")?;
    text.push_str("</text>\n")
}

/// Draws the axis of sizes.
pub fn push_sizes(
    alloc: Global,
    text: &mut String,
    report: &Report,
    scale: Scale,
) -> Result<(), AllocError> {
    if report.is_in_bytes {
        push_bytes(alloc, text, scale)?;
    } else {
        push_records(alloc, text, scale)?;
    }
    let middle = (LEFT + RIGHT) / 2.0;
    let down = BOTTOM + 46.0;
    let unit = report.unit();
    write!(
        text,
        "<text x=\"{middle:.0}\" y=\"{down:.0}\" text-anchor=\"middle\">cache size ({unit}, logarithmic)</text>\n"
    )
}

// Draws ticks at powers of ten and at 2 and 5 times these, or at 2, 3, 5 and 7 times these if the span is short. Labels
// are left out if they would touch.
fn push_records(alloc: Global, text: &mut String, scale: Scale) -> Result<(), AllocError> {
    let span = scale.high - scale.low;
    let steps = if span < 1.0 {
        &[1.0, 2.0, 3.0, 5.0, 7.0][..]
    } else {
        &[1.0, 2.0, 5.0]
    };
    let labels_all = span < 3.2;
    let powers_a_label = if span < 8.0 { 1 } else { 3u32 };
    let mut power = 1.0f64;
    for place in 0..20u32 {
        for step in steps {
            let size = power * *step;
            if !scale.has(size) {
                continue;
            }
            let is_power = *step < 1.5;
            push_tick(text, scale.x(size), is_power)?;
            if labels_all || is_power && place % powers_a_label == 0 {
                let label = short(alloc, size)?;
                push_size(text, scale.x(size), label.as_str())?;
            }
        }
        power = power * 10.0;
    }
    Ok(())
}

// Draws ticks at powers of two bytes, and halfway between them if the span is short.
fn push_bytes(alloc: Global, text: &mut String, scale: Scale) -> Result<(), AllocError> {
    const UNITS: [&str; 7] = ["B", "KiB", "MiB", "GiB", "TiB", "PiB", "EiB"];
    let span = scale.high - scale.low;
    let powers_a_label = if span < 2.0 {
        1
    } else if span < 4.0 {
        2
    } else if span < 10.0 {
        5
    } else {
        10u32
    };
    let mut power = 1.0f64;
    for unit in UNITS {
        let mut value = 1.0f64;
        for place in 0..10u32 {
            let is_labelled = place % powers_a_label == 0;
            push_power(alloc, text, scale, power, value, unit, is_labelled)?;
            if span < 1.0 {
                push_power(alloc, text, scale, power, value * 1.5, unit, place > 0)?;
            }
            value = value * 2.0;
        }
        power = power * 1024.0;
    }
    Ok(())
}

// Draws the tick at a number of bytes and its label, if it is on the axis.
fn push_power(
    alloc: Global,
    text: &mut String,
    scale: Scale,
    power: f64,
    value: f64,
    unit: &str,
    is_labelled: bool,
) -> Result<(), AllocError> {
    let size = power * value;
    if !scale.has(size) {
        return Ok(());
    }
    push_tick(text, scale.x(size), value < 1.5)?;
    if is_labelled {
        let label = format!(in alloc; "{value:.0} {unit}")?;
        push_size(text, scale.x(size), label.as_str())?;
    }
    Ok(())
}

/// Draws a tick of the lower axis.
pub fn push_tick(text: &mut String, x: f64, is_power: bool) -> Result<(), AllocError> {
    let end = BOTTOM + if is_power { 7.0 } else { 4.0 };
    write!(
        text,
        "<line x1=\"{x:.1}\" y1=\"{BOTTOM:.0}\" x2=\"{x:.1}\" y2=\"{end:.0}\" stroke=\"#333333\"/>\n"
    )
}

/// Draws a label of the lower axis.
pub fn push_size(text: &mut String, x: f64, label: &str) -> Result<(), AllocError> {
    let down = BOTTOM + 22.0;
    write!(
        text,
        "<text x=\"{x:.1}\" y=\"{down:.0}\" text-anchor=\"middle\">{label}</text>\n"
    )
}

// Formats a number of records, such as `20k`.
fn short(alloc: Global, size: f64) -> Result<String, AllocError> {
    let mut value = size;
    let mut unit = "";
    for next in ["k", "M", "G", "T", "P", "E"] {
        if value < 999.5 {
            break;
        }
        value = value / 1000.0;
        unit = next;
    }
    format!(in alloc; "{value:.0}{unit}")
}
