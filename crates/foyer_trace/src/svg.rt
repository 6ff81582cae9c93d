//! The curves of a report, as SVG.

use crate::axis::{LEFT, RIGHT, Scale, TOP, push_ratios, push_sizes};
use crate::look::{Look, look_of, push_marker};
use crate::number::float;
use crate::report::{Measure, Report};
use crate::window_svg::push_window_panel;
use std::alloc::{AllocError, Global};

const WIDTH: f64 = 776.0;

const HEIGHT: f64 = 430.0;

// The height of a line of the legend.
const LEGEND: f64 = 24.0;

/// Draws all measures of a report, with its title above the first.
pub fn picture_of(alloc: Global, report: &Report, has_title: bool) -> Result<String, AllocError> {
    let mut text = String::new(alloc);
    let panel = height_of(report);
    let measures = report.measures().len();
    let windowed = if report.window_count() > 0 {
        report.sizes.len()
    } else {
        0
    };
    let height = panel * float(measures.saturating_add(windowed) as u128);
    let width = width_of(report);
    write!(
        text,
        "<svg xmlns=\"http://www.w3.org/2000/svg\" viewBox=\"0 0 {width:.0} {height:.0}\" \
         width=\"{width:.0}\" height=\"{height:.0}\" font-family=\"sans-serif\" font-size=\"13\">\n"
    )?;
    write!(
        text,
        "<rect width=\"{width:.0}\" height=\"{height:.0}\" fill=\"#ffffff\"/>\n"
    )?;
    for (at, measure) in report.measures().iter().enumerate() {
        let offset = panel * float(at as u128);
        write!(text, "<g transform=\"translate(0 {offset:.0})\">\n")?;
        if has_title && at == 0 {
            push_title(&mut text, report.title.as_str())?;
        }
        push_panel(alloc, &mut text, report, *measure)?;
        text.push_str("</g>\n")?;
    }
    for column in 0..windowed {
        let offset = panel * float(measures.saturating_add(column) as u128);
        write!(text, "<g transform=\"translate(0 {offset:.0})\">\n")?;
        push_window_panel(alloc, &mut text, report, column)?;
        text.push_str("</g>\n")?;
    }
    text.push_str("</svg>\n")?;
    Ok(text)
}

// Returns the width of a picture, which has room for the title and the longest label.
fn width_of(report: &Report) -> f64 {
    let longest = report.policies.iter().map(|it| it.len()).max().unwrap_or(0);
    WIDTH
        .max(RIGHT + 70.0 + 7.5 * float(longest as u128))
        .max(LEFT + 20.0 + 9.5 * float(report.title.len() as u128))
}

// Returns the height of a panel, which has room for the legend.
fn height_of(report: &Report) -> f64 {
    HEIGHT.max(TOP + LEGEND * float(report.policies.len() as u128))
}

/// Adds a text, escaped for HTML and SVG.
pub fn push_escaped(text: &mut String, plain: &str) -> Result<(), AllocError> {
    for letter in plain.chars() {
        match letter {
            '&' => text.push_str("&amp;")?,
            '<' => text.push_str("&lt;")?,
            '>' => text.push_str("&gt;")?,
            '"' => text.push_str("&quot;")?,
            _ => text.push(letter)?,
        }
    }
    Ok(())
}

fn push_title(text: &mut String, title: &str) -> Result<(), AllocError> {
    write!(
        text,
        "<text x=\"{LEFT:.0}\" y=\"26\" font-size=\"15\" font-weight=\"bold\">"
    )?;
    push_escaped(text, title)?;
    text.push_str("</text>\n")
}

fn push_panel(
    alloc: Global,
    text: &mut String,
    report: &Report,
    measure: Measure,
) -> Result<(), AllocError> {
    let scale = Scale::new(report, measure);
    push_ratios(text, scale, measure)?;
    push_sizes(alloc, text, report, scale)?;
    for (policy, label) in report.policies.iter().enumerate() {
        let look = look_of(policy);
        push_line(text, report, policy, measure, scale, &look)?;
        push_legend(text, policy, label.as_str(), &look)?;
    }
    Ok(())
}

fn push_line(
    text: &mut String,
    report: &Report,
    policy: usize,
    measure: Measure,
    scale: Scale,
    look: &Look,
) -> Result<(), AllocError> {
    let (colour, dashes) = (look.colour, look.dashes);
    text.push_str("<polyline points=\"")?;
    for row in report.drawn(policy).iter().filter(|it| report.shows(it)) {
        let (x, y) = (scale.x(float(row.size as u128)), scale.y(measure.of(row)));
        write!(text, "{x:.1},{y:.1} ")?;
    }
    write!(
        text,
        "\" fill=\"none\" stroke=\"{colour}\" stroke-width=\"1.8\" stroke-dasharray=\"{dashes}\"/>\n"
    )?;
    for row in report.rows_of(policy).iter().filter(|it| report.shows(it)) {
        push_marker(
            text,
            scale.x(float(row.size as u128)),
            scale.y(measure.of(row)),
            look,
        )?;
    }
    Ok(())
}

/// Draws the legend of a policy.
pub fn push_legend(
    text: &mut String,
    policy: usize,
    label: &str,
    look: &Look,
) -> Result<(), AllocError> {
    let (colour, dashes) = (look.colour, look.dashes);
    let y = TOP + 12.0 + LEGEND * float(policy as u128);
    let (start, end) = (RIGHT + 16.0, RIGHT + 56.0);
    write!(
        text,
        "<line x1=\"{start:.0}\" y1=\"{y:.0}\" x2=\"{end:.0}\" y2=\"{y:.0}\" stroke=\"{colour}\" stroke-width=\"1.8\" stroke-dasharray=\"{dashes}\"/>\n"
    )?;
    push_marker(text, (start + end) / 2.0, y, look)?;
    let right = end + 9.0;
    let down = y + 4.5;
    write!(text, "<text x=\"{right:.0}\" y=\"{down:.1}\">")?;
    push_escaped(text, label)?;
    text.push_str("</text>\n")
}
