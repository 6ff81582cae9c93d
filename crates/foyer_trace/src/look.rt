//! How the lines of policies look.

use std::alloc::AllocError;

/// The look of a policy's line, distinct without its colour too.
#[derive(Clone, Copy)]
pub struct Look {
    pub colour: &'static str,
    pub dashes: &'static str,
    marker: Marker,
}

#[derive(Clone, Copy)]
enum Marker {
    Circle,
    Square,
    Triangle,
    Diamond,
    Cross,
    Plus,
}

// The first colours are those of Okabe and Ito, which the colour-blind tell apart; the others are as dark.
const LOOKS: [Look; 12] = [
    Look {
        colour: "#0072B2",
        dashes: "none",
        marker: Marker::Circle,
    },
    Look {
        colour: "#D55E00",
        dashes: "9 4",
        marker: Marker::Square,
    },
    Look {
        colour: "#007A57",
        dashes: "2 3",
        marker: Marker::Triangle,
    },
    Look {
        colour: "#A0447A",
        dashes: "10 3 2 3",
        marker: Marker::Diamond,
    },
    Look {
        colour: "#9A6A00",
        dashes: "5 3",
        marker: Marker::Cross,
    },
    Look {
        colour: "#000000",
        dashes: "1 4",
        marker: Marker::Plus,
    },
    Look {
        colour: "#5B4FC4",
        dashes: "12 3",
        marker: Marker::Square,
    },
    Look {
        colour: "#B3123A",
        dashes: "4 2",
        marker: Marker::Triangle,
    },
    Look {
        colour: "#3E7D12",
        dashes: "7 2 2 2",
        marker: Marker::Diamond,
    },
    Look {
        colour: "#6F4A2E",
        dashes: "3 5",
        marker: Marker::Cross,
    },
    Look {
        colour: "#0E7C86",
        dashes: "14 4 4 4",
        marker: Marker::Plus,
    },
    Look {
        colour: "#6B7280",
        dashes: "6 6",
        marker: Marker::Square,
    },
];

/// Returns the look of a line by its number. From the thirteenth on, colours and dashes come again with other markers.
pub fn look_of(policy: usize) -> Look {
    let round = policy / LOOKS.len();
    Look {
        marker: LOOKS[policy.wrapping_add(round) % LOOKS.len()].marker,
        ..LOOKS[policy % LOOKS.len()]
    }
}

/// Draws the marker of a line.
pub fn push_marker(text: &mut String, x: f64, y: f64, look: &Look) -> Result<(), AllocError> {
    let colour = look.colour;
    let shape = match look.marker {
        Marker::Circle => "M-4 0a4 4 0 1 0 8 0a4 4 0 1 0 -8 0z",
        Marker::Square => "M-4 -4h8v8h-8z",
        Marker::Triangle => "M0 -5L5 4H-5z",
        Marker::Diamond => "M0 -5.5L5.5 0L0 5.5L-5.5 0z",
        Marker::Cross => "M-4 -4L4 4M-4 4L4 -4",
        Marker::Plus => "M-5 0H5M0 -5V5",
    };
    write!(
        text,
        "<path transform=\"translate({x:.1} {y:.1})\" d=\"{shape}\" fill=\"#ffffff\" stroke=\"{colour}\" stroke-width=\"1.8\"/>\n"
    )
}
