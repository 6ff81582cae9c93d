//! Numbers as users write and read them.

use foyer_policy::Ratio;
use std::alloc::{AllocError, Global};
use std::num::saturating_f64_to_u64;

// What each unit of bytes multiplies a number by; the shortest is last.
const BYTES: [(&str, u64); 10] = [
    ("KiB", 1 << 10),
    ("MiB", 1 << 20),
    ("GiB", 1 << 30),
    ("TiB", 1 << 40),
    ("kB", 1_000),
    ("KB", 1_000),
    ("MB", 1_000_000),
    ("GB", 1_000_000_000),
    ("TB", 1_000_000_000_000),
    ("B", 1),
];

// What each unit multiplies a count by; the empty one is last.
const UNITS: [(&str, u64); 8] = [
    ("k", 1_000),
    ("K", 1_000),
    ("m", 1_000_000),
    ("M", 1_000_000),
    ("g", 1_000_000_000),
    ("G", 1_000_000_000),
    ("T", 1_000_000_000_000),
    ("", 1),
];

/// The number that decimal digits are, if it is below 2^64. A sign is none.
pub fn decimal(digits: &[u8]) -> Option<u64> {
    if digits.is_empty() {
        return None;
    }
    let mut number = 0u64;
    for byte in digits {
        if !byte.is_ascii_digit() {
            return None;
        }
        number = number
            .checked_mul(10)?
            .checked_add((*byte).wrapping_sub(b'0') as u64)?;
    }
    Some(number)
}

// How many digits are read on before the point, and the number that they add to.
#[derive(Clone, Copy)]
struct Whole {
    number: u64,
    left: usize,
}

impl Whole {
    // Reads digits on. Those behind the point are looked at, and add nothing.
    fn read(self, digits: &[u8]) -> Option<Whole> {
        let mut whole = self;
        for byte in digits {
            if !byte.is_ascii_digit() {
                return None;
            }
            if whole.left > 0 {
                whole.number = whole
                    .number
                    .checked_mul(10)?
                    .checked_add((*byte).wrapping_sub(b'0') as u64)?;
                whole.left = whole.left.saturating_sub(1);
            }
        }
        Some(whole)
    }
}

// The parts of a text before and behind a byte, or the whole text and nothing.
fn parted(text: &[u8], at: Option<usize>) -> (&[u8], &[u8]) {
    match at {
        Some(at) if at < text.len() => (&text[..at], &text[at + 1..]),
        _ => (text, &text[text.len()..]),
    }
}

/// The whole part of a number that is not negative, in digits, with a point or with an exponent, such as `12`, `12.5`
/// or `1.25e3`, if it is below 2^64.
pub fn whole_part(text: &[u8]) -> Option<u64> {
    let exponent_at = text.iter().position(|byte| matches!(byte, b'e' | b'E'));
    let (mantissa, exponent) = parted(text, exponent_at);
    let point_at = mantissa.iter().position(|byte| *byte == b'.');
    let (whole, places) = parted(mantissa, point_at);
    if whole.is_empty() && places.is_empty() {
        return None;
    }
    let digits = match exponent.split_first() {
        None if exponent_at.is_some() => return None,
        None => whole.len(),
        Some((b'-', power)) => whole.len().saturating_sub(exponent_of(power)?),
        Some((b'+', power)) => whole.len().saturating_add(exponent_of(power)?),
        Some(_) => whole.len().saturating_add(exponent_of(exponent)?),
    };
    let read = Whole {
        number: 0,
        left: digits,
    };
    let mut read = read.read(whole)?.read(places)?;
    for _zero in 0..read.left {
        read.number = read.number.checked_mul(10)?;
    }
    Some(read.number)
}

// An exponent's digits; no number of any use has more than three.
fn exponent_of(digits: &[u8]) -> Option<usize> {
    let exponent = decimal(digits)?;
    if exponent < 1000 {
        Some(exponent as usize)
    } else {
        None
    }
}

/// A count with an optional unit, such as `10k`.
pub fn count(word: &str) -> Option<u64> {
    with_unit(word, UNITS.as_slice())
}

/// A number of bytes with its unit, such as `64MiB`.
pub fn count_of_bytes(word: &str) -> Option<u64> {
    with_unit(word, BYTES.as_slice())
}

// The number of a word that ends in one of these units, of which the first fits.
fn with_unit(word: &str, units: &[(&str, u64)]) -> Option<u64> {
    for (unit, factor) in units {
        if let Some(digits) = word.strip_suffix(unit) {
            return decimal(digits.as_bytes())?.checked_mul(*factor);
        }
    }
    None
}

/// A decimal number with a point or a per cent sign, such as `0.01` or `1%`, which is not negative.
pub fn fraction(word: &str) -> Option<f64> {
    let (digits, parts) = match word.strip_suffix("%") {
        Some(digits) => (digits, 100.0),
        None if word.contains('.') => (word, 1.0),
        None => return None,
    };
    let is_plain = digits
        .as_bytes()
        .iter()
        .all(|byte| byte.is_ascii_digit() || *byte == b'.');
    if !is_plain || digits.is_empty() {
        return None;
    }
    Some(digits.parse::<f64>().ok()? / parts)
}

/// A share as `1/10` or `0.1`, with at most 9 decimal places.
pub fn ratio(word: &str) -> Option<Ratio> {
    if let Some((num, den)) = word.split_once('/') {
        return Some(Ratio {
            num: u32::try_from(decimal(num.as_bytes())?).ok()?,
            den: u32::try_from(decimal(den.as_bytes())?)
                .ok()
                .filter(|den| *den > 0)?,
        });
    }
    let (whole, places) = word.split_once('.').unwrap_or((word, ""));
    if places.len() > 9 {
        return None;
    }
    let mut den = 1u64;
    for _place in 0..places.len() {
        den = den.saturating_mul(10);
    }
    let part = if places.is_empty() {
        0
    } else {
        decimal(places.as_bytes())?
    };
    let num = decimal(whole.as_bytes())?
        .checked_mul(den)?
        .checked_add(part)?;
    Some(Ratio {
        num: u32::try_from(num).ok()?,
        den: u32::try_from(den).ok()?,
    })
}

/// The float that is nearest to a number, or next to it.
pub fn float(number: u128) -> f64 {
    const HALF: u128 = 1 << 32;
    let mut float = 0.0f64;
    for place in [96u32, 64, 32, 0] {
        // Each of these is below 2^32, which a float has exactly.
        float = float * 4294967296.0 + ((number >> place & (HALF - 1)) as u64) as f64;
    }
    float
}

/// A part of a whole number, rounded to the nearest. The whole of it is the number itself.
pub fn part_of(whole: u64, fraction: f64) -> u64 {
    if fraction == 1.0 {
        return whole;
    }
    saturating_f64_to_u64(float(whole as u128) * fraction + 0.5)
}

/// A quotient, or 0 if the divisor is 0.
pub fn quotient(part: u128, whole: u128) -> f64 {
    if whole == 0 {
        return 0.0;
    }
    float(part) / float(whole)
}

/// A number in groups of three digits, such as `12,345`.
pub fn grouped(alloc: Global, number: u128) -> Result<String, AllocError> {
    let digits = format!(in alloc; "{number}")?;
    let mut text = String::new(alloc);
    for (at, digit) in digits.chars().enumerate() {
        if at > 0 && digits.len().saturating_sub(at) % 3 == 0 {
            text.push(',')?;
        }
        text.push(digit)?;
    }
    Ok(text)
}

/// A number of bytes with a binary unit, such as `1.5 MiB`.
pub fn bytes(alloc: Global, number: u128) -> Result<String, AllocError> {
    let mut value = float(number);
    let mut unit = "B";
    for next in ["KiB", "MiB", "GiB", "TiB", "PiB", "EiB"] {
        if value < 1024.0 {
            break;
        }
        value = value / 1024.0;
        unit = next;
    }
    if unit == "B" || value >= 100.0 {
        return format!(in alloc; "{value:.0} {unit}");
    }
    format!(in alloc; "{value:.1} {unit}")
}
