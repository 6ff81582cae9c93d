//! Numbers as text.

ghost use Rattle.std.specs.Prelude.{◌≡◌, ◌+◌, ◌-◌, ◌*◌, ◌^◌, ◌<◌, SomeIff};
ghost use Rattle.std.specs.Int.{IsInRange};
ghost use Rattle.foyer_session.specs.Text.{number_of};

/// The largest number of digits.
const MOST_DIGITS: usize = 20;

/// Parses a number: 1 to 20 decimal digits with a value below 2^64. Leading zeros are allowed, a sign isn't.
pub fn number_of(word: &[u8]) -> Option<u64>
    ensures { result ≡ number_of word.now }
{
    if word.is_empty() {
        return None;
    }
    if word.len() > MOST_DIGITS {
        return None;
    }
    let mut value = 0;
    for byte in word {
        let Some(more) = with_digit(value, *byte) else {
            return None;
        };
        value = more;
    }
    Some(value)
}

// Appends a digit to `value`, if the result is below 2^64.
fn with_digit(value: u64, digit: u8) -> Option<u64>
    ensures { SomeIff result (IsInRange 48 57 digit × (value * 10 + (digit - 48) < 2 ^ 64))
        (value * 10 + (digit - 48)) }
{
    match digit {
        b'0'..=b'9' => value.checked_mul(10)?.checked_add(u64::from(digit - b'0')),
        _ => None,
    }
}
