//! Parsing a line.

ghost use Rattle.std.specs.Prelude.{◌≡◌, ◌≢◌, ◌<◌, ◌≤◌, ◌∷◌, [], All, IfSome, IfNone, bytes_eq, length, slice_index, take};
ghost use Rattle.foyer_session.specs.Text.{words, line_of, line_with_none, line_with_one, line_with_two, line_with_three, line_with_four, high_line, insert_line};

use super::Line;
use super::number::number_of;
use foyer_policy::Ratio;

/// Parses a line, without the byte 10 that ended it.
pub fn line_of(line: &[u8]) -> Line
    ensures { result ≡ line_of line.now }
{
    let Some((verb, rest)) = next_word(line) else {
        return Line::Blank;
    };
    let Some((word, rest)) = next_word(rest) else {
        return with_none(verb);
    };
    let Some(first) = number_of(word) else {
        return Line::Bad;
    };
    let Some((word, rest)) = next_word(rest) else {
        return with_one(verb, first);
    };
    let Some(second) = number_of(word) else {
        return Line::Bad;
    };
    let Some((word, rest)) = next_word(rest) else {
        return with_two(verb, first, second);
    };
    let Some(third) = number_of(word) else {
        return Line::Bad;
    };
    let Some((word, rest)) = next_word(rest) else {
        return with_three(verb, first, second, third);
    };
    let Some(fourth) = number_of(word) else {
        return Line::Bad;
    };
    match next_word(rest) {
        None => with_four(verb, first, second, third, fourth),
        Some(_) => Line::Bad,
    }
}

// A line of one word.
#[tactic(auto, unfolding(crate::specs::Text::line_with_none))]
fn with_none(verb: &[u8]) -> Line
    ensures { result ≡ line_with_none verb.now }
{
    if is_word(verb, b"clear") {
        Line::Clear
    } else if is_word(verb, b"evict") {
        Line::Evict
    } else {
        Line::Bad
    }
}

// A line of a word and one number.
#[tactic(auto, unfolding(crate::specs::Text::line_with_one))]
fn with_one(verb: &[u8], number: u64) -> Line
    ensures { result ≡ line_with_one verb.now number }
{
    if is_word(verb, b"get") {
        Line::Get(number)
    } else if is_word(verb, b"contains") {
        Line::Contains(number)
    } else if is_word(verb, b"touch") {
        Line::Touch(number)
    } else if is_word(verb, b"remove") {
        Line::Remove(number)
    } else if is_word(verb, b"drop") {
        Line::Drop(number)
    } else if is_word(verb, b"resize") {
        Line::Resize(number as usize)
    } else if is_word(verb, b"fetch") {
        Line::Fetch(number)
    } else if is_word(verb, b"at") {
        Line::At(number)
    } else {
        Line::Bad
    }
}

// A line of a word and two numbers. A weight that is left out is 1.
#[tactic(auto, unfolding(crate::specs::Text::line_with_two))]
fn with_two(verb: &[u8], first: u64, second: u64) -> Line
    ensures { result ≡ line_with_two verb.now first second }
{
    if is_word(verb, b"high") {
        high(first, second)
    } else if is_word(verb, b"cancel") {
        Line::Cancel {
            key: first,
            fetch: second,
        }
    } else {
        insert(verb, first, second, 1)
    }
}

// A line with a share, whose numbers are below 2^32.
fn high(num: u64, den: u64) -> Line
    ensures { result ≡ high_line num den }
{
    match (u32::try_from(num), u32::try_from(den)) {
        (Ok(num), Ok(den)) => Line::High(Ratio { num, den }),
        _ => Line::Bad,
    }
}

// A line of a word and three numbers.
#[tactic(auto, unfolding(crate::specs::Text::line_with_three))]
fn with_three(verb: &[u8], first: u64, second: u64, third: u64) -> Line
    ensures { result ≡ line_with_three verb.now first second third }
{
    if is_word(verb, b"done") {
        Line::Done {
            key: first,
            fetch: second,
            value: third,
        }
    } else {
        insert(verb, first, second, third as usize)
    }
}

// A line of a word and four numbers, the last of which is the expiry.
#[tactic(auto, unfolding(crate::specs::Text::line_with_four))]
fn with_four(verb: &[u8], key: u64, value: u64, weight: u64, expires: u64) -> Line
    ensures { result ≡ line_with_four verb.now key value weight expires }
{
    if is_word(verb, b"insert") {
        Line::Insert {
            key,
            value,
            weight: weight as usize,
            expires: Some(expires),
        }
    } else {
        Line::Bad
    }
}

// A line that inserts.
#[tactic(auto, unfolding(crate::specs::Text::insert_line))]
fn insert(verb: &[u8], key: u64, value: u64, weight: usize) -> Line
    ensures { result ≡ insert_line verb.now key value weight }
{
    if is_word(verb, b"insert") {
        Line::Insert {
            key,
            value,
            weight,
            expires: None,
        }
    } else if is_word(verb, b"phantom") {
        Line::Phantom { key, value, weight }
    } else {
        Line::Bad
    }
}

/// Returns whether a word is this name.
pub fn is_word(word: &[u8], name: &[u8]) -> bool
    ensures { result ≡ bytes_eq word.now name.now }
{
    word == name
}

// Splits off the first word.
fn next_word(bytes: &[u8]) -> Option<(&[u8], &[u8])>
    ensures none { IfNone result (words bytes.now ≡ []) }
    ensures some { IfSome result (λ r. words bytes.now ≡ r.0.now ∷ words r.1.now) }
{
    let bytes = &bytes[spaces_len(bytes)..];
    if bytes.is_empty() {
        return None;
    }
    Some(bytes.split_at(len_before(bytes, b' ')))
}

// The number of leading spaces.
fn spaces_len(bytes: &[u8]) -> usize
    ensures within { result ≤ length bytes.now }
    ensures spaces { All (λ b. b ≡ 32) (take result bytes.now) }
    ensures end { result < length bytes.now → slice_index bytes.now result ≢ 32 }
{
    for (i, byte) in bytes.iter().enumerate() {
        if *byte != b' ' {
            return i;
        }
    }
    bytes.len()
}

/// Returns the number of bytes before the first `byte`, or before the end.
pub(super) fn len_before(bytes: &[u8], byte: u8) -> usize
    ensures within { result ≤ length bytes.now }
    ensures before { All (λ b. b ≢ byte) (take result bytes.now) }
    ensures end { result < length bytes.now → slice_index bytes.now result ≡ byte }
{
    for (i, other) in bytes.iter().enumerate() {
        if *other == byte {
            return i;
        }
    }
    bytes.len()
}
