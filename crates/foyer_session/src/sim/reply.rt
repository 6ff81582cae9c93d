//! The texts of replies.

ghost use Rattle.std.specs.Prelude.{◌≡◌, ◌<◌, ◌++◌, IfSome, drop, length, slice_get};
ghost use Rattle.foyer_policy.specs.Errors.{number_of};
ghost use Rattle.foyer_session.specs.Print.{WritesText};
ghost use Rattle.foyer_session.specs.Printed.{answer_text, event_text, found_text, got_text, handle_text, lead_text, leave_text, leaves_text, more_pairs_text, more_text, next_pair_text, next_text, numbered, pair_text, pairs_text, piece_text, refusal_text, rest_text};

use super::value::SimValue;
use crate::answers::Answers;
use crate::command::Answer;
use crate::text::{write_number, write_out, write_wide_number};
use foyer_core::Left;
use foyer_policy::{Error, Event};
use std::io;
use std::io::Write;

/// Writes the text of an answer.
pub fn write_answer<W: Write, P>(
    writer: &mut W,
    answer: &Answer<u64, SimValue, P>,
) -> io::Result<()>
    ensures { WritesText (W.contents writer.old) (W.contents writer.new) result (answer_text answer.now) }
{
    match answer {
        Answer::Entry {
            handle,
            answers,
            record: _,
        } => write_entry(writer, *handle, answers),
        Answer::Found { handle, record } => write_found(writer, *handle, record.value().value),
        Answer::Missing => write_out(writer, b"none"),
        Answer::Lead { fetch, token } => write_lead(writer, *fetch, *token),
        Answer::Wait { token } => write_numbered(writer, b"wait t", *token),
        Answer::Answered { answers, record: _ } => write_pairs(writer, answers),
        Answer::Later(label) => write_numbered(writer, b"later ", *label),
        Answer::Lost => write_out(writer, b"lost"),
        Answer::Yes => write_out(writer, b"yes"),
        Answer::No => write_out(writer, b"no"),
        Answer::Done => write_out(writer, b"ok"),
        Answer::Number(count) => write_wide_number(writer, *count),
        Answer::PieceNo(number) => write_piece(writer, *number),
        Answer::NotHeld => write_out(writer, b"not held"),
        Answer::Refused(error) => write_refusal(writer, error),
    }
}

/// Writes an error as `F` and its number.
pub fn write_refusal<W: Write>(writer: &mut W, error: &Error) -> io::Result<()>
    ensures { WritesText (W.contents writer.old) (W.contents writer.new) result (refusal_text (number_of error.now)) }
{
    write_numbered(writer, b"F", u64::from(error.number()))
}

/// Writes what follows an answer: the removals, the usage and the entries.
pub fn write_rest<W: Write, P>(
    writer: &mut W,
    leaves: &[(Event, Left<u64, SimValue, P>)],
    usage: u128,
    entries: u128,
) -> io::Result<()>
    ensures { WritesText (W.contents writer.old) (W.contents writer.new) result (rest_text leaves.now usage entries) }
{
    write_out(writer, b" | ")?;
    write_leaves(writer, leaves)?;
    write_out(writer, b" | usage ")?;
    write_wide_number(writer, usage)?;
    write_out(writer, b" entries ")?;
    write_wide_number(writer, entries)?;
    write_out(writer, b"\n")
}

/// Writes a number after a word.
pub fn write_numbered<W: Write>(writer: &mut W, word: &[u8], number: u64) -> io::Result<()>
    ensures { WritesText (W.contents writer.old) (W.contents writer.new) result (numbered word.now number) }
{
    write_out(writer, word)?;
    write_number(writer, number)
}

fn write_handle<W: Write>(writer: &mut W, number: u64) -> io::Result<()>
    ensures { WritesText (W.contents writer.old) (W.contents writer.new) result (handle_text number) }
{
    write_numbered(writer, b"h", number)
}

fn write_piece<W: Write>(writer: &mut W, number: u64) -> io::Result<()>
    ensures { WritesText (W.contents writer.old) (W.contents writer.new) result (piece_text number) }
{
    write_numbered(writer, b"p", number)
}

/// Writes the number of a handle, and the value of its record.
pub fn write_found<W: Write>(writer: &mut W, number: u64, value: u64) -> io::Result<()>
    ensures { WritesText (W.contents writer.old) (W.contents writer.new) result (found_text number value) }
{
    write_handle(writer, number)?;
    write_numbered(writer, b" ", value)
}

fn write_lead<W: Write>(writer: &mut W, fetch: u64, token: u64) -> io::Result<()>
    ensures { WritesText (W.contents writer.old) (W.contents writer.new) result (lead_text fetch token) }
{
    write_numbered(writer, b"lead t", token)?;
    write_numbered(writer, b" f", fetch)
}

fn write_entry<W: Write>(writer: &mut W, handle: u64, answers: &Answers) -> io::Result<()>
    ensures { WritesText (W.contents writer.old) (W.contents writer.new) result (handle_text handle ++ more_pairs_text answers.now) }
{
    write_handle(writer, handle)?;
    write_pairs_from(writer, answers, 0)
}

fn write_pairs<W: Write>(writer: &mut W, answers: &Answers) -> io::Result<()>
    ensures { WritesText (W.contents writer.old) (W.contents writer.new) result (pairs_text answers.now) }
{
    if answers.is_empty() {
        return Ok(());
    }
    write_pair(writer, answers, 0)?;
    write_pairs_from(writer, answers, 1)
}

// Writes the tokens from a position on, each after a space, with what it gets.
fn write_pairs_from<W: Write>(writer: &mut W, answers: &Answers, from: usize) -> io::Result<()>
    ensures { WritesText (W.contents writer.old) (W.contents writer.new) result (more_pairs_text (drop from answers.now)) }
{
    for at in from..answers.len() {
        write_next_pair(writer, answers, at)?;
    }
    Ok(())
}

fn write_next_pair<W: Write>(writer: &mut W, answers: &Answers, at: usize) -> io::Result<()>
    requires { at < length answers.now }
    ensures { IfSome (slice_get answers.now at) (λ pair. WritesText (W.contents writer.old) (W.contents writer.new) result (next_pair_text pair)) }
{
    write_out(writer, b" ")?;
    write_pair(writer, answers, at)
}

fn write_pair<W: Write>(writer: &mut W, answers: &Answers, at: usize) -> io::Result<()>
    requires { at < length answers.now }
    ensures { IfSome (slice_get answers.now at) (λ pair. WritesText (W.contents writer.old) (W.contents writer.new) result (pair_text pair)) }
{
    let Some(token) = answers.token(at) else {
        unreachable!();
    };
    write_numbered(writer, b"t", token)?;
    write_out(writer, b"=")?;
    write_got(writer, answers, at)
}

// Writes what the token at a position gets.
fn write_got<W: Write>(writer: &mut W, answers: &Answers, at: usize) -> io::Result<()>
    requires { at < length answers.now }
    ensures { IfSome (slice_get answers.now at) (λ pair. WritesText (W.contents writer.old) (W.contents writer.new) result (got_text pair.1)) }
{
    if let Some(error) = answers.fault() {
        return write_refusal(writer, error);
    }
    match answers.handle(at) {
        Some(number) => write_handle(writer, number),
        None => write_out(writer, b"none"),
    }
}

fn write_leaves<W: Write, P>(
    writer: &mut W,
    leaves: &[(Event, Left<u64, SimValue, P>)],
) -> io::Result<()>
    ensures { WritesText (W.contents writer.old) (W.contents writer.new) result (leaves_text leaves.now) }
{
    let Some((first, more)) = leaves.split_first() else {
        return write_out(writer, b"-");
    };
    write_leave(writer, first.0, &first.1)?;
    write_more(writer, more)
}

// Writes more removals, each after a comma.
fn write_more<W: Write, P>(
    writer: &mut W,
    leaves: &[(Event, Left<u64, SimValue, P>)],
) -> io::Result<()>
    ensures { WritesText (W.contents writer.old) (W.contents writer.new) result (more_text leaves.now) }
{
    for leave in leaves {
        write_next(writer, leave.0, &leave.1)?;
    }
    Ok(())
}

fn write_next<W: Write, P>(
    writer: &mut W,
    event: Event,
    left: &Left<u64, SimValue, P>,
) -> io::Result<()>
    ensures { WritesText (W.contents writer.old) (W.contents writer.new) result (next_text (event, left.now)) }
{
    write_out(writer, b", ")?;
    write_leave(writer, event, left)
}

fn write_leave<W: Write, P>(
    writer: &mut W,
    event: Event,
    left: &Left<u64, SimValue, P>,
) -> io::Result<()>
    ensures { WritesText (W.contents writer.old) (W.contents writer.new) result (leave_text (event, left.now)) }
{
    write_out(writer, event_name(event))?;
    write_number(writer, *left.key())?;
    write_out(writer, b"=")?;
    write_number(writer, left.value().value)
}

/// Returns the word for an event, with a space after it.
pub fn event_name(event: Event) -> &'static [u8]
    ensures { result.now ≡ event_text event }
{
    match event {
        Event::Evict => b"evict ",
        Event::Replace => b"replace ",
        Event::Remove => b"remove ",
        Event::Clear => b"clear ",
    }
}
