//! What is printed for a line.

use crate::heard::Leave;
use foyer_core::CacheProperties;
use foyer_policy::{Error, Result};
use foyer_session::sim::{event_name, write_answer, write_found, write_numbered, write_refusal};
use foyer_session::text::{write_number, write_out, write_wide_number};
use foyer_session::{Answer, SimValue};
use std::io;
use std::io::Write;

/// What one who waited gets.
#[derive(Drop)]
pub struct Answered {
    /// The number of its token.
    pub token: u64,
    /// The number of its handle, or a refusal.
    pub got: Result<u64>,
}

/// The reply to a line.
#[derive(Drop)]
pub enum Told {
    /// That the line is none.
    NoLine,
    /// What names no record.
    Plain(Answer<u64, SimValue, CacheProperties>),
    /// A handle of a record that was found.
    Found {
        /// Its number.
        handle: u64,
        /// The record's value.
        value: u64,
    },
    /// A handle of a record that came in.
    Entry {
        /// Its number.
        handle: u64,
        /// What those get who waited for the key.
        answers: Vec<Answered>,
    },
    /// The end of a fetch. Where nobody is answered, no such fetch was open.
    Ended(Vec<Answered>),
}

impl Told {
    /// Whether it is so.
    pub fn says(is_so: bool) -> Told {
        Told::Plain(if is_so { Answer::Yes } else { Answer::No })
    }

    /// That it is done, or why not.
    pub fn done(done: Result<()>) -> Told {
        match done {
            Ok(()) => Told::Plain(Answer::Done),
            Err(error) => Told::refused(error),
        }
    }

    /// Why it was refused.
    pub fn refused(error: Error) -> Told {
        Told::Plain(Answer::Refused(error))
    }
}

/// Writes a reply.
pub fn write_told<W: Write>(writer: &mut W, told: &Told) -> io::Result<()> {
    match told {
        Told::NoLine => write_out(writer, b"bad line"),
        Told::Plain(answer) => write_answer(writer, answer),
        Told::Found { handle, value } => write_found(writer, *handle, *value),
        Told::Entry { handle, answers } => {
            write_numbered(writer, b"h", *handle)?;
            write_answers(writer, b" ", answers.as_slice())
        }
        Told::Ended(answers) if answers.is_empty() => write_answer::<W, CacheProperties>(
            writer,
            &Answer::Lost,
        ),
        Told::Ended(answers) => write_answers(writer, b"", answers.as_slice()),
    }
}

/// Writes what comes after a reply: what left, and the usage and the entries then.
pub fn write_rest<W: Write>(
    writer: &mut W,
    leaves: &[Leave],
    usage: u128,
    entries: u128,
) -> io::Result<()> {
    write_out(writer, b" | ")?;
    write_leaves(writer, leaves)?;
    write_out(writer, b" | usage ")?;
    write_wide_number(writer, usage)?;
    write_out(writer, b" entries ")?;
    write_wide_number(writer, entries)?;
    write_out(writer, b"\n")
}

// Writes what those get who waited, each after a space but the first, which comes after `before`.
fn write_answers<W: Write>(writer: &mut W, before: &[u8], answers: &[Answered]) -> io::Result<()> {
    let mut between = before;
    for answered in answers {
        write_out(writer, between)?;
        write_numbered(writer, b"t", answered.token)?;
        write_out(writer, b"=")?;
        match &answered.got {
            Ok(handle) => write_numbered(writer, b"h", *handle)?,
            Err(error) => write_refusal(writer, error)?,
        }
        between = b" ";
    }
    Ok(())
}

fn write_leaves<W: Write>(writer: &mut W, leaves: &[Leave]) -> io::Result<()> {
    if leaves.is_empty() {
        return write_out(writer, b"-");
    }
    for (place, leave) in leaves.iter().enumerate() {
        if place > 0 {
            write_out(writer, b", ")?;
        }
        write_out(writer, event_name(leave.event))?;
        write_number(writer, leave.key)?;
        write_numbered(writer, b"=", leave.value)?;
    }
    Ok(())
}
