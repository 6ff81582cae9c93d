//! Carrying out one line.

ghost use Rattle.std.specs.Prelude.{◌≡◌, ℕ, List, None, [], ◌++◌};
ghost use Rattle.std.specs.Hash.{u64 as u64_input};
ghost use Rattle.foyer_policy.specs.Errors.{number_of};
ghost use Rattle.foyer_session.specs.Print.{WritesText};
ghost use Rattle.foyer_core.specs.Values.{Answered};
ghost use Rattle.foyer_session.specs.Printed.{answer_text, refusal_text, rest_text};
ghost use Rattle.foyer_session.specs.Sessions.{session_of, meaning_of_session};
ghost use Rattle.foyer_policy.specs.declared.types.Source.TheVariants.{Outer};
ghost use Rattle.foyer_session.specs.Simulated.{CommandTold, LineTold, asked_by, line_text, plain, phantom};
ghost use Rattle.foyer_policy.specs.declared.eviction_config.EvictionConfig.TheVariants.{Lru};
ghost use Rattle.foyer_session.specs.declared.command.Command.TheVariants.{Complete, Insert, Reconfigure};
ghost use Rattle.foyer_session.specs.declared.command.End.TheVariants.{Value};

use super::SimSession;
use super::reply::{write_answer, write_refusal, write_rest};
use super::value::SimValue;
use crate::command::{Command, End, Reply};
use crate::counting::Counting;
use crate::predicate::NoPredicate;
use crate::text::{Line, write_out};
use foyer_core::{CacheProperties, Finder, Stats};
use foyer_policy::{Error, EvictionConfig, HashBuilder, LruConfig, Properties, Ratio, Source};
use std::io;
use std::io::Write;

type SimCommand = Command<u64, SimValue, CacheProperties, NoPredicate, EvictionConfig>;

/// What a line asks for.
#[derive(Drop)]
pub enum Asked {
    /// Nothing, and nothing is printed.
    Nothing,
    /// It is a bad line.
    NoLine,
    /// To set the time of the lines after it.
    Moment(u64),
    /// To carry out a command.
    Carry(SimCommand),
}

/// Carries out a line at the current time, which it may set, counts it, and writes its text.
pub fn tell<W: Write, S: HashBuilder, I: Finder<u64>>(
    writer: &mut W,
    session: &mut SimSession<S, I>,
    now: &mut u64,
    stats: &mut Stats,
    line: Line,
) -> io::Result<()>
    ensures { (text : List ℕ)
        × LineTold (meaning_of_session session.old) (λ builder key. S.hash_of builder (u64_input key))
        (record { now = now.old; session = session_of session.old }) line text
        (record { now = now.new; session = session_of session.new })
        × WritesText (W.contents writer.old) (W.contents writer.new) result text }
{
    match asked_by(*now, line) {
        Asked::Nothing => Ok(()),
        Asked::NoLine => tell_words(writer, session, b"bad line"),
        Asked::Moment(moment) => {
            *now = moment;
            tell_words(writer, session, b"ok")
        }
        Asked::Carry(command) => tell_command(writer, session, *now, stats, command),
    }
}

// What a line asks for at a time.
fn asked_by(now: u64, line: Line) -> Asked
    ensures { result ≡ asked_by now line }
{
    match line {
        Line::Blank => Asked::Nothing,
        Line::Bad => Asked::NoLine,
        Line::Insert {
            key,
            value,
            weight,
            expires,
        } => Asked::Carry(plain_insert(now, key, value, weight, expires)),
        Line::Phantom { key, value, weight } => {
            Asked::Carry(phantom_insert(now, key, value, weight))
        }
        Line::Get(key) => Asked::Carry(Command::Get(now, key)),
        Line::Contains(key) => Asked::Carry(Command::Contains(now, key)),
        Line::Touch(key) => Asked::Carry(Command::Touch(now, key)),
        Line::Remove(key) => Asked::Carry(Command::Remove(key)),
        Line::Drop(number) => Asked::Carry(Command::Drop(number)),
        Line::Clear => Asked::Carry(Command::Clear),
        Line::Evict => Asked::Carry(Command::EvictAll(now)),
        Line::Resize(capacity) => Asked::Carry(Command::Resize(now, capacity)),
        Line::High(ratio) => Asked::Carry(reconfiguration(ratio)),
        Line::Fetch(key) => Asked::Carry(Command::GetOrFetch(now, key, None)),
        Line::At(moment) => Asked::Moment(moment),
        Line::Done { key, fetch, value } => Asked::Carry(completion(now, key, fetch, value)),
        Line::Cancel { key, fetch } => Asked::Carry(Command::Cancel(key, fetch)),
    }
}

// Inserts a plain record, which may expire.
fn plain_insert(now: u64, key: u64, value: u64, weight: usize, expires: Option<u64>) -> SimCommand
    ensures { result ≡ Insert now key (record { value = value; weight = weight }) (plain expires) }
{
    let properties = CacheProperties::default().with_expiry(expires);
    Command::Insert(now, key, SimValue { value, weight }, properties)
}

// Inserts a phantom record.
fn phantom_insert(now: u64, key: u64, value: u64, weight: usize) -> SimCommand
    ensures { result ≡ Insert now key (record { value = value; weight = weight }) phantom }
{
    let properties = CacheProperties::default().with_phantom(true);
    Command::Insert(now, key, SimValue { value, weight }, properties)
}

// Gives LRU's high-priority pool this share.
fn reconfiguration(ratio: Ratio) -> SimCommand
    ensures { result ≡ Reconfigure (Lru (record { high_priority_pool_ratio = ratio })) }
{
    let config = LruConfig {
        high_priority_pool_ratio: ratio,
    };
    Command::Reconfigure(EvictionConfig::Lru(config))
}

// Completes a fetch with a plain record of weight 1 and the source `Outer`.
fn completion(now: u64, key: u64, fetch: u64, value: u64) -> SimCommand
    ensures { result ≡ Complete now key fetch (Value (record { value = value; weight = 1 }) (plain None) Outer) }
{
    let value = SimValue { value, weight: 1 };
    Command::Complete(
        now,
        key,
        fetch,
        End::Value(value, CacheProperties::default(), Source::Outer),
    )
}

// Carries out a command at this time, and counts it. If memory ran out before it, nothing has changed.
fn tell_command<W: Write, S: HashBuilder, I: Finder<u64>>(
    writer: &mut W,
    session: &mut SimSession<S, I>,
    now: u64,
    stats: &mut Stats,
    command: SimCommand,
) -> io::Result<()>
    ensures { (text : List ℕ)
        × CommandTold (meaning_of_session session.old) (λ builder key. S.hash_of builder (u64_input key))
        (session_of session.old) command text (session_of session.new)
        × WritesText (W.contents writer.old) (W.contents writer.new) result text }
{
    let counting = Counting::of(&command);
    let stepped = session.step(command);
    let usage = session.usage();
    let entries = session.entries();
    match stepped {
        Ok(reply) => {
            counting.count_reply(stats, now, &reply);
            tell_reply(writer, &reply, usage, entries)
        }
        Err(error) => {
            counting.count_refusal(stats);
            tell_refusal(writer, &error, usage, entries)
        }
    }
}

// Writes a reply, and then the usage and the entries.
fn tell_reply<W: Write>(
    writer: &mut W,
    reply: &Reply<u64, SimValue, CacheProperties>,
    usage: u128,
    entries: u128,
) -> io::Result<()>
    ensures { WritesText (W.contents writer.old) (W.contents writer.new) result (answer_text reply.now.answer ++ rest_text reply.now.leaves usage entries) }
{
    write_answer(writer, &reply.answer)?;
    write_rest(writer, reply.leaves.as_slice(), usage, entries)
}

// Writes an error, and then the usage and the entries.
fn tell_refusal<W: Write>(
    writer: &mut W,
    error: &Error,
    usage: u128,
    entries: u128,
) -> io::Result<()>
    ensures { WritesText (W.contents writer.old) (W.contents writer.new) result (refusal_text (number_of error.now)
        ++ rest_text {P = Answered} [] usage entries) }
{
    write_refusal(writer, error)?;
    write_rest::<W, CacheProperties>(writer, &[], usage, entries)
}

// Writes words, and then the usage and the entries.
fn tell_words<W: Write, S: HashBuilder, I: Finder<u64>>(
    writer: &mut W,
    session: &SimSession<S, I>,
    words: &[u8],
) -> io::Result<()>
    ensures { WritesText (W.contents writer.old) (W.contents writer.new) result
        (line_text (meaning_of_session session.now) words.now [] (session_of session.now)) }
{
    write_out(writer, words)?;
    write_rest::<W, CacheProperties>(writer, &[], session.usage(), session.entries())
}
