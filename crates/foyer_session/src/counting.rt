//! How a session's caller counts its commands and their replies.

ghost use Rattle.std.specs.Prelude.{◌≡◌, Ok};
ghost use Rattle.foyer_session.specs.Counting.{answer_counted, counting_of, insert_answered, leaves_counted, look_up_counted, refusal_counted, step_counted};

use crate::command::{Answer, Command, Reply};
use foyer_core::{Counted, Leave, Stats};
use foyer_policy::{Properties, Result};

/// What a command counts as once it is answered.
#[derive(Clone, Copy, Debug, PartialEq, Eq)]
pub enum Counting {
    /// A look-up: `Get`, `Touch` or `GetOrFetch`.
    LookUp,
    /// An insert: `Insert`, `InsertPiece` or `Complete`.
    Insert,
    /// Any other: only what leaves is counted.
    Other,
}

impl Counting {
    /// Returns what a command counts as.
    pub fn of<K, V, P, Q, C>(command: &Command<K, V, P, Q, C>) -> Self
        ensures { result ≡ counting_of command.now }
    {
        match command {
            Command::Get(..) | Command::Touch(..) | Command::GetOrFetch(..) => Counting::LookUp,
            Command::Insert(..) | Command::InsertPiece(..) | Command::Complete(..) => {
                Counting::Insert
            }
            _ => Counting::Other,
        }
    }

    /// Counts what `Session::step` returned for a command at this time.
    pub fn count<K, V, P: Properties>(
        self,
        stats: &mut Stats,
        now: u64,
        stepped: &Result<Reply<K, V, P>>,
    )
        ensures { stats.new ≡ step_counted P.phantom_of P.expiry_of self now stepped.now stats.old }
    {
        match stepped {
            Ok(reply) => self.count_reply(stats, now, reply),
            Err(_) => self.count_refusal(stats),
        }
    }

    // Counts a reply.
    pub(crate) fn count_reply<K, V, P: Properties>(
        self,
        stats: &mut Stats,
        now: u64,
        reply: &Reply<K, V, P>,
    )
        ensures { stats.new ≡ step_counted P.phantom_of P.expiry_of self now (Ok reply.now) stats.old }
    {
        self.count_answer(stats, &reply.answer);
        count_leaves(stats, now, reply.leaves.as_slice());
    }

    // Counts an answer.
    fn count_answer<K, V, P: Properties>(self, stats: &mut Stats, answer: &Answer<K, V, P>)
        ensures { stats.new ≡ answer_counted P.phantom_of self answer.now stats.old }
    {
        match self {
            Counting::LookUp => count_look_up(stats, answer),
            Counting::Insert => count_insert(stats, answer),
            Counting::Other => {}
        }
    }

    // Counts a refusal.
    pub(crate) fn count_refusal(self, stats: &mut Stats)
        ensures { stats.new ≡ refusal_counted self stats.old }
    {
        if self == Counting::Insert {
            stats.count(Counted::Refused);
        }
    }
}

// Counts the answer to a look-up.
fn count_look_up<K, V, P>(stats: &mut Stats, answer: &Answer<K, V, P>)
    ensures { stats.new ≡ look_up_counted answer.now stats.old }
{
    match answer {
        Answer::Found { .. } | Answer::Yes => stats.count(Counted::Hit),
        Answer::Missing | Answer::No => stats.count(Counted::Miss),
        Answer::Lead { .. } => stats.count(Counted::Fetch),
        Answer::Wait { .. } => stats.count(Counted::Wait),
        _ => {}
    }
}

// Counts the answer to an insert.
fn count_insert<K, V, P: Properties>(stats: &mut Stats, answer: &Answer<K, V, P>)
    ensures { stats.new ≡ insert_answered P.phantom_of answer.now stats.old }
{
    match answer {
        Answer::Entry { record, .. } => stats.count_insert(record.properties()),
        Answer::Answered {
            record: Some(record),
            ..
        } => stats.count_insert(record.properties()),
        Answer::Answered { record: None, .. } | Answer::Refused(_) => {
            stats.count(Counted::Refused)
        }
        _ => {}
    }
}

// Counts what left at this time.
fn count_leaves<K, V, P: Properties>(stats: &mut Stats, now: u64, leaves: &[Leave<K, V, P>])
    ensures { stats.new ≡ leaves_counted P.phantom_of P.expiry_of now leaves.now stats.old }
{
    for (event, left) in leaves {
        stats.count_left(now, *event, left);
    }
}
