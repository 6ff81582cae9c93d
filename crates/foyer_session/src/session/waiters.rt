//! The results of waiters.

ghost use Rattle.std.specs.Prelude.{◌≡◌, ℕ, ◌+◌, ◌≤◌, ◌++◌, false, length, map, reverse, true, vec_len, vec_capacity};
ghost use Rattle.foyer_core.specs.Waited.{ending_of, got_of as outcome_of};
ghost use Rattle.foyer_session.specs.Step.{entries_by, first_told, given};
ghost use Rattle.foyer_session.specs.Tokens.{AreAlike, AreUntold, got_of, numbers_of};
ghost use Rattle.foyer_session.specs.declared.command.Answer.TheVariants.{Answered, Lost};

use super::handle::{self, Handle};
use crate::answers::{Answers, Gets};
use crate::command::{Answer, Reply};
use foyer_core::{Answers as CoreAnswers, CoreEntry, Ended, Left, Outcome};

/// Replies with the end of a fetch: its waiters get their results, and wait no longer.
pub fn tell_ended<K: Drop, V: Drop, P: Drop>(
    handles: &mut Vec<Handle<K, V, P>>,
    waiting: &mut usize,
    ended: Ended<K, V, P, ()>,
) -> Reply<K, V, P>
    requires room { vec_len handles.old + vec_len ended.answers.waiters ≤ vec_capacity handles.old }
    requires counted { vec_len ended.answers.waiters ≤ waiting.old }
    requires each { length (entries_by (ending_of ended).outcome) ≤ vec_len ended.answers.waiters }
    requires alike { AreAlike (entries_by (ending_of ended).outcome) }
    ensures answered { ended.found ≡ true → result.answer ≡ Answered
        (got_of (length handles.old.items) (ending_of ended).outcome (numbers_of ended.answers.waiters.items))
        (first_told (entries_by (ending_of ended).outcome)) }
    ensures lost { ended.found ≡ false → result.answer ≡ Lost }
    ensures leaves { result.leaves ≡ ended.leaves.items }
    ensures handles { handles.new.items ≡ handles.old.items ++ map given (entries_by (ending_of ended).outcome) }
    ensures waiting { waiting.new + vec_len ended.answers.waiters ≡ waiting.old }
    ensures capacity { vec_capacity handles.new ≡ vec_capacity handles.old }
{
    let Ended {
        found,
        answers,
        leaves,
    } = ended;
    let (answers, record) = answer_all(handles, waiting, answers);
    let answer = if found {
        Answer::Answered { answers, record }
    } else {
        Answer::Lost
    };
    Reply::new(answer, leaves)
}

/// Returns what each waiter gets, and the record of their handles, if they get any.
pub fn answer_all<K: Drop, V: Drop, P: Drop>(
    handles: &mut Vec<Handle<K, V, P>>,
    waiting: &mut usize,
    answers: CoreAnswers<K, V, P, ()>,
) -> (Answers, Option<Left<K, V, P>>)
    requires room { vec_len handles.old + vec_len answers.waiters ≤ vec_capacity handles.old }
    requires counted { vec_len answers.waiters ≤ waiting.old }
    requires each { length (entries_by (outcome_of answers.outcome)) ≤ vec_len answers.waiters }
    requires alike { AreAlike (entries_by (outcome_of answers.outcome)) }
    ensures answers { result.0 ≡ got_of (length handles.old.items) (outcome_of answers.outcome) (numbers_of answers.waiters.items) }
    ensures told { result.1 ≡ first_told (entries_by (outcome_of answers.outcome)) }
    ensures handles { handles.new.items ≡ handles.old.items ++ map given (entries_by (outcome_of answers.outcome)) }
    ensures waiting { waiting.new + vec_len answers.waiters ≡ waiting.old }
    ensures capacity { vec_capacity handles.new ≡ vec_capacity handles.old }
{
    let CoreAnswers { waiters, outcome } = answers;
    *waiting -= waiters.len();
    let first = handles.len() as u64;
    match outcome {
        Outcome::Entries(entries) => {
            let record = hand_out_all(handles, entries);
            (Answers::new(waiters, Gets::Handles(first)), record)
        }
        Outcome::None => (Answers::new(waiters, Gets::Nothing), None),
        Outcome::Fault(error) => (Answers::new(waiters, Gets::Fault(error)), None),
    }
}

// Hands out entries, from the last to the first, and returns the record of the first, if there is one.
fn hand_out_all<K: Drop, V: Drop, P: Drop>(
    handles: &mut Vec<Handle<K, V, P>>,
    mut entries: Vec<CoreEntry<K, V, P>>,
) -> Option<Left<K, V, P>>
    requires room { vec_len handles.old + vec_len entries ≤ vec_capacity handles.old }
    requires untold { AreUntold entries.items }
    ensures told { result ≡ first_told entries.items }
    ensures handles { handles.new.items ≡ handles.old.items ++ reverse (map given entries.items) }
    ensures capacity { vec_capacity handles.new ≡ vec_capacity handles.old }
{
    let mut told = None;
    while let Some(entry) = entries.pop() {
        let (_, record) = handle::hand_out(handles, entry);
        told = Some(record);
    }
    entries.destroy_empty();
    told
}
