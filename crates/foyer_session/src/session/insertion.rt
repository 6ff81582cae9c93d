//! Commands that insert.

ghost use Rattle.std.specs.Prelude.{◌≡◌, ◌+◌, ◌<◌, ◌≤◌, ◌++◌, Some, length, replicate, true, vec_len, vec_capacity};
ghost use Rattle.foyer_core.specs.Waited.{entries_in};
ghost use Rattle.foyer_session.specs.Step.{given, record_of};
ghost use Rattle.foyer_session.specs.Tokens.{handles_from, numbers_of};
ghost use Rattle.foyer_session.specs.declared.command.Answer.TheVariants.{Entry, Refused as RefusedAnswer};

use super::handle::{self, Handle};
use super::waiters::answer_all;
use super::{Session, piece};
use crate::command::{Answer, Reply};
use foyer_core::{Filter, Finder, Inserted, Refused, Weighter};
use foyer_policy::{Error, Eviction, HashBuilder, Key, Properties, Reason, Value};

impl<
    E: Eviction,
    K: Key,
    V: Value,
    P: Properties,
    S: HashBuilder,
    W: Weighter<K, V>,
    A: Filter<K, V>,
    I: Finder<K>,
> Session<E, K, V, P, S, W, A, I> {
    ghost use Rattle.foyer_session.specs.Sessions.{session_of, taken, terms_of};
    ghost use Rattle.foyer_session.specs.Step.{InsertPieceStep, InsertStep};
    ghost use Rattle.foyer_session.specs.Terms.{terms_at};

    pub(super) fn insert(&mut self, now: u64, key: K, value: V, properties: P) -> Reply<K, V, P>
        requires clones { (k c : K) → K.is_clone k c → K.eq c k ≡ true }
        requires room { taken self.old < vec_capacity self.old.handles }
        ensures step { InsertStep (terms_at now (terms_of self.old)) (session_of self.old) key value properties result.answer result.leaves (session_of self.new) }
        ensures taken { taken self.new ≤ taken self.old + 1 }
        ensures capacity { vec_capacity self.new.handles ≡ vec_capacity self.old.handles }
        ensures pieces { self.new.pieces ≡ self.old.pieces }
    {
        match self
            .core
            .insert_with_properties(now, key, value, properties)
        {
            Ok(inserted) => tell_inserted(&mut self.handles, &mut self.waiting, inserted),
            Err(refused) => tell_refused(refused),
        }
    }

    // Inserts a clone of a held piece.
    pub(super) fn insert_piece(&mut self, now: u64, number: u64) -> Reply<K, V, P>
        requires clones { (k c : K) → K.is_clone k c → K.eq c k ≡ true }
        requires room { taken self.old < vec_capacity self.old.handles }
        ensures step { InsertPieceStep (terms_at now (terms_of self.old)) (session_of self.old) number result.answer result.leaves (session_of self.new) }
        ensures taken { taken self.new ≤ taken self.old + 1 }
        ensures capacity { vec_capacity self.new.handles ≡ vec_capacity self.old.handles }
        ensures pieces { self.new.pieces ≡ self.old.pieces }
    {
        let Some(piece) = piece::held(self.pieces.as_slice(), number) else {
            return Reply::new(Answer::NotHeld, Vec::new(self.alloc));
        };
        let Ok(piece) = piece.clone() else {
            let error = Error::new(Reason::NoMemory);
            return Reply::new(Answer::Refused(error), Vec::new(self.alloc));
        };
        match self.core.insert_piece(now, piece) {
            Ok(inserted) => tell_inserted(&mut self.handles, &mut self.waiting, inserted),
            Err(refused) => tell_refused(refused),
        }
    }
}

// Hands out the entries of the key's waiters, and then that of the inserted record.
fn tell_inserted<K: Drop, V: Drop, P: Drop>(
    handles: &mut Vec<Handle<K, V, P>>,
    waiting: &mut usize,
    inserted: Inserted<K, V, P, ()>,
) -> Reply<K, V, P>
    requires room { vec_len handles.old + vec_len inserted.answers.waiters < vec_capacity handles.old }
    requires counted { vec_len inserted.answers.waiters ≤ waiting.old }
    requires untold { inserted.entry.left ≡ true }
    requires each { entries_in inserted.answers.outcome ≡ Some (replicate (length inserted.answers.waiters.items) inserted.entry) }
    ensures answer { result.answer ≡ Entry (length handles.old.items + length inserted.answers.waiters.items) (record_of inserted.entry)
        (handles_from (length handles.old.items) (numbers_of inserted.answers.waiters.items)) }
    ensures leaves { result.leaves ≡ inserted.leaves.items }
    ensures handles { handles.new.items ≡ handles.old.items ++ replicate (1 + length inserted.answers.waiters.items) (given inserted.entry) }
    ensures waiting { waiting.new + vec_len inserted.answers.waiters ≡ waiting.old }
    ensures capacity { vec_capacity handles.new ≡ vec_capacity handles.old }
{
    let Inserted {
        entry,
        answers,
        leaves,
    } = inserted;
    let (answers, _) = answer_all(handles, waiting, answers);
    let (handle, record) = handle::hand_out(handles, entry);
    let answer = Answer::Entry {
        handle,
        record,
        answers,
    };
    Reply::new(answer, leaves)
}

// Replies with the reason why nothing was inserted, and with what was evicted.
fn tell_refused<K: Drop, V: Drop, P: Drop>(refused: Refused<K, V, P>) -> Reply<K, V, P>
    ensures answer { result.answer ≡ RefusedAnswer refused.error }
    ensures leaves { result.leaves ≡ refused.leaves.items }
{
    let Refused { error, leaves } = refused;
    Reply::new(Answer::Refused(error), leaves)
}
