//! Commands on a key.

ghost use Rattle.std.specs.Prelude.{◌≡◌, ◌+◌, ◌<◌, ◌≤◌, true, vec_len, vec_capacity};

use super::ready::with_leave;
use super::{Session, handle};
use crate::command::{Answer, Reply};
use foyer_core::{Filter, Finder, Left, Weighter};
use foyer_policy::{Event, Eviction, HashBuilder, Key, Properties, Value};

impl<
    E: Eviction,
    K: Key,
    V: Value,
    P: Properties,
    S: HashBuilder,
    W: Weighter<K, V>,
    A: Filter<K, V>,
    I: Finder<K>,
> Session<E, K, V, P, S, W, A, I> {
    ghost use Rattle.foyer_session.specs.Sessions.{session_of, taken, terms_of};
    ghost use Rattle.foyer_session.specs.Step.{GetStep, ContainsStep, TouchStep, RemoveStep};

    pub(super) fn get(&mut self, now: u64, key: &K) -> Reply<K, V, P>
        requires room { taken self.old < vec_capacity self.old.handles }
        ensures step { GetStep (terms_of self.old) now (session_of self.old) key.now result.answer result.leaves (session_of self.new) }
        ensures taken { taken self.new ≤ taken self.old + 1 }
        ensures capacity { vec_capacity self.new.handles ≡ vec_capacity self.old.handles }
        ensures pieces { self.new.pieces ≡ self.old.pieces }
    {
        match self.core.get(now, key) {
            Ok(Some(entry)) => {
                let (handle, record) = handle::hand_out(&mut self.handles, entry);
                Reply::new(Answer::Found { handle, record }, Vec::new(self.alloc))
            }
            Ok(None) => Reply::new(Answer::Missing, Vec::new(self.alloc)),
            Err(error) => Reply::new(Answer::Refused(error), Vec::new(self.alloc)),
        }
    }

    pub(super) fn contains(&self, now: u64, key: &K) -> Reply<K, V, P>
        ensures { ContainsStep (terms_of self.now) now (session_of self.now) key.now result.answer result.leaves (session_of self.now) }
    {
        let answer = if self.core.contains(now, key) {
            Answer::Yes
        } else {
            Answer::No
        };
        Reply::new(answer, Vec::new(self.alloc))
    }

    pub(super) fn touch(&mut self, now: u64, key: &K) -> Reply<K, V, P>
        ensures step { TouchStep (terms_of self.old) now (session_of self.old) key.now result.answer result.leaves (session_of self.new) }
        ensures taken { taken self.new ≡ taken self.old }
        ensures capacity { vec_capacity self.new.handles ≡ vec_capacity self.old.handles }
        ensures pieces { self.new.pieces ≡ self.old.pieces }
    {
        match self.core.touch(now, key) {
            Ok(true) => Reply::new(Answer::Yes, Vec::new(self.alloc)),
            Ok(false) => Reply::new(Answer::No, Vec::new(self.alloc)),
            Err(error) => Reply::new(Answer::Refused(error), Vec::new(self.alloc)),
        }
    }

    // Removes the key's record, if there is one. `leaves` has room for one removal.
    pub(super) fn remove(&mut self, key: &K, leaves: Vec<(Event, Left<K, V, P>)>) -> Reply<K, V, P>
        requires room { taken self.old < vec_capacity self.old.handles }
        requires empty { vec_len leaves ≡ 0 }
        requires leave { 0 < vec_capacity leaves }
        ensures step { RemoveStep (terms_of self.old) (session_of self.old) key.now result.answer result.leaves (session_of self.new) }
        ensures taken { taken self.new ≤ taken self.old + 1 }
        ensures capacity { vec_capacity self.new.handles ≡ vec_capacity self.old.handles }
        ensures pieces { self.new.pieces ≡ self.old.pieces }
    {
        match self.core.remove(key) {
            Ok(Some((entry, left))) => {
                let (handle, record) = handle::hand_out(&mut self.handles, entry);
                let leaves = with_leave(leaves, Some((Event::Remove, left)));
                Reply::new(Answer::Found { handle, record }, leaves)
            }
            Ok(None) => Reply::new(Answer::Missing, leaves),
            Err(error) => Reply::new(Answer::Refused(error), leaves),
        }
    }
}
