//! Commands on a handle.

ghost use Rattle.std.specs.Prelude.{◌≡◌, ◌+◌, ◌<◌, ◌≤◌, vec_len, vec_capacity};
ghost use Rattle.foyer_core.specs.Core.{AtShard, Owns};
ghost use Rattle.foyer_core.specs.Cores.{core_of, fetches_of};
ghost use Rattle.foyer_core.specs.Steps.{ClonesHandle};

use super::ready::with_leave;
use super::{Session, handle, piece};
use crate::command::{Answer, Reply};
use foyer_core::{CacheCore, CoreEntry, Filter, Finder, Left, Weighter};
use foyer_policy::{Event, Eviction, HashBuilder, Key, Properties, Result, Value};

impl<
    E: Eviction,
    K: Key,
    V: Value,
    P: Properties,
    S: HashBuilder,
    W: Weighter<K, V>,
    A: Filter<K, V>,
    I: Finder<K>,
> Session<E, K, V, P, S, W, A, I> {
    ghost use Rattle.foyer_session.specs.Sessions.{session_of, taken, terms_of};
    ghost use Rattle.foyer_session.specs.Step.{CloneStep, DropStep, TakePieceStep, RefsStep, OutdatedStep};

    // Clones a held handle.
    pub(super) fn clone_handle(&mut self, number: u64) -> Reply<K, V, P>
        requires room { taken self.old < vec_capacity self.old.handles }
        ensures step { CloneStep (terms_of self.old) (session_of self.old) number result.answer result.leaves (session_of self.new) }
        ensures taken { taken self.new ≤ taken self.old + 1 }
        ensures capacity { vec_capacity self.new.handles ≡ vec_capacity self.old.handles }
        ensures pieces { self.new.pieces ≡ self.old.pieces }
    {
        let Some(entry) = handle::held(self.handles.as_slice(), number) else {
            return Reply::new(Answer::NotHeld, Vec::new(self.alloc));
        };
        match clone_held(&mut self.core, entry) {
            Ok(clone) => {
                let (handle, record) = handle::hand_out(&mut self.handles, clone);
                Reply::new(Answer::Found { handle, record }, Vec::new(self.alloc))
            }
            Err(error) => Reply::new(Answer::Refused(error), Vec::new(self.alloc)),
        }
    }

    // Gives the handle of a number back, if it is held. `leaves` has room for one removal.
    pub(super) fn give_back(
        &mut self,
        number: u64,
        leaves: Vec<(Event, Left<K, V, P>)>,
    ) -> Reply<K, V, P>
        requires empty { vec_len leaves ≡ 0 }
        requires room { 0 < vec_capacity leaves }
        ensures step { DropStep (terms_of self.old) (session_of self.old) number result.answer result.leaves (session_of self.new) }
        ensures taken { taken self.new ≡ taken self.old }
        ensures capacity { vec_capacity self.new.handles ≡ vec_capacity self.old.handles }
        ensures pieces { self.new.pieces ≡ self.old.pieces }
    {
        let Some(entry) = handle::take(&mut self.handles, number) else {
            return Reply::new(Answer::NotHeld, leaves);
        };
        match self.core.give_back(entry) {
            Ok(leave) => Reply::new(Answer::Done, with_leave(leaves, leave)),
            Err(entry) => {
                entry.discard();
                unreachable!()
            }
        }
    }

    // Hands out a piece of a held handle's record.
    pub(super) fn take_piece(&mut self, number: u64) -> Reply<K, V, P>
        requires room { vec_len self.old.pieces < vec_capacity self.old.pieces }
        ensures step { TakePieceStep (terms_of self.old) (session_of self.old) number result.answer result.leaves (session_of self.new) }
        ensures handles { self.new.handles ≡ self.old.handles }
        ensures taken { taken self.new ≡ taken self.old }
        ensures len { vec_len self.new.pieces ≤ vec_len self.old.pieces + 1 }
        ensures capacity { vec_capacity self.new.pieces ≡ vec_capacity self.old.pieces }
    {
        let Some(entry) = handle::held(self.handles.as_slice(), number) else {
            return Reply::new(Answer::NotHeld, Vec::new(self.alloc));
        };
        match entry.piece() {
            Ok(piece) => {
                let taken = piece::hand_out(&mut self.pieces, piece);
                Reply::new(Answer::PieceNo(taken), Vec::new(self.alloc))
            }
            Err(error) => Reply::new(Answer::Refused(error), Vec::new(self.alloc)),
        }
    }

    pub(super) fn refs(&self, number: u64) -> Reply<K, V, P>
        ensures { RefsStep (terms_of self.now) (session_of self.now) number result.answer result.leaves (session_of self.now) }
    {
        let Some(entry) = handle::held(self.handles.as_slice(), number) else {
            return Reply::new(Answer::NotHeld, Vec::new(self.alloc));
        };
        let count = self.core.refs(entry) as u128;
        Reply::new(Answer::Number(count), Vec::new(self.alloc))
    }

    pub(super) fn is_outdated(&self, number: u64) -> Reply<K, V, P>
        ensures { OutdatedStep (terms_of self.now) (session_of self.now) number result.answer result.leaves (session_of self.now) }
    {
        let Some(entry) = handle::held(self.handles.as_slice(), number) else {
            return Reply::new(Answer::NotHeld, Vec::new(self.alloc));
        };
        if self.core.is_outdated(entry) {
            Reply::new(Answer::Yes, Vec::new(self.alloc))
        } else {
            Reply::new(Answer::No, Vec::new(self.alloc))
        }
    }
}

// Clones an entry that is held.
fn clone_held<
    E: Eviction,
    K: Key,
    V: Value,
    P: Properties,
    S: HashBuilder,
    W: Weighter<K, V>,
    A: Filter<K, V>,
    I: Finder<K>,
>(
    core: &mut CacheCore<E, K, V, P, S, W, A, (), u64, I>,
    entry: &CoreEntry<K, V, P>,
) -> Result<CoreEntry<K, V, P>>
    requires owned { Owns (core_of core.old) entry.now }
    ensures clones { AtShard (λ s t. ClonesHandle s entry.now result t)
        entry.now.kept.hash (core_of core.old) (core_of core.new) }
    ensures fetches { fetches_of core.new ≡ fetches_of core.old }
{
    core.clone_handle(entry)
}
