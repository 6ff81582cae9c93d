//! Commands on the fetches of a key.

ghost use Rattle.std.specs.Prelude.{◌≡◌, ℕ, List, [], ◌+◌, ◌<◌, ◌≤◌, Some, option_map, slice_get, true, vec_len, vec_capacity};
ghost use Rattle.foyer_policy.specs.declared.error.Reason.TheVariants.{Fetch};
ghost use Rattle.foyer_core.specs.CoreFetches.{Completed, EndsAt, open_in};
ghost use Rattle.foyer_core.specs.Cores.{core_of, fetches_of, hashes_of, meaning_of_core};
ghost use Rattle.foyer_core.specs.Inflight.{asked};
ghost use Rattle.foyer_core.specs.State.{at_moment, coming_in};
ghost use Rattle.foyer_core.specs.Waited.{ending_of};
ghost use Rattle.foyer_session.specs.Answering.{Answering};
ghost use Rattle.foyer_session.specs.Step.{ended_by, entries_by, nothing_by};
ghost use Rattle.foyer_session.specs.Tokens.{each_gets, first_number, got_by};

use super::waiters::tell_ended;
use super::{Session, handle, piece};
use crate::answers::{Answers, Gets};
use crate::command::{Answer, End, Reply};
use foyer_core::{CacheCore, Ended, FetchOrTake, FetchTarget, Filter, Finder, Lookup, Weighter};
use foyer_policy::{Error, Eviction, Fault, HashBuilder, Key, Properties, Reason, Source, Value};
use std::alloc::Global;
use std::sync::Arc;

impl<
    E: Eviction,
    K: Key,
    V: Value,
    P: Properties,
    S: HashBuilder,
    W: Weighter<K, V>,
    A: Filter<K, V>,
    I: Finder<K>,
> Session<E, K, V, P, S, W, A, I> {
    ghost use Rattle.foyer_session.specs.Sessions.{session_of, taken, terms_of};
    ghost use Rattle.foyer_session.specs.Step.{CompleteStep, CompletesPiece, CompletesWith, EndStep, FetchOrTakeStep, GetOrFetchStep, IsOpenStep};
    ghost use Rattle.foyer_session.specs.Terms.{terms_at};

    // Looks a key up; on a miss, gives a token to wait with.
    pub(super) fn get_or_fetch(&mut self, now: u64, key: &K, later: Option<u64>) -> Reply<K, V, P>
        requires clones { (k c : K) → K.is_clone k c → K.eq c k ≡ true }
        requires room { taken self.old < vec_capacity self.old.handles }
        ensures step { GetOrFetchStep (terms_of self.old) now (session_of self.old) key.now later result.answer result.leaves (session_of self.new) }
        ensures taken { taken self.new ≤ taken self.old + 1 }
        ensures capacity { vec_capacity self.new.handles ≡ vec_capacity self.old.handles }
        ensures pieces { self.new.pieces ≡ self.old.pieces }
    {
        let looked = match self.core.get_or_enqueue(now, key, later, ()) {
            Ok(looked) => looked,
            Err(error) => return Reply::new(Answer::Refused(error), Vec::new(self.alloc)),
        };
        match looked {
            Lookup::Hit(entry) => {
                let (handle, record) = handle::hand_out(&mut self.handles, entry);
                Reply::new(Answer::Found { handle, record }, Vec::new(self.alloc))
            }
            Lookup::Lead {
                fetch,
                token,
                required: _,
            } => {
                self.waiting += 1;
                Reply::new(Answer::Lead { fetch, token }, Vec::new(self.alloc))
            }
            Lookup::Wait { token } => {
                self.waiting += 1;
                Reply::new(Answer::Wait { token }, Vec::new(self.alloc))
            }
        }
    }

    // Ends a fetch of the key with a value, or with a piece.
    pub(super) fn complete(
        &mut self,
        now: u64,
        key: &K,
        fetch: u64,
        end: End<V, P>,
    ) -> Reply<K, V, P>
        requires clones { (k c : K) → K.is_clone k c → K.eq c k ≡ true }
        ensures step { CompleteStep (terms_at now (terms_of self.old)) (session_of self.old) key.now fetch end result.answer result.leaves (session_of self.new) }
        ensures taken { taken self.new ≤ taken self.old }
        ensures capacity { vec_capacity self.new.handles ≡ vec_capacity self.old.handles }
        ensures pieces { self.new.pieces ≡ self.old.pieces }
    {
        match end {
            End::Value(value, properties, source) => {
                let target = FetchTarget::Entry { value, properties };
                self.complete_with(now, key, fetch, target, source)
            }
            End::PieceNo(number) => self.complete_piece(now, key, fetch, number),
        }
    }

    // Ends a fetch of the key with a clone of a held piece.
    fn complete_piece(&mut self, now: u64, key: &K, fetch: u64, number: u64) -> Reply<K, V, P>
        requires clones { (k c : K) → K.is_clone k c → K.eq c k ≡ true }
        ensures step { CompletesPiece (terms_at now (terms_of self.old)) (session_of self.old) key.now fetch
            (slice_get (session_of self.old).pieces number) result.answer result.leaves (session_of self.new) }
        ensures taken { taken self.new ≤ taken self.old }
        ensures capacity { vec_capacity self.new.handles ≡ vec_capacity self.old.handles }
        ensures pieces { self.new.pieces ≡ self.old.pieces }
    {
        let Some(piece) = piece::held(self.pieces.as_slice(), number) else {
            return Reply::new(Answer::NotHeld, Vec::new(self.alloc));
        };
        let Ok(piece) = piece.clone() else {
            let error = Error::new(Reason::NoMemory);
            return Reply::new(Answer::Refused(error), Vec::new(self.alloc));
        };
        self.complete_with(now, key, fetch, FetchTarget::Piece(piece), Source::Memory)
    }

    fn complete_with(
        &mut self,
        now: u64,
        key: &K,
        fetch: u64,
        target: FetchTarget<K, V, P>,
        source: Source,
    ) -> Reply<K, V, P>
        requires clones { (k c : K) → K.is_clone k c → K.eq c k ≡ true }
        ensures step { CompletesWith (terms_at now (terms_of self.old)) (session_of self.old) key.now fetch source target result.answer result.leaves (session_of self.new) }
        ensures taken { taken self.new ≤ taken self.old }
        ensures capacity { vec_capacity self.new.handles ≡ vec_capacity self.old.handles }
        ensures pieces { self.new.pieces ≡ self.old.pieces }
    {
        let ended = complete_in(&mut self.core, now, key, fetch, target, source);
        tell_ended(&mut self.handles, &mut self.waiting, ended)
    }

    // Ends a fetch of the key with the fault, or, without one, as if its task was dropped.
    pub(super) fn end(
        &mut self,
        key: &K,
        fetch: u64,
        fault: Option<Arc<Fault, Global>>,
    ) -> Reply<K, V, P>
        ensures step { EndStep (terms_of self.old) (session_of self.old) key.now fetch
            (ended_by (option_map Fetch fault)) result.answer result.leaves (session_of self.new) }
        ensures taken { taken self.new ≤ taken self.old }
        ensures capacity { vec_capacity self.new.handles ≡ vec_capacity self.old.handles }
        ensures pieces { self.new.pieces ≡ self.old.pieces }
    {
        let ended = end_in(&mut self.core, key, fetch, fault);
        tell_ended(&mut self.handles, &mut self.waiting, ended)
    }

    // A fetch of the key found nothing, or failed with the fault.
    pub(super) fn fetch_or_take(
        &mut self,
        key: &K,
        fetch: u64,
        outcome: Option<Arc<Fault, Global>>,
    ) -> Reply<K, V, P>
        ensures step { FetchOrTakeStep (terms_of self.old) (session_of self.old) key.now fetch
            (option_map Fetch outcome) result.answer result.leaves (session_of self.new) }
        ensures taken { taken self.new ≤ taken self.old }
        ensures capacity { vec_capacity self.new.handles ≡ vec_capacity self.old.handles }
        ensures pieces { self.new.pieces ≡ self.old.pieces }
    {
        match self.core.fetch_or_take(key, fetch) {
            None => Reply::new(Answer::Lost, Vec::new(self.alloc)),
            Some(FetchOrTake::Fetch(label)) => {
                Reply::new(Answer::Later(label), Vec::new(self.alloc))
            }
            Some(FetchOrTake::Notifiers(waiters)) => {
                self.waiting -= waiters.len();
                let answers = Answers::new(waiters, nothing(outcome));
                let record = None;
                Reply::new(Answer::Answered { answers, record }, Vec::new(self.alloc))
            }
        }
    }

    pub(super) fn is_open(&self, key: &K, fetch: u64) -> Reply<K, V, P>
        ensures { IsOpenStep (terms_of self.now) (session_of self.now) key.now fetch result.answer result.leaves (session_of self.now) }
    {
        let answer = if self.core.is_open(key, fetch) {
            Answer::Yes
        } else {
            Answer::No
        };
        Reply::new(answer, Vec::new(self.alloc))
    }
}

// Ends a fetch of the key with a record of it. The waiters get equal entries, or none.
fn complete_in<
    E: Eviction,
    K: Key,
    V: Value,
    P: Properties,
    S: HashBuilder,
    W: Weighter<K, V>,
    A: Filter<K, V>,
    I: Finder<K>,
>(
    core: &mut CacheCore<E, K, V, P, S, W, A, (), u64, I>,
    now: u64,
    key: &K,
    fetch: u64,
    target: FetchTarget<K, V, P>,
    source: Source,
) -> Ended<K, V, P, ()>
    requires clones { (k c : K) → K.is_clone k c → K.eq c k ≡ true }
    ensures completed { let k : ℕ × K = (hashes_of core.old key.now, key.now) in
        Completed (at_moment now (meaning_of_core core.old)) (record {
          hash = hashes_of core.old;
          weighs = W.weighs (core_of core.old).weighter;
          admits = A.admits (core_of core.old).filter;
          properties = λ p admitted. coming_in P.location_of P.with_phantom_of admitted p;
        }) source target k (asked (Some fetch) (open_in (fetches_of core.old) k)) (ending_of result)
        (core_of core.old) (fetches_of core.old) (core_of core.new) (fetches_of core.new) }
    ensures answering { let k : ℕ × K = (hashes_of core.old key.now, key.now) in
        Answering K.eq k (asked (Some fetch) (open_in (fetches_of core.old) k)) (fetches_of core.old) (fetches_of core.new) (ending_of result) }
{
    core.complete(now, key, fetch, target, source)
}

// Ends a fetch of the key with the fault, or, without one, as if its task was dropped. Nobody gets an entry.
fn end_in<
    E: Eviction,
    K: Key,
    V: Value,
    P: Properties,
    S: HashBuilder,
    W: Weighter<K, V>,
    A: Filter<K, V>,
    I: Finder<K>,
>(
    core: &mut CacheCore<E, K, V, P, S, W, A, (), u64, I>,
    key: &K,
    fetch: u64,
    fault: Option<Arc<Fault, Global>>,
) -> Ended<K, V, P, ()>
    ensures ended { EndsAt (hashes_of core.old key.now, key.now) fetch K.eq (ended_by (option_map Fetch fault))
        (fetches_of core.old) (ending_of result) (fetches_of core.new) }
    ensures core { core_of core.new ≡ core_of core.old }
    ensures answering { let k : ℕ × K = (hashes_of core.old key.now, key.now) in
        Answering K.eq k (asked (Some fetch) (open_in (fetches_of core.old) k)) (fetches_of core.old) (fetches_of core.new) (ending_of result) }
    ensures nothing { entries_by (ending_of result).outcome ≡ [] }
{
    match fault {
        Some(fault) => core.fail(key, fetch, fault),
        None => core.cancel(key, fetch),
    }
}

// What the waiters get if their fetch found nothing, or failed with the fault.
fn nothing(outcome: Option<Arc<Fault, Global>>) -> Gets
    ensures first { first_number result ≡ 0 }
    ensures got { (tokens : List ℕ) → got_by result tokens ≡ each_gets (nothing_by (option_map Fetch outcome)) tokens }
{
    match outcome {
        None => Gets::Nothing,
        Some(fault) => Gets::Fault(Error::new(Reason::Fetch(fault))),
    }
}
