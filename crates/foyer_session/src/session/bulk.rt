//! Commands on all records.

ghost use Rattle.std.specs.Prelude.{◌≡◌, vec_len, vec_capacity};

use super::Session;
use crate::command::{Answer, Reply};
use crate::predicate::Predicate;
use foyer_core::{Filter, Finder, Refused, Weighter};
use foyer_policy::{Eviction, HashBuilder, Key, Properties, Value};

impl<
    E: Eviction,
    K: Key,
    V: Value,
    P: Properties,
    S: HashBuilder,
    W: Weighter<K, V>,
    A: Filter<K, V>,
    I: Finder<K>,
> Session<E, K, V, P, S, W, A, I> {
    ghost use Rattle.foyer_session.specs.Sessions.{session_of, taken, terms_of};
    ghost use Rattle.foyer_session.specs.Step.{ClearStep, EvictAllStep, FlushIfStep, ResizeStep, ReconfigureStep};
    ghost use Rattle.foyer_session.specs.Terms.{terms_at};

    pub(super) fn clear(&mut self) -> Reply<K, V, P>
        ensures step { ClearStep (terms_of self.old) (session_of self.old) result.answer result.leaves (session_of self.new) }
        ensures taken { taken self.new ≡ taken self.old }
        ensures capacity { vec_capacity self.new.handles ≡ vec_capacity self.old.handles }
        ensures pieces { self.new.pieces ≡ self.old.pieces }
    {
        match self.core.clear() {
            Ok(leaves) => Reply::new(Answer::Done, leaves),
            Err(error) => Reply::new(Answer::Refused(error), Vec::new(self.alloc)),
        }
    }

    pub(super) fn evict_all(&mut self, now: u64) -> Reply<K, V, P>
        ensures step { EvictAllStep (terms_at now (terms_of self.old)) (session_of self.old) result.answer result.leaves (session_of self.new) }
        ensures taken { taken self.new ≡ taken self.old }
        ensures capacity { vec_capacity self.new.handles ≡ vec_capacity self.old.handles }
        ensures pieces { self.new.pieces ≡ self.old.pieces }
    {
        match self.core.evict_all(now) {
            Ok(leaves) => Reply::new(Answer::Done, leaves),
            Err(refused) => {
                let Refused { error, leaves } = refused;
                Reply::new(Answer::Refused(error), leaves)
            }
        }
    }

    pub(super) fn flush_if<Q: Predicate<K, V>>(&mut self, predicate: &Q) -> Reply<K, V, P>
        ensures step { FlushIfStep (terms_of self.old) (session_of self.old) (Q.picks predicate.now) result.answer result.leaves (session_of self.new) }
        ensures taken { taken self.new ≡ taken self.old }
        ensures capacity { vec_capacity self.new.handles ≡ vec_capacity self.old.handles }
        ensures pieces { self.new.pieces ≡ self.old.pieces }
    {
        match self
            .core
            .flush_if(&|key: &K, value: &V| predicate.pick(key, value))
        {
            Ok(leaves) => Reply::new(Answer::Done, leaves),
            Err(error) => Reply::new(Answer::Refused(error), Vec::new(self.alloc)),
        }
    }

    pub(super) fn resize(&mut self, now: u64, capacity: usize) -> Reply<K, V, P>
        ensures step { ResizeStep (terms_of self.old) now (session_of self.old) capacity result.answer result.leaves (session_of self.new) }
        ensures taken { taken self.new ≡ taken self.old }
        ensures capacity { vec_capacity self.new.handles ≡ vec_capacity self.old.handles }
        ensures pieces { self.new.pieces ≡ self.old.pieces }
    {
        match self.core.resize(now, capacity) {
            Ok(leaves) => Reply::new(Answer::Done, leaves),
            Err(refused) => {
                let Refused { error, leaves } = refused;
                Reply::new(Answer::Refused(error), leaves)
            }
        }
    }

    pub(super) fn reconfigure(&mut self, config: &E::Config) -> Reply<K, V, P>
        ensures step { ReconfigureStep (terms_of self.old) (session_of self.old) config.now result.answer result.leaves (session_of self.new) }
        ensures taken { taken self.new ≡ taken self.old }
        ensures capacity { vec_capacity self.new.handles ≡ vec_capacity self.old.handles }
        ensures pieces { self.new.pieces ≡ self.old.pieces }
    {
        match self.core.reconfigure(config) {
            Ok(()) => Reply::new(Answer::Done, Vec::new(self.alloc)),
            Err(error) => Reply::new(Answer::Refused(error), Vec::new(self.alloc)),
        }
    }
}
