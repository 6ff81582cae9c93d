//! A session with the history of its calls.

ghost use Rattle.std.specs.Prelude.{◌≡◌, ◌++◌, ◌∷◌, ◌<◌, ◌%◌, ◌==◌, [], true, not, IfOk, IfErr, IfSome, OnOk, OnErr, MatchOption, Err, None, Some, length, slice_get};
ghost use Rattle.foyer_policy.specs.declared.error.Reason.TheVariants.{NoMemory};
ghost use Rattle.foyer_core.specs.Core.{core_fault};
ghost use Rattle.foyer_session.specs.Sessions.{session_of, terms_of};
ghost use Rattle.foyer_audit.specs.Accounts.{AreCopies};
ghost use Rattle.foyer_audit.specs.Legal.{Call, IsHistory, is_elsewhere, key_of};

use crate::compared::Compared;
use foyer_core::{CacheCore, Filter, Finder, RawCacheConfig, TagFinder, Weighter, shard_capacity};
use foyer_policy::{Error, Eviction, HashBuilder, Key, Past, Properties, Reason, Result, Value};
use foyer_session::{Answer, Command, Leaves, Predicate, Reply, Session};
use std::alloc::Global;

/// One shard of a cache, as a session over it alone, with the history of its calls.
///
/// The history is one that a single thread could have made: it is legal from the opening state of the configuration,
/// and ends in the session's state.
#[derive(Drop)]
pub struct Book<
    E: Eviction<Config = C>,
    K: Key,
    V: Value + Clone + Eq,
    P: Properties + Clone + Eq,
    S: HashBuilder,
    W: Weighter<K, V>,
    A: Filter<K, V>,
    Q: Predicate<K, V> + Clone + Eq + Compared<K, V, P, C>,
    C: Clone + Drop + Eq,
    I: Finder<K> = TagFinder<K>,
> {
    session: Session<E, K, V, P, S, W, A, I>,
    // the configuration with which the book was opened
    opening: Past<RawCacheConfig<C, S, W, A>>,
    shards: usize,
    shard: usize,
    history: Vec<(Command<K, V, P, Q, C>, Reply<K, V, P>)>,
    alloc: Global,
    ghost within: { shard < shards },
    ghost sharded: { shards ≡ opening.value.shards },
    ghost legal: { ∥ IsHistory (terms_of session) Q.picks Q.same
        opening.value shard history.items (session_of session) ∥₁ },
}

impl<
    E: Eviction<Config = C>,
    K: Key,
    V: Value + Clone + Eq,
    P: Properties + Clone + Eq,
    S: HashBuilder,
    W: Weighter<K, V>,
    A: Filter<K, V>,
    Q: Predicate<K, V> + Clone + Eq + Compared<K, V, P, C>,
    C: Clone + Drop + Eq,
    I: Finder<K>,
> Book<E, K, V, P, S, W, A, Q, C, I> {
    /// Makes an empty book of the shard of this number of a cache of this configuration, with that shard's capacity.
    ///
    /// # Errors
    /// F1 if the cache has no shards; F2 to F6 if the policy's configuration has a fault; F7 if memory runs out.
    pub fn new(alloc: Global, config: RawCacheConfig<C, S, W, A>, shard: usize) -> Result<Self>
        requires within { 0 < config.shards → shard < config.shards }
        ensures opening { IfOk result (λ book. book.opening.value ≡ config) }
        ensures shard { IfOk result (λ book. book.shard ≡ shard) }
        ensures history { IfOk result (λ book. book.history.items ≡ []) }
        ensures accepted { OnOk result (core_fault E.model config ≡ None) }
        ensures refused { IfSome (core_fault E.model config) (λ reason. result ≡ Err reason) }
        ensures memory { IfErr result (λ e. core_fault E.model config ≡ None → e ≡ NoMemory) }
    {
        if config.shards == 0 {
            return Err(Error::new(Reason::NoShards));
        }
        let opening = Past::of(&config);
        let shards = config.shards;
        let capacity = shard_capacity(config.capacity, shards, shard);
        let one_shard = RawCacheConfig {
            capacity,
            shards: 1,
            ..config
        };
        let core = CacheCore::with_index(alloc, one_shard)?;
        Ok(Book {
            session: Session::new(alloc, core),
            opening,
            shards,
            shard,
            history: Vec::new(alloc),
            alloc,
        })
    }

    /// Carries out a command, records it with its reply, and returns the number of the call in the history, from 0.
    ///
    /// The reply is that of a session to an equal command; if the command's key lives in another shard, it is
    /// `NotHeld`, and nothing else changes. It requires that clones of keys and of commands equal them.
    ///
    /// # Errors
    /// F7 if memory runs out; nothing has changed.
    pub fn apply(&mut self, command: Command<K, V, P, Q, C>) -> Result<u64>
        requires keys { (k c : K) → K.is_clone k c → K.eq c k ≡ true }
        requires commands { (k c : Command K V P Q C)
            → ⟦<Command<K, V, P, Q, C> as Clone>⟧.is_clone k c → Q.same c k ≡ true }
        ensures number { IfOk result (λ number. number ≡ length self.old.history.items) }
        ensures applied { IfOk result (λ _. (reply : Reply K V P)
            × (self.new.history.items ≡ self.old.history.items ++ (command, reply) ∷ [])
            × Call (terms_of self.old.session) Q.picks Q.same self.old.opening.value.shards self.old.shard
            (session_of self.old.session) command reply (session_of self.new.session)) }
        ensures same { (self.new.opening.value ≡ self.old.opening.value) × (self.new.shard ≡ self.old.shard) }
        ensures refused { IfErr result (λ e. e ≡ NoMemory) }
        ensures err { OnErr result ((self.new.history.items ≡ self.old.history.items) × (session_of self.new.session ≡ session_of self.old.session)) }
    {
        let Book {
            session,
            history,
            shards,
            shard,
            alloc,
            ..
        } = self;
        let Ok(()) = history.reserve(1) else {
            return Err(Error::new(Reason::NoMemory));
        };
        let reply = carry_out(session, *shards, *shard, *alloc, &command)?;
        let number = history.len() as u64;
        history.push_reserved((command, reply));
        Ok(number)
    }

    /// Returns the reply to the call of a number.
    pub fn reply(&self, number: u64) -> Option<&Reply<K, V, P>>
        ensures { MatchOption result (slice_get self.now.history.items number ≡ None)
            (λ reply. (c : Command K V P Q C) × (slice_get self.now.history.items number ≡ Some (c, reply.now))) }
    {
        match self.history.get(number as usize) {
            Some(call) => Some(&call.1),
            None => None,
        }
    }

    // Two copies of the reply to the call of a number, or none if memory runs out for one.
    pub(crate) fn copies(&self, number: u64) -> (Option<Reply<K, V, P>>, Option<Reply<K, V, P>>)
        ensures { (c : Command K V P Q C) (reply : Reply K V P) → slice_get self.now.history.items number ≡ Some (c, reply)
            → AreCopies ⟦<Reply<K, V, P> as Clone>⟧.is_clone reply result.0 result.1 }
    {
        match self.reply(number) {
            Some(reply) => two_copies(reply),
            None => (None, None),
        }
    }

    // Returns the history, which is legal from the opening state of the configuration.
    pub(crate) fn into_history(self) -> Vec<(Command<K, V, P, Q, C>, Reply<K, V, P>)>
        ensures history { result.items ≡ self.history.items }
        ensures legal { ∥ IsHistory (terms_of self.session) Q.picks Q.same
            self.opening.value self.shard result.items (session_of self.session) ∥₁ }
    {
        let Book { history, .. } = self;
        history
    }
}

// Two copies of a reply, or none if memory runs out for one.
fn two_copies<K: Key, V: Value + Clone, P: Properties + Clone>(
    reply: &Reply<K, V, P>,
) -> (Option<Reply<K, V, P>>, Option<Reply<K, V, P>>)
    ensures { AreCopies ⟦<Reply<K, V, P> as Clone>⟧.is_clone reply.now result.0 result.1 }
{
    let Ok(one) = reply.clone() else {
        return (None, None);
    };
    let Ok(other) = reply.clone() else {
        return (None, None);
    };
    (Some(one), Some(other))
}

// Carries out a clone of a command, for the shard of this number of so many. Fails only with F7.
fn carry_out<
    E: Eviction<Config = C>,
    K: Key,
    V: Value + Clone + Eq,
    P: Properties + Clone + Eq,
    S: HashBuilder,
    W: Weighter<K, V>,
    A: Filter<K, V>,
    Q: Predicate<K, V> + Clone + Eq + Compared<K, V, P, C>,
    C: Clone + Drop + Eq,
    I: Finder<K>,
>(
    session: &mut Session<E, K, V, P, S, W, A, I>,
    shards: usize,
    shard: usize,
    alloc: Global,
    command: &Command<K, V, P, Q, C>,
) -> Result<Reply<K, V, P>>
    requires keys { (k c : K) → K.is_clone k c → K.eq c k ≡ true }
    requires commands { (k c : Command K V P Q C)
        → ⟦<Command<K, V, P, Q, C> as Clone>⟧.is_clone k c → Q.same c k ≡ true }
    requires some { 0 < shards }
    ensures call { IfOk result (λ reply. Call (terms_of session.old) Q.picks Q.same shards shard
        (session_of session.old) command.now reply (session_of session.new)) }
    ensures refused { IfErr result (λ e. e ≡ NoMemory) }
    ensures err { OnErr result (session_of session.new ≡ session_of session.old) }
{
    if lives_elsewhere(session, shards, shard, command) {
        return Ok(Reply {
            answer: Answer::NotHeld,
            leaves: Leaves::none(alloc),
        });
    }
    let Ok(made) = command.clone() else {
        return Err(Error::new(Reason::NoMemory));
    };
    session.step(made)
}

// Whether a command's key lives in another shard.
fn lives_elsewhere<
    E: Eviction<Config = C>,
    K: Key,
    V: Value + Clone + Eq,
    P: Properties + Clone + Eq,
    S: HashBuilder,
    W: Weighter<K, V>,
    A: Filter<K, V>,
    Q: Predicate<K, V> + Clone + Eq + Compared<K, V, P, C>,
    C: Clone + Drop + Eq,
    I: Finder<K>,
>(
    session: &Session<E, K, V, P, S, W, A, I>,
    shards: usize,
    shard: usize,
    command: &Command<K, V, P, Q, C>,
) -> bool
    requires some { 0 < shards }
    ensures { result ≡ is_elsewhere (terms_of session.now) shards shard (session_of session.now) (key_of command.now) }
{
    match key(command) {
        Some(key) => session.hash(key) % shards as u64 != shard as u64,
        None => false,
    }
}

// The key that a command names.
fn key<K, V, P, Q, C>(command: &Command<K, V, P, Q, C>) -> Option<&K>
    ensures { MatchOption result (key_of command.now ≡ None) (λ key. key_of command.now ≡ Some key.now) }
{
    match command {
        Command::Insert(_, key, _, _) => Some(key),
        Command::Get(_, key) => Some(key),
        Command::Contains(_, key) => Some(key),
        Command::Touch(_, key) => Some(key),
        Command::Remove(key) => Some(key),
        Command::GetOrFetch(_, key, _) => Some(key),
        Command::Complete(_, key, _, _) => Some(key),
        Command::Fail(key, _, _) => Some(key),
        Command::Cancel(key, _) => Some(key),
        Command::FetchOrTake(key, _, _) => Some(key),
        Command::IsOpen(key, _) => Some(key),
        _ => None,
    }
}
