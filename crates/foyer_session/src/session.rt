//! A cache for one thread, with the handles and the pieces that it handed out.

ghost use Rattle.std.specs.Prelude.{◌≡◌, ◌+◌, ◌*◌, ◌<◌, ◌≤◌, [], ◌∷◌, true, IfOk, IfErr, OnOk, OnErr, vec_len, vec_capacity};
ghost use Rattle.foyer_policy.specs.declared.error.Reason.TheVariants.{NoMemory};
ghost use Rattle.foyer_core.specs.Cores.{core_of, fetches_of};
ghost use Rattle.foyer_core.specs.Idle.{NoneOpen};
ghost use Rattle.foyer_session.specs.Owns.{OwnsHandles};
ghost use Rattle.foyer_session.specs.Waits.{SoManyWait};

use crate::command::{Answer, Command, Reply};
use crate::predicate::Predicate;
use foyer_core::{CacheCore, Filter, Finder, Piece, TagFinder, Weighter};
use foyer_policy::{Error, Eviction, HashBuilder, Key, Properties, Reason, Result, Value};
use std::alloc::Global;

mod bulk;
mod fetches;
mod handle;
mod held;
mod insertion;
mod keys;
mod piece;
mod ready;
mod waiters;

use handle::Handle;
use ready::Ready;

/// A core with the handles that it handed out, each held or dropped, and the pieces, which stay held.
///
/// It carries out commands, which name handles and pieces by their numbers. `I` is the index of each shard. Contracts
/// see a `SessionState`. A session that is dropped drops its handles with its core, and reports nothing.
#[derive(Drop)]
pub struct Session<
    E: Eviction,
    K: Key,
    V: Value,
    P: Properties,
    S: HashBuilder,
    W: Weighter<K, V>,
    A: Filter<K, V>,
    I: Finder<K> = TagFinder<K>,
> {
    core: CacheCore<E, K, V, P, S, W, A, (), u64, I>,
    handles: Vec<Handle<K, V, P>>,
    pieces: Vec<Piece<K, V, P>>,
    // how many tokens wait, in all shards together
    waiting: usize,
    alloc: Global,
    ghost owns: { ∥ OwnsHandles (core_of core) handles.items ∥₁ },
    ghost waits: { ∥ SoManyWait (fetches_of core) waiting ∥₁ },
    // there is room for a handle for each waiter
    ghost room: { vec_len handles + waiting ≤ vec_capacity handles },
}

impl<
    E: Eviction,
    K: Key,
    V: Value,
    P: Properties,
    S: HashBuilder,
    W: Weighter<K, V>,
    A: Filter<K, V>,
    I: Finder<K>,
> Session<E, K, V, P, S, W, A, I> {
    ghost use Rattle.foyer_core.specs.Core.{usage_of_core, entries_of_core};
    ghost use Rattle.foyer_session.specs.Ledger.{AreAnswered, IsAnswered, IsSettled};
    ghost use Rattle.foyer_session.specs.Observed.{IsTold};
    ghost use Rattle.foyer_session.specs.Run.{Run};
    ghost use Rattle.foyer_session.specs.Sessions.{session_of, meaning_of_session, taken, terms_of};
    ghost use Rattle.foyer_session.specs.Step.{NumberStep, Step};

    /// Makes a session over a core, with no handles and no pieces. It requires that no fetch is open, as in a new
    /// core, since the session couldn't answer its waiters.
    pub fn new(alloc: Global, core: CacheCore<E, K, V, P, S, W, A, (), u64, I>) -> Self
        requires idle { NoneOpen (fetches_of core) }
        ensures core { (session_of result).core ≡ core_of core }
        ensures handles { (session_of result).handles ≡ [] }
        ensures pieces { (session_of result).pieces ≡ [] }
        ensures fetches { (session_of result).fetches ≡ fetches_of core }
    {
        Session {
            core,
            handles: Vec::new(alloc),
            pieces: Vec::new(alloc),
            waiting: 0,
            alloc,
        }
    }

    /// Carries out commands in order, and returns their replies.
    ///
    /// The replies tell which record each key has: a record that isn't phantom is in the index from the reply that
    /// inserted it until the one that reports its removal. Each token that waited or was issued waits afterwards, or
    /// was answered once: with a handle of the record that the same reply inserted for its key, with nothing, or with
    /// the error that ended its fetch. It requires that a clone of a key equals it.
    ///
    /// # Errors
    /// F7 if memory runs out before the first command; nothing has changed.
    pub fn run<Q: Predicate<K, V>>(
        &mut self,
        commands: Vec<Command<K, V, P, Q, E::Config>>,
    ) -> Result<Vec<Reply<K, V, P>>>
        requires clones { (k c : K) → K.is_clone k c → K.eq c k ≡ true }
        ensures run { IfOk result (λ replies.
            Run (terms_of self.old) Q.picks (session_of self.old) commands.items replies.items (session_of self.new)) }
        ensures told { IfOk result (λ replies. IsTold (terms_of self.old) (session_of self.old) replies.items (session_of self.new)) }
        ensures settled { IfOk result (λ replies. IsSettled (terms_of self.old) (session_of self.old) commands.items replies.items (session_of self.new)) }
        ensures answered { IfOk result (λ replies. AreAnswered (terms_of self.old) (session_of self.old) commands.items replies.items (session_of self.new)) }
        ensures refused { IfErr result (λ e. e ≡ NoMemory) }
        ensures err { OnErr result (session_of self.new ≡ session_of self.old) }
    {
        let count = commands.len();
        let all = ready::ready_all(self.alloc, commands)?;
        let Ok(mut replies) = Vec::with_capacity(self.alloc, count) else {
            return Err(Error::new(Reason::NoMemory));
        };
        self.make_room(count)?;
        for ready in all {
            let reply = self.carry_out(ready);
            replies.push_reserved(reply);
        }
        Ok(replies)
    }

    /// Carries out one command, and returns its reply, of which the same holds as of those of `run`. It requires that
    /// a clone of a key equals it.
    ///
    /// # Errors
    /// F7 if memory runs out before the command; nothing has changed.
    pub fn step<Q: Predicate<K, V>>(
        &mut self,
        command: Command<K, V, P, Q, E::Config>,
    ) -> Result<Reply<K, V, P>>
        requires clones { (k c : K) → K.is_clone k c → K.eq c k ≡ true }
        ensures step { IfOk result (λ reply.
            Step (terms_of self.old) Q.picks (session_of self.old) command reply.answer reply.leaves (session_of self.new)) }
        ensures told { IfOk result (λ reply. IsTold (terms_of self.old) (session_of self.old) (reply ∷ []) (session_of self.new)) }
        ensures settled { IfOk result (λ reply. IsSettled (terms_of self.old) (session_of self.old) (command ∷ []) (reply ∷ []) (session_of self.new)) }
        ensures answered { IfOk result (λ reply. IsAnswered (terms_of self.old) (session_of self.old) command reply.answer (session_of self.new)) }
        ensures refused { IfErr result (λ e. e ≡ NoMemory) }
        ensures err { OnErr result (session_of self.new ≡ session_of self.old) }
    {
        let ready = Ready::new(self.alloc, command)?;
        self.make_room(1)?;
        Ok(self.carry_out(ready))
    }

    /// Returns the sum of the weights of the records in the index, expired or not.
    pub fn usage(&self) -> u128
        ensures { result ≡ usage_of_core (meaning_of_session self.now) (session_of self.now).core }
    {
        self.core.usage()
    }

    /// Returns how many records are in the index, expired or not.
    pub fn entries(&self) -> u128
        ensures { result ≡ entries_of_core (meaning_of_session self.now) (session_of self.now).core }
    {
        self.core.entries()
    }

    /// Returns the hash of a key. The key's shard is the hash modulo the number of shards.
    pub fn hash(&self, key: &K) -> u64
        ensures { result ≡ (terms_of self.now).hash (session_of self.now).core.hash_builder key.now }
    {
        self.core.hash(key)
    }

    // Makes room for what so many commands may hand out, two handles and one piece each, and for a handle for each
    // waiter. Fails only with F7.
    fn make_room(&mut self, commands: usize) -> Result<()>
        ensures session { session_of self.new ≡ session_of self.old }
        ensures handles { OnOk result (taken self.new + 2 * commands ≤ vec_capacity self.new.handles) }
        ensures taken { taken self.new ≡ taken self.old }
        ensures pieces { OnOk result (vec_len self.new.pieces + commands ≤ vec_capacity self.new.pieces) }
        ensures refused { IfErr result (λ e. e ≡ NoMemory) }
    {
        let Some(more) = commands.checked_mul(2) else {
            return Err(Error::new(Reason::NoMemory));
        };
        let Some(handles) = more.checked_add(self.waiting) else {
            return Err(Error::new(Reason::NoMemory));
        };
        let Ok(()) = self.handles.reserve(handles) else {
            return Err(Error::new(Reason::NoMemory));
        };
        let Ok(()) = self.pieces.reserve(commands) else {
            return Err(Error::new(Reason::NoMemory));
        };
        Ok(())
    }

    // Replies with a number, and changes nothing.
    fn tell_number(&self, number: u128) -> Reply<K, V, P>
        ensures { NumberStep number (session_of self.now) result.answer result.leaves (session_of self.now) }
    {
        Reply::new(Answer::Number(number), Vec::new(self.alloc))
    }

    // Carries out a command for which all room is made.
    fn carry_out<Q: Predicate<K, V>>(
        &mut self,
        ready: Ready<K, V, P, Q, E::Config>,
    ) -> Reply<K, V, P>
        requires clones { (k c : K) → K.is_clone k c → K.eq c k ≡ true }
        requires room { taken self.old < vec_capacity self.old.handles }
        requires piece { vec_len self.old.pieces < vec_capacity self.old.pieces }
        ensures step { Step (terms_of self.old) Q.picks
            (session_of self.old) ready.command result.answer result.leaves (session_of self.new) }
        ensures taken { taken self.new ≤ taken self.old + 1 }
        ensures capacity { vec_capacity self.new.handles ≡ vec_capacity self.old.handles }
        ensures pieces_len { vec_len self.new.pieces ≤ vec_len self.old.pieces + 1 }
        ensures pieces_capacity { vec_capacity self.new.pieces ≡ vec_capacity self.old.pieces }
    {
        let Ready { command, leaves } = ready;
        match command {
            Command::Insert(now, key, value, properties) => {
                self.insert(now, key, value, properties)
            }
            Command::Get(now, key) => self.get(now, &key),
            Command::Contains(now, key) => self.contains(now, &key),
            Command::Touch(now, key) => self.touch(now, &key),
            Command::Remove(key) => self.remove(&key, leaves),
            Command::Clone(number) => self.clone_handle(number),
            Command::Drop(number) => self.give_back(number, leaves),
            Command::TakePiece(number) => self.take_piece(number),
            Command::InsertPiece(now, number) => self.insert_piece(now, number),
            Command::Refs(number) => self.refs(number),
            Command::Outdated(number) => self.is_outdated(number),
            Command::GetOrFetch(now, key, later) => self.get_or_fetch(now, &key, later),
            Command::Complete(now, key, fetch, end) => self.complete(now, &key, fetch, end),
            Command::Fail(key, fetch, fault) => self.end(&key, fetch, Some(fault)),
            Command::Cancel(key, fetch) => self.end(&key, fetch, None),
            Command::FetchOrTake(key, fetch, outcome) => {
                self.fetch_or_take(&key, fetch, outcome)
            }
            Command::IsOpen(key, fetch) => self.is_open(&key, fetch),
            Command::Clear => self.clear(),
            Command::EvictAll(now) => self.evict_all(now),
            Command::FlushIf(predicate) => self.flush_if(&predicate),
            Command::Resize(now, capacity) => self.resize(now, capacity),
            Command::Reconfigure(config) => self.reconfigure(&config),
            Command::Capacity => self.tell_number(self.core.capacity() as u128),
            Command::Usage => self.tell_number(self.core.usage()),
            Command::Entries => self.tell_number(self.core.entries()),
        }
    }
}
