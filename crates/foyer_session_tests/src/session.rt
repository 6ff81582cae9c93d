//! Sessions whose keys and values are numbers, and the commands that no line of a script gives.

use foyer_core::{AdmitAll, CacheCore, CacheProperties, Limits, RawCacheConfig, UnitWeighter};
use foyer_policy::{Eviction, Fifo, FifoConfig, ModHasher};
use foyer_session::{Answer, Answers, Command, Predicate, Reply, Session};
use std::alloc::Global;
use std::process::Abort;
use std::test::Fail;

mod clones;
mod commands;
mod fetches;
mod keys;
mod policies;

type SessionOf<E> = Session<E, u64, u64, CacheProperties, ModHasher, UnitWeighter, AdmitAll>;

type CommandOf<C> = Command<u64, u64, CacheProperties, EvenKeys, C>;

type Plain = CommandOf<FifoConfig>;

type Told = Reply<u64, u64, CacheProperties>;

type Given = Answer<u64, u64, CacheProperties>;

// Picks the records of even keys.
#[derive(Clone, Copy, Debug, PartialEq)]
struct EvenKeys;

impl Predicate<u64, u64> for EvenKeys {
    ghost use Rattle.std.specs.Prelude.{◌≡◌, ◌%◌, ◌==◌};

    ghost picks = { λ _ key _ answer. answer ≡ (key % 2 == 0) };

    fn pick(&self, key: &u64, _value: &u64) -> bool {
        *key % 2 == 0
    }
}

// A session over an empty core of one shard, with the policy's default configuration.
fn session<E: Eviction>(alloc: Global, capacity: usize) -> Result<SessionOf<E>, Fail>
where
    E::Config: Default,
{
    session_with(alloc, capacity, E::Config::default())
}

// The same with this configuration.
fn session_with<E: Eviction>(
    alloc: Global,
    capacity: usize,
    eviction_config: E::Config,
) -> Result<SessionOf<E>, Fail> {
    let config = RawCacheConfig {
        capacity,
        shards: 1,
        eviction_config,
        hash_builder: ModHasher::default(),
        weighter: UnitWeighter,
        filter: AdmitAll,
        number: 0,
        limits: Limits::default(),
    };
    Ok(Session::new(alloc, CacheCore::new(alloc, config)?))
}

// A session in which the keys from 1 to this one came in, each with ten times its number as its value. The handle of
// the key 1 has the number 0.
fn filled(alloc: Global, last: u64) -> Result<SessionOf<Fifo>, Fail> {
    let mut session = session(alloc, 4)?;
    for key in 1..last + 1 {
        session.step(insert(key, 10 * key))?;
    }
    Ok(session)
}

fn insert<C>(key: u64, value: u64) -> CommandOf<C> {
    Command::Insert(0, key, value, CacheProperties::default())
}

// What a session answers to a command.
fn answer(session: &mut SessionOf<Fifo>, command: Plain) -> Result<Given, Fail> {
    Ok(session.step(command)?.answer)
}

// The number and the value of the handle that an answer hands out.
fn handed_out(answer: &Given) -> Option<(u64, u64)> {
    match answer {
        Answer::Entry { handle, record, .. } => Some((*handle, *record.value())),
        Answer::Found { handle, record } => Some((*handle, *record.value())),
        _ => None,
    }
}

// The keys of what left with a reply.
fn keys_that_left(alloc: Global, reply: &Told) -> Result<Vec<u64>, Fail> {
    let mut keys = Vec::new(alloc);
    for (_, left) in reply.leaves.as_slice() {
        keys.push(*left.key())?;
    }
    Ok(keys)
}

// Two waited, with the tokens 0 and 1, and got these handles.
fn assert_two_got(rt: &impl Abort, answers: &Answers, handles: [Option<u64>; 2]) {
    assert_eq!(rt; answers.len(), 2);
    for (at, handle) in handles.iter().enumerate() {
        assert_eq!(rt; answers.token(at), Some(at as u64));
        assert_eq!(rt; answers.handle(at), *handle);
    }
}
