//! A caller of a session.

ghost use Rattle.std.specs.Prelude.{◌≡◌, IfOk, OnErr};
ghost use Rattle.foyer_session.specs.Observed.{IsTold};
ghost use Rattle.foyer_session.specs.Sessions.{session_of, terms_of};

use foyer_core::{AdmitAll, CacheProperties, UnitWeighter};
use foyer_policy::{DefaultHasher, Lru, LruConfig, Result};
use foyer_session::{Command, NoPredicate, Reply, Session};
use std::alloc::Global;

/// A session over an LRU cache of numbers.
pub type Numbers = Session<Lru, u64, u64, CacheProperties, DefaultHasher, UnitWeighter, AdmitAll>;

/// A command to it.
pub type Ask = Command<u64, u64, CacheProperties, NoPredicate, LruConfig>;

/// Inserts a value and looks it up. The replies tell which record each key finds afterwards; on F7 (out of memory)
/// nothing has changed.
pub fn put_and_look(
    numbers: &mut Numbers,
    alloc: Global,
    now: u64,
    key: u64,
    value: u64,
) -> Result<Vec<Reply<u64, u64, CacheProperties>>>
    ensures told { IfOk result (λ replies. IsTold (terms_of numbers.old) (session_of numbers.old) replies.items (session_of numbers.new)) }
    ensures err { OnErr result (session_of numbers.new ≡ session_of numbers.old) }
{
    let mut asks: Vec<Ask> = Vec::with_capacity(alloc, 2)?;
    asks.push_reserved(Command::Insert(now, key, value, CacheProperties::default()));
    asks.push_reserved(Command::Get(now, key));
    numbers.run(asks)
}
