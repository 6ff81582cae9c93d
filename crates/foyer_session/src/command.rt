//! The commands of a session, and its replies.

ghost use Rattle.std.specs.Prelude.{◌≡◌, []};

use crate::answers::Answers;
use foyer_core::Left;
use foyer_policy::{Error, Event, Fault, Source};
use std::alloc::Global;
use std::marker::Model;
use std::sync::Arc;

mod alike;

/// A command to a session. It names handles and pieces by their numbers, from 0 in the order in which they were
/// handed out.
///
/// If the first number is `now`, it is the current time in any unit: a record that has expired by then is a miss, and
/// is the first to be evicted. Times may go back. `Q` is the predicate of `FlushIf`, and `C` the configuration of the
/// cache's policy.
#[derive(Clone, Debug, Drop, PartialEq, Eq)]
pub enum Command<K, V, P, Q, C> {
    /// Inserts, at `now`, a record with this key, value and properties.
    Insert(u64, K, V, P),
    /// Looks the key up at `now`, and takes a handle of its record.
    Get(u64, K),
    /// Asks whether the key is a hit at `now`.
    Contains(u64, K),
    /// Uses the key's record at `now`, like a `Get` whose handle is dropped at once.
    Touch(u64, K),
    /// Removes the key's record, expired or not, and takes a handle of it.
    Remove(K),
    /// Clones the handle of this number.
    Clone(u64),
    /// Drops the handle of this number.
    Drop(u64),
    /// Takes a piece of the record of the handle of this number. The piece stays held.
    TakePiece(u64),
    /// Inserts, at `now`, a clone of the piece of this number. The piece stays held.
    InsertPiece(u64, u64),
    /// Asks how many handles the record of the handle of this number has.
    Refs(u64),
    /// Asks whether the record of the handle of this number is no longer in the index.
    Outdated(u64),
    /// Looks the key up at `now`, and on a miss takes a token and waits for the key's fetch. If none is open, the
    /// caller leads a new one. The label stands for a builder that the caller brings.
    GetOrFetch(u64, K, Option<u64>),
    /// Completes, at `now`, the key's fetch of this id.
    Complete(u64, K, u64, End<V, P>),
    /// Ends the key's fetch of this id with a fault.
    Fail(K, u64, Arc<Fault, Global>),
    /// Ends the key's fetch of this id, whose task was dropped.
    Cancel(K, u64),
    /// Says that the key's fetch of this id found nothing, or failed with the fault. It goes on with the builder that
    /// is kept, or ends if there is none.
    FetchOrTake(K, u64, Option<Arc<Fault, Global>>),
    /// Asks whether the key's fetch of this id is open.
    IsOpen(K, u64),
    /// Removes all records.
    Clear,
    /// Evicts all records that aren't pinned, those that have expired at `now` first.
    EvictAll(u64),
    /// Evicts the records that the predicate picks, pinned or not.
    FlushIf(Q),
    /// Sets the capacity, and evicts to it at `now`.
    Resize(u64, usize),
    /// Gives each shard's policy another configuration; nothing is evicted. F17 if it is another policy's, F2 to F6
    /// if it has a fault.
    Reconfigure(C),
    /// Asks for the capacity.
    Capacity,
    /// Asks for the sum of the weights of the records in the index, expired or not.
    Usage,
    /// Asks how many records are in the index, expired or not.
    Entries,
}

/// What a fetch found.
#[derive(Clone, Debug, Drop, PartialEq, Eq)]
pub enum End<V, P> {
    /// A value, its properties, and where it came from.
    Value(V, P, Source),
    /// The piece of this number, which stays held.
    PieceNo(u64),
}

/// The records that were removed, in order, each with its event.
#[derive(Drop)]
pub struct Leaves<K, V, P> {
    items: Vec<(Event, Left<K, V, P>)>,
}

impl<K, V, P> Model for Leaves<K, V, P> {
    ghost use Rattle.std.specs.Prelude.{List};
    ghost use Rattle.foyer_policy.specs.declared.types.Event.{Event};
    ghost use Rattle.foyer_core.specs.Values.{Gone};

    ghost Value = { List (Event × Gone K V P) };

    ghost view = { λ l. l.items.items };
}

impl<K, V, P> Leaves<K, V, P> {
    pub(crate) fn new(items: Vec<(Event, Left<K, V, P>)>) -> Self
        ensures { result ≡ items.items }
    {
        Leaves { items }
    }

    /// Makes an empty list.
    pub fn none(alloc: Global) -> Self
        ensures { result ≡ [] }
    {
        Leaves::new(Vec::new(alloc))
    }

    /// Returns the records, each with its event.
    pub fn as_slice(&self) -> &[(Event, Left<K, V, P>)]
        ensures { result.now ≡ self.now }
    {
        self.items.as_slice()
    }
}

/// The answer to a command.
#[derive(Clone, Drop, PartialEq)]
pub enum Answer<K, V, P> {
    /// To `Insert` or `InsertPiece`: the record was inserted.
    Entry {
        /// The number of its handle.
        handle: u64,
        /// The record.
        record: Left<K, V, P>,
        /// The key's waiters, who got handles too.
        answers: Answers,
    },
    /// To `Get`, `GetOrFetch`, `Remove` or `Clone`: a handle.
    Found {
        /// The number of the new handle.
        handle: u64,
        /// The record.
        record: Left<K, V, P>,
    },
    /// To `Get`: a miss. To `Remove`: the key isn't in the index.
    Missing,
    /// To `GetOrFetch`: a miss with no open fetch. The caller leads a new one, and waits for it.
    Lead {
        /// The fetch's id.
        fetch: u64,
        /// The number of the token.
        token: u64,
    },
    /// To `GetOrFetch`: a miss with an open fetch. The caller waits for it.
    Wait {
        /// The number of the token.
        token: u64,
    },
    /// To `Complete`, `Fail`, `Cancel` or `FetchOrTake`: the fetch has ended.
    Answered {
        /// What the waiters got.
        answers: Answers,
        /// The record of their handles, if they got any.
        record: Option<Left<K, V, P>>,
    },
    /// To `FetchOrTake`: the label of the builder that was kept. The fetch goes on with it.
    Later(u64),
    /// To `Complete`, `Fail`, `Cancel` or `FetchOrTake`: that fetch is not open. Nothing has changed.
    Lost,
    /// To `Contains` or `Touch`: a hit. To `Outdated`: the record is no longer in the index. To `IsOpen`: that fetch
    /// is open.
    Yes,
    /// To `Contains` or `Touch`: a miss. To `Outdated`: the record is in the index. To `IsOpen`: that fetch is not
    /// open.
    No,
    /// To `Drop`, `Clear`, `EvictAll`, `FlushIf`, `Resize` or `Reconfigure`: done.
    Done,
    /// To `Refs`, `Capacity`, `Usage` or `Entries`: the number.
    Number(u128),
    /// To `TakePiece`: the number of the new piece.
    PieceNo(u64),
    /// To a command that names a handle or a piece: none with this number is held. Nothing has changed.
    NotHeld,
    /// To a command that failed: why. After F7, `Insert`, `InsertPiece`, `EvictAll` and `Resize` may have evicted
    /// some records, which the reply has; else nothing has changed, but that `Resize` sets the capacity all the same.
    Refused(Error),
}

/// The reply to a command.
#[derive(Clone, Drop, PartialEq)]
pub struct Reply<K, V, P> {
    /// The answer.
    pub answer: Answer<K, V, P>,
    /// The records that were removed.
    pub leaves: Leaves<K, V, P>,
}

impl<K, V, P> Reply<K, V, P> {
    pub(crate) fn new(answer: Answer<K, V, P>, leaves: Vec<(Event, Left<K, V, P>)>) -> Self
        ensures answer { result.answer ≡ answer }
        ensures leaves { result.leaves ≡ leaves.items }
    {
        Reply {
            answer,
            leaves: Leaves::new(leaves),
        }
    }
}
