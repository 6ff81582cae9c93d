//! What inserts, look-ups and ends of fetches return.

ghost use Rattle.std.specs.Prelude.{◌≡◌, ◌+◌, ◌≤◌, [], Err, IfOk, MatchResult, Ok, Some, true, vec_len, vec_capacity};
ghost use Rattle.foyer_core.specs.Looks.{look_of};
ghost use Rattle.foyer_core.specs.Onto.{shared_out};
ghost use Rattle.foyer_core.specs.Waited.{ending_of, entries_in, got_of, handed_out, lost};

use crate::entry::{CoreEntry, Leave};
use crate::hold::Hold;
use crate::piece::Piece;
use foyer_policy::{Error, Reason};
use std::alloc::Global;
use std::fmt::{self, Debug, Display};

/// Why an insert, a resize or an eviction failed, and what had left by then.
#[derive(Drop)]
pub struct Refused<K: Drop, V: Drop, P: Drop> {
    /// The error.
    pub error: Error,
    /// What left, in order.
    pub leaves: Vec<Leave<K, V, P>>,
}

impl<K: Drop, V: Drop, P: Drop> Refused<K, V, P> {
    pub(crate) fn new(reason: Reason, leaves: Vec<Leave<K, V, P>>) -> Self
        ensures error { result.error ≡ reason }
        ensures leaves { result.leaves ≡ leaves }
    {
        Refused {
            error: Error::new(reason),
            leaves,
        }
    }
}

/// A waiter with its token.
#[derive(Clone, Drop, PartialEq, Eq)]
pub struct Waiting<N> {
    /// The token's number.
    pub token: u64,
    /// The waiter.
    pub waiter: N,
}

/// How many entries an insert makes beside the first, and the spare room in their list.
#[derive(Clone, Copy)]
pub(crate) struct Further {
    /// The entries.
    pub(crate) count: usize,
    /// The spare room.
    pub(crate) room: usize,
}

/// Handles of an inserted record.
pub(crate) struct Handles<K: Drop, V: Drop, P: Drop> {
    /// The first.
    pub(crate) entry: CoreEntry<K, V, P>,
    /// The others.
    pub(crate) others: Vec<CoreEntry<K, V, P>>,
}

/// What the waiters of a key get.
pub enum Outcome<K, V, P> {
    /// An entry each, in the order of the waiters.
    Entries(Vec<CoreEntry<K, V, P>>),
    /// No entry.
    None,
    /// The same error each.
    Fault(Error),
}

impl<K: Drop, V: Drop, P: Drop> Outcome<K, V, P> {
    // One of the handles each, for which their list has room, or the same error each.
    fn of(came: Result<Handles<K, V, P>, Error>) -> Self
        requires room { IfOk came (λ made. vec_len made.others + 1 ≤ vec_capacity made.others) }
        ensures { got_of result ≡ shared_out came }
    {
        match came {
            Ok(Handles { entry, mut others }) => {
                others.push_reserved(entry);
                Outcome::Entries(others)
            }
            Err(error) => Outcome::Fault(error),
        }
    }
}

/// The waiters of a key, and what they get.
pub struct Answers<K, V, P, N> {
    /// The waiters, in order.
    pub waiters: Vec<Waiting<N>>,
    /// What they get.
    pub outcome: Outcome<K, V, P>,
}

/// What an insert returns.
pub struct Inserted<K: Drop, V: Drop, P: Drop, N> {
    /// An entry of the record.
    pub entry: CoreEntry<K, V, P>,
    /// What the key's waiters get.
    pub answers: Answers<K, V, P, N>,
    /// What left, in order.
    pub leaves: Vec<Leave<K, V, P>>,
}

/// What an insert returns that appends what leaves to a list.
pub struct InsertedOnto<K, V, P, N> {
    /// An entry of the record.
    pub entry: CoreEntry<K, V, P>,
    /// What the key's waiters get.
    pub answers: Answers<K, V, P, N>,
}

/// What an insert returns of which no entry is wanted, and that appends what leaves to a list.
pub struct PutOnto<K, V, P, N> {
    /// What left with the record's entry: the record, if it is phantom.
    pub last: Option<Leave<K, V, P>>,
    /// What the key's waiters get.
    pub answers: Answers<K, V, P, N>,
}

impl<K, V, P, N> Answers<K, V, P, N> {
    // Nobody waited.
    #[inline(always)]
    pub(crate) fn nobody(alloc: Global) -> Self
        ensures waiters { result.waiters.items ≡ [] }
        ensures entries { entries_in result.outcome ≡ Some [] }
    {
        Answers {
            waiters: Vec::new(alloc),
            outcome: Outcome::Entries(Vec::new(alloc)),
        }
    }

    /// Returns the waiters in order, and what they get: an entry each in the same order, an empty list if they get
    /// none, or the error that all of them get.
    pub fn into_parts(self) -> (Vec<Waiting<N>>, Result<Vec<CoreEntry<K, V, P>>, Error>)
        ensures waiters { result.0 ≡ self.waiters }
        ensures got { MatchResult result.1 (λ entries. handed_out self.outcome ≡ Ok entries.items) (λ error. handed_out self.outcome ≡ Err error) }
    {
        let Answers { waiters, outcome } = self;
        let got = match outcome {
            Outcome::Entries(entries) => Ok(entries),
            Outcome::None => Ok(Vec::new(*waiters.allocator())),
            Outcome::Fault(error) => Err(error),
        };
        (waiters, got)
    }
}

/// An entry that isn't the shard's.
#[derive(Clone, Copy)]
pub struct Foreign;

/// What a look-up finds.
pub enum Got<K, V, P> {
    /// An entry of the key's record.
    Hit(CoreEntry<K, V, P>),
    /// Nothing.
    Miss,
    /// A record that has as many handles as it may: F9.
    Full,
    /// A record, but a reference count is full: F7.
    OutOfMemory,
}

impl<K, V, P> Got<K, V, P> {
    /// Returns the entry, if there is one, or the refusal.
    #[inline(always)]
    pub fn into_result(self) -> Result<Option<CoreEntry<K, V, P>>, Error>
        ensures { result ≡ look_of self }
    {
        match self {
            Got::Hit(entry) => Ok(Some(entry)),
            Got::Miss => Ok(None),
            Got::Full => Err(Error::new(Reason::Handles)),
            Got::OutOfMemory => Err(Error::new(Reason::NoMemory)),
        }
    }
}

/// What a look-up returns that fetches a missing key.
pub enum Lookup<K, V, P, R> {
    /// An entry of the key's record.
    Hit(CoreEntry<K, V, P>),
    /// Nobody fetches the key: the caller leads a new fetch.
    Lead {
        /// The fetch's id.
        fetch: u64,
        /// The token that the leader waits with.
        token: u64,
        /// The leader's own builder.
        required: Option<R>,
    },
    /// The key has an open fetch.
    Wait {
        /// The token to wait with.
        token: u64,
    },
}

/// What a conditional insert returns.
pub enum ReplaceResult<K, V, P, N> {
    /// The key still had what was seen: the record was inserted.
    Inserted(InsertedOnto<K, V, P, N>),
    /// It hadn't, and nothing was inserted: a handle of the record that it has, if there is one.
    Changed(Option<Hold>),
}

/// What the end of a fetch returns.
pub struct Ended<K: Drop, V: Drop, P: Drop, N> {
    /// Whether the fetch was open. If it wasn't, nothing has changed.
    pub found: bool,
    /// What the waiters get.
    pub answers: Answers<K, V, P, N>,
    /// What left, in order.
    pub leaves: Vec<Leave<K, V, P>>,
}

impl<K: Drop, V: Drop, P: Drop, N> Ended<K, V, P, N> {
    // The end of a fetch that is not open.
    pub(crate) fn lost(alloc: Global) -> Self
        ensures { ending_of result ≡ lost }
    {
        Ended {
            found: false,
            answers: Answers {
                waiters: Vec::new(alloc),
                outcome: Outcome::None,
            },
            leaves: Vec::new(alloc),
        }
    }

    // The end of a fetch with these waiters: each gets one of the handles, or all get the error.
    pub(crate) fn found(
        waiters: Vec<Waiting<N>>,
        came: Result<Handles<K, V, P>, Error>,
        leaves: Vec<Leave<K, V, P>>,
    ) -> Self
        requires room { IfOk came (λ made. vec_len made.others + 1 ≤ vec_capacity made.others) }
        ensures { ending_of result ≡ record { found = true; waiters = waiters.items; outcome = shared_out came; leaves = leaves.items } }
    {
        Ended {
            found: true,
            answers: Answers {
                waiters,
                outcome: Outcome::of(came),
            },
            leaves,
        }
    }
}

impl<K: Drop, V: Drop, P: Drop> From<Refused<K, V, P>> for Error {
    ghost use Rattle.std.specs.Prelude.{◌≡◌};

    ghost from_gives = { λ refused error. error ≡ refused.error };

    /// Returns the error. What had left is dropped.
    fn from(refused: Refused<K, V, P>) -> Error {
        refused.error
    }
}

impl<K: Drop, V: Drop, P: Drop> Display for Refused<K, V, P> {
    fn fmt<W: fmt::Write>(&self, f: &mut fmt::Formatter<W>) -> fmt::Result {
        write!(f, "{}", self.error)
    }
}

impl<K: Drop, V: Drop, P: Drop> Debug for Refused<K, V, P> {
    fn fmt<W: fmt::Write>(&self, f: &mut fmt::Formatter<W>) -> fmt::Result {
        f.debug_struct("Refused")
            .field("error", &self.error)
            .finish()
    }
}

impl<K: Drop, V: Drop, P: Drop> std::error::Error for Refused<K, V, P> {}

/// What a fetch completes with.
#[derive(Drop)]
pub enum FetchTarget<K, V, P> {
    /// A value of the key, with its properties.
    Entry {
        /// The value.
        value: V,
        /// The properties.
        properties: P,
    },
    /// A piece of the key's record.
    Piece(Piece<K, V, P>),
}

impl<K, V, P: Default> From<V> for FetchTarget<K, V, P> {
    ghost use Rattle.std.specs.Prelude.{◌≡◌};
    ghost use Rattle.foyer_core.specs.declared.outcome.FetchTarget.TheVariants.{Entry};

    ghost from_gives = { λ value target. (properties : P) × P.is_default properties × (target ≡ Entry value properties) };

    /// A value, with default properties.
    fn from(value: V) -> Self {
        FetchTarget::Entry {
            value,
            properties: P::default(),
        }
    }
}

impl<K, V, P> From<(V, P)> for FetchTarget<K, V, P> {
    ghost use Rattle.std.specs.Prelude.{◌≡◌};
    ghost use Rattle.foyer_core.specs.declared.outcome.FetchTarget.TheVariants.{Entry};

    ghost from_gives = { λ made target. target ≡ Entry made.0 made.1 };

    /// A value with these properties.
    fn from(made: (V, P)) -> Self {
        let (value, properties) = made;
        FetchTarget::Entry { value, properties }
    }
}

impl<K, V, P> From<Piece<K, V, P>> for FetchTarget<K, V, P> {
    ghost use Rattle.std.specs.Prelude.{◌≡◌};
    ghost use Rattle.foyer_core.specs.declared.outcome.FetchTarget.TheVariants.{Piece as PieceOf};

    ghost from_gives = { λ piece target. target ≡ PieceOf piece };

    /// A piece.
    fn from(piece: Piece<K, V, P>) -> Self {
        FetchTarget::Piece(piece)
    }
}

impl<K, V, P> Debug for FetchTarget<K, V, P> {
    fn fmt<W: fmt::Write>(&self, f: &mut fmt::Formatter<W>) -> fmt::Result {
        f.debug_struct("FetchTarget").finish()
    }
}
