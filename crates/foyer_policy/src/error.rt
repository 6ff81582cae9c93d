//! Refusals: what kind each is of, its reason and its number.

ghost use Rattle.std.specs.Prelude.{◌≡◌, ◌⊎◌, [], string_bytes};
ghost use Rattle.foyer_policy.specs.Errors.{kind_of};

use std::alloc::{AllocError, AllocFailed, Global};
use std::marker::Model;
use std::sync::Arc;
use thiserror::Error as ThisError;

/// What kind of error it is.
#[derive(Clone, Copy, Debug, PartialEq, Eq, Hash)]
pub enum ErrorKind {
    /// A configuration that isn't accepted.
    Config,
    /// Out of memory.
    Memory,
    /// A limit of the cache.
    Limit,
    /// Something outside of the cache.
    External,
    /// A channel whose sender went.
    ChannelClosed,
    /// A task that was dropped.
    TaskCancelled,
}

/// The ratio of a configuration that is out of its range.
#[derive(Clone, Copy, Debug, PartialEq, Eq, Hash)]
pub enum Field {
    /// `high_priority_pool_ratio` of an `LruConfig`.
    HighPriorityPool,
    /// `window_capacity_ratio` of an `LfuConfig`.
    Window,
    /// `protected_capacity_ratio` of an `LfuConfig`.
    Protected,
    /// `small_queue_capacity_ratio` of an `S3FifoConfig`.
    SmallQueue,
}

/// What a fetch failed with.
#[derive(Clone, Debug, Drop, PartialEq, Eq)]
pub struct Fault {
    pub code: u64,
    pub message: String,
}

impl Fault {
    /// Returns a fault with this code and message.
    pub fn new(code: u64, message: String) -> Self
        ensures { result ≡ record { code = code; message = message } }
    {
        Fault { code, message }
    }

    /// Returns a fault with this code and this text as its message, or with no message if memory runs out.
    pub fn with_text(alloc: Global, code: u64, text: &str) -> Self
        ensures code { result.code ≡ code }
        ensures message { (string_bytes result.message ≡ text.now) ⊎ (string_bytes result.message ≡ []) }
    {
        let message = match String::from_str(alloc, text) {
            Ok(message) => message,
            Err(_) => String::new(alloc),
        };
        Fault { code, message }
    }
}

/// Why a call was refused.
#[derive(Clone, Debug, Drop, PartialEq, Eq, ThisError)]
pub enum Reason {
    #[error("the cache has no shards")]
    NoShards,
    #[error("a ratio has the denominator 0")]
    ZeroDenominator,
    #[error("a ratio is out of its range: {0:?}")]
    RatioRange(Field),
    #[error("the ratios of window and protected leave nothing to probation")]
    RatioSum,
    #[error("the sketch has no rows")]
    NoRows,
    #[error("the sketch has no buckets")]
    NoBuckets,
    #[error("out of memory")]
    NoMemory,
    #[error("the usage would pass the greatest number")]
    Weight,
    #[error("the handle count would pass its limit")]
    Handles,
    #[error("no number is left")]
    Ids,
    #[error("the fetch failed: {0:?}")]
    Fetch(Arc<Fault, Global>),
    #[error("a fetched piece has another key")]
    WrongKey,
    #[error("the fetch gave no value")]
    NoValue,
    #[error("the sender went without an answer")]
    ChannelClosed,
    #[error("the fetch task was dropped")]
    TaskCancelled,
    #[error("the answer was taken before")]
    Spent,
    #[error("the configuration is of another policy")]
    WrongPolicy,
}

/// Why a call failed. Contracts see its reason, which determines its kind.
#[derive(Debug, Drop, ThisError)]
#[error("{reason}")]
pub struct Error {
    kind: ErrorKind,
    reason: Reason,
}

impl Model for Error {
    ghost use Rattle.foyer_policy.specs.declared.error.Reason.{Reason};

    ghost Value = { Reason };

    ghost use Rattle.std.specs.Prelude.{◌≡◌};
    ghost use Rattle.foyer_policy.specs.Errors.{kind_of};

    ghost view = { λ e. e.reason };

    ghost invariant = { λ e. e.kind ≡ kind_of e.reason };
}

impl Clone for Error {
    ghost use Rattle.foyer_policy.specs.Errors.{SameReason, HasNoFault};

    ghost is_clone = { SameReason };

    ghost is_infallible = { HasNoFault };

    /// Returns the same error. A fault is shared, which fails if its reference count is full.
    fn clone(&self) -> std::result::Result<Error, AllocError> {
        Ok(Error {
            kind: self.kind,
            reason: self.reason.clone()?,
        })
    }
}

impl PartialEq for Error {
    ghost use Rattle.foyer_policy.specs.contracts.error.ReasonPartialEq.TheImpl.Laws.{laws-law};

    ghost eq = { ⟦<Reason as PartialEq>⟧.eq };

    ghost laws = { laws-law };

    fn eq(&self, other: &Error) -> bool {
        self.reason == other.reason
    }
}

impl Eq for Error {
    ghost use Rattle.foyer_policy.specs.contracts.error.ReasonEq.TheImpl.Laws.{laws-law};

    ghost laws = { laws-law };
}

impl From<AllocError> for Error {
    ghost use Rattle.foyer_policy.specs.declared.error.Reason.TheVariants.{NoMemory};

    ghost from_gives = { λ _ e. e ≡ NoMemory };

    fn from(_refused: AllocError) -> Error {
        Error::new(Reason::NoMemory)
    }
}

impl<T: Drop> From<AllocFailed<T>> for Error {
    ghost use Rattle.foyer_policy.specs.declared.error.Reason.TheVariants.{NoMemory};

    ghost from_gives = { λ _ e. e ≡ NoMemory };

    fn from(_refused: AllocFailed<T>) -> Error {
        Error::from(AllocError)
    }
}

/// What calls of the cache return.
pub type Result<T> = std::result::Result<T, Error>;

impl Error {
    ghost use Rattle.foyer_policy.specs.Errors.{kind_of, number_of};

    /// Creates an error with this reason.
    pub fn new(reason: Reason) -> Self
        ensures { result ≡ reason }
    {
        Error {
            kind: kind(&reason),
            reason,
        }
    }

    /// Returns the kind.
    pub fn kind(&self) -> ErrorKind
        ensures { result ≡ kind_of self.now }
    {
        self.kind
    }

    /// Returns the reason.
    pub fn reason(&self) -> &Reason
        ensures { result.now ≡ self.now }
    {
        &self.reason
    }

    /// Returns the number: 7 for F7.
    pub fn number(&self) -> u8
        ensures { result ≡ number_of self.now }
    {
        match &self.reason {
            Reason::NoShards => 1,
            Reason::ZeroDenominator => 2,
            Reason::RatioRange(_) => 3,
            Reason::RatioSum => 4,
            Reason::NoRows => 5,
            Reason::NoBuckets => 6,
            Reason::NoMemory => 7,
            Reason::Weight => 8,
            Reason::Handles => 9,
            Reason::Ids => 10,
            Reason::Fetch(_) => 11,
            Reason::WrongKey => 12,
            Reason::NoValue => 13,
            Reason::ChannelClosed => 14,
            Reason::TaskCancelled => 15,
            Reason::Spent => 16,
            Reason::WrongPolicy => 17,
        }
    }
}

// What a reason has to do with.
fn kind(reason: &Reason) -> ErrorKind
    ensures { result ≡ kind_of reason.now }
{
    match reason {
        Reason::NoShards
        | Reason::ZeroDenominator
        | Reason::RatioRange(_)
        | Reason::RatioSum
        | Reason::NoRows
        | Reason::NoBuckets
        | Reason::WrongPolicy => ErrorKind::Config,
        Reason::NoMemory => ErrorKind::Memory,
        Reason::Weight | Reason::Handles | Reason::Ids => ErrorKind::Limit,
        Reason::Fetch(_) | Reason::WrongKey | Reason::NoValue | Reason::Spent => {
            ErrorKind::External
        }
        Reason::ChannelClosed => ErrorKind::ChannelClosed,
        Reason::TaskCancelled => ErrorKind::TaskCancelled,
    }
}
