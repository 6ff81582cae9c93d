//! Requests of a trace.

use foyer_core::Weighter;

/// What a request asks of the cache.
#[derive(Clone, Copy, Debug, Default, PartialEq, Eq)]
pub enum Operation {
    /// Looks the key up, and inserts it if it is missing.
    #[default]
    Get,
    /// Inserts the key, in the place of its record if it has one.
    Put,
    /// Removes the key.
    Remove,
}

/// One request of a trace.
#[derive(Clone, Copy, Debug, Default, PartialEq, Eq)]
pub struct Request {
    /// The key.
    pub key: u64,
    /// The current time, in the trace's unit.
    pub time: u64,
    /// What the record weighs if it is inserted.
    pub weight: u64,
    /// When the record expires if it is inserted, in the trace's unit.
    pub expiry: Option<u64>,
    /// How many bytes the request is counted as.
    pub size: u64,
    /// What the request asks.
    pub operation: Operation,
}

/// What the cache replied to a request.
#[derive(Clone, Copy, Debug, PartialEq, Eq)]
pub enum Outcome {
    /// A get found its key.
    Hit,
    /// A get found no record, and inserted one.
    Miss,
    /// A put or a remove was carried out.
    Done,
}

/// Requests in a row.
pub trait Requests {
    ghost use Rattle.std.specs.Prelude.{◌≡◌, ℕ};
    ghost use Rattle.foyer_replay.specs.declared.request.Request.{Request};

    // the request at a place
    ghost nth: { Self → ℕ → Request };

    // how many there are
    ghost count: { Self → ℕ };

    /// Returns how many requests there are.
    fn len(&self) -> usize
        ensures { result ≡ count self.now };

    /// Returns the request at a place. Behind the last one it may be any.
    fn request(&self, place: usize) -> Request
        ensures { result ≡ nth self.now place };
}

/// Gives a record the weight that its request has.
#[derive(Clone, Copy, Debug, Default)]
pub struct RequestWeighter;

impl<K> Weighter<K, u64> for RequestWeighter {
    ghost use Rattle.std.specs.Prelude.{◌≡◌};

    ghost weighs = { λ _ _ value weight. weight ≡ value };

    #[inline]
    fn weigh(&self, _key: &K, value: &u64) -> usize {
        *value as usize
    }
}
