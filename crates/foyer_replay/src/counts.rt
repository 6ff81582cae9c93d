//! What a replay counts.

ghost use Rattle.std.specs.Prelude.{◌≡◌, ◌+◌, ◌<◌, ◌^◌, IfSome, [], ◌∷◌};
ghost use Rattle.foyer_replay.specs.Counting.{hits_in, misses_in};

use crate::request::Outcome;

/// What a replay counts.
#[derive(Clone, Copy, Debug, Default, PartialEq, Eq)]
pub struct Counts {
    /// How many gets found their key.
    pub hits: u64,
    /// How many gets did not.
    pub misses: u64,
    /// The bytes of the gets that found their key.
    pub hit_bytes: u128,
    /// The bytes of those that did not.
    pub miss_bytes: u128,
    /// How many records were evicted to make room.
    pub evictions: u64,
    /// How many records had expired when they were evicted or replaced.
    pub expired: u64,
}

impl Counts {
    /// Counts the outcome of a request for so many bytes, which saturate.
    #[inline]
    pub fn add_outcome(&mut self, outcome: Outcome, size: u64)
        requires hits { self.old.hits + 1 < 2 ^ 64 }
        requires misses { self.old.misses + 1 < 2 ^ 64 }
        ensures hits { self.new.hits ≡ self.old.hits + hits_in (outcome ∷ []) }
        ensures misses { self.new.misses ≡ self.old.misses + misses_in (outcome ∷ []) }
    {
        match outcome {
            Outcome::Hit => {
                self.hits += 1;
                self.hit_bytes = self.hit_bytes.saturating_add(size as u128);
            }
            Outcome::Miss => {
                self.misses += 1;
                self.miss_bytes = self.miss_bytes.saturating_add(size as u128);
            }
            Outcome::Done => {}
        }
    }

    /// The sums of these counts and of others, or `None` if there are 2^64 hits or misses. The others saturate.
    pub fn plus(self, other: Counts) -> Option<Counts>
        ensures hits { IfSome result (λ sum. sum.hits ≡ self.hits + other.hits) }
        ensures misses { IfSome result (λ sum. sum.misses ≡ self.misses + other.misses) }
    {
        let hits = self.hits.checked_add(other.hits)?;
        let misses = self.misses.checked_add(other.misses)?;
        Some(Counts {
            hits,
            misses,
            hit_bytes: self.hit_bytes.saturating_add(other.hit_bytes),
            miss_bytes: self.miss_bytes.saturating_add(other.miss_bytes),
            evictions: self.evictions.saturating_add(other.evictions),
            expired: self.expired.saturating_add(other.expired),
        })
    }
}
