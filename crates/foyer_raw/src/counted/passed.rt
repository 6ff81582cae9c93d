//! What a call passes on to its shard. Nothing is computed with these, so none can be cut short or mixed up on the way.

ghost use Rattle.std.specs.Prelude.{◌≡◌, ◌+◌, ◌-◌, ◌<◌, ◌^◌, min};
ghost use Rattle.foyer_core.specs.Core.{share_of};

use foyer_core::shard_capacity;
use std::marker::Model;

/// A time, in the unit of the cache's callers.
#[derive(Clone, Copy)]
pub struct At(pub(super) u64);

impl At {
    /// The time `now`.
    #[inline(always)]
    pub fn new(now: u64) -> Self
        ensures { result.0 ≡ now }
    {
        At(now)
    }

    /// Returns when something expires that lives so long from this time on (at most 2^64 - 1).
    #[inline(always)]
    pub fn expiry(self, time_to_live: u64) -> u64
        ensures { result ≡ min (self.0 + time_to_live) (2 ^ 64 - 1) }
    {
        self.0.saturating_add(time_to_live)
    }
}

/// A total weight that records may have.
#[derive(Clone, Copy)]
pub struct Capacity(pub(super) usize);

impl Capacity {
    /// A capacity of this weight.
    pub fn new(weight: usize) -> Self
        ensures { result.0 ≡ weight }
    {
        Capacity(weight)
    }

    /// Returns the weight.
    pub fn weight(self) -> usize
        ensures { result ≡ self.0 }
    {
        self.0
    }

    /// Returns what one of so many shards gets of it.
    pub fn part(self, shards: usize, number: usize) -> Self
        requires { 0 < shards }
        ensures { result.0 ≡ share_of self.0 shards number }
    {
        Capacity(shard_capacity(self.0, shards, number))
    }
}

/// A key with its hash. Contracts see the pair of the hash and the key.
#[derive(Drop)]
pub struct Hashed<'a, K> {
    pub(super) hash: u64,
    pub(super) key: &'a K,
}

impl<'a, K> Model for Hashed<'a, K> {
    ghost use Rattle.std.specs.Prelude.{ℕ};

    ghost Value = { ℕ × K };

    ghost view = { λ h. (h.hash, h.key.now) };
}

impl<'a, K> Hashed<'a, K> {
    /// A key with this hash.
    #[inline(always)]
    pub fn new(hash: u64, key: &'a K) -> Self
        ensures { result ≡ (hash, key.now) }
    {
        Hashed { hash, key }
    }

    /// Returns the hash.
    #[inline(always)]
    pub fn hash(&self) -> u64
        ensures { result ≡ self.now.0 }
    {
        self.hash
    }

    /// Returns the key.
    #[inline(always)]
    pub fn key(&self) -> &'a K
        ensures { result.now ≡ self.now.1 }
    {
        self.key
    }

    /// Returns the same key with its hash.
    #[inline(always)]
    pub fn again(&self) -> Hashed<'a, K>
        ensures { result ≡ self.now }
    {
        Hashed {
            hash: self.hash,
            key: self.key,
        }
    }
}
