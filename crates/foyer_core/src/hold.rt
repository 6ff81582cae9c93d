//! Handles by name, and what is read of a record that is named.

ghost use Rattle.std.specs.Prelude.{◌≡◌, not};

use crate::slot::Slot;
use std::marker::Model;

/// The name of a record in its shard, which has no share of the record's data, and fits three words.
///
/// A handle that `hold` counts by it must be spent, by `unhold` of its core. A copy is the same handle, and not one more.
#[derive(Clone, Copy, Debug, PartialEq, Eq)]
pub struct Hold {
    /// The key's hash, which picks the shard.
    pub hash: u64,
    /// The record's id, which its shard gives once.
    pub id: u64,
    /// The slot that the record may be in. It saves a search; another number does no harm.
    pub slot: usize,
}

/// A record that a shard has, for reading while the shard isn't changed.
#[derive(Drop)]
pub struct RecordRef<'a, K, V, P> {
    slot: &'a Slot<K, V, P>,
}

impl<'a, K, V, P> Model for RecordRef<'a, K, V, P> {
    ghost use Rattle.foyer_core.specs.Values.{Kept};

    ghost Value = { Kept K V P };

    ghost view = { λ r. r.slot.now };
}

impl<'a, K: Drop, V: Drop, P: Drop> RecordRef<'a, K, V, P> {
    #[inline(always)]
    pub(crate) fn new(slot: &'a Slot<K, V, P>) -> Self
        ensures { result ≡ slot.now }
    {
        RecordRef { slot }
    }

    /// Returns the key.
    #[inline(always)]
    pub fn key(&self) -> &'a K
        ensures { result.now ≡ self.now.kept.key }
    {
        self.slot.key()
    }

    /// Returns the value.
    #[inline(always)]
    pub fn value(&self) -> &'a V
        ensures { result.now ≡ self.now.kept.value }
    {
        self.slot.value()
    }

    /// Returns the properties.
    #[inline(always)]
    pub fn properties(&self) -> &'a P
        ensures { result.now ≡ self.now.kept.properties }
    {
        self.slot.properties()
    }

    /// Returns the key's hash.
    #[inline(always)]
    pub fn hash(&self) -> u64
        ensures { result ≡ self.now.kept.hash }
    {
        self.slot.hash()
    }

    /// Returns the weight.
    #[inline(always)]
    pub fn weight(&self) -> usize
        ensures { result ≡ self.now.kept.weight }
    {
        self.slot.weight()
    }

    /// Returns how many handles the record has.
    #[inline(always)]
    pub fn refs(&self) -> usize
        ensures { result ≡ self.now.handles }
    {
        self.slot.handles()
    }

    /// Returns whether the record is no longer resident: it left, or was replaced.
    #[inline(always)]
    pub fn is_outdated(&self) -> bool
        ensures { result ≡ not self.now.resident }
    {
        !self.slot.is_resident()
    }
}
