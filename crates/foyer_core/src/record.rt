//! The data of records, and limits.

ghost use Rattle.std.specs.Prelude.{◌≡◌, ◌+◌, ◌-◌, ◌<◌, ◌≤◌, ◌^◌, ◌↔◌, IfOk, OnErr, IfErr, true, false, IsTrue, Some, None, Ok};
ghost use Rattle.foyer_policy.specs.declared.error.Reason.TheVariants.{Handles, NoMemory};
ghost use Rattle.foyer_core.specs.Flags.{bits_of, union_of, Includes, with_flags};

use crate::share::Share;
use foyer_policy::{Error, Place, Reason, Result};
use std::alloc::Global;
use std::fmt::{self, Debug};
use std::marker::Model;

/// What was inserted, with its hash and its weight.
#[derive(Debug, Drop)]
pub struct Data<K, V, P> {
    /// The key.
    pub key: K,
    /// The value.
    pub value: V,
    /// The properties.
    pub properties: P,
    /// The key's hash.
    pub hash: u64,
    /// The weight.
    pub weight: usize,
}

/// A set of `IN_INDEXER` and `IN_EVICTION`, upstream's flags of a [`Record`]. No cache uses it.
#[derive(Clone, Copy, Debug, PartialEq, Eq, PartialOrd, Ord, Hash)]
pub struct Flags {
    in_eviction: bool,
    in_indexer: bool,
}

impl Flags {
    /// The record is in the index.
    pub const IN_INDEXER: Flags = Flags {
        in_eviction: false,
        in_indexer: true,
    };

    /// The record is in the policy.
    pub const IN_EVICTION: Flags = Flags {
        in_eviction: true,
        in_indexer: false,
    };

    /// Returns 1 for `IN_INDEXER`, 2 for `IN_EVICTION`, and the sum for both.
    pub fn bits(&self) -> u64
        ensures { result ≡ bits_of self.now }
    {
        let indexer = if self.in_indexer { 1 } else { 0 };
        let eviction = if self.in_eviction { 2 } else { 0 };
        indexer + eviction
    }

    /// Returns the flags that are in either set.
    pub fn union(self, other: Flags) -> Flags
        ensures { result ≡ union_of self other }
    {
        Flags {
            in_eviction: self.in_eviction || other.in_eviction,
            in_indexer: self.in_indexer || other.in_indexer,
        }
    }
}

/// A record as upstream has it, for callers that use its name. No cache uses it: a shard keeps its records in slots.
#[derive(Drop)]
pub struct Record<K, V, P> {
    kept: Share<K, V, P>,
    state: Option<Place>,
    refs: usize,
    flags: Flags,
}

impl<K, V, P> Model for Record<K, V, P> {
    ghost use Rattle.foyer_core.specs.Values.{Stored};

    ghost Value = { Stored K V P };

    ghost view = { λ r. record { kept = r.kept; place = r.state; handles = r.refs; flags = r.flags } };
}

impl<K: Drop, V: Drop, P: Drop> Record<K, V, P> {
    /// Creates a record with no handle and no flag.
    ///
    /// # Errors
    /// F7 if memory runs out.
    pub fn new(alloc: Global, kept: Data<K, V, P>) -> Result<Self>
        ensures made { IfOk result (λ r. (r.kept ≡ kept) × (r.place ≡ None) × (r.handles ≡ 0) × (bits_of r.flags ≡ 0)) }
        ensures refused { IfErr result (λ e. e ≡ NoMemory) }
    {
        match Share::new(alloc, kept) {
            Ok(share) => Ok(Record::of_share(share, 0)),
            Err(_) => Err(Error::new(Reason::NoMemory)),
        }
    }

    // A record with this share of its data, so many handles and no flags.
    #[inline(always)]
    pub(crate) fn of_share(kept: Share<K, V, P>, refs: usize) -> Self
        ensures { (result.kept ≡ kept) × (result.place ≡ None) × (result.handles ≡ refs) × (bits_of result.flags ≡ 0) }
    {
        Record {
            kept,
            state: None,
            refs,
            flags: Flags {
                in_eviction: false,
                in_indexer: false,
            },
        }
    }

    /// Returns the key.
    #[inline(always)]
    pub fn key(&self) -> &K
        ensures { result.now ≡ self.now.kept.key }
    {
        self.kept.key()
    }

    /// Returns the value.
    #[inline(always)]
    pub fn value(&self) -> &V
        ensures { result.now ≡ self.now.kept.value }
    {
        self.kept.value()
    }

    /// Returns the properties.
    #[inline(always)]
    pub fn properties(&self) -> &P
        ensures { result.now ≡ self.now.kept.properties }
    {
        self.kept.properties()
    }

    /// Returns the key's hash.
    #[inline(always)]
    pub fn hash(&self) -> u64
        ensures { result ≡ self.now.kept.hash }
    {
        self.kept.hash()
    }

    /// Returns the weight.
    #[inline(always)]
    pub fn weight(&self) -> usize
        ensures { result ≡ self.now.kept.weight }
    {
        self.kept.weight()
    }

    /// Returns the record's place in a policy, if it has one.
    #[inline(always)]
    pub fn state(&self) -> Option<Place>
        ensures { result ≡ self.now.place }
    {
        self.state
    }

    /// Returns the handle count.
    #[inline(always)]
    pub fn refs(&self) -> usize
        ensures { result ≡ self.now.handles }
    {
        self.refs
    }

    /// Adds handles and returns their count.
    ///
    /// # Errors
    /// F9 if the count would pass `limit`; nothing has changed.
    #[inline(always)]
    pub fn inc_refs(&mut self, n: usize, limit: usize) -> Result<usize>
        ensures added { IfOk result (λ refs. (refs ≡ self.old.handles + n) × (refs ≤ limit) × (self.new ≡ record self.old { handles = self.old.handles + n })) }
        ensures refused { IfErr result (λ e. (e ≡ Handles) × (limit < self.old.handles + n) × (self.new ≡ self.old)) }
    {
        if n > limit || self.refs > limit - n {
            return Err(Error::new(Reason::Handles));
        }
        self.refs += n;
        Ok(self.refs)
    }

    /// Takes away handles, at most as many as there are, and returns how many are left.
    #[inline(always)]
    pub fn dec_refs(&mut self, n: usize) -> usize
        requires { n ≤ self.old.handles }
        ensures left { result ≡ self.old.handles - n }
        ensures taken { self.new ≡ record self.old { handles = self.old.handles - n } }
    {
        self.refs -= n;
        self.refs
    }

    /// Returns whether all these flags are set.
    #[inline(always)]
    pub fn get_flags(&self, flags: Flags) -> bool
        ensures { IsTrue result ↔ Includes self.now.flags flags }
    {
        (self.flags.in_indexer || !flags.in_indexer)
            && (self.flags.in_eviction || !flags.in_eviction)
    }

    /// Sets these flags, or clears them.
    #[inline(always)]
    pub fn set_flags(&mut self, flags: Flags, on: bool)
        ensures { self.new ≡ record self.old { flags = with_flags self.old.flags flags on } }
    {
        if flags.in_indexer {
            self.flags.in_indexer = on;
        }
        if flags.in_eviction {
            self.flags.in_eviction = on;
        }
    }

    /// Sets or clears `IN_INDEXER`.
    #[inline(always)]
    pub fn set_in_indexer(&mut self, on: bool)
        ensures { self.new ≡ record self.old { flags = record self.old.flags { in_indexer = on } } }
    {
        self.flags.in_indexer = on;
    }

    /// Returns whether `IN_INDEXER` is set.
    #[inline(always)]
    pub fn is_in_indexer(&self) -> bool
        ensures { result ≡ self.now.flags.in_indexer }
    {
        self.flags.in_indexer
    }

    /// Sets or clears `IN_EVICTION`.
    #[inline(always)]
    pub fn set_in_eviction(&mut self, on: bool)
        ensures { self.new ≡ record self.old { flags = record self.old.flags { in_eviction = on } } }
    {
        self.flags.in_eviction = on;
    }

    /// Returns whether `IN_EVICTION` is set.
    #[inline(always)]
    pub fn is_in_eviction(&self) -> bool
        ensures { result ≡ self.now.flags.in_eviction }
    {
        self.flags.in_eviction
    }

    /// Sets the record's place in a policy.
    #[inline(always)]
    pub fn set_state(&mut self, state: Option<Place>)
        ensures { self.new ≡ record self.old { place = state } }
    {
        self.state = state;
    }

    // One more share of the data. F7 if the reference count is full.
    #[inline(always)]
    pub(crate) fn share(&self) -> Result<Share<K, V, P>>
        ensures kept { IfOk result (λ share. share ≡ self.now.kept) }
        ensures refused { IfErr result (λ e. e ≡ NoMemory) }
    {
        self.kept.try_clone()
    }
}

impl<K, V, P> Debug for Record<K, V, P> {
    fn fmt<W: fmt::Write>(&self, f: &mut fmt::Formatter<W>) -> fmt::Result {
        f.debug_struct("Record")
            .field("hash", &self.kept.hash())
            .finish()
    }
}

/// The largest numbers that a cache may use.
#[derive(Clone, Copy, Debug, PartialEq, Eq)]
pub struct Limits {
    /// The largest handle count of a record.
    pub handles: usize,
    /// A record id, fetch id or token is given only below this number.
    pub ids: u64,
}

impl Default for Limits {
    ghost use Rattle.std.specs.Prelude.{◌≡◌};

    ghost is_default = { λ l. (l.handles ≡ 18446744073709551615) × (l.ids ≡ 18446744073709551615) };

    /// No limit but those of the types.
    fn default() -> Limits {
        Limits {
            handles: usize::MAX,
            ids: u64::MAX,
        }
    }
}
