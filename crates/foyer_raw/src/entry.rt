//! Entries of a cache that threads share.

ghost use Rattle.std.specs.Prelude.{◌≡◌, IfOk};

use crate::pipe::Pipe;
use crate::shares::Shares;
use foyer_core::{CoreEntry, Finder, Piece, TagFinder};
use foyer_policy::{EventListener, Eviction, Key, Properties, Result, Source, Value};
use std::fmt::{self, Debug};
use std::marker::Model;
use std::ops::Deref;
use std::sync::Wait;

/// A handle of a record of a `RawCache`, which derefs to the record's value.
///
/// The data stay readable while the entry is held, even after eviction. Its drop locks the record's shard to give the
/// handle back, and reports what leaves with it. Contracts see it as the core's entry.
pub struct RawCacheEntry<H, E, K, V, S, P, W, A, L, Q, R, I = TagFinder<K>>
where
    H: Wait + Drop,
    E: Eviction,
    K: Key,
    V: Value,
    S: Drop,
    P: Properties,
    W: Drop,
    A: Drop,
    L: EventListener<Key = K, Value = V>,
    I: Finder<K>,
    Q: Pipe<Key = K, Value = V, Properties = P>,
    R: Drop,
{
    shares: Shares<H, E, K, V, S, P, W, A, L, Q, R, I>,
    core: CoreEntry<K, V, P>,
}

impl<H, E, K, V, S, P, W, A, L, Q, R, I> Model for RawCacheEntry<H, E, K, V, S, P, W, A, L, Q, R, I>
where
    H: Wait + Drop,
    E: Eviction,
    K: Key,
    V: Value,
    S: Drop,
    P: Properties,
    W: Drop,
    A: Drop,
    L: EventListener<Key = K, Value = V>,
    I: Finder<K>,
    Q: Pipe<Key = K, Value = V, Properties = P>,
    R: Drop,
{
    ghost use Rattle.foyer_core.specs.Values.{Held};

    ghost Value = { Held K V P };

    ghost view = { λ e. e.core };
}

impl<H, E, K, V, S, P, W, A, L, Q, R, I> Drop for RawCacheEntry<H, E, K, V, S, P, W, A, L, Q, R, I>
where
    H: Wait + Drop,
    E: Eviction,
    K: Key,
    V: Value,
    S: Drop,
    P: Properties,
    W: Drop,
    A: Drop,
    L: EventListener<Key = K, Value = V>,
    I: Finder<K>,
    Q: Pipe<Key = K, Value = V, Properties = P>,
    R: Drop,
{
    fn drop(self) {
        let RawCacheEntry { shares, core } = self;
        shares.give_back(core);
    }
}

impl<H, E, K, V, S, P, W, A, L, Q, R, I> RawCacheEntry<H, E, K, V, S, P, W, A, L, Q, R, I>
where
    H: Wait + Drop,
    E: Eviction,
    K: Key,
    V: Value,
    S: Drop,
    P: Properties,
    W: Drop,
    A: Drop,
    L: EventListener<Key = K, Value = V>,
    I: Finder<K>,
    Q: Pipe<Key = K, Value = V, Properties = P>,
    R: Drop,
{
    // Makes the entry of a handle.
    pub(crate) fn new(
        shares: Shares<H, E, K, V, S, P, W, A, L, Q, R, I>,
        core: CoreEntry<K, V, P>,
    ) -> Self
        ensures { result ≡ core }
    {
        RawCacheEntry { shares, core }
    }

    // The handle.
    #[inline(always)]
    pub(crate) fn core(&self) -> &CoreEntry<K, V, P>
        ensures { result.now ≡ self.now }
    {
        &self.core
    }

    /// Returns the hash of the key.
    pub fn hash(&self) -> u64
        ensures { result ≡ self.now.kept.hash }
    {
        self.core.hash()
    }

    /// Returns the key.
    pub fn key(&self) -> &K
        ensures { result.now ≡ self.now.kept.key }
    {
        self.core.key()
    }

    /// Returns the value.
    pub fn value(&self) -> &V
        ensures { result.now ≡ self.now.kept.value }
    {
        self.core.value()
    }

    /// Returns the properties with which the record was inserted.
    pub fn properties(&self) -> &P
        ensures { result.now ≡ self.now.kept.properties }
    {
        self.core.properties()
    }

    /// Returns the record's weight.
    pub fn weight(&self) -> usize
        ensures { result ≡ self.now.kept.weight }
    {
        self.core.weight()
    }

    /// Returns where the entry came from.
    pub fn source(&self) -> Source
        ensures { result ≡ self.now.source }
    {
        self.core.source()
    }

    /// Returns a piece of the record, which keeps its data and is no handle.
    ///
    /// # Errors
    /// F7 if a reference count is full.
    pub fn piece(&self) -> Result<Piece<K, V, P>>
        ensures { IfOk result (λ p. (p.id ≡ self.now.id) × (p.kept ≡ self.now.kept)) }
    {
        self.core.piece()
    }

    /// Returns the number of the record's handles. Locks its shard.
    pub fn refs(&self) -> usize {
        self.shares.lock(self.core.hash()).refs(&self.core)
    }

    /// Returns whether the record has left the cache, replaced by another or otherwise. Locks its shard.
    pub fn is_outdated(&self) -> bool {
        self.shares.lock(self.core.hash()).is_outdated(&self.core)
    }

    /// Returns another entry of the same record. This counts no use. Locks the record's shard.
    ///
    /// # Errors
    /// F9 if the handle count would pass its limit, F7 if a reference count is full.
    pub fn try_clone(&self) -> Result<Self>
        ensures { IfOk result (λ e. e.kept ≡ self.now.kept) }
    {
        let core = self.shares.lock(self.core.hash()).clone_handle(&self.core)?;
        match self.shares.try_clone() {
            Ok(shares) => Ok(shares.entry(core)),
            Err(refused) => {
                self.shares.give_back(core);
                Err(refused)
            }
        }
    }

    /// Gives the handle back, as the entry's drop does.
    pub fn release(self) {
        drop(self);
    }
}

impl<H, E, K, V, S, P, W, A, L, Q, R, I> Deref for RawCacheEntry<H, E, K, V, S, P, W, A, L, Q, R, I>
where
    H: Wait + Drop,
    E: Eviction,
    K: Key,
    V: Value,
    S: Drop,
    P: Properties,
    W: Drop,
    A: Drop,
    L: EventListener<Key = K, Value = V>,
    I: Finder<K>,
    Q: Pipe<Key = K, Value = V, Properties = P>,
    R: Drop,
{
    type Target = V;

    ghost use Rattle.std.specs.Prelude.{◌≡◌};

    ghost deref_gives = { λ e x. x ≡ e.kept.value };

    fn deref(&self) -> &V {
        self.core.value()
    }
}

impl<H, E, K, V, S, P, W, A, L, Q, R, I> Debug for RawCacheEntry<H, E, K, V, S, P, W, A, L, Q, R, I>
where
    H: Wait + Drop,
    E: Eviction,
    K: Key,
    V: Value,
    S: Drop,
    P: Properties,
    W: Drop,
    A: Drop,
    L: EventListener<Key = K, Value = V>,
    I: Finder<K>,
    Q: Pipe<Key = K, Value = V, Properties = P>,
    R: Drop,
{
    fn fmt<X: fmt::Write>(&self, f: &mut fmt::Formatter<X>) -> fmt::Result {
        f.debug_struct("RawCacheEntry")
            .field(
                "record",
                &Named {
                    hash: self.core.hash(),
                },
            )
            .finish()
    }
}

// A record, by the hash of its key.
#[derive(Clone, Copy)]
struct Named {
    hash: u64,
}

impl Debug for Named {
    fn fmt<X: fmt::Write>(&self, f: &mut fmt::Formatter<X>) -> fmt::Result {
        f.debug_struct("Record").field("hash", &self.hash).finish()
    }
}
