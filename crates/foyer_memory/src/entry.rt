//! Entries of a cache of any policy.

ghost use Rattle.std.specs.Prelude.{◌≡◌, ◌↔◌, IfErr, IfOk, IsOk};

use crate::kind::Kind;
use crate::of::Of;
use crate::policy_config::PolicyConfig;
use foyer_core::{AdmitAll, CacheProperties, Finder, Piece, TagFinder, UnitWeighter};
use foyer_policy::{
    AnyEviction, DefaultHasher, EventListener, Key, Properties, Result, Source, Value,
};
use foyer_raw::{FetchTypes, NoFetch, NoListener, NoopPipe, Pipe, RawCacheEntry};
use std::fmt::{self, Debug};
use std::ops::Deref;
use std::sync::Wait;

/// A handle of a record of a `Cache`, which derefs to the record's value.
///
/// The data stay readable while the entry is held, even after eviction. Its drop locks the record's shard to give the
/// handle back. Contracts see the handle as the field `entry`.
pub struct CacheEntry<
    H,
    K,
    V,
    S = DefaultHasher,
    P = CacheProperties,
    W = UnitWeighter,
    A = AdmitAll,
    L = NoListener<K, V>,
    Q = NoopPipe<K, V, P>,
    T = NoFetch,
    I = TagFinder<K>,
>
where
    H: Wait + Drop,
    K: Key,
    V: Value,
    S: Drop,
    P: Properties,
    W: Drop,
    A: Drop,
    L: EventListener<Key = K, Value = V>,
    I: Finder<K>,
    Q: Pipe<Key = K, Value = V, Properties = P>,
    T: FetchTypes<K, V, P>,
{
    pub(crate) entry: RawCacheEntry<H, AnyEviction, K, V, S, P, W, A, L, Q, T::Required, I>,
    pub(crate) kind: Kind,
}

impl<H, K, V, S, P, W, A, L, Q, T, I> Drop for CacheEntry<H, K, V, S, P, W, A, L, Q, T, I>
where
    H: Wait + Drop,
    K: Key,
    V: Value,
    S: Drop,
    P: Properties,
    W: Drop,
    A: Drop,
    L: EventListener<Key = K, Value = V>,
    I: Finder<K>,
    Q: Pipe<Key = K, Value = V, Properties = P>,
    T: FetchTypes<K, V, P>,
{
    // Written by hand, so that a caller's proof doesn't go through all parts at its own types.
    fn drop(self) {
        let CacheEntry { entry: _, kind: _ } = self;
    }
}

impl<H, K, V, S, P, W, A, L, Q, T, I> CacheEntry<H, K, V, S, P, W, A, L, Q, T, I>
where
    H: Wait + Drop,
    K: Key,
    V: Value,
    S: Drop,
    P: Properties,
    W: Drop,
    A: Drop,
    L: EventListener<Key = K, Value = V>,
    I: Finder<K>,
    Q: Pipe<Key = K, Value = V, Properties = P>,
    T: FetchTypes<K, V, P>,
{
    /// Returns the policy of the entry's cache.
    pub fn kind(&self) -> Kind
        ensures { result ≡ self.now.kind }
    {
        self.kind
    }

    /// Returns the entry with its policy in the type, or unchanged if its policy isn't the one that `C` configures.
    pub fn of_policy<C: PolicyConfig>(self) -> std::result::Result<Of<C, Self>, Self>
        ensures own { IfOk result (λ of. of.inner ≡ self) }
        ensures other { IfErr result (λ back. back ≡ self) }
        ensures is { IsOk result ↔ (self.kind ≡ C.kind) }
    {
        if self.kind == C::kind() {
            Ok(Of::new_of(self))
        } else {
            Err(self)
        }
    }

    /// Returns the hash of the key.
    pub fn hash(&self) -> u64
        ensures { result ≡ self.now.entry.kept.hash }
    {
        self.entry.hash()
    }

    /// Returns the key.
    pub fn key(&self) -> &K
        ensures { result.now ≡ self.now.entry.kept.key }
    {
        self.entry.key()
    }

    /// Returns the value.
    pub fn value(&self) -> &V
        ensures { result.now ≡ self.now.entry.kept.value }
    {
        self.entry.value()
    }

    /// Returns the properties with which the record was inserted.
    pub fn properties(&self) -> &P
        ensures { result.now ≡ self.now.entry.kept.properties }
    {
        self.entry.properties()
    }

    /// Returns the record's weight.
    pub fn weight(&self) -> usize
        ensures { result ≡ self.now.entry.kept.weight }
    {
        self.entry.weight()
    }

    /// Returns where the entry came from.
    pub fn source(&self) -> Source
        ensures { result ≡ self.now.entry.source }
    {
        self.entry.source()
    }

    /// Returns a piece of the record, which keeps its data and is no handle.
    ///
    /// # Errors
    /// F7 if a reference count is full.
    pub fn piece(&self) -> Result<Piece<K, V, P>>
        ensures { IfOk result (λ p. (p.id ≡ self.now.entry.id) × (p.kept ≡ self.now.entry.kept)) }
    {
        self.entry.piece()
    }

    /// Returns the number of the record's handles. Locks its shard.
    pub fn refs(&self) -> usize {
        self.entry.refs()
    }

    /// Returns whether the record has left the cache, replaced by another or otherwise. Locks its shard.
    pub fn is_outdated(&self) -> bool {
        self.entry.is_outdated()
    }

    /// Returns another entry of the same record. This counts no use. Locks the record's shard.
    ///
    /// # Errors
    /// F9 if the handle count would pass its limit, F7 if a reference count is full.
    pub fn try_clone(&self) -> Result<Self>
        ensures record { IfOk result (λ e. e.entry.kept ≡ self.now.entry.kept) }
        ensures kind { IfOk result (λ e. e.kind ≡ self.now.kind) }
    {
        let (entry, kind) = (self.entry.try_clone()?, self.kind);
        Ok(CacheEntry { entry, kind })
    }

    /// Gives the handle back, as the entry's drop does.
    pub fn release(self) {
        drop(self);
    }
}

impl<H, K, V, S, P, W, A, L, Q, T, I> Deref for CacheEntry<H, K, V, S, P, W, A, L, Q, T, I>
where
    H: Wait + Drop,
    K: Key,
    V: Value,
    S: Drop,
    P: Properties,
    W: Drop,
    A: Drop,
    L: EventListener<Key = K, Value = V>,
    I: Finder<K>,
    Q: Pipe<Key = K, Value = V, Properties = P>,
    T: FetchTypes<K, V, P>,
{
    type Target = V;

    ghost use Rattle.std.specs.Prelude.{◌≡◌};

    ghost deref_gives = { λ e x. x ≡ e.entry.kept.value };

    fn deref(&self) -> &V {
        self.entry.value()
    }
}

impl<H, K, V, S, P, W, A, L, Q, T, I> Debug for CacheEntry<H, K, V, S, P, W, A, L, Q, T, I>
where
    H: Wait + Drop,
    K: Key,
    V: Value,
    S: Drop,
    P: Properties,
    W: Drop,
    A: Drop,
    L: EventListener<Key = K, Value = V>,
    I: Finder<K>,
    Q: Pipe<Key = K, Value = V, Properties = P>,
    T: FetchTypes<K, V, P>,
{
    fn fmt<X: fmt::Write>(&self, f: &mut fmt::Formatter<X>) -> fmt::Result {
        f.debug_tuple(self.kind.name()).field(&self.entry).finish()
    }
}
