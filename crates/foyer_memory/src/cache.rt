//! A cache of any of the five policies.

ghost use Rattle.std.specs.Prelude.{◌≡◌, ◌↔◌, IfErr, IfOk, IsOk, None};
ghost use Rattle.std.specs.Arc.{arc_value};
ghost use Rattle.foyer_policy.specs.declared.eviction_config.EvictionConfig.TheVariants.{Lru};

use crate::builder::CacheBuilder;
use crate::kind::Kind;
use crate::of::Of;
use crate::policy_config::PolicyConfig;
use foyer_core::{AdmitAll, CacheProperties, Finder, Stats, TagFinder, UnitWeighter};
use foyer_policy::{AnyEviction, DefaultHasher, EventListener, Key, Properties, Result, Value};
use foyer_raw::{FetchTypes, NoFetch, NoListener, NoopPipe, RawCache};
use std::fmt::{self, Debug};
use std::sync::{Arc, Wait};

mod blocking;
mod bulk;
mod fetching;
mod insertion;
mod keys;

/// An in-memory cache that threads share, with one of five eviction policies.
pub struct Cache<
    H,
    K,
    V,
    S = DefaultHasher,
    P = CacheProperties,
    W = UnitWeighter,
    A = AdmitAll,
    L = NoListener<K, V>,
    Q = NoopPipe<K, V, P>,
    T = NoFetch,
    I = TagFinder<K>,
>
where
    H: Drop,
    K: Key,
    V: Value,
    S: Drop,
    P: Properties,
    W: Drop,
    A: Drop,
    L: EventListener<Key = K, Value = V>,
    I: Finder<K>,
    Q: Drop,
    T: FetchTypes<K, V, P>,
{
    pub(crate) cache: RawCache<H, AnyEviction, K, V, S, P, W, A, L, Q, T, I>,
    pub(crate) kind: Kind,
}

impl<H, K, V, S, P, W, A, L, Q, T, I> Drop for Cache<H, K, V, S, P, W, A, L, Q, T, I>
where
    H: Drop,
    K: Key,
    V: Value,
    S: Drop,
    P: Properties,
    W: Drop,
    A: Drop,
    L: EventListener<Key = K, Value = V>,
    I: Finder<K>,
    Q: Drop,
    T: FetchTypes<K, V, P>,
{
    // Written by hand, so that a caller's proof doesn't go through all parts at its own types.
    fn drop(self) {
        let Cache { cache: _, kind: _ } = self;
    }
}

impl<H: Drop, K: Key, V: Value> Cache<H, K, V> {
    /// Returns a builder of a cache of this capacity, with the defaults of `CacheBuilder::new`.
    pub fn builder(capacity: usize) -> CacheBuilder<K, V>
        ensures capacity { result.config.capacity ≡ capacity }
        ensures shards { result.config.shards ≡ 8 }
        ensures eviction_config { result.config.eviction_config ≡ Lru (record { high_priority_pool_ratio = record { num = 9; den = 10 } }) }
        ensures number { result.config.number ≡ 0 }
        ensures limits { result.config.limits ≡ record { handles = 18446744073709551615; ids = 18446744073709551615 } }
        ensures time_to_live { result.time_to_live ≡ None }
    {
        CacheBuilder::new(capacity)
    }
}

impl<H, K, V, S, P, W, A, L, Q, T, I> Cache<H, K, V, S, P, W, A, L, Q, T, I>
where
    H: Wait + Drop,
    K: Key,
    V: Value,
    S: Drop,
    P: Properties,
    W: Drop,
    A: Drop,
    L: EventListener<Key = K, Value = V>,
    I: Finder<K>,
    Q: Drop,
    T: FetchTypes<K, V, P>,
{
    /// Returns the cache's policy.
    pub fn kind(&self) -> Kind
        ensures { result ≡ self.now.kind }
    {
        self.kind
    }

    /// Returns the cache with its policy in the type, or unchanged if its policy isn't the one that `C` configures.
    pub fn of_policy<C: PolicyConfig>(self) -> std::result::Result<Of<C, Self>, Self>
        ensures own { IfOk result (λ of. of.inner ≡ self) }
        ensures other { IfErr result (λ back. back ≡ self) }
        ensures is { IsOk result ↔ (self.kind ≡ C.kind) }
    {
        if self.kind == C::kind() {
            Ok(Of::new_of(self))
        } else {
            Err(self)
        }
    }

    /// Returns another owner of the same cache, with the same pipe.
    ///
    /// # Errors
    /// F7 if a reference count is full.
    pub fn try_clone(&self) -> Result<Self>
        ensures kind { IfOk result (λ again. again.kind ≡ self.now.kind) }
        ensures shared { IfOk result (λ again. arc_value again.cache.shares.shared ≡ arc_value self.now.cache.shares.shared) }
    {
        let (cache, kind) = (self.cache.try_clone()?, self.kind);
        Ok(Cache { cache, kind })
    }

    /// Returns the cache with this pipe, which its later entries, clones and tasks have too.
    ///
    /// Those made before keep the pipe that they had.
    pub fn with_pipe(self, pipe: Arc<Q>) -> Self
        ensures kind { result.kind ≡ self.kind }
        ensures shared { result.cache.shares.shared ≡ self.cache.shares.shared }
    {
        let Cache { cache, kind } = self;
        Cache {
            cache: cache.with_pipe(pipe),
            kind,
        }
    }

    /// Returns the capacity, a total weight, as the last `resize` or else the builder set it.
    pub fn capacity(&self) -> usize {
        self.cache.capacity()
    }

    /// Returns the number of shards.
    pub fn shards(&self) -> usize {
        self.cache.shards()
    }

    /// Returns the total weight of the resident records, expired ones included.
    ///
    /// Locks one shard after the other, so others may change meanwhile.
    pub fn usage(&self) -> u128 {
        self.cache.usage()
    }

    /// Returns the number of resident records, expired ones included.
    ///
    /// Locks one shard after the other, so others may change meanwhile.
    pub fn entries(&self) -> u128 {
        self.cache.entries()
    }

    /// Returns the counts since the cache was made or `reset_stats` was called.
    ///
    /// Locks one shard after the other, so others may change meanwhile.
    pub fn stats(&self) -> Stats {
        self.cache.stats()
    }

    /// Sets all counts to 0, one shard after the other.
    pub fn reset_stats(&self) {
        self.cache.reset_stats();
    }

    /// Returns the hash builder of the keys.
    pub fn hash_builder(&self) -> &Arc<S>
        ensures { result.now ≡ (arc_value (arc_value self.now.cache.shares.shared).shared).hash_builder }
    {
        self.cache.hash_builder()
    }
}

impl<H, K, V, S, P, W, A, L, Q, T, I> Debug for Cache<H, K, V, S, P, W, A, L, Q, T, I>
where
    H: Drop,
    K: Key,
    V: Value,
    S: Drop,
    P: Properties,
    W: Drop,
    A: Drop,
    L: EventListener<Key = K, Value = V>,
    I: Finder<K>,
    Q: Drop,
    T: FetchTypes<K, V, P>,
{
    fn fmt<X: fmt::Write>(&self, f: &mut fmt::Formatter<X>) -> fmt::Result {
        f.write_str("Cache::")?;
        f.write_str(self.kind.name())?;
        f.write_str("Cache")
    }
}
