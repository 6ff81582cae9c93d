//! Look-ups by a key.

ghost use Rattle.std.specs.Prelude.{◌≡◌, IfOk, IfSome, false, true};
ghost use Rattle.std.specs.Arc.{arc_value};
ghost use Rattle.std.specs.Fn.{FnOnceReturnsAt};
ghost use Rattle.foyer_policy.specs.Moments.{is_expired};
ghost use Rattle.foyer_core.specs.NoEntry.{SeesLive};

use super::Cache;
use crate::entry::CacheEntry;
use foyer_core::Finder;
use foyer_policy::{EventListener, HashBuilder, Key, Properties, Result, Value};
use foyer_raw::{FetchTypes, Pipe};
use std::sync::Wait;

impl<H, K, V, S, P, W, A, L, Q, T, I> Cache<H, K, V, S, P, W, A, L, Q, T, I>
where
    H: Wait + Drop,
    K: Key,
    V: Value,
    S: HashBuilder,
    P: Properties,
    W: Drop,
    A: Drop,
    L: EventListener<Key = K, Value = V>,
    I: Finder<K>,
    Q: Pipe<Key = K, Value = V, Properties = P>,
    T: FetchTypes<K, V, P>,
{
    /// Returns the hash of a key, as the hash builder makes it. Equal keys have equal hashes.
    pub fn hash(&self, key: &K) -> u64
        ensures { result ≡ S.hash_of (arc_value (arc_value (arc_value self.now.cache.shares.shared).shared).hash_builder) (K.hash_input key.now) }
    {
        self.cache.hash(key)
    }

    /// Returns an entry of the key's record, unless that is expired at `now`. This counts as a use.
    ///
    /// Allocates nothing.
    ///
    /// # Errors
    /// F9 if the handle count would pass its limit, F7 if a reference count is full.
    pub fn get(
        &self,
        now: u64,
        key: &K,
    ) -> Result<Option<CacheEntry<H, K, V, S, P, W, A, L, Q, T, I>>>
        ensures key { IfOk result (λ found. IfSome found (λ e. K.eq key.now e.entry.kept.key ≡ true)) }
        ensures live { IfOk result (λ found. IfSome found (λ e. is_expired now (P.expiry_of e.entry.kept.properties) ≡ false)) }
        ensures kind { IfOk result (λ found. IfSome found (λ e. e.kind ≡ self.now.kind)) }
    {
        let kind = self.kind;
        match self.cache.get(now, key)? {
            Some(entry) => Ok(Some(CacheEntry { entry, kind })),
            None => Ok(None),
        }
    }

    /// Calls `look` with the value that a `get` at `now` would find, counts a use of its record, and returns what `look`
    /// returned. Makes no entry, and takes one lock.
    ///
    /// `look` runs under that lock: it must not call the cache, and should be short.
    ///
    /// # Errors
    /// F9 if the handle count would pass its limit.
    #[inline(always)]
    pub fn read<X, F: FnOnce(&V) -> X>(&self, now: u64, key: &K, look: F) -> Result<Option<X>>
        requires callable { F.IsAlwaysCallable look }
        ensures { IfOk result (λ found. IfSome found (SeesLive K.eq P.expiry_of now key.now (FnOnceReturnsAt F.FnOnce look))) }
    {
        self.cache.read(now, key, look)
    }

    /// Calls `look` as `read` does, and counts no use. A `peek` isn't counted among hits and misses either.
    #[inline(always)]
    pub fn peek<X, F: FnOnce(&V) -> X>(&self, now: u64, key: &K, look: F) -> Option<X>
        requires callable { F.IsAlwaysCallable look }
        ensures { IfSome result (SeesLive K.eq P.expiry_of now key.now (FnOnceReturnsAt F.FnOnce look)) }
    {
        self.cache.peek(now, key, look)
    }

    /// Returns a copy of the value that a `get` at `now` would find. This counts as a use, as `read` does.
    ///
    /// # Errors
    /// F9 if the handle count would pass its limit.
    #[inline(always)]
    pub fn get_copied(&self, now: u64, key: &K) -> Result<Option<V>>
    where
        V: Copy,
        ensures { IfOk result (λ found. IfSome found (SeesLive K.eq P.expiry_of now key.now (λ value copy. copy ≡ value))) }
    {
        self.cache.get_copied(now, key)
    }

    /// Returns a clone of the value that a `get` at `now` would find, made under the shard's lock. This counts as a use, as
    /// `read` does.
    ///
    /// # Errors
    /// F9 if the handle count would pass its limit, F7 if the clone fails, which still counts as a use.
    #[inline(always)]
    pub fn get_cloned(&self, now: u64, key: &K) -> Result<Option<V>>
    where
        V: Clone,
        ensures { IfOk result (λ found. IfSome found (SeesLive K.eq P.expiry_of now key.now V.is_clone)) }
    {
        self.cache.get_cloned(now, key)
    }

    /// Removes the key's record, expired or not, and returns an entry of it. The listener is told of it as `Remove`.
    ///
    /// # Errors
    /// Those of `get`.
    pub fn remove(&self, key: &K) -> Result<Option<CacheEntry<H, K, V, S, P, W, A, L, Q, T, I>>>
        ensures key { IfOk result (λ found. IfSome found (λ e. K.eq key.now e.entry.kept.key ≡ true)) }
        ensures kind { IfOk result (λ found. IfSome found (λ e. e.kind ≡ self.now.kind)) }
    {
        let kind = self.kind;
        match self.cache.remove(key)? {
            Some(entry) => Ok(Some(CacheEntry { entry, kind })),
            None => Ok(None),
        }
    }

    /// Removes the key's record, expired or not, and returns whether there was one. The listener is told of it as `Remove`. Makes
    /// no entry.
    ///
    /// # Errors
    /// F9 if the handle count would pass its limit.
    pub fn delete(&self, key: &K) -> Result<bool> {
        self.cache.delete(key)
    }

    /// Returns whether a `get` at `now` finds the key, and if so counts a use of its record. Takes no memory.
    ///
    /// # Errors
    /// F9 if the handle count would pass its limit.
    pub fn touch(&self, now: u64, key: &K) -> Result<bool> {
        self.cache.touch(now, key)
    }

    /// Returns whether a `get` at `now` finds the key. It counts no use, and takes no memory.
    pub fn contains(&self, now: u64, key: &K) -> bool {
        self.cache.contains(now, key)
    }
}
