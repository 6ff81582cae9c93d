//! Look-ups that fetch what is missing.

ghost use Rattle.std.specs.Prelude.{◌≡◌, IfOk, IfSome, false, true};
ghost use Rattle.foyer_policy.specs.Moments.{is_expired};
ghost use Rattle.foyer_memory.specs.Looks.{entry_of};

use super::Cache;
use crate::fetch::{FetchTask, GetOrFetch};
use foyer_core::{Filter, Finder, Weighter};
use foyer_policy::{EventListener, HashBuilder, Key, Properties, Result, Value};
use foyer_raw::{Direct, FetchTypes, Pipe, RequiredFetch, Spawner};
use std::sync::Wait;

impl<H, K, V, S, P, W, A, L, Q, T, I> Cache<H, K, V, S, P, W, A, L, Q, T, I>
where
    H: Wait + Drop,
    K: Key,
    V: Value,
    S: HashBuilder,
    P: Properties,
    W: Weighter<K, V>,
    A: Filter<K, V>,
    L: EventListener<Key = K, Value = V>,
    I: Finder<K>,
    Q: Pipe<Key = K, Value = V, Properties = P>,
    T: FetchTypes<K, V, P>,
{
    /// Returns an entry of the key's record, or a wait for a fetch of the key.
    ///
    /// If a `get` at `now` misses the key, the caller waits for the key's open fetch, or for a new one, whose task goes to
    /// the spawner. The task inserts what it fetched at this `now`, whenever it is polled.
    ///
    /// `fr` is called once on a miss, and `fo` once if a new fetch begins, both with no lock held. A required builder that
    /// the caller brings to an open fetch is kept if that has none.
    ///
    /// # Errors
    /// On a hit, F9 if the handle count would pass its limit and F7 if a reference count is full; a hit takes no memory.
    /// On a miss, F10 if no number is left and F7 if memory runs out.
    pub fn get_or_fetch_inner<O, F, X>(
        &self,
        now: u64,
        key: &K,
        fo: O,
        fr: F,
        context: T::Context,
        spawner: &mut X,
    ) -> Result<GetOrFetch<H, K, V, S, P, W, A, L, Q, T, I>>
    where
        O: FnOnce() -> Option<T::Optional>,
        F: FnOnce() -> Option<T::Required>,
        X: Spawner<FetchTask<H, K, V, S, P, W, A, L, Q, T, I>>,
        requires clones { (k c : K) → K.is_clone k c → K.eq c k ≡ true }
        requires optional { O.IsAlwaysCallable fo }
        requires required { F.IsAlwaysCallable fr }
        ensures key { IfOk result (λ look. IfSome (entry_of look.look) (λ e. K.eq key.now e.kept.key ≡ true)) }
        ensures live { IfOk result (λ look. IfSome (entry_of look.look) (λ e. is_expired now (P.expiry_of e.kept.properties) ≡ false)) }
        ensures kind { IfOk result (λ look. look.kind ≡ self.now.kind) }
    {
        let kind = self.kind;
        let look = self
            .cache
            .get_or_fetch_inner(now, key, fo, fr, context, spawner)?;
        Ok(GetOrFetch { look, kind })
    }
}

impl<H, K, V, S, P, W, A, L, Q, R, I> Cache<H, K, V, S, P, W, A, L, Q, Direct<R>, I>
where
    H: Wait + Drop,
    K: Key,
    V: Value,
    S: HashBuilder,
    P: Properties,
    W: Weighter<K, V>,
    A: Filter<K, V>,
    L: EventListener<Key = K, Value = V>,
    I: Finder<K>,
    Q: Pipe<Key = K, Value = V, Properties = P>,
    R: RequiredFetch<K, V, P>,
{
    /// Returns an entry of the key's record, or a wait for its fetch, which polls the closure's future.
    ///
    /// The closure is called on a hit too. If the key has an open fetch, the caller waits for that one.
    ///
    /// # Errors
    /// Those of `get_or_fetch_inner`.
    pub fn get_or_fetch<F, X>(
        &self,
        now: u64,
        key: &K,
        fetch: F,
        spawner: &mut X,
    ) -> Result<GetOrFetch<H, K, V, S, P, W, A, L, Q, Direct<R>, I>>
    where
        F: FnOnce() -> R,
        X: Spawner<FetchTask<H, K, V, S, P, W, A, L, Q, Direct<R>, I>>,
        requires clones { (k c : K) → K.is_clone k c → K.eq c k ≡ true }
        requires callable { F.IsAlwaysCallable fetch }
        requires futures { (r : _) → F.post fetch r → R.can_poll r }
        ensures key { IfOk result (λ look. IfSome (entry_of look.look) (λ e. K.eq key.now e.kept.key ≡ true)) }
        ensures live { IfOk result (λ look. IfSome (entry_of look.look) (λ e. is_expired now (P.expiry_of e.kept.properties) ≡ false)) }
        ensures kind { IfOk result (λ look. look.kind ≡ self.now.kind) }
    {
        let (look, kind) = (
            self.cache.get_or_fetch(now, key, fetch, spawner)?,
            self.kind,
        );
        Ok(GetOrFetch { look, kind })
    }
}
