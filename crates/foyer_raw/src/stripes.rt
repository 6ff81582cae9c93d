//! Shares of a cache, with a reference count for each shard.
//!
//! Each call that returns an entry makes a share of the cache, and the entry's drop takes it away. With one count for
//! all, every thread would write to the same cache line, whichever shards they use.

ghost use Rattle.std.specs.Prelude.{◌≡◌, ◌<◌, IfErr, vec_len};
ghost use Rattle.foyer_policy.specs.declared.error.Reason.TheVariants.{NoMemory};

use crate::shared::Shared;
use foyer_core::{Finder, shard_of};
use foyer_policy::{EventListener, Eviction, Key, Properties, Result, Value};
use std::alloc::Global;
use std::ops::Deref;
use std::sync::Arc;

/// One share of what a cache shares. Entries and tasks have shares of this one.
#[derive(Drop)]
pub(crate) struct Stripe<H, E, K, V, S, P, W, A, L, R, I>
where
    H: Drop,
    E: Eviction,
    K: Key,
    V: Value,
    S: Drop,
    P: Properties,
    W: Drop,
    A: Drop,
    L: EventListener<Key = K, Value = V>,
    R: Drop,
    I: Finder<K>,
{
    shared: Arc<Shared<H, E, K, V, S, P, W, A, L, R, I>>,
    // Padding, so that two stripes' counts never share a cache line.
    apart: [u64; 8],
}

impl<H, E, K, V, S, P, W, A, L, R, I> Deref for Stripe<H, E, K, V, S, P, W, A, L, R, I>
where
    H: Drop,
    E: Eviction,
    K: Key,
    V: Value,
    S: Drop,
    P: Properties,
    W: Drop,
    A: Drop,
    L: EventListener<Key = K, Value = V>,
    R: Drop,
    I: Finder<K>,
{
    type Target = Shared<H, E, K, V, S, P, W, A, L, R, I>;

    ghost use Rattle.std.specs.Prelude.{◌≡◌};
    ghost use Rattle.std.specs.Arc.{arc_value};

    ghost deref_gives = { λ stripe shared. shared ≡ arc_value stripe.shared };

    #[inline(always)]
    fn deref(&self) -> &Shared<H, E, K, V, S, P, W, A, L, R, I> {
        &self.shared
    }
}

/// The stripes of a cache, one for each shard.
#[derive(Drop)]
pub(crate) struct Stripes<H, E, K, V, S, P, W, A, L, R, I>
where
    H: Drop,
    E: Eviction,
    K: Key,
    V: Value,
    S: Drop,
    P: Properties,
    W: Drop,
    A: Drop,
    L: EventListener<Key = K, Value = V>,
    R: Drop,
    I: Finder<K>,
{
    all: Vec<Arc<Stripe<H, E, K, V, S, P, W, A, L, R, I>>>,
    ghost some: { 0 < vec_len all },
}

impl<H, E, K, V, S, P, W, A, L, R, I> Stripes<H, E, K, V, S, P, W, A, L, R, I>
where
    H: Drop,
    E: Eviction,
    K: Key,
    V: Value,
    S: Drop,
    P: Properties,
    W: Drop,
    A: Drop,
    L: EventListener<Key = K, Value = V>,
    R: Drop,
    I: Finder<K>,
{
    /// Makes a stripe for each shard. Fails with F7 alone.
    pub(crate) fn new(
        alloc: Global,
        shared: Shared<H, E, K, V, S, P, W, A, L, R, I>,
        count: usize,
    ) -> Result<Self>
        requires { 0 < count }
        ensures { IfErr result (λ e. e ≡ NoMemory) }
    {
        let shared = Arc::new(alloc, shared)?;
        let mut all = Vec::new(alloc);
        for _shard in 0..count {
            let stripe = Stripe {
                shared: Arc::try_clone(&shared)?,
                apart: [0; 8],
            };
            all.push(Arc::new(alloc, stripe)?)?;
        }
        Ok(Stripes { all })
    }

    /// Makes a share that is counted for the shard of a hash. Fails with F7 if its reference count is full.
    #[inline(always)]
    pub(crate) fn share(&self, hash: u64) -> Result<Arc<Stripe<H, E, K, V, S, P, W, A, L, R, I>>>
        ensures { IfErr result (λ e. e ≡ NoMemory) }
    {
        let place = shard_of(hash, self.all.len());
        Ok(Arc::try_clone(&self.all[place])?)
    }
}
