//! Calls on all records.

ghost use Rattle.std.specs.Prelude.{◌≡◌, IfSome};
ghost use Rattle.foyer_policy.specs.Limit.{ok_unless};
ghost use Rattle.foyer_memory.specs.Faults.{reconfigure_fault};

use super::Cache;
use foyer_core::Finder;
use foyer_policy::{
    AnyEviction, Error, EventListener, Eviction, EvictionConfig, Key, Properties, Reason, Result,
    Value,
};
use foyer_raw::{FetchTypes, Flush, FlushIf, Pipe};
use std::sync::Wait;

impl<H, K, V, S, P, W, A, L, Q, T, I> Cache<H, K, V, S, P, W, A, L, Q, T, I>
where
    H: Wait + Drop,
    K: Key,
    V: Value,
    S: Drop,
    P: Properties,
    W: Drop,
    A: Drop,
    L: EventListener<Key = K, Value = V>,
    I: Finder<K>,
    Q: Pipe<Key = K, Value = V, Properties = P>,
    T: FetchTypes<K, V, P>,
{
    /// Removes all records, shard by shard, in the policy's order. The listener is told of each as `Clear`.
    ///
    /// # Errors
    /// F7 if memory runs out; the shards before are cleared, and their records reported.
    pub fn clear(&self) -> Result<()> {
        self.cache.clear()
    }

    /// Evicts all records that aren't pinned, shard by shard: those expired at `now` first, then in the policy's order.
    ///
    /// # Errors
    /// F7 if memory runs out; the evictions made so far stand and are reported.
    pub fn evict_all(&self, now: u64) -> Result<()> {
        self.cache.evict_all(now)
    }

    /// Sets the capacity, divides it among the shards and evicts what no longer fits, records expired at `now` first.
    ///
    /// Calls of `resize` and `reconfigure` take turns.
    ///
    /// # Errors
    /// F7 if memory runs out; the capacity is set all the same, and the evictions made so far stand and are reported.
    pub fn resize(&self, now: u64, capacity: usize) -> Result<()> {
        self.cache.resize(now, capacity)
    }

    /// Gives the policy another configuration, shard by shard, which later calls of `resize` use too.
    ///
    /// No record leaves, and no memory is taken. Calls of `resize` and `reconfigure` take turns.
    ///
    /// # Errors
    /// F17 if the configuration is of another policy, F2 to F6 for its first fault; nothing has changed.
    pub fn reconfigure(&self, config: EvictionConfig) -> Result<()>
        ensures { result ≡ ok_unless (reconfigure_fault self.now.kind config) }
    {
        if !self.kind.has(&config) {
            return Err(Error::new(Reason::WrongPolicy));
        }
        AnyEviction::check(&config)?;
        self.cache.configure(&config);
        Ok(())
    }

    /// Evicts all records that aren't pinned, as `evict_all` does, and hands their pieces to the pipe if it is enabled.
    ///
    /// All of that happens in this call; the future waits for the pipe.
    ///
    /// # Errors
    /// The future gives F7 if memory ran out; the evictions made until then stand and are reported.
    pub fn flush(&self, now: u64) -> Flush<Q::Flush>
        ensures { IfSome result.inner Q.Flush.can_poll }
    {
        self.cache.flush(now)
    }

    /// Evicts the records for which the predicate returns true, pinned or not, and reports them as `flush` does.
    ///
    /// The predicate is called once for each record, under its shard's lock: it must not call this cache.
    ///
    /// # Errors
    /// The future gives F7 if memory ran out; the shards before are done.
    pub fn flush_if<F: Fn(&K, &V) -> bool>(&self, predicate: F) -> FlushIf<Q::Flush>
        requires { F.IsAlwaysCallable predicate }
        ensures { IfSome result.inner Q.Flush.can_poll }
    {
        self.cache.flush_if(predicate)
    }

    /// Calls a closure with each record, expired or not: shard by shard, in the policy's order. The records of a shard are
    /// those that it had at one moment. No lock is held during a call, so the closure may use the cache. It counts as no use.
    ///
    /// # Errors
    /// F7 if memory runs out; the shards before have been visited.
    pub fn for_each<F: FnMut(&K, &V)>(&self, visit: F) -> Result<()>
        requires { F.IsAlwaysCallable visit }
    {
        self.cache.for_each(visit)
    }

    /// Returns a clone of each record's key, expired or not, in the order of `for_each`.
    ///
    /// # Errors
    /// F7 if memory runs out.
    pub fn keys(&self) -> Result<Vec<K>> {
        self.cache.keys()
    }

    /// Removes each record for which a closure returns false, as `Remove`, and tells the listener. The closure sees each record,
    /// expired or not, in the order of `for_each`, and may use the cache. A record that was replaced meanwhile stays.
    ///
    /// # Errors
    /// F7 if memory runs out; the shards before are done.
    pub fn retain<F: FnMut(&K, &V) -> bool>(&self, keep: F) -> Result<()>
        requires { F.IsAlwaysCallable keep }
    {
        self.cache.retain(keep)
    }
}
