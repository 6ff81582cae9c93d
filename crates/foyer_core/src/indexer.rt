//! The index of a shard, from hashed keys to numbers.

ghost use Rattle.std.specs.Prelude.{◌≡◌, ℕ, Some, None, IfOk, IfErr, OnOk, OnErr, true};
ghost use Rattle.std.specs.Map.{update};
ghost use Rattle.foyer_policy.specs.declared.error.Reason.TheVariants.{NoMemory};
ghost use Rattle.foyer_core.specs.Indexer.{same_key};

use foyer_policy::{Error, Key, Reason, Result};
use std::alloc::Global;

mod chain;
mod hash_table;
mod sentry;

pub use hash_table::HashTableIndexer;
pub use sentry::Sentry;

/// A map from keys to numbers. Keys are looked up together with their hash, and compared by `==`.
pub trait Indexer<K: Key>: Drop {
    ghost use Rattle.std.specs.Prelude.{◌≡◌, ℕ, Option, true};
    ghost use Rattle.foyer_core.specs.Indexer.{same_key, AreNumbersOf};

    // the number under a hashed key
    ghost view: { Self → (ℕ × K) → Option ℕ };

    /// Creates an index with no keys.
    fn empty(alloc: Global) -> Self
        ensures { (q : ℕ × K) → view result q ≡ None };

    /// Sets the number of a key, and returns the one it had.
    ///
    /// # Errors
    /// F7 if memory runs out for a new key; nothing has changed.
    fn insert(&mut self, hash: u64, key: K, id: u64) -> Result<Option<u64>>
        ensures was { IfOk result (λ was. was ≡ view self.old (hash, key)) }
        ensures view { OnOk result ((q : ℕ × K) →
            view self.new q ≡ update (same_key K.eq) (view self.old) (hash, key) (Some id) q) }
        ensures refused { IfErr result (λ e. e ≡ NoMemory) }
        ensures absent { OnErr result (view self.old (hash, key) ≡ None) }
        ensures err { OnErr result ((q : ℕ × K) → view self.new q ≡ view self.old q) };

    /// Returns the number of a key.
    fn get(&self, hash: u64, key: &K) -> Option<u64>
        ensures { result ≡ view self.now (hash, key.now) };

    /// Removes a key, and returns its number. Takes no memory.
    fn remove(&mut self, hash: u64, key: &K) -> Option<u64>
        ensures was { result ≡ view self.old (hash, key.now) }
        ensures view { (q : ℕ × K) →
            view self.new q ≡ update (same_key K.eq) (view self.old) (hash, key.now) None q };

    /// Removes all keys, and returns the number of each, in any order.
    ///
    /// # Errors
    /// F7 if memory runs out; nothing has changed.
    fn drain(&mut self) -> Result<Vec<u64>>
        ensures numbers { IfOk result (λ ids. AreNumbersOf K.eq (view self.old) ids.items) }
        ensures view { OnOk result ((q : ℕ × K) → view self.new q ≡ None) }
        ensures refused { IfErr result (λ e. e ≡ NoMemory) }
        ensures err { OnErr result ((q : ℕ × K) → view self.new q ≡ view self.old q) };

    // equal hashed keys are one key
    ghost respects: { (s : Self) (p q : ℕ × K) →
        same_key K.eq p q ≡ true → view s p ≡ view s q };
}

/// Sets the number of a key in an index, which gets a clone of the key.
///
/// # Errors
/// F7 if memory runs out; nothing has changed.
pub(crate) fn insert_clone<K: Key, I: Indexer<K>>(
    index: &mut I,
    hash: u64,
    key: &K,
    id: u64,
) -> Result<()>
    requires clones { (k c : K) → K.is_clone k c → K.eq c k ≡ true }
    ensures view { OnOk result ((q : ℕ × K) →
        I.view index.new q ≡ update (same_key K.eq) (I.view index.old) (hash, key.now) (Some id) q) }
    ensures refused { IfErr result (λ e. e ≡ NoMemory) }
    ensures err { OnErr result ((q : ℕ × K) → I.view index.new q ≡ I.view index.old q) }
{
    let Ok(own) = key.clone() else {
        return Err(Error::new(Reason::NoMemory));
    };
    let _ = index.insert(hash, own, id)?;
    Ok(())
}
