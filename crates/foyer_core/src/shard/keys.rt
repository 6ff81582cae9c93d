//! Calls on a key, beside `get`.

ghost use Rattle.std.specs.Prelude.{◌≡◌, IfOk, IfSome, option_copied, true};
ghost use Rattle.std.specs.Fn.{FnOnceReturnsAt};

use super::Shard;
use crate::entry::{CoreEntry, Left};
use crate::finder::Finder;
use foyer_policy::{Eviction, Key, Properties, Result, Value};

impl<E: Eviction, K: Key, V: Value, P: Properties, N: Drop, R: Drop, I: Finder<K>> Shard<
    E,
    K,
    V,
    P,
    N,
    R,
    I,
> {
    ghost use Rattle.foyer_core.specs.Shards.{state_of, meaning_of, opens_of};
    ghost use Rattle.foyer_core.specs.NoEntry.{Deletes, Peeks, Reads, SeesLive};
    ghost use Rattle.foyer_core.specs.Steps.{Removes, Touches};

    /// Counts a use of the record that the key hits at `now`, and returns what `look` makes of its value.
    ///
    /// No entry is made and no handle is left over. Takes no memory.
    ///
    /// # Errors
    /// F9 if the handle count would pass its limit; nothing has changed.
    #[inline(always)]
    pub fn read<T, F: FnOnce(&V) -> T>(
        &mut self,
        now: u64,
        hash: u64,
        key: &K,
        look: F,
    ) -> Result<Option<T>>
        requires callable { F.IsAlwaysCallable look }
        ensures reads { Reads (meaning_of self.old) now (state_of self.old) (hash, key.now)
            (FnOnceReturnsAt F.FnOnce look) result (state_of self.new) }
        ensures asked { IfOk result (λ found. IfSome found (SeesLive K.eq P.expiry_of now key.now (FnOnceReturnsAt F.FnOnce look))) }
        ensures opens { opens_of self.new ≡ opens_of self.old }
    {
        self.store.read(now, hash, key, look)
    }

    /// Returns the value that the key hits at `now`. It counts no use, and takes no memory.
    #[inline(always)]
    pub fn value(&self, now: u64, hash: u64, key: &K) -> Option<&V>
        ensures { Peeks (meaning_of self.now) now (state_of self.now) (hash, key.now) (λ v seen. seen ≡ v) (option_copied result) }
    {
        self.store.value(now, hash, key)
    }

    /// Returns what `look` makes of the value that the key hits at `now`. It counts no use, and takes no memory.
    #[inline(always)]
    pub fn peek<T, F: FnOnce(&V) -> T>(&self, now: u64, hash: u64, key: &K, look: F) -> Option<T>
        requires callable { F.IsAlwaysCallable look }
        ensures peeks { Peeks (meaning_of self.now) now (state_of self.now) (hash, key.now) (FnOnceReturnsAt F.FnOnce look) result }
        ensures asked { IfSome result (SeesLive K.eq P.expiry_of now key.now (FnOnceReturnsAt F.FnOnce look)) }
    {
        self.store.peek(now, hash, key, look)
    }

    /// Returns whether a `get` at `now` finds the key, and if so counts a use of its record. Takes no memory.
    ///
    /// # Errors
    /// F9 if the handle count would pass its limit; nothing has changed.
    pub fn touch(&mut self, now: u64, hash: u64, key: &K) -> Result<bool>
        ensures touches { Touches (meaning_of self.old) now (state_of self.old) (hash, key.now) result (state_of self.new) }
        ensures opens { opens_of self.new ≡ opens_of self.old }
    {
        self.store.touch(now, hash, key)
    }

    /// Removes the key's record, expired or not, and returns an entry of it and the record as it left (`Remove`).
    ///
    /// Allocates nothing.
    ///
    /// # Errors
    /// F9 if the handle count would pass its limit, F7 if a reference count is full; nothing has changed.
    pub fn remove(
        &mut self,
        hash: u64,
        key: &K,
    ) -> Result<Option<(CoreEntry<K, V, P>, Left<K, V, P>)>>
        ensures removes { Removes (meaning_of self.old) (state_of self.old) (hash, key.now) result (state_of self.new) }
        ensures asked { IfOk result (λ taken. IfSome taken (λ out. K.eq key.now out.0.kept.key ≡ true)) }
        ensures opens { opens_of self.new ≡ opens_of self.old }
    {
        self.store.remove(hash, key)
    }

    /// Removes the key's record, expired or not, and returns it as it left (`Remove`). No entry is made.
    ///
    /// Takes no memory.
    ///
    /// # Errors
    /// F9 if the handle count would pass its limit; nothing has changed.
    pub fn delete(&mut self, hash: u64, key: &K) -> Result<Option<Left<K, V, P>>>
        ensures deletes { Deletes (meaning_of self.old) (state_of self.old) (hash, key.now) result (state_of self.new) }
        ensures opens { opens_of self.new ≡ opens_of self.old }
    {
        self.store.delete(hash, key)
    }
}
