//! The value under a key, for reading in place.

ghost use Rattle.std.specs.Prelude.{◌≡◌, option_copied};

use super::Store;
use crate::finder::Finder;
use crate::hold::Hold;
use crate::prefetch;
use foyer_policy::{Error, Eviction, Key, Place, Properties, Reason, Result, Value};

impl<E: Eviction, K: Key, V: Value, P: Properties, I: Finder<K>> Store<E, K, V, P, I> {
    ghost use Rattle.foyer_core.specs.Stores.{state_of, meaning_of};
    ghost use Rattle.foyer_core.specs.Holds.{Names};
    ghost use Rattle.foyer_core.specs.NoEntry.{Peeks, Reads};

    /// Counts a use of the record that the key hits at `now`, and returns its name, as `Shard::touch_named` does.
    #[inline(always)]
    pub fn touch_named(&mut self, now: u64, hash: u64, key: &K) -> Result<Option<Hold>>
        ensures reads { Reads (meaning_of self.old) now (state_of self.old) (hash, key.now) (Names (state_of self.new) hash)
            result (state_of self.new) }
    {
        let Some((slot, found)) = self.live_under(now, hash, key) else {
            return Ok(None);
        };
        let handles = found.handles();
        if handles >= self.limits.handles {
            return Err(Error::new(Reason::Handles));
        }
        let id = found.id();
        let place = Place::at(slot);
        prefetch::keep(self.eviction.look_ahead(place));
        self.eviction.acquire(place);
        if handles > 0 {
            return Ok(Some(Hold { hash, id, slot }));
        }
        self.eviction.release(place);
        Ok(Some(Hold { hash, id, slot }))
    }

    /// Returns the value that the key hits at `now`, as `Shard::value` does.
    #[inline(always)]
    pub fn value(&self, now: u64, hash: u64, key: &K) -> Option<&V>
        ensures { Peeks (meaning_of self.now) now (state_of self.now) (hash, key.now) (λ v seen. seen ≡ v) (option_copied result) }
    {
        let (_slot, found) = self.live_under(now, hash, key)?;
        Some(found.value())
    }
}
