//! Calls that depend on what a key has, beside what the core says of it and does then.

use super::*;
use foyer_core::Hold;
use foyer_memory::Replaced;

impl<H: Wait + RandomSource + Alloc<A = Global> + Copy + Drop + 'static, E: Eviction> Both<H, E> {
    // One call, picked by a number; whether both answered alike.
    pub(super) fn conditional(&mut self, pick: u64, key: u32, value: u64) -> Outcome<bool> {
        // An entry that is held, of this key or another one.
        let place = value as usize % 11;
        match pick {
            16 => self.replace_if(None, key, value),
            17 if value % 3 > 0 => self.replace_if(Some(place), self.key_at(place, key), value),
            17 => self.replace_if(Some(place), key, value),
            18 => self.insert_if_fits(key, value),
            19 => self.remove_this(place),
            _ => self.set_expires(key, (value % 3 > 0).then(|| value / 4 + value % 8)),
        }
    }

    // The key of the entry at this place, if there is one.
    fn key_at(&self, place: usize, key: u32) -> u32 {
        match self.held.get(place) {
            Some((entry, _)) => *entry.key(),
            None => key,
        }
    }

    // An insert if the key has what the entry at this place is of, if there is one, or else has nothing.
    fn replace_if(&mut self, place: Option<usize>, key: u32, value: u64) -> Outcome<bool> {
        let now = self.now;
        let held = match place {
            Some(place) => self.held.get(place),
            None => None,
        };
        let (seen, is_current) = match held {
            Some((entry, Kept(Some(handle)))) => {
                let has = self.core.is_current(now, &key, Some(handle.id()));
                (Some(entry), *entry.key() == key && has)
            }
            _ => (None, self.core.is_current(now, &key, None)),
        };
        let replaced = self
            .cache
            .replace_if(now, seen, key, value, properties(value))?;
        match replaced {
            Replaced::Inserted(entry) => Ok(is_current && self.insert_core(entry, key, value)?),
            Replaced::Changed(found) => {
                let kept = Kept(self.core.get(now, &key)?);
                Ok(!is_current && self.hold_found(found, kept)?)
            }
        }
    }

    // An insert of a record that has to fit.
    fn insert_if_fits(&mut self, key: u32, value: u64) -> Outcome<bool> {
        let fits = self.core.would_fit(&key, 1);
        let made = self
            .cache
            .insert_if_fits(self.now, key, value, properties(value))?;
        match made {
            Some(entry) => Ok(fits && self.insert_core(entry, key, value)?),
            None => Ok(!fits),
        }
    }

    // The core's insert of a record that the cache inserted.
    fn insert_core(&mut self, entry: Entry<H>, key: u32, value: u64) -> Outcome<bool> {
        let made = self
            .core
            .insert_with_properties(self.now, key, value, properties(value));
        let Inserted {
            entry: handle,
            answers,
            leaves,
        } = made.map_err(|refused| refused.error)?;
        self.core.drop_answers(answers);
        let kept = Kept(Some(handle));
        self.note(leaves)?;
        self.hold(entry, kept)
    }

    // A remove of the record that the entry at this place is of.
    fn remove_this(&mut self, place: usize) -> Outcome<bool> {
        let Some((entry, Kept(Some(handle)))) = self.held.get(place) else {
            return Ok(true);
        };
        let is_removed = self.cache.remove_this(entry);
        let hold = Hold {
            hash: handle.hash(),
            id: handle.id(),
            slot: 0,
        };
        let Some(left) = self.core.remove_this(hold) else {
            return Ok(!is_removed);
        };
        self.left.push(Note::Remove(*left.key(), *left.value()))?;
        Ok(is_removed)
    }

    // A look-up, and a put of what it found with another expiry.
    fn set_expires(&mut self, key: u32, expires: Option<u64>) -> Outcome<bool> {
        let is_set = self.cache.set_expires(self.now, &key, expires)?;
        let found = Kept(self.core.get(self.now, &key)?);
        let Some(handle) = &found.0 else {
            return Ok(!is_set);
        };
        let (value, properties) = (*handle.value(), handle.properties().clone()?);
        self.give_back(found)?;
        Ok(self.put_core(key, value, properties.with_expiry(expires))? && is_set)
    }
}
