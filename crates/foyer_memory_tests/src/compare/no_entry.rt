//! Calls that make no entry, beside calls of the core that make one, which is given back at once.

use super::*;

impl<H: Wait + RandomSource + Alloc<A = Global> + Copy + Drop + 'static, E: Eviction> Both<H, E> {
    // One call, picked by a number; whether both answered alike.
    pub(super) fn without_entry(&mut self, pick: u64, key: u32, value: u64) -> Outcome<bool> {
        let now = self.now;
        match pick {
            8 | 9 => self.put(key, value),
            10 | 11 => Ok(self.cache.read(now, &key, |value| *value)? == self.used(key)?),
            12 => Ok(self.cache.get_copied(now, &key)? == self.used(key)?),
            13 => Ok(self.cache.get_cloned(now, &key)? == self.used(key)?),
            14 => {
                let seen = self.cache.peek(now, &key, |value| *value);
                Ok(seen == self.core.peek(now, &key, |value| *value))
            }
            _ => self.delete(key),
        }
    }

    // A record of which no entry is wanted.
    fn put(&mut self, key: u32, value: u64) -> Outcome<bool> {
        self.cache
            .put_with_properties(self.now, key, value, properties(value))?;
        self.put_core(key, value, properties(value))
    }

    // The core's put.
    pub(super) fn put_core(
        &mut self,
        key: u32,
        value: u64,
        properties: CacheProperties,
    ) -> Outcome<bool> {
        let made = self
            .core
            .insert_with_properties(self.now, key, value, properties);
        let Inserted {
            entry,
            answers,
            leaves,
        } = made.map_err(|refused| refused.error)?;
        self.core.drop_answers(answers);
        let kept = Kept(Some(entry));
        self.note(leaves)?;
        self.give_back(kept)?;
        Ok(true)
    }

    // What the core finds, whose entry is given back.
    fn used(&mut self, key: u32) -> Outcome<Option<u64>> {
        let Some(entry) = self.core.get(self.now, &key)? else {
            return Ok(None);
        };
        let value = *entry.value();
        self.give_back(Kept(Some(entry)))?;
        Ok(Some(value))
    }

    // A remove of which no entry is wanted.
    fn delete(&mut self, key: u32) -> Outcome<bool> {
        let is_deleted = self.cache.delete(&key)?;
        let Some((entry, left)) = self.core.remove(&key)? else {
            return Ok(!is_deleted);
        };
        let kept = Kept(Some(entry));
        self.left.push(Note::Remove(*left.key(), *left.value()))?;
        self.give_back(kept)?;
        Ok(is_deleted)
    }
}
