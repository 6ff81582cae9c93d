//! Inserts and removals that depend on the record that a key or a number has.

ghost use Rattle.std.specs.Prelude.{◌≡◌, IfErr, IfOk, option_copied};
ghost use Rattle.foyer_policy.specs.declared.error.Reason.TheVariants.{NoMemory};
ghost use Rattle.slab.specs.Slab.{get};
ghost use Rattle.luffapricot_c.specs.Bytes.{asks_fit};
ghost use Rattle.luffapricot_c.specs.Conditional.{FitsIn, InsertsBy, InsertsIfFits, RemovesThis, ReplacesIf, SetsExpiryAt, StillHas, entry_at, seen_at};

use super::ByteCache;
use super::holds::forget_left;
use crate::hold::{Entry, Held, Hold};
use crate::key::Key;
use crate::record::LuffaRecord;
use crate::status;
use crate::terms::{LuffaTerms, plain_properties};
use foyer_policy::{Event, Result};
use slab::Slab;

// The entry that a number names.
fn entry(holds: &Slab<Hold>, number: usize) -> Option<&Entry>
    ensures { option_copied result ≡ entry_at (get holds.now number) }
{
    match holds.get(number)?.held() {
        Held::Entry(entry) => Some(entry),
        _ => None,
    }
}

// The id of the record whose entry a number names.
fn seen(holds: &Slab<Hold>, number: usize) -> Option<u64>
    ensures { result ≡ seen_at (get holds.now number) }
{
    match entry(holds, number) {
        Some(entry) => Some(entry.name().id),
        None => None,
    }
}

impl ByteCache {
    /// Inserts a record as `insert_by` does, if the key still has the record whose entry `number` names, or, if it names
    /// none, if a lookup finds none. Else it holds a handle to the record that a lookup finds: CHANGED, or MISSING if
    /// there is none.
    pub(crate) fn replace_if(
        &mut self,
        now: u64,
        hash: u64,
        key: &[u8],
        bytes: &[u8],
        owner: u64,
        terms: &LuffaTerms,
        number: usize,
        shown: &mut LuffaRecord,
    ) -> Result<u32>
        ensures { ReplacesIf now hash key.now bytes.now owner terms.now (seen_at (get self.old.holds number)) result shown.new self.old self.new }
    {
        let is_current = self.still_has(now, hash, key, number)?;
        if is_current {
            return self.insert_by(now, hash, key, bytes, owner, terms, shown);
        }
        match self.get_entry(now, hash, key, shown) {
            Ok(true) => Ok(status::CHANGED),
            Ok(false) => Ok(status::MISSING),
            Err(error) => Err(error),
        }
    }

    // Inserts a record and holds a handle to it, or FULL if its terms ask that it fits, and it doesn't.
    fn insert_by(
        &mut self,
        now: u64,
        hash: u64,
        key: &[u8],
        bytes: &[u8],
        owner: u64,
        terms: &LuffaTerms,
        shown: &mut LuffaRecord,
    ) -> Result<u32>
        ensures { InsertsBy (asks_fit terms.now) now hash key.now bytes.now owner terms.now result shown.new self.old self.new }
    {
        if terms.only_if_fits() {
            return match self.insert_if_fits(now, hash, key, bytes, owner, terms, shown) {
                Ok(true) => Ok(status::OK),
                Ok(false) => Ok(status::FULL),
                Err(error) => Err(error),
            };
        }
        match self.insert_entry(now, hash, key, bytes, owner, terms, shown) {
            Ok(()) => Ok(status::OK),
            Err(error) => Err(error),
        }
    }

    // Whether the key still has the record whose entry a number names, or, if it names none, a lookup finds none.
    fn still_has(&self, now: u64, hash: u64, key: &[u8], number: usize) -> Result<bool>
        ensures has { IfOk result (λ answer. StillHas now hash key.now (seen_at (get self.now.holds number)) answer self.now) }
        ensures refused { IfErr result (λ e. e ≡ NoMemory) }
    {
        let own = Key::new(self.alloc, hash, key)?;
        Ok(self.core.is_current(now, &own, seen(&self.holds, number)))
    }

    /// Inserts a record and holds a handle to it, if it fits the capacity beside what is pinned of other keys. Whether it
    /// does.
    pub(crate) fn insert_if_fits(
        &mut self,
        now: u64,
        hash: u64,
        key: &[u8],
        bytes: &[u8],
        owner: u64,
        terms: &LuffaTerms,
        shown: &mut LuffaRecord,
    ) -> Result<bool>
        ensures { InsertsIfFits now hash key.now bytes.now owner terms.now result shown.new self.old self.new }
    {
        if !self.fits(hash, key, terms.weight)? {
            return Ok(false);
        }
        match self.insert_entry(now, hash, key, bytes, owner, terms, shown) {
            Ok(()) => Ok(true),
            Err(error) => Err(error),
        }
    }

    // Whether a record of this key and weight fits the capacity beside what is pinned of other keys.
    fn fits(&self, hash: u64, key: &[u8], weight: usize) -> Result<bool>
        ensures fits { IfOk result (λ answer. FitsIn hash key.now weight answer self.now) }
        ensures refused { IfErr result (λ e. e ≡ NoMemory) }
    {
        let own = Key::new(self.alloc, hash, key)?;
        Ok(self.core.would_fit(&own, weight))
    }

    /// Inserts the record whose entry a number names again, with another time at which it expires (0: never), and holds
    /// no handle to it. Whether there is one.
    pub(crate) fn set_expires(&mut self, now: u64, number: usize, expires: u64) -> Result<bool>
        ensures { SetsExpiryAt now (entry_at (get self.old.holds number)) expires result self.old self.new }
    {
        let Some(entry) = entry(&self.holds, number) else {
            return Ok(false);
        };
        let Some(record) = self.core.held(entry.name()) else {
            return Ok(false);
        };
        let key = Key::new(self.alloc, record.key().hash, record.key().bytes.as_slice())?;
        let value = record.value().copied(self.alloc)?;
        let properties = plain_properties(expires).with_hint(record.properties().hint());
        match self.put(now, key, value, properties) {
            Ok(()) => Ok(true),
            Err(error) => Err(error),
        }
    }

    /// Removes the record whose entry a number names, if its key still has it. Whether it had.
    pub(crate) fn remove_this(&mut self, number: usize) -> Result<bool>
        ensures { RemovesThis (entry_at (get self.old.holds number)) result self.old self.new }
    {
        self.left.reserve(1)?;
        let Some(entry) = entry(&self.holds, number) else {
            return Ok(false);
        };
        match self.core.remove_this(entry.name()) {
            Some(left) => {
                self.left.push_reserved((Event::Remove, left));
                forget_left(&mut self.left, self.has_listener);
                Ok(true)
            }
            None => Ok(false),
        }
    }
}
