//! Walks over the records of a cache, by lists of them.

ghost use Rattle.std.specs.Prelude.{◌≡◌, Some, true, option_copied};
ghost use Rattle.slab.specs.Slab.{get};
ghost use Rattle.luffapricot_c.specs.Releases.{ShowsGone};
ghost use Rattle.luffapricot_c.specs.Walks.{ClearsOne, Lists, RemovesListed, ShowsAt, TakesAny, listed_at};

use super::ByteCache;
use super::holds::forget_left;
use crate::hold::{Gone, Held, Hold, Listed};
use crate::record::LuffaRecord;
use foyer_policy::{Event, Result};
use slab::Slab;

// A listed record, by its place among those that a number names.
fn listed(holds: &Slab<Hold>, number: usize, index: usize) -> Option<&Listed>
    ensures { option_copied result ≡ listed_at (get holds.now number) index }
{
    match holds.get(number)?.held() {
        Held::Listed(listed) => listed.get(index),
        _ => None,
    }
}

impl ByteCache {
    /// Lists all records under a number, in the policy's order, and says how many there are. It counts no use.
    pub(crate) fn list(&mut self, number: &mut usize, count: &mut usize) -> Result<()>
        ensures { Lists result number.new count.new self.old self.new }
    {
        self.holds.reserve(1)?;
        let pieces = self.core.pieces(0)?;
        *count = pieces.len();
        *number = self.holds.insert_reserved(Hold::new(Held::Listed(pieces)));
        Ok(())
    }

    /// Shows a listed record, if it is still resident. Whether it is.
    pub(crate) fn show_listed(&self, number: usize, index: usize, shown: &mut LuffaRecord) -> bool
        ensures { ShowsAt (listed_at (get self.now.holds number) index) result shown.new self.now }
    {
        match listed(&self.holds, number, index) {
            Some(piece) if self.core.has_piece(piece) => {
                shown.show_listed(piece);
                true
            }
            _ => false,
        }
    }

    /// Removes a listed record, if it is still resident. Whether it was.
    pub(crate) fn remove_listed(&mut self, number: usize, index: usize) -> Result<bool>
        ensures { RemovesListed (listed_at (get self.old.holds number) index) result self.old self.new }
    {
        self.left.reserve(1)?;
        let Some(piece) = listed(&self.holds, number, index) else {
            return Ok(false);
        };
        match self.core.remove_piece(piece) {
            Some(left) => {
                self.left.push_reserved((Event::Remove, left));
                forget_left(&mut self.left, self.has_listener);
                Ok(true)
            }
            None => Ok(false),
        }
    }

    /// Tells from now on what leaves, as if there had been a listener from the beginning.
    pub(crate) fn listen(&mut self)
        ensures { self.new ≡ record self.old { has_listener = true } }
    {
        self.has_listener = true;
    }

    /// Shows a record that has left and wasn't taken, the last one first, or else one that is removed now. Whether there
    /// is one. It can be read until the next such call.
    ///
    /// Takes no memory. `slot` begins as 0; with the one from the call before, no slot is passed in vain.
    pub(crate) fn clear_one(&mut self, slot: &mut usize, shown: &mut LuffaRecord) -> bool
        ensures { ClearsOne result shown.new self.old self.new }
    {
        if let Some(gone) = self.left.pop() {
            self.show_next(gone, shown);
            return true;
        }
        match self.take_any(slot) {
            Some(gone) => {
                self.show_next(gone, shown);
                true
            }
            None => false,
        }
    }

    // Shows a record that left, and keeps it, so that it can be read.
    fn show_next(&mut self, gone: Gone, shown: &mut LuffaRecord)
        ensures shows { ShowsGone shown.new gone }
        ensures kept { self.new ≡ record self.old { last_shown = Some gone } }
    {
        shown.show_gone(&gone);
        self.last_shown = Some(gone);
    }

    // Removes a record, if there is one.
    fn take_any(&mut self, slot: &mut usize) -> Option<Gone>
        ensures { TakesAny result self.old self.new }
    {
        let name = self.core.resident_from(0, *slot)?;
        *slot = name.slot;
        match self.core.remove_this(name) {
            Some(left) => Some((Event::Clear, left)),
            None => unreachable!(),
        }
    }
}
