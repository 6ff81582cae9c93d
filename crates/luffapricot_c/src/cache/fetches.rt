//! Fetches of keys that a cache does not hold.

ghost use Rattle.luffapricot_c.specs.Calls.{IfTaken};
ghost use Rattle.luffapricot_c.specs.Fetches.{Cancels, CompletesOr, Fetches};
ghost use Rattle.luffapricot_c.specs.Statuses.{told_of};

use super::ByteCache;
use super::holds::{answer, hold, keep};
use crate::fetches::LuffaFetch;
use crate::hold::{Held, Hold};
use crate::key::copied;
use crate::record::LuffaRecord;
use crate::status;
use crate::terms::LuffaTerms;
use crate::value::Value;
use foyer_core::{Ended, FetchTarget, Lookup};
use foyer_policy::{Result, Source};

impl ByteCache {
    /// Looks a record up, or waits for the fetch of its key: 0, LEAD, WAIT or a refusal.
    pub(crate) fn fetch(
        &mut self,
        now: u64,
        hash: u64,
        key: &[u8],
        shown: &mut LuffaRecord,
        fetch: &mut LuffaFetch,
    ) -> Result<u32>
        ensures { Fetches now hash key.now result shown.new fetch.new self.old self.new }
    {
        self.holds.reserve(1)?;
        self.asked.set(hash, key)?;
        let number = self.holds.vacant_key();
        match self.core.get_or_enqueue(now, &self.asked, None, number) {
            Ok(Lookup::Hit(entry)) => {
                hold(&mut self.holds, entry, shown);
                Ok(status::OK)
            }
            Ok(
                Lookup::Lead {
                    fetch: id,
                    token,
                    required: _,
                },
            ) => {
                fetch.fetch = id;
                fetch.token = token;
                shown.number = self.holds.insert_reserved(Hold::new(Held::Waiting));
                Ok(status::LEAD)
            }
            Ok(Lookup::Wait { token }) => {
                fetch.token = token;
                shown.number = self.holds.insert_reserved(Hold::new(Held::Waiting));
                Ok(status::WAIT)
            }
            Err(error) => Err(error),
        }
    }

    /// Ends a fetch with a value: 0, MISSING if it is not open, or UNTOLD.
    pub(crate) fn complete(
        &mut self,
        now: u64,
        hash: u64,
        key: &[u8],
        fetch: u64,
        bytes: &[u8],
        terms: &LuffaTerms,
    ) -> Result<u32>
        ensures { IfTaken self.old.left.items (told_of result) self.old self.new
            (CompletesOr now hash key.now fetch bytes.now terms.now result self.old self.new) }
    {
        if !self.left.is_empty() {
            return Ok(status::UNTOLD);
        }
        self.asked.set(hash, key)?;
        let copy = copied(self.alloc, bytes)?;
        let value = Value {
            bytes: copy,
            weight: terms.weight,
            owner: 0,
        };
        let target = FetchTarget::Entry {
            value,
            properties: terms.properties(),
        };
        let Ended {
            found,
            answers,
            leaves,
        } = self
            .core
            .complete(now, &self.asked, fetch, target, Source::Outer);
        keep(&mut self.left, self.has_listener, leaves);
        answer(&mut self.holds, answers);
        Ok(status::of_open(found))
    }

    /// Ends a fetch without a value (F15 for all who wait). Whether it was open.
    pub(crate) fn cancel(&mut self, hash: u64, key: &[u8], fetch: u64) -> Result<bool>
        ensures { Cancels hash key.now fetch result self.old self.new }
    {
        self.asked.set(hash, key)?;
        let Ended {
            found,
            answers,
            leaves: _,
        } = self.core.cancel(&self.asked, fetch);
        answer(&mut self.holds, answers);
        Ok(found)
    }
}
