//! The numbers by which C knows what a call did: 0, those of the refusals (7 for F7), and these.

ghost use Rattle.std.specs.Prelude.{◌≡◌};
ghost use Rattle.foyer_policy.specs.Errors.{number_of};
ghost use Rattle.luffapricot_c.specs.Releases.{event_of};
ghost use Rattle.luffapricot_c.specs.Statuses.{copied_of, done_of, fits_of, found_of, len_of, open_status, told_of};

use foyer_policy::{Error, Event, Result};

pub(crate) const OK: u32 = 0;

pub(crate) const NO_MEMORY: u32 = 7;
/// The key has no record, or the number names nothing.
pub(crate) const MISSING: u32 = 101;
/// The caller leads the fetch of the key.
pub(crate) const LEAD: u32 = 102;
/// The fetch of the key is open: the caller waits with a number.
pub(crate) const WAIT: u32 = 103;
/// A record left with its last handle, and the number names it now.
pub(crate) const LEFT: u32 = 104;
/// No policy has the number.
pub(crate) const NO_POLICY: u32 = 105;
/// The handle holds a cache already.
pub(crate) const IS_OPEN: u32 = 106;
/// The handle holds no cache.
pub(crate) const NOT_OPEN: u32 = 107;
/// What left before has to be taken first.
pub(crate) const UNTOLD: u32 = 108;

/// The key has another record than was seen.
pub(crate) const CHANGED: u32 = 110;
/// The record doesn't fit beside what is pinned.
pub(crate) const FULL: u32 = 111;

/// The number of a refusal.
pub(crate) fn refusal(error: Error) -> u32
    ensures { result ≡ number_of error }
{
    u32::from(error.number())
}

/// The number of a reason to leave.
pub(crate) fn event(event: Event) -> u32
    ensures { result ≡ event_of event }
{
    match event {
        Event::Evict => 0,
        Event::Replace => 1,
        Event::Remove => 2,
        Event::Clear => 3,
    }
}

/// The number of a result.
pub(crate) fn done(answer: Result<()>) -> u32
    ensures { result ≡ done_of answer }
{
    match answer {
        Ok(()) => OK,
        Err(error) => refusal(error),
    }
}

/// The number of a result that says whether there was something.
pub(crate) fn found(answer: Result<bool>) -> u32
    ensures { result ≡ found_of answer }
{
    match answer {
        Ok(true) => OK,
        Ok(false) => MISSING,
        Err(error) => refusal(error),
    }
}

/// The number of a result that says whether a record fitted.
pub(crate) fn fits(answer: Result<bool>) -> u32
    ensures { result ≡ fits_of answer }
{
    match answer {
        Ok(true) => OK,
        Ok(false) => FULL,
        Err(error) => refusal(error),
    }
}

/// The number of a result that is a length, which is written.
#[inline(always)]
pub(crate) fn copied(answer: Result<Option<usize>>, len: &mut usize) -> u32
    ensures status { result ≡ copied_of answer }
    ensures len { len.new ≡ len_of answer len.old }
{
    match answer {
        Ok(Some(found)) => {
            *len = found;
            OK
        }
        Ok(None) => MISSING,
        Err(error) => refusal(error),
    }
}

/// The number of whether something was there.
pub(crate) fn of_open(found: bool) -> u32
    ensures { result ≡ open_status found }
{
    if found { OK } else { MISSING }
}

/// The number of a result that is a number.
pub(crate) fn told(answer: Result<u32>) -> u32
    ensures { result ≡ told_of answer }
{
    match answer {
        Ok(status) => status,
        Err(error) => refusal(error),
    }
}
