//! A cache's time to live.

ghost use Rattle.std.specs.Prelude.{◌≡◌};
ghost use Rattle.foyer_raw.specs.Lives.{living};

use crate::counted::At;
use foyer_policy::Properties;

/// These properties, with an expiry at `now + time_to_live` (at most 2^64 - 1) if they have none of their own.
#[inline(always)]
pub(crate) fn expiring<P: Properties>(properties: P, now: At, time_to_live: Option<u64>) -> P
    ensures { result ≡ living P.expiry_of P.with_expiry_of now.0 time_to_live properties }
{
    let Some(time_to_live) = time_to_live else {
        return properties;
    };
    if properties.expiry().is_some() {
        return properties;
    }
    properties.with_expiry(Some(now.expiry(time_to_live)))
}
