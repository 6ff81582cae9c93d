//! The properties of records in a plain cache.

ghost use Rattle.std.specs.Prelude.{◌≡◌};
ghost use Rattle.foyer_core.specs.State.{coming_in};
ghost use Rattle.foyer_policy.specs.Moments.{is_expired};

use foyer_policy::{Age, Hint, Location, Properties};
use std::marker::Model;

/// Whether a record is phantom, its hint and its expiry. Location and age aren't kept.
#[derive(Clone, Debug, Drop, PartialEq, Eq)]
pub struct CacheProperties {
    // The small fields are side by side, so that the whole takes two words.
    phantom: Option<bool>,
    hint: Hint,
    expires: bool,
    // 0 if the record does not expire
    moment: u64,
}

impl Model for CacheProperties {
    ghost use Rattle.foyer_core.specs.Values.{Answered};
    ghost use Rattle.foyer_core.specs.CacheProperties.{IsPlain, whole, parts, parts-whole};

    ghost Value = { Answered };

    ghost view = { whole };

    ghost invariant = { IsPlain };

    ghost inverse = { parts };

    ghost inverse_ok = { parts-whole };
}

impl Default for CacheProperties {
    ghost use Rattle.std.specs.Prelude.{◌≡◌, None};
    ghost use Rattle.foyer_policy.specs.declared.types.Hint.TheVariants.{Normal};

    ghost is_default = { λ p. p ≡ record { phantom = None; hint = Normal; expires = None } };

    /// Returns properties with no phantom flag, the normal hint and no expiry.
    fn default() -> CacheProperties {
        CacheProperties {
            phantom: None,
            hint: Hint::Normal,
            moment: 0,
            expires: false,
        }
    }
}

impl CacheProperties {
    /// Returns these properties with this hint.
    pub fn with_hint(mut self, hint: Hint) -> Self
        ensures { result ≡ record self { hint = hint } }
    {
        self.hint = hint;
        self
    }

    /// Returns the hint to the policy.
    pub fn hint(&self) -> Hint
        ensures { result ≡ self.now.hint }
    {
        self.hint
    }

    /// Returns these properties with the time at which the record expires, or `None` for never.
    ///
    /// From that time on no `get` finds the record, and it is the first to be evicted. The unit is that of `now`.
    pub fn with_expiry(self, expires: Option<u64>) -> Self
        ensures { result ≡ record self { expires = expires } }
    {
        let (expires, moment) = match expires {
            Some(moment) => (true, moment),
            None => (false, 0),
        };
        CacheProperties {
            phantom: self.phantom,
            hint: self.hint,
            moment,
            expires,
        }
    }

    /// Returns the time at which the record expires, or `None` for never.
    #[inline(always)]
    pub fn expiry(&self) -> Option<u64>
        ensures { result ≡ self.now.expires }
    {
        if self.expires {
            Some(self.moment)
        } else {
            None
        }
    }
}

impl Properties for CacheProperties {
    ghost use Rattle.std.specs.Prelude.{None, Some, refl};

    ghost phantom_of = { λ p. p.phantom };

    ghost hint_of = { λ p. Some p.hint };

    ghost location_of = { λ _. None };

    ghost age_of = { λ _. None };

    ghost expiry_of = { λ p. p.expires };

    ghost with_phantom_of = { λ p b. record p { phantom = Some b } };

    ghost with_expiry_of = { λ p e. record p { expires = e } };

    ghost phantom_given = { λ _ _. refl };

    ghost hint_stays = { λ _ _. refl };

    ghost location_stays = { λ _ _. refl };

    ghost age_stays = { λ _ _. refl };

    ghost expiry_stays = { λ _ _. refl };

    ghost phantom_kept = { λ _ _. refl };

    fn with_phantom(mut self, phantom: bool) -> CacheProperties {
        self.phantom = Some(phantom);
        self
    }

    fn phantom(&self) -> Option<bool> {
        self.phantom
    }

    // The hint is kept.
    fn with_hint(self, hint: Hint) -> CacheProperties
        ensures { result ≡ record self { hint = hint } }
    {
        CacheProperties::with_hint(self, hint)
    }

    fn hint(&self) -> Option<Hint> {
        Some(self.hint)
    }

    fn with_location(self, _location: Location) -> CacheProperties
        ensures { result ≡ self }
    {
        self
    }

    fn location(&self) -> Option<Location> {
        None
    }

    fn with_age(self, _age: Age) -> CacheProperties
        ensures { result ≡ self }
    {
        self
    }

    fn age(&self) -> Option<Age> {
        None
    }

    // The expiry is kept.
    fn with_expiry(self, expires: Option<u64>) -> CacheProperties {
        CacheProperties::with_expiry(self, expires)
    }

    #[inline(always)]
    fn expiry(&self) -> Option<u64> {
        CacheProperties::expiry(self)
    }
}

/// Returns whether a record with this expiry is expired at `now`.
#[inline(always)]
pub(crate) fn is_expired(expiry: Option<u64>, now: u64) -> bool
    ensures { result ≡ is_expired now expiry }
{
    match expiry {
        Some(moment) => moment <= now,
        None => false,
    }
}

/// Returns the properties that a record is inserted with: phantom, if the filter didn't admit it or it is to be on
/// disk alone.
pub fn marked<P: Properties>(properties: P, admitted: bool) -> P
    ensures { result ≡ coming_in P.location_of P.with_phantom_of admitted properties }
{
    let is_on_disk = matches!(properties.location(), Some(Location::OnDisk));
    if !admitted || is_on_disk {
        properties.with_phantom(true)
    } else {
        properties
    }
}
