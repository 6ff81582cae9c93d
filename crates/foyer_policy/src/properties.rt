//! What comes with a record: phantom or not, a hint, a location, an age and an expiry.

ghost use Rattle.std.specs.Prelude.{◌≡◌, ℕ, Bool, Option, Some};
ghost use Rattle.foyer_policy.specs.declared.types.Age.{Age};
ghost use Rattle.foyer_policy.specs.declared.types.Hint.{Hint};
ghost use Rattle.foyer_policy.specs.declared.types.Location.{Location};

use crate::types::{Age, Hint, Location};

/// The properties of a record. A type returns `None` for what it doesn't keep.
pub trait Properties: Default + Drop + 'static {
    // What each method returns.
    ghost phantom_of: { Self → Option Bool };

    ghost hint_of: { Self → Option Hint };

    ghost location_of: { Self → Option Location };

    ghost age_of: { Self → Option Age };

    ghost expiry_of: { Self → Option ℕ };

    // The properties with another phantom flag.
    ghost with_phantom_of: { Self → Bool → Self };

    // The properties with another expiry, or as they are if the type keeps none.
    ghost with_expiry_of: { Self → Option ℕ → Self };

    /// Returns these properties with this value of `phantom`.
    fn with_phantom(self, phantom: bool) -> Self
        ensures { result ≡ with_phantom_of self phantom };

    /// Returns whether the record is phantom: no `get` finds it, and it leaves with its last handle.
    fn phantom(&self) -> Option<bool>
        ensures { result ≡ phantom_of self.now };

    /// Returns these properties with a hint, if the type keeps one.
    fn with_hint(self, hint: Hint) -> Self
        ensures { phantom_of result ≡ phantom_of self };

    /// Returns the hint to the policy.
    fn hint(&self) -> Option<Hint>
        ensures { result ≡ hint_of self.now };

    /// Returns these properties with a location, if the type keeps one.
    fn with_location(self, location: Location) -> Self
        ensures { phantom_of result ≡ phantom_of self };

    /// Returns where the record is to be kept.
    fn location(&self) -> Option<Location>
        ensures { result ≡ location_of self.now };

    /// Returns these properties with an age, if the type keeps one.
    fn with_age(self, age: Age) -> Self
        ensures { phantom_of result ≡ phantom_of self };

    /// Returns how old the disk's copy of the record is.
    fn age(&self) -> Option<Age>
        ensures { result ≡ age_of self.now };

    /// Returns these properties with the time at which the record expires, or `None` for never, if the type keeps it.
    fn with_expiry(self, expires: Option<u64>) -> Self
        ensures { result ≡ with_expiry_of self expires };

    /// Returns the time at which the record expires, or `None` for never.
    ///
    /// From that time on no `get` finds the record, and it is the first to be evicted. Its item has the same
    /// (`Item::expires`).
    fn expiry(&self) -> Option<u64>
        ensures { result ≡ expiry_of self.now };

    // The phantom flag is the given one, and all else stays.
    ghost phantom_given: { (p : Self) (b : Bool) → phantom_of (with_phantom_of p b) ≡ Some b };

    ghost hint_stays: { (p : Self) (b : Bool) → hint_of (with_phantom_of p b) ≡ hint_of p };

    ghost location_stays: { (p : Self) (b : Bool) → location_of (with_phantom_of p b) ≡ location_of p };

    ghost age_stays: { (p : Self) (b : Bool) → age_of (with_phantom_of p b) ≡ age_of p };

    ghost expiry_stays: { (p : Self) (b : Bool) → expiry_of (with_phantom_of p b) ≡ expiry_of p };

    // A given expiry leaves the phantom flag as it is.
    ghost phantom_kept: { (p : Self) (e : Option ℕ) → phantom_of (with_expiry_of p e) ≡ phantom_of p };
}
