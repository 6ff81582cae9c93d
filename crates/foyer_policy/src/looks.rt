//! How many readings the pops of a policy make, over all its calls.

ghost use Rattle.foyer_policy.specs.Looks.{LooksArePaid};

use crate::eviction::Eviction;

/// The law that bounds the work of pops: over every list of calls of a new policy, the looks of all its pops together
/// are at most the number of victims plus the number of calls of `acquire`.
///
/// Neither the victims of a `clear` nor what it reads are counted. The function does nothing; the law is its
/// contract.
pub fn looks_are_paid<E: Eviction>()
    ensures { LooksArePaid E.model }
{}
