//! Policies at a given time: the items that are due leave first.

ghost use Rattle.std.specs.Prelude.{◌≡◌, Bool};
ghost use Rattle.foyer_policy.specs.Items.{HasIdsOnce};
ghost use Rattle.foyer_policy.specs.Moments.{due_first, victims_due};
ghost use Rattle.foyer_policy.specs.Policy.{IsPolicy, pops};
ghost use Rattle.foyer_policy.specs.declared.types.Item.{Item};

use crate::eviction::Eviction;

/// The law that a policy at a given time is a policy: whichever items are due, the policy in which they leave first,
/// and which is otherwise the same, meets the laws of `IsPolicy`.
///
/// The function does nothing; the law is its contract.
pub fn due_first_is_a_policy<E: Eviction>()
    ensures { (is_due : Item → Bool) → IsPolicy (due_first is_due E.model) }
{}

/// The law of what leaves at a given time: whichever items are due, if no id occurs twice, all that leaves is, in
/// order, the due items that aren't pinned, in the policy's order, and then what the policy pops once these are
/// removed.
///
/// The function does nothing; the law is its contract.
pub fn victims_are_closed<E: Eviction>()
    ensures { (is_due : Item → Bool) (v : E.View) → HasIdsOnce (E.model.order v)
        → pops (due_first is_due E.model) v ≡ victims_due is_due E.model v }
{}
