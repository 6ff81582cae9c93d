//! A caller of a policy by itself.

ghost use Rattle.std.specs.Prelude.{◌≡◌, ◌+◌, ◌<◌, ◌^◌, Some, IfOk, IfErr, OnOk, OnErr};
ghost use Rattle.foyer_policy.specs.Items.{IsNewIn, weight_of};
ghost use Rattle.foyer_policy.specs.declared.error.Reason.TheVariants.{NoMemory};

use foyer_policy::{Eviction, Item, Place, Result};

/// Makes room for an item, adds it and returns its place. Fails only with F7 (out of memory), and then nothing has
/// changed.
pub fn take_in<E: Eviction>(policy: &mut E, item: Item) -> Result<Place>
    requires new_id { IsNewIn item.id (E.model.order (E.view policy.old)) }
    requires fits { item.weight + weight_of (E.model.order (E.view policy.old)) < 2 ^ 64 }
    ensures view { OnOk result (E.view policy.new ≡ E.model.push (E.view policy.old) item) }
    ensures here { IfOk result (λ place. E.at policy.new place ≡ Some item) }
    ensures refused { IfErr result (λ e. e ≡ NoMemory) }
    ensures err { OnErr result (E.view policy.new ≡ E.view policy.old) }
{
    policy.reserve()?;
    Ok(policy.push(item))
}
