//! A policy by itself.

use crate::parts::twice;
use crate::word::Shown;
use foyer_policy::{AnyEviction, Eviction, EvictionConfig, Hint, Item, Result};
use std::alloc::Global;

/// Shows the call of this name, where it is one of these.
pub fn shown(alloc: Global, config: &EvictionConfig, name: &str) -> Option<Shown> {
    match name {
        "policy_new" => Some(opened(alloc, config)),
        "policy_reserve" => Some(asked(alloc, config, |policy| policy.reserve())),
        "policy_reserve_clear" => Some(asked(alloc, config, |policy| policy.reserve_clear())),
        "policy_order" => Some(asked(alloc, config, |policy| policy.order().map(|_| ()))),
        "policy_pop" => Some(asked(alloc, config, |policy| policy.pop().map(|_| ()))),
        "policy_clear" => Some(cleared(alloc, config)),
        "policy_uses" => Some(used(alloc, config)),
        _ => None,
    }
}

fn opened(alloc: Global, config: &EvictionConfig) -> Shown {
    twice(
        &mut (),
        |_| AnyEviction::new(alloc, 100, config).map(|_| ()),
        |_| true,
    )
}

fn item(id: u64) -> Item {
    Item {
        id,
        hash: id,
        weight: 1,
        hint: Hint::Normal,
        expires: None,
    }
}

// A policy of capacity 12 with four items, whose lists have no room.
fn filled(alloc: Global, config: &EvictionConfig) -> Result<AnyEviction> {
    let mut policy = AnyEviction::new(alloc, 12, config)?;
    for id in 0..4 {
        policy.reserve()?;
        let _ = policy.push(item(id));
    }
    Ok(policy)
}

// A policy that refuses has the same order, and answers the same call then.
fn asked<C: Fn(&mut AnyEviction) -> Result<()>>(
    alloc: Global,
    config: &EvictionConfig,
    call: C,
) -> Shown {
    let Ok(mut policy) = filled(alloc, config) else {
        return Shown::Early;
    };
    let Ok(before) = policy.order() else {
        return Shown::Early;
    };
    twice(&mut policy, call, |policy| {
        policy
            .order()
            .is_ok_and(|order| order.as_slice() == before.as_slice())
    })
}

// A clear behind its room takes no memory.
fn cleared(alloc: Global, config: &EvictionConfig) -> Shown {
    let Ok(mut policy) = filled(alloc, config) else {
        return Shown::Early;
    };
    let Ok(()) = policy.reserve_clear() else {
        return Shown::Early;
    };
    policy.clear();
    match policy.pop() {
        Ok(None) => Shown::Done,
        _ => Shown::Wrong("what a clear left"),
    }
}

// What takes no memory once there is room for an item.
fn used(alloc: Global, config: &EvictionConfig) -> Shown {
    let Ok(mut policy) = filled(alloc, config) else {
        return Shown::Early;
    };
    let Ok(()) = policy.reserve() else {
        return Shown::Early;
    };
    let one = item(4);
    let place = policy.push(one);
    policy.acquire(place);
    policy.release(place);
    let updated = policy.update(12, Some(config)).is_ok();
    if updated && policy.remove(place) == one {
        return Shown::Done;
    }
    Shown::Wrong("the uses of an item")
}
