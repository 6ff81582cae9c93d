//! Steps of all shards, in their order.

ghost use Rattle.std.specs.Prelude.{◌≡◌, ◌≤◌, false, IsTrue, [], None, OnOk, OnErr, IfOk, IfErr, map, sum_by, vec_len, vec_capacity};
ghost use Rattle.std.specs.List.{AllZip};
ghost use Rattle.foyer_policy.specs.Items.{IsWithin};
ghost use Rattle.foyer_policy.specs.declared.error.Reason.TheVariants.{NoMemory};
ghost use Rattle.foyer_core.specs.Bulk.{GoesOn, Clears, EvictsIf, EvictsUnpinned, EvictingUnpinned, Picks, Says};
ghost use Rattle.foyer_core.specs.CoreBulk.{InTurn, InTurnUntil, ConfiguresEach, NotTaken, TakenByEach, EvictsToCapacity, EvictingToCapacity, SharesOut};
ghost use Rattle.foyer_core.specs.Shards.{opens_of, state_of};
ghost use Rattle.foyer_core.specs.State.{at_moment};
ghost use Rattle.foyer_core.specs.Stored.{meaning};

use super::shards::shard_capacity;
use crate::entry::Leave;
use crate::finder::Finder;
use crate::shard::Shard;
use foyer_policy::{Error, Eviction, Item, Key, Properties, Reason, Result, Value};
use std::alloc::Global;

// Evicts all records that aren't pinned. F7 if memory runs out; the first shards are done, and the evictions made so
// far stand.
pub(super) fn evict_each<
    E: Eviction,
    K: Key,
    V: Value,
    P: Properties,
    N: Drop,
    R: Drop,
    I: Finder<K>,
>(
    shards: &mut Vec<Shard<E, K, V, P, N, R, I>>,
    now: u64,
    leaves: &mut Vec<Leave<K, V, P>>,
) -> Result<()>
    ensures done { OnOk result (GoesOn leaves.old.items leaves.new.items (λ ls. InTurn (EvictsUnpinned (at_moment now (meaning K.eq E.model P.hint_of P.phantom_of P.expiry_of)))
        (map state_of shards.old.items) ls (map state_of shards.new.items))) }
    ensures refused { OnErr result (GoesOn leaves.old.items leaves.new.items
        (λ ls. InTurnUntil (EvictsUnpinned (at_moment now (meaning K.eq E.model P.hint_of P.phantom_of P.expiry_of)))
        (EvictingUnpinned (at_moment now (meaning K.eq E.model P.hint_of P.phantom_of P.expiry_of)))
        (map state_of shards.old.items) ls (map state_of shards.new.items))) }
    ensures reason { IfErr result (λ e. e ≡ NoMemory) }
    ensures opens { map opens_of shards.new.items ≡ map opens_of shards.old.items }
    ensures len { vec_len shards.new ≡ vec_len shards.old }
{
    for place in 0..shards.len() {
        shards[place].evict_unpinned(now, leaves)?;
    }
    Ok(())
}

// Evicts to the capacity of each shard. F7 if memory runs out; the first shards are done, and the evictions made so
// far stand.
pub(super) fn evict_each_to_capacity<
    E: Eviction,
    K: Key,
    V: Value,
    P: Properties,
    N: Drop,
    R: Drop,
    I: Finder<K>,
>(
    shards: &mut Vec<Shard<E, K, V, P, N, R, I>>,
    now: u64,
    leaves: &mut Vec<Leave<K, V, P>>,
) -> Result<()>
    ensures done { OnOk result (GoesOn leaves.old.items leaves.new.items (λ ls. InTurn (EvictsToCapacity (at_moment now (meaning K.eq E.model P.hint_of P.phantom_of P.expiry_of)))
        (map state_of shards.old.items) ls (map state_of shards.new.items))) }
    ensures refused { OnErr result (GoesOn leaves.old.items leaves.new.items
        (λ ls. InTurnUntil (EvictsToCapacity (at_moment now (meaning K.eq E.model P.hint_of P.phantom_of P.expiry_of)))
        (EvictingToCapacity (at_moment now (meaning K.eq E.model P.hint_of P.phantom_of P.expiry_of)))
        (map state_of shards.old.items) ls (map state_of shards.new.items))) }
    ensures reason { IfErr result (λ e. e ≡ NoMemory) }
    ensures opens { map opens_of shards.new.items ≡ map opens_of shards.old.items }
    ensures len { vec_len shards.new ≡ vec_len shards.old }
{
    for place in 0..shards.len() {
        shards[place].evict_to_capacity(now, leaves)?;
    }
    Ok(())
}

// Gives each shard its part of a capacity, and tells its policy. Nothing leaves. Takes no memory.
pub(super) fn share_out<
    E: Eviction,
    K: Key,
    V: Value,
    P: Properties,
    N: Drop,
    R: Drop,
    I: Finder<K>,
>(shards: &mut Vec<Shard<E, K, V, P, N, R, I>>, capacity: usize)
    ensures shares { SharesOut (meaning K.eq E.model P.hint_of P.phantom_of P.expiry_of) capacity (map state_of shards.old.items) (map state_of shards.new.items) }
    ensures opens { map opens_of shards.new.items ≡ map opens_of shards.old.items }
    ensures len { vec_len shards.new ≡ vec_len shards.old }
{
    let count = shards.len();
    for place in 0..count {
        shards[place].set_capacity(shard_capacity(capacity, count, place));
    }
}

// Whether each shard's policy takes a configuration as one of its own.
pub(super) fn taken_by_each<
    E: Eviction,
    K: Key,
    V: Value,
    P: Properties,
    N: Drop,
    R: Drop,
    I: Finder<K>,
>(shards: &Vec<Shard<E, K, V, P, N, R, I>>, config: &E::Config) -> bool
    ensures yes { IsTrue result → TakenByEach (meaning K.eq E.model P.hint_of P.phantom_of P.expiry_of) config.now (map state_of shards.now.items) }
    ensures no { result ≡ false → NotTaken (meaning K.eq E.model P.hint_of P.phantom_of P.expiry_of) config.now (map state_of shards.now.items) }
{
    for place in 0..shards.len() {
        if !shards[place].takes(config) {
            return false;
        }
    }
    true
}

// Gives each shard's policy another configuration, one that it accepts. Nothing leaves. Takes no memory.
pub(super) fn configure_each<
    E: Eviction,
    K: Key,
    V: Value,
    P: Properties,
    N: Drop,
    R: Drop,
    I: Finder<K>,
>(shards: &mut Vec<Shard<E, K, V, P, N, R, I>>, config: &E::Config)
    requires accepted { E.model.fault config.now ≡ None }
    requires taken { TakenByEach (meaning K.eq E.model P.hint_of P.phantom_of P.expiry_of) config.now (map state_of shards.old.items) }
    ensures configured { ConfiguresEach (meaning K.eq E.model P.hint_of P.phantom_of P.expiry_of) config.now
        (map state_of shards.old.items) (map state_of shards.new.items) }
    ensures opens { map opens_of shards.new.items ≡ map opens_of shards.old.items }
    ensures len { vec_len shards.new ≡ vec_len shards.old }
{
    for place in 0..shards.len() {
        shards[place].configure(config);
    }
}

// Removes all records as `Clear`, and returns them. Makes room for all shards first; F7 if memory runs out, and
// nothing has changed.
pub(super) fn clear_each<
    E: Eviction,
    K: Key,
    V: Value,
    P: Properties,
    N: Drop,
    R: Drop,
    I: Finder<K>,
>(shards: &mut Vec<Shard<E, K, V, P, N, R, I>>, alloc: Global) -> Result<Vec<Leave<K, V, P>>>
    ensures done { IfOk result (λ leaves. InTurn (Clears (meaning K.eq E.model P.hint_of P.phantom_of P.expiry_of))
        (map state_of shards.old.items) leaves.items (map state_of shards.new.items)) }
    ensures err { OnErr result (map state_of shards.new.items ≡ map state_of shards.old.items) }
    ensures refused { IfErr result (λ e. e ≡ NoMemory) }
    ensures opens { map opens_of shards.new.items ≡ map opens_of shards.old.items }
    ensures len { vec_len shards.new ≡ vec_len shards.old }
{
    let held = reserve_each(shards, alloc)?;
    let mut leaves = room_for(alloc, &held)?;
    for place in 0..held.len() {
        shards[place].clear(&held[place], &mut leaves);
    }
    Ok(leaves)
}

// Makes room in each policy for a `clear`, and returns the items of each shard. F7 if memory runs out; nothing else
// has changed.
fn reserve_each<E: Eviction, K: Key, V: Value, P: Properties, N: Drop, R: Drop, I: Finder<K>>(
    shards: &mut Vec<Shard<E, K, V, P, N, R, I>>,
    alloc: Global,
) -> Result<Vec<Vec<Item>>>
    ensures same { map state_of shards.new.items ≡ map state_of shards.old.items }
    ensures ready { IfOk result (λ lists. AllZip (λ s list. E.can_clear s.store.eviction
        × (list.items ≡ E.model.order (E.view s.store.eviction))) shards.new.items lists.items) }
    ensures refused { IfErr result (λ e. e ≡ NoMemory) }
    ensures opens { map opens_of shards.new.items ≡ map opens_of shards.old.items }
    ensures len { vec_len shards.new ≡ vec_len shards.old }
{
    let mut lists = Vec::with_capacity(alloc, shards.len())?;
    for place in 0..shards.len() {
        lists.push_reserved(shards[place].reserve_clear()?);
    }
    Ok(lists)
}

// Evicts the records for which the predicate returns true, and returns them. Calls it once for each, and makes room
// for all shards first; F7 if memory runs out, and nothing has changed.
pub(super) fn evict_each_if<
    E: Eviction,
    K: Key,
    V: Value,
    P: Properties,
    N: Drop,
    R: Drop,
    I: Finder<K>,
    F: Fn(&K, &V) -> bool,
>(
    shards: &mut Vec<Shard<E, K, V, P, N, R, I>>,
    alloc: Global,
    predicate: &F,
) -> Result<Vec<Leave<K, V, P>>>
    requires { F.IsAlwaysCallable predicate.now }
    ensures done { IfOk result (λ leaves. InTurn (EvictsIf (meaning K.eq E.model P.hint_of P.phantom_of P.expiry_of)
        (Says F.Fn predicate.now)) (map state_of shards.old.items) leaves.items (map state_of shards.new.items)) }
    ensures err { OnErr result (map state_of shards.new.items ≡ map state_of shards.old.items) }
    ensures refused { IfErr result (λ e. e ≡ NoMemory) }
    ensures opens { map opens_of shards.new.items ≡ map opens_of shards.old.items }
    ensures len { vec_len shards.new ≡ vec_len shards.old }
{
    let picked = pick_each(shards, alloc, predicate)?;
    let mut leaves = room_for(alloc, &picked)?;
    for place in 0..picked.len() {
        shards[place].evict_picked(&picked[place], &mut leaves);
    }
    Ok(leaves)
}

// The items of each shard for which the predicate returns true. Calls it once for each. F7 if memory runs out.
fn pick_each<
    E: Eviction,
    K: Key,
    V: Value,
    P: Properties,
    N: Drop,
    R: Drop,
    I: Finder<K>,
    F: Fn(&K, &V) -> bool,
>(shards: &[Shard<E, K, V, P, N, R, I>], alloc: Global, predicate: &F) -> Result<Vec<Vec<Item>>>
    requires { F.IsAlwaysCallable predicate.now }
    ensures picks { IfOk result (λ lists. AllZip
        (λ s list. Picks (meaning K.eq E.model P.hint_of P.phantom_of P.expiry_of) (Says F.Fn predicate.now)
        (state_of s) list.items × IsWithin list.items (E.model.order (E.view s.store.eviction)))
        shards.now lists.items) }
    ensures refused { IfErr result (λ e. e ≡ NoMemory) }
{
    let mut lists = Vec::with_capacity(alloc, shards.len())?;
    for shard in shards {
        lists.push_reserved(shard.pick(alloc, predicate)?);
    }
    Ok(lists)
}

// An empty list with room for as many as these lists have together. F7 if memory runs out, also for more than a
// `usize` counts.
fn room_for<T: Drop>(alloc: Global, lists: &[Vec<Item>]) -> Result<Vec<T>>
    ensures empty { IfOk result (λ room. room.items ≡ []) }
    ensures none { IfOk result (λ room. vec_len room ≡ 0) }
    ensures room { IfOk result (λ room. sum_by (λ list. vec_len list) lists.now ≤ vec_capacity room) }
    ensures refused { IfErr result (λ e. e ≡ NoMemory) }
{
    let mut count = 0usize;
    for list in lists {
        let Some(more) = count.checked_add(list.len()) else {
            return Err(Error::new(Reason::NoMemory));
        };
        count = more;
    }
    Ok(Vec::with_capacity(alloc, count)?)
}
