//! Calls for all records of a shard.

ghost use Rattle.std.specs.Prelude.{◌≡◌, ◌%◌, ◌/◌, ◌^◌, None, Some, MatchOption, is_some};
ghost use Rattle.slab.specs.Slab.{get};
ghost use Rattle.foyer_core.specs.Core.{entries_of_core, usage_of_core};
ghost use Rattle.foyer_core.specs.Cores.{core_of, meaning_of_core};
ghost use Rattle.luffapricot_c.specs.Bulk.{ClearsAll, EvictsAll, Reconfigures, ResizesTo};
ghost use Rattle.luffapricot_c.specs.Calls.{IfTaken, OnHeld};
ghost use Rattle.luffapricot_c.specs.Policies.{config_of};
ghost use Rattle.luffapricot_c.specs.Releases.{ShowsLeft, TakesLeft, left_at};
ghost use Rattle.luffapricot_c.specs.Statuses.{Tells, found_of, open_status};

use crate::policy::LuffaPolicy;
use crate::record::LuffaRecord;
use crate::{LuffaShard, status};
use std::alloc::Global;

/// What a shard holds. The usage is the sum of weights that each fit a word, so it may take two.
#[repr(C)]
#[derive(Drop)]
pub struct LuffaLoad {
    pub usage: u64,
    pub usage_high: u64,
    pub entries: u64,
}

/// Sets the capacity and evicts down to it. 0, NOT_OPEN, UNTOLD, or 7 for F7; the evictions so far then stand.
#[unsafe(no_mangle)]
pub extern "C" fn luffa_shard_resize(
    shard: &mut LuffaShard,
    alloc: Global,
    now: u64,
    capacity: usize,
) -> u32
    ensures { OnHeld (λ old status new. IfTaken old.left.items status old new (ResizesTo now capacity status old new))
        shard.old.address.held result shard.new.address.held }
{
    let Some(mut cache) = shard.take(alloc) else {
        return status::NOT_OPEN;
    };
    let status = cache.resize(now, capacity);
    *shard = LuffaShard::of(cache);
    status
}

/// Evicts all that is not pinned. 0, NOT_OPEN, UNTOLD, or 7 for F7; the evictions so far then stand.
#[unsafe(no_mangle)]
pub extern "C" fn luffa_shard_evict_all(shard: &mut LuffaShard, alloc: Global, now: u64) -> u32
    ensures { OnHeld (λ old status new. IfTaken old.left.items status old new (EvictsAll now status old new))
        shard.old.address.held result shard.new.address.held }
{
    let Some(mut cache) = shard.take(alloc) else {
        return status::NOT_OPEN;
    };
    let status = cache.evict_all(now);
    *shard = LuffaShard::of(cache);
    status
}

/// Removes all. 0, NOT_OPEN, UNTOLD, or 7 for F7, and then nothing has changed.
#[unsafe(no_mangle)]
pub extern "C" fn luffa_shard_clear(shard: &mut LuffaShard, alloc: Global) -> u32
    ensures { OnHeld (λ old status new. IfTaken old.left.items status old new (ClearsAll status old new))
        shard.old.address.held result shard.new.address.held }
{
    let Some(mut cache) = shard.take(alloc) else {
        return status::NOT_OPEN;
    };
    let status = cache.clear();
    *shard = LuffaShard::of(cache);
    status
}

/// Sets the configuration of the policy. 0, NOT_OPEN, NO_POLICY, 2 to 6 for F2 to F6, or 17 for F17.
#[unsafe(no_mangle)]
pub extern "C" fn luffa_shard_reconfigure(
    shard: &mut LuffaShard,
    alloc: Global,
    policy: &LuffaPolicy,
) -> u32
    ensures { MatchOption (config_of policy.now) ((result ≡ 105) × (shard.new.address.held ≡ shard.old.address.held))
        (λ config. OnHeld (λ old status new. Reconfigures config status old new) shard.old.address.held result shard.new.address.held) }
{
    let Some(config) = policy.config() else {
        return status::NO_POLICY;
    };
    let Some(mut cache) = shard.take(alloc) else {
        return status::NOT_OPEN;
    };
    let status = cache.reconfigure(&config);
    *shard = LuffaShard::of(cache);
    status
}

/// Writes what the shard holds. 0 or NOT_OPEN.
#[unsafe(no_mangle)]
pub extern "C" fn luffa_shard_load(
    shard: &mut LuffaShard,
    alloc: Global,
    load: &mut LuffaLoad,
) -> u32
    ensures { OnHeld (λ old status new. (status ≡ 0) × (new ≡ old)
        × (load.new.usage ≡ usage_of_core (meaning_of_core old.core) (core_of old.core) % 2 ^ 64)
        × (load.new.usage_high ≡ usage_of_core (meaning_of_core old.core) (core_of old.core) / 2 ^ 64)
        × (load.new.entries ≡ entries_of_core (meaning_of_core old.core) (core_of old.core) % 2 ^ 64))
        shard.old.address.held result shard.new.address.held }
{
    let Some(cache) = shard.take(alloc) else {
        return status::NOT_OPEN;
    };
    let usage = cache.usage();
    load.usage = (usage % (1 << 64)) as u64;
    load.usage_high = (usage / (1 << 64)) as u64;
    load.entries = (cache.entries() % (1 << 64)) as u64;
    *shard = LuffaShard::of(cache);
    status::OK
}

/// Moves what left under a number, and writes how many records that names. 0, MISSING if nothing left, NOT_OPEN, or 7
/// for F7, and then nothing has changed.
#[unsafe(no_mangle)]
pub extern "C" fn luffa_shard_take_left(
    shard: &mut LuffaShard,
    alloc: Global,
    number: &mut usize,
    count: &mut usize,
) -> u32
    ensures { OnHeld (λ old status new. Tells found_of (λ answer. TakesLeft answer number.new count.new old new) status)
        shard.old.address.held result shard.new.address.held }
{
    let Some(mut cache) = shard.take(alloc) else {
        return status::NOT_OPEN;
    };
    let status = status::found(cache.take_left(number, count));
    *shard = LuffaShard::of(cache);
    status
}

/// Shows a record that left, by its place among those that a number names. 0, MISSING or NOT_OPEN.
#[unsafe(no_mangle)]
pub extern "C" fn luffa_shard_show_left(
    shard: &mut LuffaShard,
    alloc: Global,
    number: usize,
    index: usize,
    shown: &mut LuffaRecord,
) -> u32
    ensures { OnHeld (λ old status new. (new ≡ old) × (status ≡ open_status (is_some (left_at (get old.holds number) index)))
        × ShowsLeft (left_at (get old.holds number) index) shown.new)
        shard.old.address.held result shard.new.address.held }
{
    let Some(cache) = shard.take(alloc) else {
        return status::NOT_OPEN;
    };
    let status = status::of_open(cache.show_left(number, index, shown));
    *shard = LuffaShard::of(cache);
    status
}
