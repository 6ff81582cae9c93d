//! Calls for walks over the records of a shard.

ghost use Rattle.std.specs.Prelude.{◌≡◌, true};
ghost use Rattle.slab.specs.Slab.{get};
ghost use Rattle.luffapricot_c.specs.Calls.{OnHeld};
ghost use Rattle.luffapricot_c.specs.Statuses.{Tells, done_of, found_of, open_status};
ghost use Rattle.luffapricot_c.specs.Walks.{ClearsOne, Lists, RemovesListed, ShowsAt, listed_at};

use crate::record::LuffaRecord;
use crate::{LuffaShard, status};
use std::alloc::Global;

/// Lists all records under a number, and writes how many there are. 0, NOT_OPEN, or 7 for F7, and then nothing has
/// changed.
#[unsafe(no_mangle)]
pub extern "C" fn luffa_shard_list(
    shard: &mut LuffaShard,
    alloc: Global,
    number: &mut usize,
    count: &mut usize,
) -> u32
    ensures { OnHeld (λ old status new. Tells done_of (λ answer. Lists {A = Unit {0}} answer number.new count.new old new) status)
        shard.old.address.held result shard.new.address.held }
{
    let Some(mut cache) = shard.take(alloc) else {
        return status::NOT_OPEN;
    };
    let status = status::done(cache.list(number, count));
    *shard = LuffaShard::of(cache);
    status
}

/// Shows a listed record, by its place among those that a number names. 0, MISSING if it isn't resident any more, or
/// NOT_OPEN.
#[unsafe(no_mangle)]
pub extern "C" fn luffa_shard_show_listed(
    shard: &mut LuffaShard,
    alloc: Global,
    number: usize,
    index: usize,
    shown: &mut LuffaRecord,
) -> u32
    ensures { OnHeld (λ old status new. Tells open_status (λ found. ShowsAt (listed_at (get old.holds number) index) found shown.new old) status × (new ≡ old))
        shard.old.address.held result shard.new.address.held }
{
    let Some(cache) = shard.take(alloc) else {
        return status::NOT_OPEN;
    };
    let status = status::of_open(cache.show_listed(number, index, shown));
    *shard = LuffaShard::of(cache);
    status
}

/// Removes a listed record, by its place among those that a number names. 0, MISSING if it isn't resident any more,
/// NOT_OPEN, or 7 for F7, and then nothing has changed.
#[unsafe(no_mangle)]
pub extern "C" fn luffa_shard_remove_listed(
    shard: &mut LuffaShard,
    alloc: Global,
    number: usize,
    index: usize,
) -> u32
    ensures { OnHeld (λ old status new. Tells found_of (λ answer. RemovesListed (listed_at (get old.holds number) index) answer old new) status)
        shard.old.address.held result shard.new.address.held }
{
    let Some(mut cache) = shard.take(alloc) else {
        return status::NOT_OPEN;
    };
    let status = status::found(cache.remove_listed(number, index));
    *shard = LuffaShard::of(cache);
    status
}

/// Tells from now on what leaves, also without a listener. 0 or NOT_OPEN.
#[unsafe(no_mangle)]
pub extern "C" fn luffa_shard_listen(shard: &mut LuffaShard, alloc: Global) -> u32
    ensures { OnHeld (λ old status new. (status ≡ 0) × (new ≡ record old { has_listener = true }))
        shard.old.address.held result shard.new.address.held }
{
    let Some(mut cache) = shard.take(alloc) else {
        return status::NOT_OPEN;
    };
    cache.listen();
    *shard = LuffaShard::of(cache);
    status::OK
}

/// Shows a record that has left and wasn't taken, the last one first, or else one that is removed now. It can be read
/// until the next such call. `slot` begins as 0, and is a call's hint for the next. Takes no memory. 0, MISSING if there
/// is none, or NOT_OPEN.
#[unsafe(no_mangle)]
pub extern "C" fn luffa_shard_clear_one(
    shard: &mut LuffaShard,
    alloc: Global,
    slot: &mut usize,
    shown: &mut LuffaRecord,
) -> u32
    ensures { OnHeld (λ old status new. Tells open_status (λ answer. ClearsOne answer shown.new old new) status)
        shard.old.address.held result shard.new.address.held }
{
    let Some(mut cache) = shard.take(alloc) else {
        return status::NOT_OPEN;
    };
    let status = status::of_open(cache.clear_one(slot, shown));
    *shard = LuffaShard::of(cache);
    status
}
