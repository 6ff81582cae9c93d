//! Calls that depend on the record that a key or a number has.

ghost use Rattle.slab.specs.Slab.{get};
ghost use Rattle.luffapricot_c.specs.Calls.{OnHeld};
ghost use Rattle.luffapricot_c.specs.Conditional.{InsertsIfFits, RemovesThis, ReplacesIf, SetsExpiryAt, entry_at, seen_at};
ghost use Rattle.luffapricot_c.specs.Statuses.{Tells, fits_of, found_of, told_of};

use crate::record::LuffaRecord;
use crate::terms::LuffaTerms;
use crate::{LuffaShard, status};
use std::alloc::Global;

/// Inserts a record and holds a handle to it, if the key still has the record whose entry `number` names, or, if it names
/// none, if a lookup finds none. Else CHANGED with a handle to the record that a lookup finds, or MISSING. 0, CHANGED,
/// MISSING, FULL if its terms ask that it fits, and it doesn't, NOT_OPEN, or 7 to 10 for F7 to F10.
#[unsafe(no_mangle)]
pub extern "C" fn luffa_shard_replace_if(
    shard: &mut LuffaShard,
    alloc: Global,
    now: u64,
    hash: u64,
    key: &[u8],
    value: &[u8],
    owner: u64,
    terms: &LuffaTerms,
    number: usize,
    shown: &mut LuffaRecord,
) -> u32
    ensures { OnHeld (λ old status new. Tells told_of (λ answer. ReplacesIf now hash key.now value.now owner terms.now (seen_at (get old.holds number)) answer shown.new old new) status)
        shard.old.address.held result shard.new.address.held }
{
    let Some(mut cache) = shard.take(alloc) else {
        return status::NOT_OPEN;
    };
    let status = status::told(cache.replace_if(now, hash, key, value, owner, terms, number, shown));
    *shard = LuffaShard::of(cache);
    status
}

/// Inserts a record and holds a handle to it, if it fits beside what is pinned of other keys. 0, FULL, NOT_OPEN, or 7 to
/// 10 for F7 to F10.
#[unsafe(no_mangle)]
pub extern "C" fn luffa_shard_insert_if_fits(
    shard: &mut LuffaShard,
    alloc: Global,
    now: u64,
    hash: u64,
    key: &[u8],
    value: &[u8],
    owner: u64,
    terms: &LuffaTerms,
    shown: &mut LuffaRecord,
) -> u32
    ensures { OnHeld (λ old status new. Tells fits_of (λ answer. InsertsIfFits now hash key.now value.now owner terms.now answer shown.new old new) status)
        shard.old.address.held result shard.new.address.held }
{
    let Some(mut cache) = shard.take(alloc) else {
        return status::NOT_OPEN;
    };
    let status = status::fits(cache.insert_if_fits(now, hash, key, value, owner, terms, shown));
    *shard = LuffaShard::of(cache);
    status
}

/// Inserts the record whose entry a number names again, with its key, value, weight and priority, and another time at
/// which it expires (0: never). It replaces the record that its key has. 0, MISSING if the number names no record,
/// NOT_OPEN, or 7 to 10 for F7 to F10.
#[unsafe(no_mangle)]
pub extern "C" fn luffa_shard_set_expires(
    shard: &mut LuffaShard,
    alloc: Global,
    now: u64,
    number: usize,
    expires: u64,
) -> u32
    ensures { OnHeld (λ old status new. Tells found_of (λ answer. SetsExpiryAt now (entry_at (get old.holds number)) expires answer old new) status)
        shard.old.address.held result shard.new.address.held }
{
    let Some(mut cache) = shard.take(alloc) else {
        return status::NOT_OPEN;
    };
    let status = status::found(cache.set_expires(now, number, expires));
    *shard = LuffaShard::of(cache);
    status
}

/// Removes the record whose entry a number names, if its key still has it. 0, MISSING if it hasn't, NOT_OPEN, or 7 for
/// F7, and then nothing has changed.
#[unsafe(no_mangle)]
pub extern "C" fn luffa_shard_remove_this(
    shard: &mut LuffaShard,
    alloc: Global,
    number: usize,
) -> u32
    ensures { OnHeld (λ old status new. Tells found_of (λ answer. RemovesThis (entry_at (get old.holds number)) answer old new) status)
        shard.old.address.held result shard.new.address.held }
{
    let Some(mut cache) = shard.take(alloc) else {
        return status::NOT_OPEN;
    };
    let status = status::found(cache.remove_this(number));
    *shard = LuffaShard::of(cache);
    status
}
