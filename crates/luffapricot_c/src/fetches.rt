//! Calls for the fetches of a shard.

ghost use Rattle.luffapricot_c.specs.Calls.{IfTaken, OnHeld};
ghost use Rattle.std.specs.Prelude.{◌≡◌};
ghost use Rattle.slab.specs.Slab.{get};
ghost use Rattle.luffapricot_c.specs.Fetches.{Cancels, CompletesOr, Fetches};
ghost use Rattle.luffapricot_c.specs.Releases.{NumberAnswers};
ghost use Rattle.luffapricot_c.specs.Statuses.{Tells, found_of, told_of};

use crate::record::LuffaRecord;
use crate::terms::LuffaTerms;
use crate::{LuffaShard, status};
use std::alloc::Global;

/// A fetch, as C names it.
#[repr(C)]
#[derive(Drop)]
pub struct LuffaFetch {
    /// The number of the fetch, for the caller that leads it.
    pub fetch: u64,
    /// The number of the token among all of the shard.
    pub token: u64,
}

/// Looks a record up and holds a handle to it; if it is missing, waits for the fetch of its key under a number. 0, LEAD,
/// WAIT, NOT_OPEN, or 7, 9 or 10 for F7, F9 or F10.
#[unsafe(no_mangle)]
pub extern "C" fn luffa_shard_fetch(
    shard: &mut LuffaShard,
    alloc: Global,
    now: u64,
    hash: u64,
    key: &[u8],
    shown: &mut LuffaRecord,
    fetch: &mut LuffaFetch,
) -> u32
    ensures { OnHeld (λ old status new. Tells told_of (λ answer. Fetches now hash key.now answer shown.new fetch.new old new) status)
        shard.old.address.held result shard.new.address.held }
{
    let Some(mut cache) = shard.take(alloc) else {
        return status::NOT_OPEN;
    };
    let status = status::told(cache.fetch(now, hash, key, shown, fetch));
    *shard = LuffaShard::of(cache);
    status
}

/// Ends a fetch with a value. 0, MISSING if it is not open, NOT_OPEN, UNTOLD, or 7 for F7 and then it is still open.
#[unsafe(no_mangle)]
pub extern "C" fn luffa_shard_complete(
    shard: &mut LuffaShard,
    alloc: Global,
    now: u64,
    hash: u64,
    key: &[u8],
    fetch: u64,
    value: &[u8],
    terms: &LuffaTerms,
) -> u32
    ensures { OnHeld (λ old status new. Tells told_of (λ answer. IfTaken old.left.items status old new
        (CompletesOr now hash key.now fetch value.now terms.now answer old new)) status)
        shard.old.address.held result shard.new.address.held }
{
    let Some(mut cache) = shard.take(alloc) else {
        return status::NOT_OPEN;
    };
    let status = status::told(cache.complete(now, hash, key, fetch, value, terms));
    *shard = LuffaShard::of(cache);
    status
}

/// Ends a fetch without a value: F15 for all who wait. 0, MISSING if it is not open, NOT_OPEN, or 7 for F7 and then it
/// is still open.
#[unsafe(no_mangle)]
pub extern "C" fn luffa_shard_cancel(
    shard: &mut LuffaShard,
    alloc: Global,
    hash: u64,
    key: &[u8],
    fetch: u64,
) -> u32
    ensures { OnHeld (λ old status new. Tells found_of (λ answer. Cancels hash key.now fetch answer old new) status)
        shard.old.address.held result shard.new.address.held }
{
    let Some(mut cache) = shard.take(alloc) else {
        return status::NOT_OPEN;
    };
    let status = status::found(cache.cancel(hash, key, fetch));
    *shard = LuffaShard::of(cache);
    status
}

/// What a number that waits was answered. 0 and its record; the number of the refusal; WAIT; MISSING; or NOT_OPEN.
#[unsafe(no_mangle)]
pub extern "C" fn luffa_shard_answered(
    shard: &mut LuffaShard,
    alloc: Global,
    number: usize,
    shown: &mut LuffaRecord,
) -> u32
    ensures { OnHeld (λ old status new. NumberAnswers (get old.holds number) number status shown.new old × (new ≡ old))
        shard.old.address.held result shard.new.address.held }
{
    let Some(cache) = shard.take(alloc) else {
        return status::NOT_OPEN;
    };
    let status = cache.answered(number, shown);
    *shard = LuffaShard::of(cache);
    status
}
