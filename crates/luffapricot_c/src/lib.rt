//! A cache of bytes of one shard, which C holds by its address.
//!
//! Nothing here locks. C makes one call at a time for a shard, and overlaps no buffers that it lends to a call.
#![tactic(auto)]

ghost use Rattle.std.specs.Prelude.{◌≡◌, ◌≢◌, true};
ghost use Rattle.slab.specs.Slab.{get};
ghost use Rattle.std.specs.Prelude.{is_some, IfNone, IfSome, IsSome, None, Some, if◌then◌else◌, is_some};
ghost use Rattle.luffapricot_c.specs.Bytes.{expiry_of, plain, properties_of};
ghost use Rattle.luffapricot_c.specs.Calls.{FindsKey, GetsCopy, GetsEntry, Inserts, InsertsEntry, OnHeld, PeeksCopy, RemovesEntry, TouchesKey};
ghost use Rattle.luffapricot_c.specs.Opening.{Creates};
ghost use Rattle.luffapricot_c.specs.Policies.{config_of};
ghost use Rattle.luffapricot_c.specs.Releases.{Releases};
ghost use Rattle.luffapricot_c.specs.Statuses.{Tells, copied_of, done_of, found_of, len_of};

use address::Address;
use cache::ByteCache;
use loose::Loose;
use std::alloc::Global;
use std::mem;
use std::ptr::null_mut;

mod address;
mod bulk;
mod cache;
mod conditional;
mod fetches;
mod hold;
mod key;
mod loose;
mod policy;
mod record;
mod status;
mod terms;
mod value;
mod walks;

pub use bulk::LuffaLoad;
pub use fetches::LuffaFetch;
pub use policy::{LuffaPolicy, LuffaRatio};
pub use record::LuffaRecord;
pub use terms::LuffaTerms;

/// What C holds of a cache. It begins as zeros, and only the calls below change it.
#[repr(C)]
#[derive(Drop)]
pub struct LuffaShard {
    address: Address,
    is_open: bool,
    ghost told: { is_open ≡ is_some address.held },
}

impl LuffaShard {
    // What C holds of a box.
    #[inline(always)]
    fn of(cache: Box<ByteCache>) -> LuffaShard
        ensures { result.address.held ≡ Some cache.value }
    {
        LuffaShard {
            address: Address::of(Loose::of(cache)),
            is_open: true,
        }
    }

    // What C holds of no box.
    #[inline(always)]
    fn empty(alloc: Global) -> LuffaShard
        ensures { result.address.held ≡ None }
    {
        LuffaShard {
            address: Address::none(no_address(), alloc),
            is_open: false,
        }
    }

    // Takes the box out.
    #[inline(always)]
    fn take(&mut self, alloc: Global) -> Option<Box<ByteCache>>
        ensures taken { IfSome result (λ cache. self.old.address.held ≡ Some cache.value) }
        ensures none { IfNone result (self.old.address.held ≡ None) }
        ensures empty { self.new.address.held ≡ None }
    {
        if !self.is_open {
            return None;
        }
        let LuffaShard {
            address,
            is_open: _,
        } = mem::replace(self, LuffaShard::empty(alloc));
        Some(address.into_loose().into_box())
    }
}

// The null pointer.
fn no_address() -> *mut u8 {
    null_mut()
}

/// Creates a cache of this policy and capacity. 0, IS_OPEN, NO_POLICY, or 2 to 7 for F2 to F7.
#[unsafe(no_mangle)]
pub extern "C" fn luffa_shard_create(
    shard: &mut LuffaShard,
    alloc: Global,
    policy: &LuffaPolicy,
    capacity: usize,
    has_listener: bool,
) -> u32
    ensures { Creates shard.old.address.held (config_of policy.now) capacity has_listener result shard.new.address.held }
{
    if shard.is_open {
        return status::IS_OPEN;
    }
    let Some(config) = policy.config() else {
        return status::NO_POLICY;
    };
    match ByteCache::new(alloc, config, capacity, has_listener) {
        Ok(cache) => match Box::new(alloc, cache) {
            Ok(cache) => {
                *shard = LuffaShard::of(cache);
                status::OK
            }
            Err(_) => status::NO_MEMORY,
        },
        Err(error) => status::refusal(error),
    }
}

/// Frees the cache with all that C holds of it. 0 or NOT_OPEN.
#[unsafe(no_mangle)]
pub extern "C" fn luffa_shard_destroy(shard: &mut LuffaShard, alloc: Global) -> u32
    ensures closed { shard.new.address.held ≡ None }
    ensures status { result ≡ (if is_some shard.old.address.held then 0 else 107) }
{
    match shard.take(alloc) {
        Some(_cache) => status::OK,
        None => status::NOT_OPEN,
    }
}

/// Inserts a record. It never expires if `expires` is 0. 0, NOT_OPEN, or 7 to 10 for F7 to F10.
#[unsafe(no_mangle)]
pub extern "C" fn luffa_shard_insert(
    shard: &mut LuffaShard,
    alloc: Global,
    now: u64,
    hash: u64,
    key: &[u8],
    value: &[u8],
    weight: usize,
    expires: u64,
) -> u32
    ensures { OnHeld (λ old status new. Tells done_of (λ answer. Inserts {A = Unit {0}} now hash key.now value.now 0 weight (plain (expiry_of expires)) answer old new) status)
        shard.old.address.held result shard.new.address.held }
{
    let Some(mut cache) = shard.take(alloc) else {
        return status::NOT_OPEN;
    };
    let status = status::done(cache.insert(now, hash, key, value, weight, expires));
    *shard = LuffaShard::of(cache);
    status
}

/// Inserts a record and holds a handle to it, which the record names. `owner` is 0, or a number that the caller gives in
/// place of bytes, and that is shown with the record. 0, NOT_OPEN, or 7 to 10 for F7 to F10.
#[unsafe(no_mangle)]
pub extern "C" fn luffa_shard_insert_entry(
    shard: &mut LuffaShard,
    alloc: Global,
    now: u64,
    hash: u64,
    key: &[u8],
    value: &[u8],
    owner: u64,
    terms: &LuffaTerms,
    shown: &mut LuffaRecord,
) -> u32
    ensures { OnHeld (λ old status new. Tells done_of (λ answer. InsertsEntry {A = Unit {0}} now hash key.now value.now owner terms.now.weight (properties_of terms.now) answer shown.new old new) status)
        shard.old.address.held result shard.new.address.held }
{
    let Some(mut cache) = shard.take(alloc) else {
        return status::NOT_OPEN;
    };
    let status = status::done(cache.insert_entry(now, hash, key, value, owner, terms, shown));
    *shard = LuffaShard::of(cache);
    status
}

/// Copies a value, or the part of it that fits, and writes its length. 0, MISSING, NOT_OPEN, or 7 or 9 for F7 or F9.
#[unsafe(no_mangle)]
pub extern "C" fn luffa_shard_get(
    shard: &mut LuffaShard,
    alloc: Global,
    now: u64,
    hash: u64,
    key: &[u8],
    out: &mut [u8],
    len: &mut usize,
) -> u32
    ensures { OnHeld (λ old status new. Tells copied_of (λ answer. GetsCopy now hash key.now out.old answer out.new old new × (len.new ≡ len_of answer len.old)) status)
        shard.old.address.held result shard.new.address.held }
{
    let Some(mut cache) = shard.take(alloc) else {
        return status::NOT_OPEN;
    };
    let status = status::copied(cache.get(now, hash, key, out), len);
    *shard = LuffaShard::of(cache);
    status
}

/// Copies the value that a lookup would find, or the part of it that fits, and writes its length. It counts no use. 0,
/// MISSING, NOT_OPEN, or 7 for F7.
#[unsafe(no_mangle)]
pub extern "C" fn luffa_shard_peek(
    shard: &mut LuffaShard,
    alloc: Global,
    now: u64,
    hash: u64,
    key: &[u8],
    out: &mut [u8],
    len: &mut usize,
) -> u32
    ensures { OnHeld (λ old status new. Tells copied_of (λ answer. PeeksCopy now hash key.now out.old answer out.new old new × (len.new ≡ len_of answer len.old)) status)
        shard.old.address.held result shard.new.address.held }
{
    let Some(mut cache) = shard.take(alloc) else {
        return status::NOT_OPEN;
    };
    let status = status::copied(cache.peek(now, hash, key, out), len);
    *shard = LuffaShard::of(cache);
    status
}

/// Looks a record up and holds a handle to it. 0, MISSING, NOT_OPEN, or 7 or 9 for F7 or F9.
#[unsafe(no_mangle)]
pub extern "C" fn luffa_shard_get_entry(
    shard: &mut LuffaShard,
    alloc: Global,
    now: u64,
    hash: u64,
    key: &[u8],
    shown: &mut LuffaRecord,
) -> u32
    ensures { OnHeld (λ old status new. Tells found_of (λ answer. GetsEntry now hash key.now answer shown.new old new) status)
        shard.old.address.held result shard.new.address.held }
{
    let Some(mut cache) = shard.take(alloc) else {
        return status::NOT_OPEN;
    };
    let status = status::found(cache.get_entry(now, hash, key, shown));
    *shard = LuffaShard::of(cache);
    status
}

/// Removes a record and holds a handle to it. 0, MISSING, NOT_OPEN, or 7 or 9 for F7 or F9.
#[unsafe(no_mangle)]
pub extern "C" fn luffa_shard_remove(
    shard: &mut LuffaShard,
    alloc: Global,
    hash: u64,
    key: &[u8],
    shown: &mut LuffaRecord,
) -> u32
    ensures { OnHeld (λ old status new. Tells found_of (λ answer. RemovesEntry hash key.now answer shown.new old new) status)
        shard.old.address.held result shard.new.address.held }
{
    let Some(mut cache) = shard.take(alloc) else {
        return status::NOT_OPEN;
    };
    let status = status::found(cache.remove(hash, key, shown));
    *shard = LuffaShard::of(cache);
    status
}

/// Whether a lookup would find the key. 0, MISSING, NOT_OPEN, or 7 for F7.
#[unsafe(no_mangle)]
pub extern "C" fn luffa_shard_contains(
    shard: &mut LuffaShard,
    alloc: Global,
    now: u64,
    hash: u64,
    key: &[u8],
) -> u32
    ensures { OnHeld (λ old status new. Tells found_of (λ answer. FindsKey now hash key.now answer old new) status)
        shard.old.address.held result shard.new.address.held }
{
    let Some(mut cache) = shard.take(alloc) else {
        return status::NOT_OPEN;
    };
    let status = status::found(cache.contains(now, hash, key));
    *shard = LuffaShard::of(cache);
    status
}

/// Counts as a use of the key's record. 0, MISSING, NOT_OPEN, or 7 or 9 for F7 or F9.
#[unsafe(no_mangle)]
pub extern "C" fn luffa_shard_touch(
    shard: &mut LuffaShard,
    alloc: Global,
    now: u64,
    hash: u64,
    key: &[u8],
) -> u32
    ensures { OnHeld (λ old status new. Tells found_of (λ answer. TouchesKey now hash key.now answer old new) status)
        shard.old.address.held result shard.new.address.held }
{
    let Some(mut cache) = shard.take(alloc) else {
        return status::NOT_OPEN;
    };
    let status = status::found(cache.touch(now, hash, key));
    *shard = LuffaShard::of(cache);
    status
}

/// Ends what a number names. 0; LEFT if a record left with it, which the number names now; MISSING; WAIT, and the
/// number still waits; or NOT_OPEN.
#[unsafe(no_mangle)]
pub extern "C" fn luffa_shard_release(shard: &mut LuffaShard, alloc: Global, number: usize) -> u32
    ensures { OnHeld (λ old status new. Releases (get old.holds number) number status old new)
        shard.old.address.held result shard.new.address.held }
{
    let Some(mut cache) = shard.take(alloc) else {
        return status::NOT_OPEN;
    };
    let status = cache.release(number);
    *shard = LuffaShard::of(cache);
    status
}
