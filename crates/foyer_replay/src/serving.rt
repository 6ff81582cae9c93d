//! What a request asks of a shard.

ghost use Rattle.std.specs.Prelude.{◌≡◌, IfOk, OnOk};
ghost use Rattle.foyer_core.specs.Inflight.{no_opens};
ghost use Rattle.foyer_core.specs.Shards.{meaning_of, opens_of, state_of};
ghost use Rattle.foyer_replay.specs.Idle.{HasNoHandle};
ghost use Rattle.foyer_replay.specs.Replay.{ServesAs, Stores};

use crate::request::{Operation, Outcome, Request, RequestWeighter};
use foyer_core::{CacheProperties, Data, Leave, Shard, Share, TagFinder, Weighter};
use foyer_policy::{Error, Eviction, Reason, Result};
use std::alloc::Global;

/// A shard of a replay, in which a record's value is its weight.
pub type ReplayShard<E> = Shard<E, u64, u64, CacheProperties, (), (), TagFinder<u64>>;

/// What left at requests, in order.
pub type Departures = Vec<Leave<u64, u64, CacheProperties>>;

/// Serves a request whose key has this hash: a get that finds no record inserts one. What leaves is appended to
/// `departures`.
///
/// # Errors
/// F7 if memory runs out.
#[inline]
pub(crate) fn serve_in<E: Eviction>(
    shard: &mut ReplayShard<E>,
    alloc: Global,
    hash: u64,
    request: &Request,
    departures: &mut Departures,
) -> Result<Outcome>
    requires alone { opens_of shard.old ≡ no_opens }
    ensures served { IfOk result (λ outcome. ServesAs (meaning_of shard.old) request.now.operation outcome request.now hash
        (state_of shard.old) (state_of shard.new)) }
    ensures idle { HasNoHandle (state_of shard.old) → HasNoHandle (state_of shard.new) }
    ensures opens { opens_of shard.new ≡ opens_of shard.old }
{
    match request.operation {
        Operation::Get => match shard.touch(request.time, hash, &request.key) {
            Ok(true) => Ok(Outcome::Hit),
            Ok(false) => match store(shard, alloc, hash, request, departures) {
                Ok(()) => Ok(Outcome::Miss),
                Err(error) => Err(error),
            },
            Err(error) => Err(error),
        },
        Operation::Put => match store(shard, alloc, hash, request, departures) {
            Ok(()) => Ok(Outcome::Done),
            Err(error) => Err(error),
        },
        Operation::Remove => match shard.delete(hash, &request.key) {
            Ok(_left) => Ok(Outcome::Done),
            Err(error) => Err(error),
        },
    }
}

// Inserts the request's record, of which no entry is made.
#[inline]
fn store<E: Eviction>(
    shard: &mut ReplayShard<E>,
    alloc: Global,
    hash: u64,
    request: &Request,
    departures: &mut Departures,
) -> Result<()>
    requires alone { opens_of shard.old ≡ no_opens }
    ensures stored { OnOk result (Stores (meaning_of shard.old) request.now hash (state_of shard.old) (state_of shard.new)) }
    ensures idle { HasNoHandle (state_of shard.old) → HasNoHandle (state_of shard.new) }
    ensures opens { opens_of shard.new ≡ opens_of shard.old }
{
    let kept = Data {
        key: request.key,
        value: request.weight,
        properties: CacheProperties::default().with_expiry(request.expiry),
        hash,
        weight: RequestWeighter.weigh(&request.key, &request.weight),
    };
    let Ok(share) = Share::new(alloc, kept) else {
        return Err(Error::new(Reason::NoMemory));
    };
    match shard.put(request.time, share, departures) {
        Ok(_left) => Ok(()),
        Err(error) => Err(error),
    }
}
