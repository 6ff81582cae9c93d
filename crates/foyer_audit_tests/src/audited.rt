//! Calls of audited shards, by one thread and by four.

use crate::testing::{Outcome, Plain, config, insert};
use foyer_audit::{AuditedShard, Share};
use foyer_core::{AdmitAll, CacheProperties, UnitWeighter};
use foyer_policy::{Fifo, FifoConfig, ModHasher};
use foyer_session::{Answer, Command, NoPredicate};
use std::alloc::Global;
use std::marker::Brand;
use std::process::Abort;
use std::sync::Wait;
use std::sync::ledger::{Blank, Ledger};

mod threads;

type Shard<G> = AuditedShard<
    G,
    Fifo,
    u64,
    u64,
    CacheProperties,
    ModHasher,
    UnitWeighter,
    AdmitAll,
    NoPredicate,
    FifoConfig,
>;

type Part<G> = Share<G, u64, u64, CacheProperties, NoPredicate, FifoConfig>;

fn answer<G: Ledger>(
    rt: &impl Wait,
    shard: &Shard<G>,
    share: &mut Part<G>,
    asked: Plain,
) -> Outcome<(Answer<u64, u64, CacheProperties>, u64)> {
    let (reply, number) = shard.call(rt, share, asked)?;
    Ok((reply.ok_or("no reply")?.answer, number))
}

// An audited shard, the second of two, with the shares of two callers.
fn two_callers<G: Ledger>(alloc: Global, blank: Blank) -> Outcome<(Shard<G>, Part<G>, Part<G>)> {
    let (shard, mut shares) = Shard::<G>::new(alloc, blank, config(8, 2), 1, 2)?;
    let one = shares.pop().ok_or("no share")?;
    let other = shares.pop().ok_or("no share")?;
    Ok((shard, one, other))
}

fn one_is_missing<G: Ledger>(rt: &(impl Wait + Abort), alloc: Global, blank: Blank) -> Outcome {
    let (shard, mut one, mut other) = two_callers::<G>(alloc, blank)?;
    answer(rt, &shard, &mut one, insert(1, 10))?;
    answer(rt, &shard, &mut other, Command::Get(0, 1))?;
    let mut shares = Vec::new(alloc);
    shares.push(one)?;
    let ended = shard.close(shares);
    assert!(rt; !ended.yes);
    assert_eq!(rt; ended.history.len(), 2);
    Ok(())
}

#[test]
fn a_missing_share_is_noticed(rt: HostRuntime) -> Outcome {
    one_is_missing::<Brand>(&rt, rt.alloc(), Blank::new(2))
}

// Two calls of each caller, the first of the other with a key of the first shard.
fn call_here_and_elsewhere<G: Ledger>(
    rt: &(impl Wait + Abort),
    shard: &Shard<G>,
    one: &mut Part<G>,
    other: &mut Part<G>,
) -> Outcome {
    let (told, number) = answer(rt, shard, one, insert(3, 30))?;
    assert!(rt; matches!(told, Answer::Entry { handle: 0, .. }) && number == 0);
    // Key 2 lives in the first shard.
    let (told, number) = answer(rt, shard, other, insert(2, 20))?;
    assert!(rt; matches!(told, Answer::NotHeld) && number == 1);
    let (told, number) = answer(rt, shard, one, Command::Get(0, 3))?;
    assert!(rt; matches!(told, Answer::Found { handle: 1, .. }) && number == 2);
    let (told, number) = answer(rt, shard, other, Command::Entries)?;
    assert!(rt; matches!(told, Answer::Number(1)) && number == 3);
    Ok(())
}

fn keys_elsewhere<G: Ledger>(rt: &(impl Wait + Abort), alloc: Global, blank: Blank) -> Outcome {
    let (shard, mut one, mut other) = two_callers::<G>(alloc, blank)?;
    call_here_and_elsewhere(rt, &shard, &mut one, &mut other)?;
    assert_eq!(rt; (one.receipts().len(), other.receipts().len()), (2, 2));
    let mut shares = Vec::new(alloc);
    shares.push(other)?;
    shares.push(one)?;
    let ended = shard.close(shares);
    assert!(rt; ended.yes);
    let second = ended.history.get(1);
    assert!(rt;
        matches!(second, Some((Command::Insert(0, 2, 20, _), reply)) if matches!(reply.answer, Answer::NotHeld))
    );
    Ok(())
}

// It is answered `NotHeld`, recorded, and accounted for.
#[test]
fn a_key_of_another_shard_is_not_held(rt: HostRuntime) -> Outcome {
    keys_elsewhere::<Brand>(&rt, rt.alloc(), Blank::new(2))
}
