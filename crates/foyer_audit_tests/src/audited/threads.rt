//! Four threads over the four audited shards of one configuration.

use super::{Part, Shard};
use crate::testing::{Outcome, command, config, next, session};
use std::alloc::Global;
use std::marker::Brand;
use std::process::Abort;
use std::sync::Wait;
use std::sync::ledger::{Blank, Ledger};
use std::thread;
use std::thread::Threads;

/// What the four shards of a configuration have each, of the ledgers of their own.
#[derive(Drop)]
struct Four<A, B, C, D> {
    a: A,
    b: B,
    c: C,
    d: D,
}

/// The shards.
type Shards<F, G, H, I> = Four<Shard<F>, Shard<G>, Shard<H>, Shard<I>>;

/// One thread's share in each.
type Hand<F, G, H, I> = Four<Part<F>, Part<G>, Part<H>, Part<I>>;

/// The shares in each of which no thread has hold.
type Shares<F, G, H, I> = Four<Vec<Part<F>>, Vec<Part<G>>, Vec<Part<H>>, Vec<Part<I>>>;

// Makes the call of a number on the shard of this number. Whether it was replied to.
fn ask<G: Ledger>(
    rt: &impl Wait,
    alloc: Global,
    shard: &Shard<G>,
    share: &mut Part<G>,
    number: u64,
    of: u64,
) -> bool {
    let key = ((number >> 40) % 16 * 4).wrapping_add(of);
    match command(alloc, number, key) {
        Ok(asked) => matches!(shard.call(rt, share, asked), Ok((Some(_), _))),
        Err(_) => false,
    }
}

// Makes 500 calls, in turn on each shard. How many were replied to.
fn work<F: Ledger, G: Ledger, H: Ledger, I: Ledger>(
    rt: &impl Wait,
    alloc: Global,
    shards: &Shards<F, G, H, I>,
    hand: &mut Hand<F, G, H, I>,
    seed: u64,
) -> u64 {
    let mut replied: u64 = 0;
    let mut number = seed;
    for turn in 0..500u64 {
        let ok = match turn % 4 {
            0 => ask(rt, alloc, &shards.a, &mut hand.a, number, 0),
            1 => ask(rt, alloc, &shards.b, &mut hand.b, number, 1),
            2 => ask(rt, alloc, &shards.c, &mut hand.c, number, 2),
            _ => ask(rt, alloc, &shards.d, &mut hand.d, number, 3),
        };
        replied += u64::from(ok);
        number = next(number);
    }
    replied
}

fn take_hand<F: Ledger, G: Ledger, H: Ledger, I: Ledger>(
    shares: &mut Shares<F, G, H, I>,
) -> Outcome<Hand<F, G, H, I>> {
    Ok(Four {
        a: shares.a.pop().ok_or("no share")?,
        b: shares.b.pop().ok_or("no share")?,
        c: shares.c.pop().ok_or("no share")?,
        d: shares.d.pop().ok_or("no share")?,
    })
}

fn put_back<F: Ledger, G: Ledger, H: Ledger, I: Ledger>(
    shares: &mut Shares<F, G, H, I>,
    hand: Hand<F, G, H, I>,
) -> Outcome {
    let Four { a, b, c, d } = hand;
    shares.a.push(a)?;
    shares.b.push(b)?;
    shares.c.push(c)?;
    shares.d.push(d)?;
    Ok(())
}

// Four threads over four shards. How many calls of each were replied to.
fn four_threads<F: Ledger, G: Ledger, H: Ledger, I: Ledger, R: Threads + Wait + Sync>(
    rt: &R,
    alloc: Global,
    shards: &Shards<F, G, H, I>,
    shares: &mut Shares<F, G, H, I>,
) -> Outcome<((u64, u64), (u64, u64))> {
    let (mut one, mut two) = (take_hand(shares)?, take_hand(shares)?);
    let (mut three, mut four) = (take_hand(shares)?, take_hand(shares)?);
    let replied = thread::join(
        rt,
        || thread::join(
            rt,
            || work(rt, alloc, shards, &mut one, 1),
            || work(rt, alloc, shards, &mut two, 2),
        ),
        || thread::join(
            rt,
            || work(rt, alloc, shards, &mut three, 3),
            || work(rt, alloc, shards, &mut four, 4),
        ),
    );
    for hand in [one, two, three, four] {
        put_back(shares, hand)?;
    }
    Ok(replied)
}

// Ends the shard of this number: the receipts account for the history, which has all calls on it, and a fresh session
// over such a shard gives the same replies.
fn has_all_calls<G: Ledger>(
    rt: &impl Abort,
    alloc: Global,
    shard: Shard<G>,
    shares: Vec<Part<G>>,
    place: usize,
) -> Outcome {
    let ended = shard.close(shares);
    assert!(rt; ended.yes);
    assert_eq!(rt; ended.history.len(), 500);
    let mut fresh = session(alloc, 256, 4, place)?;
    for (command, reply) in ended.history {
        assert!(rt; fresh.step(command)? == reply);
    }
    Ok(())
}

// Four threads over four shards, each with a ledger of its own, whose histories and receipts are then compared.
fn four_shards<F: Ledger, G: Ledger, H: Ledger, I: Ledger, R: Threads + Wait + Abort + Sync>(
    rt: &R,
    alloc: Global,
    blanks: Four<Blank, Blank, Blank, Blank>,
) -> Outcome {
    let (a, of_a) = Shard::<F>::new(alloc, blanks.a, config(256, 4), 0, 4)?;
    let (b, of_b) = Shard::<G>::new(alloc, blanks.b, config(256, 4), 1, 4)?;
    let (c, of_c) = Shard::<H>::new(alloc, blanks.c, config(256, 4), 2, 4)?;
    let (d, of_d) = Shard::<I>::new(alloc, blanks.d, config(256, 4), 3, 4)?;
    let shards = Four { a, b, c, d };
    let mut shares = Four {
        a: of_a,
        b: of_b,
        c: of_c,
        d: of_d,
    };
    let replied = four_threads(rt, alloc, &shards, &mut shares)?;
    assert_eq!(rt; replied, ((500, 500), (500, 500)));
    has_all_calls(rt, alloc, shards.a, shares.a, 0)?;
    has_all_calls(rt, alloc, shards.b, shares.b, 1)?;
    has_all_calls(rt, alloc, shards.c, shares.c, 2)?;
    has_all_calls(rt, alloc, shards.d, shares.d, 3)
}

// Each history has all 500 calls on its shard, 125 of each thread, and a session in one thread's hands replies the
// same.
#[test]
fn four_threads_over_four_shards(rt: HostRuntime) -> Outcome {
    let blanks = Four {
        a: Blank::new(4),
        b: Blank::new(4),
        c: Blank::new(4),
        d: Blank::new(4),
    };
    four_shards::<Brand, Brand, Brand, Brand, _>(&rt, rt.alloc(), blanks)
}
