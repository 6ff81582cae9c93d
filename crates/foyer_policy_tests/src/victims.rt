//! What leaves first after some uses: an example of each policy.

use crate::policies::{assert_order, item, push};
use foyer_policy::{
    Eviction, Fifo, FifoConfig, Hint, Item, Lfu, LfuConfig, Lru, LruConfig, Place, Ratio, S3Fifo,
    S3FifoConfig, Sieve, SieveConfig,
};
use std::process::Abort;
use std::test::Fail;

// Takes so many records in, numbered from 0 on, and answers their places.
fn push_all<E: Eviction, const COUNT: usize>(policy: &mut E) -> Result<[Place; COUNT], Fail> {
    let mut places = [Place::at(0); COUNT];
    for (id, place) in places.iter_mut().enumerate() {
        *place = push(policy, item(id as u64))?;
    }
    Ok(places)
}

// Pops as many records, which are these, each with so many looks.
fn assert_pops<E: Eviction>(
    rt: &impl Abort,
    policy: &mut E,
    pops: &[(u64, u128)],
) -> Result<(), Fail> {
    for (id, looks) in pops {
        let victim = policy.pop()?;
        assert_eq!(rt; victim.map(|victim| victim.id), Some(*id));
        assert_eq!(rt; policy.looks(), *looks, "at {id}");
    }
    Ok(())
}

#[test]
fn fifo_gives_the_first_in(rt: HostRuntime) -> Result<(), Fail> {
    let mut fifo = Fifo::new(rt.alloc(), 16, &FifoConfig {})?;
    let places: [Place; 4] = push_all(&mut fifo)?;
    fifo.acquire(places[0]);
    fifo.release(places[0]);
    fifo.remove(places[1]);
    assert_pops(&rt, &mut fifo, &[(0, 0), (2, 0), (3, 0)])
}

#[test]
fn lru_gives_nothing_pinned_and_high_priority_last(rt: HostRuntime) -> Result<(), Fail> {
    let config = LruConfig {
        high_priority_pool_ratio: Ratio { num: 1, den: 2 },
    };
    let mut lru = Lru::new(rt.alloc(), 8, &config)?;
    let places: [Place; 3] = push_all(&mut lru)?;
    for id in [10, 11] {
        push(
            &mut lru,
            Item {
                hint: Hint::Low,
                ..item(id)
            },
        )?;
    }
    lru.acquire(places[0]);
    assert!(rt; lru.is_pinned(places[0]));
    assert_eq!(rt; (lru.high_priority_weight(), lru.pinned_weight()), (2, 1));
    assert_pops(&rt, &mut lru, &[(10, 0), (11, 0), (1, 0)])?;
    lru.release(places[0]);
    assert_eq!(rt; (lru.high_priority_weight(), lru.pinned_weight()), (2, 0));
    assert_pops(&rt, &mut lru, &[(2, 0), (0, 0)])
}

// The window may weigh 2 and the protected list 6. The front of the window was seen less often than that of probation.
#[test]
fn lfu_gives_what_was_used_less_often(rt: HostRuntime) -> Result<(), Fail> {
    let config = LfuConfig {
        window_capacity_ratio: Ratio { num: 2, den: 10 },
        protected_capacity_ratio: Ratio { num: 6, den: 10 },
        cmsketch_buckets: 272,
        cmsketch_hashes: 3,
    };
    let mut lfu = Lfu::new(rt.alloc(), 10, &config)?;
    let places: [Place; 6] = push_all(&mut lfu)?;
    lfu.acquire(places[0]);
    lfu.acquire(places[1]);
    assert_order(&rt, &lfu, &[4, 5, 2, 3, 0, 1])?;
    lfu.acquire(places[4]);
    assert_order(&rt, &lfu, &[5, 4, 2, 3, 0, 1])?;
    assert_pops(
        &rt,
        &mut lfu,
        &[(2, 0), (3, 0), (5, 0), (4, 0), (0, 0), (1, 0)],
    )
}

// The small queue may weigh 2. What was used twice goes to the main queue, where it is read until its frequency is 0;
// what left the small queue comes in at the main queue.
#[test]
fn s3fifo_gives_what_was_not_used(rt: HostRuntime) -> Result<(), Fail> {
    let config = S3FifoConfig {
        small_queue_capacity_ratio: Ratio { num: 1, den: 4 },
        ghost_queue_capacity_ratio: Ratio { num: 10, den: 1 },
        small_to_main_freq_threshold: 2,
    };
    let mut s3fifo = S3Fifo::new(rt.alloc(), 8, &config)?;
    let places: [Place; 4] = push_all(&mut s3fifo)?;
    for used in [0, 1, 2, 3, 1, 2] {
        s3fifo.acquire(places[used]);
    }
    assert_pops(&rt, &mut s3fifo, &[(0, 0), (3, 0), (1, 5)])?;
    push(&mut s3fifo, item(0))?;
    push(&mut s3fifo, item(4))?;
    assert_order(&rt, &s3fifo, &[4, 2, 0])?;
    assert_pops(&rt, &mut s3fifo, &[(2, 1), (0, 1), (4, 0)])
}

#[test]
fn sieve_passes_over_what_was_used_once(rt: HostRuntime) -> Result<(), Fail> {
    let mut sieve = Sieve::new(rt.alloc(), 16, &SieveConfig)?;
    let places: [Place; 4] = push_all(&mut sieve)?;
    sieve.acquire(places[1]);
    sieve.acquire(places[3]);
    assert_pops(&rt, &mut sieve, &[(0, 1), (2, 2), (1, 2), (3, 1)])
}
